//! The journal: every supervisor call of a run, in the one order in which the supervisor took them.

ghost use Rattle.std.specs.Prelude.{◌≡◌};

use mx_list::Sequence;
use mx_request::{Reply, Request, SharedRequest};
use mx_sdw::Ring;

/// One call: the process that made it (0 is the initializer), its ring, what it asked for and what it was answered.
#[derive(Drop)]
pub struct Entry {
    pub process: u8,
    pub ring: Ring,
    pub request: SharedRequest,
    pub reply: Reply,
}

impl Entry {
    /// What it asked for.
    pub fn request(&self) -> &Request
        ensures { result.now ≡ self.now.request }
    {
        self.request.request()
    }
}

/// All calls in order. The entry of number k is the k-th, counted from 1.
pub type Journal = Sequence<Entry>;
