//! What a request came to.

ghost use Rattle.std.specs.Prelude.{◌≡◌};
ghost use Rattle.mx_state.specs.Replies.{alone};

use mx_core::Changes;
use mx_pages::PageRun;
use mx_request::Reply;
use std::alloc::Global;

/// What a request came to: its reply; exactly the descriptors that it changed, in order of process and segment number;
/// and the run of exactly the pages that it gave out, and of those that it freed. None where it gave out or freed none.
#[derive(Drop)]
pub struct Applied {
    pub reply: Reply,
    pub changes: Changes,
    pub given: Option<PageRun>,
    pub freed: Option<PageRun>,
}

impl Applied {
    /// A reply alone.
    pub(crate) fn unchanged(alloc: Global, reply: Reply) -> Applied
        ensures { result ≡ alone reply }
    {
        Applied {
            reply,
            changes: Changes::new(alloc),
            given: None,
            freed: None,
        }
    }
}
