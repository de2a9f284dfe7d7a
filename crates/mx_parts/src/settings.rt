//! What the lines of a process are held against.

ghost use Rattle.std.specs.Prelude.{◌≡◌};
ghost use Rattle.mx_transcript.specs.Legal.{setting_of};

use mx_script::Session;
use mx_state::Journal;

/// The session, the journal, and the process whose lines they are.
#[derive(Clone, Copy)]
pub(crate) struct Setting<'a> {
    pub session: &'a Session,
    pub journal: &'a Journal,
    pub process: usize,
}

impl<'a> Setting<'a> {
    /// Whether the journal is at its limit.
    pub fn is_full(&self) -> bool
        ensures { result ≡ (setting_of self.now.session.now self.now.journal.now self.now.process).full }
    {
        self.journal.items().len() == self.session.limit() as usize
    }
}
