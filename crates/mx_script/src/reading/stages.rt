//! How far a session was read.

use mx_request::Entrant;

/// What was read last.
#[derive(Clone, Copy)]
pub(crate) enum Stage {
    /// No line yet.
    Empty,
    /// The version, the limit or a request of the setup.
    Headed,
    /// The line of a process, or one of its script.
    Running(Entrant),
    /// The end of a script.
    LoggedOut,
    /// The end.
    Ended,
}

/// Where a line leads in a script.
#[derive(Clone, Copy)]
pub(crate) enum Reach {
    /// It cannot stand there.
    Nowhere,
    /// The script goes on.
    Within,
    /// The process has logged out.
    Logout,
}
