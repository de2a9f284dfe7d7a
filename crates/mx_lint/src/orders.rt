//! What is wrong with the order of lines.

/// Why a line that may be right by itself cannot stand at its place.
#[derive(Clone, Copy)]
pub enum Order {
    /// The first line is another than the header.
    FirstIsHeader,
    /// A second header.
    HeaderOnce,
    /// A limit elsewhere than right after the header.
    HistorySecond,
    /// A process's line before the first process.
    NoProcessYet,
    /// `logout` before the first process.
    LogoutWithoutProcess,
    /// `end` before the first process.
    EndWithoutProcess,
    /// A `process` line in a script.
    ProcessInScript,
    /// `end` in a script.
    EndInScript,
    /// A path request after the first process's `logout`.
    SetupAfterProcess,
    /// A line of a script behind its `logout`.
    AfterLogout,
    /// A sixteenth process.
    Sixteenth,
    /// A line behind `end`.
    AfterEnd,
    /// A request that the supervisor enters for a process.
    OfSupervisor,
    /// A line that came with version 2, in a session of version 1.
    FromVersionTwo,
    /// A line that came with version 3, in a session of an older one.
    FromVersionThree,
    /// The class of a process in a session of version 1.
    ClassInVersionOne,
}

impl Order {
    /// The reason in words.
    pub(crate) fn words(self) -> &'static str {
        match self {
            Order::FirstIsHeader =>
                "a session begins with the line `multics 1`, `multics 2`, `multics 3` or `multics 4`",
            Order::HeaderOnce => "the line of the version stands once, as the first line",
            Order::HistorySecond => "`history` stands once, right behind the first line",
            Order::NoProcessYet => "a line of a process's script before the first process line",
            Order::LogoutWithoutProcess => "`logout` before the first process line",
            Order::EndWithoutProcess => {
                "`end` before the first process line: a session has 1 to 15 processes"
            }
            Order::ProcessInScript => {
                "a process line where the process before has not logged out: `logout` is missing"
            }
            Order::EndInScript => {
                "`end` where the last process has not logged out: `logout` is missing"
            }
            Order::SetupAfterProcess =>
                "a request behind a `logout`: it stands in the setup or in a script",
            Order::AfterLogout => {
                "a script line behind its `logout`: a process line or `end` is to follow"
            }
            Order::Sixteenth => "a sixteenth process: a session has 1 to 15 of them",
            Order::AfterEnd => "nothing may follow `end`, not even an empty line",
            Order::OfSupervisor => {
                "the supervisor enters this for a process in the journal; no session asks for it"
            }
            Order::FromVersionTwo =>
                "a session has this from version 2 on, and the first line says 1",
            Order::FromVersionThree =>
                "a session has this from version 3 on, and the first line says less",
            Order::ClassInVersionOne => {
                "a process has a class from version 2 on, and the first line says 1"
            }
        }
    }
}
