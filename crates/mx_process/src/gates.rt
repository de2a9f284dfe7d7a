//! Gates: what is told of each script line before it begins.

/// Is told of each line of a script, the `logout` among them, before the line begins: once, by the thread that is to do the
/// line, while nothing is locked. The call may take as long as it likes; the process is held that long.
pub trait Gate: Sync {
    /// Process `process`, from 1 on, is about to begin the line with this number in the session text.
    fn pass(&self, process: u32, line: u32);

    /// Whether it lets every line begin at once, so that it need not be told of each.
    fn holds_nobody(&self) -> bool {
        false
    }
}

/// The gate that holds nobody.
#[derive(Clone, Copy, Debug, PartialEq, Eq)]
pub struct NoGate;

impl Gate for NoGate {
    fn pass(&self, _process: u32, _line: u32) {}

    fn holds_nobody(&self) -> bool {
        true
    }
}
