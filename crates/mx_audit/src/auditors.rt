//! What an auditor is told, and what it answers.

ghost use Rattle.std.specs.Prelude.{◌≡◌, ℕ, ◌≤◌, [], ◌∷◌, min, length, slice_get};
ghost use Rattle.mx_audit.specs.Accounts.{Account, with_told};

use mx_sdw::Denial;

/// What an auditor answers to a denial.
#[derive(Clone, Copy, Debug, PartialEq, Eq)]
pub enum Verdict {
    /// The process goes on.
    GoOn,
    /// The process runs no further line of its script but its `logout`.
    Logout,
}

/// One that is told of each denial of a process, in order.
pub trait Auditor: Drop {
    /// The denials that it was told of with its verdicts, and for how many more it has room.
    ghost account: { Self → Account };

    /// It is told of one more denial, with the number of the line that was denied in the session text, and says whether the process
    /// goes on. Takes no memory.
    fn denied(&mut self, line: u32, denial: Denial) -> Verdict
        requires { 1 ≤ (account self.old).room }
        ensures { account self.new ≡ with_told (account self.old) ((line, denial, result) ∷ []) };

    /// Of how many denials it was told, at most the greatest u32.
    fn count(&self) -> u32
        ensures { result ≡ min (length (account self.now).told) 4294967295 };

    /// The denial at place `i`, counted from 0, with its line's number and the verdict. `None` exactly where there is none.
    fn told(&self, i: u32) -> Option<(u32, Denial, Verdict)>
        ensures { result ≡ slice_get (account self.now).told i };
}

impl Auditor for Box<dyn Auditor + Send> {
    ghost account = { λ b. (Auditor-box b).account b.value };

    fn denied(&mut self, line: u32, denial: Denial) -> Verdict {
        (**self).denied(line, denial)
    }

    fn count(&self) -> u32 {
        (**self).count()
    }

    fn told(&self, i: u32) -> Option<(u32, Denial, Verdict)> {
        (**self).told(i)
    }
}
