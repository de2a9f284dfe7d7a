//! A guard: an auditor that acts. It lets its process be denied so often, and then logs it out.

ghost use Rattle.std.specs.Prelude.{◌≤◌, IfOk, map};
ghost use Rattle.mx_audit.specs.Accounts.{HaveRoom};

use mx_audit::{Auditor, Verdict};
use mx_sdw::Denial;
use std::alloc::{AllocError, Global};
use std::marker::Model;

/// For so many denials a guard has room, as the top call asks for.
pub(crate) const ROOM: usize = 700_000;

/// An auditor that lets its process be denied so often, and logs it out at the next denial. It takes all its memory when it is made.
#[derive(Drop)]
pub(crate) struct Guard {
    told: Vec<(u32, Denial, Verdict)>,
    room: usize,
    patience: u32,
}

impl Model for Guard {
    ghost use Rattle.std.specs.Prelude.{◌+◌, ◌≤◌, vec_len, vec_capacity};
    ghost use Rattle.mx_audit.specs.Accounts.{Account};

    ghost Value = { Account };

    ghost view = { λ a. record { told = a.told.items; room = a.room } };

    ghost invariant = { λ a. vec_len a.told + a.room ≤ vec_capacity a.told };
}

impl Guard {
    ghost use Rattle.std.specs.Prelude.{◌≡◌, IfOk};

    /// A guard that was told of nothing, with room for so many denials.
    pub(crate) fn new(alloc: Global, room: usize, patience: u32) -> Result<Guard, AllocError>
        ensures { IfOk result (λ guard. guard.room ≡ room) }
    {
        Ok(Guard {
            told: Vec::with_capacity(alloc, room)?,
            room,
            patience,
        })
    }
}

impl Auditor for Guard {
    ghost account = { λ guard. guard };

    fn denied(&mut self, line: u32, denial: Denial) -> Verdict {
        let verdict = if self.count() < self.patience {
            Verdict::GoOn
        } else {
            Verdict::Logout
        };
        self.room -= 1;
        let Ok(()) = self.told.extend_from_slice(&[(line, denial, verdict)]) else {
            unreachable!()
        };
        verdict
    }

    fn count(&self) -> u32 {
        u32::try_from(self.told.len()).unwrap_or(u32::MAX)
    }

    fn told(&self, i: u32) -> Option<(u32, Denial, Verdict)> {
        self.told.get(i as usize).copied()
    }
}

/// The auditors of a session whose process 1 has this guard, and no other has one.
pub(crate) fn alone(
    alloc: Global,
    guard: Box<dyn Auditor + Send>,
) -> Result<Vec<Box<dyn Auditor + Send>>, AllocError>
    requires { 700000 ≤ (account guard).room }
    ensures { IfOk result (λ auditors. HaveRoom 700000 (map account auditors.items)) }
{
    Ok(vec![in alloc; guard]?)
}
