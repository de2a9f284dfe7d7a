//! An auditor that keeps the denials in memory, and lets each process go on.

use crate::auditors::{Auditor, Verdict};
use mx_sdw::Denial;
use std::alloc::{AllocError, Global};
use std::marker::Model;

/// An auditor that keeps what it is told of, and always answers that the process goes on. It takes all its memory when it is made.
#[derive(Debug, Drop)]
pub struct AuditLog {
    denials: Vec<(u32, Denial, Verdict)>,
    room: usize,
}

impl Model for AuditLog {
    ghost use Rattle.std.specs.Prelude.{◌+◌, ◌≤◌, vec_len, vec_capacity};
    ghost use Rattle.mx_audit.specs.Accounts.{Account};

    ghost Value = { Account };

    ghost view = { λ a. record { told = a.denials.items; room = a.room } };

    ghost invariant = { λ a. vec_len a.denials + a.room ≤ vec_capacity a.denials };
}

impl AuditLog {
    ghost use Rattle.std.specs.Prelude.{◌≡◌, [], IfOk};

    /// A log that was told of nothing, with room for so many denials.
    pub fn new(alloc: Global, room: usize) -> Result<AuditLog, AllocError>
        ensures told { IfOk result (λ log. log.told ≡ []) }
        ensures room { IfOk result (λ log. log.room ≡ room) }
    {
        let denials = Vec::with_capacity(alloc, room)?;
        Ok(AuditLog { denials, room })
    }
}

impl Auditor for AuditLog {
    ghost account = { λ log. log };

    fn denied(&mut self, line: u32, denial: Denial) -> Verdict {
        self.room -= 1;
        let Ok(()) = self
            .denials
            .extend_from_slice(&[(line, denial, Verdict::GoOn)])
        else {
            unreachable!()
        };
        Verdict::GoOn
    }

    fn count(&self) -> u32 {
        u32::try_from(self.denials.len()).unwrap_or(u32::MAX)
    }

    fn told(&self, i: u32) -> Option<(u32, Denial, Verdict)> {
        self.denials.get(i as usize).copied()
    }
}
