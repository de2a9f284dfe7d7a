//! A plain supervisor before which a journal is played.

ghost use Rattle.std.specs.Prelude.{◌≡◌, ◌≤◌, length, IsTrue};
ghost use Rattle.mx_state.specs.History.{MayAsk};

use mx_fresh::{Answered, PlainSupervisor};
use mx_request::{Entrant, Request, RequestClass};
use mx_sdw::{Desc, Ring};
use std::alloc::{AllocError, Global};

/// A plain supervisor, and of how many processes.
#[derive(Drop)]
pub(crate) struct Played<S: PlainSupervisor> {
    supervisor: S,
    processes: u8,
    ghost counted: { processes ≡ length (S.state supervisor).processes },
}

impl<S: PlainSupervisor> Played<S> {
    /// The opening of a session of this version with these processes.
    pub(crate) fn open(
        alloc: Global,
        version: u8,
        entrants: &[Entrant],
    ) -> Result<Played<S>, AllocError>
        requires some { 1 ≤ length entrants.now }
        requires most { length entrants.now ≤ 15 }
    {
        let supervisor = S::opening(alloc, entrants, version)?;
        Ok(Played {
            supervisor,
            processes: entrants.len() as u8,
        })
    }

    /// How many processes there are.
    pub(crate) fn processes(&self) -> u8 {
        self.processes
    }

    /// What a process is answered in a ring; none where it may not ask.
    pub(crate) fn ask(
        &mut self,
        alloc: Global,
        p: u8,
        ring: Ring,
        request: &Request,
    ) -> Result<Option<Answered>, AllocError> {
        if !self.may_ask(p, request) {
            return Ok(None);
        }
        let answered = self.supervisor.apply(alloc, p, ring, request)?;
        Ok(Some(answered))
    }

    fn may_ask(&self, p: u8, request: &Request) -> bool
        ensures { IsTrue result → MayAsk (S.state self.now.supervisor) p request.now }
    {
        let is_of_path = match request.class() {
            RequestClass::OfPath => true,
            RequestClass::OfProcess | RequestClass::OfSupervisor => false,
        };
        p <= self.processes && (p > 0 || is_of_path)
    }

    /// The descriptor that a process has of a number; none where there is no such process.
    pub(crate) fn descriptor(&self, p: u8, segno: u16) -> Option<Desc> {
        if p == 0 || p > self.processes {
            return None;
        }
        Some(self.supervisor.descriptor(p, segno))
    }
}
