//! The plain supervisor from plain lists.

ghost use Rattle.std.specs.Prelude.{◌≡◌, ◌≤◌, length, IfOk, OnErr};
ghost use Rattle.mx_state.specs.Given.{AreGiven, AreFreed};
ghost use Rattle.mx_state.specs.History.{opening, MayAsk};
ghost use Rattle.mx_state.specs.Plain.{answer};
ghost use Rattle.mx_state.specs.Requests.{plain};
ghost use Rattle.mx_state.specs.Table.{descriptor};
ghost use Rattle.mx_fresh.specs.Told.{IsUndecided};

use crate::answered::Answered;
use crate::supervisor::FreshState;
use mx_request::{Entrant, Request};
use mx_sdw::{Desc, Ring};
use std::alloc::{AllocError, Global};
use std::marker::Model;

/// The plain supervisor: a state in which no page of memory is held twice, and none that is held is free.
#[derive(Drop)]
pub struct Fresh {
    state: FreshState,
}

impl Model for Fresh {
    ghost use Rattle.mx_state.specs.Pages.{ArePagesHeldOnce};
    ghost use Rattle.mx_state.specs.Plain.{Plain};

    ghost Value = { Plain };

    ghost view = { λ a. a.state };

    ghost invariant = { λ a. ArePagesHeldOnce a.state };
}

impl Fresh {
    /// The state before any entry, for 1 to 15 processes with their principals and authorizations, in a session of this
    /// version.
    pub fn new(alloc: Global, entrants: &[Entrant], version: u8) -> Result<Fresh, AllocError>
        requires most { length entrants.now ≤ 15 }
        ensures { IfOk result (λ fresh. fresh ≡ opening version entrants.now) }
    {
        let state = FreshState::new(alloc, entrants, version)?;
        Ok(Fresh { state })
    }

    /// Answers the request of process `p` in a ring as the definition says; process 0 is the initializer, which makes
    /// requests on paths alone. The runs of pages are exactly those that were given out and that were freed. A refusal
    /// changes nothing, and nor does want of memory, the only error. A refusal that is found before memory is taken is
    /// told whatever memory there is: a path that can't be resolved, a number that is not that of a known segment, a word
    /// that is not one of a linkage section, and each refusal of a message; `block`, `resume` and `logout` take no memory.
    pub fn apply(
        &mut self,
        alloc: Global,
        p: u8,
        ring: Ring,
        request: &Request,
    ) -> Result<Answered, AllocError>
        requires { MayAsk self.old p request.now }
        ensures answer { IfOk result (λ given. plain self.old p ring request.now ≡ answer given.reply self.new) }
        ensures given { IfOk result (λ answered. AreGiven self.old self.new answered.given) }
        ensures freed { IfOk result (λ answered. AreFreed self.old self.new answered.freed) }
        ensures processes { length self.new.processes ≡ length self.old.processes }
        ensures err { OnErr result (self.new ≡ self.old) }
        ensures told { OnErr result (IsUndecided self.old p ring request.now) }
    {
        self.state.apply(alloc, p, ring, request)
    }

    /// The descriptor that process `p` has of a segment number: unknown where there is no such process, or the number
    /// stands for nothing; gone where its segment was deleted. Takes no memory.
    pub fn descriptor(&self, p: u8, segno: u16) -> Desc
        ensures { result ≡ descriptor self.now p segno }
    {
        self.state.descriptor(p, segno)
    }
}
