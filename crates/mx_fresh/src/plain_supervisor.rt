//! What both programs under the definitions of the plain supervisor have in common.

use crate::answered::Answered;
use crate::fresh::Fresh;
use mx_request::{Entrant, Request};
use mx_sdw::{Desc, Ring};
use mx_state::State;
use std::alloc::{AllocError, Global};

/// A plain supervisor: it answers each request, and tells each descriptor, exactly as the definitions say.
pub trait PlainSupervisor: Drop {
    ghost use Rattle.std.specs.Prelude.{◌≡◌, ◌≤◌, length, IfOk, OnErr};
    ghost use Rattle.mx_state.specs.Given.{AreGiven, AreFreed};
    ghost use Rattle.mx_state.specs.History.{opening, MayAsk};
    ghost use Rattle.mx_state.specs.Plain.{Plain, answer};
    ghost use Rattle.mx_state.specs.Requests.{plain};
    ghost use Rattle.mx_state.specs.Table.{descriptor};

    /// Its state, as the definitions speak of it.
    ghost state: { Self → Plain };

    /// The state before any entry, for 1 to 15 processes with their principals and authorizations, in a session of this
    /// version.
    fn opening(alloc: Global, entrants: &[Entrant], version: u8) -> Result<Self, AllocError>
        requires some { 1 ≤ length entrants.now }
        requires most { length entrants.now ≤ 15 }
        ensures { IfOk result (λ supervisor. state supervisor ≡ opening version entrants.now) };

    /// Answers the request of process `p` in a ring, and says which run of pages it gave out and freed; process 0 is the
    /// initializer, which makes requests on paths alone. Want of memory, the only error, changes nothing.
    fn apply(
        &mut self,
        alloc: Global,
        p: u8,
        ring: Ring,
        request: &Request,
    ) -> Result<Answered, AllocError>
        requires { MayAsk (state self.old) p request.now }
        ensures answer { IfOk result (λ answered.
            plain (state self.old) p ring request.now ≡ answer answered.reply (state self.new)) }
        ensures given { IfOk result (λ answered. AreGiven (state self.old) (state self.new) answered.given) }
        ensures freed { IfOk result (λ answered. AreFreed (state self.old) (state self.new) answered.freed) }
        ensures processes { length (state self.new).processes ≡ length (state self.old).processes }
        ensures err { OnErr result (state self.new ≡ state self.old) };

    /// The descriptor that process `p` has of a segment number.
    fn descriptor(&self, p: u8, segno: u16) -> Desc
        requires some { 1 ≤ p }
        requires process { p ≤ length (state self.now).processes }
        ensures { result ≡ descriptor (state self.now) p segno };
}

impl PlainSupervisor for Fresh {
    ghost state = { λ fresh. fresh };

    fn opening(alloc: Global, entrants: &[Entrant], version: u8) -> Result<Fresh, AllocError> {
        Fresh::new(alloc, entrants, version)
    }

    fn apply(
        &mut self,
        alloc: Global,
        p: u8,
        ring: Ring,
        request: &Request,
    ) -> Result<Answered, AllocError> {
        Fresh::apply(self, alloc, p, ring, request)
    }

    fn descriptor(&self, p: u8, segno: u16) -> Desc {
        Fresh::descriptor(self, p, segno)
    }
}

impl PlainSupervisor for State {
    ghost state = { λ state. state };

    fn opening(alloc: Global, entrants: &[Entrant], version: u8) -> Result<State, AllocError> {
        State::new(alloc, entrants, version)
    }

    fn apply(
        &mut self,
        alloc: Global,
        p: u8,
        ring: Ring,
        request: &Request,
    ) -> Result<Answered, AllocError> {
        let applied = State::apply(self, alloc, p, ring, request)?;
        Ok(Answered {
            reply: applied.reply,
            given: applied.given,
            freed: applied.freed,
        })
    }

    fn descriptor(&self, p: u8, segno: u16) -> Desc {
        State::descriptor(self, p, segno)
    }
}
