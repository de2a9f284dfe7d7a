//! The supervisor of a run.

ghost use Rattle.std.specs.Prelude.{◌≡◌, ◌≤◌, ◌+◌, ◌↔◌, length, Err, Some, IfOk, OnErr};
ghost use Rattle.std.specs.Option.{option_map};
ghost use Rattle.mx_transcript.specs.Settings.{entry_at};
ghost use Rattle.mx_script.specs.Sessions.{limit_of};
ghost use Rattle.mx_sdw.specs.Admissible.{IsAdmissible};
ghost use Rattle.mx_state.specs.Messages.{is_ready};
ghost use Rattle.mx_state.specs.Pages.{AreFreePagesBare};
ghost use Rattle.mx_state.specs.Table.{descriptor};
ghost use Rattle.mx_sup.specs.Supervised.{Supervised, IsHistory, state_of};
ghost use Rattle.mx_sup.specs.Entering.{IsOpened, HasCome, HasEntered};
ghost use Rattle.mx_sup.specs.declared.supervisors.EnterError.TheVariants.{Memory};

use crate::answering::answered;
use crate::setups::{enter_setup, entry_in, setup_part};
use mx_list::Sequence;
use mx_request::{Reply, SharedRequest};
use mx_script::Session;
use mx_sdw::{Desc, Ring};
use mx_state::{Changes, Entry, Journal, PageRun, State};
use mx_transcript::Transcript;
use std::alloc::{AllocError, Global};
use std::marker::Model;
use thiserror::Error;

/// Why a call was not entered.
#[derive(Clone, Copy, Debug, PartialEq, Eq, Error)]
pub enum EnterError {
    /// The journal is at its limit.
    #[error("the history is full")]
    HistoryFull,
    /// Memory was wanting.
    #[error("out of memory")]
    Memory,
}

impl From<AllocError> for EnterError {
    ghost from_gives = { λ _ e. e ≡ Memory };

    fn from(_error: AllocError) -> EnterError {
        EnterError::Memory
    }
}

/// What came of a call that was entered.
#[derive(Drop)]
pub struct Entered {
    /// The number of its entry, counted from 1.
    pub number: u32,
    /// Exactly the descriptors that it changed, in order of process and segment number.
    pub changes: Changes,
    /// Exactly the pages that it gave out.
    pub given: Option<PageRun>,
    /// Exactly the pages that it freed.
    pub freed: Option<PageRun>,
}

/// What answers the calls of a session's processes, one after another. Its journal is one history of the plain supervisor
/// within the session's limit; it begins with the setup as far as the limit allows, and every later entry is of a process
/// from 1 on. Its state is the replay of its journal.
#[derive(Drop)]
pub struct Supervisor<'a> {
    session: &'a Session,
    state: State,
    journal: Vec<Entry>,
}

impl<'a> Model for Supervisor<'a> {
    ghost use Rattle.mx_sup.specs.Supervised.{Supervised, supervised, IsKept};

    ghost Value = { Supervised };

    ghost view = { λ a. supervised a.session.now a.journal.items };

    ghost invariant = { λ a. IsKept a.session.now a.state a.journal.items };
}

impl<'a> Supervisor<'a> {
    /// The supervisor of a session after its setup, and the initializer's part of the run: the setup's requests are
    /// entered in order, as far as the limit allows. The only error is want of memory.
    pub fn new(
        alloc: Global,
        session: &'a Session,
    ) -> Result<(Supervisor<'a>, Transcript), AllocError>
        ensures { IfOk result (λ made. IsOpened session.now made.0 made.1) }
    {
        // Each session has a script for each process.
        let _scripts = session.scripts();
        let mut state = State::new(alloc, session.principals().items(), session.version())?;
        let journal = enter_setup(alloc, session, &mut state)?;
        let part = setup_part(alloc, session, &journal)?;
        let supervisor = Supervisor {
            session,
            state,
            journal,
        };
        Ok((supervisor, part))
    }

    /// Process `p` makes this request in this ring: the entry's number, counted from 1, and what came of it. `HistoryFull`
    /// comes exactly where the journal is at its limit; on an error nothing changes.
    pub fn enter(
        &mut self,
        alloc: Global,
        p: u8,
        ring: Ring,
        request: &SharedRequest,
    ) -> Result<Entered, EnterError>
        requires some { 1 ≤ p }
        requires process { p ≤ length self.old.session.principals }
        ensures entered { IfOk result (λ came. HasEntered self.old p ring request.now came.number self.new) }
        ensures came { IfOk result (HasCome self.old self.new) }
        ensures full { (result ≡ Err EnterError.HistoryFull) ↔ (length self.old.journal ≡ limit_of self.old.session) }
        ensures err { OnErr result (self.new ≡ self.old) }
    {
        let limit = self.session.limit() as usize;
        if self.journal.len() >= limit {
            return Err(EnterError::HistoryFull);
        }
        self.journal.reserve(1)?;
        let came = answered(alloc, &mut self.state, p, ring, request)?;
        self.journal.push_reserved(came.entry);
        Ok(Entered {
            number: self.journal.len() as u32,
            changes: came.changes,
            given: came.given,
            freed: came.freed,
        })
    }

    /// How many calls were entered.
    pub fn length(&self) -> u32
        ensures value { result ≡ length self.now.journal }
        ensures history { IsHistory self.now }
        ensures processes { length (state_of self.now).processes ≡ length self.now.session.principals }
    {
        self.journal.len() as u32
    }

    /// No descriptor covers a free page of memory: so a page that was freed may be cleared, and one that is given out is
    /// nobody's.
    pub fn free_pages_are_bare(&self)
        ensures { AreFreePagesBare (state_of self.now) }
    {
        mx_state::free_pages_are_bare(&self.state);
    }

    /// How many calls can be entered.
    pub fn limit(&self) -> u32
        ensures value { result ≡ limit_of self.now.session }
        ensures most { result ≤ 262143 }
    {
        self.session.limit()
    }

    /// The entry of this number.
    pub fn entry(&self, number: u32) -> &Entry
        requires some { 1 ≤ number }
        requires most { number ≤ length self.now.journal }
        ensures { entry_at self.now.journal number ≡ Some result.now }
    {
        match entry_in(&self.journal, number as usize - 1) {
            Some(entry) => entry,
            None => unreachable!(),
        }
    }

    /// The reply to the call of this number.
    pub fn reply(&self, number: u32) -> &Reply
        requires some { 1 ≤ number }
        requires most { number ≤ length self.now.journal }
        ensures { option_map (λ entry. entry.reply) (entry_at self.now.journal number) ≡ Some result.now }
    {
        &self.entry(number).reply
    }

    /// Whether `block` by process `p` would be answered now with a message or `nobody`, and not with `waiting`: so a
    /// process that waits goes on, as `resume` would be answered the same. Takes no memory.
    pub fn ready(&self, p: u8) -> bool
        requires some { 1 ≤ p }
        requires process { p ≤ length self.now.session.principals }
        ensures { result ≡ is_ready (state_of self.now) p }
    {
        self.state.ready(p)
    }

    /// The descriptor that process `p` has now of a segment number. Takes no memory.
    pub fn descriptor(&self, p: u8, segno: u16) -> Desc
        requires some { 1 ≤ p }
        requires process { p ≤ length self.now.session.principals }
        ensures value { result ≡ descriptor (state_of self.now) p segno }
        ensures admissible { IsAdmissible result }
    {
        self.state.descriptor(p, segno)
    }

    /// The journal. Takes no memory.
    pub fn into_journal(self) -> Journal
        ensures value { result ≡ self.entry.journal }
        ensures history { IsHistory self.entry }
    {
        Sequence::of(self.journal)
    }
}
