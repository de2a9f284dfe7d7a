//! The plain supervisor as a program.

ghost use Rattle.std.specs.Prelude.{◌≡◌, ◌≤◌, ◌↔◌, ℕ, length, None, IfOk, IsTrue, OnErr};
ghost use Rattle.std.specs.List.{All};
ghost use Rattle.std.specs.Option.{option_map};
ghost use Rattle.mx_sdw.specs.Admissible.{IsAdmissible};
ghost use Rattle.mx_state.specs.AtOnce.{at_once};
ghost use Rattle.mx_state.specs.Changes.{AreChanges, IsBounded};
ghost use Rattle.mx_state.specs.DecidingEntry.{entry_behind, Explains};
ghost use Rattle.mx_state.specs.Given.{AreGiven, AreFreed};
ghost use Rattle.mx_state.specs.History.{opening, MayAsk};
ghost use Rattle.mx_request.specs.declared.replies.Reply.TheVariants as reply;
ghost use Rattle.mx_request.specs.declared.requests.Request.TheVariants as ask;
ghost use Rattle.mx_request.specs.Versions.{last_number};
ghost use Rattle.mx_state.specs.Messages.{is_ready};
ghost use Rattle.mx_state.specs.Plain.{answer};
ghost use Rattle.mx_state.specs.Requests.{plain};
ghost use Rattle.mx_state.specs.Serving.{Serves, RefusesQuietly};
ghost use Rattle.mx_state.specs.Table.{descriptor};
ghost use Rattle.mx_state.specs.Told.{IsLinkedWithin};

use crate::applied::Applied;
use crate::openings::{fresh_processes, make_initializer};
use crate::tables::{descriptor, entry_behind};
use mx_acl::Modes;
use mx_aim::Class;
use mx_hier::Hier;
use mx_kst::Kst;
use mx_mail::Mail;
use mx_name::{AclId, Path, Principal};
use mx_request::{Entrant, Request};
use mx_sdw::{Desc, Ring};
use mx_search::Rules;
use std::alloc::{AllocError, Global};
use std::marker::Model;

/// What a process has of its own: its principal and authorization, its working directory, its search rules and its known
/// segment table.
pub struct ProcessState {
    pub principal: Principal,
    pub authorization: Class,
    pub working_directory: Path,
    pub rules: Rules,
    pub known: Kst,
}

impl Drop for ProcessState {
    fn drop(self) {
        let ProcessState {
            principal: _principal,
            authorization: _,
            working_directory: _working_directory,
            rules: _rules,
            known: _known,
        } = self;
    }
}

/// The state of the plain supervisor: the version of the session, the hierarchy, the processes 1 to 15, and the mail,
/// which also knows of each whether it runs, waits or has ended.
pub struct State {
    pub(crate) version: u8,
    pub(crate) hier: Hier,
    pub(crate) initializer: Principal,
    pub(crate) root: Path,
    pub(crate) processes: Vec<ProcessState>,
    pub(crate) mail: Mail,
}

impl Drop for State {
    fn drop(self) {
        let State {
            version: _,
            hier: _hier,
            initializer: _initializer,
            root: _root,
            processes: _processes,
            mail: _mail,
        } = self;
    }
}

impl Model for State {
    ghost use Rattle.mx_state.specs.Plain.{Plain};
    ghost use Rattle.mx_state.specs.Sound.{HoldsSound};

    ghost Value = { Plain };

    ghost view = { λ a.
        record { version = a.version; hierarchy = a.hier; processes = a.processes.items; mail = a.mail } };

    ghost invariant = { λ a.
        HoldsSound a.initializer a.root
        (record { version = a.version; hierarchy = a.hier; processes = a.processes.items; mail = a.mail }) };
}

impl State {
    /// The state before any entry, for 1 to 15 processes with their principals and authorizations, in a session of this
    /// version.
    pub fn new(alloc: Global, entrants: &[Entrant], version: u8) -> Result<State, AllocError>
        requires some { 1 ≤ length entrants.now }
        requires most { length entrants.now ≤ 15 }
        ensures { IfOk result (λ state. state ≡ opening version entrants.now) }
    {
        let mail = Mail::new(alloc, entrants.len() as u8)?;
        let processes = fresh_processes(alloc, entrants, version)?;
        // Each process has eight stacks, of one page each.
        let hier = Hier::new(alloc, 8 * entrants.len() as u32)?;
        Ok(State {
            version,
            hier,
            initializer: make_initializer(),
            root: Path::root(alloc),
            processes,
            mail,
        })
    }

    /// Answers the request of process `p` in a ring as the plain supervisor does; process 0 is the initializer, which
    /// makes requests on paths alone. The changes are exactly the descriptors that differ afterwards, and the runs of
    /// pages exactly those that were given out and that were freed. A refusal changes nothing, and nor does want of
    /// memory, the only error: it is told only where nothing refuses the request before memory is taken (`at_once`). Where a
    /// link leads is a place that a pointer can name.
    #[inline(always)]
    pub fn apply(
        &mut self,
        alloc: Global,
        p: u8,
        ring: Ring,
        request: &Request,
    ) -> Result<Applied, AllocError>
        requires { MayAsk self.old p request.now }
        ensures answer { IfOk result (λ applied. plain self.old p ring request.now ≡ answer applied.reply self.new) }
        ensures changes { IfOk result (λ applied. AreChanges self.old self.new applied.changes) }
        ensures given { IfOk result (λ applied. AreGiven self.old self.new applied.given) }
        ensures freed { IfOk result (λ applied. AreFreed self.old self.new applied.freed) }
        ensures bounded { IfOk result (λ applied. All (IsBounded (last_number self.old.version)) applied.changes) }
        ensures refused { IfOk result (RefusesQuietly self.old self.new) }
        ensures linked { IfOk result (λ applied. IsLinkedWithin applied.reply) }
        ensures processes { length self.new.processes ≡ length self.old.processes }
        ensures version { self.new.version ≡ self.old.version }
        ensures told { OnErr result (at_once self.old p ring request.now ≡ None) }
        ensures err { OnErr result (self.new ≡ self.old) }
    {
        let applied = self.serve(alloc, p, ring, request)?;
        Ok(applied)
    }

    #[inline(always)]
    fn serve(
        &mut self,
        alloc: Global,
        p: u8,
        ring: Ring,
        request: &Request,
    ) -> Result<Applied, AllocError>
        requires { MayAsk self.old p request.now }
        ensures served { IfOk result (Serves self.old self.new (plain self.old p ring request.now)) }
        ensures linked { (segno word : ℕ) → request.now ≡ ask.Link segno word
            → IfOk result (λ applied. IsLinkedWithin applied.reply) }
        ensures told { OnErr result (at_once self.old p ring request.now ≡ None) }
        ensures err { OnErr result (self.new ≡ self.old) }
    {
        match request {
            Request::CreateDir { .. } => self.create(alloc, p, ring, request),
            Request::CreateSeg { .. } => self.create(alloc, p, ring, request),
            Request::CreateObject { .. } => self.create(alloc, p, ring, request),
            Request::CreateLink { .. } => self.create(alloc, p, ring, request),
            Request::Rename { path, .. } => self.amend(alloc, p, ring, path, false, request),
            Request::Delete { path } => self.alter(alloc, p, ring, path, false, request),
            Request::SetAcl { path, .. } => self.alter(alloc, p, ring, path, true, request),
            Request::DelAcl { path, .. } => self.alter(alloc, p, ring, path, true, request),
            Request::SetIacl { path, .. } => self.amend(alloc, p, ring, path, true, request),
            Request::DelIacl { path, .. } => self.amend(alloc, p, ring, path, true, request),
            Request::SetBrackets { path, .. } => self.alter(alloc, p, ring, path, true, request),
            Request::SetDirBrackets { path, .. } => {
                self.amend(alloc, p, ring, path, true, request)
            }
            Request::SetClass { path, .. } => self.alter(alloc, p, ring, path, true, request),
            Request::Status { path } => self.status(alloc, p, ring, path),
            Request::List { path } => self.list(alloc, p, ring, path),
            Request::ChangeWdir { path } => self.change_wdir(alloc, p, ring, path),
            Request::SetRules { rules } => self.set_rules(alloc, p, ring, rules),
            Request::Initiate { path, name } => {
                self.initiate(alloc, p, ring, path, name.as_ref())
            }
            Request::Terminate { segno } => self.terminate(alloc, p, ring, *segno),
            Request::Wakeup { to, word } => self.wakeup(alloc, p, ring, *to, *word),
            Request::Block => Ok(self.block(alloc, p, ring)),
            Request::Link { segno, word } => self.link(alloc, p, ring, *segno, *word),
            Request::Resume => Ok(self.block(alloc, p, ring)),
            Request::Logout => Ok(self.logout(alloc, p, ring)),
        }
    }

    /// Whether `block` or `resume` by process `p` would be answered by a message or by `nobody`, and not by `waiting`.
    /// Takes no memory.
    pub fn ready(&self, p: u8) -> bool
        requires some { 1 ≤ p }
        requires process { p ≤ length self.now.processes }
        ensures value { result ≡ is_ready self.now p }
        ensures block { (ring : ℕ) → IsTrue result ↔ ((plain self.now p ring ask.Block).reply ≡ reply.Waiting → ⊥) }
        ensures resume { (ring : ℕ) → IsTrue result ↔ ((plain self.now p ring ask.Resume).reply ≡ reply.Waiting → ⊥) }
    {
        self.mail.ready(p)
    }

    /// The descriptor that process `p` has of a segment number: unknown where the number stands for nothing, as it does
    /// beyond the last number of the version; gone where its segment was deleted. Takes no memory.
    pub fn descriptor(&self, p: u8, segno: u16) -> Desc
        requires some { 1 ≤ p }
        requires process { p ≤ length self.now.processes }
        ensures value { result ≡ descriptor self.now p segno }
        ensures admissible { IsAdmissible result }
    {
        descriptor(&self.hier, self.processes.as_slice(), p, segno)
    }

    /// The entry of an access list that decides the modes of what a segment number stands for in process `p`: it
    /// explains the flags of the descriptor. None of a segment that was deleted or that no entry matches, of a stack or
    /// a linkage section, of a number that stands for nothing, and where there is no process. Takes no memory.
    #[tactic(auto, using(crate::proofs::EntryLaws::explained))]
    pub fn deciding_entry(&self, p: u8, segno: u16) -> Option<(&AclId, Modes)>
        ensures value { option_map (λ pair. (pair.0.now, pair.1)) result ≡ entry_behind self.now p segno }
        ensures flags { Explains self.now p segno }
    {
        entry_behind(&self.hier, self.processes.as_slice(), p, segno)
    }
}
