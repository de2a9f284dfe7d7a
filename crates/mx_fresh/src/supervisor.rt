//! The state of the plain supervisor as plain lists, and what each request makes of it.

ghost use Rattle.std.specs.Prelude.{◌≡◌, ◌≢◌, ◌≤◌, length, IfOk, OnErr};
ghost use Rattle.mx_state.specs.Askers.{on_path};
ghost use Rattle.mx_state.specs.Given.{AreGiven, AreFreed};
ghost use Rattle.mx_state.specs.History.{opening, MayAsk};
ghost use Rattle.mx_state.specs.Plain.{answer};
ghost use Rattle.mx_request.specs.Classes.{class_of};
ghost use Rattle.mx_request.specs.declared.classes.RequestClass.TheVariants.{OfPath};
ghost use Rattle.mx_request.specs.declared.requests.Request.TheVariants as ask;
ghost use Rattle.mx_state.specs.Requests.{changed, plain};
ghost use Rattle.mx_state.specs.Table.{stack_desc, standing_desc, descriptor};
ghost use Rattle.mx_fresh.specs.Meant.{meant_by};
ghost use Rattle.mx_fresh.specs.Runs.{AreSegmentsTaken, TellsRuns};
ghost use Rattle.mx_fresh.specs.Told.{IsResolved, IsUndecided};

use crate::answered::Answered;
use crate::hierarchy::FreshHierarchy;
use crate::mail::{Mailbox, all_running};
use crate::processes::{FreshProcess, caller, fresh_processes, make_initializer, process_at};
use crate::replies::{done, said, shown};
use crate::serving::change;
use mx_hier::HierError;
use mx_kst::Lot;
use mx_name::{Path, Pathname};
use mx_request::{Entrant, Reply, Request, RequestClass};
use mx_sdw::{Brackets, Desc, Ring};
use std::alloc::{AllocError, Global};
use std::marker::Model;

/// The state of the plain supervisor as lists: the version of the session, the hierarchy, the processes, and of each
/// whether it runs, waits or has ended, with the messages that wait for it.
#[derive(Drop)]
pub(crate) struct FreshState {
    pub(crate) version: u8,
    pub(crate) hierarchy: FreshHierarchy,
    pub(crate) processes: Vec<FreshProcess>,
    pub(crate) mail: Vec<Mailbox>,
}

impl Model for FreshState {
    ghost use Rattle.std.specs.Prelude.{◌≡◌, length};
    ghost use Rattle.mx_state.specs.Plain.{Plain};

    ghost Value = { Plain };

    ghost view = { λ a. record {
      version = a.version;
      hierarchy = a.hierarchy;
      processes = a.processes.items;
      mail = a.mail.items;
    } };

    ghost invariant = { λ a. length a.mail.items ≡ length a.processes.items };
}

impl FreshState {
    /// The state before any entry, for 1 to 15 processes with their principals and authorizations, in a session of this
    /// version.
    pub(crate) fn new(
        alloc: Global,
        entrants: &[Entrant],
        version: u8,
    ) -> Result<FreshState, AllocError>
        requires most { length entrants.now ≤ 15 }
        ensures { IfOk result (λ fresh. fresh ≡ opening version entrants.now) }
    {
        // Each process has eight stacks, of one page each.
        let hierarchy = FreshHierarchy::new(alloc, 8 * entrants.len() as u32)?;
        let processes = fresh_processes(alloc, entrants, version)?;
        let mail = all_running(alloc, entrants.len())?;
        Ok(FreshState {
            version,
            hierarchy,
            processes,
            mail,
        })
    }

    /// Answers a request that changes the hierarchy, of the initializer as process 0 or of process `p`, exactly as the
    /// plain supervisor does. A refusal changes nothing, and nor does want of memory, the only error.
    fn change(
        &mut self,
        alloc: Global,
        p: u8,
        ring: Ring,
        request: &Request,
    ) -> Result<Answered, AllocError>
        requires asker { p ≤ length self.old.processes }
        requires taken { AreSegmentsTaken self.old.hierarchy }
        ensures answer { IfOk result (λ given. on_path self.old p ring (λ who.
            changed self.old (meant_by self.old.hierarchy who request.now)) ≡ answer given.reply self.new) }
        ensures runs { IfOk result (TellsRuns self.old self.new) }
        ensures processes { length self.new.processes ≡ length self.old.processes }
        ensures err { OnErr result (self.new ≡ self.old) }
        ensures told { OnErr result (IsResolved self.old p ring request.now) }
    {
        let initializer = make_initializer();
        let root = Path::root(alloc);
        let who = caller(&initializer, &root, self.processes.as_slice(), p, ring);
        let did = change(&mut self.hierarchy, alloc, &who, request);
        done(did)
    }

    fn status(&self, alloc: Global, p: u8, ring: Ring, path: &Pathname) -> Result<Reply, AllocError>
        requires asker { p ≤ length self.now.processes }
        ensures answer { IfOk result (λ given. plain self.now p ring (ask.Status path.now) ≡ answer given self.now) }
        ensures told { OnErr result (IsResolved self.now p ring (ask.Status path.now)) }
    {
        let initializer = make_initializer();
        let root = Path::root(alloc);
        let who = caller(&initializer, &root, self.processes.as_slice(), p, ring);
        match self.hierarchy.status(alloc, &who, path) {
            Ok(status) => Ok(Reply::Status(shown(self.version, status))),
            Err(HierError::Refused(why)) => Ok(Reply::Refused(why)),
            Err(HierError::Memory) => Err(AllocError),
        }
    }

    fn list(&self, alloc: Global, p: u8, ring: Ring, path: &Pathname) -> Result<Reply, AllocError>
        requires asker { p ≤ length self.now.processes }
        ensures answer { IfOk result (λ given. plain self.now p ring (ask.List path.now) ≡ answer given self.now) }
        ensures told { OnErr result (IsResolved self.now p ring (ask.List path.now)) }
    {
        let initializer = make_initializer();
        let root = Path::root(alloc);
        let who = caller(&initializer, &root, self.processes.as_slice(), p, ring);
        match self.hierarchy.list(alloc, &who, path) {
            Ok(names) => Ok(Reply::Names(names)),
            Err(HierError::Refused(why)) => Ok(Reply::Refused(why)),
            Err(HierError::Memory) => Err(AllocError),
        }
    }

    /// Answers a request on a path, of the initializer as process 0 or of process `p`, exactly as the plain supervisor
    /// does. A refusal changes nothing, and nor does want of memory, the only error.
    fn serve_path(
        &mut self,
        alloc: Global,
        p: u8,
        ring: Ring,
        request: &Request,
    ) -> Result<Answered, AllocError>
        requires asker { p ≤ length self.old.processes }
        requires class { class_of request.now ≡ OfPath }
        requires taken { AreSegmentsTaken self.old.hierarchy }
        ensures answer { IfOk result (λ given. plain self.old p ring request.now ≡ answer given.reply self.new) }
        ensures runs { IfOk result (TellsRuns self.old self.new) }
        ensures processes { length self.new.processes ≡ length self.old.processes }
        ensures err { OnErr result (self.new ≡ self.old) }
        ensures told { OnErr result (IsUndecided self.old p ring request.now) }
    {
        match request {
            Request::CreateDir { .. } => self.change(alloc, p, ring, request),
            Request::CreateSeg { .. } => self.change(alloc, p, ring, request),
            Request::CreateObject { .. } => self.change(alloc, p, ring, request),
            Request::CreateLink { .. } => self.change(alloc, p, ring, request),
            Request::Rename { .. } => self.change(alloc, p, ring, request),
            Request::Delete { .. } => self.change(alloc, p, ring, request),
            Request::SetAcl { .. } => self.change(alloc, p, ring, request),
            Request::DelAcl { .. } => self.change(alloc, p, ring, request),
            Request::SetIacl { .. } => self.change(alloc, p, ring, request),
            Request::DelIacl { .. } => self.change(alloc, p, ring, request),
            Request::SetBrackets { .. } => self.change(alloc, p, ring, request),
            Request::SetDirBrackets { .. } => self.change(alloc, p, ring, request),
            Request::SetClass { .. } => self.change(alloc, p, ring, request),
            Request::Status { path } => said(self.status(alloc, p, ring, path)),
            Request::List { path } => said(self.list(alloc, p, ring, path)),
            Request::ChangeWdir { .. } => unreachable!(),
            Request::SetRules { .. } => unreachable!(),
            Request::Initiate { .. } => unreachable!(),
            Request::Terminate { .. } => unreachable!(),
            Request::Wakeup { .. } => unreachable!(),
            Request::Block => unreachable!(),
            Request::Link { .. } => unreachable!(),
            Request::Resume => unreachable!(),
            Request::Logout => unreachable!(),
        }
    }

    fn serve_own(
        &mut self,
        alloc: Global,
        p: u8,
        ring: Ring,
        request: &Request,
    ) -> Result<Answered, AllocError>
        requires some { 1 ≤ p }
        requires process { p ≤ length self.old.processes }
        requires class { class_of request.now ≢ OfPath }
        ensures answer { IfOk result (λ given. plain self.old p ring request.now ≡ answer given.reply self.new) }
        ensures runs { IfOk result (TellsRuns self.old self.new) }
        ensures processes { length self.new.processes ≡ length self.old.processes }
        ensures err { OnErr result (self.new ≡ self.old) }
        ensures told { OnErr result (IsUndecided self.old p ring request.now) }
    {
        match request {
            Request::ChangeWdir { path } => said(self.change_wdir(alloc, p, ring, path)),
            Request::SetRules { rules } => said(self.set_rules(p, ring, rules)),
            Request::Initiate { path, name } => {
                self.initiate(alloc, p, ring, path, name.as_ref())
            }
            Request::Terminate { segno } => self.terminate(alloc, p, ring, *segno),
            Request::Wakeup { to, word } => said(self.wakeup(p, ring, *to, *word)),
            Request::Block => Ok(Answered::alone(self.block(p, ring))),
            Request::Link { segno, word } => self.link(alloc, p, ring, *segno, *word),
            Request::Resume => Ok(Answered::alone(self.block(p, ring))),
            Request::Logout => Ok(Answered::alone(self.logout(p, ring))),
            Request::CreateDir { .. } => unreachable!(),
            Request::CreateSeg { .. } => unreachable!(),
            Request::CreateObject { .. } => unreachable!(),
            Request::CreateLink { .. } => unreachable!(),
            Request::Rename { .. } => unreachable!(),
            Request::Delete { .. } => unreachable!(),
            Request::SetAcl { .. } => unreachable!(),
            Request::DelAcl { .. } => unreachable!(),
            Request::SetIacl { .. } => unreachable!(),
            Request::DelIacl { .. } => unreachable!(),
            Request::SetBrackets { .. } => unreachable!(),
            Request::SetDirBrackets { .. } => unreachable!(),
            Request::SetClass { .. } => unreachable!(),
            Request::Status { .. } => unreachable!(),
            Request::List { .. } => unreachable!(),
        }
    }

    /// Answers the request of process `p` in a ring as `Fresh::apply` does, where no page of a segment is free.
    pub(crate) fn apply(
        &mut self,
        alloc: Global,
        p: u8,
        ring: Ring,
        request: &Request,
    ) -> Result<Answered, AllocError>
        requires asker { MayAsk self.old p request.now }
        requires taken { AreSegmentsTaken self.old.hierarchy }
        ensures answer { IfOk result (λ given. plain self.old p ring request.now ≡ answer given.reply self.new) }
        ensures given { IfOk result (λ answered. AreGiven self.old self.new answered.given) }
        ensures freed { IfOk result (λ answered. AreFreed self.old self.new answered.freed) }
        ensures processes { length self.new.processes ≡ length self.old.processes }
        ensures err { OnErr result (self.new ≡ self.old) }
        ensures told { OnErr result (IsUndecided self.old p ring request.now) }
    {
        match request.class() {
            RequestClass::OfPath => self.serve_path(alloc, p, ring, request),
            RequestClass::OfProcess => self.serve_own(alloc, p, ring, request),
            RequestClass::OfSupervisor => self.serve_own(alloc, p, ring, request),
        }
    }

    /// The descriptor that process `p` has of a segment number.
    pub(crate) fn descriptor(&self, p: u8, segno: u16) -> Desc
        ensures { result ≡ descriptor self.now p segno }
    {
        match process_at(self.processes.as_slice(), p) {
            Some(process) => standing_desc(
                &self.hierarchy,
                p,
                process,
                process.known.stands_for(segno),
            ),
            None => Desc::unknown(),
        }
    }
}

fn standing_desc(hierarchy: &FreshHierarchy, p: u8, process: &FreshProcess, lot: Lot) -> Desc
    ensures { result ≡ standing_desc hierarchy.now p process.now lot }
{
    match lot {
        Lot::Free => Desc::unknown(),
        Lot::Stack(ring) => stack_desc(p, ring),
        Lot::Branch { uid } => hierarchy.desc_of(uid, &process.principal, process.authorization),
        Lot::Linkage {
            of: _,
            page,
            brackets,
            words,
        } => Desc::segment(brackets, true, false, true, 0, page, words),
    }
}

/// The descriptor of the stack of a ring of process `p`: one page, to read and write in that ring.
fn stack_desc(p: u8, ring: Ring) -> Desc
    ensures { result ≡ stack_desc p ring }
{
    let Some(brackets) = Brackets::new(ring, ring, ring) else {
        unreachable!()
    };
    let page = 8 * u16::from(p.saturating_sub(1)) + u16::from(ring.number());
    Desc::segment(brackets, true, false, true, 0, page, 64)
}
