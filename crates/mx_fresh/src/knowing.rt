//! Requests on what a process knows.

ghost use Rattle.std.specs.Prelude.{◌≡◌, ◌≤◌, ◌-◌, Some, length, slice_get, slice_set, vec_len, IfOk, IsOk, OnErr};
ghost use Rattle.std.specs.Option.{option_copied};
ghost use Rattle.mx_request.specs.declared.requests.Request.TheVariants as ask;
ghost use Rattle.mx_hier.specs.Initiate.{segment};
ghost use Rattle.mx_hier.specs.Rules.{onward};
ghost use Rattle.mx_hier.specs.Walks as walks;
ghost use Rattle.mx_state.specs.Askers.{caller};
ghost use Rattle.mx_state.specs.Connecting.{connect};
ghost use Rattle.mx_state.specs.NextRun.{IsNext};
ghost use Rattle.mx_state.specs.Plain.{answer};
ghost use Rattle.mx_state.specs.Requests.{plain};
ghost use Rattle.mx_state.specs.declared.states.ProcessState.{ProcessState as ProcessValue};
ghost use Rattle.mx_fresh.specs.Connections.{connected_of};
ghost use Rattle.mx_fresh.specs.Runs.{GivesNext, TellsRuns};
ghost use Rattle.mx_fresh.specs.Told.{IsResolved, IsUndecided};

use crate::answered::Answered;
use crate::connecting::{Connection, connect};
use crate::hierarchy::FreshHierarchy;
use crate::known::FreshKnown;
use crate::pages::PageList;
use crate::processes::{FreshProcess, own_caller, own_process};
use crate::resolving::resolved;
use crate::supervisor::FreshState;
use mx_hier::{HierError, Refusal};
use mx_name::{EntryName, Pathname};
use mx_request::Reply;
use mx_sdw::Ring;
use std::alloc::{AllocError, Global};

impl FreshState {
    /// Makes a segment known, with a reference name in the ring where one is given.
    pub(crate) fn initiate(
        &mut self,
        alloc: Global,
        p: u8,
        ring: Ring,
        path: &Pathname,
        name: Option<&EntryName>,
    ) -> Result<Answered, AllocError>
        requires some { 1 ≤ p }
        requires process { p ≤ length self.old.processes }
        ensures answer { IfOk result (λ given.
            plain self.old p ring (ask.Initiate path.now (option_copied name.entry)) ≡ answer given.reply self.new) }
        ensures run { IfOk result (GivesNext self.old self.new) }
        ensures processes { length self.new.processes ≡ length self.old.processes }
        ensures err { OnErr result (self.new ≡ self.old) }
        ensures told { OnErr result
            (IsResolved self.old p ring (ask.Initiate path.now (option_copied name.entry))) }
    {
        let process = own_process(self.processes.as_slice(), p);
        let given = initiated(alloc, &self.hierarchy, process, ring, path, name)?;
        match given {
            Ok(connection) => {
                let known = connection.known;
                let given = connection.given;
                learn(&mut self.processes, p, connection.after);
                put_pages(&mut self.hierarchy, connection.pages);
                Ok(Answered::giving(Reply::Segno(known), given))
            }
            Err(why) => Ok(Answered::alone(Reply::Refused(why))),
        }
    }

    /// Takes a segment's number and names away, and its linkage section, of which the page becomes free.
    pub(crate) fn terminate(
        &mut self,
        alloc: Global,
        p: u8,
        ring: Ring,
        segno: u16,
    ) -> Result<Answered, AllocError>
        requires some { 1 ≤ p }
        requires process { p ≤ length self.old.processes }
        ensures answer { IfOk result (λ given. plain self.old p ring (ask.Terminate segno) ≡ answer given.reply self.new) }
        ensures runs { IfOk result (TellsRuns self.old self.new) }
        ensures processes { length self.new.processes ≡ length self.old.processes }
        ensures err { OnErr result (self.new ≡ self.old) }
        ensures told { OnErr result (IsUndecided self.old p ring (ask.Terminate segno)) }
    {
        let process = own_process(self.processes.as_slice(), p);
        match process.known.terminated(alloc, segno)? {
            Some(known) => {
                let page = process.known.section_page(segno);
                let freed = self.hierarchy.page_freed(page);
                let pages = self.hierarchy.pages_back(alloc, page)?;
                learn(&mut self.processes, p, known);
                put_pages(&mut self.hierarchy, pages);
                Ok(Answered::freeing(Reply::Done, freed))
            }
            None => Ok(Answered::alone(Reply::Refused(Refusal::UnknownSegno))),
        }
    }

    /// Resolves a link: the segment to which it leads becomes known.
    pub(crate) fn link(
        &mut self,
        alloc: Global,
        p: u8,
        ring: Ring,
        segno: u16,
        word: u16,
    ) -> Result<Answered, AllocError>
        requires some { 1 ≤ p }
        requires process { p ≤ length self.old.processes }
        ensures answer { IfOk result (λ given. plain self.old p ring (ask.Link segno word) ≡ answer given.reply self.new) }
        ensures run { IfOk result (GivesNext self.old self.new) }
        ensures processes { length self.new.processes ≡ length self.old.processes }
        ensures err { OnErr result (self.new ≡ self.old) }
        ensures told { OnErr result (IsUndecided self.old p ring (ask.Link segno word)) }
    {
        let process = own_process(self.processes.as_slice(), p);
        let given = resolved(alloc, &self.hierarchy, process, ring, segno, word)?;
        match given {
            Ok(leading) => {
                let known = leading.connection.known;
                let given = leading.connection.given;
                let word = leading.word;
                learn(&mut self.processes, p, leading.connection.after);
                put_pages(&mut self.hierarchy, leading.connection.pages);
                let reply = Reply::Linked {
                    segno: known.segno,
                    word,
                    fresh: known.fresh,
                    linkage: known.linkage,
                };
                Ok(Answered::giving(reply, given))
            }
            Err(reply) => Ok(Answered::alone(reply)),
        }
    }
}

fn learn(processes: &mut Vec<FreshProcess>, p: u8, known: FreshKnown)
    requires some { 1 ≤ p }
    requires process { p ≤ vec_len processes.old }
    ensures learnt { (process : ProcessValue) → slice_get processes.old.items (p - 1) ≡ Some process
        → processes.new.items ≡ slice_set processes.old.items (p - 1) (record process { known = known }) }
    ensures count { vec_len processes.new ≡ vec_len processes.old }
{
    processes[usize::from(p) - 1].known = known;
}

fn put_pages(hierarchy: &mut FreshHierarchy, pages: PageList)
    ensures { hierarchy.new ≡ record hierarchy.old { pages = pages } }
{
    hierarchy.pages = pages;
}

/// How the segment at a path becomes known to a process, or why not. Nothing changes yet.
fn initiated(
    alloc: Global,
    hierarchy: &FreshHierarchy,
    process: &FreshProcess,
    ring: Ring,
    path: &Pathname,
    name: Option<&EntryName>,
) -> Result<Result<Connection, Refusal>, AllocError>
    ensures answer { IfOk result (λ given. connected_of hierarchy.now given
        ≡ onward (segment hierarchy.now (caller process.now ring) path.now)
        (connect hierarchy.now process.now.known ring (option_copied name.entry))) }
    ensures run { IfOk result (λ given. IfOk given (λ connection.
        IsNext hierarchy.now.pages connection.pages connection.given)) }
    ensures told { OnErr result (IsOk (walks.resolved (caller process.now ring) path.now)) }
{
    let who = own_caller(process, ring);
    match hierarchy.segment(alloc, &who, path) {
        Ok(uid) => connect(alloc, hierarchy, &process.known, ring, name, uid),
        Err(HierError::Refused(why)) => Ok(Err(why)),
        Err(HierError::Memory) => Err(AllocError),
    }
}
