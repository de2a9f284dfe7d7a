//! Requests that change no descriptor.

ghost use Rattle.std.specs.Prelude.{◌≡◌, ◌≤◌, length, None, IfOk, OnErr};
ghost use Rattle.std.specs.Option.{option_and_then};
ghost use Rattle.mx_hier.specs.Rules.{Answers, TellsFirst};
ghost use Rattle.mx_hier.specs.Who.{caller as caller_of, subject};
ghost use Rattle.mx_request.specs.declared.requests.Request.TheVariants as ask;
ghost use Rattle.mx_state.specs.Askers.{asker};
ghost use Rattle.mx_state.specs.AtOnce.{path_of, pathless};
ghost use Rattle.mx_state.specs.Calling.{begun};
ghost use Rattle.mx_state.specs.Changing.{created, creation, amended_at, amendment};
ghost use Rattle.mx_state.specs.NextRun.{IsNext};
ghost use Rattle.mx_state.specs.Requests.{plain};
ghost use Rattle.mx_state.specs.Serving.{Serves};
ghost use Rattle.mx_state.specs.Shown.{shown, without_class};

use crate::applied::Applied;
use crate::callers::caller;
use crate::replies::{done, refused};
use crate::states::State;
use mx_core::Changes;
use mx_hier::{Hier, HierError, Status, Who};
use mx_name::Pathname;
use mx_pages::PageRun;
use mx_request::{Reply, Request, has_classes};
use mx_sdw::Ring;
use std::alloc::{AllocError, Global};

impl State {
    /// Answers `create_dir`, `create_seg`, `create_object` and `create_link`.
    pub(crate) fn create(
        &mut self,
        alloc: Global,
        p: u8,
        ring: Ring,
        request: &Request,
    ) -> Result<Applied, AllocError>
        requires asker { p ≤ length self.old.processes }
        ensures served { IfOk result (Serves self.old self.new (creation self.old p ring request.now)) }
        ensures told { OnErr result (option_and_then (pathless (asker self.old.processes p) ring) (path_of request.now) ≡ None) }
        ensures err { OnErr result (self.new ≡ self.old) }
    {
        let processes = self.processes.as_slice();
        let who = caller(&self.initializer, &self.root, processes, p, ring);
        let given = match create(&mut self.hier, alloc, &who, request) {
            Ok(given) => given,
            Err(error) => return refused(alloc, error),
        };
        Ok(Applied {
            reply: Reply::Done,
            changes: Changes::new(alloc),
            given,
            freed: None,
        })
    }

    /// Answers `rename`, `set_dir_brackets` and what changes an initial access list. The last link of the path is
    /// followed where `follow` says so.
    pub(crate) fn amend(
        &mut self,
        alloc: Global,
        p: u8,
        ring: Ring,
        path: &Pathname,
        follow: bool,
        request: &Request,
    ) -> Result<Applied, AllocError>
        requires asker { p ≤ length self.old.processes }
        ensures served { IfOk result (Serves self.old self.new (amendment self.old p ring path.now follow request.now)) }
        ensures told { OnErr result (pathless (asker self.old.processes p) ring path.now ≡ None) }
        ensures err { OnErr result (self.new ≡ self.old) }
    {
        let processes = self.processes.as_slice();
        let who = caller(&self.initializer, &self.root, processes, p, ring);
        let uid = match self.hier.entry(alloc, &who, path, follow) {
            Ok(uid) => uid,
            Err(error) => return refused(alloc, error),
        };
        let given = amend(&mut self.hier, &who, uid, request);
        let reply = done(given)?;
        Ok(Applied::unchanged(alloc, reply))
    }

    pub(crate) fn status(
        &self,
        alloc: Global,
        p: u8,
        ring: Ring,
        path: &Pathname,
    ) -> Result<Applied, AllocError>
        requires asker { p ≤ length self.now.processes }
        ensures served { IfOk result (Serves self.now self.now (plain self.now p ring (ask.Status path.now))) }
        ensures told { OnErr result (pathless (asker self.now.processes p) ring path.now ≡ None) }
    {
        let processes = self.processes.as_slice();
        let who = caller(&self.initializer, &self.root, processes, p, ring);
        match self.hier.status(alloc, &who, path) {
            Ok(status) => Ok(Applied::unchanged(alloc, Reply::Status(shown(self.version, status)))),
            Err(error) => refused(alloc, error),
        }
    }

    pub(crate) fn list(
        &mut self,
        alloc: Global,
        p: u8,
        ring: Ring,
        path: &Pathname,
    ) -> Result<Applied, AllocError>
        requires asker { p ≤ length self.old.processes }
        ensures served { IfOk result (Serves self.old self.new (plain self.old p ring (ask.List path.now))) }
        ensures told { OnErr result (pathless (asker self.old.processes p) ring path.now ≡ None) }
        ensures err { OnErr result (self.new ≡ self.old) }
    {
        let processes = self.processes.as_slice();
        let who = caller(&self.initializer, &self.root, processes, p, ring);
        let names = match self.hier.list(alloc, &who, path) {
            Ok(names) => names,
            Err(error) => return refused(alloc, error),
        };
        Ok(Applied::unchanged(alloc, Reply::Names(names)))
    }
}

// Makes the entry that one of these requests asks for, and says which pages it was given.
fn create(
    hier: &mut Hier,
    alloc: Global,
    who: &Who,
    request: &Request,
) -> Result<Option<PageRun>, HierError>
    ensures answer { Answers (created hier.old (caller_of who.now) request.now) hier.old result hier.new }
    ensures run { IfOk result (IsNext hier.old.pages hier.new.pages) }
    ensures told { TellsFirst (begun (caller_of who.now) (path_of request.now)) result }
{
    match request {
        Request::CreateDir { path, d1, d2 } => {
            hier.create_dir(alloc, who, path, *d1, *d2)?;
            Ok(None)
        }
        Request::CreateSeg {
            path,
            words,
            brackets,
        } => {
            let given = hier.create_seg(alloc, who, path, *words, *brackets)?;
            Ok(Some(given))
        }
        Request::CreateObject {
            path,
            words,
            brackets,
            map,
        } => {
            let given = hier.create_object(alloc, who, path, *words, *brackets, map.map())?;
            Ok(Some(given))
        }
        Request::CreateLink { path, target } => {
            hier.create_link(alloc, who, path, target)?;
            Ok(None)
        }
        _ => Ok(None),
    }
}

// Changes an entry as one of these requests asks.
fn amend(hier: &mut Hier, who: &Who, uid: u32, request: &Request) -> Result<(), HierError>
    ensures answer { Answers (amended_at hier.old (subject who.now) uid request.now) hier.old result hier.new }
{
    match request {
        Request::Rename { path: _, name } => hier.rename(who, uid, name),
        Request::SetIacl {
            path: _,
            kind,
            id,
            modes,
        } => hier.set_iacl(who, uid, *kind, id, *modes),
        Request::DelIacl { path: _, kind, id } => hier.del_iacl(who, uid, *kind, id),
        Request::SetDirBrackets { path: _, d1, d2 } => hier.set_dir_brackets(who, uid, *d1, *d2),
        _ => Ok(()),
    }
}

// What is told of an entry: the class of a segment in a session that has classes.
fn shown(version: u8, status: Status) -> Status
    ensures { result ≡ shown version status }
{
    if has_classes(version) {
        status
    } else {
        without_class(status)
    }
}

fn without_class(status: Status) -> Status
    ensures { result ≡ without_class status }
{
    match status {
        Status::Segment {
            words,
            brackets,
            modes,
            class: _,
        } => Status::Segment {
            words,
            brackets,
            modes,
            class: None,
        },
        Status::Object {
            words,
            brackets,
            gate,
            definitions,
            links,
            modes,
            class: _,
        } => Status::Object {
            words,
            brackets,
            gate,
            definitions,
            links,
            modes,
            class: None,
        },
        other => other,
    }
}
