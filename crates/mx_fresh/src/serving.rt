//! Requests on the hierarchy, by their kinds: those that make an entry, and those that change one.

ghost use Rattle.std.specs.Prelude.{◌≡◌, IfOk};
ghost use Rattle.mx_hier.specs.Rules.{onward, Answers, TellsFirst};
ghost use Rattle.mx_hier.specs.Walks.{entry, resolved};
ghost use Rattle.mx_hier.specs.Who.{caller, subject};
ghost use Rattle.mx_fresh.specs.Meant.{meant_by};
ghost use Rattle.mx_fresh.specs.Runs.{AreSegmentsTaken, Moves};
ghost use Rattle.mx_fresh.specs.Said.{with_freed, with_no_runs};
ghost use Rattle.mx_fresh.specs.Told.{path_found};
ghost use Rattle.mx_state.specs.Changing.{created, amended_at, altered_at};

use crate::answered::Runs;
use crate::hierarchy::FreshHierarchy;
use mx_hier::{HierError, Who};
use mx_name::Pathname;
use mx_pages::PageRun;
use mx_request::Request;
use std::alloc::Global;

/// Makes the entry that one of these requests asks for, and says which run of pages it gave out.
pub(crate) fn create(
    hierarchy: &mut FreshHierarchy,
    alloc: Global,
    who: &Who,
    request: &Request,
) -> Result<Runs, HierError>
    ensures answer { Answers (created hierarchy.old (caller who.now) request.now) hierarchy.old result hierarchy.new }
    ensures runs { IfOk result (Moves hierarchy.old.pages hierarchy.new.pages) }
    ensures told { TellsFirst (path_found (caller who.now) request.now) result }
{
    match request {
        Request::CreateDir { path, d1, d2 } => {
            hierarchy.create_dir(alloc, who, path, *d1, *d2)?;
            Ok(Runs::none())
        }
        Request::CreateSeg {
            path,
            words,
            brackets,
        } => {
            let given = hierarchy.create_seg(alloc, who, path, *words, *brackets)?;
            Ok(Runs::given(given))
        }
        Request::CreateObject {
            path,
            words,
            brackets,
            map,
        } => {
            let given = hierarchy.create_object(alloc, who, path, *words, *brackets, map.map())?;
            Ok(Runs::given(given))
        }
        Request::CreateLink { path, target } => {
            hierarchy.create_link(alloc, who, path, target)?;
            Ok(Runs::none())
        }
        _ => Ok(Runs::none()),
    }
}

/// Changes an entry, and no descriptor, as one of these requests asks.
pub(crate) fn amend(
    hierarchy: &mut FreshHierarchy,
    who: &Who,
    uid: u32,
    request: &Request,
) -> Result<(), HierError>
    ensures answer { Answers (amended_at hierarchy.old (subject who.now) uid request.now)
        hierarchy.old result hierarchy.new }
{
    match request {
        Request::Rename { path: _, name } => hierarchy.rename(who, uid, name),
        Request::SetIacl {
            path: _,
            kind,
            id,
            modes,
        } => hierarchy.set_iacl(who, uid, *kind, id, *modes),
        Request::DelIacl { path: _, kind, id } => hierarchy.del_iacl(who, uid, *kind, id),
        Request::SetDirBrackets { path: _, d1, d2 } => {
            hierarchy.set_dir_brackets(who, uid, *d1, *d2)
        }
        _ => Ok(()),
    }
}

/// Changes an entry, and descriptors with it, as one of these requests asks.
pub(crate) fn alter(
    hierarchy: &mut FreshHierarchy,
    alloc: Global,
    who: &Who,
    uid: u32,
    request: &Request,
) -> Result<Runs, HierError>
    requires { AreSegmentsTaken hierarchy.old }
    ensures answer { Answers (altered_at hierarchy.old (subject who.now) uid request.now)
        hierarchy.old result hierarchy.new }
    ensures runs { IfOk result (Moves hierarchy.old.pages hierarchy.new.pages) }
{
    match request {
        Request::Delete { .. } => freed(hierarchy.delete(alloc, who, uid)),
        Request::SetAcl { path: _, id, modes } => quiet(hierarchy.set_acl(who, uid, id, *modes)),
        Request::DelAcl { path: _, id } => quiet(hierarchy.del_acl(who, uid, id)),
        Request::SetBrackets { path: _, brackets } => {
            quiet(hierarchy.set_brackets(who, uid, *brackets))
        }
        Request::SetClass { path: _, class } => quiet(hierarchy.set_class(who, uid, *class)),
        _ => Ok(Runs::none()),
    }
}

/// The same of the entry at a path, of which the last link is followed where `follow` says so.
fn amend_along(
    hierarchy: &mut FreshHierarchy,
    alloc: Global,
    who: &Who,
    path: &Pathname,
    follow: bool,
    request: &Request,
) -> Result<Runs, HierError>
    ensures answer { Answers (onward (entry hierarchy.old (caller who.now) path.now follow)
        (λ uid. amended_at hierarchy.old (subject who.now) uid request.now)) hierarchy.old result hierarchy.new }
    ensures runs { IfOk result (Moves hierarchy.old.pages hierarchy.new.pages) }
    ensures told { TellsFirst (resolved (caller who.now) path.now) result }
{
    match hierarchy.entry(alloc, who, path, follow) {
        Ok(uid) => quiet(amend(hierarchy, who, uid, request)),
        Err(error) => Err(error),
    }
}

fn alter_along(
    hierarchy: &mut FreshHierarchy,
    alloc: Global,
    who: &Who,
    path: &Pathname,
    follow: bool,
    request: &Request,
) -> Result<Runs, HierError>
    requires { AreSegmentsTaken hierarchy.old }
    ensures answer { Answers (onward (entry hierarchy.old (caller who.now) path.now follow)
        (λ uid. altered_at hierarchy.old (subject who.now) uid request.now)) hierarchy.old result hierarchy.new }
    ensures runs { IfOk result (Moves hierarchy.old.pages hierarchy.new.pages) }
    ensures told { TellsFirst (resolved (caller who.now) path.now) result }
{
    match hierarchy.entry(alloc, who, path, follow) {
        Ok(uid) => alter(hierarchy, alloc, who, uid, request),
        Err(error) => Err(error),
    }
}

/// What gives out no page, and frees none.
fn quiet(did: Result<(), HierError>) -> Result<Runs, HierError>
    ensures { result ≡ with_no_runs did }
{
    match did {
        Ok(()) => Ok(Runs::none()),
        Err(error) => Err(error),
    }
}

/// What frees a run, or none.
fn freed(did: Result<Option<PageRun>, HierError>) -> Result<Runs, HierError>
    ensures { result ≡ with_freed did }
{
    match did {
        Ok(run) => Ok(Runs::freed(run)),
        Err(error) => Err(error),
    }
}

/// Does what a request that changes the hierarchy asks for, and says which runs of pages it gave out and freed.
pub(crate) fn change(
    hierarchy: &mut FreshHierarchy,
    alloc: Global,
    who: &Who,
    request: &Request,
) -> Result<Runs, HierError>
    requires { AreSegmentsTaken hierarchy.old }
    ensures answer { Answers (meant_by hierarchy.old (caller who.now) request.now) hierarchy.old result hierarchy.new }
    ensures runs { IfOk result (Moves hierarchy.old.pages hierarchy.new.pages) }
    ensures told { TellsFirst (path_found (caller who.now) request.now) result }
{
    match request {
        Request::CreateDir { .. } => create(hierarchy, alloc, who, request),
        Request::CreateSeg { .. } => create(hierarchy, alloc, who, request),
        Request::CreateObject { .. } => create(hierarchy, alloc, who, request),
        Request::CreateLink { .. } => create(hierarchy, alloc, who, request),
        Request::Rename { path, .. } => amend_along(hierarchy, alloc, who, path, false, request),
        Request::Delete { path } => alter_along(hierarchy, alloc, who, path, false, request),
        Request::SetAcl { path, .. } => alter_along(hierarchy, alloc, who, path, true, request),
        Request::DelAcl { path, .. } => alter_along(hierarchy, alloc, who, path, true, request),
        Request::SetIacl { path, .. } => amend_along(hierarchy, alloc, who, path, true, request),
        Request::DelIacl { path, .. } => amend_along(hierarchy, alloc, who, path, true, request),
        Request::SetBrackets { path, .. } => {
            alter_along(hierarchy, alloc, who, path, true, request)
        }
        Request::SetDirBrackets { path, .. } => {
            amend_along(hierarchy, alloc, who, path, true, request)
        }
        Request::SetClass { path, .. } => alter_along(hierarchy, alloc, who, path, true, request),
        _ => Ok(Runs::none()),
    }
}
