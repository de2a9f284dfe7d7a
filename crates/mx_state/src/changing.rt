//! Requests that change one entry, and with it the descriptors of those who know its segment.
//!
//! The entry is found by one walk, and what a process knows of it by one look-up. All memory but that of the hierarchy
//! itself is taken before the hierarchy changes: the descriptors that are held of the segment, in place of which those
//! that become others are told. Where a segment is deleted its pages are freed, and told.

ghost use Rattle.std.specs.Prelude.{◌≡◌, ◌≤◌, length, None, IfOk, IfSome, OnErr};
ghost use Rattle.std.specs.Option.{option_map};
ghost use Rattle.mx_hier.specs.Branches.{segment_at};
ghost use Rattle.mx_hier.specs.Rules.{Answers};
ghost use Rattle.mx_hier.specs.Who.{subject};
ghost use Rattle.mx_state.specs.Askers.{asker};
ghost use Rattle.mx_state.specs.AtOnce.{pathless};
ghost use Rattle.mx_state.specs.Changing.{alteration, altered_at};
ghost use Rattle.mx_state.specs.NextRun.{IsTaken, freed_by, run_of, unless_refused};
ghost use Rattle.mx_state.specs.Serving.{Serves};

use crate::applied::Applied;
use crate::callers::caller;
use crate::renewing::{held, renewed};
use crate::replies::{done, refused};
use crate::states::State;
use mx_hier::{Hier, HierError, Who, segments_have_pages_of_their_own};
use mx_name::Pathname;
use mx_pages::{PageRun, pages_for};
use mx_request::Request;
use mx_sdw::Ring;
use std::alloc::{AllocError, Global};

impl State {
    /// Answers `delete`, `set_acl`, `del_acl`, `set_brackets` and `set_class`. The last link of the path is followed
    /// where `follow` says so.
    pub(crate) fn alter(
        &mut self,
        alloc: Global,
        p: u8,
        ring: Ring,
        path: &Pathname,
        follow: bool,
        request: &Request,
    ) -> Result<Applied, AllocError>
        requires asker { p ≤ length self.old.processes }
        ensures served { IfOk result (Serves self.old self.new (alteration self.old p ring path.now follow request.now)) }
        ensures told { OnErr result (pathless (asker self.old.processes p) ring path.now ≡ None) }
        ensures err { OnErr result (self.new ≡ self.old) }
    {
        let processes = self.processes.as_slice();
        let who = caller(&self.initializer, &self.root, processes, p, ring);
        let uid = match self.hier.entry(alloc, &who, path, follow) {
            Ok(uid) => uid,
            Err(error) => return refused(alloc, error),
        };
        let held = held(alloc, &self.hier, processes, uid)?;
        let pages = freed_by(&self.hier, &who, uid, request);
        let given = alter(&mut self.hier, &who, uid, request);
        let freed = unless_refused(&given, pages);
        let reply = done(given)?;
        let changes = renewed(&self.hier, processes, held);
        Ok(Applied {
            reply,
            changes,
            given: None,
            freed,
        })
    }
}

// The run of pages that a request frees, unless it is refused: that of a segment that it deletes.
fn freed_by(hier: &Hier, who: &Who, uid: u32, request: &Request) -> Option<PageRun>
    ensures value { result ≡ freed_by hier.now uid request.now }
    ensures taken { IfSome result (IsTaken hier.now.pages) }
{
    match request {
        Request::Delete { .. } => pages_of(hier, who, uid),
        _ => None,
    }
}

// The run of pages on which the segment of a uid lies: none where no segment stands there.
fn pages_of(hier: &Hier, who: &Who, uid: u32) -> Option<PageRun>
    ensures value { result ≡ option_map run_of (segment_at hier.now uid) }
    ensures taken { IfSome result (IsTaken hier.now.pages) }
{
    // A descriptor says where its segment lies, whosever it is. It has no words where there is no segment.
    let desc = hier.desc_of(uid, who.principal, who.authorization);
    // This is called for its clause: no page of a segment is free.
    segments_have_pages_of_their_own(hier);
    if desc.bound() == 0 {
        return None;
    }
    Some(PageRun {
        first: desc.page(),
        count: pages_for(u32::from(desc.bound())) as u16,
    })
}

// The run that was freed, where it was to be this one: none where the call came to nothing.
fn unless_refused(given: &Result<(), HierError>, pages: Option<PageRun>) -> Option<PageRun>
    ensures { result ≡ unless_refused given.now pages }
{
    match given {
        Ok(()) => pages,
        Err(_) => None,
    }
}

// Changes an entry as one of these requests asks.
fn alter(hier: &mut Hier, who: &Who, uid: u32, request: &Request) -> Result<(), HierError>
    ensures answer { Answers (altered_at hier.old (subject who.now) uid request.now) hier.old result hier.new }
{
    match request {
        Request::Delete { .. } => hier.delete(who, uid),
        Request::SetAcl { path: _, id, modes } => hier.set_acl(who, uid, id, *modes),
        Request::DelAcl { path: _, id } => hier.del_acl(who, uid, id),
        Request::SetBrackets { path: _, brackets } => hier.set_brackets(who, uid, *brackets),
        Request::SetClass { path: _, class } => hier.set_class(who, uid, *class),
        _ => Ok(()),
    }
}
