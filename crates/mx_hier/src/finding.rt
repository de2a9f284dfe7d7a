//! Finding, for the search rules.

ghost use Rattle.std.specs.Prelude.{◌≡◌, ◌<◌, None, Some, IfOk, IfSome, if◌then◌else◌};
ghost use Rattle.mx_hier.specs.Branches.{segment_at};
ghost use Rattle.mx_hier.specs.Callers.{has_access, on};
ghost use Rattle.mx_hier.specs.Find.{find_in, find_along, find_at};
ghost use Rattle.mx_hier.specs.Who.{subject};

use crate::callers::Who;
use crate::hier::Hier;
use crate::refusals::HierError;
use mx_name::{EntryName, Path, Route};
use std::alloc::{AllocError, Global};

impl Hier {
    /// The uid of the segment that a name leads to in the directory of a uid, links followed. None where the walk is
    /// refused, or ends at no segment or at one to which no access is left to the caller.
    #[tactic(auto, using(crate::proofs::FindLaws::found, crate::proofs::FindLaws::not_found))]
    pub fn find_in(
        &self,
        alloc: Global,
        dir: u32,
        name: &EntryName,
        who: &Who,
    ) -> Result<Option<u32>, AllocError>
        ensures value { IfOk result (λ uid. uid ≡ find_in self.now (subject who.now) dir name.now) }
        ensures below { IfOk result (λ uid. IfSome uid (λ uid. uid < self.now.next)) }
    {
        match self.walk(alloc, 10, who, true, dir, Route::of(&[*name]))? {
            Ok(uid) => Ok(self.accessible(who, uid)),
            Err(_) => Ok(None),
        }
    }

    /// The same in a directory given by its path: the path and the name are one walk from the root, with one count of
    /// links.
    pub fn find_at(
        &self,
        alloc: Global,
        dir: &Path,
        name: &EntryName,
        who: &Who,
    ) -> Result<Option<u32>, AllocError>
        ensures value { IfOk result (λ uid. uid ≡ find_at self.now (subject who.now) dir.now name.now) }
        ensures below { IfOk result (λ uid. IfSome uid (λ uid. uid < self.now.next)) }
    {
        self.find_along(alloc, Route::of_entry(dir, name), who)
    }

    /// The same at a path from the root.
    fn find_along(&self, alloc: Global, path: Route, who: &Who) -> Result<Option<u32>, AllocError>
        ensures value { IfOk result (λ uid. uid ≡ find_along self.now (subject who.now) path.entry) }
        ensures below { IfOk result (λ uid. IfSome uid (λ uid. uid < self.now.next)) }
    {
        match self.reached(alloc, who, true, path) {
            Ok(uid) => Ok(self.accessible(who, uid)),
            Err(HierError::Refused(_)) => Ok(None),
            Err(HierError::Memory) => Err(AllocError),
        }
    }

    /// The uid, if it is that of a segment to which some access is left to the caller.
    fn accessible(&self, who: &Who, uid: u32) -> Option<u32>
        ensures value { result ≡ (if on (has_access (subject who.now)) (segment_at self.now uid) then Some uid else None) }
        ensures below { IfSome result (λ uid. uid < self.now.next) }
    {
        match self.segment_at(uid) {
            Some(segment) if who.has_access(segment) => Some(uid),
            Some(_) | None => None,
        }
    }
}
