//! Finding, for the search rules.

ghost use Rattle.std.specs.Prelude.{◌≡◌, None, Some, IfOk, if◌then◌else◌};
ghost use Rattle.mx_hier.specs.Branches.{segment_at};
ghost use Rattle.mx_hier.specs.Callers.{has_access, on};
ghost use Rattle.mx_hier.specs.Find.{find_in, find_along, find_at};
ghost use Rattle.mx_hier.specs.Who.{subject};

use crate::access::has_access;
use crate::hierarchy::FreshHierarchy;
use crate::walks::joined;
use mx_hier::Who;
use mx_name::{EntryName, Path};
use std::alloc::{AllocError, Global};

impl FreshHierarchy {
    /// The segment that a name leads to in the directory of a uid, links followed, if some access to it is left to the
    /// caller.
    #[tactic(auto, using(mx_hier::proofs::FindLaws::found, mx_hier::proofs::FindLaws::not_found))]
    pub fn find_in(
        &self,
        alloc: Global,
        dir: u32,
        name: &EntryName,
        who: &Who,
    ) -> Result<Option<u32>, AllocError>
        ensures { IfOk result (λ uid. uid ≡ find_in self.now (subject who.now) dir name.now) }
    {
        match self.walk(alloc, 10, who, true, dir, &[*name])? {
            Ok(uid) => Ok(self.accessible(who, uid)),
            Err(_) => Ok(None),
        }
    }

    /// The same in the directory at a path, by one walk from the root.
    pub fn find_at(
        &self,
        alloc: Global,
        dir: &Path,
        name: &EntryName,
        who: &Who,
    ) -> Result<Option<u32>, AllocError>
        ensures { IfOk result (λ uid. uid ≡ find_at self.now (subject who.now) dir.now name.now) }
    {
        let path = joined(alloc, dir.names(), name)?;
        self.find_along(alloc, path.as_slice(), who)
    }

    /// The same at a path from the root.
    #[tactic(auto, using(mx_hier::proofs::FindLaws::found, mx_hier::proofs::FindLaws::not_found))]
    fn find_along(
        &self,
        alloc: Global,
        path: &[EntryName],
        who: &Who,
    ) -> Result<Option<u32>, AllocError>
        ensures { IfOk result (λ uid. uid ≡ find_along self.now (subject who.now) path.now) }
    {
        match self.walk(alloc, 10, who, true, 0, path)? {
            Ok(uid) => Ok(self.accessible(who, uid)),
            Err(_) => Ok(None),
        }
    }

    /// The uid, if it is that of a segment to which some access is left to the caller.
    fn accessible(&self, who: &Who, uid: u32) -> Option<u32>
        ensures { result ≡ (if on (has_access (subject who.now)) (segment_at self.now uid) then Some uid else None) }
    {
        match self.segment_at(uid) {
            Some(segment) if has_access(who, segment) => Some(uid),
            Some(_) | None => None,
        }
    }
}
