//! Requests that ask: `status`, `list`, and what `initiate` and `change_wdir` ask for.

ghost use Rattle.std.specs.Prelude.{◌≡◌, IfOk};
ghost use Rattle.std.specs.Option.{option_copied};
ghost use Rattle.mx_aim.specs.Classes.{PlainClass};
ghost use Rattle.mx_hier.specs.Branches.{segment_at, object_at};
ghost use Rattle.mx_hier.specs.ChangeWorkingDirectory.{directory_refusals, directory_reached, directory};
ghost use Rattle.mx_hier.specs.Connected.{desc_of};
ghost use Rattle.mx_hier.specs.Initiate.{segment_refusals, segment};
ghost use Rattle.mx_hier.specs.List.{list_at, list};
ghost use Rattle.mx_hier.specs.Rules.{first_of, Tells, TellsFirst};
ghost use Rattle.mx_hier.specs.Status.{directory_status, segment_status, status_at, status};
ghost use Rattle.mx_hier.specs.Walks.{resolved};
ghost use Rattle.mx_hier.specs.Who.{subject, caller};

use crate::access::{has_access, has_any, has_status, say};
use crate::branches::{Directory, Form, Segment};
use crate::hierarchy::{FreshHierarchy, branch_of};
use crate::listing::{in_byte_order, names_in};
use crate::walks::resolved;
use mx_hier::{HierError, Names, Refusal, Status, Who};
use mx_name::{EntryName, Path, Pathname};
use mx_object::ObjectMap;
use std::alloc::Global;

impl FreshHierarchy {
    /// What is said of an entry, of a link itself; of a segment with its class. `NoInfo` where the caller has no s on the
    /// directory that holds it.
    pub fn status(&self, alloc: Global, who: &Who, path: &Pathname) -> Result<Status, HierError>
        ensures answer { Tells (status self.now (caller who.now) path.now) result }
        ensures told { TellsFirst (resolved (caller who.now) path.now) result }
    {
        let uid = self.entry(alloc, who, path, false)?;
        self.status_at(who, uid)
    }

    fn status_at(&self, who: &Who, uid: u32) -> Result<Status, HierError>
        ensures answer { Tells (status_at self.now (subject who.now) uid) result }
        ensures told { TellsFirst (status_at self.now (subject who.now) uid) result }
    {
        match self.holding(uid) {
            Some(holder) if has_status(who, holder) => {}
            Some(_) | None => return Err(HierError::Refused(Refusal::NoInfo)),
        }
        if uid == 0 {
            return Ok(directory_status(who, &self.root));
        }
        let Some(branch) = branch_of(self.branches.items(), uid) else {
            return Err(HierError::Refused(Refusal::NoInfo));
        };
        match &branch.form {
            Form::Directory(directory) => Ok(directory_status(who, directory)),
            Form::Segment(segment) => Ok(segment_status(who, segment, self.object_at(uid))),
            Form::Link(target) => {
                let target = target.copy()?;
                Ok(Status::Link { target })
            }
        }
    }

    /// The names of a directory's entries in byte order. `NotADir` and `IncorrectAccess`, where the caller has no s on
    /// it, are said at its holder.
    pub fn list(&self, alloc: Global, who: &Who, path: &Pathname) -> Result<Names, HierError>
        ensures answer { Tells (list self.now (caller who.now) path.now) result }
        ensures told { TellsFirst (resolved (caller who.now) path.now) result }
    {
        let uid = self.entry(alloc, who, path, true)?;
        let names = self.list_at(alloc, who, uid)?;
        Ok(names)
    }

    fn list_at(&self, alloc: Global, who: &Who, uid: u32) -> Result<Names, HierError>
        ensures answer { Tells (list_at self.now (subject who.now) uid) result }
        ensures told { TellsFirst (list_at self.now (subject who.now) uid) result }
    {
        let Some(directory) = self.directory_at(uid) else {
            let why = say(who, Refusal::NotADir, self.holding(uid));
            return Err(HierError::Refused(why));
        };
        if !has_status(who, directory) {
            let why = say(who, Refusal::IncorrectAccess, self.holding(uid));
            return Err(HierError::Refused(why));
        }
        let names = names_in(alloc, self.branches.items(), uid)?;
        let names = in_byte_order(names)?;
        let names = Names::of(alloc, names.as_slice())?;
        Ok(names)
    }

    /// The path of a directory on which some mode is left to the caller, as it is written. For `change_wdir`.
    pub fn directory(&self, alloc: Global, who: &Who, path: &Pathname) -> Result<Path, HierError>
        ensures answer { Tells (directory self.now (caller who.now) path.now) result }
        ensures told { TellsFirst (resolved (caller who.now) path.now) result }
    {
        let path = resolved(alloc, who, path)?;
        match self.directory_reached(alloc, who, path.names()) {
            Ok(()) => Ok(path),
            Err(error) => Err(error),
        }
    }

    fn directory_reached(
        &self,
        alloc: Global,
        who: &Who,
        path: &[EntryName],
    ) -> Result<(), HierError>
        ensures { Tells (directory_reached self.now (subject who.now) path.now) result }
    {
        let uid = self.reached(alloc, who, true, path)?;
        match self.directory_refusal(who, uid) {
            Some(why) => Err(HierError::Refused(why)),
            None => Ok(()),
        }
    }

    fn directory_refusal(&self, who: &Who, uid: u32) -> Option<Refusal>
        ensures { result ≡ first_of (directory_refusals self.now (subject who.now) uid) }
    {
        match self.directory_at(uid) {
            None => Some(say(who, Refusal::NotADir, self.holding(uid))),
            Some(directory) if has_any(who, directory) => None,
            Some(_) => Some(say(who, Refusal::IncorrectAccess, self.holding(uid))),
        }
    }

    /// The uid of a segment to which some access is left to the caller. For `initiate`.
    pub fn segment(&self, alloc: Global, who: &Who, path: &Pathname) -> Result<u32, HierError>
        ensures answer { Tells (segment self.now (caller who.now) path.now) result }
        ensures told { TellsFirst (resolved (caller who.now) path.now) result }
    {
        let uid = self.entry(alloc, who, path, true)?;
        match self.segment_refusal(who, uid) {
            Some(why) => Err(HierError::Refused(why)),
            None => Ok(uid),
        }
    }

    fn segment_refusal(&self, who: &Who, uid: u32) -> Option<Refusal>
        ensures { result ≡ first_of (segment_refusals self.now (subject who.now) uid) }
    {
        match self.segment_at(uid) {
            None => Some(say(who, Refusal::NotASeg, self.holding(uid))),
            Some(segment) if has_access(who, segment) => None,
            Some(_) => Some(say(who, Refusal::IncorrectAccess, self.holding(uid))),
        }
    }
}

fn directory_status(who: &Who, directory: &Directory) -> Status
    ensures { result ≡ directory_status (subject who.now) directory.now }
{
    Status::Directory {
        d1: directory.d1,
        d2: directory.d2,
        modes: directory.acl.modes_of(who.principal),
    }
}

fn segment_status(who: &Who, segment: &Segment, object: Option<&ObjectMap>) -> Status
    ensures { result ≡ segment_status (subject who.now) segment.now (option_copied object.entry) }
{
    let modes = segment.acl.modes_of(who.principal);
    let class = Some(segment.class);
    match object {
        None => Status::Segment {
            words: segment.words,
            brackets: segment.brackets,
            modes,
            class,
        },
        Some(object) => Status::Object {
            words: segment.words,
            brackets: segment.brackets,
            gate: object.gate(),
            definitions: object.definitions().len() as u16,
            links: object.links().len() as u16,
            modes,
            class,
        },
    }
}
