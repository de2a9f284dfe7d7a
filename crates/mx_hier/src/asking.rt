//! Asking.

ghost use Rattle.std.specs.Prelude.{◌≡◌, ◌<◌, ◌≤◌, Some, IfOk, IfNone};
ghost use Rattle.mx_aim.specs.Classes.{PlainClass};
ghost use Rattle.mx_sdw.specs.Admissible.{IsAdmissible};
ghost use Rattle.std.specs.Option.{option_copied, option_map};
ghost use Rattle.mx_hier.specs.Branches.{object_at};
ghost use Rattle.mx_hier.specs.ChangeWorkingDirectory.{directory_refusals, directory_reached, directory};
ghost use Rattle.mx_hier.specs.Connected.{desc_of, desc_for};
ghost use Rattle.mx_hier.specs.DecidingEntry.{deciding_entry, AreFlagsOf};
ghost use Rattle.mx_hier.specs.Initiate.{segment_refusals, segment};
ghost use Rattle.mx_hier.specs.List.{list_at, list};
ghost use Rattle.mx_hier.specs.Objects.{gate_of};
ghost use Rattle.mx_hier.specs.Rules.{first_of, Tells, TellsFirst};
ghost use Rattle.mx_hier.specs.Sound.{IsStored};
ghost use Rattle.mx_hier.specs.Status.{directory_status, segment_status, status_of, status_at, status};
ghost use Rattle.mx_hier.specs.Walks.{resolved};
ghost use Rattle.mx_hier.specs.Who.{subject, caller};

use crate::branches::{Directory, Node, Segment};
use crate::callers::Who;
use crate::hier::Hier;
use crate::names::Names;
use crate::refusals::{HierError, Refusal};
use crate::walks::resolved;
use mx_acl::Modes;
use mx_aim::Class;
use mx_name::{AclId, EntryName, Path, Pathname, Principal, Route};
use mx_object::ObjectMap;
use mx_sdw::{Brackets, Desc, Ring};
use std::alloc::{AllocError, Global};

/// What `status` says of an entry: the modes are those that its access list gives the caller, in whatever ring. An
/// object segment has gates, definitions and links. The class of a segment is there where classes are told.
#[derive(Drop)]
pub enum Status {
    Segment {
        words: u16,
        brackets: Brackets,
        modes: Modes,
        class: Option<Class>,
    },
    Object {
        words: u16,
        brackets: Brackets,
        gate: u16,
        definitions: u16,
        links: u16,
        modes: Modes,
        class: Option<Class>,
    },
    Directory {
        d1: Ring,
        d2: Ring,
        modes: Modes,
    },
    Link {
        target: Path,
    },
}

impl Hier {
    /// What is said of an entry, of a segment with its class; of a link itself, and not of what it leads to. `NoInfo`
    /// where the caller has no s on the directory that holds it.
    pub fn status(&self, alloc: Global, who: &Who, path: &Pathname) -> Result<Status, HierError>
        ensures answer { Tells (status self.now (caller who.now) path.now) result }
        ensures told { TellsFirst (resolved (caller who.now) path.now) result }
    {
        let uid = self.entry(alloc, who, path, false)?;
        let status = self.status_at(who, uid)?;
        Ok(status)
    }

    fn status_at(&self, who: &Who, uid: u32) -> Result<Status, HierError>
        ensures answer { Tells (status_at self.now (subject who.now) uid) result }
        ensures told { TellsFirst (status_at self.now (subject who.now) uid) result }
    {
        match self.holding(uid) {
            Some(holder) if who.has_status(holder) => {}
            Some(_) | None => return Err(HierError::Refused(Refusal::NoInfo)),
        }
        if uid == 0 {
            return Ok(directory_status(who, &self.root));
        }
        let Some(branch) = self.tables.get(uid) else {
            return Err(HierError::Refused(Refusal::NoInfo));
        };
        let status = status_of(who, self.object_at(uid), &branch.node)?;
        Ok(status)
    }

    /// The names of a directory's entries in byte order. `NotADir` and `IncorrectAccess`, where the caller has no s
    /// on it, are said at its holder. The names are kept until the directory changes: the next `list` takes no memory
    /// for them.
    pub fn list(&mut self, alloc: Global, who: &Who, path: &Pathname) -> Result<Names, HierError>
        ensures answer { Tells (list self.old (caller who.now) path.now) result }
        ensures told { TellsFirst (resolved (caller who.now) path.now) result }
        ensures same { self.new ≡ self.old }
    {
        let uid = self.entry(alloc, who, path, true)?;
        let names = self.list_at(alloc, who, uid)?;
        Ok(names)
    }

    fn list_at(&mut self, alloc: Global, who: &Who, uid: u32) -> Result<Names, HierError>
        ensures answer { Tells (list_at self.old (subject who.now) uid) result }
        ensures told { TellsFirst (list_at self.old (subject who.now) uid) result }
        ensures same { self.new ≡ self.old }
    {
        let Some(directory) = self.directory_at(uid) else {
            let why = who.told(Refusal::NotADir, self.holding(uid));
            return Err(HierError::Refused(why));
        };
        if !who.has_status(directory) {
            let why = who.told(Refusal::IncorrectAccess, self.holding(uid));
            return Err(HierError::Refused(why));
        }
        let names = self.tables.names_in(alloc, uid)?;
        Ok(names)
    }

    /// The path of a directory on which some mode is left to the caller, as it is written: where its links lead is not
    /// asked. `NotADir` and `IncorrectAccess` are said at its holder. For `change_wdir`.
    pub fn directory(&self, alloc: Global, who: &Who, path: &Pathname) -> Result<Path, HierError>
        ensures answer { Tells (directory self.now (caller who.now) path.now) result }
        ensures told { TellsFirst (resolved (caller who.now) path.now) result }
    {
        let path = resolved(alloc, who, path)?;
        match self.reach_directory(alloc, who, Route::of(path.names())) {
            Ok(()) => Ok(path),
            Err(error) => Err(error),
        }
    }

    /// Whether some mode is left to the caller on the directory that a path from the root leads to.
    fn reach_directory(&self, alloc: Global, who: &Who, path: Route) -> Result<(), HierError>
        ensures { Tells (directory_reached self.now (subject who.now) path.entry) result }
    {
        let uid = self.reached(alloc, who, true, path)?;
        match self.directory_refusal(who, uid) {
            Some(why) => Err(HierError::Refused(why)),
            None => Ok(()),
        }
    }

    fn directory_refusal(&self, who: &Who, uid: u32) -> Option<Refusal>
        ensures { result ≡ first_of (directory_refusals self.now (subject who.now) uid) }
    {
        match self.directory_at(uid) {
            None => Some(who.told(Refusal::NotADir, self.holding(uid))),
            Some(directory) if who.has_any(directory) => None,
            Some(_) => Some(who.told(Refusal::IncorrectAccess, self.holding(uid))),
        }
    }

    /// The uid of a segment to which some access is left to the caller. `NotASeg` and `IncorrectAccess` are said at its
    /// holder. For `initiate`.
    pub fn segment(&self, alloc: Global, who: &Who, path: &Pathname) -> Result<u32, HierError>
        ensures answer { Tells (segment self.now (caller who.now) path.now) result }
        ensures told { TellsFirst (resolved (caller who.now) path.now) result }
        ensures below { IfOk result (λ uid. uid < self.now.next) }
    {
        let uid = self.entry(alloc, who, path, true)?;
        match self.segment_refusal(who, uid) {
            Some(why) => Err(HierError::Refused(why)),
            None => Ok(uid),
        }
    }

    fn segment_refusal(&self, who: &Who, uid: u32) -> Option<Refusal>
        ensures value { result ≡ first_of (segment_refusals self.now (subject who.now) uid) }
        ensures below { IfNone result (uid < self.now.next) }
    {
        match self.segment_at(uid) {
            None => Some(who.told(Refusal::NotASeg, self.holding(uid))),
            Some(segment) if who.has_access(segment) => None,
            Some(_) => Some(who.told(Refusal::IncorrectAccess, self.holding(uid))),
        }
    }

    /// How many words of the segment of a uid are gates.
    fn gate_at(&self, uid: u32) -> u16
        ensures value { result ≡ gate_of (object_at self.now uid) }
        ensures most { result ≤ 1024 }
    {
        match self.object_at(uid) {
            Some(object) => object.gate(),
            None => 0,
        }
    }

    /// The descriptor that a principal with an authorization has of the segment of a uid: its aim is that of the
    /// authorization at the segment's class, its flags are what the access list gives and the aim lets stand, and its
    /// gates those of its object map. Gone where the segment was deleted. Takes no memory.
    #[inline(always)]
    #[tactic(auto, using(crate::proofs::DescriptorLaws::gone_admissible))]
    pub fn desc_of(&self, uid: u32, who: &Principal, authorization: Class) -> Desc
        ensures value { result ≡ desc_of self.now uid who.now authorization }
        ensures admissible { IsAdmissible result }
    {
        match self.segment_at(uid) {
            None => Desc::gone(),
            Some(segment) => segment_desc(segment, self.gate_at(uid), who, authorization),
        }
    }

    /// The entry of the access list of the segment of a uid that decides for a principal, with its modes: it explains
    /// the flags of the descriptor, whatever the authorization. None where no entry matches, where the segment was
    /// deleted, and where the uid is of no segment. Takes no memory.
    #[tactic(auto, using(crate::proofs::EntryLaws::flags_of_entry))]
    pub fn deciding_entry(&self, uid: u32, who: &Principal) -> Option<(&AclId, Modes)>
        ensures value { option_map (λ pair. (pair.0.now, pair.1)) result ≡ deciding_entry self.now uid who.now }
        ensures flags { (authorization : PlainClass)
            → AreFlagsOf (deciding_entry self.now uid who.now) (desc_of self.now uid who.now authorization) }
    {
        self.segment_at(uid)?.acl.deciding(who)
    }
}

fn directory_status(who: &Who, directory: &Directory) -> Status
    ensures { result ≡ directory_status (subject who.now) directory.now }
{
    Status::Directory {
        d1: directory.d1,
        d2: directory.d2,
        modes: directory.acl.modes_of(who.principal),
    }
}

fn segment_status(who: &Who, segment: &Segment, object: Option<&ObjectMap>) -> Status
    ensures { result ≡ segment_status (subject who.now) segment.now (option_copied object.entry) }
{
    let modes = segment.acl.modes_of(who.principal);
    match object {
        None => Status::Segment {
            words: segment.words,
            brackets: segment.brackets,
            modes,
            class: Some(segment.class),
        },
        Some(object) => Status::Object {
            words: segment.words,
            brackets: segment.brackets,
            gate: object.gate(),
            definitions: object.definitions().len() as u16,
            links: object.links().len() as u16,
            modes,
            class: Some(segment.class),
        },
    }
}

fn status_of(who: &Who, object: Option<&ObjectMap>, node: &Node) -> Result<Status, AllocError>
    ensures { IfOk result (λ status. status ≡ status_of (subject who.now) (option_copied object.entry) node.now) }
{
    match node {
        Node::Directory(boxed) => Ok(directory_status(who, boxed.directory())),
        Node::Segment(boxed) => Ok(segment_status(who, boxed.segment(), object)),
        Node::Link(target) => {
            let target = target.copy()?;
            Ok(Status::Link { target })
        }
    }
}

#[tactic(auto, using(crate::proofs::DescriptorLaws::segment_admissible))]
fn segment_desc(segment: &Segment, gate: u16, who: &Principal, authorization: Class) -> Desc
    requires stored { IsStored segment.now }
    requires gates { gate ≤ 1024 }
    ensures value { result ≡ desc_for who.now authorization gate (Some segment.now) }
    ensures admissible { IsAdmissible result }
{
    // These are called for their clauses: the brackets are in order, and the last is at most 7.
    let (_order, _last) = (segment.brackets.r2(), segment.brackets.r3().number());
    let modes = segment.acl.modes_of(who);
    Desc::classed(
        authorization.aim(&segment.class),
        segment.brackets,
        modes.r(),
        modes.e(),
        modes.w(),
        gate,
        segment.page,
        segment.words,
    )
}
