//! The hierarchy as lists: its branches in the order of their making, the pages, and the maps of objects.

ghost use Rattle.std.specs.Prelude.{◌≡◌, ◌==◌, ◌&&◌, ◌∷◌, [], Some, find, length, IfOk};
ghost use Rattle.std.specs.Option.{option_map};
ghost use Rattle.mx_hier.specs.Branches.{branch_of, entries_of, entry_in, uid_in, directory_at, segment_at, target_at, object_at, holder, holding};
ghost use Rattle.mx_name.specs.Names.{same_name};
ghost use Rattle.mx_hier.specs.Connected.{desc_of, desc_for};
ghost use Rattle.mx_hier.specs.Objects.{object_of, gate_of};
ghost use Rattle.mx_hier.specs.Opening.{root, opening};

use crate::branches::{Branch, Directory, Form, Segment};
use crate::lists::BranchList;
use crate::pages::PageList;
use mx_acl::{Acl, AclKind, InitialAcl, Modes};
use mx_aim::Class;
use mx_name::{AclId, EntryName, Path, Principal};
use mx_object::ObjectMap;
use mx_sdw::{Desc, Ring};
use std::alloc::{AllocError, Global};
use std::marker::Model;

/// The hierarchy: the root, the branches in the order of their making, the next uid, whether each page is free, and the
/// object maps, each with the uid of its segment.
#[derive(Drop)]
pub struct FreshHierarchy {
    pub(crate) root: Directory,
    pub(crate) branches: BranchList,
    pub(crate) pages: PageList,
    pub(crate) objects: Vec<(u32, ObjectMap)>,
}

impl Model for FreshHierarchy {
    ghost use Rattle.mx_hier.specs.Branches.{Hierarchy};

    ghost Value = { Hierarchy };

    ghost view = { λ a. record {
      root = a.root;
      branches = a.branches.branches;
      next = a.branches.next;
      pages = a.pages;
      objects = a.objects.items;
    } };
}

impl FreshHierarchy {
    /// The root alone; each page from this one on is free.
    pub fn new(alloc: Global, first_page: u32) -> Result<FreshHierarchy, AllocError>
        ensures { IfOk result (λ hierarchy. hierarchy ≡ opening first_page) }
    {
        let root = root(alloc)?;
        let pages = PageList::new(alloc, first_page)?;
        Ok(FreshHierarchy {
            root,
            branches: BranchList::new(alloc),
            pages,
            objects: Vec::new(alloc),
        })
    }

    /// The descriptor that a principal with an authorization has of the segment of a uid; gone where it was deleted.
    pub fn desc_of(&self, uid: u32, who: &Principal, authorization: Class) -> Desc
        ensures { result ≡ desc_of self.now uid who.now authorization }
    {
        match self.segment_at(uid) {
            None => Desc::gone(),
            Some(segment) => segment_desc(segment, self.gate_at(uid), who, authorization),
        }
    }

    /// How many words of the segment of a uid are gates.
    fn gate_at(&self, uid: u32) -> u16
        ensures { result ≡ gate_of (object_at self.now uid) }
    {
        match self.object_at(uid) {
            Some(object) => object.gate(),
            None => 0,
        }
    }

    /// The directory of a uid.
    pub(crate) fn directory_at(&self, uid: u32) -> Option<&Directory>
        ensures { option_map (λ directory. directory.now) result ≡ directory_at self.now uid }
    {
        if uid == 0 {
            return Some(&self.root);
        }
        match &branch_of(self.branches.items(), uid)?.form {
            Form::Directory(directory) => Some(directory),
            Form::Segment(_) | Form::Link(_) => None,
        }
    }

    /// The segment of a uid.
    pub(crate) fn segment_at(&self, uid: u32) -> Option<&Segment>
        ensures { option_map (λ segment. segment.now) result ≡ segment_at self.now uid }
    {
        match &branch_of(self.branches.items(), uid)?.form {
            Form::Segment(segment) => Some(segment),
            Form::Directory(_) | Form::Link(_) => None,
        }
    }

    /// The target of the link of a uid.
    pub(crate) fn target_at(&self, uid: u32) -> Option<&Path>
        ensures { option_map (λ target. target.now) result ≡ target_at self.now uid }
    {
        match &branch_of(self.branches.items(), uid)?.form {
            Form::Link(target) => Some(target),
            Form::Directory(_) | Form::Segment(_) => None,
        }
    }

    /// The map of an object segment, of a deleted one too.
    pub(crate) fn object_at(&self, uid: u32) -> Option<&ObjectMap>
        ensures { option_map (λ object. object.now) result ≡ object_at self.now uid }
    {
        object_of(&self.objects, uid)
    }

    /// The directory that holds an entry, by its uid; the root holds itself.
    pub(crate) fn holder(&self, uid: u32) -> Option<u32>
        ensures { result ≡ holder self.now uid }
    {
        if uid == 0 {
            return Some(0);
        }
        match branch_of(self.branches.items(), uid) {
            Some(branch) => Some(branch.parent),
            None => None,
        }
    }

    /// And that directory.
    pub(crate) fn holding(&self, uid: u32) -> Option<&Directory>
        ensures { option_map (λ directory. directory.now) result ≡ holding self.now uid }
    {
        let dir = self.holder(uid)?;
        self.directory_at(dir)
    }
}

/// The root: brackets 7, 7, the one entry `*.SysDaemon.*` with sma, and empty initial access lists.
fn root(alloc: Global) -> Result<Directory, AllocError>
    ensures { IfOk result (λ directory. directory ≡ root) }
{
    let Ok(id) = AclId::read(b"*.SysDaemon.*") else {
        unreachable!()
    };
    let Some(seven) = Ring::new(7) else {
        unreachable!()
    };
    let acl = acl_of_one(alloc, id, Modes::Sma)?;
    Ok(Directory {
        acl,
        segments: InitialAcl::new(alloc, AclKind::Segment),
        directories: InitialAcl::new(alloc, AclKind::Directory),
        d1: seven,
        d2: seven,
    })
}

/// An access list of a directory with one entry.
fn acl_of_one(alloc: Global, id: AclId, modes: Modes) -> Result<Acl, AllocError>
    ensures { IfOk result (λ acl. acl ≡ record { kind = AclKind.Directory; entries = (id, modes) ∷ [] }) }
{
    let mut acl = Acl::new(alloc, AclKind::Directory);
    match acl.set(id, modes) {
        Ok(()) => Ok(acl),
        Err(_) => Err(AllocError),
    }
}

fn segment_desc(segment: &Segment, gate: u16, who: &Principal, authorization: Class) -> Desc
    ensures { result ≡ desc_for who.now authorization gate (Some segment.now) }
{
    let modes = segment.acl.modes_of(who);
    Desc::classed(
        authorization.aim(&segment.class),
        segment.brackets,
        modes.r(),
        modes.e(),
        modes.w(),
        gate,
        segment.page,
        segment.words,
    )
}

/// The branch of a uid.
pub(crate) fn branch_of(branches: &[Branch], uid: u32) -> Option<&Branch>
    ensures { option_map (λ branch. branch.now) result ≡ branch_of branches.now uid }
{
    branches.iter().find(
        |branch: &&Branch| -> bool
            ensures { result ≡ (branch.now.now.uid == uid) }
        { branch.uid == uid },
    )
}

/// The uid of the entry of a name in a directory.
pub(crate) fn uid_in(branches: &[Branch], dir: u32, name: &EntryName) -> Option<u32>
    ensures { result ≡ uid_in branches.now dir name.now }
{
    match entry_in(branches, dir, name) {
        Some(branch) => Some(branch.uid),
        None => None,
    }
}

/// The entry of a name in a directory.
fn entry_in<'a>(branches: &'a [Branch], dir: u32, name: &EntryName) -> Option<&'a Branch>
    ensures { option_map (λ branch. branch.now) result ≡ entry_in branches.now dir name.now }
{
    branches.iter().find(
        |branch: &&Branch| -> bool
            ensures { result ≡ (branch.now.now.parent == dir && same_name branch.now.now.name name.entry.now) }
        { branch.parent == dir && branch.name == *name },
    )
}

/// How many entries a directory has.
pub(crate) fn count_in(branches: &[Branch], dir: u32) -> usize
    ensures { result ≡ length (entries_of branches.now dir) }
{
    branches
        .iter()
        .filter(
            |branch: &&Branch| -> bool
                ensures { result ≡ (branch.now.now.parent == dir) }
            { branch.parent == dir },
        )
        .count()
}

/// The map of a uid.
fn object_of(objects: &[(u32, ObjectMap)], uid: u32) -> Option<&ObjectMap>
    ensures { option_map (λ object. object.now) result ≡ object_of objects.now uid }
{
    match pair_of(objects, uid) {
        Some(pair) => Some(&pair.1),
        None => None,
    }
}

/// The uid with its map.
fn pair_of(objects: &[(u32, ObjectMap)], uid: u32) -> Option<&(u32, ObjectMap)>
    ensures { option_map (λ pair. pair.now) result ≡ find (λ pair. uid == pair.0) objects.now }
{
    objects.iter().find(
        |pair: &&(u32, ObjectMap)| -> bool
            ensures { result ≡ (uid == pair.now.now.0) }
        { uid == pair.0 },
    )
}
