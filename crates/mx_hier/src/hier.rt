//! The hierarchy.

ghost use Rattle.std.specs.Prelude.{◌≡◌, ◌<◌, ◌≤◌, ℕ, List, [], ◌∷◌, Some, IfOk, IfSome, IsTrue, is_some};
ghost use Rattle.std.specs.Option.{option_map};
ghost use Rattle.mx_hier.specs.Branches.{Hierarchy, directory_at, segment_at, object_at, target_at, holder, holding};
ghost use Rattle.mx_hier.specs.Objects.{gate_of, defined_in};
ghost use Rattle.mx_hier.specs.Opening.{root, opening};
ghost use Rattle.mx_hier.specs.Sound.{IsStored};

use crate::branches::{Directory, Node, Segment};
use crate::initial::InitialAcls;
use crate::objects::object_in;
use crate::tables::Tables;
use indexmap::IndexMap;
use mx_acl::{Acl, AclKind, Modes};
use mx_name::{AclId, Path};
use mx_object::ObjectMap;
use mx_pages::Pages;
use mx_sdw::Ring;
use std::alloc::{AllocError, Global};
use std::marker::Model;

/// The directory hierarchy: what its directories hold, the pages that are left for segments, and the maps of object
/// segments by uid.
#[derive(Drop)]
pub struct Hier {
    pub(crate) root: Directory,
    pub(crate) tables: Tables,
    pub(crate) pages: Pages,
    pub(crate) objects: IndexMap<u32, ObjectMap>,
}

impl Model for Hier {
    ghost use Rattle.mx_hier.specs.Branches.{Hierarchy};
    ghost use Rattle.mx_hier.specs.Sound.{IsSound};

    ghost Value = { Hierarchy };

    ghost view = { λ a. record {
      root = a.root;
      branches = a.tables.branches;
      next = a.tables.next;
      pages = a.pages;
      objects = a.objects.entries;
    } };

    ghost invariant = { λ a. IsSound a.tables.branches a.tables.next a.pages a.objects.entries };
}

impl Hier {
    /// The root directory alone, with brackets 7, 7, the one access list entry `*.SysDaemon.*` sma and empty initial
    /// access lists; each page from `first_page` on is free.
    pub fn new(alloc: Global, first_page: u32) -> Result<Hier, AllocError>
        ensures { IfOk result (λ hier. hier ≡ opening first_page) }
    {
        let tables = Tables::new(alloc)?;
        let root = root(alloc)?;
        Ok(Hier {
            root,
            tables,
            pages: Pages::new(first_page),
            objects: IndexMap::new(alloc),
        })
    }

    /// The directory of a uid.
    pub(crate) fn directory_at(&self, uid: u32) -> Option<&Directory>
        ensures value { option_map (λ directory. directory.now) result ≡ directory_at self.now uid }
        ensures below { IfSome result (λ directory. uid < self.now.next) }
    {
        if uid == 0 {
            return Some(&self.root);
        }
        match &self.tables.get(uid)?.node {
            Node::Directory(boxed) => Some(boxed.directory()),
            Node::Segment(_) | Node::Link(_) => None,
        }
    }

    /// The segment of a uid.
    pub(crate) fn segment_at(&self, uid: u32) -> Option<&Segment>
        ensures value { option_map (λ segment. segment.now) result ≡ segment_at self.now uid }
        ensures stored { IfSome result (λ segment. IsStored segment.now) }
        ensures below { IfSome result (λ segment. uid < self.now.next) }
    {
        match &self.tables.get(uid)?.node {
            Node::Segment(boxed) => Some(boxed.segment()),
            Node::Directory(_) | Node::Link(_) => None,
        }
    }

    /// Whether a segment stands at a uid: one that was deleted does not. Takes no memory.
    pub fn is_segment(&self, uid: u32) -> bool
        ensures value { result ≡ is_some (segment_at self.now uid) }
        ensures below { IsTrue result → uid < self.now.next }
    {
        self.segment_at(uid).is_some()
    }

    /// The map of the object segment of a uid, of a deleted one too. Takes no memory.
    pub fn object_at(&self, uid: u32) -> Option<&ObjectMap>
        ensures value { option_map (λ object. object.now) result ≡ object_at self.now uid }
        ensures gates { gate_of (object_at self.now uid) ≤ 1024 }
        ensures words { (word : ℕ) (symbol : List ℕ) → defined_in (object_at self.now uid) symbol ≡ Some word → word < 1024 }
    {
        object_in(&self.objects, uid)
    }

    /// The path of the link of a uid.
    pub(crate) fn target_at(&self, uid: u32) -> Option<&Path>
        ensures { option_map (λ target. target.now) result ≡ target_at self.now uid }
    {
        match &self.tables.get(uid)?.node {
            Node::Link(target) => Some(target),
            Node::Directory(_) | Node::Segment(_) => None,
        }
    }

    /// The uid of the directory that holds the entry of a uid now; the root holds itself. None where it was deleted.
    /// Takes no memory.
    pub fn holder(&self, uid: u32) -> Option<u32>
        ensures { result ≡ holder self.now uid }
    {
        if uid == 0 {
            return Some(0);
        }
        match self.tables.get(uid) {
            Some(branch) => Some(branch.parent),
            None => None,
        }
    }

    /// The directory that holds the entry of a uid.
    pub(crate) fn holding(&self, uid: u32) -> Option<&Directory>
        ensures { option_map (λ directory. directory.now) result ≡ holding self.now uid }
    {
        let dir = self.holder(uid)?;
        self.directory_at(dir)
    }
}

fn root(alloc: Global) -> Result<Directory, AllocError>
    ensures { IfOk result (λ directory. directory ≡ root) }
{
    let Ok(id) = AclId::read(b"*.SysDaemon.*") else {
        return Err(AllocError);
    };
    let acl = acl_of_one(alloc, AclKind::Directory, id, Modes::Sma)?;
    let Some(seven) = Ring::new(7) else {
        return Err(AllocError);
    };
    Ok(Directory {
        acl,
        initial: InitialAcls::new(alloc),
        d1: seven,
        d2: seven,
    })
}

/// An access list with one entry.
fn acl_of_one(alloc: Global, kind: AclKind, id: AclId, modes: Modes) -> Result<Acl, AllocError>
    ensures { IfOk result (λ acl. acl ≡ record { kind = kind; entries = (id, modes) ∷ [] }) }
{
    let mut acl = Acl::new(alloc, kind);
    match acl.set(id, modes) {
        Ok(()) => Ok(acl),
        Err(_) => Err(AllocError),
    }
}
