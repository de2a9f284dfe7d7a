//! The hierarchy as the entries of a journal leave it: what stands where, with whose access lists.
//!
//! The plain supervisor has all this and hands none of it out, so it is had once more here, from the requests that were done.
//! It is used for words alone: of refusals, where what is said of who may do what is told only where it comes to the refusal in
//! the journal, and of what a segment number stands for.

use indexmap::IndexMap;
use mx_acl::{Acl, AclError, AclKind, InitialAcl, Modes};
use mx_aim::Class;
use mx_name::{AclId, EntryName, Path, PathError, Pathname, Principal};
use mx_request::Request;
use mx_sdw::Ring;
use std::alloc::{AllocError, Global};

/// The number of the root.
pub(crate) const ROOT: u32 = 0;

/// The most links that a walk follows.
const LINKS: usize = 10;

/// The most names of a pathname that is told.
const NAMES: usize = 84;

/// Who asks: a principal with an authorization, in a ring, and his working directory.
#[derive(Clone, Copy)]
pub(crate) struct Caller<'a> {
    pub principal: &'a Principal,
    pub authorization: Class,
    pub ring: Ring,
    pub base: &'a Path,
}

/// A directory, and the numbers of its entries by their names.
#[derive(Drop)]
pub(crate) struct Directory {
    pub acl: Acl,
    pub d1: Ring,
    pub d2: Ring,
    segments: InitialAcl,
    directories: InitialAcl,
    names: IndexMap<EntryName, u32>,
}

/// A segment, and the place in the journal of the entry that made it: the request has the map of an object segment.
#[derive(Drop)]
pub(crate) struct Segment {
    pub acl: Acl,
    pub class: Class,
    pub brackets: [Ring; 3],
    pub words: u32,
    pub is_object: bool,
    pub made: usize,
}

/// What an entry is.
#[derive(Drop)]
pub(crate) enum Thing {
    Directory(Directory),
    Segment(Segment),
    Link(Path),
}

/// An entry: the number of the directory that holds it, its name, which the root has not, and what it is. One that was deleted
/// stays.
#[derive(Drop)]
pub(crate) struct Branch {
    pub parent: u32,
    pub name: Option<EntryName>,
    pub thing: Thing,
}

/// Where a pathname leads: to an entry, or to a stop.
#[derive(Clone, Copy)]
pub(crate) enum Led {
    To(u32),
    /// This directory has no entry of this name.
    NoEntry(u32, EntryName),
    /// This entry is no directory.
    NotADir(u32),
    /// This is the eleventh link.
    LinkLoop(u32),
}

/// What has no path from a working directory.
#[derive(Clone, Copy)]
pub(crate) enum NoPath {
    AboveRoot,
    TooLong,
}

// Where names lead up to the first link that is to be followed: how many of them come behind it.
#[derive(Clone, Copy)]
enum Along {
    Ends(Led),
    Linked(u32, usize),
}

/// The entries of all directories, each in the place of its number.
#[derive(Drop)]
pub(crate) struct Tree {
    branches: Vec<Branch>,
}

impl Tree {
    /// The root alone.
    pub(crate) fn new(alloc: Global) -> Result<Tree, AllocError> {
        let mut acl = Acl::new(alloc, AclKind::Directory);
        if let Ok(id) = AclId::read(b"*.SysDaemon.*") {
            set_entry(&mut acl, &id, Modes::Sma)?;
        }
        let Some(seven) = Ring::new(7) else {
            return Err(AllocError);
        };
        let root = bare_directory(alloc, acl, seven, seven);
        let mut branches = Vec::new(alloc);
        branches.push(Branch {
            parent: ROOT,
            name: None,
            thing: Thing::Directory(root),
        })?;
        Ok(Tree { branches })
    }

    /// The entry of a number.
    pub(crate) fn branch(&self, at: u32) -> Option<&Branch> {
        self.branches.get(at as usize)
    }

    /// The directory of a number.
    pub(crate) fn directory(&self, at: u32) -> Option<&Directory> {
        match &self.branch(at)?.thing {
            Thing::Directory(directory) => Some(directory),
            Thing::Segment(_) | Thing::Link(_) => None,
        }
    }

    /// The segment of a number.
    pub(crate) fn segment(&self, at: u32) -> Option<&Segment> {
        match &self.branch(at)?.thing {
            Thing::Segment(segment) => Some(segment),
            Thing::Directory(_) | Thing::Link(_) => None,
        }
    }

    /// The path of the link of a number.
    pub(crate) fn target(&self, at: u32) -> Option<&Path> {
        match &self.branch(at)?.thing {
            Thing::Link(target) => Some(target),
            Thing::Directory(_) | Thing::Segment(_) => None,
        }
    }

    /// The number of the directory that holds an entry; the root holds itself.
    pub(crate) fn holder(&self, at: u32) -> u32 {
        match self.branch(at) {
            Some(branch) => branch.parent,
            None => ROOT,
        }
    }

    /// Whether an entry stands: one that was deleted does not.
    pub(crate) fn stands(&self, at: u32) -> bool {
        let Some(branch) = self.branch(at) else {
            return false;
        };
        match branch.name {
            Some(name) => self.entry(branch.parent, &name) == Some(at),
            None => true,
        }
    }

    /// The number of the entry that a directory has under a name.
    pub(crate) fn entry(&self, dir: u32, name: &EntryName) -> Option<u32> {
        self.directory(dir)?.names.get(name).copied()
    }

    /// How many entries a directory has.
    pub(crate) fn count(&self, dir: u32) -> usize {
        match self.directory(dir) {
            Some(directory) => directory.names.len(),
            None => 0,
        }
    }

    /// Where names lead from a directory: ten links may be followed, each from the root, and one at the last name where it is
    /// asked for.
    pub(crate) fn walk(
        &self,
        alloc: Global,
        from: u32,
        names: &[EntryName],
        follow: bool,
    ) -> Result<Led, AllocError> {
        let mut from = from;
        let mut path = names.to_vec(alloc)?;
        for _ in 0..LINKS {
            match self.along(from, &path, follow) {
                Along::Ends(led) => return Ok(led),
                Along::Linked(link, left) => path = self.joined(alloc, link, &path, left)?,
            }
            from = ROOT;
        }
        match self.along(from, &path, follow) {
            Along::Ends(led) => Ok(led),
            Along::Linked(link, _) => Ok(Led::LinkLoop(link)),
        }
    }

    // The names of a link's target, and behind them so many last ones of a path.
    fn joined(
        &self,
        alloc: Global,
        link: u32,
        path: &[EntryName],
        left: usize,
    ) -> Result<Vec<EntryName>, AllocError> {
        let mut names = Vec::new(alloc);
        if let Some(target) = self.target(link) {
            names.extend_from_slice(target.names())?;
        }
        if let Some(rest) = path.get(path.len().saturating_sub(left)..) {
            names.extend_from_slice(rest)?;
        }
        Ok(names)
    }

    // The names one after the other, up to the first link that is to be followed.
    fn along(&self, from: u32, names: &[EntryName], follow: bool) -> Along {
        let mut at = from;
        for (i, name) in names.iter().enumerate() {
            if self.target(at).is_some() {
                return Along::Linked(at, names.len().saturating_sub(i));
            }
            if self.directory(at).is_none() {
                return Along::Ends(Led::NotADir(at));
            }
            match self.entry(at, name) {
                Some(next) => at = next,
                None => return Along::Ends(Led::NoEntry(at, *name)),
            }
        }
        if follow && self.target(at).is_some() {
            Along::Linked(at, 0)
        } else {
            Along::Ends(Led::To(at))
        }
    }

    /// Where a pathname leads; none where it has no path.
    pub(crate) fn led(
        &self,
        alloc: Global,
        base: &Path,
        pathname: &Pathname,
        follow: bool,
    ) -> Result<Option<Led>, AllocError> {
        match resolved(alloc, base, pathname)? {
            Ok(path) => {
                let led = self.walk(alloc, ROOT, path.names(), follow)?;
                Ok(Some(led))
            }
            Err(_) => Ok(None),
        }
    }

    /// Where an entry of a pathname is to be made: where the names but its last lead, and the last. None for the root, and
    /// where the pathname has no path.
    pub(crate) fn place(
        &self,
        alloc: Global,
        base: &Path,
        pathname: &Pathname,
    ) -> Result<Option<(Led, EntryName)>, AllocError> {
        let Ok(path) = resolved(alloc, base, pathname)? else {
            return Ok(None);
        };
        let [front @ .., last] = path.names() else {
            return Ok(None);
        };
        let led = self.walk(alloc, ROOT, front, true)?;
        Ok(Some((led, *last)))
    }

    /// Adds the pathname of an entry.
    pub(crate) fn add_path(
        &self,
        alloc: Global,
        out: &mut Vec<u8>,
        at: u32,
    ) -> Result<(), AllocError> {
        let mut names: Vec<EntryName> = Vec::new(alloc);
        let mut up = at;
        for _ in 0..NAMES {
            if let Some(branch) = self.branch(up) {
                if let Some(name) = branch.name {
                    names.push(name)?;
                }
                up = branch.parent;
            }
        }
        if up != ROOT {
            out.extend_from_slice(b"..")?;
        }
        if names.is_empty() {
            out.extend_from_slice(b">")?;
        }
        for name in names.iter().rev() {
            out.extend_from_slice(b">")?;
            out.extend_from_slice(name.bytes())?;
        }
        Ok(())
    }

    /// Changes what a request of this caller changed that was done, by the entry at this place of the journal.
    pub(crate) fn apply(
        &mut self,
        alloc: Global,
        caller: &Caller,
        place: usize,
        request: &Request,
    ) -> Result<(), AllocError> {
        match request {
            Request::CreateDir { path, d1, d2 } => {
                let rings = [*d1, *d2];
                self.make_directory(alloc, caller, path, &rings)
            }
            Request::CreateSeg {
                path,
                words,
                brackets,
            } => self.make_segment(alloc, caller, path, *words, brackets, false, place),
            Request::CreateObject {
                path,
                words,
                brackets,
                ..
            } => self.make_segment(alloc, caller, path, *words, brackets, true, place),
            Request::CreateLink { path, target } => self.make_link(alloc, caller, path, target),
            Request::Rename { path, .. } | Request::Delete { path } => {
                self.apply_at(alloc, caller, path, false, request)
            }
            Request::SetAcl { path, .. }
            | Request::DelAcl { path, .. }
            | Request::SetIacl { path, .. }
            | Request::DelIacl { path, .. }
            | Request::SetBrackets { path, .. }
            | Request::SetDirBrackets { path, .. }
            | Request::SetClass { path, .. } => self.apply_at(alloc, caller, path, true, request),
            _ => Ok(()),
        }
    }

    // The access list of what a caller makes of a kind in a directory.
    fn first_acl(
        &self,
        dir: u32,
        kind: AclKind,
        caller: &Caller,
        modes: Modes,
    ) -> Result<Option<Acl>, AllocError> {
        let Some(directory) = self.directory(dir) else {
            return Ok(None);
        };
        let initial = match kind {
            AclKind::Segment => &directory.segments,
            AclKind::Directory => &directory.directories,
        };
        if !modes.suits(initial.kind()) {
            return Ok(None);
        }
        let acl = initial.acl_for(AclId::of_maker(caller.principal), modes)?;
        Ok(Some(acl))
    }

    fn make_directory(
        &mut self,
        alloc: Global,
        caller: &Caller,
        path: &Pathname,
        rings: &[Ring; 2],
    ) -> Result<(), AllocError> {
        let Some((Led::To(dir), name)) = self.place(alloc, caller.base, path)? else {
            return Ok(());
        };
        match self.first_acl(dir, AclKind::Directory, caller, Modes::Sma)? {
            Some(acl) => {
                let made = bare_directory(alloc, acl, rings[0], rings[1]);
                self.add(dir, name, Thing::Directory(made))
            }
            None => Ok(()),
        }
    }

    fn make_segment(
        &mut self,
        alloc: Global,
        caller: &Caller,
        path: &Pathname,
        words: u32,
        brackets: &[Ring; 3],
        is_object: bool,
        made: usize,
    ) -> Result<(), AllocError> {
        let Some((Led::To(dir), name)) = self.place(alloc, caller.base, path)? else {
            return Ok(());
        };
        let modes = if is_object { Modes::Re } else { Modes::Rw };
        match self.first_acl(dir, AclKind::Segment, caller, modes)? {
            Some(acl) => {
                let made = Segment {
                    acl,
                    class: caller.authorization,
                    brackets: *brackets,
                    words,
                    is_object,
                    made,
                };
                self.add(dir, name, Thing::Segment(made))
            }
            None => Ok(()),
        }
    }

    fn make_link(
        &mut self,
        alloc: Global,
        caller: &Caller,
        path: &Pathname,
        target: &Pathname,
    ) -> Result<(), AllocError> {
        let Some((Led::To(dir), name)) = self.place(alloc, caller.base, path)? else {
            return Ok(());
        };
        match resolved(alloc, caller.base, target)? {
            Ok(target) => self.add(dir, name, Thing::Link(target)),
            Err(_) => Ok(()),
        }
    }

    // Adds an entry to a directory.
    fn add(&mut self, dir: u32, name: EntryName, thing: Thing) -> Result<(), AllocError> {
        let number = u32::try_from(self.branches.len()).unwrap_or(u32::MAX);
        self.branches.push(Branch {
            parent: dir,
            name: Some(name),
            thing,
        })?;
        self.give_name(dir, name, number)
    }

    fn give_name(&mut self, dir: u32, name: EntryName, number: u32) -> Result<(), AllocError> {
        if let Some(branch) = self.branches.get_mut(dir as usize) {
            match &mut branch.thing {
                Thing::Directory(directory) => {
                    directory.names.insert(name, number)?;
                }
                Thing::Segment(_) | Thing::Link(_) => {}
            }
        }
        Ok(())
    }

    fn take_name(&mut self, dir: u32, name: &EntryName) {
        if let Some(branch) = self.branches.get_mut(dir as usize) {
            match &mut branch.thing {
                Thing::Directory(directory) => {
                    directory.names.swap_remove(name);
                }
                Thing::Segment(_) | Thing::Link(_) => {}
            }
        }
    }

    // Changes an entry that stands.
    fn apply_at(
        &mut self,
        alloc: Global,
        caller: &Caller,
        path: &Pathname,
        follow: bool,
        request: &Request,
    ) -> Result<(), AllocError> {
        let Some(Led::To(at)) = self.led(alloc, caller.base, path, follow)? else {
            return Ok(());
        };
        match request {
            Request::Rename { name, .. } => self.rename(at, *name),
            Request::Delete { .. } => {
                self.delete(at);
                Ok(())
            }
            _ => match self.branches.get_mut(at as usize) {
                Some(branch) => change(&mut branch.thing, request),
                None => Ok(()),
            },
        }
    }

    fn rename(&mut self, at: u32, name: EntryName) -> Result<(), AllocError> {
        self.delete(at);
        if let Some(branch) = self.branches.get_mut(at as usize) {
            branch.name = Some(name);
        }
        let dir = self.holder(at);
        self.give_name(dir, name, at)
    }

    // Takes the name of an entry away.
    fn delete(&mut self, at: u32) {
        let Some(branch) = self.branch(at) else {
            return;
        };
        let dir = branch.parent;
        if let Some(name) = branch.name {
            self.take_name(dir, &name);
        }
    }
}

// The path of a pathname.
pub(crate) fn resolved(
    alloc: Global,
    base: &Path,
    pathname: &Pathname,
) -> Result<Result<Path, NoPath>, AllocError> {
    match Path::resolve(alloc, base, pathname) {
        Ok(path) => Ok(Ok(path)),
        Err(PathError::AboveRoot) => Ok(Err(NoPath::AboveRoot)),
        Err(PathError::TooLong) => Ok(Err(NoPath::TooLong)),
        Err(PathError::Memory) => Err(AllocError),
    }
}

// A directory without entries.
fn bare_directory(alloc: Global, acl: Acl, d1: Ring, d2: Ring) -> Directory {
    Directory {
        acl,
        d1,
        d2,
        segments: InitialAcl::new(alloc, AclKind::Segment),
        directories: InitialAcl::new(alloc, AclKind::Directory),
        names: IndexMap::new(alloc),
    }
}

// What a request changes in an entry.
fn change(thing: &mut Thing, request: &Request) -> Result<(), AllocError> {
    match thing {
        Thing::Directory(directory) => change_directory(directory, request),
        Thing::Segment(segment) => change_segment(segment, request),
        Thing::Link(_) => Ok(()),
    }
}

fn change_directory(directory: &mut Directory, request: &Request) -> Result<(), AllocError> {
    match request {
        Request::SetAcl { id, modes, .. } => set_entry(&mut directory.acl, id, *modes),
        Request::DelAcl { id, .. } => {
            let _removed = directory.acl.remove(id);
            Ok(())
        }
        Request::SetIacl {
            kind,
            id,
            modes,
            ..
        } => match kind {
            AclKind::Segment => set_initial(&mut directory.segments, id, *modes),
            AclKind::Directory => set_initial(&mut directory.directories, id, *modes),
        },
        Request::DelIacl { kind, id, .. } => {
            let _removed = match kind {
                AclKind::Segment => directory.segments.remove(id),
                AclKind::Directory => directory.directories.remove(id),
            };
            Ok(())
        }
        Request::SetDirBrackets { d1, d2, .. } => {
            directory.d1 = *d1;
            directory.d2 = *d2;
            Ok(())
        }
        _ => Ok(()),
    }
}

fn change_segment(segment: &mut Segment, request: &Request) -> Result<(), AllocError> {
    match request {
        Request::SetAcl { id, modes, .. } => set_entry(&mut segment.acl, id, *modes),
        Request::DelAcl { id, .. } => {
            let _removed = segment.acl.remove(id);
            Ok(())
        }
        Request::SetBrackets { brackets, .. } => {
            segment.brackets = *brackets;
            Ok(())
        }
        Request::SetClass { class, .. } => {
            segment.class = *class;
            Ok(())
        }
        _ => Ok(()),
    }
}

fn set_entry(acl: &mut Acl, id: &AclId, modes: Modes) -> Result<(), AllocError> {
    match acl.set(*id, modes) {
        Err(AclError::Memory) => Err(AllocError),
        Ok(()) | Err(AclError::InvalidMode) | Err(AclError::Full) => Ok(()),
    }
}

fn set_initial(initial: &mut InitialAcl, id: &AclId, modes: Modes) -> Result<(), AllocError> {
    match initial.set(*id, modes) {
        Err(AclError::Memory) => Err(AllocError),
        Ok(()) | Err(AclError::InvalidMode) | Err(AclError::Full) => Ok(()),
    }
}
