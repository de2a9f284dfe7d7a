//! Making an entry.
//!
//! The refusals of every making come first, in this order: `BadPath` where the pathname has no path; `NameDup` for
//! the root; what the walk to the directory says (`NoEntry`, `NotADir`, `LinkLoop`); `NotADir` where it leads to no
//! directory; `IncorrectAccess` without a on that; `NameDup` where it has the name; `DirFull` at 256 entries. What
//! the walk says, this `NotADir` and this `IncorrectAccess` are said at a directory: a caller without s on it is told
//! `NoInfo` instead. An error, the want of memory too, leaves the hierarchy as it was. A request at a place that is
//! found takes memory only once it is not refused.

ghost use Rattle.std.specs.Prelude.{◌≡◌, ◌+◌, ◌<◌, ◌≤◌, [], ◌∷◌, ◌++◌, Some, None, IfNone, IfOk, IsSome, true, OnOk, OnErr, false, nat_le, nat_lt, ◌||◌};
ghost use Rattle.std.specs.List.{list_any};
ghost use Rattle.std.specs.Option.{option_map, option_copied};
ghost use Rattle.mx_acl.specs.Modes.{suits};
ghost use Rattle.mx_hier.specs.Branches.{uid_in, as_segment, directory_at};
ghost use Rattle.mx_hier.specs.InitialAccess.{initial_for};
ghost use Rattle.mx_hier.specs.Brackets.{bracketing, settable};
ghost use Rattle.mx_hier.specs.CreateDirectory.{create_dir_at, create_dir};
ghost use Rattle.mx_hier.specs.CreateSegment.{create_seg};
ghost use Rattle.mx_hier.specs.CreateObject.{create_object};
ghost use Rattle.mx_hier.specs.MakeSegment.{IsRunFor, is_bad_length, reaches_beyond, segment_added, segment_on_pages, make_segment_at, make_segment};
ghost use Rattle.mx_hier.specs.CreateLink.{create_link_at, create_link};
ghost use Rattle.mx_hier.specs.Listed.{listed_added};
ghost use Rattle.mx_hier.specs.Objects.{object_of, with_object};
ghost use Rattle.mx_hier.specs.Making.{place, entry_refusals, making_refusals, added, created_at, first_acl};
ghost use Rattle.mx_hier.specs.Rules.{first_of, onward, Answers, Tells, TellsFirst};
ghost use Rattle.mx_hier.specs.Walks.{resolved};
ghost use Rattle.mx_hier.specs.Who.{subject, caller};
ghost use Rattle.mx_pages.specs.Runs.{IsFreeRun, pages_for, run_given};

use crate::boxes::{BoxedDirectory, BoxedSegment};
use crate::branches::{Directory, Node, Segment};
use crate::callers::Who;
use crate::hier::Hier;
use crate::initial::InitialAcls;
use crate::objects::{add_object, copy_with_room};
use crate::refusals::{HierError, Refusal};
use crate::tables::Tables;
use crate::walks::{resolved, route};
use indexmap::IndexMap;
use mx_acl::{Acl, AclKind, Modes};
use mx_name::{AclId, EntryName, Pathname, Route};
use mx_object::ObjectMap;
use mx_pages::{PageRun, pages_for};
use mx_sdw::{Brackets, Ring};
use std::alloc::{AllocError, Global};

/// Where an entry is to be made: a directory, and the name in it.
#[derive(Clone, Copy)]
pub struct Place {
    pub dir: u32,
    pub name: EntryName,
}

impl Hier {
    /// Makes a directory with brackets `d1 <= d2`, to which its maker has sma beside what the initial list of its
    /// directory gives; its own initial lists are empty. After the refusals of every making (above): `BadBrackets` where
    /// they are not in order or `d1` is below his ring.
    pub fn create_dir(
        &mut self,
        alloc: Global,
        who: &Who,
        path: &Pathname,
        d1: Ring,
        d2: Ring,
    ) -> Result<(), HierError>
        ensures answer { Answers (create_dir self.old (caller who.now) path.now d1 d2) self.old result self.new }
        ensures told { TellsFirst (resolved (caller who.now) path.now) result }
    {
        match self.placed(alloc, who, path) {
            Ok(at) => self.create_dir_at(alloc, who, &at, d1, d2),
            Err(error) => Err(error),
        }
    }

    fn create_dir_at(
        &mut self,
        alloc: Global,
        who: &Who,
        at: &Place,
        d1: Ring,
        d2: Ring,
    ) -> Result<(), HierError>
        ensures answer { Answers (create_dir_at self.old (subject who.now) at.now d1 d2) self.old result self.new }
        ensures told { TellsFirst (create_dir_at self.old (subject who.now) at.now d1 d2) result }
    {
        if let Some(why) = self.making_refusal(who, at) {
            return Err(HierError::Refused(why));
        }
        if is_bad_pair(who.ring, d1, d2) {
            return Err(HierError::Refused(Refusal::BadBrackets));
        }
        let acl = self.first_acl(at.dir, AclKind::Directory, who, Modes::Sma)?;
        let initial = InitialAcls::new(alloc);
        let directory = Directory {
            acl,
            initial,
            d1,
            d2,
        };
        let boxed = BoxedDirectory::new(alloc, directory)?;
        self.add_entry(alloc, at, Node::Directory(boxed))?;
        Ok(())
    }

    /// Makes a segment of 1 to 1,024 words on whole pages, to which its maker has rw beside what the initial list of its
    /// directory gives; its class is its maker's authorization. Gives back the run of its pages. After the refusals of
    /// every making (above): `BadLength`, then `BadBrackets` where the brackets are not in order or the first is below
    /// his ring, then `NoPages`.
    pub fn create_seg(
        &mut self,
        alloc: Global,
        who: &Who,
        path: &Pathname,
        words: u32,
        brackets: [Ring; 3],
    ) -> Result<PageRun, HierError>
        ensures answer { Answers (create_seg self.old (caller who.now) path.now words brackets)
            self.old result self.new }
        ensures run { IfOk result (IsRunFor self.old.pages words) }
        ensures told { TellsFirst (resolved (caller who.now) path.now) result }
    {
        self.make_segment(alloc, who, path, words, &brackets, Modes::Rw, None)
    }

    /// Makes an object segment: a segment as `create_seg` makes it, with an object map, to which its maker has re. The
    /// run and the refusals are the same; it is `BadLength` too where the map has more gates than there are words, or a definition
    /// at a word beyond them.
    pub fn create_object(
        &mut self,
        alloc: Global,
        who: &Who,
        path: &Pathname,
        words: u32,
        brackets: [Ring; 3],
        object: &ObjectMap,
    ) -> Result<PageRun, HierError>
        ensures answer { Answers (create_object self.old (caller who.now) path.now words brackets object.now)
            self.old result self.new }
        ensures run { IfOk result (IsRunFor self.old.pages words) }
        ensures told { TellsFirst (resolved (caller who.now) path.now) result }
    {
        self.make_segment(alloc, who, path, words, &brackets, Modes::Re, Some(object))
    }

    fn make_segment(
        &mut self,
        alloc: Global,
        who: &Who,
        path: &Pathname,
        words: u32,
        rings: &[Ring; 3],
        modes: Modes,
        object: Option<&ObjectMap>,
    ) -> Result<PageRun, HierError>
        requires suit { suits AclKind.Segment modes ≡ true }
        ensures answer { Answers (make_segment self.old (caller who.now) path.now
            (record { words = words; rings = rings.now; modes = modes; object = option_copied object.entry }))
            self.old result self.new }
        ensures run { IfOk result (IsRunFor self.old.pages words) }
        ensures told { TellsFirst (resolved (caller who.now) path.now) result }
    {
        match self.placed(alloc, who, path) {
            Ok(at) => self.make_segment_at(alloc, who, &at, words, rings, modes, object),
            Err(error) => Err(error),
        }
    }

    fn make_segment_at(
        &mut self,
        alloc: Global,
        who: &Who,
        at: &Place,
        words: u32,
        rings: &[Ring; 3],
        modes: Modes,
        object: Option<&ObjectMap>,
    ) -> Result<PageRun, HierError>
        requires suit { suits AclKind.Segment modes ≡ true }
        ensures answer { Answers (make_segment_at self.old (subject who.now) at.now
            (record { words = words; rings = rings.now; modes = modes; object = option_copied object.entry }))
            self.old result self.new }
        ensures run { IfOk result (IsRunFor self.old.pages words) }
        ensures told { TellsFirst (make_segment_at self.old (subject who.now) at.now
            (record { words = words; rings = rings.now; modes = modes; object = option_copied object.entry })) result }
    {
        if let Some(why) = self.making_refusal(who, at) {
            return Err(HierError::Refused(why));
        }
        if is_bad_length(words, object) {
            return Err(HierError::Refused(Refusal::BadLength));
        }
        match settable(who.ring, rings) {
            Some(brackets) => self.add_segment(alloc, who, at, words, brackets, modes, object),
            None => Err(HierError::Refused(Refusal::BadBrackets)),
        }
    }

    /// Makes a segment where nothing but the want of pages refuses it.
    fn add_segment(
        &mut self,
        alloc: Global,
        who: &Who,
        at: &Place,
        words: u32,
        brackets: Brackets,
        modes: Modes,
        object: Option<&ObjectMap>,
    ) -> Result<PageRun, HierError>
        requires free { uid_in self.old.branches at.now.dir at.now.name ≡ None }
        requires below { at.now.dir < self.old.next }
        requires fit { is_bad_length words (option_copied object) ≡ false }
        requires suit { suits AclKind.Segment modes ≡ true }
        requires there { IsSome (directory_at self.old at.now.dir) }
        ensures answer { Answers (segment_on_pages self.old (subject who.now) at.now words brackets modes
            (option_copied object.entry)) self.old result self.new }
        ensures run { IfOk result (IsRunFor self.old.pages words) }
        ensures told { TellsFirst (segment_on_pages self.old (subject who.now) at.now words brackets modes
            (option_copied object.entry)) result }
    {
        let pages = pages_for(words);
        let Some(page) = self.pages.next(pages) else {
            return Err(HierError::Refused(Refusal::NoPages));
        };
        let acl = self.first_acl(at.dir, AclKind::Segment, who, modes)?;
        let segment = Segment {
            acl,
            class: who.authorization,
            brackets,
            words: words as u16,
            page: page as u16,
        };
        self.put_segment(alloc, at, segment, object)?;
        Ok(PageRun {
            first: page as u16,
            count: pages as u16,
        })
    }

    /// Puts a segment at a place, on the pages that are given next. Where memory is wanting, nothing changes.
    fn put_segment(
        &mut self,
        alloc: Global,
        at: &Place,
        segment: Segment,
        object: Option<&ObjectMap>,
    ) -> Result<(), AllocError>
        requires free { uid_in self.old.branches at.now.dir at.now.name ≡ None }
        requires below { at.now.dir < self.old.next }
        requires fit { is_bad_length segment.words (option_copied object) ≡ false }
        requires page { run_given self.old.pages (pages_for segment.words) ≡ Some segment.page }
        requires run { IsFreeRun self.old.pages (pages_for segment.words) segment.page }
        requires within { segment.page + pages_for segment.words ≤ 1024 }
        ensures ok { OnOk result (self.new ≡ segment_added self.old at.now segment (option_copied object.entry)) }
        ensures err { OnErr result (self.new ≡ self.old) }
    {
        let pages = pages_for(u32::from(segment.words));
        let boxed = BoxedSegment::new(alloc, segment)?;
        let node = Node::Segment(boxed);
        add_with_map(&mut self.tables, &mut self.objects, alloc, at, node, object)?;
        let _first = self.pages.allot(pages);
        Ok(())
    }

    /// Makes a link; nothing need be at the target. `BadPath` where the pathname or the target has no path, then the
    /// other refusals of every making (above).
    pub fn create_link(
        &mut self,
        alloc: Global,
        who: &Who,
        path: &Pathname,
        target: &Pathname,
    ) -> Result<(), HierError>
        ensures answer { Answers (create_link self.old (caller who.now) path.now target.now) self.old result self.new }
        ensures told { TellsFirst (resolved (caller who.now) path.now) result }
    {
        match route(who, path) {
            Ok(route) => self.link_along(alloc, who, &route, target),
            Err(why) => Err(HierError::Refused(why)),
        }
    }

    /// Makes a link at a path from the root.
    fn link_along(
        &mut self,
        alloc: Global,
        who: &Who,
        path: &Route,
        target: &Pathname,
    ) -> Result<(), HierError>
        ensures { Answers (onward (resolved (caller who.now) target.now) (λ target.
            onward (place self.old (subject who.now) path.now) (λ at.
            create_link_at self.old (subject who.now) at target))) self.old result self.new }
    {
        let link = Node::Link(resolved(alloc, who, target)?);
        match self.place(alloc, who, path) {
            Ok(at) => self.create_at(alloc, who, &at, link),
            Err(error) => Err(error),
        }
    }

    /// Makes an entry that is no segment, and that nothing refuses but what refuses every making.
    fn create_at(
        &mut self,
        alloc: Global,
        who: &Who,
        at: &Place,
        node: Node,
    ) -> Result<(), HierError>
        requires { as_segment node ≡ None }
        ensures answer { Answers (created_at self.old (subject who.now) at.now node) self.old result self.new }
        ensures told { TellsFirst (created_at self.old (subject who.now) at.now node) result }
    {
        if let Some(why) = self.making_refusal(who, at) {
            return Err(HierError::Refused(why));
        }
        self.add_entry(alloc, at, node)?;
        Ok(())
    }

    /// Where the entry of a pathname is to be made.
    fn placed(&self, alloc: Global, who: &Who, pathname: &Pathname) -> Result<Place, HierError>
        ensures answer { Tells (onward (resolved (caller who.now) pathname.now) (λ path.
            place self.now (subject who.now) path)) result }
        ensures told { TellsFirst (resolved (caller who.now) pathname.now) result }
    {
        let route = route(who, pathname)?;
        self.place(alloc, who, &route)
    }

    /// The directory and the name of a path.
    #[inline(always)]
    #[tactic(auto, using(crate::proofs::MakingLaws::place_of, crate::proofs::MakingLaws::no_place))]
    fn place(&self, alloc: Global, who: &Who, path: &Route) -> Result<Place, HierError>
        ensures { Tells (place self.now (subject who.now) path.now) result }
    {
        let Some((parent, name)) = path.split_last() else {
            return Err(HierError::Refused(Refusal::NameDup));
        };
        let dir = self.reached(alloc, who, true, parent)?;
        Ok(Place { dir, name })
    }

    /// The refusal of every making, whatever is to be made.
    #[inline(always)]
    fn making_refusal(&self, who: &Who, at: &Place) -> Option<Refusal>
        ensures value { result ≡ first_of (making_refusals self.now (subject who.now) at.now) }
        ensures free { IfNone result (uid_in self.now.branches at.now.dir at.now.name ≡ None) }
        ensures below { IfNone result (at.now.dir < self.now.next) }
        ensures there { IfNone result (IsSome (directory_at self.now at.now.dir)) }
    {
        match self.directory_at(at.dir) {
            Some(parent) if who.has_append(parent) => self.entry_refusal(at),
            Some(parent) => Some(who.told(Refusal::IncorrectAccess, Some(parent))),
            None => Some(who.told(Refusal::NotADir, self.holding(at.dir))),
        }
    }

    /// The refusal for what is in the directory already.
    fn entry_refusal(&self, at: &Place) -> Option<Refusal>
        ensures value { result ≡ first_of (entry_refusals self.now at.now) }
        ensures free { IfNone result (uid_in self.now.branches at.now.dir at.now.name ≡ None) }
    {
        if self.tables.uid_in(at.dir, &at.name).is_some() {
            return Some(Refusal::NameDup);
        }
        if self.tables.count_in(at.dir) >= 256 {
            return Some(Refusal::DirFull);
        }
        None
    }

    /// The access list of what is made of a kind in a directory that there is.
    fn first_acl(&self, dir: u32, kind: AclKind, who: &Who, modes: Modes) -> Result<Acl, AllocError>
        requires suit { suits kind modes ≡ true }
        requires there { IsSome (directory_at self.now dir) }
        ensures { IfOk result (λ acl. option_map
            (λ parent. first_acl (initial_for kind parent.initial) (subject who.now) modes) (directory_at self.now dir)
            ≡ Some acl) }
    {
        let Some(parent) = self.directory_at(dir) else {
            unreachable!();
        };
        let maker = AclId::of_maker(who.principal);
        let acl = parent.initial.acl_for(kind, maker, modes)?;
        Ok(acl)
    }

    /// Adds an entry that is no segment. Where memory is wanting, nothing changes.
    fn add_entry(&mut self, alloc: Global, at: &Place, node: Node) -> Result<(), AllocError>
        requires free { uid_in self.old.branches at.now.dir at.now.name ≡ None }
        requires below { at.now.dir < self.old.next }
        requires other { as_segment node ≡ None }
        ensures ok { OnOk result (self.new ≡ added self.old at.now node) }
        ensures err { OnErr result (self.new ≡ self.old) }
    {
        add(&mut self.tables, alloc, at, node)?;
        Ok(())
    }
}

/// Adds a branch with the next uid. `AllocError` too where no uid is left.
#[inline(always)]
fn add(tables: &mut Tables, alloc: Global, at: &Place, node: Node) -> Result<(), AllocError>
    requires free { uid_in tables.old.branches at.now.dir at.now.name ≡ None }
    requires below { at.now.dir < tables.old.next }
    ensures ok { OnOk result (tables.new ≡ listed_added tables.old at.now.dir at.now.name node) }
    ensures left { OnOk result (tables.old.next < 4294967295) }
    ensures err { OnErr result (tables.new ≡ tables.old) }
{
    if tables.is_used_up() {
        return Err(AllocError);
    }
    tables.add(alloc, at.dir, &at.name, node)?;
    Ok(())
}

/// Adds a branch with the next uid, and a copy of a map by that uid, if there is one. Where memory is wanting, neither.
fn add_with_map(
    tables: &mut Tables,
    objects: &mut IndexMap<u32, ObjectMap>,
    alloc: Global,
    at: &Place,
    node: Node,
    object: Option<&ObjectMap>,
) -> Result<(), AllocError>
    requires free { uid_in tables.old.branches at.now.dir at.now.name ≡ None }
    requires below { at.now.dir < tables.old.next }
    requires last { tables.old.next ≤ 4294967295 }
    requires unmapped { object_of objects.old.entries tables.old.next ≡ None }
    ensures ok { OnOk result (tables.new ≡ listed_added tables.old at.now.dir at.now.name node) }
    ensures map { OnOk result
        (objects.new.entries ≡ with_object objects.old.entries tables.old.next (option_copied object.entry)) }
    ensures left { OnOk result (tables.old.next < 4294967295) }
    ensures err { OnErr result (tables.new ≡ tables.old) }
    ensures same { OnErr result (objects.new.entries ≡ objects.old.entries) }
{
    let object = copy_with_room(objects, object)?;
    let uid = tables.next();
    add(tables, alloc, at, node)?;
    add_object(objects, uid, object);
    Ok(())
}

/// Whether two brackets are out of order, or the first is below the caller's ring.
fn is_bad_pair(ring: Ring, d1: Ring, d2: Ring) -> bool
    ensures { result ≡ (nat_lt d2 d1 || nat_lt d1 ring) }
{
    d2.number() < d1.number() || d1.number() < ring.number()
}

/// Whether a segment of so many words is too short or too long, or too short for what its map names.
fn is_bad_length(words: u32, object: Option<&ObjectMap>) -> bool
    ensures { result ≡ is_bad_length words (option_copied object.entry) }
{
    if words == 0 || words > 1024 {
        return true;
    }
    match object {
        Some(object) => reaches_beyond(object, words),
        None => false,
    }
}

/// Whether a gate or a definition of a map is at a word that a segment of so many words doesn't have.
fn reaches_beyond(object: &ObjectMap, words: u32) -> bool
    ensures { result ≡ reaches_beyond words object.now }
{
    u32::from(object.gate()) > words || defines_beyond(object.definitions(), words)
}

fn defines_beyond(definitions: &[(EntryName, u16)], words: u32) -> bool
    ensures { result ≡ list_any (λ definition. nat_le words definition.1) definitions.now }
{
    definitions.iter().any(
        |definition: &(EntryName, u16)| -> bool
            ensures { result ≡ nat_le words definition.now.1 }
        { words <= u32::from(definition.1) },
    )
}

/// Three rings as brackets, where they are in order.
fn bracketing(rings: &[Ring; 3]) -> Option<Brackets>
    ensures { result ≡ bracketing rings.now }
{
    let [r1, r2, r3] = *rings;
    Brackets::new(r1, r2, r3)
}

/// Three rings as brackets, where a caller in the ring may set them.
pub(crate) fn settable(ring: Ring, rings: &[Ring; 3]) -> Option<Brackets>
    ensures { result ≡ settable ring rings.now }
{
    match bracketing(rings) {
        Some(brackets) if ring.number() <= brackets.r1().number() => Some(brackets),
        Some(_) | None => None,
    }
}
