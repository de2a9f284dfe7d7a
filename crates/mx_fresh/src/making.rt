//! Requests that make an entry: `create_dir`, `create_seg`, `create_object` and `create_link`.
//!
//! First come the refusals of every making, then those of the request, in the order of its definition. An error, the
//! want of memory too, leaves the hierarchy as it was.

ghost use Rattle.std.specs.Prelude.{◌≡◌, ◌∷◌, ◌≤◌, Some, None, IfNone, IfOk, IsSome, true, false, OnOk, OnErr, nat_le, nat_lt, ◌||◌};
ghost use Rattle.std.specs.List.{list_any};
ghost use Rattle.std.specs.Option.{option_map, option_copied};
ghost use Rattle.mx_acl.specs.Modes.{suits};
ghost use Rattle.mx_hier.specs.Branches.{directory_at};
ghost use Rattle.mx_hier.specs.Brackets.{bracketing, settable};
ghost use Rattle.mx_hier.specs.CreateDirectory.{create_dir_at, create_dir};
ghost use Rattle.mx_hier.specs.CreateLink.{create_link_at, create_link};
ghost use Rattle.mx_hier.specs.CreateObject.{create_object};
ghost use Rattle.mx_hier.specs.CreateSegment.{create_seg};
ghost use Rattle.mx_hier.specs.InitialAccess.{initial_for};
ghost use Rattle.mx_hier.specs.MakeSegment.{IsRunFor, is_bad_length, reaches_beyond, segment_added, segment_on_pages, make_segment_at, make_segment};
ghost use Rattle.mx_hier.specs.Making.{last_name, parent_path, place, entry_refusals, making_refusals, added, created_at, first_acl};
ghost use Rattle.mx_hier.specs.Objects.{with_object};
ghost use Rattle.mx_hier.specs.Rules.{first_of, onward, Answers, Tells, TellsFirst};
ghost use Rattle.mx_hier.specs.Walks.{resolved};
ghost use Rattle.mx_hier.specs.Who.{subject, caller};
ghost use Rattle.mx_fresh.specs.Forms.{node_of};

use crate::access::{has_append, say};
use crate::branches::{Directory, Form, Segment};
use crate::hierarchy::{FreshHierarchy, count_in, uid_in};
use crate::pages::pages_for;
use crate::walks::resolved;
use mx_acl::{Acl, AclKind, InitialAcl, Modes};
use mx_hier::{HierError, Refusal, Who};
use mx_name::{EntryName, Pathname};
use mx_object::ObjectMap;
use mx_pages::PageRun;
use mx_sdw::{Brackets, Ring};
use std::alloc::{AllocError, Global};
use std::marker::Model;

/// Where an entry is to be made: a directory, and the name in it.
#[derive(Drop)]
pub(crate) struct Place {
    dir: u32,
    name: EntryName,
}

impl Model for Place {
    ghost use Rattle.mx_hier.specs.declared.making.Place.{Place};

    ghost Value = { Place };

    ghost view = { λ a. record { dir = a.dir; name = a.name } };
}

impl FreshHierarchy {
    /// Makes a directory, to which its maker has sma beside what the initial list of its directory gives.
    pub fn create_dir(
        &mut self,
        alloc: Global,
        who: &Who,
        path: &Pathname,
        d1: Ring,
        d2: Ring,
    ) -> Result<(), HierError>
        ensures answer { Answers (create_dir self.old (caller who.now) path.now d1 d2) self.old result self.new }
        ensures told { TellsFirst (resolved (caller who.now) path.now) result }
    {
        match self.placed(alloc, who, path) {
            Ok(at) => self.create_dir_at(alloc, who, &at, d1, d2),
            Err(error) => Err(error),
        }
    }

    fn create_dir_at(
        &mut self,
        alloc: Global,
        who: &Who,
        at: &Place,
        d1: Ring,
        d2: Ring,
    ) -> Result<(), HierError>
        ensures answer { Answers (create_dir_at self.old (subject who.now) at.now d1 d2) self.old result self.new }
        ensures told { TellsFirst (create_dir_at self.old (subject who.now) at.now d1 d2) result }
    {
        if let Some(why) = self.making_refusal(who, at) {
            return Err(HierError::Refused(why));
        }
        if is_bad_pair(who.ring, d1, d2) {
            return Err(HierError::Refused(Refusal::BadBrackets));
        }
        let acl = self.first_acl(at.dir, AclKind::Directory, who, Modes::Sma)?;
        let directory = Directory {
            acl,
            segments: InitialAcl::new(alloc, AclKind::Segment),
            directories: InitialAcl::new(alloc, AclKind::Directory),
            d1,
            d2,
        };
        self.add_entry(at, Form::Directory(directory))?;
        Ok(())
    }

    /// Makes a segment of 1 to 1,024 words, to which its maker has rw beside what the initial list of its directory
    /// gives. Gives back the run of its pages.
    pub fn create_seg(
        &mut self,
        alloc: Global,
        who: &Who,
        path: &Pathname,
        words: u32,
        brackets: [Ring; 3],
    ) -> Result<PageRun, HierError>
        ensures answer { Answers (create_seg self.old (caller who.now) path.now words brackets)
            self.old result self.new }
        ensures run { IfOk result (IsRunFor self.old.pages words) }
        ensures told { TellsFirst (resolved (caller who.now) path.now) result }
    {
        self.make_segment(alloc, who, path, words, &brackets, Modes::Rw, None)
    }

    /// Makes an object segment: a segment with an object map, to which its maker has re.
    pub fn create_object(
        &mut self,
        alloc: Global,
        who: &Who,
        path: &Pathname,
        words: u32,
        brackets: [Ring; 3],
        object: &ObjectMap,
    ) -> Result<PageRun, HierError>
        ensures answer { Answers (create_object self.old (caller who.now) path.now words brackets object.now)
            self.old result self.new }
        ensures run { IfOk result (IsRunFor self.old.pages words) }
        ensures told { TellsFirst (resolved (caller who.now) path.now) result }
    {
        self.make_segment(alloc, who, path, words, &brackets, Modes::Re, Some(object))
    }

    fn make_segment(
        &mut self,
        alloc: Global,
        who: &Who,
        path: &Pathname,
        words: u32,
        rings: &[Ring; 3],
        modes: Modes,
        object: Option<&ObjectMap>,
    ) -> Result<PageRun, HierError>
        requires suit { suits AclKind.Segment modes ≡ true }
        ensures answer { Answers (make_segment self.old (caller who.now) path.now
            (record { words = words; rings = rings.now; modes = modes; object = option_copied object.entry }))
            self.old result self.new }
        ensures run { IfOk result (IsRunFor self.old.pages words) }
        ensures told { TellsFirst (resolved (caller who.now) path.now) result }
    {
        match self.placed(alloc, who, path) {
            Ok(at) => self.make_segment_at(alloc, who, &at, words, rings, modes, object),
            Err(error) => Err(error),
        }
    }

    fn make_segment_at(
        &mut self,
        alloc: Global,
        who: &Who,
        at: &Place,
        words: u32,
        rings: &[Ring; 3],
        modes: Modes,
        object: Option<&ObjectMap>,
    ) -> Result<PageRun, HierError>
        requires suit { suits AclKind.Segment modes ≡ true }
        ensures answer { Answers (make_segment_at self.old (subject who.now) at.now
            (record { words = words; rings = rings.now; modes = modes; object = option_copied object.entry }))
            self.old result self.new }
        ensures run { IfOk result (IsRunFor self.old.pages words) }
        ensures told { TellsFirst (make_segment_at self.old (subject who.now) at.now
            (record { words = words; rings = rings.now; modes = modes; object = option_copied object.entry })) result }
    {
        if let Some(why) = self.making_refusal(who, at) {
            return Err(HierError::Refused(why));
        }
        if is_bad_length(words, object) {
            return Err(HierError::Refused(Refusal::BadLength));
        }
        match settable(who.ring, rings) {
            Some(brackets) => self.add_segment(alloc, who, at, words, brackets, modes, object),
            None => Err(HierError::Refused(Refusal::BadBrackets)),
        }
    }

    /// Makes a segment where nothing but the want of pages refuses it.
    fn add_segment(
        &mut self,
        alloc: Global,
        who: &Who,
        at: &Place,
        words: u32,
        brackets: Brackets,
        modes: Modes,
        object: Option<&ObjectMap>,
    ) -> Result<PageRun, HierError>
        requires fit { is_bad_length words (option_copied object) ≡ false }
        requires suit { suits AclKind.Segment modes ≡ true }
        requires there { IsSome (directory_at self.old at.now.dir) }
        ensures answer { Answers (segment_on_pages self.old (subject who.now) at.now words brackets modes
            (option_copied object.entry)) self.old result self.new }
        ensures run { IfOk result (IsRunFor self.old.pages words) }
        ensures told { TellsFirst (segment_on_pages self.old (subject who.now) at.now words brackets modes
            (option_copied object.entry)) result }
    {
        let pages = pages_for(words);
        let Some(page) = self.pages.run_given(pages) else {
            return Err(HierError::Refused(Refusal::NoPages));
        };
        let acl = self.first_acl(at.dir, AclKind::Segment, who, modes)?;
        let segment = Segment {
            acl,
            class: who.authorization,
            brackets,
            words: words as u16,
            page: page as u16,
        };
        self.put_segment(alloc, at, segment, object)?;
        Ok(PageRun {
            first: page as u16,
            count: pages as u16,
        })
    }

    /// Puts a segment at a place, on the pages that are given next. Where memory is wanting, nothing changes.
    fn put_segment(
        &mut self,
        alloc: Global,
        at: &Place,
        segment: Segment,
        object: Option<&ObjectMap>,
    ) -> Result<(), AllocError>
        requires few { segment.words ≤ 1024 }
        requires low { segment.page ≤ 1023 }
        ensures ok { OnOk result (self.new ≡ segment_added self.old at.now segment (option_copied object.entry)) }
        ensures err { OnErr result (self.new ≡ self.old) }
    {
        let pages = pages_for(u32::from(segment.words));
        let first = u32::from(segment.page);
        let free = self.pages.without_run(alloc, first, pages)?;
        let uid = self.branches.next();
        let length = self.objects.len();
        add_object(&mut self.objects, uid, object)?;
        match self.branches.add(at.dir, at.name, Form::Segment(segment)) {
            Ok(()) => {
                self.pages = free;
                Ok(())
            }
            Err(error) => {
                self.objects.truncate(length);
                Err(error)
            }
        }
    }

    /// Makes a link; nothing need be at the target.
    pub fn create_link(
        &mut self,
        alloc: Global,
        who: &Who,
        path: &Pathname,
        target: &Pathname,
    ) -> Result<(), HierError>
        ensures answer { Answers (create_link self.old (caller who.now) path.now target.now) self.old result self.new }
        ensures told { TellsFirst (resolved (caller who.now) path.now) result }
    {
        match resolved(alloc, who, path) {
            Ok(path) => self.link_along(alloc, who, path.names(), target),
            Err(error) => Err(error),
        }
    }

    /// Makes a link at a path from the root.
    fn link_along(
        &mut self,
        alloc: Global,
        who: &Who,
        path: &[EntryName],
        target: &Pathname,
    ) -> Result<(), HierError>
        ensures { Answers (onward (resolved (caller who.now) target.now) (λ target.
            onward (place self.old (subject who.now) path.now) (λ at.
            create_link_at self.old (subject who.now) at target))) self.old result self.new }
    {
        let link = Form::Link(resolved(alloc, who, target)?);
        match self.place(alloc, who, path) {
            Ok(at) => self.create_at(who, &at, link),
            Err(error) => Err(error),
        }
    }

    /// Makes an entry that nothing refuses but what refuses every making.
    fn create_at(&mut self, who: &Who, at: &Place, form: Form) -> Result<(), HierError>
        ensures answer { Answers (created_at self.old (subject who.now) at.now (node_of form)) self.old result self.new }
        ensures told { TellsFirst (created_at self.old (subject who.now) at.now (node_of form)) result }
    {
        if let Some(why) = self.making_refusal(who, at) {
            return Err(HierError::Refused(why));
        }
        self.add_entry(at, form)?;
        Ok(())
    }

    /// Where the entry of a pathname is to be made.
    fn placed(&self, alloc: Global, who: &Who, pathname: &Pathname) -> Result<Place, HierError>
        ensures answer { Tells (onward (resolved (caller who.now) pathname.now) (λ path.
            place self.now (subject who.now) path)) result }
        ensures told { TellsFirst (resolved (caller who.now) pathname.now) result }
    {
        let path = resolved(alloc, who, pathname)?;
        self.place(alloc, who, path.names())
    }

    /// The directory and the name of a path.
    fn place(&self, alloc: Global, who: &Who, path: &[EntryName]) -> Result<Place, HierError>
        ensures { Tells (place self.now (subject who.now) path.now) result }
    {
        let Some(name) = last_name(path) else {
            return Err(HierError::Refused(Refusal::NameDup));
        };
        let dir = self.reached(alloc, who, true, parent_path(path))?;
        Ok(Place { dir, name: *name })
    }

    /// The refusal of every making, whatever is to be made.
    fn making_refusal(&self, who: &Who, at: &Place) -> Option<Refusal>
        ensures value { result ≡ first_of (making_refusals self.now (subject who.now) at.now) }
        ensures there { IfNone result (IsSome (directory_at self.now at.now.dir)) }
    {
        match self.directory_at(at.dir) {
            Some(parent) if has_append(who, parent) => self.entry_refusal(at),
            Some(parent) => Some(say(who, Refusal::IncorrectAccess, Some(parent))),
            None => Some(say(who, Refusal::NotADir, self.holding(at.dir))),
        }
    }

    /// The refusal for what is in the directory already.
    fn entry_refusal(&self, at: &Place) -> Option<Refusal>
        ensures { result ≡ first_of (entry_refusals self.now at.now) }
    {
        if uid_in(self.branches.items(), at.dir, &at.name).is_some() {
            return Some(Refusal::NameDup);
        }
        if count_in(self.branches.items(), at.dir) >= 256 {
            return Some(Refusal::DirFull);
        }
        None
    }

    /// The access list of what is made of a kind in a directory that there is.
    fn first_acl(&self, dir: u32, kind: AclKind, who: &Who, modes: Modes) -> Result<Acl, AllocError>
        requires suit { suits kind modes ≡ true }
        requires there { IsSome (directory_at self.now dir) }
        ensures { IfOk result (λ acl. option_map
            (λ parent. first_acl (initial_for kind parent.initial) (subject who.now) modes) (directory_at self.now dir)
            ≡ Some acl) }
    {
        let Some(parent) = self.directory_at(dir) else {
            unreachable!();
        };
        let acl = parent.first_acl(kind, who, modes)?;
        Ok(acl)
    }

    /// Adds an entry. Where memory is wanting, nothing changes.
    fn add_entry(&mut self, at: &Place, form: Form) -> Result<(), AllocError>
        ensures ok { OnOk result (self.new ≡ added self.old at.now (node_of form)) }
        ensures err { OnErr result (self.new ≡ self.old) }
    {
        self.branches.add(at.dir, at.name, form)?;
        Ok(())
    }
}

/// Adds a copy of a map by a uid, if there is one.
fn add_object(
    objects: &mut Vec<(u32, ObjectMap)>,
    uid: u32,
    object: Option<&ObjectMap>,
) -> Result<(), AllocError>
    ensures ok { OnOk result (objects.new.items ≡ with_object objects.old.items uid (option_copied object.entry)) }
    ensures err { OnErr result (objects.new.items ≡ objects.old.items) }
{
    if let Some(object) = object {
        let object = object.copy()?;
        objects.push((uid, object))?;
    }
    Ok(())
}

/// The last of a path's names; the root's path has none.
fn last_name(path: &[EntryName]) -> Option<&EntryName>
    ensures { option_map (λ name. name.now) result ≡ last_name path.now }
{
    if path.is_empty() {
        None
    } else {
        path.get(path.len() - 1)
    }
}

/// The names before the last.
fn parent_path(path: &[EntryName]) -> &[EntryName]
    ensures { result.now ≡ parent_path path.now }
{
    &path[..path.len().saturating_sub(1)]
}

/// Whether two brackets are out of order, or the first is below the caller's ring.
fn is_bad_pair(ring: Ring, d1: Ring, d2: Ring) -> bool
    ensures { result ≡ (nat_lt d2 d1 || nat_lt d1 ring) }
{
    d2.number() < d1.number() || d1.number() < ring.number()
}

/// Whether a segment of so many words is too short or too long, or too short for what its map names.
fn is_bad_length(words: u32, object: Option<&ObjectMap>) -> bool
    ensures { result ≡ is_bad_length words (option_copied object.entry) }
{
    if words == 0 || words > 1024 {
        return true;
    }
    match object {
        Some(object) => reaches_beyond(object, words),
        None => false,
    }
}

/// Whether a gate or a definition of a map is at a word that a segment of so many words doesn't have.
fn reaches_beyond(object: &ObjectMap, words: u32) -> bool
    ensures { result ≡ reaches_beyond words object.now }
{
    u32::from(object.gate()) > words || defines_beyond(object.definitions(), words)
}

fn defines_beyond(definitions: &[(EntryName, u16)], words: u32) -> bool
    ensures { result ≡ list_any (λ definition. nat_le words definition.1) definitions.now }
{
    definitions.iter().any(
        |definition: &(EntryName, u16)| -> bool
            ensures { result ≡ nat_le words definition.now.1 }
        { words <= u32::from(definition.1) },
    )
}

/// Three rings as brackets, where they are in order.
fn bracketing(rings: &[Ring; 3]) -> Option<Brackets>
    ensures { result ≡ bracketing rings.now }
{
    let [r1, r2, r3] = *rings;
    Brackets::new(r1, r2, r3)
}

/// Three rings as brackets, where a caller in the ring may set them.
pub(crate) fn settable(ring: Ring, rings: &[Ring; 3]) -> Option<Brackets>
    ensures { result ≡ settable ring rings.now }
{
    match bracketing(rings) {
        Some(brackets) if ring.number() <= brackets.r1().number() => Some(brackets),
        Some(_) | None => None,
    }
}
