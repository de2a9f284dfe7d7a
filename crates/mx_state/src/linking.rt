//! Where the links of a process lead.

ghost use Rattle.std.specs.Prelude.{◌≡◌, ◌⊎◌, ◌≤◌, ◌<◌, Err, IfOk};
ghost use Rattle.mx_hier.specs.Find.{find_at, find_in};
ghost use Rattle.mx_hier.specs.declared.refusals.HierError.TheVariants as given;
ghost use Rattle.mx_state.specs.Askers.{caller};
ghost use Rattle.mx_state.specs.Known.{IsToldAt, Leads};
ghost use Rattle.mx_state.specs.Linking.{branch_found, found_uid, known_uid, link_at, link_target, referencing_dir_finds, initiated_finds};

use crate::callers::own_caller;
use crate::states::ProcessState;
use mx_hier::{Hier, HierError, Refusal};
use mx_kst::{Kst, Lot};
use mx_link::{LinkError, Linker, Target, resolve};
use mx_name::{EntryName, Path};
use mx_object::ObjectMap;
use mx_sdw::Ring;
use mx_search::{Finder, Found, Rule};
use std::alloc::{AllocError, Global};

/// A link of a linkage section: the uid of the object that has it, which may have been deleted, and the names of its
/// segment and its symbol.
#[derive(Clone, Copy)]
pub struct Link {
    pub object: u32,
    pub segment: EntryName,
    pub symbol: EntryName,
}

/// Where a link leads: the uid of a segment, and a word of it.
#[derive(Clone, Copy)]
pub struct Place {
    pub uid: u32,
    pub word: u16,
}

/// The link of a word of a linkage section. None exactly where the segment number is not that of a linkage section, or
/// the section has no such word.
pub(crate) fn link_at(hier: &Hier, known: &Kst, segno: u16, word: u16) -> Option<Link>
    ensures { result ≡ link_at hier.now known.now segno word }
{
    let Lot::Linkage { of, words, .. } = known.lot(segno) else {
        return None;
    };
    if word >= words {
        return None;
    }
    let object = known_uid(known, of)?;
    let (segment, symbol) = hier.object_at(object)?.link(word)?;
    Some(Link {
        object,
        segment: *segment,
        symbol: *symbol,
    })
}

/// The uid of the segment of the hierarchy that a number stands for.
fn known_uid(known: &Kst, segno: u16) -> Option<u32>
    ensures { result ≡ known_uid known.now segno }
{
    match known.lot(segno) {
        Lot::Branch { uid } => Some(uid),
        Lot::Free | Lot::Stack(_) | Lot::Linkage { .. } => None,
    }
}

/// The search for a link of one object: what each rule finds for a process in a ring.
#[derive(Clone, Copy)]
pub struct LinkSearch<'a> {
    alloc: Global,
    hier: &'a Hier,
    process: &'a ProcessState,
    ring: Ring,
    object: u32,
}

impl Finder for LinkSearch<'_> {
    ghost use Rattle.mx_state.specs.Linking.{rule_finds};

    ghost answer = { λ here rule name. rule_finds here.hier.now here.process.now here.ring here.object rule name };

    fn find(&self, rule: &Rule, name: &EntryName) -> Result<Option<Found>, AllocError> {
        match rule {
            Rule::InitiatedSegments => Ok(self.initiated(name)),
            Rule::ReferencingDir => self.in_referencing_dir(name),
            Rule::WorkingDir => self.at(&self.process.working_directory, name),
            Rule::Directory(path) => self.at(path, name),
        }
    }
}

impl Linker for LinkSearch<'_> {
    ghost use Rattle.mx_state.specs.Linking.{found_object};

    ghost object_of = { λ here found. found_object here.hier.now here.process.now.known found };

    fn object(&self, found: &Found) -> Option<&ObjectMap> {
        let uid = self.uid(found)?;
        self.hier.object_at(uid)
    }
}

impl LinkSearch<'_> {
    /// A segment of this reference name in the ring, unless it was deleted.
    fn initiated(&self, name: &EntryName) -> Option<Found>
        ensures { result ≡ initiated_finds self.now.hier.now self.now.process.now self.now.ring name.now }
    {
        let segno = self.process.known.by_name(self.ring, name)?;
        let uid = known_uid(&self.process.known, segno)?;
        if self.hier.is_segment(uid) {
            Some(Found::Known(segno))
        } else {
            None
        }
    }

    /// A segment of this name in the directory that holds the object now.
    fn in_referencing_dir(&self, name: &EntryName) -> Result<Option<Found>, AllocError>
        ensures { IfOk result (λ found. found ≡ referencing_dir_finds
            self.now.hier.now (caller self.now.process.now self.now.ring).subject self.now.object name.now) }
    {
        let Some(dir) = self.hier.holder(self.object) else {
            return Ok(None);
        };
        let who = own_caller(self.process, self.ring);
        let uid = self.hier.find_in(self.alloc, dir, name, &who)?;
        Ok(branch(uid))
    }

    /// A segment of this name in the directory at a path.
    fn at(&self, dir: &Path, name: &EntryName) -> Result<Option<Found>, AllocError>
        ensures { IfOk result (λ found. found ≡ branch_found
            (find_at self.now.hier.now (caller self.now.process.now self.now.ring).subject dir.now name.now)) }
    {
        let who = own_caller(self.process, self.ring);
        let uid = self.hier.find_at(self.alloc, dir, name, &who)?;
        Ok(branch(uid))
    }

    /// The uid of what was found.
    fn uid(&self, found: &Found) -> Option<u32>
        ensures { result ≡ found_uid self.now.process.now.known found.now }
    {
        match found {
            Found::Known(segno) => known_uid(&self.process.known, *segno),
            Found::Branch(uid) => Some(*uid),
        }
    }
}

fn branch(uid: Option<u32>) -> Option<Found>
    ensures { result ≡ branch_found uid }
{
    match uid {
        Some(uid) => Some(Found::Branch(uid)),
        None => None,
    }
}

/// Where a link of a process leads in a ring, by its search rules: `SegmentNotFound`, `NotObject` and `NoDefinition` in
/// this order.
pub(crate) fn place_of(
    alloc: Global,
    hier: &Hier,
    process: &ProcessState,
    ring: Ring,
    link: &Link,
) -> Result<Place, HierError>
    ensures leads { Leads hier.now process.now ring link.now result }
    ensures below { IfOk result (λ at. at.uid < hier.now.next) }
    ensures word { IfOk result (λ at. at.word ≤ 1023) }
{
    let search = LinkSearch {
        alloc,
        hier,
        process,
        ring,
        object: link.object,
    };
    let target = resolve(&link.segment, &link.symbol, &process.rules, &search);
    placed(&search, link, target)
}

// The place of a target to which a link was resolved, or why there is none. Takes no memory: each refusal is told.
fn placed(
    search: &LinkSearch,
    link: &Link,
    target: Result<Target, LinkError>,
) -> Result<Place, HierError>
    requires right { (target ≡ link_target search.now.hier.now search.now.process.now search.now.ring link.now) ⊎ (target ≡ Err LinkError.Memory) }
    ensures leads { Leads search.now.hier.now search.now.process.now search.now.ring link.now result }
    ensures told { IsToldAt search.now.process.now.known target result }
    ensures below { IfOk result (λ at. at.uid < search.now.hier.now.next) }
    ensures word { IfOk result (λ at. at.word ≤ 1023) }
{
    match target {
        Ok(to) => {
            let Some(uid) = search.uid(&to.found) else {
                unreachable!()
            };
            // These are called for their clauses: the segment stands, so that it was made, and the symbol is defined
            // with a word of the longest segment.
            let (_stands, _words) = (search.hier.is_segment(uid), search.hier.object_at(uid));
            Ok(Place { uid, word: to.word })
        }
        Err(LinkError::SegmentNotFound) => Err(HierError::Refused(Refusal::SegmentNotFound)),
        Err(LinkError::NotObject) => Err(HierError::Refused(Refusal::NotObject)),
        Err(LinkError::NoDefinition) => Err(HierError::Refused(Refusal::NoDefinition)),
        Err(LinkError::Memory) => Err(HierError::Memory),
    }
}
