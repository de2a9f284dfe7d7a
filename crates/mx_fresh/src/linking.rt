//! Where a link of a process leads: what each search rule finds, and the word of the symbol in what is found.

ghost use Rattle.std.specs.Prelude.{◌≡◌, IfOk};
ghost use Rattle.std.specs.Option.{option_copied, option_map};
ghost use Rattle.mx_hier.specs.Find.{find_at};
ghost use Rattle.mx_link.specs.Targets.{in_object, in_segment};
ghost use Rattle.mx_search.specs.Searching.{answers, first_found};
ghost use Rattle.mx_state.specs.Askers.{caller};
ghost use Rattle.mx_state.specs.Linking.{branch_found, initiated_finds, referencing_dir_finds, rule_finds, known_uid, found_uid, found_object, link_at, link_target};

use crate::hierarchy::FreshHierarchy;
use crate::known::FreshKnown;
use crate::processes::{FreshProcess, own_caller};
use mx_kst::Lot;
use mx_link::{LinkError, Target};
use mx_name::{EntryName, Path};
use mx_object::ObjectMap;
use mx_sdw::Ring;
use mx_search::{Found, Rule};
use std::alloc::{AllocError, Global};
use std::marker::Model;

/// A link: the uid of the object that has it, and the names of its segment and its symbol.
#[derive(Drop)]
pub(crate) struct Link {
    pub(crate) object: u32,
    pub(crate) segment: EntryName,
    pub(crate) symbol: EntryName,
}

impl Model for Link {
    ghost use Rattle.mx_state.specs.declared.linking.Link.{Link};

    ghost Value = { Link };

    ghost view = { λ a. record { object = a.object; segment = a.segment; symbol = a.symbol } };
}

/// The link of a word of a linkage section; none where the number is not that of one, or it has no such word.
pub(crate) fn link_at(
    hierarchy: &FreshHierarchy,
    known: &FreshKnown,
    segno: u16,
    word: u16,
) -> Option<Link>
    ensures { result ≡ link_at hierarchy.now known.now segno word }
{
    let Lot::Linkage { of, words, .. } = known.stands_for(segno) else {
        return None;
    };
    if word >= words {
        return None;
    }
    let object = known_uid(known, of)?;
    let (segment, symbol) = hierarchy.object_at(object)?.link(word)?;
    Some(Link {
        object,
        segment: *segment,
        symbol: *symbol,
    })
}

/// The uid of the segment of the hierarchy that a number stands for.
fn known_uid(known: &FreshKnown, segno: u16) -> Option<u32>
    ensures { result ≡ known_uid known.now segno }
{
    match known.stands_for(segno) {
        Lot::Branch { uid } => Some(uid),
        Lot::Free | Lot::Stack(_) | Lot::Linkage { .. } => None,
    }
}

/// What a rule finds under a name, for a process in a ring, where the link is one of the object of this uid.
fn rule_finds(
    alloc: Global,
    hierarchy: &FreshHierarchy,
    process: &FreshProcess,
    ring: Ring,
    object: u32,
    rule: &Rule,
    name: &EntryName,
) -> Result<Option<Found>, AllocError>
    ensures { IfOk result (λ found. found ≡ rule_finds hierarchy.now process.now ring object rule.now name.now) }
{
    match rule {
        Rule::InitiatedSegments => Ok(initiated_finds(hierarchy, process, ring, name)),
        Rule::ReferencingDir => {
            referencing_dir_finds(alloc, hierarchy, process, ring, object, name)
        }
        Rule::WorkingDir => {
            found_at(
                alloc,
                hierarchy,
                process,
                ring,
                &process.working_directory,
                name,
            )
        }
        Rule::Directory(path) => found_at(alloc, hierarchy, process, ring, path, name),
    }
}

/// A segment of this reference name in the ring, unless it was deleted.
fn initiated_finds(
    hierarchy: &FreshHierarchy,
    process: &FreshProcess,
    ring: Ring,
    name: &EntryName,
) -> Option<Found>
    ensures { result ≡ initiated_finds hierarchy.now process.now ring name.now }
{
    let segno = process.known.named(ring, name)?;
    let uid = known_uid(&process.known, segno)?;
    if hierarchy.segment_at(uid).is_some() {
        Some(Found::Known(segno))
    } else {
        None
    }
}

/// A segment of this name in the directory that holds the object now.
fn referencing_dir_finds(
    alloc: Global,
    hierarchy: &FreshHierarchy,
    process: &FreshProcess,
    ring: Ring,
    object: u32,
    name: &EntryName,
) -> Result<Option<Found>, AllocError>
    ensures { IfOk result (λ found. found
        ≡ referencing_dir_finds hierarchy.now (caller process.now ring).subject object name.now) }
{
    let Some(dir) = hierarchy.holder(object) else {
        return Ok(None);
    };
    let who = own_caller(process, ring);
    let uid = hierarchy.find_in(alloc, dir, name, &who)?;
    Ok(branch_found(uid))
}

/// A segment of this name in the directory at a path.
fn found_at(
    alloc: Global,
    hierarchy: &FreshHierarchy,
    process: &FreshProcess,
    ring: Ring,
    dir: &Path,
    name: &EntryName,
) -> Result<Option<Found>, AllocError>
    ensures { IfOk result (λ found. found
        ≡ branch_found (find_at hierarchy.now (caller process.now ring).subject dir.now name.now)) }
{
    let who = own_caller(process, ring);
    let uid = hierarchy.find_at(alloc, dir, name, &who)?;
    Ok(branch_found(uid))
}

fn branch_found(uid: Option<u32>) -> Option<Found>
    ensures { result ≡ branch_found uid }
{
    match uid {
        Some(uid) => Some(Found::Branch(uid)),
        None => None,
    }
}

/// What the first rule that finds something finds.
fn first_found(
    alloc: Global,
    hierarchy: &FreshHierarchy,
    process: &FreshProcess,
    ring: Ring,
    object: u32,
    rules: &[Rule],
    name: &EntryName,
) -> Result<Option<Found>, AllocError>
    ensures { IfOk result (λ found. found
        ≡ first_found (answers (rule_finds hierarchy.now process.now ring object) rules.now name.now)) }
{
    for rule in rules {
        let found = rule_finds(alloc, hierarchy, process, ring, object, rule, name)?;
        if let Some(found) = found {
            return Ok(Some(found));
        }
    }
    Ok(None)
}

/// The uid of what is found.
pub(crate) fn found_uid(known: &FreshKnown, found: &Found) -> Option<u32>
    ensures { result ≡ found_uid known.now found.now }
{
    match found {
        Found::Known(segno) => known_uid(known, *segno),
        Found::Branch(uid) => Some(*uid),
    }
}

/// And its object map.
fn found_object<'a>(
    hierarchy: &'a FreshHierarchy,
    known: &FreshKnown,
    found: &Found,
) -> Option<&'a ObjectMap>
    ensures { option_map (λ object. object.now) result ≡ found_object hierarchy.now known.now found.now }
{
    let uid = found_uid(known, found)?;
    hierarchy.object_at(uid)
}

/// The word of a symbol in what was found.
fn in_object(
    found: Found,
    object: Option<&ObjectMap>,
    symbol: &EntryName,
) -> Result<Target, LinkError>
    ensures { result ≡ in_object found (option_copied object.entry) symbol.now }
{
    let Some(object) = object else {
        return Err(LinkError::NotObject);
    };
    match object.definition(symbol) {
        Some(word) => Ok(Target { found, word }),
        None => Err(LinkError::NoDefinition),
    }
}

/// Where a link of a process leads in a ring, or why it leads nowhere.
pub(crate) fn link_target(
    alloc: Global,
    hierarchy: &FreshHierarchy,
    process: &FreshProcess,
    ring: Ring,
    link: &Link,
) -> Result<Result<Target, LinkError>, AllocError>
    ensures { IfOk result (λ to. to ≡ link_target hierarchy.now process.now ring link.now) }
{
    let rules = process.rules.items();
    let found = first_found(
        alloc,
        hierarchy,
        process,
        ring,
        link.object,
        rules,
        &link.segment,
    )?;
    Ok(in_found(hierarchy, &process.known, found, &link.symbol))
}

/// The word of a symbol in what was found, if anything was. Takes no memory: each refusal is told.
fn in_found(
    hierarchy: &FreshHierarchy,
    known: &FreshKnown,
    found: Option<Found>,
    symbol: &EntryName,
) -> Result<Target, LinkError>
    ensures { result ≡ in_segment (found_object hierarchy.now known.now) found symbol.now }
{
    match found {
        Some(found) => {
            let object = found_object(hierarchy, known, &found);
            in_object(found, object, symbol)
        }
        None => Err(LinkError::SegmentNotFound),
    }
}
