//! What a process knows: what each number given so far stands for, and its reference names, as lists.

ghost use Rattle.std.specs.Prelude.{◌≡◌, ◌∷◌, ◌++◌, [], ◌≤◌, false, find, map, length, None, ◌+◌, IfOk, IsSome, OnErr, is_some, not, ◌==◌, slice_set};
ghost use Rattle.std.specs.Option.{option_and_then, option_copied, option_map};
ghost use Rattle.std.specs.Map.{lookup};
ghost use Rattle.mx_name.specs.Names.{same_name};
ghost use Rattle.mx_kst.specs.Initiating.{is_another, is_taken, is_full, lots_given, lots_with, with_name, known_as, known_by, initiated, numbers_needed};
ghost use Rattle.mx_kst.specs.KnownSegments.{at_first};
ghost use Rattle.mx_kst.specs.Lots.{stacks, lot_of, number_of, is_segment, is_branch, is_section_of};
ghost use Rattle.mx_kst.specs.Names.{no_names, names_in, named};
ghost use Rattle.mx_kst.specs.Terminating.{lot_without, lots_without, names_without, terminate};
ghost use Rattle.mx_state.specs.Numbers.{stands_for};
ghost use Rattle.mx_state.specs.Sections.{page_of_lot, section_page};
ghost use Rattle.mx_kst.specs.declared.lots.Lot.TheVariants as lot;

use mx_kst::{Known, Lot};
use mx_list::Sequence;
use mx_name::EntryName;
use mx_sdw::{Brackets, Ring};
use std::alloc::{AllocError, Global};
use std::marker::Model;

/// The reference names of one ring with the numbers that they stand for, the oldest first.
pub(crate) type RingNames = Sequence<(EntryName, u16)>;

/// What a process knows: its last number, what each number given so far stands for, and the reference names of each ring.
#[derive(Drop)]
pub struct FreshKnown {
    last: u16,
    lots: Vec<Lot>,
    names: Vec<RingNames>,
}

impl Model for FreshKnown {
    ghost use Rattle.std.specs.Prelude.{◌≤◌, ◌+◌, length};
    ghost use Rattle.mx_kst.specs.KnownSegments.{KnownSegments};

    ghost Value = { KnownSegments };

    ghost view = { λ a. record { last = a.last; lots = a.lots.items; names = a.names.items } };

    ghost invariant = { λ a. length a.lots.items ≤ a.last + 1 };
}

/// A linkage section to be made: a page, brackets, and a word for each link.
#[derive(Drop)]
pub(crate) struct Section {
    pub(crate) page: u16,
    pub(crate) brackets: Brackets,
    pub(crate) words: u16,
}

impl Model for Section {
    ghost use Rattle.mx_kst.specs.Sections.{PlainSection};

    ghost Value = { PlainSection };

    ghost view = { λ a. record { page = a.page; brackets = a.brackets; words = a.words } };
}

/// How a segment is known, and what the process knows then.
#[derive(Drop)]
pub(crate) struct Initiated {
    pub(crate) known: Known,
    pub(crate) after: FreshKnown,
}

impl Model for Initiated {
    ghost use Rattle.mx_kst.specs.Initiating.{Initiated};

    ghost Value = { Initiated };

    ghost view = { λ a. record { known = a.known; after = a.after } };
}

impl FreshKnown {
    /// At first a process knows its stacks.
    pub(crate) fn new(alloc: Global, last: u16) -> Result<FreshKnown, AllocError>
        requires { 7 ≤ last }
        ensures { IfOk result (λ known. known ≡ at_first last) }
    {
        let lots = stacks(alloc)?;
        let names = no_names(alloc)?;
        Ok(FreshKnown { last, lots, names })
    }

    /// What a number stands for: nothing beyond the last.
    pub(crate) fn stands_for(&self, segno: u16) -> Lot
        ensures { result ≡ stands_for self.now segno }
    {
        if self.last < segno {
            Lot::Free
        } else {
            lot_of(self.lots.as_slice(), segno)
        }
    }

    /// The number of a segment.
    pub(crate) fn number_of(&self, uid: u32) -> Option<u16>
        ensures { result ≡ number_of self.now.lots uid }
    {
        let _last = usize::from(self.last);
        number_of(self.lots.as_slice(), uid)
    }

    /// The number that a name stands for in a ring.
    pub(crate) fn named(&self, ring: Ring, name: &EntryName) -> Option<u16>
        ensures { result ≡ named self.now.names ring name.now }
    {
        named(self.names.as_slice(), ring, name)
    }

    /// Whether the name stands in the ring for another number than the segment's.
    pub(crate) fn is_taken(&self, uid: u32, ring: Ring, name: Option<&EntryName>) -> bool
        ensures { result ≡ is_taken self.now uid ring (option_copied name.entry) }
    {
        match name {
            Some(name) => is_another(self.number_of(uid), self.named(ring, name)),
            None => false,
        }
    }

    /// Whether the segment is not known, and too few numbers are left for it and for a linkage section that is wanted.
    pub(crate) fn is_full(&self, uid: u32, wanted: bool) -> bool
        ensures { result ≡ is_full self.now uid wanted }
    {
        let needed = if wanted { 2 } else { 1 };
        let left = usize::from(self.last) + 1 - self.lots.len();
        self.number_of(uid).is_none() && left < needed
    }

    /// The segment becomes known, or gets a further name. There are numbers for it.
    pub(crate) fn initiated(
        &self,
        alloc: Global,
        uid: u32,
        ring: Ring,
        name: Option<&EntryName>,
        section: Option<&Section>,
    ) -> Result<Initiated, AllocError>
        requires { is_full self.now uid (is_some section) ≡ false }
        ensures { IfOk result (λ given. given
            ≡ initiated self.now uid ring (option_copied name.entry) (option_copied section.entry)) }
    {
        let known = self.known_as(uid, section);
        let lots = lots_with(alloc, self.lots.as_slice(), &known, uid, section)?;
        let names = with_name(alloc, self.names.as_slice(), ring, name, known.segno)?;
        let after = FreshKnown {
            last: self.last,
            lots,
            names,
        };
        Ok(Initiated { known, after })
    }

    /// How the segment is known then.
    fn known_as(&self, uid: u32, section: Option<&Section>) -> Known
        requires { is_full self.now uid (is_some section) ≡ false }
        ensures { result ≡ known_as self.now.lots uid (option_copied section.entry) }
    {
        match self.number_of(uid) {
            Some(segno) => Known {
                segno,
                fresh: false,
                linkage: None,
            },
            None => {
                let _last = usize::from(self.last);
                fresh_known(self.lots.len(), section)
            }
        }
    }

    /// The page of the linkage section that goes with a number.
    pub(crate) fn section_page(&self, segno: u16) -> Option<u16>
        ensures { result ≡ section_page self.now segno }
    {
        let _last = usize::from(self.last);
        section_page(self.lots.as_slice(), segno)
    }

    /// What is known without a segment's number, its names and its linkage section; none where the number is not that of
    /// a known segment.
    pub(crate) fn terminated(
        &self,
        alloc: Global,
        segno: u16,
    ) -> Result<Option<FreshKnown>, AllocError>
        ensures answer { IfOk result (λ known. known ≡ terminate self.now segno) }
        ensures told { OnErr result (IsSome (terminate self.now segno)) }
    {
        if !is_branch(lot_of(self.lots.as_slice(), segno)) {
            return Ok(None);
        }
        let lots = lots_without(alloc, self.lots.as_slice(), segno)?;
        let names = all_names_without(alloc, self.names.as_slice(), segno)?;
        Ok(Some(FreshKnown {
            last: self.last,
            lots,
            names,
        }))
    }
}

/// How a segment is known that gets the next number, and its linkage section the one after that.
fn fresh_known(next: usize, section: Option<&Section>) -> Known
    requires { next + numbers_needed (is_some section) ≤ 65536 }
    ensures { result ≡ known_by None next (option_copied section.entry) }
{
    match section {
        None => Known {
            segno: next as u16,
            fresh: true,
            linkage: None,
        },
        Some(_) => Known {
            segno: next as u16,
            fresh: true,
            linkage: Some(next as u16 + 1),
        },
    }
}

fn stacks(alloc: Global) -> Result<Vec<Lot>, AllocError>
    ensures { IfOk result (λ lots. lots.items ≡ stacks) }
{
    let mut lots = Vec::new(alloc);
    for number in 0..8 {
        lots.push(stack_of(number))?;
    }
    Ok(lots)
}

/// The stack of the ring with this number.
fn stack_of(number: u8) -> Lot
    requires { number ≤ 7 }
    ensures { result ≡ lot.Stack number }
{
    match Ring::new(number) {
        Some(ring) => Lot::Stack(ring),
        None => Lot::Free,
    }
}

fn no_names(alloc: Global) -> Result<Vec<RingNames>, AllocError>
    ensures { IfOk result (λ names. names.items ≡ no_names) }
{
    let mut names = Vec::new(alloc);
    for _ring in 0..8u8 {
        names.push(RingNames::new(alloc))?;
    }
    Ok(names)
}

/// What a number stands for; one that is not given yet is free.
fn lot_of(lots: &[Lot], segno: u16) -> Lot
    ensures { result ≡ lot_of lots.now segno }
{
    match lots.get(usize::from(segno)) {
        Some(lot) => *lot,
        None => Lot::Free,
    }
}

/// The number of a segment.
fn number_of(lots: &[Lot], uid: u32) -> Option<u16>
    requires { length lots.now ≤ 65536 }
    ensures { result ≡ number_of lots.now uid }
{
    match place_of(lots, uid) {
        Some(place) => Some(place as u16),
        None => None,
    }
}

fn place_of(lots: &[Lot], uid: u32) -> Option<usize>
    ensures { result ≡ number_of lots.now uid }
{
    lots.iter().position(
        |lot: &Lot| -> bool
            ensures { result ≡ is_segment uid lot.now }
        { is_segment(uid, lot) },
    )
}

fn is_segment(uid: u32, lot: &Lot) -> bool
    ensures { result ≡ is_segment uid lot.now }
{
    match lot {
        Lot::Branch { uid: other } => *other == uid,
        Lot::Free | Lot::Stack(_) | Lot::Linkage { .. } => false,
    }
}

fn is_branch(lot: Lot) -> bool
    ensures { result ≡ is_branch lot }
{
    matches!(lot, Lot::Branch { .. })
}

/// The page of the linkage section that goes with a number.
fn section_page(lots: &[Lot], segno: u16) -> Option<u16>
    ensures { result ≡ option_and_then page_of_lot (find (is_section_of segno) lots.now) }
{
    page_of_lot(section_of(lots, segno)?)
}

/// The linkage section that goes with a number.
fn section_of(lots: &[Lot], segno: u16) -> Option<&Lot>
    ensures { option_map (λ lot. lot.now) result ≡ find (is_section_of segno) lots.now }
{
    lots.iter().find(
        |lot: &&Lot| -> bool
            ensures { result ≡ is_section_of segno lot.now.now }
        { is_section_of(segno, lot) },
    )
}

fn is_section_of(segno: u16, lot: &Lot) -> bool
    ensures { result ≡ is_section_of segno lot.now }
{
    match lot {
        Lot::Linkage { of, .. } => *of == segno,
        Lot::Free | Lot::Stack(_) | Lot::Branch { .. } => false,
    }
}

fn page_of_lot(lot: &Lot) -> Option<u16>
    ensures { result ≡ page_of_lot lot.now }
{
    match lot {
        Lot::Linkage { page, .. } => Some(*page),
        Lot::Free | Lot::Stack(_) | Lot::Branch { .. } => None,
    }
}

/// The number that a name stands for in a ring.
fn named(names: &[RingNames], ring: Ring, name: &EntryName) -> Option<u16>
    ensures { result ≡ named names.now ring name.now }
{
    match names.get(usize::from(ring.number())) {
        Some(names) => number_named(names.items(), name),
        None => None,
    }
}

fn number_named(names: &[(EntryName, u16)], name: &EntryName) -> Option<u16>
    ensures { result ≡ lookup (same_name name.now) names.now }
{
    match pair_named(names, name) {
        Some(pair) => Some(pair.1),
        None => None,
    }
}

/// The name with its number.
fn pair_named<'a>(names: &'a [(EntryName, u16)], name: &EntryName) -> Option<&'a (EntryName, u16)>
    ensures { option_map (λ pair. pair.now) result ≡ find (λ pair. same_name name.now pair.0) names.now }
{
    names.iter().find(
        |pair: &&(EntryName, u16)| -> bool
            ensures { result ≡ same_name name.entry.now pair.now.now.0 }
        { *name == pair.0 },
    )
}

/// Whether a number is there and is another than the one that a segment has.
fn is_another(own: Option<u16>, other: Option<u16>) -> bool
    ensures { result ≡ is_another own other }
{
    match (own, other) {
        (_, None) => false,
        (None, Some(_)) => true,
        (Some(own), Some(segno)) => segno != own,
    }
}

/// The lots with those of a segment that gets its number now, and of its linkage section.
fn lots_with(
    alloc: Global,
    lots: &[Lot],
    known: &Known,
    uid: u32,
    section: Option<&Section>,
) -> Result<Vec<Lot>, AllocError>
    ensures { IfOk result (λ after. after.items ≡ lots_with lots.now known.now uid (option_copied section.entry)) }
{
    let mut after = lots.to_vec(alloc)?;
    if known.fresh {
        after.push(Lot::Branch { uid })?;
        if let Some(section) = section {
            after.push(linkage(known.segno, section))?;
        }
    }
    Ok(after)
}

fn linkage(segno: u16, section: &Section) -> Lot
    ensures { result ≡ lot.Linkage segno section.now.page section.now.brackets section.now.words }
{
    Lot::Linkage {
        of: segno,
        page: section.page,
        brackets: section.brackets,
        words: section.words,
    }
}

/// The names with one more for a number, unless none is given or the ring has it already.
fn with_name(
    alloc: Global,
    names: &[RingNames],
    ring: Ring,
    name: Option<&EntryName>,
    segno: u16,
) -> Result<Vec<RingNames>, AllocError>
    ensures { IfOk result (λ after. after.items ≡ with_name names.now ring (option_copied name.entry) segno) }
{
    match name {
        Some(name) if named(names, ring, name).is_none() => {
            with_new_name(alloc, names, ring, name, segno)
        }
        Some(_) | None => copied(alloc, names),
    }
}

fn with_new_name(
    alloc: Global,
    names: &[RingNames],
    ring: Ring,
    name: &EntryName,
    segno: u16,
) -> Result<Vec<RingNames>, AllocError>
    ensures { IfOk result (λ after. after.items
        ≡ slice_set names.now ring (names_in names.now ring ++ (name.now, segno) ∷ [])) }
{
    let mut after = copied(alloc, names)?;
    if let Some(own) = after.get_mut(usize::from(ring.number())) {
        own.push((*name, segno))?;
    }
    Ok(after)
}

fn copied(alloc: Global, names: &[RingNames]) -> Result<Vec<RingNames>, AllocError>
    ensures { IfOk result (λ after. after.items ≡ names.now) }
{
    let mut after = Vec::new(alloc);
    for own in names {
        after.push(copied_ring(alloc, own)?)?;
    }
    Ok(after)
}

fn copied_ring(alloc: Global, names: &RingNames) -> Result<RingNames, AllocError>
    ensures { IfOk result (λ after. after ≡ names.now) }
{
    let names = names.items().to_vec(alloc)?;
    Ok(RingNames::of(names))
}

/// The lots without a number and its linkage section.
fn lots_without(alloc: Global, lots: &[Lot], segno: u16) -> Result<Vec<Lot>, AllocError>
    ensures { IfOk result (λ after. after.items ≡ lots_without segno lots.now) }
{
    let mut freed = lots.to_vec(alloc)?;
    if let Some(lot) = freed.get_mut(usize::from(segno)) {
        *lot = Lot::Free;
    }
    sections_without(alloc, freed.as_slice(), segno)
}

fn sections_without(alloc: Global, lots: &[Lot], segno: u16) -> Result<Vec<Lot>, AllocError>
    ensures { IfOk result (λ after. after.items ≡ map (lot_without segno) lots.now) }
{
    let mut after = Vec::new(alloc);
    for lot in lots {
        after.push(lot_without(segno, lot))?;
    }
    Ok(after)
}

fn lot_without(segno: u16, lot: &Lot) -> Lot
    ensures { result ≡ lot_without segno lot.now }
{
    match lot {
        Lot::Linkage { of, .. } if *of == segno => Lot::Free,
        _ => *lot,
    }
}

/// The names of all rings without those of a number.
fn all_names_without(
    alloc: Global,
    names: &[RingNames],
    segno: u16,
) -> Result<Vec<RingNames>, AllocError>
    ensures { IfOk result (λ after. after.items ≡ map (names_without segno) names.now) }
{
    let mut after = Vec::new(alloc);
    for own in names {
        after.push(names_without(alloc, own, segno)?)?;
    }
    Ok(after)
}

fn names_without(alloc: Global, names: &RingNames, segno: u16) -> Result<RingNames, AllocError>
    ensures { IfOk result (λ after. after ≡ names_without segno names.now) }
{
    let mut left = names.items().to_vec(alloc)?;
    forget(&mut left, segno);
    Ok(RingNames::of(left))
}

fn forget(names: &mut Vec<(EntryName, u16)>, segno: u16)
    ensures { names.new.items ≡ names_without segno names.old.items }
{
    names.retain(
        |pair: &(EntryName, u16)| -> bool
            ensures { result ≡ not (pair.now.1 == segno) }
        { pair.1 != segno },
    );
}
