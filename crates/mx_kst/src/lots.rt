//! What a segment number stands for.
ghost use Rattle.std.specs.Prelude.{◌≡◌, ◌+◌, ◌≤◌, ◌<◌, true, length, is_some, IfOk, IfSome};
ghost use Rattle.std.specs.Vec.{vec_len, vec_capacity};
ghost use Rattle.mx_kst.specs.Lots.{stacks, lot_of, is_branch, is_section_of};
ghost use Rattle.mx_kst.specs.Sections.{IsWithinPage};
ghost use Rattle.mx_kst.specs.Initiating.{numbers_needed, lots_with};
ghost use Rattle.mx_kst.specs.Terminating.{lot_without, lots_without};

use crate::sections::Section;
use crate::segments::Known;
use mx_sdw::{Brackets, Ring};
use std::alloc::{AllocError, Global};

/// What a segment number of a process stands for. (In the manuals LOT is the Linkage Offset Table, which is something
/// else.)
#[derive(Clone, Copy, Debug, PartialEq, Eq)]
pub enum Lot {
    /// Nothing: the number is not given yet, or was taken away.
    Free,
    /// The stack of a ring.
    Stack(Ring),
    /// A segment of the hierarchy.
    Branch {
        /// The segment's uid.
        uid: u32,
    },
    /// The linkage section of an object segment, private to the process.
    Linkage {
        /// The object segment's number.
        of: u16,
        /// The section's page, at most 1,023.
        page: u16,
        /// The section's brackets, as of its making.
        brackets: Brackets,
        /// How many link words it has, 1 to 64.
        words: u16,
    },
}

impl Lot {
    fn is_section_of(&self, segno: u16) -> bool
        ensures { result ≡ is_section_of segno self.now }
    {
        matches!(self, Lot::Linkage { of, .. } if *of == segno)
    }

    /// The lot without the linkage section of a number.
    fn without_section(&self, segno: u16) -> Lot
        ensures { result ≡ lot_without segno self.now }
    {
        if self.is_section_of(segno) {
            Lot::Free
        } else {
            *self
        }
    }
}

/// The lots of a process at first, with room for those of all numbers up to the last.
pub(crate) fn first_lots(alloc: Global, last: u16) -> Result<Vec<Lot>, AllocError>
    ensures lots { IfOk result (λ lots. lots.items ≡ stacks) }
    ensures room { IfOk result (λ lots. last < vec_capacity lots) }
{
    let mut lots = Vec::with_capacity(alloc, usize::from(last) + 1)?;
    for n in 0..8 {
        lots.push(stack_of(n))?;
    }
    Ok(lots)
}

/// The stack of the ring with this number.
fn stack_of(n: u8) -> Lot
    requires { n ≤ 7 }
    ensures { result ≡ Lot.Stack n }
{
    match Ring::new(n) {
        Some(ring) => Lot::Stack(ring),
        None => Lot::Free,
    }
}

/// What a number stands for.
pub(crate) fn lot_of(lots: &[Lot], segno: u16) -> Lot
    ensures { result ≡ lot_of lots.now segno }
{
    match lots.get(usize::from(segno)) {
        Some(lot) => *lot,
        None => Lot::Free,
    }
}

/// Whether a number is that of a segment.
pub(crate) fn is_branch(lots: &[Lot], segno: u16) -> bool
    ensures { result ≡ is_branch (lot_of lots.now segno) }
{
    matches!(lots.get(usize::from(segno)), Some(Lot::Branch { .. }))
}

/// Adds the lots of a segment that gets its number now, and of its linkage section. Takes no memory.
pub(crate) fn add_lots(lots: &mut Vec<Lot>, known: &Known, uid: u32, section: Option<Section>)
    requires { known.now.fresh ≡ true
        → length lots.old.items + numbers_needed (is_some section) ≤ vec_capacity lots.old }
    ensures lots { lots.new.items ≡ lots_with lots.old.items known.now uid section }
    ensures room { vec_capacity lots.old ≤ vec_capacity lots.new }
    ensures section { known.now.fresh ≡ true → IfSome section (λ s. IsWithinPage s.page s.words) }
{
    if !known.fresh {
        return;
    }
    lots.push(Lot::Branch { uid }).unwrap();
    if let Some(section) = section {
        lots.push(section.lot(known.segno)).unwrap();
    }
}

/// Frees a number, and that of its linkage section.
pub(crate) fn free(lots: &mut [Lot], segno: u16)
    requires { segno < length lots.old }
    ensures { lots.new ≡ lots_without segno lots.old }
{
    lots[usize::from(segno)] = Lot::Free;
    for lot in lots.iter_mut() {
        *lot = lot.without_section(segno);
    }
}
