//! The store that each read stands for.

ghost use Rattle.std.specs.Prelude.{◌≡◌, IfSome, IsTrue};
ghost use Rattle.mx_core.specs.declared.elements.Outcome.TheVariants as read;
ghost use Rattle.mx_picture.specs.Arrows.{IsStoreFor, cell_of};

use super::Placed;
use mx_judging::{Judged, source_of};
use mx_sdw::Word;
use mx_transcript::Outcome;
use std::alloc::{AllocError, Global};

// A store, in the order in which it is looked for: its writer, its stamp, its cell, its value, and its place among all references.
#[derive(Clone, Copy, PartialEq, Eq, PartialOrd, Ord)]
struct Store {
    writer: u8,
    stamp: u32,
    cell: u32,
    value: u64,
    place: usize,
}

/// The stores among references, in order.
#[derive(Drop)]
pub(super) struct Stores {
    stores: Vec<Store>,
}

impl Stores {
    /// Those among these references.
    pub(super) fn new(alloc: Global, placed: &[Placed]) -> Result<Stores, AllocError> {
        let mut stores = Vec::new(alloc);
        for (place, reference) in placed.iter().enumerate() {
            let judged = &reference.judged;
            if let Outcome::Written { value } = judged.element.outcome {
                stores.push(Store {
                    writer: judged.process,
                    stamp: judged.element.point,
                    cell: cell(judged),
                    value: value.value(),
                    place,
                })?;
            }
        }
        stores.sort_unstable();
        Ok(Stores { stores })
    }

    // The place of the last store up to this one, in the order of stores.
    fn last_before(&self, wanted: &Store) -> Option<usize> {
        let count = self.stores.partition_point(|store| *store < *wanted);
        let last = self.stores.get(count.checked_sub(1)?)?;
        Some(last.place)
    }
}

/// The store that a reference at this place stands for, where it is a read: the last one of its writer in that cell, at that stamp and
/// with that value, and for a process's own store the last before the read.
pub(super) fn store_of<'a>(
    stores: &Stores,
    placed: &'a [Placed],
    place: usize,
    read: &Judged,
) -> Option<&'a Placed>
    ensures { IfSome result (λ store. IsStoreFor store.now.judged read.now) }
{
    let source = source_of(read.element.outcome)?;
    let is_own = source.process == read.process;
    let wanted = Store {
        writer: source.process,
        stamp: source.point,
        cell: cell(read),
        value: value_of(&read.element.outcome),
        place: if is_own { place } else { usize::MAX },
    };
    let found = stores.last_before(&wanted)?;
    let store = placed.get(found)?;
    if is_store_for(&store.judged, read) {
        Some(store)
    } else {
        None
    }
}

// The word that was read or written.
fn value_of(outcome: &Outcome) -> u64 {
    match outcome {
        Outcome::Read { value, .. } | Outcome::Written { value } => value.value(),
        Outcome::Entered { .. } | Outcome::Denied(_) => 0,
    }
}

// Whether this is the store that the read names: of its writer, at its stamp, in its cell, with its value.
fn is_store_for(store: &Judged, read: &Judged) -> bool
    ensures { IsTrue result → IsStoreFor store.now read.now }
{
    match &store.element.outcome {
        Outcome::Written { value } => {
            names_store(
                &read.element.outcome,
                *value,
                store.process,
                store.element.point,
            ) && cell(store) == cell(read)
        }
        _ => false,
    }
}

// Whether this is a read that names such a store.
fn names_store(outcome: &Outcome, stored: Word, process: u8, point: u32) -> bool
    ensures { IsTrue result → outcome.now ≡ read.Read stored process point }
{
    match outcome {
        Outcome::Read {
            value,
            writer,
            stamp,
        } => value.value() == stored.value() && *writer == process && *stamp == point,
        _ => false,
    }
}

// The cell of a reference.
fn cell(judged: &Judged) -> u32
    ensures { result ≡ cell_of judged.now }
{
    let (page, word) = (judged.desc.page(), judged.element.word);
    u32::from(page) * 64 + u32::from(word)
}
