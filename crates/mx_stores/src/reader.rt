//! The reads of a process in order: for each the store that it stands for, found in the rows of all stores from what the
//! process has sighted before.

ghost use Rattle.std.specs.Prelude.{◌≡◌, ◌<◌, ◌&&◌, not, is_none, ℕ, suc, nat_le, length, slice_get, option_map, IfOk, IfSome, Some, None, List};
ghost use Rattle.std.specs.Bool.{MatchBool};
ghost use Rattle.mx_reads.specs.Deeds.{Deeds, Stores, CellUse as CellUseValue};
ghost use Rattle.mx_reads.specs.Sightings.{Source};
ghost use Rattle.mx_stores.specs.Choices.{choice, first_below, is_such, is_unwritten, other_choice, own_choice, stores_word};
ghost use Rattle.mx_stores.specs.Deciding.{choice_for, choices, source_of};
ghost use Rattle.mx_stores.specs.Ends.{AreEnds};
ghost use Rattle.mx_stores.specs.Rows.{AreRows, IsInGroup, IsStoreAt};
ghost use Rattle.mx_stores.specs.Placed.{HasChosen, IsPlaced};
ghost use Rattle.mx_stores.specs.Least.{is_by};
ghost use Rattle.mx_stores.specs.Sighted.{latest};
ghost use Rattle.mx_stores.specs.Since.{first};
ghost use Rattle.mx_stores.specs.SightedTables.{AreSightings, IsReading};
ghost use Rattle.mx_stores.specs.StoreLaws.{AreBelow};
ghost use Rattle.mx_stores.specs.Tables.{AreTables, IsFrom, IsStoreOf, number_of, order_of};
ghost use Rattle.mx_stores.specs.declared.stores.Table.{Table as TableValue};

use crate::deeds::{Deed, Read};
use crate::ends::{Ends, end_at};
use crate::firsts::first_at;
use crate::numbers::is_by;
use crate::rows::Rows;
use crate::sightings::Sightings;
use crate::stores::{Store, Table, order_of};
use std::alloc::{AllocError, Global};

/// The store that a read stands for.
#[derive(Clone, Copy, Debug)]
pub(crate) struct Chosen {
    /// Its place among the deeds of its process; 0 where it is nobody's.
    pub(crate) place: usize,
    /// The group in which it stands in its process's table, if that is another's.
    pub(crate) group: usize,
    /// Where it stands in that table.
    pub(crate) at: usize,
}

// At this place, in no group.
fn chosen_at(place: usize) -> Chosen
    ensures { result.place ≡ place }
{
    Chosen {
        place,
        group: 0,
        at: 0,
    }
}

// Whether it is a store of what the read gave.
fn stores_word(store: &Store, read: &Read) -> bool
    ensures { result ≡ stores_word read.now.cell read.now.value read.now.stamp (Stores store.now.cell store.now.value store.now.point) }
{
    store.cell.is(&read.cell) && (store.value == read.value && store.point == read.stamp)
}

// The store of process `storer` that stands here in its table is one that the read can stand for.
fn is_such(ends: &[Ends], storer: usize, here: usize, store: &Store, read: &Read) -> bool
    ensures { (done : Deeds) (tables : List TableValue) (table : TableValue) → AreEnds done tables ends.now
        → slice_get tables storer ≡ Some table → slice_get table.stores.items here ≡ Some store.now
        → IsStoreOf (done storer) store.now → storer ≡ read.now.writer
        → result ≡ is_such done (length tables) read.now store.now.place }
{
    stores_word(store, read) && !is_by(end_at(ends, storer, here), read.point)
}

// The first store from `start` on in this group of the table of process `storer` that the read can stand for.
fn first_such(
    ends: &[Ends],
    table: &Table,
    storer: usize,
    group: usize,
    start: usize,
    read: &Read,
) -> Option<Chosen>
    ensures place { (done : Deeds) (tables : List TableValue) (floor : ℕ) → AreTables done tables → AreEnds done tables ends.now
        → slice_get tables storer ≡ Some table.now → storer ≡ read.now.writer → read.now.cell.since < 4294967296
        → IsFrom table.now.stores.items (order_of read.now.cell floor) start
        → option_map (λ chosen. chosen.place) result ≡ first_below (λ place. nat_le floor place && is_such done (length tables) read.now place) (length (done read.now.writer)) }
    ensures group { IfSome result (λ chosen. chosen.group ≡ group) }
    ensures at { IfSome result (λ chosen. IsStoreAt table.now.stores.items read.now.cell chosen.place chosen.at) }
{
    for here in start..table.stores.len() {
        let Some(store) = table.at(here) else {
            return None;
        };
        if !store.cell.is(&read.cell) {
            return None;
        }
        if is_such(ends, storer, here, store, read) {
            return Some(Chosen {
                place: store.place,
                group,
                at: here,
            });
        }
    }
    None
}

// The first store of another process that will do.
fn other_choice(rows: &Rows, sightings: &Sightings, storer: usize, read: &Read) -> Option<Chosen>
    ensures place { (done : Deeds) (source : Source) → AreRows done rows.now → AreBelow (length rows.now.tables.items) done
        → AreSightings done source rows.now.tables.items rows.now.groups.items rows.now.cells.numbers.items read.now.process read.now.place sightings.now
        → storer ≡ read.now.writer → (storer ≡ read.now.process → ⊥)
        → option_map (λ chosen. chosen.place) result ≡ other_choice done (length rows.now.tables.items) source read.now }
    ensures at { (done : Deeds) → AreRows done rows.now
        → IfSome result (λ chosen. IsInGroup rows.now.tables.items rows.now.groups.items storer read.now.cell chosen.place chosen.group chosen.at) }
{
    if storer < rows.tables.len() && storer < rows.groups.len() {
        let Some(group) = rows.groups[storer].find(&read.cell) else {
            return None;
        };
        let Some(index) = rows.cells.find(read.cell.number()) else {
            return None;
        };
        let start = sightings.start(index, storer, group);
        first_such(
            rows.ends.as_slice(),
            &rows.tables[storer],
            storer,
            group,
            start,
            read,
        )
    } else {
        None
    }
}

// The process's last store in the cell before the read, if the read can stand for it.
fn own_choice(tables: &[Table], ends: &[Ends], storer: usize, read: &Read) -> Option<usize>
    ensures { (done : Deeds) → AreTables done tables.now → AreEnds done tables.now ends.now → AreBelow (length tables.now) done → storer ≡ read.now.writer
        → result ≡ own_choice done (length tables.now) read.now }
{
    if storer >= tables.len() {
        return None;
    }
    let table = &tables[storer];
    let end = table.first_from(order_of(&read.cell, read.place));
    let Some(store) = table.before(end) else {
        return None;
    };
    if !store.cell.is(&read.cell) {
        return None;
    }
    if is_such(ends, storer, end - 1, store, read) {
        Some(store.place)
    } else {
        None
    }
}

// Nobody's word in the cell at this place among those that were stored in can be read at this point.
fn is_unknown(rows: &Rows, sightings: &Sightings, index: usize, point: u32) -> bool
    ensures { (done : Deeds) (source : Source) (p here : ℕ) (cell : CellUseValue) → AreRows done rows.now
        → AreSightings done source rows.now.tables.items rows.now.groups.items rows.now.cells.numbers.items p here sightings.now
        → cell.since < 4294967296 → slice_get rows.now.cells.numbers.items index ≡ Some (number_of cell)
        → result ≡ (is_none (latest done source p cell here) && not (is_by (first done (length rows.now.tables.items) cell) point)) }
{
    sightings.latest(index).is_none() && !is_by(first_at(rows.firsts.as_slice(), index), point)
}

// The word can be nobody's.
fn is_unwritten(rows: &Rows, sightings: &Sightings, read: &Read) -> bool
    ensures { (done : Deeds) (source : Source) → AreRows done rows.now → AreBelow (length rows.now.tables.items) done
        → AreSightings done source rows.now.tables.items rows.now.groups.items rows.now.cells.numbers.items read.now.process read.now.place sightings.now
        → result ≡ is_unwritten done (length rows.now.tables.items) source read.now }
{
    if read.value == 0 && read.stamp == 0 {
        match rows.cells.find(read.cell.number()) {
            None => true,
            Some(index) => is_unknown(rows, sightings, index, read.point),
        }
    } else {
        false
    }
}

// The store that the read stands for, none where it is wrong.
fn choice(rows: &Rows, sightings: &Sightings, read: &Read) -> Option<Chosen>
    ensures place { (done : Deeds) (source : Source) → AreRows done rows.now → AreBelow (length rows.now.tables.items) done
        → AreSightings done source rows.now.tables.items rows.now.groups.items rows.now.cells.numbers.items read.now.process read.now.place sightings.now
        → option_map (λ chosen. chosen.place) result ≡ choice done (length rows.now.tables.items) source read.now }
    ensures at { (done : Deeds) → AreRows done rows.now → (read.now.writer ≡ 0 → ⊥) → (read.now.writer ≡ read.now.process → ⊥)
        → IfSome result (λ chosen. IsInGroup rows.now.tables.items rows.now.groups.items read.now.writer read.now.cell chosen.place chosen.group chosen.at) }
{
    let storer = usize::from(read.writer);
    if storer == 0 {
        if is_unwritten(rows, sightings, read) {
            Some(chosen_at(0))
        } else {
            None
        }
    } else if storer == read.process {
        match own_choice(rows.tables.as_slice(), rows.ends.as_slice(), storer, read) {
            None => None,
            Some(place) => Some(chosen_at(place)),
        }
    } else {
        other_choice(rows, sightings, storer, read)
    }
}

// The store that the deed of process `p` at the place `here` stands for, none where it is a wrong read.
fn choice_for(
    rows: &Rows,
    sightings: &Sightings,
    p: usize,
    here: usize,
    deed: &Deed,
) -> Option<Chosen>
    ensures place { (done : Deeds) (chosen : List ℕ) → AreRows done rows.now → AreBelow (length rows.now.tables.items) done
        → AreSightings done (source_of chosen) rows.now.tables.items rows.now.groups.items rows.now.cells.numbers.items p here sightings.now
        → option_map (λ c. c.place) result ≡ choice_for done (length rows.now.tables.items) p here chosen (Some deed.now) }
    ensures at { (done : Deeds) → AreRows done rows.now
        → IfSome result (λ c. IsPlaced rows.now p here deed.now c.place c.group c.at) }
{
    match deed.read(p, here) {
        None => Some(chosen_at(0)),
        Some(read) => choice(rows, sightings, &read),
    }
}

// Notes what the deed of process `p` at the place `here` sights, where its read stands for the store at `chosen`.
fn note(rows: &Rows, sightings: &mut Sightings, p: usize, here: usize, deed: &Deed, chosen: &Chosen)
    ensures { (done : Deeds) (source : Source) → AreRows done rows.now → AreBelow (length rows.now.tables.items) done
        → slice_get (done p) here ≡ Some deed.now → source p here ≡ chosen.now.place
        → IsPlaced rows.now p here deed.now chosen.now.place chosen.now.group chosen.now.at
        → HasChosen done p here deed.now chosen.now.place
        → AreSightings done source rows.now.tables.items rows.now.groups.items rows.now.cells.numbers.items p here sightings.old
        → AreSightings done source rows.now.tables.items rows.now.groups.items rows.now.cells.numbers.items p (suc here) sightings.new }
{
    if let Some(sight) = deed.sight(p, here, chosen.place) {
        if let Some(index) = rows.cells.find(sight.cell.number()) {
            if sight.sighted.storer == p {
                sightings.sight_own(index, p);
            } else {
                sightings.sight(index, sight.sighted.storer, chosen.group, chosen.at);
            }
        }
    }
}

/// A process whose reads are taken in order.
#[derive(Debug, Drop)]
pub(crate) struct Reader {
    process: usize,
    sightings: Sightings,
}

impl Reader {
    /// At its first deed.
    ///
    /// # Errors
    ///
    /// Want of memory.
    pub(crate) fn new(alloc: Global, rows: &Rows, process: usize) -> Result<Reader, AllocError>
        ensures process { IfOk result (λ reader. reader.process ≡ process) }
        ensures reading { IfOk result (λ reader. (done : Deeds) → AreRows done rows.now → IsReading done rows.now process 0 reader.sightings) }
    {
        let sightings = Sightings::new(alloc, rows.cells.numbers.len(), rows.groups.as_slice())?;
        Ok(Reader { process, sightings })
    }

    /// Takes the deed at the place `here`, and says whether it is right.
    pub(crate) fn take(&mut self, rows: &Rows, here: usize, deed: &Deed) -> bool
        ensures process { self.new.process ≡ self.old.process }
        ensures taken { (done : Deeds) → AreRows done rows.now → AreBelow (length rows.now.tables.items) done
            → slice_get (done self.old.process) here ≡ Some deed.now → IsReading done rows.now self.old.process here self.old.sightings
            → MatchBool result (IsReading done rows.now self.old.process (suc here) self.new.sightings)
            (choices done (length rows.now.tables.items) self.old.process (suc here) ≡ None) }
    {
        match choice_for(rows, &self.sightings, self.process, here, deed) {
            None => false,
            Some(chosen) => {
                note(rows, &mut self.sightings, self.process, here, deed, &chosen);
                true
            }
        }
    }
}
