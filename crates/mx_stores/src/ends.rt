//! From when on each store is superseded: found once for all stores of a process, along its table.

ghost use Rattle.std.specs.Prelude.{◌≡◌, ℕ, ◌==◌, Bool, false, suc, length, slice_get, IfOk, List, Option, Some};
ghost use Rattle.mx_reads.specs.Deeds.{Deeds};
ghost use Rattle.mx_stores.specs.Ends.{AreEnds, AreEndsOf, AreEndsTo};
ghost use Rattle.mx_stores.specs.Tables.{AreTables, IsTable};
ghost use Rattle.mx_stores.specs.Until.{until};
ghost use Rattle.mx_stores.specs.declared.stores.Store.{Store as StoreValue};
ghost use Rattle.mx_stores.specs.declared.stores.Table.{Table as TableValue};

use crate::numbers::least;
use crate::stores::Table;
use std::alloc::{AllocError, Global};
use std::thread;
use std::thread::Threads;

// From when on each store in the table is superseded by the next of its process.
fn by_next(alloc: Global, table: &Table) -> Result<Vec<Option<u32>>, AllocError>
    ensures { IfOk result (λ ends. (done : Deeds) (storer : ℕ) → IsTable (done storer) table.now
        → AreEndsOf done 0 storer table.now.stores.items ends.items) }
{
    let mut ends = Vec::new(alloc);
    for here in 0..table.stores.len() {
        ends.push(table.replaced(here, &table.stores[here]))?;
    }
    Ok(ends)
}

// Brings in the stores of one process more. Along the table the levels that are sought rise, so each search begins where
// the one before ended.
fn bring_in(table: &Table, other: &Table, ends: &mut [Option<u32>])
    ensures { (done : Deeds) (storer u : ℕ) → (u == storer) ≡ false → IsTable (done storer) table.now → IsTable (done u) other.now
        → AreEndsOf done u storer table.now.stores.items ends.old → AreEndsOf done (suc u) storer table.now.stores.items ends.new }
{
    let mut hint = 0;
    for here in 0..ends.len() {
        let Some(store) = table.at(here) else {
            return;
        };
        ends[here] = least(
            other.overwritten(&store.cell, store.since, &mut hint),
            ends[here],
        );
    }
}

/// From when on each store of a table is superseded.
#[derive(Debug, Drop)]
pub(crate) struct Ends {
    of: Vec<Option<u32>>,
}

impl Ends {
    // Of a table, by the stores of its own process alone.
    fn begin(alloc: Global, table: &Table) -> Result<Ends, AllocError>
        ensures { IfOk result (λ ends. (done : Deeds) (storer : ℕ) → IsTable (done storer) table.now
            → AreEndsOf done 0 storer table.now.stores.items ends.of.items) }
    {
        Ok(Ends {
            of: by_next(alloc, table)?,
        })
    }

    // Brings in the stores of all other processes. It is of the table of process `storer`.
    fn bring_all(&mut self, tables: &[Table], storer: usize)
        ensures { (done : Deeds) (table : TableValue) → AreTables done tables.now → slice_get tables.now storer ≡ Some table
            → AreEndsOf done 0 storer table.stores.items self.old.of.items
            → AreEndsOf done (length tables.now) storer table.stores.items self.new.of.items }
    {
        let Some(table) = tables.get(storer) else {
            return;
        };
        for other in 0..tables.len() {
            if other != storer {
                bring_in(table, &tables[other], self.of.as_mut_slice());
            }
        }
    }

    // Of the store that stands here.
    fn at(&self, here: usize) -> Option<u32>
        ensures { (end : Option ℕ) → slice_get self.now.of.items here ≡ Some end → result ≡ end }
    {
        match self.of.get(here) {
            None => None,
            Some(end) => *end,
        }
    }
}

// From when on each store is superseded by the next of its process, for the tables of process 0, 1, ..
fn first_ends(alloc: Global, tables: &[Table]) -> Result<Vec<Ends>, AllocError>
    ensures { IfOk result (λ ends. (done : Deeds) → AreTables done tables.now → AreEndsTo done 0 tables.now ends.items) }
{
    let mut ends = Vec::new(alloc);
    for storer in 0..tables.len() {
        ends.push(Ends::begin(alloc, &tables[storer])?)?;
    }
    Ok(ends)
}

// Brings in the stores of all processes, one table after another.
fn bring_in_turn(tables: &[Table], ends: &mut [Ends])
    ensures { (done : Deeds) → AreTables done tables.now → AreEndsTo done 0 tables.now ends.old
        → AreEndsTo done (length tables.now) tables.now ends.new }
{
    for storer in 0..ends.len() {
        ends[storer].bring_all(tables, storer);
    }
}

// Brings in the stores of all processes, the tables beside one another.
fn bring_beside<R: Threads + Sync>(rt: &R, tables: &[Table], ends: &mut [Ends])
    ensures { (done : Deeds) → AreTables done tables.now → AreEndsTo done 0 tables.now ends.old
        → AreEndsTo done (length tables.now) tables.now ends.new }
{
    let bring = |storer: usize, own: &mut Ends|
        ensures { (done : Deeds) (table : TableValue) → AreTables done tables.entry.now
            → slice_get tables.entry.now storer ≡ Some table
            → AreEndsOf done 0 storer table.stores.items own.entry.now.of.items
            → AreEndsOf done (length tables.entry.now) storer table.stores.items own.exit.now.of.items }
    { own.bring_all(tables, storer) };
    thread::for_each_mut(rt, ends, 16, &bring);
}

/// From when on each store is superseded, for the tables of process 0, 1, ..
pub(crate) fn ends_of(alloc: Global, tables: &[Table]) -> Result<Vec<Ends>, AllocError>
    ensures { IfOk result (λ ends. (done : Deeds) → AreTables done tables.now → AreEnds done tables.now ends.items) }
{
    let mut ends = first_ends(alloc, tables)?;
    bring_in_turn(tables, ends.as_mut_slice());
    Ok(ends)
}

/// The same, found for the tables beside one another, in at most sixteen threads where they can be had.
pub(crate) fn ends_beside<R: Threads + Sync>(
    rt: &R,
    alloc: Global,
    tables: &[Table],
) -> Result<Vec<Ends>, AllocError>
    ensures { IfOk result (λ ends. (done : Deeds) → AreTables done tables.now → AreEnds done tables.now ends.items) }
{
    let mut ends = first_ends(alloc, tables)?;
    bring_beside(rt, tables, ends.as_mut_slice());
    Ok(ends)
}

/// From when on the store that stands here in the table of process `storer` is superseded.
pub(crate) fn end_at(ends: &[Ends], storer: usize, here: usize) -> Option<u32>
    ensures { (done : Deeds) (tables : List TableValue) (table : TableValue) (store : StoreValue) → AreEnds done tables ends.now
        → slice_get tables storer ≡ Some table → slice_get table.stores.items here ≡ Some store
        → result ≡ until done (length tables) storer store.place store.cell }
{
    match ends.get(storer) {
        None => None,
        Some(ends) => ends.at(here),
    }
}
