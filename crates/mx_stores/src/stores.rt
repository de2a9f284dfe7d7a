//! The stores of a process in order of cells, and within a cell in order: so that they are found by binary searches.

ghost use Rattle.std.specs.Prelude.{◌≡◌, ◌≤◌, ◌<◌, suc, drop, IfOk, IsTrue, List, Some, option_map, slice_get, length};
ghost use Rattle.mx_reads.specs.Deeds.{Deed as DeedValue, Deeds};
ghost use Rattle.mx_stores.specs.Until.{overwritten, replaced};
ghost use Rattle.mx_stores.specs.Tables.{before, AreLower, ArePartTables, AreReaches, AreStores, AreTables, since_of, IsFrom, IsLevelFrom, IsReachFrom, IsTable, level_of, order_of};

use crate::deeds::{CellUse, Deed};
use crate::numbers::least;
use mx_list::Sequence;
use std::alloc::{AllocError, Global};

/// A store of a process.
#[derive(Clone, Copy, Debug)]
pub(crate) struct Store {
    pub(crate) cell: CellUse,
    pub(crate) place: usize,
    pub(crate) value: u64,
    pub(crate) point: u32,
    // From when on it is known.
    pub(crate) since: Option<u32>,
    // Where it stands among the stores of its process: by its cell and place.
    pub(crate) order: u128,
    // Its cell and point.
    pub(crate) level: u128,
}

/// The number of a cell and a place in it: cells in order, and within each the places.
pub(crate) fn order_of(cell: &CellUse, place: usize) -> u128
    ensures order { result ≡ order_of cell.now place }
    ensures near { place < 18446744073709551616 }
    ensures fits { cell.now.since < 4294967296 }
{
    u128::from(cell.number()) * 18_446_744_073_709_551_616 + place as u128
}

/// The number of a cell and a point in it.
pub(crate) fn level_of(cell: &CellUse, point: u32) -> u128
    ensures level { result ≡ level_of cell.now point }
    ensures fits { cell.now.since < 4294967296 }
{
    u128::from(cell.number()) * 4_294_967_296 + u128::from(point)
}

// The stores among the deeds, in any order.
fn stores_among(alloc: Global, deeds: &[Deed]) -> Result<Vec<Store>, AllocError>
    ensures { IfOk result (λ stores. AreStores deeds.now 0 stores.items) }
{
    let mut stores = Vec::new(alloc);
    let mut since = None;
    let mut place = deeds.len();
    while place > 0 {
        place -= 1;
        let deed = &deeds[place];
        if let Some(store) = deed.store(place, since) {
            stores.push(store)?;
        }
        since = least(deed.entry(), since);
    }
    Ok(stores)
}

// The greatest level up to each store.
fn reaches(alloc: Global, stores: &[Store]) -> Result<Vec<u128>, AllocError>
    ensures { IfOk result (λ reaches. AreReaches stores.now (length stores.now) reaches.items) }
{
    let mut reaches = Vec::new(alloc);
    let mut top = 0;
    for store in stores {
        top = store.level.max(top);
        reaches.push(top)?;
    }
    Ok(reaches)
}

/// The stores of a process in order, and for each the greatest level up to it.
#[derive(Debug, Drop)]
pub(crate) struct Table {
    pub(crate) stores: Vec<Store>,
    pub(crate) reaches: Vec<u128>,
}

impl Table {
    /// The table of the stores among a process's deeds.
    pub(crate) fn new(alloc: Global, deeds: &[Deed]) -> Result<Table, AllocError>
        ensures { IfOk result (λ table. IsTable deeds.now table) }
    {
        let mut stores = stores_among(alloc, deeds)?;
        stores.sort_unstable_by_key(|store| store.order);
        let reaches = reaches(alloc, stores.as_slice())?;
        Ok(Table { stores, reaches })
    }

    // The first store that has at least this level.
    fn first_at(&self, level: u128) -> usize
        ensures { (deeds : List DeedValue) → IsTable deeds self.now → IsLevelFrom self.now.stores.items level result }
    {
        self.reaches.partition_point(|reach| *reach < level)
    }

    // Whether it is seen by one look that all stores before this one are below this level.
    fn are_lower(&self, hint: usize, level: u128) -> bool
        ensures { (deeds : List DeedValue) → IsTable deeds self.now → IsTrue result → AreLower self.now.reaches.items level hint }
    {
        if hint == 0 {
            return true;
        }
        match self.reaches.get(hint - 1) {
            None => false,
            Some(reach) => *reach < level,
        }
    }

    // The first store from `start` on that is reached by at least this level, step by step.
    fn step_to(&self, level: u128, start: usize) -> usize
        ensures { AreLower self.now.reaches.items level start → IsReachFrom self.now.reaches.items level result }
    {
        for here in start..self.reaches.len() {
            if self.reaches[here] >= level {
                return here;
            }
        }
        self.reaches.len()
    }

    // The first store that has at least this level, where it likely stands at the hint or soon after.
    fn first_near(&self, level: u128, hint: usize) -> usize
        ensures { (deeds : List DeedValue) → IsTable deeds self.now → IsLevelFrom self.now.stores.items level result }
    {
        if self.are_lower(hint, level) {
            self.step_to(level, hint)
        } else {
            self.first_at(level)
        }
    }

    /// The first store in the order from this number on.
    pub(crate) fn first_from(&self, order: u128) -> usize
        ensures bound { result ≤ length self.now.stores.items }
        ensures from { (deeds : List DeedValue) → IsTable deeds self.now → IsFrom self.now.stores.items order result }
    {
        self.stores.partition_point(|store| store.order < order)
    }

    /// The store that stands here.
    pub(crate) fn at(&self, here: usize) -> Option<&Store>
        ensures { option_map (λ store. store.now) result ≡ slice_get self.now.stores.items here }
    {
        self.stores.get(here)
    }

    /// The store that stands before this one.
    pub(crate) fn before(&self, here: usize) -> Option<&Store>
        ensures { option_map (λ store. store.now) result ≡ before self.now.stores.items here }
    {
        if here == 0 { None } else { self.at(here - 1) }
    }

    // From when on the store here is known, if it is one in the cell.
    fn since_at(&self, here: usize, cell: &CellUse) -> Option<u32>
        ensures { result ≡ since_of cell.now (slice_get self.now.stores.items here) }
    {
        match self.stores.get(here) {
            None => None,
            Some(store) => if store.cell.is(cell) {
                store.since
            } else {
                None
            },
        }
    }

    // The first store in the order after this one, which stands here.
    fn next(&self, here: usize, store: &Store) -> usize
        ensures { (deeds : List DeedValue) → IsTable deeds self.now → slice_get self.now.stores.items here ≡ Some store.now
            → IsFrom self.now.stores.items (suc store.now.order) result }
    {
        for next in here..self.stores.len() {
            if self.stores[next].order > store.order {
                return next;
            }
        }
        self.stores.len()
    }

    /// From when on a later store of the process in the same cell is known than this one, which stands here.
    pub(crate) fn replaced(&self, here: usize, store: &Store) -> Option<u32>
        ensures { (deeds : List DeedValue) → IsTable deeds self.now → slice_get self.now.stores.items here ≡ Some store.now
            → result ≡ replaced store.now.cell (drop (suc store.now.place) deeds) }
    {
        self.since_at(self.next(here, store), &store.cell)
    }

    /// From when on some store in the cell is known at whose point one with this `since` was. The hint is where it was
    /// found last, and is then where it is found.
    pub(crate) fn overwritten(
        &self,
        cell: &CellUse,
        from: Option<u32>,
        hint: &mut usize,
    ) -> Option<u32>
        ensures { (deeds : List DeedValue) → IsTable deeds self.now → result ≡ overwritten cell.now from deeds }
    {
        match from {
            None => None,
            Some(from) => {
                *hint = self.first_near(level_of(cell, from), *hint);
                self.since_at(*hint, cell)
            }
        }
    }
}

/// The tables of the stores of process 0, 1, ..
pub(crate) fn tables_of(alloc: Global, parts: &[Sequence<Deed>]) -> Result<Vec<Table>, AllocError>
    ensures { IfOk result (λ tables. ArePartTables parts.now tables.items) }
{
    let mut tables = Vec::new(alloc);
    for part in parts {
        tables.push(Table::new(alloc, part.items())?)?;
    }
    Ok(tables)
}
