//! What a process has sighted of each cell so far.

ghost use Rattle.std.specs.Prelude.{◌≡◌, ◌+◌, ◌<◌, ℕ, suc, length, max, slice_get, slice_set, IfOk, List, Some};
ghost use Rattle.mx_reads.specs.Deeds.{Deeds, CellUse as CellUseValue};
ghost use Rattle.mx_reads.specs.Sightings.{Source};
ghost use Rattle.mx_stores.specs.Cells.{AreRising};
ghost use Rattle.mx_stores.specs.Groups.{AreGroups, IsGroups};
ghost use Rattle.mx_stores.specs.Sighted.{floor, latest, Sighted as SightedValue};
ghost use Rattle.mx_stores.specs.SightedTables.{AreCursors, AreSightings, IsLatestKept, IsSightedHere};
ghost use Rattle.mx_stores.specs.Tables.{IsFrom, number_of, order_of};
ghost use Rattle.mx_stores.specs.declared.groups.Groups.{Groups as GroupsValue};
ghost use Rattle.mx_stores.specs.declared.sightings.Cursors.{Cursors as CursorsValue};
ghost use Rattle.mx_stores.specs.declared.stores.Table.{Table as TableValue};

use crate::groups::Groups;
use std::alloc::{AllocError, Global};

/// The latest sighting of a cell.
#[derive(Clone, Copy, Debug)]
pub(crate) struct Latest {
    /// Whose store it is.
    pub(crate) storer: usize,
    /// Where that stands in the storer's table; 0 where it is the process's own.
    pub(crate) at: usize,
}

/// For each group of a table, where those of its stores begin that come after all that were sighted.
#[derive(Debug, Drop)]
pub(crate) struct Cursors {
    at: Vec<usize>,
}

impl Cursors {
    // Where none is sighted yet.
    fn new(groups: &Groups) -> Result<Cursors, AllocError>
        ensures { IfOk result (λ cursors. cursors.at.items ≡ groups.now.begins.items) }
    {
        let at = groups.begins.clone()?;
        Ok(Cursors { at })
    }

    // Of the group.
    fn of(&self, group: usize) -> usize
        ensures { (at : ℕ) → slice_get self.now.at.items group ≡ Some at → result ≡ at }
    {
        match self.at.get(group) {
            None => 0,
            Some(at) => *at,
        }
    }

    // The store that stands here, in the group, is sighted.
    fn pass(&mut self, group: usize, at: usize)
        ensures { at < 18446744073709551615 → (old : ℕ) → slice_get self.old.at.items group ≡ Some old
            → self.new.at.items ≡ slice_set self.old.at.items group (max (at + 1) old) }
    {
        if group < self.at.len() {
            self.at[group] = at.saturating_add(1).max(self.at[group]);
        }
    }
}

// For each process, where none is sighted yet.
fn cursors_of(alloc: Global, groups: &[Groups]) -> Result<Vec<Cursors>, AllocError>
    ensures long { IfOk result (λ cursors. length cursors.items ≡ length groups.now) }
    ensures each { IfOk result (λ cursors. (done : Deeds) (source : Source) (p u : ℕ) (table : TableValue) (own : GroupsValue) → IsGroups table.stores.items own
        → slice_get groups.now u ≡ Some own → (c : CursorsValue) → slice_get cursors.items u ≡ Some c → AreCursors done source p 0 u table own c) }
{
    let mut cursors = Vec::new(alloc);
    for storer in 0..groups.len() {
        cursors.push(Cursors::new(&groups[storer])?)?;
    }
    Ok(cursors)
}

/// What a process has sighted of each cell.
#[derive(Debug, Drop)]
pub(crate) struct Sightings {
    // Of each cell that was stored in the latest.
    latest: Vec<Option<Latest>>,
    // For each process.
    cursors: Vec<Cursors>,
}

impl Sightings {
    /// None yet, of so many cells.
    ///
    /// # Errors
    ///
    /// Want of memory.
    pub(crate) fn new(
        alloc: Global,
        count: usize,
        groups: &[Groups],
    ) -> Result<Sightings, AllocError>
        ensures { IfOk result (λ sightings. (done : Deeds) (source : Source) (tables : List TableValue) (numbers : List ℕ) (p : ℕ) → AreGroups tables groups.now
            → length numbers ≡ count → AreSightings done source tables groups.now numbers p 0 sightings) }
    {
        let latest = vec![in alloc; None; count]?;
        let cursors = cursors_of(alloc, groups)?;
        Ok(Sightings { latest, cursors })
    }

    /// The latest of the cell at this place among those that were stored in.
    pub(crate) fn latest(&self, index: usize) -> Option<Latest>
        ensures { (done : Deeds) (source : Source) (tables : List TableValue) (groups : List GroupsValue) (numbers : List ℕ) (p here : ℕ) (cell : CellUseValue)
            → AreSightings done source tables groups numbers p here self.now → cell.since < 4294967296 → slice_get numbers index ≡ Some (number_of cell)
            → IsLatestKept tables p cell (latest done source p cell here) result }
    {
        match self.latest.get(index) {
            None => None,
            Some(latest) => *latest,
        }
    }

    /// Where the stores of another process in the cell, which stand in this group, begin in its table that are beyond what
    /// was sighted.
    pub(crate) fn start(&self, index: usize, storer: usize, group: usize) -> usize
        ensures { (done : Deeds) (source : Source) (tables : List TableValue) (groups : List GroupsValue) (numbers : List ℕ) (p here : ℕ) (cell : CellUseValue) (table : TableValue) (own : GroupsValue)
            → AreSightings done source tables groups numbers p here self.now → cell.since < 4294967296 → slice_get numbers index ≡ Some (number_of cell)
            → (storer ≡ p → ⊥) → slice_get tables storer ≡ Some table → slice_get groups storer ≡ Some own → slice_get own.cells.numbers.items group ≡ Some (number_of cell)
            → IsFrom table.stores.items (order_of cell (floor done source p cell storer here)) result }
    {
        if let Some(latest) = self.latest(index) {
            if latest.storer == storer {
                return latest.at;
            }
        }
        self.cursor(storer, group)
    }

    // Where the stores of the process in this group begin that come after all that were sighted.
    fn cursor(&self, storer: usize, group: usize) -> usize
        ensures { (c : CursorsValue) (at : ℕ) → slice_get self.now.cursors.items storer ≡ Some c → slice_get c.at.items group ≡ Some at → result ≡ at }
    {
        match self.cursors.get(storer) {
            None => 0,
            Some(cursors) => cursors.of(group),
        }
    }

    // Keeps the latest sighting of a cell.
    fn keep(&mut self, index: usize, latest: Latest)
        ensures latest { index < length self.old.latest.items → self.new.latest.items ≡ slice_set self.old.latest.items index (Some latest) }
        ensures cursors { self.new.cursors.items ≡ self.old.cursors.items }
    {
        if index < self.latest.len() {
            self.latest[index] = Some(latest);
        }
    }

    // A store of another process, which stands here in its table and in this group, is sighted.
    fn pass(&mut self, storer: usize, group: usize, at: usize)
        ensures latest { self.new.latest.items ≡ self.old.latest.items }
        ensures cursors { at < 18446744073709551615 → (c : CursorsValue) (old : ℕ) → slice_get self.old.cursors.items storer ≡ Some c → slice_get c.at.items group ≡ Some old
            → (new : CursorsValue) × ((self.new.cursors.items ≡ slice_set self.old.cursors.items storer new) × (new.at.items ≡ slice_set c.at.items group (max (at + 1) old))) }
    {
        if storer < self.cursors.len() {
            self.cursors[storer].pass(group, at);
        }
    }

    /// One sighting of an own store more.
    pub(crate) fn sight_own(&mut self, index: usize, storer: usize)
        ensures { (done : Deeds) (source : Source) (tables : List TableValue) (groups : List GroupsValue) (numbers : List ℕ) (p here place : ℕ) (cell : CellUseValue)
            → AreRising numbers → AreSightings done source tables groups numbers p here self.old → cell.since < 4294967296 → slice_get numbers index ≡ Some (number_of cell)
            → storer ≡ p → IsSightedHere done source p here cell (record { storer = storer; store = place })
            → AreSightings done source tables groups numbers p (suc here) self.new }
    {
        self.keep(index, Latest { storer, at: 0 });
    }

    /// One sighting more of a store of another process, which stands here in its table and in this group.
    pub(crate) fn sight(&mut self, index: usize, storer: usize, group: usize, at: usize)
        ensures { (done : Deeds) (source : Source) (tables : List TableValue) (groups : List GroupsValue) (numbers : List ℕ) (p here place : ℕ) (cell : CellUseValue) (table : TableValue) (own : GroupsValue)
            → AreRising numbers → AreGroups tables groups → AreSightings done source tables groups numbers p here self.old → cell.since < 4294967296 → slice_get numbers index ≡ Some (number_of cell)
            → (storer ≡ p → ⊥) → slice_get tables storer ≡ Some table → slice_get groups storer ≡ Some own → slice_get own.cells.numbers.items group ≡ Some (number_of cell)
            → at < 18446744073709551615 → IsFrom table.stores.items (order_of cell place) at → IsFrom table.stores.items (order_of cell (suc place)) (suc at)
            → IsSightedHere done source p here cell (record { storer = storer; store = place })
            → AreSightings done source tables groups numbers p (suc here) self.new }
    {
        self.keep(index, Latest { storer, at });
        self.pass(storer, group, at);
    }
}
