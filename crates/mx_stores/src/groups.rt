//! The stores of each process by groups of one cell: where in its table those in each cell begin. And the cells that any
//! process stored in.

ghost use Rattle.std.specs.Prelude.{◌≡◌, ◌<◌, ℕ, IfOk, List, MatchOption, Some, slice_get};
ghost use Rattle.std.specs.Bool.{MatchBool};
ghost use Rattle.std.specs.List.{Contains};
ghost use Rattle.mx_reads.specs.Deeds.{Deed as DeedValue, Deeds};
ghost use Rattle.mx_stores.specs.Cells.{AreRising, IsAbsent, IsPresent};
ghost use Rattle.mx_stores.specs.Groups.{AreGroups, IsGroups};
ghost use Rattle.mx_stores.specs.Tables.{AreTables, IsTable, number_of};
ghost use Rattle.mx_stores.specs.declared.groups.Groups.{Groups as GroupsValue};

use crate::cells::Cells;
use crate::deeds::CellUse;
use crate::stores::Table;
use std::alloc::{AllocError, Global};

// Whether the number is the last one.
fn is_last(last: Option<u64>, number: u64) -> bool
    ensures { MatchBool result (last ≡ Some number) (last ≡ Some number → ⊥) }
{
    match last {
        None => false,
        Some(last) => last == number,
    }
}

/// Where the stores in each cell begin in the table of a process.
#[derive(Debug, Drop)]
pub(crate) struct Groups {
    /// The cells that the process stored in.
    pub(crate) cells: Cells,
    /// Where the stores in each begin.
    pub(crate) begins: Vec<usize>,
}

impl Groups {
    /// The groups of the stores in this table.
    pub(crate) fn new(alloc: Global, table: &Table) -> Result<Groups, AllocError>
        ensures { IfOk result (λ groups. (deeds : List DeedValue) → IsTable deeds table.now → IsGroups table.now.stores.items groups) }
    {
        let mut numbers = Vec::new(alloc);
        let mut begins = Vec::new(alloc);
        let mut last = None;
        for here in 0..table.stores.len() {
            let number = table.stores[here].cell.number();
            if !is_last(last, number) {
                numbers.push(number)?;
                begins.push(here)?;
                last = Some(number);
            }
        }
        let cells = Cells::new(alloc, numbers)?;
        Ok(Groups { cells, begins })
    }

    /// The group of the stores in the cell, if there are any.
    pub(crate) fn find(&self, cell: &CellUse) -> Option<usize>
        ensures fits { cell.now.since < 4294967296 }
        ensures found { AreRising self.now.cells.numbers.items → MatchOption result (IsAbsent self.now.cells.numbers.items (number_of cell.now)) (λ group. slice_get self.now.cells.numbers.items group ≡ Some (number_of cell.now)) }
    {
        self.cells.find(cell.number())
    }
}

/// The groups of the tables of process 0, 1, ..
pub(crate) fn groups_of(alloc: Global, tables: &[Table]) -> Result<Vec<Groups>, AllocError>
    ensures { IfOk result (λ groups. (done : Deeds) → AreTables done tables.now → AreGroups tables.now groups.items) }
{
    let mut groups = Vec::new(alloc);
    for storer in 0..tables.len() {
        groups.push(Groups::new(alloc, &tables[storer])?)?;
    }
    Ok(groups)
}

// The numbers of the cells of all processes, in any order.
fn all_numbers(alloc: Global, groups: &[Groups]) -> Result<Vec<u64>, AllocError>
    ensures { IfOk result (λ numbers. (u k number : ℕ) (own : GroupsValue) → slice_get groups.now u ≡ Some own
        → slice_get own.cells.numbers.items k ≡ Some number → Contains numbers.items number) }
{
    let mut numbers = Vec::new(alloc);
    for storer in 0..groups.len() {
        numbers.extend_from_slice(groups[storer].cells.numbers.as_slice())?;
    }
    Ok(numbers)
}

/// The cells that any process stored in.
pub(crate) fn cells_of(alloc: Global, groups: &[Groups]) -> Result<Cells, AllocError>
    ensures rising { IfOk result (λ cells. AreRising cells.numbers.items) }
    ensures whole { IfOk result (λ cells. (u k number : ℕ) (own : GroupsValue) → slice_get groups.now u ≡ Some own
        → slice_get own.cells.numbers.items k ≡ Some number → IsPresent cells.numbers.items number) }
{
    let mut all = all_numbers(alloc, groups)?;
    all.sort_unstable();
    all.dedup();
    let cells = Cells::new(alloc, all)?;
    Ok(cells)
}
