//! From when on any store in a cell is known: found once for each cell that was stored in.

ghost use Rattle.std.specs.Prelude.{◌≡◌, ℕ, suc, length, slice_get, IfOk, Option, Some};
ghost use Rattle.mx_reads.specs.Deeds.{Deeds};
ghost use Rattle.mx_stores.specs.Groups.{AreFirsts};
ghost use Rattle.mx_stores.specs.Tables.{AreTables, IsTable};

use crate::cells::Cells;
use crate::deeds::CellUse;
use crate::numbers::least;
use crate::stores::Table;
use std::alloc::{AllocError, Global};

// Brings in the stores of one process more. Along the cells the levels that are sought rise, so each search begins where
// the one before ended.
fn bring_first(cells: &Cells, other: &Table, firsts: &mut [Option<u32>])
    ensures { (done : Deeds) (u : ℕ) → IsTable (done u) other.now → AreFirsts done u cells.now.numbers.items firsts.old
        → AreFirsts done (suc u) cells.now.numbers.items firsts.new }
{
    let mut hint = 0;
    for here in 0..firsts.len() {
        let Some(number) = cells.at(here) else {
            return;
        };
        let cell = CellUse::of_number(number);
        firsts[here] = least(other.overwritten(&cell, Some(0), &mut hint), firsts[here]);
    }
}

/// From when on any store in each of the cells is known, by the tables of all processes.
pub(crate) fn firsts_of(
    alloc: Global,
    cells: &Cells,
    tables: &[Table],
) -> Result<Vec<Option<u32>>, AllocError>
    ensures { IfOk result (λ firsts. (done : Deeds) → AreTables done tables.now
        → AreFirsts done (length tables.now) cells.now.numbers.items firsts.items) }
{
    let mut firsts = vec![in alloc; None; cells.numbers.len()]?;
    for other in 0..tables.len() {
        bring_first(cells, &tables[other], firsts.as_mut_slice());
    }
    Ok(firsts)
}

/// From when on any store in the cell at this place among those that were stored in is known.
pub(crate) fn first_at(firsts: &[Option<u32>], here: usize) -> Option<u32>
    ensures { (first : Option ℕ) → slice_get firsts.now here ≡ Some first → result ≡ first }
{
    match firsts.get(here) {
        None => None,
        Some(first) => *first,
    }
}
