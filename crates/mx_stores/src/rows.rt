//! All stores of a run as rows, made once for the reads of all processes.

ghost use Rattle.std.specs.Prelude.{◌≡◌, IfOk};
ghost use Rattle.mx_reads.specs.Deeds.{Deeds};
ghost use Rattle.mx_stores.specs.Ends.{AreEnds};
ghost use Rattle.mx_stores.specs.Rows.{ArePartRows, AreRows};
ghost use Rattle.mx_stores.specs.Tables.{AreTables};

use crate::cells::Cells;
use crate::deeds::Deed;
use crate::ends::{Ends, ends_beside, ends_of};
use crate::firsts::firsts_of;
use crate::groups::{Groups, cells_of, groups_of};
use crate::stores::{Table, tables_of};
use mx_list::Sequence;
use std::alloc::{AllocError, Global};
use std::thread::Threads;

/// All stores.
#[derive(Debug, Drop)]
pub(crate) struct Rows {
    /// Of each process, in order.
    pub(crate) tables: Vec<Table>,
    /// From when on each is superseded.
    pub(crate) ends: Vec<Ends>,
    /// Of each process by cells.
    pub(crate) groups: Vec<Groups>,
    /// The cells of all.
    pub(crate) cells: Cells,
    /// From when on any store in each of these is known.
    pub(crate) firsts: Vec<Option<u32>>,
}

impl Rows {
    // Those in these tables, where it is known from when on each is superseded.
    fn with_ends(alloc: Global, tables: Vec<Table>, ends: Vec<Ends>) -> Result<Rows, AllocError>
        ensures tables { IfOk result (λ rows. rows.tables.items ≡ tables.items) }
        ensures rows { IfOk result (λ rows. (done : Deeds) → AreTables done tables.items → AreEnds done tables.items ends.items
            → AreRows done rows) }
    {
        let groups = groups_of(alloc, tables.as_slice())?;
        let cells = cells_of(alloc, groups.as_slice())?;
        let firsts = firsts_of(alloc, &cells, tables.as_slice())?;
        Ok(Rows {
            tables,
            ends,
            groups,
            cells,
            firsts,
        })
    }

    /// The stores of process 0, 1, .., which did what the parts say.
    pub(crate) fn new(alloc: Global, parts: &[Sequence<Deed>]) -> Result<Rows, AllocError>
        ensures { IfOk result (λ rows. ArePartRows parts.now rows) }
    {
        let tables = tables_of(alloc, parts)?;
        let ends = ends_of(alloc, tables.as_slice())?;
        Rows::with_ends(alloc, tables, ends)
    }

    /// The same, where the tables are looked at beside one another.
    pub(crate) fn beside<R: Threads + Sync>(
        rt: &R,
        alloc: Global,
        parts: &[Sequence<Deed>],
    ) -> Result<Rows, AllocError>
        ensures { IfOk result (λ rows. ArePartRows parts.now rows) }
    {
        let tables = tables_of(alloc, parts)?;
        let ends = ends_beside(rt, alloc, tables.as_slice())?;
        Rows::with_ends(alloc, tables, ends)
    }
}
