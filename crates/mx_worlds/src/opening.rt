//! A running world as it opens, and its readers.

ghost use Rattle.std.specs.Prelude.{◌≡◌, ◌≤◌, ◌<◌, ℕ, IfOk};
ghost use Rattle.mx_core.specs.Loading.{found};
ghost use Rattle.mx_core.specs.Opening.{opening};
ghost use Rattle.mx_worlds.specs.Shows.{Shows};
ghost use Rattle.mx_worlds.specs.Tables.{table_of, MayOpen};
ghost use Rattle.mx_core.specs.World.{World as WorldValue};

use crate::seats::Trace;
use crate::tables::DescList;
use crate::worlds::World;
use mx_core::{DescriptorWord, Held};
use mx_sdw::Word;
use std::alloc::{AllocError, Global};

impl World {
    /// A world that has just opened, after so many entries: nothing is pending, each word says what the table has and
    /// stands since then, all cells are zero, and every process is outside. `DescList::may_open` tests the condition.
    pub fn new(
        alloc: Global,
        processes: u8,
        start: u32,
        table: &DescList,
    ) -> Result<World, AllocError>
        requires { MayOpen processes start table.now }
        ensures { IfOk result (λ world. Shows world (opening processes table.now.numbers start (table_of table.now))) }
    {
        let seats = table.seats(alloc, start)?;
        let zero = Held {
            value: Word::zero(),
            writer: 0,
            stamp: 0,
        };
        let cells = vec![in alloc; zero; 65_536]?;
        let mut clean = vec![in alloc; true; 65_536]?;
        table.soil(&mut clean);
        let ready = vec![in alloc; true; 1024]?;
        Ok(World {
            numbers: table.numbers,
            start,
            answered: start,
            count: start,
            seats,
            cells,
            clean,
            ready,
            notes: Vec::new(alloc),
            processes,
            alloc,
        })
    }

    /// How many processes it has, numbered from 1.
    pub fn processes(&self) -> u8
        ensures shown { (w : WorldValue) → Shows self.now w → result ≡ w.processes }
        ensures is { result ≡ self.now.processes }
    {
        self.processes
    }

    /// How many entries are answered.
    pub fn answered(&self) -> u32
        ensures { (w : WorldValue) → Shows self.now w → result ≡ w.answered }
    {
        self.answered
    }

    /// How many entries the journal has; one more than are answered while one is pending.
    pub fn length(&self) -> u32
        ensures { (w : WorldValue) → Shows self.now w → result ≡ w.length }
    {
        self.count
    }

    /// Of how many entries a process was told.
    pub fn floor(&self, process: u8) -> u32
        requires low { 1 ≤ process }
        requires high { process ≤ self.now.processes }
        ensures { (w : WorldValue) → Shows self.now w → result ≡ (w.process process).floor }
    {
        self.seats[usize::from(process)].floor
    }

    /// What a process did.
    pub fn trace(&self, process: u8) -> &Trace
        requires low { 1 ≤ process }
        requires high { process ≤ self.now.processes }
        ensures { (w : WorldValue) → Shows self.now w → result.now.items ≡ w.trace process }
    {
        &self.seats[usize::from(process)].trace
    }

    /// The descriptor word of a number of a process; beyond the table's numbers every descriptor is unknown.
    pub fn word(&self, process: u8, segno: u16) -> DescriptorWord
        requires low { 1 ≤ process }
        requires high { process ≤ self.now.processes }
        ensures { (w : WorldValue) → Shows self.now w → result ≡ found w process segno }
    {
        self.seats[usize::from(process)].found(segno, self.start)
    }

    /// What a cell holds.
    pub fn cell(&self, cell: u32) -> Held
        requires { cell < 65536 }
        ensures { (w : WorldValue) → Shows self.now w → result ≡ w.cell cell }
    {
        self.cells[cell as usize]
    }
}
