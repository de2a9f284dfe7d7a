//! Tables of descriptors, put together and read.

ghost use Rattle.std.specs.Prelude.{◌≡◌, ◌≤◌, ◌<◌, ◌↔◌, ◌+◌, ℕ, Bool, IsTrue, not, ◌&&◌, IfOk, MatchBool, length, slice_set, vec_len};
ghost use Rattle.mx_worlds.specs.Marking.{AllShow};
ghost use Rattle.mx_core.specs.Opening.{is_covered};
ghost use Rattle.mx_core.specs.Pages.{page_of};
ghost use Rattle.mx_core.specs.Put.{put};
ghost use Rattle.mx_core.specs.Lists.{Lists};
ghost use Rattle.mx_worlds.specs.Shows.{ShowsSeat};
ghost use Rattle.mx_worlds.specs.Tables.{desc_in, table_of, MayOpen, AreAdmissible, HasCover, opening_columns};
ghost use Rattle.mx_core.specs.declared.words.DescriptorWord.TheVariants.{Valid};
ghost use Rattle.mx_sdw.specs.Admissible.{IsAdmissible};
ghost use Rattle.mx_sdw.specs.Descriptors.{unknown_desc};

use crate::associative::AssociativeMemory;
use crate::covering::{admits, covers};
use crate::marking::soil_page;
use crate::seats::Seat;
use crate::tables::{DescList, Row};
use mx_core::{DescriptorWord, Stage};
use mx_sdw::Desc;
use std::alloc::{AllocError, Global};

impl Row {
    /// A row where each number is unknown.
    pub(crate) fn unknown(alloc: Global, numbers: u16) -> Result<Row, AllocError>
        ensures { IfOk result (λ row. (length row ≡ numbers) × ((n : ℕ) → desc_in row n ≡ unknown_desc)) }
    {
        let descs = vec![in alloc; Desc::unknown(); usize::from(numbers)]?;
        Ok(Row { descs })
    }

    pub(crate) fn put(&mut self, segno: u16, desc: Desc)
        requires { segno < length self.old }
        ensures { self.new ≡ slice_set self.old segno desc }
    {
        self.descs[usize::from(segno)] = desc;
    }

    /// Whether a table may hold each of its descriptors.
    fn is_admissible(&self) -> bool
        ensures { MatchBool result (AreAdmissible self.now) (AreAdmissible self.now → ⊥) }
    {
        for desc in &self.descs {
            if !admits(desc) {
                return false;
            }
        }
        true
    }

    /// Whether one of its descriptors covers a page.
    fn covers(&self, page: u32) -> bool
        ensures { MatchBool result (HasCover self.now page) (HasCover self.now page → ⊥) }
    {
        for desc in &self.descs {
            if covers(desc, page) {
                return true;
            }
        }
        false
    }
}

impl DescList {
    /// A table of these many processes, each with these many numbers, all of them unknown.
    pub fn new(alloc: Global, processes: u8, numbers: u16) -> Result<DescList, AllocError>
        ensures processes { IfOk result (λ list. list.processes ≡ processes) }
        ensures numbers { IfOk result (λ list. list.numbers ≡ numbers) }
        ensures unknown { IfOk result (λ list. (p n : ℕ) → table_of list p n ≡ unknown_desc) }
    {
        let mut rows = Vec::new(alloc);
        for _ in 0..processes {
            rows.push(Row::unknown(alloc, numbers)?)?;
        }
        Ok(DescList {
            rows,
            processes,
            numbers,
        })
    }

    /// How many processes it has.
    pub fn processes(&self) -> u8
        ensures { result ≡ self.now.processes }
    {
        self.processes
    }

    /// How many numbers each process has.
    pub fn numbers(&self) -> u16
        ensures { result ≡ self.now.numbers }
    {
        self.numbers
    }

    /// Gives a number of a process another descriptor.
    pub fn put(&mut self, process: u8, segno: u16, desc: Desc)
        requires low { 1 ≤ process }
        requires high { process ≤ self.old.processes }
        requires number { segno < self.old.numbers }
        ensures table { (p n : ℕ) → table_of self.new p n
            ≡ put (table_of self.old) process (put (table_of self.old process) segno desc) p n }
        ensures processes { self.new.processes ≡ self.old.processes }
        ensures numbers { self.new.numbers ≡ self.old.numbers }
    {
        self.rows[usize::from(process) - 1].put(segno, desc);
    }

    /// Whether a world of these many processes may open with the table, after so many entries: 1 to 15 processes, as
    /// many as the table has, at most 262,143 entries, and descriptors that an entry may put into a table.
    pub fn may_open(&self, processes: u8, start: u32) -> bool
        ensures { MatchBool result (MayOpen processes start self.now) (MayOpen processes start self.now → ⊥) }
    {
        if processes == 0 || processes > 15 || start > 262_143 {
            return false;
        }
        if processes != self.processes {
            return false;
        }
        self.is_admissible()
    }

    fn is_admissible(&self) -> bool
        ensures { MatchBool result ((p n : ℕ) → IsAdmissible (table_of self.now p n))
            (((p n : ℕ) → IsAdmissible (table_of self.now p n)) → ⊥) }
    {
        for row in &self.rows {
            if !row.is_admissible() {
                return false;
            }
        }
        true
    }

    /// Whether one of its descriptors covers a page.
    fn covers(&self, page: u32) -> bool
        ensures { result ≡ is_covered self.now.processes self.now.numbers (table_of self.now) page }
    {
        for row in &self.rows {
            if row.covers(page) {
                return true;
            }
        }
        false
    }

    /// Makes the cells of covered pages clean no longer.
    pub(crate) fn soil(&self, clean: &mut Vec<bool>)
        requires { vec_len clean.old ≡ 65536 }
        ensures shown { (f : ℕ → Bool) → Lists clean.old.items f → Lists clean.new.items
            (λ cell. f cell
            && not (is_covered self.now.processes self.now.numbers (table_of self.now) (page_of cell))) }
        ensures len { vec_len clean.new ≡ vec_len clean.old }
    {
        for page in 0..1024_u32 {
            if self.covers(page) {
                soil_page(clean, page);
            }
        }
    }

    /// A seat for the supervisor, and one for each process.
    pub(crate) fn seats(&self, alloc: Global, start: u32) -> Result<Vec<Seat>, AllocError>
        ensures { IfOk result (λ seats. (vec_len seats ≡ self.now.processes + 1)
            × AllShow self.now.numbers seats.items (λ p. opening_columns start (table_of self.now p))) }
    {
        let mut seats = Vec::new(alloc);
        let nobody = Row::unknown(alloc, self.numbers)?;
        seats.push(Seat::new(alloc, &nobody, self.numbers, start)?)?;
        for row in &self.rows {
            seats.push(Seat::new(alloc, row, self.numbers, start)?)?;
        }
        Ok(seats)
    }
}

impl Seat {
    /// A seat at the opening, with these descriptors.
    fn new(alloc: Global, row: &Row, numbers: u16, start: u32) -> Result<Seat, AllocError>
        requires { length row.now ≡ numbers }
        ensures { IfOk result (λ seat. ShowsSeat numbers seat (opening_columns start (desc_in row.now))) }
    {
        let words = words_of(alloc, &row.descs, start)?;
        Ok(Seat {
            floor: start,
            stage: Stage::Outside,
            turn: 0,
            flag: 0,
            connect: start,
            cleared: start,
            look: 0,
            acknowledged: false,
            basis: None,
            hold: None,
            memory: AssociativeMemory::new(alloc),
            words,
            before: Vec::from_slice(alloc, &row.descs)?,
            present: Vec::from_slice(alloc, &row.descs)?,
            reported: 0,
            trace: Vec::new(alloc),
            numbers,
        })
    }
}

/// The words of a row at the opening: each descriptor stands since then.
fn words_of(alloc: Global, row: &[Desc], start: u32) -> Result<Vec<DescriptorWord>, AllocError>
    ensures { IfOk result (λ words. (vec_len words ≡ length row.now)
        × Lists words.items (λ n. Valid start (desc_in row.now n))) }
{
    let mut words = Vec::with_capacity(alloc, row.len())?;
    for desc in row {
        words.extend_from_slice(&[DescriptorWord::Valid {
            number: start,
            desc: *desc,
        }])?;
    }
    Ok(words)
}
