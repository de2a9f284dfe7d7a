//! The reads of all processes, decided in order: the first deed at which the read rule fails.

ghost use Rattle.std.specs.Prelude.{◌≡◌, ◌↔◌, length, IfOk, IsSome, IsTrue, MatchOption};
ghost use Rattle.mx_reads.specs.Deeds.{Deeds};
ghost use Rattle.mx_reads.specs.ReadRule.{AreRightReads};
ghost use Rattle.mx_stores.specs.Breach.{IsBreach};
ghost use Rattle.mx_stores.specs.Deciding.{IsWrong, choices};
ghost use Rattle.mx_stores.specs.Known.{IsKnown};
ghost use Rattle.mx_stores.specs.Parts.{deeds_of};
ghost use Rattle.mx_stores.specs.Rows.{AreRows};
ghost use Rattle.mx_stores.specs.StoreLaws.{AreBelow};

use crate::deeds::Deed;
use crate::numbers::part_of;
use crate::reader::Reader;
use crate::rows::Rows;
use mx_list::Sequence;
use std::alloc::{AllocError, Global};
use std::marker::Model;
use std::thread::Threads;

// The first place at which a read of process `p` is wrong, if any is, where its deeds are these.
fn first_wrong(
    alloc: Global,
    rows: &Rows,
    deeds: &[Deed],
    p: usize,
) -> Result<Option<usize>, AllocError>
    ensures { IfOk result (λ found. (done : Deeds) → AreRows done rows.now → AreBelow (length rows.now.tables.items) done → done p ≡ deeds.now
        → MatchOption found (IsSome (choices done (length rows.now.tables.items) p (length deeds.now))) (IsWrong done (length rows.now.tables.items) p)) }
{
    let mut reader = Reader::new(alloc, rows, p)?;
    for here in 0..deeds.len() {
        if !reader.take(rows, here, &deeds[here]) {
            return Ok(Some(here));
        }
    }
    Ok(None)
}

/// The stores of all processes, made once for the reads of each: then the reads of one are decided apart from those of the
/// others.
#[derive(Debug, Drop)]
pub struct Stores<'a> {
    parts: &'a [Sequence<Deed>],
    rows: Rows,
}

impl<'a> Model for Stores<'a> {
    ghost use Rattle.std.specs.Prelude.{List};
    ghost use Rattle.mx_reads.specs.Deeds.{Deed as DeedValue};
    ghost use Rattle.mx_stores.specs.Rows.{ArePartRows};

    ghost Value = { List (List DeedValue) };

    ghost view = { λ a. a.parts.now };

    ghost invariant = { λ a. ArePartRows a.parts.now a.rows };
}

impl<'a> Stores<'a> {
    /// The stores of process 0, 1, .., which did what the parts say, each in this order.
    ///
    /// # Errors
    ///
    /// Want of memory.
    pub fn new(alloc: Global, parts: &'a [Sequence<Deed>]) -> Result<Stores<'a>, AllocError>
        ensures { IfOk result (λ stores. stores ≡ parts.now) }
    {
        let rows = Rows::new(alloc, parts)?;
        Ok(Stores { parts, rows })
    }

    /// The same, made in threads where they can be had, at most sixteen.
    ///
    /// # Errors
    ///
    /// Want of memory.
    pub fn beside<R: Threads + Sync>(
        rt: &R,
        alloc: Global,
        parts: &'a [Sequence<Deed>],
    ) -> Result<Stores<'a>, AllocError>
        ensures { IfOk result (λ stores. stores ≡ parts.now) }
    {
        let rows = Rows::beside(rt, alloc, parts)?;
        Ok(Stores { parts, rows })
    }

    /// The first place at which a read of process `p` is wrong, if any is.
    ///
    /// # Errors
    ///
    /// Want of memory.
    pub fn first_wrong(&self, alloc: Global, p: usize) -> Result<Option<usize>, AllocError>
        ensures { IfOk result (λ found. MatchOption found (IsSome (choices (deeds_of self.now) (length self.now) p (length (deeds_of self.now p)))) (IsWrong (deeds_of self.now) (length self.now) p)) }
    {
        first_wrong(alloc, &self.rows, part_of(self.parts, p), p)
    }
}

/// The first deed at which the read rule fails.
#[derive(Clone, Copy, Debug, PartialEq, Eq)]
pub struct Breach {
    /// Whose deed it is: all reads of the processes before are right.
    pub process: usize,
    /// At which place of the process's deeds it stands, from 0.
    pub place: usize,
}

/// The first deed at which the read rule fails, where process 0, 1, .. did what the parts say, each in this order, and a
/// store is known by the entries of its process after it. None where each read of each process is right.
///
/// # Errors
///
/// Want of memory.
pub fn first_breach(alloc: Global, parts: &[Sequence<Deed>]) -> Result<Option<Breach>, AllocError>
    ensures { IfOk result (λ found. MatchOption found (AreRightReads (deeds_of parts.now) (IsKnown (deeds_of parts.now))) (λ breach. IsBreach (deeds_of parts.now) breach.process breach.place)) }
{
    let stores = Stores::new(alloc, parts)?;
    for p in 0..parts.len() {
        if let Some(place) = stores.first_wrong(alloc, p)? {
            return Ok(Some(Breach { process: p, place }));
        }
    }
    Ok(None)
}

/// Whether each read of each process is right, where process 0, 1, .. did what the parts say, each in this order, and a
/// store is known by the entries of its process after it.
///
/// # Errors
///
/// Want of memory.
pub fn are_reads_right(alloc: Global, parts: &[Sequence<Deed>]) -> Result<bool, AllocError>
    ensures { IfOk result (λ right. IsTrue right ↔ AreRightReads (deeds_of parts.now) (IsKnown (deeds_of parts.now))) }
{
    Ok(first_breach(alloc, parts)?.is_none())
}
