//! Sessions of several processes that are run again and again.

use crate::outcome::{Outcome, run_and_compare, run_beside};
use std::alloc::{AllocError, Global};
use std::sync::Wait;
use std::thread::{self, Threads};

/// How many rows of runs are made side by side.
const BESIDE: usize = 4;

/// How many runs a row has.
const ROW: usize = 25;

/// How much of each run is compared.
#[derive(Clone, Copy, Debug, PartialEq, Eq)]
pub enum Compared {
    /// All of it.
    Whole,
    /// What it shares with the other runs.
    Outline,
}

/// Whether a session has several processes.
pub fn has_several_processes(session: &[u8]) -> bool {
    let lines = session.split(|byte| *byte == b'\n');
    lines
        .filter(|line| line.starts_with(b"process "))
        .nth(1)
        .is_some()
}

/// Runs the session of this text in four rows of 25 runs side by side, so that the processors are busy, and compares each run
/// with the stored one.
pub fn repeat<R: Threads + Wait + Sync>(
    rt: &R,
    alloc: Global,
    session: &[u8],
    stored: &[u8],
    compared: Compared,
) -> Result<Outcome, AllocError> {
    let rows = thread::map_indices(
        rt,
        alloc,
        BESIDE,
        &|_row| { run_row(rt, alloc, session, stored, compared) },
    )?;
    for row in rows {
        let outcome = row?;
        if outcome != Outcome::AsStored {
            return Ok(outcome);
        }
    }
    Ok(Outcome::AsStored)
}

// A row of runs, one after another, until one is not as stored.
fn run_row<R: Threads + Wait + Sync>(
    rt: &R,
    alloc: Global,
    session: &[u8],
    stored: &[u8],
    compared: Compared,
) -> Result<Outcome, AllocError> {
    for _run in 0..ROW {
        let outcome = match compared {
            Compared::Whole => run_and_compare(rt, alloc, session, stored)?,
            Compared::Outline => run_beside(rt, alloc, session, stored)?,
        };
        if outcome != Outcome::AsStored {
            return Ok(outcome);
        }
    }
    Ok(Outcome::AsStored)
}
