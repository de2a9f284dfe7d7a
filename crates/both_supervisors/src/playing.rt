//! A journal, played before both programs side by side.

ghost use Rattle.std.specs.Prelude.{◌≤◌, length};

use crate::entries::{Told, entry_in, entry_lines};
use crate::played::Played;
use mx_fresh::{Answered, Fresh, PlainSupervisor};
use mx_request::{Entrant, Reply, Request, last_number};
use mx_state::State;
use std::alloc::{AllocError, Global};

/// What comes of the journal of a run text.
#[derive(Clone, Copy, Debug, PartialEq, Eq)]
pub enum Came {
    /// The text begins with no journal.
    NoJournal,
    /// Each entry is as told, and the same in both.
    AsTold,
    /// The entry of this number, counted from 1, is the first that is not.
    Otherwise(usize),
}

/// Plays the journal with which a run text begins before both programs, in a session of this version with these processes.
/// An entry is not as told where its line is none, or its request is spelled as none, or its process may not make it; where
/// a program replies otherwise; or where afterwards the runs of pages that were given out and freed, or the descriptors of
/// any number of any process, up to one beyond the last number, are not the same in both.
pub fn play(
    alloc: Global,
    version: u8,
    entrants: &[Entrant],
    run: &[u8],
) -> Result<Came, AllocError>
    requires some { 1 ≤ length entrants.now }
    requires most { length entrants.now ≤ 15 }
{
    let lines = run
        .split(|byte| *byte == b'\n')
        .collect::<Vec<&[u8]>>(alloc)?;
    match entry_lines(&lines) {
        Some(lines) => play_lines(alloc, version, entrants, lines),
        None => Ok(Came::NoJournal),
    }
}

// Plays the entries on these lines.
fn play_lines(
    alloc: Global,
    version: u8,
    entrants: &[Entrant],
    lines: &[&[u8]],
) -> Result<Came, AllocError>
    requires some { 1 ≤ length entrants.now }
    requires most { length entrants.now ≤ 15 }
{
    let mut first = Played::<State>::open(alloc, version, entrants)?;
    let mut second = Played::<Fresh>::open(alloc, version, entrants)?;
    let beyond = last_number(version).saturating_add(1);
    let mut place = 0_usize;
    for line in lines {
        place = place.saturating_add(1);
        let is_told = line_as_told(alloc, &mut first, &mut second, line)?;
        if !is_told || !share_descriptors(&first, &second, beyond) {
            return Ok(Came::Otherwise(place));
        }
    }
    Ok(Came::AsTold)
}

// Whether both answer the request of the entry on a line as told, and alike.
fn line_as_told<S: PlainSupervisor, T: PlainSupervisor>(
    alloc: Global,
    first: &mut Played<S>,
    second: &mut Played<T>,
    line: &[u8],
) -> Result<bool, AllocError> {
    match entry_in(line) {
        Some(entry) => reply_as_told(alloc, first, second, &entry),
        None => Ok(false),
    }
}

// Whether both answer an entry's request as told, and alike.
fn reply_as_told<S: PlainSupervisor, T: PlainSupervisor>(
    alloc: Global,
    first: &mut Played<S>,
    second: &mut Played<T>,
    entry: &Told<'_>,
) -> Result<bool, AllocError> {
    let Some(request) = Request::read(alloc, entry.request)? else {
        return Ok(false);
    };
    let one = first.ask(alloc, entry.process, entry.ring, &request)?;
    let other = second.ask(alloc, entry.process, entry.ring, &request)?;
    match (one, other) {
        (Some(one), Some(other)) => Ok(
            is_reply(alloc, &one.reply, entry.reply)?
                && is_reply(alloc, &other.reply, entry.reply)?
                && share_runs(&one, &other),
        ),
        _ => Ok(false),
    }
}

// Whether a reply has this text.
fn is_reply(alloc: Global, reply: &Reply, text: &[u8]) -> Result<bool, AllocError> {
    let mut spelled = Vec::new(alloc);
    reply.append_to(&mut spelled)?;
    Ok(spelled.as_slice() == text)
}

// Whether the same runs of pages were given out and freed.
fn share_runs(one: &Answered, other: &Answered) -> bool {
    one.given == other.given && one.freed == other.freed
}

// Whether all processes have the same descriptors of all numbers up to this one.
fn share_descriptors<S: PlainSupervisor, T: PlainSupervisor>(
    first: &Played<S>,
    second: &Played<T>,
    beyond: u16,
) -> bool {
    for p in 1..first.processes().saturating_add(1) {
        for segno in 0..beyond.saturating_add(1) {
            if first.descriptor(p, segno) != second.descriptor(p, segno) {
                return false;
            }
        }
    }
    true
}
