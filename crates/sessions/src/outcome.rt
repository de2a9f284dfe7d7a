//! What comes of a session beside what is stored for it.

ghost use Rattle.std.specs.Prelude.{◌≡◌, ◌≢◌, ◌≤◌, ◌↔◌, ℕ, List, All, IfOk};
ghost use Rattle.session_files.specs.Runs.{IsRunOf, IsOtherStatus, IsSummaryOf};
ghost use Rattle.sessions.specs.Differences.{differing_line};

use crate::comparison::first_difference;
use crate::outlines::share_outline;
use crate::showing::shown;
use session_files::{Ended, drill_once, run_in_order, run_once};
use std::alloc::{AllocError, Global};
use std::fmt::{self, Display, Formatter, Write};
use std::sync::Wait;
use std::thread::Threads;

/// The most bytes of a run that are kept. A session whose run is longer ends with the status of a sink that failed.
const ROOM: usize = 1_048_576;

/// The most bytes of a run of several processes that are kept.
const ROOM_BESIDE: usize = 65_536;

/// What came of one comparison.
#[derive(Clone, Copy, Debug, PartialEq, Eq)]
pub enum Outcome {
    /// What comes is what is stored.
    AsStored,
    /// What comes and what is stored differ first on this line.
    DiffersAt(usize),
    /// A run has another setup, or other lines.
    OtherLines,
    /// It ended with this status, which is not the stored one.
    Status(u8),
    /// It can't be run in the stored order.
    NoOrder,
    /// The stored status is no number.
    NoStatus,
    /// There is a part of no kind.
    NoKind,
    /// There is no such session, or nothing is stored for it.
    NotFound,
}

impl Display for Outcome {
    fn fmt<W: Write>(&self, f: &mut Formatter<W>) -> fmt::Result {
        match self {
            Outcome::AsStored => f.write_str("as stored"),
            Outcome::DiffersAt(line) => write!(f, "differs at line {line}"),
            Outcome::OtherLines => f.write_str("has other lines"),
            Outcome::Status(status) => write!(f, "ended with status {status}"),
            Outcome::NoOrder => f.write_str("can't be run"),
            Outcome::NoStatus => f.write_str("is no number"),
            Outcome::NoKind => f.write_str("has a part of no kind"),
            Outcome::NotFound => f.write_str("not found"),
        }
    }
}

/// Runs the session of this text, and compares what it prints with the stored run.
pub fn run_and_compare<R: Threads + Wait + Sync>(
    rt: &R,
    alloc: Global,
    session: &[u8],
    stored: &[u8],
) -> Result<Outcome, AllocError>
    ensures as_stored { IfOk result (λ outcome. outcome ≡ Outcome.AsStored → IsRunOf session.now stored.now) }
    ensures differs { IfOk result (λ outcome. (line : ℕ) → outcome ≡ Outcome.DiffersAt line
        → (printed : List ℕ) × IsRunOf session.now printed × (printed ≢ stored.now) × (line ≡ differing_line printed stored.now)) }
    ensures status { IfOk result (λ outcome. (status : ℕ) → outcome ≡ Outcome.Status status → IsOtherStatus session.now status) }
    ensures found { IfOk result (λ outcome. outcome ≢ Outcome.NotFound) }
{
    match run_once(rt, alloc, session, ROOM)? {
        Ended::Ran(printed) => Ok(compared(&printed, stored)),
        Ended::Otherwise(status, _) => Ok(Outcome::Status(status)),
    }
}

/// Runs the session of this text, of several processes, and compares the outline of what it prints with that of the stored run.
pub fn run_beside<R: Threads + Wait + Sync>(
    rt: &R,
    alloc: Global,
    session: &[u8],
    stored: &[u8],
) -> Result<Outcome, AllocError>
    ensures legal { IfOk result (λ outcome. outcome ≡ Outcome.AsStored → (printed : List ℕ) × IsRunOf session.now printed) }
    ensures status { IfOk result (λ outcome. (status : ℕ) → outcome ≡ Outcome.Status status → IsOtherStatus session.now status) }
{
    match run_once(rt, alloc, session, ROOM_BESIDE)? {
        Ended::Ran(printed) => {
            if share_outline(alloc, &printed, stored)? {
                Ok(Outcome::AsStored)
            } else {
                Ok(Outcome::OtherLines)
            }
        }
        Ended::Otherwise(status, _) => Ok(Outcome::Status(status)),
    }
}

/// Runs the session of this text with the processes' lines in this order, and compares what it prints with the stored run.
pub fn order_and_compare<R: Wait>(
    rt: &R,
    alloc: Global,
    session: &[u8],
    order: &[u8],
    stored: &[u8],
) -> Result<Outcome, AllocError>
    ensures as_stored { IfOk result (λ outcome. outcome ≡ Outcome.AsStored → IsRunOf session.now stored.now) }
{
    match run_in_order(rt, alloc, session, order, ROOM)? {
        Some(printed) => Ok(compared(&printed, stored)),
        None => Ok(Outcome::NoOrder),
    }
}

/// Runs this text, which is to end with this status, and compares what it prints with what is stored, if anything.
pub fn refuse_and_compare<R: Threads + Wait + Sync>(
    rt: &R,
    alloc: Global,
    session: &[u8],
    wanted: u8,
    stored: Option<&[u8]>,
) -> Result<Outcome, AllocError>
    ensures as_stored { IfOk result (λ outcome. outcome ≡ Outcome.AsStored → wanted ≢ 0 → IsOtherStatus session.now wanted) }
    ensures ran { IfOk result (λ outcome. outcome ≡ Outcome.AsStored → wanted ≡ 0 → (printed : List ℕ) × IsRunOf session.now printed) }
{
    match run_once(rt, alloc, session, ROOM)? {
        Ended::Ran(printed) if wanted == 0 => Ok(compared_with(&printed, stored)),
        Ended::Ran(_) => Ok(Outcome::Status(0)),
        Ended::Otherwise(status, printed) if status == wanted => {
            Ok(compared_with(&printed, stored))
        }
        Ended::Otherwise(status, _) => Ok(Outcome::Status(status)),
    }
}

/// Runs the drill that this word asks for, which is to end with this status, and compares what it prints with what is stored.
pub fn drill_and_compare<R: Threads + Wait + Sync>(
    rt: &R,
    alloc: Global,
    number: &str,
    wanted: u8,
    stored: &[u8],
) -> Result<Outcome, AllocError>
    ensures as_stored { IfOk result (λ outcome. outcome ≡ Outcome.AsStored → wanted ≡ 0 → IsSummaryOf number.now stored.now) }
{
    match drill_once(rt, alloc, number, ROOM)? {
        Ended::Ran(printed) if wanted == 0 => Ok(compared(&printed, stored)),
        Ended::Ran(_) => Ok(Outcome::Status(0)),
        Ended::Otherwise(status, printed) if status == wanted => Ok(compared(&printed, stored)),
        Ended::Otherwise(status, _) => Ok(Outcome::Status(status)),
    }
}

/// Compares what `show` writes of this text on this word, in this order or in none, with what is stored.
pub fn show_and_compare<R: Threads + Wait + Sync>(
    rt: &R,
    alloc: Global,
    word: &str,
    order: &[u8],
    session: &[u8],
    stored: &[u8],
) -> Result<Outcome, AllocError> {
    let sink = shown(rt, alloc, word, order, session)?;
    Ok(compared(sink.bytes(), stored))
}

// What comes of two texts.
fn compared(printed: &[u8], stored: &[u8]) -> Outcome
    ensures same { result ≡ Outcome.AsStored → printed.now ≡ stored.now }
    ensures differs { (line : ℕ) → result ≡ Outcome.DiffersAt line
        → (printed.now ≢ stored.now) × (line ≡ differing_line printed.now stored.now) }
    ensures status { (status : ℕ) → result ≢ Outcome.Status status }
    ensures found { result ≢ Outcome.NotFound }
{
    match first_difference(printed, stored) {
        None => Outcome::AsStored,
        Some(line) => Outcome::DiffersAt(line),
    }
}

// The same, where anything is stored.
fn compared_with(printed: &[u8], stored: Option<&[u8]>) -> Outcome {
    match stored {
        Some(stored) => compared(printed, stored),
        None => Outcome::AsStored,
    }
}

/// The status that says what came of some comparisons: 0 exactly where each was as stored, and otherwise 1.
pub fn status_of(outcomes: &[Outcome]) -> u8
    ensures all { (result ≡ 0) ↔ All (λ outcome. outcome ≡ Outcome.AsStored) outcomes.now }
    ensures other { result ≤ 1 }
{
    if outcomes.iter().all(|outcome| *outcome == Outcome::AsStored) {
        0
    } else {
        1
    }
}
