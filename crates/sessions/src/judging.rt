//! Stored runs, judged.

use crate::comparison::first_difference;
use crate::outcome::Outcome;
use crate::rows::{Part, text_of};
use session_files::{Ended, check_once};
use std::alloc::{AllocError, Global};
use std::sync::Wait;
use std::thread::Threads;

/// What `check` says of a legal run.
const LEGAL: &[u8] = b"legal\n";

/// What comes of judging the printed run that is stored of a session: whether `check` says of it what is stored, or `legal`, where
/// nothing is stored. None where no run is stored.
pub fn judge<R: Threads + Wait + Sync>(
    rt: &R,
    alloc: Global,
    session: &[u8],
    parts: &[Part<'_>],
) -> Result<Option<Outcome>, AllocError> {
    match printed_in(parts) {
        Some(printed) => {
            let wanted = text_of(parts, "check").unwrap_or(LEGAL);
            Ok(Some(check_and_compare(rt, alloc, session, printed, wanted)?))
        }
        None => Ok(None),
    }
}

// The run among the stored parts, if it is one: it begins with its journal.
fn printed_in<'a>(parts: &[Part<'a>]) -> Option<&'a [u8]> {
    let printed = text_of(parts, "printed")
        .or(text_of(parts, "run"))
        .or(text_of(parts, "shared"))?;
    if printed.starts_with(b"journal ") {
        Some(printed)
    } else {
        None
    }
}

// Judges a printed run, and compares what is said of it with what is wanted.
fn check_and_compare<R: Threads + Wait + Sync>(
    rt: &R,
    alloc: Global,
    session: &[u8],
    printed: &[u8],
    wanted: &[u8],
) -> Result<Outcome, AllocError> {
    let said = match check_once(rt, alloc, session, printed)? {
        Ended::Ran(said) => said,
        Ended::Otherwise(_, said) => said,
    };
    match first_difference(&said, wanted) {
        None => Ok(Outcome::AsStored),
        Some(line) => Ok(Outcome::DiffersAt(line)),
    }
}
