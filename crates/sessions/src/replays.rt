//! The journals of stored runs, played before both plain supervisors.

use crate::outcome::Outcome;
use crate::rows::{Part, text_of};
use both_supervisors::{Came, play};
use mx_script::{SessionError, read_session};
use std::alloc::{AllocError, Global};

/// The greatest size of a session text, in bytes.
const MOST_BYTES: usize = 4_194_304;

/// What comes of the journal of the run that is stored of a row, over its own session or an earlier one: whether both plain
/// supervisors reply as stored and agree on the descriptors of all numbers of all processes after each entry, or else the line of
/// the stored run at which they do not. None where there is no session, or no run with a journal.
pub fn replay_row(
    alloc: Global,
    source: Option<Part<'_>>,
    parts: &[Part<'_>],
) -> Result<Option<Outcome>, AllocError> {
    let stored = text_of(parts, "run").or(text_of(parts, "shared"));
    match (source, stored) {
        (Some(source), Some(stored)) if source.kind == "session" => {
            replay(alloc, source.text, stored)
        }
        _ => Ok(None),
    }
}

// The same of a session and a run.
fn replay(alloc: Global, session: &[u8], stored: &[u8]) -> Result<Option<Outcome>, AllocError> {
    if session.len() > MOST_BYTES {
        return Ok(None);
    }
    match read_session(alloc, session) {
        Ok(session) => {
            let entrants = session.principals().items();
            match play(alloc, session.version(), entrants, stored)? {
                Came::Otherwise(number) => Ok(Some(Outcome::DiffersAt(number.saturating_add(1)))),
                Came::AsTold => Ok(Some(Outcome::AsStored)),
                Came::NoJournal => Ok(None),
            }
        }
        Err(SessionError::BadLine(_)) => Ok(None),
        Err(SessionError::Memory) => Err(AllocError),
    }
}
