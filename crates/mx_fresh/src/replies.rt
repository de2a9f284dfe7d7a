//! Replies to requests on the hierarchy.

ghost use Rattle.mx_fresh.specs.Said.{SaysDone, said};
ghost use Rattle.mx_state.specs.Shown.{shown, without_class};
ghost use Rattle.std.specs.Prelude.{◌≡◌};

use crate::answered::{Answered, Runs};
use mx_hier::{HierError, Status};
use mx_request::{Reply, has_classes};
use std::alloc::AllocError;

/// The answer where a request is done, which gave out and freed these runs of pages, or why it is refused.
pub(crate) fn done(did: Result<Runs, HierError>) -> Result<Answered, AllocError>
    ensures { SaysDone did result }
{
    match did {
        Ok(runs) => Ok(Answered::moving(Reply::Done, runs)),
        Err(HierError::Refused(why)) => Ok(Answered::alone(Reply::Refused(why))),
        Err(HierError::Memory) => Err(AllocError),
    }
}

/// A reply alone, as an answer.
pub(crate) fn said(reply: Result<Reply, AllocError>) -> Result<Answered, AllocError>
    ensures { result ≡ said reply }
{
    match reply {
        Ok(reply) => Ok(Answered::alone(reply)),
        Err(error) => Err(error),
    }
}

/// What is told of an entry: the class of a segment in a session that has classes.
pub(crate) fn shown(version: u8, status: Status) -> Status
    ensures { result ≡ shown version status }
{
    if has_classes(version) {
        status
    } else {
        without_class(status)
    }
}

fn without_class(status: Status) -> Status
    ensures { result ≡ without_class status }
{
    match status {
        Status::Segment {
            words,
            brackets,
            modes,
            class: _,
        } => Status::Segment {
            words,
            brackets,
            modes,
            class: None,
        },
        Status::Object {
            words,
            brackets,
            gate,
            definitions,
            links,
            modes,
            class: _,
        } => Status::Object {
            words,
            brackets,
            gate,
            definitions,
            links,
            modes,
            class: None,
        },
        other => other,
    }
}
