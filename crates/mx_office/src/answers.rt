//! What a process is answered.

ghost use Rattle.std.specs.Prelude.{◌≡◌, IsTrue, IsFalse};
ghost use Rattle.mx_office.specs.Serving.{answer_of};
ghost use Rattle.mx_office.specs.declared.answers.Answer.TheVariants.{Waiting};
ghost use Rattle.mx_office.specs.declared.answers.EnterError.TheVariants.{Memory};

use mx_request::Reply;
use std::alloc::AllocError;
use thiserror::Error;

/// What a line asks of the reply to its request. The reply itself stands in the journal: a copy of it would take memory
/// once the entry has come.
#[derive(Clone, Copy, Debug)]
pub enum Answer {
    /// It is a refusal.
    Refused,
    /// A segment became known, and with it this linkage section.
    Known {
        linkage: Option<u16>,
    },
    /// A link leads there; with the segment this linkage section became known.
    Linked {
        segno: u16,
        word: u16,
        linkage: Option<u16>,
    },
    /// The process waits for a message.
    Waiting,
    /// Nothing else is to be done.
    Other,
}

impl Answer {
    /// Whether the process waits for a message.
    pub fn is_waiting(&self) -> bool
        ensures yes { IsTrue result → self.now ≡ Waiting }
        ensures no { IsFalse result → self.now ≡ Waiting → ⊥ }
    {
        matches!(self, Answer::Waiting)
    }

    /// What a line asks of this reply.
    pub(crate) fn of(reply: &Reply) -> Answer
        ensures { result ≡ answer_of reply.now }
    {
        match reply {
            Reply::Refused(_) => Answer::Refused,
            Reply::Segno(known) => Answer::Known {
                linkage: known.linkage,
            },
            Reply::Linked {
                segno,
                word,
                fresh: _,
                linkage,
            } => Answer::Linked {
                segno: *segno,
                word: *word,
                linkage: *linkage,
            },
            Reply::Waiting => Answer::Waiting,
            Reply::Done
            | Reply::Status(_)
            | Reply::Names(_)
            | Reply::Sent
            | Reply::Message { .. }
            | Reply::Nobody => Answer::Other,
        }
    }
}

/// A request that was entered: the number of its entry, and what it was answered.
#[derive(Clone, Copy, Debug)]
pub struct Served {
    pub number: u32,
    pub answer: Answer,
}

/// What became of a `block`.
#[derive(Clone, Copy, Debug)]
pub enum Blocked {
    /// It met the journal at its limit, and was not entered.
    Shut,
    /// It was entered, and answered with something else than `waiting`.
    Answered(Served),
    /// It was entered under this number, and answered `waiting`; then `resume` was entered, and answered so.
    Resumed { entry: u32, resume: Served },
    /// It was entered under this number, and answered `waiting`; then the journal was at its limit, and `resume` was not
    /// entered.
    CutShort { entry: u32 },
}

/// Why a `block` came to no end: memory was wanting, or the run is to end.
#[derive(Clone, Copy, Debug, PartialEq, Eq, Error)]
pub enum BlockError {
    /// Nothing was entered.
    #[error("out of memory")]
    Memory,
    /// It was entered under this number, and answered `waiting`.
    #[error("out of memory, after the process was told to wait")]
    Waiting { entry: u32 },
}

/// Why a request was not entered.
#[derive(Clone, Copy, Debug, PartialEq, Eq, Error)]
pub enum EnterError {
    /// The journal is at its limit.
    #[error("the history is full")]
    HistoryFull { length: u32 },
    /// Memory was wanting.
    #[error("out of memory")]
    Memory,
}

impl From<AllocError> for EnterError {
    ghost from_gives = { λ _ e. e ≡ Memory };

    fn from(_error: AllocError) -> EnterError {
        EnterError::Memory
    }
}
