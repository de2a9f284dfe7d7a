//! The judgement on a source.

ghost use Rattle.std.specs.Prelude.{◌≡◌, ◌≤◌, length, IfOk, IsErrOf};
ghost use Rattle.mx_check.specs.Judgements.{IsJudged, IsJudgement, judgement_status};
ghost use Rattle.mx_check.specs.declared.judgements.Unjudged.TheVariants.{Memory};
ghost use Rattle.mx_io.specs.Faults.{Rose};

use mx_both::{ReadBoth, read_both};
use mx_io::{ReadError, Source, read_all};
use mx_legal::{Breach, legal};
use mx_state::State;
use mx_transcript::rings_law;
use std::alloc::{AllocError, Global};
use std::thread::Threads;
use thiserror::Error;

/// The greatest size of both texts together, in bytes.
const MOST_BYTES: usize = 33_554_432;

/// The judgement on what is to be a session text followed at once by a run text.
#[derive(Clone, Copy, Debug, PartialEq, Eq)]
pub enum Judgement {
    /// The bytes are both texts, and the run is a legal one of the session.
    Legal,
    /// The bytes are both texts, and this is the first place at which the run is no legal one of the session.
    Breach(Breach),
    /// The bytes are no such texts; the number of the first bad line, counted from 1 at the start of the source.
    BadLine(u32),
    /// The source held more than 33,554,432 bytes.
    TooLong,
}

/// Why a source came to no judgement.
#[derive(Clone, Copy, Debug, PartialEq, Eq, Error)]
pub enum Unjudged {
    /// The source failed.
    #[error("the source failed")]
    Fault,
    /// Memory was wanting.
    #[error("out of memory")]
    Memory,
}

impl From<AllocError> for Unjudged {
    ghost from_gives = { λ _ e. e ≡ Memory };

    fn from(_: AllocError) -> Unjudged {
        Unjudged::Memory
    }
}

impl Judgement {
    /// The judgement on a source, which is read to its end, or until it has given one byte more than 33,554,432. The parts of
    /// the run are judged on threads, where they can be had.
    ///
    /// # Errors
    ///
    /// The source failed, or memory was wanting.
    pub fn reach<R: Threads + Sync, S: Source>(
        rt: &R,
        alloc: Global,
        source: &mut S,
    ) -> Result<Judgement, Unjudged>
        ensures right { IfOk result (IsJudgement (S.left source.old) (S.left source.new)) }
        ensures cause { IsErrOf result Unjudged.Fault → Rose (S.faults source.old) (S.faults source.new) }
        ensures only { (IsErrOf result Unjudged.Fault → ⊥) → S.faults source.new ≡ S.faults source.old }
    {
        match read_all(alloc, source, MOST_BYTES) {
            Ok(bytes) => {
                let judgement = Judgement::of_bytes(rt, alloc, &bytes)?;
                Ok(judgement)
            }
            Err(ReadError::TooLong) => Ok(Judgement::TooLong),
            Err(ReadError::Fault) => Err(Unjudged::Fault),
            Err(ReadError::Memory) => Err(Unjudged::Memory),
        }
    }

    // The judgement on bytes within the limit.
    fn of_bytes<R: Threads + Sync>(
        rt: &R,
        alloc: Global,
        bytes: &[u8],
    ) -> Result<Judgement, AllocError>
        requires within { length bytes.now ≤ 33554432 }
        ensures { IfOk result (IsJudged bytes.now) }
    {
        let both = match read_both(rt, alloc, bytes) {
            Ok(both) => both,
            Err(ReadBoth::BadLine(line)) => return Ok(Judgement::BadLine(line)),
            Err(ReadBoth::Memory) => return Err(AllocError),
        };
        rings_law();
        match legal::<State, R>(rt, alloc, &both.session, &both.journal, &both.transcripts)? {
            None => Ok(Judgement::Legal),
            Some(breach) => Ok(Judgement::Breach(breach)),
        }
    }

    /// The status of a program that told this judgement.
    pub fn status(&self) -> u8
        ensures { result ≡ judgement_status self.now }
    {
        match self {
            Judgement::Legal => 0,
            Judgement::Breach(_) => 7,
            Judgement::BadLine(_) => 5,
            Judgement::TooLong => 6,
        }
    }
}
