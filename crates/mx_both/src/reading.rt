//! The reader of both texts: from the bytes to the session, the journal and the transcripts, or to the number of the first
//! bad line.

ghost use Rattle.std.specs.Prelude.{◌≡◌, ◌<◌, ◌+◌, ℕ, List, Err, length, IfOk};
ghost use Rattle.mx_both.specs.BothTexts.{IsBothText, IsSomeBoth};
ghost use Rattle.mx_both.specs.Reading.{IsReadAsRun, IsReadAsSession};
ghost use Rattle.mx_reader.specs.FirstBadLine.{IsFirstBad};
ghost use Rattle.mx_script.specs.Sessions.{Outline};
ghost use Rattle.mx_state.specs.declared.journal.Entry.{Entry as EntryValue};
ghost use Rattle.mx_transcript.specs.Transcripts.{Step};

use crate::cutting::cut_behind_end;
use mx_reader::{ReadText, read_beside};
use mx_script::{Session, SessionError, read_session};
use mx_state::Journal;
use mx_transcript::Transcripts;
use std::alloc::Global;
use std::thread;
use std::thread::Threads;
use thiserror::Error;

/// A session, and the journal and the transcripts of a printed run.
#[derive(Drop)]
pub struct Both {
    /// The session.
    pub session: Session,
    /// The supervisor calls of the run, in order.
    pub journal: Journal,
    /// The transcripts of processes 0, 1, .. in order.
    pub transcripts: Transcripts,
}

/// Why no session and run were read.
#[derive(Clone, Copy, Debug, PartialEq, Eq, Error)]
pub enum ReadBoth {
    /// The bytes are no session text followed by a run text, and this line, counted from 1 at the start of the bytes, is the
    /// first bad one: the line after the greatest number of leading whole lines that begin the text of some session followed
    /// by that of some run.
    #[error("bad line {0}")]
    BadLine(u32),
    /// Memory was wanting.
    #[error("out of memory")]
    Memory,
}

/// Reads a session text followed at once by a run text: the one session, journal and transcripts that have these bytes as
/// their texts, or the number of the first bad line. The run need not be one of that session. The two, and the parts of the
/// run, are read side by side where threads can be had. Takes time linear in the bytes, and memory for the session, the
/// journal and the transcripts alone.
pub fn read_both<R: Threads + Sync>(rt: &R, alloc: Global, bytes: &[u8]) -> Result<Both, ReadBoth>
    requires { length bytes.now < 4294967295 }
    ensures found { IfOk result (λ both. IsBothText bytes.now both.session both.journal both.transcripts) }
    ensures only { (session : Outline) (journal : List EntryValue) (transcripts : List (List Step))
        → IsBothText bytes.now session journal transcripts
        → IfOk result (λ both. (both.session ≡ session) × (both.journal ≡ journal) × (both.transcripts ≡ transcripts)) }
    ensures bad_line { (n : ℕ) → result ≡ Err (ReadBoth.BadLine n) → IsFirstBad IsSomeBoth bytes.now n }
{
    let cut = cut_behind_end(bytes);
    let (session, run) = read_texts(rt, alloc, cut.session, cut.run);
    let session = match session {
        Ok(session) => session,
        Err(error) => return Err(of_session(error)),
    };
    match run {
        Ok((journal, transcripts)) => Ok(Both {
            session,
            journal,
            transcripts,
        }),
        Err(error) => Err(of_run(cut.lines, error)),
    }
}

// Why both were not read where the session was not.
fn of_session(error: SessionError) -> ReadBoth
    ensures { (n : ℕ) → result ≡ ReadBoth.BadLine n → error ≡ SessionError.BadLine n }
{
    match error {
        SessionError::BadLine(line) => ReadBoth::BadLine(line),
        SessionError::Memory => ReadBoth::Memory,
    }
}

// Why both were not read where the run, behind so many lines, was not.
fn of_run(lines: u32, error: ReadText) -> ReadBoth
    requires { (n : ℕ) → error ≡ ReadText.BadLine n → lines + n < 4294967296 }
    ensures { (n : ℕ) → result ≡ ReadBoth.BadLine n → (k : ℕ) × ((error ≡ ReadText.BadLine k) × (lines + k ≡ n)) }
{
    match error {
        ReadText::BadLine(line) => ReadBoth::BadLine(lines + line),
        ReadText::Memory => ReadBoth::Memory,
    }
}

// Reads the text of a session and that of a run, the one on a thread of its own where one can be had.
fn read_texts<R: Threads + Sync>(
    rt: &R,
    alloc: Global,
    session: &[u8],
    run: &[u8],
) -> (
    Result<Session, SessionError>,
    Result<(Journal, Transcripts), ReadText>,
)
    requires session { length session.now < 4294967295 }
    requires run { length run.now < 4294967295 }
    ensures session { IsReadAsSession session.now result.0 }
    ensures run { IsReadAsRun run.now result.1 }
{
    thread::join(
        rt,
        || -> Result<Session, SessionError>
            requires { length session.now < 4294967295 }
            ensures { IsReadAsSession session.entry.now result }
        { read_session(alloc, session) },
        || -> Result<(Journal, Transcripts), ReadText>
            requires { length run.now < 4294967295 }
            ensures { IsReadAsRun run.entry.now result }
        { read_beside(rt, alloc, run) },
    )
}
