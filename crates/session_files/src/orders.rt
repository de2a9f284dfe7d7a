//! A run of a session in a chosen order.

ghost use Rattle.std.specs.Prelude.{◌≡◌, [], true, IfOk, IfSome};
ghost use Rattle.std.specs.List.{list_all};
ghost use Rattle.mx_proc.specs.Auditors.{WereTold};
ghost use Rattle.mx_script.specs.SessionTexts.{fits, rows_of};
ghost use Rattle.mx_spelling.specs.Spelling.{IsSpellable};
ghost use Rattle.mx_text.specs.RunText.{run_text};
ghost use Rattle.mx_transcript.specs.Runs as legal;
ghost use Rattle.session_files.specs.Runs.{IsRunOf, IsPrintedOf};

use mx_io::MemorySink;
use mx_proc::NoGate;
use mx_script::{Session, SessionError, read_session};
use mx_state::Journal;
use mx_text::{TextError, print};
use mx_transcript::Transcripts;
use std::alloc::{AllocError, Global};
use std::sync::Wait;

/// The greatest size of a session text, in bytes.
const MOST_BYTES: usize = 4_194_304;

/// How many bytes are moved at a time.
const PIECE: usize = 4096;

/// What the session of this text prints whose processes make their lines in this order, as `mx_proc` takes them, on one thread.
/// None where the text is no session, the order names a process that it has not, or there is no room for so many bytes.
pub fn run_in_order<R: Wait>(
    rt: &R,
    alloc: Global,
    session: &[u8],
    order: &[u8],
    room: usize,
) -> Result<Option<Vec<u8>>, AllocError>
    ensures { IfOk result (λ told. IfSome told (λ printed. IsRunOf session.now printed.items)) }
{
    if session.len() > MOST_BYTES {
        return Ok(None);
    }
    match read_session(alloc, session) {
        Ok(session) => in_order(rt, alloc, &session, order, room),
        Err(SessionError::BadLine(_)) => Ok(None),
        Err(SessionError::Memory) => Err(AllocError),
    }
}

// What a session prints in this order.
fn in_order<R: Wait>(
    rt: &R,
    alloc: Global,
    session: &Session,
    order: &[u8],
    room: usize,
) -> Result<Option<Vec<u8>>, AllocError>
    requires { list_all fits (rows_of session.now) ≡ true }
    ensures { IfOk result (λ told. IfSome told (λ printed. IsPrintedOf session.now printed.items)) }
{
    if !are_processes(session, order) {
        return Ok(None);
    }
    let (journal, transcripts) = ran(rt, alloc, session, order)?;
    printed(alloc, &journal, &transcripts, room)
}

// Whether an order names processes of a session alone.
fn are_processes(session: &Session, order: &[u8]) -> bool {
    let count = session.principals().items().len();
    order
        .iter()
        .all(|process| *process >= 1 && usize::from(*process) <= count)
}

// The run of a session in this order.
fn ran<R: Wait>(
    rt: &R,
    alloc: Global,
    session: &Session,
    order: &[u8],
) -> Result<(Journal, Transcripts), AllocError>
    requires { list_all fits (rows_of session.now) ≡ true }
    ensures run { IfOk result (λ ran. legal.IsRunOf session.now ran.0 ran.1) }
    ensures spellable { IfOk result (λ ran. IsSpellable ran.0 ran.1) }
    ensures told { IfOk result (λ ran. WereTold session.now [] ran.1 []) }
{
    // The lines of each session have numbers of 32 bits.
    let _scripts = session.scripts();
    mx_proc::run_in_order(rt, alloc, session, order, &NoGate, &mut Vec::new(alloc))
}

// The text of a run, where there is room for it.
fn printed(
    alloc: Global,
    journal: &Journal,
    transcripts: &Transcripts,
    room: usize,
) -> Result<Option<Vec<u8>>, AllocError>
    ensures { IfOk result (λ told. IfSome told (λ text. text.items ≡ run_text journal.now transcripts.now)) }
{
    let made = MemorySink::new(alloc, room, Vec::new(alloc), PIECE);
    let mut sink = made.map_err(|_| AllocError)?;
    match print(alloc, journal, transcripts, &mut sink) {
        Ok(()) => Ok(Some(Vec::from_slice(alloc, sink.bytes())?)),
        Err(TextError::Fault) => Ok(None),
        Err(TextError::Memory) => Err(AllocError),
    }
}
