//! One run of a session, or of a drill.

ghost use Rattle.std.specs.Prelude.{◌++◌, map, IfOk};
ghost use Rattle.std.specs.String.{string_bytes};
ghost use Rattle.session_files.specs.Runs.{IsCheckEnded, IsDrillEnded, IsEnded, IsEndedBy};

use mx_io::{MemorySink, MemorySource};
use mx_run::{NoGate, multics};
use std::alloc::{AllocError, Global};
use std::sync::Wait;
use std::thread::Threads;

/// How many bytes are moved at a time.
const PIECE: usize = 4096;

/// What one run came to.
#[derive(Drop)]
pub enum Ended {
    /// It ended with status 0, and this was printed.
    Ran(Vec<u8>),
    /// It ended with this status, which is not 0, and this was printed.
    Otherwise(u8, Vec<u8>),
}

/// Runs the session of this text once, with room for so many bytes of its run: one that is longer ends with the status of a
/// sink that failed.
pub fn run_once<R: Threads + Wait + Sync>(
    rt: &R,
    alloc: Global,
    session: &[u8],
    room: usize,
) -> Result<Ended, AllocError>
    ensures { IfOk result (IsEnded session.now) }
{
    let words = [String::from_str(alloc, "run")?];
    command(rt, alloc, &words, session, room)
}

/// Judges the printed run of a session once: what is printed is `legal` where it ends with status 0, and else what is wrong with it.
pub fn check_once<R: Threads + Wait + Sync>(
    rt: &R,
    alloc: Global,
    session: &[u8],
    run: &[u8],
) -> Result<Ended, AllocError>
    ensures { IfOk result (IsCheckEnded (session.now ++ run.now)) }
{
    let words = [String::from_str(alloc, "check")?];
    let mut text = Vec::from_slice(alloc, session)?;
    text.extend_from_slice(run)?;
    command(rt, alloc, &words, &text, PIECE)
}

/// Runs the drill that this word asks for once, with room for so many bytes of its summary.
pub fn drill_once<R: Threads + Wait + Sync>(
    rt: &R,
    alloc: Global,
    number: &str,
    room: usize,
) -> Result<Ended, AllocError>
    ensures { IfOk result (IsDrillEnded number.now) }
{
    let words = [
        String::from_str(alloc, "drill")?,
        String::from_str(alloc, number)?,
    ];
    command(rt, alloc, &words, b"", room)
}

// The top call with these words over a source that has this text, and an empty sink.
fn command<R: Threads + Wait + Sync>(
    rt: &R,
    alloc: Global,
    words: &[String],
    text: &[u8],
    room: usize,
) -> Result<Ended, AllocError>
    ensures { IfOk result (IsEndedBy (map string_bytes words.now) text.now) }
{
    let text = Vec::from_slice(alloc, text)?;
    let mut source = MemorySource::new(text, Vec::new(alloc), PIECE);
    let made = MemorySink::new(alloc, room, Vec::new(alloc), PIECE);
    let mut sink = made.map_err(|_| AllocError)?;
    let mut auditors = Vec::new(alloc);
    let status = multics(
        rt,
        alloc,
        words,
        &mut source,
        &mut sink,
        &NoGate,
        &mut auditors,
    );
    let printed = Vec::from_slice(alloc, sink.bytes())?;
    if status == 0 {
        Ok(Ended::Ran(printed))
    } else {
        Ok(Ended::Otherwise(status, printed))
    }
}
