//! What is told of a source that is to hold a session text followed at once by a run text.

ghost use Rattle.std.specs.Prelude.{◌≡◌, ◌≢◌, ◌⊎◌, ◌≤◌, ℕ, List, length, Some, IfOk, OnOk, IsErrOf, codes};
ghost use Rattle.mx_both.specs.BothTexts.{IsBothText, IsSomeBoth};
ghost use Rattle.mx_breach.specs.Sources.{GainsSourceFront, IsBadSource, IsDueStatus, IsStopped, IsToldSource, TellsBadLine, TellsBadLineFront, TellsBytes, TellsBytesFront, TellsRun, TellsRunFront, bad_line_text};
ghost use Rattle.mx_io.specs.Bytes.{Appends, AppendsPart, TakesTooMany};
ghost use Rattle.mx_io.specs.Faults.{Rose};
ghost use Rattle.mx_reader.specs.FirstBadLine.{IsFirstBad};

use crate::verdicts::tell_breach;
use itoa::Buffer;
use mx_both::{Both, ReadBoth, read_both};
use mx_io::{ReadError, Sink, Source, read_all, write_all};
use mx_show::ShowError;
use std::alloc::{AllocError, Global};
use std::thread::Threads;

/// The greatest size of both texts together, in bytes.
const MOST_BYTES: usize = 33_554_432;

/// The status where it was told that the run is legal, or why not.
const TOLD: u8 = 0;

/// The status where memory ran out.
const OUT_OF_MEMORY: u8 = 1;

/// The status where the source failed.
const SOURCE_FAULT: u8 = 3;

/// The status where the sink failed.
const SINK_FAULT: u8 = 4;

/// The status of bytes that are no session text followed by a run text.
const BAD_LINE: u8 = 5;

/// The status of a source with too many bytes.
const TOO_LONG: u8 = 6;

/// Reads a source to its end as a session text followed at once by a run text, tells that the run is a legal one of the session
/// or why it is none, as [`tell_breach`] does, and answers the status: 0 where that was told, whichever it is; 1 where memory was
/// wanting; 3 where the source failed; 4 where the sink failed; 5 where the bytes are no such texts, and `bad line N` was
/// written, with N the first bad line; 6 where they are more than 33,554,432, and `too long` was written.
pub fn tell_source<R: Threads + Sync, S: Source, K: Sink>(
    rt: &R,
    alloc: Global,
    source: &mut S,
    sink: &mut K,
) -> u8
    ensures told { result ≡ 0 → IsToldSource (S.left source.old) (S.left source.new) (K.out sink.old) (K.out sink.new) }
    ensures bad_line { result ≡ 5 → IsBadSource (S.left source.old) (S.left source.new) (K.out sink.old) (K.out sink.new) }
    ensures too_long { result ≡ 6 → TakesTooMany 33554432 (S.left source.old) (S.left source.new) }
    ensures too_long_told { result ≡ 6 → Appends (K.out sink.old) (K.out sink.new) (codes "too long\n") }
    ensures unfailed { result ≡ 1 → (S.faults source.new ≡ S.faults source.old) × (K.faults sink.new ≡ K.faults sink.old) }
    ensures source_fault { result ≡ 3 → Rose (S.faults source.old) (S.faults source.new) }
    ensures unwritten { result ≡ 3 → sink.new ≡ sink.old }
    ensures sink_fault { result ≡ 4 → Rose (K.faults sink.old) (K.faults sink.new) }
    ensures front { result ≡ 4 → GainsSourceFront (S.left source.old) (S.left source.new) (K.out sink.old) (K.out sink.new) }
    ensures statuses { (result ≤ 6) × (result ≢ 2) }
    ensures due { (spelled : List ℕ) → S.left source.old ≡ Some spelled → IsStopped result ⊎ IsDueStatus spelled result }
{
    match read_all(alloc, source, MOST_BYTES) {
        Ok(bytes) => match tell_bytes(rt, alloc, &bytes, sink) {
            Ok(status) => status,
            Err(ShowError::Fault) => SINK_FAULT,
            Err(ShowError::Memory) => OUT_OF_MEMORY,
        },
        Err(ReadError::TooLong) => tell_too_long(sink),
        Err(ReadError::Fault) => SOURCE_FAULT,
        Err(ReadError::Memory) => OUT_OF_MEMORY,
    }
}

// Tells that a source has too many bytes, and answers the status.
fn tell_too_long<K: Sink>(sink: &mut K) -> u8
    ensures told { (result ≡ 6) ⊎ (result ≡ 4) }
    ensures text { result ≡ 6 → Appends (K.out sink.old) (K.out sink.new) (codes "too long\n") }
    ensures part { result ≡ 4 → AppendsPart (K.out sink.old) (K.out sink.new) (codes "too long\n") }
    ensures cause { result ≡ 4 → Rose (K.faults sink.old) (K.faults sink.new) }
{
    match write_all(sink, b"too long\n") {
        Ok(()) => TOO_LONG,
        Err(_) => SINK_FAULT,
    }
}

// Tells of bytes within the limit, and answers the status: 0 where they are both texts, 5 where they are not.
fn tell_bytes<R: Threads + Sync, K: Sink>(
    rt: &R,
    alloc: Global,
    bytes: &[u8],
    sink: &mut K,
) -> Result<u8, ShowError>
    requires within { length bytes.now ≤ 33554432 }
    ensures told { IfOk result (TellsBytes bytes.now (K.out sink.old) (K.out sink.new)) }
    ensures front { IsErrOf result ShowError.Fault → TellsBytesFront bytes.now (K.out sink.old) (K.out sink.new) }
    ensures cause { IsErrOf result ShowError.Fault → Rose (K.faults sink.old) (K.faults sink.new) }
    ensures only { (IsErrOf result ShowError.Fault → ⊥) → K.faults sink.new ≡ K.faults sink.old }
{
    match read_both(rt, alloc, bytes) {
        Ok(both) => {
            tell_run(rt, alloc, bytes, &both, sink)?;
            Ok(TOLD)
        }
        Err(ReadBoth::BadLine(number)) => {
            tell_bad_line(alloc, bytes, number, sink)?;
            Ok(BAD_LINE)
        }
        Err(ReadBoth::Memory) => Err(ShowError::Memory),
    }
}

// Tells of the run of which these bytes are the text, behind that of its session.
fn tell_run<R: Threads + Sync, K: Sink>(
    rt: &R,
    alloc: Global,
    _bytes: &[u8],
    both: &Both,
    sink: &mut K,
) -> Result<(), ShowError>
    requires { IsBothText _bytes.now both.now.session both.now.journal both.now.transcripts }
    ensures told { OnOk result (TellsRun _bytes.now (K.out sink.old) (K.out sink.new)) }
    ensures front { IsErrOf result ShowError.Fault → TellsRunFront _bytes.now (K.out sink.old) (K.out sink.new) }
    ensures cause { IsErrOf result ShowError.Fault → Rose (K.faults sink.old) (K.faults sink.new) }
    ensures only { (IsErrOf result ShowError.Fault → ⊥) → K.faults sink.new ≡ K.faults sink.old }
{
    tell_breach(
        rt,
        alloc,
        &both.session,
        &both.journal,
        &both.transcripts,
        sink,
    )
}

// Tells the first bad line of these bytes.
fn tell_bad_line<K: Sink>(
    alloc: Global,
    _bytes: &[u8],
    number: u32,
    sink: &mut K,
) -> Result<(), ShowError>
    requires { IsFirstBad IsSomeBoth _bytes.now number }
    ensures told { OnOk result (TellsBadLine _bytes.now (K.out sink.old) (K.out sink.new)) }
    ensures front { IsErrOf result ShowError.Fault → TellsBadLineFront _bytes.now (K.out sink.old) (K.out sink.new) }
    ensures cause { IsErrOf result ShowError.Fault → Rose (K.faults sink.old) (K.faults sink.new) }
    ensures only { (IsErrOf result ShowError.Fault → ⊥) → K.faults sink.new ≡ K.faults sink.old }
{
    let text = bad_line_text(alloc, number)?;
    write_all(sink, &text)?;
    Ok(())
}

// What is written of a bad line.
fn bad_line_text(alloc: Global, number: u32) -> Result<Vec<u8>, AllocError>
    ensures { IfOk result (λ text. text.items ≡ bad_line_text number) }
{
    let mut buffer = Buffer::new();
    let mut text = Vec::new(alloc);
    text.extend_from_slice(b"bad line ")?;
    text.extend_from_slice(buffer.format(number).as_bytes())?;
    text.extend_from_slice(b"\n")?;
    Ok(text)
}
