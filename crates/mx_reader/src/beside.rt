//! The reader of run texts that reads the parts side by side.

ghost use Rattle.std.specs.Prelude.{◌≡◌, ◌<◌, ◌≤◌, ℕ, List, Err, length, IfOk, IfSome};
ghost use Rattle.mx_reader.specs.FirstBadLine.{IsFirstBad};
ghost use Rattle.mx_reader.specs.Parts.{AreParts, IsHead, IsPart, IsReadWhole};
ghost use Rattle.mx_reader.specs.RunTexts.{IsRunText, IsSomeRun};
ghost use Rattle.mx_state.specs.declared.journal.Entry.{Entry as EntryValue};
ghost use Rattle.mx_transcript.specs.Transcripts.{Step};

use crate::parts::{cut_part, read_alone, read_head};
use crate::reading::{ReadText, read};
use mx_state::Journal;
use mx_transcript::{Transcript, Transcripts};
use std::alloc::{AllocError, Global};
use std::thread;
use std::thread::Threads;

/// Reads the text of a run as [`read`] does, its head and its parts side by side, each on a thread of its own where one can be
/// had. Where one of them cannot be read alone, the text is read once more from its first line on, for its first bad line.
pub fn read_beside<R: Threads + Sync>(
    rt: &R,
    alloc: Global,
    bytes: &[u8],
) -> Result<(Journal, Transcripts), ReadText>
    requires { length bytes.now < 4294967295 }
    ensures found { IfOk result (λ run. IsRunText bytes.now run.0 run.1) }
    ensures only { (journal : List EntryValue) (transcripts : List (List Step)) → IsRunText bytes.now journal transcripts
        → IfOk result (λ run. run ≡ (journal, transcripts)) }
    ensures bad_line { (n : ℕ) → result ≡ Err (ReadText.BadLine n) → IsFirstBad IsSomeRun bytes.now n }
{
    match read_pieces(rt, alloc, bytes) {
        Ok(Some(run)) => Ok(run),
        Ok(None) => read(alloc, bytes),
        Err(_) => Err(ReadText::Memory),
    }
}

// The run of a text, put together of its head and its parts; `None` where one of them cannot be read alone.
fn read_pieces<R: Threads + Sync>(
    rt: &R,
    alloc: Global,
    bytes: &[u8],
) -> Result<Option<(Journal, Transcripts)>, AllocError>
    requires { length bytes.now < 4294967295 }
    ensures { IfOk result (λ read. IfSome read (λ run. IsReadWhole bytes.now run.0 run.1)) }
{
    let Some(text) = bytes.strip_suffix(b"end\n") else {
        return Ok(None);
    };
    let (head, parts) = cut_part(text);
    let (journal, parts) = read_both(rt, alloc, head, parts);
    let Some(journal) = journal? else {
        return Ok(None);
    };
    let Some(parts) = parts? else {
        return Ok(None);
    };
    Ok(Some((journal, Transcripts::of(parts))))
}

// Reads a head and the parts behind it, side by side.
fn read_both<R: Threads + Sync>(
    rt: &R,
    alloc: Global,
    head: &[u8],
    parts: &[u8],
) -> (
    Result<Option<Journal>, AllocError>,
    Result<Option<Vec<Transcript>>, AllocError>,
)
    requires { length head.now < 4294967295 }
    ensures head { IfOk result.0 (λ read. IfSome read (λ journal. IsHead head.now journal)) }
    ensures parts { IfOk result.1 (λ read. IfSome read (λ all. AreParts 0 parts.now all.items)) }
{
    thread::join(
        rt,
        || -> Result<Option<Journal>, AllocError>
            requires { length head.now < 4294967295 }
            ensures { IfOk result (λ read. IfSome read (λ journal. IsHead head.entry.now journal)) }
        { read_head(alloc, head) },
        || -> Result<Option<Vec<Transcript>>, AllocError>
            ensures { IfOk result (λ read. IfSome read (λ all. AreParts 0 parts.entry.now all.items)) }
        { read_parts(rt, alloc, 0, parts) },
    )
}

// The parts of a text that is those of this number and the following ones, and nothing more; `None` of any other. Each is
// read while the next one is looked for.
#[cycle(parts)]
fn read_parts<R: Threads + Sync>(
    rt: &R,
    alloc: Global,
    number: usize,
    text: &[u8],
) -> Result<Option<Vec<Transcript>>, AllocError>
    ensures { IfOk result (λ read. IfSome read (λ all. AreParts number text.now all.items)) }
{
    if text.is_empty() {
        return Ok(Some(Vec::new(alloc)));
    }
    if number > 15 {
        return Ok(None);
    }
    let (part, rest) = cut_part(text);
    let next = number + 1;
    let own = || -> Result<Option<Transcript>, AllocError>
        ensures { IfOk result (λ read. IfSome read (λ steps. IsPart number part.entry.now steps)) }
    { read_alone(alloc, number, part) };
    let others = || -> Result<Option<Vec<Transcript>>, AllocError>
        requires { next ≤ 16 }
        ensures { IfOk result (λ read. IfSome read (λ all. AreParts next rest.entry.now all.items)) }
    { read_parts(rt, alloc, next, rest) };
    let (part, others) = thread::join(rt, own, others);
    let Some(part) = part? else {
        return Ok(None);
    };
    let Some(mut others) = others? else {
        return Ok(None);
    };
    let mut all = Vec::new(alloc);
    all.push(part)?;
    all.append(&mut others)?;
    Ok(Some(all))
}
