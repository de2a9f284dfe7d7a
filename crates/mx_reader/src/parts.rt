//! The head and the parts of a run text, each read alone.

ghost use Rattle.std.specs.Prelude.{◌≡◌, ◌++◌, ◌<◌, [], length, IfOk, IfSome};
ghost use Rattle.mx_reader.specs.Parts.{HasFollowed, IsHead, IsPart};

use crate::drafts::{Draft, add_line, read_part};
use crate::reading::{ReadText, read_lines};
use memchr::memmem::find;
use mx_name::cut;
use mx_state::Journal;
use mx_transcript::{Recording, Transcript};
use std::alloc::{AllocError, Global};

/// Cuts a text before its second line, or a later one, that begins as the first of a part does; at its end where there is none.
pub(crate) fn cut_part(text: &[u8]) -> (&[u8], &[u8])
    ensures { text.now ≡ result.0.now ++ result.1.now }
{
    match find(text, b"\nprocess ") {
        Some(at) => text.split_at(at + 1),
        None => text.split_at(text.len()),
    }
}

/// The journal of a text that is the count of the entries and the entries, and nothing more; `None` of any other.
pub(crate) fn read_head(alloc: Global, text: &[u8]) -> Result<Option<Journal>, AllocError>
    requires { length text.now < 4294967295 }
    ensures { IfOk result (λ read. IfSome read (λ journal. IsHead text.now journal)) }
{
    let mut draft = Draft::new(alloc)?;
    match read_lines(alloc, text, &mut draft) {
        Ok((rest, _)) => Ok(draft.counted(rest)),
        Err(ReadText::BadLine(_)) => Ok(None),
        Err(ReadText::Memory) => Err(AllocError),
    }
}

/// The lines of a text that is the part of this number, and nothing more; `None` of any other.
pub(crate) fn read_alone(
    alloc: Global,
    number: usize,
    text: &[u8],
) -> Result<Option<Transcript>, AllocError>
    ensures { IfOk result (λ read. IfSome read (λ steps. IsPart number text.now steps)) }
{
    let Some((line, rest)) = cut(b'\n', text) else {
        return Ok(None);
    };
    match read_part(number, line) {
        Some(_) => read_steps(alloc, rest),
        None => Ok(None),
    }
}

// The lines of a text that is a part behind its first line, and nothing more; `None` of any other.
fn read_steps(alloc: Global, text: &[u8]) -> Result<Option<Transcript>, AllocError>
    ensures { IfOk result (λ read. IfSome read (λ steps. HasFollowed text.now [] steps [])) }
{
    // a line and its events mostly have about as many bytes
    let mut recording = Recording::with_room(alloc, text.len() / 64)?;
    let mut at_work = false;
    let mut rest = text;
    while let Some((line, after)) = cut(b'\n', rest) {
        let Some(goes) = add_line(&mut recording, line)? else {
            return Ok(None);
        };
        at_work = goes;
        rest = after;
    }
    if at_work || !rest.is_empty() {
        return Ok(None);
    }
    Ok(Some(recording.finish()))
}
