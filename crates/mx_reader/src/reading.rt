//! The reader of run texts: from the bytes to the journal and the transcripts, or to the number of the first bad line.

ghost use Rattle.std.specs.Prelude.{◌≡◌, ◌<◌, ℕ, List, Err, None, length, IfOk};
ghost use Rattle.mx_name.specs.Cuts.{cut_at};
ghost use Rattle.mx_reader.specs.FirstBadLine.{IsFirstBad};
ghost use Rattle.mx_reader.specs.Progress.{HasRead, Nothing};
ghost use Rattle.mx_reader.specs.RunTexts.{IsRunText, IsSomeRun};
ghost use Rattle.mx_reader.specs.declared.reading.ReadText.TheVariants.{Memory};
ghost use Rattle.mx_state.specs.declared.journal.Entry.{Entry as EntryValue};
ghost use Rattle.mx_transcript.specs.Transcripts.{Step};

use crate::drafts::Draft;
use mx_name::cut;
use mx_state::Journal;
use mx_transcript::Transcripts;
use std::alloc::{AllocError, Global};
use thiserror::Error;

/// Why no run was read.
#[derive(Clone, Copy, Debug, PartialEq, Eq, Error)]
pub enum ReadText {
    /// The bytes are the text of no run, and this line, counted from 1, is the first bad one: the line after the greatest
    /// number of leading whole lines that begin the text of some run.
    #[error("bad line {0}")]
    BadLine(u32),
    /// Memory was wanting.
    #[error("out of memory")]
    Memory,
}

impl From<AllocError> for ReadText {
    ghost from_gives = { λ _ e. e ≡ Memory };

    fn from(_error: AllocError) -> ReadText {
        ReadText::Memory
    }
}

/// Reads the text of a run: the one journal and the one list of transcripts that have this text, or the number of the first
/// bad line. Takes time linear in the text, and memory for the journal and the transcripts alone.
pub fn read(alloc: Global, bytes: &[u8]) -> Result<(Journal, Transcripts), ReadText>
    requires { length bytes.now < 4294967295 }
    ensures found { IfOk result (λ run. IsRunText bytes.now run.0 run.1) }
    ensures only { (journal : List EntryValue) (transcripts : List (List Step)) → IsRunText bytes.now journal transcripts
        → IfOk result (λ run. run ≡ (journal, transcripts)) }
    ensures bad_line { (n : ℕ) → result ≡ Err (ReadText.BadLine n) → IsFirstBad IsSomeRun bytes.now n }
{
    let mut draft = Draft::new(alloc)?;
    match read_lines(alloc, bytes, &mut draft) {
        Ok((rest, number)) => match draft.finish(rest) {
            Some(run) => Ok(run),
            None => Err(ReadText::BadLine(number)),
        },
        Err(error) => Err(error),
    }
}

/// Reads the whole lines of a text into an empty draft: what is left behind them, and its line's number.
pub(crate) fn read_lines<'a>(
    alloc: Global,
    bytes: &'a [u8],
    draft: &mut Draft,
) -> Result<(&'a [u8], u32), ReadText>
    requires small { length bytes.now < 4294967295 }
    requires empty { draft.old ≡ Nothing }
    ensures lines { IfOk result (λ left. HasRead bytes.now left.0.now left.1 draft.new) }
    ensures all { IfOk result (λ left. cut_at 10 left.0.now ≡ None) }
    ensures bad_line { (n : ℕ) → result ≡ Err (ReadText.BadLine n) → IsFirstBad IsSomeRun bytes.now n }
{
    let mut rest = bytes;
    let mut number = 1;
    while let Some((line, after)) = cut(b'\n', rest) {
        if !draft.read(alloc, line)? {
            return Err(ReadText::BadLine(number));
        }
        rest = after;
        number += 1;
    }
    Ok((rest, number))
}
