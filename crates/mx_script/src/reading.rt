//! The reader of session texts: from the bytes to the session, or to the number of the first bad line.

ghost use Rattle.std.specs.Prelude.{◌≡◌, ℕ, ◌<◌, Err, None, length, IfOk};
ghost use Rattle.mx_name.specs.Cuts.{cut_at};
ghost use Rattle.mx_script.specs.Sessions.{Outline};
ghost use Rattle.mx_script.specs.SessionTexts.{IsText};
ghost use Rattle.mx_script.specs.FirstBadLine.{IsFirstBad};
ghost use Rattle.mx_script.specs.Drafts.{Empty};
ghost use Rattle.mx_script.specs.Progress.{HasRead};
ghost use Rattle.mx_script.specs.declared.reading.SessionError.TheVariants.{Memory};

mod cutting;
mod drafts;
mod fields;
mod lines;
mod parts;
mod stages;

use crate::reading::drafts::Draft;
use crate::sessions::Session;
use mx_name::cut;
use std::alloc::{AllocError, Global};
use thiserror::Error;

/// Why no session was read.
#[derive(Clone, Copy, Debug, PartialEq, Eq, Error)]
pub enum SessionError {
    /// The bytes are the text of no session, and this line, counted from 1, is the first bad one: the line after the
    /// greatest number of leading whole lines that begin the text of some session.
    #[error("bad line {0}")]
    BadLine(u32),
    /// Memory was wanting.
    #[error("out of memory")]
    Memory,
}

impl From<AllocError> for SessionError {
    ghost from_gives = { λ _ e. e ≡ Memory };

    fn from(_error: AllocError) -> SessionError {
        SessionError::Memory
    }
}

/// Reads the text of a session: the one session that has this text, or the number of the first bad line. Takes time linear
/// in the text, and memory for the session alone.
pub fn read_session(alloc: Global, bytes: &[u8]) -> Result<Session, SessionError>
    requires { length bytes.now < 4294967295 }
    ensures found { IfOk result (λ x. IsText bytes.now x) }
    ensures only { (x : Outline) → IsText bytes.now x → IfOk result (λ y. y ≡ x) }
    ensures bad_line { (n : ℕ) → result ≡ Err (SessionError.BadLine n) → IsFirstBad bytes.now n }
{
    let mut draft = Draft::new(alloc);
    match read_lines(alloc, bytes, &mut draft) {
        Ok((rest, number)) => match draft.finish(rest) {
            Some(session) => Ok(session),
            None => Err(SessionError::BadLine(number)),
        },
        Err(error) => Err(error),
    }
}

// Reads the whole lines of a text into an empty draft: what is left behind them, and its line's number.
fn read_lines<'a>(
    alloc: Global,
    bytes: &'a [u8],
    draft: &mut Draft,
) -> Result<(&'a [u8], u32), SessionError>
    requires small { length bytes.now < 4294967295 }
    requires empty { draft.old ≡ Empty }
    ensures lines { IfOk result (λ left. HasRead bytes.now left.0.now left.1 draft.new) }
    ensures all { IfOk result (λ left. cut_at 10 left.0.now ≡ None) }
    ensures bad_line { (n : ℕ) → result ≡ Err (SessionError.BadLine n) → IsFirstBad bytes.now n }
{
    let mut rest = bytes;
    let mut number = 1;
    while let Some((line, after)) = cut(b'\n', rest) {
        if !draft.read(alloc, line)? {
            return Err(SessionError::BadLine(number));
        }
        rest = after;
        number += 1;
    }
    Ok((rest, number))
}
