//! Which line is blamed where a part breaks a rule, and whether a part is over.

ghost use Rattle.std.specs.Prelude.{◌≡◌, ℕ, is_some, slice_get};
ghost use Rattle.mx_legal.specs.Breach.{blamed, is_last, was_denied};
ghost use Rattle.mx_legal.specs.Deciding.{is_over};
ghost use Rattle.mx_transcript.specs.Denials.{denied_with};
ghost use Rattle.mx_transcript.specs.Scripts.{lines_of};

use crate::places::{line_count, number_at};
use mx_points::Line;
use mx_script::Session;
use mx_transcript::Result2;

// Whether a line ended denied.
fn is_denied(ends: &Result2) -> bool
    ensures { (number : ℕ) → result ≡ is_some (denied_with number ends.now) }
{
    match ends {
        Result2::Denied(_) => true,
        Result2::Done => false,
        Result2::A(_) => false,
        Result2::Pr { .. } => false,
        Result2::Moved { .. } => false,
        Result2::Refused => false,
        Result2::HistoryFull => false,
    }
}

// Whether the line that is printed at a place was denied.
fn was_denied(lines: &[Line<'_>], place: usize) -> bool
    ensures { result ≡ was_denied (slice_get lines.now place) }
{
    match lines.get(place) {
        None => false,
        Some(line) => is_denied(&line.ends),
    }
}

// Whether the line that is printed at a place has the number of process `p`'s last line.
fn is_last(session: &Session, p: usize, lines: &[Line<'_>], place: usize) -> bool
    ensures { result ≡ is_last (lines_of session.now p) (slice_get lines.now place) }
{
    match lines.get(place) {
        None => false,
        Some(line) => line.number == number_at(session, p, line_count(session, p)),
    }
}

/// The number in the session text of the line that is blamed where process `p`'s part, which has these lines, breaks a rule at a
/// place and not before.
pub(crate) fn blamed(session: &Session, p: usize, lines: &[Line<'_>], place: usize) -> u32
    ensures { result ≡ blamed (lines_of session.now p) lines.now place }
{
    if place == 0 {
        return number_at(session, p, 0);
    }
    let before = place - 1;
    if is_last(session, p, lines, before)
        || was_denied(lines, before) && is_last(session, p, lines, place)
    {
        number_at(session, p, line_count(session, p))
    } else {
        number_at(session, p, place)
    }
}

/// Whether a part with these lines is over: it ends with process `p`'s last line; or it has none, and neither has the session.
pub(crate) fn is_over(session: &Session, p: usize, lines: &[Line<'_>]) -> bool
    ensures { result ≡ is_over (lines_of session.now p) lines.now }
{
    if lines.is_empty() {
        line_count(session, p) == 0
    } else {
        is_last(session, p, lines, lines.len() - 1)
    }
}
