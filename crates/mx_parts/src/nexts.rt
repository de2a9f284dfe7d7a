//! Which line of a script a printed line may be.

ghost use Rattle.std.specs.Prelude.{◌≡◌, ℕ, is_some, length};
ghost use Rattle.mx_parts.specs.Rests.{place_for};
ghost use Rattle.mx_transcript.specs.Denials.{denied_with};

use mx_script::Line;
use mx_transcript::Result2;

/// The place in a script at which the line of a printed number may stand, where this place is the next: there; or, behind a
/// denied line, at the last place, where it has the number of the last line.
pub(crate) fn place_for(
    script: &[Line],
    first: u32,
    next: usize,
    denied: bool,
    number: u32,
) -> usize
    ensures { result ≡ place_for first (length script.now) next denied number }
{
    let lines = script.len();
    if denied && next < lines && u64::from(number) == u64::from(first) + (lines - 1) as u64 {
        lines - 1
    } else {
        next
    }
}

/// Whether a line ended denied.
pub(crate) fn is_denied(ends: &Result2) -> bool
    ensures { (number : ℕ) → result ≡ is_some (denied_with number ends.now) }
{
    match ends {
        Result2::Denied(_) => true,
        Result2::Done => false,
        Result2::A(_) => false,
        Result2::Pr { .. } => false,
        Result2::Moved { .. } => false,
        Result2::Refused => false,
        Result2::HistoryFull => false,
    }
}
