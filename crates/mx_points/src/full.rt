//! The full journal: nothing is entered after a call that found it at its limit.

ghost use Rattle.std.specs.Prelude.{length};
ghost use Rattle.mx_points.specs.Fronts.{HasNoneAfterFullTo, IsFirstBad};

use crate::lines::Line;

/// The place of the first line that names an entry after one that found the journal full, if any does. Takes no memory.
pub fn first_after_full(lines: &[Line<'_>]) -> Option<usize>
    ensures { IsFirstBad (HasNoneAfterFullTo lines.now) (length lines.now) result }
{
    let mut full = false;
    for place in 0..lines.len() {
        let line = &lines[place];
        if full && !line.names_none() {
            return Some(place);
        }
        full = full || line.is_full();
    }
    None
}
