//! The lines of the setup: those past its entries found the journal full.

ghost use Rattle.std.specs.Prelude.{length};
ghost use Rattle.mx_points.specs.Fronts.{AreSetupLinesTo, IsFirstBad};

use crate::lines::Line;

/// The place of the first line of the setup that found the journal full within its first `setup` lines, or did not past
/// these; none where each is as it should be. Takes no memory.
pub fn first_bad_setup(setup: u32, lines: &[Line<'_>]) -> Option<usize>
    ensures { IsFirstBad (AreSetupLinesTo setup lines.now) (length lines.now) result }
{
    for place in 0..lines.len() {
        let is_past = setup as usize <= place;
        if is_past != lines[place].is_full() {
            return Some(place);
        }
    }
    None
}
