//! Points: none precedes anything that its process had seen, and none passes what it did next.

ghost use Rattle.std.specs.Prelude.{◌↔◌, IsTrue, length};
ghost use Rattle.mx_points.specs.Fronts.{ArePointsTo, IsFirstBad};
ghost use Rattle.mx_points.specs.Seen.{HasRightPoint, MayBePoint};

use crate::deeds::{entry_after, first_entry, is_below, point_of, seen};
use mx_stores::Deed;

/// The place of the first of a process's deeds whose point breaks the point rule, where the journal has `setup` entries of
/// the setup and `entries` in all; none where each point keeps it. Takes no memory.
pub fn first_bad_point(setup: u32, entries: usize, deeds: &[Deed]) -> Option<usize>
    ensures { IsFirstBad (ArePointsTo setup entries deeds.now) (length deeds.now) result }
{
    let mut floor = setup;
    let mut next = first_entry(deeds);
    for place in 0..deeds.len() {
        let deed = &deeds[place];
        if !has_right_point(floor, entries, next, deed) {
            return Some(place);
        }
        floor = floor.max(seen(deed));
        next = entry_after(deeds, place, next);
    }
    None
}

// Whether the point of a deed is right, if it has one.
fn has_right_point(floor: u32, entries: usize, next: Option<u32>, deed: &Deed) -> bool
    ensures { IsTrue result ↔ HasRightPoint floor entries next deed.now }
{
    match point_of(deed) {
        None => true,
        Some(point) => may_be_point(floor, entries, next, point),
    }
}

fn may_be_point(floor: u32, entries: usize, next: Option<u32>, point: u32) -> bool
    ensures { IsTrue result ↔ MayBePoint floor entries next point }
{
    floor <= point && point as usize <= entries && is_below(point, next)
}
