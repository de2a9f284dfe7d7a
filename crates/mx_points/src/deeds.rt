//! What the rules read of a deed, and the own entry that comes next.

ghost use Rattle.std.specs.Prelude.{◌≡◌, ◌↔◌, ◌+◌, ◌<◌, IsTrue, drop, length};
ghost use Rattle.mx_reads.specs.Deeds.{point_of};
ghost use Rattle.mx_points.specs.Seen.{IsBelow, first_entry, seen};

use mx_stores::{Deed, Form};

/// The point of a deed, if it has one.
pub(crate) fn point_of(deed: &Deed) -> Option<u32>
    ensures { result ≡ point_of deed.now }
{
    match deed.form() {
        Form::Stores { point, .. } | Form::Loads { point, .. } | Form::Refers { point } => Some(
            *point,
        ),
        Form::Enters { .. } | Form::Misses { .. } => None,
    }
}

/// The greatest number of an entry that a process has seen by a deed. Takes no memory.
pub fn seen(deed: &Deed) -> u32
    ensures { result ≡ seen deed.now }
{
    match deed.form() {
        Form::Enters { number } => *number,
        Form::Stores { point, .. } | Form::Refers { point } => *point,
        Form::Loads { stamp, point, .. } => (*stamp).max(*point),
        Form::Misses { by, .. } => *by,
    }
}

/// The number of the first entry among the deeds. Takes no memory.
pub fn first_entry(deeds: &[Deed]) -> Option<u32>
    ensures { result ≡ first_entry deeds.now }
{
    for deed in deeds {
        if let Some(number) = deed.entry() {
            return Some(number);
        }
    }
    None
}

/// The number of the first entry after a place, where `next` is that of the first from the place on. Along a process's
/// deeds each is looked at once.
pub(crate) fn entry_after(deeds: &[Deed], place: usize, next: Option<u32>) -> Option<u32>
    requires place { place < length deeds.now }
    requires next { next ≡ first_entry (drop place deeds.now) }
    ensures { result ≡ first_entry (drop (place + 1) deeds.now) }
{
    if deeds[place].entry().is_some() {
        first_entry(&deeds[place + 1..])
    } else {
        next
    }
}

/// Whether a number is below that of the next own entry, if there is one.
pub(crate) fn is_below(number: u32, next: Option<u32>) -> bool
    ensures { IsTrue result ↔ IsBelow number next }
{
    match next {
        None => true,
        Some(next) => number < next,
    }
}
