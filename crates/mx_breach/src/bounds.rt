//! What the rules of points and misses compare a deed with: what its process had seen, and its next own entry.

ghost use Rattle.std.specs.Prelude.{◌≡◌, ◌≤◌, drop, length, take};
ghost use Rattle.mx_points.specs.Seen.{first_entry, greatest, missed, seen};

use mx_points::{first_entry, seen};
use mx_stores::{Deed, Form};

/// What the point of a deed, or the entry of a miss, is compared with.
#[derive(Clone, Copy, Debug)]
pub struct Bounds {
    /// The greatest entry that the process had seen by its deeds before, or the setup's last.
    pub floor: u32,
    /// The number of its next own entry, if it has one.
    pub next: Option<u32>,
}

/// The bounds of the deed at a place of a process's deeds, where the journal has so many entries of the setup. Takes no
/// memory.
pub fn bounds_at(setup: u32, deeds: &[Deed], place: usize) -> Bounds
    requires { place ≤ length deeds.now }
    ensures floor { result.floor ≡ greatest seen setup (take place deeds.now) }
    ensures next { result.next ≡ first_entry (drop place deeds.now) }
{
    let (before, after) = deeds.split_at(place);
    let mut floor = setup;
    for deed in before {
        floor = floor.max(seen(deed));
    }
    Bounds {
        floor,
        next: first_entry(after),
    }
}

/// The entry by which a process missed a segment number last before the deed at a place; 0 where it had not missed it. Takes
/// no memory.
pub fn last_miss(deeds: &[Deed], place: usize, segno: u16) -> u32
    requires { place ≤ length deeds.now }
    ensures { result ≡ greatest (missed segno) 0 (take place deeds.now) }
{
    let (before, _) = deeds.split_at(place);
    let mut last = 0;
    for deed in before {
        last = last.max(missed(deed, segno));
    }
    last
}

// The entry by which a deed missed a segment number, 0 where it did not.
fn missed(deed: &Deed, segno: u16) -> u32
    ensures { result ≡ missed segno deed.now }
{
    match deed.form() {
        Form::Enters { .. } | Form::Stores { .. } | Form::Loads { .. } | Form::Refers { .. } => 0,
        Form::Misses { segno: own, by } => if *own == segno { *by } else { 0 },
    }
}
