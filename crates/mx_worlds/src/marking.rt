//! What an entry leaves: its descriptors in the present table, its pages ready, and the cells that it covers no longer
//! clean.

ghost use Rattle.std.specs.Prelude.{ℕ, ◌≡◌, ◌<◌, ◌==◌, ◌&&◌, ◌||◌, not, Bool, vec_len};
ghost use Rattle.mx_core.specs.Append.{with_changes};
ghost use Rattle.mx_worlds.specs.Marking.{AllShow, AreInPlace, IsInPlace, with_present};
ghost use Rattle.mx_core.specs.Pages.{page_of, gives, covered_anew};
ghost use Rattle.mx_core.specs.Put.{put};
ghost use Rattle.mx_core.specs.Lists.{Lists};
ghost use Rattle.mx_worlds.specs.Shows.{Columns};
ghost use Rattle.mx_sdw.specs.Descriptors.{Descriptor};

use crate::covering::{covered_anew, gives};
use crate::seats::Seat;
use mx_core::{Change, Run};

/// Puts the changes into the present table, one after another.
pub(crate) fn put_changes(seats: &mut Vec<Seat>, changes: &[Change])
    ensures shown { (many : ℕ) (f : ℕ → Columns) (table : ℕ → ℕ → Descriptor)
        → AreInPlace many (vec_len seats.old) changes.now
        → AllShow many seats.old.items (with_present f table)
        → AllShow many seats.new.items (with_present f (with_changes changes.now table)) }
    ensures len { vec_len seats.new ≡ vec_len seats.old }
{
    match changes {
        [] => {},
        [change, rest @ ..] => {
            put_change(seats, change);
            put_changes(seats, rest);
        },
    }
}

/// Puts a change into the present table; a pair that the table has not stays.
fn put_change(seats: &mut Vec<Seat>, change: &Change)
    ensures shown { (many : ℕ) (f : ℕ → Columns) (table : ℕ → ℕ → Descriptor)
        → IsInPlace many (vec_len seats.old) change.now
        → AllShow many seats.old.items (with_present f table)
        → AllShow many seats.new.items
        (with_present f (put table change.now.process
        (put (table change.now.process) change.now.segno change.now.desc))) }
    ensures len { vec_len seats.new ≡ vec_len seats.old }
{
    let place = usize::from(change.process);
    if place < seats.len() {
        seats[place].put(change.segno, &change.desc);
    }
}

/// Makes the given pages ready.
pub(crate) fn make_ready(ready: &mut Vec<bool>, given: &[Run])
    requires { vec_len ready.old ≡ 1024 }
    ensures shown { (f : ℕ → Bool) → Lists ready.old.items f
        → Lists ready.new.items (λ page. gives given.now page || f page) }
    ensures len { vec_len ready.new ≡ vec_len ready.old }
{
    for page in 0..1024_u32 {
        if gives(given, page) {
            ready[page as usize] = true;
        }
    }
}

/// Makes the cells of the pages that a descriptor put in covers clean no longer.
pub(crate) fn soil(clean: &mut Vec<bool>, changes: &[Change])
    requires { vec_len clean.old ≡ 65536 }
    ensures shown { (f : ℕ → Bool) → Lists clean.old.items f
        → Lists clean.new.items (λ cell. f cell && not (covered_anew changes.now (page_of cell))) }
    ensures len { vec_len clean.new ≡ vec_len clean.old }
{
    for page in 0..1024_u32 {
        if covered_anew(changes, page) {
            soil_page(clean, page);
        }
    }
}

/// Makes the cells of a page clean no longer.
pub(crate) fn soil_page(clean: &mut Vec<bool>, page: u32)
    requires many { vec_len clean.old ≡ 65536 }
    requires page { page < 1024 }
    ensures shown { (f : ℕ → Bool) → Lists clean.old.items f
        → Lists clean.new.items (λ cell. f cell && not (page_of cell == page)) }
    ensures len { vec_len clean.new ≡ vec_len clean.old }
{
    let first = 64 * page as usize;
    for cell in first..first + 64 {
        clean[cell] = false;
    }
}
