//! Misses: each names an entry of another process that changed the descriptor of its pair.

ghost use Rattle.std.specs.Prelude.{◌≡◌, ◌↔◌, ℕ, ◌<◌, Some, true, IfOk, IsTrue, length, slice_get, slice_index_or};
ghost use Rattle.mx_reads.specs.Deeds.{Misses};
ghost use Rattle.mx_script.specs.Sessions.{Outline};
ghost use Rattle.mx_transcript.specs.Misses.{IsChanged};
ghost use Rattle.mx_points.specs.Fronts.{AreChanges, AreRightMissesTo, IsFirstBad};
ghost use Rattle.mx_points.specs.Seen.{AreLasts, HasRightMiss, MayMiss, lasts_after};

use crate::deeds::{entry_after, first_entry, is_below};
use mx_state::Journal;
use mx_stores::{Deed, Form};
use mx_transcript::entry_at;
use std::alloc::{AllocError, Global};

// How many segment numbers a deed can have.
const SEGMENTS: usize = 65_536;

/// The place of the first of a process's deeds that is a miss and breaks the miss rule; none where each miss keeps it. Beside
/// each deed that is a miss `changes` has whether its entry changed the descriptor of process `p` and the segment number.
///
/// # Errors
///
/// Want of memory.
pub fn first_bad_miss(
    alloc: Global,
    journal: &Journal,
    p: usize,
    deeds: &[Deed],
    changes: &[bool],
) -> Result<Option<usize>, AllocError>
    ensures { IfOk result (λ found. (session : Outline) → AreChanges session journal.now p deeds.now changes.now
        → IsFirstBad (AreRightMissesTo journal.now (IsChanged session journal.now p) p deeds.now) (length deeds.now) found) }
{
    let mut lasts = zeros(alloc, SEGMENTS)?;
    Ok(first_wrong_miss(journal, p, deeds, changes, lasts.as_mut_slice()))
}

fn zeros(alloc: Global, count: usize) -> Result<Vec<u32>, AllocError>
    ensures long { IfOk result (λ numbers. length numbers.items ≡ count) }
    ensures each { IfOk result (λ numbers. (k : ℕ) → slice_index_or numbers.items k 0 ≡ 0) }
{
    vec![in alloc; 0u32; count]
}

// The place of the first miss that breaks the rule. `lasts` has by segment number the last miss so far: none yet.
fn first_wrong_miss(
    journal: &Journal,
    p: usize,
    deeds: &[Deed],
    changes: &[bool],
    lasts: &mut [u32],
) -> Option<usize>
    requires { AreLasts deeds.now 0 lasts.old }
    ensures { (session : Outline) → AreChanges session journal.now p deeds.now changes.now
        → IsFirstBad (AreRightMissesTo journal.now (IsChanged session journal.now p) p deeds.now) (length deeds.now) result }
{
    let mut next = first_entry(deeds);
    for place in 0..deeds.len() {
        let changed = is_set(changes, place);
        if !take_deed(journal, p, changed, next, &deeds[place], lasts) {
            return Some(place);
        }
        next = entry_after(deeds, place, next);
    }
    None
}

// Whether a deed is right if it is a miss, where `lasts` has by segment number the last miss before. Then it has this one too.
fn take_deed(
    journal: &Journal,
    p: usize,
    changed: bool,
    next: Option<u32>,
    deed: &Deed,
    lasts: &mut [u32],
) -> bool
    requires { length lasts.old ≡ 65536 }
    ensures right { IsTrue result ↔ HasRightMiss journal.now p changed lasts.old next deed.now }
    ensures taken { result ≡ true → lasts.new ≡ lasts_after deed.now lasts.old }
    ensures fits { (segno by : ℕ) → deed.now ≡ Misses segno by → segno < 65536 }
{
    match deed.form() {
        Form::Enters { .. } | Form::Stores { .. } | Form::Loads { .. } | Form::Refers { .. } =>
            true,
        Form::Misses { segno, by } => {
            let at = usize::from(*segno);
            let is_right = may_miss(journal, p, changed, lasts[at], next, *by);
            if is_right {
                lasts[at] = *by;
            }
            is_right
        },
    }
}

// Whether true stands at a place.
fn is_set(changes: &[bool], place: usize) -> bool
    ensures { IsTrue result ↔ (slice_get changes.now place ≡ Some true) }
{
    match changes.get(place) {
        None => false,
        Some(change) => *change,
    }
}

// Whether a miss by this entry is right.
fn may_miss(
    journal: &Journal,
    p: usize,
    changed: bool,
    last: u32,
    next: Option<u32>,
    by: u32,
) -> bool
    ensures { IsTrue result ↔ MayMiss journal.now p changed last next by }
{
    match entry_at(journal, by) {
        None => false,
        Some(entry) => usize::from(entry.process) != p
            && changed
            && last < by
            && is_below(by, next),
    }
}
