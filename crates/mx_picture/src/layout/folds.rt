//! Which entries of the journal nothing hangs on, so that they are folded.

use mx_judging::Accesses;
use mx_judging::Part::{self, Decimal, Text};
use mx_request::{Reply, Request};
use mx_state::Entry;
use std::alloc::{AllocError, Global};

/// As many entries one behind another as are folded at least, where nothing hangs on them.
const LEAST_FOLDED: usize = 3;

/// Of each entry whether nothing hangs on it: no reference behind it, no change of access, no refusal, no message and no wait.
pub(super) fn bare_entries(
    alloc: Global,
    entries: &[Entry],
    accesses: &Accesses,
) -> Result<Vec<bool>, AllocError> {
    let mut bare = Vec::with_capacity(alloc, entries.len())?;
    for entry in entries {
        bare.push(!is_refused(entry) && !is_of_messages(entry))?;
    }
    for judged in &accesses.judged {
        hang(&mut bare, judged.element.point);
    }
    for changed in &accesses.changed {
        hang(&mut bare, changed.entry);
    }
    Ok(bare)
}

// Whether it was refused.
fn is_refused(entry: &Entry) -> bool {
    matches!(entry.reply, Reply::Refused(_))
}

// Whether a message was sent or taken, or waited for.
fn is_of_messages(entry: &Entry) -> bool {
    match entry.reply {
        Reply::Sent | Reply::Message { .. } | Reply::Waiting => true,
        _ => matches!(entry.request(), Request::Resume),
    }
}

// Something hangs on the entry of this number.
fn hang(bare: &mut Vec<bool>, number: u32) {
    let Some(place) = (number as usize).checked_sub(1) else {
        return;
    };
    if let Some(is_bare) = bare.get_mut(place) {
        *is_bare = false;
    }
}

/// How many entries from this place on are one column: one, or all on which nothing hangs where these are enough.
pub(super) fn folded(bare: &[bool], place: usize) -> usize {
    let Some(rest) = bare.get(place..) else {
        return 1;
    };
    let mut count = 0usize;
    for is_bare in rest {
        if !*is_bare {
            break;
        }
        count = count.saturating_add(1);
    }
    if count >= LEAST_FOLDED { count } else { 1 }
}

/// What is written at entries that are folded.
pub(crate) fn fold_words(first: u32, last: u32) -> [Part<'static>; 4] {
    [
        Text("entries "),
        Decimal(first),
        Text(" to "),
        Decimal(last),
    ]
}
