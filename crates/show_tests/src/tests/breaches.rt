//! Printed runs with one change each, and what `breach` tells of them.

mod alone;
mod cut;
mod full;
mod sharing;

use super::is_told_so;
use std::alloc::{AllocError, Global};
use std::sync::Wait;
use std::thread::Threads;

// What is changed in a run, by what, and what is told of it then.
type Row = (&'static str, &'static str, &'static str);

// The first of these changes of a run of which another thing is told; none where each is told of as its row has it.
fn first_wrong<R: Threads + Wait + Sync>(
    rt: &R,
    alloc: Global,
    session: &[u8],
    run: &str,
    rows: &[Row],
) -> Result<Option<usize>, AllocError> {
    for (place, (old, new, told)) in rows.iter().enumerate() {
        if !is_told_so(rt, alloc, session, run, &(*old, *new, 0, *told))? {
            return Ok(Some(place));
        }
    }
    Ok(None)
}
