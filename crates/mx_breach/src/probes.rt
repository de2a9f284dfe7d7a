//! The access on which an event would stand that a run does not have.

ghost use Rattle.std.specs.Prelude.{◌≡◌, [], slice_index_or};
ghost use Rattle.mx_state.specs.History.{IsRight};
ghost use Rattle.mx_transcript.specs.Opened.{opening_of};

use crate::runs::Run;
use mx_access::{Access, access_in_turn};
use mx_list::Sequence;
use mx_sdw::Desc;
use mx_state::State;
use mx_stores::Deed;
use mx_transcript::{Event2, Recording, Result2, Transcript};
use std::alloc::{AllocError, Global};

/// The access on which these events of process `p` would stand, each at its own point.
pub(crate) fn access_on(
    alloc: Global,
    run: &Run<'_>,
    p: usize,
    events: &[Event2],
) -> Result<Access, AllocError>
    requires right { IsRight (opening_of run.now.session.now) run.now.journal.now }
{
    let mut parts = Sequence::new(alloc);
    for _ in 0..p {
        parts.push(transcript_of(alloc, &[])?)?;
    }
    parts.push(transcript_of(alloc, events)?)?;
    access_in_turn::<State>(alloc, run.session, run.journal, &parts)
}

// A transcript of one line with these events.
fn transcript_of(alloc: Global, events: &[Event2]) -> Result<Transcript, AllocError> {
    let mut recording = Recording::with_room(alloc, 1)?;
    for event in events {
        recording.reserve()?;
        recording.push(*event);
    }
    recording.reserve()?;
    recording.end_line(0, Result2::Done);
    Ok(recording.finish())
}

/// The row of process `p`, empty beyond the last.
pub(crate) fn row<T>(rows: &[Sequence<T>], p: usize) -> &[T]
    ensures { result.now ≡ slice_index_or rows.now p [] }
{
    match rows.get(p) {
        None => &[],
        Some(row) => row.items(),
    }
}

/// The descriptor of the event at a place of process `p`.
pub(crate) fn desc_at(access: &Access, p: usize, place: usize) -> Desc {
    match row(&access.descriptors, p).get(place) {
        None => Desc::unknown(),
        Some(desc) => *desc,
    }
}

/// The deed that the event at a place of process `p` was.
pub(crate) fn deed_at(access: &Access, p: usize, place: usize) -> Option<&Deed> {
    row(&access.deeds, p).get(place)
}

/// Whether the entry by which the event at a place of process `p` missed changed its pair.
pub(crate) fn is_change_at(access: &Access, p: usize, place: usize) -> bool {
    match row(&access.changes, p).get(place) {
        None => false,
        Some(change) => *change,
    }
}
