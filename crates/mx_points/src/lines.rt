//! The lines of a transcript as a list, and which of them an event is of.

ghost use Rattle.std.specs.Prelude.{◌≡◌, ◌↔◌, IfOk, IsTrue, []};
ghost use Rattle.mx_transcript.specs.Transcripts.{entries_named};
ghost use Rattle.mx_transcript.specs.declared.transcripts.Result2.TheVariants.{HistoryFull};
ghost use Rattle.mx_points.specs.Fronts.{IsLineOf};

use mx_transcript::{Event2, Result2, Transcript};
use std::alloc::{AllocError, Global};
use std::marker::Model;

/// A line of a transcript, with its number, its events and its result.
#[derive(Debug, Drop)]
pub struct Line<'a> {
    pub number: u32,
    pub events: &'a [Event2],
    pub ends: Result2,
}

impl<'a> Model for Line<'a> {
    ghost use Rattle.mx_transcript.specs.Transcripts.{Step};

    ghost Value = { Step };

    ghost view = { λ a. (a.number, a.events.now, a.ends) };
}

impl<'a> Line<'a> {
    /// Whether the line found the journal full.
    pub(crate) fn is_full(&self) -> bool
        ensures { IsTrue result ↔ (self.now.2 ≡ HistoryFull) }
    {
        matches!(&self.ends, Result2::HistoryFull)
    }

    /// Whether the line names no entry.
    pub(crate) fn names_none(&self) -> bool
        ensures { IsTrue result ↔ (entries_named self.now.1 ≡ []) }
    {
        for event in self.events {
            if let Event2::Entry(_) = event {
                return false;
            }
        }
        true
    }
}

/// The lines of a transcript in order.
///
/// # Errors
///
/// Want of memory.
pub fn lines_of(alloc: Global, transcript: &Transcript) -> Result<Vec<Line<'_>>, AllocError>
    ensures { IfOk result (λ lines. lines.items ≡ transcript.now) }
{
    let mut lines = Vec::new(alloc);
    for (number, events, ends) in transcript.steps() {
        lines.push(Line {
            number,
            events,
            ends,
        })?;
    }
    Ok(lines)
}

/// The place of the line that has the event at this place among all events of the lines; past the last event the number of
/// lines. Takes no memory.
pub fn line_of_event(lines: &[Line<'_>], place: usize) -> usize
    ensures { IsLineOf lines.now place result }
{
    let mut left = place;
    for k in 0..lines.len() {
        let line = &lines[k];
        let events = line.events.len();
        if left < events {
            return k;
        }
        left -= events;
    }
    lines.len()
}
