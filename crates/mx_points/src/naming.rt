//! The entries that a process's lines name: its own, in order.

ghost use Rattle.std.specs.Prelude.{◌≡◌, [], ◌∷◌, MatchOption};
ghost use Rattle.mx_points.specs.Fronts.{IsNaming};
ghost use Rattle.mx_points.specs.Own.{IsNextOwn, IsPassage, own_from};
ghost use Rattle.mx_transcript.specs.declared.transcripts.Event2.TheVariants.{Entry};

use crate::lines::Line;
use mx_state::Journal;
use mx_transcript::Event2;

/// How the entries that a process's lines name stand to its entries in the journal.
#[derive(Clone, Copy, Debug, PartialEq, Eq)]
pub enum Naming {
    /// They are the same.
    Whole,
    /// They are the first, but not all.
    Short,
    /// Those of the lines before this place are the first; with its own they are not.
    Misnamed(usize),
}

/// How the entries that the lines of process `p` name stand to its entries in the journal. Goes over both once, and takes no
/// memory.
pub fn first_misnamed(journal: &Journal, p: usize, lines: &[Line<'_>]) -> Naming
    ensures { IsNaming journal.now p lines.now result }
{
    let mut from = 0;
    for place in 0..lines.len() {
        let line = &lines[place];
        match after_events(journal, p, from, line.events) {
            None => return Naming::Misnamed(place),
            Some(next) => from = next,
        }
    }
    match next_own(journal, p, from) {
        None => Naming::Whole,
        Some(_) => Naming::Short,
    }
}

// From where the entries of process `p` go on after those that the events name; none where these are not the first from the
// place on.
fn after_events(journal: &Journal, p: usize, from: usize, events: &[Event2]) -> Option<usize>
    ensures { IsPassage p journal.now from events.now result }
{
    let mut next = from;
    for event in events {
        next = after_event(journal, p, next, event)?;
    }
    Some(next)
}

fn after_event(journal: &Journal, p: usize, from: usize, event: &Event2) -> Option<usize>
    ensures { IsPassage p journal.now from (event.now ∷ []) result }
{
    match event {
        Event2::Core(_) => Some(from),
        Event2::Entry(number) => after_entry(journal, p, from, *number),
    }
}

fn after_entry(journal: &Journal, p: usize, from: usize, number: u32) -> Option<usize>
    ensures { IsPassage p journal.now from (Entry number ∷ []) result }
{
    let own = next_own(journal, p, from)?;
    if own == number as usize {
        Some(own)
    } else {
        None
    }
}

// The number of the first entry of process `p` from this place on: it is the place after that entry.
fn next_own(journal: &Journal, p: usize, from: usize) -> Option<usize>
    ensures { MatchOption result (own_from p journal.now from ≡ []) (IsNextOwn p journal.now from) }
{
    let entries = journal.items();
    for place in from..entries.len() {
        if usize::from(entries[place].process) == p {
            return Some(place + 1);
        }
    }
    None
}
