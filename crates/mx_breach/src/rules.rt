//! Which line of a part is bad, and which rule it fails first.

ghost use Rattle.std.specs.Prelude.{◌≡◌, ◌⊎◌, ◌<◌, ℕ, Some, IfSome, List, length, slice_get};
ghost use Rattle.mx_breach.specs.Rules.{AreFailing, IsBroken, IsOther, IsWithin};
ghost use Rattle.mx_legal.specs.Deciding.{misnamed};
ghost use Rattle.mx_points.specs.Fronts.{IsLineOf};
ghost use Rattle.mx_transcript.specs.Transcripts.{part};

use crate::runs::Run;
use mx_legal::Failing;
use mx_points::{Line, Naming, line_of_event};
use mx_state::Journal;
use mx_transcript::Event2;

/// A rule on the part of a process.
#[derive(Clone, Copy, Debug, PartialEq, Eq)]
pub enum Rule {
    /// The lines are the session's, in order, all of them or, where one was denied, those up to it and the last; and each keeps
    /// the line rule.
    Lines,
    /// They name the entries of the process, in order.
    Naming,
    /// No point precedes what the process had seen, nor passes what it did next.
    Points,
    /// Each miss comes by another process's entry that changed the access.
    Misses,
    /// Each read gives a word that the read rule allows.
    Reads,
    /// Of the setup's lines those past its entries found the journal full, and no others.
    Setup,
    /// Nothing is entered after a line that found the journal full.
    Full,
}

/// A rule that a line fails, and at which of its events, counted from 0; past the last it is the line's end.
#[derive(Clone, Copy, Debug)]
pub struct Broken {
    pub rule: Rule,
    pub event: usize,
}

// The earlier of two places, of which either may be none.
fn earlier(one: Option<usize>, other: Option<usize>) -> Option<usize> {
    match (one, other) {
        (None, other) => other,
        (Some(one), None) => Some(one),
        (Some(one), Some(other)) => Some(one.min(other)),
    }
}

fn misnamed(naming: Naming) -> Option<usize>
    ensures { result ≡ misnamed naming }
{
    match naming {
        Naming::Whole | Naming::Short => None,
        Naming::Misnamed(place) => Some(place),
    }
}

fn line_of(lines: &[Line<'_>], event: Option<usize>) -> Option<usize> {
    match event {
        None => None,
        Some(place) => Some(line_of_event(lines, place)),
    }
}

/// The place of the first line of a part that fails a rule; none where no line does.
pub fn bad_line(failing: &Failing<'_>) -> Option<usize> {
    let lines = failing.lines.as_slice();
    let line = earlier(failing.line, misnamed(failing.naming));
    let full = earlier(failing.setup, failing.full);
    let read = line_of(lines, failing.read);
    let miss = line_of(lines, failing.miss);
    let point = line_of(lines, failing.point);
    earlier(earlier(line, full), earlier(read, earlier(miss, point)))
}

/// The line of a part before a place.
pub fn line_before<'a, 'b>(lines: &'b [Line<'a>], place: usize) -> Option<&'b Line<'a>> {
    if place == 0 {
        return None;
    }
    lines.get(place - 1)
}

/// How many events the lines before this place have.
pub fn events_before(lines: &[Line<'_>], place: usize) -> usize {
    let mut count = 0usize;
    for line in lines.iter().take(place) {
        count = count.saturating_add(line.events.len());
    }
    count
}

/// How many entries events name.
pub fn named_in(events: &[Event2]) -> usize {
    let mut count = 0usize;
    for event in events {
        if let Event2::Entry(_) = event {
            count = count.saturating_add(1);
        }
    }
    count
}

/// How many entries the lines before this place name.
pub fn named_before(lines: &[Line<'_>], place: usize) -> usize {
    let mut count = 0usize;
    for line in lines.iter().take(place) {
        count = count.saturating_add(named_in(line.events));
    }
    count
}

/// The number of the entry of process `p` behind so many others of its own.
pub fn own_entry(journal: &Journal, p: usize, others: usize) -> Option<u32> {
    let mut left = others;
    for (place, entry) in journal.items().iter().enumerate() {
        if usize::from(entry.process) == p {
            if left == 0 {
                return u32::try_from(place.saturating_add(1)).ok();
            }
            left -= 1;
        }
    }
    None
}

// The first of a line's events that names an entry which is not the next one of process `p`, where so many were named before.
fn misnamed_event(journal: &Journal, p: usize, before: usize, events: &[Event2]) -> usize {
    let mut named = before;
    for (place, event) in events.iter().enumerate() {
        if let Event2::Entry(number) = event {
            if own_entry(journal, p, named) != Some(*number) {
                return place;
            }
            named = named.saturating_add(1);
        }
    }
    events.len()
}

// The one that comes first in the line, and of two at one event the first.
fn sooner(one: Option<Broken>, rule: Rule, event: Option<usize>) -> Option<Broken>
    ensures { (result ≡ one) ⊎ IsOther rule event result }
{
    match (one, event) {
        (one, None) => one,
        (None, Some(event)) => Some(Broken { rule, event }),
        (Some(one), Some(event)) => if event < one.event {
            Some(Broken { rule, event })
        } else {
            Some(one)
        },
    }
}

// At which event of a line the deed at a place among all is; none where it is another line's.
fn within(lines: &[Line<'_>], place: usize, failed: Option<usize>) -> Option<usize>
    ensures { IfSome result (λ event. IsWithin lines.now place failed) }
{
    match failed {
        None => None,
        Some(event) => if line_of_event(lines, event) == place {
            Some(event.saturating_sub(events_before(lines, place)))
        } else {
            None
        },
    }
}

// The event of a line at which a rule on lines fails there; none where it fails at another place.
fn at_place(failed: Option<usize>, place: usize, event: usize) -> Option<usize>
    ensures { IfSome result (λ event. failed ≡ Some place) }
{
    match failed {
        None => None,
        Some(other) => if other == place { Some(event) } else { None },
    }
}

/// The rule that the line at this place fails first, where it is known at which of its events it departs from the line rule,
/// if it does.
pub fn broken_at(
    run: &Run<'_>,
    failing: &Failing<'_>,
    p: usize,
    place: usize,
    departs: usize,
) -> Option<Broken>
    requires { AreFailing run.now.session.now run.now.journal.now run.now.transcripts.now p failing.now }
    ensures { IfSome result (λ broken. IsBroken run.now.session.now run.now.journal.now run.now.transcripts.now p place broken.rule) }
{
    let lines = failing.lines.as_slice();
    let Some(line) = lines.get(place) else {
        return None;
    };
    let named = misnamed_event(run.journal, p, named_before(lines, place), line.events);
    let end = line.events.len();
    let point = within(lines, place, failing.point);
    let undone = at_place(failing.line, place, departs);
    let naming = at_place(misnamed(failing.naming), place, named);
    let miss = within(lines, place, failing.miss);
    let read = within(lines, place, failing.read);
    let setup = at_place(failing.setup, place, end);
    let full = at_place(failing.full, place, end);
    let first = sooner(None, Rule::Points, point);
    let second = sooner(first, Rule::Lines, undone);
    let third = sooner(second, Rule::Naming, naming);
    let fourth = sooner(third, Rule::Misses, miss);
    let fifth = sooner(fourth, Rule::Reads, read);
    let sixth = sooner(fifth, Rule::Setup, setup);
    sooner(sixth, Rule::Full, full)
}
