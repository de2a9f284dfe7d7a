//! What the plain supervisor is asked about the events of a run, and when.

ghost use Rattle.std.specs.Prelude.{◌≡◌, ◌+◌, ◌++◌, ◌≤◌, ◌<◌, length, map, min, IfOk, OnOk};
ghost use Rattle.std.specs.List.Sorted.{IsNonDecreasingBy};
ghost use Rattle.mx_access.specs.Questions.{AreStarts, AreTurnsOf, asked_of, question_of, turn, turns_at, turns_from};
ghost use Rattle.mx_transcript.specs.Transcripts.{events_of};

use mx_core::Event;
use mx_sdw::Desc;
use mx_transcript::{Event2, Transcript};
use std::alloc::{AllocError, Global};

/// What is asked about an event: the descriptor that a process has of a segment number after so many entries, `point`, and
/// the use of a word's page then; and where `before` is another point, the descriptor there too.
#[derive(Clone, Copy, Debug)]
pub(crate) struct Question {
    pub(crate) process: usize,
    pub(crate) segno: u16,
    pub(crate) word: u16,
    pub(crate) before: u32,
    pub(crate) point: u32,
}

/// What was said: the descriptor before the point, the one at it, and the entry that gave out the word's page last.
#[derive(Clone, Copy, Debug)]
pub(crate) struct Told {
    pub(crate) before: Desc,
    pub(crate) desc: Desc,
    pub(crate) since: u32,
}

/// The question at a place is to be answered at a point: its own, or the one before. What is asked there stands in it, but that
/// each process from 65,535 on bears that number: none of them is of the session.
#[derive(Clone, Copy, Debug)]
pub(crate) struct Turn {
    pub(crate) point: u32,
    pub(crate) at: u32,
    pub(crate) process: u16,
    pub(crate) segno: u16,
    pub(crate) word: u16,
    pub(crate) is_before: bool,
}

/// When what is asked about the events of all processes is answered, how much that is, and behind how much of it what is
/// asked about each process's begins.
#[derive(Debug, Drop)]
pub(crate) struct Turns {
    pub(crate) turns: Vec<Turn>,
    pub(crate) count: u32,
    pub(crate) starts: Vec<usize>,
}

impl Question {
    /// What is asked about an event of process `p`, in a journal of so many entries. A point beyond the journal is its end.
    pub(crate) fn of(entries: usize, p: usize, event: &Event2) -> Question
        ensures { result ≡ question_of entries p event.now }
    {
        match event {
            Event2::Core(Event::Seen(element)) => {
                let point = within(element.point, entries);
                Question {
                    process: p,
                    segno: element.segno,
                    word: element.word,
                    before: point,
                    point,
                }
            },
            Event2::Core(Event::Missing { segno, by }) => Question {
                process: p,
                segno: *segno,
                word: 0,
                before: within(by.saturating_sub(1), entries),
                point: within(*by, entries),
            },
            Event2::Entry(_) => Question {
                process: p,
                segno: 0,
                word: 0,
                before: 0,
                point: 0,
            },
        }
    }
}

impl Told {
    /// Nothing was said yet.
    pub(crate) fn nothing() -> Told {
        Told {
            before: Desc::unknown(),
            desc: Desc::unknown(),
            since: 0,
        }
    }
}

// A point, or the end of the journal where it is beyond.
fn within(point: u32, entries: usize) -> u32
    ensures { result ≡ min point entries }
{
    if (point as usize) < entries {
        point
    } else {
        entries as u32
    }
}

// The number of a process, or 65,535 where it is beyond.
fn numbered(p: usize) -> u16
    ensures { result ≡ min p 65535 }
{
    if p < 65535 { p as u16 } else { 65535 }
}

impl Turn {
    // The turn of the question at a place, at its point or at the one before.
    fn of(at: u32, question: &Question, is_before: bool) -> Turn
        ensures { result ≡ turn at question.now is_before }
    {
        let point = if is_before {
            question.before
        } else {
            question.point
        };
        Turn {
            point,
            at,
            process: numbered(question.process),
            segno: question.segno,
            word: question.word,
            is_before,
        }
    }
}

// Adds the turns of the question at a place.
fn add_turns(turns: &mut Vec<Turn>, at: u32, question: &Question) -> Result<(), AllocError>
    ensures { OnOk result (turns.new.items ≡ turns.old.items ++ turns_at at question.now) }
{
    turns.push(Turn::of(at, question, false))?;
    if question.before < question.point {
        turns.push(Turn::of(at, question, true))?;
    }
    Ok(())
}

// Adds the turns of what is asked about events of process `p`, from a place on, and tells the place behind.
fn add_events(
    turns: &mut Vec<Turn>,
    at: u32,
    entries: usize,
    p: usize,
    events: &[Event2],
) -> Result<u32, AllocError>
    ensures turns { OnOk result (turns.new.items ≡ turns.old.items ++ turns_from at (map (question_of entries p) events.now)) }
    ensures behind { IfOk result (λ behind. behind ≡ at + length events.now) }
{
    let mut next = at;
    for event in events {
        add_turns(turns, next, &Question::of(entries, p, event))?;
        next = next.checked_add(1).ok_or(AllocError)?;
    }
    Ok(next)
}

// Adds the turns of what is asked about the events of a transcript, that of process `p`, from a place on, and tells the
// place behind.
fn add_part(
    turns: &mut Vec<Turn>,
    at: u32,
    entries: usize,
    p: usize,
    transcript: &Transcript,
) -> Result<u32, AllocError>
    ensures turns { OnOk result (turns.new.items ≡ turns.old.items ++ turns_from at (map (question_of entries p) (events_of transcript.now))) }
    ensures behind { IfOk result (λ behind. behind ≡ at + length (events_of transcript.now)) }
{
    let mut next = at;
    for (_, events, _) in transcript.steps() {
        next = add_events(turns, next, entries, p, events)?;
    }
    Ok(next)
}

// How many events transcripts have.
fn room_for(transcripts: &[Transcript]) -> usize {
    let mut room = 0usize;
    for transcript in transcripts {
        for (_, events, _) in transcript.steps() {
            room = room.saturating_add(events.len());
        }
    }
    room
}

// When what is asked about the events of all processes is answered, those of process 0 first.
fn all_turns(alloc: Global, entries: usize, transcripts: &[Transcript]) -> Result<Turns, AllocError>
    ensures turns { IfOk result (λ r. r.turns.items ≡ turns_from 0 (asked_of entries transcripts.now)) }
    ensures count { IfOk result (λ r. r.count ≡ length (asked_of entries transcripts.now)) }
    ensures starts { IfOk result (λ r. AreStarts entries transcripts.now r.starts.items) }
{
    let mut turns = Vec::with_capacity(alloc, room_for(transcripts))?;
    let mut count = 0u32;
    let mut starts = Vec::new(alloc);
    for p in 0..transcripts.len() {
        starts.push(count as usize)?;
        count = add_part(&mut turns, count, entries, p, &transcripts[p])?;
    }
    Ok(Turns {
        turns,
        count,
        starts,
    })
}

/// When what is asked about the events of all processes is answered, in order of points. More than 4,294,967,295 events
/// count as want of memory.
pub(crate) fn turns_of(
    alloc: Global,
    entries: usize,
    transcripts: &[Transcript],
) -> Result<Turns, AllocError>
    ensures turns { IfOk result (λ r. AreTurnsOf entries transcripts.now r.turns.items) }
    ensures ordered { IfOk result (λ r. IsNonDecreasingBy (λ t. t.point) r.turns.items) }
    ensures count { IfOk result (λ r. r.count ≡ length (asked_of entries transcripts.now)) }
    ensures starts { IfOk result (λ r. AreStarts entries transcripts.now r.starts.items) }
{
    let mut all = all_turns(alloc, entries, transcripts)?;
    all.turns.sort_unstable_by_key(|turn| turn.point);
    Ok(all)
}
