//! Transcripts: what each line of a process's script came to.

ghost use Rattle.std.specs.Prelude.{◌≡◌, ◌≤◌, ◌<◌, ◌+◌, [], ◌∷◌, ◌++◌, IsTrue, length, OnOk, IfOk, vec_capacity, vec_len};
ghost use Rattle.std.specs.Iterator.{YieldsFirstBy, item_count};
ghost use Rattle.mx_transcript.specs.Asking.{result_of};
ghost use Rattle.mx_transcript.specs.Denials.{last_denial};
ghost use Rattle.mx_transcript.specs.Recorded.{IsStill};

use mx_core::Event;
use mx_list::Sequence;
use mx_ptr::Pointer;
use mx_request::Reply;
use mx_sdw::{Denial, Ring, Word};
use std::alloc::{AllocError, Global};
use std::marker::Model;

/// An event of a transcript: a reference to memory, or the number of the process's own entry in the journal.
#[derive(Clone, Copy, Debug, PartialEq, Eq)]
pub enum Event2 {
    Core(Event),
    Entry(u32),
}

/// How a line ended: done, with the accumulator's new value, with a pointer register's new value, in another procedure
/// and its ring, with a reference denied, with a request refused, or with a request that found the journal at its limit
/// and was not entered.
#[derive(Clone, Copy, Debug, PartialEq, Eq)]
pub enum Result2 {
    Done,
    A(Word),
    Pr { n: u8, pointer: Pointer },
    Moved { ring: Ring, procedure: Pointer },
    Denied(Denial),
    Refused,
    HistoryFull,
}

impl Result2 {
    /// How a line ends whose last reply is this: refused exactly where it is a refusal, and else done. A line does not end
    /// with `waiting`, nor with `linked`.
    pub fn of(reply: &Reply) -> Result2
        ensures { result ≡ result_of reply.now }
    {
        match reply {
            Reply::Refused(_) => Result2::Refused,
            Reply::Done
            | Reply::Status(_)
            | Reply::Names(_)
            | Reply::Segno(_)
            | Reply::Linked { .. }
            | Reply::Sent
            | Reply::Message { .. }
            | Reply::Nobody
            | Reply::Waiting => Result2::Done,
        }
    }
}

/// A line that has ended: its number in the session text, where its events end among all those of its process, and its
/// result.
#[derive(Clone, Copy, Debug)]
pub(crate) struct LineEnd {
    number: u32,
    end: u32,
    result: Result2,
}

/// The lines of one process in order, each with its number in the session text, its events and its result. Process 0's
/// are those of the setup. All events stand in one list, and each line says where its own end.
#[derive(Debug, Drop)]
pub struct Transcript {
    events: Vec<Event2>,
    lines: Vec<LineEnd>,
}

impl Model for Transcript {
    ghost use Rattle.std.specs.Prelude.{List};
    ghost use Rattle.mx_transcript.specs.Recorded.{steps_from, AreEnds};
    ghost use Rattle.mx_transcript.specs.Transcripts.{Step};

    ghost Value = { List Step };

    ghost view = { λ a. steps_from 0 a.events.items a.lines.items };

    ghost invariant = { λ a. AreEnds 0 a.events.items a.lines.items };
}

impl Transcript {
    /// The lines in order, to read.
    pub fn steps(&self) -> Steps<'_>
        ensures { result ≡ self.now }
    {
        Steps {
            begun: 0,
            events: self.events.as_slice(),
            lines: self.lines.as_slice(),
        }
    }
}

/// The transcripts of processes 0, 1, .. in order.
pub type Transcripts = Sequence<Transcript>;

/// The lines of a transcript that are still to be read. Each comes with its number, its events and its result.
#[derive(Debug, Drop)]
pub struct Steps<'a> {
    begun: u32,
    events: &'a [Event2],
    lines: &'a [LineEnd],
}

impl<'a> Model for Steps<'a> {
    ghost use Rattle.std.specs.Prelude.{List};
    ghost use Rattle.mx_transcript.specs.Recorded.{steps_from, AreEnds};
    ghost use Rattle.mx_transcript.specs.Transcripts.{Step};

    ghost Value = { List Step };

    ghost view = { λ a. steps_from a.begun a.events.now a.lines.now };

    ghost invariant = { λ a. AreEnds a.begun a.events.now a.lines.now };
}

impl<'a> Iterator for Steps<'a> {
    type Item = (u32, &'a [Event2], Result2);

    ghost next_gives = { YieldsFirstBy (λ line. (line.0, line.1.now, line.2)) (λ rest. rest) };

    ghost remaining = { item_count (λ rest. rest) };

    fn next(&mut self) -> Option<(u32, &'a [Event2], Result2)> {
        let (line, lines) = self.lines.split_first()?;
        let (events, others) = self.events.split_at((line.end - self.begun) as usize);
        self.begun = line.end;
        self.events = others;
        self.lines = lines;
        Some((line.number, events, line.result))
    }
}

/// The transcript of a process at work: the lines that have ended, and the events of the line at work. Room is made
/// before it is used, so that an event or a line's end is never refused once what it tells of was done.
#[derive(Debug, Drop)]
pub struct Recording {
    events: Vec<Event2>,
    lines: Vec<LineEnd>,
}

impl Model for Recording {
    ghost use Rattle.std.specs.Prelude.{vec_capacity};
    ghost use Rattle.mx_transcript.specs.Recorded.{Recorded, recorded, AreEnds, IsFew};

    ghost Value = { Recorded };

    ghost view = { λ a. recorded a.events.items a.lines.items (vec_capacity a.events) (vec_capacity a.lines) };

    ghost invariant = { λ a. IsFew a.events.items a.lines.items };
}

impl Recording {
    /// No line has ended and no event has come. Takes the memory for so many lines and events.
    pub fn with_room(alloc: Global, lines: usize) -> Result<Recording, AllocError>
        ensures steps { IfOk result (λ r. r.steps ≡ []) }
        ensures events { IfOk result (λ r. r.events ≡ []) }
    {
        Ok(Recording {
            events: Vec::with_capacity(alloc, lines)?,
            lines: Vec::with_capacity(alloc, lines)?,
        })
    }

    /// How many lines have ended.
    pub fn lines(&self) -> usize
        ensures { result ≡ length self.now.steps }
    {
        self.lines.len()
    }

    /// The denial with which the last line ended that has ended, and the line's number in the session text. `None` exactly
    /// where that line was not denied, and where no line has ended.
    pub fn last_denial(&self) -> Option<(u32, Denial)>
        ensures { result ≡ last_denial self.now.steps }
    {
        let line = self.lines.last()?;
        let Result2::Denied(denial) = line.result else {
            return None;
        };
        Some((line.number, denial))
    }

    /// Makes room for one more event and for the end of one more line. Want of memory changes nothing that was recorded;
    /// nor does room.
    pub fn reserve(&mut self) -> Result<(), AllocError>
        ensures event { OnOk result (IsTrue self.new.event_room) }
        ensures line { OnOk result (IsTrue self.new.line_room) }
        ensures same { IsStill self.old self.new }
    {
        if self.events.len() >= u32::MAX as usize {
            return Err(AllocError);
        }
        self.events.reserve(1)?;
        self.lines.reserve(1)
    }

    /// Makes room for so many more lines and for as many more events. Want of memory changes nothing but room.
    pub fn reserve_lines(&mut self, lines: usize) -> Result<(), AllocError>
        ensures same { IsStill self.old self.new }
    {
        self.events.reserve(lines)?;
        self.lines.reserve(lines)
    }

    /// Makes room for so many more events and for the end of one more line, as [`Recording::reserve`] does for one event.
    #[inline(always)]
    pub fn reserve_events(&mut self, events: u32) -> Result<(), AllocError>
        ensures spare { OnOk result (events ≤ self.new.spare) }
        ensures line { OnOk result (IsTrue self.new.line_room) }
        ensures same { IsStill self.old self.new }
    {
        if u32::MAX as usize - self.events.len() < events as usize {
            return Err(AllocError);
        }
        self.events.reserve(events as usize)?;
        self.lines.reserve(1)
    }

    /// One more event of the line at work, for which room was made.
    pub fn keep(&mut self, event: Event2)
        requires { 1 ≤ self.old.spare }
        ensures steps { self.new.steps ≡ self.old.steps }
        ensures events { self.new.events ≡ self.old.events ++ event ∷ [] }
        ensures room { self.new.line_room ≡ self.old.line_room }
        ensures spare { self.old.spare ≤ self.new.spare + 1 }
    {
        put(&mut self.events, &event);
    }

    /// One more event of the line at work.
    pub fn push(&mut self, event: Event2)
        requires { IsTrue self.old.event_room }
        ensures steps { self.new.steps ≡ self.old.steps }
        ensures events { self.new.events ≡ self.old.events ++ event ∷ [] }
        ensures room { self.new.line_room ≡ self.old.line_room }
    {
        put(&mut self.events, &event);
    }

    /// The line at work has ended, with this number and this result.
    pub fn end_line(&mut self, number: u32, ends: Result2)
        requires { IsTrue self.old.line_room }
        ensures steps { self.new.steps ≡ self.old.steps ++ (number, self.old.events, ends) ∷ [] }
        ensures events { self.new.events ≡ [] }
        ensures spare { self.new.spare ≡ self.old.spare }
    {
        let end = self.events.len() as u32;
        let line = LineEnd {
            number,
            end,
            result: ends,
        };
        put(&mut self.lines, &line);
    }

    /// The lines that have ended. Takes no memory.
    pub fn finish(self) -> Transcript
        ensures { result ≡ self.steps }
    {
        Transcript {
            events: self.events,
            lines: self.lines,
        }
    }
}

// Puts an item behind the others. Condition: there is room for it. So it takes no memory.
#[inline(always)]
fn put<T: Copy>(list: &mut Vec<T>, item: &T)
    requires { vec_len list.old < vec_capacity list.old }
    ensures items { list.new.items ≡ list.old.items ++ item.now ∷ [] }
    ensures len { vec_len list.new ≡ vec_len list.old + 1 }
    ensures capacity { vec_capacity list.old ≤ vec_capacity list.new }
{
    list.push_reserved(*item);
}
