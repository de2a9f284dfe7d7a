//! What is told of one process, moment by moment.

use crate::chronicles::Chronicle;
use crate::columns::{add_below, add_number, add_told};
use crate::lines::{add_heading, add_left_out, word_set};
use crate::telling::{Teller, element_of};
use itoa::Buffer;
use mx_judging::Moment;
use mx_request::SharedRequest;
use mx_script::{Line, Session};
use mx_sdw::Word;
use mx_transcript::{Event, Event2, Result2, Steps, Transcript, first_line};
use std::alloc::{AllocError, Global};

// The lines of a process: those of the setup are requests.
#[derive(Clone, Copy)]
enum Spelled<'a> {
    Setup(&'a [SharedRequest]),
    Script(&'a [Line]),
}

/// Tells of a process: the lines that are still to come, and the one that is told, by its number, its events and how it ended.
#[derive(Drop)]
pub(crate) struct Narrator<'a> {
    process: u8,
    session: &'a Session,
    lines: Spelled<'a>,
    first: u32,
    next: u64,
    steps: Steps<'a>,
    number: u32,
    events: &'a [Event2],
    ends: Result2,
    teller: Teller<'a>,
    has_come: bool,
}

impl<'a> Narrator<'a> {
    /// Before the first line of a process.
    pub(crate) fn new(
        session: &'a Session,
        process: u8,
        transcript: &'a Transcript,
        teller: Teller<'a>,
    ) -> Narrator<'a> {
        let first = first_line(session, process);
        Narrator {
            process,
            session,
            lines: lines_of(session, process),
            first,
            next: u64::from(first),
            steps: transcript.steps(),
            number: first,
            events: &[],
            ends: Result2::Done,
            teller,
            has_come: process == 0,
        }
    }

    /// Adds whose moments come: at first who it is.
    pub(crate) fn add_heading(&mut self, out: &mut Vec<u8>) -> Result<(), AllocError> {
        if self.has_come {
            return add_short_heading(out, self.process, self.ring());
        }
        self.has_come = true;
        match self
            .session
            .principals()
            .items()
            .get(usize::from(self.process).saturating_sub(1))
        {
            Some(entrant) => add_heading(out, self.process, entrant),
            None => Ok(()),
        }
    }

    /// Adds a moment, behind which its line goes on at an event, if it does. Where the last thing told is an earlier moment of the line,
    /// the line is not named again.
    pub(crate) fn add_moment(
        &mut self,
        alloc: Global,
        out: &mut Vec<u8>,
        moment: &Moment,
        until: Option<usize>,
        is_same_process: bool,
        chronicle: &mut Chronicle,
    ) -> Result<(), AllocError> {
        if moment.first == 0 {
            self.begin_line(out)?;
        }
        let mut told = String::new(alloc);
        self.add_events(alloc, &mut told, moment.first, until, chronicle)?;
        if moment.first > 0 && is_same_process {
            return add_below(out, told.as_bytes());
        }
        let row = out.len();
        add_number(out, row, self.number)?;
        self.add_spelling(out, moment)?;
        add_told(out, row, told.as_bytes())
    }

    // The ring in which the process is: 0 for the initializer.
    fn ring(&self) -> u8 {
        if self.process == 0 {
            0
        } else {
            self.teller.ring()
        }
    }

    // The next line begins. Adds which were left out before it.
    fn begin_line(&mut self, out: &mut Vec<u8>) -> Result<(), AllocError> {
        let Some((number, events, ends)) = self.steps.next() else {
            return Ok(());
        };
        add_left_out(out, self.next, u64::from(number))?;
        self.next = u64::from(number) + 1;
        self.number = number;
        self.events = events;
        self.ends = ends;
        Ok(())
    }

    // Adds the line as the session spells it, or that it goes on.
    fn add_spelling(&self, out: &mut Vec<u8>, moment: &Moment) -> Result<(), AllocError> {
        if moment.first > 0 {
            return out.extend_from_slice(b"goes on");
        }
        match self.lines {
            Spelled::Setup(requests) => match requests.get(self.place()) {
                Some(shared) => shared.request().append_to(out),
                None => Ok(()),
            },
            Spelled::Script(lines) => match lines.get(self.place()) {
                Some(line) => line.append_to(out),
                None => Ok(()),
            },
        }
    }

    // The place of the line among those of its process.
    fn place(&self) -> usize {
        self.number.saturating_sub(self.first) as usize
    }

    // The word of the line, where it sets A.
    fn word_set(&self) -> Option<Word> {
        match self.lines {
            Spelled::Setup(_) => None,
            Spelled::Script(lines) => word_set(lines.get(self.place())?),
        }
    }

    // Adds the events of the line from one on, up to another or to its end, and then how it ended.
    fn add_events(
        &mut self,
        alloc: Global,
        told: &mut String,
        from: usize,
        until: Option<usize>,
        chronicle: &mut Chronicle,
    ) -> Result<(), AllocError> {
        let mut last = None;
        for event in between(self.events, from, until) {
            self.add_event(alloc, told, event, chronicle)?;
            last = element_of(event);
        }
        if until.is_some() {
            return Ok(());
        }
        let set = self.word_set();
        self.teller.add_end(told, set, &self.ends, last)
    }

    fn add_event(
        &mut self,
        alloc: Global,
        told: &mut String,
        event: &Event2,
        chronicle: &mut Chronicle,
    ) -> Result<(), AllocError> {
        let ring = self.ring();
        match event {
            Event2::Entry(number) => chronicle.add_entry(alloc, told, *number, ring),
            Event2::Core(Event::Missing { segno, by }) => chronicle.add_miss(told, *segno, *by),
            Event2::Core(Event::Seen(_)) => match self.teller.next_judged() {
                Some(judged) => chronicle.add_reference(alloc, told, &judged, ring),
                None => Ok(()),
            },
        }
    }
}

// The events from one on, up to another or to the end.
fn between(events: &[Event2], from: usize, until: Option<usize>) -> &[Event2] {
    let to = until.unwrap_or(events.len());
    match events.get(from..to) {
        Some(between) => between,
        None => &[],
    }
}

// The lines of a process.
fn lines_of(session: &Session, process: u8) -> Spelled<'_> {
    match usize::from(process).checked_sub(1) {
        None => Spelled::Setup(session.setup().items()),
        Some(place) => match session.scripts().items().get(place) {
            Some(script) => Spelled::Script(script.items()),
            None => Spelled::Script(&[]),
        },
    }
}

// Adds that a process goes on, in this ring.
fn add_short_heading(out: &mut Vec<u8>, process: u8, ring: u8) -> Result<(), AllocError> {
    let mut buffer = Buffer::new();
    out.extend_from_slice(b"process ")?;
    out.extend_from_slice(buffer.format(process).as_bytes())?;
    out.extend_from_slice(b", in ring ")?;
    out.extend_from_slice(buffer.format(ring).as_bytes())?;
    out.extend_from_slice(b"\n")
}
