//! What each process did, cut into moments.

ghost use Rattle.std.specs.Prelude.{◌≡◌, ◌<◌, length, map, IfOk, IfSome};
ghost use Rattle.mx_judging.specs.Stories.{AreRising, NeverFalls, times_of};
ghost use Rattle.mx_judging.specs.Cutting.{IsUpTo, all_begun, lines_begun, numbers_of, times};

use crate::courses::{Course, Deed, Moment, Store};
use crate::replays::Judged;
use crate::sources::source_of;
use mx_script::Session;
use mx_transcript::{Event, Event2, Outcome, Result2, Transcript, setup_entries};
use std::alloc::{AllocError, Global};

/// The moments of each process from 0, whose references are among these, where the journal has so many entries. Those of a session's
/// processes stand behind its setup.
pub fn courses_of(
    alloc: Global,
    session: &Session,
    transcripts: &[Transcript],
    judged: &[Judged],
    entries: usize,
) -> Result<Vec<Course>, AllocError>
    ensures rising { IfOk result (λ courses. AreRising (times_of courses.items)) }
    ensures lines { IfOk result (λ courses. all_begun courses.items ≡ map numbers_of transcripts.now) }
{
    let behind = time_behind(setup_entries(session));
    let end = time_behind(u32::try_from(entries).unwrap_or(u32::MAX));
    let mut courses = Vec::new(alloc);
    let mut process = 0u8;
    for transcript in transcripts {
        let start = if process == 0 { 0 } else { behind };
        let course = course_of(alloc, process, start, transcript, judged, end)?;
        courses.push(course)?;
        process = process.saturating_add(1);
    }
    Ok(courses)
}

// The moments of a process, none of them before this time, where the journal ends at that one.
fn course_of(
    alloc: Global,
    process: u8,
    start: u64,
    transcript: &Transcript,
    judged: &[Judged],
    end: u64,
) -> Result<Course, AllocError>
    ensures rising { IfOk result (λ course. NeverFalls (times course.moments.items)) }
    ensures lines { IfOk result (λ course. lines_begun course.moments.items ≡ numbers_of transcript.now) }
{
    let mut cutter = Cutter::new(alloc, process, start, judged);
    for (number, events, ends) in transcript.steps() {
        cutter.add_line(number, events, end_time(&ends, end))?;
    }
    Ok(cutter.finish())
}

// The time of an entry.
fn time_at(entry: u32) -> u64 {
    u64::from(entry) * 2
}

// The time behind an entry, before the next.
fn time_behind(entry: u32) -> u64 {
    u64::from(entry) * 2 + 1
}

// The time of an event by itself: an entry stands at its number, a miss behind the entry that it names, and a reference behind its
// point and behind that of the store that it reads, since a store may be read at whose point the process is not yet.
fn time_of(event: &Event2) -> u64 {
    match event {
        Event2::Entry(number) => time_at(*number),
        Event2::Core(Event::Missing { by, .. }) => time_behind(*by),
        Event2::Core(Event::Seen(element)) => match source_of(element.outcome) {
            Some(store) => time_behind(element.point.max(store.point)),
            None => time_behind(element.point),
        },
    }
}

// The time of the first of these events; where there is none, the one at which their line ends.
fn first_time(events: &[Event2], end: u64) -> u64 {
    match events.first() {
        Some(event) => time_of(event),
        None => end,
    }
}

// The time at which a line ends by itself: where it found the journal full, the end of the journal, and else none.
fn end_time(ends: &Result2, end: u64) -> u64 {
    match ends {
        Result2::HistoryFull => end,
        _ => 0,
    }
}

// The moments of a process so far, the references of all that are not gone through yet, and the time that has come.
#[derive(Drop)]
struct Cutter<'a> {
    process: u8,
    judged: &'a [Judged],
    moments: Vec<Moment>,
    deeds: Vec<Deed>,
    now: u64,
    ghost up: { IsUpTo (times moments.items) now },
}

impl<'a> Cutter<'a> {
    ghost use Rattle.std.specs.Prelude.{◌≡◌, ◌++◌, ◌<◌, ◌≤◌, [], ◌∷◌, OnOk};

    fn new(alloc: Global, process: u8, now: u64, judged: &'a [Judged]) -> Cutter<'a>
        ensures { result.moments.items ≡ [] }
    {
        Cutter {
            process,
            judged,
            moments: Vec::new(alloc),
            deeds: Vec::new(alloc),
            now,
        }
    }

    fn finish(self) -> Course
        ensures rising { NeverFalls (times result.moments.items) }
        ensures moments { result.moments.items ≡ self.entry.moments.items }
    {
        Course {
            moments: self.moments,
            deeds: self.deeds,
        }
    }

    // Adds the moments of a line, which does not end before this time.
    fn add_line(&mut self, line: u32, events: &[Event2], end: u64) -> Result<(), AllocError>
        ensures { OnOk result (lines_begun self.new.moments.items ≡ lines_begun self.old.moments.items ++ line ∷ []) }
    {
        self.begin(line, first_time(events, end))?;
        for (first, event) in events.iter().enumerate() {
            if first > 0 {
                self.go_on(line, first, time_of(event))?;
            }
            self.add_deed(event)?;
        }
        if events.is_empty() {
            return Ok(());
        }
        self.go_on(line, events.len(), end)
    }

    // A line begins, at this time or at the one that has come.
    fn begin(&mut self, line: u32, time: u64) -> Result<(), AllocError>
        ensures { OnOk result (lines_begun self.new.moments.items ≡ lines_begun self.old.moments.items ++ line ∷ []) }
    {
        self.add_moment(line, 0, self.now.max(time))
    }

    // A line goes on at an event behind its first, at another moment where a later time has come.
    fn go_on(&mut self, line: u32, first: usize, time: u64) -> Result<(), AllocError>
        requires { 0 < first }
        ensures { OnOk result (lines_begun self.new.moments.items ≡ lines_begun self.old.moments.items) }
    {
        if time > self.now {
            self.add_moment(line, first, time)
        } else {
            Ok(())
        }
    }

    fn add_moment(&mut self, line: u32, first: usize, time: u64) -> Result<(), AllocError>
        requires { self.old.now ≤ time }
        ensures begins { first ≡ 0 → OnOk result (lines_begun self.new.moments.items ≡ lines_begun self.old.moments.items ++ line ∷ []) }
        ensures goes_on { 0 < first → OnOk result (lines_begun self.new.moments.items ≡ lines_begun self.old.moments.items) }
    {
        let moment = Moment {
            line,
            time,
            first,
            deeds: self.deeds.len(),
        };
        self.moments.push(moment)?;
        self.now = time;
        Ok(())
    }

    // Adds what an event does with a cell, if it does anything.
    fn add_deed(&mut self, event: &Event2) -> Result<(), AllocError>
        ensures { self.new.moments.items ≡ self.old.moments.items }
    {
        if let Event2::Core(Event::Seen(_)) = event {
            if let Some(deed) = self.next_deed() {
                self.deeds.push(deed)?;
            }
        }
        Ok(())
    }

    // What the next reference of the process does with its cell.
    fn next_deed(&mut self) -> Option<Deed>
        ensures { self.new.moments.items ≡ self.old.moments.items }
    {
        let references = self.judged;
        let place = first_of(references, self.process)?;
        self.judged = &references[place + 1..];
        deed_of(&references[place])
    }
}

// The place of the first reference of a process.
fn first_of(references: &[Judged], process: u8) -> Option<usize>
    ensures { IfSome result (λ place. place < length references.now) }
{
    for (place, judged) in references.iter().enumerate() {
        if judged.process == process {
            return Some(place);
        }
    }
    None
}

// What a reference does with its cell: it reads what was stored, or stores.
fn deed_of(judged: &Judged) -> Option<Deed> {
    let (element, cell) = (&judged.element, cell_of(judged));
    match element.outcome {
        Outcome::Written { value } => {
            let store = Store::new(judged.process, element.point, cell, value);
            Some(Deed::Stores(store))
        }
        Outcome::Read { value, .. } => {
            let source = source_of(element.outcome)?;
            let store = Store::new(source.process, source.point, cell, value);
            Some(Deed::Reads(store))
        }
        Outcome::Entered { .. } | Outcome::Denied(_) => None,
    }
}

// The cell of a reference: a word of a page.
fn cell_of(judged: &Judged) -> u32 {
    let (page, word) = (judged.desc.page(), judged.element.word);
    u32::from(page) * 64 + u32::from(word)
}
