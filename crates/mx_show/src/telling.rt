//! What the lines of one process came to, line by line.

use crate::gates::Gates;
use crate::notes::Notes;
use crate::numbers::Numbers;
use crate::words::{
    access_word, add_access, add_lack, add_reply, extent, kind_word, standing, walk_words,
};
use mx_judging::Part::{self, Decimal, Octal, Place, Text};
use mx_judging::{
    Accesses, Changed, FIRST_RING, Judged, NOTHING, Reason, add_parts, add_printable,
    add_sentences, explain, ring, source_of,
};
use mx_name::cut;
use mx_ptr::{Pointer, is_link};
use mx_sdw::{Denial, DescKind, Ring, Word};
use mx_state::Journal;
use mx_transcript::{Element, Event, Event2, Kind, Outcome, Result2, entry_at};
use std::alloc::{AllocError, Global};

/// How long a line becomes by what stands behind a refusal, beside the four spaces before it.
const WIDTH: usize = 124;

/// Tells what the lines of one process came to, one after another.
#[derive(Drop)]
pub struct Teller<'a> {
    journal: &'a Journal,
    accesses: &'a Accesses,
    notes: &'a Notes,
    process: u8,
    ring: u8,
    gates: Gates,
    numbers: Numbers<'a>,
    judged: usize,
    changed: usize,
}

impl<'a> Teller<'a> {
    /// Before the first line of a process.
    pub fn new(
        alloc: Global,
        journal: &'a Journal,
        accesses: &'a Accesses,
        notes: &'a Notes,
        process: u8,
    ) -> Teller<'a> {
        Teller {
            journal,
            accesses,
            notes,
            process,
            ring: FIRST_RING,
            gates: Gates::new(alloc, FIRST_RING),
            numbers: Numbers::new(alloc),
            judged: 0,
            changed: 0,
        }
    }

    /// The ring in which the process is.
    pub fn ring(&self) -> u8 {
        self.ring
    }

    /// Adds the events of a line and how it ended, each on a line of its own. A line that sets A has its word.
    pub fn add_step(
        &mut self,
        alloc: Global,
        out: &mut String,
        set: Option<Word>,
        events: &[Event2],
        ends: Result2,
    ) -> Result<(), AllocError> {
        let mut last = None;
        for event in events {
            self.add_event(alloc, out, event)?;
            last = element_of(event);
        }
        self.add_end(out, set, &ends, last)
    }

    /// Adds how a line ended whose last event was this reference, or none, where its events have not said it. A line that sets A has
    /// its word.
    pub fn add_end(
        &mut self,
        out: &mut String,
        set: Option<Word>,
        ends: &Result2,
        last: Option<&Element>,
    ) -> Result<(), AllocError> {
        self.add_result(out, set, ends, last)?;
        self.add_gates(out, ends, last)
    }

    // Adds an event.
    fn add_event(
        &mut self,
        alloc: Global,
        out: &mut String,
        event: &Event2,
    ) -> Result<(), AllocError> {
        match event {
            Event2::Entry(number) => self.add_entry(alloc, out, *number),
            Event2::Core(Event::Missing { segno, by }) => add_missing(out, *segno, *by),
            Event2::Core(Event::Seen(_)) => match self.next_judged() {
                Some(judged) => add_reference(alloc, out, &judged, self.ring),
                None => Ok(()),
            },
        }
    }

    /// The next reference of this process.
    pub fn next_judged(&mut self) -> Option<Judged> {
        let rest = self.accesses.judged.get(self.judged..)?;
        for judged in rest {
            self.judged = self.judged.saturating_add(1);
            if judged.process == self.process {
                return Some(*judged);
            }
        }
        None
    }

    // Adds the entry of this number, its reply, and whose access it changed.
    fn add_entry(
        &mut self,
        alloc: Global,
        out: &mut String,
        number: u32,
    ) -> Result<(), AllocError> {
        let Some(entry) = entry_at(self.journal, number) else {
            return Ok(());
        };
        let start = out.len();
        let (at, within) = (Decimal(number), ring(entry.ring));
        add_parts(
            out,
            &[Text("entry "), at, Text(" in ring "), within, Text(": ")],
        )?;
        add_reply(alloc, out, entry)?;
        add_notes(out, start, self.notes.of(number))?;
        out.push_str("\n")?;
        self.numbers.note(number, entry)?;
        self.add_changes(out, number)
    }

    /// Adds which segment numbers the process was given, and what each stands for.
    pub fn add_numbers(&self, out: &mut String) -> Result<(), AllocError> {
        self.numbers.add_table(out)
    }

    // Adds whose access this entry changed.
    fn add_changes(&mut self, out: &mut String, number: u32) -> Result<(), AllocError> {
        let Some(rest) = self.accesses.changed.get(self.changed..) else {
            return Ok(());
        };
        for changed in rest {
            if changed.entry > number {
                break;
            }
            self.changed = self.changed.saturating_add(1);
            if changed.entry == number {
                add_changed(out, changed)?;
            }
        }
        Ok(())
    }

    // Adds how the line ended, where its events have not said it.
    fn add_result(
        &mut self,
        out: &mut String,
        set: Option<Word>,
        ends: &Result2,
        last: Option<&Element>,
    ) -> Result<(), AllocError> {
        match ends {
            Result2::Done => match set {
                Some(word) => add_parts(out, &[Text("A is "), Octal(word.value()), Text("\n")]),
                None => Ok(()),
            },
            Result2::A(_) | Result2::Refused => Ok(()),
            Result2::Pr { n, pointer } => add_parts(out, &register_words(*n, pointer)),
            Result2::Moved { ring, procedure } => {
                add_parts(out, &move_words(self.ring, *ring, procedure))
            }
            Result2::Denied(denial) => add_parts(out, &denied_words(*denial, was_denied(last))),
            Result2::HistoryFull => out.push_str("the journal is full: nothing is entered\n"),
        }
    }

    // Adds what a call or return that ended a line did to the return gates, and goes on in the ring that it entered.
    fn add_gates(
        &mut self,
        out: &mut String,
        ends: &Result2,
        last: Option<&Element>,
    ) -> Result<(), AllocError> {
        let Some(element) = last else {
            return Ok(());
        };
        match ends {
            Result2::Moved { ring, procedure } => {
                let (from, to) = (self.ring, ring.number());
                self.ring = to;
                self.gates.add_moved(out, element.kind, from, to, procedure)
            }
            Result2::Denied(_) => self.gates.add_denied(out, element, self.ring),
            _ => Ok(()),
        }
    }
}

/// Adds sentences to the line that begins at this place, or, where it would be too long, each to a further line.
pub fn add_notes(out: &mut String, start: usize, notes: &[u8]) -> Result<(), AllocError> {
    let mut line = start;
    let mut rest = notes;
    while let Some((sentence, after)) = cut(b'\n', rest) {
        let width = (out.len().saturating_sub(line)).saturating_add(sentence.len());
        if width <= WIDTH {
            out.push_str(if sentence.starts_with(b"(") {
                " "
            } else {
                "; "
            })?;
        } else {
            out.push_str("\n")?;
            line = out.len();
            out.push_str("    ")?;
        }
        add_printable(out, sentence)?;
        rest = after;
    }
    Ok(())
}

/// The reference that an event is, if it is one.
pub fn element_of(event: &Event2) -> Option<&Element> {
    match event {
        Event2::Core(Event::Seen(element)) => Some(element),
        Event2::Core(Event::Missing { .. }) | Event2::Entry(_) => None,
    }
}

// Whether it is a reference that was denied.
fn was_denied(last: Option<&Element>) -> bool {
    match last {
        Some(element) => matches!(element.outcome, Outcome::Denied(_)),
        None => false,
    }
}

/// Adds that a segment number was missing.
pub fn add_missing(out: &mut String, segno: u16, by: u32) -> Result<(), AllocError> {
    let number = Octal(u64::from(segno));
    let (missing, anew) = (
        Text(" is missing: entry "),
        Text(" changed its access; begun anew\n"),
    );
    add_parts(out, &[Text("segment "), number, missing, Decimal(by), anew])
}

// What a pointer register holds now.
fn register_words(n: u8, pointer: &Pointer) -> [Part<'static>; 7] {
    [
        Text("PR"),
        Decimal(u32::from(n)),
        Text(" is "),
        Place(pointer.segno, pointer.word),
        Text(" in ring "),
        ring(pointer.ring),
        Text("\n"),
    ]
}

// Where the process goes on, and how its ring changed.
fn move_words(from: u8, to: Ring, procedure: &Pointer) -> [Part<'static>; 7] {
    let (before, after) = (Decimal(u32::from(from)), ring(to));
    let place = Place(procedure.segno, procedure.word);
    let on = Text("goes on at ");
    if to.number() < from {
        let falls = Text(": the ring falls from ");
        [
            on,
            place,
            falls,
            before,
            Text(" to "),
            after,
            Text(", through a gate\n"),
        ]
    } else if to.number() > from {
        let rises = Text(": the ring rises from ");
        [on, place, rises, before, Text(" to "), after, Text("\n")]
    } else {
        [
            on,
            place,
            Text(" in ring "),
            after,
            Text(" as before\n"),
            NOTHING,
            NOTHING,
        ]
    }
}

// A denial that ends a line, where it is not that of a reference, which was told.
fn denied_words(denial: Denial, told: bool) -> [Part<'static>; 5] {
    if told {
        return [NOTHING; 5];
    }
    let (name, why) = (Text(denial.text()), Text(walk_words(denial)));
    [Text("denied "), name, Text(": "), why, Text("\n")]
}

// Adds a reference, what came of it, and the access that it was judged on.
fn add_reference(
    alloc: Global,
    out: &mut String,
    judged: &Judged,
    current: u8,
) -> Result<(), AllocError> {
    add_parts(out, &reference_words(judged))?;
    add_outcome(alloc, out, judged, current)?;
    add_parts(
        out,
        &[
            Text("\n    at point "),
            Decimal(judged.element.point),
            Text(": "),
        ],
    )?;
    add_access(alloc, out, judged)?;
    add_parts(out, &since_words(judged.since))
}

// What is referred to, in which ring.
fn reference_words(judged: &Judged) -> [Part<'static>; 5] {
    let element = &judged.element;
    let place = Place(element.segno, element.word);
    let kind = Text(kind_word(element.kind));
    [
        kind,
        Text(" "),
        place,
        Text(" in ring "),
        ring(element.ring),
    ]
}

// Since when the access is what it is.
fn since_words(entry: u32) -> [Part<'static>; 3] {
    match entry {
        0 => [Text(", from the start\n"), NOTHING, NOTHING],
        _ => [Text(", since entry "), Decimal(entry), Text("\n")],
    }
}

/// Adds what came of a reference of a process that is in this ring.
pub fn add_outcome(
    alloc: Global,
    out: &mut String,
    judged: &Judged,
    current: u8,
) -> Result<(), AllocError> {
    match judged.element.outcome {
        Outcome::Denied(denial) => add_denial(alloc, out, judged, denial, current),
        Outcome::Written { value } => add_parts(out, &[Text(": stores "), Octal(value.value())]),
        Outcome::Entered { ring: entered } => {
            add_parts(out, &[Text(": enters ring "), ring(entered)])
        }
        Outcome::Read { value, .. } => add_read(out, judged, value),
    }
}

// Adds a denial with the numbers that its rule compares, and what else is to be known of it.
fn add_denial(
    alloc: Global,
    out: &mut String,
    judged: &Judged,
    denial: Denial,
    current: u8,
) -> Result<(), AllocError> {
    let element = &judged.element;
    let head = [Text(" denied "), Text(denial.text()), Text(": ")];
    match explain(&judged.desc, denial, element.ring, element.word, current) {
        Some(reason) => {
            add_sentences(out, &[&head, &reason.parts()])?;
            add_beside(alloc, out, judged, reason)
        }
        None => add_sentences(out, &[&head, &[Text(walk_words(denial))]]),
    }
}

// Adds, for a flag that is off, the entry that lacks it, and for a segment without gates the other way in.
fn add_beside(
    alloc: Global,
    out: &mut String,
    judged: &Judged,
    reason: Reason,
) -> Result<(), AllocError> {
    match reason {
        Reason::NoRead | Reason::NoWrite | Reason::NoExecute => add_lack(alloc, out, judged),
        Reason::NoGate { gate: 0, .. } => add_way_in(out, judged),
        _ => Ok(()),
    }
}

// Adds the other way in, which is open in the rings from the first to the second bracket.
fn add_way_in(out: &mut String, judged: &Judged) -> Result<(), AllocError> {
    let brackets = judged.desc.brackets();
    let ring = judged.element.ring.number();
    if ring < brackets.r1().number() || ring > brackets.r2().number() {
        return Ok(());
    }
    let way = Text("; the other way in is a call from within segment ");
    add_parts(out, &[way, Octal(u64::from(judged.element.segno))])
}

// Adds the word read, whose store it is, and where it leads.
fn add_read(out: &mut String, judged: &Judged, value: Word) -> Result<(), AllocError> {
    let head = [Text(": "), Octal(value.value())];
    let store = store_words(judged.element.outcome);
    match (judged.element.kind, Pointer::read(value)) {
        (Kind::Ind, Some(pointer)) => {
            let (leads, raised) = (pointer_words(&pointer), raised_words(judged, &pointer));
            add_sentences(out, &[&head, &store, &leads, &raised])
        }
        (Kind::Ind, None) if is_link(value) => {
            add_sentences(out, &[&head, &store, &[Text("; it is a link")]])
        }
        _ => add_sentences(out, &[&head, &store]),
    }
}

// Whose store a word is.
fn store_words(outcome: Outcome) -> [Part<'static>; 4] {
    match source_of(outcome) {
        Some(store) => [
            Text(", stored by process "),
            Decimal(u32::from(store.process)),
            Text(" at point "),
            Decimal(store.point),
        ],
        None => { [Text(", nobody has stored there"), NOTHING, NOTHING, NOTHING] }
    }
}

// Where a pointer that was read leads.
fn pointer_words(pointer: &Pointer) -> [Part<'static>; 5] {
    let further = if pointer.further {
        ", and on from there"
    } else {
        ""
    };
    [
        Text("; it points to "),
        Place(pointer.segno, pointer.word),
        Text(" in ring "),
        ring(pointer.ring),
        Text(further),
    ]
}

// How it raises the effective ring, and which number does so.
fn raised_words(judged: &Judged, pointer: &Pointer) -> [Part<'static>; 4] {
    let at = judged.element.ring.number();
    let (said, r1) = (pointer.ring, judged.desc.brackets().r1());
    if said.number() > at && said.number() >= r1.number() {
        [
            Text("; it raises the effective ring to "),
            ring(said),
            NOTHING,
            NOTHING,
        ]
    } else if r1.number() > at {
        let (rises, of) = (
            Text("; the effective ring rises to "),
            Text(", R1 of segment "),
        );
        [rises, ring(r1), of, Octal(u64::from(judged.element.segno))]
    } else {
        [NOTHING; 4]
    }
}

// Adds whose access changed, and from what to what: of the modes, and of how the authorization stands to the class, where the
// brackets are the same.
fn add_changed(out: &mut String, changed: &Changed) -> Result<(), AllocError> {
    let (before, after) = (&changed.before, &changed.after);
    let (process, segno) = (
        Decimal(u32::from(changed.process)),
        Octal(u64::from(changed.segno)),
    );
    let (place, was) = (Text(", segment "), Text(": was "));
    let head = [
        Text("    process "),
        process,
        place,
        segno,
        was,
        Text(access_word(before)),
    ];
    let then = [Text("; is "), Text(access_word(after))];
    if before.kind() == DescKind::Segment
        && after.kind() == DescKind::Segment
        && before.brackets() == after.brackets()
    {
        let (aim, next) = (before.aim(), after.aim());
        let stood = [Text(standing(aim, next))];
        let stands = [Text(standing(next, aim))];
        add_sentences(out, &[&head, &stood, &then, &stands, &[Text("\n")]])
    } else {
        let (before, after) = (extent(before), extent(after));
        add_sentences(out, &[&head, &before, &then, &after, &[Text("\n")]])
    }
}
