//! The lines of a run in words, each an element of the page.

ghost use Rattle.std.specs.Prelude.{◌≡◌, ◌≤◌, IsErrOf, OnOk};
ghost use Rattle.mx_io.specs.Faults.{Rose};
ghost use Rattle.mx_transcript.specs.Legal.{IsLegal};
ghost use Rattle.mx_picture.specs.Pages.{Gains};

use crate::escapes::add_escaped;
use mx_io::{Sink, write_all};
use mx_judging::Part::{Decimal, Text};
use mx_judging::{Accesses, add_parts, judge_all};
use mx_request::SharedRequest;
use mx_script::{Line, Session};
use mx_show::{
    Notes, ShowError, Teller, add_heading, add_left_out, add_request_line, add_script_line,
    send_when_long,
};
use mx_state::Journal;
use mx_transcript::{Event, Event2, Result2, Transcript, Transcripts, first_line};
use std::alloc::{AllocError, Global};

/// Sends the lines of the setup and of each process, as `mx_show` tells them.
pub(crate) fn send_lines<K: Sink>(
    alloc: Global,
    session: &Session,
    journal: &Journal,
    transcripts: &Transcripts,
    sink: &mut K,
) -> Result<(), ShowError>
    requires legal { IsLegal session.now journal.now transcripts.now }
    ensures sent { OnOk result (Gains (K.out sink.old) (K.out sink.new)) }
    ensures cause { IsErrOf result ShowError.Fault → Rose (K.faults sink.old) (K.faults sink.new) }
    ensures only { (IsErrOf result ShowError.Fault → ⊥) → K.faults sink.new ≡ K.faults sink.old }
    ensures later { K.faults sink.old ≤ K.faults sink.new }
{
    let accesses = judge_all(alloc, session, journal, transcripts)?;
    let notes = Notes::new(alloc, session, journal)?;
    let told = Told {
        journal,
        accesses: &accesses,
        notes: &notes,
    };
    let mut out = Vec::new(alloc);
    out.extend_from_slice(TABLE.as_bytes())?;
    send_parts(alloc, session, transcripts.items(), told, &mut out, sink)?;
    out.extend_from_slice(b"</section>\n</main>\n")?;
    write_all(sink, &out)?;
    Ok(())
}

// What is told of.
#[derive(Clone, Copy)]
struct Told<'a> {
    journal: &'a Journal,
    accesses: &'a Accesses,
    notes: &'a Notes,
}

// Sends the setup, and the processes from the first on.
fn send_parts<K: Sink>(
    alloc: Global,
    session: &Session,
    transcripts: &[Transcript],
    told: Told,
    out: &mut Vec<u8>,
    sink: &mut K,
) -> Result<(), ShowError>
    ensures sent { OnOk result (Gains (K.out sink.old) (K.out sink.new)) }
    ensures cause { IsErrOf result ShowError.Fault → Rose (K.faults sink.old) (K.faults sink.new) }
    ensures only { (IsErrOf result ShowError.Fault → ⊥) → K.faults sink.new ≡ K.faults sink.old }
    ensures later { K.faults sink.old ≤ K.faults sink.new }
{
    let mut process = 0u8;
    for transcript in transcripts {
        let mut teller = Teller::new(alloc, told.journal, told.accesses, told.notes, process);
        add_title(alloc, out, session, process)?;
        let script = Script::of(session, process);
        send_part(alloc, process, script, transcript, &mut teller, out, sink)?;
        process = process.saturating_add(1);
    }
    Ok(())
}

// The lines of a part, the first of which has this number in the session.
#[derive(Clone, Copy)]
struct Script<'a> {
    first: u32,
    lines: Lines<'a>,
}

#[derive(Clone, Copy)]
enum Lines<'a> {
    Setup(&'a [SharedRequest]),
    Process(&'a [Line]),
}

impl<'a> Script<'a> {
    fn of(session: &'a Session, process: u8) -> Script<'a> {
        let first = first_line(session, process);
        let lines = match usize::from(process).checked_sub(1) {
            Some(place) => match session.scripts().items().get(place) {
                Some(script) => Lines::Process(script.items()),
                None => Lines::Process(&[]),
            },
            None => Lines::Setup(session.setup().items()),
        };
        Script { first, lines }
    }
}

// Adds whose lines come.
fn add_title(
    alloc: Global,
    out: &mut Vec<u8>,
    session: &Session,
    process: u8,
) -> Result<(), AllocError> {
    let mut title = Vec::new(alloc);
    let place = usize::from(process).checked_sub(1);
    match place.and_then(|place| session.principals().items().get(place)) {
        Some(entrant) => add_heading(&mut title, process, entrant)?,
        None => title.extend_from_slice(b"setup: Initializer.SysDaemon.z in ring 0")?,
    }
    out.extend_from_slice(b"<h2>")?;
    add_escaped(out, title.trim_ascii())?;
    out.extend_from_slice(b"</h2>\n")
}

// Sends the lines of a part that came to something, and which were left out.
fn send_part<K: Sink>(
    alloc: Global,
    process: u8,
    script: Script,
    transcript: &Transcript,
    teller: &mut Teller,
    out: &mut Vec<u8>,
    sink: &mut K,
) -> Result<(), ShowError>
    ensures sent { OnOk result (Gains (K.out sink.old) (K.out sink.new)) }
    ensures cause { IsErrOf result ShowError.Fault → Rose (K.faults sink.old) (K.faults sink.new) }
    ensures only { (IsErrOf result ShowError.Fault → ⊥) → K.faults sink.new ≡ K.faults sink.old }
    ensures later { K.faults sink.old ≤ K.faults sink.new }
{
    let mut next = u64::from(script.first);
    for (number, events, ends) in transcript.steps() {
        add_gap(alloc, out, next, u64::from(number))?;
        let text = line_text(alloc, script, number, teller, events, ends)?;
        add_element(alloc, out, process, number, events, &text)?;
        send_when_long(out, sink)?;
        next = u64::from(number) + 1;
    }
    Ok(())
}

// Adds which lines were left out, from this number up to that one, which is not among them.
fn add_gap(alloc: Global, out: &mut Vec<u8>, from: u64, to: u64) -> Result<(), AllocError> {
    let mut gap = Vec::new(alloc);
    add_left_out(&mut gap, from, to)?;
    if gap.is_empty() {
        return Ok(());
    }
    out.extend_from_slice(b"<p class=\"left\">")?;
    add_escaped(out, gap.trim_ascii())?;
    out.extend_from_slice(b"</p>\n")
}

// A line, and what is told of it.
fn line_text(
    alloc: Global,
    script: Script,
    number: u32,
    teller: &mut Teller,
    events: &[Event2],
    ends: Result2,
) -> Result<Vec<u8>, AllocError> {
    let mut text = Vec::new(alloc);
    let place = number.saturating_sub(script.first) as usize;
    match script.lines {
        Lines::Setup(requests) => {
            if let Some(request) = requests.get(place) {
                add_request_line(alloc, &mut text, number, request, teller, events, ends)?;
            }
        }
        Lines::Process(lines) => {
            if let Some(line) = lines.get(place) {
                add_script_line(alloc, &mut text, number, line, teller, events, ends)?;
            }
        }
    }
    Ok(text)
}

// Adds a line as an element, with the last entry of the journal that it made, and the last point at which it referred.
fn add_element(
    alloc: Global,
    out: &mut Vec<u8>,
    process: u8,
    number: u32,
    events: &[Event2],
    text: &[u8],
) -> Result<(), AllocError> {
    let (process, number) = (Decimal(u32::from(process)), Decimal(number));
    let mut start = String::new(alloc);
    add_parts(
        &mut start,
        &[
            Text("<p class=\"line\" id=\"l"),
            process,
            Text("-"),
            number,
            Text("\" data-line=\""),
            process,
            Text("-"),
            number,
        ],
    )?;
    add_place(&mut start, "\" data-entry=\"", last_entry(events))?;
    add_place(&mut start, "\" data-point=\"", last_point(events))?;
    start.push_str("\">")?;
    out.extend_from_slice(start.as_bytes())?;
    add_escaped(out, text.trim_ascii_end())?;
    out.extend_from_slice(b"</p>\n")
}

fn add_place(out: &mut String, label: &str, place: Option<u32>) -> Result<(), AllocError> {
    match place {
        Some(number) => add_parts(out, &[Text(label), Decimal(number)]),
        None => Ok(()),
    }
}

// The last entry of the journal that a line made.
fn last_entry(events: &[Event2]) -> Option<u32> {
    let mut last = None;
    for event in events {
        if let Event2::Entry(number) = event {
            last = Some(*number);
        }
    }
    last
}

// The last point at which a line referred to a word.
fn last_point(events: &[Event2]) -> Option<u32> {
    let mut last = None;
    for event in events {
        if let Event2::Core(Event::Seen(element)) = event {
            last = Some(element.point);
        }
    }
    last
}

const TABLE: &str = r#"</section>
<main>
<section id="accesses" aria-label="What the entries of the journal leave">
<p><label for="entry">after entry <output id="number" for="entry">0</output></label>
<input id="entry" type="range" min="0" value="0" aria-describedby="told"></p>
<p id="told" aria-live="polite"></p>
<p><label><input id="stacks" type="checkbox"> stacks too</label></p>
<table>
<thead><tr><th scope="col">number</th><th scope="col">what it is</th><th scope="col">modes</th>
<th scope="col">brackets</th><th scope="col">size</th><th scope="col">decided by</th></tr></thead>
<tbody id="rows"></tbody>
</table>
</section>
<section id="lines" aria-label="The lines of the session, and what they came to">
"#;
