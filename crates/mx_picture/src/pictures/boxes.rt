//! The boxes of the references: what each is, and what came of it.

ghost use Rattle.std.specs.Prelude.{◌≡◌, ◌++◌, OnOk};
ghost use Rattle.std.specs.Fmt.{decimal};
ghost use Rattle.mx_picture.specs.Boxes.{IsBoxBehind, head_text, lane_of};

use super::layers::MARK;
use super::sentences::add_sentence;
use crate::labels::text_of;
use crate::layout::{BOX_HEIGHT, BOX_WIDTH, Layout, Placed};
use crate::positions::Position;
use crate::svg::{add_rect, add_text, ink_of};
use itoa::Buffer;
use mx_judging::Part::{self, Decimal, Octal, Place, Text};
use mx_judging::{NOTHING, Reason, explain, ring, source_of};
use mx_sdw::Denial;
use mx_show::kind_word;
use mx_transcript::Outcome;
use std::alloc::{AllocError, Global};

/// Adds the box of a reference, as a group that is named by the process, the line and the reference, in the lane of its process.
pub(super) fn add_box(
    alloc: Global,
    out: &mut Vec<u8>,
    layout: &Layout,
    placed: &Placed,
) -> Result<(), AllocError>
    ensures { OnOk result (IsBoxBehind layout.now placed.now out.old.items out.new.items) }
{
    let lane = layout.lane(placed.row, placed.judged.process);
    let mut marks = String::with_capacity(alloc, MARK)?;
    add_marks(alloc, &mut marks, placed, lane.boxes_from())?;
    add_head(out, placed, lane.top)?;
    out.extend_from_slice(marks.as_bytes())?;
    out.extend_from_slice(b"</g>\n")
}

// Adds the head of a group: its name, its line, and where it stands.
fn add_head(out: &mut Vec<u8>, placed: &Placed, top: u32) -> Result<(), AllocError>
    ensures { OnOk result (out.new.items ≡ out.old.items ++ head_text placed.now top) }
{
    let process = u32::from(placed.judged.process);
    add_labelled(out, b"<g class=\"box\" id=\"b", process)?;
    add_labelled(out, b"-", placed.line)?;
    add_labelled(out, b"-", placed.nth)?;
    add_labelled(out, b"\" data-line=\"", process)?;
    add_labelled(out, b"-", placed.line)?;
    add_labelled(out, b"\" transform=\"translate(", placed.x)?;
    add_labelled(out, b" ", top)?;
    out.extend_from_slice(b")\">\n")
}

// Adds a label and then the number.
fn add_labelled(out: &mut Vec<u8>, label: &[u8], n: u32) -> Result<(), AllocError>
    ensures { OnOk result (out.new.items ≡ out.old.items ++ (label.now ++ decimal n)) }
{
    let mut buffer = Buffer::new();
    out.extend_from_slice(label)?;
    out.extend_from_slice(buffer.format(n).as_bytes())
}

// Adds the marks of a box, so far below the top of its lane.
fn add_marks(
    alloc: Global,
    out: &mut String,
    placed: &Placed,
    below: u32,
) -> Result<(), AllocError> {
    let corner = Position::new(0, below);
    let denied = matches!(placed.judged.element.outcome, Outcome::Denied(_));
    add_sentence(out, placed)?;
    add_rect(out, corner, BOX_WIDTH, BOX_HEIGHT, frame(denied))?;
    let text = corner.right(6);
    let line = [Text("L "), Decimal(placed.line)];
    add_text(
        out,
        text.down(12),
        "font-size=\"10\" fill=\"#546e7a\"",
        &line,
    )?;
    add_name(alloc, out, placed, text.down(26))?;
    add_text(out, text.down(42), ink_of(denied), &told(placed))?;
    add_text(out, text.down(57), "font-size=\"11\"", &more(placed))
}

/// How a box looks.
pub(super) fn frame(denied: bool) -> &'static str {
    if denied {
        "rx=\"5\" fill=\"#ffebee\" stroke=\"#c62828\" stroke-width=\"3\""
    } else {
        "rx=\"5\" fill=\"#ffffff\" stroke=\"#37474f\""
    }
}

// Adds what is referred to, smaller where it is long.
fn add_name(
    alloc: Global,
    out: &mut String,
    placed: &Placed,
    at: Position,
) -> Result<(), AllocError> {
    let name = text_of(alloc, &name(placed))?;
    let style = if name.len() > 15 {
        "font-weight=\"bold\" font-size=\"11\""
    } else {
        "font-weight=\"bold\""
    };
    add_text(out, at, style, &[Text(&name)])
}

// What is referred to, with the effective ring where that is not the ring of the process.
fn name(placed: &Placed) -> [Part<'static>; 5] {
    let element = &placed.judged.element;
    let (kind, place) = (
        Text(kind_word(element.kind)),
        Place(element.segno, element.word),
    );
    if element.ring.number() != placed.current {
        [kind, Text(" "), place, Text(" r"), ring(element.ring)]
    } else {
        [kind, Text(" "), place, NOTHING, NOTHING]
    }
}

// What came of a reference.
fn told(placed: &Placed) -> [Part<'static>; 2] {
    match placed.judged.element.outcome {
        Outcome::Denied(denial) => [Text(denial.text()), NOTHING],
        Outcome::Written { value } => [Octal(value.value()), NOTHING],
        Outcome::Entered { ring: entered } => [Text("enters ring "), ring(entered)],
        Outcome::Read { value, .. } => [Octal(value.value()), NOTHING],
    }
}

// What else is said of it.
fn more(placed: &Placed) -> [Part<'static>; 4] {
    let outcome = placed.judged.element.outcome;
    match outcome {
        Outcome::Denied(denial) => why(placed, denial),
        Outcome::Written { .. } => words("stored"),
        Outcome::Entered { ring } => moved(placed.current, ring.number()),
        Outcome::Read { .. } => match source_of(outcome) {
            Some(store) => {
                let (process, point) = (Decimal(u32::from(store.process)), Decimal(store.point));
                [Text("from "), process, Text(" at "), point]
            }
            None => words("from nobody"),
        },
    }
}
// How the ring of a process changes.
fn moved(from: u8, to: u8) -> [Part<'static>; 4] {
    let (before, after) = (Decimal(u32::from(from)), Decimal(u32::from(to)));
    if to < from {
        [Text("falls "), before, Text(" to "), after]
    } else if to > from {
        [Text("rises "), before, Text(" to "), after]
    } else {
        [Text("stays in "), after, NOTHING, NOTHING]
    }
}

// The reason of a denial, as short as it can be said.
fn why(placed: &Placed, denial: Denial) -> [Part<'static>; 4] {
    let element = &placed.judged.element;
    match explain(
        &placed.judged.desc,
        denial,
        element.ring,
        element.word,
        placed.current,
    ) {
        Some(Reason::Beyond { word, bound }) => compared(word, " >= ", bound),
        Some(Reason::NotDominated) => words("does not dominate"),
        Some(Reason::NotEqual) => words("class not equal"),
        Some(Reason::NoRead) => words("r is off"),
        Some(Reason::NoWrite) => words("w is off"),
        Some(Reason::NoExecute) => words("e is off"),
        Some(Reason::Above { ring, bracket }) => {
            let [name, limit] = bracket.parts();
            [Decimal(u32::from(ring)), Text(" > "), name, limit]
        }
        Some(Reason::Below { ring, bracket }) => {
            let [name, limit] = bracket.parts();
            [Decimal(u32::from(ring)), Text(" < "), name, limit]
        }
        Some(Reason::NoGate { word, gate }) => compared(word, " >= GATE ", gate),
        Some(Reason::Raises { entered, current }) => {
            let (entered, current) = (Decimal(u32::from(entered)), Decimal(u32::from(current)));
            [Text("ring "), entered, Text(" > "), current]
        }
        Some(Reason::NotKnown | Reason::Deleted) | None => words(""),
    }
}

fn words(words: &'static str) -> [Part<'static>; 4] {
    [Text(words), NOTHING, NOTHING, NOTHING]
}

fn compared(word: u16, how: &'static str, limit: u16) -> [Part<'static>; 4] {
    [
        Octal(u64::from(word)),
        Text(how),
        Octal(u64::from(limit)),
        NOTHING,
    ]
}
