//! A reference in words.

use crate::layout::Placed;
use crate::svg::add_words;
use mx_judging::Part::{Decimal, Octal, Place, Text};
use mx_judging::{explain, ring, source_of};
use mx_sdw::Denial;
use mx_show::kind_word;
use mx_transcript::Outcome;
use std::alloc::AllocError;

/// Adds a sentence that says what a reference is and what came of it, as the title of its box.
pub(super) fn add_sentence(out: &mut String, placed: &Placed) -> Result<(), AllocError> {
    let element = &placed.judged.element;
    let process = Decimal(u32::from(placed.judged.process));
    out.push_str("<title>")?;
    add_words(
        out,
        &[
            Text("Process "),
            process,
            Text(", line "),
            Decimal(placed.line),
            Text(": "),
            Text(kind_word(element.kind)),
            Text(" "),
            Place(element.segno, element.word),
            Text(" in ring "),
            ring(element.ring),
            Text(" at point "),
            Decimal(element.point),
        ],
    )?;
    add_outcome(out, placed)?;
    out.push_str(".</title>\n")
}

// Adds what came of a reference.
fn add_outcome(out: &mut String, placed: &Placed) -> Result<(), AllocError> {
    match placed.judged.element.outcome {
        Outcome::Denied(denial) => add_denial(out, placed, denial),
        Outcome::Written { value } => add_words(out, &[Text(": stores "), Octal(value.value())]),
        Outcome::Entered { ring: entered } => {
            add_words(out, &[Text(": enters ring "), ring(entered)])
        }
        Outcome::Read { value, .. } => {
            add_words(out, &[Text(": reads "), Octal(value.value())])?;
            add_source(out, placed.judged.element.outcome)
        }
    }
}

// Adds whose store a word is.
fn add_source(out: &mut String, outcome: Outcome) -> Result<(), AllocError> {
    match source_of(outcome) {
        Some(store) => {
            let (process, point) = (Decimal(u32::from(store.process)), Decimal(store.point));
            let (by, at) = (Text(", stored by process "), Text(" at point "));
            add_words(out, &[by, process, at, point])
        }
        None => out.push_str(", nobody has stored there"),
    }
}

// Adds a denial with the numbers that its rule compares.
fn add_denial(out: &mut String, placed: &Placed, denial: Denial) -> Result<(), AllocError> {
    let (judged, element) = (&placed.judged, &placed.judged.element);
    add_words(out, &[Text(": denied "), Text(denial.text())])?;
    match explain(
        &judged.desc,
        denial,
        element.ring,
        element.word,
        placed.current,
    ) {
        Some(reason) => {
            out.push_str(", since ")?;
            add_words(out, &reason.parts())
        }
        None => Ok(()),
    }
}
