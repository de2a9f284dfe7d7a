//! Why a read is wrong, in words.

use crate::asked::add_words;
use crate::lines::BadLine;
use crate::probes::deed_at;
use crate::reads::{Wrong, allowed, wrong_read};
use mx_judging::Part::{self, Decimal, Octal, Place, Text};
use mx_judging::add_parts;
use mx_stores::Read;
use mx_transcript::{Element, Event, Event2, Outcome};
use std::alloc::{AllocError, Global};

/// Adds why a read is wrong, and with which words it could stand there.
pub(crate) fn add_read(
    alloc: Global,
    out: &mut String,
    bad: &BadLine<'_>,
    event: usize,
    element: &Element,
) -> Result<(), AllocError> {
    let place = bad.start.saturating_add(event);
    let Some(deed) = deed_at(bad.access, bad.p, place) else {
        return Ok(());
    };
    let Some(read) = deed.read(bad.p, place) else {
        return Ok(());
    };
    out.push_str("  the read rule: ")?;
    let wrong = wrong_read(alloc, &bad.access.deeds, &read)?;
    add_wrong(out, bad, element, &read, wrong)?;
    out.push_str("\n")?;
    let given = allowed(alloc, &bad.access.deeds, &read)?;
    add_words(out, element, &given)
}

// Adds what is wrong with a read.
fn add_wrong(
    out: &mut String,
    bad: &BadLine<'_>,
    element: &Element,
    read: &Read,
    wrong: Wrong,
) -> Result<(), AllocError> {
    let (own, writer) = (process(read.process), Decimal(u32::from(read.writer)));
    let at = Place(element.segno, element.word);
    let names = Text("; a read that names process ");
    match wrong {
        Wrong::NotZero => out.push_str("a word that nobody stored is 0, with stamp 0"),
        Wrong::Sighted { place } => {
            let had = Text(" had stored or read a stored word at ");
            add_parts(out, &[Text("process "), own, had, at])?;
            add_line_of(out, bad, read.process, place)?;
            out.push_str("; from then on no read there is nobody's")
        }
        Wrong::Known { storer, place } => {
            add_store(out, bad, storer, place, "")?;
            add_parts(
                out,
                &[
                    Text(", and made an entry after it up to point "),
                    Decimal(read.point),
                    Text("; a word is nobody's only while no store of it is known"),
                ],
            )
        }
        Wrong::NothingOwn => {
            let nothing = Text(" had stored nothing at ");
            add_parts(out, &[Text("process "), own, nothing, at])
        }
        Wrong::NotLast { place } => {
            add_store(out, bad, read.process, place, " last")?;
            add_parts(out, &[names, writer, Text(" gives its last own store")])
        }
        Wrong::NoStore => {
            let (value, stamp) = (Octal(read.value), Decimal(read.stamp));
            let (no, with) = (Text(" stored no "), Text(" with stamp "));
            add_parts(
                out,
                &[
                    Text("process "),
                    writer,
                    no,
                    value,
                    with,
                    stamp,
                    Text(" there"),
                ],
            )
        }
        Wrong::Older { place } => {
            add_parts(
                out,
                &[
                    Text("process "),
                    own,
                    Text(" had read a later store of process "),
                    writer,
                    Text(" there"),
                ],
            )?;
            add_line_of(out, bad, read.process, place)?;
            out.push_str("; no read goes back behind it")
        }
        Wrong::Superseded => {
            let point = Decimal(read.point);
            add_parts(
                out,
                &[
                    Text("the store was superseded: by point "),
                    point,
                    Text(" a later one was known"),
                ],
            )
        }
    }
}

// Adds which word a process stored, and in which line.
fn add_store(
    out: &mut String,
    bad: &BadLine<'_>,
    p: usize,
    place: usize,
    how: &'static str,
) -> Result<(), AllocError> {
    add_parts(out, &[Text("process "), process(p)])?;
    if let Some(Event2::Core(Event::Seen(element))) = bad.run.event_at(p, place) {
        add_stored(out, element, how)?;
    }
    add_line_of(out, bad, p, place)
}

// Adds which word a reference stored.
fn add_stored(out: &mut String, element: &Element, how: &'static str) -> Result<(), AllocError> {
    let at = Place(element.segno, element.word);
    match &element.outcome {
        Outcome::Written { value } => add_parts(
            out,
            &[
                Text(" stored "),
                Octal(value.value()),
                Text(" at "),
                at,
                Text(how),
            ],
        ),
        Outcome::Read { .. } | Outcome::Entered { .. } | Outcome::Denied(_) => {
            add_parts(out, &[Text(" stored at "), at, Text(how)])
        }
    }
}

// Adds in which line the event at a place of process `p` stands.
fn add_line_of(
    out: &mut String,
    bad: &BadLine<'_>,
    p: usize,
    place: usize,
) -> Result<(), AllocError> {
    match bad.run.number_of(p, place) {
        None => Ok(()),
        Some(number) => add_parts(out, &[Text(" (line "), Decimal(number), Text(")")]),
    }
}

// The number of a process.
fn process(p: usize) -> Part<'static> {
    Decimal(u32::try_from(p).unwrap_or(u32::MAX))
}
