//! Events, results and entries as a run prints them.

use mx_judging::Part::{Decimal, Octal, Place, Text};
use mx_judging::{add_parts, add_printable, ring};
use mx_request::{Reply, Request};
use mx_sdw::Ring;
use mx_show::kind_word;
use mx_transcript::{Element, Event, Event2, Outcome, Result2};
use std::alloc::{AllocError, Global};

/// Adds an event.
pub(crate) fn add_event(out: &mut String, event: &Event2) -> Result<(), AllocError> {
    match event {
        Event2::Entry(number) => add_parts(out, &[Text("entry "), Decimal(*number)]),
        Event2::Core(Event::Missing { segno, by }) => add_parts(
            out,
            &[
                Text("missing "),
                Octal(u64::from(*segno)),
                Text(" by "),
                Decimal(*by),
            ],
        ),
        Event2::Core(Event::Seen(element)) => add_element(out, element),
    }
}

/// Adds a reference with what came of it.
pub(crate) fn add_element(out: &mut String, element: &Element) -> Result<(), AllocError> {
    add_parts(
        out,
        &[
            Text(kind_word(element.kind)),
            Text(" "),
            Place(element.segno, element.word),
            Text(" ring "),
            ring(element.ring),
            Text(" point "),
            Decimal(element.point),
        ],
    )?;
    match element.outcome {
        Outcome::Read {
            value,
            writer,
            stamp,
        } => add_parts(
            out,
            &[
                Text(" word "),
                Octal(value.value()),
                Text(" from "),
                Decimal(u32::from(writer)),
                Text(" stamp "),
                Decimal(stamp),
            ],
        ),
        Outcome::Written { value } => add_parts(out, &[Text(" word "), Octal(value.value())]),
        Outcome::Entered { ring: entered } => add_parts(out, &[Text(" enter "), ring(entered)]),
        Outcome::Denied(denial) => add_parts(out, &[Text(" denied "), Text(denial.text())]),
    }
}

/// Adds the end of a line: its number and its result.
pub(crate) fn add_end(out: &mut String, number: u32, ends: &Result2) -> Result<(), AllocError> {
    add_parts(out, &[Text("line "), Decimal(number), Text(" ")])?;
    match ends {
        Result2::Done => out.push_str("done"),
        Result2::A(word) => add_parts(out, &[Text("a "), Octal(word.value())]),
        Result2::Pr { n, pointer } => add_parts(
            out,
            &[
                Text("pr "),
                Decimal(u32::from(*n)),
                Text(" "),
                ring(pointer.ring),
                Text(" "),
                Place(pointer.segno, pointer.word),
            ],
        ),
        Result2::Moved {
            ring: entered,
            procedure,
        } => add_parts(
            out,
            &[
                Text("ring "),
                ring(*entered),
                Text(" at "),
                Place(procedure.segno, procedure.word),
            ],
        ),
        Result2::Denied(denial) => add_parts(out, &[Text("denied "), Text(denial.text())]),
        Result2::Refused => out.push_str("refused"),
        Result2::HistoryFull => out.push_str("history_full"),
    }
}

/// Adds an entry of the journal, with this reply.
pub(crate) fn add_entry(
    alloc: Global,
    out: &mut String,
    number: u32,
    process: u8,
    within: Ring,
    request: &Request,
    reply: &Reply,
) -> Result<(), AllocError> {
    add_parts(
        out,
        &[
            Decimal(number),
            Text(" "),
            Decimal(u32::from(process)),
            Text(" "),
            ring(within),
            Text(" "),
        ],
    )?;
    let mut bytes = Vec::new(alloc);
    request.append_to(&mut bytes)?;
    bytes.extend_from_slice(b" = ")?;
    reply.append_to(&mut bytes)?;
    add_printable(out, &bytes)
}

/// Adds a request.
pub(crate) fn add_request(
    alloc: Global,
    out: &mut String,
    request: &Request,
) -> Result<(), AllocError> {
    let mut bytes = Vec::new(alloc);
    request.append_to(&mut bytes)?;
    add_printable(out, &bytes)
}
