//! What a line asks for where it departs from the line rule, and what could stand there.

ghost use Rattle.mx_state.specs.History.{IsRight};
ghost use Rattle.mx_transcript.specs.Opened.{opening_of};

use crate::lines::BadLine;
use crate::points::floor_at;
use crate::printed::{add_element, add_end, add_request};
use crate::probes::{access_on, deed_at, desc_at};
use crate::reads::{Given, allowed};
use crate::rules::{named_in, own_entry};
use mx_judging::Part::{Decimal, Octal, Place, Text};
use mx_judging::{add_parts, explain, ring};
use mx_line::{Called, Next, Reference};
use mx_parts::kind_of;
use mx_request::Request;
use mx_sdw::{Denial, Desc, Op, Word, judge, new_ring};
use mx_show::{access_word, extent, kind_word};
use mx_transcript::{Element, Event, Event2, Outcome, entry_at};
use std::alloc::{AllocError, Global};

/// Adds what the line asks for at this of its events, and what could stand there.
pub(crate) fn add_asked(
    alloc: Global,
    out: &mut String,
    bad: &BadLine<'_>,
    event: usize,
    asks: &Next,
) -> Result<(), AllocError>
    requires right { IsRight (opening_of bad.now.run.now.session.now) bad.now.run.now.journal.now }
{
    match asks {
        Next::Asks(asked) => {
            out.push_str("  the line rule: the line asks for ")?;
            add_reference(alloc, out, bad, event, asked)
        }
        Next::Fills(asked) => {
            out.push_str("  the line rule: the reply that came asks for ")?;
            add_reference(alloc, out, bad, event, asked)
        }
        Next::Calls {
            ring: within,
            called,
        } => {
            let within = ring(*within);
            add_parts(
                out,
                &[
                    Text("  the line rule: the line asks the supervisor in ring "),
                    within,
                    Text(": "),
                ],
            )?;
            add_called(alloc, out, bad, called)?;
            out.push_str("\n")?;
            add_next_entry(alloc, out, bad, event)
        }
        Next::Ends(end) => {
            out.push_str("  the line rule: the line has come to its end\n  could stand there: ")?;
            add_end(out, bad.number, &end.ends)?;
            out.push_str("\n")
        }
        Next::Nowhere => out.push_str("  the line rule: no line goes on after these events\n"),
    }
}

// Adds the request that a call is.
fn add_called(
    alloc: Global,
    out: &mut String,
    bad: &BadLine<'_>,
    called: &Called,
) -> Result<(), AllocError> {
    match called {
        Called::Own => bad.run.add_line(alloc, out, bad.p, bad.line),
        Called::Resume => add_request(alloc, out, &Request::Resume),
        Called::Link { segno, word } => add_parts(out, &[Text("link "), Place(*segno, *word)]),
    }
}

/// Adds the entry that could stand at this of the line's events: the next one of the process, and what that asked.
pub(crate) fn add_next_entry(
    alloc: Global,
    out: &mut String,
    bad: &BadLine<'_>,
    event: usize,
) -> Result<(), AllocError> {
    let mut named = bad.named;
    if let Some(before) = bad.events.get(..event) {
        named = named.saturating_add(named_in(before));
    }
    let Some(number) = own_entry(bad.run.journal, bad.p, named) else {
        out.push_str(
            "  could stand there: no entry, as the journal has none of this process that is not named\n",
        )?;
        return add_full(out, bad);
    };
    add_parts(out, &[Text("  could stand there: entry "), Decimal(number)])?;
    if let Some(entry) = entry_at(bad.run.journal, number) {
        let within = ring(entry.ring);
        add_parts(
            out,
            &[
                Text(", the next of this process, which asked in ring "),
                within,
                Text(": "),
            ],
        )?;
        add_request(alloc, out, entry.request())?;
    }
    out.push_str("\n")
}

// Adds that the journal is full, where it is.
fn add_full(out: &mut String, bad: &BadLine<'_>) -> Result<(), AllocError> {
    if bad.run.journal.items().len() < bad.run.session.limit() as usize {
        return Ok(());
    }
    add_parts(
        out,
        &[
            Text("  the journal is full; could stand there: line "),
            Decimal(bad.number),
            Text(" history_full\n"),
        ],
    )
}

// Adds the reference that is asked for, how it is judged, and with which outcomes it could stand there.
fn add_reference(
    alloc: Global,
    out: &mut String,
    bad: &BadLine<'_>,
    event: usize,
    asked: &Reference,
) -> Result<(), AllocError>
    requires right { IsRight (opening_of bad.now.run.now.session.now) bad.now.run.now.journal.now }
{
    add_parts(
        out,
        &[
            Text(kind_word(kind_of(asked.op))),
            Text(" "),
            Place(asked.segno, asked.word),
            Text(" in ring "),
            ring(asked.ring),
        ],
    )?;
    if let Some(stored) = asked.stores {
        add_parts(out, &[Text(", of the word "), Octal(stored.value())])?;
    }
    out.push_str("\n")?;
    let element = Element {
        kind: kind_of(asked.op),
        segno: asked.segno,
        word: asked.word,
        ring: asked.ring,
        point: point_of(bad, event),
        outcome: Outcome::Read {
            value: Word::zero(),
            writer: 0,
            stamp: 0,
        },
    };
    add_judged(alloc, out, bad, event, asked, &element)
}

// The point at which a reference could stand: that of the printed one, and else the least.
fn point_of(bad: &BadLine<'_>, event: usize) -> u32 {
    match bad.events.get(event) {
        Some(Event2::Core(Event::Seen(element))) => element.point,
        _ => floor_at(bad, event),
    }
}

// Adds how the reference is judged at its point, and with which outcomes it could stand there.
fn add_judged(
    alloc: Global,
    out: &mut String,
    bad: &BadLine<'_>,
    event: usize,
    asked: &Reference,
    element: &Element,
) -> Result<(), AllocError>
    requires right { IsRight (opening_of bad.now.run.now.session.now) bad.now.run.now.journal.now }
{
    let probe = access_on(
        alloc,
        bad.run,
        bad.p,
        &[Event2::Core(Event::Seen(*element))],
    )?;
    let desc = desc_at(&probe, bad.p, 0);
    add_access(out, &desc, element.point)?;
    match judge(&desc, asked.op, asked.ring, u32::from(asked.word)) {
        Err(denial) => {
            add_denial(out, &desc, asked, denial)?;
            add_outcome(out, element, Outcome::Denied(denial))
        }
        Ok(_) => {
            out.push_str(": granted\n")?;
            match asked.op {
                Op::Call { .. } => {
                    let ring = new_ring(&desc, asked.op, asked.ring);
                    add_outcome(out, element, Outcome::Entered { ring })
                }
                Op::Return => {
                    let ring = new_ring(&desc, asked.op, asked.ring);
                    add_outcome(out, element, Outcome::Entered { ring })
                }
                Op::Write => match asked.stores {
                    Some(value) => add_outcome(out, element, Outcome::Written { value }),
                    None => Ok(()),
                },
                Op::Read | Op::Indirect | Op::Fetch => match deed_at(&probe, bad.p, 0) {
                    None => Ok(()),
                    Some(deed) => {
                        let place = bad.start.saturating_add(event);
                        match deed.read(bad.p, place) {
                            None => Ok(()),
                            Some(read) => {
                                let given = allowed(alloc, &bad.access.deeds, &read)?;
                                add_words(out, element, &given)
                            }
                        }
                    }
                },
            }
        }
    }
}

/// Adds the access that a process has at a point.
pub(crate) fn add_access(out: &mut String, desc: &Desc, point: u32) -> Result<(), AllocError> {
    add_parts(
        out,
        &[
            Text("  the judging rule: at point "),
            Decimal(point),
            Text(" the access is "),
            Text(access_word(desc)),
        ],
    )?;
    add_parts(out, &extent(desc))
}

// Adds the denial, and what its rule compares.
fn add_denial(
    out: &mut String,
    desc: &Desc,
    asked: &Reference,
    denial: Denial,
) -> Result<(), AllocError> {
    let current = match asked.op {
        Op::Call { current, .. } => current,
        _ => asked.ring,
    };
    add_parts(out, &[Text(": denied "), Text(denial.text())])?;
    if let Some(reason) = explain(desc, denial, asked.ring, asked.word, current.number()) {
        out.push_str(", as ")?;
        add_parts(out, &reason.parts())?;
    }
    out.push_str("\n")
}

// Adds that the reference could stand there with this outcome.
fn add_outcome(out: &mut String, element: &Element, outcome: Outcome) -> Result<(), AllocError> {
    out.push_str("  could stand there: ")?;
    add_element(
        out,
        &Element {
            outcome,
            ..*element
        },
    )?;
    out.push_str("\n")
}

/// Adds that a read could stand there with each of these words.
pub(crate) fn add_words(
    out: &mut String,
    element: &Element,
    given: &[Given],
) -> Result<(), AllocError> {
    for word in given {
        let Some(value) = Word::new(word.value) else {
            continue;
        };
        add_outcome(
            out,
            element,
            Outcome::Read {
                value,
                writer: word.writer,
                stamp: word.stamp,
            },
        )?;
    }
    Ok(())
}
