//! What is told of a bad line: what is printed there, the rule that fails, and what could stand there.

ghost use Rattle.mx_state.specs.History.{IsRight};
ghost use Rattle.mx_transcript.specs.Opened.{opening_of};

use crate::asked::{add_asked, add_next_entry};
use crate::misses::add_miss;
use crate::points::add_point;
use crate::printed::{add_end, add_event};
use crate::rules::{Broken, Rule};
use crate::runs::Run;
use crate::wrong_reads::add_read;
use mx_access::Access;
use mx_judging::Part::{Decimal, Text};
use mx_judging::add_parts;
use mx_parts::Departure;
use mx_transcript::{Event, Event2, Result2, setup_entries};
use std::alloc::{AllocError, Global};

/// A printed line that fails a rule.
#[derive(Drop)]
pub(crate) struct BadLine<'a> {
    pub(crate) run: &'a Run<'a>,
    pub(crate) access: &'a Access,
    /// Whose it is.
    pub(crate) p: usize,
    /// The number of the session's line that is to stand there.
    pub(crate) line: u32,
    /// The number of the denied line before it, behind which the session's last line could stand as well.
    pub(crate) denied: Option<u32>,
    /// Its printed number, its events and its result.
    pub(crate) number: u32,
    pub(crate) events: &'a [Event2],
    pub(crate) ends: Result2,
    /// How many events the lines before it have, and how many entries they name.
    pub(crate) start: usize,
    pub(crate) named: usize,
}

/// Adds why the line is bad, where it is known how it departs from the line rule, if it does.
pub(crate) fn add_bad_line(
    alloc: Global,
    out: &mut String,
    bad: &BadLine<'_>,
    broken: &Broken,
    departure: Option<&Departure>,
) -> Result<(), AllocError>
    requires right { IsRight (opening_of bad.now.run.now.session.now) bad.now.run.now.journal.now }
{
    out.push_str("  printed: ")?;
    match bad.events.get(broken.event) {
        Some(event) => add_event(out, event)?,
        None => add_end(out, bad.number, &bad.ends)?,
    }
    out.push_str("\n")?;
    match broken.rule {
        Rule::Lines => match departure {
            Some(departure) => add_departure(alloc, out, bad, departure),
            None => Ok(()),
        },
        Rule::Naming => {
            out.push_str(
                "  the journal's order: the lines of a process name its own entries, in order, each once\n",
            )?;
            add_next_entry(alloc, out, bad, broken.event)
        }
        Rule::Points => add_point(out, bad, broken.event),
        Rule::Misses => match bad.events.get(broken.event) {
            Some(Event2::Core(Event::Missing { segno, by })) => {
                add_miss(alloc, out, bad, broken.event, *segno, *by)
            }
            _ => Ok(()),
        },
        Rule::Reads => match bad.events.get(broken.event) {
            Some(Event2::Core(Event::Seen(element))) => {
                add_read(alloc, out, bad, broken.event, element)
            }
            _ => Ok(()),
        },
        Rule::Setup => add_setup(out, bad),
        Rule::Full => out.push_str(
            "  the full journal: a process that found it full enters nothing more, and a later line has an entry\n",
        ),
    }
}

// Adds how a line departs from the line rule.
fn add_departure(
    alloc: Global,
    out: &mut String,
    bad: &BadLine<'_>,
    departure: &Departure,
) -> Result<(), AllocError>
    requires right { IsRight (opening_of bad.now.run.now.session.now) bad.now.run.now.journal.now }
{
    match departure {
        Departure::NoLine => out.push_str(
            "  the session's lines: it has no further line of this process\n",
        ),
        Departure::Number { number } => {
            let number = u32::try_from(*number).unwrap_or(u32::MAX);
            add_next(out, bad, number)
        }
        Departure::Event { place, asks } => add_asked(alloc, out, bad, *place, asks),
        Departure::End { end, asks } => match end {
            Some(end) => {
                out.push_str(
                    "  the line rule: its events give the line's end\n  could stand there: ",
                )?;
                add_end(out, bad.number, &end.ends)?;
                out.push_str("\n")
            }
            None => {
                add_not_full(out, bad)?;
                add_asked(alloc, out, bad, bad.events.len(), asks)
            }
        },
    }
}

// Adds which of the session's lines is the next of the process.
fn add_next(out: &mut String, bad: &BadLine<'_>, next: u32) -> Result<(), AllocError> {
    match bad.denied {
        Some(denied) => add_next_or_last(out, bad.run, bad.p, denied, next),
        None => {
            let lines = Text("  the session's lines: the next of this process is line ");
            add_parts(out, &[lines, Decimal(next), Text("\n")])
        }
    }
}

/// Adds that behind this line of process `p`, which was denied, this is the next of the session's lines, or the last.
pub(crate) fn add_next_or_last(
    out: &mut String,
    run: &Run<'_>,
    p: usize,
    denied: u32,
    next: u32,
) -> Result<(), AllocError> {
    let lines = Text("  the session's lines: behind line ");
    let then = Text(", which was denied, the next of this process is line ");
    let or = Text(" or line ");
    let last = Decimal(run.last_number(p));
    add_parts(
        out,
        &[
            lines,
            Decimal(denied),
            then,
            Decimal(next),
            or,
            last,
            Text("\n"),
        ],
    )
}

// Adds that the journal is not full, where the line ends so.
fn add_not_full(out: &mut String, bad: &BadLine<'_>) -> Result<(), AllocError> {
    if !matches!(&bad.ends, Result2::HistoryFull) {
        return Ok(());
    }
    let entries = u32::try_from(bad.run.journal.items().len()).unwrap_or(u32::MAX);
    add_parts(
        out,
        &[
            Text("  the full journal: it has "),
            Decimal(entries),
            Text(" entries, and the limit is "),
            Decimal(bad.run.session.limit()),
            Text("\n"),
        ],
    )
}

// Adds which lines of the setup find the journal full.
fn add_setup(out: &mut String, bad: &BadLine<'_>) -> Result<(), AllocError> {
    let setup = Decimal(setup_entries(bad.run.session));
    let first = Text("  the setup: its first ");
    let others = Text(" lines have entries, and those past these find the journal full\n");
    add_parts(out, &[first, setup, others])
}
