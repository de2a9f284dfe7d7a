//! Why a miss comes by an entry by which it could not, and by which it could.

ghost use Rattle.mx_state.specs.History.{IsRight};
ghost use Rattle.mx_transcript.specs.Opened.{opening_of};

use crate::bounds::last_miss;
use crate::lines::BadLine;
use crate::points::{bounds_of, own_deeds};
use crate::printed::add_event;
use crate::probes::{access_on, is_change_at};
use mx_judging::Part::{Decimal, Octal, Text};
use mx_judging::add_parts;
use mx_transcript::{Event, Event2, entry_at};
use std::alloc::{AllocError, Global};

/// At most so many entries are told by which a miss could come.
const MOST_TOLD: usize = 8;

/// Adds which condition of the miss rule does not hold of a miss of this number by this entry, and by which it could come.
pub(crate) fn add_miss(
    alloc: Global,
    out: &mut String,
    bad: &BadLine<'_>,
    event: usize,
    segno: u16,
    by: u32,
) -> Result<(), AllocError>
    requires right { IsRight (opening_of bad.now.run.now.session.now) bad.now.run.now.journal.now }
{
    let deeds = own_deeds(bad);
    let place = bad.start.saturating_add(event).min(deeds.len());
    let last = last_miss(deeds, place, segno);
    let next = bounds_of(bad, event).next;
    out.push_str("  the miss rule: ")?;
    add_why(out, bad, event, segno, by, last, next)?;
    out.push_str("\n")?;
    let before = match next {
        None => u32::MAX,
        Some(next) => next,
    };
    add_possible(alloc, out, bad, segno, last, before)
}

// Adds the first condition that does not hold.
fn add_why(
    out: &mut String,
    bad: &BadLine<'_>,
    event: usize,
    segno: u16,
    by: u32,
    last: u32,
    next: Option<u32>,
) -> Result<(), AllocError> {
    let (number, pair) = (Decimal(by), Octal(u64::from(segno)));
    let Some(entry) = entry_at(bad.run.journal, by) else {
        return add_parts(out, &[Text("the journal has no entry "), number]);
    };
    if usize::from(entry.process) == bad.p {
        return add_parts(
            out,
            &[Text("entry "), number, Text(" is the process's own")],
        );
    }
    if !is_change_at(bad.access, bad.p, bad.start.saturating_add(event)) {
        let changed = Text(" did not change the process's access to ");
        return add_parts(out, &[Text("entry "), number, changed, pair]);
    }
    if by <= last {
        return add_parts(
            out,
            &[
                Text("entry "),
                number,
                Text(" is not above entry "),
                Decimal(last),
                Text(", by which the process missed "),
                pair,
                Text(" last"),
            ],
        );
    }
    match next {
        None => out.push_str("the entry changed the access"),
        Some(next) => add_parts(
            out,
            &[
                Text("entry "),
                number,
                Text(" is not before entry "),
                Decimal(next),
                Text(", the process's own next one"),
            ],
        ),
    }
}

// Adds the entries between these by which the number could be missed: others' that changed the access.
fn add_possible(
    alloc: Global,
    out: &mut String,
    bad: &BadLine<'_>,
    segno: u16,
    after: u32,
    before: u32,
) -> Result<(), AllocError>
    requires right { IsRight (opening_of bad.now.run.now.session.now) bad.now.run.now.journal.now }
{
    let mut events = Vec::new(alloc);
    let mut number = 0u32;
    for entry in bad.run.journal.items() {
        number = number.saturating_add(1);
        if after < number && number < before && usize::from(entry.process) != bad.p {
            events.push(Event2::Core(Event::Missing { segno, by: number }))?;
        }
    }
    let probe = access_on(alloc, bad.run, bad.p, &events)?;
    let mut told = 0usize;
    for (place, event) in events.iter().enumerate() {
        if told < MOST_TOLD && is_change_at(&probe, bad.p, place) {
            out.push_str("  could stand there: ")?;
            add_event(out, event)?;
            out.push_str("\n")?;
            told = told.saturating_add(1);
        }
    }
    if told == 0 {
        let none = Text("  could stand there: no miss of ");
        return add_parts(out, &[none, Octal(u64::from(segno)), Text("\n")]);
    }
    Ok(())
}
