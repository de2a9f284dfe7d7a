//! What is told of a bad entry.

ghost use Rattle.std.specs.Prelude.{◌≡◌, true};
ghost use Rattle.std.specs.List.{list_all};
ghost use Rattle.mx_legal.specs.Entries.{IsFirstBad};
ghost use Rattle.mx_script.specs.SessionTexts.{fits, rows_of};
ghost use Rattle.mx_spelling.specs.Spelling.{fits_entry};

use crate::causes::{EntryCause, entry_cause, is_of_path};
use crate::printed::add_entry;
use mx_fresh::PlainSupervisor;
use mx_judging::Part::{Decimal, Text};
use mx_judging::{add_parts, ring};
use mx_legal::supervisor_at;
use mx_request::Reply;
use mx_script::Session;
use mx_state::{Entry, Journal, State};
use std::alloc::{AllocError, Global};

/// Adds why the first bad entry is bad, and what could stand there.
pub(crate) fn add_bad_entry(
    alloc: Global,
    out: &mut String,
    session: &Session,
    journal: &Journal,
    place: usize,
) -> Result<(), AllocError>
    requires session { list_all fits (rows_of session.now) ≡ true }
    requires journal { list_all fits_entry journal.now ≡ true }
    requires bad { IsFirstBad session.now journal.now place }
{
    let Some(entry) = journal.items().get(place) else {
        return Ok(());
    };
    let number = u32::try_from(place.saturating_add(1)).unwrap_or(u32::MAX);
    let process = Decimal(u32::from(entry.process));
    add_parts(
        out,
        &[
            Text("entry "),
            Decimal(number),
            Text(", of process "),
            process,
            Text("\n  printed: "),
        ],
    )?;
    add_entry(
        alloc,
        out,
        number,
        entry.process,
        entry.ring,
        entry.request(),
        &entry.reply,
    )?;
    out.push_str("\n")?;
    let cause = entry_cause(session, place, entry);
    add_cause(out, session, entry, cause)?;
    match cause {
        EntryCause::OtherReply => add_right(alloc, out, session, journal, place, number, entry),
        _ => Ok(()),
    }
}

// Adds the rule that an entry fails.
fn add_cause(
    out: &mut String,
    session: &Session,
    entry: &Entry,
    cause: EntryCause,
) -> Result<(), AllocError> {
    let processes = session.principals().items().len() as u32;
    match cause {
        EntryCause::PastLimit => add_parts(
            out,
            &[
                Text("  the limit: the journal of this session has at most "),
                Decimal(session.limit()),
                Text(" entries\n"),
            ],
        ),
        EntryCause::NoProcess => add_parts(
            out,
            &[
                Text("  the processes: those of this session are 1 to "),
                Decimal(processes),
                Text(", and 0, the initializer\n"),
            ],
        ),
        EntryCause::InSetup => {
            let lines = session.setup().items().len();
            let lines = u32::try_from(lines).unwrap_or(u32::MAX);
            let setup = Text("  the setup: the first ");
            let whose = Text(" entries are the initializer's, one for each line of the setup\n");
            add_parts(out, &[setup, Decimal(lines), whose])
        }
        EntryCause::OtherRing => add_parts(
            out,
            &[
                Text("  the initializer: it asks in ring 0, and not in ring "),
                ring(entry.ring),
                Text("\n"),
            ],
        ),
        EntryCause::NoPath => out.push_str("  the initializer: it makes requests on paths alone\n"),
        EntryCause::OtherReply => out.push_str(
            "  the supervisor: an entry has the reply that the plain supervisor gives after the entries before it\n",
        ),
    }
}

// Adds the entry with the reply that it should have.
fn add_right(
    alloc: Global,
    out: &mut String,
    session: &Session,
    journal: &Journal,
    place: usize,
    number: u32,
    entry: &Entry,
) -> Result<(), AllocError>
    requires session { list_all fits (rows_of session.now) ≡ true }
    requires journal { list_all fits_entry journal.now ≡ true }
    requires bad { IsFirstBad session.now journal.now place }
{
    match right_reply(alloc, session, journal, place, entry)? {
        None => Ok(()),
        Some(reply) => {
            out.push_str("  could stand there: ")?;
            add_entry(
                alloc,
                out,
                number,
                entry.process,
                entry.ring,
                entry.request(),
                &reply,
            )?;
            out.push_str("\n")
        }
    }
}

// The plain supervisor's reply to a request of this entry's process at a place; none where the process may not ask.
fn right_reply(
    alloc: Global,
    session: &Session,
    journal: &Journal,
    place: usize,
    entry: &Entry,
) -> Result<Option<Reply>, AllocError>
    requires session { list_all fits (rows_of session.now) ≡ true }
    requires journal { list_all fits_entry journal.now ≡ true }
    requires bad { IsFirstBad session.now journal.now place }
{
    let processes = session.principals().items().len();
    if usize::from(entry.process) > processes || (entry.process == 0 && !is_of_path(entry)) {
        return Ok(None);
    }
    let mut supervisor = supervisor_at::<State>(alloc, session, journal, place)?;
    let answered = supervisor.apply(alloc, entry.process, entry.ring, entry.request())?;
    Ok(Some(answered.reply))
}
