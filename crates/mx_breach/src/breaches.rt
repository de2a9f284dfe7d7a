//! What is told of a breach.

ghost use Rattle.std.specs.Prelude.{◌≡◌, true, length};
ghost use Rattle.std.specs.List.{list_all};
ghost use Rattle.mx_breach.specs.Rules.{AreFailing};
ghost use Rattle.mx_legal.specs.Entries.{AreGoodTo};
ghost use Rattle.mx_script.specs.SessionTexts.{fits, rows_of};
ghost use Rattle.mx_spelling.specs.Spelling.{fits_entry};
ghost use Rattle.mx_state.specs.History.{IsRight};
ghost use Rattle.mx_transcript.specs.Opened.{opening_of};

use crate::departing::departure_of;
use crate::entries::add_bad_entry;
use crate::lines::{BadLine, add_bad_line, add_next_or_last};
use crate::printed::add_request;
use crate::rules::{bad_line, broken_at, events_before, line_before, named_before, own_entry};
use crate::runs::Run;
use mx_access::{Access, access_in_turn};
use mx_judging::Part::{self, Decimal, Text};
use mx_judging::add_parts;
use mx_legal::{Breach, Failing, failing_of, first_bad_entry, good_entries_law};
use mx_parts::Departure;
use mx_points::Line;
use mx_script::Session;
use mx_state::{Journal, State};
use mx_stores::first_breach;
use mx_transcript::{Result2, Transcripts, entry_at};
use std::alloc::{AllocError, Global};

/// What is told of the breach of a run, which is this.
pub fn told_of(
    alloc: Global,
    session: &Session,
    journal: &Journal,
    transcripts: &Transcripts,
    breach: Breach,
) -> Result<String, AllocError>
    requires session { list_all fits (rows_of session.now) ≡ true }
    requires journal { list_all fits_entry journal.now ≡ true }
{
    let mut out = String::new(alloc);
    match first_bad_entry::<State>(alloc, session, journal)? {
        Some(place) => add_bad_entry(alloc, &mut out, session, journal, place)?,
        None => add_bad_part(alloc, &mut out, session, journal, transcripts, breach)?,
    }
    Ok(out)
}

// Adds why a part is bad, where all entries are good.
fn add_bad_part(
    alloc: Global,
    out: &mut String,
    session: &Session,
    journal: &Journal,
    transcripts: &Transcripts,
    breach: Breach,
) -> Result<(), AllocError>
    requires session { list_all fits (rows_of session.now) ≡ true }
    requires journal { list_all fits_entry journal.now ≡ true }
    requires good { AreGoodTo session.now journal.now (length journal.now) }
{
    good_entries_law();
    let run = Run {
        session,
        journal,
        transcripts,
    };
    let p = breach.process;
    let access = access_in_turn::<State>(alloc, session, journal, transcripts)?;
    let wrong = first_breach(alloc, &access.deeds)?;
    let failing = failing_of(alloc, session, journal, transcripts, &access, p, wrong)?;
    match bad_line(&failing) {
        None => add_missing(alloc, out, &run, &failing, breach),
        Some(place) => {
            match departure_of(alloc, session, journal, transcripts, &access, p, place) {
                Ok(departure) => {
                    add_bad(
                        alloc,
                        out,
                        &run,
                        &access,
                        &failing,
                        breach,
                        place,
                        departure.as_ref(),
                    )
                }
                Err(error) => Err(error),
            }
        }
    }
}

// At which event of its line a departure is; past the last it is the line's end.
fn event_of(departure: Option<&Departure>, events: usize) -> usize {
    match departure {
        None => events,
        Some(Departure::NoLine) => 0,
        Some(Departure::Number { .. }) => events,
        Some(Departure::Event { place, .. }) => *place,
        Some(Departure::End { .. }) => events,
    }
}

// Adds why the line at this place of a part is bad.
fn add_bad(
    alloc: Global,
    out: &mut String,
    run: &Run<'_>,
    access: &Access,
    failing: &Failing<'_>,
    breach: Breach,
    place: usize,
    departure: Option<&Departure>,
) -> Result<(), AllocError>
    requires right { IsRight (opening_of run.now.session.now) run.now.journal.now }
    requires failing { AreFailing run.now.session.now run.now.journal.now run.now.transcripts.now breach.process failing.now }
{
    let lines = failing.lines.as_slice();
    let Some(line) = lines.get(place) else {
        return Ok(());
    };
    let departs = event_of(departure, line.events.len());
    let Some(broken) = broken_at(run, failing, breach.process, place, departs) else {
        return Ok(());
    };
    let before = line_before(lines, place);
    if is_behind_last(before, breach) {
        let behind = Text("behind the last line of process ");
        add_parts(out, &[behind, process(breach.process), Text("\n")])?;
    } else {
        add_heading(alloc, out, run, breach)?;
    }
    let bad = BadLine {
        run,
        access,
        p: breach.process,
        line: breach.line,
        denied: denied_before(run, before, breach),
        number: line.number,
        events: line.events,
        ends: line.ends,
        start: events_before(lines, place),
        named: named_before(lines, place),
    };
    add_bad_line(alloc, out, &bad, &broken, departure)
}

// Whether a breach stands behind the last of the session's lines: the session has none, or the line before has its number.
fn is_behind_last(before: Option<&Line<'_>>, breach: Breach) -> bool {
    match before {
        None => breach.line == 0,
        Some(before) => breach.line == 0 || before.number == breach.line,
    }
}

// The number of the line before a breach, where that was denied and the session's last line could stand behind it as well.
fn denied_before(run: &Run<'_>, before: Option<&Line<'_>>, breach: Breach) -> Option<u32> {
    let Some(line) = before else {
        return None;
    };
    if breach.line >= run.last_number(breach.process) {
        return None;
    }
    match &line.ends {
        Result2::Denied(_) => Some(line.number),
        _ => None,
    }
}

// Adds which line of the session the breach is.
fn add_heading(
    alloc: Global,
    out: &mut String,
    run: &Run<'_>,
    breach: Breach,
) -> Result<(), AllocError> {
    add_parts(
        out,
        &[
            Text("line "),
            Decimal(breach.line),
            Text(" of process "),
            process(breach.process),
            Text(": "),
        ],
    )?;
    run.add_line(alloc, out, breach.process, breach.line)?;
    out.push_str("\n")
}

// The number of a process.
fn process(p: usize) -> Part<'static> {
    Decimal(u32::try_from(p).unwrap_or(u32::MAX))
}

// Adds what is wanting of a part whose lines keep all rules: the process itself, the line that is next, or entries that no line
// names, which have no number of a line.
fn add_missing(
    alloc: Global,
    out: &mut String,
    run: &Run<'_>,
    failing: &Failing<'_>,
    breach: Breach,
) -> Result<(), AllocError> {
    let p = breach.process;
    let processes = run.session.principals().items().len();
    if p > processes {
        return add_parts(
            out,
            &[
                Text("the part of process "),
                process(p),
                Text("\n  the processes: those of this session are 1 to "),
                process(processes),
                Text(", and 0, the initializer\n"),
            ],
        );
    }
    if breach.line == 0 {
        return add_unnamed(alloc, out, run, p);
    }
    add_heading(alloc, out, run, breach)?;
    out.push_str("  printed: nothing\n")?;
    let lines = failing.lines.as_slice();
    match denied_before(run, line_before(lines, lines.len()), breach) {
        Some(denied) => add_next_or_last(out, run, p, denied, breach.line),
        None => out.push_str("  the session's lines: each is printed, in order\n"),
    }
}

// Adds the first entry of a process that no line names.
fn add_unnamed(alloc: Global, out: &mut String, run: &Run<'_>, p: usize) -> Result<(), AllocError> {
    let Some(number) = own_entry(run.journal, p, run.named_by(p)) else {
        return Ok(());
    };
    add_parts(
        out,
        &[
            Text("entry "),
            Decimal(number),
            Text(" of process "),
            process(p),
            Text(": "),
        ],
    )?;
    if let Some(entry) = entry_at(run.journal, number) {
        add_request(alloc, out, entry.request())?;
    }
    out.push_str(
        "\n  the journal's order: the lines of a process name each of its entries, and none names this one\n",
    )
}
