//! The top of a page, down to its drawing, and its bottom.

ghost use Rattle.std.specs.Prelude.{◌≡◌, ◌≤◌, ◌++◌, IsErrOf, OnOk, codes};
ghost use Rattle.mx_io.specs.Faults.{Rose};
ghost use Rattle.mx_picture.specs.Pages.{GainsBottom, GainsTop};

use crate::escapes::add_escaped;
use crate::script::{SCRIPT, STYLE};
use mx_io::{Sink, write_all};
use mx_judging::Part::{self, Decimal, Text};
use mx_judging::add_parts;
use mx_request::Entrant;
use mx_script::Session;
use mx_show::ShowError;
use mx_state::Journal;
use std::alloc::{AllocError, Global};

/// Sends what stands above the drawing: the style, whose run it is, and how long its journal is.
pub(crate) fn send_top<K: Sink>(
    alloc: Global,
    session: &Session,
    journal: &Journal,
    sink: &mut K,
) -> Result<(), ShowError>
    ensures sent { OnOk result (GainsTop (K.out sink.old) (K.out sink.new)) }
    ensures cause { IsErrOf result ShowError.Fault → Rose (K.faults sink.old) (K.faults sink.new) }
    ensures only { (IsErrOf result ShowError.Fault → ⊥) → K.faults sink.new ≡ K.faults sink.old }
    ensures later { K.faults sink.old ≤ K.faults sink.new }
{
    let mut above = Vec::new(alloc);
    add_above(alloc, &mut above, session, journal)?;
    write_all(sink, b"<!DOCTYPE html>")?;
    write_all(sink, &above)?;
    Ok(())
}

// Adds what stands between the kind of the document and the drawing.
fn add_above(
    alloc: Global,
    out: &mut Vec<u8>,
    session: &Session,
    journal: &Journal,
) -> Result<(), AllocError> {
    out.extend_from_slice(OPENING.as_bytes())?;
    out.extend_from_slice(STYLE.as_bytes())?;
    out.extend_from_slice(HEADING.as_bytes())?;
    add_counts(
        alloc,
        out,
        session.principals().items().len(),
        journal.items().len(),
    )?;
    add_principals(alloc, out, session.principals().items())?;
    out.extend_from_slice(DRAWING.as_bytes())
}

// Adds how many processes and journal entries there are.
fn add_counts(
    alloc: Global,
    out: &mut Vec<u8>,
    processes: usize,
    entries: usize,
) -> Result<(), AllocError> {
    let mut words = String::new(alloc);
    add_parts(
        &mut words,
        &[
            Text("<p>processes: "),
            counted(processes),
            Text("; journal entries: "),
            counted(entries),
            Text("</p>\n"),
        ],
    )?;
    out.extend_from_slice(words.as_bytes())
}

fn counted(count: usize) -> Part<'static> {
    Decimal(u32::try_from(count).unwrap_or(u32::MAX))
}

// Adds the principals of the processes, the first of which has the number 1.
fn add_principals(
    alloc: Global,
    out: &mut Vec<u8>,
    entrants: &[Entrant],
) -> Result<(), AllocError> {
    out.extend_from_slice(b"<ol>\n")?;
    for entrant in entrants {
        let mut principal = Vec::new(alloc);
        entrant.who.append_to(&mut principal)?;
        out.extend_from_slice(b"<li>")?;
        add_escaped(out, &principal)?;
        out.extend_from_slice(b"</li>\n")?;
    }
    out.extend_from_slice(b"</ol>\n")
}

/// Sends what stands below the run's data: the script, and the end.
pub(crate) fn send_bottom<K: Sink>(sink: &mut K) -> Result<(), ShowError>
    ensures sent { OnOk result (GainsBottom (K.out sink.old) (K.out sink.new)) }
    ensures cause { IsErrOf result ShowError.Fault → Rose (K.faults sink.old) (K.faults sink.new) }
    ensures only { (IsErrOf result ShowError.Fault → ⊥) → K.faults sink.new ≡ K.faults sink.old }
    ensures later { K.faults sink.old ≤ K.faults sink.new }
{
    write_all(sink, b"<script>\n")?;
    write_all(sink, SCRIPT.as_bytes())?;
    write_all(sink, b"</script>\n</body>\n")?;
    write_all(sink, b"</html>\n")?;
    Ok(())
}

const OPENING: &str = "\n<html lang=\"en\">\n<head>\n<meta charset=\"utf-8\">\n\
    <meta name=\"viewport\" content=\"width=device-width, initial-scale=1\">\n<title>A run of a session</title>\n<style>\n";

const HEADING: &str = "</style>\n</head>\n<body>\n<header>\n<h1>A run of a session</h1>\n";

const DRAWING: &str =
    "</header>\n<section id=\"drawing\" tabindex=\"0\" aria-label=\"The drawing of the run\">\n";
