//! The items of a folder: a session or a drill with what is stored of it, or an archive of many.

use crate::findings::{Finding, findings_of};
use crate::outcome::Outcome;
use crate::replays::replay_row;
use crate::rows::{KINDS, Part, parts_of, source_in};
use crate::showing::shown;
use session_files::{read, write};
use std::alloc::{Alloc, AllocError, Global};
use std::io;
use std::rt::Files;
use std::sync::Wait;
use std::thread::Threads;

/// Compares an item with what is stored of it, adds the outcomes, and gives the lines that say what came of it.
pub fn compare<R: Threads + Wait + Sync + Files + Alloc<A = Global>>(
    rt: &R,
    name: &str,
    outcomes: &mut Vec<Outcome>,
) -> io::Result<String> {
    match read(rt, name, "rows")? {
        Some(archive) => Ok(compare_rows(rt, rt.alloc(), name, &archive, outcomes)?),
        None => compare_one(rt, name, outcomes),
    }
}

// Compares the rows of an archive: a line for each that is not as stored, and one for all.
fn compare_rows<R: Threads + Wait + Sync>(
    rt: &R,
    alloc: Global,
    name: &str,
    archive: &[u8],
    outcomes: &mut Vec<Outcome>,
) -> Result<String, AllocError> {
    let parts = parts_of(alloc, archive)?;
    let mut source = None;
    let mut text = String::new(alloc);
    let (mut good, mut all) = (0_usize, 0_usize);
    for row in parts.chunk_by(|part, next| part.row == next.row) {
        source = source_in(row).or(source);
        let findings = findings_of(rt, alloc, source, row)?;
        all = all.saturating_add(1);
        if are_as_stored(&findings) {
            good = good.saturating_add(1);
        } else {
            let found = told(alloc, &findings)?;
            let line = format!(in alloc; "{name}, {}: {found}\n", name_of(row))?;
            text.push_str(&line)?;
        }
        add(outcomes, &findings)?;
    }
    let line = format!(in alloc; "{name}: {good} of {all} as stored\n")?;
    text.push_str(&line)?;
    Ok(text)
}

/// Plays the journals of the runs that are stored of an item before both plain supervisors, adds the outcomes, and gives the lines
/// that say what came of them: none where no run with a journal is stored.
pub fn replay<R: Files + Alloc<A = Global>>(
    rt: &R,
    name: &str,
    outcomes: &mut Vec<Outcome>,
) -> io::Result<String> {
    match read(rt, name, "rows")? {
        Some(archive) => Ok(replay_rows(rt.alloc(), name, &archive, outcomes)?),
        None => replay_one(rt, name, outcomes),
    }
}

// Plays the journals of the rows of an archive: a line for each that is not as stored, and one for all.
fn replay_rows(
    alloc: Global,
    name: &str,
    archive: &[u8],
    outcomes: &mut Vec<Outcome>,
) -> Result<String, AllocError> {
    let parts = parts_of(alloc, archive)?;
    let mut source = None;
    let mut text = String::new(alloc);
    let (mut good, mut all) = (0_usize, 0_usize);
    for row in parts.chunk_by(|part, next| part.row == next.row) {
        source = source_in(row).or(source);
        let Some(outcome) = replay_row(alloc, source, row)? else {
            continue;
        };
        all = all.saturating_add(1);
        if outcome == Outcome::AsStored {
            good = good.saturating_add(1);
        } else {
            let line = format!(in alloc; "{name}, {}: replay {outcome}\n", name_of(row))?;
            text.push_str(&line)?;
        }
        outcomes.push(outcome)?;
    }
    if all > 0 {
        let line = format!(in alloc; "{name}: {good} of {all} replays as stored\n")?;
        text.push_str(&line)?;
    }
    Ok(text)
}

// Plays the journal of the run that is stored in files of this name.
fn replay_one<R: Files + Alloc<A = Global>>(
    rt: &R,
    name: &str,
    outcomes: &mut Vec<Outcome>,
) -> io::Result<String> {
    let texts = texts_in(rt, name)?;
    let parts = parts_in(rt.alloc(), name, &texts)?;
    match replay_row(rt.alloc(), source_in(&parts), &parts)? {
        Some(outcome) => {
            outcomes.push(outcome)?;
            Ok(format!(in rt.alloc(); "{name}: replay {outcome}\n")?)
        }
        None => Ok(String::new(rt.alloc())),
    }
}

// The name of a row.
fn name_of<'a>(row: &[Part<'a>]) -> &'a str {
    match row.first() {
        Some(part) => part.row,
        None => "",
    }
}

// Compares what is stored in files of this name.
fn compare_one<R: Threads + Wait + Sync + Files + Alloc<A = Global>>(
    rt: &R,
    name: &str,
    outcomes: &mut Vec<Outcome>,
) -> io::Result<String> {
    let texts = texts_in(rt, name)?;
    let parts = parts_in(rt.alloc(), name, &texts)?;
    let findings = findings_of(rt, rt.alloc(), source_in(&parts), &parts)?;
    add(outcomes, &findings)?;
    let found = told(rt.alloc(), &findings)?;
    Ok(format!(in rt.alloc(); "{name}: {found}\n")?)
}

// The texts of the files of this name, one a kind, as far as they are there.
fn texts_in<R: Files + Alloc<A = Global>>(rt: &R, name: &str) -> io::Result<Vec<Option<Vec<u8>>>> {
    let mut texts = Vec::new(rt.alloc());
    for kind in KINDS {
        texts.push(read(rt, name, kind)?)?;
    }
    Ok(texts)
}

// The files of this name, of which these texts are there, one a kind.
fn parts_in<'a>(
    alloc: Global,
    name: &'a str,
    texts: &'a [Option<Vec<u8>>],
) -> Result<Vec<Part<'a>>, AllocError> {
    let mut parts = Vec::new(alloc);
    for (kind, text) in KINDS.iter().zip(texts.iter()) {
        if let Some(text) = text {
            parts.push(part(name, *kind, text))?;
        }
    }
    Ok(parts)
}

fn part<'a>(row: &'a str, kind: &'a str, text: &'a [u8]) -> Part<'a> {
    Part { row, kind, text }
}

/// Writes the lines and the picture of a session, as they are shown now, in its stored order where it has one, and the story and the page
/// where one is stored already, and gives a line that says so.
pub fn store<R: Threads + Wait + Sync + Files + Alloc<A = Global>>(
    rt: &R,
    name: &str,
    outcomes: &mut Vec<Outcome>,
) -> io::Result<String> {
    let Some(session) = read(rt, name, "session")? else {
        outcomes.push(Outcome::NotFound)?;
        return Ok(format!(in rt.alloc(); "{name}: not found\n")?);
    };
    let order = read(rt, name, "order")?;
    let order = match &order {
        Some(order) => order.as_slice(),
        None => &[],
    };
    for (word, kind, always) in [
        ("lines", "lines", true),
        ("story", "story", false),
        ("picture", "svg", true),
        ("page", "html", false),
    ] {
        if always || read(rt, name, kind)?.is_some() {
            let sink = shown(rt, rt.alloc(), word, order, &session)?;
            write(rt, name, kind, sink.bytes())?;
        }
    }
    outcomes.push(Outcome::AsStored)?;
    Ok(format!(in rt.alloc(); "{name}: stored\n")?)
}

// What was found, each by its kind.
fn told(alloc: Global, findings: &[Finding]) -> Result<String, AllocError> {
    let mut text = String::new(alloc);
    for finding in findings {
        if !text.is_empty() {
            text.push_str(", ")?;
        }
        let one = format!(in alloc; "{} {}", finding.kind, finding.outcome)?;
        text.push_str(&one)?;
    }
    Ok(text)
}

// Whether all is as stored.
fn are_as_stored(findings: &[Finding]) -> bool {
    findings
        .iter()
        .all(|finding| finding.outcome == Outcome::AsStored)
}

// Adds the outcomes of what was found.
fn add(outcomes: &mut Vec<Outcome>, findings: &[Finding]) -> Result<(), AllocError> {
    for finding in findings {
        outcomes.push(finding.outcome)?;
    }
    Ok(())
}
