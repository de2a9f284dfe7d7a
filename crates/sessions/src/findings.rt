//! What is found of a row: what came of each thing that is stored of it.

use crate::judging::judge;
use crate::outcome::{
    Outcome, drill_and_compare, order_and_compare, refuse_and_compare, run_and_compare,
    show_and_compare,
};
use crate::repeats::{Compared, has_several_processes, repeat};
use crate::rows::{Part, is_strange, text_of};
use std::alloc::{AllocError, Global};
use std::str;
use std::sync::Wait;
use std::thread::Threads;

/// What came of the stored thing of this kind.
#[derive(Clone, Copy, Debug)]
pub struct Finding {
    pub kind: &'static str,
    pub outcome: Outcome,
}

/// What came of all that is stored of a row, over its own session or drill or an earlier one; that nothing was found, where
/// nothing is.
pub fn findings_of<R: Threads + Wait + Sync>(
    rt: &R,
    alloc: Global,
    source: Option<Part<'_>>,
    parts: &[Part<'_>],
) -> Result<Vec<Finding>, AllocError> {
    let mut findings = Vec::new(alloc);
    match source {
        Some(source) if source.kind == "session" => {
            find_in_session(rt, alloc, source.text, parts, &mut findings)?;
        }
        Some(drill) => find_in_drill(rt, alloc, drill.text, parts, &mut findings)?,
        None => {}
    }
    if is_strange(parts) {
        findings.push(found("row", Outcome::NoKind))?;
    } else if findings.is_empty() {
        findings.push(found("row", Outcome::NotFound))?;
    }
    Ok(findings)
}

fn found(kind: &'static str, outcome: Outcome) -> Finding {
    Finding { kind, outcome }
}

// What came of a drill.
fn find_in_drill<R: Threads + Wait + Sync>(
    rt: &R,
    alloc: Global,
    drill: &[u8],
    parts: &[Part<'_>],
    findings: &mut Vec<Finding>,
) -> Result<(), AllocError> {
    if let Some(run) = text_of(parts, "run") {
        let outcome = match wanted_status(parts) {
            Some(wanted) => drill_and_compare(rt, alloc, first_line(drill), wanted, run)?,
            None => Outcome::NoStatus,
        };
        findings.push(found("drill", outcome))?;
    }
    Ok(())
}

// What came of a session.
fn find_in_session<R: Threads + Wait + Sync>(
    rt: &R,
    alloc: Global,
    session: &[u8],
    parts: &[Part<'_>],
    findings: &mut Vec<Finding>,
) -> Result<(), AllocError> {
    match text_of(parts, "order") {
        Some(order) => find_in_order(rt, alloc, session, order, parts, findings)?,
        None => find_in_run(rt, alloc, session, parts, findings)?,
    }
    if let Some(outcome) = judge(rt, alloc, session, parts)? {
        findings.push(found("check", outcome))?;
    }
    if let Some(stored) = text_of(parts, "shared") {
        let outcome = repeat(rt, alloc, session, stored, Compared::Outline)?;
        findings.push(found("shared", outcome))?;
    }
    let order = text_of(parts, "order").unwrap_or(b"");
    let shown: [(&str, &str, &[u8]); 6] = [
        ("lint", "lint", b""),
        ("lines", "lines", order),
        ("story", "story", order),
        ("svg", "picture", order),
        ("html", "page", order),
        ("outcomes", "outcomes", b""),
    ];
    for (kind, word, order) in shown {
        if let Some(stored) = text_of(parts, kind) {
            let outcome = show_and_compare(rt, alloc, word, order, session, stored)?;
            findings.push(found(kind, outcome))?;
        }
    }
    Ok(())
}

// What came of a run, or of a status alone.
fn find_in_run<R: Threads + Wait + Sync>(
    rt: &R,
    alloc: Global,
    session: &[u8],
    parts: &[Part<'_>],
    findings: &mut Vec<Finding>,
) -> Result<(), AllocError> {
    let run = text_of(parts, "run");
    let has_status = text_of(parts, "status").is_some();
    let (kind, outcome) = match (run, wanted_status(parts)) {
        (_, None) => ("status", Outcome::NoStatus),
        (Some(run), Some(0)) => ("run", found_in_whole(rt, alloc, session, run)?),
        (Some(run), Some(wanted)) => (
            "run",
            refuse_and_compare(rt, alloc, session, wanted, Some(run))?,
        ),
        (None, Some(wanted)) if has_status => (
            "status",
            refuse_and_compare(rt, alloc, session, wanted, None)?,
        ),
        (None, Some(_)) => return Ok(()),
    };
    findings.push(found(kind, outcome))?;
    Ok(())
}

// What came of the run in an order, which is stored as a run, or as one of those that the session has.
fn find_in_order<R: Wait>(
    rt: &R,
    alloc: Global,
    session: &[u8],
    order: &[u8],
    parts: &[Part<'_>],
    findings: &mut Vec<Finding>,
) -> Result<(), AllocError> {
    let Some(order) = numbers_in(alloc, order)? else {
        findings.push(found("order", Outcome::NoOrder))?;
        return Ok(());
    };
    if let Some(run) = text_of(parts, "run").or(text_of(parts, "shared")) {
        let outcome = order_and_compare(rt, alloc, session, &order, run)?;
        findings.push(found("order", outcome))?;
    }
    Ok(())
}

// The status that is wanted: 0 where none is stored; none where what is stored is no number.
fn wanted_status(parts: &[Part<'_>]) -> Option<u8> {
    number_in(text_of(parts, "status").unwrap_or(b"0"))
}

// What came of a session whose run is the only one.
fn found_in_whole<R: Threads + Wait + Sync>(
    rt: &R,
    alloc: Global,
    session: &[u8],
    run: &[u8],
) -> Result<Outcome, AllocError> {
    if has_several_processes(session) {
        repeat(rt, alloc, session, run, Compared::Whole)
    } else {
        run_and_compare(rt, alloc, session, run)
    }
}

// The numbers of a text, by spaces and newlines; none where there is another word.
fn numbers_in(alloc: Global, text: &[u8]) -> Result<Option<Vec<u8>>, AllocError> {
    let mut numbers = Vec::new(alloc);
    let words = text.split(|byte| *byte == b' ' || *byte == b'\n');
    for word in words.filter(|word| !word.is_empty()) {
        match number_in(word) {
            Some(number) => numbers.push(number)?,
            None => return Ok(None),
        }
    }
    Ok(Some(numbers))
}

// The number on the first line of a text, if it is one.
fn number_in(text: &[u8]) -> Option<u8> {
    first_line(text).parse().ok()
}

// The first line of a text; an empty one where it is no text.
fn first_line(text: &[u8]) -> &str {
    let line = text.split(|byte| *byte == b'\n').next().unwrap_or(b"");
    str::from_utf8(line).unwrap_or("")
}
