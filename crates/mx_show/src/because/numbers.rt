//! What is counted or numbered: pages, segment numbers, links and processes.

use super::{Told, add_whole_path};
use crate::ledger::{Ledger, Lot, pages_for, rules_of};
use mx_hier::Refusal;
use mx_judging::Part::{Decimal, Octal, Place, Text};
use mx_judging::{add_parts, add_printable};
use mx_object::ObjectMap;
use mx_request::Request;
use mx_search::{Rule, Rules};
use mx_state::Entry;
use std::alloc::{AllocError, Global};

/// The stacks of a process have the numbers below this one.
const STACKS: u16 = 8;

impl<'t> Told<'t> {
    // How many pages are wanted, and how many are left.
    pub(super) fn add_pages(&self, out: &mut String, request: &Request) -> Result<(), AllocError> {
        let wanted = match request {
            Request::CreateSeg { words, .. } | Request::CreateObject { words, .. } => {
                pages_for(*words)
            }
            _ => 1,
        };
        let row = if wanted > 1 { " in a row" } else { "" };
        let (wanted, left) = (Decimal(wanted), Decimal(self.ledger.pages));
        add_parts(
            out,
            &[
                Text("wanted: "),
                wanted,
                Text(row),
                Text("; left: "),
                left,
                Text("\n"),
            ],
        )
    }

    // How many segment numbers are wanted, and how many are left.
    pub(super) fn add_numbers(
        &self,
        alloc: Global,
        out: &mut String,
        entry: &Entry,
    ) -> Result<(), AllocError> {
        let Some(at) = self.ledger.found_for(alloc, self.journal, entry)? else {
            return Ok(());
        };
        let wanted = if has_links(self.ledger.map_of(self.journal, at)) {
            "wanted: 2, one of them for the linkage section; left: "
        } else {
            "wanted: 1; left: "
        };
        let left = self.ledger.numbers_left(self.own);
        add_parts(out, &[Text(wanted), Decimal(u32::from(left)), Text("\n")])
    }

    // What a segment number stands for.
    pub(super) fn add_number(
        &self,
        alloc: Global,
        out: &mut String,
        request: &Request,
    ) -> Result<(), AllocError> {
        let segno = match request {
            Request::Terminate { segno } => *segno,
            Request::Link { segno, .. } => *segno,
            _ => return Ok(()),
        };
        add_parts(out, &[Octal(u64::from(segno)), Text(" ")])?;
        match self.own.lot(segno) {
            Lot::Nothing if segno < STACKS => {
                out.push_str("is a stack")?;
            }
            Lot::Nothing => {
                out.push_str("was never given")?;
            }
            Lot::Segment(at) => {
                out.push_str("is ")?;
                self.add_path(alloc, out, at)?;
            }
            Lot::SectionOf(of) => {
                add_parts(
                    out,
                    &[Text("is the linkage section of "), Octal(u64::from(of))],
                )?;
            }
            Lot::TakenAway(by) => {
                add_parts(out, &[Text("was taken away by entry "), Decimal(by)])?;
            }
        }
        out.push_str("\n")
    }

    // Which link was followed, and by which rules.
    pub(super) fn add_link(
        &self,
        alloc: Global,
        out: &mut String,
        entry: &Entry,
        refusal: Refusal,
    ) -> Result<(), AllocError> {
        let Request::Link { segno, word } = entry.request() else {
            return Ok(());
        };
        let Some((name, symbol)) = self.ledger.link_at(self.journal, self.own, *segno, *word) else {
            return Ok(());
        };
        add_parts(
            out,
            &[Text("the link at "), Place(*segno, *word), Text(" is ")],
        )?;
        add_printable(out, name.bytes())?;
        out.push_str("$")?;
        add_printable(out, symbol.bytes())?;
        if refusal == Refusal::SegmentNotFound {
            out.push_str("; the rules: ")?;
            let rules = rules_of(alloc, self.journal, self.own)?;
            add_rules(alloc, out, &rules)?;
        } else if let Some(at) = self.ledger.found_for(alloc, self.journal, entry)? {
            out.push_str("; found: ")?;
            self.add_path(alloc, out, at)?;
        }
        out.push_str("\n")
    }
}

fn has_links(map: Option<&ObjectMap>) -> bool {
    match map {
        Some(map) => !map.links().is_empty(),
        None => false,
    }
}

pub(super) fn add_processes(out: &mut String, ledger: &Ledger) -> Result<(), AllocError> {
    let count = ledger.owns.len().saturating_sub(1).min(15) as u32;
    add_parts(out, &[Text("processes: "), Decimal(count), Text("\n")])
}

pub(super) fn add_ended(
    out: &mut String,
    ledger: &Ledger,
    request: &Request,
) -> Result<(), AllocError> {
    let Request::Wakeup { to, .. } = request else {
        return Ok(());
    };
    match ledger.own(*to) {
        Some(own) => match own.ended {
            Some(by) => add_parts(out, &[Text("by entry "), Decimal(by), Text("\n")]),
            None => Ok(()),
        },
        None => Ok(()),
    }
}

// Search rules, one behind another.
fn add_rules(alloc: Global, out: &mut String, rules: &Rules) -> Result<(), AllocError> {
    let mut before = "";
    for rule in rules.items() {
        out.push_str(before)?;
        match rule {
            Rule::InitiatedSegments => out.push_str("initiated_segments")?,
            Rule::ReferencingDir => out.push_str("referencing_dir")?,
            Rule::WorkingDir => out.push_str("working_dir")?,
            Rule::Directory(path) => add_whole_path(alloc, out, path)?,
        }
        before = ", ";
    }
    Ok(())
}
