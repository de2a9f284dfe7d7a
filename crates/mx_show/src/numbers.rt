//! The segment numbers that a process was given, and what each stands for.

use mx_judging::Part::{Decimal, Octal, Place, Text};
use mx_judging::{add_parts, add_printable};
use mx_kst::Known;
use mx_request::{Reply, Request};
use mx_state::Entry;
use std::alloc::{AllocError, Global};

// What a number stands for, by the entry that gave it.
#[derive(Clone, Copy)]
enum Stands<'a> {
    /// The segment of this pathname, as the request has it.
    At(&'a [u8]),
    /// The linkage section of the segment with this number.
    LinkageOf(u16),
    /// The segment that was found for the link at this word of this segment.
    Behind(u16, u16),
}

// A number, what it stands for, the entry that gave it, and the one that took it away.
#[derive(Clone, Copy)]
struct Row<'a> {
    segno: u16,
    stands: Stands<'a>,
    since: u32,
    until: Option<u32>,
}

/// The numbers that a process was given, in order.
#[derive(Drop)]
pub(crate) struct Numbers<'a> {
    rows: Vec<Row<'a>>,
}

impl<'a> Numbers<'a> {
    /// Those of a process that has made no entry yet: none besides its stacks.
    pub(crate) fn new(alloc: Global) -> Numbers<'a> {
        Numbers {
            rows: Vec::new(alloc),
        }
    }

    /// Notes what an entry of the process gave or took away, by its number in the journal.
    pub(crate) fn note(&mut self, number: u32, entry: &'a Entry) -> Result<(), AllocError> {
        match (entry.request(), &entry.reply) {
            (Request::Initiate { path, .. }, Reply::Segno(known)) => {
                self.give(number, Stands::At(path.bytes()), *known)
            }
            (
                Request::Link { segno: from, word },
                Reply::Linked {
                    segno,
                    fresh,
                    linkage,
                    ..
                },
            ) => {
                let known = Known {
                    segno: *segno,
                    fresh: *fresh,
                    linkage: *linkage,
                };
                self.give(number, Stands::Behind(*from, *word), known)
            }
            (Request::Terminate { segno }, Reply::Done) => {
                self.take(number, *segno);
                Ok(())
            }
            _ => Ok(()),
        }
    }

    // A number that was given, where it is a new one, and that of its linkage section.
    fn give(&mut self, number: u32, stands: Stands<'a>, known: Known) -> Result<(), AllocError> {
        if known.fresh {
            self.add(number, known.segno, stands)?;
        }
        match known.linkage {
            Some(section) => self.add(number, section, Stands::LinkageOf(known.segno)),
            None => Ok(()),
        }
    }

    fn add(&mut self, number: u32, segno: u16, stands: Stands<'a>) -> Result<(), AllocError> {
        self.rows.push(Row {
            segno,
            stands,
            since: number,
            until: None,
        })?;
        Ok(())
    }

    // The number was taken away, and that of its linkage section.
    fn take(&mut self, number: u32, segno: u16) {
        for row in &mut self.rows {
            let is_its_section = match row.stands {
                Stands::LinkageOf(of) => of == segno,
                Stands::At(_) | Stands::Behind(_, _) => false,
            };
            if (row.segno == segno || is_its_section) && row.until.is_none() {
                row.until = Some(number);
            }
        }
    }

    /// Adds a line for each number, under words of their own; nothing where none was given.
    pub(crate) fn add_table(&self, out: &mut String) -> Result<(), AllocError> {
        if self.rows.is_empty() {
            return Ok(());
        }
        out.push_str("numbers besides those of its stacks:\n")?;
        for row in &self.rows {
            add_row(out, row)?;
        }
        Ok(())
    }
}

// Adds a number, what it stands for, and since when; of one that was taken away also until when.
fn add_row(out: &mut String, row: &Row) -> Result<(), AllocError> {
    let verb = if row.until.is_some() { " was " } else { " is " };
    add_parts(
        out,
        &[Text("    "), Octal(u64::from(row.segno)), Text(verb)],
    )?;
    add_stands(out, &row.stands)?;
    match row.until {
        Some(until) => add_parts(
            out,
            &[
                Text(", from entry "),
                Decimal(row.since),
                Text(" to entry "),
                Decimal(until),
                Text("\n"),
            ],
        ),
        None => add_parts(
            out,
            &[Text(", since entry "), Decimal(row.since), Text("\n")],
        ),
    }
}

// Adds what a number stands for.
fn add_stands(out: &mut String, stands: &Stands) -> Result<(), AllocError> {
    match stands {
        Stands::At(path) => add_printable(out, path),
        Stands::LinkageOf(segno) => add_parts(
            out,
            &[Text("the linkage section of "), Octal(u64::from(*segno))],
        ),
        Stands::Behind(segno, word) => add_parts(
            out,
            &[
                Text("what the link at "),
                Place(*segno, *word),
                Text(" leads to"),
            ],
        ),
    }
}
