//! What is told of the events that all processes share: the entries of the journal, one after another.

use crate::changes::add_changed;
use crate::notes::Notes;
use crate::telling::{add_missing, add_notes, add_outcome};
use crate::words::{add_reply, kind_word};
use mx_judging::Part::{Decimal, Octal, Place, Text};
use mx_judging::{Accesses, Changed, Judged, add_parts, ring};
use mx_state::Journal;
use mx_transcript::{Outcome, entry_at};
use std::alloc::{AllocError, Global};

/// The journal with what is known of its entries, and how far it is told: the number of the last entry, and the changes that come next.
#[derive(Drop)]
pub(crate) struct Chronicle<'a> {
    journal: &'a Journal,
    notes: &'a Notes,
    changed: &'a [Changed],
    told: u32,
}

impl<'a> Chronicle<'a> {
    /// Before the first entry.
    pub(crate) fn new(
        journal: &'a Journal,
        accesses: &'a Accesses,
        notes: &'a Notes,
    ) -> Chronicle<'a> {
        Chronicle {
            journal,
            notes,
            changed: accesses.changed.as_slice(),
            told: 0,
        }
    }

    /// Adds the entry of this number, which a process made that is in this ring: its reply, what stands behind a refusal, and whose
    /// access it changed.
    pub(crate) fn add_entry(
        &mut self,
        alloc: Global,
        out: &mut String,
        number: u32,
        current: u8,
    ) -> Result<(), AllocError> {
        let Some(entry) = entry_at(self.journal, number) else {
            return Ok(());
        };
        let start = out.len();
        add_parts(out, &[Text("entry "), Decimal(number)])?;
        if entry.ring.number() != current {
            add_parts(out, &[Text(" in ring "), ring(entry.ring)])?;
        }
        out.push_str(": ")?;
        add_reply(alloc, out, entry)?;
        add_notes(out, start, self.notes.of(number))?;
        out.push_str("\n")?;
        self.told = number;
        self.add_changes(alloc, out, number)
    }

    // Adds whose access this entry changed.
    fn add_changes(
        &mut self,
        alloc: Global,
        out: &mut String,
        number: u32,
    ) -> Result<(), AllocError> {
        let changes = self.changed;
        for (i, changed) in changes.iter().enumerate() {
            if changed.entry > number {
                self.changed = &changes[i..];
                return Ok(());
            }
            add_changed(alloc, out, changed)?;
        }
        self.changed = &[];
        Ok(())
    }

    /// Adds that a segment number was missing.
    pub(crate) fn add_miss(&self, out: &mut String, segno: u16, by: u32) -> Result<(), AllocError> {
        add_missing(out, segno, by)
    }

    /// Adds a reference of a process that is in this ring, and what came of it; and on which access it was judged, where that is not
    /// the one that all know now, and where it was denied.
    pub(crate) fn add_reference(
        &self,
        alloc: Global,
        out: &mut String,
        judged: &Judged,
        current: u8,
    ) -> Result<(), AllocError> {
        let element = &judged.element;
        let place = Place(element.segno, element.word);
        add_parts(out, &[Text(kind_word(element.kind)), Text(" "), place])?;
        if element.ring.number() != current {
            add_parts(out, &[Text(" in ring "), ring(element.ring)])?;
        }
        add_outcome(alloc, out, judged, current)?;
        self.add_point(out, judged)?;
        out.push_str("\n")
    }

    // Adds the point of a reference that was denied, with the entry that made its access what it is, and of one behind whose point
    // entries are told already.
    fn add_point(&self, out: &mut String, judged: &Judged) -> Result<(), AllocError> {
        let point = judged.element.point;
        let behind = [Text(", behind entry "), Decimal(point)];
        match judged.element.outcome {
            Outcome::Denied(_) => {
                add_parts(out, &behind)?;
                add_since(out, judged)
            }
            _ if point < self.told => {
                add_parts(
                    out,
                    &[Text(", on its access behind entry "), Decimal(point)],
                )
            }
            _ => Ok(()),
        }
    }
}

// Adds which entry made an access what it is; nothing where none did, and where it is the one named already.
fn add_since(out: &mut String, judged: &Judged) -> Result<(), AllocError> {
    if judged.since == 0 || judged.since == judged.element.point {
        return Ok(());
    }
    let since = Decimal(judged.since);
    add_parts(out, &[Text(", on its access since entry "), since])
}
