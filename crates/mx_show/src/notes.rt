//! What stands behind each refusal of a journal, noted in one pass over it.

use crate::because::add_because;
use crate::ledger::{Ledger, number_of};
use mx_hier::Refusal;
use mx_request::Reply;
use mx_script::Session;
use mx_state::{Entry, Journal};
use std::alloc::{AllocError, Global};

/// Sentences, each on a line, and where those of each refused entry end, in the order of the entries.
#[derive(Drop)]
pub struct Notes {
    text: Vec<u8>,
    entries: Vec<u32>,
    ends: Vec<usize>,
}

impl Notes {
    /// Those of all refusals.
    pub fn new(alloc: Global, session: &Session, journal: &Journal) -> Result<Notes, AllocError> {
        let mut notes = Notes {
            text: Vec::new(alloc),
            entries: Vec::new(alloc),
            ends: Vec::new(alloc),
        };
        let mut ledger = Ledger::new(alloc, session)?;
        let entries = journal.items();
        for (i, entry) in entries.iter().enumerate() {
            match &entry.reply {
                Reply::Refused(refusal) => {
                    notes.add(alloc, entries, &ledger, i, entry, *refusal)?;
                }
                _ => ledger.apply(alloc, entries, i, entry)?,
            }
        }
        Ok(notes)
    }

    fn add(
        &mut self,
        alloc: Global,
        journal: &[Entry],
        ledger: &Ledger,
        place: usize,
        entry: &Entry,
        refusal: Refusal,
    ) -> Result<(), AllocError> {
        let mut told = String::new(alloc);
        add_because(alloc, &mut told, journal, ledger, entry, refusal)?;
        self.text.extend_from_slice(told.as_bytes())?;
        self.entries.push(number_of(place))?;
        self.ends.push(self.text.len())?;
        Ok(())
    }

    /// The sentences of the entry of this number.
    pub fn of(&self, entry: u32) -> &[u8] {
        match self.entries.binary_search(&entry) {
            Ok(place) => self.at(place),
            Err(_) => &[],
        }
    }

    fn at(&self, place: usize) -> &[u8] {
        let from = match place.checked_sub(1) {
            Some(before) => self.ends.get(before).copied().unwrap_or(0),
            None => 0,
        };
        let to = self.ends.get(place).copied().unwrap_or(0);
        match self.text.get(from..to) {
            Some(sentences) => sentences,
            None => &[],
        }
    }
}
