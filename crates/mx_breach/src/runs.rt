//! A run that is told of.

ghost use Rattle.std.specs.Prelude.{◌≡◌, true};
ghost use Rattle.std.specs.List.{list_all};
ghost use Rattle.mx_script.specs.SessionTexts.{fits, rows_of};
ghost use Rattle.mx_spelling.specs.Spelling.{fits_entry};

use crate::rules::named_in;
use mx_judging::add_printable;
use mx_script::Session;
use mx_state::Journal;
use mx_transcript::{Event2, Transcripts, first_line};
use std::alloc::{AllocError, Global};

/// A session with a printed run, such as texts can say.
#[derive(Clone, Copy)]
pub struct Run<'a> {
    pub session: &'a Session,
    pub journal: &'a Journal,
    pub transcripts: &'a Transcripts,
    ghost session_fits: { list_all fits (rows_of session.now) ≡ true },
    ghost journal_fits: { list_all fits_entry journal.now ≡ true },
}

impl<'a> Run<'a> {
    /// Adds the session's line of process `p` that has this number; nothing where it has none.
    pub fn add_line(
        &self,
        alloc: Global,
        out: &mut String,
        p: usize,
        number: u32,
    ) -> Result<(), AllocError> {
        let Some(place) = self.place_of(p, number) else {
            return Ok(());
        };
        let mut bytes = Vec::new(alloc);
        if p == 0 {
            if let Some(shared) = self.session.setup().items().get(place) {
                shared.request().append_to(&mut bytes)?;
            }
        } else if let Some(script) = self.session.scripts().items().get(p - 1) {
            if let Some(line) = script.items().get(place) {
                line.append_to(&mut bytes)?;
            }
        }
        add_printable(out, &bytes)
    }

    /// The event at a place among all of process `p`.
    pub fn event_at(&self, p: usize, event: usize) -> Option<&'a Event2> {
        let transcript = self.transcripts.items().get(p)?;
        let mut left = event;
        for (_, events, _) in transcript.steps() {
            if let Some(event) = events.get(left) {
                return Some(event);
            }
            left = left.saturating_sub(events.len());
        }
        None
    }

    /// The number in the session text of the line of process `p` that has the event at this place among all of the process;
    /// none where its part has no such event.
    pub fn number_of(&self, p: usize, event: usize) -> Option<u32> {
        let transcript = self.transcripts.items().get(p)?;
        let mut left = event;
        for (number, events, _) in transcript.steps() {
            if left < events.len() {
                return Some(number);
            }
            left = left.saturating_sub(events.len());
        }
        None
    }

    // The place of process `p`'s line of this number among its lines of the session, counted from 0; none before the first.
    fn place_of(&self, p: usize, number: u32) -> Option<usize> {
        let Ok(process) = u8::try_from(p) else {
            return None;
        };
        let first = first_line(self.session, process);
        if number < first {
            return None;
        }
        Some((number - first) as usize)
    }

    /// The number in the session text of the last line of process `p`; 0 where it has none.
    pub fn last_number(&self, p: usize) -> u32 {
        let count = self.line_count(p);
        if count == 0 {
            return 0;
        }
        let place = u32::try_from(count - 1).unwrap_or(u32::MAX);
        match u8::try_from(p) {
            Ok(process) => first_line(self.session, process).saturating_add(place),
            Err(_) => 0,
        }
    }

    // How many lines the session has for process `p`.
    fn line_count(&self, p: usize) -> usize {
        if p == 0 {
            return self.session.setup().items().len();
        }
        match self.session.scripts().items().get(p - 1) {
            None => 0,
            Some(script) => script.items().len(),
        }
    }

    /// How many entries the lines of process `p` name.
    pub fn named_by(&self, p: usize) -> usize {
        let Some(transcript) = self.transcripts.items().get(p) else {
            return 0;
        };
        let mut named = 0usize;
        for (_, events, _) in transcript.steps() {
            named = named.saturating_add(named_in(events));
        }
        named
    }
}
