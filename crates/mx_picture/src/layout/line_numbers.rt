//! Which line each reference of a process is of.

use mx_transcript::{Event, Event2, Transcript};
use std::alloc::{AllocError, Global};

/// The number of a line in the text of the session, and the how many-th reference of that line it is, from 1.
#[derive(Clone, Copy)]
pub(super) struct Numbered {
    pub(super) line: u32,
    pub(super) nth: u32,
}

/// The lines of the references of all processes, one process behind another, and where the next one of each stands.
#[derive(Drop)]
pub(super) struct LineNumbers {
    all: Vec<Numbered>,
    next: [usize; 16],
}

impl LineNumbers {
    /// Those of the transcripts of process 0, 1, ..
    pub(super) fn new(
        alloc: Global,
        transcripts: &[Transcript],
    ) -> Result<LineNumbers, AllocError> {
        let mut lines = LineNumbers {
            all: Vec::new(alloc),
            next: [0; 16],
        };
        for (process, transcript) in transcripts.iter().enumerate() {
            let begun = lines.all.len();
            if let Some(next) = lines.next.get_mut(process) {
                *next = begun;
            }
            add_numbers(&mut lines.all, transcript)?;
        }
        Ok(lines)
    }

    /// The line of the next reference of a process.
    pub(super) fn next(&mut self, process: u8) -> Numbered {
        let none = Numbered { line: 0, nth: 0 };
        let Some(next) = self.next.get_mut(usize::from(process)) else {
            return none;
        };
        let place = *next;
        *next = place.saturating_add(1);
        match self.all.get(place) {
            Some(number) => *number,
            None => none,
        }
    }
}

// Adds the line of each reference of a process.
fn add_numbers(all: &mut Vec<Numbered>, transcript: &Transcript) -> Result<(), AllocError> {
    for (line, events, _) in transcript.steps() {
        let mut nth = 0u32;
        for event in events {
            if let Event2::Core(Event::Seen(_)) = event {
                nth = nth.saturating_add(1);
                all.push(Numbered { line, nth })?;
            }
        }
    }
    Ok(())
}
