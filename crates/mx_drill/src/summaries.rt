//! The summary of a run.

ghost use Rattle.std.specs.Prelude.{◌≡◌, ◌+◌, ◌++◌, ◌∷◌, [], IfOk, OnOk};
ghost use Rattle.mx_transcript.specs.Transcripts.{events_of};
ghost use Rattle.mx_drill.specs.Counting.{Counted, AreCounts};
ghost use Rattle.mx_drill.specs.Summaries.{references_among, references_of, is_access, is_denied, value_written, labelled, summary_text};

use itoa::Buffer;
use mx_list::Bytes;
use mx_state::Journal;
use mx_transcript::{Element, Event, Event2, Kind, Outcome, Transcript, Transcripts};
use std::alloc::{AllocError, Global};

/// The summary of a run of the drill of this number: the lines `drill`, `entries`, `granted`, `denied` and `written`, each with its number,
/// and `end`. Takes time linear in the run. The only error is want of memory; a number beyond the greatest `u64` counts as that, and no run
/// comes to one.
pub fn summary(
    alloc: Global,
    number: u32,
    journal: &Journal,
    transcripts: &Transcripts,
) -> Result<Bytes, AllocError>
    ensures { IfOk result (λ text. text ≡ summary_text number journal.now transcripts.now) }
{
    let counts = Counts::of(transcripts.items())?;
    let mut text = Vec::new(alloc);
    add_line(&mut text, b"drill ", u64::from(number))?;
    add_line(&mut text, b"entries ", journal.items().len() as u64)?;
    add_line(&mut text, b"granted ", counts.granted)?;
    add_line(&mut text, b"denied ", counts.denied)?;
    add_line(&mut text, b"written ", counts.written)?;
    text.extend_from_slice(b"end\n")?;
    Ok(Bytes::of(text))
}

/// What was counted so far: loads and stores that were granted, references that were denied, and the sum of the values stored.
#[derive(Clone, Copy)]
pub(crate) struct Counts {
    granted: u64,
    denied: u64,
    written: u64,
}

impl Counts {
    // The counts of all processes.
    fn of(transcripts: &[Transcript]) -> Result<Counts, AllocError>
        ensures { IfOk result (AreCounts (references_of transcripts.now)) }
    {
        let mut counts = Counts {
            granted: 0,
            denied: 0,
            written: 0,
        };
        for transcript in transcripts {
            counts.add_part(transcript)?;
        }
        Ok(counts)
    }

    // Counts the references of one process.
    fn add_part(&mut self, transcript: &Transcript) -> Result<(), AllocError>
        ensures { OnOk result (Counted self.old (references_among (events_of transcript.now)) self.new) }
    {
        for (number, events, ends) in transcript.steps() {
            let _ = (number, ends);
            self.add_events(events)?;
        }
        Ok(())
    }

    fn add_events(&mut self, events: &[Event2]) -> Result<(), AllocError>
        ensures { OnOk result (Counted self.old (references_among events.now) self.new) }
    {
        for event in events {
            self.add_event(event)?;
        }
        Ok(())
    }

    fn add_event(&mut self, event: &Event2) -> Result<(), AllocError>
        ensures { OnOk result (Counted self.old (references_among (event.now ∷ [])) self.new) }
    {
        match event {
            Event2::Core(Event::Seen(element)) => self.add(element),
            Event2::Core(Event::Missing { .. }) | Event2::Entry(_) => Ok(()),
        }
    }

    fn add(&mut self, element: &Element) -> Result<(), AllocError>
        ensures { OnOk result (Counted self.old (element.now ∷ []) self.new) }
    {
        let denied = is_denied(element);
        let granted = is_access(&element.kind) && !denied;
        self.granted = sum(self.granted, u64::from(granted))?;
        self.denied = sum(self.denied, u64::from(denied))?;
        self.written = sum(self.written, value_written(element))?;
        Ok(())
    }
}

fn is_denied(element: &Element) -> bool
    ensures { result ≡ is_denied element.now }
{
    match element.outcome {
        Outcome::Denied(_) => true,
        Outcome::Read { .. } | Outcome::Written { .. } | Outcome::Entered { .. } => false,
    }
}

// The value that a granted store wrote, 0 of another reference.
fn value_written(element: &Element) -> u64
    ensures { result ≡ value_written element.now }
{
    match element.outcome {
        Outcome::Written { value } => value.value(),
        Outcome::Read { .. } | Outcome::Entered { .. } | Outcome::Denied(_) => 0,
    }
}

// Whether references of this kind are loads or stores.
fn is_access(kind: &Kind) -> bool
    ensures { result ≡ is_access kind.now }
{
    match kind {
        Kind::Read | Kind::Write => true,
        Kind::Ind | Kind::Fetch | Kind::Call | Kind::Return => false,
    }
}

// A sum that is beyond the greatest number counts as want of memory.
fn sum(a: u64, b: u64) -> Result<u64, AllocError>
    ensures { IfOk result (λ sum. sum ≡ a + b) }
{
    a.checked_add(b).ok_or(AllocError)
}

// Adds a label, a number and a newline.
fn add_line(out: &mut Vec<u8>, label: &[u8], n: u64) -> Result<(), AllocError>
    ensures { OnOk result (out.new.items ≡ out.old.items ++ labelled label.now n) }
{
    let mut buffer = Buffer::new();
    out.extend_from_slice(label)?;
    out.extend_from_slice(buffer.format(n).as_bytes())?;
    out.extend_from_slice(b"\n")
}
