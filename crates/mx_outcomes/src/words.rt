//! What a line came to, in words.

ghost use Rattle.std.specs.Prelude.{◌≡◌, ◌++◌, ◌∷◌, [], codes, map, IfOk, OnOk};
ghost use Rattle.mx_request.specs.Fields.{address_text};
ghost use Rattle.mx_text.specs.RunText.{result_text};
ghost use Rattle.mx_transcript.specs.declared.transcripts.Event2.TheVariants.{Entry};
ghost use Rattle.mx_transcript.specs.declared.transcripts.Result2.TheVariants.{Pr, Moved};
ghost use Rattle.mx_outcomes.specs.Words.{event_words, events_words, read_words, outcome_of, outcomes_of, outcomes_in};

use crate::decimals::add_decimal;
use mx_list::{Bytes, Sequence};
use mx_ptr::Pointer;
use mx_sdw::{Ring, write_octal};
use mx_state::Journal;
use mx_transcript::{Event, Event2, Outcome, Result2, Transcript, Transcripts, entry_at};
use std::alloc::{AllocError, Global};

/// The outcomes of all script lines in a run, one process after another. The outcome of a line is the reply to each of its entries and
/// each word that it read, in order, and how it ended; where its entries stand in the journal it does not tell. The only error is want
/// of memory.
pub fn outcomes_in(
    alloc: Global,
    journal: &Journal,
    transcripts: &Transcripts,
) -> Result<Vec<Bytes>, AllocError>
    ensures { IfOk result (λ outcomes. outcomes.items ≡ outcomes_in journal.now transcripts.now) }
{
    let mut outcomes = Vec::new(alloc);
    if let Some((_, transcripts)) = transcripts.items().split_first() {
        for transcript in transcripts {
            add_outcomes(alloc, &mut outcomes, journal, transcript)?;
        }
    }
    Ok(outcomes)
}

// Adds the outcomes of the lines of a process.
fn add_outcomes(
    alloc: Global,
    outcomes: &mut Vec<Bytes>,
    journal: &Journal,
    transcript: &Transcript,
) -> Result<(), AllocError>
    ensures { OnOk result (outcomes.new.items ≡ outcomes.old.items ++ outcomes_of journal.now transcript.now) }
{
    for (number, events, ends) in transcript.steps() {
        let outcome = outcome_of(alloc, journal, number, events, ends)?;
        outcomes.push(outcome)?;
    }
    Ok(())
}

// The outcome of a line.
fn outcome_of(
    alloc: Global,
    journal: &Journal,
    _number: u32,
    events: &[Event2],
    ends: Result2,
) -> Result<Bytes, AllocError>
    ensures { IfOk result (λ outcome. outcome ≡ outcome_of journal.now (_number, events.now, ends)) }
{
    let mut out = Vec::new(alloc);
    add_events(&mut out, journal, events)?;
    add_result(&mut out, &ends)?;
    Ok(Sequence::of(out))
}

fn add_events(out: &mut Vec<u8>, journal: &Journal, events: &[Event2]) -> Result<(), AllocError>
    ensures { OnOk result (out.new.items ≡ out.old.items ++ events_words journal.now events.now) }
{
    for event in events {
        add_event(out, journal, event)?;
    }
    Ok(())
}

// Adds the reply to an entry, or the word that a reference read.
fn add_event(out: &mut Vec<u8>, journal: &Journal, event: &Event2) -> Result<(), AllocError>
    ensures { OnOk result (out.new.items ≡ out.old.items ++ event_words journal.now event.now) }
{
    match event {
        Event2::Core(Event::Seen(element)) => add_read(out, &element.outcome),
        Event2::Core(Event::Missing { .. }) => Ok(()),
        Event2::Entry(number) => add_reply(out, journal, *number),
    }
}

fn add_read(out: &mut Vec<u8>, outcome: &Outcome) -> Result<(), AllocError>
    ensures { OnOk result (out.new.items ≡ out.old.items ++ read_words outcome.now) }
{
    match outcome {
        Outcome::Read { value, .. } => {
            out.extend_from_slice(b"read ")?;
            write_octal(out, value.value())?;
            out.extend_from_slice(b", ")
        },
        Outcome::Written { .. } | Outcome::Entered { .. } | Outcome::Denied(_) => Ok(()),
    }
}

fn add_reply(out: &mut Vec<u8>, journal: &Journal, number: u32) -> Result<(), AllocError>
    ensures { OnOk result (out.new.items ≡ out.old.items ++ event_words journal.now (Entry number)) }
{
    match entry_at(journal, number) {
        Some(entry) => {
            entry.reply.append_to(out)?;
            out.extend_from_slice(b", ")
        },
        None => Ok(()),
    }
}

fn add_result(out: &mut Vec<u8>, ends: &Result2) -> Result<(), AllocError>
    ensures { OnOk result (out.new.items ≡ out.old.items ++ result_text ends.now) }
{
    match ends {
        Result2::Done => out.extend_from_slice(b"done"),
        Result2::A(word) => {
            out.extend_from_slice(b"a ")?;
            write_octal(out, word.value())
        },
        Result2::Pr { n, pointer } => add_register(out, *n, pointer),
        Result2::Moved { ring, procedure } => add_procedure(out, *ring, procedure),
        Result2::Denied(denial) => {
            out.extend_from_slice(b"denied ")?;
            out.extend_from_slice(denial.text().as_bytes())
        },
        Result2::Refused => out.extend_from_slice(b"refused"),
        Result2::HistoryFull => out.extend_from_slice(b"history_full"),
    }
}

// `pr N RING S|W`
fn add_register(out: &mut Vec<u8>, n: u8, pointer: &Pointer) -> Result<(), AllocError>
    ensures { OnOk result (out.new.items ≡ out.old.items ++ result_text (Pr n pointer.now)) }
{
    out.extend_from_slice(b"pr ")?;
    add_decimal(out, u64::from(n))?;
    out.extend_from_slice(b" ")?;
    add_decimal(out, u64::from(pointer.ring.number()))?;
    out.extend_from_slice(b" ")?;
    add_address(out, pointer.segno, pointer.word)
}

// `ring R at S|W`
fn add_procedure(out: &mut Vec<u8>, ring: Ring, procedure: &Pointer) -> Result<(), AllocError>
    ensures { OnOk result (out.new.items ≡ out.old.items ++ result_text (Moved ring procedure.now)) }
{
    out.extend_from_slice(b"ring ")?;
    add_decimal(out, u64::from(ring.number()))?;
    out.extend_from_slice(b" at ")?;
    add_address(out, procedure.segno, procedure.word)
}

// `S|W`
fn add_address(out: &mut Vec<u8>, segno: u16, word: u16) -> Result<(), AllocError>
    ensures { OnOk result (out.new.items ≡ out.old.items ++ address_text segno word) }
{
    write_octal(out, u64::from(segno))?;
    out.extend_from_slice(b"|")?;
    write_octal(out, u64::from(word))
}
