//! The printer: the run text of a journal and transcripts, sent to a sink.

ghost use Rattle.std.specs.Prelude.{◌≡◌, ◌++◌, ◌≤◌, codes, vec_len, OnOk, OnErr, IsErrOf};
ghost use Rattle.std.specs.Fmt.{decimal};
ghost use Rattle.mx_io.specs.Bytes.{Appends, AppendsPart};
ghost use Rattle.mx_io.specs.Faults.{Rose};
ghost use Rattle.mx_text.specs.Printing.{IsSent, IsCutShort};
ghost use Rattle.mx_text.specs.RunText.{entries_text, steps_text, parts_text, run_text};
ghost use Rattle.mx_text.specs.declared.printing.TextError.TheVariants.{Fault, Memory};

mod entries;
mod lines;
mod numbers;
mod tails;

use entries::add_entry;
use lines::add_step;
use mx_io::{Sink, WriteFault, write_all};
use mx_state::{Entry, Journal};
use mx_transcript::{Transcript, Transcripts};
use numbers::add_labelled;
use std::alloc::{AllocError, Global};
use tails::ROOM;
use thiserror::Error;

/// Why a text was not printed whole.
#[derive(Clone, Copy, Debug, PartialEq, Eq, Error)]
pub enum TextError {
    #[error("the sink failed")]
    Fault,
    #[error("out of memory")]
    Memory,
}

impl From<AllocError> for TextError {
    ghost from_gives = { λ _ e. e ≡ Memory };

    fn from(_: AllocError) -> TextError {
        TextError::Memory
    }
}

impl From<WriteFault> for TextError {
    ghost from_gives = { λ _ e. e ≡ Fault };

    fn from(_: WriteFault) -> TextError {
        TextError::Fault
    }
}

/// More bytes than these are sent before more are added, so that the memory taken does not grow with the text.
const PIECE: usize = 32_768;

/// Prints the run text of a journal and transcripts: `journal COUNT`, the entries under their numbers from 1, for each process
/// from 0 its lines with their events, and `end`. On an error the first of its bytes were sent, and not all: `Fault` where the
/// sink failed, `Memory` where memory was wanting. At most 32 KiB are held between two entries or lines.
pub fn print<K: Sink>(
    alloc: Global,
    journal: &Journal,
    transcripts: &Transcripts,
    sink: &mut K,
) -> Result<(), TextError>
    ensures printed { OnOk result (Appends (K.out sink.old) (K.out sink.new) (run_text journal.now transcripts.now)) }
    ensures part { OnErr result (AppendsPart (K.out sink.old) (K.out sink.new) (run_text journal.now transcripts.now)) }
    ensures cause { IsErrOf result TextError.Fault → Rose (K.faults sink.old) (K.faults sink.new) }
    ensures only { (IsErrOf result TextError.Fault → ⊥) → K.faults sink.new ≡ K.faults sink.old }
    ensures later { K.faults sink.old ≤ K.faults sink.new }
{
    let entries = journal.items();
    let mut buffer = Vec::new(alloc);
    add_heading(&mut buffer, b"journal ", entries.len())?;
    print_entries(entries, &mut buffer, sink)?;
    print_parts(transcripts.items(), &mut buffer, sink)?;
    buffer.extend_from_slice(b"end\n")?;
    write_all(sink, &buffer)?;
    Ok(())
}

// A label and a number on a line.
fn add_heading(out: &mut Vec<u8>, label: &[u8; 8], n: usize) -> Result<(), AllocError>
    ensures { OnOk result (out.new.items ≡ out.old.items ++ (label.now ++ decimal n ++ codes "\n")) }
{
    add_labelled(out, label, n as u64)?;
    out.extend_from_slice(b"\n")
}

fn print_entries<K: Sink>(
    entries: &[Entry],
    buffer: &mut Vec<u8>,
    sink: &mut K,
) -> Result<(), TextError>
    requires { vec_len buffer.old ≤ 32768 }
    ensures held { OnOk result (vec_len buffer.new ≤ 32768) }
    ensures sent { OnOk result (IsSent (K.out sink.old) (K.out sink.new) buffer.new.items (buffer.old.items ++ entries_text 1 entries.now)) }
    ensures part { OnErr result (IsCutShort (K.out sink.old) (K.out sink.new) (buffer.old.items ++ entries_text 1 entries.now)) }
    ensures cause { IsErrOf result TextError.Fault → Rose (K.faults sink.old) (K.faults sink.new) }
    ensures only { (IsErrOf result TextError.Fault → ⊥) → K.faults sink.new ≡ K.faults sink.old }
    ensures later { K.faults sink.old ≤ K.faults sink.new }
{
    let mut bytes = [0; ROOM];
    for (i, entry) in entries.iter().enumerate() {
        add_entry(buffer, &mut bytes, i as u64 + 1, entry)?;
        send_when_long(buffer, sink)?;
    }
    Ok(())
}

fn print_parts<K: Sink>(
    parts: &[Transcript],
    buffer: &mut Vec<u8>,
    sink: &mut K,
) -> Result<(), TextError>
    requires { vec_len buffer.old ≤ 32768 }
    ensures held { OnOk result (vec_len buffer.new ≤ 32768) }
    ensures sent { OnOk result (IsSent (K.out sink.old) (K.out sink.new) buffer.new.items (buffer.old.items ++ parts_text 0 parts.now)) }
    ensures part { OnErr result (IsCutShort (K.out sink.old) (K.out sink.new) (buffer.old.items ++ parts_text 0 parts.now)) }
    ensures cause { IsErrOf result TextError.Fault → Rose (K.faults sink.old) (K.faults sink.new) }
    ensures only { (IsErrOf result TextError.Fault → ⊥) → K.faults sink.new ≡ K.faults sink.old }
    ensures later { K.faults sink.old ≤ K.faults sink.new }
{
    for (p, transcript) in parts.iter().enumerate() {
        add_heading(buffer, b"process ", p)?;
        send_when_long(buffer, sink)?;
        print_steps(transcript, buffer, sink)?;
    }
    Ok(())
}

fn print_steps<K: Sink>(
    transcript: &Transcript,
    buffer: &mut Vec<u8>,
    sink: &mut K,
) -> Result<(), TextError>
    requires { vec_len buffer.old ≤ 32768 }
    ensures held { OnOk result (vec_len buffer.new ≤ 32768) }
    ensures sent { OnOk result (IsSent (K.out sink.old) (K.out sink.new) buffer.new.items (buffer.old.items ++ steps_text transcript.now)) }
    ensures part { OnErr result (IsCutShort (K.out sink.old) (K.out sink.new) (buffer.old.items ++ steps_text transcript.now)) }
    ensures cause { IsErrOf result TextError.Fault → Rose (K.faults sink.old) (K.faults sink.new) }
    ensures only { (IsErrOf result TextError.Fault → ⊥) → K.faults sink.new ≡ K.faults sink.old }
    ensures later { K.faults sink.old ≤ K.faults sink.new }
{
    let mut bytes = [0; ROOM];
    for (number, events, ends) in transcript.steps() {
        add_step(buffer, &mut bytes, number, events, ends)?;
        send_when_long(buffer, sink)?;
    }
    Ok(())
}

// Sends the buffer where it is long.
#[tactic(auto, using(crate::proofs::PrintingLaws::part_cut))]
fn send_when_long<K: Sink>(buffer: &mut Vec<u8>, sink: &mut K) -> Result<(), WriteFault>
    ensures sent { OnOk result (IsSent (K.out sink.old) (K.out sink.new) buffer.new.items buffer.old.items) }
    ensures short { OnOk result (vec_len buffer.new ≤ 32768) }
    ensures part { OnErr result (IsCutShort (K.out sink.old) (K.out sink.new) buffer.old.items) }
    ensures cause { OnErr result (Rose (K.faults sink.old) (K.faults sink.new)) }
    ensures only { OnOk result (K.faults sink.new ≡ K.faults sink.old) }
    ensures later { K.faults sink.old ≤ K.faults sink.new }
{
    if buffer.len() > PIECE {
        write_all(sink, buffer)?;
        buffer.clear();
    }
    Ok(())
}
