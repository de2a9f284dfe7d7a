//! Whether a run is legal, and else why not.

ghost use Rattle.std.specs.Prelude.{◌≡◌, ◌++◌, ◌≤◌, true, codes, IfOk, OnOk, IsErrOf};
ghost use Rattle.std.specs.List.{list_all};
ghost use Rattle.mx_breach.specs.Verdicts.{GainsVerdict, GainsVerdictFront, IsBreachText, IsVerdict, breach_line};
ghost use Rattle.mx_io.specs.Faults.{Rose};
ghost use Rattle.mx_legal.specs.Breach.{IsBreach};
ghost use Rattle.mx_script.specs.SessionTexts.{fits, rows_of};
ghost use Rattle.mx_spelling.specs.Spelling.{fits_entry};

use crate::breaches::told_of;
use itoa::Buffer;
use mx_io::{Sink, write_all};
use mx_legal::{Breach, legal};
use mx_script::Session;
use mx_show::ShowError;
use mx_state::{Journal, State};
use mx_transcript::Transcripts;
use std::alloc::{AllocError, Global};
use std::thread::Threads;

/// Tells that a run is a legal one of a session, or why it is none: `legal`; or the breach of the run, `breach P L`, and
/// behind it, in sentences, what is printed there, which rule fails, and what could stand there (`Verdicts`). The session and
/// the journal are such as texts can say. On an error a front was written, and not all: `Fault` where the sink failed, `Memory`
/// where memory was wanting.
pub fn tell_breach<R: Threads + Sync, K: Sink>(
    rt: &R,
    alloc: Global,
    session: &Session,
    journal: &Journal,
    transcripts: &Transcripts,
    sink: &mut K,
) -> Result<(), ShowError>
    requires session { list_all fits (rows_of session.now) ≡ true }
    requires journal { list_all fits_entry journal.now ≡ true }
    ensures told { OnOk result (GainsVerdict (K.out sink.old) (K.out sink.new) session.now journal.now transcripts.now) }
    ensures front { IsErrOf result ShowError.Fault
        → GainsVerdictFront (K.out sink.old) (K.out sink.new) session.now journal.now transcripts.now }
    ensures cause { IsErrOf result ShowError.Fault → Rose (K.faults sink.old) (K.faults sink.new) }
    ensures only { (IsErrOf result ShowError.Fault → ⊥) → K.faults sink.new ≡ K.faults sink.old }
    ensures later { K.faults sink.old ≤ K.faults sink.new }
{
    let text = verdict(rt, alloc, session, journal, transcripts)?;
    write_all(sink, &text)?;
    Ok(())
}

// What is told of a run.
fn verdict<R: Threads + Sync>(
    rt: &R,
    alloc: Global,
    session: &Session,
    journal: &Journal,
    transcripts: &Transcripts,
) -> Result<Vec<u8>, AllocError>
    requires session { list_all fits (rows_of session.now) ≡ true }
    requires journal { list_all fits_entry journal.now ≡ true }
    ensures { IfOk result (λ text. IsVerdict session.now journal.now transcripts.now text.items) }
{
    match legal::<State, R>(rt, alloc, session, journal, transcripts)? {
        None => legal_text(alloc),
        Some(breach) => breach_text(alloc, session, journal, transcripts, breach),
    }
}

// What is told of a legal run.
fn legal_text(alloc: Global) -> Result<Vec<u8>, AllocError>
    ensures { IfOk result (λ text. text.items ≡ codes "legal\n") }
{
    let mut text = Vec::new(alloc);
    text.extend_from_slice(b"legal\n")?;
    Ok(text)
}

// What is told of a run with this breach.
fn breach_text(
    alloc: Global,
    session: &Session,
    journal: &Journal,
    transcripts: &Transcripts,
    breach: Breach,
) -> Result<Vec<u8>, AllocError>
    requires session { list_all fits (rows_of session.now) ≡ true }
    requires journal { list_all fits_entry journal.now ≡ true }
    requires breach { IsBreach session.now journal.now transcripts.now breach.process breach.line }
    ensures { IfOk result (λ text. IsBreachText session.now journal.now transcripts.now text.items) }
{
    let mut text = Vec::new(alloc);
    add_breach(&mut text, breach)?;
    let told = told_of(alloc, session, journal, transcripts, breach)?;
    text.extend_from_slice(told.as_bytes())?;
    Ok(text)
}

// Adds `breach P L` and a newline.
fn add_breach(out: &mut Vec<u8>, breach: Breach) -> Result<(), AllocError>
    ensures { OnOk result (out.new.items ≡ out.old.items ++ breach_line breach.process breach.line) }
{
    let mut buffer = Buffer::new();
    out.extend_from_slice(b"breach ")?;
    out.extend_from_slice(buffer.format(breach.process as u64).as_bytes())?;
    let mut buffer = Buffer::new();
    out.extend_from_slice(b" ")?;
    out.extend_from_slice(buffer.format(breach.line).as_bytes())?;
    out.extend_from_slice(b"\n")
}
