//! The accesses of a run as one table of JSON: what stands before the first entry, and what each entry changes.

ghost use Rattle.std.specs.Prelude.{◌≡◌, ◌≤◌, IsErrOf, OnOk};
ghost use Rattle.mx_io.specs.Faults.{Rose};
ghost use Rattle.mx_transcript.specs.Legal.{IsLegal};
ghost use Rattle.mx_picture.specs.Pages.{Gains};

use crate::courses::{Course, Turn};
use crate::escapes::add_quoted;
use mx_io::{Sink, write_all};
use mx_judging::Part::{self, Decimal, Octal, Text};
use mx_judging::{Access, add_parts};
use mx_request::Entrant;
use mx_script::Session;
use mx_show::{ShowError, access_word, add_reply, extent, id_text, is_unmatched, send_when_long};
use mx_state::{Entry, Journal};
use mx_transcript::Transcripts;
use std::alloc::{AllocError, Global};

/// Sends the table.
pub(crate) fn send_table<K: Sink>(
    alloc: Global,
    session: &Session,
    journal: &Journal,
    transcripts: &Transcripts,
    sink: &mut K,
) -> Result<(), ShowError>
    requires legal { IsLegal session.now journal.now transcripts.now }
    ensures sent { OnOk result (Gains (K.out sink.old) (K.out sink.new)) }
    ensures cause { IsErrOf result ShowError.Fault → Rose (K.faults sink.old) (K.faults sink.new) }
    ensures only { (IsErrOf result ShowError.Fault → ⊥) → K.faults sink.new ≡ K.faults sink.old }
    ensures later { K.faults sink.old ≤ K.faults sink.new }
{
    let mut course = Course::new(alloc, session, journal)?;
    send_course(alloc, session, journal.items(), &mut course, sink)?;
    Ok(())
}

// The same along a course that is at its beginning.
fn send_course<K: Sink>(
    alloc: Global,
    session: &Session,
    journal: &[Entry],
    course: &mut Course,
    sink: &mut K,
) -> Result<(), ShowError>
    ensures sent { OnOk result (Gains (K.out sink.old) (K.out sink.new)) }
    ensures cause { IsErrOf result ShowError.Fault → Rose (K.faults sink.old) (K.faults sink.new) }
    ensures only { (IsErrOf result ShowError.Fault → ⊥) → K.faults sink.new ≡ K.faults sink.old }
    ensures later { K.faults sink.old ≤ K.faults sink.new }
{
    let mut out = Vec::new(alloc);
    add_start(alloc, &mut out, session, course)?;
    send_entries(alloc, journal, course, &mut out, sink)?;
    out.extend_from_slice(b"\n]}\n</script>\n")?;
    write_all(sink, &out)?;
    Ok(())
}

// Adds whose the processes are, and what they have before the first entry.
fn add_start(
    alloc: Global,
    out: &mut Vec<u8>,
    session: &Session,
    course: &mut Course,
) -> Result<(), AllocError> {
    out.extend_from_slice(b"<script type=\"application/json\" id=\"run\">\n{\"processes\":[")?;
    add_processes(alloc, out, session.principals().items())?;
    let mut turns = Vec::new(alloc);
    course.add_first(&mut turns)?;
    out.extend_from_slice(b"],\n\"start\":[")?;
    add_turns(alloc, out, course, &turns)?;
    out.extend_from_slice(b"],\n\"entries\":[")
}

fn add_processes(alloc: Global, out: &mut Vec<u8>, entrants: &[Entrant]) -> Result<(), AllocError> {
    let mut mark: &[u8] = b"";
    for entrant in entrants {
        let mut principal = Vec::new(alloc);
        entrant.who.append_to(&mut principal)?;
        out.extend_from_slice(mark)?;
        add_quoted(out, &principal)?;
        mark = b",";
    }
    Ok(())
}

// Sends the entries, each with what it changes.
fn send_entries<K: Sink>(
    alloc: Global,
    journal: &[Entry],
    course: &mut Course,
    out: &mut Vec<u8>,
    sink: &mut K,
) -> Result<(), ShowError>
    ensures sent { OnOk result (Gains (K.out sink.old) (K.out sink.new)) }
    ensures cause { IsErrOf result ShowError.Fault → Rose (K.faults sink.old) (K.faults sink.new) }
    ensures only { (IsErrOf result ShowError.Fault → ⊥) → K.faults sink.new ≡ K.faults sink.old }
    ensures later { K.faults sink.old ≤ K.faults sink.new }
{
    let mut mark: &[u8] = b"\n";
    for entry in journal {
        out.extend_from_slice(mark)?;
        add_entry(alloc, out, course, entry)?;
        send_when_long(out, sink)?;
        mark = b",\n";
    }
    Ok(())
}

// Adds an entry, and what it changes.
fn add_entry(
    alloc: Global,
    out: &mut Vec<u8>,
    course: &mut Course,
    entry: &Entry,
) -> Result<(), AllocError> {
    let mut turns = Vec::new(alloc);
    course.step(alloc, entry, &mut turns)?;
    add_number(alloc, out, "{\"process\":", u32::from(entry.process))?;
    add_number(alloc, out, ",\"ring\":", u32::from(entry.ring.number()))?;
    add_asked(alloc, out, entry)?;
    out.extend_from_slice(b",\"changes\":[")?;
    add_turns(alloc, out, course, &turns)?;
    out.extend_from_slice(b"]}")
}

// Adds what was asked for and what was answered.
fn add_asked(alloc: Global, out: &mut Vec<u8>, entry: &Entry) -> Result<(), AllocError> {
    let mut request = Vec::new(alloc);
    entry.request().append_to(&mut request)?;
    out.extend_from_slice(b",\"request\":")?;
    add_quoted(out, &request)?;
    let mut reply = String::new(alloc);
    add_reply(alloc, &mut reply, entry)?;
    out.extend_from_slice(b",\"reply\":")?;
    add_quoted(out, reply.as_bytes())
}

fn add_number(
    alloc: Global,
    out: &mut Vec<u8>,
    label: &str,
    number: u32,
) -> Result<(), AllocError> {
    let mut words = String::new(alloc);
    add_parts(&mut words, &[Text(label), Decimal(number)])?;
    out.extend_from_slice(words.as_bytes())
}

// Adds changes, one behind another.
fn add_turns(
    alloc: Global,
    out: &mut Vec<u8>,
    course: &Course,
    turns: &[Turn],
) -> Result<(), AllocError> {
    let mut mark: &[u8] = b"";
    for turn in turns {
        out.extend_from_slice(mark)?;
        add_turn(alloc, out, course, turn)?;
        mark = b",";
    }
    Ok(())
}

// Adds a change: whose number, what it stands for now, and what it gave and gives.
fn add_turn(
    alloc: Global,
    out: &mut Vec<u8>,
    course: &Course,
    turn: &Turn,
) -> Result<(), AllocError> {
    let mut path = String::new(alloc);
    course.add_standing(alloc, &mut path, turn.process, turn.segno)?;
    add_number(alloc, out, "\n{\"process\":", u32::from(turn.process))?;
    add_words(alloc, out, ",\"number\":", &[Octal(u64::from(turn.segno))])?;
    out.extend_from_slice(b",\"path\":")?;
    add_quoted(out, path.as_bytes())?;
    out.extend_from_slice(b",\"before\":")?;
    add_access(alloc, out, &turn.before)?;
    out.extend_from_slice(b",\"after\":")?;
    add_access(alloc, out, &turn.after)?;
    out.extend_from_slice(b"}")
}

// Adds what a number gives: the modes, the brackets, the size, and which entry of the access list decided the modes.
fn add_access(alloc: Global, out: &mut Vec<u8>, access: &Option<Access>) -> Result<(), AllocError> {
    let Some(access) = access else {
        return out.extend_from_slice(b"null");
    };
    let told = extent(&access.desc);
    let decided = decided_by(alloc, access)?;
    add_words(
        alloc,
        out,
        "{\"modes\":",
        &[Text(access_word(&access.desc))],
    )?;
    add_words(alloc, out, ",\"brackets\":", &told[1..6])?;
    add_words(alloc, out, ",\"size\":", &told[7..])?;
    out.extend_from_slice(b",\"by\":")?;
    add_quoted(out, decided.as_bytes())?;
    out.extend_from_slice(b"}")
}

// The entry of the access list that decided the modes; none of a stack and of a linkage section.
fn decided_by(alloc: Global, access: &Access) -> Result<String, AllocError> {
    match &access.entry {
        Some((id, _)) => id_text(alloc, id),
        None => {
            let mut words = String::new(alloc);
            if is_unmatched(&access.desc, &access.entry) {
                words.push_str("no entry matches")?;
            }
            Ok(words)
        }
    }
}

// Adds a label, and words as a string.
fn add_words(
    alloc: Global,
    out: &mut Vec<u8>,
    label: &str,
    parts: &[Part],
) -> Result<(), AllocError> {
    let mut words = String::new(alloc);
    add_parts(&mut words, parts)?;
    out.extend_from_slice(label.as_bytes())?;
    add_quoted(out, words.as_bytes())
}
