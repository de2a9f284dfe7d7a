//! A run, line by line in words.

ghost use Rattle.std.specs.Prelude.{◌≡◌, ◌≤◌, ◌<◌, ◌+◌, ◌-◌, ℕ, length, drop, Some, slice_get, vec_len, OnOk, OnErr, IsErrOf};
ghost use Rattle.mx_io.specs.Faults.{Rose};
ghost use Rattle.mx_transcript.specs.Legal.{IsLegal};
ghost use Rattle.mx_transcript.specs.Scripts.{first_line, lines_of};
ghost use Rattle.mx_transcript.specs.Transcripts.{part};
ghost use Rattle.mx_show.specs.Lines.{GainsLines};
ghost use Rattle.mx_show.specs.Printing.{HaveLines, HaveNumbers, IsPartOf, PrintsLines, PrintsProcesses, lines_by};
ghost use Rattle.mx_text.specs.Printing.{IsSent};

mod adding;

use crate::errors::ShowError;
use crate::notes::Notes;
use crate::telling::Teller;
pub use adding::{
    add_heading, add_left_out, add_opening, add_request_line, add_script_line, word_set,
};
use mx_io::{Sink, WriteFault, write_all};
use mx_judging::{Accesses, judge_all};
use mx_script::{Line, Session};
use mx_state::Journal;
use mx_transcript::{Transcript, Transcripts, first_line};
use std::alloc::Global;

/// More bytes than these are sent before more are added.
const PIECE: usize = 32_768;

/// Shows a legal run of a session: the setup and each process, line by line in words, with each reference and the access that it
/// was judged on. Each line stands under its number, as the session spells it, and what is told of it behind it (`Lines`). Of a
/// process that was logged out the lines up to a denied one are shown and then its last, the `logout`; in place of those between
/// stands which they are. On an error a part was sent: `Fault` where the sink failed, `Memory` where memory was wanting. At most
/// 32 KiB are held between two lines, for each reference its access, and for each refusal what stands behind it.
pub fn show_lines<K: Sink>(
    alloc: Global,
    session: &Session,
    journal: &Journal,
    transcripts: &Transcripts,
    sink: &mut K,
) -> Result<(), ShowError>
    requires legal { IsLegal session.now journal.now transcripts.now }
    ensures shown { OnOk result (GainsLines (K.out sink.old) (K.out sink.new) session.now journal.now transcripts.now) }
    ensures cause { IsErrOf result ShowError.Fault → Rose (K.faults sink.old) (K.faults sink.new) }
    ensures only { (IsErrOf result ShowError.Fault → ⊥) → K.faults sink.new ≡ K.faults sink.old }
    ensures later { K.faults sink.old ≤ K.faults sink.new }
{
    let accesses = judge_all(alloc, session, journal, transcripts)?;
    let notes = Notes::new(alloc, session, journal)?;
    let entrants = session.principals().items();
    let parts = transcripts.items();
    let mut out = Vec::new(alloc);
    add_opening(&mut out, entrants.len(), journal.items().len())?;
    send_when_long(&mut out, sink)?;
    let mut teller = Teller::new(alloc, journal, &accesses, &notes, 0);
    print_setup(alloc, session, &parts[0], &mut teller, &mut out, sink)?;
    let told = Told {
        journal,
        accesses: &accesses,
        notes: &notes,
    };
    print_processes(alloc, session, parts, told, &mut out, sink)?;
    write_all(sink, &out)?;
    Ok(())
}

// What is told of.
#[derive(Clone, Copy)]
struct Told<'a> {
    journal: &'a Journal,
    accesses: &'a Accesses,
    notes: &'a Notes,
}

// The lines of the setup.
fn print_setup<K: Sink>(
    alloc: Global,
    session: &Session,
    transcript: &Transcript,
    teller: &mut Teller,
    out: &mut Vec<u8>,
    sink: &mut K,
) -> Result<(), ShowError>
    requires numbers { HaveNumbers (lines_of session.now 0) transcript.now }
    requires room { vec_len out.old ≤ 32768 }
    ensures held { OnOk result (vec_len out.new ≤ 32768) }
    ensures printed { OnOk result (PrintsLines (first_line session.now 0) (lines_of session.now 0) transcript.now
        (K.out sink.old) (K.out sink.new) out.old.items out.new.items) }
    ensures cause { IsErrOf result ShowError.Fault → Rose (K.faults sink.old) (K.faults sink.new) }
    ensures only { (IsErrOf result ShowError.Fault → ⊥) → K.faults sink.new ≡ K.faults sink.old }
    ensures later { K.faults sink.old ≤ K.faults sink.new }
{
    let setup = session.setup().items();
    let mut steps = transcript.steps();
    for request in setup {
        let Some((number, events, ends)) = steps.next() else {
            return Ok(());
        };
        add_request_line(alloc, out, number, request, teller, events, ends)?;
        send_when_long(out, sink)?;
    }
    Ok(())
}

// The processes from the first on, whose transcripts come behind that of the setup: each heading, and the lines of its part.
fn print_processes<K: Sink>(
    alloc: Global,
    session: &Session,
    transcripts: &[Transcript],
    told: Told,
    out: &mut Vec<u8>,
    sink: &mut K,
) -> Result<(), ShowError>
    requires transcripts { length transcripts.now ≡ 1 + length session.now.principals }
    requires parts { (p : ℕ) → p < length transcripts.now → IsPartOf session.now p (part transcripts.now p) }
    requires room { vec_len out.old ≤ 32768 }
    ensures held { OnOk result (vec_len out.new ≤ 32768) }
    ensures printed { OnOk result (PrintsProcesses session.now 0 session.now.principals (drop 1 transcripts.now)
        (K.out sink.old) (K.out sink.new) out.old.items out.new.items) }
    ensures cause { IsErrOf result ShowError.Fault → Rose (K.faults sink.old) (K.faults sink.new) }
    ensures only { (IsErrOf result ShowError.Fault → ⊥) → K.faults sink.new ≡ K.faults sink.old }
    ensures later { K.faults sink.old ≤ K.faults sink.new }
{
    let (entrants, scripts) = (session.principals().items(), session.scripts().items());
    for (i, entrant) in entrants.iter().enumerate() {
        let process = i as u8 + 1;
        add_heading(out, process, entrant)?;
        send_when_long(out, sink)?;
        let mut teller = Teller::new(alloc, told.journal, told.accesses, told.notes, process);
        let (first, script) = (first_line(session, process), scripts[i].items());
        let transcript = &transcripts[i + 1];
        print_script(alloc, first, script, transcript, &mut teller, out, sink)?;
    }
    Ok(())
}

// The lines of a script that came to something, where the first of the script has this number. A line is found by the number
// of its step: behind a cut comes the last one.
fn print_script<K: Sink>(
    alloc: Global,
    first: u32,
    script: &[Line],
    transcript: &Transcript,
    teller: &mut Teller,
    out: &mut Vec<u8>,
    sink: &mut K,
) -> Result<(), ShowError>
    requires lines { HaveLines first script.now transcript.now }
    requires room { vec_len out.old ≤ 32768 }
    ensures held { OnOk result (vec_len out.new ≤ 32768) }
    ensures printed { OnOk result (PrintsLines first (lines_by first script.now transcript.now) transcript.now
        (K.out sink.old) (K.out sink.new) out.old.items out.new.items) }
    ensures cause { IsErrOf result ShowError.Fault → Rose (K.faults sink.old) (K.faults sink.new) }
    ensures only { (IsErrOf result ShowError.Fault → ⊥) → K.faults sink.new ≡ K.faults sink.old }
    ensures later { K.faults sink.old ≤ K.faults sink.new }
{
    let mut next = u64::from(first);
    for (number, events, ends) in transcript.steps() {
        add_left_out(out, next, u64::from(number))?;
        let line = line_of(script, first, number);
        add_script_line(alloc, out, number, line, teller, events, ends)?;
        send_when_long(out, sink)?;
        next = u64::from(number) + 1;
    }
    Ok(())
}

// The line of this number in a script whose first line has that one.
fn line_of(script: &[Line], first: u32, number: u32) -> &Line
    requires from { first ≤ number }
    requires within { number - first < length script.now }
    ensures { slice_get script.now (number - first) ≡ Some result.now }
{
    &script[(number - first) as usize]
}

/// Sends what is written where it is long.
pub fn send_when_long<K: Sink>(out: &mut Vec<u8>, sink: &mut K) -> Result<(), WriteFault>
    ensures sent { OnOk result (IsSent (K.out sink.old) (K.out sink.new) out.new.items out.old.items) }
    ensures short { OnOk result (vec_len out.new ≤ 32768) }
    ensures cause { OnErr result (Rose (K.faults sink.old) (K.faults sink.new)) }
    ensures only { OnOk result (K.faults sink.new ≡ K.faults sink.old) }
    ensures later { K.faults sink.old ≤ K.faults sink.new }
{
    if out.len() > PIECE {
        write_all(sink, out)?;
        out.clear();
    }
    Ok(())
}
