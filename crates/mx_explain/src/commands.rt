//! The top call: what the program does with the words of its command line.

ghost use Rattle.std.specs.Prelude.{◌≡◌, ◌≢◌, ◌⊎◌, ◌≤◌, ℕ, List, length, map, Some, IfOk, OnOk, IsErrOf, codes};
ghost use Rattle.std.specs.String.{string_bytes};
ghost use Rattle.mx_drill.specs.Drills.{drill_session};
ghost use Rattle.mx_io.specs.Bytes.{Appends, AppendsPart, TakesTooMany};
ghost use Rattle.mx_io.specs.Faults.{Rose};
ghost use Rattle.mx_script.specs.SessionTexts.{session_text};
ghost use Rattle.mx_explain.specs.Commands.{IsReading, IsBreach, IsAnswered, IsCommand};
ghost use Rattle.mx_explain.specs.PlainTexts.{plain_text};
ghost use Rattle.mx_lint.specs.Diagnoses.{IsBadLine};
ghost use Rattle.mx_outcomes.specs.WholeRuns.{IsWholeRun};
ghost use Rattle.mx_explain.specs.Statuses.{IsDone, IsShownRun, IsRefused, IsToldOf, IsCutOffOf, IsBadText, IsBadTextCut, GainsFront, IsStopped, IsDueStatus};
ghost use Rattle.mx_explain.specs.Usage.{usage, refusal};
ghost use Rattle.mx_explain.specs.Views.{ShowsOf, GainsOutcomes, TellsOutcomes, TellsSession, Tells, CutsOff, TellsFrontOfSession, TellsFront};

use crate::help::{refusal, usage};
use crate::orders::{chosen_order, named_order};
use crate::plain::plain_text;
use crate::words::{Command, Form, LineName, Reading, Turns, View};
use mx_breach::tell_source;
use mx_drill::{session_of, session_text};
use mx_io::{ReadError, Sink, Source, read_all, write_all};
use mx_lint::{Diagnosis, Finding, lint};
use mx_list::Bytes;
use mx_outcomes::{outcomes_text, pair_text};
use mx_picture::{show_page, show_picture};
use mx_proc::{NoGate, run, run_in_order};
use mx_script::Session;
use mx_show::{ShowError, show_lines, show_story};
use mx_state::Journal;
use mx_transcript::Transcripts;
use std::alloc::{AllocError, Global};
use std::sync::Wait;
use std::thread::Threads;

/// The greatest size of a session text, in bytes.
const MOST_BYTES: usize = 4_194_304;

/// The status of a program whose memory ran out.
pub const OUT_OF_MEMORY: u8 = 1;

/// The status where the words are not accepted.
const BAD_WORDS: u8 = 2;

/// The status where the source failed.
const SOURCE_FAULT: u8 = 3;

/// The status where the sink failed.
const SINK_FAULT: u8 = 4;

/// The status of a text that is no session.
const BAD_LINE: u8 = 5;

/// The status of a text that is too long.
const TOO_LONG: u8 = 6;

/// Does what the words of the command line ask for, and answers the status with which the program is to end. `lint`, `lines`, `story`,
/// `picture`, `page` and `outcomes` read the source to its end as the text of a session: `lint` says that it is one, or explains the first bad line;
/// `lines` runs the session and shows line by line what it came to; `story` tells the same run in time, `picture` draws it, and `page` makes a page
/// for a browser of it; `outcomes` runs it in all orders of its
/// lines, on one thread, and tells what each line came to, or of two lines which of their outcomes come together. Behind the four that show a run may stand
/// 1 to 4,096 process numbers, or `seed N`, which chooses as many: the lines of the processes are then made in that order, on one
/// thread. Else each process has a thread of its own. `plain` reads the source to its end and prints it without the lines that begin
/// with `#`; `breach` reads it as the text of a session and, at once behind it, that of a printed run, and says that the run is a legal one of
/// the session, or which breach it has, and why that is one; `drill N`, with N of 1 to 6 decimal digits, prints the session of that drill, and `help` how to use the program. The call
/// may wait for the threads of a run.
///
/// | Status | Comes | Written |
/// |---|---|---|
/// | 0 | the text is a session's, or a session's and a run's, or is not to be one, or none is read | `good`, the run in the form that is asked for, the outcomes, `legal` or the breach, or what is printed |
/// | 1 | memory ran out | a part of it, or nothing |
/// | 2 | the words are not accepted; the source is not read | `bad words`, and how to use the program |
/// | 3 | the source failed | nothing |
/// | 4 | the sink failed | a front of what was due |
/// | 5 | the bytes are no session, or under `breach` no session followed by a run | the first bad line, explained; under `breach` `bad line N` |
/// | 6 | the source gave more than 4,194,304 bytes, or under `breach` than 33,554,432 | `too long` |
pub fn show<R: Threads + Wait + Sync, S: Source, K: Sink>(
    rt: &R,
    alloc: Global,
    words: &[String],
    source: &mut S,
    sink: &mut K,
) -> u8
    // Status 0: what the words ask for was written. Where the source is read, it was read to its end, and its bytes are the text of a
    // session, of which `good`, or a legal run in the form that is asked for was shown, or what its lines come to in all orders; or the text was printed without its titles; or they
    // are the texts of a session and a run, and it was told that the run is legal, or its breach.
    ensures done { result ≡ 0 → IsDone (map string_bytes words.now) (S.left source.old) (S.left source.new) (K.out sink.old) (K.out sink.new) }

    // Status 5: its bytes are the text of none, or not the texts of a session and a run, and the line that is named is the first bad one.
    ensures bad_line { result ≡ 5 → IsRefused (map string_bytes words.now) (S.left source.old) (S.left source.new) (K.out sink.old) (K.out sink.new) }

    // Status 6: there are too many of them.
    ensures too_long { result ≡ 6 → (IsBreach (map string_bytes words.now) → ⊥) → TakesTooMany 4194304 (S.left source.old) (S.left source.new) }
    ensures run_too_long { result ≡ 6 → IsBreach (map string_bytes words.now) → TakesTooMany 33554432 (S.left source.old) (S.left source.new) }
    ensures too_long_told { result ≡ 6 → Appends (K.out sink.old) (K.out sink.new) (codes "too long\n") }

    // Status 2, or a failing sink, where the words are not accepted. They are told to be bad, and how to use the program.
    ensures refused { (IsCommand (map string_bytes words.now) → ⊥) → (result ≡ 2) ⊎ (result ≡ 4) }
    ensures bad_words { result ≡ 2 → IsCommand (map string_bytes words.now) → ⊥ }
    ensures usage { result ≡ 2 → Appends (K.out sink.old) (K.out sink.new) refusal }

    // The source is touched only by the commands that read it. Those that do not want memory and the sink alone.
    ensures unread { (IsReading (map string_bytes words.now) → ⊥) → source.new ≡ source.old }
    ensures answered { IsAnswered (map string_bytes words.now) → (result ≡ 0) ⊎ ((result ≡ 1) ⊎ (result ≡ 4)) }

    // At status 1 neither end had failed.
    ensures unfailed { result ≡ 1 → (S.faults source.new ≡ S.faults source.old) × (K.faults sink.new ≡ K.faults sink.old) }

    // Status 3 is a fault of the source, with nothing written, and status 4 one of the sink.
    ensures source_fault { result ≡ 3 → Rose (S.faults source.old) (S.faults source.new) }
    ensures unwritten { result ≡ 3 → sink.new ≡ sink.old }
    ensures sink_fault { result ≡ 4 → Rose (K.faults sink.old) (K.faults sink.new) }
    ensures front { result ≡ 4 → GainsFront (map string_bytes words.now) (S.left source.old) (S.left source.new) (K.out sink.old) (K.out sink.new) }
    ensures statuses { result ≤ 6 }

    // Which status it is follows from the words and from the bytes of a source that tells them.
    ensures due { (spelled : List ℕ) → S.left source.old ≡ Some spelled
        → IsStopped result ⊎ IsDueStatus (map string_bytes words.now) spelled result }
{
    match Command::read(words) {
        Command::Read(reading) => match read_all(alloc, source, MOST_BYTES) {
            Ok(bytes) => match tell(reading, rt, alloc, &bytes, sink) {
                Ok(status) => status,
                Err(ShowError::Fault) => SINK_FAULT,
                Err(ShowError::Memory) => OUT_OF_MEMORY,
            },
            Err(ReadError::TooLong) => told(sink, b"too long\n", TOO_LONG),
            Err(ReadError::Fault) => SOURCE_FAULT,
            Err(ReadError::Memory) => OUT_OF_MEMORY,
        },
        Command::Breach => tell_source(rt, alloc, source, sink),
        Command::Drill(number) => match drill_text(alloc, number) {
            Ok(text) => told(sink, text.items(), 0),
            Err(AllocError) => OUT_OF_MEMORY,
        },
        Command::Help => told(sink, usage(), 0),
        Command::Other => told(sink, refusal(), BAD_WORDS),
    }
}

// The status of a program that told this, or of one whose sink failed.
fn told<K: Sink>(sink: &mut K, text: &[u8], status: u8) -> u8
    requires { status ≢ 4 }
    ensures told { (result ≡ status) ⊎ (result ≡ 4) }
    ensures text { result ≡ status → Appends (K.out sink.old) (K.out sink.new) text.now }
    ensures part { result ≡ 4 → AppendsPart (K.out sink.old) (K.out sink.new) text.now }
    ensures cause { result ≡ 4 → Rose (K.faults sink.old) (K.faults sink.new) }
{
    match write_all(sink, text) {
        Ok(()) => status,
        Err(_) => SINK_FAULT,
    }
}

// The text of the session of this drill.
fn drill_text(alloc: Global, number: u32) -> Result<Bytes, AllocError>
    requires { number ≤ 999999 }
    ensures { IfOk result (λ text. text ≡ session_text (drill_session number)) }
{
    let session = session_of(alloc, number)?;
    session_text(alloc, &session)
}

// Tells of a text, and answers the status: 0, and 5 where it is to be a session's and is none.
fn tell<R: Threads + Wait + Sync, K: Sink>(
    reading: Reading<'_>,
    rt: &R,
    alloc: Global,
    bytes: &[u8],
    sink: &mut K,
) -> Result<u8, ShowError>
    requires { length bytes.now ≤ 4194304 }
    ensures told { IfOk result (Tells reading.entry bytes.now (K.out sink.old) (K.out sink.new)) }
    ensures front { IsErrOf result ShowError.Fault → TellsFront reading.entry bytes.now (K.out sink.old) (K.out sink.new) }
    ensures cause { IsErrOf result ShowError.Fault → Rose (K.faults sink.old) (K.faults sink.new) }
    ensures only { (IsErrOf result ShowError.Fault → ⊥) → K.faults sink.new ≡ K.faults sink.old }
{
    match reading {
        Reading::Session(view) => tell_session(view, rt, alloc, bytes, sink),
        Reading::Plain => print_plain(alloc, bytes, sink),
    }
}

// Prints a text without its titles.
fn print_plain<K: Sink>(alloc: Global, bytes: &[u8], sink: &mut K) -> Result<u8, ShowError>
    ensures told { IfOk result (λ status. (status ≡ 0) × Appends (K.out sink.old) (K.out sink.new) (plain_text bytes.now)) }
    ensures front { IsErrOf result ShowError.Fault → AppendsPart (K.out sink.old) (K.out sink.new) (plain_text bytes.now) }
    ensures cause { IsErrOf result ShowError.Fault → Rose (K.faults sink.old) (K.faults sink.new) }
    ensures only { (IsErrOf result ShowError.Fault → ⊥) → K.faults sink.new ≡ K.faults sink.old }
{
    let text = plain_text(alloc, bytes)?;
    write_all(sink, &text)?;
    Ok(0)
}

// Tells of a text as a session, and answers the status: 0 where it is one's, 5 where it is not.
fn tell_session<R: Threads + Wait + Sync, K: Sink>(
    view: View<'_>,
    rt: &R,
    alloc: Global,
    bytes: &[u8],
    sink: &mut K,
) -> Result<u8, ShowError>
    requires { length bytes.now ≤ 4194304 }
    ensures told { IfOk result (TellsSession view.entry bytes.now (K.out sink.old) (K.out sink.new)) }
    ensures front { IsErrOf result ShowError.Fault → TellsFrontOfSession view.entry bytes.now (K.out sink.old) (K.out sink.new) }
    ensures cause { IsErrOf result ShowError.Fault → Rose (K.faults sink.old) (K.faults sink.new) }
    ensures only { (IsErrOf result ShowError.Fault → ⊥) → K.faults sink.new ≡ K.faults sink.old }
{
    match lint(alloc, bytes)? {
        Finding::Bad(diagnosis) => {
            tell_bad_text(alloc, bytes, &diagnosis, sink)?;
            Ok(BAD_LINE)
        }
        Finding::Good(session) => {
            show_session(view, rt, alloc, &session, sink)?;
            Ok(0)
        }
    }
}

// Shows a session.
fn show_session<R: Threads + Wait + Sync, K: Sink>(
    view: View<'_>,
    rt: &R,
    alloc: Global,
    session: &Session,
    sink: &mut K,
) -> Result<(), ShowError>
    ensures shown { OnOk result (ShowsOf view.entry session.now (K.out sink.old) (K.out sink.new)) }
    ensures front { IsErrOf result ShowError.Fault → CutsOff view.entry (K.out sink.old) (K.out sink.new) }
    ensures cause { IsErrOf result ShowError.Fault → Rose (K.faults sink.old) (K.faults sink.new) }
    ensures only { (IsErrOf result ShowError.Fault → ⊥) → K.faults sink.new ≡ K.faults sink.old }
{
    match view {
        View::Lint => {
            write_all(sink, b"good\n")?;
            Ok(())
        }
        View::Run(form, turns) => {
            let (journal, transcripts) = run_alone(turns, rt, alloc, session)?;
            show_run(form, alloc, session, &journal, &transcripts, sink)
        }
        View::Outcomes(asked) => show_outcomes(asked, rt, alloc, session, sink),
    }
}

// Shows a run of a session in this form.
fn show_run<K: Sink>(
    form: Form,
    alloc: Global,
    session: &Session,
    journal: &Journal,
    transcripts: &Transcripts,
    sink: &mut K,
) -> Result<(), ShowError>
    requires run { IsWholeRun session.now journal.now transcripts.now }
    ensures shown { OnOk result (IsShownRun form session.now (K.out sink.old) (K.out sink.new)) }
    ensures cause { IsErrOf result ShowError.Fault → Rose (K.faults sink.old) (K.faults sink.new) }
    ensures only { (IsErrOf result ShowError.Fault → ⊥) → K.faults sink.new ≡ K.faults sink.old }
{
    match form {
        Form::Lines => show_lines(alloc, session, journal, transcripts, sink),
        Form::Story => show_story(alloc, session, journal, transcripts, sink),
        Form::Picture => show_picture(alloc, session, journal, transcripts, sink),
        Form::Page => show_page(alloc, session, journal, transcripts, sink),
    }
}

// Shows what the lines of a session come to in all orders, or what two of them do together.
fn show_outcomes<R: Wait, K: Sink>(
    asked: Option<(LineName, LineName)>,
    rt: &R,
    alloc: Global,
    session: &Session,
    sink: &mut K,
) -> Result<(), ShowError>
    ensures shown { OnOk result (GainsOutcomes asked session.now (K.out sink.old) (K.out sink.new)) }
    ensures cause { IsErrOf result ShowError.Fault → Rose (K.faults sink.old) (K.faults sink.new) }
    ensures only { (IsErrOf result ShowError.Fault → ⊥) → K.faults sink.new ≡ K.faults sink.old }
{
    let text = told_outcomes(asked, rt, alloc, session)?;
    write_all(sink, &text)?;
    Ok(())
}

// What is told of them.
fn told_outcomes<R: Wait>(
    asked: Option<(LineName, LineName)>,
    rt: &R,
    alloc: Global,
    session: &Session,
) -> Result<Vec<u8>, AllocError>
    ensures { IfOk result (λ text. TellsOutcomes asked session.now text.items) }
{
    match asked {
        None => outcomes_text(rt, alloc, session),
        Some((one, other)) => pair_text(rt, alloc, session, one, other),
    }
}

// Runs a session with no gate and no auditors, its processes taking turns so.
#[tactic(auto, using(mx_outcomes::proofs::WholeRunLaws::whole_run))]
fn run_alone<R: Threads + Wait + Sync>(
    turns: Turns<'_>,
    rt: &R,
    alloc: Global,
    session: &Session,
) -> Result<(Journal, Transcripts), AllocError>
    ensures { IfOk result (λ ran. IsWholeRun session.now ran.0 ran.1) }
{
    match turns {
        Turns::Threads => run(rt, alloc, session, &NoGate, &mut Vec::new(alloc)),
        Turns::Chosen(number) => {
            let order = chosen_order(alloc, session, number)?;
            run_in_turns(rt, alloc, session, &order)
        }
        Turns::Named(words) => {
            let order = named_order(alloc, words)?;
            run_in_turns(rt, alloc, session, &order)
        }
    }
}

// Runs a session on one thread, the lines of its processes in this order, with no gate and no auditors.
#[tactic(auto, using(mx_outcomes::proofs::WholeRunLaws::whole_run))]
fn run_in_turns<R: Wait>(
    rt: &R,
    alloc: Global,
    session: &Session,
    order: &[u8],
) -> Result<(Journal, Transcripts), AllocError>
    ensures { IfOk result (λ ran. IsWholeRun session.now ran.0 ran.1) }
{
    run_in_order(rt, alloc, session, order, &NoGate, &mut Vec::new(alloc))
}

// Explains the first bad line of these bytes.
fn tell_bad_text<K: Sink>(
    alloc: Global,
    _bytes: &[u8],
    diagnosis: &Diagnosis,
    sink: &mut K,
) -> Result<(), ShowError>
    requires bad { IsBadLine _bytes.now diagnosis.now.number diagnosis.now.text.now }
    ensures told { OnOk result (IsBadText _bytes.now (K.out sink.old) (K.out sink.new)) }
    ensures front { IsErrOf result ShowError.Fault → IsBadTextCut _bytes.now (K.out sink.old) (K.out sink.new) }
    ensures cause { IsErrOf result ShowError.Fault → Rose (K.faults sink.old) (K.faults sink.new) }
    ensures only { (IsErrOf result ShowError.Fault → ⊥) → K.faults sink.new ≡ K.faults sink.old }
{
    tell_bad_line(alloc, diagnosis, sink)
}

// Explains a bad line.
fn tell_bad_line<K: Sink>(
    alloc: Global,
    diagnosis: &Diagnosis,
    sink: &mut K,
) -> Result<(), ShowError>
    ensures told { OnOk result (IsToldOf (K.out sink.old) (K.out sink.new) diagnosis.now.number) }
    ensures front { IsErrOf result ShowError.Fault → IsCutOffOf (K.out sink.old) (K.out sink.new) diagnosis.now.number }
    ensures cause { IsErrOf result ShowError.Fault → Rose (K.faults sink.old) (K.faults sink.new) }
    ensures only { (IsErrOf result ShowError.Fault → ⊥) → K.faults sink.new ≡ K.faults sink.old }
{
    let text = diagnosis.text(alloc)?;
    write_all(sink, &text)?;
    Ok(())
}
