//! What comes of a command.

ghost use Rattle.std.specs.Prelude.{◌≡◌, ◌⊎◌, ℕ, ◌≤◌, ◌<◌, true, [], ◌∷◌, map, length, Some, Ok, Err, IfOk, OnOk, OnErr, IsErrOf, codes};
ghost use Rattle.std.specs.List.{list_all};
ghost use Rattle.std.specs.String.{string_bytes};
ghost use Rattle.mx_check.specs.Judgements.{IsJudgement, judgement_text};
ghost use Rattle.mx_audit.specs.Accounts.{HaveGrown, HaveRoom};
ghost use Rattle.mx_io.specs.Bytes.{Appends, AppendsPart};
ghost use Rattle.mx_io.specs.Faults.{Rose};
ghost use Rattle.mx_drill.specs.Drills.{drill_session};
ghost use Rattle.mx_proc.specs.Auditors.{HaveRoomForLines, WereTold};
ghost use Rattle.mx_script.specs.FirstBadLine.{IsFirstBad};
ghost use Rattle.mx_script.specs.SessionTexts.{IsText, fits, rows_of};
ghost use Rattle.mx_spelling.specs.Spelling.{IsSpellable};
ghost use Rattle.mx_transcript.specs.Runs.{IsRunOf};
ghost use Rattle.mx_run.specs.Commands.{IsDrill, IsAccepted, IsReading};
ghost use Rattle.mx_run.specs.Unread.{no_session, unread};
ghost use Rattle.mx_run.specs.Verdicts.{IsVerdict, verdict_status, verdict_text};
ghost use Rattle.mx_run.specs.declared.verdicts.Unreached.TheVariants.{Fault, Memory};

use crate::words::Command;
use mx_audit::Auditor;
use mx_check::{Judgement, Unjudged};
use mx_drill::{session_of, summary};
use mx_io::{ReadError, Sink, Source, read_all, write_all};
use mx_proc::{Gate, run};
use mx_script::{Session, SessionError, read_session};
use mx_state::Journal;
use mx_text::{TextError, print};
use mx_transcript::Transcripts;
use std::alloc::{AllocError, Global};
use std::mem::ManuallyDrop;
use std::sync::Wait;
use std::thread::Threads;

/// The greatest size of a session text, in bytes.
const MOST_BYTES: usize = 4_194_304;

/// What comes of a command, where memory is there and no end fails.
#[derive(Drop)]
pub enum Verdict {
    /// The source held a session, and this is a legal run of it.
    Ran {
        journal: Journal,
        transcripts: Transcripts,
    },
    /// The words ask for the drill of this number, and this is a legal run of it. The source was not read.
    Drilled {
        number: u32,
        journal: Journal,
        transcripts: Transcripts,
    },
    /// The words ask for the check of a printed run, and this is the judgement on the source.
    Checked(Judgement),
    /// The words are not accepted. The source was not read.
    BadWords,
    /// The source was to hold a session and held none; the number of the first bad line.
    BadLine(u32),
    /// The source was to hold a session, and held more than 4,194,304 bytes.
    TooLong,
}

/// Why a command came to no verdict.
#[derive(Clone, Copy, Debug, PartialEq, Eq)]
pub(crate) enum Unreached {
    Fault,
    Memory,
}

impl From<AllocError> for Unreached {
    ghost from_gives = { λ _ e. e ≡ Memory };

    fn from(_: AllocError) -> Unreached {
        Unreached::Memory
    }
}

impl Verdict {
    /// The verdict on a command. Under `run` the source is read to its end, and its session is run. Under `drill` the drill is run, and the
    /// source is left as it is. Under `check` the source is read to its end and judged. Otherwise the source is left as it is and no memory
    /// is taken. The auditors are told of the run's denials, and their verdicts are heeded; under `check` they are told of nothing.
    pub(crate) fn reach<R: Threads + Wait + Sync, S: Source, G: Gate>(
        rt: &R,
        alloc: Global,
        words: &[String],
        source: &mut S,
        gate: &G,
        auditors: &mut Vec<Box<dyn Auditor + Send>>,
    ) -> Result<Verdict, Unreached>
        requires room { HaveRoom 700000 (map account auditors.old.items) }
        ensures right { IfOk result (IsVerdict (map string_bytes words.now) (S.left source.old) (S.left source.new)
            (map account auditors.old.items) (map account auditors.new.items)) }
        ensures grown { HaveGrown (map account auditors.old.items) (map account auditors.new.items) }
        ensures untold { IsErrOf result Unreached.Fault → map account auditors.new.items ≡ map account auditors.old.items }
        ensures refused { (IsAccepted (map string_bytes words.now) → ⊥) → result ≡ Ok Verdict.BadWords }
        ensures drilled { (n : ℕ) → IsDrill (map string_bytes words.now) n → IfOk result (λ verdict. verdict_status verdict ≡ 0) }
        ensures faultless { (IsReading (map string_bytes words.now) → ⊥) → IsErrOf result Unreached.Fault → ⊥ }
        ensures unread { (IsReading (map string_bytes words.now) → ⊥) → source.new ≡ source.old }
        ensures cause { IsErrOf result Unreached.Fault → Rose (S.faults source.old) (S.faults source.new) }
        ensures only { (IsErrOf result Unreached.Fault → ⊥) → S.faults source.new ≡ S.faults source.old }
    {
        match Command::read(words) {
            Command::Run => Verdict::of_source(rt, alloc, source, gate, auditors),
            Command::Drill(number) => {
                let (journal, transcripts) = drilled(rt, alloc, number, gate, auditors)?;
                Ok(Verdict::Drilled {
                    number,
                    journal,
                    transcripts,
                })
            }
            Command::Check => {
                let judgement = judged(rt, alloc, source)?;
                Ok(Verdict::Checked(judgement))
            }
            Command::Other => Ok(Verdict::BadWords),
        }
    }

    // The verdict on a source.
    fn of_source<R: Threads + Wait + Sync, S: Source, G: Gate>(
        rt: &R,
        alloc: Global,
        source: &mut S,
        gate: &G,
        auditors: &mut Vec<Box<dyn Auditor + Send>>,
    ) -> Result<Verdict, Unreached>
        requires room { HaveRoom 700000 (map account auditors.old.items) }
        ensures right { IfOk result (IsVerdict (codes "run" ∷ []) (S.left source.old) (S.left source.new)
            (map account auditors.old.items) (map account auditors.new.items)) }
        ensures grown { HaveGrown (map account auditors.old.items) (map account auditors.new.items) }
        ensures untold { IsErrOf result Unreached.Fault → map account auditors.new.items ≡ map account auditors.old.items }
        ensures cause { IsErrOf result Unreached.Fault → Rose (S.faults source.old) (S.faults source.new) }
        ensures only { (IsErrOf result Unreached.Fault → ⊥) → S.faults source.new ≡ S.faults source.old }
    {
        match read_all(alloc, source, MOST_BYTES) {
            Ok(bytes) => Verdict::of_bytes(rt, alloc, bytes, gate, auditors),
            Err(error) => unread(error),
        }
    }

    // The verdict on bytes within the limit, which are let go of before the run; the session is left to the system (`into_status`). The
    // only error is `Memory`.
    fn of_bytes<R: Threads + Wait + Sync, G: Gate>(
        rt: &R,
        alloc: Global,
        bytes: Vec<u8>,
        gate: &G,
        auditors: &mut Vec<Box<dyn Auditor + Send>>,
    ) -> Result<Verdict, Unreached>
        requires within { length bytes.items ≤ 4194304 }
        requires room { HaveRoom 700000 (map account auditors.old.items) }
        ensures right { IfOk result (IsVerdict (codes "run" ∷ []) (Some bytes.items) (Some [])
            (map account auditors.old.items) (map account auditors.new.items)) }
        ensures grown { HaveGrown (map account auditors.old.items) (map account auditors.new.items) }
        ensures cause { OnErr result (IsErrOf result Unreached.Memory) }
    {
        match session_of_text(alloc, bytes) {
            Ok(session) => {
                let (journal, transcripts) = ran(rt, alloc, &session, gate, auditors)?;
                let _left = ManuallyDrop::new(session);
                Ok(Verdict::Ran {
                    journal,
                    transcripts,
                })
            }
            Err(error) => no_session(error),
        }
    }

    /// The status of a program that told this verdict.
    pub(crate) fn status(&self) -> u8
        ensures { result ≡ verdict_status self.now }
    {
        match self {
            Verdict::Ran { .. } | Verdict::Drilled { .. } => 0,
            Verdict::Checked(judgement) => judgement.status(),
            Verdict::BadWords => 2,
            Verdict::BadLine(_) => 5,
            Verdict::TooLong => 6,
        }
    }

    /// The same, of a program that ends with it: what the verdict holds is left to the system, which takes back all that a program had
    /// at once as it ends, and not given back piece by piece.
    pub(crate) fn into_status(self) -> u8
        ensures { result ≡ verdict_status self }
    {
        let status = self.status();
        let _left = ManuallyDrop::new(self);
        status
    }

    /// Writes the text of this verdict. On an error the front of it was written. Only the text of a run, or of a drill, takes memory: whatever
    /// is refused is told.
    pub(crate) fn tell<K: Sink>(&self, alloc: Global, sink: &mut K) -> Result<(), TextError>
        ensures all { OnOk result (Appends (K.out sink.old) (K.out sink.new) (verdict_text self.now)) }
        ensures part { IsErrOf result TextError.Fault → AppendsPart (K.out sink.old) (K.out sink.new) (verdict_text self.now) }
        ensures run { IsErrOf result TextError.Memory → verdict_status self.now ≡ 0 }
        ensures unwritten { IsErrOf result TextError.Memory → (sink.new ≡ sink.old)
            ⊎ AppendsPart (K.out sink.old) (K.out sink.new) (verdict_text self.now) }
        ensures cause { IsErrOf result TextError.Fault → Rose (K.faults sink.old) (K.faults sink.new) }
        ensures only { (IsErrOf result TextError.Fault → ⊥) → K.faults sink.new ≡ K.faults sink.old }
    {
        match self {
            Verdict::Ran {
                journal,
                transcripts,
            } => print(alloc, journal, transcripts, sink),
            Verdict::Drilled {
                number,
                journal,
                transcripts,
            } => {
                let text = summary(alloc, *number, journal, transcripts)?;
                write(sink, text.items())
            }
            Verdict::Checked(judgement) => tell_judgement(judgement, sink),
            Verdict::BadWords => write(sink, b"bad words\n"),
            Verdict::BadLine(number) => tell_judgement(&Judgement::BadLine(*number), sink),
            Verdict::TooLong => write(sink, b"too long\n"),
        }
    }
}

// The session that has this text, whose memory is given back. It is made small and not only let go of: glibc takes a great piece that is freed
// as a sign that such pieces do not live long, and would put those of the run into its heap, between holes.
fn session_of_text(alloc: Global, mut bytes: Vec<u8>) -> Result<Session, SessionError>
    requires { length bytes.items < 4294967295 }
    ensures found { IfOk result (λ x. IsText bytes.items x) }
    ensures bad_line { (n : ℕ) → result ≡ Err (SessionError.BadLine n) → IsFirstBad bytes.items n }
{
    let session = read_session(alloc, &bytes);
    bytes.clear();
    bytes.shrink_to(64);
    session
}

// The judgement on a source.
fn judged<R: Threads + Sync, S: Source>(
    rt: &R,
    alloc: Global,
    source: &mut S,
) -> Result<Judgement, Unreached>
    ensures right { IfOk result (IsJudgement (S.left source.old) (S.left source.new)) }
    ensures cause { IsErrOf result Unreached.Fault → Rose (S.faults source.old) (S.faults source.new) }
    ensures only { (IsErrOf result Unreached.Fault → ⊥) → S.faults source.new ≡ S.faults source.old }
{
    match Judgement::reach(rt, alloc, source) {
        Ok(judgement) => Ok(judgement),
        Err(Unjudged::Fault) => Err(Unreached::Fault),
        Err(Unjudged::Memory) => Err(Unreached::Memory),
    }
}

// A run of the drill of a number.
fn drilled<R: Threads + Wait + Sync, G: Gate>(
    rt: &R,
    alloc: Global,
    number: u32,
    gate: &G,
    auditors: &mut Vec<Box<dyn Auditor + Send>>,
) -> Result<(Journal, Transcripts), AllocError>
    requires number { number ≤ 999999 }
    requires room { HaveRoom 700000 (map account auditors.old.items) }
    ensures run { IfOk result (λ ran. IsRunOf (drill_session number) ran.0 ran.1) }
    ensures spellable { IfOk result (λ ran. IsSpellable ran.0 ran.1) }
    ensures told { IfOk result (λ ran. WereTold (drill_session number) (map account auditors.old.items) ran.1
        (map account auditors.new.items)) }
    ensures grown { HaveGrown (map account auditors.old.items) (map account auditors.new.items) }
{
    let session = session_of(alloc, number)?;
    ran(rt, alloc, &session, gate, auditors)
}

// A run of a session whose lines can be written: a run text can say it.
fn ran<R: Threads + Wait + Sync, G: Gate>(
    rt: &R,
    alloc: Global,
    session: &Session,
    gate: &G,
    auditors: &mut Vec<Box<dyn Auditor + Send>>,
) -> Result<(Journal, Transcripts), AllocError>
    requires text { list_all fits (rows_of session.now) ≡ true }
    requires room { HaveRoomForLines session.now (map account auditors.old.items) }
    ensures run { IfOk result (λ ran. IsRunOf session.now ran.0 ran.1) }
    ensures spellable { IfOk result (λ ran. IsSpellable ran.0 ran.1) }
    ensures told { IfOk result (λ ran. WereTold session.now (map account auditors.old.items) ran.1
        (map account auditors.new.items)) }
    ensures grown { HaveGrown (map account auditors.old.items) (map account auditors.new.items) }
{
    // The lines of each session have numbers of 32 bits.
    let _scripts = session.scripts();
    run(rt, alloc, session, gate, auditors)
}

// Writes a text. The only error is `Fault`.
fn write<K: Sink>(sink: &mut K, text: &[u8]) -> Result<(), TextError>
    ensures all { OnOk result (Appends (K.out sink.old) (K.out sink.new) text.now) }
    ensures part { IsErrOf result TextError.Fault → AppendsPart (K.out sink.old) (K.out sink.new) text.now }
    ensures no_memory { IsErrOf result TextError.Memory → ⊥ }
    ensures cause { IsErrOf result TextError.Fault → Rose (K.faults sink.old) (K.faults sink.new) }
    ensures only { (IsErrOf result TextError.Fault → ⊥) → K.faults sink.new ≡ K.faults sink.old }
{
    write_all(sink, text)?;
    Ok(())
}

// Writes the text of a judgement. The only error is `Fault`.
fn tell_judgement<K: Sink>(judgement: &Judgement, sink: &mut K) -> Result<(), TextError>
    ensures all { OnOk result (Appends (K.out sink.old) (K.out sink.new) (judgement_text judgement.now)) }
    ensures part { IsErrOf result TextError.Fault → AppendsPart (K.out sink.old) (K.out sink.new) (judgement_text judgement.now) }
    ensures no_memory { IsErrOf result TextError.Memory → ⊥ }
    ensures cause { IsErrOf result TextError.Fault → Rose (K.faults sink.old) (K.faults sink.new) }
    ensures only { (IsErrOf result TextError.Fault → ⊥) → K.faults sink.new ≡ K.faults sink.old }
{
    judgement.tell(sink)?;
    Ok(())
}

// What comes of a source that was to hold a session and was not read to its end. Takes no memory: that it has too many bytes is told.
fn unread(error: ReadError) -> Result<Verdict, Unreached>
    ensures { result ≡ unread error }
{
    match error {
        ReadError::TooLong => Ok(Verdict::TooLong),
        ReadError::Fault => Err(Unreached::Fault),
        ReadError::Memory => Err(Unreached::Memory),
    }
}

// What comes of bytes of which no session was read. Takes no memory: each bad line is told.
fn no_session(error: SessionError) -> Result<Verdict, Unreached>
    ensures { result ≡ no_session error }
{
    match error {
        SessionError::BadLine(number) => Ok(Verdict::BadLine(number)),
        SessionError::Memory => Err(Unreached::Memory),
    }
}
