//! The top call: what the program does with the words of its command line.

ghost use Rattle.std.specs.Prelude.{◌≡◌, ◌⊎◌, ℕ, List, map, Some};
ghost use Rattle.std.specs.String.{string_bytes};
ghost use Rattle.mx_audit.specs.Accounts.{HaveGrown, HaveRoom};
ghost use Rattle.mx_io.specs.Bytes.{Appends, AppendsPart};
ghost use Rattle.mx_io.specs.Faults.{Rose};
ghost use Rattle.mx_run.specs.Commands.{IsDrill, IsAccepted, IsReading};
ghost use Rattle.mx_run.specs.Done.{IsDoneBy};
ghost use Rattle.mx_run.specs.Statuses.{HasPrinted, IsStopped, IsDueStatus};

use crate::verdicts::{Unreached, Verdict};
use mx_audit::Auditor;
use mx_check::a_judgement_has_the_due_status;
use mx_io::{Sink, Source};
use mx_proc::Gate;
use mx_text::TextError;
use std::alloc::Global;
use std::sync::Wait;
use std::thread::Threads;

/// The status of a program whose memory ran out.
pub const OUT_OF_MEMORY: u8 = 1;

/// The status where the source failed.
const SOURCE_FAULT: u8 = 3;

/// The status where the sink failed.
const SINK_FAULT: u8 = 4;

/// Does what the words of the command line ask for, and answers the status with which the program is to end. Under `run` the source is
/// read to its end as the text of a session, the session is run, each process on a thread of its own where one can be had, and the run text
/// is written to the sink. Under `drill` and one word of 1 to 6 decimal digits the drill of that number is run in the same way, and its
/// summary is written; the source is not read. Under `check` the source is read to its end as the text of a session followed at once by
/// that of a run, and the judgement on the run is written: whether it is a legal one of the session. No other words are accepted. The gate
/// is told of each script line that is run, before it begins. Auditor `i`, counted from 0, belongs to process `i + 1` and is told of each
/// line of it that ends denied, in the step that ends it. Its verdict is heeded: behind a denial that it answers with `Logout` the process
/// runs no further line of its script but the last, its `logout`; and else all of them. Processes beyond the auditors have none and run all
/// lines, and auditors beyond the processes are not called. Each needs room for 700,000 denials. At the return the vector holds the same
/// auditors in the same order. The call may wait; what it promises holds when it returns. What a run took of memory is left to the system:
/// the program ends with the call.
///
/// | Status | Comes | Written | Auditors were told of |
/// |---|---|---|---|
/// | 0 | the session, or the drill, was run; or the run is a legal one | the run text, the summary, or `legal` | the denials of the run; under `check` nothing |
/// | 1 | memory ran out | the front of the run text, or nothing | some denials, or none; of those of the run where anything was written |
/// | 2 | the words are not accepted; the source is not read, and no memory is taken | `bad words` | nothing |
/// | 3 | the source failed | nothing | nothing |
/// | 4 | the sink failed | the front of what the status otherwise due writes | what they are told of at that status |
/// | 5 | the bytes are no session; under `check` no session and run | `bad line N`, N the first bad line | nothing |
/// | 6 | the source gave more than 4,194,304 bytes; under `check` more than 33,554,432 | `too long` | nothing |
/// | 7 | under `check`: the bytes are a session and a run, and the run is no legal one | `breach P L`: process P, line L | nothing |
pub fn multics<R: Threads + Wait + Sync, S: Source, K: Sink, G: Gate>(
    rt: &R,
    alloc: Global,
    words: &[String],
    source: &mut S,
    sink: &mut K,
    gate: &G,
    auditors: &mut Vec<Box<dyn Auditor + Send>>,
) -> u8
    // Each auditor has room for a denial of each line that a session can have.
    requires room { HaveRoom 700000 (map account auditors.old.items) }

    // Status 0 is the headline.
    ensures done { result ≡ 0
        → IsDoneBy (map string_bytes words.now) (S.left source.old) (S.left source.new) (K.out sink.old) (K.out sink.new)
        (map account auditors.old.items) (map account auditors.new.items) }

    // Statuses 0, 2, 5, 6 and 7 are those of a right verdict, told whole. There are no others but 1, 3 and 4.
    ensures verdict { IsStopped result
        ⊎ HasPrinted (Appends (K.out sink.old) (K.out sink.new)) (map string_bytes words.now) (S.left source.old) (S.left source.new)
        (map account auditors.old.items) (map account auditors.new.items) result }

    // Which one it is follows from the words and from the bytes of a source that tells them: no session is refused.
    ensures due { (spelled : List ℕ) → S.left source.old ≡ Some spelled
        → IsStopped result ⊎ IsDueStatus (map string_bytes words.now) spelled result }

    // Words that are not accepted are refused, or the sink failed. A drill is run, or memory ran out, or the sink failed. The source is not
    // touched where the words are neither `run` nor `check`.
    ensures refused { (IsAccepted (map string_bytes words.now) → ⊥) → (result ≡ 2) ⊎ (result ≡ 4) }
    ensures drilled { (number : ℕ) → IsDrill (map string_bytes words.now) number → (result ≡ 0) ⊎ ((result ≡ 1) ⊎ (result ≡ 4)) }
    ensures unread { (IsReading (map string_bytes words.now) → ⊥) → source.new ≡ source.old }

    // At status 1 no end had failed; nothing was written, or the front of a run text.
    ensures unfailed { result ≡ 1 → (S.faults source.new ≡ S.faults source.old) × (K.faults sink.new ≡ K.faults sink.old) }
    ensures out_of_memory { result ≡ 1 → (sink.new ≡ sink.old)
        ⊎ HasPrinted (AppendsPart (K.out sink.old) (K.out sink.new)) (map string_bytes words.now) (S.left source.old) (S.left source.new)
        (map account auditors.old.items) (map account auditors.new.items) 0 }

    // At status 3 the source failed, and nothing was written.
    ensures source_fault { result ≡ 3 → Rose (S.faults source.old) (S.faults source.new) }
    ensures unwritten { result ≡ 3 → sink.new ≡ sink.old }
    ensures untold { result ≡ 3 → map account auditors.new.items ≡ map account auditors.old.items }

    // Whatever comes, no auditor is lost, and none is told of anything but denials behind those that it was told before, each with
    // its verdict.
    ensures grown { HaveGrown (map account auditors.old.items) (map account auditors.new.items) }

    // At status 4 the sink failed, and the front of what was due was written.
    ensures sink_fault { result ≡ 4 → Rose (K.faults sink.old) (K.faults sink.new) }
    ensures cut_short { result ≡ 4 → (status : ℕ)
        × HasPrinted (AppendsPart (K.out sink.old) (K.out sink.new)) (map string_bytes words.now) (S.left source.old) (S.left source.new)
        (map account auditors.old.items) (map account auditors.new.items) status }
{
    a_judgement_has_the_due_status();
    match Verdict::reach(rt, alloc, words, source, gate, auditors) {
        Ok(verdict) => match verdict.tell(alloc, sink) {
            Ok(()) => verdict.into_status(),
            Err(TextError::Fault) => SINK_FAULT,
            Err(TextError::Memory) => OUT_OF_MEMORY,
        },
        Err(Unreached::Fault) => SOURCE_FAULT,
        Err(Unreached::Memory) => OUT_OF_MEMORY,
    }
}
