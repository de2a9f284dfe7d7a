//! How a line ends where it stands.

ghost use Rattle.std.specs.Prelude.{◌≡◌, ◌↔◌, ℕ, [], IfSome, IsTrue, List};
ghost use Rattle.mx_line.specs.AtWork.{IsGoodEnd, IsGoodNext, IsGoodWork, StandsAt, call_in, meant, own_call};
ghost use Rattle.mx_line.specs.Operands.{IsSayable};
ghost use Rattle.mx_parts.specs.Ends.{HasEnd, IsCall, IsJudgedLine};
ghost use Rattle.mx_parts.specs.Rests.{IsRightBy};
ghost use Rattle.mx_transcript.specs.Asking.{next};
ghost use Rattle.mx_transcript.specs.Courses.{Course};
ghost use Rattle.mx_transcript.specs.Settings.{Setting as PlainSetting};
ghost use Rattle.mx_transcript.specs.declared.transcripts.Event2.{Event2 as PlainEvent};
ghost use Rattle.mx_upcall.specs.Changes.{Fits, changed};
ghost use Rattle.mx_upcall.specs.Soundness.{IsPackableControl};

use mx_line::{Called, End, LineAtWork, Next, Process};
use mx_script::Line;
use mx_sdw::Ring;
use mx_transcript::Result2;
use mx_upcall::Control;

/// Whether a line that stands here ends with this result. The process has its registers and gates after it then.
pub(crate) fn is_ended(
    process: &mut Process,
    is_full: bool,
    line: &Line,
    work: LineAtWork,
    ends: &Result2,
) -> bool
    requires line { IsSayable line.now }
    requires packable { IsPackableControl process.old.control }
    requires good { IsGoodWork process.old.control work }
    ensures judged { (setting : PlainSetting) (events : List PlainEvent) → setting.full ≡ is_full
        → IsRightBy setting process.old.control line.now events [] work
        → IsJudgedLine setting process.old.control line.now events ends.now process.new.control result }
    ensures first { process.new.first ≡ process.old.first }
{
    match end_at(process, is_full, line, work) {
        Some(end) => takes_end(process, &end, ends),
        None => false,
    }
}

/// The end of a line that stands here, where it has one.
pub(crate) fn end_at(
    process: &mut Process,
    is_full: bool,
    line: &Line,
    work: LineAtWork,
) -> Option<End>
    requires line { IsSayable line.now }
    requires packable { IsPackableControl process.old.control }
    requires good { IsGoodWork process.old.control work }
    ensures end { (setting : PlainSetting) (course : Course) → setting.full ≡ is_full
        → StandsAt process.old.control line.now course work
        → HasEnd setting process.old.control (next process.old.control line.now course) result }
    ensures good { IfSome result (IsGoodEnd process.old.control) }
    ensures control { process.new.control ≡ process.old.control }
    ensures first { process.new.first ≡ process.old.first }
{
    match work {
        LineAtWork::At(progress) => {
            process.progress = progress;
            asked_end(&process.asks(line), is_full, line, &process.control)
        }
        LineAtWork::Ended(end) => Some(end),
        LineAtWork::Nowhere => None,
    }
}

// The end of a line that asks for this: the one for which it asks, or, where it asks for a call, that of a full journal.
fn asked_end(next: &Next, is_full: bool, line: &Line, control: &Control) -> Option<End>
    requires packable { IsPackableControl control.now }
    requires good { IsGoodNext control.now next.now }
    ensures end { (setting : PlainSetting) → setting.full ≡ is_full
        → HasEnd setting control.now (meant control.now line.now next.now) result }
    ensures good { IfSome result (IsGoodEnd control.now) }
{
    match next {
        Next::Ends(end) => Some(*end),
        Next::Calls { ring, called } => full_end(*ring, called, is_full, line, control),
        Next::Asks(_) => None,
        Next::Fills(_) => None,
        Next::Nowhere => None,
    }
}

// The end of a line whose call found the journal full.
fn full_end(
    ring: Ring,
    called: &Called,
    is_full: bool,
    line: &Line,
    control: &Control,
) -> Option<End>
    requires packable { IsPackableControl control.now }
    ensures end { (setting : PlainSetting) → setting.full ≡ is_full
        → HasEnd setting control.now (call_in line.now ring called.now) result }
    ensures good { IfSome result (IsGoodEnd control.now) }
{
    if is_full && is_call(called, line) {
        Some(LineAtWork::full(control))
    } else {
        None
    }
}

// Whether a line has this call.
fn is_call(called: &Called, line: &Line) -> bool
    ensures { (ring : ℕ) → IsTrue result ↔ IsCall (call_in line.now ring called.now) }
{
    match called {
        Called::Own => is_request(line),
        Called::Resume => true,
        Called::Link { .. } => true,
    }
}

// Whether a line is a request.
fn is_request(line: &Line) -> bool
    ensures { (ring : ℕ) → IsTrue result ↔ IsCall (own_call line.now ring) }
{
    match line {
        Line::Ask(_) => true,
        Line::Set { .. } => false,
        Line::Epp { .. } => false,
        Line::Lda { .. } => false,
        Line::Sta { .. } => false,
        Line::Spri { .. } => false,
        Line::Fetch => false,
        Line::Call { .. } => false,
        Line::Return { .. } => false,
    }
}

// Whether an end has this result. The process has its registers and gates after it then.
fn takes_end(process: &mut Process, end: &End, ends: &Result2) -> bool
    requires fits { Fits process.old.control.gates end.now.after.gates }
    ensures result { IsTrue result ↔ (ends.now ≡ end.now.ends) }
    ensures control { IsTrue result → process.new.control ≡ changed process.old.control end.now.after }
    ensures first { process.new.first ≡ process.old.first }
{
    if *ends == end.ends {
        process.control.change(&end.after);
        true
    } else {
        false
    }
}
