//! A process: its registers and return gates, and what was recorded of it.

ghost use Rattle.std.specs.Prelude.{◌≡◌, ◌≤◌, ◌<◌, ◌+◌, ◌^◌, [], ◌∷◌, ◌++◌, IfSome, IsTrue, length};
ghost use Rattle.mx_sdw.specs.Admissible.{IsAdmissible};
ghost use Rattle.mx_transcript.specs.declared.transcripts.Result2.TheVariants.{Moved};
ghost use Rattle.mx_upcall.specs.Control.{with_registers};
ghost use Rattle.mx_upcall.specs.Soundness.{IsPackableControl};
ghost use Rattle.mx_line.specs.AtWork.{IsMet, left_in};
ghost use Rattle.mx_line.specs.Looking.{IsLooking};
ghost use Rattle.mx_line.specs.Operands.{IsGoodProgress, IsSayable};
ghost use Rattle.mx_line.specs.Processes.{HasPlainEnd, HasPlainMove, HasPlainReply, IsAsking, IsGrantedAt, IsReferring, gone};
ghost use Rattle.mx_line.specs.declared.at_work.LineAtWork.TheVariants.{At};
ghost use Rattle.mx_line.specs.declared.operands.Progress.TheVariants.{Before};

use crate::asking::{Next, Reference, first_reference, next_reference};
use crate::at_work::{first_end, first_move, leave, next_at, walked_end};
use crate::looking::{first_look, next_look};
use crate::moves::{Going, go};
use crate::operands::{Place, Progress};
use crate::replies::request_end;
use mx_effring::Walk;
use mx_request::Reply;
use mx_script::Line;
use mx_sdw::Desc;
use mx_transcript::{Element, Event2, Recording, Result2, Transcript};
use mx_upcall::Control;

/// A process: the number of its first line in the session text, its registers and return gates at the start of the line at
/// work, what was recorded of its lines, and how far the line at work has come.
#[derive(Drop)]
pub struct Process {
    pub first: u32,
    pub control: Control,
    pub recording: Recording,
    pub progress: Progress,
}

impl Process {
    /// What was recorded of it.
    pub fn finish(self) -> Transcript
        ensures { result ≡ self.recording.steps }
    {
        let Process { recording, .. } = self;
        recording.finish()
    }

    /// The reference that its line asks for, at its beginning or where it has read some indirect words; none where it asks for
    /// another thing.
    #[inline(always)]
    pub fn refers(&self, line: &Line) -> Option<Reference>
        requires packable { IsPackableControl self.now.control }
        requires progress { IsGoodProgress self.now.control.registers self.now.progress }
        requires line { IsSayable line.now }
        ensures { IfSome result (IsReferring self.now line.now) }
    {
        match &self.progress {
            Progress::Before => first_reference(line, &self.control),
            Progress::Walking(walk) => next_reference(line, &self.control, walk),
            Progress::AtLink(_) | Progress::Waiting | Progress::Filling(_) => None,
        }
    }

    /// The walk of its line, and the indirect word for which it asks; none where the line asks for another thing.
    #[inline(always)]
    pub fn looks(&self, line: &Line) -> Option<(Walk, Place)>
        requires packable { IsPackableControl self.now.control }
        requires progress { IsGoodProgress self.now.control.registers self.now.progress }
        requires line { IsSayable line.now }
        ensures { IfSome result (λ found. IsLooking self.now.control line.now self.now.progress found.0 found.1) }
    {
        match &self.progress {
            Progress::Before => first_look(line, &self.control),
            Progress::Walking(walk) => next_look(line, &self.control, walk),
            Progress::AtLink(_) | Progress::Waiting | Progress::Filling(_) => None,
        }
    }

    /// How its line ends by the reference for which it asks, where that is to its target and does not move the process; none
    /// where the reference is to an indirect word, and for a call or a return that was granted.
    #[inline(always)]
    pub fn plain_end(&self, line: &Line, element: &Element) -> Option<Result2>
        requires packable { IsPackableControl self.now.control }
        requires line { IsSayable line.now }
        ensures { IfSome result (HasPlainEnd self.now line.now element.now) }
    {
        match &self.progress {
            Progress::Before => first_end(line, &self.control, element),
            Progress::Walking(walk) => walked_end(line, &self.control, walk, element),
            Progress::AtLink(_) | Progress::Waiting | Progress::Filling(_) => None,
        }
    }

    /// How its line ends by this reply to the call for which it asks, where that call is for its own request and the reply is all:
    /// none where a write is due first, where the process is told to wait, and for a link to be snapped.
    #[inline(always)]
    pub fn plain_reply(&self, line: &Line, reply: &Reply) -> Option<Result2>
        requires packable { IsPackableControl self.now.control }
        requires line { IsSayable line.now }
        ensures { IfSome result (HasPlainReply self.now line.now reply.now) }
    {
        match &self.progress {
            Progress::Before => request_end(line, &self.control, reply),
            Progress::Walking(_) | Progress::AtLink(_) | Progress::Waiting | Progress::Filling(_) =>
                None,
        }
    }

    /// Its line at work ends so with this event, and does not move the process. Conditions: there is room for an event and for the
    /// line's end. It takes no memory.
    #[inline(always)]
    pub fn end_plainly(&mut self, event: Event2, ends: Result2)
        requires event { 1 ≤ self.old.recording.spare }
        requires line { IsTrue self.old.recording.line_room }
        requires number { self.old.first + length self.old.recording.steps < 2 ^ 32 }
        ensures first { self.new.first ≡ self.old.first }
        ensures done { self.new.control ≡ with_registers self.old.control (left_in ends self.old.control.registers) }
        ensures steps { self.new.recording.steps ≡ self.old.recording.steps
            ++ (self.old.first + length self.old.recording.steps, self.old.recording.events ++ event ∷ [], ends) ∷ [] }
        ensures idle { self.new.recording.events ≡ [] }
        ensures spare { self.old.recording.spare ≤ self.new.recording.spare + 1 }
        ensures fresh { self.new.progress ≡ Before }
    {
        let number = self.first + self.recording.lines() as u32;
        self.recording.keep(event);
        self.recording.end_line(number, ends);
        leave(&mut self.control.registers, &ends);
        begin(&mut self.progress);
    }

    /// What its line goes on at by the call or return that its first reference was granted; none for another element, and where an
    /// indirect word was read before it. The element is the reference for which its line asks, judged on this descriptor.
    #[inline(always)]
    pub fn plain_move(&self, line: &Line, element: &Element, desc: &Desc) -> Option<Going>
        requires packable { IsPackableControl self.now.control }
        requires line { IsSayable line.now }
        requires desc { IsAdmissible desc.now }
        requires met { IsMet self.now.control line.now (At self.now.progress) element.now desc.now }
        ensures { IfSome result (HasPlainMove self.now.control line.now self.now.progress element.now desc.now) }
    {
        match &self.progress {
            Progress::Before => first_move(line, &self.control, element, desc),
            Progress::Walking(_) | Progress::AtLink(_) | Progress::Waiting | Progress::Filling(_) =>
                None,
        }
    }

    /// Its line at work ends with this event, by which the process goes on so. Conditions: there is room for an event and for
    /// the line's end, and the call or return was granted on this descriptor. It takes no memory.
    pub fn end_moved(&mut self, event: Event2, going: &Going, desc: &Desc)
        requires event { 1 ≤ self.old.recording.spare }
        requires line { IsTrue self.old.recording.line_room }
        requires number { self.old.first + length self.old.recording.steps < 2 ^ 32 }
        requires granted { IsGrantedAt self.old.control going.now desc.now }
        ensures first { self.new.first ≡ self.old.first }
        ensures done { self.new.control ≡ gone self.old.control going.now desc.now }
        ensures steps { self.new.recording.steps ≡ self.old.recording.steps ++ (
          self.old.first + length self.old.recording.steps,
          self.old.recording.events ++ event ∷ [],
          Moved self.new.control.registers.ring self.new.control.registers.procedure,
        ) ∷ [] }
        ensures idle { self.new.recording.events ≡ [] }
        ensures spare { self.old.recording.spare ≤ self.new.recording.spare + 1 }
        ensures fresh { self.new.progress ≡ Before }
    {
        let number = self.first + self.recording.lines() as u32;
        self.recording.keep(event);
        go(&mut self.control, going, desc);
        self.recording.end_line(
            number,
            Result2::Moved {
                ring: self.control.registers.ring,
                procedure: self.control.registers.procedure,
            },
        );
        begin(&mut self.progress);
    }

    /// What its line asks for.
    pub fn asks(&self, line: &Line) -> Next
        requires packable { IsPackableControl self.now.control }
        requires progress { IsGoodProgress self.now.control.registers self.now.progress }
        requires line { IsSayable line.now }
        ensures { IsAsking self.now line.now result }
    {
        next_at(line, &self.control, &self.progress)
    }
}

// The next line has not begun; where it has not already, nothing is written.
#[inline(always)]
fn begin(progress: &mut Progress)
    ensures { progress.new ≡ Before }
{
    if !has_not_begun(progress) {
        *progress = Progress::Before;
    }
}

#[inline(always)]
fn has_not_begun(progress: &Progress) -> bool
    ensures { IsTrue result → progress.now ≡ Before }
{
    matches!(progress, Progress::Before)
}
