//! The calls of a process at the office: its line goes on by the answer, or ends.

ghost use Rattle.std.specs.Prelude.{◌≡◌, ◌≤◌, ◌<◌, ◌+◌, ◌^◌, IfOk, IsTrue, None, Ok, OnErr, OnOk};
ghost use Rattle.mx_line.specs.Operands.{IsGoodProgress, IsSayable};
ghost use Rattle.mx_line.specs.declared.operands.Progress.TheVariants.{Waiting};
ghost use Rattle.mx_office.specs.Serving.{HasGrown};
ghost use Rattle.mx_process.specs.Entries.{EndsBy, HasAnswered, HasCalled, HasFilled, HasLastReply, HasReply, IsAtCall, StaysAt, plainest};
ghost use Rattle.mx_process.specs.Lines.{HasEnded, HasGoneOn, IsCalling, IsLeftByReply};
ghost use Rattle.mx_process.specs.Plans.{number_in};
ghost use Rattle.mx_process.specs.Processes.{HasLine, HasRoom, IsStill, known_of};
ghost use Rattle.mx_process.specs.Turns.{HasEvent, inside};
ghost use Rattle.mx_process.specs.declared.entries.Answered.TheVariants.{Done, More};
ghost use Rattle.mx_process.specs.declared.lines.Turned.TheVariants as turned;
ghost use Rattle.mx_request.specs.declared.requests.Request.TheVariants.{Block, Resume};
ghost use Rattle.mx_transcript.specs.declared.transcripts.Event2.TheVariants.{Entry as EntryOf};
ghost use Rattle.mx_upcall.specs.Soundness.{IsPackableControl};

use crate::lines::Turned;
use crate::naming::Attending;
use crate::processes::Process;
use crate::turns::end_line;
use mx_audit::Auditor;
use mx_desc::Pass;
use mx_hier::Refusal;
use mx_line::{LineAtWork, Process as LineState, Progress};
use mx_office::{Answer, BlockError, Blocked, EnterError, Office, Sitting};
use mx_request::{Known, Reply, SharedRequest};
use mx_script::Line;
use mx_sdw::Ring;
use mx_state::Entry;
use mx_transcript::Event2;
use std::alloc::{AllocError, Global};
use std::mem;
use std::sync::Wait;

/// What became of a call.
#[derive(Clone, Copy, Debug, PartialEq, Eq)]
pub(crate) enum Answered {
    /// The line goes on by the answer: a write is due, or it waits for a message.
    More,
    /// The line has ended, by the answer or since the journal was full.
    Done,
}

impl<'a, B: Attending, A: Auditor> Process<'a, B, A> {
    /// Makes the call for which the line asks, in one hold of the lock, for which it waits. The transcript has the entry, and
    /// the line goes on by the answer, or ends; where the journal is full it ends without one. Conditions: the line asks for
    /// this call, which is no `resume`, and no miss is to be settled. The only error is want of memory, or that the run is to
    /// end; it changes nothing but room.
    #[inline(always)]
    pub(crate) fn call<R: Wait>(
        &mut self,
        rt: &R,
        alloc: Global,
        office: &Office<'_, B>,
        ring: Ring,
        request: &SharedRequest,
    ) -> Result<Answered, AllocError>
        requires calls { IsCalling B.session self.old ring request.now }
        requires settled { self.old.missing ≡ None }
        requires other { request.now ≡ Resume → ⊥ }
        ensures more { result ≡ Ok More → HasGoneOn self.old self.new × IsLeftByReply self.new × (self.new.missing ≡ None) }
        ensures done { result ≡ Ok Done → HasEnded self.old self.new }
        ensures err { OnErr result (IsStill self.old self.new) }
    {
        self.reserve()?;
        self.enter(rt, alloc, office, ring, request)
    }

    // The call, where there is room for what it comes to.
    fn enter<R: Wait>(
        &mut self,
        rt: &R,
        alloc: Global,
        office: &Office<'_, B>,
        ring: Ring,
        request: &SharedRequest,
    ) -> Result<Answered, AllocError>
        requires calls { IsCalling B.session self.old ring request.now }
        requires settled { self.old.missing ≡ None }
        requires other { request.now ≡ Resume → ⊥ }
        requires room { HasRoom self.old }
        ensures more { result ≡ Ok More → HasGoneOn self.old self.new × IsLeftByReply self.new × (self.new.missing ≡ None) }
        ensures done { result ≡ Ok Done → HasEnded self.old self.new }
        ensures err { OnErr result (self.new ≡ self.old) }
    {
        let line = self.present();
        enter(
            &mut self.state,
            &mut self.pass,
            line,
            rt,
            alloc,
            office,
            ring,
            request,
        )
    }

    /// The `block` of a line, which sleeps until it is answered with a message, or nobody is left who could send one, or the
    /// journal is full: the line ends. Conditions: the line asks for it, and no miss is to be settled. The only error is want
    /// of memory, or that the run is to end; the line has not ended then, and may wait.
    pub(crate) fn block<R: Wait>(
        &mut self,
        rt: &R,
        alloc: Global,
        office: &Office<'_, B>,
    ) -> Result<(), AllocError>
        requires calls { IsCalling B.session self.old self.old.state.control.registers.ring Block }
        requires settled { self.old.missing ≡ None }
        ensures done { OnOk result (HasEnded self.old self.new) }
        ensures err { OnErr result (HasGoneOn self.old self.new) }
    {
        self.reserve()?;
        self.sleep(rt, alloc, office)
    }

    // The `block`, where there is room for what it comes to.
    fn sleep<R: Wait>(
        &mut self,
        rt: &R,
        alloc: Global,
        office: &Office<'_, B>,
    ) -> Result<(), AllocError>
        requires calls { IsCalling B.session self.old self.old.state.control.registers.ring Block }
        requires settled { self.old.missing ≡ None }
        requires room { HasRoom self.old }
        ensures done { OnOk result (HasEnded self.old self.new) }
        ensures err { OnErr result (HasGoneOn self.old self.new) }
    {
        let line = self.present();
        sleep(&mut self.state, &mut self.pass, line, rt, alloc, office)
    }

    /// The `resume` of a line that waits for a message, but does not sleep: the line ends by a message, or where nobody is
    /// left who could send one, or the journal is full; else it waits on, and the journal has no entry more. Conditions: a line
    /// is left, and it waits. The only error is want of memory, or that the run is to end. Where the line has not ended,
    /// nothing but room has changed.
    pub(crate) fn try_resume<R: Wait>(
        &mut self,
        rt: &R,
        alloc: Global,
        office: &Office<'_, B>,
    ) -> Result<Turned, AllocError>
        requires waiting { self.old.state.progress ≡ Waiting }
        requires left { HasLine B.session self.old }
        ensures done { result ≡ Ok turned.Done → HasEnded self.old self.new }
        ensures waits { result ≡ Ok turned.Waits → IsStill self.old self.new }
        ensures err { OnErr result (IsStill self.old self.new) }
    {
        self.reserve()?;
        self.resume(rt, alloc, office)
    }

    // The `resume`, where there is room for what it comes to.
    fn resume<R: Wait>(
        &mut self,
        rt: &R,
        alloc: Global,
        office: &Office<'_, B>,
    ) -> Result<Turned, AllocError>
        requires waiting { self.old.state.progress ≡ Waiting }
        requires left { HasLine B.session self.old }
        requires room { HasRoom self.old }
        ensures done { result ≡ Ok turned.Done → HasEnded self.old self.new }
        ensures waits { result ≡ Ok turned.Waits → self.new ≡ self.old }
        ensures err { OnErr result (self.new ≡ self.old) }
    {
        let line = self.present();
        resume(&mut self.state, &mut self.pass, line, rt, alloc, office)
    }
}

/// A call of the line at work.
fn enter<R: Wait, B: Sitting>(
    state: &mut LineState,
    pass: &mut Pass<Entry, B>,
    line: &Line,
    rt: &R,
    alloc: Global,
    office: &Office<'_, B>,
    ring: Ring,
    request: &SharedRequest,
) -> Result<Answered, AllocError>
    requires room { 1 ≤ state.old.recording.spare }
    requires end { IsTrue state.old.recording.line_room }
    requires calls { IsAtCall B.session B.setup state.old line.now ring request.now (known_of pass.old) }
    requires other { request.now ≡ Resume → ⊥ }
    ensures came { IfOk result (λ came. HasCalled B.session B.setup line.now state.old came (inside state.new pass.new)) }
    ensures grown { HasGrown pass.old pass.new }
    ensures state { OnErr result (state.new ≡ state.old) }
    ensures pass { OnErr result (pass.new ≡ pass.old) }
{
    match office.enter(rt, alloc, pass, ring, request) {
        Ok(served) => Ok(take_answer(state, line, served.number, &served.answer)),
        Err(EnterError::HistoryFull { .. }) => {
            end_full(state);
            Ok(Answered::Done)
        }
        Err(EnterError::Memory) => Err(AllocError),
    }
}

/// The `block` of the line at work.
fn sleep<R: Wait, B: Sitting>(
    state: &mut LineState,
    pass: &mut Pass<Entry, B>,
    line: &Line,
    rt: &R,
    alloc: Global,
    office: &Office<'_, B>,
) -> Result<(), AllocError>
    requires room { 2 ≤ state.old.recording.spare }
    requires end { IsTrue state.old.recording.line_room }
    requires calls { IsAtCall B.session B.setup state.old line.now state.old.control.registers.ring Block (known_of pass.old) }
    ensures ended { OnOk result (EndsBy B.session B.setup state.old (inside state.new pass.new)) }
    ensures err { OnErr result (StaysAt B.session B.setup line.now state.old (inside state.new pass.new)) }
    ensures grown { HasGrown pass.old pass.new }
{
    let ring = current_ring(state);
    match office.block(rt, alloc, pass, ring) {
        Ok(Blocked::Shut) => {
            end_full(state);
            Ok(())
        }
        Ok(Blocked::Answered(served)) => {
            take_message(state, line, served.number, &served.answer);
            Ok(())
        }
        Ok(Blocked::Resumed { entry, resume }) => {
            wait(state, entry);
            take_message(state, line, resume.number, &resume.answer);
            Ok(())
        }
        Ok(Blocked::CutShort { entry }) => {
            wait(state, entry);
            end_full(state);
            Ok(())
        }
        Err(BlockError::Memory) => Err(AllocError),
        Err(BlockError::Waiting { entry }) => {
            wait(state, entry);
            Err(AllocError)
        }
    }
}

/// The `resume` of the line at work, which waits.
fn resume<R: Wait, B: Sitting>(
    state: &mut LineState,
    pass: &mut Pass<Entry, B>,
    line: &Line,
    rt: &R,
    alloc: Global,
    office: &Office<'_, B>,
) -> Result<Turned, AllocError>
    requires room { 1 ≤ state.old.recording.spare }
    requires end { IsTrue state.old.recording.line_room }
    requires calls { IsAtCall B.session B.setup state.old line.now state.old.control.registers.ring Resume (known_of pass.old) }
    ensures ended { result ≡ Ok turned.Done → EndsBy B.session B.setup state.old (inside state.new pass.new) }
    ensures grown { HasGrown pass.old pass.new }
    ensures waits { result ≡ Ok turned.Waits → (state.new ≡ state.old) × (pass.new ≡ pass.old) }
    ensures state { OnErr result (state.new ≡ state.old) }
    ensures pass { OnErr result (pass.new ≡ pass.old) }
{
    let ring = current_ring(state);
    match office.try_resume(rt, alloc, pass, ring) {
        Ok(Some(served)) => {
            take_message(state, line, served.number, &served.answer);
            Ok(Turned::Done)
        }
        Ok(None) => Ok(Turned::Waits),
        Err(EnterError::HistoryFull { .. }) => {
            end_full(state);
            Ok(Turned::Done)
        }
        Err(EnterError::Memory) => Err(AllocError),
    }
}

// The call for which the line asks was entered under this number, and answered so.
#[inline(always)]
fn take_answer(state: &mut LineState, line: &Line, number: u32, answer: &Answer) -> Answered
    requires room { 1 ≤ state.old.recording.spare }
    requires end { IsTrue state.old.recording.line_room }
    requires countable { number_in state.old < 2 ^ 32 }
    requires line { IsSayable line.now }
    requires packable { IsPackableControl state.old.control }
    requires good { IsGoodProgress state.old.control.registers state.old.progress }
    requires replied { HasReply state.old line.now answer.now }
    ensures answered { HasAnswered state.old line.now number answer.now result state.new }
    ensures good { IsGoodProgress state.new.control.registers state.new.progress }
    ensures packable { IsPackableControl state.new.control }
{
    let reply = reply_like(answer);
    match state.plain_reply(line, &reply) {
        Some(ends) => {
            state.end_plainly(Event2::Entry(number), ends);
            Answered::Done
        }
        None => take_reply(state, line, number, answer),
    }
}

// The same by the line at work itself.
#[inline(never)]
fn take_reply(state: &mut LineState, line: &Line, number: u32, answer: &Answer) -> Answered
    requires room { 1 ≤ state.old.recording.spare }
    requires end { IsTrue state.old.recording.line_room }
    requires countable { number_in state.old < 2 ^ 32 }
    requires line { IsSayable line.now }
    requires packable { IsPackableControl state.old.control }
    requires good { IsGoodProgress state.old.control.registers state.old.progress }
    requires replied { HasReply state.old line.now answer.now }
    ensures answered { HasAnswered state.old line.now number answer.now result state.new }
    ensures good { IsGoodProgress state.new.control.registers state.new.progress }
    ensures packable { IsPackableControl state.new.control }
{
    let reply = reply_like(answer);
    let event = Event2::Entry(number);
    let progress = mem::replace(&mut state.progress, Progress::Before);
    let work = LineAtWork::At(progress).answered(line, &state.control, &reply);
    state.recording.keep(event);
    match work {
        LineAtWork::At(progress) => {
            state.progress = progress;
            Answered::More
        }
        LineAtWork::Ended(end) => {
            end_line(state, &end);
            Answered::Done
        }
        LineAtWork::Nowhere => unreachable!(),
    }
}

// The `block` or the `resume` for which the line asks was entered, and answered with something else than that it waits.
fn take_message(state: &mut LineState, line: &Line, number: u32, answer: &Answer)
    requires room { 1 ≤ state.old.recording.spare }
    requires end { IsTrue state.old.recording.line_room }
    requires countable { number_in state.old < 2 ^ 32 }
    requires line { IsSayable line.now }
    requires packable { IsPackableControl state.old.control }
    requires good { IsGoodProgress state.old.control.registers state.old.progress }
    requires replied { HasLastReply state.old line.now answer.now }
    ensures answered { HasAnswered state.old line.now number answer.now Done state.new }
    ensures good { IsGoodProgress state.new.control.registers state.new.progress }
    ensures packable { IsPackableControl state.new.control }
{
    match take_answer(state, line, number, answer) {
        Answered::Done => {}
        Answered::More => unreachable!(),
    }
}

// The `block` for which the line asks was entered, and its process was told to wait.
fn wait(state: &mut LineState, number: u32)
    requires room { 1 ≤ state.old.recording.spare }
    ensures waits { HasEvent state.old (EntryOf number) Waiting state.new }
    ensures spare { state.old.recording.spare ≤ state.new.recording.spare + 1 }
{
    state.recording.keep(Event2::Entry(number));
    state.progress = Progress::Waiting;
}

// The call for which the line asks found the journal full.
fn end_full(state: &mut LineState)
    requires end { IsTrue state.old.recording.line_room }
    requires countable { number_in state.old < 2 ^ 32 }
    requires packable { IsPackableControl state.old.control }
    ensures filled { HasFilled state.old state.new }
    ensures packable { IsPackableControl state.new.control }
{
    let end = LineAtWork::full(&state.control);
    end_line(state, &end);
}

// The ring in which the process runs.
fn current_ring(state: &LineState) -> Ring
    ensures { result ≡ state.now.control.registers.ring }
{
    state.control.registers.ring
}

// The plainest reply that is answered so.
fn reply_like(answer: &Answer) -> Reply
    ensures { result ≡ plainest answer.now }
{
    match answer {
        Answer::Refused => Reply::Refused(Refusal::NoEntry),
        Answer::Known { linkage } => Reply::Segno(Known {
            segno: 0,
            fresh: false,
            linkage: *linkage,
        }),
        Answer::Linked {
            segno,
            word,
            linkage,
        } => Reply::Linked {
            segno: *segno,
            word: *word,
            fresh: false,
            linkage: *linkage,
        },
        Answer::Waiting => Reply::Waiting,
        Answer::Other => Reply::Done,
    }
}
