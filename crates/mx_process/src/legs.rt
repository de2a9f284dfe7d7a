//! One leg of a line: what it needs next is done.

ghost use Rattle.std.specs.Prelude.{◌≡◌, ◌↔◌, ℕ, IfOk, IsTrue, MatchOption, None, Ok, OnErr};
ghost use Rattle.mx_line.specs.AtWork.{IsFree};
ghost use Rattle.mx_line.specs.Fills.{IsNoRequest};
ghost use Rattle.mx_line.specs.declared.operands.Progress.TheVariants.{Waiting};
ghost use Rattle.mx_process.specs.Filling.{IsDue};
ghost use Rattle.mx_process.specs.Lines.{HasGoneOn, HasMadeLeg, IsAwake, IsCalling, IsIdle};
ghost use Rattle.mx_process.specs.Processes.{HasLine, IsAtLine};
ghost use Rattle.mx_process.specs.declared.legs.Leg.TheVariants.{Waits};
ghost use Rattle.mx_request.specs.declared.requests.Request.TheVariants.{Block, Link, Resume};
ghost use Rattle.mx_script.specs.declared.lines.Line.TheVariants.{Ask};

use crate::entries::Answered;
use crate::filling::Wrote;
use crate::misses::Fast;
use crate::naming::Attending;
use crate::processes::Process;
use mx_audit::Auditor;
use mx_line::Progress;
use mx_office::Office;
use mx_request::{Request, SharedRequest};
use mx_script::Line;
use mx_sdw::Ring;
use std::alloc::{AllocError, Global};
use std::sync::Wait;

/// What a leg of a line came to.
pub(crate) enum Leg {
    /// The line goes on.
    More,
    /// It was done.
    Done,
    /// It is a `block`, which is to be made.
    Blocks,
    /// It is a `block`, and its process was told to wait.
    Waits,
}

impl<'a, B: Attending, A: Auditor> Process<'a, B, A> {
    /// Does what the line at work needs next: settles a miss, makes a write that is due, or an attempt, or a request other
    /// than `block`. A `block` is left to the caller, and so is the `resume` of a process that was told to wait: nothing is
    /// done then. Condition: a line is left. The only error is want of memory, or that the run is to end; no line has ended
    /// then.
    pub(crate) fn leg<R: Wait>(
        &mut self,
        rt: &R,
        alloc: Global,
        office: &Office<'_, B>,
    ) -> Result<Leg, AllocError>
        requires left { HasLine B.session self.old }
        ensures came { IfOk result (λ leg. HasMadeLeg B.session self.old leg self.new) }
        ensures waits { result ≡ Ok Waits → self.old.state.progress ≡ Waiting }
        ensures err { OnErr result (HasGoneOn self.old self.new) }
    {
        if self.missing.is_some() {
            self.settle(rt, office)?;
            return Ok(Leg::More);
        }
        match self.state.progress {
            Progress::Waiting => Ok(Leg::Waits),
            Progress::Filling(_) => self.make_write(office),
            Progress::Before | Progress::Walking(_) | Progress::AtLink(_) => {
                self.make_attempt(rt, alloc, office)
            }
        }
    }

    // The write that is due is made.
    fn make_write(&mut self, office: &Office<'_, B>) -> Result<Leg, AllocError>
        requires left { HasLine B.session self.old }
        requires due { IsDue self.old.state.progress }
        ensures came { IfOk result (λ leg. HasMadeLeg B.session self.old leg self.new) }
        ensures awake { result ≡ Ok Waits → ⊥ }
        ensures err { OnErr result (HasGoneOn self.old self.new) }
    {
        self.reserve()?;
        match self.fill_fast(office.shared()) {
            Wrote::More => Ok(Leg::More),
            Wrote::Done => Ok(Leg::Done),
            Wrote::Missing { .. } => Ok(Leg::More),
        }
    }

    // The line begins, or goes on after an attempt: no miss is to be settled, no write is due, and it does not wait.
    fn make_attempt<R: Wait>(
        &mut self,
        rt: &R,
        alloc: Global,
        office: &Office<'_, B>,
    ) -> Result<Leg, AllocError>
        requires left { HasLine B.session self.old }
        requires settled { self.old.missing ≡ None }
        requires idle { IsIdle self.old.state.progress }
        ensures came { IfOk result (λ leg. HasMadeLeg B.session self.old leg self.new) }
        ensures awake { result ≡ Ok Waits → ⊥ }
        ensures err { OnErr result (HasGoneOn self.old self.new) }
    {
        let line = self.present();
        match request_of(line) {
            Some(request) => self.make_request(rt, alloc, office, line, request),
            None => self.make_references(rt, alloc, office, line),
        }
    }

    // A request is a call in the current ring; a `block` is left to the caller.
    fn make_request<R: Wait>(
        &mut self,
        rt: &R,
        alloc: Global,
        office: &Office<'_, B>,
        line: &Line,
        request: &SharedRequest,
    ) -> Result<Leg, AllocError>
        requires at { (number : ℕ) × IsAtLine B.session self.old number line.now }
        requires line { line.now ≡ Ask request.now }
        requires settled { self.old.missing ≡ None }
        requires idle { IsIdle self.old.state.progress }
        ensures came { IfOk result (λ leg. HasMadeLeg B.session self.old leg self.new) }
        ensures awake { result ≡ Ok Waits → ⊥ }
        ensures err { OnErr result (HasGoneOn self.old self.new) }
    {
        if is_block(request) {
            return Ok(Leg::Blocks);
        }
        let ring = self.state.control.registers.ring;
        self.make_call(rt, alloc, office, line, ring, request)
    }

    // A line that is no request makes its references, or has a link snapped.
    fn make_references<R: Wait>(
        &mut self,
        rt: &R,
        alloc: Global,
        office: &Office<'_, B>,
        line: &Line,
    ) -> Result<Leg, AllocError>
        requires at { (number : ℕ) × IsAtLine B.session self.old number line.now }
        requires other { IsNoRequest line.now }
        requires free { IsFree self.old.state.progress }
        ensures came { IfOk result (λ leg. HasMadeLeg B.session self.old leg self.new) }
        ensures awake { result ≡ Ok Waits → ⊥ }
        ensures err { OnErr result (HasGoneOn self.old self.new) }
    {
        self.reserve()?;
        match self.line_fast(office.shared()) {
            Fast::Done => Ok(Leg::Done),
            Fast::Missing { .. } => {
                self.never_waits(line);
                Ok(Leg::More)
            }
            Fast::Link { segno, word, ring } => {
                self.make_snap(rt, alloc, office, line, ring, segno, word)
            }
            Fast::Journal => unreachable!(),
        }
    }

    // The call by which the line has this link snapped.
    #[inline(never)]
    fn make_snap<R: Wait>(
        &mut self,
        rt: &R,
        alloc: Global,
        office: &Office<'_, B>,
        line: &Line,
        ring: Ring,
        segno: u16,
        word: u16,
    ) -> Result<Leg, AllocError>
        requires at { (number : ℕ) × IsAtLine B.session self.old number line.now }
        requires awake { line.now ≡ Ask Block → ⊥ }
        requires calls { IsCalling B.session self.old ring (Link segno word) }
        requires settled { self.old.missing ≡ None }
        ensures came { IfOk result (λ leg. HasMadeLeg B.session self.old leg self.new) }
        ensures awake { result ≡ Ok Waits → ⊥ }
        ensures err { OnErr result (HasGoneOn self.old self.new) }
    {
        let request = SharedRequest::new(alloc, Request::Link { segno, word })?;
        self.make_call(rt, alloc, office, line, ring, &request)
    }

    // A call of the line that is no `block`.
    #[inline(always)]
    fn make_call<R: Wait>(
        &mut self,
        rt: &R,
        alloc: Global,
        office: &Office<'_, B>,
        line: &Line,
        ring: Ring,
        request: &SharedRequest,
    ) -> Result<Leg, AllocError>
        requires at { (number : ℕ) × IsAtLine B.session self.old number line.now }
        requires awake { line.now ≡ Ask Block → ⊥ }
        requires calls { IsCalling B.session self.old ring request.now }
        requires other { request.now ≡ Resume → ⊥ }
        requires settled { self.old.missing ≡ None }
        ensures came { IfOk result (λ leg. HasMadeLeg B.session self.old leg self.new) }
        ensures awake { result ≡ Ok Waits → ⊥ }
        ensures err { OnErr result (HasGoneOn self.old self.new) }
    {
        match self.call(rt, alloc, office, ring, request)? {
            Answered::More => {
                self.never_waits(line);
                Ok(Leg::More)
            }
            Answered::Done => Ok(Leg::Done),
        }
    }

    // A line that is no `block` does not wait.
    fn never_waits(&self, line: &Line)
        requires at { (number : ℕ) × IsAtLine B.session self.now number line.now }
        requires other { line.now ≡ Ask Block → ⊥ }
        ensures { IsAwake self.now }
    {
        let _ = &self.state;
    }
}

// The request that a line is, if it is one.
fn request_of(line: &Line) -> Option<&SharedRequest>
    ensures { MatchOption result (IsNoRequest line.now) (λ request. line.now ≡ Ask request.now) }
{
    match line {
        Line::Ask(request) => Some(request),
        Line::Set { .. } => None,
        Line::Epp { .. } => None,
        Line::Lda { .. } => None,
        Line::Sta { .. } => None,
        Line::Spri { .. } => None,
        Line::Fetch => None,
        Line::Call { .. } => None,
        Line::Return { .. } => None,
    }
}

// Whether a request is `block`.
fn is_block(request: &SharedRequest) -> bool
    ensures { IsTrue result ↔ (request.now ≡ Block) }
{
    matches!(request.request(), Request::Block)
}
