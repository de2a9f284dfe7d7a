//! The lines of a process, by all that they take.

ghost use Rattle.std.specs.Prelude.{◌≡◌, ◌↔◌, ◌⊎◌, Ok, IfOk, IfSome, IsNone, IsSome, IsTrue, OnErr, OnOk};
ghost use Rattle.std.specs.Option.{option_map};
ghost use Rattle.mx_line.specs.declared.operands.Progress.TheVariants.{Waiting};
ghost use Rattle.mx_process.specs.Lines.{HasEnded, HasGoneOn, HasNoLine, HasTurnedTo, IsAtBlock, IsAwake, IsOwn};
ghost use Rattle.mx_process.specs.Processes.{HasLine, IsAtLine};
ghost use Rattle.mx_process.specs.Stays.{HasFewerLines};
ghost use Rattle.mx_process.specs.declared.lines.Turned.TheVariants.{Done, Waits};
ghost use Rattle.mx_script.specs.declared.lines.Line.{Line};

use crate::entries::Answered;
use crate::gates::Gate;
use crate::legs::Leg;
use crate::naming::Attending;
use crate::processes::Process;
use mx_audit::Auditor;
use mx_line::Progress;
use mx_office::Office;
use std::alloc::{AllocError, Global};
use std::sync::Wait;

/// What a turn of a process came to.
#[derive(Clone, Copy, Debug, PartialEq, Eq)]
pub enum Turned {
    /// Its line was done.
    Done,
    /// Its line is a `block` that waits for a message: it goes on with a later turn.
    Waits,
}

impl<'a, B: Attending, A: Auditor> Process<'a, B, A> {
    /// Does the next line: attempts, and what they ask for, until it ends. References take no lock; a request, a link that
    /// is to be snapped and a miss that is to be settled wait for it, and a `block` sleeps until there is a message, or
    /// nobody who could send one. Conditions: a line is left, and it does not wait. The only error is want of memory, or
    /// that the run is to end; no line has ended then.
    pub fn line<R: Wait>(
        &mut self,
        rt: &R,
        alloc: Global,
        office: &Office<'_, B>,
    ) -> Result<(), AllocError>
        requires left { HasLine B.session self.old }
        requires awake { IsAwake self.old }
        ensures ended { OnOk result (HasEnded self.old self.new) }
        ensures err { OnErr result (HasGoneOn self.old self.new) }
    {
        for _ in rt.forever() {
            match self.leg(rt, alloc, office)? {
                Leg::More => {}
                Leg::Done => return Ok(()),
                Leg::Blocks => return self.block(rt, alloc, office),
                Leg::Waits => unreachable!(),
            }
        }
        unreachable!()
    }

    /// Does the next line, as [`Process::line`] does, but does not sleep: where it is a `block` that has to wait it says so, and
    /// the same line goes on with the next turn. Condition: a line is left. The only error is want of memory, or that the
    /// run is to end; no line has ended then.
    pub fn turn<R: Wait>(
        &mut self,
        rt: &R,
        alloc: Global,
        office: &Office<'_, B>,
    ) -> Result<Turned, AllocError>
        requires left { HasLine B.session self.old }
        ensures ended { result ≡ Ok Done → HasEnded self.old self.new }
        ensures waits { result ≡ Ok Waits → HasGoneOn self.old self.new × (self.new.state.progress ≡ Waiting) }
        ensures err { OnErr result (HasGoneOn self.old self.new) }
    {
        for _ in rt.forever() {
            if let Some(turned) = self.turn_leg(rt, alloc, office)? {
                return Ok(turned);
            }
        }
        unreachable!()
    }

    // A leg of a turn, and what the turn came to, where it is over.
    fn turn_leg<R: Wait>(
        &mut self,
        rt: &R,
        alloc: Global,
        office: &Office<'_, B>,
    ) -> Result<Option<Turned>, AllocError>
        requires left { HasLine B.session self.old }
        ensures came { IfOk result (λ turned. HasTurnedTo self.old turned self.new) }
        ensures err { OnErr result (HasGoneOn self.old self.new) }
    {
        match self.leg(rt, alloc, office)? {
            Leg::More => Ok(None),
            Leg::Done => Ok(Some(Turned::Done)),
            Leg::Blocks => self.turn_block(rt, alloc, office),
            Leg::Waits => self.turn_resume(rt, alloc, office),
        }
    }

    // A `block` that does not sleep.
    fn turn_block<R: Wait>(
        &mut self,
        rt: &R,
        alloc: Global,
        office: &Office<'_, B>,
    ) -> Result<Option<Turned>, AllocError>
        requires block { IsAtBlock B.session self.old }
        ensures came { IfOk result (λ turned. HasTurnedTo self.old turned self.new) }
        ensures err { OnErr result (HasGoneOn self.old self.new) }
    {
        let ring = self.state.control.registers.ring;
        match self.call(rt, alloc, office, ring, office.block_request())? {
            Answered::More => Ok(None),
            Answered::Done => Ok(Some(Turned::Done)),
        }
    }

    // The `resume` of a process that was told to wait, if it may be made.
    fn turn_resume<R: Wait>(
        &mut self,
        rt: &R,
        alloc: Global,
        office: &Office<'_, B>,
    ) -> Result<Option<Turned>, AllocError>
        requires waiting { self.old.state.progress ≡ Waiting }
        requires left { HasLine B.session self.old }
        ensures came { IfOk result (λ turned. HasTurnedTo self.old turned self.new) }
        ensures err { OnErr result (HasGoneOn self.old self.new) }
    {
        match self.try_resume(rt, alloc, office)? {
            Turned::Done => Ok(Some(Turned::Done)),
            Turned::Waits => Ok(Some(Turned::Waits)),
        }
    }

    /// Does all lines that are left. The gate is told of each before it begins; but where it holds nobody, several lines are
    /// done in one stay inside. Condition: it does not wait. The only error is want of memory, or that the run is to end: then
    /// the run is to end for all.
    pub fn run<R: Wait, G: Gate>(
        &mut self,
        rt: &R,
        alloc: Global,
        office: &Office<'_, B>,
        gate: &G,
    ) -> Result<(), AllocError>
        requires awake { IsAwake self.old }
        ensures ended { OnOk result (HasNoLine B.session self.new) }
        ensures own { IsOwn self.old self.new }
    {
        while let Some(number) = self.beginning() {
            if let Err(error) = self.go_on(rt, alloc, office, gate, number) {
                office.stop(rt);
                return Err(error);
            }
        }
        Ok(())
    }

    /// The same, after room is made for its lines.
    #[tactic(auto, using(crate::proofs::LegLaws::own_on))]
    pub fn run_alone<R: Wait, G: Gate>(
        &mut self,
        rt: &R,
        alloc: Global,
        office: &Office<'_, B>,
        gate: &G,
    ) -> Result<(), AllocError>
        requires awake { IsAwake self.old }
        ensures ended { OnOk result (HasNoLine B.session self.new) }
        ensures own { IsOwn self.old self.new }
    {
        let room = self.reserve_lines();
        self.run_with(rt, alloc, office, gate, room)
    }

    /// The same, after room was made for its lines, or could not be had: then the run is to end for all.
    pub fn run_with<R: Wait, G: Gate>(
        &mut self,
        rt: &R,
        alloc: Global,
        office: &Office<'_, B>,
        gate: &G,
        room: Result<(), AllocError>,
    ) -> Result<(), AllocError>
        requires awake { IsAwake self.old }
        ensures ended { OnOk result (HasNoLine B.session self.new) }
        ensures own { IsOwn self.old self.new }
    {
        match room {
            Ok(()) => self.run(rt, alloc, office, gate),
            Err(error) => {
                office.stop(rt);
                Err(error)
            }
        }
    }

    // The next line, of which the gate is told; or, where the gate holds nobody, lines in one stay and the one after them.
    fn go_on<R: Wait, G: Gate>(
        &mut self,
        rt: &R,
        alloc: Global,
        office: &Office<'_, B>,
        gate: &G,
        number: u32,
    ) -> Result<(), AllocError>
        requires left { HasLine B.session self.old }
        requires awake { IsAwake self.old }
        ensures fewer { OnOk result (HasFewerLines B.session self.old self.new) }
        ensures awake { OnOk result (IsAwake self.new) }
        ensures own { IsOwn self.old self.new }
    {
        if gate.holds_nobody() {
            return self.hurry_on(rt, alloc, office);
        }
        gate.pass(u32::from(self.number()), number);
        self.line(rt, alloc, office)
    }

    // Lines in one stay, and the one after them, if one is left, by all that it takes.
    fn hurry_on<R: Wait>(
        &mut self,
        rt: &R,
        alloc: Global,
        office: &Office<'_, B>,
    ) -> Result<(), AllocError>
        requires left { HasLine B.session self.old }
        requires awake { IsAwake self.old }
        ensures fewer { OnOk result (HasFewerLines B.session self.old self.new) }
        ensures awake { OnOk result (IsAwake self.new) }
        ensures own { IsOwn self.old self.new }
    {
        self.hurry(office.shared())?;
        if self.has_line() {
            return self.line(rt, alloc, office);
        }
        Ok(())
    }

    /// The process's number, from 1 on.
    pub fn number(&self) -> u8
        ensures { result ≡ self.now.pass.view.process }
    {
        self.pass.process()
    }

    /// The number in the session text of the line that is about to begin: none where no line is left, and where the process
    /// waits in a line that it has begun.
    pub fn beginning(&self) -> Option<u32>
        ensures some { IfSome result (λ number. (line : Line) × IsAtLine B.session self.now number line) }
        ensures awake { IsSome result → IsAwake self.now }
        ensures none { IsNone result → HasNoLine B.session self.now ⊎ (self.now.state.progress ≡ Waiting) }
    {
        if !self.has_line() {
            return None;
        }
        if self.waits() {
            return None;
        }
        Some(self.next_number())
    }

    // Whether a `block` of it waits for a message.
    fn waits(&self) -> bool
        ensures { IsTrue result ↔ (self.now.state.progress ≡ Waiting) }
    {
        matches!(self.state.progress, Progress::Waiting)
    }

    // The number in the session text of the next line.
    fn next_number(&self) -> u32
        requires { HasLine B.session self.now }
        ensures { (line : Line) × IsAtLine B.session self.now result line }
    {
        self.state.first + self.state.recording.lines() as u32
    }

    /// The auditor, where the run is given up. Takes no memory.
    pub fn dismiss(self) -> Option<A>
        ensures { option_map A.account result ≡ self.entry.account }
    {
        let Process { auditor, .. } = self;
        auditor
    }
}
