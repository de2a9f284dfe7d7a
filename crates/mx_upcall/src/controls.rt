//! What passes from line to line of a process, and what calls and returns make of it.

ghost use Rattle.std.specs.Prelude.{◌≡◌, ◌<◌, ◌≤◌, ◌↔◌, Some, None, Err, IsOk, IfOk, IfErr, IfSome};
ghost use Rattle.mx_call.specs.Loading.{opening_registers};
ghost use Rattle.mx_call.specs.Transfers.{return_judgement};
ghost use Rattle.mx_sdw.specs.Judging.{judgement};
ghost use Rattle.mx_upcall.specs.Changes.{stepped, keeping, changed, Fits};
ghost use Rattle.mx_upcall.specs.Control.{calling, after_call, way_down, returning_through, returning, after_return};
ghost use Rattle.mx_upcall.specs.Gates.{no_gates};
ghost use Rattle.mx_upcall.specs.Soundness.{IsPackableControl};

use crate::gates::{ReturnGate, ReturnGates};
use crate::upcalls::{downward, upward};
use mx_call::{Regs, call, ret};
use mx_ptr::Pointer;
use mx_sdw::{Denial, Desc, Op, judge};
use std::marker::Model;

/// What passes from line to line of a process: its registers and its return gates.
#[derive(Debug, Drop)]
pub struct Control {
    pub registers: Regs,
    pub gates: ReturnGates,
}

impl Model for Control {
    ghost use Rattle.mx_upcall.specs.Control.{Control as Parts};

    ghost Value = { Parts };

    ghost view = { λ c. record { registers = c.registers; gates = c.gates } };
}

/// What a line makes of the return gates.
#[derive(Clone, Copy, Debug, PartialEq, Eq)]
pub enum GateStep {
    /// They stay as they are.
    Kept,
    /// An upward call left this one, on top.
    Left(ReturnGate),
    /// A return used the top one, which is gone.
    Used,
}

/// What a line makes of the registers and of the return gates.
#[derive(Clone, Copy, Debug, PartialEq, Eq)]
pub struct Change {
    pub registers: Regs,
    pub gates: GateStep,
}

impl Change {
    /// These registers, and the gates as they are.
    pub fn keeping(registers: &Regs) -> Change
        ensures { result ≡ keeping registers.now }
    {
        Change {
            registers: *registers,
            gates: GateStep::Kept,
        }
    }
}

impl ReturnGates {
    /// A gate is left or used, or they stay as they are.
    pub fn step(&mut self, step: GateStep)
        requires { Fits self.old step }
        ensures { self.new ≡ stepped self.old step }
    {
        match step {
            GateStep::Kept => {}
            GateStep::Left(gate) => self.push(gate),
            GateStep::Used => {
                self.pop();
            }
        }
    }
}

impl Control {
    /// The registers with which every process starts, and no gates, of at most `most`, which is 16 or less.
    pub fn opening(most: usize) -> Control
        requires { most ≤ 16 }
        ensures value { result ≡ record { registers = opening_registers; gates = no_gates most } }
        ensures packable { IsPackableControl result }
    {
        Control {
            registers: Regs::opening(),
            gates: ReturnGates::at_most(most),
        }
    }

    /// The registers and gates after a line.
    pub fn change(&mut self, change: &Change)
        requires { Fits self.old.gates change.now.gates }
        ensures { self.new ≡ changed self.old change.now }
    {
        self.registers = change.registers;
        self.gates.step(change.gates);
    }

    /// The call of a target: it may go upward where one more gate may stand.
    pub fn calling(&self, target: &Pointer) -> Op
        ensures { result ≡ calling self.now target.now }
    {
        Op::Call {
            current: self.registers.ring,
            same: target.segno == self.registers.procedure.segno,
            upward: self.gates.has_room(),
        }
    }

    /// The gate through which a return to `target` goes, if it goes through one.
    pub fn way_down(&self, target: &Pointer) -> Option<ReturnGate>
        ensures value { result ≡ way_down self.now target.now }
        ensures upper { IfSome result (λ gate. gate.upper ≡ self.now.registers.ring) }
    {
        self.gates.usable(self.registers.ring, target)
    }

    /// Where a return to `target` is asked: through a gate in the gate's lower ring.
    pub fn returning(&self, target: &Pointer) -> Pointer
        ensures { result ≡ returning self.now target.now }
    {
        match self.way_down(target) {
            Some(gate) => returning_through(&gate, target),
            None => *target,
        }
    }

    /// What a call of `target`, a word of the segment that `desc` describes, makes of the registers and gates, where
    /// `target.ring` is the effective ring. Denied as the judging rule denies it. From below the first bracket it goes
    /// upward and leaves a gate (Schroeder and Saltzer).
    pub fn call(&self, target: &Pointer, desc: &Desc) -> Result<Change, Denial>
        ensures granted { IsOk result ↔ IsOk (judgement desc.now (calling self.now target.now) target.now.ring target.now.word) }
        ensures ok { IfOk result (λ change. changed self.now change ≡ after_call self.now target.now desc.now) }
        ensures fits { IfOk result (λ change. Fits self.now.gates change.gates) }
        ensures err { IfErr result (λ denial. judgement desc.now (calling self.now target.now) target.now.ring target.now.word ≡ Err denial) }
    {
        if target.ring.number() < desc.brackets().r1().number() {
            self.call_up(target, desc)
        } else {
            self.call_down(target, desc)
        }
    }

    /// A call from below the first bracket.
    fn call_up(&self, target: &Pointer, desc: &Desc) -> Result<Change, Denial>
        requires { target.now.ring < desc.now.brackets.r1 }
        ensures granted { IsOk result ↔ IsOk (judgement desc.now (calling self.now target.now) target.now.ring target.now.word) }
        ensures ok { IfOk result (λ change. changed self.now change ≡ after_call self.now target.now desc.now) }
        ensures fits { IfOk result (λ change. Fits self.now.gates change.gates) }
        ensures err { IfErr result (λ denial. judgement desc.now (calling self.now target.now) target.now.ring target.now.word ≡ Err denial) }
    {
        judge(
            desc,
            self.calling(target),
            target.ring,
            u32::from(target.word),
        )?;
        let (registers, gate) = upward(&self.registers, target, desc);
        Ok(Change {
            registers,
            gates: GateStep::Left(gate),
        })
    }

    /// A call from the first bracket or above.
    fn call_down(&self, target: &Pointer, desc: &Desc) -> Result<Change, Denial>
        requires { desc.now.brackets.r1 ≤ target.now.ring }
        ensures granted { IsOk result ↔ IsOk (judgement desc.now (calling self.now target.now) target.now.ring target.now.word) }
        ensures ok { IfOk result (λ change. changed self.now change ≡ after_call self.now target.now desc.now) }
        ensures fits { IfOk result (λ change. Fits self.now.gates change.gates) }
        ensures err { IfErr result (λ denial. judgement desc.now (calling self.now target.now) target.now.ring target.now.word ≡ Err denial) }
    {
        let registers = call(&self.registers, target, desc)?;
        Ok(Change::keeping(&registers))
    }

    /// What a return to `target`, a word of the segment that `desc` describes, makes of the registers and gates, where
    /// `target.ring` is the effective ring. Denied as the judging rule denies it where it is asked. Where the top gate leads
    /// back through the target the return goes through it, and takes it away (Schroeder and Saltzer).
    pub fn ret(&self, target: &Pointer, desc: &Desc) -> Result<Change, Denial>
        ensures granted { IsOk result ↔ IsOk (return_judgement (returning self.now target.now) desc.now) }
        ensures ok { IfOk result (λ change. changed self.now change ≡ after_return self.now target.now) }
        ensures fits { IfOk result (λ change. Fits self.now.gates change.gates) }
        ensures err { IfErr result (λ denial. return_judgement (returning self.now target.now) desc.now ≡ Err denial) }
    {
        match self.way_down(target) {
            Some(gate) => self.ret_through(&gate, target, desc),
            None => self.ret_up(target, desc),
        }
    }

    /// A return through a gate.
    fn ret_through(
        &self,
        gate: &ReturnGate,
        target: &Pointer,
        desc: &Desc,
    ) -> Result<Change, Denial>
        requires way { way_down self.now target.now ≡ Some gate.now }
        requires upper { gate.now.upper ≡ self.now.registers.ring }
        ensures granted { IsOk result ↔ IsOk (return_judgement (returning self.now target.now) desc.now) }
        ensures ok { IfOk result (λ change. changed self.now change ≡ after_return self.now target.now) }
        ensures fits { IfOk result (λ change. Fits self.now.gates change.gates) }
        ensures err { IfErr result (λ denial. return_judgement (returning self.now target.now) desc.now ≡ Err denial) }
    {
        let asked = returning_through(gate, target);
        judge(desc, Op::Return, asked.ring, u32::from(asked.word))?;
        Ok(Change {
            registers: downward(&self.registers, gate),
            gates: GateStep::Used,
        })
    }

    /// A return through no gate.
    fn ret_up(&self, target: &Pointer, desc: &Desc) -> Result<Change, Denial>
        requires { way_down self.now target.now ≡ None }
        ensures granted { IsOk result ↔ IsOk (return_judgement (returning self.now target.now) desc.now) }
        ensures ok { IfOk result (λ change. changed self.now change ≡ after_return self.now target.now) }
        ensures fits { IfOk result (λ change. Fits self.now.gates change.gates) }
        ensures err { IfErr result (λ denial. return_judgement (returning self.now target.now) desc.now ≡ Err denial) }
    {
        let registers = ret(&self.registers, target, desc)?;
        Ok(Change::keeping(&registers))
    }

    /// Goes on by a granted call of `target`, a word of the segment that `desc` describes: what `call` makes of the registers
    /// and gates, in place.
    #[inline(always)]
    pub fn enter(&mut self, target: &Pointer, desc: &Desc)
        requires { IsOk (judgement desc.now (calling self.old target.now) target.now.ring target.now.word) }
        ensures { self.new ≡ after_call self.old target.now desc.now }
    {
        if target.ring.number() < desc.brackets().r1().number() {
            self.enter_up(target, desc);
        } else {
            self.registers.enter(target, desc);
        }
    }

    // A call from below the first bracket.
    #[inline(never)]
    fn enter_up(&mut self, target: &Pointer, desc: &Desc)
        requires below { target.now.ring < desc.now.brackets.r1 }
        requires granted { IsOk (judgement desc.now (calling self.old target.now) target.now.ring target.now.word) }
        ensures { self.new ≡ after_call self.old target.now desc.now }
    {
        let (registers, gate) = upward(&self.registers, target, desc);
        self.registers = registers;
        self.gates.push(gate);
    }

    /// Goes on by a granted return to `target`: what `ret` makes of the registers and gates, in place.
    #[inline(always)]
    pub fn go_back(&mut self, target: &Pointer)
        ensures { self.new ≡ after_return self.old target.now }
    {
        match self.way_down(target) {
            Some(gate) => self.go_down(&gate, target),
            None => self.registers.go_back(target),
        }
    }

    // A return through a gate.
    #[inline(never)]
    fn go_down(&mut self, gate: &ReturnGate, target: &Pointer)
        requires way { way_down self.old target.now ≡ Some gate.now }
        requires upper { gate.now.upper ≡ self.old.registers.ring }
        ensures { self.new ≡ after_return self.old target.now }
    {
        self.registers = downward(&self.registers, gate);
        self.gates.pop();
    }
}

/// Where a return through a gate is asked.
fn returning_through(gate: &ReturnGate, target: &Pointer) -> Pointer
    ensures { result ≡ returning_through (Some gate.now) target.now }
{
    Pointer {
        ring: gate.lower,
        ..*target
    }
}
