//! The lines of a process, and its registers and gates at their start.

ghost use Rattle.std.specs.Prelude.{◌≡◌, map, IfOk};
ghost use Rattle.mx_call.specs.Loading.{opening_in};
ghost use Rattle.mx_call.specs.Registers.{ArePackable};
ghost use Rattle.mx_script.specs.declared.lines.Line.TheVariants.{Ask};
ghost use Rattle.mx_transcript.specs.Openings.{opening_control};
ghost use Rattle.mx_upcall.specs.Soundness.{IsPackableControl};

use mx_call::{Regs, stack_base};
use mx_request::{SharedRequest, most_gates};
use mx_script::{Line, Script, Session};
use mx_sdw::{Ring, Word};
use mx_upcall::Control;
use std::alloc::{AllocError, Global};

/// The requests of a setup, as lines. The only error is want of memory.
pub(crate) fn setup_lines(alloc: Global, requests: &[SharedRequest]) -> Result<Script, AllocError>
    ensures { IfOk result (λ lines. lines ≡ map Ask requests.now) }
{
    let mut lines = Script::new(alloc);
    for request in requests {
        lines.push(Line::Ask(request.share()?))?;
    }
    Ok(lines)
}

/// The registers and gates with which process `p` starts; the initializer's are in ring 0.
pub(crate) fn opening_control(session: &Session, p: usize) -> Control
    ensures value { result ≡ opening_control session.now p }
    ensures packable { IsPackableControl result }
{
    let control = Control::opening(most_gates(session.version()));
    if p == 0 { in_ring_0(control) } else { control }
}

// The same gates, with the registers of the initializer.
fn in_ring_0(control: Control) -> Control
    requires { IsPackableControl control }
    ensures value { result ≡ record { registers = opening_in 0; gates = control.gates } }
    ensures packable { IsPackableControl result }
{
    Control {
        registers: initializer_registers(),
        gates: control.gates,
    }
}

// The registers with which the initializer starts: in ring 0, with each pointer at word 0 of that ring's stack.
fn initializer_registers() -> Regs
    ensures value { result ≡ opening_in 0 }
    ensures packable { ArePackable result }
{
    let Some(ring) = Ring::new(0) else {
        unreachable!()
    };
    Regs {
        ring,
        procedure: stack_base(ring),
        pr: [stack_base(ring); 8],
        a: Word::zero(),
    }
}
