//! Upward calls, and returns through their gates.

ghost use Rattle.std.specs.Prelude.{◌≡◌, ◌<◌, ◌≤◌, IsOk};
ghost use Rattle.mx_upcall.specs.Upcalls.{upward_judgement, way_back_in, IsUpcalled, IsDownreturned};

use crate::gates::ReturnGate;
use mx_call::{Regs, going_on, raised_to, stack_base};
use mx_ptr::Pointer;
use mx_sdw::{Desc, Ring};

/// The registers after a granted call of `target`, a word of the segment that `desc` describes, from below its first
/// bracket, and the gate by which the caller is come back to. `target.ring` is the effective ring (Schroeder and Saltzer).
pub fn upward(regs: &Regs, target: &Pointer, desc: &Desc) -> (Regs, ReturnGate)
    requires granted { IsOk (upward_judgement regs.now target.now desc.now) }
    requires below { target.now.ring < desc.now.brackets.r1 }
    ensures after { IsUpcalled regs.now target.now desc.now result.1 result.0 }
    ensures bound { desc.now.brackets.r1 ≤ 7 }
{
    let ring = desc.brackets().r1();
    let [pr0, pr1, pr2, pr3, pr4, pr5, pr6, _] = regs.pr;
    let gate = ReturnGate {
        lower: regs.ring,
        upper: ring,
        procedure: regs.procedure,
        pr0,
    };
    let after = Regs {
        ring,
        procedure: going_on(target, ring),
        pr: [
            stack_base(ring),
            raised_to(ring, pr1),
            raised_to(ring, pr2),
            raised_to(ring, pr3),
            raised_to(ring, pr4),
            raised_to(ring, pr5),
            raised_to(ring, pr6),
            way_back_in(ring, regs),
        ],
        a: regs.a,
    };
    (after, gate)
}

/// The registers after a granted return through a gate that is usable in the current ring (Schroeder and Saltzer).
pub fn downward(regs: &Regs, gate: &ReturnGate) -> Regs
    requires usable { gate.now.upper ≡ regs.now.ring }
    ensures { IsDownreturned regs.now gate.now result }
{
    let [_, pr1, pr2, pr3, pr4, pr5, pr6, pr7] = regs.pr;
    Regs {
        ring: gate.lower,
        procedure: gate.procedure,
        pr: [gate.pr0, pr1, pr2, pr3, pr4, pr5, pr6, pr7],
        a: regs.a,
    }
}

/// The pointer to where the caller is, in the ring to which its call goes.
fn way_back_in(ring: Ring, regs: &Regs) -> Pointer
    ensures { result ≡ way_back_in ring regs.now }
{
    Pointer {
        ring,
        ..regs.procedure
    }
}
