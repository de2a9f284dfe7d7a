//! The registers of a process.

ghost use Rattle.std.specs.Prelude.{◌≡◌, ◌≤◌, false};
ghost use Rattle.mx_ptr.specs.Pointers.{IsPackable};
ghost use Rattle.mx_call.specs.Loading.{loaded, opening_registers};
ghost use Rattle.mx_call.specs.Registers.{stack_base, ArePackable, IsSound};

use mx_ptr::Pointer;
use mx_sdw::{Ring, Word};
use std::marker::Model;

/// The registers of a process.
#[derive(Clone, Copy, Debug, PartialEq, Eq)]
pub struct Regs {
    /// The current ring.
    pub ring: Ring,
    /// The procedure pointer: the place where the process runs.
    pub procedure: Pointer,
    /// The pointer registers PR0 to PR7.
    pub pr: [Pointer; 8],
    /// The accumulator.
    pub a: Word,
}

impl Model for Regs {
    ghost use Rattle.mx_call.specs.Registers.{Registers};

    ghost Value = { Registers };

    ghost view = { λ g. record { ring = g.ring; procedure = g.procedure; pr = g.pr; a = g.a } };

    ghost inverse = { λ g. record { ring = g.ring; procedure = g.procedure; pr = g.pr; a = g.a } };
}

impl Regs {
    /// The registers with which every process starts: in ring 4, with each pointer at word 0 of that ring's stack.
    pub fn opening() -> Regs
        ensures value { result ≡ opening_registers }
        ensures sound { IsSound result }
        ensures packable { ArePackable result }
    {
        let ring = Ring::new(4).unwrap();
        Regs {
            ring,
            procedure: stack_base(ring),
            pr: [stack_base(ring); 8],
            a: Word::zero(),
        }
    }

    /// Loads pointer register `n`, 0 to 7, with the effective pointer of an operand: its ring is never below the
    /// current one, and it asks for no further indirection.
    pub fn load(&mut self, n: u8, target: &Pointer)
        requires number { n ≤ 7 }
        requires ring { self.old.ring ≤ target.now.ring }
        requires plain { target.now.further ≡ false }
        ensures after { self.new ≡ loaded self.old n target.now }
        ensures sound { IsSound self.old → IsSound self.new }
        ensures packable { ArePackable self.old → IsPackable target.now → ArePackable self.new }
    {
        self.pr[usize::from(n)] = *target;
    }
}

/// The word 0 of the stack of a ring.
pub fn stack_base(ring: Ring) -> Pointer
    ensures { result ≡ stack_base ring }
{
    Pointer {
        ring,
        segno: u16::from(ring.number()),
        word: 0,
        further: false,
    }
}
