//! The return gates of a process.

ghost use Rattle.std.specs.Prelude.{◌≡◌, ◌≤◌, true, length, IfSome};
ghost use Rattle.mx_upcall.specs.Gates.{no_gates, has_room, pushed, top_gate, popped, usable, leads_back};

use mx_ptr::Pointer;
use mx_sdw::Ring;
use std::marker::Model;

/// The way back to a caller of a lower ring.
#[derive(Clone, Copy, Debug, PartialEq, Eq)]
pub struct ReturnGate {
    /// The ring of the caller, into which the gate leads back.
    pub lower: Ring,
    /// The ring in which the call went on, from which the gate is used.
    pub upper: Ring,
    /// The procedure pointer of the caller.
    pub procedure: Pointer,
    /// PR0 of the caller.
    pub pr0: Pointer,
}

impl Model for ReturnGate {
    ghost use Rattle.mx_upcall.specs.Gates.{ReturnGate as Gate};

    ghost Value = { Gate };

    ghost view = { λ g. record { lower = g.lower; upper = g.upper; procedure = g.procedure; pr0 = g.pr0 } };

    ghost inverse = { λ g. record { lower = g.lower; upper = g.upper; procedure = g.procedure; pr0 = g.pr0 } };
}

/// The return gates of a process, a stack: the top one is that of the latest upward call that was not returned from.
#[derive(Debug, Drop)]
pub struct ReturnGates {
    most: usize,
    gates: [ReturnGate; 16],
    count: usize,
}

impl Model for ReturnGates {
    ghost use Rattle.std.specs.Prelude.{◌≡◌, ◌≤◌, length, reverse, take};
    ghost use Rattle.mx_upcall.specs.Gates.{ReturnGates as Gates};

    ghost Value = { Gates };

    ghost view = { λ g. record { most = g.most; gates = reverse (take g.count g.gates) } };

    ghost invariant = { λ g. (g.count ≤ g.most) × (g.most ≤ 16) × (length g.gates ≡ 16) };
}

impl ReturnGates {
    /// No gates, of at most 16.
    pub fn new() -> ReturnGates
        ensures { result ≡ no_gates 16 }
    {
        ReturnGates::at_most(16)
    }

    /// No gates, of at most `most`, which is 16 or less: 0 for a process that has no upward calls.
    pub fn at_most(most: usize) -> ReturnGates
        requires { most ≤ 16 }
        ensures { result ≡ no_gates most }
    {
        ReturnGates {
            most,
            gates: [unused(); 16],
            count: 0,
        }
    }

    /// How many stand.
    #[tactic(auto, using(crate::proofs::GateLaws::as_many))]
    pub fn len(&self) -> usize
        ensures count { result ≡ length self.now.gates }
        ensures most { result ≤ self.now.most }
        ensures limit { self.now.most ≤ 16 }
    {
        self.count
    }

    /// Whether one more may stand.
    pub fn has_room(&self) -> bool
        ensures { result ≡ has_room self.now }
    {
        self.len() < self.most
    }

    /// Puts a gate on top.
    pub fn push(&mut self, gate: ReturnGate)
        requires { has_room self.old ≡ true }
        ensures { self.new ≡ pushed self.old gate }
    {
        self.gates[self.count] = gate;
        self.count += 1;
    }

    /// Takes the top gate away, `None` exactly where there is none.
    pub fn pop(&mut self) -> Option<ReturnGate>
        ensures top { result ≡ top_gate self.old }
        ensures after { self.new ≡ popped self.old }
    {
        let top = self.top();
        if self.count > 0 {
            self.count -= 1;
        }
        top
    }

    /// The gate by which a process of this ring returns to `target`: the top one, exactly where its upper ring is the ring
    /// and its procedure pointer has the target's segment and word.
    pub fn usable(&self, ring: Ring, target: &Pointer) -> Option<ReturnGate>
        ensures value { result ≡ usable self.now ring target.now }
        ensures upper { IfSome result (λ gate. gate.upper ≡ ring) }
    {
        let top = self.top()?;
        if leads_back(&top, ring, target) {
            Some(top)
        } else {
            None
        }
    }

    fn top(&self) -> Option<ReturnGate>
        ensures { result ≡ top_gate self.now }
    {
        if self.count == 0 {
            None
        } else {
            Some(self.gates[self.count - 1])
        }
    }
}

/// Whether a gate leads back from a ring through a target.
fn leads_back(gate: &ReturnGate, ring: Ring, target: &Pointer) -> bool
    ensures { result ≡ leads_back gate.now ring target.now }
{
    gate.upper.number() == ring.number()
        && gate.procedure.segno == target.segno
        && gate.procedure.word == target.word
}

/// What stands in a place where no gate was put yet.
fn unused() -> ReturnGate {
    let ring = Ring::new(0).unwrap();
    let pointer = Pointer {
        ring,
        segno: 0,
        word: 0,
        further: false,
    };
    ReturnGate {
        lower: ring,
        upper: ring,
        procedure: pointer,
        pr0: pointer,
    }
}
