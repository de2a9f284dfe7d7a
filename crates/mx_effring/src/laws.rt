//! What follows from the definitions alone.

ghost use Rattle.std.specs.Prelude.{◌≤◌, ◌++◌, List};
ghost use Rattle.std.specs.List.{All, Contains};
ghost use Rattle.mx_effring.specs.Chains.{Operand, Indirection, effective_ring, rings_of};

/// The effective ring is the largest of the rings that have a hand in the operand: it is one of them, and none is above
/// it.
pub fn effective_ring_is_the_largest()
    ensures one { (o : Operand) → Contains (rings_of o) (effective_ring o) }
    ensures none_above { (o : Operand) → All (λ ring. ring ≤ effective_ring o) (rings_of o) }
{}

/// The effective ring is never below the current ring, and never falls along a chain.
pub fn effective_ring_never_falls()
    ensures above_current { (o : Operand) → o.current ≤ effective_ring o }
    ensures rises { (o : Operand) (more : List Indirection)
        → effective_ring o ≤ effective_ring (record o { chain = o.chain ++ more }) }
{}
