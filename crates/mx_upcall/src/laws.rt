//! What follows from the definitions alone.

ghost use Rattle.std.specs.Prelude.{◌≡◌, ◌↔◌, ℕ, ◌<◌, ◌≤◌, ◌∷◌, List, length, slice_get, Some, IsOk};
ghost use Rattle.mx_sdw.specs.Descriptors.{Descriptor};
ghost use Rattle.mx_ptr.specs.Pointers.{PointerParts, IsPackable};
ghost use Rattle.mx_call.specs.Registers.{Registers, ArePackable, IsSound};
ghost use Rattle.mx_call.specs.Transfers.{call_judgement};
ghost use Rattle.mx_upcall.specs.Gates.{ReturnGate, ReturnGates, no_gates, pushed, popped, usable, IsUsable};
ghost use Rattle.mx_upcall.specs.Histories.{Move, all_moved, left_standing};
ghost use Rattle.mx_upcall.specs.Soundness.{IsSoundGate, IsPackableGate, AreSoundGates, ArePackableGates};
ghost use Rattle.mx_upcall.specs.Upcalls.{upward_judgement, gate_left, upcalled, downreturned, IsUpcalled, IsDownreturned};

/// After any list of pushes and pops the stack is the list of the gates that were pushed and not popped, the last first.
pub fn gates_are_those_pushed_and_not_popped()
    ensures { (most : ℕ) (moves : List Move) → (all_moved (no_gates most) moves).gates ≡ left_standing moves }
{}

/// The gate that can be used is the top one, exactly where its upper ring is the current one and its procedure pointer has
/// the target's segment and word. No gate below it can be used.
pub fn only_the_top_gate_is_usable()
    ensures { (gates : ReturnGates) (ring : ℕ) (target : PointerParts) (gate : ReturnGate)
        → (usable gates ring target ≡ Some gate) ↔ IsUsable gates ring target gate }
{}

/// A call from the first bracket or above is judged alike whether upward calls are on or off.
pub fn upward_calls_change_no_other()
    ensures { (g : Registers) (target : PointerParts) (d : Descriptor) → d.brackets.r1 ≤ target.ring
        → upward_judgement g target d ≡ call_judgement g target d }
{}

/// The register rules leave nothing open: a granted upward call, and a granted return through a gate, have one outcome.
pub fn upward_calls_have_one_outcome()
    ensures call { (before after : Registers) (target : PointerParts) (d : Descriptor) (gate : ReturnGate)
        → length before.pr ≡ 8 → IsUpcalled before target d gate after
        ↔ ((gate ≡ gate_left before d) × (after ≡ upcalled before target d)) }
    ensures ret { (before after : Registers) (gate : ReturnGate) → length before.pr ≡ 8
        → IsDownreturned before gate after ↔ (after ≡ downreturned before gate) }
{}

/// No pointer register's ring is ever below the current ring, and no register ever asks for further indirection: an upward
/// call leaves it so, and a return through a gate that is usable and sound.
pub fn registers_stay_sound()
    ensures call { (before after : Registers) (target : PointerParts) (d : Descriptor) (gate : ReturnGate)
        → IsSound before → IsUpcalled before target d gate after → IsSound after }
    ensures ret { (before after : Registers) (gate : ReturnGate) → IsSound before → IsSoundGate gate
        → gate.upper ≡ before.ring → IsDownreturned before gate after → IsSound after }
{}

/// Every gate leads to a lower ring, and brings back no pointer of a ring below it and none that asks for further
/// indirection: so is the gate that an upward call leaves, where the target's ring is an effective one, and a push of such
/// a gate and a pop leave it so.
pub fn gates_stay_sound()
    ensures call { (before after : Registers) (target : PointerParts) (d : Descriptor) (gate : ReturnGate)
        → IsSound before → before.ring ≤ target.ring → target.ring < d.brackets.r1
        → IsUpcalled before target d gate after → IsSoundGate gate }
    ensures push { (gates : ReturnGates) (gate : ReturnGate) → AreSoundGates gates → IsSoundGate gate
        → AreSoundGates (pushed gates gate) }
    ensures pop { (gates : ReturnGates) → AreSoundGates gates → AreSoundGates (popped gates) }
    ensures usable { (gates : ReturnGates) (ring : ℕ) (target : PointerParts) (gate : ReturnGate) → AreSoundGates gates
        → usable gates ring target ≡ Some gate → IsSoundGate gate }
{}

/// Every pointer in the registers can be stored in a word: an upward call into one of the eight rings leaves it so, where
/// its target has a word, and a return through a gate whose pointers have words.
pub fn registers_stay_packable()
    ensures call { (before after : Registers) (target : PointerParts) (d : Descriptor) (gate : ReturnGate)
        → length before.pr ≡ 8 → ArePackable before → IsPackable target → d.brackets.r1 ≤ 7
        → IsUpcalled before target d gate after → ArePackable after }
    ensures ret { (before after : Registers) (gate : ReturnGate) → length before.pr ≡ 8 → ArePackable before
        → IsPackableGate gate → IsDownreturned before gate after → ArePackable after }
{}

/// Every pointer in a gate can be stored in a word: so it is in the gate that an upward call leaves, and a push of such a
/// gate and a pop leave it so.
pub fn gates_stay_packable()
    ensures call { (before after : Registers) (target : PointerParts) (d : Descriptor) (gate : ReturnGate)
        → ArePackable before → IsUpcalled before target d gate after → IsPackableGate gate }
    ensures push { (gates : ReturnGates) (gate : ReturnGate) → ArePackableGates gates → IsPackableGate gate
        → ArePackableGates (pushed gates gate) }
    ensures pop { (gates : ReturnGates) → ArePackableGates gates → ArePackableGates (popped gates) }
    ensures usable { (gates : ReturnGates) (ring : ℕ) (target : PointerParts) (gate : ReturnGate)
        → ArePackableGates gates → usable gates ring target ≡ Some gate → IsPackableGate gate }
{}

/// An upward call raises the current ring, where the target's ring is an effective one. The return through its gate comes
/// back to the ring, the place and the stack of the caller, whatever was done in between.
pub fn rings_rise_and_fall_through_gates()
    ensures rise { (before after : Registers) (target : PointerParts) (d : Descriptor) (gate : ReturnGate)
        → before.ring ≤ target.ring → target.ring < d.brackets.r1 → IsUpcalled before target d gate after
        → before.ring < after.ring }
    ensures fall { (before called inside after : Registers) (target : PointerParts) (d : Descriptor) (gate : ReturnGate)
        → IsUpcalled before target d gate called → IsDownreturned inside gate after
        → (after.ring ≡ before.ring) × (after.procedure ≡ before.procedure)
        × (slice_get after.pr 0 ≡ slice_get before.pr 0) }
{}
