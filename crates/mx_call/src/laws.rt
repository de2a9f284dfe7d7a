//! What follows from the definitions alone.

ghost use Rattle.std.specs.Prelude.{◌≡◌, ◌↔◌, ℕ, ◌<◌, ◌≤◌, false, length, IsOk};
ghost use Rattle.mx_sdw.specs.Descriptors.{Descriptor};
ghost use Rattle.mx_ptr.specs.Pointers.{PointerParts, IsPackable};
ghost use Rattle.mx_call.specs.Loading.{loaded, opening_registers};
ghost use Rattle.mx_call.specs.Registers.{ArePackable, Registers, IsSound};
ghost use Rattle.mx_call.specs.Transfers.{call_judgement, called, returned, IsCalled, IsReturned, IsGate};

/// The register rules leave nothing open: a granted call or return has one outcome.
pub fn registers_have_one_outcome()
    ensures call { (before after : Registers) (target : PointerParts) (d : Descriptor) → length before.pr ≡ 8
        → IsCalled before target d after ↔ (after ≡ called before target d) }
    ensures ret { (before after : Registers) (target : PointerParts)
        → IsReturned before target after ↔ (after ≡ returned before target) }
{}

/// No pointer register's ring is ever below the current ring, and no register ever asks for further indirection: so it
/// is at the start, and a granted call or return, and the load of a pointer register with an effective pointer, leave
/// it so.
pub fn registers_stay_sound()
    ensures opening { IsSound opening_registers }
    ensures call { (before after : Registers) (target : PointerParts) (d : Descriptor) → IsSound before
        → IsOk (call_judgement before target d) → IsCalled before target d after → IsSound after }
    ensures ret { (before after : Registers) (target : PointerParts) → IsSound before
        → IsReturned before target after → IsSound after }
    ensures load { (before : Registers) (n : ℕ) (target : PointerParts) → IsSound before
        → before.ring ≤ target.ring → target.further ≡ false → IsSound (loaded before n target) }
{}

/// Every pointer in the registers can be stored in a word: so it is at the start, and a call, a return and a load leave
/// it so, where their target has a word.
pub fn registers_stay_packable()
    ensures opening { ArePackable opening_registers }
    ensures call { (before after : Registers) (target : PointerParts) (d : Descriptor) → length before.pr ≡ 8
        → ArePackable before → IsPackable target → IsCalled before target d after → ArePackable after }
    ensures ret { (before after : Registers) (target : PointerParts) → ArePackable before → IsPackable target
        → IsReturned before target after → ArePackable after }
    ensures load { (before : Registers) (n : ℕ) (target : PointerParts) → ArePackable before → IsPackable target
        → ArePackable (loaded before n target) }
{}

/// A granted call never raises the current ring. It lowers it only through a gate, into the second bracket, where the
/// target's ring is an effective one, which is never below the current ring.
pub fn rings_fall_through_gates()
    ensures never_raised { (before after : Registers) (target : PointerParts) (d : Descriptor)
        → IsOk (call_judgement before target d) → IsCalled before target d after → after.ring ≤ before.ring }
    ensures gate { (before after : Registers) (target : PointerParts) (d : Descriptor)
        → IsOk (call_judgement before target d) → IsCalled before target d after
        → before.ring ≤ target.ring → after.ring < before.ring → IsGate target d × (after.ring ≡ d.brackets.r2) }
{}

/// A granted return never lowers the current ring, where the target's ring is an effective one.
pub fn returns_never_lower_the_ring()
    ensures { (before after : Registers) (target : PointerParts)
        → IsReturned before target after → before.ring ≤ target.ring → before.ring ≤ after.ring }
{}
