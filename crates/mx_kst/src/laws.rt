//! What follows from the definitions alone, of any known segments that are sound, as every table's are.

ghost use Rattle.std.specs.Prelude.{◌≡◌, ◌≤◌, ℕ, List, Option, Some, IfSome, Ok};
ghost use Rattle.mx_kst.specs.Sections.{PlainSection, IsWithinPage};
ghost use Rattle.mx_kst.specs.declared.segments.Known.{Known};
ghost use Rattle.mx_kst.specs.KnownSegments.{KnownSegments, IsSound};
ghost use Rattle.mx_kst.specs.Initiating.{initiate, IsInitiated};
ghost use Rattle.mx_kst.specs.Terminating.{terminate, IsTerminated};

/// After `initiate` the segment has its number and the number stands for it; a fresh number was never given before; the
/// name stands for the number; and all else that was known stays.
pub fn known_segments_after_initiate()
    ensures words { (before after : KnownSegments) (uid ring : ℕ) (name : Option (List ℕ))
        (section : Option PlainSection) (known : Known) → IsSound before → ring ≤ 7
        → initiate before uid ring name section ≡ Ok (record { known = known; after = after })
        → IsInitiated before uid ring name section known after }
    ensures sound { (before after : KnownSegments) (uid ring : ℕ) (name : Option (List ℕ))
        (section : Option PlainSection) (known : Known) → IsSound before → IfSome section (λ s. IsWithinPage s.page s.words)
        → initiate before uid ring name section ≡ Ok (record { known = known; after = after }) → IsSound after }
{}

/// After `terminate` the number and its linkage section's are free, no name stands for the number in any ring, all else
/// that was known stays, and all numbers given stay given.
pub fn known_segments_after_terminate()
    ensures words { (before after : KnownSegments) (segno : ℕ)
        → IsSound before → terminate before segno ≡ Some after → IsTerminated before segno after }
    ensures sound { (before after : KnownSegments) (segno : ℕ)
        → IsSound before → terminate before segno ≡ Some after → IsSound after }
{}
