//! The numbers of segments, by uid.
ghost use Rattle.std.specs.Prelude.{◌≡◌, ◌==◌, ◌&&◌, ◌+◌, ◌<◌, ◌≤◌, ℕ, true, None, Some, if◌then◌else◌};
ghost use Rattle.indexmap.specs.IndexMap.{get, spare};

use crate::segments::Known;
use indexmap::IndexMap;

/// Adds the number of a segment that gets it now. Takes no memory.
pub(crate) fn add_number(numbers: &mut IndexMap<u32, u16>, known: &Known, uid: u32)
    requires { known.now.fresh ≡ true → 0 < spare numbers.old }
    ensures numbers { (q : ℕ) → get ◌==◌ numbers.new q
        ≡ (if known.now.fresh && (uid == q) then Some known.now.segno else get ◌==◌ numbers.old q) }
    ensures room { spare numbers.old ≤ spare numbers.new + (if known.now.fresh then 1 else 0) }
{
    if known.fresh {
        numbers.insert(uid, known.segno).unwrap();
    }
}

/// Takes away the number of a segment.
pub(crate) fn take_number(numbers: &mut IndexMap<u32, u16>, uid: u32)
    ensures numbers { (q : ℕ) → get ◌==◌ numbers.new q ≡ (if uid == q then None else get ◌==◌ numbers.old q) }
    ensures room { spare numbers.old ≤ spare numbers.new }
{
    numbers.swap_remove(&uid);
}
