//! Numbers that may be none, and the deeds of a process.

ghost use Rattle.std.specs.Prelude.{◌≡◌};
ghost use Rattle.mx_stores.specs.Least.{is_by, least};
ghost use Rattle.mx_stores.specs.Parts.{deeds_of};

use crate::deeds::Deed;
use mx_list::Sequence;

pub(crate) fn least(a: Option<u32>, b: Option<u32>) -> Option<u32>
    ensures { result ≡ least a b }
{
    match (a, b) {
        (None, b) => b,
        (Some(a), None) => Some(a),
        (Some(a), Some(b)) => Some(a.min(b)),
    }
}

/// Whether it is at most `q`; none is beyond all.
pub(crate) fn is_by(number: Option<u32>, q: u32) -> bool
    ensures { result ≡ is_by number q }
{
    match number {
        None => false,
        Some(number) => number <= q,
    }
}

/// The deeds of process `p`; none beyond the parts.
pub(crate) fn part_of(parts: &[Sequence<Deed>], p: usize) -> &[Deed]
    ensures { result.now ≡ deeds_of parts.now p }
{
    match parts.get(p) {
        None => &[],
        Some(part) => part.items(),
    }
}
