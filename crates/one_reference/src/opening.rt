//! Two processes, of which each knows one segment of 64 words as number 8.

ghost use Rattle.std.specs.Prelude.{◌≡◌, IfOk};
ghost use Rattle.mx_rule.specs.Openings.{MayOpen};
ghost use Rattle.mx_sdw.specs.Admissible.{IsAdmissible};

use mx_core::Change;
use mx_list::Sequence;
use mx_rule::{Key, Layout};
use mx_sdw::{Brackets, Desc, Ring};
use std::alloc::{AllocError, Global};

/// The segment, which processes read and write up to this ring.
fn segment(ring: Ring) -> Desc
    ensures { IsAdmissible result }
{
    let brackets = Brackets::new(ring, ring, ring).unwrap();
    Desc::segment(brackets, true, false, true, 0, 20, 64)
}

/// A table of shared words where the segment is known to both.
pub fn opened(alloc: Global, ring: Ring) -> Result<Key, AllocError>
    ensures may { IfOk result (λ key. MayOpen key.layout key.start key.base) }
    ensures processes { IfOk result (λ key. key.layout.processes ≡ 2) }
{
    let mut base = Sequence::new(alloc);
    base.push(Change {
        process: 1,
        segno: 8,
        desc: segment(ring),
    })?;
    base.push(Change {
        process: 2,
        segno: 8,
        desc: segment(ring),
    })?;
    let layout = Layout {
        processes: 2,
        numbers: 128,
    };
    Ok(Key {
        layout,
        start: 0,
        base,
    })
}
