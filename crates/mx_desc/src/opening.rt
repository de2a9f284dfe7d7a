//! The opening: the supervisor's seat is given its names, and deals the passes.

ghost use Rattle.std.specs.Prelude.{◌≡◌, ◌+◌, IfOk, length};
ghost use Rattle.mx_desc.specs.Openings.{AreFreshPasses, IsOpening};
ghost use Rattle.mx_rule.specs.Openings.{ArePlaced};
ghost use Rattle.mx_rule.specs.Seats.{super_of};

use crate::naming::Naming;
use crate::passes::Pass;
use crate::slots::opening_slots;
use crate::supers::Super;
use crate::traces::Trace;
use mx_core::Changes;
use mx_list::Sequence;
use mx_rule::{Board, SuperSeat};
use std::alloc::{AllocError, Global};
use std::marker::PhantomData;
use std::sync::ledger::Share;

/// The passes of all processes, from process 1 on.
pub type Passes<E, B> = Sequence<Pass<E, B>>;

/// Makes the supervisor and the passes of all processes of the run that `B` names: from the supervisor's seat of the
/// opening, the descriptors with which it opened, as changes of a table where all is unknown, and the whole share of
/// the ledger, of which each pass gets a part.
pub fn seats<E, B: Naming>(
    alloc: Global,
    shared: &Board<E>,
    chief: SuperSeat<E>,
    base: &Changes,
    share: Share<B>,
) -> Result<(Super<E, B>, Passes<E, B>), AllocError>
    requires fits { shared.now.table_id ≡ B.table }
    requires layout { shared.now.key.layout ≡ B.layout }
    requires place { chief.seat.table_id ≡ B.table }
    requires laid { chief.layout ≡ B.layout }
    requires opening { IsOpening B.start (super_of chief.seat.me.0) }
    requires base { base.now ≡ (super_of chief.seat.me.0).base }
    requires placed { ArePlaced B.layout base.now }
    requires parts { share.parts ≡ B.layout.processes }
    requires amount { share.amount ≡ 0 }
    ensures view { IfOk result (λ made. made.0
        ≡ record (super_of chief.seat.me.0) { next = B.layout.processes + 1 }) }
    ensures passes { IfOk result (λ made. AreFreshPasses B.start 1 made.1) }
    ensures count { IfOk result (λ made. length made.1 ≡ B.layout.processes) }
{
    let slots = opening_slots(alloc, &chief.layout, base.items())?;
    let (mut seat, mut rest) = (chief, share);
    let mut passes = Sequence::new(alloc);
    for dealt in 0..seat.layout.processes {
        let pass = Pass {
            seat: seat.deal(shared),
            trace: Trace::new(alloc),
            basis: None,
            share: rest.split_off(1, 0),
        };
        passes.push(pass)?;
    }
    let chief = Super {
        seat,
        slots,
        run: PhantomData,
    };
    Ok((chief, passes))
}
