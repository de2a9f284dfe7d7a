//! The supervisor waits until a process uses an old access no more.

ghost use Rattle.std.specs.Prelude.{◌≡◌, IsTrue};
ghost use Rattle.mx_desc.specs.Supers.{IsWaiting};
ghost use Rattle.mx_rule.specs.Acknowledging.{MayAcknowledge};
ghost use Rattle.mx_rule.specs.Seats.{super_of};
ghost use Rattle.mx_rule.specs.Shown.{office_of};

use mx_rule::{Board, SuperSeat};
use std::sync::Wait;
use std::thread;

/// Looks at the flag of a connected process until it has left.
pub(crate) fn wait<R: Wait, E>(rt: &R, seat: &mut SuperSeat<E>, shared: &Board<E>, process: u8)
    requires fits { seat.old.seat.table_id ≡ shared.now.table_id }
    requires layout { shared.now.key.layout ≡ seat.old.layout }
    requires may { MayAcknowledge (office_of (super_of seat.old.seat.me.0)) process }
    ensures waiting { IsWaiting (super_of seat.old.seat.me.0) (super_of seat.new.seat.me.0) }
    ensures left { IsTrue ((office_of (super_of seat.new.seat.me.0)).acknowledged process) }
    ensures place { seat.new.seat.table_id ≡ seat.old.seat.table_id }
    ensures layout { seat.new.layout ≡ seat.old.layout }
{
    for _ in rt.forever() {
        if seat.acknowledge(shared, process) {
            return;
        }
        thread::yield_now();
    }
    unreachable!()
}
