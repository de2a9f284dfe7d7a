//! The end: what the supervisor knows of the processes whose seats came back is right.

ghost use Rattle.std.specs.Prelude.{◌≡◌};
ghost use Rattle.mx_rule.specs.Ending.{IsRightEnd};
ghost use Rattle.mx_rule.specs.Seats.{super_of};

use crate::office::SuperSeat;
use crate::opening::Words;

/// Gives the words back. What processes did whose seats came back is right, and each was told of a front of the history.
pub fn close<E>(words: Words<E>, seat: SuperSeat<E>)
    requires fits { seat.seat.table_id ≡ words.shared.table_id }
    requires slots { words.shared.table_id.slots ≡ 0 }
    ensures { IsRightEnd (super_of seat.seat.me.0) }
{
    let SuperSeat {
        seat,
        layout: _,
        start: _,
        answered: _,
        length: _,
        looks: _,
        next: _,
    } = seat;
    words.close_with(seat).free();
}
