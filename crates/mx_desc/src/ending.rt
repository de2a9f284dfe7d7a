//! The end: what the supervisor knows of the processes whose passes came back is right.

ghost use Rattle.std.specs.Prelude.{◌≡◌};
ghost use Rattle.mx_rule.specs.Ending.{IsRightEnd};

use crate::naming::Naming;
use crate::supers::Super;
use mx_rule::Words;

/// Gives the words back. What the processes did whose passes came back is right on the tables and by the read rule, and
/// each was told of a front of the history. Condition: the words are those of the run.
pub fn close<E, B: Naming>(words: Words<E>, chief: Super<E, B>)
    requires fits { words.shared.table_id ≡ B.table }
    requires slots { words.shared.table_id.slots ≡ 0 }
    ensures { IsRightEnd chief }
{
    let Super {
        seat,
        slots: _,
        run: _,
    } = chief;
    mx_rule::close(words, seat);
}
