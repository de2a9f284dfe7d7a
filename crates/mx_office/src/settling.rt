//! The words of a process that its own entry changed are settled, and a word that it missed.

ghost use Rattle.std.specs.Prelude.{◌≡◌, ◌<◌, ◌≤◌};
ghost use Rattle.mx_office.specs.Settling.{AreStruckLast, ArePairsOnce, IsStruckLast, mended_view, settled_views};
ghost use Rattle.std.specs.Prelude.{[], ◌∷◌};

use mx_core::Change;
use mx_desc::{Naming, Super};
use mx_rule::Board;

/// Settles the word of a changed pair, where it is this process's.
fn settle_one<E, B: Naming>(
    chief: &mut Super<E, B>,
    shared: &Board<E>,
    process: u8,
    change: &Change,
)
    requires fits { shared.now.table_id ≡ B.table }
    requires layout { shared.now.key.layout ≡ B.layout }
    requires may { change.now.process ≡ process → IsStruckLast B.layout chief.old change.now }
    ensures { chief.new ≡ settled_views process (change.now ∷ []) chief.old }
{
    if change.process == process {
        chief.settle(shared, change.process, change.segno);
    }
}

/// Settles the words of this process among the changed pairs: they become what the table has, with the number of the
/// last entry. Conditions: that entry is answered, it struck them, and no pair is listed twice.
pub fn settle_own<E, B: Naming>(
    chief: &mut Super<E, B>,
    shared: &Board<E>,
    process: u8,
    changes: &[Change],
)
    requires fits { shared.now.table_id ≡ B.table }
    requires layout { shared.now.key.layout ≡ B.layout }
    requires may { AreStruckLast B.layout chief.old process changes.now }
    requires once { ArePairsOnce changes.now }
    ensures { chief.new ≡ settled_views process changes.now chief.old }
{
    match changes {
        [] => {},
        [change, rest @ ..] => {
            settle_one(chief, shared, process, change);
            settle_own(chief, shared, process, rest);
        },
    }
}

/// Settles the word of a pair, where the table has it and it is a fault: it becomes the present descriptor, with the
/// number of the fault. Condition: nothing is pending.
pub(crate) fn settle_fault<E, B: Naming>(
    chief: &mut Super<E, B>,
    shared: &Board<E>,
    process: u8,
    segno: u16,
)
    requires fits { shared.now.table_id ≡ B.table }
    requires layout { shared.now.key.layout ≡ B.layout }
    requires low { 1 ≤ process }
    requires high { process ≤ B.layout.processes }
    requires rest { chief.old.length ≤ chief.old.answered }
    ensures within { segno < B.layout.numbers → chief.new ≡ mended_view process segno chief.old }
    ensures beyond { B.layout.numbers ≤ segno → chief.new ≡ chief.old }
{
    if segno < chief.layout().numbers && chief.is_fault(process, segno) {
        chief.settle(shared, process, segno);
    }
}
