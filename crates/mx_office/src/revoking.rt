//! From an entry's coming to its answer: the words of the pairs that it changed are struck, and their processes told to
//! empty their memories and waited for.

ghost use Rattle.std.specs.Prelude.{◌≡◌, ◌<◌};
ghost use Rattle.mx_desc.specs.Supers.{IsWaiting};
ghost use Rattle.mx_office.specs.Revoking.{AreAcknowledged, AreListed, MayAcknowledgeAll, MayConnectAll, MayStrikeAll, connected_views, revoked_view, struck_views};
ghost use Rattle.mx_rule.specs.Shown.{office_of};

use mx_core::Change;
use mx_desc::{Naming, Super};
use mx_rule::Board;
use std::sync::Wait;

/// Strikes the words of the changed pairs.
fn strike_all<E, B: Naming>(chief: &mut Super<E, B>, shared: &Board<E>, changes: &[Change])
    requires fits { shared.now.table_id ≡ B.table }
    requires layout { shared.now.key.layout ≡ B.layout }
    requires may { MayStrikeAll (office_of chief.old) changes.now }
    ensures { chief.new ≡ struck_views changes.now chief.old }
{
    match changes {
        [] => {},
        [change, rest @ ..] => {
            chief.strike(shared, change.process, change.segno);
            strike_all(chief, shared, rest);
        },
    }
}

/// Tells the processes of the changed pairs to empty their memories.
fn connect_all<E, B: Naming>(chief: &mut Super<E, B>, shared: &Board<E>, changes: &[Change])
    requires fits { shared.now.table_id ≡ B.table }
    requires layout { shared.now.key.layout ≡ B.layout }
    requires may { MayConnectAll (office_of chief.old) changes.now }
    ensures { chief.new ≡ connected_views changes.now chief.old }
{
    match changes {
        [] => {},
        [change, rest @ ..] => {
            chief.connect(shared, change.process);
            connect_all(chief, shared, rest);
        },
    }
}

/// Waits until the processes of the changed pairs use the old access no more.
fn await_all<R: Wait, E, B: Naming>(
    rt: &R,
    chief: &mut Super<E, B>,
    shared: &Board<E>,
    changes: &[Change],
)
    requires fits { shared.now.table_id ≡ B.table }
    requires layout { shared.now.key.layout ≡ B.layout }
    requires may { MayAcknowledgeAll (office_of chief.old) changes.now }
    ensures waiting { IsWaiting chief.old chief.new }
    ensures left { AreAcknowledged (office_of chief.new) changes.now }
{
    match changes {
        [] => {},
        [change, rest @ ..] => {
            chief.acknowledge(rt, shared, change.process);
            await_all(rt, chief, shared, rest);
        },
    }
}

/// Takes the access away that the pending entry changed, and answers the entry. Conditions: an entry is pending, and
/// the changes are pairs that it changed, all of them.
pub fn revoke<R: Wait, E, B: Naming>(
    rt: &R,
    chief: &mut Super<E, B>,
    shared: &Board<E>,
    changes: &[Change],
)
    requires fits { shared.now.table_id ≡ B.table }
    requires layout { shared.now.key.layout ≡ B.layout }
    requires pending { chief.old.answered < chief.old.length }
    requires may { MayStrikeAll (office_of chief.old) changes.now }
    requires listed { AreListed (office_of chief.old) changes.now }
    ensures { chief.new ≡ revoked_view changes.now chief.old }
{
    strike_all(chief, shared, changes);
    connect_all(chief, shared, changes);
    await_all(rt, chief, shared, changes);
    chief.answer(shared);
}
