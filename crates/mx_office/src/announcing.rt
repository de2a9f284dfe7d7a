//! An entry of a process is announced, with the supervisor and the pass in hand.

ghost use Rattle.std.specs.Prelude.{◌≡◌, ◌+◌, length};
ghost use Rattle.mx_office.specs.Announcing.{IsAnnounced, MayAnnounce, announced_view, coming};
ghost use Rattle.mx_rule.specs.Notes.{noting_view};
ghost use Rattle.mx_rule.specs.Shown.{office_of};
ghost use Rattle.mx_rule.specs.Telling.{AreRightWords};

use crate::clearing::clear_pages;
use crate::revoking::revoke;
use crate::settling::settle_own;
use mx_core::{Changes, Runs};
use mx_desc::{Naming, Pass, Super};
use mx_pages::PageRun;
use mx_rule::Board;
use std::sync::Wait;

/// Announces an entry of the pass's process: it comes, the access that it changed is taken away and the entry answered,
/// the pages that it freed are cleared, its own process's words settled, and the process told. Waits for the processes
/// whose access it changed; takes no memory. Conditions: what `MayAnnounce` says.
pub fn announce<R: Wait, E, B: Naming>(
    rt: &R,
    chief: &mut Super<E, B>,
    pass: &mut Pass<E, B>,
    shared: &Board<E>,
    changes: &Changes,
    given: &Runs,
    freed: Option<PageRun>,
    entry: &E,
)
    requires fits { shared.now.table_id ≡ B.table }
    requires layout { shared.now.key.layout ≡ B.layout }
    requires may { MayAnnounce (coming pass.old.view.process changes.now given.now freed entry.now) chief.old
        pass.old.view }
    ensures view { chief.new ≡ noting_view (announced_view
        (coming pass.old.view.process changes.now given.now freed entry.now) chief.old) }
    ensures words { AreRightWords (office_of chief.new) }
    ensures told { IsAnnounced (coming pass.old.view.process changes.now given.now freed entry.now) chief.old
        pass.old.view pass.new.view }
    ensures pass { pass.new ≡ record pass.old { view = pass.new.view } }
{
    let process = pass.process();
    // The supervisor is asked for what its type says of its layout and its length.
    let (_layout, _length) = (chief.layout(), chief.length());
    chief.append(shared, process, changes, given, entry);
    revoke(rt, chief, shared, changes.items());
    clear_pages(chief, shared, freed);
    settle_own(chief, shared, process, changes.items());
    let note = chief.split(shared);
    pass.join(shared, note);
}
