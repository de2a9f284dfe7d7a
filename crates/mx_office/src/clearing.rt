//! Pages that an entry freed are cleared before they may be given out again.

ghost use Rattle.std.specs.Prelude.{◌≡◌, ◌≤◌, ◌<◌, ◌+◌, ℕ, IsTrue, IfSome};
ghost use Rattle.mx_core.specs.Pages.{covers, page_of};
ghost use Rattle.mx_office.specs.Clearing.{AreBare, cleared_cells, cleared_pages};
ghost use Rattle.mx_pages.specs.Runs.{IsPageRun};
ghost use Rattle.mx_rule.specs.Shown.{office_of};

use mx_desc::{Naming, Super};
use mx_pages::PageRun;
use mx_rule::Board;

/// Makes the cells of the pages of a run zero. Conditions: nothing is pending, and no descriptor covers a page of it.
pub fn clear_pages<E, B: Naming>(chief: &mut Super<E, B>, shared: &Board<E>, run: Option<PageRun>)
    requires fits { shared.now.table_id ≡ B.table }
    requires layout { shared.now.key.layout ≡ B.layout }
    requires rest { chief.old.length ≤ chief.old.answered }
    requires run { IfSome run IsPageRun }
    requires bare { AreBare (office_of chief.old) run }
    ensures { chief.new ≡ cleared_pages run chief.old }
{
    match run {
        None => {},
        Some(run) => {
            let (first, count) = (64 * u32::from(run.first), 64 * u32::from(run.count));
            clear_cells(chief, shared, first, count);
        },
    }
}

/// Makes so many cells from this one on zero.
fn clear_cells<E, B: Naming>(chief: &mut Super<E, B>, shared: &Board<E>, first: u32, count: u32)
    requires fits { shared.now.table_id ≡ B.table }
    requires layout { shared.now.key.layout ≡ B.layout }
    requires rest { chief.old.length ≤ chief.old.answered }
    requires range { first + count ≤ 65536 }
    requires bare { (cell : ℕ) → first ≤ cell → cell < first + count → (p n : ℕ)
        → IsTrue (covers ((office_of chief.old).table chief.old.length p n) (page_of cell)) → ⊥ }
    ensures { chief.new ≡ cleared_cells first count chief.old }
{
    for i in 0..count {
        chief.clear(shared, first + i);
    }
}
