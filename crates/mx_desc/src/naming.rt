//! Which shared words a run is over.

ghost use Rattle.std.specs.Prelude.{ℕ, []};
ghost use Rattle.atomic_table.specs.Seated.{TableId};
ghost use Rattle.mx_rule.specs.declared.layout.Layout.{Layout};

use std::marker::Brand;
use std::sync::ledger::Ledger;

/// Names the shared table of a run, which word of it is which, how many entries came before it opened, and the ledger
/// of own entries: so the types of all who share the table say that they are of one run.
pub trait Naming: Ledger {
    ghost table: { TableId };

    ghost layout: { Layout };

    ghost start: { ℕ };
}

impl Naming for Brand {
    ghost table = { record { words = 0; slots = 0; views_name = 0; atom = 0; block = 0; offset = 0; slot_names = [] } };

    ghost layout = { record { processes = 0; numbers = 0 } };

    ghost start = { 0 };
}
