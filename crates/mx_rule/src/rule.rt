//! The rule, as the shared table keeps it.

ghost use Rattle.mx_rule.specs.Dealing.{opening_view};
ghost use Rattle.mx_rule.specs.Rule.{Holds};
ghost use Rattle.mx_rule.specs.declared.views.View.TheVariants.{Super};

use crate::layout::Layout;
use crate::views::View;
use atomic_table::{Shared, TableRule};
use mx_core::Changes;

/// What a shared table opened with: its layout, after how many entries, and its descriptors, as changes of a table
/// where all is unknown.
#[derive(Debug, Drop)]
pub struct Key {
    /// The processes and their numbers.
    pub layout: Layout,
    /// How many entries came before.
    pub start: u32,
    /// The descriptors at the opening.
    pub base: Changes,
}

/// The world that words and views show is good.
pub struct Law;

impl<E> TableRule<E, View<E>, Key> for Law {
    ghost holds = { λ key. Holds key.layout };

    ghost first = { λ key. Super (opening_view key.layout.processes key.layout.numbers key.start key.base) };
}

/// The table that all share. `E` is the type of the journal's entries.
pub type Board<E> = Shared<E, View<E>, Key, Law>;
