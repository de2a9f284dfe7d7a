//! Append: the supervisor adds an entry of the journal.

ghost use Rattle.std.specs.Prelude.{◌≡◌, ◌≤◌, ℕ, List, []};
ghost use Rattle.mx_core.specs.declared.changes.Change.{Change as ChangeValue};
ghost use Rattle.mx_core.specs.declared.changes.Run.{Run as RunValue};
ghost use Rattle.mx_rule.specs.Appending.{Announces, MayAppend, appended_view};
ghost use Rattle.mx_rule.specs.Seats.{super_of};
ghost use Rattle.mx_rule.specs.Shown.{office_of};
ghost use Rattle.mx_rule.specs.declared.views.View.TheVariants.{Super};

use crate::office::SuperSeat;
use crate::rule::Board;
use crate::views::View;
use atomic_table::Play;
use mx_core::{Changes, Runs};
use std::marker::{Brand, PhantomData};

/// An entry: whose it is, what it changes, and which pages it gives out. Each call names its own.
pub trait Entry {
    ghost process: { ℕ };

    ghost changes: { List ChangeValue };

    ghost given: { List RunValue };
}

impl Entry for Brand {
    ghost process = { 0 };

    ghost changes = { [] };

    ghost given = { [] };
}

/// The count of entries grows by one, and the entry is announced.
pub struct Appends<J: Entry> {
    of: PhantomData<J>,
}

impl<E, J: Entry> Play<E, View<E>> for Appends<J> {
    ghost then = { λ st me n after. (n ≡ st.first) × Announces st.said (λ entry. after
        ≡ (Super (appended_view J.process J.changes J.given entry (super_of me.0)), [])) };
}

impl<E> SuperSeat<E> {
    /// Adds an entry, whose changes are then pending. Condition: nothing is pending, and what `MayAppend` says of the
    /// entry, as of the journal's limit, of clean cells and of ready pages. The entry is announced and not kept: it
    /// stands in the view of the seat, with its mark.
    pub fn append(
        &mut self,
        shared: &Board<E>,
        process: u8,
        changes: &Changes,
        given: &Runs,
        entry: &E,
    )
        requires fits { self.old.seat.table_id ≡ shared.now.table_id }
        requires layout { shared.now.key.layout ≡ self.old.layout }
        requires may { MayAppend (office_of (super_of self.old.seat.me.0)) process changes.now given.now }
        ensures view { super_of self.new.seat.me.0
            ≡ appended_view process changes.now given.now entry.now (super_of self.old.seat.me.0) }
        ensures place { self.new.seat.table_id ≡ self.old.seat.table_id }
        ensures layout { self.new.layout ≡ self.old.layout }
    {
        self.append_for::<Brand>(shared, process, changes, given, entry);
    }

    fn append_for<J: Entry>(
        &mut self,
        shared: &Board<E>,
        process: u8,
        changes: &Changes,
        given: &Runs,
        entry: &E,
    )
        requires fits { self.old.seat.table_id ≡ shared.now.table_id }
        requires layout { shared.now.key.layout ≡ self.old.layout }
        requires entry { (J.process ≡ process) × (J.changes ≡ changes.now) × (J.given ≡ given.now) }
        requires may { MayAppend (office_of (super_of self.old.seat.me.0)) process changes.now given.now }
        ensures view { super_of self.new.seat.me.0
            ≡ appended_view process changes.now given.now entry.now (super_of self.old.seat.me.0) }
        ensures place { self.new.seat.table_id ≡ self.old.seat.table_id }
        ensures layout { self.new.layout ≡ self.old.layout }
    {
        let word = self.layout.count();
        let length = self.length + 1;
        shared.compare_exchange_with::<Appends<J>>(
            &mut self.seat,
            word,
            u64::from(self.length),
            u64::from(length),
            entry,
        );
        self.length = length;
    }
}
