//! The cell step of a granted reference: the cell is read, or a value stored in it.

ghost use Rattle.std.specs.Prelude.{◌≡◌, ◌≤◌, [], is_some};
ghost use Rattle.mx_core.specs.Judging.{loads};
ghost use Rattle.mx_rule.specs.Codes.{IsCellCode};
ghost use Rattle.mx_rule.specs.Holding.{IsHeld, held_at, read_held, stored_held};
ghost use Rattle.mx_rule.specs.Seats.{pass_of};
ghost use Rattle.mx_rule.specs.declared.views.View.TheVariants.{Pass};
ghost use Rattle.mx_sdw.specs.CellWords.{value_in};
ghost use Rattle.mx_sdw.specs.Operations.{writes};

use crate::decoding::cell_in;
use crate::passes::PassSeat;
use crate::rule::Board;
use crate::views::View;
use atomic_table::Play;
use mx_sdw::{CellWord, Word};

/// The cell of a granted read is read.
pub struct Reads;

impl<E> Play<E, View<E>> for Reads {
    ghost then = { λ st me n after. (after ≡ (Pass (read_held n (pass_of me.0)), [])) × IsCellCode n };
}

/// A value is stored in the cell of a granted write.
pub struct Stores;

impl<E> Play<E, View<E>> for Stores {
    ghost then = { λ st me n after. after ≡ (Pass (stored_held (value_in n) (pass_of me.0)), []) };
}

impl<E> PassSeat<E> {
    /// Whether a read or write is held: it was granted, and its cell step is still to come.
    #[inline(always)]
    pub fn holds(&self) -> bool
        ensures { result ≡ is_some (held_at (pass_of self.now.seat.me.0).basis (pass_of self.now.seat.me.0).hold) }
    {
        self.cell.is_some()
    }

    /// Reads the cell of the read that was granted, and gives what it holds. Condition: a read is held.
    #[inline(always)]
    pub fn load_cell(&mut self, shared: &Board<E>) -> CellWord
        requires fits { self.old.seat.table_id ≡ shared.now.table_id }
        requires layout { shared.now.key.layout ≡ self.old.layout }
        requires held { IsHeld (pass_of self.old.seat.me.0) loads }
        ensures view { pass_of self.new.seat.me.0 ≡ read_held result (pass_of self.old.seat.me.0) }
        ensures says { IsCellCode result }
        ensures place { self.new.seat.table_id ≡ self.old.seat.table_id }
        ensures layout { self.new.layout ≡ self.old.layout }
    {
        let cell = self.cell.unwrap();
        let word = self.layout.cell(cell);
        let found = shared.load::<Reads>(&mut self.seat, word);
        let held = cell_in(found);
        self.floor = self.floor.max(held.stamp());
        self.cell = None;
        held
    }

    /// Stores a value in the cell of the write that was granted, with the process and its floor. Condition: a write is
    /// held.
    #[inline(always)]
    pub fn store_cell(&mut self, shared: &Board<E>, value: Word)
        requires fits { self.old.seat.table_id ≡ shared.now.table_id }
        requires layout { shared.now.key.layout ≡ self.old.layout }
        requires held { IsHeld (pass_of self.old.seat.me.0) writes }
        ensures view { pass_of self.new.seat.me.0 ≡ stored_held value (pass_of self.old.seat.me.0) }
        ensures place { self.new.seat.table_id ≡ self.old.seat.table_id }
        ensures layout { self.new.layout ≡ self.old.layout }
    {
        let cell = self.cell.unwrap();
        let word = self.layout.cell(cell);
        let code = CellWord::new(value, self.process, self.floor).number();
        shared.store::<Stores>(&mut self.seat, word, code);
        self.cell = None;
    }
}
