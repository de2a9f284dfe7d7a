//! The seat of a process: it goes in, reads whether its memory still stands, and goes out.

ghost use Rattle.std.specs.Prelude.{◌≡◌, ◌≢◌, ◌≤◌, ◌<◌, ℕ, ◌==◌, not, [], true, false};
ghost use Rattle.mx_core.specs.Entering.{next_turn};
ghost use Rattle.mx_core.specs.declared.words.Stage.TheVariants.{Outside, Entering};
ghost use Rattle.mx_rule.specs.Entering.{entered_view, connected_view, left_view};
ghost use Rattle.mx_rule.specs.Holding.{held_at};
ghost use Rattle.mx_rule.specs.Parts.{words_in};
ghost use Rattle.mx_rule.specs.Seats.{pass_of};
ghost use Rattle.mx_rule.specs.declared.views.View.TheVariants.{Pass};

use crate::layout::Layout;
use crate::rule::Board;
use crate::views::View;
use atomic_table::{Play, Seat};

/// The flag is raised.
pub struct Enters;

impl<E> Play<E, View<E>> for Enters {
    ghost then = { λ st me n after. after ≡ (Pass (entered_view (pass_of me.0)), []) };
}

/// The connect word is read.
pub struct Connects;

impl<E> Play<E, View<E>> for Connects {
    ghost then = { λ st me n after. after ≡ (Pass (connected_view n (pass_of me.0)), []) };
}

/// The flag is lowered.
pub struct Leaves;

impl<E> Play<E, View<E>> for Leaves {
    ghost then = { λ st me n after. after ≡ (Pass (left_view (pass_of me.0)), []) };
}

/// The seat of a process: its place at the shared table, with what its calls need.
#[derive(Drop)]
pub struct PassSeat<E> {
    pub seat: Seat<E, View<E>>,
    /// Which word is which.
    pub layout: Layout,
    /// The process.
    pub process: u8,
    pub(crate) start: u32,
    /// Of how many entries it was told.
    pub floor: u32,
    pub(crate) turn: u64,
    pub(crate) cleared: u64,
    pub(crate) cell: Option<u16>,
    pub ghost posed: { seat.me ≡ (Pass (pass_of seat.me.0), []) },
    pub ghost wide: { words_in layout ≤ seat.table_id.words },
    pub ghost process_is: { (pass_of seat.me.0).process ≡ process },
    pub ghost turn_is: { (pass_of seat.me.0).turn ≡ turn },
    pub ghost cleared_is: { (pass_of seat.me.0).cleared ≡ cleared },
    pub ghost start_is: { (pass_of seat.me.0).start ≡ start },
    pub ghost floor_is: { (pass_of seat.me.0).floor ≡ floor },
    pub ghost cell_is: { held_at (pass_of seat.me.0).basis (pass_of seat.me.0).hold ≡ cell },
    pub ghost low: { 1 ≤ process },
    pub ghost high: { process ≤ layout.processes },
    pub ghost few: { layout.processes ≤ 15 },
    pub ghost begun: { start ≤ 262143 },
    pub ghost limit: { floor ≤ 262143 },
}

/// The turn after a turn: from 1 to the greatest u64, and then anew.
fn turn_after(turn: u64) -> u64
    ensures { result ≡ next_turn turn }
{
    if turn == u64::MAX { 1 } else { turn + 1 }
}

impl<E> PassSeat<E> {
    /// Raises the flag to the next turn. Condition: the process is outside.
    pub fn enter(&mut self, shared: &Board<E>)
        requires fits { self.old.seat.table_id ≡ shared.now.table_id }
        requires layout { shared.now.key.layout ≡ self.old.layout }
        requires outside { (pass_of self.old.seat.me.0).stage ≡ Outside }
        ensures view { pass_of self.new.seat.me.0 ≡ entered_view (pass_of self.old.seat.me.0) }
        ensures place { self.new.seat.table_id ≡ self.old.seat.table_id }
        ensures layout { self.new.layout ≡ self.old.layout }
    {
        let turn = turn_after(self.turn);
        let word = self.layout.flag(self.process);
        shared.store::<Enters>(&mut self.seat, word, turn);
        self.turn = turn;
        self.cell = None;
    }

    /// Reads the connect word, and says whether the memory was emptied. Condition: the flag was just raised.
    pub fn load_connect(&mut self, shared: &Board<E>) -> bool
        requires fits { self.old.seat.table_id ≡ shared.now.table_id }
        requires layout { shared.now.key.layout ≡ self.old.layout }
        requires entering { (pass_of self.old.seat.me.0).stage ≡ Entering }
        ensures view { pass_of self.new.seat.me.0
            ≡ connected_view (pass_of self.new.seat.me.0).cleared (pass_of self.old.seat.me.0) }
        ensures emptied { result ≡ not ((pass_of self.new.seat.me.0).cleared == (pass_of self.old.seat.me.0).cleared) }
        ensures place { self.new.seat.table_id ≡ self.old.seat.table_id }
        ensures layout { self.new.layout ≡ self.old.layout }
    {
        let word = self.layout.connect_word(self.process);
        let found = shared.load::<Connects>(&mut self.seat, word);
        let emptied = found != self.cleared;
        self.cleared = found;
        emptied
    }

    /// Lowers the flag. Condition: the process is inside.
    pub fn leave(&mut self, shared: &Board<E>)
        requires fits { self.old.seat.table_id ≡ shared.now.table_id }
        requires layout { shared.now.key.layout ≡ self.old.layout }
        requires inside { (pass_of self.old.seat.me.0).stage ≢ Outside }
        ensures view { pass_of self.new.seat.me.0 ≡ left_view (pass_of self.old.seat.me.0) }
        ensures place { self.new.seat.table_id ≡ self.old.seat.table_id }
        ensures layout { self.new.layout ≡ self.old.layout }
    {
        let word = self.layout.flag(self.process);
        shared.store::<Leaves>(&mut self.seat, word, 0);
        self.cell = None;
    }
}
