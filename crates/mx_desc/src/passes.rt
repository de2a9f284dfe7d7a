//! A process's pass: its place at the shared words, and what it did there.

ghost use Rattle.std.specs.Prelude.{◌≡◌, ◌≢◌, ◌+◌, ◌<◌, ◌≤◌, ◌==◌, true, not, OnOk, OnErr, Some};
ghost use Rattle.mx_core.specs.declared.words.Stage.TheVariants.{Outside, Entering};
ghost use Rattle.mx_core.specs.declared.words.Triple.{Triple as TripleValue};
ghost use Rattle.mx_desc.specs.Passes.{HasBasis, without_trace};
ghost use Rattle.mx_rule.specs.Entering.{connected_view, entered_view, left_view};

use crate::naming::Naming;
use crate::traces::Trace;
use mx_core::{Kept, Triple};
use mx_rule::{Board, PassSeat};
use mx_sdw::Desc;
use std::alloc::AllocError;
use std::marker::Model;
use std::sync::ledger::{Book, Share};

/// A process's pass in the run that `B` names. `E` is the type of the journal's entries.
#[derive(Drop)]
pub struct Pass<E, B: Naming> {
    pub(crate) seat: PassSeat<E>,
    pub(crate) trace: Trace,
    pub(crate) basis: Option<Triple>,
    pub(crate) share: Share<B>,
}

impl<E, B: Naming> Model for Pass<E, B> {
    ghost use Rattle.std.specs.Prelude.{is_some};
    ghost use Rattle.mx_desc.specs.Passes.{PassValue, IsPass};
    ghost use Rattle.mx_rule.specs.Seats.{pass_of};

    ghost Value = { PassValue E };

    ghost view = { λ a. record {
      view = pass_of a.seat.seat.me.0;
      amount = a.share.amount;
      keeps = is_some a.trace.kept;
      spare = a.trace.spare;
    } };

    ghost invariant = { λ a. IsPass B.table a.seat.seat.table_id B.layout a.seat.layout B.start a.share.parts
        (pass_of a.seat.seat.me.0) a.trace.kept a.basis };
}

impl<E, B: Naming> Pass<E, B> {
    /// The process: one of the run's table.
    pub fn process(&self) -> u8
        ensures value { result ≡ self.now.view.process }
        ensures low { 1 ≤ result }
        ensures high { result ≤ B.layout.processes }
    {
        self.seat.process
    }

    /// Of how many entries the process was told.
    pub fn floor(&self) -> u32
        ensures { result ≡ self.now.view.floor }
    {
        self.seat.floor
    }

    /// What the process did, from the opening on: its elements, each with the descriptor on which it was judged, and
    /// its misses. Condition: the trace is kept, as it is from the opening until `forget_trace`.
    pub fn trace(&self) -> &[Kept]
        requires { self.now.keeps ≡ true }
        ensures { result.now ≡ self.now.view.trace }
    {
        self.trace.events()
    }

    /// Gives the memory of the trace back, and keeps none from then on: what the process does then wants no room.
    pub fn forget_trace(&mut self)
        ensures { self.new ≡ without_trace self.old }
    {
        self.trace.forget();
    }

    /// How many segment numbers each process has.
    pub fn numbers(&self) -> u16
        ensures { result ≡ B.layout.numbers }
    {
        self.seat.layout.numbers
    }

    /// The descriptor on which the last reference was judged. Condition: since the process went in, its last reference
    /// was no miss.
    pub fn desc(&self) -> Desc
        requires { HasBasis self.now.view }
        ensures { (on : TripleValue) → self.now.view.basis ≡ Some on → result ≡ on.desc }
    {
        self.basis.unwrap().desc
    }

    /// The entry since which that descriptor stands. Condition: as that of `desc`.
    pub fn basis_number(&self) -> u32
        requires { HasBasis self.now.view }
        ensures { (on : TripleValue) → self.now.view.basis ≡ Some on → result ≡ on.number }
    {
        self.basis.unwrap().number
    }

    /// Makes room for so many more events of the trace. This call alone takes memory, and only where the trace is kept.
    pub fn reserve(&mut self, events: usize) -> Result<(), AllocError>
        ensures room { OnOk result (events ≤ self.new.spare) }
        ensures view { self.new.view ≡ self.old.view }
        ensures amount { self.new.amount ≡ self.old.amount }
        ensures keeps { self.new.keeps ≡ self.old.keeps }
        ensures err { OnErr result (self.new ≡ self.old) }
        ensures wanted { OnErr result (self.old.keeps ≡ true) }
    {
        self.trace.reserve(events)
    }

    /// Goes in: raises the flag to the next turn. Condition: the process is outside.
    pub fn enter(&mut self, shared: &Board<E>)
        requires fits { shared.now.table_id ≡ B.table }
        requires layout { shared.now.key.layout ≡ B.layout }
        requires outside { self.old.view.stage ≡ Outside }
        ensures { self.new ≡ record self.old { view = entered_view self.old.view } }
    {
        self.seat.enter(shared);
        self.basis = None;
    }

    /// Reads the connect word, and says whether the memory was emptied. Condition: the process just went in.
    pub fn load_connect(&mut self, shared: &Board<E>) -> bool
        requires fits { shared.now.table_id ≡ B.table }
        requires layout { shared.now.key.layout ≡ B.layout }
        requires entering { self.old.view.stage ≡ Entering }
        ensures view { self.new ≡ record self.old { view = connected_view self.new.view.cleared self.old.view } }
        ensures emptied { result ≡ not (self.new.view.cleared == self.old.view.cleared) }
    {
        self.seat.load_connect(shared)
    }

    /// Goes out: lowers the flag. Condition: the process is inside.
    pub fn leave(&mut self, shared: &Board<E>)
        requires fits { shared.now.table_id ≡ B.table }
        requires layout { shared.now.key.layout ≡ B.layout }
        requires inside { self.old.view.stage ≢ Outside }
        ensures { self.new ≡ record self.old { view = left_view self.old.view } }
    {
        self.seat.leave(shared);
        self.basis = None;
    }

    /// Counts an entry of the process in the book of own entries. Condition: the book has fewer than 262,143.
    pub fn book(&mut self, book: &mut Book<B>)
        requires { book.old.total < 262143 }
        ensures pass { self.new ≡ record self.old { amount = self.old.amount + 1 } }
        ensures total { book.new.total ≡ book.old.total + 1 }
    {
        book.add(&mut self.share, 1);
    }
}
