//! The supervisor at the shared words: it enters changes of access, and settles them.

ghost use Rattle.std.specs.Prelude.{◌≡◌, ◌≤◌, ◌+◌, ℕ, true, IsTrue, length};
ghost use Rattle.mx_core.specs.Words.{number_of};
ghost use Rattle.mx_core.specs.declared.words.DescriptorWord.TheVariants.{Fault};
ghost use Rattle.mx_desc.specs.Slots.{IsPair, is_fault};
ghost use Rattle.mx_desc.specs.Supers.{IsWaiting};
ghost use Rattle.mx_rule.specs.Acknowledging.{MayAcknowledge, MayAnswer, MayConnect, answered_view, connecting_view};
ghost use Rattle.mx_rule.specs.Appending.{MayAppend, appended_view};
ghost use Rattle.mx_rule.specs.Clearing.{MayClear, cleared_view};
ghost use Rattle.mx_rule.specs.Dealing.{retired_view};
ghost use Rattle.mx_rule.specs.Notes.{last_miss, noted_view, noting_view, reported_view, reporting_view};
ghost use Rattle.mx_rule.specs.Shown.{office_of, reported_of};
ghost use Rattle.mx_rule.specs.Striking.{MayStrike, settled_view, struck_view};
ghost use Rattle.mx_rule.specs.Telling.{AreRightWords};

use crate::naming::Naming;
use crate::notes::Note;
use crate::passes::Pass;
use crate::slots::{Slot, put_changes, set_fault, slot_of};
use crate::waiting::wait;
use mx_core::{Changes, Runs};
use mx_rule::{Board, Layout, SuperSeat};
use std::marker::{Model, PhantomData};
use std::sync::Wait;
use std::sync::ledger::Share;

/// The supervisor in the run that `B` names. `E` is the type of the journal's entries.
#[derive(Drop)]
pub struct Super<E, B: Naming> {
    pub(crate) seat: SuperSeat<E>,
    pub(crate) slots: Vec<Slot>,
    pub(crate) run: PhantomData<B>,
}

impl<E, B: Naming> Model for Super<E, B> {
    ghost use Rattle.mx_desc.specs.Supers.{IsSuper};
    ghost use Rattle.mx_rule.specs.Seats.{super_of};
    ghost use Rattle.mx_rule.specs.declared.views.SuperView.{SuperView};

    ghost Value = { SuperView E };

    ghost view = { λ a. super_of a.seat.seat.me.0 };

    ghost invariant = { λ a. IsSuper B.table a.seat.seat.table_id B.layout a.seat.layout B.start
        (super_of a.seat.seat.me.0) a.slots.items };
}

impl<E, B: Naming> Super<E, B> {
    /// Which word is which: the supervisor has the processes and numbers of the run's table.
    pub fn layout(&self) -> Layout
        ensures layout { result ≡ B.layout }
        ensures processes { self.now.processes ≡ B.layout.processes }
        ensures numbers { self.now.numbers ≡ B.layout.numbers }
    {
        self.seat.layout
    }

    /// How many entries there are: those before the opening, and those of the history.
    pub fn length(&self) -> u32
        ensures value { result ≡ self.now.length }
        ensures begun { self.now.start ≡ B.start }
        ensures counted { B.start + length self.now.history ≡ self.now.length }
        ensures answered { self.now.answered ≤ self.now.length }
        ensures limit { self.now.length ≤ 262143 }
    {
        self.seat.length
    }

    /// Adds an entry of a process, whose changes are then pending. Condition: nothing is pending, and what `MayAppend`
    /// says of the entry. The entry is announced and not kept: it stands in the history as contracts see it, with its
    /// mark.
    pub fn append(
        &mut self,
        shared: &Board<E>,
        process: u8,
        changes: &Changes,
        given: &Runs,
        entry: &E,
    )
        requires fits { shared.now.table_id ≡ B.table }
        requires layout { shared.now.key.layout ≡ B.layout }
        requires may { MayAppend (office_of self.old) process changes.now given.now }
        ensures { self.new ≡ appended_view process changes.now given.now entry.now self.old }
    {
        self.seat.append(shared, process, changes, given, entry);
        put_changes(&mut self.slots, &self.seat.layout, changes.items());
    }

    /// Strikes the word of a changed pair. Condition: an entry is pending that changes the pair.
    pub fn strike(&mut self, shared: &Board<E>, process: u8, segno: u16)
        requires fits { shared.now.table_id ≡ B.table }
        requires layout { shared.now.key.layout ≡ B.layout }
        requires may { MayStrike (office_of self.old) process segno }
        ensures { self.new ≡ struck_view process segno self.old }
    {
        self.seat.strike(shared, process, segno);
        let fault = Some(self.seat.length);
        set_fault(&mut self.slots, &self.seat.layout, process, segno, fault);
    }

    /// Tells a process by its connect word to empty its memory. Condition: an entry is pending that changes a pair of
    /// it, and each changed pair of it is struck.
    pub fn connect(&mut self, shared: &Board<E>, process: u8)
        requires fits { shared.now.table_id ≡ B.table }
        requires layout { shared.now.key.layout ≡ B.layout }
        requires may { MayConnect (office_of self.old) process }
        ensures { self.new ≡ connecting_view process self.old }
    {
        self.seat.connect(shared, process);
    }

    /// Waits until a process uses the old access no more: it is found outside, or with another turn than before. This
    /// call alone waits. Condition: a change is pending, and the process is connected.
    pub fn acknowledge<R: Wait>(&mut self, rt: &R, shared: &Board<E>, process: u8)
        requires fits { shared.now.table_id ≡ B.table }
        requires layout { shared.now.key.layout ≡ B.layout }
        requires may { MayAcknowledge (office_of self.old) process }
        ensures waiting { IsWaiting self.old self.new }
        ensures left { IsTrue ((office_of self.new).acknowledged process) }
    {
        wait(rt, &mut self.seat, shared, process);
    }

    /// Answers the pending entry. Condition: every changed word is struck, and its process has acknowledged.
    pub fn answer(&mut self, shared: &Board<E>)
        requires fits { shared.now.table_id ≡ B.table }
        requires layout { shared.now.key.layout ≡ B.layout }
        requires may { MayAnswer (office_of self.old) }
        ensures { self.new ≡ answered_view self.old }
    {
        self.seat.answer(shared);
    }

    /// Whether the descriptor word of a pair is a fault. Condition: the table has the pair.
    pub fn is_fault(&self, process: u8, segno: u16) -> bool
        requires { IsPair B.layout process segno }
        ensures { result ≡ is_fault ((office_of self.now).word process segno) }
    {
        let slot = slot_of(&self.slots, &self.seat.layout, process, segno);
        slot.fault.is_some()
    }

    /// Settles the word of a pair: it becomes the present descriptor, with the number of the fault. Condition: the
    /// table has the pair, nothing is pending, and the word is a fault.
    pub fn settle(&mut self, shared: &Board<E>, process: u8, segno: u16)
        requires fits { shared.now.table_id ≡ B.table }
        requires layout { shared.now.key.layout ≡ B.layout }
        requires pair { IsPair B.layout process segno }
        requires rest { self.old.length ≤ self.old.answered }
        requires fault { is_fault ((office_of self.old).word process segno) ≡ true }
        ensures { (number : ℕ) → (office_of self.old).word process segno ≡ Fault number
            → self.new ≡ settled_view process segno number self.old }
    {
        let slot = slot_of(&self.slots, &self.seat.layout, process, segno);
        let number = slot.fault.unwrap();
        self.seat.settle(shared, process, segno, number, &slot.desc);
        set_fault(&mut self.slots, &self.seat.layout, process, segno, None);
    }

    /// Makes a cell zero. Condition: the cell is below 65,536, nothing is pending, and no descriptor covers its page.
    pub fn clear(&mut self, shared: &Board<E>, cell: u32)
        requires fits { shared.now.table_id ≡ B.table }
        requires layout { shared.now.key.layout ≡ B.layout }
        requires may { MayClear (office_of self.old) cell }
        ensures { self.new ≡ cleared_view cell self.old }
    {
        self.seat.clear(shared, cell);
    }

    /// Makes a note of what is answered and settled. Condition: nothing is pending. Each descriptor word is right, with
    /// what is known settled.
    pub fn split(&mut self, shared: &Board<E>) -> Note<E, B>
        requires fits { shared.now.table_id ≡ B.table }
        requires layout { shared.now.key.layout ≡ B.layout }
        requires rest { self.old.length ≤ self.old.answered }
        ensures view { self.new ≡ noting_view self.old }
        ensures note { result ≡ noted_view self.old }
        ensures words { AreRightWords (office_of self.new) }
    {
        let seat = self.seat.split(shared);
        Note {
            seat,
            run: PhantomData,
        }
    }

    /// Takes a report of a process. The process was told of answered entries alone, what it did so far is reported, and
    /// where its trace ends with a miss, the word that it missed has at least the number of that miss. It takes no
    /// memory.
    pub fn report(&mut self, shared: &Board<E>, pass: &mut Pass<E, B>)
        requires fits { shared.now.table_id ≡ B.table }
        requires layout { shared.now.key.layout ≡ B.layout }
        ensures view { self.new ≡ reported_view (reporting_view pass.old.view) self.old }
        ensures pass { pass.new ≡ pass.old }
        ensures floor { pass.old.view.floor ≤ self.new.answered }
        ensures reported { length pass.old.view.trace ≤ reported_of self.new.reported pass.old.view.process }
        ensures miss { (last_miss pass.old.view.trace).1
            ≤ number_of ((office_of self.new).word pass.old.view.process (last_miss pass.old.view.trace).0) }
        ensures words { AreRightWords (office_of self.new) }
    {
        let report = pass.report(shared);
        self.seat.report(shared, report);
    }

    /// Takes the pass of a process back, with all that it knows, and gives its share of the ledger.
    pub fn retire(&mut self, shared: &Board<E>, pass: Pass<E, B>) -> Share<B>
        requires fits { shared.now.table_id ≡ B.table }
        requires layout { shared.now.key.layout ≡ B.layout }
        ensures view { self.new ≡ retired_view pass.view self.old }
        ensures amount { result.amount ≡ pass.amount }
        ensures part { result.parts ≡ 1 }
    {
        let Pass {
            seat,
            trace: _,
            basis: _,
            share,
        } = pass;
        self.seat.retire(shared, seat);
        share
    }
}
