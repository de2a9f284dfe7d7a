//! A process judges: on a descriptor word that it loads, or on its memory.

ghost use Rattle.std.specs.Prelude.{◌≡◌, ◌≤◌, ◌<◌, ℕ, [], Some};
ghost use Rattle.mx_core.specs.AssociativeMemory.{recalled};
ghost use Rattle.mx_core.specs.Judging.{at_once};
ghost use Rattle.mx_core.specs.declared.words.Asked.{Asked as AskedValue};
ghost use Rattle.mx_core.specs.declared.words.DescriptorWord.TheVariants.{Valid};
ghost use Rattle.mx_core.specs.declared.words.Stage.TheVariants.{Ready};
ghost use Rattle.mx_core.specs.declared.words.Triple.{Triple as TripleValue};
ghost use Rattle.mx_rule.specs.Codes.{IsCodable, IsWordCode, word_by, word_said};
ghost use Rattle.mx_rule.specs.Loading.{IsNews, judged_view, loaded_view};
ghost use Rattle.mx_rule.specs.Seats.{pass_of};
ghost use Rattle.mx_rule.specs.declared.views.View.TheVariants.{Pass};
ghost use Rattle.mx_sdw.specs.Admissible.{IsAdmissible};
ghost use Rattle.mx_sdw.specs.Descriptors.{unknown_desc};
ghost use Rattle.mx_sdw.specs.declared.descriptor_words.DescView.TheVariants.{Unknown};
ghost use Rattle.mx_sdw.specs.declared.operations.Op.TheVariants.{Read};

use crate::decoding::said;
use crate::holding::{found_cell, held_cell};
use crate::passes::PassSeat;
use crate::rule::Board;
use crate::views::View;
use atomic_table::Play;
use mx_core::{Asked, Triple};
use mx_sdw::{DescView, Op, Ring};
use std::marker::{Brand, PhantomData};

/// What a process asks: of which of so many numbers, and what; and on which entry of its memory it judges. Each call
/// names its own.
pub trait Asking {
    ghost numbers: { ℕ };

    ghost on: { TripleValue };

    ghost asked: { AskedValue };
}

impl Asking for Brand {
    ghost numbers = { 0 };

    ghost on = { record { segno = 0; number = 0; desc = unknown_desc } };

    ghost asked = { record { op = Read; ring = 0; word = 0 } };
}

/// A descriptor word is read, and judged on or missed.
pub struct Loads<J: Asking> {
    of: PhantomData<J>,
}

impl<E, J: Asking> Play<E, View<E>> for Loads<J> {
    ghost then = { λ st me n after. (after
        ≡ (Pass (loaded_view J.numbers J.on.segno J.asked (word_said n) (pass_of me.0)), []))
        × (IsWordCode n × IsNews (pass_of me.0) J.on.segno (word_said n)) };
}

/// A number that the table has not: the process reads its own flag, and judges on the unknown descriptor.
pub struct LoadsNone<J: Asking> {
    of: PhantomData<J>,
}

impl<E, J: Asking> Play<E, View<E>> for LoadsNone<J> {
    ghost then = { λ st me n after. after
        ≡ (
          Pass (loaded_view J.numbers J.on.segno J.asked (Valid (pass_of me.0).start unknown_desc) (pass_of me.0)),
          [],
        ) };
}

/// The process reads its own flag, and judges on its memory.
pub struct Recalls<J: Asking> {
    of: PhantomData<J>,
}

impl<E, J: Asking> Play<E, View<E>> for Recalls<J> {
    ghost then = { λ st me n after. (after
        ≡ (Pass (judged_view (at_once J.on.desc J.asked) J.on J.asked (pass_of me.0)), [])) × IsAdmissible J.on.desc };
}

impl<E> PassSeat<E> {
    /// Reads the descriptor word of a number, and judges on it: what the word says. A word that is missed is news to the
    /// process. A number that the table has not is unknown since the opening. Condition: the process is ready.
    #[inline(always)]
    pub fn load_desc(
        &mut self,
        shared: &Board<E>,
        segno: u16,
        op: Op,
        ring: Ring,
        word: u16,
    ) -> DescView
        requires fits { self.old.seat.table_id ≡ shared.now.table_id }
        requires layout { shared.now.key.layout ≡ self.old.layout }
        requires ready { (pass_of self.old.seat.me.0).stage ≡ Ready }
        ensures view { pass_of self.new.seat.me.0 ≡ loaded_view self.old.layout.numbers segno
            (record { op = op; ring = ring; word = word }) (word_by result) (pass_of self.old.seat.me.0) }
        ensures says { IsCodable (word_by result) }
        ensures news { segno < self.old.layout.numbers
            → IsNews (pass_of self.old.seat.me.0) segno (word_by result) }
        ensures past { self.old.layout.numbers ≤ segno → result ≡ Unknown (pass_of self.old.seat.me.0).start }
        ensures place { self.new.seat.table_id ≡ self.old.seat.table_id }
        ensures layout { self.new.layout ≡ self.old.layout }
    {
        let asked = Asked { op, ring, word };
        if segno < self.layout.numbers {
            self.load_word::<Brand>(shared, segno, &asked)
        } else {
            self.load_none::<Brand>(shared, segno, &asked)
        }
    }

    #[inline(always)]
    fn load_word<J: Asking>(&mut self, shared: &Board<E>, segno: u16, asked: &Asked) -> DescView
        requires fits { self.old.seat.table_id ≡ shared.now.table_id }
        requires layout { shared.now.key.layout ≡ self.old.layout }
        requires ready { (pass_of self.old.seat.me.0).stage ≡ Ready }
        requires asking { (J.numbers ≡ self.old.layout.numbers) × (J.on.segno ≡ segno) × (J.asked ≡ asked.now) }
        requires number { segno < self.old.layout.numbers }
        ensures view { pass_of self.new.seat.me.0
            ≡ loaded_view self.old.layout.numbers segno asked.now (word_by result) (pass_of self.old.seat.me.0) }
        ensures says { IsCodable (word_by result) }
        ensures news { IsNews (pass_of self.old.seat.me.0) segno (word_by result) }
        ensures place { self.new.seat.table_id ≡ self.old.seat.table_id }
        ensures layout { self.new.layout ≡ self.old.layout }
    {
        let word = self.layout.descriptor(self.process, segno);
        let found = shared.load::<Loads<J>>(&mut self.seat, word);
        let view = said(found);
        self.cell = found_cell(&view, self.floor, asked);
        view
    }

    fn load_none<J: Asking>(&mut self, shared: &Board<E>, segno: u16, asked: &Asked) -> DescView
        requires fits { self.old.seat.table_id ≡ shared.now.table_id }
        requires layout { shared.now.key.layout ≡ self.old.layout }
        requires ready { (pass_of self.old.seat.me.0).stage ≡ Ready }
        requires asking { (J.numbers ≡ self.old.layout.numbers) × (J.on.segno ≡ segno) × (J.asked ≡ asked.now) }
        requires past { self.old.layout.numbers ≤ segno }
        ensures view { pass_of self.new.seat.me.0
            ≡ loaded_view self.old.layout.numbers segno asked.now (word_by result) (pass_of self.old.seat.me.0) }
        ensures unknown { result ≡ Unknown (pass_of self.old.seat.me.0).start }
        ensures place { self.new.seat.table_id ≡ self.old.seat.table_id }
        ensures layout { self.new.layout ≡ self.old.layout }
    {
        let word = self.layout.flag(self.process);
        shared.load::<LoadsNone<J>>(&mut self.seat, word);
        let view = DescView::Unknown(self.start);
        self.cell = found_cell(&view, self.floor, asked);
        view
    }

    /// Judges on an entry of the memory, and reads the own flag. Condition: the process is ready, and its memory has
    /// this of the number.
    #[inline(always)]
    pub fn recall(&mut self, shared: &Board<E>, on: &Triple, op: Op, ring: Ring, word: u16)
        requires fits { self.old.seat.table_id ≡ shared.now.table_id }
        requires layout { shared.now.key.layout ≡ self.old.layout }
        requires ready { (pass_of self.old.seat.me.0).stage ≡ Ready }
        requires recall { recalled on.now.segno (pass_of self.old.seat.me.0).memory ≡ Some on.now }
        ensures view { pass_of self.new.seat.me.0
            ≡ judged_view (at_once on.now.desc (record { op = op; ring = ring; word = word })) on.now
            (record { op = op; ring = ring; word = word }) (pass_of self.old.seat.me.0) }
        ensures admissible { IsAdmissible on.now.desc }
        ensures place { self.new.seat.table_id ≡ self.old.seat.table_id }
        ensures layout { self.new.layout ≡ self.old.layout }
    {
        let asked = Asked { op, ring, word };
        self.recall_on::<Brand>(shared, on, &asked);
    }

    #[inline(always)]
    fn recall_on<J: Asking>(&mut self, shared: &Board<E>, on: &Triple, asked: &Asked)
        requires fits { self.old.seat.table_id ≡ shared.now.table_id }
        requires layout { shared.now.key.layout ≡ self.old.layout }
        requires ready { (pass_of self.old.seat.me.0).stage ≡ Ready }
        requires asking { (J.on ≡ on.now) × (J.asked ≡ asked.now) }
        requires recall { recalled on.now.segno (pass_of self.old.seat.me.0).memory ≡ Some on.now }
        ensures view { pass_of self.new.seat.me.0
            ≡ judged_view (at_once on.now.desc asked.now) on.now asked.now (pass_of self.old.seat.me.0) }
        ensures admissible { IsAdmissible on.now.desc }
        ensures place { self.new.seat.table_id ≡ self.old.seat.table_id }
        ensures layout { self.new.layout ≡ self.old.layout }
    {
        let word = self.layout.flag(self.process);
        shared.load::<Recalls<J>>(&mut self.seat, word);
        self.cell = held_cell(&on.desc, asked);
    }
}
