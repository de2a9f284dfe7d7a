//! The judging and cell steps of a process, on its seat.

ghost use Rattle.std.specs.Prelude.{◌≡◌, ℕ, Some, true, MatchOption, MatchResult};
ghost use Rattle.mx_core.specs.Judging.{loads};
ghost use Rattle.mx_core.specs.Loading.{element_of};
ghost use Rattle.mx_core.specs.declared.elements.Kept.TheVariants.{Judged};
ghost use Rattle.mx_core.specs.declared.words.Asked.{Asked as AskedValue};
ghost use Rattle.mx_core.specs.declared.words.Triple.{Triple as TripleValue};
ghost use Rattle.mx_worlds.specs.Seating.{missed_columns, judged_columns, remembering_columns, found_word, loaded_columns, read_columns, written_columns};
ghost use Rattle.mx_worlds.specs.Shows.{Columns, ShowsSeat};
ghost use Rattle.mx_sdw.specs.Operations.{writes};

use crate::seats::Seat;
use mx_core::{Asked, DescriptorWord, Element, Held, Kept, Outcome, Triple};
use mx_sdw::{Desc, Word};
use std::alloc::{AllocError, Global};

impl Seat {
    /// The descriptor word of a number; beyond the table's numbers every descriptor is unknown.
    pub(crate) fn found(&self, segno: u16, start: u32) -> DescriptorWord
        ensures { (n : ℕ) (c : Columns) → ShowsSeat n self.now c → result ≡ found_word n start c segno }
    {
        if segno < self.numbers {
            self.words[usize::from(segno)]
        } else {
            DescriptorWord::Valid {
                number: start,
                desc: Desc::unknown(),
            }
        }
    }

    /// Misses a number, by an entry.
    fn miss(&mut self, segno: u16, by: u32) -> Result<(), AllocError>
        ensures { (n : ℕ) (c : Columns) → ShowsSeat n self.old c
            → MatchResult result (λ done. ShowsSeat n self.new (missed_columns c segno by))
            (λ e. ShowsSeat n self.new c) }
    {
        self.trace.extend_from_slice(&[Kept::Missed { segno, by }])?;
        self.basis = None;
        self.hold = None;
        Ok(())
    }

    /// Judges on a triple.
    pub(crate) fn judge(&mut self, triple: &Triple, asked: Asked) -> Result<(), AllocError>
        ensures { (n : ℕ) (c : Columns) → ShowsSeat n self.old c
            → MatchResult result (λ done. ShowsSeat n self.new (judged_columns c triple.now asked))
            (λ e. ShowsSeat n self.new c) }
    {
        match asked.at_once(&triple.desc) {
            None => {
                self.basis = Some(*triple);
                self.hold = Some(asked);
                Ok(())
            },
            Some(outcome) => {
                let event = self.judged(triple, asked, outcome);
                self.trace.extend_from_slice(&[event])?;
                self.basis = Some(*triple);
                self.hold = None;
                Ok(())
            },
        }
    }

    fn judge_and_remember(
        &mut self,
        triple: &Triple,
        asked: Asked,
        alloc: Global,
    ) -> Result<(), AllocError>
        ensures { (n : ℕ) (c : Columns) → ShowsSeat n self.old c
            → MatchResult result
            (λ done. ShowsSeat n self.new (judged_columns (remembering_columns c triple.now) triple.now asked))
            (λ e. ShowsSeat n self.new c) }
    {
        let memory = self.memory.with(triple, alloc)?;
        self.judge(triple, asked)?;
        self.memory = memory;
        Ok(())
    }

    /// Reads the descriptor word of a number and judges on it, or misses it.
    pub(crate) fn load_desc(
        &mut self,
        segno: u16,
        asked: Asked,
        start: u32,
        alloc: Global,
    ) -> Result<(), AllocError>
        ensures { (n : ℕ) (c : Columns) → ShowsSeat n self.old c
            → MatchResult result (λ done. ShowsSeat n self.new (loaded_columns n start c segno asked))
            (λ e. ShowsSeat n self.new c) }
    {
        match self.found(segno, start) {
            DescriptorWord::Fault { number } => self.miss(segno, number),
            DescriptorWord::Valid { number, desc } => {
                let triple = Triple {
                    segno,
                    number,
                    desc,
                };
                if number > self.floor {
                    self.miss(segno, number)
                } else if segno < self.numbers {
                    self.judge_and_remember(&triple, asked, alloc)
                } else {
                    self.judge(&triple, asked)
                }
            },
        }
    }

    /// The read that is held, with what it was granted on.
    pub(crate) fn held_read(&self) -> Option<(Triple, Asked)>
        ensures { (n : ℕ) (c : Columns) → ShowsSeat n self.now c
            → MatchOption result
            ((u : TripleValue) (a : AskedValue) → c.process.basis ≡ Some u → c.process.hold ≡ Some a
            → loads a.op ≡ true → ⊥)
            (λ r. (c.process.basis ≡ Some r.0) × (c.process.hold ≡ Some r.1) × (loads r.1.op ≡ true)) }
    {
        let (triple, asked) = (self.basis?, self.hold?);
        if asked.loads() {
            Some((triple, asked))
        } else {
            None
        }
    }

    /// The write that is held, with what it was granted on.
    pub(crate) fn held_write(&self) -> Option<(Triple, Asked)>
        ensures { (n : ℕ) (c : Columns) → ShowsSeat n self.now c
            → MatchOption result
            ((u : TripleValue) (a : AskedValue) → c.process.basis ≡ Some u → c.process.hold ≡ Some a
            → writes a.op ≡ true → ⊥)
            (λ r. (c.process.basis ≡ Some r.0) × (c.process.hold ≡ Some r.1) × (writes r.1.op ≡ true)) }
    {
        let (triple, asked) = (self.basis?, self.hold?);
        if asked.writes() {
            Some((triple, asked))
        } else {
            None
        }
    }

    /// Keeps what was read, and raises the floor to its stamp.
    pub(crate) fn read(
        &mut self,
        triple: &Triple,
        asked: Asked,
        held: &Held,
    ) -> Result<(), AllocError>
        ensures { (n : ℕ) (c : Columns) → ShowsSeat n self.old c
            → MatchResult result (λ done. ShowsSeat n self.new (read_columns c triple.now asked held.now))
            (λ e. ShowsSeat n self.new c) }
    {
        let outcome = Outcome::Read {
            value: held.value,
            writer: held.writer,
            stamp: held.stamp,
        };
        let event = self.judged(triple, asked, outcome);
        self.trace.extend_from_slice(&[event])?;
        self.floor = self.floor.max(held.stamp);
        self.hold = None;
        Ok(())
    }

    /// Keeps what was written.
    pub(crate) fn wrote(
        &mut self,
        triple: &Triple,
        asked: Asked,
        value: Word,
    ) -> Result<(), AllocError>
        ensures { (n : ℕ) (c : Columns) → ShowsSeat n self.old c
            → MatchResult result (λ done. ShowsSeat n self.new (written_columns c triple.now asked value))
            (λ e. ShowsSeat n self.new c) }
    {
        let outcome = Outcome::Written { value };
        let event = self.judged(triple, asked, outcome);
        self.trace.extend_from_slice(&[event])?;
        self.hold = None;
        Ok(())
    }

    fn judged(&self, triple: &Triple, asked: Asked, outcome: Outcome) -> Kept
        ensures { result ≡ Judged (element_of triple.now.segno asked self.now.floor outcome) asked.op triple.now.desc }
    {
        let (op, desc) = (asked.op, triple.desc);
        let element = self.element(triple.segno, asked, outcome);
        Kept::Judged { element, op, desc }
    }

    fn element(&self, segno: u16, asked: Asked, outcome: Outcome) -> Element
        ensures { result ≡ element_of segno asked self.now.floor outcome }
    {
        Element {
            kind: asked.kind(),
            segno,
            word: asked.word,
            ring: asked.ring,
            point: self.floor,
            outcome,
        }
    }
}
