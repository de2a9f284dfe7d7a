//! The associative memory of a process thread.

ghost use Rattle.std.specs.Prelude.{◌≡◌, ◌≤◌, ◌+◌, ℕ, nat_lt, [], None, Some};
ghost use Rattle.mx_cam.specs.Cams.{HasJudged};
ghost use Rattle.mx_core.specs.AssociativeMemory.{recalled, remembered};
ghost use Rattle.mx_core.specs.Put.{pick};
ghost use Rattle.mx_core.specs.declared.elements.Element.{Element as ElementValue};
ghost use Rattle.mx_core.specs.declared.words.Stage.TheVariants.{Outside, Ready};
ghost use Rattle.mx_core.specs.declared.words.Triple.{Triple as TripleValue};
ghost use Rattle.mx_desc.specs.Passes.{HasBasis};
ghost use Rattle.mx_desc.specs.Referring.{HasMissed};
ghost use Rattle.mx_desc.specs.declared.referring.Referred.TheVariants.{Seen, Missing};
ghost use Rattle.mx_rule.specs.Entering.{connected_view, entered_view};

use crate::places::Places;
use mx_core::Triple;
use mx_desc::{Naming, Pass, Referred};
use mx_rule::Board;
use mx_sdw::{Op, Ring, Word};
use std::marker::Model;

/// The associative memory of a process: what a contract says of a cam and its pass is that the one is the other's
/// memory.
#[derive(Debug, Drop)]
pub struct Cam {
    places: Places,
}

impl Model for Cam {
    ghost use Rattle.std.specs.Prelude.{List};
    ghost use Rattle.mx_core.specs.declared.words.Triple.{Triple as TripleValue};

    ghost Value = { List TripleValue };

    ghost view = { λ a. a.places };
}

impl Cam {
    /// The memory of a process that loaded nothing.
    pub fn new() -> Cam
        ensures { result ≡ [] }
    {
        Cam {
            places: Places::new(),
        }
    }

    /// Goes in: the flag is raised, the connect word read, and the memory emptied where that tells so. Conditions: the
    /// cam is the pass's memory, and the process is outside.
    pub fn enter<E, B: Naming>(&mut self, pass: &mut Pass<E, B>, shared: &Board<E>)
        requires fits { shared.now.table_id ≡ B.table }
        requires layout { shared.now.key.layout ≡ B.layout }
        requires same { self.old ≡ pass.old.view.memory }
        requires outside { pass.old.view.stage ≡ Outside }
        ensures pass { pass.new ≡ record pass.old {
          view = connected_view pass.new.view.cleared (entered_view pass.old.view);
        } }
        ensures same { self.new ≡ pass.new.view.memory }
    {
        pass.enter(shared);
        if pass.load_connect(shared) {
            self.places = Places::new();
        }
    }

    /// Refers to a word of a segment number: by what the memory has of it, and else by its descriptor word, which is
    /// then remembered. Conditions: the cam is the pass's memory, the process is ready, and there is room for an event.
    #[inline(always)]
    pub fn refer<E, B: Naming>(
        &mut self,
        pass: &mut Pass<E, B>,
        shared: &Board<E>,
        segno: u16,
        op: Op,
        ring: Ring,
        word: u16,
        value: Word,
    ) -> Referred
        requires fits { shared.now.table_id ≡ B.table }
        requires layout { shared.now.key.layout ≡ B.layout }
        requires same { self.old ≡ pass.old.view.memory }
        requires ready { pass.old.view.stage ≡ Ready }
        requires spare { 1 ≤ pass.old.spare }
        ensures seen { (e : ElementValue) → result ≡ Seen e → HasJudged B.layout.numbers segno
            (record { op = op; ring = ring; word = word }) value pass.old.view e pass.new.view }
        ensures missing { (by : ℕ) → result ≡ Missing by → HasMissed segno by pass.old.view pass.new.view }
        ensures none { (by : ℕ) → result ≡ Missing by → recalled segno pass.old.view.memory ≡ None }
        ensures stage { pass.new.view.stage ≡ pass.old.view.stage }
        ensures same { self.new ≡ pass.new.view.memory }
        ensures amount { pass.new.amount ≡ pass.old.amount }
        ensures keeps { pass.new.keeps ≡ pass.old.keeps }
        ensures spare { pass.old.spare ≤ pass.new.spare + 1 }
    {
        match self.places.recall(segno) {
            Some((place, on)) => {
                let element = pass.recall(shared, on, op, ring, word, value);
                self.places.note(place);
                Referred::Seen(element)
            },
            None => {
                match pass.refer(shared, segno, op, ring, word, value) {
                    Referred::Seen(element) => {
                        self.remember(pass, segno);
                        Referred::Seen(element)
                    },
                    Referred::Missing { by } => Referred::Missing { by },
                }
            },
        }
    }

    /// Remembers what was judged on last. Condition: the memory has nothing of the number.
    fn remember<E, B: Naming>(&mut self, pass: &Pass<E, B>, segno: u16)
        requires based { HasBasis pass.now.view }
        requires none { recalled segno self.old ≡ None }
        ensures { (on : TripleValue) → pass.now.view.basis ≡ Some on → self.new
            ≡ pick (nat_lt segno B.layout.numbers) (remembered (record on { segno = segno }) self.old) self.old }
    {
        if segno < pass.numbers() {
            let triple = Triple {
                segno,
                number: pass.basis_number(),
                desc: pass.desc(),
            };
            self.places.add(&triple);
        }
    }
}
