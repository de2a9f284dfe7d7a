//! A reference by a process: it is judged on the descriptor word of its number, or on what the memory has of that, and
//! makes the cell step that is granted.

ghost use Rattle.std.specs.Prelude.{◌≡◌, ◌≤◌, ◌<◌, ◌+◌, ℕ, Ok, Err, Some};
ghost use Rattle.mx_sdw.specs.Admissible.{IsAdmissible};
ghost use Rattle.mx_core.specs.AssociativeMemory.{recalled};
ghost use Rattle.mx_core.specs.Loading.{element_of};
ghost use Rattle.mx_core.specs.declared.elements.Element.{Element as ElementValue};
ghost use Rattle.mx_core.specs.declared.elements.Kept.TheVariants.{Judged};
ghost use Rattle.mx_core.specs.declared.words.DescriptorWord.TheVariants.{Valid};
ghost use Rattle.mx_core.specs.declared.words.Stage.TheVariants.{Ready};
ghost use Rattle.mx_core.specs.declared.words.Triple.{Triple as TripleValue};
ghost use Rattle.mx_desc.specs.Referring.{HasMissed, HasReferred, HasSeen};
ghost use Rattle.mx_desc.specs.Standing.{IsMissedAt, StandsAt};
ghost use Rattle.mx_desc.specs.declared.referring.Referred.TheVariants.{Seen, Missing};
ghost use Rattle.mx_rule.specs.Codes.{IsCodable, word_by};

use crate::completing::{complete, kind_of};
use crate::naming::Naming;
use crate::passes::Pass;
use mx_core::{Asked, Element, Kept, Outcome, Triple};
use mx_rule::Board;
use mx_sdw::{Desc, DescView, Op, Ring, Word};

/// What a reference came to.
#[derive(Clone, Copy, Debug)]
pub enum Referred {
    /// It was judged.
    Seen(Element),
    /// The number was changed by this entry, of which the process was not told yet.
    Missing { by: u32 },
}

impl<E, B: Naming> Pass<E, B> {
    /// Refers to a word of a segment number by its descriptor word: that is judged on, and a read or write that it
    /// grants reads or writes the cell. `value` is what a write stores. A fault, and a word by an entry of which the
    /// process was not told, are missed. A number from `numbers` on is judged on the unknown descriptor. Conditions:
    /// the process is ready, and there is room for an event. It takes no memory, and waits for nobody.
    #[inline(always)]
    pub fn refer(
        &mut self,
        shared: &Board<E>,
        segno: u16,
        op: Op,
        ring: Ring,
        word: u16,
        value: Word,
    ) -> Referred
        requires fits { shared.now.table_id ≡ B.table }
        requires layout { shared.now.key.layout ≡ B.layout }
        requires ready { self.old.view.stage ≡ Ready }
        requires spare { 1 ≤ self.old.spare }
        ensures seen { (e : ElementValue) → result ≡ Seen e → HasReferred B.layout.numbers segno
            (record { op = op; ring = ring; word = word }) value self.old.view e self.new.view }
        ensures missing { (by : ℕ) → result ≡ Missing by → HasMissed segno by self.old.view self.new.view }
        ensures stage { self.new.view.stage ≡ self.old.view.stage }
        ensures amount { self.new.amount ≡ self.old.amount }
        ensures keeps { self.new.keeps ≡ self.old.keeps }
        ensures spare { self.old.spare ≤ self.new.spare + 1 }
    {
        let asked = asked_of(&op, &ring, word);
        let found = self.seat.load_desc(shared, segno, op, ring, word);
        match standing(segno, &found, self.seat.floor) {
            Ok(on) => {
                let point = self.seat.floor;
                let outcome = complete(&mut self.seat, shared, &on, &asked, value);
                let element = element(&on, &asked, point, outcome);
                self.trace.push(kept(&element, &asked, &on));
                put(&mut self.basis, &on);
                seen(&element)
            },
            Err(by) => {
                self.trace.push(Kept::Missed { segno, by });
                self.basis = None;
                Referred::Missing { by }
            },
        }
    }

    /// Refers to a word of a segment number by what the memory has of it: that descriptor is judged on. Conditions: the
    /// process is ready, its memory has just this of the number, and there is room for an event. It takes no memory, and
    /// waits for nobody.
    #[inline(always)]
    pub fn recall(
        &mut self,
        shared: &Board<E>,
        on: &Triple,
        op: Op,
        ring: Ring,
        word: u16,
        value: Word,
    ) -> Element
        requires fits { shared.now.table_id ≡ B.table }
        requires layout { shared.now.key.layout ≡ B.layout }
        requires ready { self.old.view.stage ≡ Ready }
        requires spare { 1 ≤ self.old.spare }
        requires recall { recalled on.now.segno self.old.view.memory ≡ Some on.now }
        ensures seen { HasSeen on.now (record { op = op; ring = ring; word = word }) value self.old.view result
            self.new.view }
        ensures admissible { IsAdmissible on.now.desc }
        ensures amount { self.new.amount ≡ self.old.amount }
        ensures keeps { self.new.keeps ≡ self.old.keeps }
        ensures spare { self.old.spare ≤ self.new.spare + 1 }
    {
        let asked = asked_of(&op, &ring, word);
        self.seat.recall(shared, on, op, ring, word);
        let point = self.seat.floor;
        let outcome = complete(&mut self.seat, shared, on, &asked, value);
        let element = element(on, &asked, point, outcome);
        self.trace.push(kept(&element, &asked, on));
        put(&mut self.basis, on);
        element
    }
}

/// What a descriptor word gives to judge on, to a process that was told of so many entries; or by which entry it is
/// missed.
#[inline(always)]
fn standing(segno: u16, found: &DescView, floor: u32) -> Result<Triple, u32>
    requires { IsCodable (word_by found.now) }
    ensures on { (u : TripleValue) → result ≡ Ok u → StandsAt segno floor (word_by found.now) u }
    ensures missed { (by : ℕ) → result ≡ Err by → IsMissedAt floor (word_by found.now) by }
{
    match found {
        DescView::Fault(number) => Err(*number),
        DescView::Set(number, desc) => standing_on(segno, *number, desc, floor),
        DescView::Unknown(number) => standing_on(segno, *number, &Desc::unknown(), floor),
        DescView::Gone(number) => standing_on(segno, *number, &Desc::gone(), floor),
    }
}

#[inline(always)]
fn standing_on(segno: u16, number: u32, desc: &Desc, floor: u32) -> Result<Triple, u32>
    ensures on { (u : TripleValue) → result ≡ Ok u → StandsAt segno floor (Valid number desc.now) u }
    ensures missed { (by : ℕ) → result ≡ Err by → IsMissedAt floor (Valid number desc.now) by }
{
    if number > floor {
        return Err(number);
    }
    Ok(triple(segno, number, desc))
}

#[inline(always)]
fn triple(segno: u16, number: u32, desc: &Desc) -> Triple
    ensures { result ≡ record { segno = segno; number = number; desc = desc.now } }
{
    Triple {
        segno,
        number,
        desc: *desc,
    }
}

#[inline(always)]
fn element(on: &Triple, asked: &Asked, point: u32, outcome: Outcome) -> Element
    ensures { result ≡ element_of on.now.segno asked.now point outcome }
{
    Element {
        kind: kind_of(asked.op),
        segno: on.segno,
        word: asked.word,
        ring: asked.ring,
        point,
        outcome,
    }
}

// Puts what was judged on there; where there is something already, over it.
#[inline(always)]
fn put(basis: &mut Option<Triple>, on: &Triple)
    ensures { basis.new ≡ Some on.now }
{
    match basis {
        Some(basis) => *basis = *on,
        None => *basis = Some(*on),
    }
}

#[inline(always)]
fn seen(element: &Element) -> Referred
    ensures { result ≡ Seen element.now }
{
    Referred::Seen(*element)
}

#[inline(always)]
fn kept(element: &Element, asked: &Asked, on: &Triple) -> Kept
    ensures { result ≡ Judged element.now asked.now.op on.now.desc }
{
    Kept::Judged {
        element: *element,
        op: asked.op,
        desc: on.desc,
    }
}

#[inline(always)]
fn asked_of(op: &Op, ring: &Ring, word: u16) -> Asked
    ensures { result ≡ record { op = op.now; ring = ring.now; word = word } }
{
    Asked {
        op: *op,
        ring: *ring,
        word,
    }
}
