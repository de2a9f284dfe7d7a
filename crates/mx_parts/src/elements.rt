//! Whether an element is the reference for which a line asks, judged by its descriptor.

ghost use Rattle.std.specs.Prelude.{◌≡◌, ◌↔◌, ℕ, Bool, IsTrue, Option};
ghost use Rattle.mx_core.specs.declared.elements.Outcome.TheVariants.{Denied as WasDenied};
ghost use Rattle.mx_line.specs.AtWork.{reference_in};
ghost use Rattle.mx_parts.specs.Answers.{IsAskedElement, IsReference, IsStore};
ghost use Rattle.mx_sdw.specs.Judging.{judgement, ring_after};
ghost use Rattle.mx_sdw.specs.declared.operations.Op.TheVariants.{Call, Fetch, Indirect, Read, Return, Write};
ghost use Rattle.mx_transcript.specs.Elements.{Agrees, Gives, IsJudged, kind_of};

use mx_line::{Next, Reference};
use mx_sdw::{Denial, Desc, Op, Ring, Word, judge, new_ring};
use mx_transcript::{Element, Kind, Outcome};

/// Whether an element is the reference for which a line asks, or the write, which was granted.
pub(crate) fn is_asked_element(next: &Next, element: &Element, desc: &Desc) -> bool
    ensures { IsTrue result ↔ IsAskedElement next.now element.now desc.now }
{
    match next {
        Next::Asks(asked) => is_judged(asked, element, desc),
        Next::Fills(asked) => is_judged(asked, element, desc) && is_store(&element.outcome),
        Next::Calls { .. } => false,
        Next::Ends(_) => false,
        Next::Nowhere => false,
    }
}

/// Whether a line asks for a reference.
pub(crate) fn is_reference(next: &Next) -> bool
    ensures { IsTrue result ↔ IsReference next.now }
{
    match next {
        Next::Asks(_) => true,
        Next::Fills(_) => false,
        Next::Calls { .. } => false,
        Next::Ends(_) => false,
        Next::Nowhere => false,
    }
}

// Whether a word was stored.
fn is_store(outcome: &Outcome) -> bool
    ensures { IsTrue result ↔ IsStore outcome.now }
{
    match outcome {
        Outcome::Written { .. } => true,
        Outcome::Read { .. } => false,
        Outcome::Entered { .. } => false,
        Outcome::Denied(_) => false,
    }
}

// Whether an element is a reference, judged on a descriptor.
fn is_judged(asked: &Reference, element: &Element, desc: &Desc) -> bool
    ensures { IsTrue result ↔ IsJudged (reference_in asked.now) desc.now element.now }
{
    element.kind == kind_of(asked.op)
        && element.segno == asked.segno
        && element.word == asked.word
        && element.ring == asked.ring
        && agrees(asked, desc, &element.outcome)
}

/// Under which kind an operation is printed.
pub fn kind_of(op: Op) -> Kind
    ensures { result ≡ kind_of op }
{
    match op {
        Op::Read => Kind::Read,
        Op::Indirect => Kind::Ind,
        Op::Write => Kind::Write,
        Op::Fetch => Kind::Fetch,
        Op::Call { .. } => Kind::Call,
        Op::Return => Kind::Return,
    }
}

// Whether a reference came to what the judging rule says on a descriptor.
fn agrees(asked: &Reference, desc: &Desc, came: &Outcome) -> bool
    ensures { IsTrue result ↔ Agrees (reference_in asked.now) (ring_after desc.now asked.now.op asked.now.ring)
        (judgement desc.now asked.now.op asked.now.ring asked.now.word) came.now }
{
    match judge(desc, asked.op, asked.ring, u32::from(asked.word)) {
        Ok(_) => gives(asked, desc, came),
        Err(denial) => is_denied(came, denial),
    }
}

// Whether a reference was denied so.
fn is_denied(came: &Outcome, denial: Denial) -> bool
    ensures { IsTrue result ↔ (came.now ≡ WasDenied denial) }
{
    match came {
        Outcome::Denied(other) => *other == denial,
        Outcome::Read { .. } => false,
        Outcome::Written { .. } => false,
        Outcome::Entered { .. } => false,
    }
}

// Whether a granted reference came to this.
fn gives(asked: &Reference, desc: &Desc, came: &Outcome) -> bool
    ensures { IsTrue result ↔ Gives asked.now.op asked.now.stores (ring_after desc.now asked.now.op asked.now.ring) came.now }
{
    match asked.op {
        Op::Read => has_read(came),
        Op::Indirect => has_read(came),
        Op::Fetch => has_read(came),
        Op::Write => has_stored(came, asked.stores),
        Op::Call { .. } => has_entered(came, new_ring(desc, asked.op, asked.ring)),
        Op::Return => has_entered(came, new_ring(desc, asked.op, asked.ring)),
    }
}

// Whether a word was read.
fn has_read(came: &Outcome) -> bool
    ensures read { (entered : ℕ) (stores : Option ℕ) → IsTrue result ↔ Gives Read stores entered came.now }
    ensures indirect { (entered : ℕ) (stores : Option ℕ) → IsTrue result ↔ Gives Indirect stores entered came.now }
    ensures fetch { (entered : ℕ) (stores : Option ℕ) → IsTrue result ↔ Gives Fetch stores entered came.now }
{
    match came {
        Outcome::Read { value, .. } => value.value() < 1 << 36,
        Outcome::Written { .. } => false,
        Outcome::Entered { .. } => false,
        Outcome::Denied(_) => false,
    }
}

// Whether the word was stored that was to be.
fn has_stored(came: &Outcome, stores: Option<Word>) -> bool
    ensures { (entered : ℕ) → IsTrue result ↔ Gives Write stores entered came.now }
{
    match (came, stores) {
        (Outcome::Written { value }, Some(stored)) => *value == stored,
        (Outcome::Written { .. }, None) => false,
        (Outcome::Read { .. }, _) => false,
        (Outcome::Entered { .. }, _) => false,
        (Outcome::Denied(_), _) => false,
    }
}

// Whether the process goes on in this ring.
fn has_entered(came: &Outcome, ring: Ring) -> bool
    ensures called { (stores : Option ℕ) (current : ℕ) (same upward : Bool)
        → IsTrue result ↔ Gives (Call current same upward) stores ring came.now }
    ensures returned { (stores : Option ℕ) → IsTrue result ↔ Gives Return stores ring came.now }
{
    match came {
        Outcome::Entered { ring: entered } => *entered == ring,
        Outcome::Read { .. } => false,
        Outcome::Written { .. } => false,
        Outcome::Denied(_) => false,
    }
}
