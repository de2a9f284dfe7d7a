//! The walk of a line through indirect words: for which it asks, and what leads it on.

ghost use Rattle.std.specs.Prelude.{◌≡◌, ◌∷◌, ◌++◌, ◌-◌, ◌<◌, ℕ, List, [], IfSome, IsFalse, IsTrue};
ghost use Rattle.mx_core.specs.declared.elements.Outcome.TheVariants.{Read as WasRead};
ghost use Rattle.mx_effring.specs.Walks.{wanted_at};
ghost use Rattle.mx_effring.specs.declared.walks.Want.TheVariants.{Word as WantsWord};
ghost use Rattle.mx_sdw.specs.Admissible.{IsAdmissible};
ghost use Rattle.mx_transcript.specs.Courses.{Judged};
ghost use Rattle.mx_upcall.specs.Soundness.{IsPackableControl};
ghost use Rattle.mx_line.specs.Looking.{IsLooking, LeadsOn};
ghost use Rattle.mx_line.specs.Operands.{HasComeTo, IsGoodWalk, IsMemoryLine, IsSayable};
ghost use Rattle.mx_line.specs.declared.operands.Place.{Place as PlaceValue};
ghost use Rattle.mx_line.specs.declared.operands.Progress.TheVariants.{Before, Walking};

use crate::asking::{first_place, walk_of};
use crate::operands::Place;
use mx_effring::{Walk, Want};
use mx_script::Line;
use mx_sdw::{Desc, Ring, Word};
use mx_transcript::{Element, Outcome};
use mx_upcall::Control;

/// The walk of a line at its beginning, and the indirect word for which it asks; none where the line asks for another thing.
#[inline(always)]
pub(crate) fn first_look(line: &Line, control: &Control) -> Option<(Walk, Place)>
    requires line { IsSayable line.now }
    requires packable { IsPackableControl control.now }
    ensures { IfSome result (λ found. IsLooking control.now line.now Before found.0 found.1) }
{
    match first_place(line, &control.registers) {
        Some(place) => {
            if place.further {
                begun_look(line, control)
            } else {
                None
            }
        }
        None => None,
    }
}

// The same by the walk that begins now.
fn begun_look(line: &Line, control: &Control) -> Option<(Walk, Place)>
    requires line { IsSayable line.now }
    requires packable { IsPackableControl control.now }
    ensures { IfSome result (λ found. IsLooking control.now line.now Before found.0 found.1) }
{
    match walk_of(line, &control.registers) {
        Some(walk) => match walk.want() {
            Want::Word { segno, word, ring } => Some((walk, Place { segno, word, ring })),
            Want::Done(_) => None,
        },
        None => None,
    }
}

/// The same of a line whose walk has come so far.
#[inline(always)]
pub(crate) fn next_look(line: &Line, control: &Control, walk: &Walk) -> Option<(Walk, Place)>
    requires good { IsGoodWalk control.now.registers walk.now }
    ensures { IfSome result (λ found. IsLooking control.now line.now (Walking walk.now) found.0 found.1) }
{
    match look_at(line, control, walk) {
        Some(place) => Some((*walk, place)),
        None => None,
    }
}

/// The indirect word for which a walk asks that has come so far; none where it is done.
#[inline(always)]
pub fn look_at(line: &Line, control: &Control, walk: &Walk) -> Option<Place>
    requires good { IsGoodWalk control.now.registers walk.now }
    ensures { IfSome result (IsLooking control.now line.now (Walking walk.now) walk.now) }
{
    match walk.want() {
        Want::Word { segno, word, ring } => Some(Place { segno, word, ring }),
        Want::Done(_) => None,
    }
}

/// Whether the reference to the indirect word for which a walk asks leads it on: then it has come to where that word leads, and else
/// it is where it was.
#[inline(always)]
pub fn read_on(
    line: &Line,
    control: &Control,
    walk: &mut Walk,
    element: &Element,
    desc: &Desc,
) -> bool
    requires good { IsGoodWalk control.now.registers walk.old }
    requires wants { (place : PlaceValue) × (wanted_at walk.old ≡ WantsWord place.segno place.word place.ring) }
    ensures yes { IsTrue result → LeadsOn control.now line.now walk.old element.now desc.now walk.new }
    ensures no { IsFalse result → walk.new ≡ walk.old }
{
    match element.outcome {
        Outcome::Read { value, .. } => fed(line, control, walk, value, desc.brackets().r1()),
        Outcome::Written { .. } | Outcome::Entered { .. } | Outcome::Denied(_) => false,
    }
}

// The same by the word that was read, of a segment with the first bracket `r1`.
#[inline(always)]
fn fed(line: &Line, control: &Control, walk: &mut Walk, value: Word, r1: Ring) -> bool
    requires good { IsGoodWalk control.now.registers walk.old }
    requires wants { (place : PlaceValue) × (wanted_at walk.old ≡ WantsWord place.segno place.word place.ring) }
    ensures comes { IsTrue result → (seen : List Judged) (j : Judged) (writer stamp : ℕ)
        → HasComeTo control.now line.now seen walk.old → j.element.outcome ≡ WasRead value writer stamp
        → j.desc.brackets.r1 ≡ r1 → HasComeTo control.now line.now (seen ++ j ∷ []) walk.new }
    ensures good { IsTrue result → IsGoodWalk control.now.registers walk.new }
    ensures closer { IsTrue result → 9 - walk.new.count < 9 - walk.old.count }
    ensures no { IsFalse result → walk.new ≡ walk.old }
{
    match walk.feed(value, r1) {
        Ok(()) => {
            let _at = walk.want();
            true
        }
        Err(_) => false,
    }
}
