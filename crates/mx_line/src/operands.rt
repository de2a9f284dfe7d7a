//! How far the line at work has come, and what an indirect word makes of its walk.

ghost use Rattle.std.specs.Prelude.{◌≡◌, ◌≤◌, ◌<◌, ◌-◌, ℕ, true, false, List, [], ◌∷◌, ◌++◌, Some};
ghost use Rattle.mx_call.specs.Loading.{loaded};
ghost use Rattle.mx_call.specs.Registers.{ArePackable};
ghost use Rattle.mx_core.specs.declared.elements.Outcome.TheVariants.{Read as WasRead};
ghost use Rattle.mx_effring.specs.Walks.{reached, wanted, wanted_at};
ghost use Rattle.mx_effring.specs.declared.walks.Want.TheVariants.{Word as WantsWord};
ghost use Rattle.mx_transcript.specs.Courses.{Judged};
ghost use Rattle.mx_transcript.specs.Operands.{base_of, beyond, operand_walk, walk_from};
ghost use Rattle.mx_transcript.specs.declared.transcripts.Result2.TheVariants as results;
ghost use Rattle.mx_ptr.specs.Pointers.{IsPackable};
ghost use Rattle.mx_script.specs.Sessions.{is_address};
ghost use Rattle.mx_line.specs.Operands.{HasComeTo, IsGoodPlace, IsGoodWalk, IsGoodWant, IsTarget, IsOnward, IsGoodOnward, IsCloser, IsRegisterWord, IsSayable, want_at};
ghost use Rattle.std.specs.Option.{option_map};
ghost use Rattle.mx_line.specs.declared.operands.Onward.TheVariants.{End};
ghost use Rattle.mx_line.specs.declared.operands.Place.{Place as PlaceValue};

use crate::fills::Fill;
use mx_call::{Regs, raised_to};
use mx_effring::{Stuck, Walk, Want};
use mx_ptr::Pointer;
use mx_script::{Base, Line, Operand};
use mx_sdw::{Denial, Ring, Word};
use mx_transcript::Result2;
use mx_upcall::Control;

/// A word of memory, referred to at an effective ring.
#[derive(Clone, Copy)]
pub struct Place {
    pub segno: u16,
    pub word: u16,
    pub ring: Ring,
}

/// How far the line at work has come.
#[derive(Drop)]
pub enum Progress {
    /// Nothing of its operand was read yet.
    Before,
    /// It has read some indirect words.
    Walking(Walk),
    /// The word at this place was a link, which is to be snapped.
    AtLink(Place),
    /// It is a `block`, and its process was told to wait.
    Waiting,
    /// The reply to its call asks for writes, of which this is the next.
    Filling(Fill),
}

/// What an indirect word comes to: the line goes on from here, or has ended.
#[derive(Drop)]
pub(crate) enum Onward {
    More(Progress),
    End { ends: Result2, after: Regs },
}

/// The walk of an operand that begins now.
#[inline(never)]
pub(crate) fn start(registers: &Regs, operand: &Operand) -> Walk
    requires address { is_address operand.now ≡ true }
    requires packable { ArePackable registers.now }
    ensures walk { option_map reached (operand_walk registers.now operand.now) ≡ Some result }
    ensures good { IsGoodWalk registers.now result }
{
    let base = base_of(registers, operand);
    Walk::start(registers.ring, base, operand.indirect)
}

/// The place for which the walk of an operand asks at its beginning.
#[inline(always)]
pub(crate) fn place_of(registers: &Regs, operand: &Operand) -> Pointer
    requires address { is_address operand.now ≡ true }
    requires packable { ArePackable registers.now }
    ensures is { option_map wanted (operand_walk registers.now operand.now) ≡ Some (want_at result) }
    ensures good { IsGoodWant registers.now (want_at result) }
{
    place_from(registers, base_of(registers, operand), operand.indirect)
}

/// The place for which a walk asks that begins at a pointer: a word there, or nothing more.
#[inline(always)]
pub(crate) fn place_from(registers: &Regs, base: Pointer, indirect: bool) -> Pointer
    requires { IsPackable base }
    ensures is { wanted (walk_from registers.now indirect base) ≡ want_at result }
    ensures good { IsGoodWant registers.now (want_at result) }
{
    Pointer {
        further: indirect,
        ..raised_to(registers.ring, base)
    }
}

// The pointer at which an operand begins: at a word of a segment in the current ring, or where a register points.
#[inline(always)]
fn base_of(registers: &Regs, operand: &Operand) -> Pointer
    requires address { is_address operand.now ≡ true }
    requires packable { ArePackable registers.now }
    ensures base { base_of registers.now operand.now.base operand.now.word ≡ Some result }
    ensures packable { IsPackable result }
{
    match operand.base {
        Base::Segment(segno) => Pointer {
            ring: registers.ring,
            segno,
            word: operand.word,
            further: false,
        },
        Base::Register(n) => beyond(operand.word, &registers.pr[usize::from(n)]),
    }
}

// So many words beyond where a pointer points; word numbers go round at 16,384.
fn beyond(word: u16, pointer: &Pointer) -> Pointer
    ensures value { result ≡ beyond word pointer.now }
    ensures packable { IsPackable pointer.now → IsPackable result }
{
    let word = (u32::from(pointer.word) + u32::from(word)) % 16_384;
    Pointer {
        word: word as u16,
        ..*pointer
    }
}

/// What the indirect word at a place makes of a walk that asked for it, where its segment has the first bracket `r1`.
pub(crate) fn feed(
    line: &Line,
    control: &Control,
    mut walk: Walk,
    place: Place,
    value: Word,
    r1: Ring,
) -> Onward
    requires line { IsSayable line.now }
    requires packable { ArePackable control.now.registers }
    requires good { IsGoodWalk control.now.registers walk }
    requires wants { wanted_at walk ≡ WantsWord place.segno place.word place.ring }
    ensures onward { (seen : List Judged) (j : Judged) (writer stamp : ℕ) → HasComeTo control.now line.now seen walk
        → j.element.outcome ≡ WasRead value writer stamp → j.desc.brackets.r1 ≡ r1
        → IsOnward control.now line.now (seen ++ j ∷ []) result }
    ensures good { IsGoodOnward control.now.registers result }
    ensures closer { IsCloser (9 - walk.count) result }
{
    match walk.feed(value, r1) {
        Ok(()) => led(line, control, walk),
        Err(Stuck::Link) => Onward::More(Progress::AtLink(place)),
        Err(Stuck::NotPointer) => denied(control, Denial::NotPointer),
        Err(Stuck::Limit) => denied(control, Denial::IndirectLimit),
    }
}

fn denied(control: &Control, denial: Denial) -> Onward
    ensures { result ≡ End (results.Denied denial) control.now.registers }
{
    Onward::End {
        ends: Result2::Denied(denial),
        after: control.registers,
    }
}

// A walk was led on: `epp` ends where it is done, and the other lines refer to their target.
fn led(line: &Line, control: &Control, walk: Walk) -> Onward
    requires line { IsSayable line.now }
    requires packable { ArePackable control.now.registers }
    requires stands { IsGoodPlace control.now.registers walk }
    ensures onward { (seen : List Judged) → HasComeTo control.now line.now seen walk
        → IsOnward control.now line.now seen result }
    ensures good { IsGoodOnward control.now.registers result }
    ensures closer { IsCloser (10 - walk.count) result }
{
    match walk.want() {
        Want::Word { .. } => Onward::More(Progress::Walking(walk)),
        Want::Done(target) => match line {
            Line::Epp { n, .. } => Onward::End {
                ends: Result2::Pr {
                    n: *n,
                    pointer: target,
                },
                after: loaded(&control.registers, *n, &target),
            },
            _ => Onward::More(Progress::Walking(walk)),
        },
    }
}

/// The registers after pointer register `n` was loaded with an effective pointer.
pub(crate) fn loaded(registers: &Regs, n: u8, target: &Pointer) -> Regs
    requires number { n ≤ 7 }
    requires packable { ArePackable registers.now }
    requires target { IsTarget registers.now target.now }
    ensures value { result ≡ loaded registers.now n target.now }
    ensures packable { ArePackable result }
{
    let mut after = *registers;
    after.load(n, target);
    after
}

/// The word of pointer register `n`, without further indirection.
pub(crate) fn register_word(registers: &Regs, n: u8) -> Word
    requires number { n ≤ 7 }
    requires packable { ArePackable registers.now }
    ensures { IsRegisterWord registers.now n result }
{
    let pointer = registers.pr[usize::from(n)];
    let plain = Pointer {
        further: false,
        ..pointer
    };
    plain.pack()
}
