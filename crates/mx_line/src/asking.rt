//! What a line asks for next.

ghost use Rattle.std.specs.Prelude.{◌≡◌, [], Some, None, IfSome, IsNone};
ghost use Rattle.std.specs.Option.{option_map};
ghost use Rattle.mx_effring.specs.declared.walks.Want.TheVariants.{Done};
ghost use Rattle.mx_transcript.specs.Next.{Asks};
ghost use Rattle.mx_call.specs.Registers.{ArePackable, way_back};
ghost use Rattle.mx_effring.specs.Walks.{reached, wanted_at};
ghost use Rattle.mx_transcript.specs.Asking.{attempts};
ghost use Rattle.mx_transcript.specs.Attempts.{wants};
ghost use Rattle.mx_sdw.specs.declared.operations.Op.TheVariants.{Indirect, Write};
ghost use Rattle.mx_transcript.specs.Next.{at_place, storing};
ghost use Rattle.mx_ptr.specs.Pointers.{IsPackable};
ghost use Rattle.mx_transcript.specs.Operands.{walk_of};
ghost use Rattle.mx_transcript.specs.Targets.{at_target};
ghost use Rattle.mx_upcall.specs.Soundness.{IsPackableControl};
ghost use Rattle.mx_line.specs.AtWork.{IsGoodNext, IsPlain, IsStorable, IsStorableBy, meant, reference_in};
ghost use Rattle.mx_line.specs.Fills.{IsNoRequest};
ghost use Rattle.mx_line.specs.Operands.{IsAtNoWord, IsGoodWalk, IsGoodWant, IsMemoryLine, IsSayable, IsTarget, first_want, want_at};

use crate::operands::{loaded, place_from, place_of, register_word, start};
use mx_call::Regs;
use mx_effring::{Walk, Want};
use mx_ptr::Pointer;
use mx_script::Line;
use mx_sdw::{Op, Ring, Word};
use mx_transcript::Result2;
use mx_upcall::{Change, Control};

/// A reference: an operation on a word, at a ring; a write has the value that it stores.
#[derive(Clone, Copy)]
pub struct Reference {
    pub op: Op,
    pub segno: u16,
    pub word: u16,
    pub ring: Ring,
    pub stores: Option<Word>,
}

/// Which call of the supervisor.
#[derive(Clone, Copy)]
pub enum Called {
    /// The request that the line is.
    Own,
    /// `resume`, of a process that was told to wait.
    Resume,
    /// `link`, of the link in this word.
    Link { segno: u16, word: u16 },
}

/// The end of a line: its result, and what it makes of the registers and return gates.
#[derive(Clone, Copy)]
pub struct End {
    pub ends: Result2,
    pub after: Change,
}

/// What a line asks for next.
#[derive(Clone, Copy)]
pub enum Next {
    /// A reference.
    Asks(Reference),
    /// A write that the supervisor's reply asks for.
    Fills(Reference),
    /// A call of the supervisor, in a ring.
    Calls { ring: Ring, called: Called },
    /// Its end.
    Ends(End),
    /// Nothing, after what no line does.
    Nowhere,
}

/// What a line asks for at its beginning.
pub(crate) fn begins(line: &Line, control: &Control) -> Next
    requires line { IsSayable line.now }
    requires packable { IsPackableControl control.now }
    ensures is { attempts control.now line.now [] ≡ meant control.now line.now result }
    ensures storable { IsStorable result }
    ensures good { IsGoodNext control.now result }
    ensures plain { IsNoRequest line.now → IsPlain line.now result }
{
    match line {
        Line::Ask(_) => Next::Calls {
            ring: control.registers.ring,
            called: Called::Own,
        },
        Line::Set { word } => Next::Ends(End {
            ends: Result2::Done,
            after: Change::keeping(&Regs {
                a: *word,
                ..control.registers
            }),
        }),
        Line::Epp { .. }
        | Line::Lda { .. }
        | Line::Sta { .. }
        | Line::Spri { .. }
        | Line::Fetch
        | Line::Call { .. }
        | Line::Return { .. } => walks(line, control),
    }
}

// What a line asks for whose walk begins now.
fn walks(line: &Line, control: &Control) -> Next
    requires line { IsSayable line.now }
    requires packable { IsPackableControl control.now }
    requires memory { IsMemoryLine line.now }
    ensures is { attempts control.now line.now [] ≡ meant control.now line.now result }
    ensures storable { IsStorable result }
    ensures good { IsGoodNext control.now result }
    ensures plain { IsPlain line.now result }
{
    match first_place(line, &control.registers) {
        Some(place) => at_want(line, control, &want_at(&place)),
        None => Next::Nowhere,
    }
}

/// The reference that a line asks for at its beginning; none where it asks for another thing.
#[inline(always)]
pub(crate) fn first_reference(line: &Line, control: &Control) -> Option<Reference>
    requires line { IsSayable line.now }
    requires packable { IsPackableControl control.now }
    ensures some { IfSome result (λ asked. attempts control.now line.now [] ≡ Asks (reference_in asked)) }
    ensures storable { IfSome result (λ asked. IsStorableBy asked.op asked.stores) }
    ensures memory { IfSome result (λ asked. IsMemoryLine line.now) }
{
    match first_place(line, &control.registers) {
        Some(place) => reference_from(line, control, &place),
        None => None,
    }
}

// The reference that a line asks for at its beginning, whose walk begins at this place.
#[inline(always)]
fn reference_from(line: &Line, control: &Control, place: &Pointer) -> Option<Reference>
    requires line { IsSayable line.now }
    requires packable { IsPackableControl control.now }
    requires good { IsGoodWant control.now.registers (want_at place.now) }
    ensures some { IfSome result (λ asked. wants control.now line.now (want_at place.now) ≡ Asks (reference_in asked)) }
    ensures storable { IfSome result (λ asked. IsStorableBy asked.op asked.stores) }
{
    if place.further {
        Some(at_place(Op::Indirect, place))
    } else {
        reference_at(line, control, place)
    }
}

/// The place, at its effective ring, for which the walk of a line that refers to memory asks at its beginning: a word where
/// its further bit is set, and else the target. No walk is made for it.
#[inline(always)]
pub(crate) fn first_place(line: &Line, registers: &Regs) -> Option<Pointer>
    requires line { IsSayable line.now }
    requires packable { ArePackable registers.now }
    ensures is { option_map want_at result ≡ first_want registers.now line.now }
    ensures good { IfSome result (λ place. IsGoodWant registers.now (want_at place)) }
    ensures some { IfSome result (λ place. IsMemoryLine line.now) }
    ensures none { IsNone result → IsMemoryLine line.now → ⊥ }
{
    match line {
        Line::Ask(_) | Line::Set { .. } => None,
        Line::Epp { operand, .. } => Some(place_of(registers, operand)),
        Line::Lda { operand } => Some(place_of(registers, operand)),
        Line::Sta { operand } => Some(place_of(registers, operand)),
        Line::Spri { operand, .. } => Some(place_of(registers, operand)),
        Line::Fetch => Some(place_from(registers, way_back(registers), false)),
        Line::Call { operand } => Some(place_of(registers, operand)),
        Line::Return { operand } => Some(place_of(registers, operand)),
    }
}

/// The target of a line that refers to memory, where its operand is not indirect.
#[inline(always)]
pub(crate) fn first_target(line: &Line, registers: &Regs) -> Option<Pointer>
    requires line { IsSayable line.now }
    requires packable { ArePackable registers.now }
    ensures is { IfSome result (λ target. first_want registers.now line.now ≡ Some (Done target)) }
    ensures target { IfSome result (IsTarget registers.now) }
{
    match first_place(line, registers) {
        Some(place) => { if place.further { None } else { Some(place) } }
        None => None,
    }
}

// What a walk asks for that stands at a place.
fn want_at(place: &Pointer) -> Want
    ensures { result ≡ want_at place.now }
{
    if place.further {
        Want::Word {
            segno: place.segno,
            word: place.word,
            ring: place.ring,
        }
    } else {
        Want::Done(*place)
    }
}

/// The walk of a line that refers to memory, from its beginning.
#[inline(never)]
pub(crate) fn walk_of(line: &Line, registers: &Regs) -> Option<Walk>
    requires line { IsSayable line.now }
    requires packable { ArePackable registers.now }
    ensures walk { result ≡ option_map reached (walk_of registers.now line.now) }
    ensures good { IfSome result (IsGoodWalk registers.now) }
    ensures some { IfSome result (λ walk. IsMemoryLine line.now) }
    ensures none { IsNone result → IsMemoryLine line.now → ⊥ }
{
    match line {
        Line::Ask(_) | Line::Set { .. } => None,
        Line::Epp { operand, .. } => Some(start(registers, operand)),
        Line::Lda { operand } => Some(start(registers, operand)),
        Line::Sta { operand } => Some(start(registers, operand)),
        Line::Spri { operand, .. } => Some(start(registers, operand)),
        Line::Fetch => Some(Walk::start(registers.ring, way_back(registers), false)),
        Line::Call { operand } => Some(start(registers, operand)),
        Line::Return { operand } => Some(start(registers, operand)),
    }
}

/// What a line asks for where its walk has come so far.
pub(crate) fn wants(line: &Line, control: &Control, walk: &Walk) -> Next
    requires line { IsSayable line.now }
    requires packable { IsPackableControl control.now }
    requires good { IsGoodWalk control.now.registers walk.now }
    ensures is { wants control.now line.now (wanted_at walk.now) ≡ meant control.now line.now result }
    ensures storable { IsStorable result }
    ensures good { IsGoodNext control.now result }
    ensures plain { IsMemoryLine line.now → IsPlain line.now result }
{
    at_want(line, control, &walk.want())
}

/// The reference that a line asks for where its walk has come so far; none where it asks for another thing.
pub(crate) fn next_reference(line: &Line, control: &Control, walk: &Walk) -> Option<Reference>
    requires line { IsSayable line.now }
    requires packable { IsPackableControl control.now }
    requires good { IsGoodWalk control.now.registers walk.now }
    ensures some { IfSome result (λ asked. wants control.now line.now (wanted_at walk.now) ≡ Asks (reference_in asked)) }
    ensures storable { IfSome result (λ asked. IsStorableBy asked.op asked.stores) }
{
    match walk.want() {
        Want::Word { segno, word, ring } => Some(looking(segno, word, ring)),
        Want::Done(target) => reference_at(line, control, &target),
    }
}

// What a line asks for by what its walk does.
fn at_want(line: &Line, control: &Control, want: &Want) -> Next
    requires line { IsSayable line.now }
    requires packable { IsPackableControl control.now }
    requires good { IsGoodWant control.now.registers want.now }
    ensures is { wants control.now line.now want.now ≡ meant control.now line.now result }
    ensures storable { IsStorable result }
    ensures good { IsGoodNext control.now result }
    ensures plain { IsMemoryLine line.now → IsPlain line.now result }
{
    match want {
        Want::Word { segno, word, ring } => Next::Asks(looking(*segno, *word, *ring)),
        Want::Done(target) => at_target(line, control, target),
    }
}

// The reading of an indirect word.
fn looking(segno: u16, word: u16, ring: Ring) -> Reference
    ensures is { reference_in result ≡ record { op = Indirect; segno = segno; word = word; ring = ring; stores = None } }
    ensures storable { IsStorableBy result.op result.stores }
{
    Reference {
        op: Op::Indirect,
        segno,
        word,
        ring,
        stores: None,
    }
}

// What a line asks for at its target.
fn at_target(line: &Line, control: &Control, target: &Pointer) -> Next
    requires line { IsSayable line.now }
    requires packable { IsPackableControl control.now }
    requires target { IsTarget control.now.registers target.now }
    ensures is { at_target control.now line.now target.now ≡ meant control.now line.now result }
    ensures storable { IsStorable result }
    ensures good { IsGoodNext control.now result }
    ensures plain { IsMemoryLine line.now → IsPlain line.now result }
{
    match line {
        Line::Epp { n, .. } => Next::Ends(End {
            ends: Result2::Pr {
                n: *n,
                pointer: *target,
            },
            after: Change::keeping(&loaded(&control.registers, *n, target)),
        }),
        Line::Ask(_) | Line::Set { .. } => Next::Nowhere,
        Line::Lda { .. }
        | Line::Sta { .. }
        | Line::Spri { .. }
        | Line::Fetch
        | Line::Call { .. }
        | Line::Return { .. } => match reference_at(line, control, target) {
            Some(asked) => Next::Asks(asked),
            None => unreachable!(),
        },
    }
}

// The reference that a line makes at its target: `epp` makes none, nor does a line that does not refer to memory.
#[inline(always)]
fn reference_at(line: &Line, control: &Control, target: &Pointer) -> Option<Reference>
    requires line { IsSayable line.now }
    requires packable { IsPackableControl control.now }
    requires target { IsTarget control.now.registers target.now }
    ensures some { IfSome result (λ asked. at_target control.now line.now target.now ≡ Asks (reference_in asked)) }
    ensures storable { IfSome result (λ asked. IsStorableBy asked.op asked.stores) }
    ensures none { IsNone result → IsAtNoWord line.now }
{
    match line {
        Line::Lda { .. } => Some(at_place(Op::Read, target)),
        Line::Sta { .. } => Some(storing(control.registers.a, target)),
        Line::Spri { n, .. } => Some(storing(register_word(&control.registers, *n), target)),
        Line::Fetch => Some(at_place(Op::Fetch, target)),
        Line::Call { .. } => Some(at_place(control.calling(target), target)),
        Line::Return { .. } => Some(at_place(Op::Return, &control.returning(target))),
        Line::Ask(_) | Line::Set { .. } | Line::Epp { .. } => None,
    }
}

// Where the process runs, in its current ring.
#[inline(always)]
fn way_back(registers: &Regs) -> Pointer
    requires { ArePackable registers.now }
    ensures value { result ≡ way_back registers.now }
    ensures packable { IsPackable result }
{
    Pointer {
        ring: registers.ring,
        ..registers.procedure
    }
}

// An operation at the place of a pointer, at its ring.
#[inline(always)]
fn at_place(op: Op, target: &Pointer) -> Reference
    requires { op ≡ Write → ⊥ }
    ensures is { reference_in result ≡ at_place op target.now }
    ensures storable { IsStorableBy result.op result.stores }
{
    Reference {
        op,
        segno: target.segno,
        word: target.word,
        ring: target.ring,
        stores: None,
    }
}

/// A write of a value there.
#[inline(always)]
pub(crate) fn storing(value: Word, target: &Pointer) -> Reference
    ensures is { reference_in result ≡ storing value target.now }
    ensures storable { IsStorableBy result.op result.stores }
{
    Reference {
        op: Op::Write,
        segno: target.segno,
        word: target.word,
        ring: target.ring,
        stores: Some(value),
    }
}
