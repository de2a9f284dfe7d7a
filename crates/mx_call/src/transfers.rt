//! Calls and returns.

ghost use Rattle.std.specs.Prelude.{◌≡◌, ◌↔◌, min, map, IsOk, IfOk, IfErr, Err};
ghost use Rattle.mx_call.specs.Registers.{going_on, way_back, raised_to};
ghost use Rattle.mx_call.specs.Transfers.{called, calling, call_judgement, return_judgement, returned, IsCalled, IsReturned};

use crate::registers::{Regs, stack_base};
use mx_ptr::Pointer;
use mx_sdw::{Denial, Desc, Op, Ring, judge, new_ring};

/// The registers after a call of `target`, a word of the segment that `desc` describes, where `target.ring` is the
/// effective ring. Denied as the judging rule denies a call from the current ring where upward calls are off (Schroeder
/// and Saltzer).
pub fn call(regs: &Regs, target: &Pointer, desc: &Desc) -> Result<Regs, Denial>
    ensures granted { IsOk result ↔ IsOk (call_judgement regs.now target.now desc.now) }
    ensures ok { IfOk result (λ after. IsCalled regs.now target.now desc.now after) }
    ensures err { IfErr result (λ denial. call_judgement regs.now target.now desc.now ≡ Err denial) }
{
    judge(
        desc,
        calling(regs, target),
        target.ring,
        u32::from(target.word),
    )?;
    let ring = called_ring(regs, target, desc);
    let procedure = going_on(target, ring);
    let [_, pr1, pr2, pr3, pr4, pr5, pr6, _] = regs.pr;
    Ok(Regs {
        ring,
        procedure,
        pr: [
            stack_base(ring),
            pr1,
            pr2,
            pr3,
            pr4,
            pr5,
            pr6,
            way_back(regs),
        ],
        a: regs.a,
    })
}

/// The registers after a return to `target`, a word of the segment that `desc` describes, where `target.ring` is the
/// effective ring. Denied as the judging rule denies a return (Schroeder and Saltzer).
pub fn ret(regs: &Regs, target: &Pointer, desc: &Desc) -> Result<Regs, Denial>
    ensures granted { IsOk result ↔ IsOk (return_judgement target.now desc.now) }
    ensures ok { IfOk result (λ after. IsReturned regs.now target.now after) }
    ensures err { IfErr result (λ denial. return_judgement target.now desc.now ≡ Err denial) }
{
    judge(desc, Op::Return, target.ring, u32::from(target.word))?;
    let ring = new_ring(desc, Op::Return, target.ring);
    Ok(Regs {
        ring,
        procedure: going_on(target, ring),
        pr: all_raised_to(ring, &regs.pr),
        ..*regs
    })
}

impl Regs {
    /// Goes on by a granted call of `target`, a word of the segment that `desc` describes, where `target.ring` is the
    /// effective ring, from the first bracket or above: what `call` makes of the registers, in place.
    #[inline(always)]
    pub fn enter(&mut self, target: &Pointer, desc: &Desc)
        ensures { self.new ≡ called self.old target.now desc.now }
    {
        let ring = lower_of(target.ring, desc.brackets().r2());
        let back = way_back(self);
        self.pr[0] = stack_base(ring);
        self.pr[7] = back;
        self.procedure = going_on(target, ring);
        self.ring = ring;
    }

    /// Goes on by a granted return to `target`, where `target.ring` is the effective ring: what `ret` makes of the registers,
    /// in place.
    pub fn go_back(&mut self, target: &Pointer)
        ensures { self.new ≡ returned self.old target.now }
    {
        let ring = target.ring;
        raise_all(ring, &mut self.pr);
        self.procedure = going_on(target, ring);
        self.ring = ring;
    }
}

/// The call of a target from these registers.
fn calling(regs: &Regs, target: &Pointer) -> Op
    ensures { result ≡ calling regs.now target.now }
{
    Op::Call {
        current: regs.ring,
        same: target.segno == regs.procedure.segno,
        upward: false,
    }
}

/// The ring in which a granted call goes on.
#[tactic(auto, using(crate::proofs::RegisterLaws::goes_on_in))]
fn called_ring(regs: &Regs, target: &Pointer, desc: &Desc) -> Ring
    requires { IsOk (call_judgement regs.now target.now desc.now) }
    ensures { result ≡ min target.now.ring desc.now.brackets.r2 }
{
    new_ring(desc, calling(regs, target), target.ring)
}

/// The procedure pointer of a process that goes on at `target` in a ring.
pub fn going_on(target: &Pointer, ring: Ring) -> Pointer
    ensures { result ≡ going_on target.now ring }
{
    Pointer {
        ring,
        segno: target.segno,
        word: target.word,
        further: false,
    }
}

/// The pointer to where a process runs, in its current ring.
fn way_back(regs: &Regs) -> Pointer
    ensures { result ≡ way_back regs.now }
{
    Pointer {
        ring: regs.ring,
        ..regs.procedure
    }
}

/// The pointer registers with each ring at least `ring`.
fn all_raised_to(ring: Ring, pr: &[Pointer; 8]) -> [Pointer; 8]
    ensures { result ≡ map (raised_to ring) pr.now }
{
    let [pr0, pr1, pr2, pr3, pr4, pr5, pr6, pr7] = *pr;
    [
        raised_to(ring, pr0),
        raised_to(ring, pr1),
        raised_to(ring, pr2),
        raised_to(ring, pr3),
        raised_to(ring, pr4),
        raised_to(ring, pr5),
        raised_to(ring, pr6),
        raised_to(ring, pr7),
    ]
}

/// Each ring of the pointer registers is now at least `ring`.
fn raise_all(ring: Ring, pr: &mut [Pointer; 8])
    ensures { pr.new ≡ map (raised_to ring) pr.old }
{
    raise(ring, &mut pr[0]);
    raise(ring, &mut pr[1]);
    raise(ring, &mut pr[2]);
    raise(ring, &mut pr[3]);
    raise(ring, &mut pr[4]);
    raise(ring, &mut pr[5]);
    raise(ring, &mut pr[6]);
    raise(ring, &mut pr[7]);
}

/// The ring of the pointer is now at least `ring`.
#[inline(always)]
fn raise(ring: Ring, pointer: &mut Pointer)
    ensures { pointer.new ≡ raised_to ring pointer.old }
{
    if pointer.ring.number() < ring.number() {
        pointer.ring = ring;
    }
}

/// The lower of two rings.
#[inline(always)]
fn lower_of(one: Ring, other: Ring) -> Ring
    ensures { result ≡ min one other }
{
    if one.number() < other.number() {
        one
    } else {
        other
    }
}

/// A pointer whose ring is at least `ring`.
pub fn raised_to(ring: Ring, pointer: Pointer) -> Pointer
    ensures { result ≡ raised_to ring pointer }
{
    if pointer.ring.number() < ring.number() {
        Pointer { ring, ..pointer }
    } else {
        pointer
    }
}
