//! Calls, returns, and loads of pointer registers.

use super::{ring, segment};
use mx_call::{Regs, call, ret};
use mx_ptr::Pointer;
use mx_sdw::{Denial, Desc, Word};
use std::test::Fail;

fn pointer(n: u8, segno: u16, word: u16) -> Option<Pointer> {
    Some(Pointer {
        ring: ring(n)?,
        segno,
        word,
        further: false,
    })
}

// The registers of a process that begins in a ring.
fn starting(n: u8) -> Option<Regs> {
    Some(Regs {
        ring: ring(n)?,
        procedure: pointer(n, 4, 0)?,
        pr: [pointer(n, 4, 0)?; 8],
        a: Word::zero(),
    })
}

// A segment with flags r and e.
fn procedure(brackets: (u8, u8, u8), gate: u16) -> Option<Desc> {
    segment(brackets, (true, true, false), gate)
}

#[test]
fn a_loaded_pointer_register_is_stored(rt: HostRuntime) {
    let mut regs = Regs::opening();
    let before = regs.pr[2].pack().value();
    let target = Pointer {
        ring: regs.ring,
        segno: 0o12,
        word: 7,
        further: false,
    };
    regs.load(2, &target);
    let after = regs.pr[2].pack().value();
    assert_eq!(rt; (before, after), (0o000440000043, 0o001240001643));
}

// The ring, segment and word of a pointer.
fn parts(pointer: &Pointer) -> (u8, u16, u16) {
    (pointer.ring.number(), pointer.segno, pointer.word)
}

// The current ring, and where the procedure pointer and the pointer registers 0, 1 and 7 point.
fn shown(regs: &Regs) -> (u8, [(u8, u16, u16); 4]) {
    let places = [
        parts(&regs.procedure),
        parts(&regs.pr[0]),
        parts(&regs.pr[1]),
        parts(&regs.pr[7]),
    ];
    (regs.ring.number(), places)
}

// What is shown in turn: after a call from ring 4 of word 0 of segment 10, of a gate of segment 11, and after the way back.
fn through_a_gate() -> Option<[(u8, [(u8, u16, u16); 4]); 3]> {
    let (main, gates) = (procedure((4, 4, 4), 1)?, procedure((1, 3, 5), 2)?);
    let inside = call(&starting(4)?, &pointer(4, 0o10, 0)?, &main).ok()?;
    let below = call(&inside, &pointer(4, 0o11, 1)?, &gates).ok()?;
    let way_back = below.pr[7];
    let back = ret(&below, &way_back, &main).ok()?;
    Some([shown(&inside), shown(&below), shown(&back)])
}

#[test]
fn through_a_gate_and_back(rt: HostRuntime) {
    let want = [
        (4, [(4, 0o10, 0), (4, 4, 0), (4, 4, 0), (4, 4, 0)]),
        (3, [(3, 0o11, 1), (3, 3, 0), (4, 4, 0), (4, 0o10, 0)]),
        (4, [(4, 0o10, 0), (4, 3, 0), (4, 4, 0), (4, 0o10, 0)]),
    ];
    assert_eq!(rt; through_a_gate(), Some(want));
}

// A return from ring 1 to ring 4, with a pointer to word 0 of segment 10 in register 7.
fn returned(brackets: (u8, u8, u8)) -> Option<Result<Regs, Denial>> {
    let mut regs = starting(1)?;
    let target = pointer(4, 0o10, 0)?;
    regs.pr[7] = target;
    Some(ret(&regs, &target, &procedure(brackets, 0)?))
}

#[test]
fn a_return_raises_the_registers(rt: HostRuntime) -> Result<(), Fail> {
    let after = returned((4, 4, 4)).ok_or("registers")??;
    let inward = returned((2, 2, 2)).ok_or("registers")?.err();
    let want = (4, [(4, 0o10, 0), (4, 4, 0), (4, 4, 0), (4, 0o10, 0)]);
    assert_eq!(rt; (shown(&after), inward), (want, Some(Denial::BadReturn)));
    Ok(())
}

#[derive(Clone, Copy)]
enum Segment {
    Gates,
    Data,
    Gone,
    Unknown,
}

fn described(which: Segment) -> Option<Desc> {
    match which {
        Segment::Gates => procedure((1, 3, 5), 2),
        Segment::Data => segment((1, 3, 5), (true, false, false), 2),
        Segment::Gone => Some(Desc::gone()),
        Segment::Unknown => Some(Desc::unknown()),
    }
}

// The ring after a call of a word of a segment number, from a ring at an effective one; the process runs in segment 4.
fn called(
    which: Segment,
    (current, n): (u8, u8),
    segno: u16,
    word: u16,
) -> Option<Result<u8, Denial>> {
    match call(
        &starting(current)?,
        &pointer(n, segno, word)?,
        &described(which)?,
    ) {
        Ok(after) => Some(Ok(after.ring.number())),
        Err(denial) => Some(Err(denial)),
    }
}

#[test]
fn calls_are_denied_at_their_bounds(rt: HostRuntime) {
    let (gates, other, same) = (Segment::Gates, 0o11, 4);
    let came = [
        called(gates, (1, 1), other, 1),
        called(gates, (0, 0), other, 1),
        called(gates, (3, 3), other, 1),
        called(gates, (3, 3), other, 2),
        called(gates, (3, 3), same, 2),
        called(gates, (4, 4), same, 1),
        called(gates, (4, 4), same, 2),
        called(gates, (4, 4), other, 2),
        called(gates, (5, 5), other, 1),
        called(gates, (6, 6), other, 1),
        called(gates, (2, 3), other, 1),
        called(gates, (3, 3), same, 63),
        called(gates, (3, 3), same, 64),
        called(Segment::Data, (3, 3), other, 1),
        called(Segment::Gone, (3, 3), other, 1),
        called(Segment::Unknown, (3, 3), other, 1),
    ];
    let want = [
        Some(Ok(1)),
        Some(Err(Denial::UpwardCall)),
        Some(Ok(3)),
        Some(Err(Denial::Gate)),
        Some(Ok(3)),
        Some(Ok(3)),
        Some(Err(Denial::Gate)),
        Some(Err(Denial::Gate)),
        Some(Ok(3)),
        Some(Err(Denial::CallBracket)),
        Some(Err(Denial::RaisedRing)),
        Some(Ok(3)),
        Some(Err(Denial::OutOfBounds)),
        Some(Err(Denial::NotExecutable)),
        Some(Err(Denial::NoSegment)),
        Some(Err(Denial::UnknownSegment)),
    ];
    assert_eq!(rt; came, want);
}

// The ring after a return to a word of segment 11, at an effective ring.
fn back(which: Segment, n: u8, word: u16) -> Option<Result<u8, Denial>> {
    match ret(&starting(0)?, &pointer(n, 0o11, word)?, &described(which)?) {
        Ok(after) => Some(Ok(after.ring.number())),
        Err(denial) => Some(Err(denial)),
    }
}

#[test]
fn returns_are_denied_at_their_bounds(rt: HostRuntime) {
    let gates = Segment::Gates;
    let came = [
        back(gates, 0, 2),
        back(gates, 1, 2),
        back(gates, 3, 2),
        back(gates, 4, 1),
        back(gates, 3, 63),
        back(gates, 3, 64),
        back(Segment::Data, 3, 2),
        back(Segment::Gone, 3, 2),
        back(Segment::Unknown, 3, 2),
    ];
    let want = [
        Some(Err(Denial::BadReturn)),
        Some(Ok(1)),
        Some(Ok(3)),
        Some(Err(Denial::BadReturn)),
        Some(Ok(3)),
        Some(Err(Denial::OutOfBounds)),
        Some(Err(Denial::NotExecutable)),
        Some(Err(Denial::NoSegment)),
        Some(Err(Denial::UnknownSegment)),
    ];
    assert_eq!(rt; came, want);
}
