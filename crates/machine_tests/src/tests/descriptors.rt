//! Judging on descriptors, the words in which they lie, and octal numbers.

use super::{classed, ring, segment};
use mx_sdw::{
    Aim, Cell, CellWord, Denial, Desc, DescView, DescWord, Op, Word, judge, new_ring,
    read_octal_number, write_octal,
};
use std::test::Fail;

// Brackets 1, 4, 4 with flags r and w.
fn data(op: Op, n: u8, word: u32) -> Option<Result<Cell, Denial>> {
    let desc = segment((1, 4, 4), (true, false, true), 0)?;
    Some(judge(&desc, op, ring(n)?, word))
}

#[test]
fn judges_data(rt: HostRuntime) -> Result<(), Fail> {
    let zero = ring(0).ok_or("a ring")?;
    let came = [
        data(Op::Read, 4, 63),
        data(Op::Write, 4, 0),
        data(Op::Write, 1, 0),
        data(Op::Read, 5, 0),
        data(Op::Read, 5, 64),
        data(Op::Fetch, 2, 0),
        Some(judge(&Desc::unknown(), Op::Read, zero, 0)),
        Some(judge(&Desc::gone(), Op::Read, zero, 0)),
    ];
    let want = [
        Some(Ok(Cell(575))),
        Some(Err(Denial::WriteBracket)),
        Some(Ok(Cell(512))),
        Some(Err(Denial::ReadBracket)),
        Some(Err(Denial::OutOfBounds)),
        Some(Err(Denial::NotExecutable)),
        Some(Err(Denial::UnknownSegment)),
        Some(Err(Denial::NoSegment)),
    ];
    assert_eq!(rt; came, want);
    Ok(())
}

// Brackets 1, 4, 4 with all flags, of a class at which the authorization so stands.
fn isolated(aim: Aim, op: Op) -> Option<Result<Cell, Denial>> {
    let desc = classed(aim, (1, 4, 4), (true, true, true))?;
    Some(judge(&desc, op, ring(1)?, 0))
}

#[test]
fn judges_classes(rt: HostRuntime) {
    let came = [
        isolated(Aim::Equal, Op::Write),
        isolated(Aim::Dominates, Op::Read),
        isolated(Aim::Dominates, Op::Fetch),
        isolated(Aim::Dominates, Op::Write),
        isolated(Aim::Neither, Op::Read),
        isolated(Aim::Neither, Op::Return),
        isolated(Aim::Neither, Op::Write),
    ];
    let want = [
        Some(Ok(Cell(512))),
        Some(Ok(Cell(512))),
        Some(Ok(Cell(512))),
        Some(Err(Denial::AimWrite)),
        Some(Err(Denial::AimRead)),
        Some(Err(Denial::AimRead)),
        Some(Err(Denial::AimWrite)),
    ];
    assert_eq!(rt; came, want);
}

// Brackets 1, 3, 5 with flag e and two gates.
fn gates() -> Option<Desc> {
    segment((1, 3, 5), (false, true, false), 2)
}

// A call from a ring at an effective one: the cell, and the ring in which it goes on.
fn called(current: u8, same: bool, n: u8, word: u32) -> Option<Result<(Cell, u8), Denial>> {
    entered(current, same, false, n, word)
}

fn entered(
    current: u8,
    same: bool,
    upward: bool,
    n: u8,
    word: u32,
) -> Option<Result<(Cell, u8), Denial>> {
    let (desc, current, ring) = (gates()?, ring(current)?, ring(n)?);
    let op = Op::Call {
        current,
        same,
        upward,
    };
    match judge(&desc, op, ring, word) {
        Ok(cell) => Some(Ok((cell, new_ring(&desc, op, ring).number()))),
        Err(denial) => Some(Err(denial)),
    }
}

#[test]
fn judges_gates(rt: HostRuntime) {
    let came = [
        called(5, false, 5, 1),
        called(5, false, 5, 2),
        called(6, false, 6, 1),
        called(0, false, 0, 0),
        called(2, false, 3, 0),
        called(2, true, 2, 2),
        entered(0, false, true, 0, 0),
        entered(0, true, true, 0, 2),
    ];
    let want = [
        Some(Ok((Cell(513), 3))),
        Some(Err(Denial::Gate)),
        Some(Err(Denial::CallBracket)),
        Some(Err(Denial::UpwardCall)),
        Some(Err(Denial::RaisedRing)),
        Some(Ok((Cell(514), 2))),
        Some(Ok((Cell(512), 1))),
        Some(Err(Denial::Gate)),
    ];
    assert_eq!(rt; came, want);
}

fn referred(op: Op, n: u8) -> Option<Result<Cell, Denial>> {
    Some(judge(&gates()?, op, ring(n)?, 0))
}

#[test]
fn gates_are_no_data(rt: HostRuntime) {
    let came = [referred(Op::Fetch, 4), referred(Op::Read, 0)];
    let want = [
        Some(Err(Denial::ExecuteBracket)),
        Some(Err(Denial::NotReadable)),
    ];
    assert_eq!(rt; came, want);
}

// What a descriptor word says.
fn view(number: u64) -> Option<DescView> {
    Some(DescWord::read(number)?.view())
}

// The word of a cell that process 1 stored at point 3.
fn cell_word(value: u64) -> Option<u64> {
    Some(CellWord::new(Word::new(value)?, 1, 3).number())
}

#[test]
fn lays_out_words(rt: HostRuntime) -> Result<(), Fail> {
    let data = classed(Aim::Equal, (4, 4, 4), (true, false, true)).ok_or("a segment")?;
    let below = classed(Aim::Dominates, (4, 4, 4), (true, false, false)).ok_or("a segment")?;
    let closed = classed(Aim::Neither, (4, 4, 4), (true, false, false)).ok_or("a segment")?;
    let views = [
        view(0xa494000100fc0003),
        view(0xa490000110fc0003),
        view(0xa484000110fc0003),
        view(0xa494000110fc0003),
        view(0x4000000000000009),
        view(0x4000000000040009),
    ];
    let numbers = [
        Some(DescWord::of(&DescView::Fault(9)).number()),
        cell_word(0o52),
    ];
    let set = Some(DescView::Set(3, data));
    let below = Some(DescView::Set(3, below));
    let closed = Some(DescView::Set(3, closed));
    let fault = Some(DescView::Fault(9));
    let words = [Some(0x4000000000000009), Some(0x004000300000002a)];
    assert_eq!(rt;
        (views, numbers),
        ([set, below, closed, None, fault, None], words)
    );
    Ok(())
}

#[test]
fn reads_and_writes_octal_numbers(rt: HostRuntime) -> Result<(), Fail> {
    let mut text = Vec::new(rt.alloc());
    write_octal(&mut text, 0)?;
    write_octal(&mut text, 0o37777)?;
    let read = [
        read_octal_number(b"777777777777", 12),
        read_octal_number(b"0", 1),
        read_octal_number(b"010", 5),
        read_octal_number(b"8", 5),
        read_octal_number(b"12345", 4),
        read_octal_number(b"", 4),
    ];
    let want = [Some((1 << 36) - 1), Some(0), None, None, None, None];
    assert_eq!(rt;
        (text.as_slice() == b"037777".as_slice(), read),
        (true, want)
    );
    Ok(())
}
