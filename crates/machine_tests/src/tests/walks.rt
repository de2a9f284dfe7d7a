//! The walk of an operand: a ring that a pointer word claims, and the eighth indirect word.

use super::{ring, segment};
use mx_effring::{Stuck, Walk, Want};
use mx_ptr::Pointer;
use mx_sdw::{Denial, Op, Ring, Word, judge};
use std::test::Fail;

// A pointer of a ring to a word, without further indirection.
fn pointer(ring: Ring, segno: u16, word: u16) -> Pointer {
    Pointer {
        ring,
        segno,
        word,
        further: false,
    }
}

// What comes of a word of a segment with first bracket 4, where a word is wanted.
fn fed(walk: &mut Walk, word: u64) -> Option<Result<(), Stuck>> {
    let (word, four) = (Word::new(word)?, ring(4)?);
    match walk.want() {
        Want::Word { .. } => Some(walk.feed(word, four)),
        Want::Done(_) => None,
    }
}

// To word 5 of segment 11, in ring 0.
const LAST: u64 = 0o1100001243;

// To its own word in segment 10, with further indirection.
const LOOPING: u64 = 0o1000000143;

#[test]
fn a_forged_ring_raises_nothing_down(rt: HostRuntime) -> Result<(), Fail> {
    let (one, four) = (ring(1).ok_or("a ring")?, ring(4).ok_or("a ring")?);
    let desc = segment((1, 4, 4), (true, false, true), 0).ok_or("a segment")?;
    let mut walk = Walk::start(one, pointer(one, 0o10, 0), true);
    let wanted = walk.want();
    let taken = fed(&mut walk, LAST);
    let asked = Want::Word {
        segno: 0o10,
        word: 0,
        ring: one,
    };
    let place = Want::Done(pointer(four, 0o11, 5));
    let judged = judge(&desc, Op::Write, four, 5);
    let came = ([wanted, walk.want()], taken, judged);
    assert_eq!(rt;
        came,
        ([asked, place], Some(Ok(())), Err(Denial::WriteBracket))
    );
    Ok(())
}

// Whether seven words with the further bit are taken.
fn seven(walk: &mut Walk) -> bool {
    (0..7).all(|_| fed(walk, LOOPING) == Some(Ok(())))
}

#[test]
fn an_eighth_word_ends_the_walk(rt: HostRuntime) -> Result<(), Fail> {
    let four = ring(4).ok_or("a ring")?;
    let mut walk = Walk::start(four, pointer(four, 0o10, 0), true);
    let seven = seven(&mut walk);
    let eighth = [fed(&mut walk, LOOPING), fed(&mut walk, LAST)];
    let place = Want::Done(pointer(four, 0o11, 5));
    let came = (seven, eighth, walk.want());
    assert_eq!(rt;
        came,
        (true, [Some(Err(Stuck::Limit)), Some(Ok(()))], place)
    );
    Ok(())
}
