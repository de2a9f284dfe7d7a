//! One file for each library, and what they share.

mod calls;
mod descriptors;
mod ends;
mod names;
mod pages;
mod pointers;
mod walks;

use mx_sdw::{Aim, Brackets, Desc, Ring};

fn ring(n: u8) -> Option<Ring> {
    Ring::new(n)
}

// A segment of 64 words at page 8, with flags r, e and w.
fn segment((r1, r2, r3): (u8, u8, u8), (r, e, w): (bool, bool, bool), gate: u16) -> Option<Desc> {
    let brackets = brackets(r1, r2, r3)?;
    Some(Desc::segment(brackets, r, e, w, gate, 8, 64))
}

// The same without gates, of a class at which the authorization so stands.
fn classed(aim: Aim, (r1, r2, r3): (u8, u8, u8), (r, e, w): (bool, bool, bool)) -> Option<Desc> {
    let brackets = brackets(r1, r2, r3)?;
    Some(Desc::classed(aim, brackets, r, e, w, 0, 8, 64))
}

fn brackets(r1: u8, r2: u8, r3: u8) -> Option<Brackets> {
    Brackets::new(ring(r1)?, ring(r2)?, ring(r3)?)
}
