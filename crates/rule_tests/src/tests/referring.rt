//! What is asked of a reference, and what it comes to.

use mx_core::Outcome;
use mx_sdw::{Op, Ring, Word};

// What a reference comes to: at which point, or by which entry it missed.
#[derive(Clone, Copy, Debug, PartialEq, Eq)]
pub(super) enum Seen {
    At(u32, Outcome),
    Missed(u32),
}

// What is asked: an operation on a word of a segment number, and the value to store.
#[derive(Clone, Copy)]
pub(super) struct Reference {
    pub(super) segno: u16,
    pub(super) op: Op,
    pub(super) ring: Ring,
    pub(super) word: u16,
    pub(super) value: Word,
}
