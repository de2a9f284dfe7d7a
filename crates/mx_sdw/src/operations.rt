//! The operations on a segment that the judging rule knows.

use crate::rings::Ring;

/// What a process does with a word of a segment. All but a fetch are made at the effective ring of their operand.
#[derive(Clone, Copy, Debug, PartialEq, Eq)]
pub enum Op {
    /// Reads the word as data.
    Read,
    /// Reads the word as the next indirect word of an operand.
    Indirect,
    /// Writes the word.
    Write,
    /// Fetches the word as an instruction, at the current ring.
    Fetch,
    /// Calls the word as a procedure, from the ring `current`; `same` says that the segment is the one that runs, and
    /// `upward` that a call from below the first bracket is carried out.
    Call {
        current: Ring,
        same: bool,
        upward: bool,
    },
    /// Returns to the word.
    Return,
}
