//! Script lines: what a process does next.

use mx_list::Sequence;
use mx_request::SharedRequest;
use mx_sdw::Word;

/// Where an operand's address begins: at a segment number up to octal 7777, or where pointer register 0 to 7 points.
#[derive(Clone, Copy)]
pub enum Base {
    Segment(u16),
    Register(u8),
}

/// The address of a word, `S|W` or `prN|W`, with word number W up to octal 37777, and with `,*` where an indirect word
/// stands there.
#[derive(Clone, Copy)]
pub struct Operand {
    pub base: Base,
    pub word: u16,
    pub indirect: bool,
}

/// One line of a script. A memory line stands for one operation on the accumulator A or on pointer register N, 0 to 7.
#[derive(Drop)]
pub enum Line {
    /// A supervisor call.
    Ask(SharedRequest),
    /// `set WORD`: A becomes this word.
    Set { word: Word },
    /// `epp N OPERAND`: pointer register N becomes the effective pointer.
    Epp { n: u8, operand: Operand },
    /// `lda OPERAND`: A becomes the word read.
    Lda { operand: Operand },
    /// `sta OPERAND`: A is stored.
    Sta { operand: Operand },
    /// `spri N OPERAND`: pointer register N is stored.
    Spri { n: u8, operand: Operand },
    /// `fetch`: the word at the procedure pointer is fetched, in the current ring.
    Fetch,
    /// `call OPERAND`: the process goes on at the effective pointer, in the ring that the call enters.
    Call { operand: Operand },
    /// `return OPERAND`: the process goes on at the effective pointer, in its ring.
    Return { operand: Operand },
}

/// The lines of one process, the last of which is its `logout`.
pub type Script = Sequence<Line>;

/// The scripts of processes 1, 2, .. in order.
pub type Scripts = Sequence<Script>;
