//! References to words, as transcripts print them and traces keep them.

use mx_sdw::{Denial, Desc, Op, Ring, Word};

/// Which kind of reference an element is.
#[derive(Clone, Copy, Debug, PartialEq, Eq)]
pub enum Kind {
    /// A word is read.
    Read,
    /// An indirect word is read, on the way of an operand.
    Ind,
    /// A word is written.
    Write,
    /// An instruction is fetched.
    Fetch,
    /// A call enters a procedure.
    Call,
    /// A return goes back to one.
    Return,
}

/// What a reference came to.
#[derive(Clone, Copy, Debug, PartialEq, Eq)]
pub enum Outcome {
    /// The word that was read, with the process that stored it (0: nobody yet) and the point of that store.
    Read { value: Word, writer: u8, stamp: u32 },
    /// The word that was written.
    Written { value: Word },
    /// The ring in which a granted call or return goes on.
    Entered { ring: Ring },
    /// The access does not allow it.
    Denied(Denial),
}

/// One reference: to this word of this segment number, at this effective ring, judged on the access that the first
/// `point` entries of the journal leave.
#[derive(Clone, Copy, Debug, PartialEq, Eq)]
pub struct Element {
    /// Which kind of reference.
    pub kind: Kind,
    /// The segment number.
    pub segno: u16,
    /// The word of the segment, from 0.
    pub word: u16,
    /// The effective ring.
    pub ring: Ring,
    /// On how many entries of the journal it was judged.
    pub point: u32,
    /// What came of it.
    pub outcome: Outcome,
}

/// What a process sees of the memory.
#[derive(Clone, Copy, Debug, PartialEq, Eq)]
pub enum Event {
    /// A reference.
    Seen(Element),
    /// Its access to a number was changed by this entry of the journal, so it asks again.
    Missing { segno: u16, by: u32 },
}

/// An event with what the machine keeps beside it.
#[derive(Clone, Copy, Debug, PartialEq, Eq)]
pub enum Kept {
    /// A reference, with the operation that was asked for and the descriptor that it was judged on.
    Judged {
        element: Element,
        op: Op,
        desc: Desc,
    },
    /// A miss, as in [`Event::Missing`].
    Missed {
        segno: u16,
        by: u32,
    },
}
