//! What an attempt at a line came to.

use mx_sdw::Ring;

/// A reference that missed: its segment number was changed by this entry, of which the process was not told yet.
#[derive(Clone, Copy, Debug, PartialEq, Eq)]
pub struct Miss {
    pub segno: u16,
    pub by: u32,
}

/// What an attempt at a line came to.
#[derive(Clone, Copy, Debug, PartialEq, Eq)]
pub enum Fast {
    /// The line ended.
    Done,
    /// A reference missed: the word of this number is to be settled first.
    Missing { segno: u16, by: u32 },
    /// An indirect word was a link, which is to be snapped first, by a call in this ring.
    Link { segno: u16, word: u16, ring: Ring },
    /// The line is a request.
    Journal,
}
