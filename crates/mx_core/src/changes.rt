//! What an entry of the journal changes of the table of descriptors, and which pages it gives out.

use mx_list::Sequence;
use mx_sdw::Desc;

/// One process's new descriptor of one number.
#[derive(Clone, Copy, Debug, PartialEq, Eq)]
pub struct Change {
    /// The process, from 1.
    pub process: u8,
    /// Its segment number.
    pub segno: u16,
    /// What the number stands for from that entry on.
    pub desc: Desc,
}

/// The changes of one entry, in the order in which they come.
pub type Changes = Sequence<Change>;

/// Pages in a row, of 64 words each.
#[derive(Clone, Copy, Debug, PartialEq, Eq)]
pub struct Run {
    /// The first of them.
    pub page: u16,
    /// How many.
    pub pages: u16,
}

/// The pages that one entry gives out.
pub type Runs = Sequence<Run>;
