//! The eighteen kinds of step, and why one may not be enabled.

use crate::changes::{Changes, Runs};
use mx_list::Sequence;
use mx_sdw::{Op, Ring, Word};

/// A step of the machine. The kinds up to `Report` are the supervisor's, the others a process's; process 0 joins as the
/// supervisor.
#[derive(Debug, Drop)]
pub enum Step {
    /// An entry of the journal comes, with its changes of the table and the pages that it gives out.
    Append {
        process: u8,
        changes: Changes,
        given: Runs,
    },
    /// A changed descriptor word becomes a fault.
    Strike {
        process: u8,
        segno: u16,
    },
    /// The connect word of a process, whose changed words are all struck, tells it to empty its associative memory.
    Connect {
        process: u8,
    },
    /// The flag of a connected process that is inside is kept, to see later whether the process has left.
    Look {
        process: u8,
    },
    /// A connected process is outside, or has left: it uses the old access no more.
    Acknowledge {
        process: u8,
    },
    /// The pending entry is answered: every changed word is struck, and its process acknowledged.
    Answer,
    /// A fault becomes the present descriptor.
    Settle {
        process: u8,
        segno: u16,
    },
    /// A cell of a page that no descriptor covers becomes zero, before the page is given out again.
    Clear {
        cell: u32,
    },
    /// The supervisor makes a note of what it knows.
    Split,
    /// The supervisor hears how long a process's trace is.
    Report {
        process: u8,
        length: u32,
    },
    /// A process raises its flag.
    Enter {
        process: u8,
    },
    /// It reads its connect word, and empties its memory where it was told to.
    LoadConnect {
        process: u8,
    },
    /// It reads a descriptor word and judges on it.
    LoadDesc {
        process: u8,
        segno: u16,
        op: Op,
        ring: Ring,
        word: u16,
    },
    /// It judges on what its memory has.
    Recall {
        process: u8,
        segno: u16,
        op: Op,
        ring: Ring,
        word: u16,
    },
    /// It reads the cell of a read that it was granted.
    LoadCell {
        process: u8,
    },
    /// It writes the cell of a write that it was granted.
    StoreCell {
        process: u8,
        value: Word,
    },
    /// It lowers its flag.
    Leave {
        process: u8,
    },
    /// It takes a note, the note of this number.
    Join {
        process: u8,
        note: u32,
    },
}

/// Steps in the order in which they are made.
pub type Steps = Sequence<Step>;

/// Why a step is not enabled: the first of its conditions that fails, in the order in which the kinds are described. Of
/// several pairs, processes or pages the first is named.
#[derive(Clone, Copy, Debug, PartialEq, Eq)]
pub enum Cause {
    /// A process, number, page, cell, length or value out of range, or a pair or page listed twice.
    Range,
    /// The journal has 262,143 entries.
    Limit,
    /// An entry is pending.
    Pending,
    /// No entry is pending.
    NothingPending,
    /// The pending entry does not change the pair, or no pair of the process.
    NotChanged,
    /// This changed word is not struck.
    Unstruck { process: u8, segno: u16 },
    /// The connect word of the process is not that of the pending entry.
    Unconnected { process: u8 },
    /// The process is inside and has not left since a look.
    Inside { process: u8 },
    /// The process is outside.
    Outside { process: u8 },
    /// This process with a changed word has not acknowledged.
    Unacknowledged { process: u8 },
    /// The process has not just raised its flag.
    NotEntering { process: u8 },
    /// The process may not judge: it has not read its connect word since it raised its flag.
    NotReady { process: u8 },
    /// The memory of the process has not the number.
    NoRecall { process: u8, segno: u16 },
    /// The descriptor word is no fault.
    NotFault,
    /// A descriptor covers the page of the cell.
    InUse { page: u16 },
    /// A page that is given out has a cell that is not clean.
    NotClear { page: u16 },
    /// A new descriptor covers a page that is neither ready nor given out.
    NotGiven { page: u16 },
    /// The process holds no such reference.
    NoHold,
    /// No note of this number waits to be joined.
    NoNote,
}

/// Why a step was not made.
#[derive(Clone, Copy, Debug, PartialEq, Eq)]
pub enum StepError {
    /// It is not enabled.
    NotEnabled(Cause),
    /// Memory was refused. The step is enabled, and keeps an event, a number in an associative memory, or a note: others
    /// take none.
    Memory,
}
