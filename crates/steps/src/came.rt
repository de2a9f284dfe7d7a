//! What comes of a line, and its spelling.

use mx_core::{Cause, Element, Held, Kept, Kind, Outcome};
use mx_sdw::{Denial, Word};
use std::fmt::{self, Display, Formatter, Write};

/// What comes of steps, or what a world answers.
#[derive(Clone, Copy)]
pub enum Came {
    /// The steps were made.
    Done,
    /// One is not enabled. Those before it were made.
    Refused(Cause),
    /// Memory for one was wanting.
    Memory,
    /// There is no world, or it may not open with its table.
    NoWorld,
    /// The world has no such process, number, cell or event.
    Nothing,
    /// Whether a world may open.
    Answer(bool),
    /// A descriptor that stands since this entry.
    Valid(u32),
    /// A descriptor word that was struck by this entry.
    Fault(u32),
    /// A cell.
    Cell(Held),
    /// An event.
    Event(Kept),
    /// A number of entries.
    Number(u32),
}

impl Display for Came {
    fn fmt<W: Write>(&self, f: &mut Formatter<W>) -> fmt::Result {
        match self {
            Came::Done => f.write_str("done"),
            Came::Refused(cause) => write_cause(f, cause),
            Came::Memory => f.write_str("memory"),
            Came::NoWorld => f.write_str("no_world"),
            Came::Nothing => f.write_str("nothing"),
            Came::Answer(true) => f.write_str("yes"),
            Came::Answer(false) => f.write_str("no"),
            Came::Valid(number) => write_one(f, "valid", *number),
            Came::Fault(number) => write_one(f, "fault", *number),
            Came::Cell(held) => write_held(f, held),
            Came::Event(kept) => write_event(f, kept),
            Came::Number(number) => write!(f, "{number}"),
        }
    }
}

// A word and a number.
fn write_one<W: Write>(f: &mut Formatter<W>, word: &str, number: u32) -> fmt::Result {
    write!(f, "{word} {number}")
}

// A word, and a number of a process.
fn write_pair<W: Write>(f: &mut Formatter<W>, word: &str, process: u8, segno: u16) -> fmt::Result {
    write!(f, "{word} {process} {segno:o}")
}

fn write_cause<W: Write>(f: &mut Formatter<W>, cause: &Cause) -> fmt::Result {
    let word = cause_word(cause);
    match *cause {
        Cause::Range
        | Cause::Limit
        | Cause::Pending
        | Cause::NothingPending
        | Cause::NotChanged
        | Cause::NotFault
        | Cause::NoHold
        | Cause::NoNote => f.write_str(word),
        Cause::Unconnected { process }
        | Cause::Inside { process }
        | Cause::Outside { process }
        | Cause::Unacknowledged { process }
        | Cause::NotEntering { process }
        | Cause::NotReady { process } => write_one(f, word, u32::from(process)),
        Cause::InUse { page } | Cause::NotClear { page } | Cause::NotGiven { page } => {
            write_one(f, word, u32::from(page))
        }
        Cause::Unstruck { process, segno } | Cause::NoRecall { process, segno } => {
            write_pair(f, word, process, segno)
        }
    }
}

fn cause_word(cause: &Cause) -> &'static str {
    match cause {
        Cause::Range => "range",
        Cause::Limit => "limit",
        Cause::Pending => "pending",
        Cause::NothingPending => "nothing_pending",
        Cause::NotChanged => "not_changed",
        Cause::Unstruck { .. } => "unstruck",
        Cause::Unconnected { .. } => "unconnected",
        Cause::Inside { .. } => "inside",
        Cause::Outside { .. } => "outside",
        Cause::Unacknowledged { .. } => "unacknowledged",
        Cause::NotEntering { .. } => "not_entering",
        Cause::NotReady { .. } => "not_ready",
        Cause::NoRecall { .. } => "no_recall",
        Cause::NotFault => "not_fault",
        Cause::InUse { .. } => "in_use",
        Cause::NotClear { .. } => "not_clear",
        Cause::NotGiven { .. } => "not_given",
        Cause::NoHold => "no_hold",
        Cause::NoNote => "no_note",
    }
}

fn write_held<W: Write>(f: &mut Formatter<W>, held: &Held) -> fmt::Result {
    write_read(f, held.value, held.writer, held.stamp)
}

fn write_read<W: Write>(f: &mut Formatter<W>, value: Word, writer: u8, stamp: u32) -> fmt::Result {
    let value = value.value();
    write!(f, "word {value:o} from {writer} stamp {stamp}")
}

// An event, as a run prints it.
fn write_event<W: Write>(f: &mut Formatter<W>, kept: &Kept) -> fmt::Result {
    match kept {
        Kept::Judged { element, .. } => {
            write_reference(f, element)?;
            f.write_str(" ")?;
            write_outcome(f, &element.outcome)
        }
        Kept::Missed { segno, by } => write!(f, "missing {segno:o} by {by}"),
    }
}

fn write_reference<W: Write>(f: &mut Formatter<W>, element: &Element) -> fmt::Result {
    let kind = kind_word(element.kind);
    let (segno, word, ring) = (element.segno, element.word, element.ring.number());
    let point = element.point;
    write!(f, "{kind} {segno:o}|{word:o} ring {ring} point {point}")
}

fn kind_word(kind: Kind) -> &'static str {
    match kind {
        Kind::Read => "read",
        Kind::Ind => "ind",
        Kind::Write => "write",
        Kind::Fetch => "fetch",
        Kind::Call => "call",
        Kind::Return => "return",
    }
}

fn write_outcome<W: Write>(f: &mut Formatter<W>, outcome: &Outcome) -> fmt::Result {
    match *outcome {
        Outcome::Read {
            value,
            writer,
            stamp,
        } => write_read(f, value, writer, stamp),
        Outcome::Written { value } => write_written(f, value),
        Outcome::Entered { ring } => write_one(f, "enter", u32::from(ring.number())),
        Outcome::Denied(denial) => write_denied(f, denial),
    }
}

fn write_written<W: Write>(f: &mut Formatter<W>, value: Word) -> fmt::Result {
    let value = value.value();
    write!(f, "word {value:o}")
}

fn write_denied<W: Write>(f: &mut Formatter<W>, denial: Denial) -> fmt::Result {
    f.write_str("denied ")?;
    f.write_str(denial.text())
}
