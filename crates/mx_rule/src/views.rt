//! What each seat knows of the world. No value of these types is made: a view is what the proofs know of a seat.
//!
//! What the core machine has as a function stands here as the list of what was put into it, the last first.

use mx_core::{Asked, Change, DescriptorWord, Kept, Run, Stage, Triple};
use std::collections::LinkedList;

/// With which number a pair settled.
pub struct Told {
    /// The process of the pair.
    pub process: u8,
    /// Its segment number.
    pub segno: u16,
    /// The entry since which its descriptor stands.
    pub number: u32,
}

/// A descriptor word as it was written.
pub struct WordAt {
    /// The process of the pair.
    pub process: u8,
    /// Its segment number.
    pub segno: u16,
    /// What was written.
    pub word: DescriptorWord,
}

/// A number that is kept of a process.
pub struct NumberAt {
    /// The process.
    pub process: u8,
    /// The number.
    pub number: u64,
}

/// An entry of the journal.
pub struct EntryView<E> {
    /// How many came before it.
    pub before: u32,
    /// Whose it is.
    pub process: u8,
    /// How long that process's trace was known to be.
    pub mark: u32,
    /// What it changed.
    pub changes: LinkedList<Change>,
    /// Which pages it gave out.
    pub given: LinkedList<Run>,
    /// What the journal says of it.
    pub entry: E,
}

/// What made cells clean or covered, and pages ready or not.
pub enum Cleaning {
    /// This cell was made zero.
    Cleared(u32),
    /// An entry covered pages with its changes, and gave pages out.
    Covered(LinkedList<Change>, LinkedList<Run>),
}

/// What the seat of a process knows: all of the process but its connect word, and its trace.
pub struct PassView<E> {
    /// The process.
    pub process: u8,
    /// How many entries came before the opening.
    pub start: u32,
    /// Of how many entries it was told.
    pub floor: u32,
    /// The notes that it took.
    pub told: LinkedList<NoteView<E>>,
    /// Where it stands.
    pub stage: Stage,
    /// The turn that it took last.
    pub turn: u64,
    /// Its flag.
    pub flag: u64,
    /// What its connect word was when its memory was last known to be right.
    pub cleared: u32,
    /// Its associative memory.
    pub memory: LinkedList<Triple>,
    /// What it judged on last.
    pub basis: Option<Triple>,
    /// What it was granted there whose cell step is still to come.
    pub hold: Option<Asked>,
    /// What it did.
    pub trace: LinkedList<Kept>,
    /// The entries since the opening that it was told of.
    pub history: LinkedList<EntryView<E>>,
    /// Those that it was told of before it took its last note.
    pub earlier: LinkedList<EntryView<E>>,
}

/// What the seat of a note knows: what the supervisor tells a process.
pub struct NoteView<E> {
    /// The number of the note.
    pub number: u32,
    /// How many entries came before the opening.
    pub start: u32,
    /// How many entries were answered.
    pub floor: u32,
    /// What was settled.
    pub told: LinkedList<Told>,
    /// The entries since the opening.
    pub history: LinkedList<EntryView<E>>,
}

/// What the seat of a report knows: what a process tells the supervisor.
pub struct ReportView {
    /// The process.
    pub process: u8,
    /// Of how many entries it was told.
    pub floor: u32,
    /// How long its trace is.
    pub length: u32,
    /// The number that it missed last.
    pub segno: u16,
    /// By which entry.
    pub by: u32,
}

/// What the supervisor's seat knows: the tables, the words that it alone writes, and what it keeps.
pub struct SuperView<E> {
    /// How many processes there are.
    pub processes: u8,
    /// How many numbers each has.
    pub numbers: u16,
    /// How many entries came before the opening.
    pub start: u32,
    /// How many entries are answered.
    pub answered: u32,
    /// How many there are.
    pub length: u32,
    /// The descriptors at the opening, as changes of a table where all is unknown.
    pub base: LinkedList<Change>,
    /// The entries since.
    pub history: LinkedList<EntryView<E>>,
    /// The descriptor words that were written since.
    pub words: LinkedList<WordAt>,
    /// What was settled since.
    pub told: LinkedList<Told>,
    /// The reports that it took.
    pub reported: LinkedList<ReportView>,
    /// The connect words that were written.
    pub connects: LinkedList<NumberAt>,
    /// The looks that are kept.
    pub looks: LinkedList<NumberAt>,
    /// The processes that acknowledged the pending entry.
    pub acknowledged: LinkedList<u8>,
    /// What made cells clean or covered, and pages ready or not.
    pub cleanings: LinkedList<Cleaning>,
    /// How many notes were made.
    pub made: u32,
    /// The first process whose seat was not dealt yet.
    pub next: u8,
    /// The last views of processes whose seats came back.
    pub retired: LinkedList<PassView<E>>,
}

/// What a seat knows, by whose seat it is.
pub enum View<E> {
    /// The supervisor's.
    Super(SuperView<E>),
    /// A process's.
    Pass(PassView<E>),
    /// That of a note that waits to be joined.
    Note(NoteView<E>),
    /// That of a report that waits to be joined.
    Report(ReportView),
    /// That of a seat which was joined to another.
    Spent,
}
