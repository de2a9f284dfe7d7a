//! The rule of the shared table: descriptor words, flags, connect words, cells, the count and the answered length stand
//! in one table of words that processes share, and the world of the core machine that words and views show is good.
//!
//! A law for each kind of step says that it keeps the rule: the words and the view of the one who makes it step as the
//! core's kind says, and that the world stays good is the core's own law. It stands on `mx_core` and on `atomic_table`.
#![tactic(auto)]

mod appending;
mod cells;
mod decoding;
mod ending;
mod holding;
mod judging;
mod laws;
mod layout;
mod notes;
mod office;
mod opening;
mod passes;
mod rule;
mod views;

pub use appending::{Appends, Entry};
pub use cells::{Reads, Stores};
pub use ending::close;
pub use judging::{Asking, Loads, LoadsNone, Recalls};
pub use laws::{office_keeps, pass_keeps, seats_keep};
pub use layout::Layout;
pub use notes::{
    Dealing, Hearing, Hears, NoteSeat, Noting, ReportSeat, Reported, Reporting, Retiring,
};
pub use office::{Aim, Answers, Clears, Notices, Settles, Strikes, SuperSeat, Tells};
pub use opening::{PassSeats, Words, open, open_with_seats};
pub use passes::{Connects, Enters, Leaves, PassSeat};
pub use rule::{Board, Key, Law};
pub use views::{
    Cleaning, EntryView, NoteView, NumberAt, PassView, ReportView, SuperView, Told, View, WordAt,
};
