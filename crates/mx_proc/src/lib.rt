//! Running a session: its processes at the shared words, each on a thread of its own, or all in turn on one.
//!
//! [`run`] prepares the session and opens its office, gives each process its auditor, and has each do its lines on a thread
//! of its own; [`run_in_order`] has them take turns on this thread, in a chosen order. What all have left then makes a legal
//! run: each process knows that its own lines are right by what it was told of, and the office closes the run with the
//! passes of all. Each auditor was told what the transcript of its process says, and was heeded: a process that it logged out
//! behind a denial did no further line but its `logout`. All auditors are put back in their order. Stands on `mx_process` (a
//! process with its pass), `mx_office` (the lock, and who keeps the journal), `mx_closing` (both ends of a run) and `mx_ties`
//! (why the run is legal).
#![tactic(auto)]

mod ending;
mod lists;
mod running;
mod seating;
mod sleepers;
mod starting;
mod threads;
mod turns;

pub use mx_process::{Gate, NoGate};
pub use running::{run, run_in_order};
