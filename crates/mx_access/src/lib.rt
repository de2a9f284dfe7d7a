//! On which access each event of a run stood: one pass of a plain supervisor over the journal.
//!
//! [`access_of`] answers for each transcript, and in it for each event in order: what deed it was, a word's cell in the use
//! that it has at the reference's printed point; on which descriptor a reference was judged, that of its printed point; and
//! whether the entry by which a miss came changed the descriptor of its pair. What is to be asked is sorted by points, so
//! that the supervisor goes through the journal once: n log n steps for n events, beside those of the supervisor. By what it
//! said the rows are made, each on a thread of its own where one can be had; [`access_in_turn`] makes them on one.
//! It is written over the trait of plain supervisors, so that either may answer. Stands on the rules of a legal run
//! (`mx_transcript`), on the deeds of the read rule (`mx_stores`), and on what a text can say (`mx_spelling`).
#![tactic(auto)]

mod access;
mod answers;
mod laws;
mod passing;
mod questions;

pub use access::{Access, access_in_turn, access_of};
pub use laws::{change_law, descriptors_are_admissible};
