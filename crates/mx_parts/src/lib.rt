//! Whether the lines of a printed process's part keep the line rule: the first that does not.
//!
//! [`first_bad_line`] holds each line against the machine by which processes go through their lines (`mx_line`), so that the
//! rule is not written a second time: each event has to be an answer to what the line asks for, and its result the end for
//! which it asks. A printed line is the next of the script; behind one that was denied it may be the last, and then the part
//! is over (`nexts.rt`). The contract is exact in both directions. A request is told from another by its line. Stands on the
//! rules of a legal run (`mx_transcript`), on the line at work (`mx_line`) and on what a run text can say (`mx_spelling`).
#![tactic(auto)]

mod answers;
mod departures;
mod elements;
mod ends;
mod lines;
mod nexts;
mod parts;
mod requests;
mod scripts;
mod settings;

pub use departures::{Departure, departure_at};
pub use elements::kind_of;
pub use parts::first_bad_line;
