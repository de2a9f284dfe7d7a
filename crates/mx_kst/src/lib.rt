//! The known segment table of a process: its segment numbers and what they stand for, and its reference names by ring.
//!
//! A contract sees the last number that the process has, the list of the lots of the numbers given so far, and for each
//! ring the list of its names with their numbers. `initiate` and `terminate` are one definition each over these,
//! refusals in their order; what stays true of every table, and what the two calls leave, is said once more in words of
//! the numbers and names alone. Numbers are given in order and never used again, so `terminate` leaves the names where
//! they are stored: those of a number that is free again stand no more. Stands on entry names, on rings and brackets,
//! and on an ordered map.
#![tactic(auto)]

mod laws;
mod lots;
mod names;
mod numbers;
mod sections;
mod segments;

pub use laws::{known_segments_after_initiate, known_segments_after_terminate};
pub use lots::Lot;
pub use sections::Section;
pub use segments::{Known, Kst, KstError, UnknownSegno};
