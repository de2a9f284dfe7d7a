//! The tests, by what they are about.

mod drills;
mod entrants;
mod journal;
mod replays;
mod rows;
