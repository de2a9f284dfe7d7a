//! Stored sessions: their files, and their runs.
//!
//! [`run_once`] calls the top call of `mx_run` over a text in memory, and [`drill_once`] over a drill's number: what they print is the
//! run text of a legal run of that session, or the summary of one of that drill, and any other status is the one that is due.
//! [`check_once`] has a printed run judged.
//! [`run_in_order`] makes the lines of the processes in a chosen order, on one thread: what it prints is the run text of a legal run too.
#![tactic(auto)]

mod files;
mod orders;
mod runs;

pub use files::{read, write};
pub use orders::run_in_order;
pub use runs::{Ended, check_once, drill_once, run_once};
