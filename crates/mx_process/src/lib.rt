//! Processes at the shared words: each refers without a lock, by its own pass and associative memory.
//!
//! A [`Process`] has its registers and return gates, its place in its script, what was recorded of its lines, its pass and its
//! auditor. Its type says how these hang together: each element and each miss of the pass is in the transcript, in order, and
//! the lines keep the line rule by what the process was told of (`Processes`). Where its auditor logs it out behind a line that
//! was denied, its last line is next (`Plans`). Whether a write that a reply asks for is granted is no fact of a process; so
//! this is promised unless one failed. [`Process::line_fast`] makes one attempt at a line: it takes no memory and no lock, and
//! waits for nobody. Stands on `mx_line` (what a line asks for), `mx_cam` (references through an associative memory), `mx_ties`
//! (what each step keeps) and `mx_office` (whose words these are).
#![tactic(auto)]

mod attempts;
mod entries;
mod filling;
mod gates;
mod legs;
mod lines;
mod looking;
mod misses;
mod naming;
mod processes;
mod settling;
mod stays;
mod turns;

pub use filling::Wrote;
pub use gates::{Gate, NoGate};
pub use lines::Turned;
pub use misses::{Fast, Miss};
pub use naming::Attending;
pub use processes::Process;
