//! The line at work: one machine that says what a line asks for next, and what an event that answers makes of it.
//!
//! The value of a [`LineAtWork`] is where a process stands within its line; it takes no memory. Its contracts tie it to the
//! rule of a line by one relation (`StandsAt`): what it asks for is the definition `next`, and an event that answers leads to
//! the course that the definition says. Over it a [`Process`] has its registers, what was recorded of its lines, and how far
//! the line at work has come ([`Progress`]). Nothing here knows who makes the entries or keeps the words, or in which order
//! processes step. Stands on `mx_script` (sessions), `mx_upcall` (registers and return gates), `mx_effring` (the walk of an
//! operand) and `mx_transcript` (the rule of a line, transcripts).
#![tactic(auto)]

mod asking;
mod at_work;
mod fills;
mod looking;
mod moves;
mod operands;
mod processes;
mod replies;

pub use asking::{Called, End, Next, Reference};
pub use at_work::{LineAtWork, one_course_law};
pub use fills::{
    Behind, Fill, Filled, LinkWords, Snap, behind_of, first_fill, section_in, snap_of,
};
pub use looking::{look_at, read_on};
pub use moves::Going;
pub use operands::{Place, Progress};
pub use processes::Process;
