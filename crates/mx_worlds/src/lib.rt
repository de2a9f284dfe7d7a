//! The core machine, run: a world of which what later steps and readers read is kept.
//!
//! The definitions of `mx_core` say what a world is, which steps are enabled in it and what each leaves. [`World`] makes
//! a step exactly where it is enabled, and then shows what the definitions leave; else it tells the first condition that
//! fails, and changes nothing. Lists of steps go the same way.
#![tactic(auto)]

mod acknowledging;
mod answering;
mod appending;
mod associative;
mod cells;
mod clearing;
mod covering;
mod entering;
mod judging;
mod listing;
mod marking;
mod noting;
mod opening;
mod rows;
mod seats;
mod sitting;
mod stepping;
mod striking;
mod tables;
mod worlds;

pub use associative::AssociativeMemory;
pub use seats::{Seat, Trace};
pub use tables::DescList;
pub use worlds::World;
