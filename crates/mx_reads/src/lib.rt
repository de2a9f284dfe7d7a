//! The read rule on traces: which store a read stands for, what a cell holds, and that every deed of a process keeps both.
//!
//! What is known of a process at a point is one number: how many of its deeds. So the same laws serve processes that share
//! a lock and processes that share words alone.
#![tactic(auto)]

mod laws;

pub use laws::{load_law, quiet_law, store_law};
