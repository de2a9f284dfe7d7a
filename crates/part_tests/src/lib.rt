//! Tests of what judges the parts of a run: the read rule on worked runs of one cell and on a long run, and worked rows of the
//! rules on one process's part.
//!
//! The crate has tests alone. They stand apart from `mx_stores` and `mx_points`, so that their proofs are not made twice.
#![tactic(auto)]

#[cfg(test)]
mod points;
#[cfg(test)]
mod stores;
