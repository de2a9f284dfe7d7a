//! Tests of what judges printed runs: worked rows, each by both plain supervisors; and of the reading of a session and a run together.
//!
//! The crate has tests alone. They stand apart from `mx_legal`, so that its proofs are not made twice.
#![tactic(auto)]

#[cfg(test)]
mod tests;
