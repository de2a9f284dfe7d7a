//! Worked rows of the words that processes share: what was worked out by hand, run by the calls of the supervisor, of passes and of
//! a cam.
//!
//! The crate has tests alone. They stand apart from `mx_rule`, so that its proofs are not made twice.
#![tactic(auto)]

#[cfg(test)]
mod tests;
