//! Tests of a run that no stored session shows: ends that fail, words that are not accepted, gates that hold a process, a caller's
//! own auditors, what a caller reads of a session, a drill or a log, and run texts that are read back.
//!
//! The crate has tests alone. They stand apart from `mx_run` and the crates below it, so that no proofs are made twice.
#![tactic(auto)]

#[cfg(test)]
mod tests;
