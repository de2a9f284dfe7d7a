//! Tests of the office on threads: who sleeps and who is woken, for whom an entry waits, and what another process does beside an
//! entry that waits.
//!
//! The crate has tests alone. They stand apart from `mx_office`, so that its proofs are not made twice.
#![tactic(auto)]

#[cfg(test)]
mod tests;
