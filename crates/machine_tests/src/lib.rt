//! Tests of the base and of the machine, of what no text shows: ends that fail, faults of names, runs of pages, and judging,
//! pointers, walks, calls and returns at their bounds, where no session leads.
//!
//! The crate has tests alone. They stand apart from the libraries, so that those are proved once. The expected values were
//! worked out by hand.
#![tactic(auto)]

#[cfg(test)]
mod tests;
