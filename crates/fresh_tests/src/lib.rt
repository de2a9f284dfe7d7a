//! Tests of the plain supervisor and of its second program, side by side: one journal, the same replies and the same
//! descriptors.
//!
//! The crate has tests alone. That both are what the definitions say is proved where they stand; a run shows it to who
//! would rather see it. A journal with a wrong reply in it shows that the comparison tells it. The journals of the
//! teaching sessions are played by the program `sessions`. Stands on `both_supervisors`, on drills and on runs in order.
#![tactic(auto)]

#[cfg(test)]
mod tests;
