//! Tests of `show` and of what it tells, which no stored text shows: the statuses of the top call over the ends in memory, failing
//! ends among them, each denial's explanation at descriptors that were made for it, and what is told of printed runs with one change each.
//!
//! The crate has tests alone. They stand apart from `mx_show`, `mx_breach`, `mx_explain` and the program, so that none of these is proved twice. What
//! is shown of the teaching sessions is compared by the program `sessions`.
#![tactic(auto)]

#[cfg(test)]
mod tests;
