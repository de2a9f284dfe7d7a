//! Search rules, and the search for a segment by them.
//!
//! A contract sees the rules as the plain list of 1 to 16 rules. What a rule finds under a name is the meaning of a
//! trait, [`Finder`]; [`search`] gives the first answer of the rules that is something, said as a function of the
//! answers and, once more, by the place of that answer. Stands on names and paths.
#![tactic(auto)]

mod rules;
mod searching;

pub use rules::{Rule, Rules};
pub use searching::{Finder, Found, search};
