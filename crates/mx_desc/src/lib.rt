//! What the processes of a run and the supervisor hold of the words that they share: a reference is judged on descriptor
//! words, without a lock and without memory.
//!
//! A pass is the place of one process there, with its trace where it keeps one, what it judged on last, and its share of
//! the ledger of own entries; the supervisor has the present table, and tells processes by notes. Their types say that
//! what they keep is what the rule knows. The crate stands on the seats of `mx_rule` and looks into no descriptor.
#![tactic(auto)]

mod completing;
mod ending;
mod naming;
mod notes;
mod opening;
mod passes;
mod referring;
mod slots;
mod supers;
mod traces;
mod waiting;

pub use ending::close;
pub use naming::Naming;
pub use notes::Note;
pub use opening::{Passes, seats};
pub use passes::Pass;
pub use referring::Referred;
pub use supers::Super;
