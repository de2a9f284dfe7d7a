//! Auditors: each process of a session may have one, which is told of its denials.
//!
//! [`Auditor`] is the interface. Contracts see an auditor's account: the denials that it was told of in order, each with
//! its line's number in the session text, and for how many more it has room. [`AuditLog`] is one that keeps them in
//! memory, all of which it takes when it is made. A box of an auditor is one too. Stands on `mx_sdw` for the denials.
#![tactic(auto)]

mod auditors;
mod laws;
mod logs;

pub use auditors::{Auditor, Verdict};
pub use laws::{accounts_grow, denials_add_up, room_for_the_most_is_enough};
pub use logs::AuditLog;
