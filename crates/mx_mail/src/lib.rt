//! Messages between processes.
//!
//! A contract sees the list of the processes, each with its state and the messages that wait for it in the order sent.
//! `send`, `take` and `end` are one definition each on such lists. The laws say the same in plain words: a message
//! waits behind those that were sent before it, `Nobody` is answered exactly where every other process is asleep, and
//! where no process runs, one that waits is ready. Only `new` and `send` take memory. Stands on `mx_sdw` for its words.
#![tactic(auto)]

mod laws;
mod mail;
mod processes;

pub use laws::{
    a_message_is_refused_in_order, a_message_waits_behind_the_others, an_end_drops_what_waits,
    nobody_where_the_others_are_asleep, one_that_is_not_ready_waits_for_another,
    one_that_waits_is_ready, the_oldest_message_is_taken,
};
pub use mail::{Mail, MailError, Taken};
pub use processes::ExecutionState;
