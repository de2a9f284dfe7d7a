//! The plain supervisor again, from plain lists alone: a second program under the same definitions.
//!
//! [`Fresh`] is the state as the definitions speak of it: the hierarchy as the root, the branches in the order of their
//! making, whether each page is free, and the object maps; the processes with what each knows; and the messages that
//! wait for each. Every question goes through the lists from the front; there is no table, no map and no index.
//! [`Fresh::apply`] has the exact answer to each request and leaves the exact state that the definition gives, and
//! `descriptor` is the descriptor of the definition; a refusal, and the want of memory, change nothing. It tells
//! which run of pages was given out and freed, and not which descriptors changed. [`PlainSupervisor`] is what the two programs have in common,
//! and both meet it: so each answers the same journal the same. Shares with the plain supervisor its definitions and its
//! words, as a refusal, a status, a lot and who asks, and nothing of what it does; stands on names, access lists,
//! classes, object maps, search rules and descriptors.
#![tactic(auto)]

mod access;
mod answered;
mod asking;
mod branches;
mod changing;
mod connecting;
mod entries;
mod finding;
mod fresh;
mod hierarchy;
mod initial_lists;
mod knowing;
mod known;
mod linking;
mod listing;
mod lists;
mod mail;
mod making;
mod messages;
mod own_state;
mod pages;
mod plain_supervisor;
mod processes;
mod replies;
mod resolving;
mod serving;
mod supervisor;
mod walks;

pub use answered::Answered;
pub use branches::{Branch, Directory, Form, Segment};
pub use fresh::Fresh;
pub use hierarchy::FreshHierarchy;
pub use known::FreshKnown;
pub use plain_supervisor::PlainSupervisor;
pub use processes::FreshProcess;
