//! One journal before both plain supervisors: the plain supervisor's program and its second program, from plain lists.
//!
//! [`play`] has each request of the journal of a run text answered by both, and says which entry is the first that is not
//! as told: a reply is another, or the runs of pages that were given out and freed, or a descriptor of any number of any
//! process, is not the same in both. That both are what the definitions say is
//! proved where they stand; this shows it to who would rather see it. Stands on both programs, and on requests.
#![tactic(auto)]

mod entries;
mod played;
mod playing;

pub use playing::{Came, play};
