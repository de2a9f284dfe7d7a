//! The supervisor behind one value: the plain supervisor's state, and the journal of all that was asked of it.
//!
//! [`Supervisor::new`] runs a session's setup and gives the initializer's part of the run; [`Supervisor::enter`] makes a
//! process's call, below the journal's limit, and tells what came of it: which descriptors changed, and which pages were
//! given out and freed. `specs/Supervised` says what is true of every supervisor: its journal is
//! one history of the plain supervisor, which begins with the setup, and whose later entries are of the processes. Stands
//! on `mx_state` (the plain supervisor), `mx_script` (sessions), `mx_transcript` and `mx_ties` (what the setup's part is).
#![tactic(auto)]

mod answering;
mod setups;
mod supervisors;

pub use supervisors::{EnterError, Entered, Supervisor};
