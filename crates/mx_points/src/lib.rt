//! The rules of a legal run that one process's part is held against by itself: its points, its misses, the entries that
//! its lines name, what follows a full journal, and the lines of the setup. Each is decided by one function, which gives
//! the place of the first deed or line at which the rule fails, exactly.
//!
//! Each rule is said of the first n deeds or lines (`specs/Fronts.antt`), and what holds of n holds of fewer
//! ([`fewer_law`]). Deciders over deeds are [`first_bad_point`] and [`first_bad_miss`], those over lines are
//! [`first_misnamed`], [`first_after_full`] and [`first_bad_setup`]; [`line_of_event`] turns a place among the events into
//! one among the lines. Each takes time in proportion to its list. Stands on the deeds of `mx_stores`, on the journal of `mx_state` and
//! on the rules of `mx_transcript`.
#![tactic(auto)]

mod deeds;
mod full;
mod laws;
mod lines;
mod misses;
mod naming;
mod points;
mod setup;

pub use deeds::{first_entry, seen};
pub use full::first_after_full;
pub use laws::fewer_law;
pub use lines::{Line, line_of_event, lines_of};
pub use misses::first_bad_miss;
pub use naming::{Naming, first_misnamed};
pub use points::first_bad_point;
pub use setup::first_bad_setup;
