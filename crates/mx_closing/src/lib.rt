//! The two ends of a run on shared words: before it the setup of its session is entered, and the words are opened after
//! it; at its end the passes of all processes come back, and the run is closed.
//!
//! [`prepare`] gives words that have the plain supervisor's descriptors, and a seat that keeps the journal. [`finish`]
//! tells what the law of a finished run asks of the office (`IsClosed` of `mx_ties`): each pass was told of a front of the
//! journal, its elements were judged on the plain supervisor's descriptors at their points, its misses name entries that
//! changed their pairs, and all that was read is right. Under it stands one law over what the seats know
//! (`specs/Closing`). Stands on `mx_rule` and `mx_desc` (seats and passes), `mx_sup` (histories of the plain supervisor)
//! and `mx_ties`.
#![tactic(auto)]

mod finishing;
mod laws;
mod opening;
mod preparing;

pub use finishing::finish;
pub use laws::closing_law;
pub use opening::{layout_of, opening_key};
pub use preparing::{Prepared, prepare};
