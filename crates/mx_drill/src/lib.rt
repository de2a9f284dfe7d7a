//! The drill: a session for each number from 0 to 999,999, made by formulas, and the summary of a run.
//!
//! In the session of a number four processes store, load, take each other's access away and give it back, and are denied,
//! all at once, and yet what each of them is granted does not depend on how they interleave. So a run of it is summed up by a
//! few numbers that are the same at each run. [`session_of`] gives the session, whose definition is `Drills`; [`summary`] the
//! text that sums up a journal and transcripts, whose definition is `Summaries`; [`session_text`] the text of any session; and
//! [`read_number`] the number that a word spells (`Numbers`).
//! Stands on `mx_script` (sessions) and `mx_transcript` (transcripts).
#![tactic(auto)]

mod laws;
mod names;
mod numbers;
mod rounds;
mod sessions;
mod summaries;
mod writing;

pub use laws::{each_drill_has_its_text, each_drill_is_short};
pub use numbers::read_number;
pub use sessions::session_of;
pub use summaries::summary;
pub use writing::session_text;
