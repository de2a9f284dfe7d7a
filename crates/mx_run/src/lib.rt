//! The top call: from the words of the command line and the bytes of a session's text to the bytes of its run, or to the judgement
//! on a run that stands behind it.
//!
//! A command comes to a [`Verdict`]: the session ran, or a printed run was judged, or the words, a line or the length are refused.
//! `multics` promises that status 0 is the headline (`Done`), that status 0, 2, 5, 6 or 7 is that of a right verdict, written whole
//! (`Verdicts`), and that every other status has its cause (`Statuses`). The definitions that it speaks of stand below it: what a
//! session text is in `mx_script`, what a legal run is in `mx_transcript`, what a run text is in `mx_text`, and what the judgement on
//! a printed run is in `mx_check`; `read_session`, `run`, `print` and `Judgement::reach` carry the parts of the promise.
#![tactic(auto)]

mod commands;
mod verdicts;
mod words;

pub use commands::{OUT_OF_MEMORY, multics};
pub use mx_proc::{Gate, NoGate};
pub use verdicts::Verdict;
