//! What a legal run prints is read again, and found legal.
//!
//! Whoever checks a run reads a session text followed by a run text, by `mx_both`, and judges the session, the journal and
//! the transcripts that have these bytes as their texts. Here it is proved that the text of a session, followed by the run
//! text of any legal run of it, is both texts of that very run: each reply and each reference of it has a line. Stands on
//! `mx_spelling` (a legal run is within the bounds of its text) and `mx_both`.
#![tactic(auto)]

mod laws;

pub use laws::each_legal_run_has_both_texts;
