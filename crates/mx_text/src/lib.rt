//! The printed run: the text of a journal and transcripts.
//!
//! The definition in `specs/RunText.antt` says once what the text of a run is. [`print`] sends it to a sink, at most one piece
//! held at a time, so that the memory taken does not grow with the text. Stands on `mx_io` (sinks), `mx_request` (the texts of
//! requests and replies), `mx_state` (the journal) and `mx_transcript` (transcripts).
#![tactic(auto)]

mod laws;
mod printing;

pub use laws::each_run_text_is_of_one_run;
pub use printing::{TextError, print};
