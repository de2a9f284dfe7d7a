//! The reader of a session text followed at once by a run text, as they are checked together.
//!
//! `specs/BothTexts.antt` says which bytes are both: the text of a session, by `mx_script`, and then that of a journal and
//! transcripts, by `mx_reader`. [`read_both`] gives the one session, journal and transcripts that have the bytes as their
//! texts, and for other bytes the first bad line, counted from the first line of the session: the line after the greatest
//! number of leading whole lines that begin some session's text followed by some run's. Where the second text begins is no
//! part of the definition: it follows that this is behind the first line `end`. Stands on `mx_script` and `mx_reader`, which
//! read the one text and the other.
#![tactic(auto)]

mod cutting;
mod laws;
mod reading;

pub use laws::{
    both_texts_are_of_one_run, bytes_have_one_first_bad_line, the_run_text_follows_the_first_end,
};
pub use reading::{Both, ReadBoth, read_both};
