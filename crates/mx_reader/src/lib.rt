//! The reader of run texts: from the bytes of a printed run back to its journal and its transcripts.
//!
//! The definitions in `specs/RunTexts.antt` say which bytes are the text of a run, by the printed text of `mx_text` and the
//! bounds of `mx_spelling`: what is read back is what was printed. [`read`] gives the one journal and the one list of
//! transcripts that have a text, and for a text of no run the first bad line: the line after the greatest number of leading
//! whole lines that begin the text of some run. `specs/FirstBadLine.antt` says so of any set of texts. [`read_beside`] gives
//! the same, and reads the journal and the parts side by side, on threads where they can be had. Each line is read exactly: an
//! entry by [`read_entry`], an event by [`read_event`], the end of a line by [`read_end`], and a reply by [`read_reply`],
//! `None` exactly where the text is of none that a run text can say. Stands on `mx_request` (requests, replies and their
//! fields), `mx_script` (lines), `mx_transcript` (events and results), `mx_spelling` and `mx_text`.
#![tactic(auto)]

mod beside;
mod cutting;
mod drafts;
mod entries;
mod events;
mod fields;
mod heads;
mod laws;
mod numbers;
mod parts;
mod reading;
mod replies;

pub use beside::read_beside;
pub use entries::read_entry;
pub use events::{read_end, read_event};
pub use laws::{bytes_have_one_first_bad_line, sessions_have_the_same_first_bad_line};
pub use reading::{ReadText, read};
pub use replies::read_reply;
