//! A legal run of a session in words: line by line, or in time.
//!
//! [`show_lines`] asks of its caller that the run is a legal one of that session. The sink gains the lines of the setup and of each
//! process, each under its number and in the session's own spelling, and behind each what is told of it; where a part is cut, one line
//! says which lines were left out (`Lines`). [`show_story`] asks the same, and tells the moments of all processes in the order in which
//! `mx_judging` brings them. Behind each entry of the journal stands whose access it changed, from what to what, and the access list
//! entry that decides it.
//!
//! The words are a [`Teller`]'s, which tells of one process. Beside each reference stands the access that it was judged on, and
//! behind a denial the comparison of its rule, with the numbers of that access (`mx_judging`). Behind a refusal stands what was wanted
//! and what was given, as the requests leave it that were done ([`Notes`], which a [`Ledger`] of these makes). No clause says anything of
//! the words; they are tested alone, those on return gates too, which are told from the rings that calls and returns enter. A drawing of
//! the run takes of them what it needs.
#![tactic(auto)]

mod because;
mod changes;
mod chronicles;
mod columns;
mod errors;
mod gates;
mod ledger;
mod lines;
mod narrators;
mod notes;
mod numbers;
mod refusals;
mod standings;
mod stops;
mod stories;
mod telling;
mod tree;
mod words;

pub use errors::ShowError;
pub use ledger::Ledger;
pub use lines::{
    add_heading, add_left_out, add_request_line, add_script_line, send_when_long, show_lines,
};
pub use notes::Notes;
pub use standings::Renewal;
pub use stories::show_story;
pub use telling::Teller;
pub use words::{access_word, add_reply, extent, id_text, is_unmatched, kind_word, modes};
