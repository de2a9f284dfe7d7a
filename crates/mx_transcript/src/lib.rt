//! Legal runs: which journal and transcripts a session can come to, however its processes interleave.
//!
//! The definitions in `specs/` are the rules, one idea a file: what a line asks for next (`Asking`), the writes that a
//! reply asks for (`Filling`), how a line's events answer that (`Events`, `Lines`), references (`Elements`), misses
//! (`Misses`), points (`Points`), words read (`Reads`), the full journal (`FullJournal`), gated falls (`Falls`), and
//! all of them together (`Legal`, one field a rule). The laws say how lines go on for whoever runs them (`SoFar`),
//! which writes are due (`Dues`), what a process knows of its own lines (`Standing`), which lines were denied
//! (`Denials`), what the rules make of rings (`Rings`), of each printed reference (`Printed`) and of the setup
//! (`SetupLines`); that a word changes only by a granted write (`Integrity`), is given only to a granted reference
//! (`Confidentiality`), and that what was taken is denied (`Revocation`); and that wrong runs are refused
//! (`WrongLines`, `PointerLines`, `CallLines`, `UpwardLines`, `WaitingLines`, `LinkLines`, `WrongPoints`, `WrongMisses`,
//! `WrongReads`, `WrongSources`, `WrongFalls`, `WrongJournals`, `WrongTranscripts`). The crate has the types of
//! transcripts, and small readers that machines and printers share. Stands on `mx_core` (references), `mx_reads` (the
//! read rule), `mx_effring` (the walk of an operand), `mx_call` (registers), `mx_upcall` (return gates), `mx_state`
//! (journal, history, descriptors), `mx_script` (sessions) and `mx_request`; takes no memory.
#![tactic(auto)]

mod entries;
mod laws;
mod numbering;
mod transcripts;

pub use entries::entry_at;
pub use laws::{
    a_snapped_link_begins_anew, a_wait_is_two_entries, a_word_changes_only_by_a_granted_write,
    a_word_is_given_only_to_a_granted_reference, an_upward_call_leaves_a_gate, denial_law, due_law,
    each_reference_is_judged, event_law, extends_law, full_law, line_law, one_outcome_law,
    rings_law, setup_lines_law, trace_law, walk_law, what_was_taken_is_denied,
    wrong_journals_are_refused, wrong_misses_are_refused, wrong_runs_are_refused,
};
pub use mx_core::{Element, Event, Kind, Outcome};
pub use numbering::{first_line, setup_entries};
pub use transcripts::{Event2, Recording, Result2, Steps, Transcript, Transcripts};
