//! Which runs a run text can say: the bounds of its numbers and names, and that a legal run is within them.
//!
//! `specs/Spelling.antt` says each bound once. The printer in `mx_text` spells a run, and a run within these bounds has a text
//! of its own. Stands on `mx_script` (sessions), `mx_state` (the journal) and `mx_transcript` (legal runs).
#![tactic(auto)]

mod laws;

pub use laws::{each_legal_run_is_spellable, each_reply_is_spellable};
