//! Whether the bytes of a source are a session and a legal run of it.
//!
//! A source is to hold a session text followed at once by a run text. [`Judgement::reach`] reads it to its end and gives the
//! judgement on its bytes: the run is a legal one, or this is its breach, or this line is the first bad one, or there are too
//! many bytes (`specs/Judgements.antt`). Bytes have one judgement at most (`bytes_have_one_judgement`), and each has its own
//! status and its own text, which [`Judgement::tell`] writes. Stands on `mx_both`, which reads both texts, and on `mx_legal`,
//! which finds the breach; the plain supervisor under which it judges is that of `mx_state`.
#![tactic(auto)]

mod judgements;
mod laws;
mod telling;

pub use judgements::{Judgement, Unjudged};
pub use laws::{a_judgement_has_the_due_status, bytes_have_one_judgement};
