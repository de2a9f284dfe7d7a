//! The references of a legal run, each with the access that it was judged on; why an access is denied; and what can have happened when.
//!
//! [`judge_all`] asks of its caller that the run is a legal one of that session. It gives the references of all processes in the order of
//! their points, each once and those of a process in its order (`References`), and beside each the descriptor at its point, with the entry
//! of the access list that decided its modes (`Judging`). For this a [`Replay`] runs the plain supervisor once more over the journal
//! (`Replays`), and keeps what each entry changed. [`source_of`] is the store that a read names (`Sources`).
//!
//! [`explain`] finds the comparison of a denial's rule, with the numbers of an access and a reference (`Reasons`). [`lacking`] says
//! why a letter of a directory's modes is not left in a ring, and [`closing`] the same of a segment's modes (`Wants`). The words for
//! these are put together of parts, a [`Part`] a word or a number, as all sentences are that are told of a run; they are tested alone.
//!
//! A moment is what a line did at one place of the journal. [`courses_of`] cuts what each process did into its moments, whose times never
//! fall; [`in_time`] brings the moments of all processes into one order: those of each process stand in it each once and in their order,
//! and none stands behind a later one (`Stories`). Stands on `mx_state` for the access at each point, and on `mx_transcript` for the run.
#![tactic(auto)]

mod courses;
mod cutting;
mod judging;
mod order;
mod parts;
mod reasons;
mod replays;
mod sources;
mod wants;

pub use courses::{Course, Deed, Moment, Store};
pub use cutting::courses_of;
pub use judging::{Accesses, FIRST_RING, judge_all};
pub use order::{Turn, in_time};
pub use parts::{NOTHING, Part, add_parts, add_printable, add_sentences, ring};
pub use reasons::{Bracket, Reason, explain};
pub use replays::{Access, Changed, Judged, Replay};
pub use sources::{StoredBy, source_of};
pub use wants::{Closed, Lack, Letter, Use, closing, lacking};
