//! Whether a printed run is a legal run of a session, and where it is not.
//!
//! [`legal`] gives the first breach of a run, exactly: the first bad entry of its journal; else its first bad line, in the
//! order of processes and then of lines; else the first process with an entry that no line names. What is bad is the rules of
//! a legal run, said of each entry at its place (`specs/Entries.antt`) and of the first lines of a part
//! (`specs/Fronts.antt`), so that no rule is written a second time. Laws say that a run is legal exactly where nothing in it
//! is a breach ([`legal_law`], [`no_breach_law`]), and that it has one breach at most ([`one_breach_law`]). Each rule has one
//! decider, most of them in crates below (`mx_access`, `mx_parts`, `mx_points`, `mx_stores`); the breach is the least place
//! that they give. A part has all lines of its process, or is cut behind a line that was denied: it is over where it ends with
//! the last line, and behind a denied line that line may be blamed (`blame.rt`). The parts of the session's processes are judged
//! side by side, each on a thread where one can be had, and their judgements are gone through in order (`judging.rt`).
//! [`failing_of`] has these places one beside the other, and [`supervisor_at`] the plain supervisor at a place, for who tells why
//! a run is not legal. It is written over the trait of plain supervisors, so that either may judge. It takes what a text can say,
//! and tells two replies apart by their texts.
#![tactic(auto)]

mod blame;
mod checking;
mod entries;
mod failing;
mod fronts;
mod judging;
mod laws;
mod places;
mod sameness;
mod supervisors;

pub use checking::{Breach, legal};
pub use entries::first_bad_entry;
pub use failing::{Failing, failing_of};
pub use laws::{
    front_law, good_entries_law, legal_law, no_breach_law, one_breach_law, reads_to_law,
};
pub use supervisors::supervisor_at;
