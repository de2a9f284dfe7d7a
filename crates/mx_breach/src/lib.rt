//! Whether a printed run is a legal run of its session, and in words why not.
//!
//! [`tell_breach`] tells that a run is legal, or which breach it has, exactly as `mx_legal` finds it (`Verdicts`), and behind that why it
//! is one, in sentences: what is printed there, which rule fails and on which numbers, and what could stand there. [`tell_source`] reads
//! both texts from one source (`Sources`).
//!
//! The rule that a bad entry fails is one that it fails (`Causes`), and so is that of a bad line, by what the deciders of `mx_legal` say
//! of each rule, one beside the other (`Rules`). What a line asks
//! for is what the machine of `mx_parts` asks for; which words a read could give is found by the decider of reads (`mx_stores`), and on
//! which access a reference would stand by `mx_access`, both asked as if that stood there. The sentences themselves are tested alone.
#![tactic(auto)]

mod asked;
mod bounds;
mod breaches;
mod causes;
mod departing;
mod entries;
mod lines;
mod misses;
mod points;
mod printed;
mod probes;
mod reads;
mod rules;
mod runs;
mod sources;
mod verdicts;
mod wrong_reads;

pub use sources::tell_source;
pub use verdicts::tell_breach;
