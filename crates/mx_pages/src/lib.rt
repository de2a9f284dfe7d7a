//! The pages of memory, given out in runs and freed again.
//!
//! The contracts of [`Pages`] say which run a request gets: the lowest run of free pages, none exactly where no run is
//! long enough. A page of a run was free before and is not free after, and every other page stays as it was, so that no
//! two runs overlap. A run that is freed is free after, and every other page stays as it was. [`pages_for`] says how
//! many pages a segment needs, and [`PageRun`] is a run as it is told to others. The crate takes no memory and stands on
//! nothing but std.
#![tactic(auto)]

mod pages;

pub use pages::{PageRun, Pages, PagesFull, pages_for};
