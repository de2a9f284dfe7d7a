//! The hierarchy: directories, segments, object segments and links, and every request that reaches them by a pathname.
//!
//! A contract sees a hierarchy as the root directory, a plain list of branches, the next uid, the pages, and the maps
//! of object segments by uid, which stay when their segments are deleted. Each request is a definition over that list,
//! with its refusals in the order of the table, and each call has the exact answer and the exact hierarchy that its
//! definition gives; a refusal, and the want of memory, change nothing. Behind it stand a table of branches by uid and a
//! map of names for each directory. What linkage sections are made of, an object's links and brackets and a page, is
//! asked for by uid, and the page of one that goes is given back. Stands on names, access lists, brackets, classes,
//! pages and object maps.
#![tactic(auto)]

mod asking;
mod boxes;
mod branches;
mod callers;
mod changing;
mod children;
mod finding;
mod hier;
mod initial;
mod initial_lists;
mod kept;
mod laws;
mod linkage;
mod making;
mod names;
mod objects;
mod outsiders;
mod refusals;
mod slots;
mod tables;
mod walks;

pub use asking::Status;
pub use boxes::{BoxedDirectory, BoxedSegment};
pub use branches::{Branch, Directory, Node, Segment};
pub use callers::Who;
pub use hier::Hier;
pub use initial::InitialAcls;
pub use laws::{
    a_followed_walk_ends_at_no_link, a_stranger_learns_nothing, a_walk_ends_alike_for_all,
    listed_names_ascend, segments_have_pages_of_their_own,
};
pub use names::Names;
pub use outsiders::an_outsider_is_turned_away;
pub use refusals::{HierError, Refusal};
