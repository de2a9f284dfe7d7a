//! Names, pathnames, paths, principals and access list identifiers.
//!
//! Each type holds only texts of its own grammar, and its `read` answers exactly: the value that the text spells, or
//! the first fault of the text in a fixed order. The definitions of reading and of spelling are functions on lists of
//! bytes, inverse to one another, so that a grammar above can cite them. Resolving, matching and ranks are pinned by
//! definitions too. Names, principals and identifiers are held in the value itself, and are copied as numbers are; a
//! pathname of at most 30 bytes is held in the value too, and a longer one and a path take one piece of memory each. A
//! `BorrowedName` is a name in place, by which a map finds what it keeps, and a route a path in place; they take none.
//! Stands on the list type, and on the kit's indexmap, memchr and thiserror.
#![tactic(auto)]

mod borrowed;
mod cutting;
mod held;
mod identifiers;
mod names;
mod pathnames;
mod paths;
mod principals;
mod routes;
mod spelling;
mod texts;

pub use borrowed::BorrowedName;
pub use cutting::{cut, near_cut};
pub use identifiers::{AclId, kept_order};
pub use names::{EntryName, NameError};
pub use pathnames::Pathname;
pub use paths::{Path, PathError};
pub use principals::Principal;
pub use routes::Route;
