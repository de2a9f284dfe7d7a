//! Access control lists: which modes an identifier gives, and which entry decides for a principal.
//!
//! A contract sees a list as a set of pairs of an identifier and modes, written in the order of the identifiers. `set`
//! and `remove` say which set they leave and exactly when they refuse; `modes_of` is the modes of the matching pair of
//! least rank, said as a function of the set and, once more, in words of the set alone. An initial access list is such a
//! set of one pair less; `acl_for` is the access list that it gives to what is made, with the maker's pair in it. Stands
//! on names and on an ordered map.
#![tactic(auto)]

mod initial_lists;
mod lists;
mod modes;

pub use initial_lists::InitialAcl;
pub use lists::{Acl, AclError, NoEntry, one_of_a_rank};
pub use modes::{AclKind, Modes};
