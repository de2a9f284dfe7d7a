//! Object maps: the gates, the definitions and the links of an object segment.
//!
//! A contract sees a map as its three parts. `new` answers `Twice` exactly where a symbol is defined twice and then
//! `TooMany` exactly where there are more than 64 definitions or links; `definition` gives a word exactly where the
//! symbol is defined with it, and `link` the pair of each number. Stands on names and on an ordered set.
#![tactic(auto)]

mod objects;

pub use objects::{Definitions, Links, ObjectError, ObjectMap};
