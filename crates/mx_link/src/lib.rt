//! Where a link leads: the segment that the search rules find under its segment's name, at the word that the symbol has
//! there.
//!
//! Which object map a segment has that was found is the meaning of a trait, [`Linker`], as what a rule finds is that of
//! a `Finder`. [`resolve`] gives the target or the first of three refusals, as one function of both meanings; the laws
//! say the same by the place of the rule that found the segment. Stands on search and object maps.
#![tactic(auto)]

mod laws;
mod resolving;

pub use laws::{a_link_is_refused_in_order, a_link_leads_where_its_symbol_is_defined};
pub use resolving::{LinkError, Linker, Target, resolve};
