//! The effective ring: the walk of an operand through its indirect words.
//!
//! A [`Walk`] is given the words that it asks for, one by one. Its value is where the operand has come to (`Reached`): the
//! place, the effective ring and the number of words read. By its contracts that is where the whole chain of words leads
//! (`reached`), and what it asks for next is a function of it: which word at which ring, or the place where the operand
//! ends, at the largest of all rings that had a hand in it (Schroeder and Saltzer). Laws say that it is the largest of
//! them, and that it never falls. The crate stands on `mx_sdw` and `mx_ptr` and takes no memory.
#![tactic(auto)]

mod laws;
mod walks;

pub use laws::{effective_ring_is_the_largest, effective_ring_never_falls};
pub use walks::{Stuck, Walk, Want};
