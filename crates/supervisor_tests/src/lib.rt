//! Tests of the hierarchy and the supervisor that no text of a request shows: calls of the crates
//! below the plain supervisor that no request makes.
//!
//! The crate has tests alone; what requests show stands in the files of `ask`. They stand apart from the crates that they are about,
//! so that no proof is made twice. Stands on access lists, object maps, search rules, known segments and the mail.
#![tactic(auto)]

#[cfg(test)]
mod tests;
