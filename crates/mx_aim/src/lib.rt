//! Classes of access isolation: levels and categories, and which class dominates which.
//!
//! [`Class::dominates`] is an order, and each class has one text, as laws say. The crate stands on `mx_sdw`, whose octal
//! numbers spell the categories, and takes no memory.
#![tactic(auto)]

mod classes;
mod laws;

pub use classes::Class;
pub use laws::{dominance_is_an_order, each_class_has_one_text};
