//! Pointers, pointer words and link words, and the octal texts of words.
//!
//! A pointer has one word and a pointer word one pointer: [`Pointer::pack`] and [`Pointer::read`] are inverse, as a law
//! says. A further law gives the words as twelve octal digits. The crate stands on `mx_sdw` and takes no memory.
#![tactic(auto)]

mod laws;
mod layout;
mod links;
mod octal;
mod pointers;

pub use laws::{each_pointer_has_one_word, words_in_octal};
pub use links::{is_link, link_word};
pub use octal::read_octal;
pub use pointers::Pointer;
