//! Rings, brackets, words, descriptors and the judging rule of the protected memory, and the octal spelling of numbers.
//!
//! [`judge`] says whether an operation is granted on a descriptor, and with which denial if not. Its contract gives the
//! answer as one definition, the first denial of a table in order; a law says the same as a table of what is granted.
//! [`DescWord`] and [`CellWord`] are the words of 64 bits in which descriptors and cells lie where threads share them;
//! each is tied to what it says by a layout, and each word has one spelling. Octal numbers are read and written with
//! one spelling for each number. The crate stands on the standard library alone and takes no memory, but for the bytes
//! that [`write_octal`] appends to the caller's vector.
#![tactic(auto)]

mod cell_words;
mod denials;
mod descriptor_words;
mod descriptors;
mod judging;
mod laws;
mod octal;
mod operations;
mod rings;
mod words;

pub use cell_words::CellWord;
pub use denials::Denial;
pub use descriptor_words::{DescView, DescWord};
pub use descriptors::{Aim, Cell, Desc, DescKind};
pub use judging::{judge, new_ring};
pub use laws::{
    each_cell_word_has_one_cell, each_denial_has_its_own_text, each_descriptor_word_has_one_view,
    each_octal_number_has_one_spelling, judged_in_order,
};
pub use octal::{read_octal_number, write_octal};
pub use operations::Op;
pub use rings::{Brackets, Ring};
pub use words::Word;
