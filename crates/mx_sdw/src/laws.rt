//! What follows from the definitions alone.

ghost use Rattle.std.specs.Prelude.{◌≡◌, ◌<◌, ◌≤◌, ◌^◌, ◌⊎◌, ◌↔◌, length, true, Some, Ok, Err};
ghost use Rattle.mx_sdw.specs.declared.denials.Denial.{Denial as DenialValue};
ghost use Rattle.mx_sdw.specs.Bits.{bits};
ghost use Rattle.mx_sdw.specs.CellWords.{cell_word, value_in, writer_in, stamp_in};
ghost use Rattle.mx_sdw.specs.Denials.{denial_text};
ghost use Rattle.mx_sdw.specs.DescriptorWords.{desc_view, desc_word, FitsWord, IsDescWord};
ghost use Rattle.mx_sdw.specs.Granting.{IsGranted, IsFirst};
ghost use Rattle.mx_sdw.specs.Judging.{judgement, cell_of};
ghost use Rattle.mx_sdw.specs.Octal.{is_octal, octal, octal_number, octal_value};

use crate::cell_words::CellWord;
use crate::denials::Denial;
use crate::descriptor_words::{DescView, DescWord};
use crate::descriptors::Desc;
use crate::operations::Op;
use crate::rings::Ring;
use crate::words::Word;

/// The judging rule in Schroeder and Saltzer's words: an operation is granted exactly where the segment stands, has the
/// word and allows the access, and is otherwise denied with the first denial whose condition holds.
pub fn judged_in_order(desc: &Desc, op: Op, ring: Ring, word: u32)
    ensures granted { (judgement desc.now op ring word ≡ Ok (cell_of desc.now word)) ↔ IsGranted desc.now op ring word }
    ensures denied { (denial : DenialValue)
        → (judgement desc.now op ring word ≡ Err denial) ↔ IsFirst denial desc.now op ring word }
{}

/// No two denials have the same text, so a printed denial says which one it is.
pub fn each_denial_has_its_own_text(one: &Denial, other: &Denial)
    ensures { denial_text one.now ≡ denial_text other.now → one.now ≡ other.now }
{}

/// Octal numbers have one spelling each: what is spelled is read back, what is read is spelled so, and a text is read
/// as a number exactly where it is the spelling of that number and has no more than so many digits.
pub fn each_octal_number_has_one_spelling(n: u64, text: &[u8], digits: usize)
    ensures spelled { (is_octal (octal n) ≡ true) × (octal_value (octal n) ≡ n) }
    ensures read { is_octal text.now ≡ true → octal (octal_value text.now) ≡ text.now }
    ensures exactly { (octal_number digits text.now ≡ Some n) ↔ ((text.now ≡ octal n) × (length text.now ≤ digits)) }
{}

/// What fits a descriptor word has one word, which gives it back, and each such word is that of what it says. They are
/// the numbers of 64 bits whose fields are in range, with zeros between kind and number where there is no segment.
pub fn each_descriptor_word_has_one_view(view: &DescView, word: DescWord, number: u64)
    ensures view { FitsWord view.now → desc_view (desc_word view.now) ≡ view.now }
    ensures word { desc_word (desc_view word) ≡ word }
    ensures exactly { IsDescWord number
        ↔ (FitsWord (desc_view number) × ((bits number 62 2 ≡ 2) ⊎ (bits number 18 44 ≡ 0))) }
{}

/// A cell word gives back the value, the writer and the stamp that were put into it, and each is made of its three.
pub fn each_cell_word_has_one_cell(value: Word, writer: u8, stamp: u32, word: CellWord)
    ensures value { value_in (cell_word value writer stamp) ≡ value }
    ensures writer { writer ≤ 15 → stamp ≤ 262143 → writer_in (cell_word value writer stamp) ≡ writer }
    ensures stamp { stamp ≤ 262143 → stamp_in (cell_word value writer stamp) ≡ stamp }
    ensures word { cell_word (value_in word) (writer_in word) (stamp_in word) ≡ word }
{}
