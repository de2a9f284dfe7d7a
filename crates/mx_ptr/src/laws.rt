//! What follows from the definitions alone.

ghost use Rattle.std.specs.Prelude.{◌≡◌, ◌≤◌, ◌*◌, ◌++◌, Some, codes};
ghost use Rattle.mx_ptr.specs.Digits.{digits};
ghost use Rattle.mx_ptr.specs.Pointers.{PointerParts, pointer_word, pointer_in, place_of, link_word, IsPackable};

use crate::pointers::Pointer;
use mx_sdw::Word;

/// A pointer and its word give each other back, so that each pointer has one spelling.
pub fn each_pointer_has_one_word(pointer: &Pointer, word: Word)
    ensures read_back { IsPackable pointer.now → pointer_in (pointer_word pointer.now) ≡ Some pointer.now }
    ensures packed_back { (p : PointerParts) → pointer_in word ≡ Some p → pointer_word p ≡ word }
{}

/// A pointer word and a link word as twelve octal digits: four for the segment number, one for the ring, five for twice
/// the word number and the further bit, two for the tag.
pub fn words_in_octal(pointer: &Pointer, index: u16)
    ensures pointer { IsPackable pointer.now → digits 12 (pointer_word pointer.now)
        ≡ digits 4 pointer.now.segno ++ digits 1 pointer.now.ring
        ++ digits 5 (place_of pointer.now.word pointer.now.further) ++ codes "43" }
    ensures link { index ≤ 16383 → digits 12 (link_word index) ≡ codes "00000" ++ digits 5 (2 * index) ++ codes "46" }
{}
