//! Link words: what a linkage section holds before a link is snapped.

ghost use Rattle.std.specs.Prelude.{◌≡◌, ◌≤◌};
ghost use Rattle.mx_ptr.specs.Pointers.{link_word, is_link};

use crate::layout::{LINK_TAG, tagged};
use mx_sdw::Word;

/// Whether a word is a link word, which has the tag octal 46.
pub fn is_link(word: Word) -> bool
    ensures { result ≡ is_link word }
{
    word.value() % 0o100 == LINK_TAG
}

/// The word of the link of a number up to 16,383, as a fresh linkage section holds it.
pub fn link_word(index: u16) -> Word
    requires { index ≤ 16383 }
    ensures { result ≡ link_word index }
{
    tagged(0, 0, 2 * u64::from(index), LINK_TAG)
}
