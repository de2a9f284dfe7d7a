//! Pointers and pointer words.

ghost use Rattle.std.specs.Prelude.{◌≡◌, IfSome};
ghost use Rattle.mx_ptr.specs.Pointers.{pointer_word, pointer_in, IsPackable};

use crate::layout::{POINTER_TAG, tagged};
use mx_sdw::{Ring, Word};
use std::marker::Model;

/// A pointer, as a pointer register or a pointer word holds it.
#[derive(Clone, Copy, Debug, PartialEq, Eq)]
pub struct Pointer {
    /// The ring in the pointer, which raises the effective ring of an operand that goes through it.
    pub ring: Ring,
    /// The number of the segment that it points to.
    pub segno: u16,
    /// The word in that segment.
    pub word: u16,
    /// Whether a further indirect word stands there.
    pub further: bool,
}

impl Model for Pointer {
    ghost use Rattle.mx_ptr.specs.Pointers.{PointerParts};

    ghost Value = { PointerParts };

    ghost view = { λ p. record { ring = p.ring; segno = p.segno; word = p.word; further = p.further } };

    ghost inverse = { λ p. record { ring = p.ring; segno = p.segno; word = p.word; further = p.further } };
}

impl Pointer {
    /// Its word, for a segment number up to 4,095 and a word number up to 16,383.
    pub fn pack(&self) -> Word
        requires { IsPackable self.now }
        ensures { result ≡ pointer_word self.now }
    {
        let place = 2 * u64::from(self.word) + if self.further { 1 } else { 0 };
        tagged(self.segno, self.ring.number(), place, POINTER_TAG)
    }

    /// The pointer in a word, `None` exactly where the tag is not octal 43.
    pub fn read(word: Word) -> Option<Pointer>
        ensures value { result ≡ pointer_in word }
        ensures packable { IfSome result (λ p. IsPackable p) }
    {
        let n = word.value();
        if n % 0o100 != POINTER_TAG {
            return None;
        }
        let place = n / 0o100 % 0o100000;
        Some(Pointer {
            ring: Ring::new((n / 0o10000000 % 8) as u8).unwrap(),
            segno: (n / 0o100000000) as u16,
            word: (place / 2) as u16,
            further: place % 2 == 1,
        })
    }
}
