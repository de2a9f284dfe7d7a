//! The words in which cells lie in the memory that threads share.

ghost use Rattle.std.specs.Prelude.{◌≡◌, ◌<◌, ◌≤◌, ◌^◌};
ghost use Rattle.mx_sdw.specs.CellWords.{cell_word, value_in, writer_in, stamp_in, cell_word_of};

use crate::words::Word;
use std::marker::Model;

/// The word of a cell, below 2^58: its value of 36 bits, the process that wrote it, and the stamp of the write.
#[derive(Clone, Copy, Debug, PartialEq, Eq)]
pub struct CellWord {
    number: u64,
}

impl Model for CellWord {
    ghost use Rattle.std.specs.Prelude.{ℕ, ◌<◌, ◌^◌};

    ghost Value = { ℕ };

    ghost view = { λ word. word.number };

    ghost invariant = { λ word. word.number < 2 ^ 58 };

    ghost inverse = { λ n. record { number = n } };
}

impl CellWord {
    /// The word of a value, a writer up to 15 and a stamp up to 262,143.
    pub fn new(value: Word, writer: u8, stamp: u32) -> CellWord
        requires writer { writer ≤ 15 }
        requires stamp { stamp ≤ 262143 }
        ensures { result ≡ cell_word value writer stamp }
    {
        CellWord {
            number: u64::from(writer) * (1 << 54) + u64::from(stamp) * (1 << 36) + value.value(),
        }
    }

    /// The cell word of a number, `None` exactly from 2^58 on.
    pub fn read(number: u64) -> Option<CellWord>
        ensures { result ≡ cell_word_of number }
    {
        if number < 1 << 58 {
            Some(CellWord { number })
        } else {
            None
        }
    }

    /// The number that it is, below 2^58.
    pub fn number(self) -> u64
        ensures number { result ≡ self }
        ensures bound { result < 2 ^ 58 }
    {
        self.number
    }

    /// The value in the cell.
    pub fn value(self) -> Word
        ensures { result ≡ value_in self }
    {
        Word::new(self.number % (1 << 36)).unwrap()
    }

    /// The process that wrote it, at most 15; 0 where none did.
    pub fn writer(self) -> u8
        ensures writer { result ≡ writer_in self }
        ensures bound { result ≤ 15 }
    {
        (self.number / (1 << 54) % 16) as u8
    }

    /// The stamp of the write, at most 262,143: how many entries the journal had at its point.
    pub fn stamp(self) -> u32
        ensures stamp { result ≡ stamp_in self }
        ensures bound { result ≤ 262143 }
    {
        (self.number / (1 << 36) % (1 << 18)) as u32
    }
}
