//! The word of the machine.

ghost use Rattle.std.specs.Prelude.{◌≡◌, ℕ, ◌<◌, ◌^◌};
ghost use Rattle.mx_sdw.specs.Words.{word_of};

use std::marker::Model;

/// A word of 36 bits, the size of the machine's words (Multics Programmers' Manual). It is kept in two parts of 32 bits: so what holds
/// a word beside smaller numbers has no gaps.
#[derive(Clone, Copy, Debug, PartialEq, Eq)]
pub struct Word {
    low: u32,
    high: u32,
}

impl Model for Word {
    ghost use Rattle.std.specs.Prelude.{ℕ, ◌≡◌, ◌<◌, ◌+◌, ◌*◌, ◌/◌, ◌%◌};
    ghost use Rattle.std.proofs.Common.{arith};

    ghost Value = { ℕ };

    ghost view = { λ word. word.high * 4294967296 + word.low };

    ghost invariant = { λ word. (word.low < 4294967296) × (word.high < 16) };

    ghost inverse = { λ n. record { low = n % 4294967296; high = n / 4294967296 } };

    ghost inverse_ok = { λ word h i.
        let low : (word.high * 4294967296 + word.low) % 4294967296 ≡ word.low = omega (arith, h.0) in
        let high : (word.high * 4294967296 + word.low) / 4294967296 ≡ word.high = omega (arith, h.0) in
        record { low = low i; high = high i } };
}

impl Word {
    /// The word of a value, `None` exactly from 2^36 on.
    pub fn new(n: u64) -> Option<Word>
        ensures { result ≡ word_of n }
    {
        if n < 1 << 36 {
            Some(Word {
                low: (n % (1 << 32)) as u32,
                high: (n / (1 << 32)) as u32,
            })
        } else {
            None
        }
    }

    /// The word of zeros, as every cell holds at first.
    pub fn zero() -> Word
        ensures { result ≡ 0 }
    {
        Word { low: 0, high: 0 }
    }

    /// Its value, below 2^36.
    pub fn value(self) -> u64
        ensures value { result ≡ self }
        ensures bound { result < 2 ^ 36 }
    {
        u64::from(self.high) * (1 << 32) + u64::from(self.low)
    }
}
