//! Words as octal texts.

ghost use Rattle.std.specs.Prelude.{◌≡◌};
ghost use Rattle.mx_sdw.specs.Octal.{octal_number};

use mx_sdw::{Word, read_octal_number};

/// Reads the octal spelling of a word of 36 bits: at most twelve digits, and no leading zero but of `0` itself.
pub fn read_octal(text: &[u8]) -> Option<Word>
    ensures { result ≡ octal_number 12 text.now }
{
    match read_octal_number(text, 12) {
        Some(n) => Word::new(n),
        None => None,
    }
}
