//! The numbers of words.

ghost use Rattle.std.specs.Prelude.{◌≡◌};
ghost use Rattle.mx_request.specs.WordNumbers.{word_number_of};

use mx_sdw::read_octal_number;

/// Reads the number of a word in its segment, `None` exactly where the text is not the octal spelling of a number up to
/// 37777.
pub fn read_word_number(text: &[u8]) -> Option<u16>
    ensures { result ≡ word_number_of text.now }
{
    let word = read_octal_number(text, 5)?;
    if word <= 0o37777 {
        Some(word as u16)
    } else {
        None
    }
}
