//! The number of a drill, as it is written.

ghost use Rattle.std.specs.Prelude.{◌≡◌, ◌≤◌, IfSome};
ghost use Rattle.std.specs.Char.{is_ascii_digit};
ghost use Rattle.std.specs.List.{list_all};
ghost use Rattle.mx_drill.specs.Numbers.{IsNumberOf};

/// The greatest number of digits of a drill's number.
const MOST_DIGITS: usize = 6;

/// The number that 1 to 6 decimal digits spell, none of any other text. It may begin with zeros. Takes no memory.
pub fn read_number(digits: &str) -> Option<u32>
    ensures value { IsNumberOf digits.now result }
    ensures most { IfSome result (λ n. n ≤ 999999) }
{
    if digits.len() <= MOST_DIGITS && are_digits(digits.as_bytes()) {
        digits.parse().ok()
    } else {
        None
    }
}

fn are_digits(text: &[u8]) -> bool
    ensures { result ≡ list_all is_ascii_digit text.now }
{
    text.iter().all(
        |byte: &u8| -> bool
            ensures { result ≡ is_ascii_digit byte.now }
        { byte.is_ascii_digit() },
    )
}
