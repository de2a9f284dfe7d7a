//! Decimal numbers.

ghost use Rattle.std.specs.Prelude.{◌≡◌, ◌≤◌, length, true};
ghost use Rattle.std.specs.List.{list_all};
ghost use Rattle.mx_sdw.specs.Octal.{begins_number};
ghost use Rattle.mx_request.specs.Decimals.{is_digit, decimal_after, decimal_number};

/// Reads the decimal spelling of a number in at most `digits` digits, `None` exactly where the text is no such
/// spelling: a leading zero has none, but for `0` itself. At most nine digits fit a `u32`.
#[tactic(auto, unfolding(crate::specs::Decimals::decimal_number))]
pub fn read_decimal(text: &[u8], digits: usize) -> Option<u32>
    requires { digits ≤ 9 }
    ensures { result ≡ decimal_number digits text.now }
{
    if begins_number(text) && are_digits(text) && text.len() <= digits {
        Some(value_of(text))
    } else {
        None
    }
}

fn begins_number(text: &[u8]) -> bool
    ensures { result ≡ begins_number text.now }
{
    match text {
        [] => false,
        [_] => true,
        [first, ..] => *first != b'0',
    }
}

fn are_digits(text: &[u8]) -> bool
    ensures { result ≡ list_all is_digit text.now }
{
    text.iter().all(|c| is_digit(*c))
}

fn is_digit(c: u8) -> bool
    ensures { result ≡ is_digit c }
{
    (b'0'..=b'9').contains(&c)
}

fn value_of(text: &[u8]) -> u32
    requires digits { list_all is_digit text.now ≡ true }
    requires short { length text.now ≤ 9 }
    ensures { result ≡ decimal_after 0 text.now }
{
    let mut n = 0;
    for c in text {
        n = 10 * n + u32::from(*c - b'0');
    }
    n
}
