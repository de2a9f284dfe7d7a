//! Octal numbers, as addresses and words are written.

ghost use Rattle.std.specs.Prelude.{◌≡◌, ◌<◌, ◌≤◌, ◌^◌, ◌++◌, length, if◌then◌else◌, Some, None, IfSome, OnOk, OnErr};
ghost use Rattle.std.specs.List.{list_all};
ghost use Rattle.mx_sdw.specs.Octal.{begins_number, is_octal_digit, octal, octal_number, octal_value};

use std::alloc::AllocError;

/// Reads the octal spelling of a number in at most `digits` digits, `None` exactly where the text is no such spelling:
/// a leading zero has none, but for `0` itself. At most 21 digits fit a `u64`.
#[tactic(auto, unfolding(crate::specs::Octal::octal_number))]
pub fn read_octal_number(text: &[u8], digits: usize) -> Option<u64>
    requires { digits ≤ 21 }
    ensures value { result ≡ octal_number digits text.now }
    ensures bound { IfSome result (λ n. n < 8 ^ digits) }
{
    if begins_number(text) && text.len() <= digits {
        value_of(text)
    } else {
        None
    }
}

/// The number that digits give, in one pass; none where a byte is no digit.
#[inline(always)]
fn value_of(text: &[u8]) -> Option<u64>
    requires short { length text.now ≤ 21 }
    ensures value { result ≡ (if list_all is_octal_digit text.now then Some (octal_value text.now) else None) }
    ensures bound { IfSome result (λ n. n < 8 ^ length text.now) }
{
    let mut n = 0;
    for c in text {
        if !is_octal_digit(*c) {
            return None;
        }
        n = 8 * n + u64::from(*c - b'0');
    }
    Some(n)
}

/// Appends the octal spelling of a number; want of memory leaves the bytes as they were.
#[tactic(auto, using(crate::proofs::OctalLaws::last_written, crate::proofs::OctalLaws::first_written))]
pub fn write_octal(out: &mut Vec<u8>, n: u64) -> Result<(), AllocError>
    ensures ok { OnOk result (out.new.items ≡ out.old.items ++ octal n) }
    ensures err { OnErr result (out.new.items ≡ out.old.items) }
{
    let mut digits = [b'0'; 22];
    let mut start = 21;
    let mut left = n;
    while left >= 8 {
        digits[start] = b'0' + (left % 8) as u8;
        start -= 1;
        left /= 8;
    }
    digits[start] = b'0' + left as u8;
    out.extend_from_slice(&digits[start..])
}

fn begins_number(text: &[u8]) -> bool
    ensures { result ≡ begins_number text.now }
{
    match text {
        [] => false,
        [_] => true,
        [first, ..] => *first != b'0',
    }
}

fn is_octal_digit(c: u8) -> bool
    ensures { result ≡ is_octal_digit c }
{
    (b'0'..=b'7').contains(&c)
}
