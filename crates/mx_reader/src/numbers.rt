//! Numbers at the front of a text, read along its bytes once.

ghost use Rattle.std.specs.Prelude.{◌≡◌, ◌≤◌, ◌<◌, ◌+◌, ◌^◌, IfSome};
ghost use Rattle.std.specs.Option.{option_map};
ghost use Rattle.mx_reader.specs.Numbers.{decimal_front, decimal_more, decimal_then, digits_on, octal_front, octal_more, octal_then};
ghost use Rattle.mx_request.specs.Decimals.{decimal_number, is_digit};
ghost use Rattle.mx_sdw.specs.Octal.{is_octal_digit, octal_number};

use crate::cutting::after;

/// A text that is a decimal number of at most so many digits.
#[inline(always)]
#[tactic(auto, using(crate::proofs::NumberLaws::decimal_whole))]
pub(crate) fn read_decimal(digits: usize, text: &[u8]) -> Option<u64>
    requires some { 1 ≤ digits }
    requires few { digits ≤ 10 }
    ensures { result ≡ decimal_number digits text.now }
{
    let (n, rest) = decimal_front(digits, text)?;
    match rest {
        [] => Some(n),
        _ => None,
    }
}

/// The same, and what stands behind the blank after it.
#[inline(always)]
#[tactic(auto, using(crate::proofs::NumberLaws::decimal_cut))]
pub(crate) fn cut_decimal(digits: usize, text: &[u8]) -> Option<(u64, &[u8])>
    requires some { 1 ≤ digits }
    requires few { digits ≤ 10 }
    ensures { option_map (λ p. (p.0, p.1.now)) result ≡ decimal_then digits text.now }
{
    let (n, rest) = decimal_front(digits, text)?;
    let rest = after(b" ", rest)?;
    Some((n, rest))
}

/// A text that is an octal number of at most so many digits.
#[inline(always)]
#[tactic(auto, using(crate::proofs::NumberLaws::octal_whole))]
pub(crate) fn read_octal(digits: usize, text: &[u8]) -> Option<u64>
    requires some { 1 ≤ digits }
    requires few { digits ≤ 12 }
    ensures value { result ≡ octal_number digits text.now }
    ensures bound { IfSome result (λ n. n < 8 ^ digits) }
{
    let (n, rest) = octal_front(digits, text)?;
    match rest {
        [] => Some(n),
        _ => None,
    }
}

/// The same, and what stands behind the blank after it.
#[inline(always)]
#[tactic(auto, using(crate::proofs::NumberLaws::octal_cut))]
pub(crate) fn cut_octal(digits: usize, text: &[u8]) -> Option<(u64, &[u8])>
    requires some { 1 ≤ digits }
    requires few { digits ≤ 12 }
    ensures value { option_map (λ p. (p.0, p.1.now)) result ≡ octal_then digits 32 text.now }
    ensures bound { IfSome result (λ p. p.0 < 8 ^ digits) }
{
    let (n, rest) = octal_front(digits, text)?;
    let rest = after(b" ", rest)?;
    Some((n, rest))
}

/// The same behind which a `|` stands.
#[inline(always)]
#[tactic(auto, using(crate::proofs::NumberLaws::octal_cut))]
pub(crate) fn cut_segno(text: &[u8]) -> Option<(u16, &[u8])>
    ensures { option_map (λ p. (p.0, p.1.now)) result ≡ octal_then 4 124 text.now }
{
    let (n, rest) = octal_front(4, text)?;
    let rest = after(b"|", rest)?;
    Some((n as u16, rest))
}

#[inline(always)]
#[tactic(auto, unfolding(crate::specs::Numbers::number_front))]
fn decimal_front(digits: usize, text: &[u8]) -> Option<(u64, &[u8])>
    requires some { 1 ≤ digits }
    requires few { digits ≤ 10 }
    ensures { option_map (λ p. (p.0, p.1.now)) result ≡ decimal_front digits text.now }
{
    match text {
        [b'0', rest @ ..] => Some(decimals_on(0, 0, rest)),
        [first @ b'1'..=b'9', rest @ ..] => Some(decimals_on(digits - 1, *first - b'0', rest)),
        _ => None,
    }
}

#[inline(always)]
#[tactic(auto, unfolding(crate::specs::Numbers::number_front))]
fn octal_front(digits: usize, text: &[u8]) -> Option<(u64, &[u8])>
    requires some { 1 ≤ digits }
    requires few { digits ≤ 12 }
    ensures value { option_map (λ p. (p.0, p.1.now)) result ≡ octal_front digits text.now }
    ensures bound { IfSome result (λ p. p.0 < 8 ^ digits) }
{
    match text {
        [b'0', rest @ ..] => Some(octals_on(0, 0, rest)),
        [first @ b'1'..=b'7', rest @ ..] => Some(octals_on(digits - 1, *first - b'0', rest)),
        _ => None,
    }
}

// The decimal digits at the front of a text, as many as there is room for, behind one.
#[inline(always)]
fn decimals_on(room: usize, first: u8, text: &[u8]) -> (u64, &[u8])
    requires digit { first ≤ 9 }
    requires few { room ≤ 9 }
    ensures { (result.0, result.1.now) ≡ digits_on is_digit decimal_more room first text.now }
{
    let end = room.min(text.len());
    let mut n = u64::from(first);
    for i in 0..end {
        let c = text[i];
        if !is_digit(c) {
            return (n, &text[i..]);
        }
        n = 10 * n + u64::from(c - b'0');
    }
    (n, &text[end..])
}

// The octal digits at the front of a text, as many as there is room for, behind one.
#[inline(always)]
fn octals_on(room: usize, first: u8, text: &[u8]) -> (u64, &[u8])
    requires digit { first ≤ 7 }
    requires few { room ≤ 11 }
    ensures value { (result.0, result.1.now) ≡ digits_on is_octal_digit octal_more room first text.now }
    ensures bound { result.0 < 8 ^ (room + 1) }
{
    let end = room.min(text.len());
    let mut n = u64::from(first);
    for i in 0..end {
        let c = text[i];
        if !is_octal_digit(c) {
            return (n, &text[i..]);
        }
        n = 8 * n + u64::from(c - b'0');
    }
    (n, &text[end..])
}

#[inline(always)]
fn is_digit(c: u8) -> bool
    ensures { result ≡ is_digit c }
{
    (b'0'..=b'9').contains(&c)
}

#[inline(always)]
fn is_octal_digit(c: u8) -> bool
    ensures { result ≡ is_octal_digit c }
{
    (b'0'..=b'7').contains(&c)
}
