//! Fields at the head of a text, each with what stands behind the blank after it.

ghost use Rattle.std.specs.Prelude.{◌≡◌};
ghost use Rattle.std.specs.Option.{option_map};
ghost use Rattle.mx_reader.specs.Heads.{address_then, entry_number_then, kind_then, line_number_then, process_then, ring_number_then, word_number_then, word_then};

use crate::cutting::after;
use crate::numbers::{cut_decimal, cut_octal, cut_segno};
use mx_sdw::{Ring, Word};
use mx_transcript::Kind;

/// The kind of a reference.
#[inline(always)]
#[tactic(auto, using(crate::proofs::HeadLaws::kind_by_fronts))]
pub(crate) fn cut_kind(text: &[u8]) -> Option<(Kind, &[u8])>
    ensures { option_map (λ p. (p.0, p.1.now)) result ≡ kind_then text.now }
{
    if let Some(rest) = after(b"read ", text) {
        Some((Kind::Read, rest))
    } else if let Some(rest) = after(b"ind ", text) {
        Some((Kind::Ind, rest))
    } else if let Some(rest) = after(b"write ", text) {
        Some((Kind::Write, rest))
    } else if let Some(rest) = after(b"fetch ", text) {
        Some((Kind::Fetch, rest))
    } else if let Some(rest) = after(b"call ", text) {
        Some((Kind::Call, rest))
    } else if let Some(rest) = after(b"return ", text) {
        Some((Kind::Return, rest))
    } else {
        None
    }
}

/// `S|W`
#[inline(always)]
#[tactic(auto, using(crate::proofs::HeadLaws::address_by_numbers))]
pub(crate) fn cut_address(text: &[u8]) -> Option<((u16, u16), &[u8])>
    ensures { option_map (λ p. (p.0, p.1.now)) result ≡ address_then text.now }
{
    let (segno, rest) = cut_segno(text)?;
    let (word, rest) = cut_word_number(rest)?;
    Some(((segno, word), rest))
}

// The number of a word in its segment, in octal.
#[inline(always)]
#[tactic(auto, using(crate::proofs::HeadLaws::word_number_by_number))]
fn cut_word_number(text: &[u8]) -> Option<(u16, &[u8])>
    ensures { option_map (λ p. (p.0, p.1.now)) result ≡ word_number_then text.now }
{
    let (word, rest) = cut_octal(5, text)?;
    if word <= 0o37777 {
        Some((word as u16, rest))
    } else {
        None
    }
}

/// A word of the machine, in octal.
#[inline(always)]
#[tactic(auto, using(crate::proofs::HeadLaws::word_by_number))]
pub(crate) fn cut_word(text: &[u8]) -> Option<(Word, &[u8])>
    ensures { option_map (λ p. (p.0, p.1.now)) result ≡ word_then text.now }
{
    let (n, rest) = cut_octal(12, text)?;
    let word = Word::new(n)?;
    Some((word, rest))
}

/// A ring, in decimal.
#[inline(always)]
#[tactic(auto, using(crate::proofs::HeadLaws::ring_by_number))]
pub(crate) fn cut_ring_number(text: &[u8]) -> Option<(Ring, &[u8])>
    ensures { option_map (λ p. (p.0, p.1.now)) result ≡ ring_number_then text.now }
{
    let (n, rest) = cut_decimal(1, text)?;
    if n > 7 {
        return None;
    }
    let ring = Ring::new(n as u8)?;
    Some((ring, rest))
}

/// The number of a process, 0 to 15.
#[inline(always)]
#[tactic(auto, using(crate::proofs::HeadLaws::process_by_number))]
pub(crate) fn cut_process(text: &[u8]) -> Option<(u8, &[u8])>
    ensures { option_map (λ p. (p.0, p.1.now)) result ≡ process_then text.now }
{
    let (p, rest) = cut_decimal(2, text)?;
    if p <= 15 { Some((p as u8, rest)) } else { None }
}

/// The number of an entry, or a point: a decimal number up to 262143.
#[inline(always)]
#[tactic(auto, using(crate::proofs::HeadLaws::entry_by_number))]
pub(crate) fn cut_entry_number(text: &[u8]) -> Option<(u32, &[u8])>
    ensures { option_map (λ p. (p.0, p.1.now)) result ≡ entry_number_then text.now }
{
    let (n, rest) = cut_decimal(6, text)?;
    if n <= 262_143 {
        Some((n as u32, rest))
    } else {
        None
    }
}

/// The number of a line in a session text, up to 4294967295.
#[inline(always)]
#[tactic(auto, using(crate::proofs::HeadLaws::line_by_number))]
pub(crate) fn cut_line_number(text: &[u8]) -> Option<(u32, &[u8])>
    ensures { option_map (λ p. (p.0, p.1.now)) result ≡ line_number_then text.now }
{
    let (n, rest) = cut_decimal(10, text)?;
    if n < 1 << 32 {
        Some((n as u32, rest))
    } else {
        None
    }
}
