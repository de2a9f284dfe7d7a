//! A text cut in two at a byte.
ghost use Rattle.std.specs.Prelude.{◌≡◌, ◌==◌, ◌<◌, length, IfSome};
ghost use Rattle.std.specs.List.{slice_split};
ghost use Rattle.std.specs.Option.{option_map};
ghost use Rattle.mx_name.specs.Cuts.{cut_at};
ghost use Rattle.mx_name.specs.Parts.{parts_by, parts_to};

use memchr::{memchr, memrchr};

/// What stands before the first `mark` of a text, and what after it; none where it has no `mark`. Takes no memory.
pub fn cut(mark: u8, text: &[u8]) -> Option<(&[u8], &[u8])>
    ensures cut { option_map (λ p. (p.0.now, p.1.now)) result ≡ cut_at mark text.now }
    ensures shorter { IfSome result (λ p. length p.1.now < length text.now) }
{
    match memchr(mark, text) {
        Some(at) => Some((&text[..at], &text[at + 1..])),
        None => None,
    }
}

/// The same, said of all parts of the text between marks.
#[tactic(auto, using(crate::proofs::CutLaws::parts_cut))]
pub(crate) fn first_part(mark: u8, text: &[u8]) -> Option<(&[u8], &[u8])>
    ensures parts { slice_split (λ c. c == mark) text.now
        ≡ parts_by mark text.now (option_map (λ p. (p.0.now, p.1.now)) result) }
    ensures shorter { IfSome result (λ p. length p.1.now < length text.now) }
{
    near_cut(mark, text)
}

/// The same cut as `cut`, byte by byte: where the mark is near, the search of `cut` gains nothing. Takes no memory.
#[inline(always)]
#[tactic(auto, unfolding(crate::specs::Cuts::cut_at))]
pub fn near_cut(mark: u8, text: &[u8]) -> Option<(&[u8], &[u8])>
    ensures cut { option_map (λ p. (p.0.now, p.1.now)) result ≡ cut_at mark text.now }
    ensures shorter { IfSome result (λ p. length p.1.now < length text.now) }
{
    for (i, byte) in text.iter().enumerate() {
        if *byte == mark {
            return Some((&text[..i], &text[i + 1..]));
        }
    }
    None
}

/// What stands before the last `mark` of a text, and what after it, said of all parts of the text between marks.
pub(crate) fn last_part(mark: u8, text: &[u8]) -> Option<(&[u8], &[u8])>
    ensures { slice_split (λ c. c == mark) text.now
        ≡ parts_to mark text.now (option_map (λ p. (p.0.now, p.1.now)) result) }
{
    match memrchr(mark, text) {
        Some(at) => Some((&text[..at], &text[at + 1..])),
        None => None,
    }
}
