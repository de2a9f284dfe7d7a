//! What a shared word says. That it is a word of its layout is what the rule says, so no field is tested.

ghost use Rattle.std.specs.Prelude.{◌≡◌, ◌<◌, ◌≤◌};
ghost use Rattle.mx_rule.specs.Codes.{IsCellCode, IsCodable, IsWordCode, word_by, word_said};
ghost use Rattle.mx_sdw.specs.Admissible.{IsInRange};
ghost use Rattle.mx_sdw.specs.Bits.{bits, has_bit};
ghost use Rattle.mx_sdw.specs.DescriptorWords.{IsDescWord, aim_in, desc_in, desc_view};

use mx_sdw::{Aim, Brackets, CellWord, Desc, DescView, Ring};

/// What a descriptor word says.
#[inline(always)]
pub(crate) fn said(found: u64) -> DescView
    requires { IsWordCode found }
    ensures word { word_by result ≡ word_said found }
    ensures codable { IsCodable (word_by result) }
{
    view_in(found)
}

/// What a cell word says.
#[inline(always)]
pub(crate) fn cell_in(found: u64) -> CellWord
    requires { IsCellCode found }
    ensures { result ≡ found }
{
    CellWord::read(found).unwrap()
}

/// What a word of the layout of descriptor words says.
#[inline(always)]
fn view_in(found: u64) -> DescView
    requires { IsDescWord found }
    ensures { result ≡ desc_view found }
{
    let number = (found % (1 << 18)) as u32;
    match found / (1 << 62) {
        0 => DescView::Unknown(number),
        1 => DescView::Fault(number),
        2 => DescView::Set(number, segment_in(found)),
        _ => DescView::Gone(number),
    }
}

/// The segment in the fields of a word.
#[inline(always)]
fn segment_in(found: u64) -> Desc
    requires { IsInRange (desc_in found) }
    ensures { result ≡ desc_in found }
{
    let brackets = Brackets::new(
        ring_at(found, 59),
        ring_at(found, 56),
        ring_at(found, 53),
    ).unwrap();
    let gate = (found / (1 << 39) % (1 << 11)) as u16;
    let page = (found / (1 << 29) % (1 << 10)) as u16;
    let bound = (found / (1 << 18) % (1 << 10)) as u16 + 1;
    let (r, e, w) = (has_bit(found, 52), has_bit(found, 51), has_bit(found, 50));
    Desc::classed(aim_in(found), brackets, r, e, w, gate, page, bound)
}

/// How the authorization stands to the segment's class.
#[inline(always)]
fn aim_in(found: u64) -> Aim
    ensures { result ≡ aim_in found }
{
    match (has_bit(found, 28), has_bit(found, 50)) {
        (false, _) => Aim::Equal,
        (true, false) => Aim::Dominates,
        (true, true) => Aim::Neither,
    }
}

#[inline(always)]
fn ring_at(found: u64, first: u32) -> Ring
    requires { first < 64 }
    ensures value { result ≡ bits found first 3 }
    ensures bound { result ≤ 7 }
{
    Ring::new((found >> first & 7) as u8).unwrap()
}

#[inline(always)]
fn has_bit(found: u64, place: u32) -> bool
    requires { place < 64 }
    ensures { result ≡ has_bit found place }
{
    (found >> place) % 2 == 1
}
