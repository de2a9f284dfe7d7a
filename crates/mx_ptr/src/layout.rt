//! The layout of pointer words and link words.

ghost use Rattle.std.specs.Prelude.{◌≡◌, ◌≤◌};
ghost use Rattle.mx_ptr.specs.Pointers.{tagged};

use mx_sdw::Word;

pub(crate) const POINTER_TAG: u64 = 0o43;

pub(crate) const LINK_TAG: u64 = 0o46;

/// The word of a segment number, a ring, a place and a tag.
pub(crate) fn tagged(segno: u16, ring: u8, place: u64, tag: u64) -> Word
    requires segno { segno ≤ 4095 }
    requires ring { ring ≤ 7 }
    requires place { place ≤ 32767 }
    requires tag { tag ≤ 63 }
    ensures { result ≡ tagged segno ring place tag }
{
    Word::new(((u64::from(segno) * 8 + u64::from(ring)) * 0o100000 + place) * 0o100 + tag).unwrap()
}
