//! The words in which descriptors lie in the memory that threads share.

ghost use Rattle.std.specs.Prelude.{◌≡◌, ◌-◌, ◌^◌, ◌<◌, ◌≤◌, MatchOption};
ghost use Rattle.mx_sdw.specs.Admissible.{IsInRange};
ghost use Rattle.mx_sdw.specs.Bits.{bits, has_bit};
ghost use Rattle.mx_sdw.specs.DescriptorWords.{desc_in, desc_view, desc_word, segment_bits, FitsWord, IsDescWord};

use crate::descriptors::{Aim, Desc};
use crate::rings::{Brackets, Ring};
use std::marker::Model;

/// What a descriptor word says of a segment number. Each carries the number of a journal entry, at most 262,143: the
/// entry that the descriptor is of, or at a fault the one that took the descriptor away.
#[derive(Clone, Copy, Debug, PartialEq, Eq)]
pub enum DescView {
    /// No descriptor until this entry is answered: a reference misses.
    Fault(u32),
    /// A segment that stands.
    Set(u32, Desc),
    /// The segment number is not known.
    Unknown(u32),
    /// The segment was deleted.
    Gone(u32),
}

/// A descriptor word of 64 bits, of the layout of such words. Each view has one word, and each word one view.
#[derive(Clone, Copy, Debug, PartialEq, Eq)]
pub struct DescWord {
    number: u64,
}

impl Model for DescWord {
    ghost use Rattle.std.specs.Prelude.{ℕ};
    ghost use Rattle.mx_sdw.specs.DescriptorWords.{IsDescWord};

    ghost Value = { ℕ };

    ghost view = { λ word. word.number };

    ghost invariant = { λ word. IsDescWord word.number };

    ghost inverse = { λ n. record { number = n } };
}

impl DescWord {
    /// The word that says this, where numbers of entries are at most 262,143 and a segment has kind `Segment`, at most
    /// 1,024 gates, a page of at most 1,023, a bound of 1 to 1,024, and flags that its aim lets stand.
    pub fn of(view: &DescView) -> DescWord
        requires { FitsWord view.now }
        ensures { result ≡ desc_word view.now }
    {
        DescWord {
            number: word_of(view),
        }
    }

    /// The descriptor word of a number, `None` exactly where it is no word of the layout.
    pub fn read(number: u64) -> Option<DescWord>
        ensures { MatchOption result (IsDescWord number → ⊥) (λ word. (word ≡ number) × IsDescWord number) }
    {
        let view = view_of(number)?;
        if word_of(&view) == number {
            Some(DescWord { number })
        } else {
            None
        }
    }

    /// The number that it is.
    pub fn number(self) -> u64
        ensures { result ≡ self }
    {
        self.number
    }

    /// What it says.
    pub fn view(&self) -> DescView
        ensures view { result ≡ desc_view self.now }
        ensures fits { FitsWord result }
    {
        view_of(self.number).unwrap()
    }
}

fn word_of(view: &DescView) -> u64
    requires { FitsWord view.now }
    ensures { result ≡ desc_word view.now }
{
    match view {
        DescView::Unknown(number) => u64::from(*number),
        DescView::Fault(number) => (1 << 62) + u64::from(*number),
        DescView::Set(number, desc) => (2 << 62) + segment_bits(desc) + u64::from(*number),
        DescView::Gone(number) => (3 << 62) + u64::from(*number),
    }
}

fn segment_bits(desc: &Desc) -> u64
    requires { IsInRange desc.now }
    ensures value { result ≡ segment_bits desc.now }
    ensures bound { result < 2 ^ 62 - 2 ^ 18 }
{
    let brackets = desc.brackets();
    let (writes, other) = match desc.aim() {
        Aim::Equal => (desc.w(), false),
        Aim::Dominates => (desc.w(), true),
        Aim::Neither => (true, true),
    };
    u64::from(brackets.r1().number()) * (1 << 59)
        + u64::from(brackets.r2().number()) * (1 << 56)
        + u64::from(brackets.r3().number()) * (1 << 53)
        + u64::from(desc.r()) * (1 << 52)
        + u64::from(desc.e()) * (1 << 51)
        + u64::from(writes) * (1 << 50)
        + u64::from(desc.gate()) * (1 << 39)
        + u64::from(desc.page()) * (1 << 29)
        + u64::from(other) * (1 << 28)
        + u64::from(desc.bound() - 1) * (1 << 18)
}

fn view_of(number: u64) -> Option<DescView>
    ensures { MatchOption result (FitsWord (desc_view number) → ⊥) (λ view. (view ≡ desc_view number) × FitsWord view) }
{
    let entry = (number % (1 << 18)) as u32;
    match number / (1 << 62) {
        0 => Some(DescView::Unknown(entry)),
        1 => Some(DescView::Fault(entry)),
        2 => Some(DescView::Set(entry, desc_in(number)?)),
        _ => Some(DescView::Gone(entry)),
    }
}

fn desc_in(number: u64) -> Option<Desc>
    ensures { MatchOption result (IsInRange (desc_in number) → ⊥) (λ desc. (desc ≡ desc_in number) × IsInRange desc) }
{
    let brackets = Brackets::new(
        ring_at(number, 59),
        ring_at(number, 56),
        ring_at(number, 53),
    )?;
    let gate = (number / (1 << 39) % (1 << 11)) as u16;
    let page = (number / (1 << 29) % (1 << 10)) as u16;
    let bound = (number / (1 << 18) % (1 << 10)) as u16 + 1;
    if gate > 1024 {
        return None;
    }
    let (r, e, w) = (
        has_bit(number, 52),
        has_bit(number, 51),
        has_bit(number, 50),
    );
    let aim = match (has_bit(number, 28), w) {
        (false, _) => Aim::Equal,
        (true, false) => Aim::Dominates,
        (true, true) if r || e => return None,
        (true, true) => Aim::Neither,
    };
    Some(Desc::classed(aim, brackets, r, e, w, gate, page, bound))
}

fn ring_at(number: u64, first: u32) -> Ring
    requires { first < 64 }
    ensures value { result ≡ bits number first 3 }
    ensures bound { result ≤ 7 }
{
    Ring::new((number >> first & 7) as u8).unwrap()
}

fn has_bit(number: u64, place: u32) -> bool
    requires { place < 64 }
    ensures { result ≡ has_bit number place }
{
    (number >> place) % 2 == 1
}
