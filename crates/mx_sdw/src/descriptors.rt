//! Segment descriptors.

ghost use Rattle.std.specs.Prelude.{◌≡◌, ◌↔◌, IsTrue};
ghost use Rattle.mx_sdw.specs.Descriptors.{unknown_desc, gone_desc, segment_desc, classed_desc, empty_desc};
ghost use Rattle.mx_sdw.specs.Same.{same_desc};

use crate::rings::Brackets;
use std::marker::Model;

/// The number of a cell of the shared memory: 64 times the page and the word.
#[derive(Clone, Copy, Debug, PartialEq, Eq)]
pub struct Cell(pub u32);

/// What a process's segment number stands for.
#[derive(Clone, Copy, Debug, PartialEq, Eq)]
pub enum DescKind {
    /// The number is not known to the process.
    Unknown,
    /// The segment was deleted.
    Gone,
    /// A segment that stands.
    Segment,
}

/// How the authorization of a process stands to the class of a segment (Multics Administrators' Manual).
#[derive(Clone, Copy, Debug, PartialEq, Eq)]
pub enum Aim {
    /// They are equal: nothing is closed.
    Equal,
    /// The authorization dominates the class and is not equal to it: writing is closed.
    Dominates,
    /// The authorization does not dominate the class: all is closed.
    Neither,
}

/// A segment descriptor: the access that one process has to one segment, and where the segment lies.
///
/// The flags say what the access control list gives, the brackets in which rings. Words 0 to `gate - 1` are the gates,
/// words 0 to `bound - 1` are in the segment, and word 0 is the first of the page `page` of 64 words. `aim` says how the
/// process's authorization stands to the segment's class.
#[derive(Clone, Copy, Debug, PartialEq, Eq)]
pub struct Desc {
    kind: DescKind,
    brackets: Brackets,
    r: bool,
    e: bool,
    w: bool,
    gate: u16,
    page: u16,
    bound: u16,
    aim: Aim,
}

impl Model for Desc {
    ghost use Rattle.mx_sdw.specs.Descriptors.{Descriptor};

    ghost Value = { Descriptor };

    ghost view = { λ d. record {
      kind = d.kind;
      brackets = d.brackets;
      r = d.r;
      e = d.e;
      w = d.w;
      gate = d.gate;
      page = d.page;
      bound = d.bound;
      aim = d.aim;
    } };

    ghost inverse = { λ d. record {
      kind = d.kind;
      brackets = d.brackets;
      r = d.r;
      e = d.e;
      w = d.w;
      gate = d.gate;
      page = d.page;
      bound = d.bound;
      aim = d.aim;
    } };
}

impl Desc {
    /// The descriptor of a number that is not known: zeros in all other fields, and an authorization that equals the class.
    pub fn unknown() -> Desc
        ensures { result ≡ unknown_desc }
    {
        Desc::without_segment(DescKind::Unknown)
    }

    /// The descriptor of a segment that was deleted: zeros in all other fields, and an authorization that equals the class.
    pub fn gone() -> Desc
        ensures { result ≡ gone_desc }
    {
        Desc::without_segment(DescKind::Gone)
    }

    fn without_segment(kind: DescKind) -> Desc
        ensures { result ≡ empty_desc kind }
    {
        Desc {
            kind,
            brackets: Brackets::lowest(),
            r: false,
            e: false,
            w: false,
            gate: 0,
            page: 0,
            bound: 0,
            aim: Aim::Equal,
        }
    }

    /// The descriptor of a segment that stands, whose class the authorization equals.
    pub fn segment(
        brackets: Brackets,
        r: bool,
        e: bool,
        w: bool,
        gate: u16,
        page: u16,
        bound: u16,
    ) -> Desc
        ensures { result ≡ segment_desc brackets r e w gate page bound }
    {
        Desc::classed(Aim::Equal, brackets, r, e, w, gate, page, bound)
    }

    /// The descriptor of a segment that stands. Flags r and e stay on where the authorization dominates its class, and w
    /// where it equals it.
    pub fn classed(
        aim: Aim,
        brackets: Brackets,
        r: bool,
        e: bool,
        w: bool,
        gate: u16,
        page: u16,
        bound: u16,
    ) -> Desc
        ensures { result ≡ classed_desc aim brackets r e w gate page bound }
    {
        let (dominates, equal) = match aim {
            Aim::Equal => (true, true),
            Aim::Dominates => (true, false),
            Aim::Neither => (false, false),
        };
        Desc {
            kind: DescKind::Segment,
            brackets,
            r: dominates && r,
            e: dominates && e,
            w: equal && w,
            gate,
            page,
            bound,
            aim,
        }
    }

    /// What the number stands for.
    pub fn kind(&self) -> DescKind
        ensures { result ≡ self.now.kind }
    {
        self.kind
    }

    /// The brackets, 0, 0, 0 where there is no segment.
    pub fn brackets(&self) -> Brackets
        ensures { result ≡ self.now.brackets }
    {
        self.brackets
    }

    /// Whether the segment may be read.
    pub fn r(&self) -> bool
        ensures { result ≡ self.now.r }
    {
        self.r
    }

    /// Whether it may be executed.
    pub fn e(&self) -> bool
        ensures { result ≡ self.now.e }
    {
        self.e
    }

    /// Whether it may be written.
    pub fn w(&self) -> bool
        ensures { result ≡ self.now.w }
    {
        self.w
    }

    /// How many gates it has: its first words.
    pub fn gate(&self) -> u16
        ensures { result ≡ self.now.gate }
    {
        self.gate
    }

    /// The page of its word 0, of 64 words each.
    pub fn page(&self) -> u16
        ensures { result ≡ self.now.page }
    {
        self.page
    }

    /// How many words it has.
    pub fn bound(&self) -> u16
        ensures { result ≡ self.now.bound }
    {
        self.bound
    }

    /// How the authorization stands to the segment's class, `Equal` where there is no segment.
    pub fn aim(&self) -> Aim
        ensures { result ≡ self.now.aim }
    {
        self.aim
    }

    /// Whether the other is the same descriptor, in each field.
    pub fn is_same(&self, other: &Desc) -> bool
        ensures test { result ≡ same_desc self.now other.now }
        ensures same { IsTrue result ↔ (self.now ≡ other.now) }
    {
        self == other
    }
}
