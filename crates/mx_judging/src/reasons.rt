//! Why a reference was denied: the rule, and the numbers that it compares.

ghost use Rattle.std.specs.Prelude.{IfSome, IsSome};
ghost use Rattle.mx_judging.specs.Reasons.{Explains, IsDue};

use crate::parts::NOTHING;
use crate::parts::Part::{self, Decimal, Octal, Text};
use mx_sdw::{Aim, Denial, Desc, DescKind, Ring};
use std::fmt::{self, Display, Formatter, Write};

/// One of the brackets, with the ring that it is.
#[derive(Clone, Copy)]
pub enum Bracket {
    R1(u8),
    R2(u8),
    R3(u8),
}

impl Bracket {
    /// Its name, and the ring that it is.
    pub fn parts(self) -> [Part<'static>; 2] {
        match self {
            Bracket::R1(ring) => [Text("R1 = "), Decimal(u32::from(ring))],
            Bracket::R2(ring) => [Text("R2 = "), Decimal(u32::from(ring))],
            Bracket::R3(ring) => [Text("R3 = "), Decimal(u32::from(ring))],
        }
    }
}

/// What a denial comes of, with the numbers that its rule compares.
#[derive(Clone, Copy)]
pub enum Reason {
    /// The segment number is not known.
    NotKnown,
    /// The segment was deleted.
    Deleted,
    /// The word is not below the bound.
    Beyond { word: u16, bound: u16 },
    /// The authorization does not dominate the segment's class.
    NotDominated,
    /// The authorization does not equal the segment's class.
    NotEqual,
    /// The flag r is off.
    NoRead,
    /// The flag w is off.
    NoWrite,
    /// The flag e is off.
    NoExecute,
    /// The ring is above a bracket.
    Above { ring: u8, bracket: Bracket },
    /// The ring is below a bracket.
    Below { ring: u8, bracket: Bracket },
    /// The word is no gate.
    NoGate { word: u16, gate: u16 },
    /// The call would enter this ring, which is above the current one.
    Raises { entered: u8, current: u8 },
}

impl Reason {
    /// What it says.
    pub fn parts(self) -> [Part<'static>; 5] {
        match self {
            Reason::NotKnown => whole("the number stands for no segment"),
            Reason::Deleted => whole("the segment was deleted"),
            Reason::Beyond { word, bound } => {
                place(word, " is not below the bound ", u64::from(bound))
            }
            Reason::NotDominated => whole("the authorization does not dominate the class"),
            Reason::NotEqual => whole("the authorization does not equal the class"),
            Reason::NoRead => whole("the flag r is off"),
            Reason::NoWrite => whole("the flag w is off"),
            Reason::NoExecute => whole("the flag e is off"),
            Reason::Above { ring, bracket } => against(ring, " is above ", bracket),
            Reason::Below { ring, bracket } => against(ring, " is below ", bracket),
            Reason::NoGate { word, gate: 0 } => {
                let word = Octal(u64::from(word));
                [
                    Text("word "),
                    word,
                    Text(" is no gate: the segment has none"),
                    NOTHING,
                    NOTHING,
                ]
            }
            Reason::NoGate { word, gate } => {
                place(word, " is no gate: they are below ", u64::from(gate))
            }
            Reason::Raises { entered, current } => {
                let (entered, current) = (Decimal(u32::from(entered)), Decimal(u32::from(current)));
                let above = Text(", above the current ring ");
                [
                    Text("it would enter ring "),
                    entered,
                    above,
                    current,
                    NOTHING,
                ]
            }
        }
    }
}

impl Display for Reason {
    fn fmt<W: Write>(&self, f: &mut Formatter<W>) -> fmt::Result {
        for part in &self.parts() {
            write!(f, "{part}")?;
        }
        Ok(())
    }
}

fn whole(words: &'static str) -> [Part<'static>; 5] {
    [Text(words), NOTHING, NOTHING, NOTHING, NOTHING]
}

fn place(word: u16, how: &'static str, limit: u64) -> [Part<'static>; 5] {
    [
        Text("word "),
        Octal(u64::from(word)),
        Text(how),
        Octal(limit),
        Text(" (octal)"),
    ]
}

fn against(ring: u8, how: &'static str, bracket: Bracket) -> [Part<'static>; 5] {
    let [name, limit] = bracket.parts();
    [
        Text("ring "),
        Decimal(u32::from(ring)),
        Text(how),
        name,
        limit,
    ]
}

/// Why an access denies a reference with this denial, in an effective ring, from a current ring: what the rule of the denial
/// compares, where that holds. Each denial that applies to the access has such a reason; none has one that comes of no comparison with
/// it, as `not_pointer`.
pub fn explain(desc: &Desc, denial: Denial, ring: Ring, word: u16, current: u8) -> Option<Reason>
    ensures why { IfSome result (λ why. Explains desc.now denial ring word current why) }
    ensures each { IsDue desc.now denial ring word current → IsSome result }
{
    let brackets = desc.brackets();
    let (r1, r2) = (brackets.r1().number(), brackets.r2().number());
    let r3 = brackets.r3().number();
    let ring = ring.number();
    let (bound, gate) = (desc.bound(), desc.gate());
    let entered = if ring > r2 { r2 } else { ring };
    let below = Reason::Below {
        ring,
        bracket: Bracket::R1(r1),
    };
    let above = Reason::Above {
        ring,
        bracket: Bracket::R2(r2),
    };
    match denial {
        Denial::UnknownSegment if desc.kind() == DescKind::Unknown => Some(Reason::NotKnown),
        Denial::NoSegment if desc.kind() == DescKind::Gone => Some(Reason::Deleted),
        Denial::OutOfBounds if word >= bound => Some(Reason::Beyond { word, bound }),
        Denial::AimRead if desc.aim() == Aim::Neither => Some(Reason::NotDominated),
        Denial::AimWrite if desc.aim() != Aim::Equal => Some(Reason::NotEqual),
        Denial::NotReadable if !desc.r() => Some(Reason::NoRead),
        Denial::ReadBracket if ring > r2 => Some(above),
        Denial::NotWritable if !desc.w() => Some(Reason::NoWrite),
        Denial::WriteBracket if ring > r1 => Some(Reason::Above {
            ring,
            bracket: Bracket::R1(r1),
        }),
        Denial::NotExecutable if !desc.e() => Some(Reason::NoExecute),
        Denial::ExecuteBracket if ring < r1 => Some(below),
        Denial::ExecuteBracket if ring > r2 => Some(above),
        Denial::CallBracket if ring > r3 => Some(Reason::Above {
            ring,
            bracket: Bracket::R3(r3),
        }),
        Denial::UpwardCall if ring < r1 => Some(below),
        Denial::Gate if word >= gate => Some(Reason::NoGate { word, gate }),
        Denial::RaisedRing if entered > current => Some(Reason::Raises { entered, current }),
        Denial::BadReturn if ring < r1 => Some(below),
        Denial::BadReturn if ring > r2 => Some(above),
        _ => None,
    }
}
