//! What a request wants on a directory or of a segment, and why it is not left to its caller.

ghost use Rattle.std.specs.Prelude.{◌≡◌, is_none, IfSome};
ghost use Rattle.mx_judging.specs.Wants.{is_left, IsLack, is_open, IsClosed};

use crate::parts::NOTHING;
use crate::parts::Part::{self, Decimal, Text};
use crate::reasons::Bracket;
use mx_acl::Modes;
use mx_sdw::{Aim, Ring};

/// A letter of a directory's modes: to ask for its entries, to change them, or to add to them.
#[derive(Clone, Copy)]
pub enum Letter {
    S,
    M,
    A,
}

/// Why a letter is not left: the modes do not have it, or they have it and the ring is above the bracket up to which it is left.
#[derive(Clone, Copy)]
pub enum Lack {
    NotGiven,
    AboveD1 { ring: u8, d1: u8 },
    AboveD2 { ring: u8, d2: u8 },
}

impl Letter {
    /// How it is written.
    pub fn text(self) -> &'static str {
        match self {
            Letter::S => "s",
            Letter::M => "m",
            Letter::A => "a",
        }
    }
}

impl Lack {
    /// What it says behind the modes that are given.
    pub fn parts(self) -> [Part<'static>; 4] {
        match self {
            Lack::NotGiven => [NOTHING; 4],
            Lack::AboveD1 { ring, d1 } => above(ring, " is above D1 = ", d1),
            Lack::AboveD2 { ring, d2 } => above(ring, " is above D2 = ", d2),
        }
    }
}

fn above(ring: u8, how: &'static str, bracket: u8) -> [Part<'static>; 4] {
    [
        Text(", but ring "),
        Decimal(u32::from(ring)),
        Text(how),
        Decimal(u32::from(bracket)),
    ]
}

/// Why a letter is not left of these modes in a ring, on a directory with these brackets. None exactly where it is left.
pub fn lacking(modes: Modes, letter: Letter, ring: Ring, d1: Ring, d2: Ring) -> Option<Lack>
    ensures lack { IfSome result (λ lack. IsLack modes letter ring d1 d2 lack) }
    ensures none { is_none result ≡ is_left modes letter ring d1 d2 }
{
    let ring = ring.number();
    let (d1, d2) = (d1.number(), d2.number());
    match letter {
        Letter::S => {
            if !modes.s() {
                Some(Lack::NotGiven)
            } else if ring > d2 {
                Some(Lack::AboveD2 { ring, d2 })
            } else {
                None
            }
        }
        Letter::M => {
            if !modes.m() {
                Some(Lack::NotGiven)
            } else if ring > d1 {
                Some(Lack::AboveD1 { ring, d1 })
            } else {
                None
            }
        }
        Letter::A => {
            if !modes.a() {
                Some(Lack::NotGiven)
            } else if ring > d1 {
                Some(Lack::AboveD1 { ring, d1 })
            } else {
                None
            }
        }
    }
}

/// A letter of a segment's modes: to read it, to carry it out, or to write it.
#[derive(Clone, Copy)]
pub enum Use {
    R,
    E,
    W,
}

/// Why a letter of a segment's modes is not left: the modes do not have it, the authorization does not stand so to the class,
/// or the ring is above or below a bracket.
#[derive(Clone, Copy)]
pub enum Closed {
    NotGiven,
    Class,
    Above(Bracket),
    Below(Bracket),
}

impl Use {
    /// How it is written behind a bracket.
    pub fn words(self) -> &'static str {
        match self {
            Use::R => " for r",
            Use::E => " for e",
            Use::W => " for w",
        }
    }
}

/// Why a letter is not left of these modes in a ring, where the authorization stands so to the class, on a segment with these
/// brackets. None exactly where it is left.
pub fn closing(
    modes: Modes,
    letter: Use,
    aim: Aim,
    ring: Ring,
    brackets: &[Ring; 3],
) -> Option<Closed>
    ensures closed { IfSome result (λ closed. IsClosed modes letter aim ring brackets.now closed) }
    ensures none { is_none result ≡ is_open modes letter aim ring brackets.now }
{
    let ring = ring.number();
    let (r1, r2, r3) = (
        brackets[0].number(),
        brackets[1].number(),
        brackets[2].number(),
    );
    match letter {
        Use::R => {
            if !modes.r() {
                Some(Closed::NotGiven)
            } else if aim == Aim::Neither {
                Some(Closed::Class)
            } else if ring > r2 {
                Some(Closed::Above(Bracket::R2(r2)))
            } else {
                None
            }
        }
        Use::E => {
            if !modes.e() {
                Some(Closed::NotGiven)
            } else if aim == Aim::Neither {
                Some(Closed::Class)
            } else if ring < r1 {
                Some(Closed::Below(Bracket::R1(r1)))
            } else if ring > r3 {
                Some(Closed::Above(Bracket::R3(r3)))
            } else {
                None
            }
        }
        Use::W => {
            if !modes.w() {
                Some(Closed::NotGiven)
            } else if aim != Aim::Equal {
                Some(Closed::Class)
            } else if ring > r1 {
                Some(Closed::Above(Bracket::R1(r1)))
            } else {
                None
            }
        }
    }
}
