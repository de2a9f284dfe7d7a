//! The walk of an operand through its indirect words.

ghost use Rattle.std.specs.Prelude.{◌≡◌, ◌↔◌, [], max, Some, None, IsOk, IfErr, OnOk, OnErr};
ghost use Rattle.mx_ptr.specs.Pointers.{parts_of, IsPackable};
ghost use Rattle.mx_effring.specs.Chains.{Operand, read_on};
ghost use Rattle.mx_effring.specs.Walks.{reached, wanted_at, refuses_at, IsBounded, IsFurther, IsPlace, IsWanting};

use mx_ptr::{Pointer, is_link};
use mx_sdw::{Ring, Word};
use std::marker::Model;

/// The walk of an operand: where it stands and at which ring, after so many words, at most eight. Of the words that led
/// there nothing else is kept.
#[derive(Clone, Copy, Debug)]
pub struct Walk {
    place: Pointer,
    ring: Ring,
    count: u8,
}

impl Model for Walk {
    ghost use Rattle.mx_effring.specs.Walks.{Reached, IsBounded};

    ghost Value = { Reached };

    ghost view = { λ w. record { place = w.place; ring = w.ring; count = w.count } };

    ghost invariant = { λ w. IsBounded (record { place = w.place; ring = w.ring; count = w.count }) };

    ghost inverse = { λ at. record { place = at.place; ring = at.ring; count = at.count } };
}

/// What a walk asks for.
#[derive(Clone, Copy, Debug, PartialEq, Eq)]
pub enum Want {
    /// The indirect word at this place, read at this ring.
    Word { segno: u16, word: u16, ring: Ring },
    /// Nothing more: the operand is this place, at its effective ring.
    Done(Pointer),
}

/// Why a walk refuses a word.
#[derive(Clone, Copy, Debug, PartialEq, Eq)]
pub enum Stuck {
    /// A link word: the link is to be snapped first.
    Link,
    /// Neither a pointer word nor a link word.
    NotPointer,
    /// An eighth word that asks for a further one.
    Limit,
}

impl Walk {
    /// The walk of an operand that begins at `base`, which a pointer register or the operand itself gives.
    pub fn start(current: Ring, base: Pointer, indirect: bool) -> Walk
        ensures value { result ≡ reached (record { current = current; base = base; indirect = indirect; chain = [] }) }
        ensures bounded { IsBounded result }
    {
        Walk {
            place: Pointer {
                further: indirect,
                ..base
            },
            ring: raised(current, base.ring),
            count: 0,
        }
    }

    /// What it asks for: the next indirect word, at the effective ring so far, or nothing more. Where a pointer word can
    /// say the place at which it stands, so can one say the place that it asks for.
    pub fn want(&self) -> Want
        ensures value { result ≡ wanted_at self.now }
        ensures place { IsPackable self.now.place → IsPlace result }
        ensures bounded { IsBounded self.now }
    {
        if self.place.further {
            Want::Word {
                segno: self.place.segno,
                word: self.place.word,
                ring: self.ring,
            }
        } else {
            Want::Done(Pointer {
                ring: self.ring,
                further: false,
                ..self.place
            })
        }
    }

    /// Reads on with the word that it asks for, from a segment with the first bracket `r1`: it comes to where each operand
    /// that had come here comes with that word. A refused word leaves it as it was: a link word, a word that is no pointer,
    /// and an eighth word that asks for a further one, in this order.
    pub fn feed(&mut self, word: Word, r1: Ring) -> Result<(), Stuck>
        requires { IsWanting self.old }
        ensures taken { IsOk result ↔ (refuses_at self.old word ≡ None) }
        ensures why { IfErr result (λ stuck. refuses_at self.old word ≡ Some stuck) }
        ensures ok { OnOk result ((operand : Operand) → reached operand ≡ self.old
            → self.new ≡ reached (read_on operand (parts_of word) r1)) }
        ensures further { OnOk result (IsFurther self.old self.new) }
        ensures err { OnErr result (self.new ≡ self.old) }
    {
        if is_link(word) {
            return Err(Stuck::Link);
        }
        let Some(pointer) = Pointer::read(word) else {
            return Err(Stuck::NotPointer);
        };
        if pointer.further && self.count == 7 {
            return Err(Stuck::Limit);
        }
        self.place = pointer;
        self.ring = ring_past(self.ring, pointer.ring, r1);
        self.count += 1;
        Ok(())
    }
}

// The ring at which a walk goes on from a pointer word with this ring in it, in a segment with the first bracket `r1`.
fn ring_past(ring: Ring, in_word: Ring, r1: Ring) -> Ring
    ensures { result ≡ max (max ring in_word) r1 }
{
    raised(raised(ring, in_word), r1)
}

// The larger of two rings.
fn raised(ring: Ring, by: Ring) -> Ring
    ensures { result ≡ max ring by }
{
    if by.number() > ring.number() {
        by
    } else {
        ring
    }
}
