//! Sixteen places for triples, of which the first so many are taken.

ghost use Rattle.std.specs.Prelude.{◌≡◌, ◌≤◌, ◌<◌, [], None, Some, MatchOption, IfSome, length, option_map};
ghost use Rattle.mx_core.specs.AssociativeMemory.{HasNotBefore, IsAt, recalled, remembered};

use mx_core::Triple;
use mx_sdw::Desc;
use std::marker::Model;

/// At most sixteen triples, one for each number that it has, in a ring: where all places are taken, the next triple goes
/// into the place of the first.
#[derive(Debug, Drop)]
pub(crate) struct Places {
    triples: [Triple; 16],
    len: usize,
    /// The place of the first.
    first: usize,
    /// The place of the last answer that was noted, or that was written since.
    latest: usize,
    ghost few: { len ≤ 16 },
    ghost sixteen: { length triples ≡ 16 },
    ghost within: { first ≤ 15 },
    ghost near: { latest ≤ 15 },
}

impl Model for Places {
    ghost use Rattle.std.specs.Prelude.{List};
    ghost use Rattle.mx_cam.specs.Turns.{IsRing, in_turn};
    ghost use Rattle.mx_core.specs.declared.words.Triple.{Triple as TripleValue};

    ghost Value = { List TripleValue };

    ghost view = { λ a. in_turn a.len a.first a.triples };

    ghost invariant = { λ a. IsRing a.len a.first a.triples };
}

impl Places {
    pub(crate) fn new() -> Places
        ensures { result ≡ [] }
    {
        let blank = Triple {
            segno: 0,
            number: 0,
            desc: Desc::unknown(),
        };
        Places {
            triples: [blank; 16],
            len: 0,
            first: 0,
            latest: 0,
        }
    }

    /// What it has of a number, and at which place. The place that was noted last is looked at first.
    #[inline(always)]
    pub(crate) fn recall(&self, segno: u16) -> Option<(usize, &Triple)>
        ensures told { option_map (λ found. found.1.now) result ≡ recalled segno self.now }
        ensures near { IfSome result (λ found. found.0 ≤ 15) }
    {
        if self.latest < self.len && self.triples[self.latest].segno == segno {
            return Some((self.latest, &self.triples[self.latest]));
        }
        match place_of(&self.triples, self.len, segno) {
            Some(place) => Some((place, &self.triples[place])),
            None => None,
        }
    }

    /// Notes the place of an answer: there the next is looked for first.
    #[inline(always)]
    pub(crate) fn note(&mut self, place: usize)
        requires { place ≤ 15 }
        ensures { self.new ≡ self.old }
    {
        self.latest = place;
    }

    /// Puts a triple last; a seventeenth pushes the first out. Condition: it has nothing of the number.
    pub(crate) fn add(&mut self, triple: &Triple)
        requires { recalled triple.now.segno self.old ≡ None }
        ensures { self.new ≡ remembered triple.now self.old }
    {
        if self.len < 16 {
            self.triples[self.len] = *triple;
            self.latest = self.len;
            self.len += 1;
        } else {
            self.triples[self.first] = *triple;
            self.latest = self.first;
            self.first = (self.first + 1) % 16;
        }
    }
}

/// The place of a number among the first so many triples.
#[inline(always)]
fn place_of(triples: &[Triple; 16], len: usize, segno: u16) -> Option<usize>
    requires { len ≤ 16 }
    ensures found { MatchOption result (HasNotBefore segno triples.now len) (IsAt segno triples.now) }
    ensures under { IfSome result (λ place. place < len) }
{
    for place in 0..16 {
        if triples[place].segno == segno {
            return if place < len { Some(place) } else { None };
        }
    }
    None
}
