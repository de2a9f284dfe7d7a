//! Associative memories.

ghost use Rattle.std.specs.Prelude.{◌≡◌, [], IfOk, MatchOption};
ghost use Rattle.mx_core.specs.AssociativeMemory.{recalled, replaced, at_most_sixteen, remembered, HasNot, IsAt};

use mx_core::Triple;
use std::alloc::{AllocError, Global};
use std::marker::Model;

/// The associative memory of a process: at most sixteen triples, one for each number that it has.
#[derive(Debug, Drop)]
pub struct AssociativeMemory {
    triples: Vec<Triple>,
}

impl Model for AssociativeMemory {
    ghost use Rattle.std.specs.Prelude.{List};
    ghost use Rattle.mx_core.specs.declared.words.Triple.{Triple as TripleValue};

    ghost Value = { List TripleValue };

    ghost view = { λ memory. memory.triples.items };
}

impl AssociativeMemory {
    pub(crate) fn new(alloc: Global) -> AssociativeMemory
        ensures { result ≡ [] }
    {
        AssociativeMemory {
            triples: Vec::new(alloc),
        }
    }

    /// What it has of a number.
    pub(crate) fn recall(&self, segno: u16) -> Option<Triple>
        ensures { result ≡ recalled segno self.now }
    {
        match self.place(segno) {
            Some(place) => Some(self.triples[place]),
            None => None,
        }
    }

    /// A memory with this triple in the place of that of its number, or as the last; a seventeenth pushes the first
    /// out.
    pub(crate) fn with(
        &self,
        triple: &Triple,
        alloc: Global,
    ) -> Result<AssociativeMemory, AllocError>
        ensures { IfOk result (λ memory. memory ≡ remembered triple.now self.now) }
    {
        let mut memory = self.replacing(triple, alloc)?;
        memory.push_first_out();
        Ok(memory)
    }

    fn replacing(&self, triple: &Triple, alloc: Global) -> Result<AssociativeMemory, AllocError>
        ensures { IfOk result (λ memory. memory ≡ replaced triple.now self.now) }
    {
        let mut triples = Vec::from_slice(alloc, &self.triples)?;
        match self.place(triple.segno) {
            Some(place) => {
                triples[place] = *triple;
                Ok(AssociativeMemory { triples })
            },
            None => {
                triples.push(*triple)?;
                Ok(AssociativeMemory { triples })
            },
        }
    }

    fn push_first_out(&mut self)
        ensures { self.new ≡ at_most_sixteen self.old }
    {
        if self.triples.len() > 16 {
            self.triples.remove(0);
        }
    }

    /// The place of a number.
    fn place(&self, segno: u16) -> Option<usize>
        ensures { MatchOption result (HasNot segno self.now) (IsAt segno self.now) }
    {
        for place in 0..self.triples.len() {
            if self.triples[place].segno == segno {
                return Some(place);
            }
        }
        None
    }
}
