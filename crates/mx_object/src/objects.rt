//! Object maps.
ghost use Rattle.std.specs.Prelude.{◌≡◌, ◌⊎◌, ◌↔◌, ℕ, Some, Err, IfOk};
ghost use Rattle.std.specs.Option.{option_map};
ghost use Rattle.std.specs.Map.{lookup};
ghost use Rattle.mx_name.specs.Names.{same_name};
ghost use Rattle.mx_object.specs.Objects.{IsObjectMap, symbols_of, has_twice, object_map, of_gates, word_of, link_of, Defines};
ghost use Rattle.mx_object.specs.declared.objects.ObjectError.TheVariants.{Memory};

use indexmap::IndexSet;
use mx_list::Sequence;
use mx_name::EntryName;
use std::alloc::{AllocError, Global};
use std::marker::Model;
use thiserror::Error;

/// Symbols with their words, in the order in which they were given.
pub type Definitions = Sequence<(EntryName, u16)>;

/// Links: a segment's name and a symbol of it.
pub type Links = Sequence<(EntryName, EntryName)>;

/// The most definitions and the most links of one object (this model's choice).
const MOST: usize = 64;

/// Why parts make no object map. The variants are tested in this order.
#[derive(Clone, Copy, Debug, PartialEq, Eq, Error)]
pub enum ObjectError {
    /// A symbol is defined twice.
    #[error("symbol defined twice")]
    Twice,
    /// There are more than 64 definitions, or more than 64 links.
    #[error("too many definitions or links")]
    TooMany,
    /// Out of memory; nothing is said of the parts.
    #[error("out of memory")]
    Memory,
}

impl From<AllocError> for ObjectError {
    ghost from_gives = { λ _ e. e ≡ Memory };

    fn from(_error: AllocError) -> ObjectError {
        ObjectError::Memory
    }
}

/// The map of an object segment: how many words from 0 on are gates, at most 64 definitions, no symbol twice, and at
/// most 64 links.
#[derive(Debug, Drop, PartialEq, Eq)]
pub struct ObjectMap {
    gate: u16,
    definitions: Definitions,
    links: Links,
}

impl Model for ObjectMap {
    ghost use Rattle.mx_object.specs.Objects.{PlainObjectMap, IsObjectMap};

    ghost Value = { PlainObjectMap };

    ghost view = { λ a. record { gate = a.gate; definitions = a.definitions; links = a.links } };

    ghost inverse = { λ d. record { gate = d.gate; definitions = d.definitions; links = d.links } };

    ghost invariant = { λ a. IsObjectMap (record { gate = a.gate; definitions = a.definitions; links = a.links }) };
}

impl Clone for ObjectMap {
    ghost is_clone = { λ a b. b ≡ a };

    fn clone(&self) -> Result<ObjectMap, AllocError> {
        let definitions = self.definitions.clone()?;
        let links = self.links.clone()?;
        Ok(ObjectMap {
            gate: self.gate,
            definitions,
            links,
        })
    }
}

impl ObjectMap {
    /// The map of these parts. `Twice` exactly where a symbol is defined twice, then `TooMany` exactly where there are
    /// more than 64 definitions or more than 64 links; `Memory` may stand in place of any answer.
    pub fn new(
        alloc: Global,
        gate: u16,
        definitions: Definitions,
        links: Links,
    ) -> Result<ObjectMap, ObjectError>
        ensures { (result ≡ object_map (record { gate = gate; definitions = definitions; links = links }))
            ⊎ (result ≡ Err Memory) }
    {
        let twice = repeats(alloc, definitions.items())?;
        made(gate, definitions, links, twice)
    }

    /// The map of an object with so many gates, no definitions and no links. Takes no memory.
    pub fn of_gates(alloc: Global, gate: u16) -> ObjectMap
        ensures { result ≡ of_gates gate }
    {
        ObjectMap {
            gate,
            definitions: Definitions::new(alloc),
            links: Links::new(alloc),
        }
    }

    /// How many words from 0 on are gates.
    pub fn gate(&self) -> u16
        ensures value { result ≡ self.now.gate }
        ensures object { IsObjectMap self.now }
    {
        self.gate
    }

    /// The definitions, in the order in which they were given.
    pub fn definitions(&self) -> &[(EntryName, u16)]
        ensures value { result.now ≡ self.now.definitions }
        ensures object { IsObjectMap self.now }
    {
        self.definitions.items()
    }

    /// The links, in the order of their numbers.
    pub fn links(&self) -> &[(EntryName, EntryName)]
        ensures value { result.now ≡ self.now.links }
        ensures object { IsObjectMap self.now }
    {
        self.links.items()
    }

    /// The word of a symbol; none exactly where it is not defined. Takes no memory.
    pub fn definition(&self, symbol: &EntryName) -> Option<u16>
        ensures value { result ≡ word_of self.now symbol.now }
        ensures defines { (word : ℕ) → (result ≡ Some word) ↔ Defines self.now symbol.now word }
    {
        word_of(self.definitions.items(), symbol)
    }

    /// The segment's name and the symbol of a link, counted from 0; none exactly where there is no link of that number.
    /// Takes no memory.
    pub fn link(&self, number: u16) -> Option<(&EntryName, &EntryName)>
        ensures { option_map (λ link. (link.0.now, link.1.now)) result ≡ link_of self.now number }
    {
        let (segment, symbol) = self.links.items().get(usize::from(number))?;
        Some((segment, symbol))
    }

    /// Another map with the same parts.
    pub fn copy(&self) -> Result<ObjectMap, AllocError>
        ensures { IfOk result (λ object. object ≡ self.now) }
    {
        self.clone()
    }
}

/// The map of these parts, once it is known whether a symbol is defined twice. Takes no memory: each refusal is told.
fn made(
    gate: u16,
    definitions: Definitions,
    links: Links,
    twice: bool,
) -> Result<ObjectMap, ObjectError>
    requires { twice ≡ has_twice (symbols_of definitions) }
    ensures { result ≡ object_map (record { gate = gate; definitions = definitions; links = links }) }
{
    if twice {
        return Err(ObjectError::Twice);
    }
    if definitions.items().len() > MOST || links.items().len() > MOST {
        return Err(ObjectError::TooMany);
    }
    Ok(ObjectMap {
        gate,
        definitions,
        links,
    })
}

fn word_of(definitions: &[(EntryName, u16)], symbol: &EntryName) -> Option<u16>
    ensures { result ≡ lookup (same_name symbol.now) definitions.now }
{
    for (defined, word) in definitions {
        if symbol == defined {
            return Some(*word);
        }
    }
    None
}

/// Whether a symbol is defined twice, in one pass.
fn repeats(alloc: Global, definitions: &[(EntryName, u16)]) -> Result<bool, AllocError>
    ensures { IfOk result (λ twice. twice ≡ has_twice (symbols_of definitions.now)) }
{
    let mut seen = IndexSet::new(alloc);
    for (symbol, _word) in definitions {
        if !seen.insert(symbol)? {
            return Ok(true);
        }
    }
    Ok(false)
}
