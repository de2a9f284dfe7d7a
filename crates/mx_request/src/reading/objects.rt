//! The map of an object in a line.

ghost use Rattle.std.specs.Prelude.{◌≡◌, IfOk};
ghost use Rattle.mx_request.specs.Decimals.{decimal_number};
ghost use Rattle.mx_request.specs.ReadingObjects.{definition_at, object_link_at, with_definition, with_link, with_field, with_fields, no_parts, object_at, ReadsMap};
ghost use Rattle.mx_request.specs.Steps.{when};

use super::decimals::read_decimal;
use super::fields::read_name;
use super::words::read_word_number;
use mx_name::{EntryName, cut};
use mx_object::{Definitions, Links, ObjectError, ObjectMap};
use std::alloc::{AllocError, Global};

/// The most fields that a map has behind GATE: 64 definitions and 64 links.
const MOST: usize = 128;

/// The definitions and the links of a map, as far as they are read.
#[derive(Drop)]
pub(crate) struct Parts {
    definitions: Definitions,
    links: Links,
}

impl Parts {
    fn none(alloc: Global) -> Parts
        ensures { result ≡ no_parts }
    {
        Parts {
            definitions: Definitions::new(alloc),
            links: Links::new(alloc),
        }
    }

    /// Adds what one more field says; `false` where it says nothing that can stand here.
    fn add(&mut self, field: &[u8]) -> Result<bool, AllocError>
        ensures { IfOk result (λ added. when added self.new ≡ with_field self.old field.now) }
    {
        let Some((label, text)) = cut(b':', field) else {
            return Ok(false);
        };
        if label == b"d".as_slice() {
            self.add_definition(text)
        } else if label == b"l".as_slice() {
            self.add_link(text)
        } else {
            Ok(false)
        }
    }

    /// Adds a definition, which stands before all links.
    fn add_definition(&mut self, text: &[u8]) -> Result<bool, AllocError>
        ensures { IfOk result (λ added. when added self.new ≡ with_definition self.old text.now) }
    {
        if !self.links.items().is_empty() {
            return Ok(false);
        }
        let Some(definition) = read_definition(text) else {
            return Ok(false);
        };
        self.definitions.push(definition)?;
        Ok(true)
    }

    fn add_link(&mut self, text: &[u8]) -> Result<bool, AllocError>
        ensures { IfOk result (λ added. when added self.new ≡ with_link self.old text.now) }
    {
        let Some(link) = read_object_link(text) else {
            return Ok(false);
        };
        self.links.push(link)?;
        Ok(true)
    }
}

/// `GATE d:SYMBOL:W ... l:NAME$SYMBOL ...`
pub(super) fn read_object(alloc: Global, text: &[u8]) -> Result<Option<ObjectMap>, AllocError>
    ensures { IfOk result (λ object. object ≡ object_at text.now) }
{
    let Some((gate, fields)) = cut(b' ', text) else {
        let Some(gate) = read_gate(text) else {
            return Ok(None);
        };
        return Ok(Some(ObjectMap::of_gates(alloc, gate)));
    };
    let Some(gate) = read_gate(gate) else {
        return Ok(None);
    };
    let Some(parts) = read_parts(alloc, fields)? else {
        return Ok(None);
    };
    read_map(ObjectMap::new(alloc, gate, parts.definitions, parts.links))
}

/// What a line says whose parts make this map, or none. Takes no memory.
fn read_map(made: Result<ObjectMap, ObjectError>) -> Result<Option<ObjectMap>, AllocError>
    ensures { ReadsMap made result }
{
    match made {
        Ok(object) => Ok(Some(object)),
        Err(ObjectError::Memory) => Err(AllocError),
        Err(ObjectError::Twice | ObjectError::TooMany) => Ok(None),
    }
}

/// Definitions, then links, with a blank between each two, and at most 128.
fn read_parts(alloc: Global, text: &[u8]) -> Result<Option<Parts>, AllocError>
    ensures { IfOk result (λ parts. parts ≡ with_fields 128 no_parts text.now) }
{
    let mut parts = Parts::none(alloc);
    let mut rest = text;
    for _left in 0..MOST {
        let Some((field, after)) = cut(b' ', rest) else {
            if !parts.add(rest)? {
                return Ok(None);
            }
            return Ok(Some(parts));
        };
        if !parts.add(field)? {
            return Ok(None);
        }
        rest = after;
    }
    Ok(None)
}

/// `SYMBOL:W`
fn read_definition(text: &[u8]) -> Option<(EntryName, u16)>
    ensures { result ≡ definition_at text.now }
{
    let (symbol, word) = cut(b':', text)?;
    let symbol = read_name(symbol)?;
    let word = read_word_number(word)?;
    Some((symbol, word))
}

/// `NAME$SYMBOL`
fn read_object_link(text: &[u8]) -> Option<(EntryName, EntryName)>
    ensures { result ≡ object_link_at text.now }
{
    let (name, symbol) = cut(b'$', text)?;
    let name = read_name(name)?;
    let symbol = read_name(symbol)?;
    Some((name, symbol))
}

/// GATE, a decimal number of at most four digits.
#[tactic(auto, using(crate::proofs::FieldLaws::gate_below))]
fn read_gate(text: &[u8]) -> Option<u16>
    ensures { result ≡ decimal_number 4 text.now }
{
    let gate = read_decimal(text, 4)?;
    Some(gate as u16)
}
