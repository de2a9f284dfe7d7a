//! Resolving a link.
ghost use Rattle.std.specs.Prelude.{◌≡◌, ◌⊎◌, Err};
ghost use Rattle.std.specs.Option.{option_map};
ghost use Rattle.mx_link.specs.Targets.{in_segment, target};
ghost use Rattle.mx_link.specs.declared.resolving.LinkError.TheVariants.{Memory};

use mx_name::EntryName;
use mx_object::ObjectMap;
use mx_search::{Finder, Found, Rules, search};
use std::alloc::AllocError;
use thiserror::Error;

/// What finds a segment by a rule, and its object map.
pub trait Linker: Finder {
    ghost use Rattle.std.specs.Prelude.{Option};
    ghost use Rattle.mx_object.specs.Objects.{PlainObjectMap};
    ghost use Rattle.mx_search.specs.declared.searching.Found.{Found};

    /// Which object map each segment has that is found, if any.
    ghost object_of: { Self → Found → Option PlainObjectMap };

    /// The object map of a segment that was found; none exactly where it is no object. Takes no memory.
    fn object(&self, found: &Found) -> Option<&ObjectMap>
        ensures { option_map (λ object. object.now) result ≡ object_of self.now found.now };
}

/// Where a link leads: the segment that was found, and the word.
#[derive(Clone, Copy, Debug, PartialEq, Eq)]
pub struct Target {
    pub found: Found,
    pub word: u16,
}

/// Why a link leads nowhere. The variants are tested in this order.
#[derive(Clone, Copy, Debug, PartialEq, Eq, Error)]
pub enum LinkError {
    /// No rule finds a segment under the name.
    #[error("segment not found")]
    SegmentNotFound,
    /// The segment found is no object.
    #[error("not an object")]
    NotObject,
    /// The object found does not define the symbol.
    #[error("no definition")]
    NoDefinition,
    /// Out of memory; the link may be resolved later.
    #[error("out of memory")]
    Memory,
}

impl From<AllocError> for LinkError {
    ghost from_gives = { λ _ e. e ≡ Memory };

    fn from(_error: AllocError) -> LinkError {
        LinkError::Memory
    }
}

/// The word of the symbol in the first segment that the rules find under the name. `SegmentNotFound` exactly where no
/// rule finds one, then `NotObject` exactly where that segment has no object map, then `NoDefinition` exactly where the
/// map does not define the symbol: no further rule is tried. `Memory` may stand in place of any answer.
pub fn resolve<F: Linker>(
    segment: &EntryName,
    symbol: &EntryName,
    rules: &Rules,
    finder: &F,
) -> Result<Target, LinkError>
    ensures { (result ≡ target (F.answer finder.now) (F.object_of finder.now) rules.now segment.now symbol.now)
        ⊎ (result ≡ Err Memory) }
{
    let found = search(rules, segment, finder)?;
    in_segment(found, symbol, finder)
}

/// The word of the symbol in the segment that was found, if any. Takes no memory: each refusal is told.
fn in_segment<F: Linker>(
    found: Option<Found>,
    symbol: &EntryName,
    finder: &F,
) -> Result<Target, LinkError>
    ensures { result ≡ in_segment (F.object_of finder.now) found symbol.now }
{
    let Some(found) = found else {
        return Err(LinkError::SegmentNotFound);
    };
    let Some(object) = finder.object(&found) else {
        return Err(LinkError::NotObject);
    };
    match object.definition(symbol) {
        Some(word) => Ok(Target { found, word }),
        None => Err(LinkError::NoDefinition),
    }
}
