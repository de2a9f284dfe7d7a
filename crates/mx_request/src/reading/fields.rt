//! The fields of a line.

ghost use Rattle.std.specs.Prelude.{◌≡◌, [], ◌∷◌, IfOk};
ghost use Rattle.std.specs.Option.{option_map};
ghost use Rattle.mx_name.specs.Identifiers.{acl_id_of};
ghost use Rattle.mx_name.specs.Names.{name_of};
ghost use Rattle.mx_name.specs.Pathnames.{pathname_of};
ghost use Rattle.mx_request.specs.Reading.{ring_at, brackets_at, brackets_before};

use mx_name::{AclId, EntryName, NameError, Pathname, cut};
use mx_sdw::Ring;
use std::alloc::{AllocError, Global};

pub(super) fn read_path(alloc: Global, text: &[u8]) -> Result<Option<Pathname>, AllocError>
    ensures { IfOk result (λ path. path ≡ pathname_of text.now) }
{
    match Pathname::read(alloc, text) {
        Ok(path) => Ok(Some(path)),
        Err(NameError::Memory) => Err(AllocError),
        Err(_) => Ok(None),
    }
}

pub(super) fn read_name(text: &[u8]) -> Option<EntryName>
    ensures { result ≡ name_of text.now }
{
    EntryName::read(text).ok()
}

pub(super) fn read_id(text: &[u8]) -> Option<AclId>
    ensures { result ≡ acl_id_of text.now }
{
    AclId::read(text).ok()
}

/// R1, R2 and R3.
pub(super) fn read_brackets(text: &[u8]) -> Option<[Ring; 3]>
    ensures { result ≡ brackets_at text.now }
{
    let (r1, rest) = cut(b' ', text)?;
    let (r2, r3) = cut(b' ', rest)?;
    Some([read_ring(r1)?, read_ring(r2)?, read_ring(r3)?])
}

/// R1, R2 and R3, and what stands behind them.
pub(super) fn cut_brackets(text: &[u8]) -> Option<([Ring; 3], &[u8])>
    ensures { option_map (λ p. (p.0, p.1.now)) result ≡ brackets_before text.now }
{
    let (r1, rest) = cut(b' ', text)?;
    let (r2, rest) = cut(b' ', rest)?;
    let (r3, rest) = cut(b' ', rest)?;
    let brackets = [read_ring(r1)?, read_ring(r2)?, read_ring(r3)?];
    Some((brackets, rest))
}

/// A ring, one digit.
pub(super) fn read_ring(text: &[u8]) -> Option<Ring>
    ensures { result ≡ ring_at text.now }
{
    match text {
        [digit] => ring_of(*digit),
        _ => None,
    }
}

fn ring_of(digit: u8) -> Option<Ring>
    ensures { result ≡ ring_at (digit ∷ []) }
{
    match digit {
        b'0'..=b'7' => Ring::new(digit - b'0'),
        _ => None,
    }
}
