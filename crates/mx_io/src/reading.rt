ghost use Rattle.std.specs.Prelude.{◌≡◌, ℕ, ◌+◌, ◌≤◌, ◌<◌, length, vec_len, IfOk, OnErr, IsErrOf};
ghost use Rattle.mx_io.specs.Bytes.{TakesAll, TakesAtMost, TakesTooMany};
ghost use Rattle.mx_io.specs.Faults.{Rose};
ghost use Rattle.mx_io.specs.declared.reading.ReadError.TheVariants.{Memory};

use crate::{Got, Source};
use std::alloc::{AllocError, Global};
use thiserror::Error;

/// How many bytes are asked of a source at a time.
const PIECE: usize = 32_768;

/// Why a source was not read to its end.
#[derive(Clone, Copy, Debug, PartialEq, Eq, Error)]
pub enum ReadError {
    #[error("the source failed")]
    Fault,
    #[error("the source has more bytes than the limit")]
    TooLong,
    #[error("out of memory")]
    Memory,
}

impl From<AllocError> for ReadError {
    ghost from_gives = { λ _ e. e ≡ Memory };

    fn from(_: AllocError) -> ReadError {
        ReadError::Memory
    }
}

/// Reads a source to its end, where that comes after at most `limit` bytes. Each turn takes at least one byte, so there
/// are at most `limit + 2` turns, and at most `limit + 1` bytes are taken. On an error the bytes read before it stay
/// taken.
pub fn read_all<S: Source>(
    alloc: Global,
    source: &mut S,
    limit: usize,
) -> Result<Vec<u8>, ReadError>
    ensures all { IfOk result (λ bytes. TakesAll (S.left source.old) (S.left source.new) bytes.items) }
    ensures within { IfOk result (λ bytes. length bytes.items ≤ limit) }
    ensures too_long { IsErrOf result ReadError.TooLong → TakesTooMany limit (S.left source.old) (S.left source.new) }
    ensures cause { IsErrOf result ReadError.Fault → Rose (S.faults source.old) (S.faults source.new) }
    ensures only { (IsErrOf result ReadError.Fault → ⊥) → S.faults source.new ≡ S.faults source.old }
    ensures err { OnErr result (TakesAtMost (limit + 1) (S.left source.old) (S.left source.new)) }
    ensures later { S.faults source.old ≤ S.faults source.new }
{
    let mut buffer = new_buffer(alloc, PIECE)?;
    read_by_pieces(alloc, source, limit, &mut buffer)
}

fn new_buffer(alloc: Global, size: usize) -> Result<Vec<u8>, AllocError>
    ensures { IfOk result (λ buffer. vec_len buffer ≡ size) }
{
    vec![in alloc; 0u8; size]
}

/// Reads a source to its end, each piece into the buffer first.
#[tactic(auto, using(crate::proofs::BytesLaws::takes_more, crate::proofs::BytesLaws::takes_all, crate::proofs::BytesLaws::takes_too_many))]
fn read_by_pieces<S: Source>(
    alloc: Global,
    source: &mut S,
    limit: usize,
    buffer: &mut [u8],
) -> Result<Vec<u8>, ReadError>
    requires { 0 < length buffer.old }
    ensures all { IfOk result (λ bytes. TakesAll (S.left source.old) (S.left source.new) bytes.items) }
    ensures within { IfOk result (λ bytes. length bytes.items ≤ limit) }
    ensures too_long { IsErrOf result ReadError.TooLong → TakesTooMany limit (S.left source.old) (S.left source.new) }
    ensures cause { IsErrOf result ReadError.Fault → Rose (S.faults source.old) (S.faults source.new) }
    ensures only { (IsErrOf result ReadError.Fault → ⊥) → S.faults source.new ≡ S.faults source.old }
    ensures err { OnErr result (TakesAtMost (limit + 1) (S.left source.old) (S.left source.new)) }
    ensures later { S.faults source.old ≤ S.faults source.new }
{
    let mut bytes = Vec::new(alloc);
    while bytes.len() <= limit {
        let room = (limit - bytes.len()).min(buffer.len() - 1) + 1;
        let part = &mut buffer[..room];
        match source.read(part) {
            Got::Bytes(count) => bytes.extend_from_slice(&part[..count])?,
            Got::End => return Ok(bytes),
            Got::Fault => return Err(ReadError::Fault),
        }
    }
    Err(ReadError::TooLong)
}
