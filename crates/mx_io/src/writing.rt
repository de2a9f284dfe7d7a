ghost use Rattle.std.specs.Prelude.{◌≡◌, ℕ, ◌≤◌, OnOk, OnErr};
ghost use Rattle.mx_io.specs.Bytes.{Appends, AppendsPart};
ghost use Rattle.mx_io.specs.Faults.{Rose};

use crate::{Put, Sink};
use thiserror::Error;

/// The sink failed before all bytes were written.
#[derive(Clone, Copy, Debug, PartialEq, Eq, Error)]
#[error("the sink failed")]
pub struct WriteFault;

/// Writes all the bytes, in order. Takes no memory. On a fault the first of them are written, and not all.
#[tactic(auto, using(crate::proofs::BytesLaws::appends_more))]
pub fn write_all<K: Sink>(sink: &mut K, bytes: &[u8]) -> Result<(), WriteFault>
    ensures all { OnOk result (Appends (K.out sink.old) (K.out sink.new) bytes.now) }
    ensures part { OnErr result (AppendsPart (K.out sink.old) (K.out sink.new) bytes.now) }
    ensures cause { OnErr result (Rose (K.faults sink.old) (K.faults sink.new)) }
    ensures only { OnOk result (K.faults sink.new ≡ K.faults sink.old) }
    ensures later { K.faults sink.old ≤ K.faults sink.new }
{
    let mut written = 0;
    while written < bytes.len() {
        match sink.write(&bytes[written..]) {
            Put::Bytes(count) => written += count,
            Put::Fault => return Err(WriteFault),
        }
    }
    Ok(())
}
