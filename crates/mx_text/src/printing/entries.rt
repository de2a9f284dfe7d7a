//! The text of a journal entry, added to bytes.

ghost use Rattle.std.specs.Prelude.{◌≡◌, ◌≤◌, ◌++◌, codes, drop, OnOk};
ghost use Rattle.std.specs.Fmt.{decimal};
ghost use Rattle.mx_text.specs.RunText.{entry_text};

use super::tails::{ROOM, Room, put_byte, put_decimal};
use mx_state::Entry;
use std::alloc::AllocError;

/// Adds `NUMBER PROCESS RING REQUEST = REPLY` and a newline. What stands before the request is spelled in `bytes`, which hold
/// nothing that lasts.
pub(super) fn add_entry(
    out: &mut Vec<u8>,
    bytes: &mut Room,
    number: u64,
    entry: &Entry,
) -> Result<(), AllocError>
    ensures { OnOk result (out.new.items ≡ out.old.items ++ entry_text number entry.now) }
{
    let start = put_asker(
        bytes,
        number,
        u64::from(entry.process),
        u64::from(entry.ring.number()),
    );
    out.extend_from_slice(&bytes[start..])?;
    entry.request().append_to(out)?;
    out.extend_from_slice(b" = ")?;
    entry.reply.append_to(out)?;
    out.extend_from_slice(b"\n")
}

// The entry's number, the process and the ring, a blank behind each, at the end.
fn put_asker(bytes: &mut Room, number: u64, process: u64, ring: u64) -> usize
    ensures put { drop result bytes.new
        ≡ decimal number ++ codes " " ++ decimal process ++ codes " " ++ decimal ring ++ codes " " }
    ensures within { result ≤ 3072 }
{
    let at = put_byte(bytes, ROOM, b' ');
    let at = put_decimal(bytes, at, ring);
    let at = put_byte(bytes, at, b' ');
    let at = put_decimal(bytes, at, process);
    let at = put_byte(bytes, at, b' ');
    put_decimal(bytes, at, number)
}
