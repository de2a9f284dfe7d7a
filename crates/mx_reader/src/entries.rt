//! The reader of journal entries.

ghost use Rattle.std.specs.Prelude.{◌≡◌, ◌≤◌, IfOk, IfSome, MatchOption, None, Some};
ghost use Rattle.std.specs.Option.{option_map};
ghost use Rattle.mx_reader.specs.Lines.{IsEntry};
ghost use Rattle.mx_reader.specs.ReadingEntries.{before_blank, call_then, caller_then, entry_at};
ghost use Rattle.mx_request.specs.Reading.{request_at};
ghost use Rattle.mx_state.specs.declared.journal.Entry.{Entry as EntryValue};

use crate::cutting::after;
use crate::fields::{read_entry_number, read_process, read_ring_number};
use crate::replies::read_any;
use mx_name::cut;
use mx_request::{Request, SharedRequest};
use mx_sdw::Ring;
use mx_state::Entry;
use std::alloc::{AllocError, Global};

/// The entry of this number that has this line, without its newline; `None` exactly where none has it that a run text can
/// say.
pub fn read_entry(alloc: Global, number: u32, line: &[u8]) -> Result<Option<Entry>, AllocError>
    requires { number ≤ 262143 }
    ensures found { IfOk result (λ told. IfSome told (λ entry. IsEntry number line.now entry)) }
    ensures only { (entry : EntryValue) → IsEntry number line.now entry → IfOk result (λ told. told ≡ Some entry) }
{
    read_fields(alloc, number, line)
}

// `NUMBER PROCESS RING REQUEST = REPLY`
#[tactic(auto, unfolding(crate::specs::ReadingEntries::entry_at))]
pub(crate) fn read_fields(
    alloc: Global,
    number: u32,
    line: &[u8],
) -> Result<Option<Entry>, AllocError>
    ensures { IfOk result (λ told. told ≡ entry_at number line.now) }
{
    let Some(((process, ring), call)) = cut_caller(number, line) else {
        return Ok(None);
    };
    let Some((request, reply)) = cut_call(call) else {
        return Ok(None);
    };
    let Some(request) = read_request(alloc, request)? else {
        return Ok(None);
    };
    let Some(reply) = read_any(alloc, reply)? else {
        return Ok(None);
    };
    Ok(Some(Entry {
        process,
        ring,
        request: SharedRequest::new(alloc, request)?,
        reply,
    }))
}

// `NUMBER PROCESS RING ..`: the process, its ring, and what stands behind the blank.
fn cut_caller(number: u32, text: &[u8]) -> Option<((u8, Ring), &[u8])>
    ensures { option_map (λ c. (c.0, c.1.now)) result ≡ caller_then number text.now }
{
    let (k, rest) = cut(b' ', text)?;
    if read_entry_number(k)? != number {
        return None;
    }
    let (process, rest) = cut(b' ', rest)?;
    let process = read_process(process)?;
    let (ring, rest) = cut(b' ', rest)?;
    let ring = read_ring_number(ring)?;
    Some(((process, ring), rest))
}

// `REQUEST = REPLY`: no request has a `=` within.
fn cut_call(text: &[u8]) -> Option<(&[u8], &[u8])>
    ensures { option_map (λ p. (p.0.now, p.1.now)) result ≡ call_then text.now }
{
    let (request, reply) = cut(b'=', text)?;
    let request = before_blank(request)?;
    let reply = after(b" ", reply)?;
    Some((request, reply))
}

// What stands before a last blank.
fn before_blank(text: &[u8]) -> Option<&[u8]>
    ensures { MatchOption result (before_blank text.now ≡ None) (λ front. before_blank text.now ≡ Some front.now) }
{
    text.strip_suffix(b" ")
}

fn read_request(alloc: Global, text: &[u8]) -> Result<Option<Request>, AllocError>
    ensures { IfOk result (λ told. told ≡ request_at text.now) }
{
    Request::read(alloc, text)
}
