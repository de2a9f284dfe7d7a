//! The entries of a journal, as a run text tells them.

use mx_name::cut;
use mx_request::read_decimal;
use mx_sdw::Ring;

/// An entry as it is told: who asks in which ring, the request as it is spelled, and the reply.
#[derive(Clone, Copy)]
pub(crate) struct Told<'a> {
    pub(crate) process: u8,
    pub(crate) ring: Ring,
    pub(crate) request: &'a [u8],
    pub(crate) reply: &'a [u8],
}

/// The lines of the entries of the journal with which the lines of a run text begin; none where they begin otherwise, or are
/// too few.
pub(crate) fn entry_lines<'a, 'b>(lines: &'b [&'a [u8]]) -> Option<&'b [&'a [u8]]> {
    let count = count_in(lines.get(0)?)? as usize;
    lines.get(1..count.saturating_add(1))
}

// How many entries a journal has, by its first line.
fn count_in(line: &[u8]) -> Option<u32> {
    let (word, count) = cut(b' ', line)?;
    if word == b"journal".as_slice() {
        read_decimal(count, 6)
    } else {
        None
    }
}

/// The entry on a line: `NUMBER PROCESS RING REQUEST = REPLY`.
pub(crate) fn entry_in(line: &[u8]) -> Option<Told<'_>> {
    let (_number, rest) = cut(b' ', line)?;
    let (process, rest) = cut(b' ', rest)?;
    let (ring, rest) = cut(b' ', rest)?;
    let (request, reply) = cut_at_reply(rest)?;
    Some(Told {
        process: small(process)?,
        ring: Ring::new(small(ring)?)?,
        request,
        reply,
    })
}

// A request and its reply, with ` = ` between them.
fn cut_at_reply(text: &[u8]) -> Option<(&[u8], &[u8])> {
    let place = text.windows(3).position(|part| part == b" = ".as_slice())?;
    let request = text.get(..place)?;
    let reply = text.get(place.saturating_add(3)..)?;
    Some((request, reply))
}

// A decimal number of one or two digits.
fn small(text: &[u8]) -> Option<u8> {
    u8::try_from(read_decimal(text, 2)?).ok()
}
