//! The lines of a file of requests.

ghost use Rattle.std.specs.Prelude.{◌≤◌};

use mx_name::cut;
use mx_request::read_decimal;
use mx_sdw::{Ring, read_octal_number};

/// What a line of a file says.
#[derive(Clone, Copy)]
pub enum Line<'a> {
    /// A comment, or nothing.
    Nothing,
    /// `version V`: the plays from here on are of this version.
    Version(u8),
    /// `processes PRINCIPAL[=CLASS] ..`: a play begins with these processes.
    Processes(&'a [u8]),
    /// `PROCESS RING REQUEST`: a process asks this in a ring.
    Asked(Asked<'a>),
    /// `= REPLY`: what the request above must be answered.
    Told(&'a [u8]),
    /// `changed P|SEGNO ..` or `changed none`: whose descriptors it must change.
    Changed(&'a [u8]),
    /// `ready P`: whether this process would be told to go on, if it asked for a message.
    Ready(u8),
    /// `descriptor P|SEGNO`: what a process's segment number stands for.
    Descriptor(u8, u16),
    /// No line of a play.
    Unknown,
}

/// Who asks, and what, as it is spelled.
#[derive(Clone, Copy)]
pub struct Asked<'a> {
    pub process: u8,
    pub ring: Ring,
    pub request: &'a [u8],
}

/// What a line says.
pub fn read_line(line: &[u8]) -> Line<'_> {
    if line.is_empty() || line.starts_with(b"#") {
        return Line::Nothing;
    }
    match cut(b' ', line) {
        Some((word, rest)) => read_fields(word, rest),
        None => Line::Unknown,
    }
}

fn read_fields<'a>(word: &[u8], rest: &'a [u8]) -> Line<'a> {
    if word == b"version".as_slice() {
        match read_version(rest) {
            Some(version) => Line::Version(version),
            None => Line::Unknown,
        }
    } else if word == b"processes".as_slice() {
        Line::Processes(rest)
    } else if word == b"=".as_slice() {
        Line::Told(rest)
    } else if word == b"changed".as_slice() {
        Line::Changed(rest)
    } else if word == b"ready".as_slice() {
        match read_small(rest, 2) {
            Some(process) => Line::Ready(process),
            None => Line::Unknown,
        }
    } else if word == b"descriptor".as_slice() {
        match read_number(rest) {
            Some((process, segno)) => Line::Descriptor(process, segno),
            None => Line::Unknown,
        }
    } else {
        match read_asked(word, rest) {
            Some(asked) => Line::Asked(asked),
            None => Line::Unknown,
        }
    }
}

// A version from 1 to 4.
fn read_version(text: &[u8]) -> Option<u8> {
    match read_small(text, 1) {
        Some(version) if 1 <= version && version <= 4 => Some(version),
        _ => None,
    }
}

// A process and a segment number of it.
fn read_number(text: &[u8]) -> Option<(u8, u16)> {
    let (process, segno) = cut(b'|', text)?;
    let process = read_small(process, 2)?;
    let segno = u16::try_from(read_octal_number(segno, 4)?).ok()?;
    Some((process, segno))
}

fn read_asked<'a>(word: &[u8], rest: &'a [u8]) -> Option<Asked<'a>> {
    let (ring, request) = cut(b' ', rest)?;
    let process = read_small(word, 2)?;
    let ring = Ring::new(read_small(ring, 1)?)?;
    Some(Asked {
        process,
        ring,
        request,
    })
}

// A decimal number of at most so many digits.
fn read_small(text: &[u8], digits: usize) -> Option<u8>
    requires { digits ≤ 9 }
{
    u8::try_from(read_decimal(text, digits)?).ok()
}
