//! Sentences in parts: words and numbers, one behind another.

use mx_sdw::Ring;
use std::alloc::AllocError;
use std::fmt::{self, Display, Formatter, Write};

/// A part of a sentence.
#[derive(Clone, Copy)]
pub enum Part<'a> {
    /// Words.
    Text(&'a str),
    /// A number in decimal.
    Decimal(u32),
    /// A number in octal.
    Octal(u64),
    /// A word of a segment number, `S|W` in octal.
    Place(u16, u16),
}

use Part::{Decimal, Octal, Place, Text};

/// A part that says nothing, where another sentence of the kind has one.
pub const NOTHING: Part<'static> = Text("");

impl<'a> Display for Part<'a> {
    fn fmt<W: Write>(&self, f: &mut Formatter<W>) -> fmt::Result {
        match self {
            Text(words) => f.write_str(words),
            Decimal(number) => write!(f, "{number}"),
            Octal(number) => write!(f, "{number:o}"),
            Place(segno, word) => write!(f, "{segno:o}|{word:o}"),
        }
    }
}

/// The number of a ring.
pub fn ring(ring: Ring) -> Part<'static> {
    Decimal(u32::from(ring.number()))
}

/// Adds parts one behind another.
pub fn add_parts(out: &mut String, parts: &[Part]) -> Result<(), AllocError> {
    for part in parts {
        write!(out, "{part}")?;
    }
    Ok(())
}

/// Adds sentences one behind another.
pub fn add_sentences(out: &mut String, sentences: &[&[Part]]) -> Result<(), AllocError> {
    for parts in sentences {
        add_parts(out, parts)?;
    }
    Ok(())
}

/// Adds bytes, printable ASCII as it is and a point for any other.
pub fn add_printable(out: &mut String, bytes: &[u8]) -> Result<(), AllocError> {
    for byte in bytes {
        let shown = match byte {
            b' '..=b'~' => *byte,
            _ => b'.',
        };
        out.push(char::from(shown))?;
    }
    Ok(())
}
