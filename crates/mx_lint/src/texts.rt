//! Bytes of a text, as they are shown.

use std::fmt::{self, Display, Formatter, Write};

/// The most bytes that are shown.
const MOST: usize = 120;

/// Bytes to be shown: printable ASCII as it is, any other byte in hexadecimal, and at most so many.
#[derive(Clone, Copy)]
pub(crate) struct Shown<'a>(pub(crate) &'a [u8]);

impl<'a> Display for Shown<'a> {
    fn fmt<W: Write>(&self, f: &mut Formatter<W>) -> fmt::Result {
        for byte in self.0.iter().take(MOST) {
            write_byte(f, *byte)?;
        }
        if self.0.len() > MOST {
            f.write_str(" ..")
        } else {
            Ok(())
        }
    }
}

fn write_byte<W: Write>(f: &mut Formatter<W>, byte: u8) -> fmt::Result {
    if (b' '..=b'~').contains(&byte) {
        f.write_char(char::from(byte))
    } else {
        write!(f, "\\x{byte:02x}")
    }
}
