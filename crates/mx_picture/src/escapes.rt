//! Texts of any characters within a page.

ghost use Rattle.std.specs.Prelude.{◌≡◌, ◌++◌, true, OnOk};
ghost use Rattle.std.specs.List.{flat_map, list_all};
ghost use Rattle.mx_picture.specs.Escapes.{entity, escaped, quoted, quoted_byte, is_no_mark, begins_no_tag};

use std::alloc::AllocError;

/// Adds a text as HTML: the characters that have a meaning there are spelled by their names.
#[tactic(auto, using(crate::proofs::EscapeLaws::escaped_plain))]
pub fn add_escaped(out: &mut Vec<u8>, text: &[u8]) -> Result<(), AllocError>
    ensures added { OnOk result (out.new.items ≡ out.old.items ++ escaped text.now) }
    ensures plain { list_all is_no_mark (escaped text.now) ≡ true }
{
    for byte in text {
        add_entity(out, *byte)?;
    }
    Ok(())
}

// Adds a byte as HTML.
fn add_entity(out: &mut Vec<u8>, byte: u8) -> Result<(), AllocError>
    ensures { OnOk result (out.new.items ≡ out.old.items ++ entity byte) }
{
    match byte {
        b'<' => out.extend_from_slice(b"&lt;"),
        b'>' => out.extend_from_slice(b"&gt;"),
        b'&' => out.extend_from_slice(b"&amp;"),
        other => out.extend_from_slice(&[other]),
    }
}

/// Adds a text as a string of JSON, which may stand in a script: printable ASCII as it is, but for the quote, the backslash
/// and the character that begins a tag; and a point for any other byte.
#[tactic(auto, using(crate::proofs::EscapeLaws::quoted_plain))]
pub fn add_quoted(out: &mut Vec<u8>, text: &[u8]) -> Result<(), AllocError>
    ensures added { OnOk result (out.new.items ≡ out.old.items ++ quoted text.now) }
    ensures plain { list_all begins_no_tag (quoted text.now) ≡ true }
{
    out.extend_from_slice(b"\"")?;
    add_quoted_bytes(out, text)?;
    out.extend_from_slice(b"\"")
}

fn add_quoted_bytes(out: &mut Vec<u8>, text: &[u8]) -> Result<(), AllocError>
    ensures { OnOk result (out.new.items ≡ out.old.items ++ flat_map quoted_byte text.now) }
{
    for byte in text {
        add_quoted_byte(out, *byte)?;
    }
    Ok(())
}

fn add_quoted_byte(out: &mut Vec<u8>, byte: u8) -> Result<(), AllocError>
    ensures { OnOk result (out.new.items ≡ out.old.items ++ quoted_byte byte) }
{
    match byte {
        b'"' => out.extend_from_slice(b"\\\""),
        b'\\' => out.extend_from_slice(b"\\\\"),
        b'<' => out.extend_from_slice(b"\\u003c"),
        b' '..=b'~' => out.extend_from_slice(&[byte]),
        _ => out.extend_from_slice(b"."),
    }
}
