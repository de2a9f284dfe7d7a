//! A text without its titles.

ghost use Rattle.std.specs.Prelude.{◌≡◌, ◌++◌, ◌∷◌, [], IfOk, OnOk};
ghost use Rattle.mx_explain.specs.PlainTexts.{untitled, plain_text};

use mx_name::cut;
use std::alloc::{AllocError, Global};

/// The text without the lines that begin with `#`. All else stays as it is, with its newlines. The only error is want of memory.
pub fn plain_text(alloc: Global, text: &[u8]) -> Result<Vec<u8>, AllocError>
    ensures { IfOk result (λ plain. plain.items ≡ plain_text text.now) }
{
    let mut plain = Vec::new(alloc);
    let mut rest = text;
    while let Some((_, after)) = cut(b'\n', rest) {
        add_line(&mut plain, &rest[..rest.len() - after.len()])?;
        rest = after;
    }
    add_line(&mut plain, rest)?;
    Ok(plain)
}

// Adds a line, but no title.
fn add_line(plain: &mut Vec<u8>, line: &[u8]) -> Result<(), AllocError>
    ensures { OnOk result (plain.new.items ≡ plain.old.items ++ untitled (line.now ∷ [])) }
{
    match line {
        [b'#', ..] => Ok(()),
        _ => plain.extend_from_slice(line),
    }
}
