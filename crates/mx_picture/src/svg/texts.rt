//! Texts of a drawing, of any characters.

use crate::positions::Position;
use mx_judging::Part::{self, Decimal, Text};
use mx_judging::add_parts;
use std::alloc::AllocError;

/// Adds a text.
pub(crate) fn add_text(
    out: &mut String,
    at: Position,
    style: &str,
    text: &[Part],
) -> Result<(), AllocError> {
    add_parts(
        out,
        &[
            Text("<text x=\""),
            Decimal(at.x),
            Text("\" y=\""),
            Decimal(at.y),
            Text("\" "),
            Text(style),
            Text(">"),
        ],
    )?;
    add_words(out, text)?;
    out.push_str("</text>\n")
}

/// Adds a text that rises to the right from a place.
pub(crate) fn add_rising(
    out: &mut String,
    at: Position,
    style: &str,
    text: &[Part],
) -> Result<(), AllocError> {
    let (x, y) = (Decimal(at.x), Decimal(at.y));
    add_parts(
        out,
        &[
            Text("<text x=\""),
            x,
            Text("\" y=\""),
            y,
            Text("\" transform=\"rotate(-52 "),
            x,
            Text(" "),
            y,
            Text(")\" "),
            Text(style),
            Text(">"),
        ],
    )?;
    add_words(out, text)?;
    out.push_str("</text>\n")
}

/// Adds words of any characters.
pub(crate) fn add_words(out: &mut String, text: &[Part]) -> Result<(), AllocError> {
    for part in text {
        match part {
            Text(words) => add_escaped_words(out, words)?,
            number => add_parts(out, &[*number])?,
        }
    }
    Ok(())
}

// Adds words, with the characters that have a meaning in SVG spelled by their names.
fn add_escaped_words(out: &mut String, words: &str) -> Result<(), AllocError> {
    for c in words.chars() {
        match c {
            '<' => out.push_str("&lt;")?,
            '>' => out.push_str("&gt;")?,
            '&' => out.push_str("&amp;")?,
            other => out.push(other)?,
        }
    }
    Ok(())
}
