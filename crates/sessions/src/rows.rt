//! Stored files: those of one name, and those that lie in one archive.

use std::alloc::{AllocError, Global};
use std::str;

/// The kinds of stored files.
pub const KINDS: [&str; 15] = [
    "session", "drill", "run", "status", "shared", "order", "printed", "check", "lint", "lines",
    "story", "svg", "html", "outcomes", "about",
];

/// A stored file: the row that it is of, its kind, and its text.
#[derive(Clone, Copy)]
pub struct Part<'a> {
    pub row: &'a str,
    pub kind: &'a str,
    pub text: &'a [u8],
}

/// The files that lie in an archive, in order.
pub fn parts_of(alloc: Global, archive: &[u8]) -> Result<Vec<Part<'_>>, AllocError> {
    let mut parts = Vec::new(alloc);
    let mut begun = None;
    let mut place = 0_usize;
    for line in archive.split(|byte| *byte == b'\n') {
        let after = place.saturating_add(line.len()).saturating_add(1);
        if let Some((row, kind)) = heading(line) {
            end_section(&mut parts, archive, begun, place)?;
            begun = Some((row, kind, after));
        }
        place = after;
    }
    end_section(&mut parts, archive, begun, archive.len())?;
    Ok(parts)
}

// The row and the kind in a line `-- ROW.KIND --`; none where it is another line.
fn heading(line: &[u8]) -> Option<(&str, &str)> {
    let file = str::from_utf8(line).ok()?.strip_prefix("-- ")?;
    file.strip_suffix(" --")?.rsplit_once('.')
}

// Adds the section that was begun, if any, and ends at this place.
fn end_section<'a>(
    parts: &mut Vec<Part<'a>>,
    archive: &'a [u8],
    begun: Option<(&'a str, &'a str, usize)>,
    end: usize,
) -> Result<(), AllocError> {
    if let Some((row, kind, begin)) = begun {
        let text = archive.get(begin..end).unwrap_or_default();
        parts.push(Part { row, kind, text })?;
    }
    Ok(())
}

/// The text of the first part of this kind.
pub fn text_of<'a>(parts: &[Part<'a>], kind: &str) -> Option<&'a [u8]> {
    let part = parts.iter().find(|part| part.kind == kind)?;
    Some(part.text)
}

/// The session or the drill among these parts.
pub fn source_in<'a>(parts: &[Part<'a>]) -> Option<Part<'a>> {
    let source = parts
        .iter()
        .find(|part| part.kind == "session" || part.kind == "drill");
    source.copied()
}

/// Whether a part is of no kind.
pub fn is_strange(parts: &[Part<'_>]) -> bool {
    parts
        .iter()
        .any(|part| !KINDS.iter().any(|kind| *kind == part.kind))
}
