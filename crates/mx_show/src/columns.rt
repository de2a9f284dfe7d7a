//! Rows: a line of the session, and beside it what is told of it.

use itoa::Buffer;
use mx_name::cut;
use std::alloc::AllocError;

/// Where the spelling of a line begins, and what is told on a row of its own.
const INDENT: usize = 11;

/// Where what is told begins beside a line.
const BESIDE: usize = 44;

/// How many blanks stand between them at least.
const APART: usize = 2;

/// How long a row is at most in which something is told beside a line.
const WIDTH: usize = 140;

/// Adds the number of a line to the row that begins here.
pub(crate) fn add_number(out: &mut Vec<u8>, row: usize, number: u32) -> Result<(), AllocError> {
    let mut buffer = Buffer::new();
    out.extend_from_slice(b"  line ")?;
    out.extend_from_slice(buffer.format(number).as_bytes())?;
    add_blanks(out, row, INDENT)
}

/// Adds what is told to the row that begins here: its first line beside what stands there, where there is room, and each further one
/// on a row of its own.
pub(crate) fn add_told(out: &mut Vec<u8>, row: usize, told: &[u8]) -> Result<(), AllocError> {
    match cut(b'\n', told) {
        Some((line, further)) => {
            add_beside(out, row, line)?;
            add_below(out, further)
        }
        None => out.extend_from_slice(b"\n"),
    }
}

fn add_beside(out: &mut Vec<u8>, row: usize, line: &[u8]) -> Result<(), AllocError> {
    let column = width(out, row).saturating_add(APART).max(BESIDE);
    if column.saturating_add(line.len()) > WIDTH {
        out.extend_from_slice(b"\n")?;
        return add_row(out, line);
    }
    add_blanks(out, row, column)?;
    out.extend_from_slice(line)?;
    out.extend_from_slice(b"\n")
}

/// Adds each line of what is told on a row of its own.
pub(crate) fn add_below(out: &mut Vec<u8>, told: &[u8]) -> Result<(), AllocError> {
    let mut rest = told;
    while let Some((line, further)) = cut(b'\n', rest) {
        add_row(out, line)?;
        rest = further;
    }
    Ok(())
}

fn add_row(out: &mut Vec<u8>, line: &[u8]) -> Result<(), AllocError> {
    let row = out.len();
    add_blanks(out, row, INDENT)?;
    out.extend_from_slice(line)?;
    out.extend_from_slice(b"\n")
}

// How long the row is that begins here.
fn width(out: &Vec<u8>, row: usize) -> usize {
    out.len().saturating_sub(row)
}

// Fills the row that begins here up to a column, with one blank at least.
fn add_blanks(out: &mut Vec<u8>, row: usize, column: usize) -> Result<(), AllocError> {
    let missing = column.saturating_sub(width(out, row)).max(1);
    for _ in 0..missing {
        out.push(b' ')?;
    }
    Ok(())
}
