//! What lines came to, told.

ghost use Rattle.std.specs.Prelude.{◌≡◌, ◌++◌, ◌==◌, [], ◌∷◌, OnOk, Some, replicate};
ghost use Rattle.std.specs.Cmp.Lexicographic.{pointwise};
ghost use Rattle.std.specs.List.{find};
ghost use Rattle.std.specs.Option.{option_map};
ghost use Rattle.mx_outcomes.specs.Tallies.{is_of};
ghost use Rattle.mx_outcomes.specs.RowTexts.{text_of, padded, step_text, order_text, times_text, row_text, rows_text, other_text, one_text, pairs_text};

use crate::decimals::add_decimal;
use crate::tallies::{Row, Texts};
use mx_list::Bytes;
use std::alloc::AllocError;

/// The length of an outcome with blanks behind it.
const WIDTH: usize = 28;

/// Adds each outcome of a line, in how many runs it came, and in which order first.
pub fn add_rows(out: &mut Vec<u8>, rows: &[Row]) -> Result<(), AllocError>
    ensures { OnOk result (out.new.items ≡ out.old.items ++ rows_text rows.now) }
{
    for row in rows {
        add_row(out, row)?;
    }
    Ok(())
}

fn add_row(out: &mut Vec<u8>, row: &Row) -> Result<(), AllocError>
    ensures { OnOk result (out.new.items ≡ out.old.items ++ row_text row.now) }
{
    out.extend_from_slice(b"    ")?;
    add_padded(out, text_of(&row.outcomes))?;
    add_times(out, row)
}

// The outcome of the first of some lines.
fn text_of(outcomes: &Texts) -> &[u8]
    ensures { result.now ≡ text_of outcomes.now }
{
    match outcomes.items().first() {
        Some(text) => text.items(),
        None => &[],
    }
}

// Adds a text and blanks.
fn add_padded(out: &mut Vec<u8>, text: &[u8]) -> Result<(), AllocError>
    ensures { OnOk result (out.new.items ≡ out.old.items ++ padded text.now) }
{
    out.extend_from_slice(text)?;
    add_blanks(out, WIDTH.saturating_sub(text.len()))
}

fn add_blanks(out: &mut Vec<u8>, count: usize) -> Result<(), AllocError>
    ensures { OnOk result (out.new.items ≡ out.old.items ++ replicate count 32) }
{
    for _ in 0..count {
        out.push(b' ')?;
    }
    Ok(())
}

// Adds how often outcomes came, and in which order first.
fn add_times(out: &mut Vec<u8>, row: &Row) -> Result<(), AllocError>
    ensures { OnOk result (out.new.items ≡ out.old.items ++ times_text (Some row.now)) }
{
    out.extend_from_slice(b" in ")?;
    add_decimal(out, u64::from(row.times))?;
    out.extend_from_slice(b", first")?;
    add_order(out, row.first.items())?;
    out.extend_from_slice(b"\n")
}

fn add_order(out: &mut Vec<u8>, order: &[u8]) -> Result<(), AllocError>
    ensures { OnOk result (out.new.items ≡ out.old.items ++ order_text order.now) }
{
    for process in order {
        add_step(out, *process)?;
    }
    Ok(())
}

fn add_step(out: &mut Vec<u8>, process: u8) -> Result<(), AllocError>
    ensures { OnOk result (out.new.items ≡ out.old.items ++ step_text process) }
{
    out.extend_from_slice(b" ")?;
    add_decimal(out, u64::from(process))
}

/// Adds of two lines, behind each outcome of the one, each outcome of the other: in how many runs they come together, and in which
/// order first, or that they never do.
pub fn add_pairs(
    out: &mut Vec<u8>,
    ones: &[Row],
    others: &[Row],
    both: &[Row],
) -> Result<(), AllocError>
    ensures { OnOk result (out.new.items ≡ out.old.items ++ pairs_text ones.now others.now both.now) }
{
    for one in ones {
        add_one(out, one, others, both)?;
    }
    Ok(())
}

// Adds an outcome of the one line, and behind it those of the other.
fn add_one(out: &mut Vec<u8>, one: &Row, others: &[Row], both: &[Row]) -> Result<(), AllocError>
    ensures { OnOk result (out.new.items ≡ out.old.items ++ one_text others.now both.now one.now) }
{
    out.extend_from_slice(b"  ")?;
    out.extend_from_slice(text_of(&one.outcomes))?;
    out.extend_from_slice(b"\n")?;
    for other in others {
        add_other(out, one, other, both)?;
    }
    Ok(())
}

fn add_other(out: &mut Vec<u8>, one: &Row, other: &Row, both: &[Row]) -> Result<(), AllocError>
    ensures { OnOk result (out.new.items ≡ out.old.items ++ other_text both.now one.now other.now) }
{
    out.extend_from_slice(b"    ")?;
    add_padded(out, text_of(&other.outcomes))?;
    match together(both, text_of(&one.outcomes), text_of(&other.outcomes)) {
        Some(row) => add_times(out, row),
        None => out.extend_from_slice(b" never\n"),
    }
}

// The row of these two outcomes.
fn together<'a>(both: &'a [Row], one: &[u8], other: &[u8]) -> Option<&'a Row>
    ensures { option_map (λ row. row.now) result ≡ find (is_of (one.now ∷ other.now ∷ [])) both.now }
{
    both.iter().find(
        |row: &&Row| -> bool
            ensures { result ≡ is_of (one.entry.now ∷ other.entry.now ∷ []) row.now.now }
        { is_of(&row.outcomes, one, other) },
    )
}

// Whether these are the two outcomes.
fn is_of(outcomes: &Texts, one: &[u8], other: &[u8]) -> bool
    ensures { result ≡ pointwise (pointwise ◌==◌) outcomes.now (one.now ∷ other.now ∷ []) }
{
    match outcomes.items() {
        [first, second] => is_text(first, one) && is_text(second, other),
        _ => false,
    }
}

fn is_text(text: &Bytes, other: &[u8]) -> bool
    ensures { result ≡ pointwise ◌==◌ text.now other.now }
{
    *text.items() == *other
}
