//! The journal: a line in each row, and the entries on it.

use super::layers::Drawing;
use crate::labels::{label, whole_label};
use crate::layout::{Column, LEFT, Layout, fold_words};
use crate::positions::Position;
use crate::svg::{
    add_disc, add_line, add_rising, add_text, add_words, ink_of, ink_on, ring_colour,
};
use mx_judging::Part::{Decimal, Text};
use mx_judging::add_parts;
use mx_request::Reply;
use mx_state::Entry;
use mx_transcript::entry_at;
use std::alloc::{AllocError, Global};

/// The most entries that are folded into one whose requests are told.
const MOST_TOLD: usize = 30;

/// Adds the line of the journal of a row, and where the row begins with references, the entry that they hang behind.
pub(super) fn add_journal(
    out: &mut String,
    layout: &Layout,
    place: usize,
) -> Result<(), AllocError> {
    let Some(row) = layout.rows.get(place) else {
        return Ok(());
    };
    let from = Position::new(LEFT, row.journal);
    let to = Position::new(layout.right, row.journal);
    add_line(out, from, to, "stroke=\"#555555\" stroke-width=\"2\"")?;
    let name = Position::new(12, row.journal);
    add_text(
        out,
        name.down(5),
        "font-weight=\"bold\"",
        &[Text("journal")],
    )?;
    if place == 0 {
        return Ok(());
    }
    let behind = [Text("after entry "), Decimal(row.behind)];
    add_text(out, name.down(20), "font-size=\"11\"", &behind)
}

/// Adds the column at this place: an entry, or several that are folded.
pub(super) fn add_column(
    alloc: Global,
    out: &mut String,
    drawing: &Drawing,
    place: usize,
) -> Result<(), AllocError> {
    let Some(column) = drawing.layout.columns.get(place) else {
        return Ok(());
    };
    add_parts(
        out,
        &[
            Text("<g class=\"entry\" id=\"e"),
            Decimal(column.first),
            Text("\">\n"),
        ],
    )?;
    if column.first < column.last {
        add_folded(alloc, out, drawing, column)?;
    } else if let Some(entry) = entry_at(drawing.journal, column.first) {
        add_entry(alloc, out, drawing.layout, entry, column)?;
    }
    out.push_str("</g>\n")
}

// Adds entries on which nothing hangs.
fn add_folded(
    alloc: Global,
    out: &mut String,
    drawing: &Drawing,
    column: &Column,
) -> Result<(), AllocError> {
    let (first, last) = (column.first, column.last);
    let Some(entries) = drawing
        .journal
        .items()
        .get((first as usize).saturating_sub(1)..last as usize)
    else {
        return Ok(());
    };
    let at = drawing.layout.mark(column);
    add_requests(alloc, out, first, entries)?;
    add_disc(out, at, 14, "fill=\"#ffffff\" stroke=\"#555555\"")?;
    add_text(out, at.down(3), "text-anchor=\"middle\"", &[Text("...")])?;
    let style = format!(in alloc; "font-size=\"12\" {}", ink_of(false))?;
    add_rising(out, at.up(20), &style, &fold_words(first, last))
}

// Adds the requests of entries, the first of which has this number, as the title of their mark.
fn add_requests(
    alloc: Global,
    out: &mut String,
    first: u32,
    entries: &[Entry],
) -> Result<(), AllocError> {
    out.push_str("<title>")?;
    let mut number = first;
    for entry in entries.iter().take(MOST_TOLD) {
        let label = whole_label(alloc, entry)?;
        let words = [Decimal(number), Text(" "), Text(&label), Text("\n")];
        add_words(out, &words)?;
        number = number.saturating_add(1);
    }
    if entries.len() > MOST_TOLD {
        out.push_str("..")?;
    }
    out.push_str("</title>\n")
}

// Adds an entry: its number in the colour of its ring, its request, and a line to the lane of its process.
fn add_entry(
    alloc: Global,
    out: &mut String,
    layout: &Layout,
    entry: &Entry,
    column: &Column,
) -> Result<(), AllocError> {
    let at = layout.mark(column);
    let whole = whole_label(alloc, entry)?;
    out.push_str("<title>")?;
    add_words(out, &[Text(&whole)])?;
    out.push_str("</title>\n")?;
    add_call(out, layout, entry.process, column)?;
    add_disc(out, at, 14, ring_colour(entry.ring.number()))?;
    add_number(alloc, out, entry.ring.number(), column.first, at)?;
    let is_refused = matches!(entry.reply, Reply::Refused(_));
    let label = label(alloc, entry)?;
    let style = format!(in alloc; "font-size=\"12\" {}", ink_of(is_refused))?;
    add_rising(out, at.up(20), &style, &[Text(&label)])
}

// Adds the line from an entry to the lane of the process that made it.
fn add_call(
    out: &mut String,
    layout: &Layout,
    process: u8,
    column: &Column,
) -> Result<(), AllocError> {
    if process < 1 {
        return Ok(());
    }
    let at = layout.mark(column);
    let to = Position::new(at.x, layout.lane(column.row, process).top);
    add_line(out, at, to, "stroke=\"#555555\"")?;
    add_disc(out, to, 4, "fill=\"#555555\"")
}

// The number of an entry, in the middle of its disc, whose colour is that of a ring.
fn add_number(
    alloc: Global,
    out: &mut String,
    inside: u8,
    number: u32,
    at: Position,
) -> Result<(), AllocError> {
    let size = size_of(number);
    let ink = ink_on(inside);
    let style = format!(in alloc; "text-anchor=\"middle\" font-size=\"{size}\" {ink}")?;
    add_text(
        out,
        at.down(size.saturating_sub(5) / 2 + 1),
        &style,
        &[Decimal(number)],
    )
}

// The size of a number that is to stand in a disc.
fn size_of(number: u32) -> u32 {
    match number {
        0..=99 => 13,
        100..=999 => 12,
        1_000..=9_999 => 10,
        10_000..=99_999 => 8,
        _ => 7,
    }
}
