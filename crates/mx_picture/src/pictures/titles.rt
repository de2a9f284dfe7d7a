//! The title, and the rings.

use super::layers::Drawing;
use super::legends::LEGEND_HEIGHT;
use crate::positions::Position;
use crate::svg::{add_head, add_quarter, add_text, ink_on, ring_colour};
use mx_judging::Part::{Decimal, Text};
use std::alloc::{AllocError, Global};

/// The width of a ring.
const RING_WIDTH: u32 = 15;

/// Adds what stands behind `<svg`, how large the run is, and the rings.
pub(super) fn add_opening(
    alloc: Global,
    out: &mut String,
    drawing: &Drawing,
) -> Result<(), AllocError> {
    let layout = drawing.layout;
    let width = layout.right.saturating_add(20);
    add_head(out, width, layout.bottom.saturating_add(LEGEND_HEIGHT))?;
    add_size(alloc, out, drawing)?;
    add_rings(out, layout.journal(0))
}

// Adds how large the run is.
fn add_size(alloc: Global, out: &mut String, drawing: &Drawing) -> Result<(), AllocError> {
    let processes = drawing.layout.processes;
    let (entries, references) = (drawing.journal.items().len(), drawing.layout.placed.len());
    let title = format!(in alloc;
        "A legal run: processes {processes}, journal entries {entries}, references {references}"
    )?;
    let style = "font-size=\"16\" font-weight=\"bold\"";
    add_text(out, Position::new(12, 24), style, &[Text(&title)])
}

// Adds a quarter of the rings above this height, the inner ones darker, each with its number.
fn add_rings(out: &mut String, journal: u32) -> Result<(), AllocError> {
    let middle = Position::new(12, journal).up(30);
    add_text(out, middle.up(RING_WIDTH * 8 + 6), "", &[Text("rings")])?;
    for ring in [7u8, 6, 5, 4, 3, 2, 1, 0] {
        let outer = RING_WIDTH * (u32::from(ring) + 1);
        add_quarter(out, middle, outer, ring_colour(ring))?;
        let name = Position::new(outer, middle.y).up(4);
        add_text(out, name, ink_on(ring), &[Decimal(u32::from(ring))])?;
    }
    Ok(())
}
