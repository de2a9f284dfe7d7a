//! The lanes of the processes, in the colours of their rings.

use super::layers::Drawing;
use crate::labels::cut;
use crate::layout::{Band, Lane, Layout, Life};
use crate::positions::Position;
use crate::svg::{add_rect, add_text, add_words, ink_on, ring_colour};
use mx_judging::Part::{Decimal, Text};
use mx_judging::add_printable;
use mx_name::Principal;
use std::alloc::{AllocError, Global};

/// As many characters of a principal stand before a lane.
const MOST_NAME: usize = 18;

/// A band narrower than this has no name.
const LEAST_NAMED: u32 = 54;

/// Adds the number of the process whose lane stands at this place, and its principal where there is room.
pub(super) fn add_name(
    alloc: Global,
    out: &mut String,
    drawing: &Drawing,
    place: usize,
) -> Result<(), AllocError> {
    let Some(lane) = drawing.layout.lanes.get(place) else {
        return Ok(());
    };
    let Some(before) = place.checked_rem(usize::from(drawing.layout.processes)) else {
        return Ok(());
    };
    let process = before.min(15) as u32 + 1;
    let name = [Text("process "), Decimal(process)];
    let at = Position::new(12, lane.top);
    if !lane.has_boxes {
        return add_text(out, at.down(15), "font-size=\"12\"", &name);
    }
    let middle = at.down(lane.height() / 2);
    add_text(out, middle, "font-weight=\"bold\"", &name)?;
    match drawing.session.principals().items().get(before) {
        Some(entrant) => add_principal(alloc, out, middle.down(18), &entrant.who),
        None => Ok(()),
    }
}

// Adds a principal, cut where it is long, and whole where it is asked for.
fn add_principal(
    alloc: Global,
    out: &mut String,
    at: Position,
    principal: &Principal,
) -> Result<(), AllocError> {
    let whole = principal_text(alloc, principal)?;
    let front = if whole.len() > MOST_NAME + 2 {
        cut(alloc, &whole, MOST_NAME)?
    } else {
        cut(alloc, &whole, MOST_NAME + 2)?
    };
    out.push_str("<g><title>")?;
    add_words(out, &[Text(&whole)])?;
    out.push_str("</title>\n")?;
    add_text(out, at, "font-size=\"11\"", &[Text(&front)])?;
    out.push_str("</g>\n")
}

// A principal, as it is written.
fn principal_text(alloc: Global, principal: &Principal) -> Result<String, AllocError> {
    let mut bytes = Vec::new(alloc);
    principal.append_to(&mut bytes)?;
    let mut text = String::new(alloc);
    add_printable(&mut text, &bytes)?;
    Ok(text)
}

/// Adds the band at this place: pale where the process is not there, and hatched where it waits.
pub(super) fn add_band(out: &mut String, layout: &Layout, place: usize) -> Result<(), AllocError> {
    let Some(band) = layout.bands.get(place) else {
        return Ok(());
    };
    let lane = layout.lane(band.row, band.process);
    let corner = Position::new(band.from, lane.top);
    let width = corner.width_to(band.to);
    match band.life {
        Life::Absent => add_rect(out, corner, width, lane.height(), ABSENT),
        Life::Running => add_rect(out, corner, width, lane.height(), ring_colour(band.ring)),
        Life::Waiting => {
            add_rect(out, corner, width, lane.height(), ring_colour(band.ring))?;
            add_rect(out, corner, width, lane.height(), WAITING)
        }
    }?;
    add_band_name(out, band, lane, corner)
}

/// How a lane looks where its process is not there, and upon the colour of the ring where it waits.
pub(super) const ABSENT: &str = "fill=\"#eceff1\" fill-opacity=\"0.6\"";

pub(super) const WAITING: &str = "fill=\"url(#hatch)\"";

// Adds the ring of a band, and that the process waits there, where there is room.
fn add_band_name(
    out: &mut String,
    band: &Band,
    lane: Lane,
    corner: Position,
) -> Result<(), AllocError> {
    let words = match band.life {
        Life::Absent => return Ok(()),
        Life::Running => "",
        Life::Waiting => " waits",
    };
    let needed = LEAST_NAMED + words.len().min(6) as u32 * 8;
    if corner.width_to(band.to) < needed {
        return Ok(());
    }
    let name = [Text("ring "), Decimal(u32::from(band.ring)), Text(words)];
    let at = corner.right(5).down(lane.height()).up(5);
    add_text(out, at, ink_on(band.ring), &name)
}
