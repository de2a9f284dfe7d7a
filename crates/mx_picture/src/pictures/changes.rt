//! The changes of access: a line from the entry to the lane of the process whose it is, and what it was and is.

use crate::labels::{change_words, text_of};
use crate::layout::{Layout, TAG_HEIGHT, Tag, tag_width};
use crate::positions::Position;
use crate::svg::{add_line, add_rect, add_text};
use mx_judging::Changed;
use mx_judging::Part::Text;
use mx_sdw::{Desc, DescKind};
use std::alloc::{AllocError, Global};

/// The line of an entry that took access away.
pub(super) const LOSS_LINE: &str = "stroke=\"#c62828\" stroke-width=\"2\" stroke-dasharray=\"5 4\"";

/// The line of an entry that gave access.
pub(super) const GAIN_LINE: &str = "stroke=\"#2e7d32\" stroke-width=\"2\" stroke-dasharray=\"5 4\"";

/// Adds the broken line of the change at this place, from the journal down through the lane.
pub(super) fn add_change_line(
    out: &mut String,
    layout: &Layout,
    place: usize,
) -> Result<(), AllocError> {
    let Some(tag) = layout.tags.get(place) else {
        return Ok(());
    };
    let lane = layout.lane(tag.row, tag.changed.process);
    let from = Position::new(tag.x, layout.journal(tag.row)).down(14);
    let to = Position::new(tag.x, lane.top).down(lane.height()).up(18);
    let style = if is_loss(&tag.changed) {
        LOSS_LINE
    } else {
        GAIN_LINE
    };
    add_line(out, from, to, "stroke=\"#ffffff\" stroke-width=\"4\"")?;
    add_line(out, from, to, style)
}

/// Adds what the access was and is of the change at this place.
pub(super) fn add_tag(
    alloc: Global,
    out: &mut String,
    layout: &Layout,
    place: usize,
) -> Result<(), AllocError> {
    match layout.tags.get(place) {
        Some(tag) => add_tag_words(alloc, out, layout, tag),
        None => Ok(()),
    }
}

fn add_tag_words(
    alloc: Global,
    out: &mut String,
    layout: &Layout,
    tag: &Tag,
) -> Result<(), AllocError> {
    let style = if is_loss(&tag.changed) {
        "fill=\"#b71c1c\""
    } else {
        "fill=\"#1b5e20\""
    };
    let text = text_of(alloc, &change_words(&tag.changed))?;
    let lane = layout.lane(tag.row, tag.changed.process);
    let corner = Position::new(tag.x, lane.top).down(4 + u32::from(tag.level) * TAG_HEIGHT);
    let width = tag_width(alloc, &tag.changed)?;
    let ground = "rx=\"3\" fill=\"#ffffff\"";
    add_rect(out, corner, width, TAG_HEIGHT - 1, ground)?;
    add_text(out, corner.right(3).down(12), style, &[Text(&text)])
}

// Whether something was taken away: a flag, a ring of a bracket, or the segment.
fn is_loss(changed: &Changed) -> bool {
    let (before, after) = (&changed.before, &changed.after);
    after.kind() != DescKind::Segment
        || (before.r() && !after.r())
        || (before.e() && !after.e())
        || (before.w() && !after.w())
        || (before.kind() == DescKind::Segment && is_narrower(before, after))
}

// Whether a bracket leaves out a ring that it had. The bracket of execution begins with R1.
fn is_narrower(before: &Desc, after: &Desc) -> bool {
    let (old, new) = (before.brackets(), after.brackets());
    new.r1().number() < old.r1().number()
        || new.r2().number() < old.r2().number()
        || new.r3().number() < old.r3().number()
        || (after.e() && new.r1().number() > old.r1().number())
}
