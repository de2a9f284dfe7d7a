//! The arrows: from reads to stores, and from messages to the entries that took them.

use crate::layout::{BOX_HEIGHT, BOX_WIDTH, Layout, Placed};
use crate::positions::Position;
use crate::svg::{Arrow, Way, add_arrow};
use std::alloc::AllocError;

/// Longer arrows are no deeper.
const MOST_LENGTH: u32 = 10_000;

/// Adds an arrow from the reference at this place to the store that it stands for, where it is a read.
pub(super) fn add_store(out: &mut String, layout: &Layout, place: usize) -> Result<(), AllocError> {
    match layout.store_of(place) {
        Some((read, store)) => {
            let arrow = if read.row == store.row {
                Arrow::Store
            } else {
                Arrow::StoreFar
            };
            add_arrow(out, arrow, &way_to(layout, read, store))
        }
        None => Ok(()),
    }
}

// The way of an arrow from a read to a store: below the lane where that is one, and else from lane to lane.
fn way_to(layout: &Layout, read: &Placed, store: &Placed) -> Way {
    let (from, to) = (
        layout.corner(read).right(BOX_WIDTH / 2),
        layout.corner(store).right(BOX_WIDTH / 2),
    );
    let (below_read, below_store) = (from.down(BOX_HEIGHT), to.down(BOX_HEIGHT));
    if from.y == to.y {
        let deep = depth(from.x, to.x);
        let (from, to) = (below_read.left(12), below_store.right(12));
        Way {
            from,
            by: from.down(deep),
            past: to.down(deep),
            to,
        }
    } else if from.y > to.y {
        Way {
            from,
            by: from.up(50),
            past: below_store.down(50),
            to: below_store,
        }
    } else {
        Way {
            from: below_read,
            by: below_read.down(50),
            past: to.up(50),
            to,
        }
    }
}

// How deep an arrow within a lane hangs: the longer, the deeper, so that one lies within another; at most 60.
fn depth(from: u32, to: u32) -> u32 {
    let length = from.abs_diff(to).min(MOST_LENGTH);
    16 + 38 * length / (length + 500)
}

/// Adds an arrow from the entry that sent the message at this place to the one that took it.
pub(super) fn add_message(
    out: &mut String,
    layout: &Layout,
    place: usize,
) -> Result<(), AllocError> {
    let Some(message) = layout.messages.get(place) else {
        return Ok(());
    };
    match (layout.entry(message.sent), layout.entry(message.taken)) {
        (Some(sent), Some(taken)) => add_stroke(out, sent, taken),
        _ => Ok(()),
    }
}

// Adds an arrow from one entry to another: below the line of the journal where that is one, and else from above.
fn add_stroke(out: &mut String, sent: Position, taken: Position) -> Result<(), AllocError> {
    let from = sent.down(14).right(4);
    if sent.y == taken.y {
        let to = taken.down(14).left(4);
        let deep = depth(from.x, to.x);
        let way = Way {
            from,
            by: from.down(deep),
            past: to.down(deep),
            to,
        };
        return add_arrow(out, Arrow::Message, &way);
    }
    let to = taken.left(14);
    let way = Way {
        from,
        by: from.down(60),
        past: to.left(60),
        to,
    };
    add_arrow(out, Arrow::MessageFar, &way)
}
