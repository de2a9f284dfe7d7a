//! The legend.

use super::boxes::frame;
use super::changes::{GAIN_LINE, LOSS_LINE};
use super::lanes::{ABSENT, WAITING};
use crate::layout::Layout;
use crate::positions::Position;
use crate::svg::{Arrow, Way, add_arrow, add_line, add_rect, add_text, ring_colour};
use mx_judging::FIRST_RING;
use mx_judging::Part::Text;
use std::alloc::AllocError;

/// The height of what stands below the lanes.
pub(super) const LEGEND_HEIGHT: u32 = 154;

const NOTES: [&str; 5] = [
    "A reference hangs behind the entry that is its point: it was judged on the access there. L: its line in the session.",
    "rN beside it: the ring in which it was judged, where that is not the ring of its process.",
    "from P at K: it reads the word that process P stored at point K. Segments, words and values are octal.",
    "10 rw 1,4,4 at an entry: from there on segment 10 has the modes rw and the brackets 1,4,4.",
    "entries 12 to 240: no reference hangs behind them, they change no access, and none was refused.",
];

/// Adds what the colours and marks mean.
pub(super) fn add_legend(out: &mut String, layout: &Layout) -> Result<(), AllocError> {
    let corner = Position::new(12, layout.bottom);
    add_marks(out, corner)?;
    add_grounds(out, corner.right(500))?;
    let mut at = corner.down(46);
    for note in NOTES {
        add_text(out, at, "font-size=\"12\"", &[Text(note)])?;
        at = at.down(18);
    }
    Ok(())
}

// Adds a box of a denied reference, the arrows, and the lines of changed access, each with what it means.
fn add_marks(out: &mut String, corner: Position) -> Result<(), AllocError> {
    let text = corner.down(16);
    add_rect(out, corner, 26, 22, frame(true))?;
    add_text(out, text.right(32), "", &[Text("denied")])?;
    add_arrow(out, Arrow::Store, &sample(text.right(90)))?;
    add_text(out, text.right(138), "", &[Text("reads this store")])?;
    add_arrow(out, Arrow::Message, &sample(text.right(275)))?;
    add_text(out, text.right(323), "", &[Text("message to its taker")])
}

// The way of an arrow that shows what arrows of its kind mean.
fn sample(to: Position) -> Way {
    Way {
        from: to.right(40),
        by: to.right(25).up(16),
        past: to.right(15).up(16),
        to,
    }
}

// Adds the lines of changed access and the grounds of the lanes, each with what it means.
fn add_grounds(out: &mut String, corner: Position) -> Result<(), AllocError> {
    let (text, middle) = (corner.down(16), corner.down(11));
    add_line(out, middle, middle.right(26), LOSS_LINE)?;
    add_text(out, text.right(32), "", &[Text("access lost")])?;
    add_line(out, middle.right(130), middle.right(156), GAIN_LINE)?;
    add_text(out, text.right(162), "", &[Text("given")])?;
    add_rect(out, corner.right(215), 26, 22, ring_colour(FIRST_RING))?;
    add_rect(out, corner.right(215), 26, 22, WAITING)?;
    add_text(out, text.right(247), "", &[Text("waits")])?;
    add_rect(out, corner.right(300), 26, 22, ABSENT)?;
    add_text(out, text.right(332), "", &[Text("not there")])
}
