//! The rows and their lanes, from top to bottom.

ghost use Rattle.std.specs.Prelude.{◌≡◌, ◌-◌, ◌*◌, ◌+◌, ◌≤◌};

use super::BOX_HEIGHT;

/// A row: how much room the labels of its entries take, its entry behind which it begins, and the line of the journal.
#[derive(Clone, Copy)]
pub(crate) struct Row {
    pub(crate) head: u32,
    pub(crate) behind: u32,
    pub(crate) journal: u32,
}

/// A lane of a row: its top, how many lines of changes it has, and whether there are boxes in it.
#[derive(Clone, Copy)]
pub(crate) struct Lane {
    pub(crate) top: u32,
    pub(crate) levels: u8,
    pub(crate) has_boxes: bool,
}

/// The lane of no row.
pub(crate) const NO_LANE: Lane = Lane {
    top: 0,
    levels: 0,
    has_boxes: false,
};

/// The room above the first row, where the title stands.
const TITLE: u32 = 52;

/// The room above the line of the journal in the first row at least, where the rings stand.
const RINGS: u32 = 186;

/// From the line of the journal to the first lane.
const DROP: u32 = 52;

/// Between two lanes, and between two rows.
const LANE_GAP: u32 = 8;

const ROW_GAP: u32 = 34;

/// The height of what is written in a lane of a change.
pub(crate) const TAG_HEIGHT: u32 = 16;

/// The room in a lane below its boxes.
const BELOW: u32 = 46;

/// The height of a lane in which nothing is written.
const THIN: u32 = 20;

impl Lane {
    /// Where boxes begin, from its top.
    pub(crate) fn boxes_from(&self) -> u32
        ensures { result ≤ 4096 }
    {
        8 + TAG_HEIGHT * u32::from(self.levels)
    }

    /// Its height: it is thin where it has neither boxes nor changes.
    pub(crate) fn height(&self) -> u32 {
        let changes = self.boxes_from();
        if self.has_boxes {
            changes + BOX_HEIGHT + BELOW
        } else if self.levels > 0 {
            changes + THIN
        } else {
            THIN
        }
    }
}

/// The place of the lane of a process among those of so many processes in all rows.
pub(super) fn place_of(processes: u8, row: u32, process: u8) -> usize
    ensures { result ≡ row * processes + (process - 1) }
{
    row as usize * usize::from(processes) + usize::from(process.saturating_sub(1))
}

/// Puts rows and lanes one below another, and says where the last one ends.
pub(super) fn settle(rows: &mut [Row], lanes: &mut [Lane], processes: u8) -> u32 {
    let mut y = TITLE;
    let mut first = 0usize;
    for (number, row) in rows.iter_mut().enumerate() {
        let least = if number == 0 { RINGS } else { 0 };
        row.journal = y.saturating_add(row.head.max(least));
        y = row.journal.saturating_add(DROP);
        for _ in 0..processes {
            if let Some(lane) = lanes.get_mut(first) {
                lane.top = y;
                y = y.saturating_add(lane.height()).saturating_add(LANE_GAP);
            }
            first = first.saturating_add(1);
        }
        y = y.saturating_add(ROW_GAP);
    }
    y
}
