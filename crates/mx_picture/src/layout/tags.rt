//! What changes of access are written in a lane, and on which of its lines.

use super::walk::Spot;
use crate::labels::{change_words, text_of};
use mx_judging::Changed;
use std::alloc::{AllocError, Global};

/// The width of a character in a change of access, and what stands around all of them.
const TAG_CHARACTER: u32 = 8;

const TAG_RIM: u32 = 6;

/// The last line of changes in a lane.
const LAST_LEVEL: u8 = 11;

/// A change of access in its place: its row, its line in the lane, and where it begins from the left.
#[derive(Clone, Copy)]
pub(crate) struct Tag {
    pub(crate) changed: Changed,
    pub(crate) row: u32,
    pub(crate) level: u8,
    pub(crate) x: u32,
}

/// Where the lines of changes in the lanes of a row end so far.
#[derive(Clone, Copy)]
pub(super) struct Ends {
    ends: [[u32; 12]; 16],
}

impl Ends {
    /// Nothing is written yet.
    pub(super) fn new() -> Ends {
        Ends {
            ends: [[0; 12]; 16],
        }
    }

    /// The first line of a process's lane that is free at this place, for a change of this width; the last one where none is.
    pub(super) fn take(&mut self, process: u8, at: Spot, width: u32) -> u8 {
        let Some(ends) = self.ends.get_mut(usize::from(process)) else {
            return 0;
        };
        let mut level = 0u8;
        for end in ends.iter_mut() {
            if *end <= at.x || level >= LAST_LEVEL {
                *end = at.x.saturating_add(width);
                break;
            }
            level = level.saturating_add(1);
        }
        level
    }
}

/// The width of what is written of a change of access.
pub(crate) fn tag_width(alloc: Global, changed: &Changed) -> Result<u32, AllocError> {
    let length = text_of(alloc, &change_words(changed))?.len();
    Ok(length.min(40) as u32 * TAG_CHARACTER + TAG_RIM)
}
