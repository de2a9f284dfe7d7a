//! The bands of the lanes: where a process is in which ring, where it waits, and where it has not begun or is at its end.

use super::LEFT;
use super::walk::Turn;
use mx_judging::FIRST_RING;
use std::alloc::AllocError;

/// What a process does.
#[derive(Clone, Copy)]
pub(crate) enum Life {
    /// It has not begun, or is at its end.
    Absent,
    Running,
    Waiting,
}

/// A part of a lane in which a process is in one ring.
#[derive(Clone, Copy)]
pub(crate) struct Band {
    pub(crate) process: u8,
    pub(crate) row: u32,
    pub(crate) from: u32,
    pub(crate) to: u32,
    pub(crate) ring: u8,
    pub(crate) life: Life,
}

/// Adds the bands of all processes: each goes on from one turn of its process to the next one, through all rows between.
pub(super) fn add_bands(
    bands: &mut Vec<Band>,
    turns: &[Turn],
    rows: usize,
    processes: u8,
    right: u32,
) -> Result<(), AllocError> {
    let mut begun = [at_first(); 16];
    for turn in turns {
        if let Some(last) = begun.get_mut(usize::from(turn.process)) {
            add_band(bands, last, turn, right)?;
            *last = *turn;
        }
    }
    let end = rows.saturating_sub(1).min(u32::MAX as usize) as u32;
    for (process, last) in begun.iter().enumerate() {
        if 1 <= process && process <= usize::from(processes) {
            let mut last = *last;
            last.process = process as u8;
            let end = Turn {
                row: end,
                x: right,
                ..last
            };
            add_band(bands, &last, &end, right)?;
        }
    }
    Ok(())
}

// The turn at which each process stands before the first.
fn at_first() -> Turn {
    Turn {
        process: 0,
        row: 0,
        x: LEFT,
        ring: FIRST_RING,
        life: Life::Absent,
    }
}

// Adds the bands from a turn of a process up to its next one.
fn add_band(bands: &mut Vec<Band>, from: &Turn, next: &Turn, right: u32) -> Result<(), AllocError> {
    for row in from.row..=next.row {
        let begin = if row == from.row { from.x } else { LEFT };
        let end = if row == next.row { next.x } else { right };
        if begin < end {
            bands.push(Band {
                process: next.process,
                row,
                from: begin,
                to: end,
                ring: from.ring,
                life: from.life,
            })?;
        }
    }
    Ok(())
}
