//! The walk through a run that finds its columns: each entry, the references behind it, and what it changed.

mod columns;
mod marks;

use super::bands::Life;
use super::rows::{Lane, NO_LANE, Row, place_of};
use super::tags::{Ends, Tag};
use super::{BOX_STEP, LEAST_RIGHT, LEFT, RIGHT};
use mx_judging::{Changed, FIRST_RING, Judged};
use mx_state::Entry;
use std::alloc::{AllocError, Global};

/// Before the first column of a row.
const LEAD: u32 = 36;

/// What a label may reach beyond the lanes.
const RIM: u32 = 10;

/// How many references stand side by side in a row that begins with them.
const FULL: u32 = (RIGHT - LEFT - LEAD) / BOX_STEP;

/// The room of a row's head beside its labels, and where it has none.
const HEAD: u32 = 34;

/// What a walk goes through.
#[derive(Clone, Copy)]
pub(super) struct Course<'a> {
    pub(super) entries: &'a [Entry],
    pub(super) changed: &'a [Changed],
    pub(super) bare: &'a [bool],
}

/// A row, and a place in it from the left.
#[derive(Clone, Copy)]
pub(crate) struct Spot {
    pub(crate) row: u32,
    pub(crate) x: u32,
}

/// The column of an entry, or of several from the first to the last.
#[derive(Clone, Copy)]
pub(crate) struct Column {
    pub(crate) first: u32,
    pub(crate) last: u32,
    pub(crate) row: u32,
    pub(crate) x: u32,
}

/// From here on a process is in this ring and does this.
#[derive(Clone, Copy)]
pub(super) struct Turn {
    pub(super) process: u8,
    pub(super) row: u32,
    pub(super) x: u32,
    pub(super) ring: u8,
    pub(super) life: Life,
}

// How a process stands: its ring, what it does, and where it was seen last.
#[derive(Clone, Copy)]
struct Standing {
    ring: u8,
    life: Life,
    last: Spot,
}

/// What was placed so far, and where the next column begins: at `x` in the last row. The references at the entry `at` begin at
/// `begun`, and so many of each process were counted.
#[derive(Drop)]
pub(super) struct Walk {
    pub(super) rows: Vec<Row>,
    pub(super) lanes: Vec<Lane>,
    pub(super) columns: Vec<Column>,
    pub(super) tags: Vec<Tag>,
    pub(super) turns: Vec<Turn>,
    processes: u8,
    at: u32,
    changes: usize,
    x: u32,
    furthest: u32,
    begun: Spot,
    counts: [u32; 16],
    standing: [Standing; 16],
    ends: Ends,
}

impl Walk {
    /// Before the first entry, with one row.
    pub(super) fn new(alloc: Global, processes: u8) -> Result<Walk, AllocError> {
        let begun = Spot {
            row: 0,
            x: LEFT + LEAD,
        };
        let standing = Standing {
            ring: FIRST_RING,
            life: Life::Absent,
            last: begun,
        };
        let mut walk = Walk {
            rows: Vec::new(alloc),
            lanes: Vec::new(alloc),
            columns: Vec::new(alloc),
            tags: Vec::new(alloc),
            turns: Vec::new(alloc),
            processes,
            at: 0,
            changes: 0,
            x: begun.x,
            furthest: begun.x,
            begun,
            counts: [0; 16],
            standing: [standing; 16],
            ends: Ends::new(),
        };
        walk.begin_row()?;
        Ok(walk)
    }

    /// Where the lanes end: at the greatest width in a drawing of several rows, and else behind the last column.
    pub(super) fn right(&self) -> u32 {
        if self.rows.len() > 1 {
            RIGHT
        } else {
            self.furthest
                .saturating_add(LEAD)
                .max(LEAST_RIGHT)
                .min(RIGHT)
        }
    }

    /// The ring that a process is in.
    pub(super) fn ring_of(&self, process: u8) -> u8 {
        match self.standing.get(usize::from(process)) {
            Some(standing) => standing.ring,
            None => FIRST_RING,
        }
    }

    /// Goes on to an entry, where that is further on, or to the last one.
    pub(super) fn go_to(
        &mut self,
        alloc: Global,
        course: &Course,
        point: u32,
    ) -> Result<(), AllocError> {
        let last = course.entries.len().min(point as usize) as u32;
        for place in self.at..last {
            if place >= self.at {
                self.end_boxes()?;
                self.step(alloc, course, place)?;
            }
        }
        Ok(())
    }

    /// The place of the next reference of a process at the entry that was reached.
    pub(super) fn place(&mut self, judged: &Judged) -> Result<Spot, AllocError> {
        let spot = self.spot_of(self.count(judged.process));
        self.begin_rows(spot.row)?;
        if let Some(count) = self.counts.get_mut(usize::from(judged.process)) {
            *count = count.saturating_add(1);
        }
        if let Some(lane) = self.lane(spot.row, judged.process) {
            lane.has_boxes = true;
        }
        self.furthest = self.furthest.max(spot.x.saturating_add(BOX_STEP));
        self.mark_reference(judged, spot)?;
        Ok(spot)
    }

    // How many references of a process were placed at the entry that was reached.
    fn count(&self, process: u8) -> u32 {
        match self.counts.get(usize::from(process)) {
            Some(count) => *count,
            None => 0,
        }
    }

    // Where the reference stands of a process that comes behind so many at the entry that was reached.
    fn spot_of(&self, count: u32) -> Spot {
        let fit = RIGHT.saturating_sub(self.begun.x) / BOX_STEP;
        if count < fit {
            let x = self.begun.x.saturating_add(count.saturating_mul(BOX_STEP));
            return Spot {
                row: self.begun.row,
                x,
            };
        }
        let over = count - fit;
        Spot {
            row: self.begun.row.saturating_add(1 + over / FULL),
            x: LEFT + LEAD + (over % FULL) * BOX_STEP,
        }
    }

    // The next column comes behind the last reference at the entry that was reached.
    fn end_boxes(&mut self) -> Result<(), AllocError> {
        let mut most = 0u32;
        for count in &self.counts {
            most = most.max(*count);
        }
        if most > 0 {
            let last = self.spot_of(most - 1);
            self.begin_rows(last.row)?;
            self.x = last.x.saturating_add(BOX_STEP);
        }
        Ok(())
    }

    // The number of the last row.
    fn last_row(&self) -> u32 {
        self.rows.len().saturating_sub(1).min(u32::MAX as usize) as u32
    }

    // Begins rows up to this one.
    fn begin_rows(&mut self, row: u32) -> Result<(), AllocError> {
        for _ in self.rows.len()..(row as usize).saturating_add(1) {
            self.begin_row()?;
        }
        Ok(())
    }

    fn begin_row(&mut self) -> Result<(), AllocError> {
        self.rows.push(Row {
            head: HEAD,
            behind: self.at,
            journal: 0,
        })?;
        for _ in 0..self.processes {
            self.lanes.push(NO_LANE)?;
        }
        self.ends = Ends::new();
        self.x = LEFT + LEAD;
        Ok(())
    }

    // The lane of a process in a row.
    fn lane(&mut self, row: u32, process: u8) -> Option<&mut Lane> {
        self.lanes.get_mut(place_of(self.processes, row, process))
    }
}
