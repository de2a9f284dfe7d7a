//! The columns of entries, and what these changed.

use super::{Column, Course, HEAD, RIM, Spot, Walk};
use crate::labels::{label, text_of};
use crate::layout::folds::{fold_words, folded};
use crate::layout::tags::{Tag, tag_width};
use crate::layout::{ENTRY_WIDTH, RIGHT};
use mx_judging::Changed;
use mx_state::Entry;
use std::alloc::{AllocError, Global};

impl Walk {
    // Places the column that begins with the entry at this place.
    pub(super) fn step(
        &mut self,
        alloc: Global,
        course: &Course,
        place: u32,
    ) -> Result<(), AllocError> {
        let count = folded(course.bare, place as usize);
        let Some(rest) = course.entries.get(place as usize..) else {
            return Ok(());
        };
        let number = place.saturating_add(1);
        let (column, _) = rest.split_at(count.min(rest.len()));
        match column {
            [entry] => self.add_entry(alloc, course, number, entry),
            several => self.add_folded(alloc, number, several),
        }?;
        Ok(())
    }

    // Adds the column of an entry.
    fn add_entry(
        &mut self,
        alloc: Global,
        course: &Course,
        number: u32,
        entry: &Entry,
    ) -> Result<(), AllocError> {
        let length = label(alloc, entry)?.len();
        let has_changes = match course.changed.get(self.changes) {
            Some(changed) => changed.entry <= number,
            None => false,
        };
        self.add_column(number, number, length, has_changes)?;
        self.mark_entry(entry)?;
        self.add_tags(alloc, course.changed, number)
    }

    // Adds the column of entries on which nothing hangs: each process that made one of them was there.
    fn add_folded(
        &mut self,
        alloc: Global,
        first: u32,
        entries: &[Entry],
    ) -> Result<(), AllocError> {
        let last = first.saturating_add(
            entries.len().saturating_sub(1).min(u32::MAX as usize) as u32,
        );
        let length = text_of(alloc, &fold_words(first, last))?.len();
        self.add_column(first, last, length, false)?;
        let row = self.last_row();
        let (left, right) = (
            self.x.saturating_sub(ENTRY_WIDTH - 6),
            self.x.saturating_sub(6),
        );
        for entry in entries {
            self.mark(entry.process, Spot { row, x: left }, Spot { row, x: right })?;
        }
        Ok(())
    }

    // Adds a column, with a label of so many characters, in a new row where it does not fit into the last one.
    fn add_column(
        &mut self,
        first: u32,
        last: u32,
        length: usize,
        has_changes: bool,
    ) -> Result<(), AllocError> {
        let length = length.min(100) as u32;
        let along = ENTRY_WIDTH / 2 + 14 + length * 9 / 2;
        let reach = if has_changes { along.max(160) } else { along };
        if self.x.saturating_add(reach) > RIGHT + RIM {
            self.begin_row()?;
        }
        let row = self.last_row();
        if let Some(last_row) = self.rows.last_mut() {
            last_row.head = last_row.head.max(HEAD + length * 6);
        }
        let x = self.x;
        self.columns.push(Column {
            first,
            last,
            row,
            x,
        })?;
        self.furthest = self.furthest.max(x.saturating_add(reach));
        self.x = x.saturating_add(ENTRY_WIDTH);
        self.at = last;
        self.begun = Spot { row, x: self.x };
        self.counts = [0; 16];
        Ok(())
    }

    // Adds what the entry of this number changed.
    fn add_tags(
        &mut self,
        alloc: Global,
        changes: &[Changed],
        number: u32,
    ) -> Result<(), AllocError> {
        let Some(rest) = changes.get(self.changes..) else {
            return Ok(());
        };
        for changed in rest {
            if changed.entry > number {
                break;
            }
            self.changes = self.changes.saturating_add(1);
            self.add_tag(alloc, changed)?;
        }
        Ok(())
    }

    fn add_tag(&mut self, alloc: Global, changed: &Changed) -> Result<(), AllocError> {
        let width = tag_width(alloc, changed)?;
        let spot = Spot {
            row: self.last_row(),
            x: self.x.saturating_sub(ENTRY_WIDTH / 2),
        };
        let process = changed.process;
        let level = self.ends.take(process, spot, width.saturating_add(2));
        self.raise(spot.row, process, level.saturating_add(1));
        self.tags.extend_from_slice(&[Tag {
            changed: *changed,
            row: spot.row,
            level,
            x: spot.x,
        }])
    }

    // The lane of a process has at least so many lines of changes.
    fn raise(&mut self, row: u32, process: u8, levels: u8) {
        if let Some(lane) = self.lane(row, process) {
            lane.levels = lane.levels.max(levels);
        }
    }
}
