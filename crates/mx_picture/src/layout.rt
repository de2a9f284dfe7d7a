//! Where things stand in the drawing of a run. As in a score, the columns of the entries and of the references behind them go from
//! left to right up to the greatest width, and further ones into a new row below; each row has a lane for each process.

ghost use Rattle.std.specs.Prelude.{◌≡◌, ◌++◌, map, IfOk, IfSome, OnOk};
ghost use Rattle.mx_picture.specs.Arrows.{IsStoreFor};
ghost use Rattle.mx_picture.specs.Boxes.{lane_of, no_lane};

mod bands;
mod folds;
mod line_numbers;
mod messages;
mod rows;
mod stores;
mod tags;
mod walk;

use crate::positions::Position;
use bands::add_bands;
pub(crate) use bands::{Band, Life};
use folds::bare_entries;
pub(crate) use folds::fold_words;
use line_numbers::LineNumbers;
pub(crate) use messages::Message;
use messages::messages_of;
use mx_judging::{Accesses, Judged};
use mx_script::Session;
use mx_sdw::Ring;
use mx_state::Journal;
use mx_transcript::{Outcome, Transcripts};
use rows::settle;
pub(crate) use rows::{Lane, Row, TAG_HEIGHT};
use std::alloc::{AllocError, Global};
use stores::{Stores, store_of};
pub(crate) use tags::{Tag, tag_width};
pub(crate) use walk::Column;
use walk::{Course, Walk};

/// Where the columns begin.
pub(crate) const LEFT: u32 = 150;

/// Where they end, and with them the lanes, in a drawing of several rows.
const RIGHT: u32 = 1_180;

/// Where the lanes end at least.
const LEAST_RIGHT: u32 = 960;

/// The width of an entry's column, before what hangs behind it.
pub(crate) const ENTRY_WIDTH: u32 = 40;

/// The width that a reference takes.
const BOX_STEP: u32 = 142;

/// The width of its box.
pub(crate) const BOX_WIDTH: u32 = 132;

/// The height of its box.
pub(crate) const BOX_HEIGHT: u32 = 66;

/// A reference in its place: the number of its line, the how many-th of that line it is, the ring of its process before it, its row,
/// and where its box begins from the left.
#[derive(Clone, Copy)]
pub(crate) struct Placed {
    pub(crate) judged: Judged,
    pub(crate) line: u32,
    pub(crate) nth: u32,
    pub(crate) current: u8,
    pub(crate) row: u32,
    pub(crate) x: u32,
}

/// The rows with their lanes, and what stands in them.
#[derive(Drop)]
pub(crate) struct Layout {
    pub(crate) processes: u8,
    pub(crate) right: u32,
    pub(crate) bottom: u32,
    pub(crate) rows: Vec<Row>,
    pub(crate) lanes: Vec<Lane>,
    pub(crate) columns: Vec<Column>,
    pub(crate) tags: Vec<Tag>,
    pub(crate) bands: Vec<Band>,
    pub(crate) placed: Vec<Placed>,
    pub(crate) messages: Vec<Message>,
    stores: Stores,
}

impl Layout {
    /// The places of all entries and references of a run.
    pub(crate) fn new(
        alloc: Global,
        session: &Session,
        journal: &Journal,
        transcripts: &Transcripts,
        accesses: &Accesses,
    ) -> Result<Layout, AllocError>
        ensures { IfOk result (λ layout. map (λ p. p.judged) layout.placed.items ≡ accesses.now.judged.items) }
    {
        let processes = session.principals().items().len() as u8;
        let entries = journal.items();
        let bare = bare_entries(alloc, entries, accesses)?;
        let course = Course {
            entries,
            changed: accesses.changed.as_slice(),
            bare: bare.as_slice(),
        };
        let mut walk = Walk::new(alloc, processes)?;
        let mut lines = LineNumbers::new(alloc, transcripts.items())?;
        let mut placed = Vec::new(alloc);
        let judged = accesses.judged.as_slice();
        place_all(alloc, &course, &mut walk, &mut lines, judged, &mut placed)?;
        walk.go_to(alloc, &course, u32::MAX)?;
        walk.finish()?;
        let stores = Stores::new(alloc, placed.as_slice())?;
        let messages = messages_of(alloc, entries)?;
        let right = walk.right();
        let mut bands = Vec::new(alloc);
        add_bands(
            &mut bands,
            walk.turns.as_slice(),
            walk.rows.len(),
            processes,
            right,
        )?;
        let bottom = settle(&mut walk.rows, &mut walk.lanes, processes);
        Ok(Layout {
            processes,
            right,
            bottom,
            rows: walk.rows,
            lanes: walk.lanes,
            columns: walk.columns,
            tags: walk.tags,
            bands,
            placed,
            messages,
            stores,
        })
    }

    /// The middle of an entry's mark, on the line of the journal of its row; that of the entries that it is folded with.
    pub(crate) fn entry(&self, number: u32) -> Option<Position> {
        let behind = self
            .columns
            .partition_point(|column| column.first <= number);
        let column = self.columns.get(behind.checked_sub(1)?)?;
        Some(self.mark(column))
    }

    /// The middle of a column's mark.
    pub(crate) fn mark(&self, column: &Column) -> Position {
        Position::new(column.x, self.journal(column.row)).right(ENTRY_WIDTH / 2)
    }

    /// The line of the journal of a row.
    pub(crate) fn journal(&self, row: u32) -> u32 {
        match self.rows.get(row as usize) {
            Some(row) => row.journal,
            None => 0,
        }
    }

    /// The lane of a process in a row.
    pub(crate) fn lane(&self, row: u32, process: u8) -> Lane
        ensures { result ≡ lane_of self.now.lanes.items self.now.processes row process }
    {
        let place = rows::place_of(self.processes, row, process);
        match self.lanes.get(place) {
            Some(lane) => *lane,
            None => rows::NO_LANE,
        }
    }

    /// The corner of the box of a reference.
    pub(crate) fn corner(&self, placed: &Placed) -> Position {
        let lane = self.lane(placed.row, placed.judged.process);
        Position::new(placed.x, lane.top).down(lane.boxes_from())
    }

    /// The reference at this place and the store that it stands for, where it is a read.
    pub(crate) fn store_of(&self, place: usize) -> Option<(&Placed, &Placed)>
        ensures { IfSome result (λ pair. IsStoreFor pair.1.now.judged pair.0.now.judged) }
    {
        let read = self.placed.get(place)?;
        let store = store_of(&self.stores, self.placed.as_slice(), place, &read.judged)?;
        Some((read, store))
    }
}

// Places references, each in the lane of its process.
fn place_all(
    alloc: Global,
    course: &Course,
    walk: &mut Walk,
    lines: &mut LineNumbers,
    judged: &[Judged],
    placed: &mut Vec<Placed>,
) -> Result<(), AllocError>
    ensures { OnOk result (map (λ p. p.judged) placed.new.items ≡ map (λ p. p.judged) placed.old.items ++ judged.now) }
{
    for reference in judged {
        walk.go_to(alloc, course, reference.element.point)?;
        let current = walk.ring_of(reference.process);
        let spot = walk.place(reference)?;
        let number = lines.next(reference.process);
        placed.extend_from_slice(&[Placed {
            judged: *reference,
            line: number.line,
            nth: number.nth,
            current,
            row: spot.row,
            x: spot.x,
        }])?;
    }
    Ok(())
}

/// The ring that a reference leaves its process in, where it changes it.
pub(crate) fn entered(judged: &Judged) -> Option<Ring> {
    match judged.element.outcome {
        Outcome::Entered { ring } => Some(ring),
        Outcome::Read { .. } | Outcome::Written { .. } | Outcome::Denied(_) => None,
    }
}
