//! What each event was, by what was told of it.

ghost use Rattle.std.specs.Prelude.{◌≡◌, ◌++◌, [], ◌∷◌, map, IfOk, OnOk};
ghost use Rattle.mx_access.specs.Admissible.{HasAdmissible};
ghost use Rattle.mx_access.specs.Answers.{is_changed, judged_on, missed_changed};
ghost use Rattle.mx_access.specs.Rows.{AreToldOf, deed_of_process, event_change, IsRow, told_cell, told_desc, use_since};
ghost use Rattle.mx_sdw.specs.Judging.{judgement};
ghost use Rattle.mx_stores.specs.Parts.{deed_of};
ghost use Rattle.mx_transcript.specs.Access.{descriptor_of};
ghost use Rattle.mx_transcript.specs.References.{deed_by, granted_cell, reference};
ghost use Rattle.mx_transcript.specs.Transcripts.{events_of};

use crate::questions::{Question, Told};
use mx_core::{Element, Event, Kind, Outcome};
use mx_list::Sequence;
use mx_script::Session;
use mx_sdw::{Desc, Op, Ring, judge};
use mx_state::Entry;
use mx_stores::{CellUse, Deed, Form};
use mx_transcript::{Event2, Transcript};
use std::alloc::{AllocError, Global};

/// For each event of a process, in order: what deed it was, on which descriptor it was judged, and whether its entry
/// changed the pair.
#[derive(Debug, Drop)]
pub(crate) struct Row {
    pub(crate) deeds: Sequence<Deed>,
    pub(crate) descriptors: Sequence<Desc>,
    pub(crate) changes: Sequence<bool>,
}

// The cell that was granted, in its use.
fn granted(told: &Told, op: Op, ring: Ring, word: u16) -> Option<CellUse>
    ensures { result ≡ granted_cell (use_since told.now.since) (judgement told.now.desc op ring word) }
{
    match judge(&told.desc, op, ring, u32::from(word)) {
        Ok(cell) => Some(CellUse {
            cell: cell.0,
            since: told.since,
        }),
        Err(_) => None,
    }
}

// The cell that a reference touched, in its use.
fn cell_of(element: &Element, told: &Told) -> Option<CellUse>
    ensures { result ≡ told_cell told.now element.now }
{
    match element.kind {
        Kind::Read => granted(told, Op::Read, element.ring, element.word),
        Kind::Ind => granted(told, Op::Indirect, element.ring, element.word),
        Kind::Write => granted(told, Op::Write, element.ring, element.word),
        Kind::Fetch => granted(told, Op::Fetch, element.ring, element.word),
        Kind::Call | Kind::Return => None,
    }
}

// What a reference to a cell, if it touched one, came to.
fn reference(cell: Option<CellUse>, outcome: &Outcome, point: u32) -> Form
    ensures { deed_of result ≡ reference cell outcome.now point }
{
    match (cell, outcome) {
        (
            Some(cell),
            Outcome::Read {
                value,
                writer,
                stamp,
            },
        ) => Form::Loads {
            cell,
            value: value.value(),
            writer: *writer,
            stamp: *stamp,
            point,
        },
        (Some(cell), Outcome::Written { value }) => Form::Stores {
            cell,
            value: value.value(),
            point,
        },
        (_, Outcome::Entered { .. } | Outcome::Denied(_)) => Form::Refers { point },
        (None, _) => Form::Refers { point },
    }
}

// The deed that an event was.
fn deed_of(event: &Event2, told: &Told) -> Deed
    ensures { result ≡ deed_by (told_cell told.now) event.now }
{
    let form = match event {
        Event2::Entry(number) => Form::Enters { number: *number },
        Event2::Core(Event::Seen(element)) => reference(
            cell_of(element, told),
            &element.outcome,
            element.point,
        ),
        Event2::Core(Event::Missing { segno, by }) => Form::Misses {
            segno: *segno,
            by: *by,
        },
    };
    Deed::new(form)
}

// The descriptor on which an event was judged.
fn desc_of(event: &Event2, told: &Told) -> Desc
    ensures { result ≡ told_desc told.now event.now }
{
    match event {
        Event2::Core(Event::Seen(_)) => told.desc,
        Event2::Core(Event::Missing { .. }) | Event2::Entry(_) => Desc::unknown(),
    }
}

// Whether the entry by which an event missed changed its pair.
fn is_change(entries: usize, p: usize, event: &Event2, told: &Told) -> bool
    ensures { result ≡ event_change entries p told.now event.now }
{
    match event {
        Event2::Core(Event::Missing { .. }) => {
            let question = Question::of(entries, p, event);
            question.before < question.point && !told.before.is_same(&told.desc)
        },
        Event2::Core(Event::Seen(_)) | Event2::Entry(_) => false,
    }
}

impl Row {
    // Adds an event of process `p`.
    fn push(
        &mut self,
        entries: usize,
        p: usize,
        event: &Event2,
        told: &Told,
    ) -> Result<(), AllocError>
        ensures deeds { OnOk result (self.new.deeds ≡ self.old.deeds ++ deed_by (told_cell told.now) event.now ∷ []) }
        ensures descriptors { OnOk result (self.new.descriptors ≡ self.old.descriptors ++ told_desc told.now event.now ∷ []) }
        ensures changes { OnOk result (self.new.changes ≡ self.old.changes ++ event_change entries p told.now event.now ∷ []) }
    {
        self.deeds.push(deed_of(event, told))?;
        self.descriptors.push(desc_of(event, told))?;
        self.changes.push(is_change(entries, p, event, told))
    }

    // Adds events of process `p`, by what was told of each.
    fn add(
        &mut self,
        session: &Session,
        entries: &[Entry],
        p: usize,
        events: &[Event2],
        told: &[Told],
    ) -> Result<(), AllocError>
        requires told { AreToldOf session.now entries.now p events.now told.now }
        requires admissible { HasAdmissible session.now entries.now }
        ensures deeds { OnOk result (self.new.deeds ≡ self.old.deeds ++ map (deed_of_process session.now entries.now p) events.now) }
        ensures descriptors { OnOk result (self.new.descriptors ≡ self.old.descriptors ++ map (judged_on (descriptor_of session.now entries.now p)) events.now) }
        ensures changes { OnOk result (self.new.changes ≡ self.old.changes ++ map (missed_changed (is_changed session.now entries.now p)) events.now) }
    {
        for place in 0..events.len() {
            self.push(entries.len(), p, &events[place], &told[place])?;
        }
        Ok(())
    }

    /// The row of process `p`, whose transcript this is, by what was told of its events. There is room for so many at once.
    pub(crate) fn of(
        alloc: Global,
        session: &Session,
        entries: &[Entry],
        p: usize,
        transcript: &Transcript,
        told: &[Told],
        room: usize,
    ) -> Result<Row, AllocError>
        requires told { AreToldOf session.now entries.now p (events_of transcript.now) told.now }
        requires admissible { HasAdmissible session.now entries.now }
        ensures { IfOk result (IsRow session.now entries.now p (events_of transcript.now)) }
    {
        let mut row = Row {
            deeds: Sequence::of(Vec::with_capacity(alloc, room)?),
            descriptors: Sequence::of(Vec::with_capacity(alloc, room)?),
            changes: Sequence::of(Vec::with_capacity(alloc, room)?),
        };
        let mut left = told;
        for (_, events, _) in transcript.steps() {
            row.add(session, entries, p, events, left)?;
            let (_, others) = left.split_at(events.len());
            left = others;
        }
        Ok(row)
    }
}
