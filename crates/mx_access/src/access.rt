//! The rows of all processes.

ghost use Rattle.std.specs.Prelude.{◌≡◌, ◌≤◌, ◌<◌, ◌++◌, [], ◌∷◌, true, length, IfOk, OnOk};
ghost use Rattle.std.specs.List.{list_all};
ghost use Rattle.mx_access.specs.Answers.{IsAccess};
ghost use Rattle.mx_access.specs.Admissible.{HasAdmissible};
ghost use Rattle.mx_access.specs.AllRows.{AreRows, AreToldFrom, IsOf};
ghost use Rattle.mx_access.specs.Rows.{IsRow};
ghost use Rattle.mx_script.specs.Sessions.{IsSession};
ghost use Rattle.mx_spelling.specs.Spelling.{fits_entry};
ghost use Rattle.mx_state.specs.History.{IsRight};
ghost use Rattle.mx_transcript.specs.Opened.{opening_of};
ghost use Rattle.mx_transcript.specs.Transcripts.{part, events_of};

use crate::answers::Row;
use crate::laws::descriptors_are_admissible;
use crate::passing::answers;
use crate::questions::{Told, turns_of};
use mx_fresh::PlainSupervisor;
use mx_list::Sequence;
use mx_script::Session;
use mx_sdw::Desc;
use mx_state::{Entry, Journal};
use mx_stores::Deed;
use mx_transcript::{Transcript, Transcripts};
use std::alloc::{AllocError, Global};
use std::thread;
use std::thread::Threads;

/// On which access each event of a run stood: for each transcript a row, and in it for each event, in order, one item.
#[derive(Debug, Drop)]
pub struct Access {
    /// The descriptor of each reference at its printed point, and the unknown one for events of other kinds.
    pub descriptors: Vec<Sequence<Desc>>,
    /// What deed each event was.
    pub deeds: Vec<Sequence<Deed>>,
    /// Whether the entry of each miss changed its pair; false for events of other kinds.
    pub changes: Vec<Sequence<bool>>,
}

/// What was told of the events of all processes, and behind how much of it stands what was told of each process's.
#[derive(Debug, Drop)]
struct Answers {
    starts: Vec<usize>,
    told: Vec<Told>,
}

// What a plain supervisor says of the events of transcripts, as it goes through a right journal once.
fn answers_on<S: PlainSupervisor>(
    alloc: Global,
    session: &Session,
    entries: &[Entry],
    transcripts: &[Transcript],
) -> Result<Answers, AllocError>
    requires right { IsRight (opening_of session.now) entries.now }
    ensures { IfOk result (λ answers. AreToldFrom session.now entries.now transcripts.now answers.starts.items answers.told.items) }
{
    let asked = turns_of(alloc, entries.len(), transcripts)?;
    let told = answers::<S>(
        alloc,
        session,
        entries,
        transcripts,
        &asked.turns,
        asked.count,
    )?;
    Ok(Answers {
        starts: asked.starts,
        told,
    })
}

// The row of process `p`, by what was told of all.
fn row_at(
    alloc: Global,
    session: &Session,
    entries: &[Entry],
    transcripts: &[Transcript],
    starts: &[usize],
    told: &[Told],
    p: usize,
) -> Result<Row, AllocError>
    requires place { p < length transcripts.now }
    requires told { AreToldFrom session.now entries.now transcripts.now starts.now told.now }
    requires admissible { HasAdmissible session.now entries.now }
    ensures { IfOk result (IsRow session.now entries.now p (events_of (part transcripts.now p))) }
{
    let start = starts[p];
    let end = match starts.get(p + 1) {
        None => told.len(),
        Some(end) => *end,
    };
    let (_, own) = told.split_at(start);
    Row::of(
        alloc,
        session,
        entries,
        p,
        &transcripts[p],
        own,
        end.saturating_sub(start),
    )
}

// Adds the rows of the processes from this one on, made one after another.
fn add_rows(
    rows: &mut Vec<Result<Row, AllocError>>,
    alloc: Global,
    session: &Session,
    entries: &[Entry],
    transcripts: &[Transcript],
    starts: &[usize],
    told: &[Told],
    first: usize,
) -> Result<(), AllocError>
    requires first { first ≤ length transcripts.now }
    requires rows { AreRows session.now entries.now transcripts.now first rows.old.items }
    requires told { AreToldFrom session.now entries.now transcripts.now starts.now told.now }
    requires admissible { HasAdmissible session.now entries.now }
    ensures { OnOk result (AreRows session.now entries.now transcripts.now (length transcripts.now) rows.new.items) }
{
    for p in first..transcripts.len() {
        rows.push(row_at(alloc, session, entries, transcripts, starts, told, p))?;
    }
    Ok(())
}

// The rows of all processes, made one after another.
fn rows_in_turn(
    alloc: Global,
    session: &Session,
    entries: &[Entry],
    transcripts: &[Transcript],
    starts: &[usize],
    told: &[Told],
) -> Result<Vec<Result<Row, AllocError>>, AllocError>
    requires told { AreToldFrom session.now entries.now transcripts.now starts.now told.now }
    requires admissible { HasAdmissible session.now entries.now }
    ensures { IfOk result (λ rows. AreRows session.now entries.now transcripts.now (length transcripts.now) rows.items) }
{
    let mut rows = Vec::new(alloc);
    add_rows(
        &mut rows,
        alloc,
        session,
        entries,
        transcripts,
        starts,
        told,
        0,
    )?;
    Ok(rows)
}

// How many rows are made side by side: those of the initializer and the session's processes, of so many transcripts.
fn beside_of(session: &Session, transcripts: usize) -> usize
    ensures { result ≤ transcripts }
{
    let processes = session.principals().items().len() + 1;
    if transcripts < processes {
        transcripts
    } else {
        processes
    }
}

// The rows of all processes, those of the session's made side by side, each on a thread of its own where one can be had.
fn rows_beside<R: Threads + Sync>(
    rt: &R,
    alloc: Global,
    session: &Session,
    entries: &[Entry],
    transcripts: &[Transcript],
    starts: &[usize],
    told: &[Told],
) -> Result<Vec<Result<Row, AllocError>>, AllocError>
    requires told { AreToldFrom session.now entries.now transcripts.now starts.now told.now }
    requires admissible { HasAdmissible session.now entries.now }
    ensures { IfOk result (λ rows. AreRows session.now entries.now transcripts.now (length transcripts.now) rows.items) }
{
    let beside = beside_of(session, transcripts.len());
    let one = |p: usize| -> Result<Row, AllocError>
        requires place { p < length transcripts.now }
        requires told { AreToldFrom session.now entries.now transcripts.now starts.now told.now }
        requires admissible { HasAdmissible session.now entries.now }
        ensures { IfOk result (IsRow session.entry.now entries.entry.now p (events_of (part transcripts.entry.now p))) }
    { row_at(alloc, session, entries, transcripts, starts, told, p) };
    let mut rows = thread::map_indices(rt, alloc, beside, &one)?;
    add_rows(
        &mut rows,
        alloc,
        session,
        entries,
        transcripts,
        starts,
        told,
        beside,
    )?;
    Ok(rows)
}

impl Access {
    // Adds a row.
    fn push(&mut self, row: Row) -> Result<(), AllocError>
        ensures deeds { OnOk result (self.new.deeds.items ≡ self.old.deeds.items ++ row.deeds ∷ []) }
        ensures descriptors { OnOk result (self.new.descriptors.items ≡ self.old.descriptors.items ++ row.descriptors ∷ []) }
        ensures changes { OnOk result (self.new.changes.items ≡ self.old.changes.items ++ row.changes ∷ []) }
    {
        self.deeds.push(row.deeds)?;
        self.descriptors.push(row.descriptors)?;
        self.changes.push(row.changes)?;
        Ok(())
    }

    // These rows, if all of them were made.
    fn of(alloc: Global, rows: Vec<Result<Row, AllocError>>) -> Result<Access, AllocError>
        ensures { IfOk result (IsOf rows.items []) }
    {
        let mut access = Access {
            descriptors: Vec::new(alloc),
            deeds: Vec::new(alloc),
            changes: Vec::new(alloc),
        };
        for row in rows {
            access.push(row?)?;
        }
        Ok(access)
    }
}

/// On which access each event of the transcripts stood, where a plain supervisor goes through the journal once. The journal
/// is right, and such as a text can say; the transcripts may be any. A transcript beyond those of the session's processes,
/// and the initializer's, has unknown descriptors; a point beyond the journal is its end. What each event was, by what the
/// supervisor said, is found for each of those processes on a thread of its own where one can be had; the answer does not hang
/// on it.
///
/// # Errors
///
/// Want of memory; more than 4,294,967,295 events count as that.
pub fn access_of<S: PlainSupervisor, R: Threads + Sync>(
    rt: &R,
    alloc: Global,
    session: &Session,
    journal: &Journal,
    transcripts: &Transcripts,
) -> Result<Access, AllocError>
    requires right { IsRight (opening_of session.now) journal.now }
    requires fits { list_all fits_entry journal.now ≡ true }
    ensures { IfOk result (IsAccess session.now journal.now transcripts.now) }
{
    descriptors_are_admissible();
    let _scripts = session.scripts();
    let entries = journal.items();
    let parts = transcripts.items();
    let answers = answers_on::<S>(alloc, session, entries, parts)?;
    let rows = rows_beside(
        rt,
        alloc,
        session,
        entries,
        parts,
        &answers.starts,
        &answers.told,
    )?;
    Access::of(alloc, rows)
}

/// The same, found on one thread.
///
/// # Errors
///
/// Want of memory; more than 4,294,967,295 events count as that.
pub fn access_in_turn<S: PlainSupervisor>(
    alloc: Global,
    session: &Session,
    journal: &Journal,
    transcripts: &Transcripts,
) -> Result<Access, AllocError>
    requires right { IsRight (opening_of session.now) journal.now }
    requires fits { list_all fits_entry journal.now ≡ true }
    ensures { IfOk result (IsAccess session.now journal.now transcripts.now) }
{
    descriptors_are_admissible();
    let _scripts = session.scripts();
    let entries = journal.items();
    let parts = transcripts.items();
    let answers = answers_on::<S>(alloc, session, entries, parts)?;
    let rows = rows_in_turn(
        alloc,
        session,
        entries,
        parts,
        &answers.starts,
        &answers.told,
    )?;
    Access::of(alloc, rows)
}
