//! The parts of a run, judged side by side.

ghost use Rattle.std.specs.Prelude.{◌≡◌, true, length, IfOk};
ghost use Rattle.std.specs.List.{list_all};
ghost use Rattle.mx_access.specs.Answers.{IsAccess};
ghost use Rattle.mx_legal.specs.Deciding.{or_unnamed};
ghost use Rattle.mx_legal.specs.Fronts.{AreDoneTo};
ghost use Rattle.mx_legal.specs.Judging.{AreJudged, AreUndone, IsJudged};
ghost use Rattle.mx_points.specs.Fronts.{IsFirstBad};
ghost use Rattle.mx_script.specs.SessionTexts.{fits, rows_of};
ghost use Rattle.mx_spelling.specs.Spelling.{fits_entry};
ghost use Rattle.mx_transcript.specs.Transcripts.{part};

use crate::fronts::{bad_line, first_undone, is_whole};
use crate::laws::reads_to_law;
use mx_access::Access;
use mx_points::{Line, first_misnamed, lines_of};
use mx_script::Session;
use mx_state::Journal;
use mx_stores::{Stores, right_to_law};
use mx_transcript::Transcripts;
use std::alloc::{AllocError, Global};
use std::thread;
use std::thread::Threads;

/// The first process with an entry that no line names, where the one before this may be known.
pub(crate) fn or_unnamed(unnamed: Option<usize>, p: usize, is_named: bool) -> Option<usize>
    ensures { result ≡ or_unnamed unnamed p is_named }
{
    match unnamed {
        Some(before) => Some(before),
        None => if is_named { None } else { Some(p) },
    }
}

/// A part under judgement: its first bad line, and whether its lines name all entries of its process.
#[derive(Clone, Copy)]
pub(crate) struct Judged {
    pub(crate) bad: Option<usize>,
    pub(crate) is_named: bool,
}

/// The lines of process `p`'s part; none where it has no part.
pub(crate) fn part_of<'a>(
    alloc: Global,
    transcripts: &'a Transcripts,
    p: usize,
) -> Result<Vec<Line<'a>>, AllocError>
    ensures { IfOk result (λ lines. lines.items ≡ part transcripts.now p) }
{
    match transcripts.items().get(p) {
        None => Ok(Vec::new(alloc)),
        Some(transcript) => lines_of(alloc, transcript),
    }
}

/// The place of the first line of a part that departs from the line rule, or none; or that memory was wanting.
pub(crate) type Undone = Result<Option<usize>, AllocError>;

/// Of the parts of the initializer and the session's processes the first lines that depart from the line rule, each found on a
/// thread of its own where one can be had.
pub(crate) fn undone_beside<R: Threads + Sync>(
    rt: &R,
    alloc: Global,
    session: &Session,
    journal: &Journal,
    transcripts: &Transcripts,
    access: &Access,
) -> Result<Vec<Undone>, AllocError>
    requires session { list_all fits (rows_of session.now) ≡ true }
    requires journal { list_all fits_entry journal.now ≡ true }
    requires access { IsAccess session.now journal.now transcripts.now access.now }
    ensures { IfOk result (λ all. AreUndone session.now journal.now transcripts.now all.items) }
{
    let count = session.principals().items().len() + 1;
    let one = |p: usize| -> Undone
        requires session { list_all fits (rows_of session.now) ≡ true }
        requires journal { list_all fits_entry journal.now ≡ true }
        requires access { IsAccess session.now journal.now transcripts.now access.now }
        ensures { IfOk result (IsFirstBad (AreDoneTo session.entry.now journal.entry.now p (part transcripts.entry.now p)) (length (part transcripts.entry.now p))) }
    { first_undone(alloc, session, journal, transcripts, access, p) };
    thread::map_indices(rt, alloc, count, &one)
}

// The same of process `p`'s part, which may be among those.
fn undone_at(
    alloc: Global,
    session: &Session,
    journal: &Journal,
    transcripts: &Transcripts,
    access: &Access,
    undone: &[Undone],
    p: usize,
) -> Undone
    requires session { list_all fits (rows_of session.now) ≡ true }
    requires journal { list_all fits_entry journal.now ≡ true }
    requires access { IsAccess session.now journal.now transcripts.now access.now }
    requires undone { AreUndone session.now journal.now transcripts.now undone.now }
    ensures { IfOk result (IsFirstBad (AreDoneTo session.now journal.now p (part transcripts.now p)) (length (part transcripts.now p))) }
{
    match undone.get(p) {
        Some(found) => *found,
        None => first_undone(alloc, session, journal, transcripts, access, p),
    }
}

/// The first lines that depart from the line rule, and beside them the stores of all parts: the one is found while the other are
/// brought into order, where a thread can be had.
pub(crate) fn undone_and_stores<'a, R: Threads + Sync>(
    rt: &R,
    alloc: Global,
    session: &Session,
    journal: &Journal,
    transcripts: &Transcripts,
    access: &'a Access,
) -> (
    Result<Vec<Undone>, AllocError>,
    Result<Stores<'a>, AllocError>,
)
    requires session { list_all fits (rows_of session.now) ≡ true }
    requires journal { list_all fits_entry journal.now ≡ true }
    requires access { IsAccess session.now journal.now transcripts.now access.now }
    ensures undone { IfOk result.0 (λ all. AreUndone session.now journal.now transcripts.now all.items) }
    ensures stores { IfOk result.1 (λ stores. stores ≡ access.now.deeds.items) }
{
    thread::join(
        rt,
        || -> Result<Vec<Undone>, AllocError>
            requires session { list_all fits (rows_of session.now) ≡ true }
            requires journal { list_all fits_entry journal.now ≡ true }
            requires access { IsAccess session.now journal.now transcripts.now access.now }
            ensures { IfOk result (λ all. AreUndone session.entry.now journal.entry.now transcripts.entry.now all.items) }
        { undone_beside(rt, alloc, session, journal, transcripts, access) },
        || -> Result<Stores, AllocError>
            ensures { IfOk result (λ stores. stores ≡ access.entry.now.deeds.items) }
        { Stores::beside(rt, alloc, &access.deeds) },
    )
}

// Judges the part of process `p`.
fn judge(
    alloc: Global,
    session: &Session,
    journal: &Journal,
    transcripts: &Transcripts,
    access: &Access,
    undone: &[Undone],
    stores: &Stores<'_>,
    p: usize,
) -> Result<Judged, AllocError>
    requires session { list_all fits (rows_of session.now) ≡ true }
    requires journal { list_all fits_entry journal.now ≡ true }
    requires access { IsAccess session.now journal.now transcripts.now access.now }
    requires undone { AreUndone session.now journal.now transcripts.now undone.now }
    requires stores { stores.now ≡ access.now.deeds.items }
    ensures { IfOk result (λ judged. IsJudged session.now journal.now transcripts.now p judged.bad judged.is_named) }
{
    reads_to_law();
    right_to_law();
    let lines = part_of(alloc, transcripts, p)?;
    let naming = first_misnamed(journal, p, &lines);
    let undone = undone_at(alloc, session, journal, transcripts, access, undone, p)?;
    let wrong_read = stores.first_wrong(alloc, p)?;
    let bad = bad_line(
        alloc,
        session,
        journal,
        transcripts,
        access,
        p,
        &lines,
        naming,
        undone,
        wrong_read,
    )?;
    Ok(Judged {
        bad,
        is_named: is_whole(naming),
    })
}

/// The judgements on the parts of the initializer and the session's processes, which are judged side by side, each on a thread
/// of its own where one can be had: its reads too, each against the stores of all.
pub(crate) fn judge_beside<R: Threads + Sync>(
    rt: &R,
    alloc: Global,
    session: &Session,
    journal: &Journal,
    transcripts: &Transcripts,
    access: &Access,
    undone: &[Undone],
    stores: &Stores<'_>,
) -> Result<Vec<Result<Judged, AllocError>>, AllocError>
    requires session { list_all fits (rows_of session.now) ≡ true }
    requires journal { list_all fits_entry journal.now ≡ true }
    requires access { IsAccess session.now journal.now transcripts.now access.now }
    requires undone { AreUndone session.now journal.now transcripts.now undone.now }
    requires stores { stores.now ≡ access.now.deeds.items }
    ensures { IfOk result (λ all. AreJudged session.now journal.now transcripts.now all.items) }
{
    let count = session.principals().items().len() + 1;
    let one = |p: usize| -> Result<Judged, AllocError>
        requires session { list_all fits (rows_of session.now) ≡ true }
        requires journal { list_all fits_entry journal.now ≡ true }
        requires access { IsAccess session.now journal.now transcripts.now access.now }
        requires undone { AreUndone session.now journal.now transcripts.now undone.now }
        requires stores { stores.now ≡ access.now.deeds.items }
        ensures { IfOk result (λ judged. IsJudged session.entry.now journal.entry.now transcripts.entry.now p judged.bad judged.is_named) }
    {
        judge(
            alloc,
            session,
            journal,
            transcripts,
            access,
            undone,
            stores,
            p,
        )
    };
    thread::map_indices(rt, alloc, count, &one)
}

/// The judgement on process `p`'s part, which may be among those made side by side.
pub(crate) fn judged_at(
    alloc: Global,
    session: &Session,
    journal: &Journal,
    transcripts: &Transcripts,
    access: &Access,
    undone: &[Undone],
    stores: &Stores<'_>,
    p: usize,
    beside: &[Result<Judged, AllocError>],
) -> Result<Judged, AllocError>
    requires session { list_all fits (rows_of session.now) ≡ true }
    requires journal { list_all fits_entry journal.now ≡ true }
    requires access { IsAccess session.now journal.now transcripts.now access.now }
    requires undone { AreUndone session.now journal.now transcripts.now undone.now }
    requires stores { stores.now ≡ access.now.deeds.items }
    requires beside { AreJudged session.now journal.now transcripts.now beside.now }
    ensures { IfOk result (λ judged. IsJudged session.now journal.now transcripts.now p judged.bad judged.is_named) }
{
    match beside.get(p) {
        Some(judged) => *judged,
        None => judge(
            alloc,
            session,
            journal,
            transcripts,
            access,
            undone,
            stores,
            p,
        ),
    }
}
