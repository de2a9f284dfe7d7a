//! How far a part keeps the rules: the first of its lines that does not.

ghost use Rattle.std.specs.Prelude.{◌≡◌, ◌↔◌, [], true, length, slice_index_or, IfOk, IsTrue, MatchOption};
ghost use Rattle.std.specs.List.{list_all};
ghost use Rattle.mx_access.specs.Answers.{IsAccess};
ghost use Rattle.mx_legal.specs.Breach.{IsBadLine};
ghost use Rattle.mx_legal.specs.Deciding.{AreInitialTo, AreOwnReadsTo, AreRightDeedsTo, AreRightLinesTo, HasNoEntryFrom, HasNoFullTo, IsEnteredFrom, IsFirstFull, IsLineOfEvent, is_whole, misnamed};
ghost use Rattle.mx_legal.specs.Fronts.{AreDoneTo, HasNoEarlyFullTo, IsGoodPart, IsGoodTo};
ghost use Rattle.mx_points.specs.Fronts.{IsFirstBad, IsNaming};
ghost use Rattle.mx_script.specs.SessionTexts.{fits, rows_of};
ghost use Rattle.mx_spelling.specs.Spelling.{fits_entry};
ghost use Rattle.mx_transcript.specs.Legal.{deeds};
ghost use Rattle.mx_transcript.specs.Transcripts.{entries_named, part};
ghost use Rattle.mx_transcript.specs.declared.transcripts.Result2.TheVariants.{HistoryFull};

use crate::blame::is_over;
use crate::laws::front_law;
use crate::places::earlier;
use mx_access::{Access, change_law};
use mx_list::Sequence;
use mx_parts::first_bad_line;
use mx_points::{Line, Naming, first_bad_miss, first_bad_point, first_bad_setup, line_of_event};
use mx_script::Session;
use mx_state::Journal;
use mx_transcript::{Event2, Result2, Transcripts, setup_entries};
use std::alloc::{AllocError, Global};

/// The row of process `p`, empty beyond the last.
pub(crate) fn row<T>(rows: &[Sequence<T>], p: usize) -> &[T]
    ensures { result.now ≡ slice_index_or rows.now p [] }
{
    match rows.get(p) {
        None => &[],
        Some(row) => row.items(),
    }
}

// The place of the first of process `p`'s deeds that is wrong, where that of its first wrong read is known.
fn first_bad_deed(
    alloc: Global,
    session: &Session,
    journal: &Journal,
    transcripts: &Transcripts,
    access: &Access,
    p: usize,
    wrong_read: Option<usize>,
) -> Result<Option<usize>, AllocError>
    requires access { IsAccess session.now journal.now transcripts.now access.now }
    requires reads { IsFirstBad (AreOwnReadsTo session.now journal.now transcripts.now p) (length (deeds session.now journal.now transcripts.now p)) wrong_read }
    ensures { IfOk result (IsFirstBad (AreRightDeedsTo session.now journal.now transcripts.now p) (length (deeds session.now journal.now transcripts.now p))) }
{
    change_law();
    let own = row(&access.deeds, p);
    let miss = first_bad_miss(alloc, journal, p, own, row(&access.changes, p))?;
    let point = first_bad_point(setup_entries(session), journal.items().len(), own);
    Ok(earlier(wrong_read, earlier(miss, point)))
}

/// The place of process `p`'s first line that is not the session's line there, or departs from the line rule.
pub(crate) fn first_undone(
    alloc: Global,
    session: &Session,
    journal: &Journal,
    transcripts: &Transcripts,
    access: &Access,
    p: usize,
) -> Result<Option<usize>, AllocError>
    requires session { list_all fits (rows_of session.now) ≡ true }
    requires journal { list_all fits_entry journal.now ≡ true }
    requires access { IsAccess session.now journal.now transcripts.now access.now }
    ensures { IfOk result (IsFirstBad (AreDoneTo session.now journal.now p (part transcripts.now p)) (length (part transcripts.now p))) }
{
    match transcripts.items().get(p) {
        None => Ok(None),
        Some(transcript) => {
            first_bad_line(
                alloc,
                session,
                journal,
                p,
                transcript,
                row(&access.descriptors, p),
            )
        },
    }
}

// Whether events name no entry.
fn names_none(events: &[Event2]) -> bool
    ensures { IsTrue result ↔ (entries_named events.now ≡ []) }
{
    for event in events {
        if let Event2::Entry(_) = event {
            return false;
        }
    }
    true
}

fn is_full(line: &Line<'_>) -> bool
    ensures { IsTrue result ↔ (line.now.2 ≡ HistoryFull) }
{
    matches!(&line.ends, Result2::HistoryFull)
}

// The place of the first line that found the journal full.
fn first_full(lines: &[Line<'_>]) -> Option<usize>
    ensures { MatchOption result (HasNoFullTo lines.now (length lines.now)) (IsFirstFull lines.now) }
{
    for place in 0..lines.len() {
        if is_full(&lines[place]) {
            return Some(place);
        }
    }
    None
}

// The place of the first line from a place on that has an entry.
fn first_entered(lines: &[Line<'_>], from: usize) -> Option<usize>
    ensures { MatchOption result (HasNoEntryFrom lines.now from (length lines.now)) (IsEnteredFrom lines.now from) }
{
    for place in from..lines.len() {
        let line = &lines[place];
        if !names_none(line.events) {
            return Some(place);
        }
    }
    None
}

/// The place of the first line that found the journal full before a line that has an entry.
#[tactic(auto, using(crate::proofs::EarlyLaws::no_early, crate::proofs::EarlyLaws::no_entry_after, crate::proofs::EarlyLaws::early))]
pub(crate) fn first_early_full(lines: &[Line<'_>]) -> Option<usize>
    ensures { IsFirstBad (HasNoEarlyFullTo lines.now) (length lines.now) result }
{
    match first_full(lines) {
        None => None,
        Some(full) => match first_entered(lines, full + 1) {
            None => None,
            Some(_) => Some(full),
        },
    }
}

/// The place of the first line of the initializer that is not as it should be in a setup.
pub(crate) fn first_bad_initial(session: &Session, p: usize, lines: &[Line<'_>]) -> Option<usize>
    ensures { IsFirstBad (AreInitialTo session.now p lines.now) (length lines.now) result }
{
    if p == 0 {
        first_bad_setup(setup_entries(session), lines)
    } else {
        None
    }
}

fn misnamed(naming: Naming) -> Option<usize>
    ensures { result ≡ misnamed naming }
{
    match naming {
        Naming::Whole | Naming::Short => None,
        Naming::Misnamed(place) => Some(place),
    }
}

// The place of the first line that breaks a rule on lines, where it is known which departs from the line rule, and how the lines
// name entries.
fn first_bad_step(
    session: &Session,
    _journal: &Journal,
    _transcripts: &Transcripts,
    p: usize,
    lines: &[Line<'_>],
    naming: Naming,
    undone: Option<usize>,
) -> Option<usize>
    requires lines { lines.now ≡ part _transcripts.now p }
    requires naming { IsNaming _journal.now p lines.now naming }
    requires undone { IsFirstBad (AreDoneTo session.now _journal.now p (part _transcripts.now p)) (length (part _transcripts.now p)) undone }
    ensures { IsFirstBad (AreRightLinesTo session.now _journal.now p lines.now) (length lines.now) result }
{
    let initial = first_bad_initial(session, p, lines);
    let full = first_early_full(lines);
    earlier(earlier(undone, misnamed(naming)), earlier(initial, full))
}

/// Whether the lines name all entries of their process.
pub(crate) fn is_whole(naming: Naming) -> bool
    ensures { result ≡ is_whole naming }
{
    match naming {
        Naming::Whole => true,
        Naming::Short | Naming::Misnamed(_) => false,
    }
}

// The place of the line of an event.
fn line_of(lines: &[Line<'_>], event: Option<usize>) -> Option<usize>
    ensures { IsLineOfEvent lines.now event result }
{
    match event {
        None => None,
        Some(place) => Some(line_of_event(lines, place)),
    }
}

/// The place of the first bad line of process `p`'s part, which may be missing; none where the part keeps all rules. It is
/// known which line departs from the line rule first, where the process's first wrong read is, and how its lines name entries.
pub(crate) fn bad_line(
    alloc: Global,
    session: &Session,
    journal: &Journal,
    transcripts: &Transcripts,
    access: &Access,
    p: usize,
    lines: &[Line<'_>],
    naming: Naming,
    undone: Option<usize>,
    wrong_read: Option<usize>,
) -> Result<Option<usize>, AllocError>
    requires session { list_all fits (rows_of session.now) ≡ true }
    requires journal { list_all fits_entry journal.now ≡ true }
    requires access { IsAccess session.now journal.now transcripts.now access.now }
    requires lines { lines.now ≡ part transcripts.now p }
    requires naming { IsNaming journal.now p lines.now naming }
    requires undone { IsFirstBad (AreDoneTo session.now journal.now p (part transcripts.now p)) (length (part transcripts.now p)) undone }
    requires reads { IsFirstBad (AreOwnReadsTo session.now journal.now transcripts.now p) (length (deeds session.now journal.now transcripts.now p)) wrong_read }
    ensures { IfOk result (λ found. MatchOption found (IsGoodPart session.now journal.now transcripts.now p) (IsBadLine session.now journal.now transcripts.now p)) }
{
    let place = first_bad(
        alloc,
        session,
        journal,
        transcripts,
        access,
        p,
        lines,
        naming,
        undone,
        wrong_read,
    )?;
    Ok(or_missing(session, journal, transcripts, p, lines, place))
}

// The place of the first printed line of process `p` that breaks a rule.
fn first_bad(
    alloc: Global,
    session: &Session,
    journal: &Journal,
    transcripts: &Transcripts,
    access: &Access,
    p: usize,
    lines: &[Line<'_>],
    naming: Naming,
    undone: Option<usize>,
    wrong_read: Option<usize>,
) -> Result<Option<usize>, AllocError>
    requires session { list_all fits (rows_of session.now) ≡ true }
    requires journal { list_all fits_entry journal.now ≡ true }
    requires access { IsAccess session.now journal.now transcripts.now access.now }
    requires lines { lines.now ≡ part transcripts.now p }
    requires naming { IsNaming journal.now p lines.now naming }
    requires undone { IsFirstBad (AreDoneTo session.now journal.now p (part transcripts.now p)) (length (part transcripts.now p)) undone }
    requires reads { IsFirstBad (AreOwnReadsTo session.now journal.now transcripts.now p) (length (deeds session.now journal.now transcripts.now p)) wrong_read }
    ensures { IfOk result (IsFirstBad (IsGoodTo session.now journal.now transcripts.now p) (length lines.now)) }
{
    let step = first_bad_step(session, journal, transcripts, p, lines, naming, undone);
    let deed = first_bad_deed(alloc, session, journal, transcripts, access, p, wrong_read)?;
    Ok(earlier(step, line_of(lines, deed)))
}

// The bad line, where it is known which of the printed lines is, if any: else one may be missing, or the session has no such
// process.
fn or_missing(
    session: &Session,
    journal: &Journal,
    transcripts: &Transcripts,
    p: usize,
    lines: &[Line<'_>],
    bad: Option<usize>,
) -> Option<usize>
    requires lines { lines.now ≡ part transcripts.now p }
    requires bad { IsFirstBad (IsGoodTo session.now journal.now transcripts.now p) (length lines.now) bad }
    ensures { MatchOption result (IsGoodPart session.now journal.now transcripts.now p) (IsBadLine session.now journal.now transcripts.now p) }
{
    front_law();
    match bad {
        Some(place) => Some(place),
        None => {
            let processes = session.principals().items().len();
            if p > processes {
                return Some(lines.len());
            }
            if is_over(session, p, lines) {
                None
            } else {
                Some(lines.len())
            }
        },
    }
}
