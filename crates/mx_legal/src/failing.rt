//! Where each rule on a part fails first, one rule beside the other.

ghost use Rattle.std.specs.Prelude.{◌≡◌, true, length, IfOk, MatchOption};
ghost use Rattle.std.specs.List.{list_all};
ghost use Rattle.mx_access.specs.Answers.{IsAccess};
ghost use Rattle.mx_legal.specs.Deciding.{AreGoodParts, AreInitialTo, AreOwnReadsTo, place_of};
ghost use Rattle.mx_legal.specs.Fronts.{AreDoneTo, HasNoEarlyFullTo};
ghost use Rattle.mx_points.specs.Fronts.{AreRightMissesTo, ArePointsTo, IsFirstBad, IsNaming};
ghost use Rattle.mx_reads.specs.ReadRule.{AreRightReads};
ghost use Rattle.mx_script.specs.SessionTexts.{fits, rows_of};
ghost use Rattle.mx_spelling.specs.Spelling.{fits_entry};
ghost use Rattle.mx_stores.specs.Breach.{IsBreach as IsWrong};
ghost use Rattle.mx_stores.specs.Known.{IsKnown};
ghost use Rattle.mx_stores.specs.Parts.{deeds_of};
ghost use Rattle.mx_transcript.specs.Legal.{deeds, setup_entries};
ghost use Rattle.mx_transcript.specs.Misses.{IsChanged};
ghost use Rattle.mx_transcript.specs.Transcripts.{part};

use crate::fronts::{first_bad_initial, first_early_full, first_undone, row};
use crate::judging::part_of;
use crate::laws::reads_to_law;
use mx_access::{Access, change_law};
use mx_points::{Line, Naming, first_bad_miss, first_bad_point, first_misnamed};
use mx_script::Session;
use mx_state::Journal;
use mx_stores::Breach as WrongRead;
use mx_transcript::{Transcripts, setup_entries};
use std::alloc::{AllocError, Global};

/// Where each rule on a part fails first: of rules on lines the place of the line, of rules on deeds that of the event among
/// all events of the part. None where the rule holds of the whole part.
#[derive(Debug, Drop)]
pub struct Failing<'a> {
    /// The lines of the part.
    pub lines: Vec<Line<'a>>,
    /// The first line that is not the session's, or departs from the line rule.
    pub line: Option<usize>,
    /// How the lines name the entries of the process.
    pub naming: Naming,
    /// The first line of a setup that found the journal full within its entries, or did not past these.
    pub setup: Option<usize>,
    /// The first line that found the journal full before one that has an entry.
    pub full: Option<usize>,
    /// The first read that the read rule does not allow.
    pub read: Option<usize>,
    /// The first miss that the miss rule does not allow.
    pub miss: Option<usize>,
    /// The first reference whose point the point rule does not allow.
    pub point: Option<usize>,
}

/// Where each rule on process `p`'s part fails first, by the access on which its events stood and the first read of the run
/// that is wrong.
///
/// # Errors
///
/// Want of memory.
pub fn failing_of<'a>(
    alloc: Global,
    session: &Session,
    journal: &Journal,
    transcripts: &'a Transcripts,
    access: &Access,
    p: usize,
    wrong: Option<WrongRead>,
) -> Result<Failing<'a>, AllocError>
    requires session { list_all fits (rows_of session.now) ≡ true }
    requires journal { list_all fits_entry journal.now ≡ true }
    requires access { IsAccess session.now journal.now transcripts.now access.now }
    requires wrong { MatchOption wrong (AreRightReads (deeds_of access.now.deeds.items) (IsKnown (deeds_of access.now.deeds.items)))
        (λ read. IsWrong (deeds_of access.now.deeds.items) read.process read.place) }
    ensures lines { IfOk result (λ failing. failing.lines.items ≡ part transcripts.now p) }
    ensures line { IfOk result (λ failing. IsFirstBad (AreDoneTo session.now journal.now p (part transcripts.now p)) (length (part transcripts.now p)) failing.line) }
    ensures naming { IfOk result (λ failing. IsNaming journal.now p (part transcripts.now p) failing.naming) }
    ensures setup { IfOk result (λ failing. IsFirstBad (AreInitialTo session.now p (part transcripts.now p)) (length (part transcripts.now p)) failing.setup) }
    ensures full { IfOk result (λ failing. IsFirstBad (HasNoEarlyFullTo (part transcripts.now p)) (length (part transcripts.now p)) failing.full) }
    ensures read { AreGoodParts session.now journal.now transcripts.now p
        → IfOk result (λ failing. IsFirstBad (AreOwnReadsTo session.now journal.now transcripts.now p) (length (deeds session.now journal.now transcripts.now p)) failing.read) }
    ensures miss { IfOk result (λ failing. IsFirstBad (AreRightMissesTo journal.now (IsChanged session.now journal.now p) p (deeds session.now journal.now transcripts.now p)) (length (deeds session.now journal.now transcripts.now p)) failing.miss) }
    ensures point { IfOk result (λ failing. IsFirstBad (ArePointsTo (setup_entries session.now) (length journal.now) (deeds session.now journal.now transcripts.now p)) (length (deeds session.now journal.now transcripts.now p)) failing.point) }
{
    let lines = part_of(alloc, transcripts, p)?;
    let line = first_undone(alloc, session, journal, transcripts, access, p)?;
    let naming = first_misnamed(journal, p, &lines);
    let setup = first_bad_initial(session, p, &lines);
    let full = first_early_full(&lines);
    let miss = first_own_miss(alloc, session, journal, transcripts, access, p)?;
    let point = first_own_point(session, journal, transcripts, access, p);
    Ok(Failing {
        lines,
        line,
        naming,
        setup,
        full,
        read: first_own_read(session, journal, transcripts, access, p, wrong),
        miss,
        point,
    })
}

// The place of process `p`'s first miss that the miss rule does not allow.
fn first_own_miss(
    alloc: Global,
    _session: &Session,
    journal: &Journal,
    _transcripts: &Transcripts,
    access: &Access,
    p: usize,
) -> Result<Option<usize>, AllocError>
    requires { IsAccess _session.now journal.now _transcripts.now access.now }
    ensures { IfOk result (IsFirstBad (AreRightMissesTo journal.now (IsChanged _session.now journal.now p) p (deeds _session.now journal.now _transcripts.now p)) (length (deeds _session.now journal.now _transcripts.now p))) }
{
    change_law();
    first_bad_miss(
        alloc,
        journal,
        p,
        row(&access.deeds, p),
        row(&access.changes, p),
    )
}

// The place of process `p`'s first reference whose point the point rule does not allow.
fn first_own_point(
    session: &Session,
    journal: &Journal,
    _transcripts: &Transcripts,
    access: &Access,
    p: usize,
) -> Option<usize>
    requires { IsAccess session.now journal.now _transcripts.now access.now }
    ensures { IsFirstBad (ArePointsTo (setup_entries session.now) (length journal.now) (deeds session.now journal.now _transcripts.now p)) (length (deeds session.now journal.now _transcripts.now p)) result }
{
    first_bad_point(
        setup_entries(session),
        journal.items().len(),
        row(&access.deeds, p),
    )
}

// The place of the first wrong read, where it is process `p`'s.
fn place_of(wrong: Option<WrongRead>, p: usize) -> Option<usize>
    ensures { result ≡ place_of wrong p }
{
    match wrong {
        None => None,
        Some(read) => if read.process == p {
            Some(read.place)
        } else {
            None
        },
    }
}

// The place of process `p`'s first wrong read, where the first of the run is known.
fn first_own_read(
    _session: &Session,
    _journal: &Journal,
    _transcripts: &Transcripts,
    _access: &Access,
    p: usize,
    wrong: Option<WrongRead>,
) -> Option<usize>
    requires access { IsAccess _session.now _journal.now _transcripts.now _access.now }
    requires wrong { MatchOption wrong (AreRightReads (deeds_of _access.now.deeds.items) (IsKnown (deeds_of _access.now.deeds.items)))
        (λ read. IsWrong (deeds_of _access.now.deeds.items) read.process read.place) }
    ensures { AreGoodParts _session.now _journal.now _transcripts.now p
        → IsFirstBad (AreOwnReadsTo _session.now _journal.now _transcripts.now p) (length (deeds _session.now _journal.now _transcripts.now p)) result }
{
    reads_to_law();
    place_of(wrong, p)
}
