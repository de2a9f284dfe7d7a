//! Whether a run is legal, and where it is not.

ghost use Rattle.std.specs.Prelude.{◌≡◌, true, length, IfOk, MatchOption};
ghost use Rattle.std.specs.List.{list_all};
ghost use Rattle.mx_legal.specs.Breach.{IsBreach};
ghost use Rattle.mx_legal.specs.Entries.{AreGoodTo, AreOfProcessesTo};
ghost use Rattle.mx_script.specs.SessionTexts.{fits, rows_of};
ghost use Rattle.mx_spelling.specs.Spelling.{fits_entry};
ghost use Rattle.mx_transcript.specs.Legal.{IsLegal};

use crate::blame::blamed;
use crate::entries::first_bad_entry;
use crate::judging::{judge_beside, judged_at, or_unnamed, part_of, undone_and_stores};
use crate::laws::{good_entries_law, legal_law};
use crate::places::parts_in;
use mx_access::access_of;
use mx_fresh::PlainSupervisor;
use mx_script::Session;
use mx_state::Journal;
use mx_transcript::Transcripts;
use std::alloc::{AllocError, Global};
use std::thread::Threads;

/// The first place at which a printed run is no legal run of its session.
#[derive(Clone, Copy, Debug, PartialEq, Eq)]
pub struct Breach {
    /// The process whose entry or line is bad, or whose entry no line names.
    pub process: usize,
    /// The number of the bad line in the session text: of the next line of the process there, which may be missing; of its last
    /// line where that was printed before, or where it is printed here behind a line that was denied; 0 for an entry, and where
    /// the session has no line of the process.
    pub line: u32,
}

/// Whether a run is a legal one of a session: None where it is, and else its first breach. That is the first bad entry of the
/// journal, if there is one; else the first bad line, in the order of processes and then of lines; else the first process with
/// an entry that its lines do not name. The session and the journal are such as texts can say. The parts of the session's
/// processes are judged side by side, each with its reads on a thread of its own where one can be had; the answer does not
/// hang on it.
///
/// # Errors
///
/// Want of memory.
pub fn legal<S: PlainSupervisor, R: Threads + Sync>(
    rt: &R,
    alloc: Global,
    session: &Session,
    journal: &Journal,
    transcripts: &Transcripts,
) -> Result<Option<Breach>, AllocError>
    requires session { list_all fits (rows_of session.now) ≡ true }
    requires journal { list_all fits_entry journal.now ≡ true }
    ensures { IfOk result (λ found. MatchOption found (IsLegal session.now journal.now transcripts.now) (λ breach. IsBreach session.now journal.now transcripts.now breach.process breach.line)) }
{
    match first_bad_entry::<S>(alloc, session, journal)? {
        Some(place) => Ok(Some(Breach {
            process: usize::from(journal.items()[place].process),
            line: 0,
        })),
        None => legal_lines::<S, R>(rt, alloc, session, journal, transcripts),
    }
}

// The same, where all entries are good.
fn legal_lines<S: PlainSupervisor, R: Threads + Sync>(
    rt: &R,
    alloc: Global,
    session: &Session,
    journal: &Journal,
    transcripts: &Transcripts,
) -> Result<Option<Breach>, AllocError>
    requires session { list_all fits (rows_of session.now) ≡ true }
    requires journal { list_all fits_entry journal.now ≡ true }
    requires entries { AreGoodTo session.now journal.now (length journal.now) }
    requires makers { AreOfProcessesTo session.now journal.now (length journal.now) }
    ensures { IfOk result (λ found. MatchOption found (IsLegal session.now journal.now transcripts.now) (λ breach. IsBreach session.now journal.now transcripts.now breach.process breach.line)) }
{
    good_entries_law();
    legal_law();
    let _scripts = session.scripts();
    let access = access_of::<S, R>(rt, alloc, session, journal, transcripts)?;
    let (undone, stores) = undone_and_stores(rt, alloc, session, journal, transcripts, &access);
    let undone = undone?;
    let stores = stores?;
    let all = judge_beside(
        rt,
        alloc,
        session,
        journal,
        transcripts,
        &access,
        &undone,
        &stores,
    )?;
    let beside = all.as_slice();
    let mut unnamed = None;
    for p in 0..parts_in(session, transcripts) {
        let judged = judged_at(
            alloc,
            session,
            journal,
            transcripts,
            &access,
            &undone,
            &stores,
            p,
            beside,
        )?;
        if let Some(place) = judged.bad {
            let lines = part_of(alloc, transcripts, p)?;
            return Ok(Some(Breach {
                process: p,
                line: blamed(session, p, &lines, place),
            }));
        }
        unnamed = or_unnamed(unnamed, p, judged.is_named);
    }
    match unnamed {
        None => Ok(None),
        Some(process) => Ok(Some(Breach { process, line: 0 })),
    }
}
