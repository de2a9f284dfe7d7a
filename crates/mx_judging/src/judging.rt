//! All references of a run with the access that each was judged on.

ghost use Rattle.std.specs.Prelude.{◌≡◌, ◌+◌, [], ◌∷◌, ◌++◌, length, map, All, IfOk, IsPermutation, OnOk};
ghost use Rattle.std.specs.Ordering.{nat_cmp};
ghost use Rattle.std.specs.List.Sorted.{IsNonDecreasingBy, IsStableByKey};
ghost use Rattle.mx_transcript.specs.Legal.{IsLegal};
ghost use Rattle.mx_transcript.specs.Opened.{opening_of};
ghost use Rattle.mx_transcript.specs.Transcripts.{events_of};
ghost use Rattle.mx_state.specs.History.{IsRight};
ghost use Rattle.mx_judging.specs.Judging.{AreAccesses};
ghost use Rattle.mx_judging.specs.References.{AreReferences, IsOfProcess, own_references, reference_of, references_in};
ghost use Rattle.mx_judging.specs.Replays.{IsSameJournal};

use crate::replays::{Changed, Judged, Replay};
use mx_script::Session;
use mx_state::{Entry, Journal};
use mx_transcript::{Element, Event, Event2, Transcript, Transcripts};
use std::alloc::{AllocError, Global};

/// The ring in which a process begins.
pub const FIRST_RING: u8 = 4;

/// The references of a run in the order of their points, those of one process in its own order, and the descriptors that
/// the journal's entries changed.
#[derive(Drop)]
pub struct Accesses {
    pub judged: Vec<Judged>,
    pub changed: Vec<Changed>,
}

/// The references of a legal run, each once and those of a process in its order, with the access that each was judged on: the
/// descriptor at its point. The journal is run once, so this takes time linear in the run, but for the sorting of the
/// references by their points.
pub fn judge_all(
    alloc: Global,
    session: &Session,
    journal: &Journal,
    transcripts: &Transcripts,
) -> Result<Accesses, AllocError>
    requires { IsLegal session.now journal.now transcripts.now }
    ensures accesses { IfOk result (λ a. AreAccesses session.now journal.now a.judged.items) }
    ensures references { IfOk result (λ a. AreReferences transcripts.now a.judged.items) }
{
    let references = sorted_references(alloc, session, transcripts.items())?;
    let mut judged = Vec::with_capacity(alloc, references.len())?;
    let changed = judge_each(alloc, session, journal.items(), &references, &mut judged)?;
    Ok(Accesses { judged, changed })
}

// Runs the journal once, adds each of the references with its access, and answers what the entries changed.
fn judge_each(
    alloc: Global,
    session: &Session,
    journal: &[Entry],
    references: &[(u8, Element)],
    judged: &mut Vec<Judged>,
) -> Result<Vec<Changed>, AllocError>
    requires right { IsRight (opening_of session.now) journal.now }
    requires processes { All (IsOfProcess (length session.now.principals)) references.now }
    requires judged { AreAccesses session.now journal.now judged.old.items }
    ensures accesses { IfOk result (λ changed. AreAccesses session.now journal.now judged.new.items) }
    ensures references { IfOk result (λ changed. map reference_of judged.new.items ≡ map reference_of judged.old.items ++ references.now) }
{
    let mut replay = Replay::new(alloc, session, journal)?;
    let added = add_all_judged(alloc, &mut replay, references, judged);
    let changed = replay.into_changed();
    added?;
    Ok(changed)
}

// Adds references, and goes through the rest of the journal.
fn add_all_judged(
    alloc: Global,
    replay: &mut Replay,
    references: &[(u8, Element)],
    judged: &mut Vec<Judged>,
) -> Result<(), AllocError>
    requires processes { All (IsOfProcess (length replay.old.session.principals)) references.now }
    requires judged { AreAccesses replay.old.session replay.old.journal judged.old.items }
    ensures accesses { OnOk result (AreAccesses replay.old.session replay.old.journal judged.new.items) }
    ensures references { OnOk result (map reference_of judged.new.items ≡ map reference_of judged.old.items ++ references.now) }
{
    for (process, element) in references {
        add_judged(alloc, replay, judged, *process, *element)?;
    }
    replay.finish(alloc)
}

// Adds a reference of one of the processes with its access.
fn add_judged(
    alloc: Global,
    replay: &mut Replay,
    judged: &mut Vec<Judged>,
    process: u8,
    element: Element,
) -> Result<(), AllocError>
    requires process { IsOfProcess (length replay.old.session.principals) (process, element) }
    requires judged { AreAccesses replay.old.session replay.old.journal judged.old.items }
    ensures same { OnOk result (IsSameJournal replay.old replay.new) }
    ensures accesses { OnOk result (AreAccesses replay.old.session replay.old.journal judged.new.items) }
    ensures reference { OnOk result (map reference_of judged.new.items ≡ map reference_of judged.old.items ++ (process, element) ∷ []) }
{
    let access = replay.judged(alloc, process, element)?;
    judged.extend_from_slice(&[access])
}

// The references of all processes, each with its process, in the order of their points; those of one point as they were found.
fn sorted_references(
    alloc: Global,
    session: &Session,
    transcripts: &[Transcript],
) -> Result<Vec<(u8, Element)>, AllocError>
    requires { length transcripts.now ≡ 1 + length session.now.principals }
    ensures all { IfOk result (λ found. IsPermutation (references_in transcripts.now) found.items) }
    ensures sorted { IfOk result (λ found. IsNonDecreasingBy (λ r. r.1.point) found.items) }
    ensures stable { IfOk result (λ found. IsStableByKey (λ r. r.1.point) nat_cmp (references_in transcripts.now) found.items) }
{
    let mut found = Vec::new(alloc);
    add_all_references(session, transcripts, &mut found)?;
    found.sort_by_key(|reference| reference.1.point)?;
    Ok(found)
}

// Adds the references of each process, from 1: the transcript of the setup, which makes none, comes before theirs.
fn add_all_references(
    session: &Session,
    transcripts: &[Transcript],
    found: &mut Vec<(u8, Element)>,
) -> Result<(), AllocError>
    requires { length transcripts.now ≡ 1 + length session.now.principals }
    ensures { OnOk result (found.new.items ≡ found.old.items ++ references_in transcripts.now) }
{
    let entrants = session.principals().items();
    for i in 0..entrants.len() {
        add_own_references(i as u8 + 1, &transcripts[i + 1], found)?;
    }
    Ok(())
}

// Adds the references of a process.
fn add_own_references(
    process: u8,
    transcript: &Transcript,
    found: &mut Vec<(u8, Element)>,
) -> Result<(), AllocError>
    ensures { OnOk result (found.new.items ≡ found.old.items ++ own_references process (events_of transcript.now)) }
{
    for (_, events, _) in transcript.steps() {
        add_references(process, events, found)?;
    }
    Ok(())
}

fn add_references(
    process: u8,
    events: &[Event2],
    found: &mut Vec<(u8, Element)>,
) -> Result<(), AllocError>
    ensures { OnOk result (found.new.items ≡ found.old.items ++ own_references process events.now) }
{
    for event in events {
        add_reference(process, event, found)?;
    }
    Ok(())
}

fn add_reference(
    process: u8,
    event: &Event2,
    found: &mut Vec<(u8, Element)>,
) -> Result<(), AllocError>
    ensures { OnOk result (found.new.items ≡ found.old.items ++ own_references process (event.now ∷ [])) }
{
    match event {
        Event2::Core(Event::Seen(element)) => found.extend_from_slice(&[(process, *element)]),
        Event2::Core(Event::Missing { .. }) | Event2::Entry(_) => Ok(()),
    }
}
