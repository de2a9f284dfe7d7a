//! A run, told in the order in which it can have happened.

ghost use Rattle.std.specs.Prelude.{◌≡◌, ◌≤◌, ◌++◌, OnOk, IfOk, IsErrOf};
ghost use Rattle.mx_io.specs.Faults.{Rose};
ghost use Rattle.mx_transcript.specs.Legal.{IsLegal};
ghost use Rattle.mx_show.specs.StoryPrinting.{GainsStory, PrintsSome};

use crate::chronicles::Chronicle;
use crate::errors::ShowError;
use crate::lines::{add_opening, send_when_long};
use crate::narrators::Narrator;
use crate::notes::Notes;
use crate::telling::Teller;
use mx_io::{Sink, write_all};
use mx_judging::{Accesses, Course, Turn, courses_of, in_time, judge_all};
use mx_script::Session;
use mx_state::Journal;
use mx_transcript::{Transcript, Transcripts};
use std::alloc::{AllocError, Global};

/// Tells a legal run of a session in time, entry by entry of its journal: the lines of the setup, and then those of all processes in
/// one order in which they can have happened, with a heading where the process changes. Each line stands as the session spells it,
/// with what it came to, and behind each entry whose access it changed. A line of which something came before an entry that others
/// made stands there, and is told to go on behind it; one that found the journal full ends behind its last entry. A reference stands behind the entry that its printed point names and before the
/// next one; one that reads a store of a later point, behind that store's. At one point a read stands behind the store that it
/// names, as far as the lines of each process leave that open: of those moments that wait for no store to come those that store nothing
/// come first, and of these that of the first process. Where each waits for one, the first process goes on. On an error a part was
/// sent: `Fault` where the sink failed, `Memory` where memory was wanting. Takes time linear in the run, but for the sorting of its
/// references by their points. About 32 KiB are held between two moments, for each reference its access, for each event its place, and
/// for each refusal what stands behind it.
pub fn show_story<K: Sink>(
    alloc: Global,
    session: &Session,
    journal: &Journal,
    transcripts: &Transcripts,
    sink: &mut K,
) -> Result<(), ShowError>
    requires legal { IsLegal session.now journal.now transcripts.now }
    ensures told { OnOk result (GainsStory session.now journal.now (K.out sink.old) (K.out sink.new)) }
    ensures cause { IsErrOf result ShowError.Fault → Rose (K.faults sink.old) (K.faults sink.new) }
    ensures only { (IsErrOf result ShowError.Fault → ⊥) → K.faults sink.new ≡ K.faults sink.old }
    ensures later { K.faults sink.old ≤ K.faults sink.new }
{
    let accesses = judge_all(alloc, session, journal, transcripts)?;
    let notes = Notes::new(alloc, session, journal)?;
    let entrants = session.principals().items();
    let parts = transcripts.items();
    let courses = courses_of(
        alloc,
        session,
        parts,
        accesses.judged.as_slice(),
        journal.items().len(),
    )?;
    let turns = in_time(alloc, courses.as_slice())?;
    let mut out = Vec::new(alloc);
    add_opening(&mut out, entrants.len(), journal.items().len())?;
    let mut story = Story {
        narrators: narrators_of(alloc, session, journal, parts, &accesses, &notes)?,
        chronicle: Chronicle::new(journal, &accesses, &notes),
        courses: courses.as_slice(),
        last: 0,
    };
    print_turns(alloc, &mut story, turns.as_slice(), &mut out, sink)?;
    write_all(sink, &out)?;
    Ok(())
}

// Tells the moments in their turns.
fn print_turns<K: Sink>(
    alloc: Global,
    story: &mut Story,
    turns: &[Turn],
    out: &mut Vec<u8>,
    sink: &mut K,
) -> Result<(), ShowError>
    ensures printed { OnOk result (PrintsSome (K.out sink.old) (K.out sink.new) out.old.items out.new.items) }
    ensures cause { IsErrOf result ShowError.Fault → Rose (K.faults sink.old) (K.faults sink.new) }
    ensures only { (IsErrOf result ShowError.Fault → ⊥) → K.faults sink.new ≡ K.faults sink.old }
    ensures later { K.faults sink.old ≤ K.faults sink.new }
{
    for turn in turns {
        let told = story.told(alloc, turn)?;
        out.extend_from_slice(&told)?;
        send_when_long(out, sink)?;
    }
    Ok(())
}

// Who tells of each process, the courses of all, and whose moment was told last.
#[derive(Drop)]
struct Story<'a> {
    narrators: Vec<Narrator<'a>>,
    chronicle: Chronicle<'a>,
    courses: &'a [Course],
    last: usize,
}

impl<'a> Story<'a> {
    // What is told of a moment, under a heading where it is of another process than the last one.
    fn told(&mut self, alloc: Global, turn: &Turn) -> Result<Vec<u8>, AllocError> {
        let mut out = Vec::new(alloc);
        let Some(course) = self.courses.get(turn.process) else {
            return Ok(out);
        };
        let Some(moment) = course.moments.get(turn.place) else {
            return Ok(out);
        };
        let Some(narrator) = self.narrators.get_mut(turn.process) else {
            return Ok(out);
        };
        let is_same = turn.process == self.last;
        if !is_same {
            narrator.add_heading(&mut out)?;
        }
        let until = course.goes_on(turn.place);
        let chronicle = &mut self.chronicle;
        narrator.add_moment(alloc, &mut out, moment, until, is_same, chronicle)?;
        self.last = turn.process;
        Ok(out)
    }
}

// Who tells of each process, from the initializer on.
fn narrators_of<'a>(
    alloc: Global,
    session: &'a Session,
    journal: &'a Journal,
    transcripts: &'a [Transcript],
    accesses: &'a Accesses,
    notes: &'a Notes,
) -> Result<Vec<Narrator<'a>>, AllocError> {
    let mut narrators = Vec::new(alloc);
    let mut process = 0u8;
    for transcript in transcripts {
        let teller = Teller::new(alloc, journal, accesses, notes, process);
        narrators.push(Narrator::new(session, process, transcript, teller))?;
        process = process.saturating_add(1);
    }
    Ok(narrators)
}
