//! Runs as far as their lines were read.

ghost use Rattle.std.specs.Prelude.{◌≡◌, ◌≤◌, ◌<◌, ℕ, List, [], length, if◌then◌else◌, IfOk, OnErr, Some, None};
ghost use Rattle.mx_reader.specs.Progress.{Counted, Follows, Nothing, all_counted, count_at, counted_step, finished, headed, heading_at, part_at, progress_at, step};
ghost use Rattle.mx_state.specs.declared.journal.Entry.{Entry as EntryValue};
ghost use Rattle.mx_transcript.specs.Transcripts.{Step};

use crate::cutting::after;
use crate::entries::read_fields;
use crate::events::{cut_end, read_any};
use crate::fields::{read_entry_number, read_process};
use mx_state::Journal;
use mx_transcript::{Recording, Transcripts};
use std::alloc::{AllocError, Global};
use std::marker::Model;
use std::mem::replace;

/// What was read last.
#[derive(Clone, Copy)]
pub(crate) enum Stage {
    /// No line yet.
    Nothing,
    /// The count of the entries, or one of them.
    Counted,
    /// The line that begins a part, or one of the part.
    Within,
    /// The end.
    Ended,
}

/// What a line behind whole parts begins.
#[derive(Clone, Copy)]
pub(crate) enum Heading {
    /// One more part.
    Part,
    /// The end.
    End,
}

/// What the lines read so far say: the count of the entries and the entries; the parts that are whole, and the lines and
/// events so far of the one that is not.
#[derive(Drop)]
pub(crate) struct Draft {
    stage: Stage,
    count: u32,
    journal: Journal,
    transcripts: Transcripts,
    recording: Recording,
    at_work: bool,
}

impl Model for Draft {
    ghost use Rattle.mx_reader.specs.Progress.{IsDraft, Progress, progress_at};

    ghost Value = { Progress };

    ghost view = { λ a. progress_at a.stage a.count a.journal a.transcripts a.recording.steps a.recording.events };

    ghost invariant = { λ a. IsDraft a.count a.at_work a.recording.events };
}

impl Draft {
    /// No line yet.
    pub(crate) fn new(alloc: Global) -> Result<Draft, AllocError>
        ensures { IfOk result (λ draft. draft ≡ Nothing) }
    {
        Ok(Draft {
            stage: Stage::Nothing,
            count: 0,
            journal: Journal::new(alloc),
            transcripts: Transcripts::new(alloc),
            recording: Recording::with_room(alloc, 0)?,
            at_work: false,
        })
    }

    /// Goes on with one more line, `false` where the line cannot stand there. Then, and for want of memory, the draft is
    /// of no use any more.
    pub(crate) fn read(&mut self, alloc: Global, line: &[u8]) -> Result<bool, AllocError>
        ensures { IfOk result (λ goes. (if goes then Some self.new else None) ≡ step self.old line.now) }
    {
        match self.stage {
            Stage::Nothing => {
                let Some(count) = read_count(line) else {
                    return Ok(false);
                };
                self.stage = Stage::Counted;
                self.count = count;
                self.journal = Journal::new(alloc);
                Ok(true)
            }
            Stage::Counted => {
                if self.journal.items().len() < self.count as usize {
                    return add_entry(alloc, self.count, &mut self.journal, line);
                }
                let Some(heading) = read_heading(0, line) else {
                    return Ok(false);
                };
                self.transcripts = Transcripts::new(alloc);
                self.recording = Recording::with_room(alloc, 0)?;
                self.at_work = false;
                self.stage = stage_of(heading);
                Ok(true)
            }
            Stage::Within => {
                if let Some(at_work) = add_line(&mut self.recording, line)? {
                    self.at_work = at_work;
                    return Ok(true);
                }
                if self.at_work {
                    return Ok(false);
                }
                let Some(heading) = read_heading(self.transcripts.items().len() + 1, line) else {
                    return Ok(false);
                };
                // the next part mostly has about as many lines; a longer list moves without a copy
                let lines = self.recording.lines().min(2048);
                let room = Recording::with_room(alloc, lines)?;
                let recording = replace(&mut self.recording, room);
                self.transcripts.push(recording.finish())?;
                self.stage = stage_of(heading);
                Ok(true)
            }
            Stage::Ended => Ok(false),
        }
    }

    /// The run, `None` where the text has not ended or something follows.
    pub(crate) fn finish(self, rest: &[u8]) -> Option<(Journal, Transcripts)>
        ensures { result ≡ finished self rest.now }
    {
        match self.stage {
            Stage::Ended => {
                if rest.is_empty() {
                    Some((self.journal, self.transcripts))
                } else {
                    None
                }
            }
            Stage::Nothing | Stage::Counted | Stage::Within => None,
        }
    }

    /// The journal, where its entries were read, as many as were counted, and nothing behind them; `None` where something
    /// follows.
    pub(crate) fn counted(self, rest: &[u8]) -> Option<Journal>
        ensures { result ≡ all_counted self rest.now }
    {
        match self.stage {
            Stage::Counted => {
                if rest.is_empty() && self.journal.items().len() == self.count as usize {
                    Some(self.journal)
                } else {
                    None
                }
            }
            Stage::Nothing | Stage::Within | Stage::Ended => None,
        }
    }
}

// The stage behind a heading.
fn stage_of(heading: Heading) -> Stage
    ensures { (journal : List EntryValue) (parts : List (List Step)) (count : ℕ)
        → progress_at result count journal parts [] [] ≡ headed journal parts heading }
{
    match heading {
        Heading::Part => Stage::Within,
        Heading::End => Stage::Ended,
    }
}

// One more entry, of as many.
fn add_entry(
    alloc: Global,
    count: u32,
    journal: &mut Journal,
    line: &[u8],
) -> Result<bool, AllocError>
    requires room { length journal.old < count }
    requires few { count ≤ 262143 }
    ensures { IfOk result (λ goes. (if goes then Some (Counted count journal.new) else None) ≡ counted_step count journal.old line.now) }
{
    let number = journal.items().len() as u32 + 1;
    let Some(entry) = read_fields(alloc, number, line)? else {
        return Ok(false);
    };
    journal.push(entry)?;
    Ok(true)
}

/// One more event, or the end of the line at work: whether a line is at work then. `None` where the line is neither.
#[tactic(auto, using(crate::proofs::HeadLaws::end_first))]
pub(crate) fn add_line(recording: &mut Recording, line: &[u8]) -> Result<Option<bool>, AllocError>
    ensures goes { IfOk result (λ went. Follows recording.old line.now recording.new went) }
    ensures still { OnErr result (recording.new.events ≡ recording.old.events) }
{
    if let Some((number, ends)) = cut_end(line) {
        recording.reserve()?;
        recording.end_line(number, ends);
        return Ok(Some(false));
    }
    if let Some(event) = read_any(line) {
        recording.reserve()?;
        recording.push(event);
        return Ok(Some(true));
    }
    Ok(None)
}

// `journal COUNT`
fn read_count(line: &[u8]) -> Option<u32>
    ensures { result ≡ count_at line.now }
{
    read_entry_number(after(b"journal ", line)?)
}

// The end, or the line that begins the part of this number.
fn read_heading(number: usize, line: &[u8]) -> Option<Heading>
    ensures { result ≡ heading_at number line.now }
{
    if line == b"end".as_slice() {
        Some(Heading::End)
    } else {
        read_part(number, line)?;
        Some(Heading::Part)
    }
}

/// `process P`
pub(crate) fn read_part(number: usize, line: &[u8]) -> Option<u8>
    ensures { result ≡ part_at number line.now }
{
    let p = read_process(after(b"process ", line)?)?;
    if usize::from(p) == number {
        Some(p)
    } else {
        None
    }
}
