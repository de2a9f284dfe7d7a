//! The plain supervisor goes through a journal, and is asked on the way.

ghost use Rattle.std.specs.Prelude.{◌≡◌, ◌+◌, ◌^◌, ◌-◌, ◌≤◌, ◌<◌, length, IfOk, IfSome, OnOk, slice_index_or, slice_set};
ghost use Rattle.mx_access.specs.Passing.{AreNoted, AreTold, IsAsked, IsAskedTo, IsAt, IsToldAt, told_by};
ghost use Rattle.std.specs.List.Sorted.{IsNonDecreasingBy};
ghost use Rattle.mx_access.specs.Questions.{AreTurnsOf, asked_of};
ghost use Rattle.mx_core.specs.Pages.{cell_at, page_of};
ghost use Rattle.mx_pages.specs.Runs.{IsPageRun, page_count};
ghost use Rattle.mx_state.specs.History.{IsRight};
ghost use Rattle.mx_state.specs.Table.{descriptor};
ghost use Rattle.mx_transcript.specs.Opened.{opening_of};

use crate::questions::{Told, Turn};
use mx_fresh::PlainSupervisor;
use mx_pages::PageRun;
use mx_script::Session;
use mx_sdw::Desc;
use mx_state::Entry;
use mx_transcript::Transcript;
use std::alloc::{AllocError, Global};

/// How many pages memory has.
const PAGES: usize = 1024;

/// The descriptor that was asked for last.
#[derive(Clone, Copy)]
pub(crate) struct Asked {
    pub(crate) process: usize,
    pub(crate) segno: u16,
    pub(crate) desc: Desc,
}

// An entry of this number gave out a run of pages.
fn note(uses: &mut [u32], given: &Option<PageRun>, number: u32)
    requires long { length uses.old ≡ page_count }
    requires run { IfSome given.now IsPageRun }
    ensures { AreNoted uses.old given.now number uses.new }
{
    if let Some(run) = given {
        let first = usize::from(run.first);
        for page in first..first + usize::from(run.count) {
            uses[page] = number;
        }
    }
}

// One entry more.
fn step<S: PlainSupervisor>(
    alloc: Global,
    supervisor: &mut S,
    uses: &mut [u32],
    session: &Session,
    entries: &[Entry],
    at: u32,
) -> Result<(), AllocError>
    requires right { IsRight (opening_of session.now) entries.now }
    requires place { at < length entries.now }
    requires number { at + 1 < 2 ^ 32 }
    requires is_at { IsAt session.now entries.now at (S.state supervisor.old) uses.old }
    ensures { OnOk result (IsAt session.now entries.now (at + 1) (S.state supervisor.new) uses.new) }
{
    let entry = &entries[at as usize];
    let answered = supervisor.apply(alloc, entry.process, entry.ring, entry.request())?;
    note(uses, &answered.given, at + 1);
    Ok(())
}

// All entries up to a point.
fn go_to<S: PlainSupervisor>(
    alloc: Global,
    supervisor: &mut S,
    uses: &mut [u32],
    session: &Session,
    entries: &[Entry],
    at: u32,
    point: u32,
) -> Result<(), AllocError>
    requires right { IsRight (opening_of session.now) entries.now }
    requires onward { at ≤ point }
    requires within { point ≤ length entries.now }
    requires is_at { IsAt session.now entries.now at (S.state supervisor.old) uses.old }
    ensures { OnOk result (IsAt session.now entries.now point (S.state supervisor.new) uses.new) }
{
    for number in at..point {
        step(alloc, supervisor, uses, session, entries, number)?;
    }
    Ok(())
}

// The descriptor that process `p` has of a segment number; unknown where the session has no such process.
fn descriptor_of<S: PlainSupervisor>(
    supervisor: &S,
    session: &Session,
    p: usize,
    segno: u16,
) -> Desc
    requires { length (S.state supervisor.now).processes ≡ length session.now.principals }
    ensures { result ≡ descriptor (S.state supervisor.now) p segno }
{
    if p == 0 || p > session.principals().items().len() {
        return Desc::unknown();
    }
    supervisor.descriptor(p as u8, segno)
}

// The same, taken from what was asked last where that was the same.
fn descriptor_again<S: PlainSupervisor>(
    supervisor: &S,
    session: &Session,
    latest: &mut Option<Asked>,
    p: usize,
    segno: u16,
) -> Desc
    requires processes { length (S.state supervisor.now).processes ≡ length session.now.principals }
    requires latest { IsAsked (S.state supervisor.now) latest.old }
    ensures desc { result ≡ descriptor (S.state supervisor.now) p segno }
    ensures latest { IsAsked (S.state supervisor.now) latest.new }
{
    if let Some(asked) = latest {
        if asked.process == p && asked.segno == segno {
            return asked.desc;
        }
    }
    let desc = descriptor_of(supervisor, session, p, segno);
    *latest = Some(Asked {
        process: p,
        segno,
        desc,
    });
    desc
}

// What was asked last is of use at another point only where that is the same.
fn asked_at(latest: Option<Asked>, at: u32, point: u32) -> Option<Asked>
    ensures { IsAskedTo at point latest result }
{
    if at == point { latest } else { None }
}

// The entry that gave out the page of a word last.
fn since_of(uses: &[u32], desc: &Desc, word: u16) -> u32
    ensures { result ≡ slice_index_or uses.now (page_of (cell_at desc.now word)) 0 }
{
    let page = (64 * u32::from(desc.page()) + u32::from(word)) / 64;
    match uses.get(page as usize) {
        None => 0,
        Some(since) => *since,
    }
}

// What the supervisor says of the question whose turn it is, beside what it said before.
fn told<S: PlainSupervisor>(
    supervisor: &S,
    uses: &[u32],
    session: &Session,
    latest: &mut Option<Asked>,
    turn: &Turn,
    told: &Told,
) -> Told
    requires processes { length (S.state supervisor.now).processes ≡ length session.now.principals }
    requires latest { IsAsked (S.state supervisor.now) latest.old }
    ensures told { result ≡ told_by (S.state supervisor.now) uses.now turn.now turn.now.is_before told.now }
    ensures latest { IsAsked (S.state supervisor.now) latest.new }
{
    let desc = descriptor_again(
        supervisor,
        session,
        latest,
        usize::from(turn.process),
        turn.segno,
    );
    if turn.is_before {
        Told {
            before: desc,
            desc: told.desc,
            since: told.since,
        }
    } else {
        Told {
            before: told.before,
            desc,
            since: since_of(uses, &desc, turn.word),
        }
    }
}

// Answers the question whose turn it is.
fn tell<S: PlainSupervisor>(
    supervisor: &S,
    uses: &[u32],
    session: &Session,
    latest: &mut Option<Asked>,
    turn: &Turn,
    answers: &mut [Told],
)
    requires processes { length (S.state supervisor.now).processes ≡ length session.now.principals }
    requires answer { turn.now.at < length answers.old }
    requires latest { IsAsked (S.state supervisor.now) latest.old }
    ensures told { IsToldAt (S.state supervisor.now) uses.now turn.now answers.old answers.new }
    ensures latest { IsAsked (S.state supervisor.now) latest.new }
{
    let at = turn.at as usize;
    let answer = told(supervisor, uses, session, latest, turn, &answers[at]);
    answers[at] = answer;
}

// Answers all questions, each in its turn, from the start of the journal on.
fn answer_turns<S: PlainSupervisor>(
    alloc: Global,
    supervisor: &mut S,
    uses: &mut [u32],
    answers: &mut [Told],
    session: &Session,
    entries: &[Entry],
    transcripts: &[Transcript],
    turns: &[Turn],
) -> Result<(), AllocError>
    requires right { IsRight (opening_of session.now) entries.now }
    requires few { length session.now.principals ≤ 65534 }
    requires turns { AreTurnsOf (length entries.now) transcripts.now turns.now }
    requires ordered { IsNonDecreasingBy (λ t. t.point) turns.now }
    requires is_at { IsAt session.now entries.now 0 (S.state supervisor.old) uses.old }
    requires long { length answers.old ≡ length (asked_of (length entries.now) transcripts.now) }
    ensures { OnOk result (AreTold session.now entries.now (asked_of (length entries.now) transcripts.now) answers.new) }
{
    let mut at = 0u32;
    let mut latest = None;
    for k in 0..turns.len() {
        let turn = &turns[k];
        go_to(alloc, supervisor, uses, session, entries, at, turn.point)?;
        latest = asked_at(latest, at, turn.point);
        at = turn.point;
        tell(supervisor, uses, session, &mut latest, turn, answers);
    }
    Ok(())
}

/// What a plain supervisor says of all that is asked about the events of transcripts, so many questions, as it goes through a
/// right journal once.
pub(crate) fn answers<S: PlainSupervisor>(
    alloc: Global,
    session: &Session,
    entries: &[Entry],
    transcripts: &[Transcript],
    turns: &[Turn],
    count: u32,
) -> Result<Vec<Told>, AllocError>
    requires right { IsRight (opening_of session.now) entries.now }
    requires turns { AreTurnsOf (length entries.now) transcripts.now turns.now }
    requires ordered { IsNonDecreasingBy (λ t. t.point) turns.now }
    requires count { count ≡ length (asked_of (length entries.now) transcripts.now) }
    ensures { IfOk result (λ told. AreTold session.now entries.now (asked_of (length entries.now) transcripts.now) told.items) }
{
    let principals = session.principals();
    let mut supervisor = S::opening(alloc, principals.items(), session.version())?;
    let mut uses = vec![in alloc; 0u32; PAGES]?;
    let mut told = vec![in alloc; Told::nothing(); count as usize]?;
    answer_turns(
        alloc,
        &mut supervisor,
        uses.as_mut_slice(),
        told.as_mut_slice(),
        session,
        entries,
        transcripts,
        turns,
    )?;
    Ok(told)
}
