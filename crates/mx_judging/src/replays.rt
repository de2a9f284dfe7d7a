//! The plain supervisor run again over a journal, entry by entry: what access each process has at each point.

ghost use Rattle.std.specs.Prelude.{◌≡◌, ◌≤◌, length};
ghost use Rattle.std.specs.Option.{option_map};

use mx_acl::Modes;
use mx_name::AclId;
use mx_script::Session;
use mx_sdw::Desc;
use mx_state::{Changes, Entry, State};
use mx_transcript::Element;
use std::alloc::{AllocError, Global};
use std::marker::Model;

/// How many segment numbers a process has at most.
const NUMBERS: usize = 256;

/// A descriptor that an entry of the journal changed: whose, what it was and is, and the entry of the access list that decides
/// its modes from then on: none of a stack, of a linkage section, and where no entry matches.
#[derive(Clone, Copy)]
pub struct Changed {
    pub entry: u32,
    pub process: u8,
    pub segno: u16,
    pub before: Desc,
    pub after: Desc,
    pub by: Option<(AclId, Modes)>,
}

/// A reference of a process, with the descriptor that it was judged on: the one that the first `point` entries of the
/// journal leave. The last of these entries that changed it is `since`, 0 where none did. `entry` is the entry of the
/// access list that decided its modes: none of a stack, of a linkage section, and where no entry matches.
#[derive(Clone, Copy)]
pub struct Judged {
    pub process: u8,
    pub element: Element,
    pub desc: Desc,
    pub entry: Option<(AclId, Modes)>,
    pub since: u32,
}

/// What a segment number gives a process: the descriptor, and the entry of the access list that decided its modes.
#[derive(Clone, Copy)]
pub struct Access {
    pub desc: Desc,
    pub entry: Option<(AclId, Modes)>,
}

// A descriptor as it is now, and the entry that made it so.
#[derive(Clone, Copy)]
struct Held {
    desc: Desc,
    since: u32,
}

/// The plain supervisor after the first `at` entries of a right journal, and what each of them changed.
#[derive(Drop)]
pub struct Replay<'a> {
    session: &'a Session,
    journal: &'a [Entry],
    at: usize,
    state: State,
    held: Vec<Held>,
    changed: Vec<Changed>,
}

impl<'a> Model for Replay<'a> {
    ghost use Rattle.mx_judging.specs.Replays.{Replayed, replayed, IsReplay};

    ghost Value = { Replayed };

    ghost view = { λ a. replayed a.session.now a.journal.now a.at };

    ghost invariant = { λ a. IsReplay (replayed a.session.now a.journal.now a.at) a.state };
}

impl<'a> Replay<'a> {
    ghost use Rattle.mx_judging.specs.Judging.{IsAccess};
    ghost use Rattle.mx_judging.specs.Replays.{Replayed, replayed, IsSameJournal, descriptor_after, entry_after};
    ghost use Rattle.std.specs.Prelude.{◌≡◌, ◌≤◌, ◌<◌, ◌+◌, length, min, IfOk, IsTrue, OnOk};
    ghost use Rattle.mx_transcript.specs.Opened.{opening_of};
    ghost use Rattle.mx_state.specs.History.{IsRight};

    /// Before the first entry of a right journal of the session.
    pub fn new(
        alloc: Global,
        session: &'a Session,
        journal: &'a [Entry],
    ) -> Result<Replay<'a>, AllocError>
        requires { IsRight (opening_of session.now) journal.now }
        ensures { IfOk result (λ replay. replay ≡ replayed session.now journal.now 0) }
    {
        let entrants = session.principals().items();
        let state = State::new(alloc, entrants, session.version())?;
        let held = held_at_first(alloc, &state, entrants.len() as u8)?;
        Ok(Replay {
            session,
            journal,
            at: 0,
            state,
            held,
            changed: Vec::new(alloc),
        })
    }

    /// All that the entries so far changed, in their order.
    pub(crate) fn into_changed(self) -> Vec<Changed> {
        self.changed
    }

    /// What the entries so far changed, in their order.
    pub fn changed(&self) -> &[Changed] {
        &self.changed
    }

    /// Whether there is a process of this number, from 1.
    pub fn has_process(&self, process: u8) -> bool
        ensures { IsTrue result → (1 ≤ process) × (process ≤ length self.now.session.principals) }
    {
        1 <= process && usize::from(process) <= self.session.principals().items().len()
    }

    /// A reference of this process, with its access. Where the point lies behind, all begins anew.
    pub(crate) fn judged(
        &mut self,
        alloc: Global,
        process: u8,
        element: Element,
    ) -> Result<Judged, AllocError>
        requires some { 1 ≤ process }
        requires process { process ≤ length self.old.session.principals }
        ensures same { OnOk result (IsSameJournal self.old self.new) }
        ensures process { IfOk result (λ judged. judged.process ≡ process) }
        ensures element { IfOk result (λ judged. judged.element ≡ element) }
        ensures access { IfOk result (IsAccess self.old.session self.old.journal) }
    {
        self.go_to(alloc, element.point)?;
        let desc = self.state.descriptor(process, element.segno);
        let entry = copied(self.state.deciding_entry(process, element.segno));
        Ok(Judged {
            process,
            element,
            desc,
            entry,
            since: self.since(process, element.segno),
        })
    }

    /// What a segment number gives a process now.
    pub fn access(&self, process: u8, segno: u16) -> Access
        requires some { 1 ≤ process }
        requires process { process ≤ length self.now.session.principals }
        ensures desc { result.desc ≡ descriptor_after self.now.session self.now.journal self.now.at process segno }
        ensures entry { result.entry ≡ entry_after self.now.session self.now.journal self.now.at process segno }
    {
        Access {
            desc: self.state.descriptor(process, segno),
            entry: copied(self.state.deciding_entry(process, segno)),
        }
    }

    /// One entry more, or none where all were run.
    pub fn next(&mut self, alloc: Global) -> Result<(), AllocError>
        ensures same { OnOk result (IsSameJournal self.old self.new) }
        ensures at { OnOk result (self.new.at ≡ min (self.old.at + 1) (length self.old.journal)) }
    {
        if self.at < self.journal.len() {
            self.step(alloc)
        } else {
            Ok(())
        }
    }

    /// Goes to the end of the journal.
    pub(crate) fn finish(&mut self, alloc: Global) -> Result<(), AllocError>
        ensures same { OnOk result (IsSameJournal self.old self.new) }
    {
        self.go_to(alloc, u32::MAX)
    }

    // Goes behind so many entries, or to the end.
    fn go_to(&mut self, alloc: Global, point: u32) -> Result<(), AllocError>
        ensures same { OnOk result (IsSameJournal self.old self.new) }
        ensures at { OnOk result (self.new.at ≡ min point (length self.new.journal)) }
    {
        if self.at > point as usize {
            *self = Replay::new(alloc, self.session, self.journal)?;
        }
        while self.at < point as usize && self.at < self.journal.len() {
            self.step(alloc)?;
        }
        Ok(())
    }

    // One entry more.
    fn step(&mut self, alloc: Global) -> Result<(), AllocError>
        requires { self.old.at < length self.old.journal }
        ensures same { OnOk result (IsSameJournal self.old self.new) }
        ensures at { OnOk result (self.new.at ≡ self.old.at + 1) }
    {
        let entry = &self.journal[self.at];
        let applied = self
            .state
            .apply(alloc, entry.process, entry.ring, entry.request())?;
        self.at += 1;
        let number = u32::try_from(self.at).unwrap_or(u32::MAX);
        let (held, changed) = (&mut self.held, &mut self.changed);
        note(held, changed, number, &applied.changes, &self.state)
    }

    // The entry that made the descriptor what it is.
    fn since(&self, process: u8, segno: u16) -> u32 {
        match self.held.get(place_of(process, segno)) {
            Some(held) => held.since,
            None => 0,
        }
    }
}

// The entry itself in place of a reference to it.
fn copied(found: Option<(&AclId, Modes)>) -> Option<(AclId, Modes)>
    ensures { result ≡ option_map (λ pair. (pair.0.now, pair.1)) found.entry }
{
    match found {
        Some((id, modes)) => Some((*id, modes)),
        None => None,
    }
}

// The place of a process's number among what is held.
fn place_of(process: u8, segno: u16) -> usize {
    if segno < NUMBERS as u16 {
        usize::from(process.saturating_sub(1)) * NUMBERS + usize::from(segno)
    } else {
        usize::MAX
    }
}

// The descriptors before any entry, of so many processes.
fn held_at_first(alloc: Global, state: &State, count: u8) -> Result<Vec<Held>, AllocError>
    requires { count ≤ length state.now.processes }
{
    let mut held = Vec::with_capacity(alloc, usize::from(count) * NUMBERS)?;
    for process in 1..=count {
        for segno in 0..NUMBERS as u16 {
            let desc = state.descriptor(process, segno);
            held.push(Held { desc, since: 0 })?;
        }
    }
    Ok(held)
}

// Notes what an entry changed, which left this state.
fn note(
    held: &mut Vec<Held>,
    changed: &mut Vec<Changed>,
    entry: u32,
    changes: &Changes,
    state: &State,
) -> Result<(), AllocError> {
    for change in changes.items() {
        let place = place_of(change.process, change.segno);
        if let Some(now) = held.get_mut(place) {
            changed.push(Changed {
                entry,
                process: change.process,
                segno: change.segno,
                before: now.desc,
                after: change.desc,
                by: copied(state.deciding_entry(change.process, change.segno)),
            })?;
            *now = Held {
                desc: change.desc,
                since: entry,
            };
        }
    }
    Ok(())
}
