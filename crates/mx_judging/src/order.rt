//! One order in which the moments of all processes can have happened.

ghost use Rattle.std.specs.Prelude.{◌≡◌, ◌≤◌, ◌<◌, length, IfOk, IsTrue, IsFalse, MatchOption};
ghost use Rattle.mx_judging.specs.Stories.{AreRising, IsInTime, IsMerge, times_of};
ghost use Rattle.mx_judging.specs.Ordering.{AreAllTold, IsEarliest, IsNext, IsSooner};

use crate::courses::{Course, Deed, Store};
use indexmap::IndexMap;
use std::alloc::{AllocError, Global};

/// A moment in its turn: whose it is, and its place among those of its process.
#[derive(Clone, Copy)]
pub struct Turn {
    pub process: usize,
    pub place: usize,
}

/// The moments of all processes, in one order in which they can have happened.
pub fn in_time(alloc: Global, courses: &[Course]) -> Result<Vec<Turn>, AllocError>
    requires { AreRising (times_of courses.now) }
    ensures merge { IfOk result (λ turns. IsMerge (times_of courses.now) turns.items) }
    ensures time { IfOk result (λ turns. IsInTime (times_of courses.now) turns.items) }
{
    let mut told = vec![in alloc; 0usize; courses.len()]?;
    let mut stored = IndexMap::new(alloc);
    let mut turns = Vec::new(alloc);
    while let Some(process) = next_process(courses, &told, &stored) {
        let place = told[process];
        note_stores(&mut stored, courses[process].deeds_of(place))?;
        turns.push(Turn { process, place })?;
        told[process] = place + 1;
    }
    Ok(turns)
}

// The next moment of a process: its time, and how soon it comes among those of that time.
#[derive(Clone, Copy)]
pub(crate) struct Choice {
    process: usize,
    time: u64,
    rank: u8,
}

// Whose moment comes next: the earliest, and of those at the same time the first in rank; of these that of the first process.
fn next_process(courses: &[Course], told: &[usize], stored: &IndexMap<Store, ()>) -> Option<usize>
    requires { length told.now ≡ length courses.now }
    ensures { MatchOption result (AreAllTold (times_of courses.now) told.now) (IsEarliest (times_of courses.now) told.now) }
{
    let mut best = None;
    for process in 0..courses.len() {
        let next = next_of(courses, told, process, stored);
        best = sooner(best, next);
    }
    Some(best?.process)
}

// The next moment of a process, where it has one.
fn next_of(
    courses: &[Course],
    told: &[usize],
    process: usize,
    stored: &IndexMap<Store, ()>,
) -> Option<Choice>
    requires count { length told.now ≡ length courses.now }
    requires process { process < length courses.now }
    ensures { IsNext (times_of courses.now) told.now process result }
{
    let (course, place) = (&courses[process], told[process]);
    let moment = course.moments.get(place)?;
    Some(Choice {
        process,
        time: moment.time,
        rank: rank(process, course.deeds_of(place), stored),
    })
}

// The one that comes sooner; where neither does, the first.
fn sooner(best: Option<Choice>, next: Option<Choice>) -> Option<Choice>
    ensures { IsSooner best next result }
{
    match (best, next) {
        (Some(one), Some(other)) => if comes_before(&other, &one) {
            next
        } else {
            best
        },
        (Some(_), None) => best,
        (None, _) => next,
    }
}

// Whether it comes before the other one.
fn comes_before(one: &Choice, other: &Choice) -> bool
    ensures before { IsTrue result → one.now.time ≤ other.now.time }
    ensures behind { IsFalse result → other.now.time ≤ one.now.time }
{
    one.time < other.time || (one.time == other.time && one.rank < other.rank)
}

fn rank(process: usize, deeds: &[Deed], stored: &IndexMap<Store, ()>) -> u8 {
    let mut rank = 0;
    for deed in deeds {
        match deed {
            Deed::Reads(store) => if usize::from(store.process) != process
                && stored.get(store).is_none()
            {
                return 2;
            },
            Deed::Stores(_) => rank = 1,
        }
    }
    rank
}

fn note_stores(stored: &mut IndexMap<Store, ()>, deeds: &[Deed]) -> Result<(), AllocError> {
    for deed in deeds {
        if let Deed::Stores(store) = deed {
            stored.insert(*store, ())?;
        }
    }
    Ok(())
}
