//! Processes, each on a thread of its own.

ghost use Rattle.std.specs.Prelude.{◌≡◌, ◌<◌, ◌≤◌, OnOk, length, vec_len, vec_capacity};
ghost use Rattle.mx_process.specs.Lines.{HasNoLine, IsAwake};
ghost use Rattle.mx_proc.specs.Rows.{AreAwake, AreInPlace, HaveNoLine, IsInPlace};

use crate::lists::put;
use crate::starting::Start;
use crate::turns::take_turns;
use mx_audit::Auditor;
use mx_office::Office;
use mx_process::{Attending, Gate, Process};
use std::alloc::{AllocError, Global};
use std::sync::Wait;
use std::thread;
use std::thread::{Promise, Scope, Threads};

/// Does the lines of a row's processes until none is left, each on a thread of its own where one can be had, but the first on
/// this one; all begin together. Where no thread can be had for a process, it and those before it take turns on this one.
/// Returns when all threads have ended. The only error is want of memory; some lines may be left then.
pub(crate) fn work_on_threads<
    'a,
    R: Threads + Wait + Sync,
    G: Gate,
    B: Attending + Send,
    A: Auditor + Send,
>(
    rt: &R,
    alloc: Global,
    office: &Office<'_, B>,
    gate: &G,
    row: Vec<Process<'a, B, A>>,
) -> (Vec<Process<'a, B, A>>, Result<(), AllocError>)
    requires place { AreInPlace B.accounts row.items }
    requires awake { AreAwake row.items }
    ensures place { AreInPlace B.accounts result.0.items }
    ensures done { OnOk result.1 (HaveNoLine B.session result.0.items) }
    ensures len { vec_len result.0 ≡ vec_len row.entry }
{
    let start = Start::new();
    let together = &start;
    thread::scope(
        thread::scope_env(),
        rt,
        move |scope| -> (Vec<Process<B, A>>, Result<(), AllocError>)
            requires place { AreInPlace B.accounts row.items }
            requires awake { AreAwake row.items }
            ensures place { AreInPlace B.accounts result.0.items }
            ensures done { OnOk result.1 (HaveNoLine B.session result.0.items) }
            ensures len { vec_len result.0 ≡ vec_len row.entry }
        {
            let mut row = row;
            let done = work_from(scope, rt, alloc, office, gate, together, &mut row);
            (row, done)
        },
    )
}

/// A process that a thread hands back, and whether it has no line left.
#[derive(Drop)]
struct Worked<'a, B: Attending, A: Auditor> {
    process: Process<'a, B, A>,
    done: Result<(), AllocError>,
}

// What the thread of the process at this place hands back: that process.
#[derive(Clone, Copy)]
struct AtPlace(usize);

impl<'a, B: Attending, A: Auditor> Promise<Worked<'a, B, A>> for AtPlace {
    ghost kept_by = { λ at worked. IsInPlace B.accounts at.0 worked.process × OnOk worked.done (HasNoLine B.session worked.process) };
}

// The processes of a row, each on a thread of this scope, but the first on this one; where no thread can be had for one, it and
// those before it take turns on this one. They begin when the last thread was made.
fn work_from<
    's,
    'o: 's,
    'a: 's,
    E,
    R: Threads + Wait + Sync,
    G: Gate,
    B: Attending + Send + 's,
    A: Auditor + Send + 's,
>(
    scope: &Scope<'s, E>,
    rt: &'s R,
    alloc: Global,
    office: &'s Office<'o, B>,
    gate: &'s G,
    start: &'s Start,
    row: &mut Vec<Process<'a, B, A>>,
) -> Result<(), AllocError>
    requires place { AreInPlace B.accounts row.old.items }
    requires awake { AreAwake row.old.items }
    ensures place { AreInPlace B.accounts row.new.items }
    ensures done { OnOk result (HaveNoLine B.session row.new.items) }
    ensures len { vec_len row.new ≡ vec_len row.old }
    ensures capacity { vec_capacity row.old ≤ vec_capacity row.new }
{
    if row.len() <= 1 {
        start.begin(rt);
        return work_alone(rt, alloc, office, gate, row);
    }
    let Some(process) = row.pop() else {
        unreachable!()
    };
    let place = row.len();
    let work = move || -> Worked<B, A>
        requires place { IsInPlace B.accounts place process }
        requires awake { IsAwake process }
        ensures place { IsInPlace B.accounts place result.process }
        ensures done { OnOk result.done (HasNoLine B.session result.process) }
    {
        let mut process = process;
        let room = process.reserve_lines();
        let done = if start.wait(rt, place) {
            process.run_with(rt, alloc, office, gate, room)
        } else {
            Err(AllocError)
        };
        Worked { process, done }
    };
    match scope.spawn_with(AtPlace(place), work) {
        Ok(thread) => {
            let others = work_from(scope, rt, alloc, office, gate, start, row);
            let Worked { process, done } = thread.join(rt);
            put(row, process);
            done?;
            others
        }
        Err(refused) => {
            start.refuse(rt, place);
            let Worked { process, done: _ } = (refused.value)();
            put(row, process);
            take_turns(rt, alloc, office, gate, row)
        }
    }
}

// All lines of the one process of a row that are left, if it has one.
fn work_alone<R: Wait, G: Gate, B: Attending, A: Auditor>(
    rt: &R,
    alloc: Global,
    office: &Office<'_, B>,
    gate: &G,
    row: &mut Vec<Process<'_, B, A>>,
) -> Result<(), AllocError>
    requires place { AreInPlace B.accounts row.old.items }
    requires awake { AreAwake row.old.items }
    requires few { vec_len row.old ≤ 1 }
    ensures place { AreInPlace B.accounts row.new.items }
    ensures done { OnOk result (HaveNoLine B.session row.new.items) }
    ensures len { vec_len row.new ≡ vec_len row.old }
    ensures capacity { vec_capacity row.new ≡ vec_capacity row.old }
{
    if row.is_empty() {
        return Ok(());
    }
    row[0].run_alone(rt, alloc, office, gate)
}
