//! Processes that take turns on one thread, a line at a time.

ghost use Rattle.std.specs.Prelude.{◌≡◌, ◌<◌, ◌≤◌, IsTrue, OnOk, length, vec_len, vec_capacity};
ghost use Rattle.mx_process.specs.Lines.{IsOwn};
ghost use Rattle.mx_process.specs.Processes.{HasLine};
ghost use Rattle.mx_proc.specs.Rows.{AreInPlace, HaveNoLine};

use crate::sleepers::Sleepers;
use mx_audit::Auditor;
use mx_office::Office;
use mx_process::{Attending, Gate, Process, Turned};
use std::alloc::{AllocError, Global};
use std::sync::Wait;

/// Does the lines of all processes of a row that are left: a line of each in turn, round and round. One that waits for a message
/// is passed over, and where all that have a line left wait, this thread sleeps until one of them could go on. The gate is
/// told of each line before it begins. The only error is want of memory, or that the run is to end: then it is to end for
/// all.
pub(crate) fn take_turns<R: Wait, G: Gate, B: Attending, A: Auditor>(
    rt: &R,
    alloc: Global,
    office: &Office<'_, B>,
    gate: &G,
    row: &mut Vec<Process<'_, B, A>>,
) -> Result<(), AllocError>
    requires { AreInPlace B.accounts row.old.items }
    ensures place { AreInPlace B.accounts row.new.items }
    ensures done { OnOk result (HaveNoLine B.session row.new.items) }
    ensures len { vec_len row.new ≡ vec_len row.old }
    ensures capacity { vec_capacity row.new ≡ vec_capacity row.old }
{
    let done = rounds(rt, alloc, office, gate, row);
    if done.is_err() {
        office.stop(rt);
    }
    done
}

/// Does the lines of a row's processes in this order of their numbers, a line of one at a time, and then all that are left, in
/// turn. A number that no process has, or whose process has no line left, is passed over, and so is a line that waits for a
/// message and cannot go on. All else is as in `take_turns`.
pub(crate) fn follow<R: Wait, G: Gate, B: Attending, A: Auditor>(
    rt: &R,
    alloc: Global,
    office: &Office<'_, B>,
    gate: &G,
    order: &[u8],
    row: &mut Vec<Process<'_, B, A>>,
) -> Result<(), AllocError>
    requires { AreInPlace B.accounts row.old.items }
    ensures place { AreInPlace B.accounts row.new.items }
    ensures done { OnOk result (HaveNoLine B.session row.new.items) }
    ensures len { vec_len row.new ≡ vec_len row.old }
    ensures capacity { vec_capacity row.new ≡ vec_capacity row.old }
{
    match in_order(rt, alloc, office, gate, order, row) {
        Ok(()) => take_turns(rt, alloc, office, gate, row),
        Err(wanting) => {
            office.stop(rt);
            Err(wanting)
        }
    }
}

// The lines of this order.
fn in_order<R: Wait, G: Gate, B: Attending, A: Auditor>(
    rt: &R,
    alloc: Global,
    office: &Office<'_, B>,
    gate: &G,
    order: &[u8],
    row: &mut Vec<Process<'_, B, A>>,
) -> Result<(), AllocError>
    requires { AreInPlace B.accounts row.old.items }
    ensures place { AreInPlace B.accounts row.new.items }
    ensures len { vec_len row.new ≡ vec_len row.old }
    ensures capacity { vec_capacity row.new ≡ vec_capacity row.old }
{
    for number in order {
        step_numbered(rt, alloc, office, gate, *number, row)?;
    }
    Ok(())
}

// A line of the process with this number, as far as it goes; None also where no process has it.
fn step_numbered<R: Wait, G: Gate, B: Attending, A: Auditor>(
    rt: &R,
    alloc: Global,
    office: &Office<'_, B>,
    gate: &G,
    number: u8,
    row: &mut Vec<Process<'_, B, A>>,
) -> Result<Option<Turned>, AllocError>
    requires { AreInPlace B.accounts row.old.items }
    ensures place { AreInPlace B.accounts row.new.items }
    ensures len { vec_len row.new ≡ vec_len row.old }
    ensures capacity { vec_capacity row.new ≡ vec_capacity row.old }
{
    let number = usize::from(number);
    if 1 <= number && number <= row.len() {
        step_at(rt, alloc, office, gate, row, number - 1)
    } else {
        Ok(None)
    }
}

// Rounds, until no line is left.
fn rounds<R: Wait, G: Gate, B: Attending, A: Auditor>(
    rt: &R,
    alloc: Global,
    office: &Office<'_, B>,
    gate: &G,
    row: &mut Vec<Process<'_, B, A>>,
) -> Result<(), AllocError>
    requires { AreInPlace B.accounts row.old.items }
    ensures place { AreInPlace B.accounts row.new.items }
    ensures done { OnOk result (HaveNoLine B.session row.new.items) }
    ensures len { vec_len row.new ≡ vec_len row.old }
    ensures capacity { vec_capacity row.new ≡ vec_capacity row.old }
{
    for _ in rt.forever() {
        if has_none(row.as_slice()) {
            return Ok(());
        }
        if let Some(sleepers) = round(rt, alloc, office, gate, row)? {
            sleep_for(rt, office, &sleepers);
        }
    }
    unreachable!()
}

// Sleeps until one of these could go on.
fn sleep_for<R: Wait, B: Attending>(rt: &R, office: &Office<'_, B>, sleepers: &Sleepers) {
    office.sleep_for(rt, sleepers.numbers());
}

// Whether none of these has a line left.
fn has_none<B: Attending, A: Auditor>(row: &[Process<'_, B, A>]) -> bool
    ensures { IsTrue result → HaveNoLine B.session row.now }
{
    for process in row {
        if process.has_line() {
            return false;
        }
    }
    true
}

// A line of each process, as far as it goes. Where nobody did one, who waits.
fn round<R: Wait, G: Gate, B: Attending, A: Auditor>(
    rt: &R,
    alloc: Global,
    office: &Office<'_, B>,
    gate: &G,
    row: &mut Vec<Process<'_, B, A>>,
) -> Result<Option<Sleepers>, AllocError>
    requires { AreInPlace B.accounts row.old.items }
    ensures place { AreInPlace B.accounts row.new.items }
    ensures len { vec_len row.new ≡ vec_len row.old }
    ensures capacity { vec_capacity row.new ≡ vec_capacity row.old }
{
    let mut sleepers = Sleepers::none();
    let mut went = false;
    for place in 0..row.len() {
        match step_at(rt, alloc, office, gate, row, place)? {
            Some(Turned::Done) => went = true,
            Some(Turned::Waits) => sleepers.add(row[place].number()),
            None => {}
        }
    }
    if went { Ok(None) } else { Ok(Some(sleepers)) }
}

// A line of the process at a place, as far as it goes.
fn step_at<R: Wait, G: Gate, B: Attending, A: Auditor>(
    rt: &R,
    alloc: Global,
    office: &Office<'_, B>,
    gate: &G,
    row: &mut Vec<Process<'_, B, A>>,
    place: usize,
) -> Result<Option<Turned>, AllocError>
    requires row { AreInPlace B.accounts row.old.items }
    requires place { place < vec_len row.old }
    ensures place { AreInPlace B.accounts row.new.items }
    ensures len { vec_len row.new ≡ vec_len row.old }
    ensures capacity { vec_capacity row.new ≡ vec_capacity row.old }
{
    step(rt, alloc, office, gate, &mut row[place])
}

// The next line of a process, or more of the one that waits; None where no line is left. The gate is told of a line before
// it begins.
fn step<R: Wait, G: Gate, B: Attending, A: Auditor>(
    rt: &R,
    alloc: Global,
    office: &Office<'_, B>,
    gate: &G,
    process: &mut Process<'_, B, A>,
) -> Result<Option<Turned>, AllocError>
    ensures { IsOwn process.old process.new }
{
    if !process.has_line() {
        return Ok(None);
    }
    if let Some(line) = process.beginning() {
        gate.pass(u32::from(process.number()), line);
    }
    let turned = process.turn(rt, alloc, office)?;
    Ok(Some(turned))
}
