//! Runs of a session in one order of its lines after another.

ghost use Rattle.std.specs.Prelude.{◌≡◌, ◌<◌, ◌≤◌, ◌^◌, ◌++◌, length, map, IfOk, OnOk};
ghost use Rattle.std.specs.List.{sum, sum_by};
ghost use Rattle.mx_outcomes.specs.Explored.{IsExplored, line_counts};
ghost use Rattle.mx_outcomes.specs.Exploring.{IsFound, IsMade, fresh};
ghost use Rattle.mx_outcomes.specs.WholeRuns.{IsWholeRun};
ghost use Rattle.mx_outcomes.specs.Interleavings.{IsFirst, IsInterleaving};
ghost use Rattle.mx_outcomes.specs.Tallies.{with_run};

use crate::orders::{advance, count_orders, first_order};
use crate::tallies::{Places, Tally};
use crate::words::outcomes_in;
use mx_list::Bytes;
use mx_proc::{NoGate, run_in_order};
use mx_script::{Script, Session};
use mx_state::Journal;
use mx_transcript::Transcripts;
use std::alloc::{AllocError, Global};
use std::sync::Wait;

/// So many orders are made, and no more.
pub const MOST_ORDERS: u64 = 20_000;

/// What comes of a session run in all orders of its lines.
#[derive(Drop)]
pub(crate) enum Explored {
    /// So many orders were made, and each group of lines came to this.
    Tallied(u64, Vec<Tally>),
    /// There are so many orders, and no run was made.
    TooMany(u64),
}

/// Runs the session in each order of its lines, from the least to the greatest, and tallies what the lines of each group came to.
pub(crate) fn explore<R: Wait>(
    rt: &R,
    alloc: Global,
    session: &Session,
    groups: Vec<Places>,
) -> Result<Explored, AllocError>
    ensures { IfOk result (λ found. IsFound session.now groups.items found) }
{
    let counts = line_counts(alloc, session)?;
    let orders = count_orders(&counts);
    if orders > MOST_ORDERS {
        return Ok(Explored::TooMany(orders));
    }
    let first = first_order(alloc, &counts)?;
    let tallies = make_all(rt, alloc, session, first, groups)?;
    Ok(Explored::Tallied(orders, tallies))
}

// How many lines each process has.
fn line_counts(alloc: Global, session: &Session) -> Result<Vec<u32>, AllocError>
    ensures counts { IfOk result (λ counts. counts.items ≡ line_counts session.now) }
    ensures most { IfOk result (λ counts. length counts.items ≤ 15) }
    ensures fits { IfOk result (λ counts. sum counts.items < 2 ^ 32) }
{
    let mut counts = Vec::new(alloc);
    add_counts(&mut counts, session.scripts().items())?;
    Ok(counts)
}

// Adds how many lines each of these scripts has.
fn add_counts(counts: &mut Vec<u32>, scripts: &[Script]) -> Result<(), AllocError>
    requires { sum_by length scripts.now < 2 ^ 32 }
    ensures { OnOk result (counts.new.items ≡ counts.old.items ++ map length scripts.now) }
{
    match scripts {
        [] => Ok(()),
        [script, rest @ ..] => {
            counts.push(script.items().len() as u32)?;
            add_counts(counts, rest)
        }
    }
}

// Makes a run in this order, the first, and in each that comes behind it.
fn make_all<R: Wait>(
    rt: &R,
    alloc: Global,
    session: &Session,
    first: Vec<u8>,
    groups: Vec<Places>,
) -> Result<Vec<Tally>, AllocError>
    requires interleaving { IsInterleaving (line_counts session.now) first.items }
    requires first { IsFirst first.items }
    ensures { IfOk result (λ tallies. IsExplored session.now groups.items tallies.items) }
{
    let mut order = first;
    let mut tallies = fresh(alloc, groups)?;
    for _ in rt.forever() {
        make(rt, alloc, session, &order, &mut tallies)?;
        if !advance(&mut order) {
            return Ok(tallies);
        }
    }
    unreachable!()
}

// The groups before any run.
fn fresh(alloc: Global, groups: Vec<Places>) -> Result<Vec<Tally>, AllocError>
    ensures { IfOk result (λ tallies. tallies.items ≡ map fresh groups.items) }
{
    let mut tallies = Vec::new(alloc);
    for places in groups {
        tallies.push(Tally::new(alloc, places))?;
    }
    Ok(tallies)
}

// Makes a run in this order, and adds what the lines came to.
fn make<R: Wait>(
    rt: &R,
    alloc: Global,
    session: &Session,
    order: &[u8],
    tallies: &mut Vec<Tally>,
) -> Result<(), AllocError>
    ensures { OnOk result (IsMade session.now order.now tallies.old.items tallies.new.items) }
{
    let (journal, transcripts) = run(rt, alloc, session, order)?;
    let outcomes = outcomes_in(alloc, &journal, &transcripts)?;
    add_run(alloc, tallies, order, &outcomes)
}

// A run in this order, with no gate and no auditors, so that no process is logged out.
#[tactic(auto, using(crate::proofs::WholeRunLaws::whole_run))]
fn run<R: Wait>(
    rt: &R,
    alloc: Global,
    session: &Session,
    order: &[u8],
) -> Result<(Journal, Transcripts), AllocError>
    ensures { IfOk result (λ ran. IsWholeRun session.now ran.0 ran.1) }
{
    run_in_order(rt, alloc, session, order, &NoGate, &mut Vec::new(alloc))
}

// Adds a run to each group.
fn add_run(
    alloc: Global,
    tallies: &mut [Tally],
    order: &[u8],
    outcomes: &[Bytes],
) -> Result<(), AllocError>
    ensures { OnOk result (tallies.new ≡ map (with_run (order.now, outcomes.now)) tallies.old) }
{
    for tally in tallies.iter_mut() {
        tally.add(alloc, order, outcomes)?;
    }
    Ok(())
}
