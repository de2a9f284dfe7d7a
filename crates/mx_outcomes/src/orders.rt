//! The orders in which the lines of processes may come, one after another.

ghost use Rattle.std.specs.Prelude.{◌≡◌, ◌≤◌, ◌<◌, ◌+◌, ◌-◌, ◌*◌, ◌^◌, ◌++◌, min, true, false, MatchOption, IfSome, IfNone, IfOk, OnOk, length, replicate};
ghost use Rattle.std.specs.List.{sum};
ghost use Rattle.mx_outcomes.specs.Counts.{choose, orders_of};
ghost use Rattle.mx_outcomes.specs.Interleavings.{IsFirst, IsInterleaving, IsLast, IsNext};
ghost use Rattle.mx_outcomes.specs.Turning.{AreUpTo, IsPivot, IsFalling, IsSuccessor};

use std::alloc::{AllocError, Global};

/// Makes of an order the next one with the same processes as often: the first, from the least number on, of those that it comes
/// before. False where it comes before none; then it stays as it is. Takes no memory.
pub fn advance(order: &mut [u8]) -> bool
    ensures next { result ≡ true → IsNext order.old order.new }
    ensures last { result ≡ false → IsLast order.old }
    ensures same { result ≡ false → order.new ≡ order.old }
{
    let Some(pivot) = pivot_of(order) else {
        return false;
    };
    order[pivot + 1..].reverse();
    if let Some(successor) = successor_of(&order[pivot + 1..], order[pivot]) {
        order.swap(pivot, pivot + 1 + successor);
    }
    true
}

// The last place of an order that has a greater number just behind it.
fn pivot_of(order: &[u8]) -> Option<usize>
    ensures { MatchOption result (IsFalling order.now) (IsPivot order.now) }
{
    let mut place = order.len().saturating_sub(1);
    while place > 0 {
        if order[place - 1] < order[place] {
            return Some(place - 1);
        }
        place -= 1;
    }
    None
}

// The first place in a rising order that holds more than this.
fn successor_of(order: &[u8], pivot: u8) -> Option<usize>
    ensures { MatchOption result (AreUpTo pivot order.now) (IsSuccessor order.now pivot) }
{
    for (place, process) in order.iter().enumerate() {
        if *process > pivot {
            return Some(place);
        }
    }
    None
}

// How many orders there are of these and so many ways already: none where they are more than a number of 64 bits.
fn times_ways(ways: u64, before: u32, count: u32) -> Option<u64>
    requires { before + count < 2 ^ 32 }
    ensures some { IfSome result (λ all. all ≡ ways * choose (before + count) count) }
    ensures fits { IfSome result (λ all. all < 2 ^ 64) }
    ensures none { IfNone result (2 ^ 64 ≤ ways * choose (before + count) count) }
{
    let mut all = ways;
    for chosen in 0..count {
        let next = u128::from(all) * u128::from(before + chosen + 1) / u128::from(chosen + 1);
        let Ok(fitting) = u64::try_from(next) else {
            return None;
        };
        all = fitting;
    }
    Some(all)
}

/// How many orders there are of the lines of processes that have so many each; the greatest number of 64 bits where there are as
/// many or more. Takes no memory.
pub fn count_orders(counts: &[u32]) -> u64
    requires { sum counts.now < 2 ^ 32 }
    ensures { result ≡ min (orders_of counts.now) (2 ^ 64 - 1) }
{
    let mut ways = 1;
    let mut before = 0;
    for count in counts {
        let Some(more) = times_ways(ways, before, *count) else {
            return u64::MAX;
        };
        ways = more;
        before += *count;
    }
    ways
}

/// The first order of the lines of processes that have so many each: all of the first, then all of the second, and so on.
pub fn first_order(alloc: Global, counts: &[u32]) -> Result<Vec<u8>, AllocError>
    requires { length counts.now ≤ 15 }
    ensures interleaving { IfOk result (λ order. IsInterleaving counts.now order.items) }
    ensures first { IfOk result (λ order. IsFirst order.items) }
{
    let mut order = Vec::new(alloc);
    for (place, count) in counts.iter().enumerate() {
        add_lines(&mut order, place as u8 + 1, *count)?;
    }
    Ok(order)
}

// Adds a process so many times.
fn add_lines(order: &mut Vec<u8>, process: u8, count: u32) -> Result<(), AllocError>
    ensures { OnOk result (order.new.items ≡ order.old.items ++ replicate count process) }
{
    for _ in 0..count {
        order.push(process)?;
    }
    Ok(())
}
