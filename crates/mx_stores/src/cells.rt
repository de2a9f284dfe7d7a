//! Cells in order, each once, by their numbers: where the number of a cell stands among them is found in a few steps.

ghost use Rattle.std.specs.Prelude.{◌≡◌, IfOk, IsTrue, MatchOption, Some, slice_get};
ghost use Rattle.mx_stores.specs.Cells.{AreRising, IsAbsent};

use std::alloc::{AllocError, Global};

// In which bucket a number stands: by its leading digits.
fn bucket(number: u64, shift: u32) -> usize {
    number.wrapping_shr(shift) as usize
}

// By how many digits numbers are shifted to fill about as many buckets as there are numbers.
fn shift_for(numbers: &[u64]) -> u32 {
    let count = numbers.len() as u64;
    match numbers.last() {
        None => 0,
        Some(last) => count.leading_zeros().saturating_sub(last.leading_zeros()),
    }
}

// How many of the numbers stand in the buckets before each.
fn starts_of(alloc: Global, numbers: &[u64], shift: u32) -> Result<Vec<usize>, AllocError> {
    let buckets = match numbers.last() {
        None => 0,
        Some(last) => bucket(*last, shift),
    };
    let mut starts = vec![in alloc; 0usize; buckets.saturating_add(2)]?;
    for number in numbers {
        let next = bucket(*number, shift).wrapping_add(1);
        if next < starts.len() {
            starts[next] = starts[next].wrapping_add(1);
        }
    }
    let mut before = 0usize;
    for here in 0..starts.len() {
        before = before.wrapping_add(starts[here]);
        starts[here] = before;
    }
    Ok(starts)
}

/// Cells in order, each once, by their numbers.
#[derive(Debug, Drop)]
pub(crate) struct Cells {
    pub(crate) numbers: Vec<u64>,
    // Where the numbers of each bucket likely begin. What is found by it is looked at before it is believed.
    starts: Vec<usize>,
    // By how many digits a number is shifted to give its bucket.
    shift: u32,
}

impl Cells {
    /// The cells of these numbers.
    pub(crate) fn new(alloc: Global, numbers: Vec<u64>) -> Result<Cells, AllocError>
        ensures { IfOk result (λ cells. cells.numbers.items ≡ numbers.items) }
    {
        let shift = shift_for(numbers.as_slice());
        let starts = starts_of(alloc, numbers.as_slice(), shift)?;
        Ok(Cells {
            numbers,
            starts,
            shift,
        })
    }

    // Where the number likely stands: among the first of its bucket.
    fn guess(&self, number: u64) -> usize {
        match self.starts.get(bucket(number, self.shift)) {
            None => self.numbers.len(),
            Some(start) => self.step_to(number, *start),
        }
    }

    // The first of a few places from this one on with no smaller number.
    fn step_to(&self, number: u64, start: usize) -> usize {
        for here in start..start.saturating_add(8) {
            match self.numbers.get(here) {
                None => return here,
                Some(other) => if *other >= number {
                    return here;
                },
            }
        }
        start
    }

    /// The number that stands here.
    pub(crate) fn at(&self, here: usize) -> Option<u64>
        ensures { result ≡ slice_get self.now.numbers.items here }
    {
        self.numbers.get(here).copied()
    }

    // Whether the number stands here.
    fn is_at(&self, here: usize, number: u64) -> bool
        ensures { IsTrue result → slice_get self.now.numbers.items here ≡ Some number }
    {
        match self.at(here) {
            None => false,
            Some(other) => other == number,
        }
    }

    /// Where the number stands, if it does.
    pub(crate) fn find(&self, number: u64) -> Option<usize>
        ensures { AreRising self.now.numbers.items → MatchOption result (IsAbsent self.now.numbers.items number) (λ here. slice_get self.now.numbers.items here ≡ Some number) }
    {
        let guess = self.guess(number);
        if self.is_at(guess, number) {
            return Some(guess);
        }
        match self.numbers.binary_search(&number) {
            Ok(here) => Some(here),
            Err(_) => None,
        }
    }
}
