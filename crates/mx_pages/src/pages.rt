ghost use Rattle.std.specs.Prelude.{◌≡◌, ◌+◌, ◌<◌, ◌≤◌, IfSome};
ghost use Rattle.mx_pages.specs.Runs.{pages_for, run_given, with_run};

use std::marker::Model;
use thiserror::Error;

/// How many pages there are.
const PAGES: usize = 1_024;

/// How many pages of 64 words so many words need.
pub fn pages_for(words: u32) -> u32
    ensures { result ≡ pages_for words }
{
    words.div_ceil(64)
}

/// No run of free pages is long enough.
#[derive(Clone, Copy, Debug, PartialEq, Eq, Error)]
#[error("no run of free pages is long enough")]
pub struct PagesFull;

/// A run of pages: its first page, and how many pages it has.
#[derive(Clone, Copy, Debug, PartialEq, Eq)]
pub struct PageRun {
    pub first: u16,
    pub count: u16,
}

/// The pages of memory, some of them given out.
#[derive(Debug, Drop)]
pub struct Pages {
    /// Whether each page is free.
    free: [bool; PAGES],
}

impl Model for Pages {
    ghost use Rattle.mx_pages.specs.Runs.{PageMap};

    ghost Value = { PageMap };

    ghost view = { λ a. record { free = a.free } };
}

impl Pages {
    ghost use Rattle.std.specs.Prelude.{◌≡◌, ℕ, ◌+◌, ◌≤◌, ◌⊎◌, ◌↔◌, IfSome, IfNone, IfOk, OnErr};
    ghost use Rattle.mx_pages.specs.Runs.{IsFree, IsFreeRun, IsLowestRun, IsInRun, free_from, run_given, after_run, with_free};

    /// Each page from `first` on is free, and no other.
    pub fn new(first: u32) -> Pages
        ensures { result ≡ free_from first }
    {
        let mut free = [false; PAGES];
        for (page, is_free) in free.iter_mut().enumerate() {
            *is_free = first as usize <= page;
        }
        Pages { free }
    }

    /// The first page of the run of `n` pages that `allot` would give, and `None` where it would refuse.
    pub fn next(&self, n: u32) -> Option<u32>
        requires some { 1 ≤ n }
        requires most { n ≤ 16 }
        ensures run { result ≡ run_given self.now n }
        ensures within { IfSome result (λ first. first + n ≤ 1024) }
        ensures lowest { IfSome result (λ first. IsLowestRun self.now n first) }
        ensures full { IfNone result ((first : ℕ) → IsFreeRun self.now n first → ⊥) }
    {
        lowest_run(&self.free, n)
    }

    /// Gives out the lowest run of `n` free pages, and says its first page. On a refusal nothing changes.
    pub fn allot(&mut self, n: u32) -> Result<u32, PagesFull>
        requires some { 1 ≤ n }
        requires most { n ≤ 16 }
        ensures run { IfOk result (λ first. run_given self.old n ≡ Some first) }
        ensures full { OnErr result (run_given self.old n ≡ None) }
        ensures within { IfOk result (λ first. first + n ≤ 1024) }
        ensures after { self.new ≡ after_run self.old n (run_given self.old n) }
        ensures lowest { IfOk result (λ first. IsLowestRun self.old n first) }
        ensures only { IfOk result (λ first. (page : ℕ)
            → IsFree self.new page ↔ (IsFree self.old page × (IsInRun n first page → ⊥))) }
    {
        let Some(first) = self.next(n) else {
            return Err(PagesFull);
        };
        set_run(&mut self.free, first, n, false);
        Ok(first)
    }

    /// Frees the run of `n` pages from `page` on, none of which is free. The other pages stay as they were.
    pub fn free(&mut self, page: u32, n: u32)
        requires some { 1 ≤ n }
        requires most { n ≤ 16 }
        requires within { page + n ≤ 1024 }
        requires taken { (other : ℕ) → IsInRun n page other → IsFree self.old other → ⊥ }
        ensures after { self.new ≡ with_free self.old page n }
        ensures only { (other : ℕ) → IsFree self.new other ↔ (IsFree self.old other ⊎ IsInRun n page other) }
    {
        set_run(&mut self.free, page, n, true);
    }
}

/// The first page of the lowest run of `n` free pages.
fn lowest_run(free: &[bool; PAGES], n: u32) -> Option<u32>
    requires some { 1 ≤ n }
    ensures run { result ≡ run_given (record { free = free.now }) n }
{
    let mut first = 0;
    for (page, is_free) in free.iter().enumerate() {
        if !*is_free {
            first = page + 1;
        } else if page + 1 - first == n as usize {
            return Some(first as u32);
        }
    }
    None
}

/// Sets whether the `n` pages from `first` on are free.
fn set_run(free: &mut [bool; PAGES], first: u32, n: u32, value: bool)
    requires within { first + n ≤ 1024 }
    ensures { record { free = free.new } ≡ with_run value (record { free = free.old }) first n }
{
    for page in first..first + n {
        free[page as usize] = value;
    }
}
