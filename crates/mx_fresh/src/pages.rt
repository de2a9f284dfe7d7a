//! The pages of memory, as a list that says of each whether it is free.

ghost use Rattle.std.specs.Prelude.{◌≡◌, ◌≤◌, ◌+◌, true, false, if◌then◌else◌, IfOk, IfSome};
ghost use Rattle.mx_pages.specs.Runs.{is_free, is_in_run, free_from, run_at, run_given, with_run, with_free, pages_for};
ghost use Rattle.mx_fresh.specs.Runs.{page_freed};

use mx_pages::PageRun;
use std::alloc::{AllocError, Global};
use std::marker::Model;

/// How many pages there are.
const PAGES: u32 = 1_024;

/// Of each page whether it is free.
#[derive(Drop)]
pub(crate) struct PageList {
    free: Vec<bool>,
}

impl Model for PageList {
    ghost use Rattle.std.specs.Prelude.{◌≡◌, length};
    ghost use Rattle.mx_pages.specs.Runs.{PageMap};

    ghost Value = { PageMap };

    ghost view = { λ a. record { free = a.free.items } };

    ghost invariant = { λ a. length a.free.items ≡ 1024 };
}

impl PageList {
    /// Each page from this one on is free, and no other.
    pub(crate) fn new(alloc: Global, first: u32) -> Result<PageList, AllocError>
        ensures { IfOk result (λ pages. pages ≡ free_from first) }
    {
        let free = free_from(alloc, first)?;
        Ok(PageList { free })
    }

    /// The first page of the run of n pages that is given out next.
    pub(crate) fn run_given(&self, n: u32) -> Option<u32>
        requires some { 1 ≤ n }
        requires few { n ≤ 1024 }
        ensures value { result ≡ run_given self.now n }
        ensures within { IfSome result (λ first. first + n ≤ 1024) }
    {
        run_given(self.free.as_slice(), n)
    }

    /// The pages after the run of n pages from `first` on was given out.
    pub(crate) fn without_run(
        &self,
        alloc: Global,
        first: u32,
        n: u32,
    ) -> Result<PageList, AllocError>
        requires few { n ≤ 1024 }
        requires low { first ≤ 65535 }
        ensures { IfOk result (λ after. after ≡ with_run false self.now first n) }
    {
        let free = with_run(alloc, self.free.as_slice(), false, first, n)?;
        Ok(PageList { free })
    }

    /// The pages after the run of n pages from `first` on was freed.
    pub(crate) fn with_free(
        &self,
        alloc: Global,
        first: u32,
        n: u32,
    ) -> Result<PageList, AllocError>
        requires few { n ≤ 1024 }
        requires low { first ≤ 65535 }
        ensures { IfOk result (λ after. after ≡ with_free self.now first n) }
    {
        let free = with_run(alloc, self.free.as_slice(), true, first, n)?;
        Ok(PageList { free })
    }

    /// The run of this page alone, where it is a page that is not free.
    pub(crate) fn page_freed(&self, page: u16) -> Option<PageRun>
        ensures { result ≡ page_freed self.now page }
    {
        let first = u32::from(page);
        if first < PAGES && !is_free(self.free.as_slice(), first) {
            Some(PageRun {
                first: page,
                count: 1,
            })
        } else {
            None
        }
    }

    /// The same pages.
    pub(crate) fn copy(&self, alloc: Global) -> Result<PageList, AllocError>
        ensures { IfOk result (λ copy. copy ≡ self.now) }
    {
        let free = self.free.as_slice().to_vec(alloc)?;
        Ok(PageList { free })
    }
}

/// Each page from this one on is free, and no other.
fn free_from(alloc: Global, first: u32) -> Result<Vec<bool>, AllocError>
    ensures { IfOk result (λ free. record { free = free.items } ≡ free_from first) }
{
    let mut free = Vec::new(alloc);
    for page in 0..PAGES {
        free.push(first <= page)?;
    }
    Ok(free)
}

/// Whether a page is free.
fn is_free(free: &[bool], page: u32) -> bool
    ensures { result ≡ is_free (record { free = free.now }) page }
{
    match free.get(page as usize) {
        Some(is_free) => *is_free,
        None => false,
    }
}

/// Whether the n pages from this one on are free.
fn run_at(free: &[bool], n: u32, first: u32) -> bool
    requires few { n ≤ 1024 }
    requires low { first ≤ 1024 }
    ensures { result ≡ run_at (record { free = free.now }) n first }
{
    for page in first..first + n {
        if !is_free(free, page) {
            return false;
        }
    }
    true
}

/// The first page of the run of n pages that is given out next.
fn run_given(free: &[bool], n: u32) -> Option<u32>
    requires few { n ≤ 1024 }
    ensures value { result ≡ run_given (record { free = free.now }) n }
    ensures below { IfSome result (λ first. first ≤ 1023) }
{
    for first in 0..PAGES {
        if run_at(free, n, first) {
            return Some(first);
        }
    }
    None
}

/// The pages with those of the run of n pages from `first` on free, or not free.
fn with_run(
    alloc: Global,
    free: &[bool],
    value: bool,
    first: u32,
    n: u32,
) -> Result<Vec<bool>, AllocError>
    requires few { n ≤ 1024 }
    requires low { first ≤ 65535 }
    ensures { IfOk result (λ after. record { free = after.items } ≡ with_run value (record { free = free.now }) first n) }
{
    let mut after = Vec::new(alloc);
    for page in 0..PAGES {
        after.push(is_free_with(free, value, first, n, page))?;
    }
    Ok(after)
}

/// Whether a page is free once those of the run are free, or are not.
fn is_free_with(free: &[bool], value: bool, first: u32, n: u32, page: u32) -> bool
    requires few { n ≤ 1024 }
    requires low { first ≤ 65535 }
    ensures { result ≡ (if is_in_run n first page then value else is_free (record { free = free.now }) page) }
{
    if first <= page && page < first + n {
        value
    } else {
        is_free(free, page)
    }
}

/// How many pages so many words need.
pub(crate) fn pages_for(words: u32) -> u32
    requires { words ≤ 65535 }
    ensures value { result ≡ pages_for words }
    ensures few { result ≤ 1024 }
{
    (words + 63) / 64
}
