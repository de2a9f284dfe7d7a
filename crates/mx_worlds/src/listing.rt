//! The lists of an entry: no pair and no page is listed twice, and no page lies beyond the last.

ghost use Rattle.std.specs.Prelude.{◌≡◌, ◌+◌, nat_le};
ghost use Rattle.mx_worlds.specs.Listing.{lists_pair, pairs_once, share, lists_page, pages_once, pages_within};

use mx_core::{Change, Run};

/// Whether each pair is listed once.
pub(crate) fn pairs_once(changes: &[Change]) -> bool
    ensures { result ≡ pairs_once changes.now }
{
    match changes {
        [] => true,
        [change, rest @ ..] => !lists_pair(rest, change) && pairs_once(rest),
    }
}

/// Whether one of the changes is of the pair of another.
fn lists_pair(changes: &[Change], pair: &Change) -> bool
    ensures { result ≡ lists_pair changes.now pair.now }
{
    match changes {
        [] => false,
        [change, rest @ ..] => {
            (change.process == pair.process && change.segno == pair.segno) || lists_pair(rest, pair)
        },
    }
}

/// Whether each page is listed once.
pub(crate) fn pages_once(given: &[Run]) -> bool
    ensures { result ≡ pages_once given.now }
{
    match given {
        [] => true,
        [run, rest @ ..] => !lists_page(rest, run) && pages_once(rest),
    }
}

/// Whether one of the runs has a page of another.
fn lists_page(given: &[Run], run: &Run) -> bool
    ensures { result ≡ lists_page given.now run.now }
{
    match given {
        [] => false,
        [other, rest @ ..] => share(run, other) || lists_page(rest, run),
    }
}

/// Whether two runs have a page in common.
fn share(a: &Run, b: &Run) -> bool
    ensures { result ≡ share a.now b.now }
{
    let first = u32::from(a.page.max(b.page));
    first < u32::from(a.page) + u32::from(a.pages) && first < u32::from(b.page) + u32::from(b.pages)
}

/// Whether no page lies beyond the 1,024 pages of the memory.
pub(crate) fn pages_within(given: &[Run]) -> bool
    ensures { result ≡ pages_within given.now }
{
    match given {
        [] => true,
        [run, rest @ ..] => is_within(run) && pages_within(rest),
    }
}

fn is_within(run: &Run) -> bool
    ensures { result ≡ nat_le (run.now.page + run.now.pages) 1024 }
{
    u32::from(run.page) + u32::from(run.pages) <= 1024
}
