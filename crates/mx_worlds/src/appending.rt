//! Append: an entry of the journal comes.

ghost use Rattle.std.specs.Prelude.{ℕ, ◌≡◌, ◌<◌, ◌≤◌, ◌+◌, Some, MatchBool, MatchOption, MatchResult, slice_get, vec_len};
ghost use Rattle.mx_core.specs.Append.{IsGoodChange, IsEntryInRange, IsClearAt, IsCoveredAt};
ghost use Rattle.mx_core.specs.Causes.{IsRefusal};
ghost use Rattle.mx_core.specs.FirstFailing.{IsFirstNot};
ghost use Rattle.mx_worlds.specs.Marking.{IsCleanPage, AreWithin, AreGood};
ghost use Rattle.mx_worlds.specs.Shows.{Shows};
ghost use Rattle.mx_core.specs.Steps.{Can, after};
ghost use Rattle.mx_core.specs.World.{World as WorldValue};
ghost use Rattle.mx_core.specs.declared.steps.Step.TheVariants.{Append};

use crate::covering::{admits, covered_anew, gives};
use crate::listing::{pages_once, pages_within, pairs_once};
use crate::marking::{make_ready, put_changes, soil};
use crate::worlds::World;
use mx_core::StepError::NotEnabled;
use mx_core::{Cause, Change, Run, StepError};

impl World {
    pub(crate) fn append(
        &mut self,
        process: u8,
        changes: &[Change],
        given: &[Run],
    ) -> Result<(), StepError>
        ensures { (w : WorldValue) → Shows self.old w
            → MatchResult result (λ done. Can w (Append process changes.now given.now)
            × Shows self.new (after w (Append process changes.now given.now)))
            (λ why. IsRefusal w (Append process changes.now given.now) why × Shows self.new w) }
    {
        if !self.is_in_range(process, changes, given) {
            return Err(NotEnabled(Cause::Range));
        }
        if self.count >= 262_143 {
            return Err(NotEnabled(Cause::Limit));
        }
        if self.answered < self.count {
            return Err(NotEnabled(Cause::Pending));
        }
        if let Some(page) = self.first_unclear(given) {
            return Err(NotEnabled(Cause::NotClear { page }));
        }
        if let Some(page) = self.first_not_given(changes, given) {
            return Err(NotEnabled(Cause::NotGiven { page }));
        }
        put_changes(&mut self.seats, changes);
        make_ready(&mut self.ready, given);
        soil(&mut self.clean, changes);
        self.count += 1;
        Ok(())
    }

    /// Whether the process, the pairs, the descriptors and the pages are in range, and each pair and page listed once.
    fn is_in_range(&self, process: u8, changes: &[Change], given: &[Run]) -> bool
        ensures { (w : WorldValue) → Shows self.now w
            → MatchBool result (IsEntryInRange w process changes.now given.now)
            (IsEntryInRange w process changes.now given.now → ⊥) }
    {
        if process == 0 || process > self.processes {
            return false;
        }
        if !self.are_good(changes) {
            return false;
        }
        if !pairs_once(changes) {
            return false;
        }
        if !pages_within(given) {
            return false;
        }
        pages_once(given)
    }

    /// Whether each change is of a pair of the table, to a descriptor that it may have.
    fn are_good(&self, changes: &[Change]) -> bool
        ensures { (w : WorldValue) → Shows self.now w
            → MatchBool result (AreGood w changes.now) (AreGood w changes.now → ⊥) }
    {
        match changes {
            [] => true,
            [change, rest @ ..] => self.is_good(change) && self.are_good(rest),
        }
    }

    fn is_good(&self, change: &Change) -> bool
        ensures { (w : WorldValue) → Shows self.now w
            → MatchBool result (IsGoodChange w change.now) (IsGoodChange w change.now → ⊥) }
    {
        if change.process == 0 || change.process > self.processes {
            return false;
        }
        if change.segno >= self.numbers {
            return false;
        }
        admits(&change.desc)
    }

    /// The first page that is given and has a cell that is not clean.
    fn first_unclear(&self, given: &[Run]) -> Option<u16>
        ensures { (w : WorldValue) → Shows self.now w → AreWithin given.now
            → MatchOption result ((page : ℕ) → IsClearAt w given.now page) (IsFirstNot (IsClearAt w given.now)) }
    {
        for page in 0..1024_u32 {
            if !self.is_clear(given, page) {
                return Some(page as u16);
            }
        }
        None
    }

    /// Whether a page is not given, or has only clean cells.
    fn is_clear(&self, given: &[Run], page: u32) -> bool
        requires { page < 1024 }
        ensures { (w : WorldValue) → Shows self.now w
            → MatchBool result (IsClearAt w given.now page) (IsClearAt w given.now page → ⊥) }
    {
        if !gives(given, page) {
            return true;
        }
        self.is_clean(page)
    }

    /// Whether a page has only clean cells.
    fn is_clean(&self, page: u32) -> bool
        requires { page < 1024 }
        ensures { (w : WorldValue) → Shows self.now w
            → MatchBool result (IsCleanPage w page) (IsCleanPage w page → ⊥) }
    {
        let first = 64 * page as usize;
        for cell in first..first + 64 {
            if !self.clean[cell] {
                return false;
            }
        }
        true
    }

    /// The first page that a new descriptor covers and that is neither ready nor given.
    fn first_not_given(&self, changes: &[Change], given: &[Run]) -> Option<u16>
        ensures { (w : WorldValue) → Shows self.now w → AreGood w changes.now
            → MatchOption result ((page : ℕ) → IsCoveredAt w changes.now given.now page)
            (IsFirstNot (IsCoveredAt w changes.now given.now)) }
    {
        for page in 0..1024_u32 {
            if !self.is_given(changes, given, page) {
                return Some(page as u16);
            }
        }
        None
    }

    /// Whether a page is not covered anew, or is ready or given.
    fn is_given(&self, changes: &[Change], given: &[Run], page: u32) -> bool
        requires { page < 1024 }
        ensures { (w : WorldValue) → Shows self.now w
            → MatchBool result (IsCoveredAt w changes.now given.now page)
            (IsCoveredAt w changes.now given.now page → ⊥) }
    {
        if !covered_anew(changes, page) {
            return true;
        }
        gives(given, page) || self.ready[page as usize]
    }
}
