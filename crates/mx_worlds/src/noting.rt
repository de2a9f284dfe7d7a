//! Split, Join and Report: notes tell processes what the supervisor knows, and the supervisor how long traces are.

ghost use Rattle.std.specs.Prelude.{◌≡◌, ℕ, Some, MatchOption, MatchResult, slice_get};
ghost use Rattle.mx_core.specs.Causes.{IsRefusal};
ghost use Rattle.mx_worlds.specs.Shows.{Shows};
ghost use Rattle.mx_core.specs.Steps.{Can, after};
ghost use Rattle.mx_core.specs.World.{World as WorldValue};
ghost use Rattle.mx_core.specs.declared.steps.Step.TheVariants.{Split, Join, Report};

use crate::worlds::World;
use mx_core::StepError::NotEnabled;
use mx_core::{Cause, StepError};

impl World {
    pub(crate) fn split(&mut self) -> Result<(), StepError>
        ensures { (w : WorldValue) → Shows self.old w
            → MatchResult result (λ done. Can w (Split) × Shows self.new (after w (Split)))
            (λ why. IsRefusal w (Split) why × Shows self.new w) }
    {
        if self.answered < self.count {
            return Err(NotEnabled(Cause::Pending));
        }
        if self.notes.push(Some(self.answered)).is_err() {
            return Err(StepError::Memory);
        }
        Ok(())
    }

    pub(crate) fn join(&mut self, process: u8, note: u32) -> Result<(), StepError>
        ensures { (w : WorldValue) → Shows self.old w
            → MatchResult result (λ done. Can w (Join process note) × Shows self.new (after w (Join process note)))
            (λ why. IsRefusal w (Join process note) why × Shows self.new w) }
    {
        if process > self.processes {
            return Err(NotEnabled(Cause::Range));
        }
        let Some(floor) = self.waiting(note) else {
            return Err(NotEnabled(Cause::NoNote));
        };
        self.seats[usize::from(process)].join(floor);
        self.notes[note as usize] = None;
        Ok(())
    }

    pub(crate) fn report(&mut self, process: u8, length: u32) -> Result<(), StepError>
        ensures { (w : WorldValue) → Shows self.old w
            → MatchResult result (λ done. Can w (Report process length)
            × Shows self.new (after w (Report process length)))
            (λ why. IsRefusal w (Report process length) why × Shows self.new w) }
    {
        if process == 0 || process > self.processes {
            return Err(NotEnabled(Cause::Range));
        }
        let place = usize::from(process);
        if length as usize > self.seats[place].trace.len() {
            return Err(NotEnabled(Cause::Range));
        }
        self.seats[place].report(length);
        Ok(())
    }

    /// The floor of a note that waits to be joined.
    fn waiting(&self, note: u32) -> Option<u32>
        ensures { MatchOption result ((floor : ℕ) → slice_get self.now.notes.items note ≡ Some (Some floor) → ⊥)
            (λ floor. slice_get self.now.notes.items note ≡ Some (Some floor)) }
    {
        let place = note as usize;
        if place < self.notes.len() {
            self.notes[place]
        } else {
            None
        }
    }
}
