//! Strike and Settle: a changed descriptor word becomes a fault, and a fault becomes the present descriptor.

ghost use Rattle.std.specs.Prelude.{MatchResult};
ghost use Rattle.mx_core.specs.Causes.{IsRefusal};
ghost use Rattle.mx_worlds.specs.Shows.{Shows};
ghost use Rattle.mx_core.specs.Steps.{Can, after};
ghost use Rattle.mx_core.specs.World.{World as WorldValue};
ghost use Rattle.mx_core.specs.declared.steps.Step.TheVariants.{Strike, Settle};

use crate::worlds::World;
use mx_core::StepError::NotEnabled;
use mx_core::{Cause, StepError};

impl World {
    pub(crate) fn strike(&mut self, process: u8, segno: u16) -> Result<(), StepError>
        ensures { (w : WorldValue) → Shows self.old w
            → MatchResult result (λ done. Can w (Strike process segno)
            × Shows self.new (after w (Strike process segno)))
            (λ why. IsRefusal w (Strike process segno) why × Shows self.new w) }
    {
        if process == 0 || process > self.processes {
            return Err(NotEnabled(Cause::Range));
        }
        let place = usize::from(process);
        if segno >= self.seats[place].numbers {
            return Err(NotEnabled(Cause::Range));
        }
        if self.count <= self.answered {
            return Err(NotEnabled(Cause::NothingPending));
        }
        if !self.seats[place].is_changed(segno) {
            return Err(NotEnabled(Cause::NotChanged));
        }
        self.seats[place].strike(segno, self.count);
        Ok(())
    }

    pub(crate) fn settle(&mut self, process: u8, segno: u16) -> Result<(), StepError>
        ensures { (w : WorldValue) → Shows self.old w
            → MatchResult result (λ done. Can w (Settle process segno)
            × Shows self.new (after w (Settle process segno)))
            (λ why. IsRefusal w (Settle process segno) why × Shows self.new w) }
    {
        if process == 0 || process > self.processes {
            return Err(NotEnabled(Cause::Range));
        }
        let place = usize::from(process);
        if segno >= self.seats[place].numbers {
            return Err(NotEnabled(Cause::Range));
        }
        if self.answered < self.count {
            return Err(NotEnabled(Cause::Pending));
        }
        let Some(by) = self.seats[place].struck_by(segno) else {
            return Err(NotEnabled(Cause::NotFault));
        };
        self.seats[place].settle(segno, by);
        Ok(())
    }
}
