//! Look and Acknowledge: the supervisor sees whether a process has left.

ghost use Rattle.std.specs.Prelude.{MatchResult};
ghost use Rattle.mx_core.specs.Causes.{IsRefusal};
ghost use Rattle.mx_worlds.specs.Shows.{Shows};
ghost use Rattle.mx_core.specs.Steps.{Can, after};
ghost use Rattle.mx_core.specs.World.{World as WorldValue};
ghost use Rattle.mx_core.specs.declared.steps.Step.TheVariants.{Connect, Look, Acknowledge};

use crate::worlds::World;
use mx_core::StepError::NotEnabled;
use mx_core::{Cause, StepError};

impl World {
    pub(crate) fn look(&mut self, process: u8) -> Result<(), StepError>
        ensures { (w : WorldValue) → Shows self.old w
            → MatchResult result (λ done. Can w (Look process) × Shows self.new (after w (Look process)))
            (λ why. IsRefusal w (Look process) why × Shows self.new w) }
    {
        if process == 0 || process > self.processes {
            return Err(NotEnabled(Cause::Range));
        }
        if self.count <= self.answered {
            return Err(NotEnabled(Cause::NothingPending));
        }
        let place = usize::from(process);
        if self.seats[place].connect != self.count {
            return Err(NotEnabled(Cause::Unconnected { process }));
        }
        if self.seats[place].flag == 0 {
            return Err(NotEnabled(Cause::Outside { process }));
        }
        self.seats[place].keep_look();
        Ok(())
    }

    pub(crate) fn acknowledge(&mut self, process: u8) -> Result<(), StepError>
        ensures { (w : WorldValue) → Shows self.old w
            → MatchResult result (λ done. Can w (Acknowledge process) × Shows self.new (after w (Acknowledge process)))
            (λ why. IsRefusal w (Acknowledge process) why × Shows self.new w) }
    {
        if process == 0 || process > self.processes {
            return Err(NotEnabled(Cause::Range));
        }
        if self.count <= self.answered {
            return Err(NotEnabled(Cause::NothingPending));
        }
        let place = usize::from(process);
        if self.seats[place].connect != self.count {
            return Err(NotEnabled(Cause::Unconnected { process }));
        }
        if !self.seats[place].has_left() {
            return Err(NotEnabled(Cause::Inside { process }));
        }
        self.seats[place].acknowledge();
        Ok(())
    }

    pub(crate) fn connect(&mut self, process: u8) -> Result<(), StepError>
        ensures { (w : WorldValue) → Shows self.old w
            → MatchResult result (λ done. Can w (Connect process) × Shows self.new (after w (Connect process)))
            (λ why. IsRefusal w (Connect process) why × Shows self.new w) }
    {
        if process == 0 || process > self.processes {
            return Err(NotEnabled(Cause::Range));
        }
        if self.count <= self.answered {
            return Err(NotEnabled(Cause::NothingPending));
        }
        let place = usize::from(process);
        let Some(_) = self.seats[place].first_change() else {
            return Err(NotEnabled(Cause::NotChanged));
        };
        if let Some(segno) = self.seats[place].first_unstruck(self.count) {
            return Err(NotEnabled(Cause::Unstruck { process, segno }));
        }
        self.seats[place].connect(self.count);
        Ok(())
    }
}
