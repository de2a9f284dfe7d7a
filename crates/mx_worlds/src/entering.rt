//! Enter, LoadConnect and Leave: a process goes in, reads whether its memory still stands, and goes out.

ghost use Rattle.std.specs.Prelude.{MatchResult};
ghost use Rattle.mx_core.specs.Causes.{IsRefusal};
ghost use Rattle.mx_worlds.specs.Shows.{Shows};
ghost use Rattle.mx_core.specs.Steps.{Can, after};
ghost use Rattle.mx_core.specs.World.{World as WorldValue};
ghost use Rattle.mx_core.specs.declared.steps.Step.TheVariants.{Enter, LoadConnect, Leave};

use crate::worlds::World;
use mx_core::StepError::NotEnabled;
use mx_core::{Cause, Stage, StepError};

impl World {
    pub(crate) fn enter(&mut self, process: u8) -> Result<(), StepError>
        ensures { (w : WorldValue) → Shows self.old w
            → MatchResult result (λ done. Can w (Enter process) × Shows self.new (after w (Enter process)))
            (λ why. IsRefusal w (Enter process) why × Shows self.new w) }
    {
        if process == 0 || process > self.processes {
            return Err(NotEnabled(Cause::Range));
        }
        let place = usize::from(process);
        if self.seats[place].stage != Stage::Outside {
            return Err(NotEnabled(Cause::Inside { process }));
        }
        self.seats[place].enter();
        Ok(())
    }

    pub(crate) fn load_connect(&mut self, process: u8) -> Result<(), StepError>
        ensures { (w : WorldValue) → Shows self.old w
            → MatchResult result (λ done. Can w (LoadConnect process) × Shows self.new (after w (LoadConnect process)))
            (λ why. IsRefusal w (LoadConnect process) why × Shows self.new w) }
    {
        if process == 0 || process > self.processes {
            return Err(NotEnabled(Cause::Range));
        }
        let place = usize::from(process);
        if self.seats[place].stage != Stage::Entering {
            return Err(NotEnabled(Cause::NotEntering { process }));
        }
        self.seats[place].load_connect(self.alloc);
        Ok(())
    }

    pub(crate) fn leave(&mut self, process: u8) -> Result<(), StepError>
        ensures { (w : WorldValue) → Shows self.old w
            → MatchResult result (λ done. Can w (Leave process) × Shows self.new (after w (Leave process)))
            (λ why. IsRefusal w (Leave process) why × Shows self.new w) }
    {
        if process == 0 || process > self.processes {
            return Err(NotEnabled(Cause::Range));
        }
        let place = usize::from(process);
        if self.seats[place].stage == Stage::Outside {
            return Err(NotEnabled(Cause::Outside { process }));
        }
        self.seats[place].leave();
        Ok(())
    }
}
