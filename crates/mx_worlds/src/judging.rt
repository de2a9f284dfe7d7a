//! LoadDesc and Recall: a process judges on its descriptor word, or on what its associative memory has of it.

ghost use Rattle.std.specs.Prelude.{MatchResult};
ghost use Rattle.mx_core.specs.Causes.{IsRefusal};
ghost use Rattle.mx_worlds.specs.Shows.{Shows};
ghost use Rattle.mx_core.specs.Steps.{Can, after};
ghost use Rattle.mx_core.specs.World.{World as WorldValue};
ghost use Rattle.mx_core.specs.declared.steps.Step.TheVariants.{LoadDesc, Recall};

use crate::worlds::World;
use mx_core::StepError::NotEnabled;
use mx_core::{Asked, Cause, Stage, StepError};

impl World {
    pub(crate) fn load_desc(
        &mut self,
        process: u8,
        segno: u16,
        asked: Asked,
    ) -> Result<(), StepError>
        ensures { (w : WorldValue) → Shows self.old w
            → MatchResult result (λ done. Can w (LoadDesc process segno asked.op asked.ring asked.word)
            × Shows self.new (after w (LoadDesc process segno asked.op asked.ring asked.word)))
            (λ why. IsRefusal w (LoadDesc process segno asked.op asked.ring asked.word) why × Shows self.new w) }
    {
        if process == 0 || process > self.processes {
            return Err(NotEnabled(Cause::Range));
        }
        let place = usize::from(process);
        if self.seats[place].stage != Stage::Ready {
            return Err(NotEnabled(Cause::NotReady { process }));
        }
        match self.seats[place].load_desc(segno, asked, self.start, self.alloc) {
            Ok(()) => Ok(()),
            Err(_) => Err(StepError::Memory),
        }
    }

    pub(crate) fn recall(&mut self, process: u8, segno: u16, asked: Asked) -> Result<(), StepError>
        ensures { (w : WorldValue) → Shows self.old w
            → MatchResult result (λ done. Can w (Recall process segno asked.op asked.ring asked.word)
            × Shows self.new (after w (Recall process segno asked.op asked.ring asked.word)))
            (λ why. IsRefusal w (Recall process segno asked.op asked.ring asked.word) why × Shows self.new w) }
    {
        if process == 0 || process > self.processes {
            return Err(NotEnabled(Cause::Range));
        }
        let place = usize::from(process);
        if self.seats[place].stage != Stage::Ready {
            return Err(NotEnabled(Cause::NotReady { process }));
        }
        let Some(triple) = self.seats[place].memory.recall(segno) else {
            return Err(NotEnabled(Cause::NoRecall { process, segno }));
        };
        match self.seats[place].judge(&triple, asked) {
            Ok(()) => Ok(()),
            Err(_) => Err(StepError::Memory),
        }
    }
}
