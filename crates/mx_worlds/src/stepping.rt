//! One step of any kind, and a list of steps.

ghost use Rattle.std.specs.Prelude.{MatchResult};
ghost use Rattle.mx_core.specs.Causes.{IsRefusal};
ghost use Rattle.mx_worlds.specs.Running.{StopsAt};
ghost use Rattle.mx_worlds.specs.Shows.{Shows};
ghost use Rattle.mx_core.specs.Steps.{Can, after, CanAll, after_all};
ghost use Rattle.mx_core.specs.World.{World as WorldValue};

use crate::worlds::World;
use mx_core::{Asked, Step, StepError, Steps};

impl World {
    /// Makes one step. A step that is not enabled has its first failing condition as its cause and changes nothing;
    /// nor does one for which memory is refused, which is enabled and of a kind that takes some.
    pub fn step(&mut self, step: &Step) -> Result<(), StepError>
        ensures { (w : WorldValue) → Shows self.old w
            → MatchResult result (λ done. Can w step.now × Shows self.new (after w step.now))
            (λ why. IsRefusal w step.now why × Shows self.new w) }
    {
        match step {
            Step::Append {
                process,
                changes,
                given,
            } => self.append(*process, changes.items(), given.items()),
            Step::Strike { process, segno } => self.strike(*process, *segno),
            Step::Connect { process } => self.connect(*process),
            Step::Look { process } => self.look(*process),
            Step::Acknowledge { process } => self.acknowledge(*process),
            Step::Answer => self.answer(),
            Step::Settle { process, segno } => self.settle(*process, *segno),
            Step::Clear { cell } => self.clear(*cell),
            Step::Split => self.split(),
            Step::Report { process, length } => self.report(*process, *length),
            Step::Enter { process } => self.enter(*process),
            Step::LoadConnect { process } => self.load_connect(*process),
            Step::LoadDesc {
                process,
                segno,
                op,
                ring,
                word,
            } => {
                let (op, ring, word) = (*op, *ring, *word);
                self.load_desc(*process, *segno, Asked { op, ring, word })
            },
            Step::Recall {
                process,
                segno,
                op,
                ring,
                word,
            } => {
                let (op, ring, word) = (*op, *ring, *word);
                self.recall(*process, *segno, Asked { op, ring, word })
            },
            Step::LoadCell { process } => self.load_cell(*process),
            Step::StoreCell { process, value } => self.store_cell(*process, *value),
            Step::Leave { process } => self.leave(*process),
            Step::Join { process, note } => self.join(*process, *note),
        }
    }

    /// Makes the steps of a list in order, and stops at the first that is refused, which leaves what those before it
    /// left.
    pub fn run(&mut self, steps: &Steps) -> Result<(), StepError>
        ensures { (w : WorldValue) → Shows self.old w
            → MatchResult result (λ done. CanAll w steps.now × Shows self.new (after_all w steps.now))
            (λ why. StopsAt w steps.now why self.new) }
    {
        for step in steps.items() {
            self.step(step)?;
        }
        Ok(())
    }
}
