//! Clear: a cell of a page that no descriptor covers becomes zero, before the page is given out again.

ghost use Rattle.std.specs.Prelude.{ℕ, ◌≡◌, true, MatchBool, MatchResult};
ghost use Rattle.mx_core.specs.Causes.{IsRefusal};
ghost use Rattle.mx_core.specs.Memory.{IsBare};
ghost use Rattle.mx_core.specs.Pages.{covers};
ghost use Rattle.mx_worlds.specs.Shows.{Shows};
ghost use Rattle.mx_core.specs.Steps.{Can, after};
ghost use Rattle.mx_core.specs.World.{World as WorldValue};
ghost use Rattle.mx_core.specs.declared.steps.Step.TheVariants.{Clear};

use crate::worlds::World;
use mx_core::StepError::NotEnabled;
use mx_core::{Cause, Held, StepError};
use mx_sdw::Word;

impl World {
    pub(crate) fn clear(&mut self, cell: u32) -> Result<(), StepError>
        ensures { (w : WorldValue) → Shows self.old w
            → MatchResult result (λ done. Can w (Clear cell) × Shows self.new (after w (Clear cell)))
            (λ why. IsRefusal w (Clear cell) why × Shows self.new w) }
    {
        if cell >= 65_536 {
            return Err(NotEnabled(Cause::Range));
        }
        if self.answered < self.count {
            return Err(NotEnabled(Cause::Pending));
        }
        let page = cell / 64;
        if self.is_covered(page) {
            return Err(NotEnabled(Cause::InUse { page: page as u16 }));
        }
        let place = cell as usize;
        self.cells[place] = Held {
            value: Word::zero(),
            writer: 0,
            stamp: 0,
        };
        self.clean[place] = true;
        self.ready[page as usize] = false;
        Ok(())
    }

    /// Whether a present descriptor covers a page.
    fn is_covered(&self, page: u32) -> bool
        ensures { (w : WorldValue) → Shows self.now w
            → MatchBool result (IsBare (w.table w.length) page → ⊥) (IsBare (w.table w.length) page) }
    {
        for place in 1..usize::from(self.processes) + 1 {
            if self.seats[place].covers(page) {
                return true;
            }
        }
        false
    }
}
