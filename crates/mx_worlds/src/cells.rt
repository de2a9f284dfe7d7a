//! LoadCell and StoreCell: the cell step of a granted reference.

ghost use Rattle.std.specs.Prelude.{MatchResult};
ghost use Rattle.mx_core.specs.Causes.{IsRefusal};
ghost use Rattle.mx_worlds.specs.Shows.{Shows};
ghost use Rattle.mx_core.specs.Steps.{Can, after};
ghost use Rattle.mx_core.specs.World.{World as WorldValue};
ghost use Rattle.mx_core.specs.declared.steps.Step.TheVariants.{LoadCell, StoreCell};

use crate::worlds::World;
use mx_core::StepError::NotEnabled;
use mx_core::{Cause, Held, StepError};
use mx_sdw::Word;

impl World {
    pub(crate) fn load_cell(&mut self, process: u8) -> Result<(), StepError>
        ensures { (w : WorldValue) → Shows self.old w
            → MatchResult result (λ done. Can w (LoadCell process) × Shows self.new (after w (LoadCell process)))
            (λ why. IsRefusal w (LoadCell process) why × Shows self.new w) }
    {
        if process == 0 || process > self.processes {
            return Err(NotEnabled(Cause::Range));
        }
        let place = usize::from(process);
        let Some((triple, asked)) = self.seats[place].held_read() else {
            return Err(NotEnabled(Cause::NoHold));
        };
        // No descriptor reaches past the last cell, so what is held lies in the memory.
        let cell = 64 * usize::from(triple.desc.page()) + usize::from(asked.word);
        if cell >= self.cells.len() {
            return Err(NotEnabled(Cause::NoHold));
        }
        let held = self.cells[cell];
        match self.seats[place].read(&triple, asked, &held) {
            Ok(()) => Ok(()),
            Err(_) => Err(StepError::Memory),
        }
    }

    pub(crate) fn store_cell(&mut self, process: u8, value: Word) -> Result<(), StepError>
        ensures { (w : WorldValue) → Shows self.old w
            → MatchResult result (λ done. Can w (StoreCell process value)
            × Shows self.new (after w (StoreCell process value)))
            (λ why. IsRefusal w (StoreCell process value) why × Shows self.new w) }
    {
        if process == 0 || process > self.processes {
            return Err(NotEnabled(Cause::Range));
        }
        let place = usize::from(process);
        let Some((triple, asked)) = self.seats[place].held_write() else {
            return Err(NotEnabled(Cause::NoHold));
        };
        // No descriptor reaches past the last cell, so what is held lies in the memory.
        let cell = 64 * usize::from(triple.desc.page()) + usize::from(asked.word);
        if cell >= self.cells.len() {
            return Err(NotEnabled(Cause::NoHold));
        }
        let stamp = self.seats[place].floor;
        match self.seats[place].wrote(&triple, asked, value) {
            Ok(()) => {
                self.cells[cell] = Held {
                    value,
                    writer: process,
                    stamp,
                };
                Ok(())
            },
            Err(_) => Err(StepError::Memory),
        }
    }
}
