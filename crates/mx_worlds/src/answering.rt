//! Answer: the pending entry is done.

ghost use Rattle.std.specs.Prelude.{ℕ, ◌<◌, Some, MatchOption, MatchResult, slice_get, vec_len, ◌≡◌};
ghost use Rattle.mx_core.specs.Causes.{IsRefusal, StruckAt, AcknowledgedAt};
ghost use Rattle.mx_core.specs.FirstFailing.{IsFirstNot, IsFirstPairNot};
ghost use Rattle.mx_worlds.specs.Seating.{answered_columns};
ghost use Rattle.mx_worlds.specs.Shows.{Columns, ShowsSeat, Shows};
ghost use Rattle.mx_core.specs.Steps.{Can, after};
ghost use Rattle.mx_core.specs.World.{World as WorldValue};
ghost use Rattle.mx_worlds.specs.declared.seats.Seat.{Seat as SeatValue};
ghost use Rattle.mx_core.specs.declared.steps.Step.TheVariants.{Answer};

use crate::seats::Seat;
use crate::worlds::World;
use mx_core::StepError::NotEnabled;
use mx_core::{Cause, StepError};

impl World {
    pub(crate) fn answer(&mut self) -> Result<(), StepError>
        ensures { (w : WorldValue) → Shows self.old w
            → MatchResult result (λ done. Can w (Answer) × Shows self.new (after w (Answer)))
            (λ why. IsRefusal w (Answer) why × Shows self.new w) }
    {
        if self.count <= self.answered {
            return Err(NotEnabled(Cause::NothingPending));
        }
        if let Some((process, segno)) = self.first_unstruck() {
            return Err(NotEnabled(Cause::Unstruck { process, segno }));
        }
        if let Some(process) = self.first_unacknowledged() {
            return Err(NotEnabled(Cause::Unacknowledged { process }));
        }
        answer_all(&mut self.seats);
        self.answered = self.count;
        Ok(())
    }

    /// The first changed pair whose word is not struck.
    fn first_unstruck(&self) -> Option<(u8, u16)>
        ensures { (w : WorldValue) → Shows self.now w
            → MatchOption result ((p n : ℕ) → StruckAt w p n) (λ pair. IsFirstPairNot (StruckAt w) pair.0 pair.1) }
    {
        for place in 1..usize::from(self.processes) + 1 {
            if let Some(segno) = self.seats[place].first_unstruck(self.count) {
                return Some((place as u8, segno));
            }
        }
        None
    }

    /// The first process that has a changed pair and has not acknowledged.
    fn first_unacknowledged(&self) -> Option<u8>
        ensures { (w : WorldValue) → Shows self.now w
            → MatchOption result ((p : ℕ) → AcknowledgedAt w p) (IsFirstNot (AcknowledgedAt w)) }
    {
        for place in 1..usize::from(self.processes) + 1 {
            let process = place as u8;
            if self.seats[place].owes() {
                return Some(process);
            }
        }
        None
    }
}

/// Takes the present descriptors as answered in each seat.
fn answer_all(seats: &mut Vec<Seat>)
    ensures shown { (many : ℕ) (f : ℕ → Columns)
        → ((p : ℕ) (s : SeatValue) → slice_get seats.old.items p ≡ Some s → ShowsSeat many s (f p))
        → (p : ℕ) (s : SeatValue) → slice_get seats.new.items p ≡ Some s → ShowsSeat many s (answered_columns (f p)) }
    ensures len { vec_len seats.new ≡ vec_len seats.old }
{
    for place in 0..seats.len() {
        seats[place].answer();
    }
}
