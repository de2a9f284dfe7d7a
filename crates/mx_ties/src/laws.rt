//! Laws over the definitions.

ghost use Rattle.mx_ties.specs.Counting.{CountingLaw};
ghost use Rattle.mx_ties.specs.Finished.{FinishedLaw};
ghost use Rattle.mx_ties.specs.Fronts.{FrontLaw};
ghost use Rattle.mx_ties.specs.Going.{SeenLaw, MissLaw, EnteredLaw};
ghost use Rattle.mx_ties.specs.Matching.{TransportLaw};
ghost use Rattle.mx_ties.specs.Sample.{Sample};
ghost use Rattle.mx_ties.specs.Working.{WorkedLaw, BeginWorkLaw, SeenWorkLaw, FilledWorkLaw, DeniedFillLaw, MissedFillLaw, MissedWorkLaw, EnteredWorkLaw, ToldWorkLaw, EndedWorkLaw, CutWorkLaw, LastWorkLaw, IdleWorkLaw, UnspoiltLaw, WorkedRunLaw};
ghost use Rattle.mx_ties.specs.Steps.{FirstLineLaw, NoLineLaw, SeenStepLaw, FillStepLaw, MissStepLaw, EntryStepLaw, LineStepLaw, LastLineLaw};

/// A run whose processes have all run, and whose office is closed, is legal.
pub fn finished_law()
    ensures { FinishedLaw }
{}

/// Where each process names rising numbers of its own entries, and all together name as many as there are, each names
/// all.
pub fn counting_law()
    ensures { CountingLaw }
{}

/// What is known at a point lies among the first events of a trace that the mark of an entry up to it counts.
pub fn front_law()
    ensures { FrontLaw }
{}

/// Reads that are right in the traces are right in the transcripts.
pub fn transport_law()
    ensures { TransportLaw }
{}

/// A process that runs keeps its points and its misses.
pub fn going_law()
    ensures seen { SeenLaw }
    ensures missed { MissLaw }
    ensures entered { EnteredLaw }
{}

/// A process with a line at work keeps its ties at each step, and has run when its last line ends.
pub fn steps_law()
    ensures first { FirstLineLaw }
    ensures none { NoLineLaw }
    ensures seen { SeenStepLaw }
    ensures filled { FillStepLaw }
    ensures missed { MissStepLaw }
    ensures entered { EntryStepLaw }
    ensures line { LineStepLaw }
    ensures last { LastLineLaw }
{}

/// A process whose lines are right unless a write failed keeps its ties at each step, and has worked when its last line
/// ends. When the office is closed none has failed, so the run of such processes is legal.
pub fn working_law()
    ensures begin { BeginWorkLaw }
    ensures seen { SeenWorkLaw }
    ensures filled { FilledWorkLaw }
    ensures denied { DeniedFillLaw }
    ensures missed_fill { MissedFillLaw }
    ensures missed { MissedWorkLaw }
    ensures entered { EnteredWorkLaw }
    ensures told { ToldWorkLaw }
    ensures ended { EndedWorkLaw }
    ensures cut { CutWorkLaw }
    ensures last { LastWorkLaw }
    ensures idle { IdleWorkLaw }
    ensures worked { WorkedLaw }
    ensures unspoilt { UnspoiltLaw }
    ensures run { WorkedRunLaw }
{}

/// There is a run that meets all of this.
pub fn sample_law()
    ensures { Sample }
{}
