//! Each step keeps the rule: whatever the table is, the step's word and the view of its seat may change so.

ghost use Rattle.mx_rule.specs.Acknowledging.{ConnectAllowed, AcknowledgeAllowed, AnswerAllowed};
ghost use Rattle.mx_rule.specs.Appending.{AppendAllowed};
ghost use Rattle.mx_rule.specs.CellSteps.{LoadCellAllowed, StoreCellAllowed};
ghost use Rattle.mx_rule.specs.Clearing.{ClearAllowed};
ghost use Rattle.mx_rule.specs.Dealing.{OpeningAllowed, DealAllowed, RetireAllowed};
ghost use Rattle.mx_rule.specs.Ending.{EndIsRight};
ghost use Rattle.mx_rule.specs.Entering.{EnterAllowed, LoadConnectAllowed, LeaveAllowed};
ghost use Rattle.mx_rule.specs.Loading.{LoadDescAllowed, LoadUnknownAllowed, RecallAllowed};
ghost use Rattle.mx_rule.specs.Notes.{SplitAllowed, JoinAllowed, MakesReportAllowed, ReportAllowed};
ghost use Rattle.mx_rule.specs.Striking.{StrikeAllowed, SettleAllowed};
ghost use Rattle.mx_rule.specs.Telling.{HearAllowed, ListenAllowed};

/// A step of the supervisor keeps the rule, whichever its kind; Look and Acknowledge are one load of the flag.
pub fn office_keeps<E>()
    ensures append { AppendAllowed E }
    ensures strike { StrikeAllowed E }
    ensures connect { ConnectAllowed E }
    ensures acknowledge { AcknowledgeAllowed E }
    ensures answer { AnswerAllowed E }
    ensures settle { SettleAllowed E }
    ensures clear { ClearAllowed E }
    ensures split { SplitAllowed E }
    ensures report { ReportAllowed E }
{}

/// A step of a process keeps it too.
pub fn pass_keeps<E>()
    ensures enter { EnterAllowed E }
    ensures load_connect { LoadConnectAllowed E }
    ensures load_desc { LoadDescAllowed E }
    ensures load_unknown { LoadUnknownAllowed E }
    ensures recall { RecallAllowed E }
    ensures load_cell { LoadCellAllowed E }
    ensures store_cell { StoreCellAllowed E }
    ensures leave { LeaveAllowed E }
    ensures join { JoinAllowed E }
{}

/// So do the moves that are no steps: the opening, the dealing of the processes' seats, the making of a report, the
/// return of a seat, and a load that tells the supervisor what the rule says. What the end tells is right.
pub fn seats_keep<E>()
    ensures opening { OpeningAllowed E }
    ensures deal { DealAllowed E }
    ensures makes_report { MakesReportAllowed E }
    ensures retire { RetireAllowed E }
    ensures hear { HearAllowed E }
    ensures listen { ListenAllowed E }
    ensures end { EndIsRight E }
{}
