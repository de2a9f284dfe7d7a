//! The laws of the core, over the definitions alone.

ghost use Rattle.mx_core.specs.Revocation.{PrivateMemoryLaw, RevocationLaw};
ghost use Rattle.mx_core.specs.Row.{RowLaw};
ghost use Rattle.mx_core.specs.Laws.{OpeningLaw, AppendLaw, StrikeLaw, ConnectLaw, LookLaw, AcknowledgeLaw, AnswerLaw, SettleLaw, ClearLaw, SplitLaw, ReportLaw, EnterLaw, LoadConnectLaw, LoadDescLaw, RecallLaw, LoadCellLaw, StoreCellLaw, LeaveLaw, JoinLaw, StepLaw, RunLaw, HistoryLaw, UseLaw, CauseLaw, SentencesLaw, DecidedLaw};

/// An opening world meets the invariant.
pub fn opening_is_good()
    ensures { OpeningLaw }
{}

/// A step of the supervisor keeps the invariant, whichever its kind.
pub fn supervisor_keeps()
    ensures append { AppendLaw }
    ensures strike { StrikeLaw }
    ensures connect { ConnectLaw }
    ensures look { LookLaw }
    ensures acknowledge { AcknowledgeLaw }
    ensures answer { AnswerLaw }
    ensures settle { SettleLaw }
    ensures clear { ClearLaw }
    ensures split { SplitLaw }
    ensures report { ReportLaw }
{}

/// A step of a process keeps it too.
pub fn process_keeps()
    ensures enter { EnterLaw }
    ensures load_connect { LoadConnectLaw }
    ensures load_desc { LoadDescLaw }
    ensures recall { RecallLaw }
    ensures load_cell { LoadCellLaw }
    ensures store_cell { StoreCellLaw }
    ensures leave { LeaveLaw }
    ensures join { JoinLaw }
{}

/// So it holds after every list of enabled steps, from any opening world.
pub fn invariant_holds()
    ensures step { StepLaw }
    ensures run { RunLaw }
    ensures history { HistoryLaw }
{}

/// A page that a descriptor covers all along has the same use all along: it is given out to nobody meanwhile.
pub fn uses_stand()
    ensures { UseLaw }
{}

/// A worked revocation: each step is enabled; process 2 reads what process 1 stored after the change, misses the number
/// whose word was struck, and is denied once it settled. Without the Strike the entry is not answered.
pub fn worked_row()
    ensures { RowLaw }
{}

/// A step that has a cause is not enabled, and each step of a good world is enabled or has a cause.
pub fn causes_refuse()
    ensures refused { CauseLaw }
    ensures decided { DecidedLaw }
{}

/// What the invariant says of the end of the history: of valid words, of faults, and of what processes keep.
pub fn said_of_the_end()
    ensures { SentencesLaw }
{}

/// Once a change of access is answered, no reference rests on the older access, after every list of steps from every
/// opening: also none that is judged on a private memory, and also where pages are used again.
pub fn no_reference_rests_on_older_access()
    ensures revocation { RevocationLaw }
    ensures private_memory { PrivateMemoryLaw }
{}
