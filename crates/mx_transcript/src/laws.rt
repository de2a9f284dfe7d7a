//! Laws over the definitions.

ghost use Rattle.std.specs.Prelude.{◌≡◌, ◌≤◌, List, [], ◌∷◌, ◌++◌, length};
ghost use Rattle.mx_transcript.specs.Confidentiality.{GivenWordsLaw};
ghost use Rattle.mx_transcript.specs.Denials.{denial_of, denials, last_denial};
ghost use Rattle.mx_transcript.specs.Dues.{SectionWordLaw, SnappedLaw, NoMoreLaw};
ghost use Rattle.mx_transcript.specs.Integrity.{GrantedStoresLaw, WrittenBeforeReadLaw};
ghost use Rattle.mx_transcript.specs.Printed.{EachReferenceLaw};
ghost use Rattle.mx_transcript.specs.Revocation.{ToldLaw, DeniedLaw, RevocationLaw};
ghost use Rattle.mx_transcript.specs.Rings.{LineRingsLaw, RingsLaw, LegalRingsLaw};
ghost use Rattle.mx_transcript.specs.SetupLines.{SetupLinesLaw};
ghost use Rattle.mx_transcript.specs.SoFar.{ReferenceLaw, FillLaw, MissLaw, CallLaw, LineLaw, ExtendsLaw, GrownLaw, OneOutcomeLaw};
ghost use Rattle.mx_transcript.specs.Standing.{WalkBegunLaw, WalkLaw, TraceLaw, FillTraceLaw, PromiseLaw, FullLaw};
ghost use Rattle.mx_transcript.specs.Transcripts.{Step};
ghost use Rattle.mx_transcript.specs.CallLines.{RightTransfers, WrongTransfers, WrongRegisters};
ghost use Rattle.mx_transcript.specs.LinkLines.{RightLinks, WrongLinks};
ghost use Rattle.mx_transcript.specs.PointerLines.{RightPointers, WrongPointers};
ghost use Rattle.mx_transcript.specs.WaitingLines.{RightWaits, WrongWaits, LimitLines};
ghost use Rattle.mx_transcript.specs.UpwardLines.{RightUpward, WrongUpward, WrongLeft};
ghost use Rattle.mx_transcript.specs.WrongFalls.{WrongFalls, WrongWaysBack};
ghost use Rattle.mx_transcript.specs.WrongJournals.{WrongJournals};
ghost use Rattle.mx_transcript.specs.WrongLines.{WrongReferences, WrongCalls, WrongScripts};
ghost use Rattle.mx_transcript.specs.WrongMisses.{WrongMisses};
ghost use Rattle.mx_transcript.specs.WrongPoints.{WrongPoints};
ghost use Rattle.mx_transcript.specs.WrongReads.{WrongReads};
ghost use Rattle.mx_transcript.specs.WrongSources.{WrongSources};
ghost use Rattle.mx_transcript.specs.WrongTranscripts.{WrongTranscripts};

/// A line under way goes on by an event that it asks for.
pub fn event_law()
    ensures reference { ReferenceLaw }
    ensures fill { FillLaw }
    ensures miss { MissLaw }
    ensures call { CallLaw }
{}

/// A reply asks for the link words of the section that it made, then for the pointer of a snapped link, and for no more.
pub fn due_law()
    ensures word { SectionWordLaw }
    ensures pointer { SnappedLaw }
    ensures none { NoMoreLaw }
{}

/// A line that came to its end is one line more.
pub fn line_law()
    ensures { LineLaw }
{}

/// What is right in one setting is right in another that knows all that it does, as that of a journal that grew.
pub fn extends_law()
    ensures kept { ExtendsLaw }
    ensures grown { GrownLaw }
{}

/// A line's events and result leave one outcome.
pub fn one_outcome_law()
    ensures { OneOutcomeLaw }
{}

/// A line keeps the registers and return gates sound, and lets the ring fall only through a gate; so do all lines, and so
/// does every legal run.
pub fn rings_law()
    ensures line { LineRingsLaw }
    ensures lines { RingsLaw }
    ensures run { LegalRingsLaw }
{}

/// In a legal run each printed reference is what the judging rule gives on the access at its printed point, for some
/// current ring and some answers to whether a call stays within its segment and whether it may go upward; the line rule
/// says that they are those of the registers and return gates.
pub fn each_reference_is_judged()
    ensures { EachReferenceLaw }
{}

/// Integrity: in a legal run a word changes only by a write that was granted at its printed point, at a ring within the
/// write bracket and, of a segment, by a deciding entry that has w; whatever is read is zero that nobody wrote, or was
/// written so.
pub fn a_word_changes_only_by_a_granted_write()
    ensures stores { GrantedStoresLaw }
    ensures reads { WrittenBeforeReadLaw }
{}

/// Confidentiality of references: in a legal run a word is given only to a reference that was granted at its printed
/// point, at a ring within the read bracket and, of a segment, by a deciding entry that has r; to a fetch within the
/// execute bracket and by one that has e.
pub fn a_word_is_given_only_to_a_granted_reference()
    ensures { GivenWordsLaw }
{}

/// Revocation: in a legal run a process that was told of an entry, by one of its own at or after it or by a word that was
/// stored at or after it, is judged at no point before that entry; so what the entry took is denied, until another gives
/// it again.
pub fn what_was_taken_is_denied()
    ensures told { ToldLaw }
    ensures throughout { DeniedLaw }
    ensures revoked { RevocationLaw }
{}

/// A machine may keep the walk of an attempt in place of what the attempt saw.
pub fn walk_law()
    ensures begun { WalkBegunLaw }
    ensures word { WalkLaw }
{}

/// A process knows its line at work over its own trace: one more element, of an attempt or of a write that a reply asks
/// for; and what it promises of all its lines is what a legal run asks.
pub fn trace_law()
    ensures element { TraceLaw }
    ensures fill { FillTraceLaw }
    ensures promise { PromiseLaw }
{}

/// A line finds the journal full only where it is at its limit.
pub fn full_law()
    ensures { FullLaw }
{}

/// In a legal run each line of the setup within the journal's limit enters the journal, under the number of its place.
pub fn setup_lines_law()
    ensures { SetupLinesLaw }
{}

/// `block` has two entries where it is told to wait, and one where the journal is full then; a line that departs from it is
/// refused. The line that sets the journal's limit moves the numbers of all that follow.
pub fn a_wait_is_two_entries()
    ensures right { RightWaits }
    ensures wrong { WrongWaits }
    ensures numbers { LimitLines }
{}

/// An object with a link is made known with its link words; the link is snapped at its first use, and the line begins anew. A
/// line that departs from it is refused.
pub fn a_snapped_link_begins_anew()
    ensures right { RightLinks }
    ensures wrong { WrongLinks }
{}

/// An upward call leaves a return gate, and the return through it takes it away; an ordinary call and return, and a denied
/// one, leave the gates. A line that departs from it is refused.
pub fn an_upward_call_leaves_a_gate()
    ensures right { RightUpward }
    ensures wrong { WrongUpward }
    ensures left { WrongLeft }
{}

/// Lines, pointers, transfers, scripts, points, reads and falls, each one change away from a right one that stands beside
/// them, are refused.
pub fn wrong_runs_are_refused()
    ensures references { WrongReferences }
    ensures calls { WrongCalls }
    ensures right_pointers { RightPointers }
    ensures pointers { WrongPointers }
    ensures right_transfers { RightTransfers }
    ensures transfers { WrongTransfers }
    ensures registers { WrongRegisters }
    ensures scripts { WrongScripts }
    ensures points { WrongPoints }
    ensures reads { WrongReads }
    ensures falls { WrongFalls }
    ensures ways_back { WrongWaysBack }
{}

/// So are misses, and what is read of stores that are superseded, out of order or not there.
pub fn wrong_misses_are_refused()
    ensures misses { WrongMisses }
    ensures sources { WrongSources }
{}

/// So are journals that pass their limit, begin otherwise than with the setup, or have another reply than the plain
/// supervisor's; and transcripts that are too few or too many, do not name the entries of their process, or go on after
/// the journal was found full.
pub fn wrong_journals_are_refused()
    ensures journals { WrongJournals }
    ensures transcripts { WrongTranscripts }
{}

/// The denials of lines are those of the earlier ones and then those of the later, at most one a line; the last denial is
/// that of the line that came last.
pub fn denial_law()
    ensures in_order { (steps others : List Step) → denials (steps ++ others) ≡ denials steps ++ denials others }
    ensures few { (steps : List Step) → length (denials steps) ≤ length steps }
    ensures last { (steps : List Step) (step : Step) → last_denial (steps ++ step ∷ []) ≡ denial_of step }
{}
