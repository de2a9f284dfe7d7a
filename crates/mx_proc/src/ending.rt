//! The end of a run: processes hand out what they have left, and the auditors are put back.

ghost use Rattle.std.specs.Prelude.{◌≡◌, ◌+◌, ◌<◌, ◌≤◌, [], ◌++◌, IfOk, OnOk, OnSome, drop, length, map, option_to_list, vec_len, vec_capacity};
ghost use Rattle.std.specs.Option.{option_map};
ghost use Rattle.mx_audit.specs.Accounts.{HaveGrown};
ghost use Rattle.mx_proc.specs.Auditors.{WereTold};
ghost use Rattle.mx_proc.specs.Ending.{AreBeyond, HaveRoomToEnd, IsBegun};
ghost use Rattle.mx_proc.specs.Leaving.{AreAudited, AreUncutAlone, AreWithin, HaveWorked, accounts_in, pass_in, steps_in};
ghost use Rattle.mx_proc.specs.Rows.{AreInPlace, HaveNoLine};
ghost use Rattle.mx_transcript.specs.Legal.{HasGatedFalls, HasSoundRegisters, IsLegal};

use crate::lists::{put, put_all};
use mx_audit::Auditor;
use mx_desc::Pass;
use mx_list::Sequence;
use mx_office::Office;
use mx_process::{Attending, Process};
use mx_state::{Entry, Journal};
use mx_transcript::{Transcript, Transcripts};
use std::alloc::AllocError;
use std::sync::ledger::Share;

/// What a run keeps for its end.
#[derive(Drop)]
pub(crate) struct Ends<B: Attending, A: Auditor> {
    /// The rest of the ledger: it has no part, and no entry is counted in it.
    pub(crate) share: Share<B>,
    /// The initializer's part of the run.
    pub(crate) part: Transcript,
    /// A list with room for all transcripts.
    pub(crate) transcripts: Vec<Transcript>,
    /// A list with room for all passes.
    pub(crate) passes: Vec<Pass<Entry, B>>,
    /// The auditors beyond the processes.
    pub(crate) beyond: Vec<A>,
}

/// The end of a run, after its processes did what they could. Where none has a line left, the journal and the transcripts,
/// which are a legal run, and each auditor was told what its process was denied, and was heeded; the only error is that of the
/// work. All auditors are put back in their order, whatever came. Takes no memory. Conditions: the processes are those of the
/// session, each in its place, and have no line left where the work was done; and there is room.
pub(crate) fn end<B: Attending, A: Auditor>(
    office: Office<'_, B>,
    row: Vec<Process<'_, B, A>>,
    done: Result<(), AllocError>,
    ends: Ends<B, A>,
    auditors: &mut Vec<A>,
) -> Result<(Journal, Transcripts), AllocError>
    requires len { vec_len row ≡ length B.session.principals }
    requires parts { B.parts ≡ length B.session.principals }
    requires place { AreInPlace B.accounts row.items }
    requires done { OnOk done (HaveNoLine B.session row.items) }
    requires begun { IsBegun B.session B.setup ends.part ends.share.parts ends.share.amount }
    requires lists { HaveRoomToEnd (length B.session.principals) ends.transcripts.items (vec_capacity ends.transcripts) ends.passes.items (vec_capacity ends.passes) }
    requires beyond { AreBeyond (length B.session.principals) B.accounts (map A.account ends.beyond.items) }
    requires out { auditors.old.items ≡ [] }
    requires space { length B.accounts ≤ vec_capacity auditors.old }
    ensures legal { IfOk result (λ ran. IsLegal B.session ran.0 ran.1) }
    ensures gated { IfOk result (λ ran. HasGatedFalls B.session ran.0 ran.1) }
    ensures sound { IfOk result (λ ran. HasSoundRegisters B.session ran.0 ran.1) }
    ensures told { IfOk result (λ ran. WereTold B.session B.accounts ran.1 (map A.account auditors.new.items)) }
    ensures grown { HaveGrown B.accounts (map A.account auditors.new.items) }
{
    let Ends {
        share,
        part,
        transcripts,
        passes,
        beyond,
    } = ends;
    let (mut transcripts, mut passes) = (transcripts, passes);
    match done {
        Ok(()) => {
            put(&mut transcripts, part);
            finish_all(row, &mut transcripts, &mut passes, auditors);
            put_all(auditors, beyond);
            let journal = office.finish(share, Sequence::of(passes));
            Ok((journal, Sequence::of(transcripts)))
        }
        Err(wanting) => {
            dismiss_all(row, auditors);
            put_all(auditors, beyond);
            Err(wanting)
        }
    }
}

// What processes that have no line left leave, each behind those of the processes before it.
fn finish_all<B: Attending, A: Auditor>(
    row: Vec<Process<'_, B, A>>,
    transcripts: &mut Vec<Transcript>,
    passes: &mut Vec<Pass<Entry, B>>,
    auditors: &mut Vec<A>,
)
    requires place { AreInPlace B.accounts row.items }
    requires done { HaveNoLine B.session row.items }
    requires steps { vec_len transcripts.old + vec_len row ≤ vec_capacity transcripts.old }
    requires views { vec_len passes.old + vec_len row ≤ vec_capacity passes.old }
    requires out { auditors.old.items ≡ [] }
    requires space { length B.accounts ≤ vec_capacity auditors.old }
    ensures transcripts { transcripts.new.items ≡ transcripts.old.items ++ map steps_in row.entry.items }
    ensures passes { passes.new.items ≡ passes.old.items ++ map pass_in row.entry.items }
    ensures auditors { map A.account auditors.new.items ≡ accounts_in row.entry.items }
    ensures told { AreAudited B.session B.accounts row.entry.items }
    ensures alone { AreUncutAlone B.session B.accounts row.entry.items }
    ensures within { AreWithin B.session row.entry.items }
    ensures worked { HaveWorked B.session B.setup row.entry.items }
    ensures space { vec_capacity auditors.old ≤ vec_capacity auditors.new }
{
    for process in row {
        process.tells_its_auditor();
        let (transcript, pass, auditor) = process.finish();
        put(transcripts, transcript);
        put(passes, pass);
        put_back(auditors, auditor);
    }
}

// The auditors of processes whose run is given up, each behind those of the processes before it.
fn dismiss_all<B: Attending, A: Auditor>(row: Vec<Process<'_, B, A>>, auditors: &mut Vec<A>)
    requires place { AreInPlace B.accounts row.items }
    requires out { auditors.old.items ≡ [] }
    requires space { length B.accounts ≤ vec_capacity auditors.old }
    ensures auditors { map A.account auditors.new.items ≡ accounts_in row.entry.items }
    ensures told { AreAudited B.session B.accounts row.entry.items }
    ensures space { vec_capacity auditors.old ≤ vec_capacity auditors.new }
{
    for process in row {
        process.tells_its_auditor();
        put_back(auditors, process.dismiss());
    }
}

// Puts an auditor behind the others, where there is one.
fn put_back<A: Auditor>(auditors: &mut Vec<A>, auditor: Option<A>)
    requires { OnSome auditor (vec_len auditors.old < vec_capacity auditors.old) }
    ensures accounts { map A.account auditors.new.items ≡ map A.account auditors.old.items ++ option_to_list (option_map A.account auditor) }
    ensures len { vec_len auditors.new ≤ vec_len auditors.old + 1 }
    ensures space { vec_capacity auditors.old ≤ vec_capacity auditors.new }
{
    if let Some(auditor) = auditor {
        put(auditors, auditor);
    }
}
