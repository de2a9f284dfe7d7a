//! What a run has before its first line: its office, a process for each pass, and their auditors.

ghost use Rattle.std.specs.Prelude.{◌≡◌, ◌+◌, ◌≤◌, [], IfOk, OnErr, drop, length, map, vec_len, vec_capacity};
ghost use Rattle.mx_closing.specs.Closing.{AreOfAll};
ghost use Rattle.mx_closing.specs.Opening.{layout_of};
ghost use Rattle.mx_closing.specs.Preparing.{IsPrepared};
ghost use Rattle.mx_desc.specs.Openings.{AreFreshPasses};
ghost use Rattle.mx_proc.specs.Auditors.{HaveRoomForLines};
ghost use Rattle.mx_proc.specs.Ending.{AreBeyond, HaveRoomToEnd, IsBegun};
ghost use Rattle.mx_proc.specs.Rows.{AreAwake, AreFirst, AreInPlace};
ghost use Rattle.mx_transcript.specs.Legal.{setup_entries};

use crate::ending::Ends;
use crate::lists::put;
use mx_audit::Auditor;
use mx_closing::Prepared;
use mx_desc::Passes;
use mx_office::{Office, Opening, open};
use mx_process::{Attending, Process};
use mx_script::Session;
use mx_state::Entry;
use std::alloc::{AllocError, Global};
use std::mem;
use std::sync::ledger::Blank;

/// A run before its first line.
#[derive(Drop)]
pub(crate) struct Seated<'a, B: Attending, A: Auditor> {
    /// Where the processes make their requests.
    pub(crate) office: Office<'a, B>,
    /// The processes, from process 1 on, with their auditors.
    pub(crate) row: Vec<Process<'a, B, A>>,
    /// What is wanted at the end.
    pub(crate) ends: Ends<B, A>,
}

/// Opens the run of a prepared session, and gives each process its auditor. Conditions: `B` names the session, the entries of
/// its setup, the shared words, a blank ledger with a part for each process, and the accounts of the auditors; each of them
/// has room for a denial of each line of its process. The auditors are taken out of their list, which is left with room for
/// all. The only error is want of memory; then they are where they were.
pub(crate) fn seat<'a, B: Attending, A: Auditor>(
    alloc: Global,
    session: &'a Session,
    prepared: Prepared<'a>,
    blank: Blank,
    auditors: &mut Vec<A>,
) -> Result<Seated<'a, B, A>, AllocError>
    requires session { session.now ≡ B.session }
    requires prepared { IsPrepared B.session prepared }
    requires setup { prepared.supervisor.journal ≡ B.setup }
    requires start { B.start ≡ length B.setup }
    requires fits { prepared.words.shared.table_id ≡ B.table }
    requires layout { B.layout ≡ layout_of B.session }
    requires name { blank.name ≡ B.name }
    requires parts { blank.parts ≡ B.parts }
    requires each { B.parts ≡ B.layout.processes }
    requires accounts { map A.account auditors.old.items ≡ B.accounts }
    requires room { HaveRoomForLines B.session B.accounts }
    ensures place { IfOk result (λ seated. AreInPlace B.accounts seated.row.items) }
    ensures awake { IfOk result (λ seated. AreAwake seated.row.items) }
    ensures len { IfOk result (λ seated. vec_len seated.row ≡ length B.session.principals) }
    ensures begun { IfOk result (λ seated. IsBegun B.session B.setup seated.ends.part seated.ends.share.parts seated.ends.share.amount) }
    ensures lists { IfOk result (λ seated. HaveRoomToEnd (length B.session.principals) seated.ends.transcripts.items (vec_capacity seated.ends.transcripts) seated.ends.passes.items (vec_capacity seated.ends.passes)) }
    ensures beyond { IfOk result (λ seated. AreBeyond (length B.session.principals) B.accounts (map A.account seated.ends.beyond.items)) }
    ensures out { IfOk result (λ seated. auditors.new.items ≡ []) }
    ensures space { IfOk result (λ seated. length B.accounts ≤ vec_capacity auditors.new) }
    ensures err { OnErr result (auditors.new.items ≡ auditors.old.items) }
{
    let Opening {
        locked,
        words,
        passes,
        share,
        part,
    } = open::<B>(alloc, prepared, blank)?;
    let office = Office::new(alloc, locked, words)?;
    let mut row = row_of(alloc, session, passes)?;
    let transcripts = Vec::with_capacity(alloc, row.len() + 1)?;
    let passes = Vec::with_capacity(alloc, row.len())?;
    let mut beyond = Vec::with_capacity(alloc, auditors.len())?;
    let back = Vec::with_capacity(alloc, auditors.len())?;
    let lent = mem::replace(auditors, back);
    attend(&mut row, lent, &mut beyond);
    Ok(Seated {
        office,
        row,
        ends: Ends {
            share,
            part,
            transcripts,
            passes,
            beyond,
        },
    })
}

// A process for each pass, before its first line, without an auditor.
fn row_of<'a, B: Attending, A: Auditor>(
    alloc: Global,
    session: &'a Session,
    passes: Passes<Entry, B>,
) -> Result<Vec<Process<'a, B, A>>, AllocError>
    requires session { session.now ≡ B.session }
    requires fresh { AreFreshPasses (setup_entries B.session) 1 passes }
    requires all { AreOfAll (length B.session.principals) passes }
    ensures first { IfOk result (λ row. AreFirst row.items) }
    ensures len { IfOk result (λ row. vec_len row ≡ length B.session.principals) }
{
    let mut row = Vec::new(alloc);
    for pass in passes.into_items() {
        let process = Process::new(alloc, session, pass)?;
        row.push(process)?;
    }
    Ok(row)
}

// Each process gets the auditor of its place; those beyond the processes are put behind these.
fn attend<B: Attending, A: Auditor>(
    row: &mut Vec<Process<'_, B, A>>,
    auditors: Vec<A>,
    beyond: &mut Vec<A>,
)
    requires first { AreFirst row.old.items }
    requires accounts { map A.account auditors.items ≡ B.accounts }
    requires room { HaveRoomForLines B.session B.accounts }
    requires none { beyond.old.items ≡ [] }
    requires space { vec_len auditors ≤ vec_capacity beyond.old }
    ensures place { AreInPlace B.accounts row.new.items }
    ensures awake { AreAwake row.new.items }
    ensures len { vec_len row.new ≡ vec_len row.old }
    ensures beyond { map A.account beyond.new.items ≡ drop (vec_len row.old) B.accounts }
{
    let mut place = 0;
    for auditor in auditors {
        if place < row.len() {
            row[place].attend(auditor);
        } else {
            put(beyond, auditor);
        }
        place += 1;
    }
}
