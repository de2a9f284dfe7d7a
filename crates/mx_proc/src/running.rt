//! A whole run of a session.

ghost use Rattle.std.specs.Prelude.{◌≡◌, IfOk, map, length};
ghost use Rattle.mx_audit.specs.Accounts.{HaveGrown};
ghost use Rattle.mx_closing.specs.Opening.{layout_of};
ghost use Rattle.mx_closing.specs.Preparing.{IsPrepared};
ghost use Rattle.mx_transcript.specs.Legal.{IsLegal, HasGatedFalls, HasSoundRegisters};
ghost use Rattle.mx_proc.specs.Auditors.{WereTold, HaveRoomForLines};

use crate::ending::end;
use crate::seating::{Seated, seat};
use crate::threads::work_on_threads;
use crate::turns::follow;
use mx_audit::Auditor;
use mx_closing::{Prepared, prepare};
use mx_process::{Attending, Gate};
use mx_script::Session;
use mx_state::Journal;
use mx_transcript::Transcripts;
use std::alloc::{AllocError, Global};
use std::marker::Brand;
use std::sync::Wait;
use std::sync::ledger::Blank;
use std::thread::Threads;

/// Runs a session: the setup by the initializer, and then the processes' scripts, each process on a thread of its own where
/// one can be had. The gate is told of each script line that is run, before it begins. Auditor `i`, counted from 0, belongs to
/// process `i + 1` and is told of each line of it that ends denied, with the line's number, in the step that ends the line. Its
/// verdict is heeded: behind a denial that it answers with `Logout` the process runs no further line of its script but the last,
/// its `logout`; and else all of them. Processes beyond the auditors have none and run all lines, and auditors beyond the
/// processes are not called. The auditors are lent to the threads and are put back in their order. The journal and the
/// transcripts are a legal run of the session, its rings fall only through gates, and each auditor was told just what the
/// transcript of its process says, which has the lines that its verdicts leave. The only error is want of memory; then each
/// auditor was told of some denials, or none.
pub fn run<R: Threads + Wait + Sync, G: Gate>(
    rt: &R,
    alloc: Global,
    session: &Session,
    gate: &G,
    auditors: &mut Vec<Box<dyn Auditor + Send>>,
) -> Result<(Journal, Transcripts), AllocError>
    requires room { HaveRoomForLines session.now (map account auditors.old.items) }
    ensures legal { IfOk result (λ ran. IsLegal session.now ran.0 ran.1) }
    ensures gated { IfOk result (λ ran. HasGatedFalls session.now ran.0 ran.1) }
    ensures sound { IfOk result (λ ran. HasSoundRegisters session.now ran.0 ran.1) }
    ensures told { IfOk result (λ ran. WereTold session.now (map account auditors.old.items) ran.1
        (map account auditors.new.items)) }
    ensures grown { HaveGrown (map account auditors.old.items) (map account auditors.new.items) }
{
    run_with(rt, alloc, session, gate, auditors)
}

/// Runs a session as [`run`] does, but on this thread alone, in a chosen order: the processes with these numbers, the first of
/// which is 1, do a line each, and when the order is used up all go on in turn, round and round, until no line is left. A
/// number that is no process's, or whose process has no line left, is passed over, and so is a line that waits for a message
/// and cannot go on; it goes on where its process is named again.
pub fn run_in_order<R: Wait, G: Gate>(
    rt: &R,
    alloc: Global,
    session: &Session,
    order: &[u8],
    gate: &G,
    auditors: &mut Vec<Box<dyn Auditor + Send>>,
) -> Result<(Journal, Transcripts), AllocError>
    requires room { HaveRoomForLines session.now (map account auditors.old.items) }
    ensures legal { IfOk result (λ ran. IsLegal session.now ran.0 ran.1) }
    ensures gated { IfOk result (λ ran. HasGatedFalls session.now ran.0 ran.1) }
    ensures sound { IfOk result (λ ran. HasSoundRegisters session.now ran.0 ran.1) }
    ensures told { IfOk result (λ ran. WereTold session.now (map account auditors.old.items) ran.1
        (map account auditors.new.items)) }
    ensures grown { HaveGrown (map account auditors.old.items) (map account auditors.new.items) }
{
    run_in_order_with(rt, alloc, session, order, gate, auditors)
}

// `run` with auditors of any one type.
fn run_with<R: Threads + Wait + Sync, G: Gate, A: Auditor + Send>(
    rt: &R,
    alloc: Global,
    session: &Session,
    gate: &G,
    auditors: &mut Vec<A>,
) -> Result<(Journal, Transcripts), AllocError>
    requires room { HaveRoomForLines session.now (map A.account auditors.old.items) }
    ensures legal { IfOk result (λ ran. IsLegal session.now ran.0 ran.1) }
    ensures gated { IfOk result (λ ran. HasGatedFalls session.now ran.0 ran.1) }
    ensures sound { IfOk result (λ ran. HasSoundRegisters session.now ran.0 ran.1) }
    ensures told { IfOk result (λ ran. WereTold session.now (map A.account auditors.old.items) ran.1
        (map A.account auditors.new.items)) }
    ensures grown { HaveGrown (map A.account auditors.old.items) (map A.account auditors.new.items) }
{
    let prepared = prepare(alloc, session)?;
    let blank = Blank::new(parts_of(session));
    run_named::<R, G, Brand, A>(rt, alloc, session, prepared, blank, gate, auditors)
}

// `run_in_order` with auditors of any one type.
fn run_in_order_with<R: Wait, G: Gate, A: Auditor>(
    rt: &R,
    alloc: Global,
    session: &Session,
    order: &[u8],
    gate: &G,
    auditors: &mut Vec<A>,
) -> Result<(Journal, Transcripts), AllocError>
    requires room { HaveRoomForLines session.now (map A.account auditors.old.items) }
    ensures legal { IfOk result (λ ran. IsLegal session.now ran.0 ran.1) }
    ensures gated { IfOk result (λ ran. HasGatedFalls session.now ran.0 ran.1) }
    ensures sound { IfOk result (λ ran. HasSoundRegisters session.now ran.0 ran.1) }
    ensures told { IfOk result (λ ran. WereTold session.now (map A.account auditors.old.items) ran.1
        (map A.account auditors.new.items)) }
    ensures grown { HaveGrown (map A.account auditors.old.items) (map A.account auditors.new.items) }
{
    let prepared = prepare(alloc, session)?;
    let blank = Blank::new(parts_of(session));
    run_in_order_named::<R, G, Brand, A>(rt, alloc, session, prepared, blank, order, gate, auditors)
}

// How many parts the ledger of a session has: one a process.
fn parts_of(session: &Session) -> u64
    ensures { result ≡ length session.now.principals }
{
    session.principals().items().len() as u64
}

// The run that `B` names, each process on a thread of its own.
fn run_named<R: Threads + Wait + Sync, G: Gate, B: Attending + Send, A: Auditor + Send>(
    rt: &R,
    alloc: Global,
    session: &Session,
    prepared: Prepared<'_>,
    blank: Blank,
    gate: &G,
    auditors: &mut Vec<A>,
) -> Result<(Journal, Transcripts), AllocError>
    requires session { session.now ≡ B.session }
    requires prepared { IsPrepared B.session prepared }
    requires setup { prepared.supervisor.journal ≡ B.setup }
    requires start { B.start ≡ length B.setup }
    requires fits { prepared.words.shared.table_id ≡ B.table }
    requires layout { B.layout ≡ layout_of B.session }
    requires name { blank.name ≡ B.name }
    requires parts { blank.parts ≡ B.parts }
    requires each { B.parts ≡ B.layout.processes }
    requires accounts { map A.account auditors.old.items ≡ B.accounts }
    requires room { HaveRoomForLines B.session B.accounts }
    ensures legal { IfOk result (λ ran. IsLegal B.session ran.0 ran.1) }
    ensures gated { IfOk result (λ ran. HasGatedFalls B.session ran.0 ran.1) }
    ensures sound { IfOk result (λ ran. HasSoundRegisters B.session ran.0 ran.1) }
    ensures told { IfOk result (λ ran. WereTold B.session B.accounts ran.1 (map A.account auditors.new.items)) }
    ensures grown { HaveGrown B.accounts (map A.account auditors.new.items) }
{
    let Seated { office, row, ends } = seat::<B, A>(alloc, session, prepared, blank, auditors)?;
    let (row, done) = work_on_threads(rt, alloc, &office, gate, row);
    end(office, row, done, ends, auditors)
}

// The run that `B` names, all on this thread.
fn run_in_order_named<R: Wait, G: Gate, B: Attending, A: Auditor>(
    rt: &R,
    alloc: Global,
    session: &Session,
    prepared: Prepared<'_>,
    blank: Blank,
    order: &[u8],
    gate: &G,
    auditors: &mut Vec<A>,
) -> Result<(Journal, Transcripts), AllocError>
    requires session { session.now ≡ B.session }
    requires prepared { IsPrepared B.session prepared }
    requires setup { prepared.supervisor.journal ≡ B.setup }
    requires start { B.start ≡ length B.setup }
    requires fits { prepared.words.shared.table_id ≡ B.table }
    requires layout { B.layout ≡ layout_of B.session }
    requires name { blank.name ≡ B.name }
    requires parts { blank.parts ≡ B.parts }
    requires each { B.parts ≡ B.layout.processes }
    requires accounts { map A.account auditors.old.items ≡ B.accounts }
    requires room { HaveRoomForLines B.session B.accounts }
    ensures legal { IfOk result (λ ran. IsLegal B.session ran.0 ran.1) }
    ensures gated { IfOk result (λ ran. HasGatedFalls B.session ran.0 ran.1) }
    ensures sound { IfOk result (λ ran. HasSoundRegisters B.session ran.0 ran.1) }
    ensures told { IfOk result (λ ran. WereTold B.session B.accounts ran.1 (map A.account auditors.new.items)) }
    ensures grown { HaveGrown B.accounts (map A.account auditors.new.items) }
{
    let Seated { office, row, ends } = seat::<B, A>(alloc, session, prepared, blank, auditors)?;
    let mut row = row;
    let done = follow(rt, alloc, &office, gate, order, &mut row);
    end(office, row, done, ends, auditors)
}
