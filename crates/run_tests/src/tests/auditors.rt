//! A caller's own auditors: each is told of the denials of its process while the session runs, and comes back.

ghost use Rattle.std.specs.Prelude.{◌≡◌, ◌≤◌, IfOk, map};
ghost use Rattle.mx_audit.specs.Accounts.{HaveRoom};

use super::calls::{GOOD, call_with, has_line};
use mx_audit::{AuditLog, Auditor, Verdict};
use mx_run::NoGate;
use mx_sdw::Denial;
use std::alloc::{AllocError, Global};
use std::marker::Model;
use std::sync::Wait;
use std::test::Fail;
use std::thread::Threads;

// So many denials has each auditor room for.
const ROOM: usize = 700_000;

// An auditor that lets its process be denied so often, and logs it out at the next denial.
#[derive(Drop)]
struct Monitor {
    told: Vec<(u32, Denial, Verdict)>,
    room: usize,
    patience: usize,
}

impl Model for Monitor {
    ghost use Rattle.std.specs.Prelude.{◌+◌, ◌≤◌, vec_len, vec_capacity};
    ghost use Rattle.mx_audit.specs.Accounts.{Account};

    ghost Value = { Account };

    ghost view = { λ a. record { told = a.told.items; room = a.room } };

    ghost invariant = { λ a. vec_len a.told + a.room ≤ vec_capacity a.told };
}

impl Monitor {
    fn new(alloc: Global, room: usize, patience: usize) -> Result<Monitor, AllocError>
        ensures room { IfOk result (λ monitor. monitor.room ≡ room) }
    {
        Ok(Monitor {
            told: Vec::with_capacity(alloc, room)?,
            room,
            patience,
        })
    }
}

impl Auditor for Monitor {
    ghost account = { λ monitor. monitor };

    fn denied(&mut self, line: u32, denial: Denial) -> Verdict {
        let verdict = if self.told.len() < self.patience {
            Verdict::GoOn
        } else {
            Verdict::Logout
        };
        self.room -= 1;
        let Ok(()) = self.told.extend_from_slice(&[(line, denial, verdict)]) else {
            unreachable!()
        };
        verdict
    }

    fn count(&self) -> u32 {
        u32::try_from(self.told.len()).unwrap_or(u32::MAX)
    }

    fn told(&self, i: u32) -> Option<(u32, Denial, Verdict)> {
        self.told.get(i as usize).copied()
    }
}

// A procedure of ring 4 calls a word of a segment with brackets 1,3,5 that is no gate, and a gate, and returns.
const ONE: &[u8] = b"multics 1\n\
    create_object >main 64 4 4 4 1\n\
    set_acl >main *.*.* re\n\
    create_object >gate 64 1 3 5 2\n\
    set_acl >gate *.*.* re\n\
    process Jones.Faculty.a\n\
    initiate >main\n\
    initiate >gate\n\
    call 10|0\n\
    call 11|2\n\
    call 11|1\n\
    return pr7|0\n\
    logout\n\
    end\n";

// Beside it a second process is denied twice what it doesn't know.
const TWO: &[u8] = b"multics 1\n\
    create_object >main 64 4 4 4 1\n\
    set_acl >main *.*.* re\n\
    create_object >gate 64 1 3 5 2\n\
    set_acl >gate *.*.* re\n\
    process Jones.Faculty.a\n\
    initiate >main\n\
    initiate >gate\n\
    call 10|0\n\
    call 11|2\n\
    call 11|1\n\
    return pr7|0\n\
    logout\n\
    process Smith.Faculty.a\n\
    lda 10|0\n\
    lda 10|0\n\
    logout\n\
    end\n";

// It has no last line.
const NONE: &[u8] = b"multics 1\n\
    create_object >main 64 4 4 4 1\n\
    set_acl >main *.*.* re\n\
    create_object >gate 64 1 3 5 2\n\
    set_acl >gate *.*.* re\n\
    process Jones.Faculty.a\n\
    initiate >main\n\
    initiate >gate\n\
    call 10|0\n\
    call 11|2\n\
    call 11|1\n\
    return pr7|0\n\
    logout\n";

// Two auditors, the first of process 1.
fn two(
    alloc: Global,
    first: Box<dyn Auditor + Send>,
    second: Box<dyn Auditor + Send>,
) -> Result<Vec<Box<dyn Auditor + Send>>, AllocError>
    requires first { 700000 ≤ (account first).room }
    requires second { 700000 ≤ (account second).room }
    ensures { IfOk result (λ auditors. HaveRoom 700000 (map account auditors.items)) }
{
    Ok(vec![in alloc; first, second]?)
}

// How often an auditor was told, and its first two denials with its verdicts.
type Account = (u32, [Option<(u32, Denial, Verdict)>; 2]);

fn account_at(auditors: &[Box<dyn Auditor + Send>], place: usize) -> Option<Account> {
    let auditor = auditors.get(place)?;
    Some((auditor.count(), [auditor.told(0), auditor.told(1)]))
}

// What comes of a text that two auditors hear: the status, what was written, and what they were told. The monitor is the first of
// them, or the second; the other lets each process go on.
fn hear<R: Threads + Wait + Sync>(
    rt: &R,
    alloc: Global,
    text: &[u8],
    is_monitor_first: bool,
    patience: usize,
) -> Result<(u8, Vec<u8>, [Option<Account>; 2]), AllocError> {
    let log = Box::new(alloc, AuditLog::new(alloc, ROOM)?)?;
    let monitor = Box::new(alloc, Monitor::new(alloc, ROOM, patience)?)?;
    let mut auditors = if is_monitor_first {
        two(alloc, monitor, log)?
    } else {
        two(alloc, log, monitor)?
    };
    let (status, written) = call_with(rt, alloc, &["run"], text, GOOD, &NoGate, &mut auditors)?;
    let accounts = [account_at(&auditors, 0), account_at(&auditors, 1)];
    Ok((status, written, accounts))
}

const GATE: Account = (1, [Some((10, Denial::Gate, Verdict::GoOn)), None]);

const UNKNOWN: Account = (
    2,
    [
        Some((15, Denial::UnknownSegment, Verdict::GoOn)),
        Some((16, Denial::UnknownSegment, Verdict::GoOn)),
    ],
);

const NOTHING: Account = (0, [None, None]);

#[test]
fn each_auditor_is_told_of_its_own_process(rt: HostRuntime) -> Result<(), Fail> {
    for (text, is_monitor_first, status, first, second) in [
        (ONE, false, 0, GATE, NOTHING),
        (TWO, true, 0, GATE, UNKNOWN),
        (NONE, false, 5, NOTHING, NOTHING),
    ] {
        let (came, _, heard) = hear(&rt, rt.alloc(), text, is_monitor_first, 9)?;
        assert_eq!(rt; (came, heard), (status, [Some(first), Some(second)]));
    }
    Ok(())
}

// The run of the first text whose auditor logs its process out at its first denial: nothing of lines 11 and 12.
const CUT: &[u8] = b"journal 7\n\
    1 0 0 create_object >main 64 4 4 4 1 = ok\n\
    2 0 0 set_acl >main *.*.* re = ok\n\
    3 0 0 create_object >gate 64 1 3 5 2 = ok\n\
    4 0 0 set_acl >gate *.*.* re = ok\n\
    5 1 4 initiate >main = segno 10 new\n\
    6 1 4 initiate >gate = segno 11 new\n\
    7 1 4 logout = ok\n\
    process 0\n\
    entry 1\n\
    line 2 done\n\
    entry 2\n\
    line 3 done\n\
    entry 3\n\
    line 4 done\n\
    entry 4\n\
    line 5 done\n\
    process 1\n\
    entry 5\n\
    line 7 done\n\
    entry 6\n\
    line 8 done\n\
    call 10|0 ring 4 point 6 enter 4\n\
    line 9 ring 4 at 10|0\n\
    call 11|2 ring 4 point 6 denied gate\n\
    line 10 denied gate\n\
    entry 7\n\
    line 13 done\n\
    end\n";

#[test]
fn a_monitor_logs_its_process_out(rt: HostRuntime) -> Result<(), Fail> {
    let (status, written, heard) = hear(&rt, rt.alloc(), ONE, true, 0)?;
    let told = (1, [Some((10, Denial::Gate, Verdict::Logout)), None]);
    assert_eq!(rt; (status, heard), (0, [Some(told), Some(NOTHING)]));
    assert_eq!(rt; written.as_slice(), CUT);
    Ok(())
}

// The journal of the first text has room for six entries, so that the logout enters nothing.
const SIX: &[u8] = b"multics 1\n\
    history 6\n\
    create_object >main 64 4 4 4 1\n\
    set_acl >main *.*.* re\n\
    create_object >gate 64 1 3 5 2\n\
    set_acl >gate *.*.* re\n\
    process Jones.Faculty.a\n\
    initiate >main\n\
    initiate >gate\n\
    call 10|0\n\
    call 11|2\n\
    call 11|1\n\
    return pr7|0\n\
    logout\n\
    end\n";

// How its run ends.
const FULL: &[u8] = b"entry 6\n\
    line 9 done\n\
    call 10|0 ring 4 point 6 enter 4\n\
    line 10 ring 4 at 10|0\n\
    call 11|2 ring 4 point 6 denied gate\n\
    line 11 denied gate\n\
    line 14 history_full\n\
    end\n";

#[test]
fn a_monitor_logs_its_process_out_of_a_full_journal(rt: HostRuntime) -> Result<(), Fail> {
    let (status, written, heard) = hear(&rt, rt.alloc(), SIX, true, 0)?;
    let told = (1, [Some((11, Denial::Gate, Verdict::Logout)), None]);
    assert_eq!(rt; (status, heard), (0, [Some(told), Some(NOTHING)]));
    assert_eq!(rt; written.as_slice().ends_with(FULL), true);
    Ok(())
}

// Process 2 waits for a message of process 1, which is denied what it does not know before it would send it.
const WAITED_FOR: &[u8] = b"multics 1\n\
    process Jones.Faculty.a\n\
    lda 10|0\n\
    wakeup 2 7\n\
    logout\n\
    process Smith.Faculty.a\n\
    block\n\
    logout\n\
    end\n";

// What process 2 is told where it waits before process 1 logs out, and where it does not.
const NOBODY: [&[u8]; 2] = [b"3 2 4 resume = nobody", b"2 2 4 block = nobody"];

#[test]
fn who_waits_for_a_process_that_is_logged_out_gets_nobody(rt: HostRuntime) -> Result<(), Fail> {
    let (status, written, heard) = hear(&rt, rt.alloc(), WAITED_FOR, true, 0)?;
    let told = (
        1,
        [Some((3, Denial::UnknownSegment, Verdict::Logout)), None],
    );
    assert_eq!(rt; (status, heard), (0, [Some(told), Some(NOTHING)]));
    let got_nobody = NOBODY.iter().any(|line| has_line(&written, line));
    assert_eq!(rt;
        (got_nobody, has_line(&written, b"line 4 done")),
        (true, false)
    );
    Ok(())
}
