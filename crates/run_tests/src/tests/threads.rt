//! Gates that hold a process show that processes run side by side: one stands still between two of its lines while another goes
//! on to its end.

use super::calls::{GOOD, call_with, has_line};
use mx_run::Gate;
use std::alloc::{AllocError, Global};
use std::sync::Wait;
use std::sync::atomic::{AtomicU64, Ordering};
use std::test::Fail;
use std::thread::{self, Threads};

// A gate that is held looks so often before it gives up.
const TURNS: u32 = 200_000_000;

// Holds a process at a line until another begins a line.
#[derive(Clone, Copy)]
struct Held {
    process: u32,
    line: u32,
    until: u32,
}

// The lines that the gate holds, which line each of two processes began last, and how often a held process gave up.
#[derive(Drop)]
struct Holds<'a> {
    holds: &'a [Held],
    first: AtomicU64,
    second: AtomicU64,
    calls: AtomicU64,
    given_up: AtomicU64,
}

impl<'a> Holds<'a> {
    fn new(holds: &'a [Held]) -> Holds<'a> {
        Holds {
            holds,
            first: AtomicU64::new(0),
            second: AtomicU64::new(0),
            calls: AtomicU64::new(0),
            given_up: AtomicU64::new(0),
        }
    }

    // The line that this process began last.
    fn begun(&self, process: u32) -> &AtomicU64 {
        if process == 1 {
            &self.first
        } else {
            &self.second
        }
    }

    // Looks until the other process has begun the line, or gives up.
    fn wait(&self, process: u32, until: u32) {
        let other = self.begun(3u32.saturating_sub(process));
        for _turn in 0..TURNS {
            if other.load(Ordering::SeqCst) >= u64::from(until) {
                return;
            }
            thread::yield_now();
        }
        self.given_up.fetch_add(1, Ordering::SeqCst);
    }

    // How often a held process gave up, and how often the gate was told of a line.
    fn counts(&self) -> (u64, u64) {
        (
            self.given_up.load(Ordering::SeqCst),
            self.calls.load(Ordering::SeqCst),
        )
    }
}

impl Gate for Holds<'_> {
    fn pass(&self, process: u32, line: u32) {
        self.calls.fetch_add(1, Ordering::SeqCst);
        self.begun(process).store(u64::from(line), Ordering::SeqCst);
        for held in self.holds {
            if held.process == process && held.line == line {
                self.wait(process, held.until);
            }
        }
    }
}

// What comes of words and a text under a gate that holds these lines: how often a process gave up, how often the gate was told of a
// line, the status, and what was written.
fn call_held<R: Threads + Wait + Sync>(
    rt: &R,
    alloc: Global,
    words: &[&str],
    text: &[u8],
    holds: &[Held],
) -> Result<((u64, u64), u8, Vec<u8>), AllocError> {
    let gate = Holds::new(holds);
    let auditors = &mut Vec::new(alloc);
    let (status, told) = call_with(rt, alloc, words, text, GOOD, &gate, auditors)?;
    Ok((gate.counts(), status, told))
}

const TWO: &[u8] = b"multics 1\n\
    create_seg >a 64 4 4 4\n\
    set_acl >a *.*.* rw\n\
    process A.B.a\n\
    initiate >a\n\
    lda 10|0\n\
    logout\n\
    process C.D.a\n\
    initiate >a\n\
    set 7\n\
    sta 10|0\n\
    logout\n\
    end\n";

// A process is held at its first line until the other has begun its logout; the end of what process 1 read. Held first, it reads
// what process 2 stored.
const FIRST_LINES: [(Held, &[u8]); 2] = [
    (
        Held {
            process: 1,
            line: 5,
            until: 12,
        },
        b"line 6 a 7",
    ),
    (
        Held {
            process: 2,
            line: 9,
            until: 7,
        },
        b"line 6 a 0",
    ),
];

#[test]
fn a_process_is_held_until_the_other_logs_out(rt: HostRuntime) -> Result<(), Fail> {
    for (held, read) in FIRST_LINES {
        let (counts, status, told) = call_held(&rt, rt.alloc(), &["run"], TWO, &[held])?;
        let is_read = has_line(&told, read);
        assert_eq!(rt; (counts, status, is_read), ((0, 7), 0, true), "{read:?}");
    }
    Ok(())
}

// The gate is told of each script line of a drill: 325 of each process.
#[test]
fn a_drill_runs_its_1300_lines(rt: HostRuntime) -> Result<(), Fail> {
    let (counts, status, _) = call_held(&rt, rt.alloc(), &["drill", "7"], b"", &[])?;
    assert_eq!(rt; (counts, status), ((0, 1_300), 0));
    Ok(())
}

const TOLD_BY_NO_ENTRY: &[u8] = b"multics 1\n\
    create_seg >a 64 4 4 4\n\
    set_acl >a *.*.* rw\n\
    set_acl > A.B.a sma\n\
    process A.B.a\n\
    initiate >a\n\
    set 7\n\
    sta 10|0\n\
    set_acl >a C.D.a r\n\
    logout\n\
    process C.D.a\n\
    initiate >a\n\
    lda 10|0\n\
    lda 10|0\n\
    sta 10|0\n\
    logout\n\
    end\n";

// Which line of process 2 misses, since process 1 has changed the access, and the point from then on; and who logs out first.
// Process 1 changes the access behind line 14 begins at the earliest, and has changed it before line 15 begins; by then it may
// have logged out.
const ENDINGS: [(u8, u8, u8); 6] = [
    (14, 6, 1),
    (14, 6, 2),
    (14, 7, 1),
    (15, 6, 1),
    (15, 6, 2),
    (15, 7, 1),
];

// The entry of this process among two, of which the first is this number.
fn entry_of(process: u8, first: u8, number: u8) -> u8 {
    if process == first {
        number
    } else {
        number.saturating_add(1)
    }
}

// The run text, where this process initiates first and this is what else the interleaving leaves open.
fn told_by_no_entry(alloc: Global, opens: u8, ending: (u8, u8, u8)) -> Result<String, AllocError> {
    let (misses, point, closes) = ending;
    let (follows, stays) = (3u8.saturating_sub(opens), 3u8.saturating_sub(closes));
    let journal = format!(in alloc;
        "journal 8\n1 0 0 create_seg >a 64 4 4 4 = ok\n2 0 0 set_acl >a *.*.* rw = ok\n3 0 0 set_acl > A.B.a sma = ok\n\
        4 {opens} 4 initiate >a = segno 10 new\n5 {follows} 4 initiate >a = segno 10 new\n6 1 4 set_acl >a C.D.a r = ok\n\
        7 {closes} 4 logout = ok\n8 {stays} 4 logout = ok\n\
        process 0\nentry 1\nline 2 done\nentry 2\nline 3 done\nentry 3\nline 4 done\n"
    )?;
    let (stored, ends) = (entry_of(1, opens, 4), entry_of(1, closes, 7));
    let writer = format!(in alloc;
        "process 1\nentry {stored}\nline 6 done\nline 7 done\nwrite 10|0 ring 4 point {stored} word 7\nline 8 done\n\
        entry 6\nline 9 done\nentry {ends}\nline 10 done\n"
    )?;
    let (begins, ends) = (entry_of(2, opens, 4), entry_of(2, closes, 7));
    let missing = "missing 10 by 6\n";
    let (first, again, second) = if misses == 14 {
        (missing, point, "")
    } else {
        ("", begins, missing)
    };
    let reader = format!(in alloc;
        "process 2\nentry {begins}\nline 12 done\nread 10|0 ring 4 point {begins} word 0 from 0 stamp 0\nline 13 a 0\n\
        {first}read 10|0 ring 4 point {again} word 7 from 1 stamp {stored}\nline 14 a 7\n\
        {second}write 10|0 ring 4 point {point} denied not_writable\nline 15 denied not_writable\nentry {ends}\nline 16 done\nend\n"
    )?;
    format!(in alloc; "{journal}{writer}{reader}")
}

// Whether a text is one of the runs that the gate leaves.
fn is_told_by_no_entry(alloc: Global, written: &[u8]) -> Result<bool, AllocError> {
    for opens in 1..3 {
        for ending in ENDINGS {
            let text = told_by_no_entry(alloc, opens, ending)?;
            if text.as_bytes() == written {
                return Ok(true);
            }
        }
    }
    Ok(false)
}

// Process 1 stores and changes the access between the lines of process 2.
const BETWEEN: [Held; 3] = [
    Held {
        process: 1,
        line: 7,
        until: 14,
    },
    Held {
        process: 2,
        line: 14,
        until: 9,
    },
    Held {
        process: 2,
        line: 15,
        until: 10,
    },
];

// The gate alone orders the lines: no entry tells process 2 of the store.
#[test]
fn a_store_is_told_by_no_entry(rt: HostRuntime) -> Result<(), Fail> {
    let alloc = rt.alloc();
    let (counts, status, told) = call_held(&rt, alloc, &["run"], TOLD_BY_NO_ENTRY, &BETWEEN)?;
    let is_left = is_told_by_no_entry(alloc, &told)?;
    assert_eq!(rt; (counts, status, is_left), ((0, 10), 0, true));
    Ok(())
}
