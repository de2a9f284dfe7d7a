//! Runs on one thread, in a chosen order of lines.

use mx_io::MemorySink;
use mx_proc::{Gate, run_in_order};
use mx_script::read_session;
use mx_text::print;
use std::alloc::{AllocError, Global};
use std::sync::Wait;
use std::sync::atomic::{AtomicU64, Ordering};
use std::test::Fail;

/// The most bytes of a session here.
const MOST_BYTES: usize = 4_096;

// Counts the lines of which it is told.
#[derive(Drop)]
struct Count {
    calls: AtomicU64,
}

impl Gate for Count {
    fn pass(&self, _process: u32, _line: u32) {
        self.calls.fetch_add(1, Ordering::SeqCst);
    }
}

// The run text of a session whose processes do their lines in this order, and of how many lines the gate was told.
fn in_order<R: Wait>(
    rt: &R,
    alloc: Global,
    text: &[u8],
    order: &[u8],
) -> Result<(u64, Vec<u8>), AllocError> {
    if text.len() > MOST_BYTES {
        return Err(AllocError);
    }
    let session = read_session(alloc, text).map_err(|_| AllocError)?;
    let gate = Count {
        calls: AtomicU64::new(0),
    };
    let ran = run_in_order(rt, alloc, &session, order, &gate, &mut Vec::new(alloc));
    let (journal, transcripts) = ran?;
    let made = MemorySink::new(alloc, 4096, Vec::new(alloc), 4096);
    let mut sink = made.map_err(|_| AllocError)?;
    print(alloc, &journal, &transcripts, &mut sink).map_err(|_| AllocError)?;
    let told = Vec::from_slice(alloc, sink.bytes())?;
    Ok((gate.calls.load(Ordering::SeqCst), told))
}

// Whether a text has a line.
fn has_line(text: &[u8], line: &[u8]) -> bool {
    text.split(|byte| *byte == b'\n').any(|own| own == line)
}

const TWO: &[u8] = b"multics 1\n\
    create_seg >a 64 4 4 4\n\
    set_acl >a *.*.* rw\n\
    process A.B.a\n\
    initiate >a\n\
    lda 10|0\n\
    logout\n\
    process C.D.a\n\
    initiate >a\n\
    set 7\n\
    sta 10|0\n\
    logout\n\
    end\n";

// What process 1 reads, before or after process 2 has stored. Numbers that no process has are passed over, and so is one whose
// lines are done; when an order is used up, all go on in turn.
const READ: [(&[u8], &[u8]); 6] = [
    (&[], b"line 6 a 0"),
    (&[1, 1, 1, 1, 1], b"line 6 a 0"),
    (&[2, 2, 2], b"line 6 a 7"),
    (&[2, 2, 1, 1], b"line 6 a 0"),
    (&[0, 3, 255, 2, 2, 2, 2, 2, 2], b"line 6 a 7"),
    (&[1, 2, 2, 2, 1], b"line 6 a 7"),
];

#[test]
fn lines_are_done_in_their_order(rt: HostRuntime) -> Result<(), Fail> {
    for (order, read) in READ {
        let (calls, told) = in_order(&rt, rt.alloc(), TWO, order)?;
        assert_eq!(rt; (calls, has_line(&told, read)), (7, true), "{order:?}");
    }
    Ok(())
}

const WAITS: &[u8] = b"multics 1\n\
    process A.B.a\n\
    block\n\
    logout\n\
    process C.D.a\n\
    wakeup 1 5\n\
    logout\n\
    end\n";

// A `block` that waits is passed over until there is a message, and its line goes on where its process is named again: it has
// two of the five entries.
#[test]
fn a_line_that_waits_is_passed_over(rt: HostRuntime) -> Result<(), Fail> {
    for order in [b"" as &[u8], b"\x01\x01\x01\x02", b"\x01\x02\x02\x01\x01"] {
        let (calls, told) = in_order(&rt, rt.alloc(), WAITS, order)?;
        let five = has_line(&told, b"journal 5");
        let done = has_line(&told, b"line 3 done");
        assert_eq!(rt; (calls, five, done), (4, true, true), "{order:?}");
    }
    Ok(())
}
