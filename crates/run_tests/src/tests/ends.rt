//! Ends that fail, words that are not accepted, and texts that are none: the status, and what was written.

use super::calls::{Ends, GOOD, call};
use std::alloc::{AllocError, Global};
use std::sync::Wait;
use std::test::Fail;
use std::thread::Threads;

const SMALLEST: &[u8] = b"multics 1\n\
    create_seg >a 64 4 4 4\n\
    set_acl >a Jones.Faculty.a rw\n\
    process Jones.Faculty.a\n\
    initiate >a\n\
    set 52\n\
    sta 10|5\n\
    lda 10|5\n\
    logout\n\
    end\n";

const SMALLEST_RUN: &[u8] = b"journal 4\n\
    1 0 0 create_seg >a 64 4 4 4 = ok\n\
    2 0 0 set_acl >a Jones.Faculty.a rw = ok\n\
    3 1 4 initiate >a = segno 10 new\n\
    4 1 4 logout = ok\n\
    process 0\nentry 1\nline 2 done\nentry 2\nline 3 done\n\
    process 1\nentry 3\nline 5 done\nline 6 done\n\
    write 10|5 ring 4 point 3 word 52\nline 7 done\n\
    read 10|5 ring 4 point 3 word 52 from 1 stamp 3\nline 8 a 52\n\
    entry 4\nline 9 done\nend\n";

// The first call of the sink fails.
const CLOSED: Ends<'static> = Ends {
    source_fails: &[],
    sink_fails: &[0],
    room: 4096,
};

// The source fails when it is read, and the sink at its second call.
const CUT_SHORT: Ends<'static> = Ends {
    source_fails: &[0],
    sink_fails: &[1],
    room: 128,
};

// Words, a text and ends; the status, and what is written.
type Row = (
    &'static [&'static str],
    &'static [u8],
    Ends<'static>,
    u8,
    &'static [u8],
);

const ROWS: &[Row] = &[
    (&[], SMALLEST, GOOD, 2, b"bad words\n"),
    (&["run", "run"], SMALLEST, GOOD, 2, b"bad words\n"),
    (&["drill"], SMALLEST, GOOD, 2, b"bad words\n"),
    (&["drill", ""], SMALLEST, GOOD, 2, b"bad words\n"),
    (&["drill", "1234567"], SMALLEST, GOOD, 2, b"bad words\n"),
    (&["drill", "+7"], SMALLEST, GOOD, 2, b"bad words\n"),
    (&["drill", "7", "7"], SMALLEST, GOOD, 2, b"bad words\n"),
    (&["runs"], SMALLEST, GOOD, 2, b"bad words\n"),
    (&[""], SMALLEST, GOOD, 2, b"bad words\n"),
    (&["--help"], SMALLEST, GOOD, 2, b"bad words\n"),
    (&["run"], SMALLEST, CLOSED, 4, b""),
    (&["drill", "7"], b"", CUT_SHORT, 4, b"dri"),
];

#[test]
fn each_status_has_its_cause(rt: HostRuntime) -> Result<(), Fail> {
    for (words, text, ends, status, written) in ROWS {
        let (came, told) = call(&rt, rt.alloc(), words, text, *ends)?;
        assert_eq!(rt; (came, told.as_slice()), (*status, *written), "{words:?}");
    }
    Ok(())
}

// The status of the smallest session's run between these ends, and how many bytes of it were written, where they are its front.
fn front<R: Threads + Wait + Sync>(
    rt: &R,
    alloc: Global,
    ends: Ends<'_>,
) -> Result<(u8, Option<usize>), AllocError> {
    let (status, told) = call(rt, alloc, &["run"], SMALLEST, ends)?;
    let is_front = SMALLEST_RUN.starts_with(&told);
    Ok((status, if is_front { Some(told.len()) } else { None }))
}

// A sink with less room than the run has bytes holds what fits, at status 4; with room for all of it nothing fails.
#[test]
fn a_sink_holds_what_fits(rt: HostRuntime) -> Result<(), Fail> {
    for room in 0..SMALLEST_RUN.len() + 1 {
        let ends = Ends {
            source_fails: &[],
            sink_fails: &[],
            room,
        };
        let status = if room < SMALLEST_RUN.len() { 4 } else { 0 };
        assert_eq!(rt; front(&rt, rt.alloc(), ends)?, (status, Some(room)));
    }
    Ok(())
}

// Each call of the source fails in turn, and nothing is written; one after the last is not made. 135 bytes come in 20 pieces of 7
// and less, and one more call finds the end.
#[test]
fn a_source_fails_in_turn(rt: HostRuntime) -> Result<(), Fail> {
    for failing in 0..22u32 {
        let ends = Ends {
            source_fails: &[failing],
            sink_fails: &[],
            room: 4096,
        };
        let want = if failing < 21 {
            (3, Some(0))
        } else {
            (0, Some(SMALLEST_RUN.len()))
        };
        assert_eq!(rt; front(&rt, rt.alloc(), ends)?, want, "{failing}");
    }
    Ok(())
}

// One byte more than a session text may have.
#[test]
fn a_text_past_the_limit_is_too_long(rt: HostRuntime) -> Result<(), Fail> {
    let mut text = Vec::new(rt.alloc());
    text.resize(4_194_305, b'a')?;
    let (status, told) = call(&rt, rt.alloc(), &["run"], &text, GOOD)?;
    assert_eq!(rt; (status, told.as_slice()), (6, b"too long\n".as_slice()));
    Ok(())
}
