//! Each row is a session with a printed run, and the breach that is to be found in it.

use mx_fresh::{Fresh, PlainSupervisor};
use mx_legal::{Breach, legal};
use mx_reader::read;
use mx_script::read_session;
use mx_state::State;
use std::alloc::{AllocError, Global};
use std::test::Fail;
use std::thread::Threads;

/// The most bytes of a text here.
const MOST_BYTES: usize = 65_536;

const SESSION: &[u8] = b"multics 1\n\
    create_seg >a 64 4 4 4\n\
    set_acl >a Jones.Faculty.a rw\n\
    process Jones.Faculty.a\n\
    initiate >a\n\
    set 52\n\
    sta 10|5\n\
    lda 10|5\n\
    logout\n\
    end\n";

const RUN: &str = "journal 4\n\
    1 0 0 create_seg >a 64 4 4 4 = ok\n\
    2 0 0 set_acl >a Jones.Faculty.a rw = ok\n\
    3 1 4 initiate >a = segno 10 new\n\
    4 1 4 logout = ok\n\
    process 0\n\
    entry 1\n\
    line 2 done\n\
    entry 2\n\
    line 3 done\n\
    process 1\n\
    entry 3\n\
    line 5 done\n\
    line 6 done\n\
    write 10|5 ring 4 point 3 word 52\n\
    line 7 done\n\
    read 10|5 ring 4 point 3 word 52 from 1 stamp 3\n\
    line 8 a 52\n\
    entry 4\n\
    line 9 done\n\
    end\n";

// What is changed in the run, and what is found in it: whose line or entry is the breach.
type Row = (&'static str, &'static str, Option<(usize, u32)>);

const ROWS: &[Row] = &[
    ("", "", None),
    // another word is read than is stored
    ("word 52 from", "word 53 from", Some((1, 8))),
    // another number is told than the plain supervisor's
    ("segno 10 new", "segno 11 new", Some((1, 0))),
    // a line is left out, and one is there twice
    ("line 6 done\n", "", Some((1, 6))),
    ("line 6 done\n", "line 6 done\nline 6 done\n", Some((1, 7))),
    // no line was denied, and yet the part is cut
    (
        "write 10|5 ring 4 point 3 word 52\n\
         line 7 done\n\
         read 10|5 ring 4 point 3 word 52 from 1 stamp 3\n\
         line 8 a 52\n",
        "",
        Some((1, 7)),
    ),
    // a point before the process's own entry
    (
        "write 10|5 ring 4 point 3",
        "write 10|5 ring 4 point 2",
        Some((1, 7)),
    ),
    // the journal is not full
    (
        "entry 4\nline 9 done\n",
        "line 9 history_full\n",
        Some((1, 9)),
    ),
    // an entry is named twice, and one is not
    ("entry 3\nline 5", "entry 4\nline 5", Some((1, 5))),
    // the part of a process that the session has not, and a part that is not there
    ("line 9 done\n", "line 9 done\nprocess 2\n", Some((2, 0))),
    (
        "process 0\nentry 1\nline 2 done\nentry 2\nline 3 done\n",
        "process 0\n",
        Some((0, 2)),
    ),
];

// A session with a line that is denied, and a run in which the process's part is cut behind it.
const DENIED_SESSION: &[u8] = b"multics 1\n\
    create_seg >a 64 4 4 4\n\
    set_acl >a Jones.Faculty.a r\n\
    process Jones.Faculty.a\n\
    initiate >a\n\
    sta 10|5\n\
    set 52\n\
    lda 10|5\n\
    logout\n\
    end\n";

const CUT_RUN: &str = "journal 4\n\
    1 0 0 create_seg >a 64 4 4 4 = ok\n\
    2 0 0 set_acl >a Jones.Faculty.a r = ok\n\
    3 1 4 initiate >a = segno 10 new\n\
    4 1 4 logout = ok\n\
    process 0\n\
    entry 1\n\
    line 2 done\n\
    entry 2\n\
    line 3 done\n\
    process 1\n\
    entry 3\n\
    line 5 done\n\
    write 10|5 ring 4 point 3 denied not_writable\n\
    line 6 denied not_writable\n\
    entry 4\n\
    line 9 done\n\
    end\n";

const CUT_ROWS: &[Row] = &[
    ("", "", None),
    // it goes on behind the denied line
    (
        "entry 4\n",
        "line 7 done\nread 10|5 ring 4 point 3 word 0 from 0 stamp 0\nline 8 a 0\nentry 4\n",
        None,
    ),
    // behind the denied line stands neither the next nor the last
    (
        "entry 4\n",
        "read 10|5 ring 4 point 3 word 0 from 0 stamp 0\nline 8 a 0\nentry 4\n",
        Some((1, 7)),
    ),
    // the last is missing; and it is not as it should be
    ("entry 4\nline 9 done\n", "", Some((1, 7))),
    (
        "entry 4\nline 9 done\n",
        "line 9 history_full\n",
        Some((1, 9)),
    ),
    // a line stands behind the last
    ("line 9 done\n", "line 9 done\nline 7 done\n", Some((1, 9))),
    // it is cut a line later
    ("entry 4\n", "line 7 done\nentry 4\n", Some((1, 8))),
];

// A text in which this stands in place of that, where it stands first.
fn with(alloc: Global, text: &str, old: &str, new: &str) -> Result<String, AllocError> {
    let mut out = String::new(alloc);
    match text.split_once(old) {
        Some((before, after)) => {
            out.push_str(before)?;
            out.push_str(new)?;
            out.push_str(after)?;
        }
        None => out.push_str(text)?,
    }
    Ok(out)
}

// What is found in a printed run: none where a text is no session's or no run's.
fn found<S: PlainSupervisor, R: Threads + Sync>(
    rt: &R,
    alloc: Global,
    session: &[u8],
    run: &[u8],
) -> Result<Option<Option<Breach>>, AllocError> {
    if session.len() > MOST_BYTES || run.len() > MOST_BYTES {
        return Ok(None);
    }
    let Ok(session) = read_session(alloc, session) else {
        return Ok(None);
    };
    let Ok((journal, transcripts)) = read(alloc, run) else {
        return Ok(None);
    };
    Ok(Some(legal::<S, R>(rt, alloc, &session, &journal, &transcripts)?))
}

// The process and the line of a breach.
fn told(found: Option<Option<Breach>>) -> Option<Option<(usize, u32)>> {
    match found {
        Some(Some(breach)) => Some(Some((breach.process, breach.line))),
        Some(None) => Some(None),
        None => None,
    }
}

#[test]
fn a_part_may_be_cut_behind_a_denied_line(rt: HostRuntime) -> Result<(), Fail> {
    for (old, new, breach) in CUT_ROWS {
        let run = with(rt.alloc(), CUT_RUN, old, new)?;
        let by_state = told(found::<State, _>(&rt, rt.alloc(), DENIED_SESSION, run.as_bytes())?);
        let by_fresh = told(found::<Fresh, _>(&rt, rt.alloc(), DENIED_SESSION, run.as_bytes())?);
        assert_eq!(rt;
            (by_state, by_fresh),
            (Some(*breach), Some(*breach)),
            "{old:?} {new:?}"
        );
    }
    Ok(())
}

#[test]
fn each_breach_is_found(rt: HostRuntime) -> Result<(), Fail> {
    for (old, new, breach) in ROWS {
        let run = with(rt.alloc(), RUN, old, new)?;
        let by_state = told(found::<State, _>(&rt, rt.alloc(), SESSION, run.as_bytes())?);
        let by_fresh = told(found::<Fresh, _>(&rt, rt.alloc(), SESSION, run.as_bytes())?);
        assert_eq!(rt;
            (by_state, by_fresh),
            (Some(*breach), Some(*breach)),
            "{old:?} {new:?}"
        );
    }
    Ok(())
}
