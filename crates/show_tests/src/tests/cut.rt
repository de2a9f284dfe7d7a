//! Runs in which a process was logged out: what is told of the lines that it ran, and of those that were left out.

use super::{is_made_of, sink};
use mx_io::MemorySink;
use mx_legal::legal;
use mx_reader::read;
use mx_script::read_session;
use mx_show::{ShowError, show_lines};
use mx_state::State;
use std::alloc::Global;
use std::test::Fail;
use std::thread::Threads;

/// The most bytes of a text here.
const MOST_BYTES: usize = 4096;

const SESSION: &[u8] =
    b"multics 1\ncreate_seg >a 64 1 4 4\nset_acl >a Jones.Faculty.a rw\nprocess Jones.Faculty.a\n\
    initiate >a\nsta 10|5\nlda 10|5\nsta 10|6\nlda 10|6\nlogout\nend\n";

// The run up to the line that is denied first, and what is told of that.
const BEGINNING: &str = "journal 4\n\
    1 0 0 create_seg >a 64 1 4 4 = ok\n\
    2 0 0 set_acl >a Jones.Faculty.a rw = ok\n\
    3 1 4 initiate >a = segno 10 new\n\
    4 1 4 logout = ok\n\
    process 0\n\
    entry 1\n\
    line 2 done\n\
    entry 2\n\
    line 3 done\n\
    process 1\n\
    entry 3\n\
    line 5 done\n\
    write 10|5 ring 4 point 3 denied write_bracket\n\
    line 6 denied write_bracket\n";

const BEGINNING_TOLD: &str = "processes: 1; journal entries: 4\n\n\
    setup: Initializer.SysDaemon.z in ring 0\n\
    line 2: create_seg >a 64 1 4 4\n    entry 1 in ring 0: done\n\
    line 3: set_acl >a Jones.Faculty.a rw\n    entry 2 in ring 0: done\n\n\
    process 1: Jones.Faculty.a, from ring 4\n\
    line 5: initiate >a\n    entry 3 in ring 4: segment number 10, known from now on\n\
    \x20       process 1, segment 10: was no segment; is rw, brackets 1,4,4, 64 words\n\
    line 6: sta 10|5\n    write 10|5 in ring 4 denied write_bracket: ring 4 is above R1 = 1\n\
    \x20       at point 3: rw by Jones.Faculty.a, brackets 1,4,4, 64 words, since entry 3\n";

// The lines up to the one that is denied next.
const NEXT: &str = "read 10|5 ring 4 point 3 word 0 from 0 stamp 0\n\
    line 7 a 0\n\
    write 10|6 ring 4 point 3 denied write_bracket\n\
    line 8 denied write_bracket\n";

const NEXT_TOLD: &str = "line 7: lda 10|5\n    read 10|5 in ring 4: 0, nobody has stored there\n\
    \x20       at point 3: rw by Jones.Faculty.a, brackets 1,4,4, 64 words, since entry 3\n\
    line 8: sta 10|6\n    write 10|6 in ring 4 denied write_bracket: ring 4 is above R1 = 1\n\
    \x20       at point 3: rw by Jones.Faculty.a, brackets 1,4,4, 64 words, since entry 3\n";

const LAST: &str = "read 10|6 ring 4 point 3 word 0 from 0 stamp 0\nline 9 a 0\n";

const LAST_TOLD: &str = "line 9: lda 10|6\n    read 10|6 in ring 4: 0, nobody has stored there\n\
    \x20       at point 3: rw by Jones.Faculty.a, brackets 1,4,4, 64 words, since entry 3\n";

const LOGOUT: &str = "entry 4\nline 10 done\nend\n";

const LOGOUT_TOLD: &str = "line 10: logout\n    entry 4 in ring 4: done\n\
    \x20   numbers besides those of its stacks:\n        10 is >a, since entry 3\n";

// The parts of a run, and those of what is told of it.
type Row = (&'static [&'static str], &'static [&'static str]);

const ROWS: &[Row] = &[
    // all lines
    (
        &[BEGINNING, NEXT, LAST, LOGOUT],
        &[BEGINNING_TOLD, NEXT_TOLD, LAST_TOLD, LOGOUT_TOLD],
    ),
    // logged out at the first denial, and at the second
    (
        &[BEGINNING, LOGOUT],
        &[
            BEGINNING_TOLD,
            "lines 7 to 9 are left out: the process is logged out\n",
            LOGOUT_TOLD,
        ],
    ),
    (
        &[BEGINNING, NEXT, LOGOUT],
        &[
            BEGINNING_TOLD,
            NEXT_TOLD,
            "line 9 is left out: the process is logged out\n",
            LOGOUT_TOLD,
        ],
    ),
];

#[test]
fn lines_that_are_left_out_are_named(rt: HostRuntime) -> Result<(), Fail> {
    let mut wrong = None;
    for (i, row) in ROWS.iter().enumerate() {
        if !is_told_so(&rt, rt.alloc(), row)? {
            wrong = Some(i);
        }
    }
    assert_eq!(rt; wrong, None);
    Ok(())
}

// Whether a run of these parts is a legal one, of which these parts are told.
fn is_told_so<R: Threads + Sync>(rt: &R, alloc: Global, row: &Row) -> Result<bool, ShowError> {
    let (parts, wanted) = *row;
    let mut run = Vec::new(alloc);
    for part in parts {
        run.extend_from_slice(part.as_bytes())?;
    }
    let mut told = sink(alloc, MOST_BYTES)?;
    let legal = is_told(rt, alloc, &run, &mut told)?;
    Ok(legal && is_made_of(told.bytes(), wanted))
}

// Tells a printed run of the session, where it is a legal one, and says whether it is.
fn is_told<R: Threads + Sync>(
    rt: &R,
    alloc: Global,
    run: &[u8],
    told: &mut MemorySink,
) -> Result<bool, ShowError> {
    if run.len() > MOST_BYTES {
        return Ok(false);
    }
    let Ok(session) = read_session(alloc, SESSION) else {
        return Ok(false);
    };
    let Ok((journal, transcripts)) = read(alloc, run) else {
        return Ok(false);
    };
    if legal::<State, R>(rt, alloc, &session, &journal, &transcripts)?.is_some() {
        return Ok(false);
    }
    show_lines(alloc, &session, &journal, &transcripts, told)?;
    Ok(true)
}
