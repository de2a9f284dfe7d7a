//! Breaches of a run in which a process logs out behind a line that was denied.

use super::{Row, first_wrong};
use std::test::Fail;

const CUT_SESSION: &[u8] = b"multics 1\n\
    create_seg >a 64 4 4 4\n\
    set_acl >a *.*.* rw\n\
    process A.B.c\n\
    initiate >a\n\
    lda 10|100\n\
    set 5\n\
    sta 10|0\n\
    logout\n\
    end\n";

const CUT_RUN: &str = "journal 4\n\
    1 0 0 create_seg >a 64 4 4 4 = ok\n\
    2 0 0 set_acl >a *.*.* rw = ok\n\
    3 1 4 initiate >a = segno 10 new\n\
    4 1 4 logout = ok\n\
    process 0\n\
    entry 1\n\
    line 2 done\n\
    entry 2\n\
    line 3 done\n\
    process 1\n\
    entry 3\n\
    line 5 done\n\
    read 10|100 ring 4 point 3 denied out_of_bounds\n\
    line 6 denied out_of_bounds\n\
    entry 4\n\
    line 9 done\n\
    end\n";

// What is changed, and what is told.
const CUT_ROWS: &[Row] = &[
    ("", "", "legal\n"),
    (
        "entry 4\n\
         line 9 done\n",
        "line 7 done\n\
         write 10|0 ring 4 point 3 word 5\n\
         line 8 done\n\
         entry 4\n\
         line 9 done\n",
        "legal\n",
    ),
    (
        "entry 4\n\
         line 9 done\n",
        "line 8 done\n\
         entry 4\n\
         line 9 done\n",
        "breach 1 7\n\
         line 7 of process 1: set 5\n\
         \x20 printed: line 8 done\n\
         \x20 the session's lines: behind line 6, which was denied, the next of this process is line 7 or line 9\n",
    ),
    (
        "entry 4\n\
         line 9 done\n",
        "",
        "breach 1 7\n\
         line 7 of process 1: set 5\n\
         \x20 printed: nothing\n\
         \x20 the session's lines: behind line 6, which was denied, the next of this process is line 7 or line 9\n",
    ),
    (
        "entry 4\n\
         line 9 done\n",
        "line 7 done\n\
         entry 4\n\
         line 9 done\n",
        "breach 1 8\n\
         line 8 of process 1: sta 10|0\n\
         \x20 printed: line 9 done\n\
         \x20 the session's lines: the next of this process is line 8\n",
    ),
    (
        "entry 4\n\
         line 9 done\n",
        "line 7 done\n",
        "breach 1 8\n\
         line 8 of process 1: sta 10|0\n\
         \x20 printed: nothing\n\
         \x20 the session's lines: each is printed, in order\n",
    ),
    (
        "line 9 done\n",
        "line 9 done\n\
         line 9 done\n",
        "breach 1 9\n\
         behind the last line of process 1\n\
         \x20 printed: line 9 done\n\
         \x20 the session's lines: it has no further line of this process\n",
    ),
    (
        "entry 4\n\
         line 9 done\n",
        "line 9 done\n",
        "breach 1 9\n\
         line 9 of process 1: logout\n\
         \x20 printed: line 9 done\n\
         \x20 the line rule: the line asks the supervisor in ring 4: logout\n\
         \x20 could stand there: entry 4, the next of this process, which asked in ring 4: logout\n",
    ),
    (
        "line 9 done\n",
        "line 9 refused\n",
        "breach 1 9\n\
         line 9 of process 1: logout\n\
         \x20 printed: line 9 refused\n\
         \x20 the line rule: its events give the line's end\n\
         \x20 could stand there: line 9 done\n",
    ),
    (
        "journal 4\n\
         1 0 0 create_seg >a 64 4 4 4 = ok\n\
         2 0 0 set_acl >a *.*.* rw = ok\n\
         3 1 4 initiate >a = segno 10 new\n\
         4 1 4 logout = ok\n",
        "journal 5\n\
         1 0 0 create_seg >a 64 4 4 4 = ok\n\
         2 0 0 set_acl >a *.*.* rw = ok\n\
         3 1 4 initiate >a = segno 10 new\n\
         4 1 4 logout = ok\n\
         5 1 4 logout = ok\n",
        "breach 1 0\n\
         entry 5 of process 1: logout\n\
         \x20 the journal's order: the lines of a process name each of its entries, and none names this one\n",
    ),
];

#[test]
fn each_breach_behind_a_denied_line_is_told(rt: HostRuntime) -> Result<(), Fail> {
    let wrong = first_wrong(&rt, rt.alloc(), CUT_SESSION, CUT_RUN, CUT_ROWS)?;
    assert_eq!(rt; wrong, None);
    Ok(())
}
