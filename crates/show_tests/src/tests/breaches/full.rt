//! Breaches of a run whose journal is full.

use super::{Row, first_wrong};
use std::test::Fail;

const FULL_SESSION: &[u8] = b"multics 1\n\
    history 3\n\
    create_seg >a 64 4 4 4\n\
    set_acl >a *.*.* rw\n\
    process A.B.c\n\
    initiate >a\n\
    lda 10|100\n\
    logout\n\
    end\n";

const FULL_RUN: &str = "journal 3\n\
    1 0 0 create_seg >a 64 4 4 4 = ok\n\
    2 0 0 set_acl >a *.*.* rw = ok\n\
    3 1 4 initiate >a = segno 10 new\n\
    process 0\n\
    entry 1\n\
    line 3 done\n\
    entry 2\n\
    line 4 done\n\
    process 1\n\
    entry 3\n\
    line 6 done\n\
    read 10|100 ring 4 point 3 denied out_of_bounds\n\
    line 7 denied out_of_bounds\n\
    line 8 history_full\n\
    end\n";

// What is changed, and what is told.
const FULL_ROWS: &[Row] = &[
    (
        "line 8 history_full",
        "entry 4\n\
         line 8 done",
        "breach 1 8\n\
         line 8 of process 1: logout\n\
         \x20 printed: entry 4\n\
         \x20 the line rule: the line asks the supervisor in ring 4: logout\n\
         \x20 could stand there: no entry, as the journal has none of this process that is not named\n\
         \x20 the journal is full; could stand there: line 8 history_full\n",
    ),
    (
        "entry 2\n\
         line 4 done",
        "line 4 history_full",
        "breach 0 4\n\
         line 4 of process 0: set_acl >a *.*.* rw\n\
         \x20 printed: line 4 history_full\n\
         \x20 the setup: its first 2 lines have entries, and those past these find the journal full\n",
    ),
    (
        "entry 3\n\
         line 6 done",
        "line 6 history_full",
        "breach 1 0\n\
         entry 3 of process 1: initiate >a\n\
         \x20 the journal's order: the lines of a process name each of its entries, and none names this one\n",
    ),
    (
        "journal 3\n\
         1 0 0 create_seg >a 64 4 4 4 = ok\n\
         2 0 0 set_acl >a *.*.* rw = ok\n\
         3 1 4 initiate >a = segno 10 new\n",
        "journal 4\n\
         1 0 0 create_seg >a 64 4 4 4 = ok\n\
         2 0 0 set_acl >a *.*.* rw = ok\n\
         3 1 4 initiate >a = segno 10 new\n\
         4 1 4 logout = ok\n",
        "breach 1 0\n\
         entry 4, of process 1\n\
         \x20 printed: 4 1 4 logout = ok\n\
         \x20 the limit: the journal of this session has at most 3 entries\n",
    ),
    (
        "denied out_of_bounds\n\
         line 7",
        "denied not_readable\n\
         line 7",
        "breach 1 7\n\
         line 7 of process 1: lda 10|100\n\
         \x20 printed: read 10|100 ring 4 point 3 denied not_readable\n\
         \x20 the line rule: the line asks for read 10|100 in ring 4\n\
         \x20 the judging rule: at point 3 the access is rw, brackets 4,4,4, 64 words: denied out_of_bounds, as word 100 is not below the bound 100 (octal)\n\
         \x20 could stand there: read 10|100 ring 4 point 3 denied out_of_bounds\n",
    ),
];

#[test]
fn each_breach_at_the_limit_is_told(rt: HostRuntime) -> Result<(), Fail> {
    let wrong = first_wrong(&rt, rt.alloc(), FULL_SESSION, FULL_RUN, FULL_ROWS)?;
    assert_eq!(rt; wrong, None);
    Ok(())
}
