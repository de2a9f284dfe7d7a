//! Breaches of runs of two processes that share a segment: words that are read, and misses.

use super::{Row, first_wrong};
use std::test::Fail;

const READ_SESSION: &[u8] = b"multics 1\n\
    create_seg >a 64 4 4 4\n\
    set_acl >a *.*.* rw\n\
    process A.B.c\n\
    initiate >a\n\
    set 1\n\
    sta 10|0\n\
    set 2\n\
    sta 10|0\n\
    logout\n\
    process D.E.f\n\
    initiate >a\n\
    lda 10|0\n\
    lda 10|0\n\
    logout\n\
    end\n";

const READ_RUN: &str = "journal 6\n\
    1 0 0 create_seg >a 64 4 4 4 = ok\n\
    2 0 0 set_acl >a *.*.* rw = ok\n\
    3 1 4 initiate >a = segno 10 new\n\
    4 2 4 initiate >a = segno 10 new\n\
    5 1 4 logout = ok\n\
    6 2 4 logout = ok\n\
    process 0\n\
    entry 1\n\
    line 2 done\n\
    entry 2\n\
    line 3 done\n\
    process 1\n\
    entry 3\n\
    line 5 done\n\
    line 6 done\n\
    write 10|0 ring 4 point 3 word 1\n\
    line 7 done\n\
    line 8 done\n\
    write 10|0 ring 4 point 4 word 2\n\
    line 9 done\n\
    entry 5\n\
    line 10 done\n\
    process 2\n\
    entry 4\n\
    line 12 done\n\
    read 10|0 ring 4 point 4 word 2 from 1 stamp 4\n\
    line 13 a 2\n\
    read 10|0 ring 4 point 5 word 2 from 1 stamp 4\n\
    line 14 a 2\n\
    entry 6\n\
    line 15 done\n\
    end\n";

// Words that were stored by the other process.
const READ_ROWS: &[Row] = &[
    (
        "read 10|0 ring 4 point 5 word 2 from 1 stamp 4\n\
         line 14 a 2",
        "read 10|0 ring 4 point 4 word 1 from 1 stamp 3\n\
         line 14 a 1",
        "breach 2 14\n\
         line 14 of process 2: lda 10|0\n\
         \x20 printed: read 10|0 ring 4 point 4 word 1 from 1 stamp 3\n\
         \x20 the read rule: process 2 had read a later store of process 1 there (line 13); no read goes back behind it\n\
         \x20 could stand there: read 10|0 ring 4 point 4 word 2 from 1 stamp 4\n",
    ),
    (
        "read 10|0 ring 4 point 4 word 2 from 1 stamp 4\n\
         line 13 a 2\n\
         read 10|0 ring 4 point 5 word 2 from 1 stamp 4\n\
         line 14 a 2",
        "read 10|0 ring 4 point 5 word 0 from 0 stamp 0\n\
         line 13 a 0\n\
         read 10|0 ring 4 point 5 word 2 from 1 stamp 4\n\
         line 14 a 2",
        "breach 2 13\n\
         line 13 of process 2: lda 10|0\n\
         \x20 printed: read 10|0 ring 4 point 5 word 0 from 0 stamp 0\n\
         \x20 the read rule: process 1 stored 1 at 10|0 (line 7), and made an entry after it up to point 5; a word is nobody's only while no store of it is known\n\
         \x20 could stand there: read 10|0 ring 4 point 5 word 2 from 1 stamp 4\n",
    ),
    (
        "read 10|0 ring 4 point 4 word 2 from 1 stamp 4\n\
         line 13 a 2\n",
        "read 10|0 ring 4 point 5 word 1 from 1 stamp 3\n\
         line 13 a 1\n",
        "breach 2 13\n\
         line 13 of process 2: lda 10|0\n\
         \x20 printed: read 10|0 ring 4 point 5 word 1 from 1 stamp 3\n\
         \x20 the read rule: the store was superseded: by point 5 a later one was known\n\
         \x20 could stand there: read 10|0 ring 4 point 5 word 2 from 1 stamp 4\n",
    ),
];

const MISS_SESSION: &[u8] = b"multics 1\n\
    create_seg >a 64 4 4 4\n\
    set_acl >a *.*.* rw\n\
    set_acl > D.E.f sma\n\
    process A.B.c\n\
    initiate >a\n\
    set 1\n\
    sta 10|0\n\
    sta 10|1\n\
    logout\n\
    process D.E.f\n\
    set_acl >a A.B.c r\n\
    set_acl >a A.B.c rw\n\
    logout\n\
    end\n";

const MISS_RUN: &str = "journal 8\n\
    1 0 0 create_seg >a 64 4 4 4 = ok\n\
    2 0 0 set_acl >a *.*.* rw = ok\n\
    3 0 0 set_acl > D.E.f sma = ok\n\
    4 1 4 initiate >a = segno 10 new\n\
    5 2 4 set_acl >a A.B.c r = ok\n\
    6 2 4 set_acl >a A.B.c rw = ok\n\
    7 1 4 logout = ok\n\
    8 2 4 logout = ok\n\
    process 0\n\
    entry 1\n\
    line 2 done\n\
    entry 2\n\
    line 3 done\n\
    entry 3\n\
    line 4 done\n\
    process 1\n\
    entry 4\n\
    line 6 done\n\
    line 7 done\n\
    write 10|0 ring 4 point 4 word 1\n\
    line 8 done\n\
    missing 10 by 5\n\
    missing 10 by 6\n\
    write 10|1 ring 4 point 6 word 1\n\
    line 9 done\n\
    entry 7\n\
    line 10 done\n\
    process 2\n\
    entry 5\n\
    line 12 done\n\
    entry 6\n\
    line 13 done\n\
    entry 8\n\
    line 14 done\n\
    end\n";

// Access that the other process takes away and gives back.
const MISS_ROWS: &[Row] = &[
    (
        "missing 10 by 5",
        "missing 10 by 4",
        "breach 1 9\n\
         line 9 of process 1: sta 10|1\n\
         \x20 printed: missing 10 by 4\n\
         \x20 the miss rule: entry 4 is the process's own\n\
         \x20 could stand there: missing 10 by 5\n\
         \x20 could stand there: missing 10 by 6\n",
    ),
    (
        "missing 10 by 5\n",
        "missing 10 by 3\n",
        "breach 1 9\n\
         line 9 of process 1: sta 10|1\n\
         \x20 printed: missing 10 by 3\n\
         \x20 the miss rule: entry 3 did not change the process's access to 10\n\
         \x20 could stand there: missing 10 by 5\n\
         \x20 could stand there: missing 10 by 6\n",
    ),
    (
        "missing 10 by 5\n\
         missing 10 by 6",
        "missing 10 by 6\n\
         missing 10 by 5",
        "breach 1 9\n\
         line 9 of process 1: sta 10|1\n\
         \x20 printed: missing 10 by 5\n\
         \x20 the miss rule: entry 5 is not above entry 6, by which the process missed 10 last\n\
         \x20 could stand there: no miss of 10\n",
    ),
    (
        "missing 10 by 5\n",
        "missing 10 by 9\n",
        "breach 1 9\n\
         line 9 of process 1: sta 10|1\n\
         \x20 printed: missing 10 by 9\n\
         \x20 the miss rule: the journal has no entry 9\n\
         \x20 could stand there: missing 10 by 5\n\
         \x20 could stand there: missing 10 by 6\n",
    ),
    (
        "write 10|1 ring 4 point 6 word 1",
        "write 10|1 ring 4 point 5 word 1",
        "breach 1 9\n\
         line 9 of process 1: sta 10|1\n\
         \x20 printed: write 10|1 ring 4 point 5 word 1\n\
         \x20 the point rule: the process had seen entry 6, the journal has 8, and its own next entry is 7\n\
         \x20 could stand there: point 6\n",
    ),
    (
        "entry 7\n\
         line 10",
        "entry 8\n\
         line 10",
        "breach 1 10\n\
         line 10 of process 1: logout\n\
         \x20 printed: entry 8\n\
         \x20 the line rule: the line asks the supervisor in ring 4: logout\n\
         \x20 could stand there: entry 7, the next of this process, which asked in ring 4: logout\n",
    ),
];

#[test]
fn each_wrong_word_is_told(rt: HostRuntime) -> Result<(), Fail> {
    let wrong = first_wrong(&rt, rt.alloc(), READ_SESSION, READ_RUN, READ_ROWS)?;
    assert_eq!(rt; wrong, None);
    Ok(())
}

#[test]
fn each_wrong_miss_is_told(rt: HostRuntime) -> Result<(), Fail> {
    let wrong = first_wrong(&rt, rt.alloc(), MISS_SESSION, MISS_RUN, MISS_ROWS)?;
    assert_eq!(rt; wrong, None);
    Ok(())
}
