//! Breaches of a run of one process.

use super::{Row, first_wrong};
use std::test::Fail;

const ALONE_SESSION: &[u8] = b"multics 1\n\
    create_seg >a 64 4 4 4\n\
    set_acl >a Jones.Faculty.a rw\n\
    process Jones.Faculty.a\n\
    initiate >a\n\
    set 52\n\
    sta 10|5\n\
    lda 10|5\n\
    logout\n\
    end\n";

const ALONE_RUN: &str = "journal 4\n\
    1 0 0 create_seg >a 64 4 4 4 = ok\n\
    2 0 0 set_acl >a Jones.Faculty.a rw = ok\n\
    3 1 4 initiate >a = segno 10 new\n\
    4 1 4 logout = ok\n\
    process 0\n\
    entry 1\n\
    line 2 done\n\
    entry 2\n\
    line 3 done\n\
    process 1\n\
    entry 3\n\
    line 5 done\n\
    line 6 done\n\
    write 10|5 ring 4 point 3 word 52\n\
    line 7 done\n\
    read 10|5 ring 4 point 3 word 52 from 1 stamp 3\n\
    line 8 a 52\n\
    entry 4\n\
    line 9 done\n\
    end\n";

// What is changed, and what is told.
const ALONE_ROWS: &[Row] = &[
    ("", "", "legal\n"),
    (
        "word 52 from",
        "word 53 from",
        "breach 1 8\n\
         line 8 of process 1: lda 10|5\n\
         \x20 printed: read 10|5 ring 4 point 3 word 53 from 1 stamp 3\n\
         \x20 the read rule: process 1 stored 52 at 10|5 last (line 7); a read that names process 1 gives its last own store\n\
         \x20 could stand there: read 10|5 ring 4 point 3 word 52 from 1 stamp 3\n",
    ),
    (
        "segno 10 new",
        "segno 11 new",
        "breach 1 0\n\
         entry 3, of process 1\n\
         \x20 printed: 3 1 4 initiate >a = segno 11 new\n\
         \x20 the supervisor: an entry has the reply that the plain supervisor gives after the entries before it\n\
         \x20 could stand there: 3 1 4 initiate >a = segno 10 new\n",
    ),
    (
        "line 6 done\n",
        "",
        "breach 1 6\n\
         line 6 of process 1: set 52\n\
         \x20 printed: line 7 done\n\
         \x20 the session's lines: the next of this process is line 6\n",
    ),
    (
        "line 6 done\n",
        "line 6 done\n\
         line 6 done\n",
        "breach 1 7\n\
         line 7 of process 1: sta 10|5\n\
         \x20 printed: line 6 done\n\
         \x20 the session's lines: the next of this process is line 7\n",
    ),
    (
        "write 10|5 ring 4 point 3",
        "write 10|5 ring 4 point 2",
        "breach 1 7\n\
         line 7 of process 1: sta 10|5\n\
         \x20 printed: write 10|5 ring 4 point 2 word 52\n\
         \x20 the point rule: the process had seen entry 3, the journal has 4, and its own next entry is 4\n\
         \x20 could stand there: point 3\n",
    ),
    (
        "line 9 done\n",
        "line 9 done\n\
         process 2\n",
        "breach 2 0\n\
         the part of process 2\n\
         \x20 the processes: those of this session are 1 to 1, and 0, the initializer\n",
    ),
    (
        "process 0\n\
         entry 1\n\
         line 2 done\n\
         entry 2\n\
         line 3 done\n",
        "process 0\n",
        "breach 0 2\n\
         line 2 of process 0: create_seg >a 64 4 4 4\n\
         \x20 printed: nothing\n\
         \x20 the session's lines: each is printed, in order\n",
    ),
    (
        "write 10|5 ring 4 point 3 word 52",
        "write 10|5 ring 4 point 3 denied write_bracket",
        "breach 1 7\n\
         line 7 of process 1: sta 10|5\n\
         \x20 printed: write 10|5 ring 4 point 3 denied write_bracket\n\
         \x20 the line rule: the line asks for write 10|5 in ring 4, of the word 52\n\
         \x20 the judging rule: at point 3 the access is rw, brackets 4,4,4, 64 words: granted\n\
         \x20 could stand there: write 10|5 ring 4 point 3 word 52\n",
    ),
    (
        "line 8 a 52",
        "line 8 a 53",
        "breach 1 8\n\
         line 8 of process 1: lda 10|5\n\
         \x20 printed: line 8 a 53\n\
         \x20 the line rule: its events give the line's end\n\
         \x20 could stand there: line 8 a 52\n",
    ),
    (
        "3 1 4 initiate",
        "3 2 4 initiate",
        "breach 2 0\n\
         entry 3, of process 2\n\
         \x20 printed: 3 2 4 initiate >a = segno 10 new\n\
         \x20 the processes: those of this session are 1 to 1, and 0, the initializer\n",
    ),
    (
        "2 0 0",
        "2 0 4",
        "breach 0 0\n\
         entry 2, of process 0\n\
         \x20 printed: 2 0 4 set_acl >a Jones.Faculty.a rw = ok\n\
         \x20 the initializer: it asks in ring 0, and not in ring 4\n",
    ),
    (
        "1 0 0 create",
        "1 1 0 create",
        "breach 1 0\n\
         entry 1, of process 1\n\
         \x20 printed: 1 1 0 create_seg >a 64 4 4 4 = ok\n\
         \x20 the setup: the first 2 entries are the initializer's, one for each line of the setup\n",
    ),
    (
        "read 10|5 ring 4 point 3 word 52 from 1 stamp 3",
        "read 10|5 ring 4 point 3 word 0 from 0 stamp 0",
        "breach 1 8\n\
         line 8 of process 1: lda 10|5\n\
         \x20 printed: read 10|5 ring 4 point 3 word 0 from 0 stamp 0\n\
         \x20 the read rule: process 1 had stored or read a stored word at 10|5 (line 7); from then on no read there is nobody's\n\
         \x20 could stand there: read 10|5 ring 4 point 3 word 52 from 1 stamp 3\n",
    ),
    (
        "read 10|5 ring 4 point 3 word 52 from 1 stamp 3",
        "read 10|5 ring 4 point 3 word 52 from 0 stamp 0",
        "breach 1 8\n\
         line 8 of process 1: lda 10|5\n\
         \x20 printed: read 10|5 ring 4 point 3 word 52 from 0 stamp 0\n\
         \x20 the read rule: a word that nobody stored is 0, with stamp 0\n\
         \x20 could stand there: read 10|5 ring 4 point 3 word 52 from 1 stamp 3\n",
    ),
    (
        "line 6 done\n",
        "line 6 done\n\
         missing 10 by 2\n",
        "breach 1 7\n\
         line 7 of process 1: sta 10|5\n\
         \x20 printed: missing 10 by 2\n\
         \x20 the miss rule: entry 2 did not change the process's access to 10\n\
         \x20 could stand there: no miss of 10\n",
    ),
    (
        "point 3 word 52 from",
        "point 9 word 52 from",
        "breach 1 8\n\
         line 8 of process 1: lda 10|5\n\
         \x20 printed: read 10|5 ring 4 point 9 word 52 from 1 stamp 3\n\
         \x20 the point rule: the process had seen entry 3, the journal has 4, and its own next entry is 4\n\
         \x20 could stand there: point 3\n",
    ),
    (
        "line 9 done",
        "line 9 done\n\
         line 10 done",
        "breach 1 9\n\
         behind the last line of process 1\n\
         \x20 printed: line 10 done\n\
         \x20 the session's lines: it has no further line of this process\n",
    ),
    (
        "word 52 from 1 stamp 3",
        "word 52 from 2 stamp 3",
        "breach 1 8\n\
         line 8 of process 1: lda 10|5\n\
         \x20 printed: read 10|5 ring 4 point 3 word 52 from 2 stamp 3\n\
         \x20 the read rule: process 2 stored no 52 with stamp 3 there\n\
         \x20 could stand there: read 10|5 ring 4 point 3 word 52 from 1 stamp 3\n",
    ),
    (
        "1 0 0 create_seg >a 64 4 4 4",
        "1 0 0 logout",
        "breach 0 0\n\
         entry 1, of process 0\n\
         \x20 printed: 1 0 0 logout = ok\n\
         \x20 the initializer: it makes requests on paths alone\n",
    ),
];

#[test]
fn each_breach_of_one_process_is_told(rt: HostRuntime) -> Result<(), Fail> {
    let wrong = first_wrong(&rt, rt.alloc(), ALONE_SESSION, ALONE_RUN, ALONE_ROWS)?;
    assert_eq!(rt; wrong, None);
    Ok(())
}
