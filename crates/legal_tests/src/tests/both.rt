//! Session texts followed by run texts that are read together, and other texts with their first bad lines.

use mx_both::{ReadBoth, read_both};
use std::alloc::{AllocError, Global};
use std::test::Fail;
use std::thread::Threads;

// A text, and the number of its first bad line; 0 where it is both texts.
const ROWS: &[(&[u8], u32)] = &[
    (b"", 1),
    (b"multics 9\n", 1),
    (b"journal 0\nend\n", 1),
    (b"multics 1\nend\njournal 0\nend\n", 2),
    (b"multics 1\nprocess A.B.c\nlogout\njournal 0\nend\n", 4),
    (b"multics 1\nprocess A.B.c\nlogout\nend", 4),
    (b"multics 1\nprocess A.B.c\nlogout\nend\n", 5),
    (
        b"multics 1\nprocess A.B.c\nlogout\nend\nend\njournal 0\nend\n",
        5,
    ),
    (
        b"multics 1\nprocess A.B.c\nlogout\nend\njournal 0\nend\n",
        0,
    ),
    (
        b"multics 1\nprocess A.B.c\nlogout\nend\njournal 1\nend\n",
        6,
    ),
    (
        b"multics 1\nprocess A.B.c\nlogout\nend\njournal 0\nend\nmore",
        7,
    ),
    (
        b"multics 1\nprocess A.B.c\nlogout\nend\n\
          journal 1\n1 1 4 logout = ok\nprocess 0\nprocess 1\nentry 1\nline 3 done\nend\n",
        0,
    ),
    (
        b"multics 1\nprocess A.B.c\nlogout\nend\n\
          journal 1\n1 1 4 logout = ok\nprocess 0\nprocess 1\nentry 1\nline 3 done\n",
        11,
    ),
];

// The number of the first bad line of a text; 0 where it is both texts.
fn bad_line<R: Threads + Sync>(rt: &R, alloc: Global, text: &[u8]) -> Result<u32, AllocError> {
    if text.len() > 4096 {
        return Err(AllocError);
    }
    match read_both(rt, alloc, text) {
        Ok(_) => Ok(0),
        Err(ReadBoth::BadLine(line)) => Ok(line),
        Err(ReadBoth::Memory) => Err(AllocError),
    }
}

#[test]
fn a_bad_line_is_counted_from_the_first(rt: HostRuntime) -> Result<(), Fail> {
    for (text, line) in ROWS {
        assert_eq!(rt; bad_line(&rt, rt.alloc(), text)?, *line, "{text:?}");
    }
    Ok(())
}
