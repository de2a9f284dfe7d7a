//! Printed runs that the top call checks: each row changes one thing of a session and its run.

use super::calls::{GOOD, call};
use std::alloc::{AllocError, Global};
use std::test::Fail;

const TEXT: &str = "multics 1\n\
    create_seg >a 64 4 4 4\n\
    set_acl >a Jones.Faculty.a rw\n\
    process Jones.Faculty.a\n\
    initiate >a\n\
    set 52\n\
    sta 10|5\n\
    lda 10|5\n\
    logout\n\
    end\n\
    journal 4\n\
    1 0 0 create_seg >a 64 4 4 4 = ok\n\
    2 0 0 set_acl >a Jones.Faculty.a rw = ok\n\
    3 1 4 initiate >a = segno 10 new\n\
    4 1 4 logout = ok\n\
    process 0\nentry 1\nline 2 done\nentry 2\nline 3 done\n\
    process 1\nentry 3\nline 5 done\nline 6 done\n\
    write 10|5 ring 4 point 3 word 52\nline 7 done\n\
    read 10|5 ring 4 point 3 word 52 from 1 stamp 3\nline 8 a 52\n\
    entry 4\nline 9 done\nend\n";

// What is changed; the status, and what is written.
type Row = (&'static str, &'static str, u8, &'static [u8]);

const ROWS: &[Row] = &[
    ("", "", 0, b"legal\n"),
    ("word 52 from", "word 53 from", 7, b"breach 1 8\n"),
    ("segno 10 new", "segno 11 new", 7, b"breach 1 0\n"),
    ("line 9 done\nend\n", "line 9 done\n", 5, b"bad line 31\n"),
];

// A text in which this stands in place of that, where it stands first.
fn with(alloc: Global, text: &str, old: &str, new: &str) -> Result<String, AllocError> {
    let mut out = String::new(alloc);
    match text.split_once(old) {
        Some((before, after)) => {
            out.push_str(before)?;
            out.push_str(new)?;
            out.push_str(after)?;
        }
        None => out.push_str(text)?,
    }
    Ok(out)
}

#[test]
fn each_judgement_is_told(rt: HostRuntime) -> Result<(), Fail> {
    for (old, new, status, written) in ROWS {
        let text = with(rt.alloc(), TEXT, old, new)?;
        let (came, told) = call(&rt, rt.alloc(), &["check"], text.as_bytes(), GOOD)?;
        assert_eq!(rt;
            (came, told.as_slice()),
            (*status, *written),
            "{old:?} {new:?}"
        );
    }
    Ok(())
}
