//! The text of a drill's session, which no program prints.

use mx_drill::{session_of, session_text};
use mx_script::read_session;
use std::alloc::{AllocError, Global};
use std::test::Fail;

// The lines of the drill of number 7: the setup, and the beginning of process 1 with its first two rounds.
const BEGINS: &[u8] = b"multics 1
set_acl > *.Drill.* sma
create_seg >s1 64 4 4 4
set_acl >s1 *.*.* rw
create_seg >s2 64 4 4 4
set_acl >s2 *.*.* rw
create_seg >s3 64 4 4 4
set_acl >s3 *.*.* rw
create_seg >s4 64 4 4 4
set_acl >s4 *.*.* rw
process U1.Drill.a
initiate >s1
initiate >s2
initiate >s3
initiate >s4
set 1757
sta 10|10
lda 10|17
set_acl >s1 U2.Drill.a r
sta 10|100
set 1763
sta 10|44
lda 10|53
set_acl >s1 U3.Drill.a rw
sta 10|100
";

// The end of the last round of process 4, its logout and the end.
const ENDS: &[u8] = b"
set 10243
sta 13|57
lda 10|66
set_acl >s4 U1.Drill.a rw
sta 13|100
logout
end
";

// Whether a text of less than 65,536 bytes is that of a session, and the text of this session is the same.
fn is_text_again(alloc: Global, text: &[u8]) -> Result<bool, AllocError> {
    if text.len() >= 65_536 {
        return Ok(false);
    }
    match read_session(alloc, text) {
        Ok(session) => Ok(session_text(alloc, &session)?.items() == text),
        Err(_) => Ok(false),
    }
}

#[test]
fn the_text_of_a_drill_is_read_as_that_drill(rt: HostRuntime) -> Result<(), Fail> {
    let alloc = rt.alloc();
    let text = session_text(alloc, &session_of(alloc, 7)?)?;
    let bytes = text.items();
    let ends_so = bytes.starts_with(BEGINS) && bytes.ends_with(ENDS);
    assert_eq!(rt; (ends_so, is_text_again(alloc, bytes)?), (true, true));
    Ok(())
}
