//! What a caller reads of a session: its limit, its processes, and its lines.

use mx_script::{Base, Line, Operand, Session, read_session};
use std::alloc::{AllocError, Global};
use std::test::Fail;

// A line's word by its first letter (`t` is `sta`, `p` is `spri`), and its operand or word as a number.
type Brief = (u8, u64);

fn brief(line: &Line) -> Brief {
    match line {
        Line::Ask(_) => (b'a', 0),
        Line::Set { word } => (b's', word.value()),
        Line::Epp { n, operand } => (b'e', u64::from(*n) << 60 | address(operand)),
        Line::Lda { operand } => (b'l', address(operand)),
        Line::Sta { operand } => (b't', address(operand)),
        Line::Spri { n, operand } => (b'p', u64::from(*n) << 60 | address(operand)),
        Line::Fetch => (b'f', 0),
        Line::Call { operand } => (b'c', address(operand)),
        Line::Return { operand } => (b'r', address(operand)),
    }
}

fn address(operand: &Operand) -> u64 {
    let base = match operand.base {
        Base::Segment(segno) => u64::from(segno),
        Base::Register(n) => 0o10000 + u64::from(n),
    };
    let mark = if operand.indirect { 1 } else { 0 };
    base << 32 | u64::from(operand.word) << 1 | mark
}

// What ends a script in the briefs of a session.
const ENDS: Brief = (b'.', 0);

// The lines of all scripts of a session, in order.
fn briefs(alloc: Global, session: &Session) -> Result<Vec<Brief>, AllocError> {
    let mut briefs = Vec::new(alloc);
    for script in session.scripts().items() {
        for line in script.items() {
            briefs.push(brief(line))?;
        }
        briefs.push(ENDS)?;
    }
    Ok(briefs)
}

// The version, the limit that it sets and the limit that it has, and how many requests the setup has and how many principals there are.
fn parts(session: &Session) -> (u8, Option<u32>, u32, usize, usize) {
    (
        session.version(),
        session.history(),
        session.limit(),
        session.setup().items().len(),
        session.principals().items().len(),
    )
}

const TWO: &[u8] =
    b"multics 1\nhistory 3\nprocess A.B.c\nlogout\nprocess D.E.f\nset 1\nset 2\nlogout\nend\n";

const TWO_BRIEFS: &[Brief] = &[(b'a', 0), ENDS, (b's', 1), (b's', 2), (b'a', 0), ENDS];

const EACH_KIND: &[u8] = b"multics 1\n\
    create_seg >a 64 4 4 4\n\
    set_acl >a Jones.Faculty.a rw\n\
    process Jones.Faculty.a\n\
    initiate >a\n\
    set 52\n\
    sta 10|5\n\
    lda 10|6\n\
    epp 7 pr3|17,*\n\
    spri 0 10|5,*\n\
    fetch\n\
    call 11|1\n\
    return pr7|0\n\
    logout\n\
    end\n";

const EACH_KIND_BRIEFS: &[Brief] = &[
    (b'a', 0),
    (b's', 0o52),
    (b't', 8 << 32 | 5 << 1),
    (b'l', 8 << 32 | 6 << 1),
    (b'e', 7 << 60 | 0o10003 << 32 | 0o17 << 1 | 1),
    (b'p', 8 << 32 | 5 << 1 | 1),
    (b'f', 0),
    (b'c', 9 << 32 | 1 << 1),
    (b'r', 0o10007 << 32),
    (b'a', 0),
    ENDS,
];

#[test]
fn a_session_has_the_parts_of_its_text(rt: HostRuntime) -> Result<(), Fail> {
    let alloc = rt.alloc();
    for (text, own, lines) in [
        (TWO, (1, Some(3), 3, 0, 2), TWO_BRIEFS),
        (EACH_KIND, (1, None, 262_143, 2, 1), EACH_KIND_BRIEFS),
    ] {
        let session = read_session(alloc, text)?;
        let has_lines = briefs(alloc, &session)?.as_slice() == lines;
        assert_eq!(rt; (parts(&session), has_lines), (own, true));
    }
    Ok(())
}
