//! Three tables: what each command comes to, what is told of a printed run, and what each denial is explained by. A fourth has runs
//! in which a process was logged out.

mod breaches;
mod cut;

use mx_explain::show;
use mx_io::{MemorySink, MemorySource};
use mx_judging::{Reason, explain};
use mx_sdw::{Aim, Brackets, Denial, Desc, Ring};
use std::alloc::{AllocError, Global};
use std::sync::Wait;
use std::test::Fail;
use std::thread::Threads;

// Words and a text, whether the source fails at its first call, the room of the sink; and the status that comes, with the parts of
// what is written.
type Row = (
    &'static str,
    &'static [u8],
    bool,
    usize,
    u8,
    &'static [&'static str],
);

const SMALLEST: &[u8] =
    b"multics 1\ncreate_seg >a 64 1 4 4\nset_acl >a Jones.Faculty.a rw\nprocess Jones.Faculty.a\n\
    initiate >a\nset 52\nsta 10|5\nlda 10|5\nlogout\nend\n";

const SMALLEST_LINES: &str = "processes: 1; journal entries: 4\n\n\
    setup: Initializer.SysDaemon.z in ring 0\n\
    line 2: create_seg >a 64 1 4 4\n    entry 1 in ring 0: done\n\
    line 3: set_acl >a Jones.Faculty.a rw\n    entry 2 in ring 0: done\n\n\
    process 1: Jones.Faculty.a, from ring 4\n\
    line 5: initiate >a\n    entry 3 in ring 4: segment number 10, known from now on\n\
    \x20       process 1, segment 10: was no segment; is rw, brackets 1,4,4, 64 words\n\
    line 6: set 52\n    A is 52\n\
    line 7: sta 10|5\n    write 10|5 in ring 4 denied write_bracket: ring 4 is above R1 = 1\n\
    \x20       at point 3: rw by Jones.Faculty.a, brackets 1,4,4, 64 words, since entry 3\n\
    line 8: lda 10|5\n    read 10|5 in ring 4: 0, nobody has stored there\n\
    \x20       at point 3: rw by Jones.Faculty.a, brackets 1,4,4, 64 words, since entry 3\n\
    line 9: logout\n    entry 4 in ring 4: done\n\
    \x20   numbers besides those of its stacks:\n        10 is >a, since entry 3\n";

const ENDED: &str =
    "line 1: the text ends here; expected: `multics 1`, `multics 2`, `multics 3` or `multics 4`\n";

const USAGE: &str = "Usage: show COMMAND < SESSION\n\
    \x20 lint             the first bad line of the text, and what is wrong with it\n\
    \x20 lines [TURNS]    runs the session, and tells each line of the run in words\n\
    \x20 story [TURNS]    runs it, and tells its lines in the order of time\n\
    \x20 picture [TURNS]  runs the session, and draws the run as an SVG\n\
    \x20 page [TURNS]     the run as one HTML file: drawing, lines, access by entry\n\
    \x20 outcomes [TWO]   runs it in every order of its lines: what each line came to\n\
    \x20 plain            the text without the lines that begin with #\n\
    \x20 breach           of a session with a printed run behind it: legal, or why not\n\
    \x20 drill N          the session of drill N, 1 to 6 digits; nothing is read\n\
    \x20 help             this text; nothing is read\n\
    TURNS: who makes the next line, as 2 1 1 2, and then all in turn; or seed N, an\n\
    order that N chooses; without it each process runs on a thread of its own.\n\
    TWO: two lines, as 2.12 1.9 (process, line): which outcomes come together.\n\
    Example: show lines 2 1 1 2 < FILE\n\
    Status: 0 written, 1 out of memory, 2 bad words, 3 input failed,\n\
    4 output failed, 5 no session (breach: no session with a run), 6 too many bytes\n";

const TWO: &[u8] =
    b"multics 1\ncreate_seg >a 64 4 4 4\nset_acl >a Smith.Faculty.a rw\nset_acl > Jones.Faculty.a sma\n\
    process Jones.Faculty.a\nset_acl >a Smith.Faculty.a null\nlogout\n\
    process Smith.Faculty.a\ninitiate >a\nlogout\nend\n";

// Of six orders, Smith is before Jones in three.
const TWO_OUTCOMES: &str = "orders: 6\n\
    1.6: set_acl >a Smith.Faculty.a null\n\
    \x20   ok, done                     in 6, first 1 1 2 2\n\
    1.7: logout\n\
    \x20   ok, done                     in 6, first 1 1 2 2\n\
    2.9: initiate >a\n\
    \x20   refused 3 no_info, refused   in 3, first 1 1 2 2\n\
    \x20   segno 10 new, done           in 3, first 2 1 1 2\n\
    2.10: logout\n\
    \x20   ok, done                     in 6, first 1 1 2 2\n";

const TWO_TOGETHER: &str = "orders: 6\n\
    2.9: initiate >a\n\
    1.6: set_acl >a Smith.Faculty.a null\n\
    \x20 refused 3 no_info, refused\n\
    \x20   ok, done                     in 3, first 1 1 2 2\n\
    \x20 segno 10 new, done\n\
    \x20   ok, done                     in 3, first 2 1 1 2\n";

const NEVER_TOGETHER: &str = "orders: 6\n\
    2.9: initiate >a\n\
    2.9: initiate >a\n\
    \x20 refused 3 no_info, refused\n\
    \x20   refused 3 no_info, refused   in 3, first 1 1 2 2\n\
    \x20   segno 10 new, done           never\n\
    \x20 segno 10 new, done\n\
    \x20   refused 3 no_info, refused   never\n\
    \x20   segno 10 new, done           in 3, first 2 1 1 2\n";

// Of nine lines and nine there are 48,620 orders.
const NINE: &[u8] = b"multics 1\nprocess Jones.Faculty.a\n\
    set 1\nset 2\nset 3\nset 4\nset 5\nset 6\nset 7\nset 10\nlogout\n\
    process Smith.Faculty.a\n\
    set 1\nset 2\nset 3\nset 4\nset 5\nset 6\nset 7\nset 10\nlogout\nend\n";

const BAD: &[&str] = &["bad words\n", USAGE];

const TITLED: &[u8] = b"# A title\nmultics 1\n#\n # not one\n\nend#\n#";

const COMMANDS: &[Row] = &[
    ("lint", SMALLEST, false, 4096, 0, &["good\n"]),
    ("lines", SMALLEST, false, 4096, 0, &[SMALLEST_LINES]),
    ("lines 1 15 1", SMALLEST, false, 4096, 0, &[SMALLEST_LINES]),
    (
        "lines seed 000007",
        SMALLEST,
        false,
        4096,
        0,
        &[SMALLEST_LINES],
    ),
    ("lint", b"", false, 4096, 5, &[ENDED]),
    ("lines", b"", false, 4096, 5, &[ENDED]),
    ("picture", b"", false, 4096, 5, &[ENDED]),
    ("picture 2", b"", false, 4096, 5, &[ENDED]),
    ("outcomes", TWO, false, 4096, 0, &[TWO_OUTCOMES]),
    ("outcomes 2.9 1.6", TWO, false, 4096, 0, &[TWO_TOGETHER]),
    ("outcomes 2.9 2.9", TWO, false, 4096, 0, &[NEVER_TOGETHER]),
    (
        "outcomes 2.8 1.6",
        TWO,
        false,
        4096,
        0,
        &["no line of a script: 2.8\n"],
    ),
    (
        "outcomes 1.6 3.9",
        TWO,
        false,
        4096,
        0,
        &["no line of a script: 3.9\n"],
    ),
    (
        "outcomes",
        NINE,
        false,
        4096,
        0,
        &["too many orders: 48620; at most 20000 are made\n"],
    ),
    ("outcomes", TWO, false, 9, 4, &["orders: 6"]),
    ("outcomes", TWO, true, 4096, 3, &[""]),
    ("outcomes", b"", false, 4096, 5, &[ENDED]),
    ("outcomes 1.6", TWO, true, 4096, 2, BAD),
    ("outcomes 1.6 2.9 1", TWO, true, 4096, 2, BAD),
    ("outcomes 0.6 1.6", TWO, true, 4096, 2, BAD),
    ("outcomes 1.06 1.6", TWO, true, 4096, 2, BAD),
    ("outcomes 1 6", TWO, true, 4096, 2, BAD),
    ("run", SMALLEST, true, 4096, 2, BAD),
    ("lines 0", SMALLEST, true, 4096, 2, BAD),
    ("lines 16", SMALLEST, true, 4096, 2, BAD),
    ("lines 1 02", SMALLEST, true, 4096, 2, BAD),
    ("picture seed", SMALLEST, true, 4096, 2, BAD),
    ("picture seed 1234567", SMALLEST, true, 4096, 2, BAD),
    ("lint 1", SMALLEST, true, 4096, 2, BAD),
    ("drill x", SMALLEST, true, 4096, 2, BAD),
    ("help 1", SMALLEST, true, 12, 4, &["bad words\nUs"]),
    ("help", b"", true, 4096, 0, &[USAGE]),
    ("help", b"", true, 3, 4, &["Usa"]),
    (
        "plain",
        TITLED,
        false,
        4096,
        0,
        &["multics 1\n # not one\n\nend#\n"],
    ),
    ("plain", b"#", false, 4096, 0, &[""]),
    ("plain", TITLED, true, 4096, 3, &[""]),
    ("plain", TITLED, false, 5, 4, &["multi"]),
    ("breach", SMALLEST, false, 4096, 5, &["bad line 11\n"]),
    ("breach", b"", true, 4096, 3, &[""]),
    ("breach", b"", false, 5, 4, &["bad l"]),
    ("breach 1", b"", true, 4096, 2, BAD),
    ("drill 7", b"", true, 9, 4, &["multics 1"]),
    ("lines", SMALLEST, true, 4096, 3, &[""]),
    ("lint", SMALLEST, false, 3, 4, &["goo"]),
    ("picture", SMALLEST, false, 4, 4, &["<svg"]),
    ("story", SMALLEST, false, 9, 4, &["processes"]),
    ("page", SMALLEST, false, 9, 4, &["<!DOCTYPE"]),
    ("page", SMALLEST, true, 4096, 3, &[""]),
    ("story 16", SMALLEST, true, 4096, 2, BAD),
];

#[test]
fn each_status_has_its_cause(rt: HostRuntime) -> Result<(), Fail> {
    let mut wrong = None;
    for (i, row) in COMMANDS.iter().enumerate() {
        if !comes_so(&rt, rt.alloc(), row)? {
            wrong = Some(i);
        }
    }
    assert_eq!(rt; wrong, None);
    Ok(())
}

// Whether the command comes to the status and the bytes of its row.
fn comes_so<R: Threads + Wait + Sync>(
    rt: &R,
    alloc: Global,
    row: &Row,
) -> Result<bool, AllocError> {
    let (line, text, fails, room, wanted, parts) = *row;
    let (status, told) = shown(rt, alloc, line, source(alloc, text, fails)?, room)?;
    Ok(status == wanted && is_made_of(told.bytes(), parts))
}

// What the command of these words comes to over a source, with so much room.
fn shown<R: Threads + Wait + Sync>(
    rt: &R,
    alloc: Global,
    line: &str,
    source: MemorySource,
    room: usize,
) -> Result<(u8, MemorySink), AllocError> {
    let words = words(alloc, line)?;
    let mut source = source;
    let mut told = sink(alloc, room)?;
    let status = show(rt, alloc, &words, &mut source, &mut told);
    Ok((status, told))
}

// The words of a line.
fn words(alloc: Global, line: &str) -> Result<Vec<String>, AllocError> {
    let mut words = Vec::new(alloc);
    for word in line.split(' ') {
        words.push(String::from_str(alloc, word)?)?;
    }
    Ok(words)
}

// Whether the bytes are these parts, one after another.
fn is_made_of(bytes: &[u8], parts: &[&str]) -> bool {
    let mut rest = bytes;
    for part in parts {
        match rest.strip_prefix(part.as_bytes()) {
            Some(others) => rest = others,
            None => return false,
        }
    }
    rest.is_empty()
}

// The run of the smallest session.
const SMALLEST_RUN: &str = "journal 4\n\
    1 0 0 create_seg >a 64 1 4 4 = ok\n\
    2 0 0 set_acl >a Jones.Faculty.a rw = ok\n\
    3 1 4 initiate >a = segno 10 new\n\
    4 1 4 logout = ok\n\
    process 0\n\
    entry 1\n\
    line 2 done\n\
    entry 2\n\
    line 3 done\n\
    process 1\n\
    entry 3\n\
    line 5 done\n\
    line 6 done\n\
    write 10|5 ring 4 point 3 denied write_bracket\n\
    line 7 denied write_bracket\n\
    read 10|5 ring 4 point 3 word 0 from 0 stamp 0\n\
    line 8 a 0\n\
    entry 4\n\
    line 9 done\n\
    end\n";

// What is changed in a run, and by what; the status that `breach` comes to, and what it tells.
type Change = (&'static str, &'static str, u8, &'static str);

const CHANGES: &[Change] = &[
    ("", "", 0, "legal\n"),
    (
        "line 8 a 0",
        "line 8 a 1",
        0,
        "breach 1 8\n\
        line 8 of process 1: lda 10|5\n\
        \x20 printed: line 8 a 1\n\
        \x20 the line rule: its events give the line's end\n\
        \x20 could stand there: line 8 a 0\n",
    ),
    // The process was logged out at the denial.
    (
        "read 10|5 ring 4 point 3 word 0 from 0 stamp 0\nline 8 a 0\n",
        "",
        0,
        "legal\n",
    ),
    ("line 9 done", "line 9 don", 5, "bad line 30\n"),
];

#[test]
fn a_printed_run_is_judged(rt: HostRuntime) -> Result<(), Fail> {
    let mut wrong = None;
    for (i, change) in CHANGES.iter().enumerate() {
        if !is_told_so(&rt, rt.alloc(), SMALLEST, SMALLEST_RUN, change)? {
            wrong = Some(i);
        }
    }
    assert_eq!(rt; wrong, None);
    Ok(())
}

// Whether `breach` comes to the status and the bytes of this change of a session's run.
fn is_told_so<R: Threads + Wait + Sync>(
    rt: &R,
    alloc: Global,
    session: &[u8],
    run: &str,
    change: &Change,
) -> Result<bool, AllocError> {
    let (old, new, wanted, told) = *change;
    let Some((before, after)) = run.split_once(old) else {
        return Ok(false);
    };
    let mut text = Vec::from_slice(alloc, session)?;
    text.extend_from_slice(before.as_bytes())?;
    text.extend_from_slice(new.as_bytes())?;
    text.extend_from_slice(after.as_bytes())?;
    let (status, said) = shown(rt, alloc, "breach", source(alloc, &text, false)?, 4096)?;
    Ok(status == wanted && said.bytes() == told.as_bytes())
}

#[test]
fn each_drill_is_printed_whole(rt: HostRuntime) -> Result<(), Fail> {
    let mut wrong = None;
    for line in DRILLS {
        if !is_session(&rt, rt.alloc(), line)? {
            wrong = Some(*line);
        }
    }
    assert_eq!(rt; wrong, None);
    Ok(())
}

const DRILLS: &[&str] = &["drill 0", "drill 41", "drill 999999"];

// Whether `lint` takes what these words print.
fn is_session<R: Threads + Wait + Sync>(
    rt: &R,
    alloc: Global,
    line: &str,
) -> Result<bool, AllocError> {
    let (status, printed) = shown(rt, alloc, line, source(alloc, b"", true)?, 65_536)?;
    let text = source(alloc, printed.bytes(), false)?;
    let (linted, _told) = shown(rt, alloc, "lint", text, 65_536)?;
    Ok(status == 0 && linted == 0)
}

fn source(alloc: Global, text: &[u8], fails: bool) -> Result<MemorySource, AllocError> {
    let mut faults = Vec::new(alloc);
    if fails {
        faults.push(0)?;
    }
    Ok(MemorySource::new(Vec::from_slice(alloc, text)?, faults, 100))
}

fn sink(alloc: Global, room: usize) -> Result<MemorySink, AllocError> {
    MemorySink::new(alloc, room, Vec::new(alloc), 100).map_err(|_| AllocError)
}

// A descriptor's kind, a denial on it, the effective ring, the word, the current ring, and what is said of it.
type Why = (Shape, Denial, u8, u16, u8, &'static str);

#[derive(Clone, Copy)]
enum Shape {
    Unknown,
    Gone,
    // Brackets 1,3,5, no flag, 2 gates, 64 words.
    Closed,
    // The same of a class that the authorization does not equal.
    OfClass(Aim),
}

use Shape::{Closed, Gone, OfClass, Unknown};

const DENIALS: &[Why] = &[
    (
        Unknown,
        Denial::UnknownSegment,
        4,
        0,
        4,
        "the number stands for no segment",
    ),
    (Unknown, Denial::NotPointer, 4, 0, 4, ""),
    (Gone, Denial::NoSegment, 4, 0, 4, "the segment was deleted"),
    (Gone, Denial::NotPointer, 4, 0, 4, ""),
    (
        Closed,
        Denial::OutOfBounds,
        4,
        64,
        4,
        "word 100 is not below the bound 100 (octal)",
    ),
    (
        OfClass(Aim::Neither),
        Denial::AimRead,
        4,
        0,
        4,
        "the authorization does not dominate the class",
    ),
    (
        OfClass(Aim::Dominates),
        Denial::AimWrite,
        1,
        0,
        1,
        "the authorization does not equal the class",
    ),
    (Closed, Denial::NotReadable, 1, 0, 1, "the flag r is off"),
    (
        Closed,
        Denial::ReadBracket,
        4,
        0,
        4,
        "ring 4 is above R2 = 3",
    ),
    (Closed, Denial::NotWritable, 1, 0, 1, "the flag w is off"),
    (
        Closed,
        Denial::WriteBracket,
        4,
        0,
        4,
        "ring 4 is above R1 = 1",
    ),
    (Closed, Denial::NotExecutable, 4, 0, 4, "the flag e is off"),
    (
        Closed,
        Denial::ExecuteBracket,
        4,
        0,
        4,
        "ring 4 is above R2 = 3",
    ),
    (
        Closed,
        Denial::ExecuteBracket,
        0,
        0,
        0,
        "ring 0 is below R1 = 1",
    ),
    (
        Closed,
        Denial::CallBracket,
        6,
        0,
        6,
        "ring 6 is above R3 = 5",
    ),
    (
        Closed,
        Denial::UpwardCall,
        0,
        0,
        0,
        "ring 0 is below R1 = 1",
    ),
    (
        Closed,
        Denial::Gate,
        5,
        2,
        5,
        "word 2 is no gate: they are below 2 (octal)",
    ),
    (
        Closed,
        Denial::RaisedRing,
        3,
        0,
        2,
        "it would enter ring 3, above the current ring 2",
    ),
    (Closed, Denial::BadReturn, 4, 0, 4, "ring 4 is above R2 = 3"),
];

#[test]
fn each_denial_is_explained(rt: HostRuntime) -> Result<(), Fail> {
    let mut wrong = None;
    for (i, row) in DENIALS.iter().enumerate() {
        if said(rt.alloc(), explained(row))?.as_str() != row.5 {
            wrong = Some(i);
        }
    }
    assert_eq!(rt; wrong, None);
    Ok(())
}

// The reason of a row; none also where one of its numbers is no ring.
fn explained(row: &Why) -> Option<Reason> {
    let (shape, denial, ring, word, current, _) = *row;
    explain(&desc_of(shape)?, denial, Ring::new(ring)?, word, current)
}

fn desc_of(shape: Shape) -> Option<Desc> {
    match shape {
        Unknown => Some(Desc::unknown()),
        Gone => Some(Desc::gone()),
        Closed => closed(Aim::Equal),
        OfClass(aim) => closed(aim),
    }
}

fn closed(aim: Aim) -> Option<Desc> {
    let brackets = Brackets::new(Ring::new(1)?, Ring::new(3)?, Ring::new(5)?)?;
    Some(Desc::classed(aim, brackets, false, false, false, 2, 8, 64))
}

fn said(alloc: Global, reason: Option<Reason>) -> Result<String, AllocError> {
    match reason {
        Some(reason) => format!(in alloc; "{reason}"),
        None => Ok(String::new(alloc)),
    }
}
