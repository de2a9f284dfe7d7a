//! Run texts that are read and printed again, and texts of no run with their first bad lines.

use mx_io::MemorySink;
use mx_reader::{ReadText, read};
use mx_text::print;
use std::alloc::{AllocError, Global};
use std::test::Fail;

// Each kind of reply, event and result.
const WHOLE: &[u8] = b"journal 20\n\
    1 0 0 create_dir >d 4 5 = ok\n\
    2 0 0 set_iacl_seg >d *.*.* rw = ok\n\
    3 0 0 set_class >s 1:3 = refused 26 bad_class\n\
    4 1 4 status >s = segment words 64 brackets 1 4 5 modes re class 1:3\n\
    5 1 4 status >t = segment words 65535 brackets 0 0 7 modes null\n\
    6 1 4 status >o = object words 64 brackets 4 4 4 gate 1 definitions 2 links 3 modes r\n\
    7 1 4 status >d = directory brackets 5 4 modes sma\n\
    8 1 4 status >l = link >d>x\n\
    9 1 4 status >k = link >\n\
    10 1 4 list >d = names\n\
    11 1 4 list > = names a b\n\
    12 1 4 initiate >s = segno 10 new\n\
    13 1 4 initiate >o n = segno 11 new linkage 12\n\
    14 1 4 initiate >s = segno 10 old\n\
    15 1 5 link 12|3 = linked 10|5 new linkage 13\n\
    16 1 4 wakeup 2 52 = sent\n\
    17 2 4 block = waiting\n\
    18 2 4 resume = message 15 777777777777\n\
    19 2 4 block = nobody\n\
    20 1 4 logout = ok\n\
    process 0\n\
    entry 1\n\
    line 2 done\n\
    line 3 history_full\n\
    process 1\n\
    missing 7777 by 262143\n\
    ind 7777|37777 ring 7 point 262143 word 0 from 15 stamp 262143\n\
    read 10|5 ring 4 point 6 word 52 from 1 stamp 3\n\
    line 8 a 52\n\
    write 10|5 ring 4 point 6 word 0\n\
    line 9 done\n\
    call 10|0 ring 4 point 6 enter 3\n\
    line 10 ring 3 at 10|0\n\
    fetch 10|0 ring 3 point 6 denied gate\n\
    line 4294967295 denied gate\n\
    line 12 pr 7 5 201|16\n\
    line 13 refused\n\
    process 2\n\
    end\n";

// What is printed of the run that was read, or the number of the first bad line.
fn read_back(alloc: Global, text: &[u8]) -> Result<Result<MemorySink, u32>, AllocError> {
    if text.len() > 4096 {
        return Err(AllocError);
    }
    let made = MemorySink::new(alloc, 4096, Vec::new(alloc), 100);
    let mut sink = made.map_err(|_| AllocError)?;
    match read(alloc, text) {
        Ok((journal, transcripts)) => match print(alloc, &journal, &transcripts, &mut sink) {
            Ok(()) => Ok(Ok(sink)),
            Err(_) => Err(AllocError),
        },
        Err(ReadText::BadLine(line)) => Ok(Err(line)),
        Err(ReadText::Memory) => Err(AllocError),
    }
}

#[test]
fn what_is_printed_is_read(rt: HostRuntime) -> Result<(), Fail> {
    match read_back(rt.alloc(), WHOLE)? {
        Ok(sink) => assert_eq!(rt; sink.bytes(), WHOLE),
        Err(line) => assert_eq!(rt; line, 0),
    }
    Ok(())
}

// The number of the first bad line; 0 where the text is that of a run.
fn bad_line(alloc: Global, text: &[u8]) -> Result<u32, AllocError> {
    match read_back(alloc, text)? {
        Ok(_) => Ok(0),
        Err(line) => Ok(line),
    }
}

#[test]
fn a_bad_line_of_a_journal_is_told(rt: HostRuntime) -> Result<(), Fail> {
    let alloc = rt.alloc();
    assert_eq!(rt; bad_line(alloc, b"")?, 1);
    assert_eq!(rt; bad_line(alloc, b"journal 0")?, 1);
    assert_eq!(rt; bad_line(alloc, b"journal 01\n")?, 1);
    assert_eq!(rt; bad_line(alloc, b"journal 262144\n")?, 1);
    assert_eq!(rt; bad_line(alloc, b"journal 0\nend\nmore")?, 3);
    assert_eq!(rt; bad_line(alloc, b"journal 1\nend\n")?, 2);
    assert_eq!(rt; bad_line(alloc, b"journal 0\n1 0 0 block = ok\nend\n")?, 2);
    assert_eq!(rt; bad_line(alloc, b"journal 1\n2 0 0 block = ok\n")?, 2);
    assert_eq!(rt; bad_line(alloc, b"journal 1\n1 16 0 block = ok\n")?, 2);
    assert_eq!(rt;
        bad_line(alloc, b"journal 1\n1 1 4 list > = names  a\n")?,
        2
    );
    assert_eq!(rt;
        bad_line(alloc, b"journal 1\n1 1 4 delete >d = refused 6 no_info\n")?,
        2
    );
    Ok(())
}

#[test]
fn a_bad_line_of_a_part_is_told(rt: HostRuntime) -> Result<(), Fail> {
    let alloc = rt.alloc();
    assert_eq!(rt; bad_line(alloc, b"journal 0\nprocess 1\n")?, 2);
    assert_eq!(rt;
        bad_line(alloc, b"journal 0\nprocess 0\nline 2 done\nprocess 0\n")?,
        4
    );
    assert_eq!(rt;
        bad_line(alloc, b"journal 0\nprocess 0\nentry 1\nend\n")?,
        4
    );
    assert_eq!(rt;
        bad_line(alloc, b"journal 0\nprocess 0\nline 4294967296 done\n")?,
        3
    );
    assert_eq!(rt;
        bad_line(
            alloc,
            b"journal 0\nprocess 0\ncall 10|0 ring 4 point 0 word 0\n"
        )?,
        3
    );
    assert_eq!(rt;
        bad_line(alloc, b"journal 0\nprocess 0\nline 2 done\nend")?,
        4
    );
    Ok(())
}
