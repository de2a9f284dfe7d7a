//! Sources and sinks, in memory and of std.

use mx_io::{
    Got, MemorySink, MemorySource, Put, ReadError, Sink, Source, StdSink, StdSource, WriteFault,
    read_all, write_all,
};
use std::alloc::{AllocError, Global};
use std::io::{self, ErrorKind, Read, Write};
use std::test::Fail;

const TEXT: &[u8] = b"journal 4\n1 0 0 create_seg >a = ok\n";

// The calls that are to fault: one, or none.
fn failing(alloc: Global, call: Option<u32>) -> Result<Vec<u32>, AllocError> {
    let mut fails = Vec::new(alloc);
    if let Some(call) = call {
        fails.push(call)?;
    }
    Ok(fails)
}

// Whether the text is read, in pieces of so many bytes.
fn read(
    alloc: Global,
    piece: usize,
    limit: usize,
    call: Option<u32>,
) -> Result<Result<bool, ReadError>, AllocError> {
    let fails = failing(alloc, call)?;
    if piece == 0 {
        return Ok(Ok(false));
    }
    let mut source = MemorySource::new(TEXT.to_vec(alloc)?, fails, piece);
    match read_all(alloc, &mut source, limit) {
        Ok(bytes) => Ok(Ok(bytes.as_slice() == TEXT)),
        Err(error) => Ok(Err(error)),
    }
}

#[test]
fn a_source_is_read_in_pieces(rt: HostRuntime) -> Result<(), Fail> {
    let (alloc, all) = (rt.alloc(), TEXT.len());
    let came = [
        read(alloc, 1, all, None)?,
        read(alloc, 7, 1000, None)?,
        read(alloc, 7, 1000, Some(0))?,
        read(alloc, 7, 1000, Some(3))?,
        read(alloc, 7, all - 1, None)?,
    ];
    let fault = Err(ReadError::Fault);
    assert_eq!(rt;
        came,
        [Ok(true), Ok(true), fault, fault, Err(ReadError::TooLong)]
    );
    Ok(())
}

// Whether the text is written, in pieces of 7 bytes into so much room, and how many of its first bytes the sink has then.
fn written(alloc: Global, room: usize, call: Option<u32>) -> Result<(bool, Option<usize>), Fail> {
    let mut sink = MemorySink::new(alloc, room, failing(alloc, call)?, 7)?;
    let done = write_all(&mut sink, TEXT).is_ok();
    let bytes = sink.bytes();
    let kept = if TEXT.starts_with(bytes) {
        Some(bytes.len())
    } else {
        None
    };
    Ok((done, kept))
}

// What is kept of a text that is not written whole is `journal 4` with its newline, or as far as `1 0 ` behind it.
#[test]
fn a_sink_that_fails_keeps_the_front(rt: HostRuntime) -> Result<(), Fail> {
    let alloc = rt.alloc();
    let came = [
        written(alloc, 100, None)?,
        written(alloc, 10, None)?,
        written(alloc, 100, Some(2))?,
    ];
    assert_eq!(rt;
        came,
        [
            (true, Some(TEXT.len())),
            (false, Some(10)),
            (false, Some(14))
        ]
    );
    Ok(())
}

#[test]
fn the_standard_ends_move_the_same_bytes(rt: HostRuntime) -> Result<(), Fail> {
    let alloc = rt.alloc();
    let read = read_all(alloc, &mut StdSource::new(TEXT), 1000)?;
    let mut out = Vec::new(alloc);
    write_all(&mut StdSink::new(&mut out), TEXT)?;
    let mut four = [0u8; 4];
    let narrow = write_all(&mut StdSink::new(four.as_mut_slice()), TEXT);
    write_all(&mut StdSink::new(rt.stdout()), TEXT)?;
    let nothing = read_all(alloc, &mut StdSource::new(rt.stdin()), 1000)?;
    let same = (read.as_slice() == TEXT, out.as_slice() == TEXT);
    assert_eq!(rt;
        (same, narrow, nothing.len()),
        ((true, true), Err(WriteFault), 0)
    );
    Ok(())
}

// Its first call answers an error, and each later one moves one byte.
#[derive(Drop)]
struct Stumbling {
    error: Option<ErrorKind>,
}

impl Read for Stumbling {
    fn read(&mut self, buf: &mut [u8]) -> io::Result<usize> {
        if let Some(kind) = self.error.take() {
            return Err(io::Error::from(kind));
        }
        Ok(buf.len().min(1))
    }
}

impl Write for Stumbling {
    fn write(&mut self, buf: &[u8]) -> io::Result<usize> {
        if let Some(kind) = self.error.take() {
            return Err(io::Error::from(kind));
        }
        Ok(buf.len().min(1))
    }

    fn flush(&mut self) -> io::Result<()> {
        Ok(())
    }
}

// What the first call comes to, and the second.
fn got(kind: ErrorKind) -> (Got, Got) {
    let mut source = StdSource::new(Stumbling { error: Some(kind) });
    let mut buf = [0u8; 4];
    let first = source.read(&mut buf);
    (first, source.read(&mut buf))
}

fn put(kind: ErrorKind) -> (Put, Put) {
    let mut sink = StdSink::new(Stumbling { error: Some(kind) });
    let first = sink.write(b"abc");
    (first, sink.write(b"abc"))
}

// Each of these errors ends a call, which is made again after an interruption alone. That a fault is counted once, and nothing
// else, the contract of the ends says.
const ERRORS: [ErrorKind; 8] = [
    ErrorKind::WouldBlock,
    ErrorKind::TimedOut,
    ErrorKind::BrokenPipe,
    ErrorKind::ConnectionReset,
    ErrorKind::UnexpectedEof,
    ErrorKind::StorageFull,
    ErrorKind::PermissionDenied,
    ErrorKind::Other,
];

#[test]
fn a_read_is_made_again_after_an_interruption_alone(rt: HostRuntime) {
    let again = got(ErrorKind::Interrupted) == (Got::Bytes(1), Got::Bytes(1));
    let ended = ERRORS
        .iter()
        .all(|kind| got(*kind) == (Got::Fault, Got::Bytes(1)));
    assert_eq!(rt; (again, ended), (true, true));
}

#[test]
fn a_write_is_made_again_after_an_interruption_alone(rt: HostRuntime) {
    let again = put(ErrorKind::Interrupted) == (Put::Bytes(1), Put::Bytes(1));
    let ended = ERRORS
        .iter()
        .all(|kind| put(*kind) == (Put::Fault, Put::Bytes(1)));
    assert_eq!(rt; (again, ended), (true, true));
}
