//! The run text of transcripts that no session has: a journal of one entry beside what a process did at more segments.

use mx_io::MemorySink;
use mx_list::Sequence;
use mx_ptr::Pointer;
use mx_request::{Reply, Request, SharedRequest};
use mx_sdw::{Denial, Ring};
use mx_state::{Entry, Journal};
use mx_text::print;
use mx_transcript::{
    Element, Event, Event2, Kind, Outcome, Recording, Result2, Transcript, Transcripts,
};
use std::alloc::{AllocError, Global};
use std::test::Fail;

fn ring(n: u8) -> Result<Ring, AllocError> {
    Ring::new(n).ok_or(AllocError)
}

fn entry(alloc: Global, maker: (u8, u8), line: &[u8], reply: Reply) -> Result<Entry, AllocError> {
    let request = Request::read(alloc, line)?.ok_or(AllocError)?;
    Ok(Entry {
        process: maker.0,
        ring: ring(maker.1)?,
        request: SharedRequest::new(alloc, request)?,
        reply,
    })
}

// A reference to the word 10|5 in ring 4.
fn seen(kind: Kind, point: u32, outcome: Outcome) -> Result<Event2, AllocError> {
    Ok(Event2::Core(Event::Seen(Element {
        kind,
        segno: 0o10,
        word: 5,
        ring: ring(4)?,
        point,
        outcome,
    })))
}

// Lines with at most one event each.
fn transcript(
    alloc: Global,
    lines: &[(u32, Option<Event2>, Result2)],
) -> Result<Transcript, AllocError> {
    let mut recording = Recording::with_room(alloc, lines.len())?;
    for (number, event, ends) in lines {
        recording.reserve()?;
        if let Some(event) = event {
            recording.push(*event);
        }
        recording.end_line(*number, *ends);
    }
    Ok(recording.finish())
}

// What a sink holds to which they were printed.
fn text(
    alloc: Global,
    journal: &Journal,
    transcripts: &Transcripts,
) -> Result<MemorySink, AllocError> {
    let made = MemorySink::new(alloc, 4096, Vec::new(alloc), 100);
    let mut sink = made.map_err(|_| AllocError)?;
    match print(alloc, journal, transcripts, &mut sink) {
        Ok(()) => Ok(sink),
        Err(_) => Err(AllocError),
    }
}

#[test]
fn a_full_journal_is_printed(rt: HostRuntime) -> Result<(), Fail> {
    let alloc = rt.alloc();
    let journal = Sequence::of(vec![in alloc;
        entry(
            alloc,
            (0, 0),
            b"create_object >a 64 4 4 4 1 d:x:5 l:m$y",
            Reply::Done
        )?,
    ]?);
    let denial = Denial::UnknownSegment;
    let denied = seen(Kind::Read, 1, Outcome::Denied(denial))?;
    let pointer = Pointer {
        ring: ring(5)?,
        segno: 0o201,
        word: 0o16,
        further: false,
    };
    let entered = seen(Kind::Call, 1, Outcome::Entered { ring: ring(3)? })?;
    let moved = Result2::Moved {
        ring: ring(3)?,
        procedure: Pointer {
            ring: ring(3)?,
            segno: 0o10,
            word: 5,
            further: false,
        },
    };
    let setup = [
        (3, Some(Event2::Entry(1)), Result2::Done),
        (4, None, Result2::HistoryFull),
    ];
    let script = [
        (6, Some(denied), Result2::Denied(denial)),
        (7, None, Result2::HistoryFull),
        (8, None, Result2::Pr { n: 2, pointer }),
        (9, Some(entered), moved),
    ];
    let transcripts = Sequence::of(vec![in alloc;
        transcript(alloc, &setup)?,
        transcript(alloc, &script)?,
    ]?);
    let want = b"journal 1\n\
        1 0 0 create_object >a 64 4 4 4 1 d:x:5 l:m$y = ok\n\
        process 0\nentry 1\nline 3 done\nline 4 history_full\n\
        process 1\nread 10|5 ring 4 point 1 denied unknown_segment\n\
        line 6 denied unknown_segment\nline 7 history_full\nline 8 pr 2 5 201|16\n\
        call 10|5 ring 4 point 1 enter 3\nline 9 ring 3 at 10|5\nend\n";
    assert_eq!(rt;
        text(alloc, &journal, &transcripts)?.bytes(),
        want.as_slice()
    );
    Ok(())
}
