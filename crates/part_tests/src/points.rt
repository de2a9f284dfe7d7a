//! Rows worked by hand.

use mx_list::Sequence;
use mx_points::{
    Naming, first_after_full, first_bad_miss, first_bad_point, first_bad_setup, first_misnamed,
    line_of_event, lines_of,
};
use mx_request::{Reply, Request, SharedRequest};
use mx_sdw::Ring;
use mx_state::{Entry, Journal};
use mx_stores::{CellUse, Deed, Form};
use mx_transcript::{Event2, Recording, Result2, Transcript};
use std::alloc::{AllocError, Global};
use std::test::Fail;

fn enters(number: u32) -> Form {
    Form::Enters { number }
}

fn refers(point: u32) -> Form {
    Form::Refers { point }
}

fn misses(segno: u16, by: u32) -> Form {
    Form::Misses { segno, by }
}

fn loads(stamp: u32, point: u32) -> Form {
    Form::Loads {
        cell: CellUse { cell: 5, since: 0 },
        value: 7,
        writer: 2,
        stamp,
        point,
    }
}

fn deeds(alloc: Global, forms: &[Form]) -> Result<Vec<Deed>, AllocError> {
    let mut deeds = Vec::new(alloc);
    for form in forms {
        deeds.push(Deed::new(*form))?;
    }
    Ok(deeds)
}

// Five entries, of the processes 2, 2, 1, 3 and 2.
fn journal(alloc: Global) -> Result<Journal, AllocError> {
    let mut journal = Sequence::new(alloc);
    for process in [2, 2, 1, 3, 2] {
        journal.push(Entry {
            process,
            ring: Ring::new(4).ok_or(AllocError)?,
            request: SharedRequest::new(alloc, Request::Resume)?,
            reply: Reply::Nobody,
        })?;
    }
    Ok(journal)
}

// Lines by a text: a digit names an entry, `.` ends a line that is done, and `!` one that found the journal full.
fn transcript(alloc: Global, text: &[u8]) -> Result<Transcript, AllocError> {
    let mut recording = Recording::with_room(alloc, text.len())?;
    for byte in text {
        recording.reserve()?;
        match *byte {
            b'.' => recording.end_line(1, Result2::Done),
            b'!' => recording.end_line(1, Result2::HistoryFull),
            digit => recording.push(Event2::Entry(u32::from(digit.saturating_sub(b'0')))),
        }
    }
    Ok(recording.finish())
}

fn bad_point(alloc: Global, forms: &[Form]) -> Result<Option<usize>, AllocError> {
    let deeds = deeds(alloc, forms)?;
    Ok(first_bad_point(2, 9, deeds.as_slice()))
}

// Process 1's misses, where each entry but the fifth changed every descriptor.
fn bad_miss(alloc: Global, forms: &[Form]) -> Result<Option<usize>, AllocError> {
    let journal = journal(alloc)?;
    let deeds = deeds(alloc, forms)?;
    let mut changes = Vec::new(alloc);
    for form in forms {
        changes.push(!matches!(form, Form::Misses { by: 5, .. }))?;
    }
    first_bad_miss(alloc, &journal, 1, deeds.as_slice(), changes.as_slice())
}

// How these lines name the entries of process 2.
fn naming_of(alloc: Global, text: &[u8]) -> Result<Naming, AllocError> {
    let journal = journal(alloc)?;
    let transcript = transcript(alloc, text)?;
    let lines = lines_of(alloc, &transcript)?;
    Ok(first_misnamed(&journal, 2, lines.as_slice()))
}

fn after_full(alloc: Global, text: &[u8]) -> Result<Option<usize>, AllocError> {
    let transcript = transcript(alloc, text)?;
    let lines = lines_of(alloc, &transcript)?;
    Ok(first_after_full(lines.as_slice()))
}

// Of a setup with two entries.
fn bad_setup(alloc: Global, text: &[u8]) -> Result<Option<usize>, AllocError> {
    let transcript = transcript(alloc, text)?;
    let lines = lines_of(alloc, &transcript)?;
    Ok(first_bad_setup(2, lines.as_slice()))
}

#[test]
fn points_lie_between_what_was_seen_and_what_comes_next(rt: HostRuntime) -> Result<(), Fail> {
    let heap = rt.alloc();
    let rows: [(&[Form], Option<usize>); 9] = [
        (
            &[refers(2), enters(3), misses(8, 4), loads(3, 4), refers(9)],
            None,
        ),
        // Before the setup, and past the journal.
        (&[refers(1)], Some(0)),
        (&[refers(10)], Some(0)),
        // Before an own entry, a miss, a stamp, an earlier point.
        (&[enters(4), refers(3)], Some(1)),
        (&[misses(8, 4), refers(3)], Some(1)),
        (&[loads(4, 3), refers(3)], Some(1)),
        (&[refers(4), refers(3)], Some(1)),
        // At the next own entry; the entry after that one does not matter.
        (&[refers(3), misses(8, 2), enters(3)], Some(0)),
        (&[refers(3), enters(4), refers(8), enters(8)], Some(2)),
    ];
    for (forms, place) in &rows {
        assert_eq!(rt; bad_point(heap, forms)?, *place);
    }
    Ok(())
}

#[test]
fn misses_rise_below_the_next_own_entry(rt: HostRuntime) -> Result<(), Fail> {
    let heap = rt.alloc();
    let rows: [(&[Form], Option<usize>); 10] = [
        (
            &[
                misses(8, 1),
                misses(8, 2),
                misses(9, 1),
                enters(3),
                misses(8, 4),
            ],
            None,
        ),
        // By an own entry; by one that changed nothing.
        (&[misses(8, 3)], Some(0)),
        (&[misses(8, 5)], Some(0)),
        // By the same entry again, by an earlier one, also with an own one between.
        (&[misses(8, 2), misses(8, 2)], Some(1)),
        (&[misses(65535, 2), misses(65535, 1)], Some(1)),
        (&[misses(8, 2), enters(3), misses(8, 1)], Some(2)),
        // By the next own entry or one after it.
        (&[misses(8, 4), enters(4)], Some(0)),
        (&[misses(8, 1), misses(8, 4), enters(3)], Some(1)),
        // By no entry.
        (&[misses(8, 0)], Some(0)),
        (&[misses(8, 6)], Some(0)),
    ];
    for (forms, place) in &rows {
        assert_eq!(rt; bad_miss(heap, forms)?, *place);
    }
    Ok(())
}

#[test]
fn lines_name_the_entries_in_order(rt: HostRuntime) -> Result<(), Fail> {
    let heap = rt.alloc();
    let rows: [(&[u8], Naming); 7] = [
        (b"12..5.", Naming::Whole),
        (b"1.2.", Naming::Short),
        (b"", Naming::Short),
        // One left out, one too many, another's, none's.
        (b"1.5.", Naming::Misnamed(1)),
        (b"125.6.", Naming::Misnamed(1)),
        (b"123.", Naming::Misnamed(0)),
        (b"0.", Naming::Misnamed(0)),
    ];
    for (text, naming) in &rows {
        assert_eq!(rt; naming_of(heap, text)?, *naming);
    }
    Ok(())
}

#[test]
fn nothing_is_entered_after_a_full_journal(rt: HostRuntime) -> Result<(), Fail> {
    let heap = rt.alloc();
    let rows: [(&[u8], Option<usize>); 3] = [
        (b"1.2!.!", None),
        (b"!.1.", Some(2)),
        (b"1.!2!", Some(2)),
    ];
    for (text, place) in &rows {
        assert_eq!(rt; after_full(heap, text)?, *place);
    }
    Ok(())
}

#[test]
fn setup_lines_past_the_entries_find_the_journal_full(rt: HostRuntime) -> Result<(), Fail> {
    let heap = rt.alloc();
    let rows: [(&[u8], Option<usize>); 3] = [
        (b"1.2.!!", None),
        (b"1.!", Some(1)),
        (b"1.2.!3.", Some(3)),
    ];
    for (text, place) in &rows {
        assert_eq!(rt; bad_setup(heap, text)?, *place);
    }
    Ok(())
}

#[test]
fn each_event_is_of_one_line(rt: HostRuntime) -> Result<(), Fail> {
    let heap = rt.alloc();
    let transcript = transcript(heap, b".1..23.")?;
    let lines = lines_of(heap, &transcript)?;
    for (place, line) in [(0, 1), (1, 3), (2, 3), (3, 4)] {
        assert_eq!(rt; line_of_event(lines.as_slice(), place), line);
    }
    Ok(())
}
