//! The texts of the events and results of a transcript's lines, added to bytes.

ghost use Rattle.std.specs.Prelude.{◌≡◌, ◌≤◌, ◌+◌, ◌++◌, codes, drop, length, OnOk};
ghost use Rattle.std.specs.Fmt.{decimal};
ghost use Rattle.mx_sdw.specs.Denials.{denial_text};
ghost use Rattle.mx_sdw.specs.Octal.{octal};
ghost use Rattle.mx_core.specs.declared.elements.Event.TheVariants.{Missing};
ghost use Rattle.mx_transcript.specs.declared.transcripts.Event2.TheVariants.{Core, Entry};
ghost use Rattle.mx_transcript.specs.declared.transcripts.Result2.TheVariants.{Pr, Moved};
ghost use Rattle.mx_text.specs.RunText.{kind_text, outcome_text, element_text, event_text, events_text};
ghost use Rattle.mx_text.specs.RunText.{result_text, step_text};

use super::tails::{
    ROOM, Room, put_address, put_byte, put_decimal, put_letters, put_octal, put_text,
};
use mx_ptr::Pointer;
use mx_sdw::{Denial, Ring, Word};
use mx_transcript::{Element, Event, Event2, Kind, Outcome, Result2};
use std::alloc::AllocError;

/// So many events of a line are spelled together with it, at most.
const TOGETHER: usize = 15;

/// Adds a line's events, then `line N RESULT`. Each is spelled in `bytes`, which hold nothing that lasts.
pub(super) fn add_step(
    out: &mut Vec<u8>,
    bytes: &mut Room,
    number: u32,
    events: &[Event2],
    ends: Result2,
) -> Result<(), AllocError>
    ensures { OnOk result (out.new.items ≡ out.old.items ++ step_text (number, events.now, ends)) }
{
    if events.len() <= TOGETHER {
        let start = put_line(bytes, number, &ends);
        let start = put_events(bytes, start, events);
        out.extend_from_slice(&bytes[start..])
    } else {
        add_events(out, bytes, events)?;
        let start = put_line(bytes, number, &ends);
        out.extend_from_slice(&bytes[start..])
    }
}

fn add_events(out: &mut Vec<u8>, bytes: &mut Room, events: &[Event2]) -> Result<(), AllocError>
    ensures { OnOk result (out.new.items ≡ out.old.items ++ events_text events.now) }
{
    for event in events {
        let start = put_alone(bytes, event);
        out.extend_from_slice(&bytes[start..])?;
    }
    Ok(())
}

// An event, at the end.
fn put_alone(bytes: &mut Room, event: &Event2) -> usize
    ensures put { drop result bytes.new ≡ event_text event.now }
    ensures within { result ≤ 3072 }
{
    put_event(bytes, ROOM, event)
}

// Events, from the last to the first.
fn put_events(bytes: &mut Room, end: usize, events: &[Event2]) -> usize
    requires few { length events.now ≤ 15 }
    requires within { end ≤ 3072 }
    requires room { 2880 ≤ end }
    ensures put { drop result bytes.new ≡ events_text events.now ++ drop end bytes.old }
    ensures within { result ≤ end }
{
    let mut start = end;
    let mut left = events.len();
    while left > 0 {
        left -= 1;
        start = put_event(bytes, start, &events[left]);
    }
    start
}

#[inline(always)]
fn put_event(bytes: &mut Room, end: usize, event: &Event2) -> usize
    requires within { end ≤ 3072 }
    requires room { 192 ≤ end }
    ensures put { drop result bytes.new ≡ event_text event.now ++ drop end bytes.old }
    ensures within { result ≤ end }
    ensures short { end ≤ 192 + result }
{
    match event {
        Event2::Core(Event::Seen(element)) => put_element(bytes, end, element),
        Event2::Core(Event::Missing { segno, by }) => put_miss(bytes, end, *segno, *by),
        Event2::Entry(entry) => put_entry(bytes, end, *entry),
    }
}

// `entry N`
fn put_entry(bytes: &mut Room, end: usize, entry: u32) -> usize
    requires within { end ≤ 3072 }
    requires room { 192 ≤ end }
    ensures put { drop result bytes.new ≡ event_text (Entry entry) ++ drop end bytes.old }
    ensures within { result ≤ end }
    ensures short { end ≤ 192 + result }
{
    let at = put_byte(bytes, end, b'\n');
    let at = put_decimal(bytes, at, u64::from(entry));
    put_letters(bytes, at, b"entry ")
}

// `missing S by K`
fn put_miss(bytes: &mut Room, end: usize, segno: u16, by: u32) -> usize
    requires within { end ≤ 3072 }
    requires room { 192 ≤ end }
    ensures put { drop result bytes.new ≡ event_text (Core (Missing segno by)) ++ drop end bytes.old }
    ensures within { result ≤ end }
    ensures short { end ≤ 192 + result }
{
    let at = put_byte(bytes, end, b'\n');
    let at = put_decimal(bytes, at, u64::from(by));
    let at = put_letters(bytes, at, b" by ");
    let at = put_octal(bytes, at, u64::from(segno));
    put_letters(bytes, at, b"missing ")
}

// `KIND S|W ring R point K ..`
#[inline(always)]
fn put_element(bytes: &mut Room, end: usize, element: &Element) -> usize
    requires within { end ≤ 3072 }
    requires room { 192 ≤ end }
    ensures put { drop result bytes.new ≡ element_text element.now ++ drop end bytes.old }
    ensures within { result ≤ end }
    ensures short { end ≤ 192 + result }
{
    let at = put_byte(bytes, end, b'\n');
    let at = put_outcome(bytes, at, &element.outcome);
    let at = put_decimal(bytes, at, u64::from(element.point));
    let at = put_letters(bytes, at, b" point ");
    let at = put_decimal(bytes, at, u64::from(element.ring.number()));
    let at = put_letters(bytes, at, b" ring ");
    let at = put_address(bytes, at, element.segno, element.word);
    put_kind(bytes, at, &element.kind)
}

// A kind and a blank.
#[inline(always)]
fn put_kind(bytes: &mut Room, end: usize, kind: &Kind) -> usize
    requires within { end ≤ 3072 }
    requires room { 7 ≤ end }
    ensures put { drop result bytes.new ≡ kind_text kind.now ++ codes " " ++ drop end bytes.old }
    ensures within { result ≤ end }
    ensures short { end ≤ 7 + result }
{
    match kind {
        Kind::Read => put_letters(bytes, end, b"read "),
        Kind::Ind => put_letters(bytes, end, b"ind "),
        Kind::Write => put_letters(bytes, end, b"write "),
        Kind::Fetch => put_letters(bytes, end, b"fetch "),
        Kind::Call => put_letters(bytes, end, b"call "),
        Kind::Return => put_letters(bytes, end, b"return "),
    }
}

#[inline(always)]
fn put_outcome(bytes: &mut Room, end: usize, outcome: &Outcome) -> usize
    requires within { end ≤ 3072 }
    requires room { 81 ≤ end }
    ensures put { drop result bytes.new ≡ outcome_text outcome.now ++ drop end bytes.old }
    ensures within { result ≤ end }
    ensures short { end ≤ 81 + result }
{
    match outcome {
        Outcome::Read {
            value,
            writer,
            stamp,
        } => {
            let at = put_decimal(bytes, end, u64::from(*stamp));
            let at = put_letters(bytes, at, b" stamp ");
            let at = put_decimal(bytes, at, u64::from(*writer));
            let at = put_letters(bytes, at, b" from ");
            put_word(bytes, at, value)
        },
        Outcome::Written { value } => put_word(bytes, end, value),
        Outcome::Entered { ring } => {
            let at = put_decimal(bytes, end, u64::from(ring.number()));
            put_letters(bytes, at, b" enter ")
        },
        Outcome::Denied(denial) => {
            let at = put_denial(bytes, end, denial);
            put_letters(bytes, at, b" denied ")
        },
    }
}

// ` word W`
#[inline(always)]
fn put_word(bytes: &mut Room, end: usize, word: &Word) -> usize
    requires within { end ≤ 3072 }
    requires room { 28 ≤ end }
    ensures put { drop result bytes.new ≡ codes " word " ++ octal word.now ++ drop end bytes.old }
    ensures within { result ≤ end }
    ensures short { end ≤ 28 + result }
{
    let at = put_octal(bytes, end, word.value());
    put_letters(bytes, at, b" word ")
}

// The denial's name.
fn put_denial(bytes: &mut Room, end: usize, denial: &Denial) -> usize
    requires within { end ≤ 3072 }
    requires room { 15 ≤ end }
    ensures put { drop result bytes.new ≡ denial_text denial.now ++ drop end bytes.old }
    ensures within { result ≤ end }
    ensures short { end ≤ 15 + result }
{
    put_text(bytes, end, denial.text().as_bytes())
}

// `line N RESULT`, at the end.
#[inline(always)]
fn put_line(bytes: &mut Room, number: u32, ends: &Result2) -> usize
    ensures put { drop result bytes.new ≡ codes "line " ++ decimal number ++ codes " " ++ result_text ends.now ++ codes "\n" }
    ensures within { result ≤ 3072 }
    ensures short { 2880 ≤ result }
{
    let at = put_byte(bytes, ROOM, b'\n');
    let at = put_result(bytes, at, ends);
    let at = put_byte(bytes, at, b' ');
    let at = put_decimal(bytes, at, u64::from(number));
    put_letters(bytes, at, b"line ")
}

#[inline(always)]
fn put_result(bytes: &mut Room, end: usize, ends: &Result2) -> usize
    requires within { end ≤ 3072 }
    requires room { 100 ≤ end }
    ensures put { drop result bytes.new ≡ result_text ends.now ++ drop end bytes.old }
    ensures within { result ≤ end }
    ensures short { end ≤ 100 + result }
{
    match ends {
        Result2::Done => put_letters(bytes, end, b"done"),
        Result2::A(word) => {
            let at = put_octal(bytes, end, word.value());
            put_letters(bytes, at, b"a ")
        },
        Result2::Pr { n, pointer } => put_register(bytes, end, *n, pointer),
        Result2::Moved { ring, procedure } => put_procedure(bytes, end, *ring, procedure),
        Result2::Denied(denial) => {
            let at = put_denial(bytes, end, denial);
            put_letters(bytes, at, b"denied ")
        },
        Result2::Refused => put_letters(bytes, end, b"refused"),
        Result2::HistoryFull => put_letters(bytes, end, b"history_full"),
    }
}

// `pr N RING S|W`
fn put_register(bytes: &mut Room, end: usize, n: u8, pointer: &Pointer) -> usize
    requires within { end ≤ 3072 }
    requires room { 90 ≤ end }
    ensures put { drop result bytes.new ≡ result_text (Pr n pointer.now) ++ drop end bytes.old }
    ensures within { result ≤ end }
    ensures short { end ≤ 90 + result }
{
    let at = put_address(bytes, end, pointer.segno, pointer.word);
    let at = put_byte(bytes, at, b' ');
    let at = put_decimal(bytes, at, u64::from(pointer.ring.number()));
    let at = put_byte(bytes, at, b' ');
    let at = put_decimal(bytes, at, u64::from(n));
    put_letters(bytes, at, b"pr ")
}

// `ring R at S|W`
fn put_procedure(bytes: &mut Room, end: usize, ring: Ring, procedure: &Pointer) -> usize
    requires within { end ≤ 3072 }
    requires room { 90 ≤ end }
    ensures put { drop result bytes.new ≡ result_text (Moved ring procedure.now) ++ drop end bytes.old }
    ensures within { result ≤ end }
    ensures short { end ≤ 90 + result }
{
    let at = put_address(bytes, end, procedure.segno, procedure.word);
    let at = put_letters(bytes, at, b" at ");
    let at = put_decimal(bytes, at, u64::from(ring.number()));
    put_letters(bytes, at, b"ring ")
}
