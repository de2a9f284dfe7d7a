//! The readers of the lines of a transcript: its events, and the ends of its lines.

ghost use Rattle.std.specs.Prelude.{◌≡◌, IfSome, Some, ℕ};
ghost use Rattle.mx_reader.specs.Lines.{IsEnd, IsEvent};
ghost use Rattle.mx_reader.specs.ReadingEvents.{a_at, denied_at, denied_result, element_at, end_at, entered_at, event_at, granted_at, missing_at, moved_at, named_at, outcome_at, pr_at, read_at, result_at, written_at};
ghost use Rattle.mx_transcript.specs.declared.transcripts.Event2.{Event2 as EventValue};
ghost use Rattle.mx_transcript.specs.declared.transcripts.Result2.{Result2 as ResultValue};

use crate::cutting::after;
use crate::fields::{
    read_address, read_denial, read_entry_number, read_ring_number, read_segno, read_word,
};
use crate::heads::{
    cut_address, cut_entry_number, cut_kind, cut_line_number, cut_process, cut_ring_number,
    cut_word,
};
use mx_name::cut;
use mx_ptr::Pointer;
use mx_transcript::{Element, Event, Event2, Kind, Outcome, Result2};

/// The event that has this line, without its newline; `None` exactly where none has it that a run text can say.
pub fn read_event(line: &[u8]) -> Option<Event2>
    ensures found { IfSome result (λ event. IsEvent line.now event) }
    ensures only { (event : EventValue) → IsEvent line.now event → result ≡ Some event }
{
    read_any(line)
}

/// The number and the result that the line `line N RESULT` says, without its newline; `None` exactly where it says none
/// that a run text can say.
pub fn read_end(line: &[u8]) -> Option<(u32, Result2)>
    ensures found { IfSome result (λ ends. IsEnd line.now ends) }
    ensures only { (ends : ℕ × ResultValue) → IsEnd line.now ends → result ≡ Some ends }
{
    cut_end(line)
}

// An event of any kind.
#[tactic(auto, unfolding(crate::specs::ReadingEvents::event_at))]
pub(crate) fn read_any(line: &[u8]) -> Option<Event2>
    ensures { result ≡ event_at line.now }
{
    if let Some(number) = after(b"entry ", line) {
        read_named(number)
    } else if let Some(fields) = after(b"missing ", line) {
        read_missing(fields)
    } else {
        read_element(line)
    }
}

fn read_named(text: &[u8]) -> Option<Event2>
    ensures { result ≡ named_at text.now }
{
    let number = read_entry_number(text)?;
    Some(Event2::Entry(number))
}

// `S by K`
fn read_missing(text: &[u8]) -> Option<Event2>
    ensures { result ≡ missing_at text.now }
{
    let (segno, rest) = cut(b' ', text)?;
    let segno = read_segno(segno)?;
    let by = read_entry_number(after(b"by ", rest)?)?;
    Some(Event2::Core(Event::Missing { segno, by }))
}

// `KIND S|W ring R point K ..`
#[inline(always)]
#[tactic(auto, using(crate::proofs::HeadLaws::element_steps))]
fn read_element(line: &[u8]) -> Option<Event2>
    ensures { result ≡ element_at line.now }
{
    let (kind, rest) = cut_kind(line)?;
    let ((segno, word), rest) = cut_address(rest)?;
    let Some((ring, rest)) = cut_ring_number(after(b"ring ", rest)?) else {
        return None;
    };
    let (point, rest) = cut_entry_number(after(b"point ", rest)?)?;
    let outcome = read_outcome(kind, rest)?;
    Some(Event2::Core(Event::Seen(Element {
        kind,
        segno,
        word,
        ring,
        point,
        outcome,
    })))
}

// What a reference of the kind came to.
#[inline(always)]
fn read_outcome(kind: Kind, text: &[u8]) -> Option<Outcome>
    ensures { result ≡ outcome_at kind text.now }
{
    if let Some(denial) = after(b"denied ", text) {
        read_denied(denial)
    } else {
        read_granted(kind, text)
    }
}

fn read_denied(text: &[u8]) -> Option<Outcome>
    ensures { result ≡ denied_at text.now }
{
    let denial = read_denial(text)?;
    Some(Outcome::Denied(denial))
}

#[inline(always)]
fn read_granted(kind: Kind, text: &[u8]) -> Option<Outcome>
    ensures { result ≡ granted_at kind text.now }
{
    match kind {
        Kind::Read => read_read(text),
        Kind::Ind => read_read(text),
        Kind::Write => read_written(text),
        Kind::Fetch => read_read(text),
        Kind::Call => read_entered(text),
        Kind::Return => read_entered(text),
    }
}

// `word V from P stamp K`
#[inline(always)]
#[tactic(auto, using(crate::proofs::HeadLaws::read_steps))]
fn read_read(text: &[u8]) -> Option<Outcome>
    ensures { result ≡ read_at text.now }
{
    let Some((value, rest)) = cut_word(after(b"word ", text)?) else {
        return None;
    };
    let (writer, rest) = cut_process(after(b"from ", rest)?)?;
    let stamp = read_entry_number(after(b"stamp ", rest)?)?;
    Some(Outcome::Read {
        value,
        writer,
        stamp,
    })
}

// `word V`
#[inline(always)]
fn read_written(text: &[u8]) -> Option<Outcome>
    ensures { result ≡ written_at text.now }
{
    let value = read_word(after(b"word ", text)?)?;
    Some(Outcome::Written { value })
}

// `enter R`
fn read_entered(text: &[u8]) -> Option<Outcome>
    ensures { result ≡ entered_at text.now }
{
    let ring = read_ring_number(after(b"enter ", text)?)?;
    Some(Outcome::Entered { ring })
}

// `line N RESULT`
#[tactic(auto, using(crate::proofs::HeadLaws::end_steps))]
pub(crate) fn cut_end(line: &[u8]) -> Option<(u32, Result2)>
    ensures { result ≡ end_at line.now }
{
    let (number, rest) = cut_line_number(after(b"line ", line)?)?;
    let ends = read_result(rest)?;
    Some((number, ends))
}

#[tactic(auto, unfolding(crate::specs::ReadingEvents::result_at))]
fn read_result(text: &[u8]) -> Option<Result2>
    ensures { result ≡ result_at text.now }
{
    if text == b"done".as_slice() {
        Some(Result2::Done)
    } else if text == b"refused".as_slice() {
        Some(Result2::Refused)
    } else if text == b"history_full".as_slice() {
        Some(Result2::HistoryFull)
    } else if let Some(word) = after(b"a ", text) {
        read_a(word)
    } else if let Some(fields) = after(b"pr ", text) {
        read_pr(fields)
    } else if let Some(fields) = after(b"ring ", text) {
        read_moved(fields)
    } else if let Some(denial) = after(b"denied ", text) {
        read_denied_result(denial)
    } else {
        None
    }
}

fn read_a(text: &[u8]) -> Option<Result2>
    ensures { result ≡ a_at text.now }
{
    let word = read_word(text)?;
    Some(Result2::A(word))
}

// `N RING S|W`
fn read_pr(text: &[u8]) -> Option<Result2>
    ensures { result ≡ pr_at text.now }
{
    let (n, rest) = cut(b' ', text)?;
    let (ring, address) = cut(b' ', rest)?;
    let n = read_ring_number(n)?;
    let ring = read_ring_number(ring)?;
    let (segno, word) = read_address(address)?;
    let pointer = Pointer {
        ring,
        segno,
        word,
        further: false,
    };
    Some(Result2::Pr {
        n: n.number(),
        pointer,
    })
}

// `R at S|W`
fn read_moved(text: &[u8]) -> Option<Result2>
    ensures { result ≡ moved_at text.now }
{
    let (ring, rest) = cut(b' ', text)?;
    let ring = read_ring_number(ring)?;
    let (segno, word) = read_address(after(b"at ", rest)?)?;
    let procedure = Pointer {
        ring,
        segno,
        word,
        further: false,
    };
    Some(Result2::Moved { ring, procedure })
}

fn read_denied_result(text: &[u8]) -> Option<Result2>
    ensures { result ≡ denied_result text.now }
{
    let denial = read_denial(text)?;
    Some(Result2::Denied(denial))
}
