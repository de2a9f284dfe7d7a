//! What is written at an entry, and at an access that it changed.

use mx_judging::Part::{self, Decimal, Octal, Place, Text};
use mx_judging::{Changed, NOTHING, add_parts, add_printable, ring};
use mx_request::{Reply, Request};
use mx_sdw::DescKind;
use mx_show::modes;
use mx_state::Entry;
use std::alloc::{AllocError, Global};

/// The most characters that stand at an entry, beside the two points where it is cut.
const MOST_LABEL: usize = 40;

/// The request of an entry, cut where it is long, and what it was answered where that says more than `ok`.
pub(crate) fn label(alloc: Global, entry: &Entry) -> Result<String, AllocError> {
    let request = request_text(alloc, entry.request())?;
    let answer = text_of(alloc, &answer(&entry.reply))?;
    let mut label = cut(alloc, &request, MOST_LABEL.saturating_sub(answer.len()))?;
    label.push_str(&answer)?;
    Ok(label)
}

/// The whole request of an entry, and what it was answered.
pub(crate) fn whole_label(alloc: Global, entry: &Entry) -> Result<String, AllocError> {
    let mut label = request_text(alloc, entry.request())?;
    add_parts(&mut label, &answer(&entry.reply))?;
    Ok(label)
}

/// A text of at most so many characters, with two points behind it where it was longer.
pub(crate) fn cut(alloc: Global, text: &str, most: usize) -> Result<String, AllocError> {
    let mut front = String::new(alloc);
    for c in text.chars().take(most) {
        front.push(c)?;
    }
    if text.len() > most {
        front.push_str("..")?;
    }
    Ok(front)
}

// A request as its line.
fn request_text(alloc: Global, request: &Request) -> Result<String, AllocError> {
    let mut bytes = Vec::new(alloc);
    request.append_to(&mut bytes)?;
    let mut text = String::new(alloc);
    add_printable(&mut text, &bytes)?;
    Ok(text)
}

/// Parts one behind another.
pub(crate) fn text_of(alloc: Global, parts: &[Part]) -> Result<String, AllocError> {
    let mut text = String::new(alloc);
    add_parts(&mut text, parts)?;
    Ok(text)
}

// What a request was answered; nothing where that is `ok`.
fn answer(reply: &Reply) -> [Part<'static>; 4] {
    match reply {
        Reply::Refused(refusal) => [Text(": "), Text(refusal.text()), NOTHING, NOTHING],
        Reply::Segno(known) => [Text(" = "), Octal(u64::from(known.segno)), NOTHING, NOTHING],
        Reply::Linked { segno, word, .. } => {
            [Text(" = "), Place(*segno, *word), NOTHING, NOTHING]
        }
        Reply::Message { sender, word } => {
            let (word, sender) = (Octal(word.value()), Decimal(u32::from(*sender)));
            [Text(" = "), word, Text(" from "), sender]
        }
        Reply::Waiting => [Text(" = waiting"), NOTHING, NOTHING, NOTHING],
        Reply::Nobody => [Text(" = nobody"), NOTHING, NOTHING, NOTHING],
        Reply::Done | Reply::Status(_) | Reply::Names(_) | Reply::Sent => [NOTHING; 4],
    }
}

/// The segment number, and what the access was and is.
pub(crate) fn change_words(changed: &Changed) -> [Part<'static>; 9] {
    let (before, after) = (&changed.before, &changed.after);
    let segno = Octal(u64::from(changed.segno));
    let (was, is) = (modes(before), modes(after));
    match (before.kind(), after.kind()) {
        (DescKind::Segment, DescKind::Segment) if was != is => {
            from_to(segno, Text(was), Text(is))
        }
        (_, DescKind::Segment) => {
            let brackets = after.brackets();
            let (r1, r2) = (ring(brackets.r1()), ring(brackets.r2()));
            let (blank, comma, r3) = (Text(" "), Text(","), ring(brackets.r3()));
            [segno, blank, Text(is), blank, r1, comma, r2, comma, r3]
        }
        (_, DescKind::Gone) => from_to(segno, Text("deleted"), NOTHING),
        (_, DescKind::Unknown) => from_to(segno, Text("unknown"), NOTHING),
    }
}

// A segment number with what its access was, and what it is where something is said of that.
fn from_to(segno: Part<'static>, was: Part<'static>, is: Part<'static>) -> [Part<'static>; 9] {
    let (blank, none) = (Text(" "), NOTHING);
    match is {
        Text("") => [segno, blank, was, none, none, none, none, none, none],
        is => { [segno, blank, was, Text(" to "), is, none, none, none, none] }
    }
}
