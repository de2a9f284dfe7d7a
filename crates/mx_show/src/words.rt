//! Accesses and replies in words.

use crate::refusals::refusal_words;
use mx_acl::Modes;
use mx_judging::Part::{self, Decimal, Octal, Place, Text};
use mx_judging::{Judged, NOTHING, add_parts, add_printable, add_sentences, ring};
use mx_name::AclId;
use mx_request::{Known, Reply};
use mx_sdw::{Aim, Denial, Desc, DescKind};
use mx_state::Entry;
use mx_transcript::Kind;
use std::alloc::{AllocError, Global};

/// The stacks of a process have the numbers below this one.
const STACKS: u16 = 8;

/// What the access list gives: `null`, or letters of `rew`.
pub fn modes(desc: &Desc) -> &'static str {
    let w = desc.w();
    match (desc.r(), desc.e()) {
        (false, false) => if w { "w" } else { "null" },
        (true, false) => if w { "rw" } else { "r" },
        (false, true) => if w { "ew" } else { "e" },
        (true, true) => if w { "rew" } else { "re" },
    }
}

/// A kind of reference, as a run prints it.
pub fn kind_word(kind: Kind) -> &'static str {
    match kind {
        Kind::Read => "read",
        Kind::Ind => "ind",
        Kind::Write => "write",
        Kind::Fetch => "fetch",
        Kind::Call => "call",
        Kind::Return => "return",
    }
}

/// What a denial says that comes of the walk of an operand.
pub(crate) fn walk_words(denial: Denial) -> &'static str {
    match denial {
        Denial::NotPointer => "the word is neither a pointer nor a link",
        Denial::IndirectLimit => "the eighth indirect word asks for a ninth",
        _ => "the access does not allow it",
    }
}

/// The modes of an access, or why there are none.
pub fn access_word(desc: &Desc) -> &'static str {
    match desc.kind() {
        DescKind::Unknown => "no segment",
        DescKind::Gone => "a deleted segment",
        DescKind::Segment => modes(desc),
    }
}

/// The brackets of a segment, its size, its gates, and how the authorization stands to its class where they are not equal;
/// nothing where there is none.
pub fn extent(desc: &Desc) -> [Part<'static>; 12] {
    let brackets = desc.brackets();
    let bound = desc.bound();
    let words = if bound == 1 { " word" } else { " words" };
    let (gates, last) = gates(desc.gate());
    match desc.kind() {
        DescKind::Segment => [
            Text(", brackets "),
            ring(brackets.r1()),
            Text(","),
            ring(brackets.r2()),
            Text(","),
            ring(brackets.r3()),
            Text(", "),
            Decimal(u32::from(bound)),
            Text(words),
            Text(gates),
            last,
            Text(standing(desc.aim(), Aim::Equal)),
        ],
        DescKind::Unknown | DescKind::Gone => [NOTHING; 12],
    }
}

/// How the authorization stands to the class; nothing where it stands so to it already.
pub fn standing(aim: Aim, already: Aim) -> &'static str {
    if aim == already {
        return "";
    }
    match aim {
        Aim::Equal => ", the authorization equals the class",
        Aim::Dominates => ", the authorization dominates the class",
        Aim::Neither => ", the authorization does not dominate the class",
    }
}

// So many gates.
fn gates(gate: u16) -> (&'static str, Part<'static>) {
    match gate {
        0 => ("", NOTHING),
        1 => (", gate 0", NOTHING),
        gate => (", gates 0 to ", Octal(u64::from(gate - 1))),
    }
}

/// Adds the access that a reference was judged on, and which entry of the access list gave the modes.
pub(crate) fn add_access(
    alloc: Global,
    out: &mut String,
    judged: &Judged,
) -> Result<(), AllocError> {
    add_decided(alloc, out, judged)?;
    add_parts(out, &extent(&judged.desc))
}

// Adds the modes, and which entry gave them.
fn add_decided(alloc: Global, out: &mut String, judged: &Judged) -> Result<(), AllocError> {
    let word = access_word(&judged.desc);
    match &judged.entry {
        Some((id, _)) => {
            let id = id_text(alloc, id)?;
            add_parts(out, &[Text(word), Text(" by "), Text(&id)])
        }
        None if is_unmatched(&judged.desc, &judged.entry) => out.push_str("null: no entry matches"),
        None => out.push_str(word),
    }
}

/// Adds why a flag is off: which entry of the access list lacks it, that none matches, or that it is a stack.
pub(crate) fn add_lack(alloc: Global, out: &mut String, judged: &Judged) -> Result<(), AllocError> {
    match &judged.entry {
        Some((id, modes)) => {
            let id = id_text(alloc, id)?;
            let (by, gives) = (Text(", as the entry "), Text(" gives "));
            add_parts(out, &[by, Text(&id), gives, Text(modes.text())])
        }
        None => out.push_str(lack_words(judged)),
    }
}

// Why a flag is off that no entry of an access list lacks.
fn lack_words(judged: &Judged) -> &'static str {
    if is_unmatched(&judged.desc, &judged.entry) {
        ", as no entry matches"
    } else if judged.element.segno < STACKS {
        ", as this is a stack"
    } else {
        ""
    }
}

/// Whether it is a segment of which no entry of the access list matches: a stack and a linkage section have r and w.
pub fn is_unmatched(desc: &Desc, entry: &Option<(AclId, Modes)>) -> bool {
    entry.is_none() && desc.kind() == DescKind::Segment && !desc.r() && !desc.w()
}

/// The identifier of an entry, as it is written.
pub fn id_text(alloc: Global, id: &AclId) -> Result<String, AllocError> {
    let mut bytes = Vec::new(alloc);
    id.append_to(&mut bytes)?;
    let mut text = String::new(alloc);
    add_printable(&mut text, &bytes)?;
    Ok(text)
}

/// Adds what an entry was answered.
pub fn add_reply(alloc: Global, out: &mut String, entry: &Entry) -> Result<(), AllocError> {
    match &entry.reply {
        Reply::Done => out.push_str("done"),
        Reply::Refused(refusal) => {
            let why = refusal_words(*refusal, entry.request());
            let name = Text(refusal.text());
            add_parts(out, &[Text("refused "), name, Text(": "), Text(why)])
        }
        Reply::Segno(known) => add_parts(out, &known_words(known)),
        Reply::Linked {
            segno,
            word,
            fresh,
            linkage,
        } => {
            let known = Known {
                segno: *segno,
                fresh: *fresh,
                linkage: *linkage,
            };
            let head = [Text("the link leads to "), Place(*segno, *word), Text(": ")];
            add_sentences(out, &[&head, &known_words(&known)])
        }
        Reply::Sent => out.push_str("the message is sent"),
        Reply::Message { sender, word } => {
            let sender = Decimal(u32::from(*sender));
            add_parts(
                out,
                &[
                    Text("process "),
                    sender,
                    Text(" sent "),
                    Octal(word.value()),
                ],
            )
        }
        Reply::Nobody => out.push_str("nobody is left who could send a message"),
        Reply::Waiting => out.push_str("it waits for a message"),
        Reply::Status(_) | Reply::Names(_) => add_answer(alloc, out, &entry.reply),
    }
}

// The number of a segment, and since when it is known.
fn known_words(known: &Known) -> [Part<'static>; 5] {
    let number = Octal(u64::from(known.segno));
    let how = if known.fresh {
        ", known from now on"
    } else {
        ", known before"
    };
    let (with, linkage) = match known.linkage {
        Some(linkage) => (", with its linkage section ", Octal(u64::from(linkage))),
        None => ("", NOTHING),
    };
    [
        Text("segment number "),
        number,
        Text(how),
        Text(with),
        linkage,
    ]
}

// A reply as it stands in the journal.
fn add_answer(alloc: Global, out: &mut String, reply: &Reply) -> Result<(), AllocError> {
    let mut bytes = Vec::new(alloc);
    reply.append_to(&mut bytes)?;
    add_printable(out, &bytes)
}
