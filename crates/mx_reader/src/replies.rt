//! The reader of replies.

ghost use Rattle.std.specs.Prelude.{◌≡◌, IfOk, IfSome, Some};
ghost use Rattle.mx_request.specs.declared.replies.Reply.{Reply as ReplyValue};
ghost use Rattle.mx_reader.specs.Lines.{IsReply};
ghost use Rattle.mx_reader.specs.ReadingReplies.{bare_at, directory_at, link_reply, linked_at, message_at, names_reply, object_at, plain_at, refused_at, reply_at, segment_at, segno_at, short_at};

use crate::cutting::after;
use crate::fields::{
    cut_amount, cut_brackets, cut_map, read_known, read_modes, read_names, read_path, read_process,
    read_refusal, read_ring, read_segno, read_word,
};
use mx_acl::Modes;
use mx_hier::Status;
use mx_name::cut;
use mx_request::{Known, Reply, read_decimal, read_word_number};
use std::alloc::{AllocError, Global};

/// The reply that has this text, without a newline; `None` exactly where none has it that a run text can say.
pub fn read_reply(alloc: Global, text: &[u8]) -> Result<Option<Reply>, AllocError>
    ensures found { IfOk result (λ told. IfSome told (λ reply. IsReply text.now reply)) }
    ensures only { (reply : ReplyValue) → IsReply text.now reply → IfOk result (λ told. told ≡ Some reply) }
{
    read_any(alloc, text)
}

// A reply of any kind.
#[tactic(auto, unfolding(crate::specs::ReadingReplies::reply_at))]
pub(crate) fn read_any(alloc: Global, text: &[u8]) -> Result<Option<Reply>, AllocError>
    ensures { IfOk result (λ told. told ≡ reply_at text.now) }
{
    if let Some(names) = after(b"names", text) {
        read_names_reply(alloc, names)
    } else if let Some(target) = after(b"link ", text) {
        read_link(alloc, target)
    } else {
        Ok(read_plain(text))
    }
}

// Names, each behind a blank.
fn read_names_reply(alloc: Global, text: &[u8]) -> Result<Option<Reply>, AllocError>
    ensures { IfOk result (λ told. told ≡ names_reply text.now) }
{
    let Some(names) = read_names(alloc, text)? else {
        return Ok(None);
    };
    Ok(Some(Reply::Names(names)))
}

// The path of a link's target.
fn read_link(alloc: Global, text: &[u8]) -> Result<Option<Reply>, AllocError>
    ensures { IfOk result (λ told. told ≡ link_reply text.now) }
{
    let Some(target) = read_path(alloc, text)? else {
        return Ok(None);
    };
    Ok(Some(Reply::Status(Status::Link { target })))
}

// A reply that holds no text.
#[tactic(auto, unfolding(crate::specs::ReadingReplies::plain_at))]
fn read_plain(text: &[u8]) -> Option<Reply>
    ensures { result ≡ plain_at text.now }
{
    if let Some(fields) = after(b"refused ", text) {
        read_refused(fields)
    } else if let Some(fields) = after(b"segment words ", text) {
        read_segment(fields)
    } else if let Some(fields) = after(b"object words ", text) {
        read_object(fields)
    } else if let Some(fields) = after(b"directory brackets ", text) {
        read_directory(fields)
    } else {
        read_short(text)
    }
}

// A reply that holds no text, of a segment or a process.
#[tactic(auto, unfolding(crate::specs::ReadingReplies::short_at))]
fn read_short(text: &[u8]) -> Option<Reply>
    ensures { result ≡ short_at text.now }
{
    if let Some(fields) = after(b"segno ", text) {
        read_segno_reply(fields)
    } else if let Some(fields) = after(b"linked ", text) {
        read_linked(fields)
    } else if let Some(fields) = after(b"message ", text) {
        read_message(fields)
    } else {
        read_bare(text)
    }
}

// A reply that is one word.
#[tactic(auto, unfolding(crate::specs::ReadingReplies::bare_at))]
fn read_bare(text: &[u8]) -> Option<Reply>
    ensures { result ≡ bare_at text.now }
{
    if text == b"ok".as_slice() {
        Some(Reply::Done)
    } else if text == b"sent".as_slice() {
        Some(Reply::Sent)
    } else if text == b"nobody".as_slice() {
        Some(Reply::Nobody)
    } else if text == b"waiting".as_slice() {
        Some(Reply::Waiting)
    } else {
        None
    }
}

// `NUMBER NAME`, both of one refusal.
fn read_refused(text: &[u8]) -> Option<Reply>
    ensures { result ≡ refused_at text.now }
{
    let (number, name) = cut(b' ', text)?;
    let number = read_decimal(number, 2)?;
    let why = read_refusal(name)?;
    if number == u32::from(why.number()) {
        Some(Reply::Refused(why))
    } else {
        None
    }
}

// `N brackets R1 R2 R3 modes M`, or with the class.
fn read_segment(text: &[u8]) -> Option<Reply>
    ensures { result ≡ segment_at text.now }
{
    let (words, rest) = cut_amount(text)?;
    let Some((brackets, rest)) = cut_brackets(after(b"brackets ", rest)?) else {
        return None;
    };
    let (modes, class) = read_modes(after(b"modes ", rest)?)?;
    Some(Reply::Status(Status::Segment {
        words,
        brackets,
        modes,
        class,
    }))
}

// `N brackets R1 R2 R3 gate G definitions D links L modes M`, or with the class.
fn read_object(text: &[u8]) -> Option<Reply>
    ensures { result ≡ object_at text.now }
{
    let (words, rest) = cut_amount(text)?;
    let Some((brackets, rest)) = cut_brackets(after(b"brackets ", rest)?) else {
        return None;
    };
    let ((gate, definitions, links), rest) = cut_map(rest)?;
    let (modes, class) = read_modes(after(b"modes ", rest)?)?;
    Some(Reply::Status(Status::Object {
        words,
        brackets,
        gate,
        definitions,
        links,
        modes,
        class,
    }))
}

// `D1 D2 modes M`
fn read_directory(text: &[u8]) -> Option<Reply>
    ensures { result ≡ directory_at text.now }
{
    let (d1, rest) = cut(b' ', text)?;
    let (d2, rest) = cut(b' ', rest)?;
    let d1 = read_ring(d1)?;
    let d2 = read_ring(d2)?;
    let modes = Modes::read(after(b"modes ", rest)?)?;
    Some(Reply::Status(Status::Directory { d1, d2, modes }))
}

// `S new`, `S old`, or with the linkage section.
fn read_segno_reply(text: &[u8]) -> Option<Reply>
    ensures { result ≡ segno_at text.now }
{
    let (segno, rest) = cut(b' ', text)?;
    let segno = read_segno(segno)?;
    let (fresh, linkage) = read_known(rest)?;
    Some(Reply::Segno(Known {
        segno,
        fresh,
        linkage,
    }))
}

// `S|W new`, `S|W old`, or with the linkage section.
fn read_linked(text: &[u8]) -> Option<Reply>
    ensures { result ≡ linked_at text.now }
{
    let (address, rest) = cut(b' ', text)?;
    let (segno, word) = cut(b'|', address)?;
    let segno = read_segno(segno)?;
    let word = read_word_number(word)?;
    let (fresh, linkage) = read_known(rest)?;
    Some(Reply::Linked {
        segno,
        word,
        fresh,
        linkage,
    })
}

// `P WORD`
fn read_message(text: &[u8]) -> Option<Reply>
    ensures { result ≡ message_at text.now }
{
    let (sender, word) = cut(b' ', text)?;
    let sender = read_process(sender)?;
    let word = read_word(word)?;
    Some(Reply::Message { sender, word })
}
