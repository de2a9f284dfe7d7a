//! The text of a reply.

ghost use Rattle.std.specs.Prelude.{◌≡◌, ◌++◌, [], ◌∷◌, Some, codes, OnOk, OnErr};
ghost use Rattle.std.specs.Fmt.{decimal};
ghost use Rattle.mx_sdw.specs.Octal.{octal};
ghost use Rattle.mx_acl.specs.Modes.{modes_text};
ghost use Rattle.mx_hier.specs.declared.asking.Status.TheVariants.{Segment, Object, Directory, Link};
ghost use Rattle.mx_request.specs.declared.replies.Reply.TheVariants.{Refused, Names as Listed, Segno, Linked};
ghost use Rattle.mx_request.specs.Fields.{line_of, ring_text, address_text};
ghost use Rattle.mx_request.specs.Growth.{IsGrown, blank_before, labelled};
ghost use Rattle.mx_request.specs.ReplyTexts.{class_fields, fresh_text, linkage_fields, status_fields, reply_text};

use super::fields::{push_address, push_field, push_message, push_number, push_ring, push_rings};
use crate::replies::Reply;
use mx_acl::Modes;
use mx_aim::Class;
use mx_hier::{Names, Refusal, Status};
use mx_kst::Known;
use mx_name::Path;
use mx_sdw::{Brackets, Ring, write_octal};
use std::alloc::AllocError;

/// Adds the text of a reply.
pub(crate) fn push_reply(out: &mut Vec<u8>, reply: &Reply) -> Result<(), AllocError>
    ensures ok { OnOk result (out.new.items ≡ out.old.items ++ reply_text reply.now) }
    ensures err { OnErr result (IsGrown out.old.items out.new.items) }
{
    match reply {
        Reply::Done => out.extend_from_slice(b"ok"),
        Reply::Refused(why) => push_refusal(out, why),
        Reply::Status(status) => push_status(out, status),
        Reply::Names(names) => push_names(out, names),
        Reply::Segno(known) => push_known(out, known),
        Reply::Linked {
            segno,
            word,
            fresh,
            linkage,
        } => push_linked(out, *segno, *word, *fresh, *linkage),
        Reply::Sent => out.extend_from_slice(b"sent"),
        Reply::Message { sender, word } => push_message(out, b"message", *sender, *word),
        Reply::Nobody => out.extend_from_slice(b"nobody"),
        Reply::Waiting => out.extend_from_slice(b"waiting"),
    }
}

fn push_refusal(out: &mut Vec<u8>, why: &Refusal) -> Result<(), AllocError>
    ensures ok { OnOk result (out.new.items ≡ out.old.items ++ reply_text (Refused why.now)) }
    ensures err { OnErr result (IsGrown out.old.items out.new.items) }
{
    out.extend_from_slice(b"refused")?;
    push_number(out, u64::from(why.number()))?;
    push_field(out, why.text().as_bytes())
}

fn push_status(out: &mut Vec<u8>, status: &Status) -> Result<(), AllocError>
    ensures ok { OnOk result (out.new.items ≡ out.old.items ++ line_of (status_fields status.now)) }
    ensures err { OnErr result (IsGrown out.old.items out.new.items) }
{
    match status {
        Status::Segment {
            words,
            brackets,
            modes,
            class,
        } => push_segment(out, *words, brackets, modes, *class),
        Status::Object {
            words,
            brackets,
            gate,
            definitions,
            links,
            modes,
            class,
        } => push_object(
            out,
            *words,
            brackets,
            *gate,
            *definitions,
            *links,
            modes,
            *class,
        ),
        Status::Directory { d1, d2, modes } => push_directory(out, *d1, *d2, modes),
        Status::Link { target } => push_link(out, target),
    }
}

fn push_segment(
    out: &mut Vec<u8>,
    words: u16,
    brackets: &Brackets,
    modes: &Modes,
    class: Option<Class>,
) -> Result<(), AllocError>
    ensures ok { OnOk result (out.new.items
        ≡ out.old.items ++ line_of (status_fields (Segment words brackets.now modes.now class))) }
    ensures err { OnErr result (IsGrown out.old.items out.new.items) }
{
    push_words(out, b"segment words", words)?;
    push_brackets(out, b" brackets", brackets)?;
    push_last(out, modes, class)
}

fn push_object(
    out: &mut Vec<u8>,
    words: u16,
    brackets: &Brackets,
    gate: u16,
    definitions: u16,
    links: u16,
    modes: &Modes,
    class: Option<Class>,
) -> Result<(), AllocError>
    ensures ok { OnOk result (out.new.items
        ≡ out.old.items ++ line_of (status_fields (Object words brackets.now gate definitions links modes.now class))) }
    ensures err { OnErr result (IsGrown out.old.items out.new.items) }
{
    push_words(out, b"object words", words)?;
    push_brackets(out, b" brackets", brackets)?;
    push_map(out, gate, definitions, links, modes, class)
}

/// What an object has besides: the numbers of its map, the modes and the class.
fn push_map(
    out: &mut Vec<u8>,
    gate: u16,
    definitions: u16,
    links: u16,
    modes: &Modes,
    class: Option<Class>,
) -> Result<(), AllocError>
    ensures ok { OnOk result (out.new.items
        ≡ out.old.items ++ (labelled (codes " gate") (decimal gate)
        ++ (labelled (codes " definitions") (decimal definitions)
        ++ (labelled (codes " links") (decimal links)
        ++ blank_before (codes "modes" ∷ modes_text modes.now ∷ class_fields class))))) }
    ensures err { OnErr result (IsGrown out.old.items out.new.items) }
{
    push_words(out, b" gate", gate)?;
    push_words(out, b" definitions", definitions)?;
    push_words(out, b" links", links)?;
    push_last(out, modes, class)
}

fn push_directory(out: &mut Vec<u8>, d1: Ring, d2: Ring, modes: &Modes) -> Result<(), AllocError>
    ensures ok { OnOk result (out.new.items ≡ out.old.items ++ line_of (status_fields (Directory d1 d2 modes.now))) }
    ensures err { OnErr result (IsGrown out.old.items out.new.items) }
{
    push_pair(out, b"directory brackets", d1, d2)?;
    push_modes(out, b" modes", modes)
}

fn push_words(out: &mut Vec<u8>, label: &[u8], words: u16) -> Result<(), AllocError>
    ensures ok { OnOk result (out.new.items ≡ out.old.items ++ (label.now ++ 32 ∷ decimal words)) }
    ensures err { OnErr result (IsGrown out.old.items out.new.items) }
{
    out.extend_from_slice(label)?;
    push_number(out, u64::from(words))
}

fn push_brackets(out: &mut Vec<u8>, label: &[u8], brackets: &Brackets) -> Result<(), AllocError>
    ensures ok { OnOk result (out.new.items ≡ out.old.items ++ (label.now
        ++ blank_before (ring_text brackets.now.r1 ∷ ring_text brackets.now.r2 ∷ ring_text brackets.now.r3 ∷ []))) }
    ensures err { OnErr result (IsGrown out.old.items out.new.items) }
{
    out.extend_from_slice(label)?;
    push_rings(out, &[brackets.r1(), brackets.r2(), brackets.r3()])
}

fn push_pair(out: &mut Vec<u8>, label: &[u8], d1: Ring, d2: Ring) -> Result<(), AllocError>
    ensures ok { OnOk result (out.new.items
        ≡ out.old.items ++ (label.now ++ blank_before (ring_text d1 ∷ ring_text d2 ∷ []))) }
    ensures err { OnErr result (IsGrown out.old.items out.new.items) }
{
    out.extend_from_slice(label)?;
    push_ring(out, d1)?;
    push_ring(out, d2)
}

fn push_modes(out: &mut Vec<u8>, label: &[u8], modes: &Modes) -> Result<(), AllocError>
    ensures ok { OnOk result (out.new.items ≡ out.old.items ++ (label.now ++ 32 ∷ modes_text modes.now)) }
    ensures err { OnErr result (IsGrown out.old.items out.new.items) }
{
    out.extend_from_slice(label)?;
    push_field(out, modes.text().as_bytes())
}

/// What is said last of a segment: the modes, and the class where one is said.
fn push_last(out: &mut Vec<u8>, modes: &Modes, class: Option<Class>) -> Result<(), AllocError>
    ensures ok { OnOk result (out.new.items
        ≡ out.old.items ++ blank_before (codes "modes" ∷ modes_text modes.now ∷ class_fields class)) }
    ensures err { OnErr result (IsGrown out.old.items out.new.items) }
{
    push_modes(out, b" modes", modes)?;
    match class {
        Some(class) => push_class(out, class),
        None => Ok(()),
    }
}

fn push_class(out: &mut Vec<u8>, class: Class) -> Result<(), AllocError>
    ensures ok { OnOk result (out.new.items ≡ out.old.items ++ blank_before (class_fields (Some class))) }
    ensures err { OnErr result (IsGrown out.old.items out.new.items) }
{
    out.extend_from_slice(b" class ")?;
    write_octal(out, u64::from(class.level()))?;
    out.extend_from_slice(b":")?;
    write_octal(out, u64::from(class.categories()))
}

fn push_link(out: &mut Vec<u8>, target: &Path) -> Result<(), AllocError>
    ensures ok { OnOk result (out.new.items ≡ out.old.items ++ line_of (status_fields (Link target.now))) }
    ensures err { OnErr result (IsGrown out.old.items out.new.items) }
{
    out.extend_from_slice(b"link ")?;
    target.append_to(out)
}

#[tactic(auto, using(crate::proofs::GrowthLaws::word_grows))]
fn push_names(out: &mut Vec<u8>, names: &Names) -> Result<(), AllocError>
    ensures ok { OnOk result (out.new.items ≡ out.old.items ++ reply_text (Listed names.now)) }
    ensures err { OnErr result (IsGrown out.old.items out.new.items) }
{
    out.extend_from_slice(b"names")?;
    out.extend_from_slice(names.text())
}

fn push_known(out: &mut Vec<u8>, known: &Known) -> Result<(), AllocError>
    ensures ok { OnOk result (out.new.items ≡ out.old.items ++ reply_text (Segno known.now)) }
    ensures err { OnErr result (IsGrown out.old.items out.new.items) }
{
    push_number_known(out, known)?;
    match known.linkage {
        Some(segno) => push_linkage(out, segno),
        None => Ok(()),
    }
}

fn push_number_known(out: &mut Vec<u8>, known: &Known) -> Result<(), AllocError>
    ensures ok { OnOk result (out.new.items
        ≡ out.old.items ++ line_of (codes "segno" ∷ octal known.now.segno ∷ fresh_text known.now.fresh ∷ [])) }
    ensures err { OnErr result (IsGrown out.old.items out.new.items) }
{
    out.extend_from_slice(b"segno ")?;
    write_octal(out, u64::from(known.segno))?;
    out.extend_from_slice(if known.fresh { b" new" } else { b" old" })
}

fn push_linked(
    out: &mut Vec<u8>,
    segno: u16,
    word: u16,
    fresh: bool,
    linkage: Option<u16>,
) -> Result<(), AllocError>
    ensures ok { OnOk result (out.new.items ≡ out.old.items ++ reply_text (Linked segno word fresh linkage)) }
    ensures err { OnErr result (IsGrown out.old.items out.new.items) }
{
    push_target(out, segno, word, fresh)?;
    match linkage {
        Some(section) => push_linkage(out, section),
        None => Ok(()),
    }
}

fn push_target(out: &mut Vec<u8>, segno: u16, word: u16, fresh: bool) -> Result<(), AllocError>
    ensures ok { OnOk result (out.new.items
        ≡ out.old.items ++ line_of (codes "linked" ∷ address_text segno word ∷ fresh_text fresh ∷ [])) }
    ensures err { OnErr result (IsGrown out.old.items out.new.items) }
{
    push_address(out, b"linked", segno, word)?;
    out.extend_from_slice(if fresh { b" new" } else { b" old" })
}

fn push_linkage(out: &mut Vec<u8>, segno: u16) -> Result<(), AllocError>
    ensures ok { OnOk result (out.new.items ≡ out.old.items ++ blank_before (linkage_fields (Some segno))) }
    ensures err { OnErr result (IsGrown out.old.items out.new.items) }
{
    out.extend_from_slice(b" linkage ")?;
    write_octal(out, u64::from(segno))
}
