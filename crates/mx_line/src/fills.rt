//! The writes in ring 0 that a reply asks for: the link words of a new linkage section, and the pointer in the word of a
//! snapped link.

ghost use Rattle.std.specs.Prelude.{◌≡◌, ◌<◌, false};
ghost use Rattle.mx_transcript.specs.Filling.{snapped, stored_into};
ghost use Rattle.mx_transcript.specs.Next.{storing};
ghost use Rattle.mx_ptr.specs.Pointers.{IsPackable};
ghost use Rattle.mx_request.specs.Sections.{section_in};
ghost use Rattle.mx_state.specs.Told.{IsLinkedWithin};
ghost use Rattle.mx_line.specs.AtWork.{IsStorableBy, reference_in};
ghost use Rattle.mx_line.specs.Fills.{IsShort, after_fill, after_words, behind_of, counted, first_fill, snap_writes, write_of};
ghost use Rattle.mx_line.specs.declared.fills.Fill.TheVariants.{Words};

use crate::asking::{Reference, storing};
use mx_ptr::{Pointer, link_word};
use mx_request::{Reply, Request};
use mx_sdw::{Ring, Word};

/// A pointer that is to be stored in the word of a link.
#[derive(Clone, Copy)]
pub struct Snap {
    pub segno: u16,
    pub word: u16,
    pub value: Word,
}

/// What follows the link words of a section.
#[derive(Clone, Copy)]
pub enum Behind {
    /// The pointer of a snapped link is stored.
    Pointer(Snap),
    /// The line ends.
    Done,
    /// Nothing: no such line is told of a section so.
    Nowhere,
}

/// A new linkage section, how many link words it has, the next of them to be stored, and what follows them. How many it has
/// is known once the first was stored; until then it is 1.
#[derive(Clone, Copy)]
pub struct LinkWords {
    pub section: u16,
    pub words: u16,
    pub next: u16,
    pub behind: Behind,
}

/// What is stored next.
#[derive(Clone, Copy)]
pub enum Fill {
    /// A link word of a new linkage section.
    Words(LinkWords),
    /// The pointer of a snapped link.
    Pointer(Snap),
}

/// What follows a write.
#[derive(Clone, Copy)]
pub enum Filled {
    /// Another write.
    More(Fill),
    /// A new attempt: the link is snapped.
    Anew,
    /// The line's end.
    Done,
    /// Nothing.
    Nowhere,
}

impl Fill {
    /// The write, in ring 0.
    pub fn asked(&self) -> Reference
        requires { IsShort self.now }
        ensures is { reference_in result ≡ write_of self.now }
        ensures storable { IsStorableBy result.op result.stores }
    {
        let (target, value) = self.write();
        storing(value, &target)
    }

    // Where something is stored, and what.
    fn write(&self) -> (Pointer, Word)
        requires { IsShort self.now }
        ensures { storing result.1 result.0 ≡ write_of self.now }
    {
        match self {
            Fill::Words(words) => (in_ring_0(words.section, words.next), link_word(words.next)),
            Fill::Pointer(snap) => (in_ring_0(snap.segno, snap.word), snap.value),
        }
    }

    /// What follows this write.
    pub fn after(&self) -> Filled
        requires { IsShort self.now }
        ensures { result ≡ after_fill self.now }
    {
        match self {
            Fill::Words(words) => after_word(words),
            Fill::Pointer(_) => Filled::Anew,
        }
    }

    /// What follows this write, which was made in a section with this bound.
    pub(crate) fn made(&self, bound: u16) -> Filled
        requires { IsShort self.now }
        ensures { result ≡ after_fill (counted self.now bound) }
    {
        match self {
            Fill::Words(words) if words.next == 0 => after_word(&LinkWords {
                words: bound,
                ..*words
            }),
            Fill::Words(_) | Fill::Pointer(_) => self.after(),
        }
    }
}

// What follows a link word.
fn after_word(words: &LinkWords) -> Filled
    requires { words.now.next < 1024 }
    ensures { result ≡ after_fill (Words words.now) }
{
    if words.next + 1 < words.words {
        Filled::More(Fill::Words(LinkWords {
            next: words.next + 1,
            ..*words
        }))
    } else {
        after_words(words.behind)
    }
}

fn in_ring_0(segno: u16, word: u16) -> Pointer
    ensures { result ≡ record { ring = 0; segno = segno; word = word; further = false } }
{
    let Some(ring) = Ring::new(0) else {
        unreachable!()
    };
    Pointer {
        ring,
        segno,
        word,
        further: false,
    }
}

fn after_words(behind: Behind) -> Filled
    ensures { result ≡ after_words behind }
{
    match behind {
        Behind::Pointer(snap) => Filled::More(Fill::Pointer(snap)),
        Behind::Done => Filled::Done,
        Behind::Nowhere => Filled::Nowhere,
    }
}

/// What follows the link words of a section where the line ends unless a pointer is to be stored.
pub fn behind_of(snap: Option<Snap>) -> Behind
    ensures { result ≡ behind_of snap }
{
    match snap {
        Some(snap) => Behind::Pointer(snap),
        None => Behind::Done,
    }
}

/// The first write of all, for a new section with so many words and what follows them.
pub fn first_fill(section: Option<(u16, u16)>, behind: Behind) -> Option<Fill>
    ensures { result ≡ first_fill section behind }
{
    match (section, behind) {
        (Some((section, words)), behind) => Some(Fill::Words(LinkWords {
            section,
            words,
            next: 0,
            behind,
        })),
        (None, Behind::Pointer(snap)) => Some(Fill::Pointer(snap)),
        (None, Behind::Done | Behind::Nowhere) => None,
    }
}

/// The linkage section of which a reply tells.
pub fn section_in(reply: &Reply) -> Option<u16>
    ensures { result ≡ section_in reply.now }
{
    match reply {
        Reply::Segno(known) => known.linkage,
        Reply::Linked { linkage, .. } => *linkage,
        Reply::Done
        | Reply::Refused(_)
        | Reply::Status(_)
        | Reply::Names(_)
        | Reply::Sent
        | Reply::Message { .. }
        | Reply::Nobody
        | Reply::Waiting => None,
    }
}

/// The pointer that is to be stored after the reply to a request in a ring.
pub fn snap_of(request: &Request, ring: Ring, reply: &Reply) -> Option<Snap>
    requires { IsLinkedWithin reply.now }
    ensures { snap_writes result ≡ snapped request.now ring reply.now }
{
    match reply {
        Reply::Linked { segno, word, .. } => snap_into(
            request,
            &Pointer {
                ring,
                segno: *segno,
                word: *word,
                further: false,
            },
        ),
        Reply::Segno(_)
        | Reply::Done
        | Reply::Refused(_)
        | Reply::Status(_)
        | Reply::Names(_)
        | Reply::Sent
        | Reply::Message { .. }
        | Reply::Nobody
        | Reply::Waiting => None,
    }
}

fn snap_into(request: &Request, target: &Pointer) -> Option<Snap>
    requires { IsPackable target.now }
    ensures { snap_writes result ≡ stored_into request.now target.now }
{
    match request {
        Request::Link { segno, word } => Some(Snap {
            segno: *segno,
            word: *word,
            value: target.pack(),
        }),
        Request::CreateDir { .. }
        | Request::CreateSeg { .. }
        | Request::CreateObject { .. }
        | Request::CreateLink { .. }
        | Request::Rename { .. }
        | Request::Delete { .. }
        | Request::SetAcl { .. }
        | Request::DelAcl { .. }
        | Request::SetIacl { .. }
        | Request::DelIacl { .. }
        | Request::SetBrackets { .. }
        | Request::SetDirBrackets { .. }
        | Request::SetClass { .. }
        | Request::Status { .. }
        | Request::List { .. }
        | Request::ChangeWdir { .. }
        | Request::SetRules { .. }
        | Request::Initiate { .. }
        | Request::Terminate { .. }
        | Request::Wakeup { .. }
        | Request::Block
        | Request::Resume
        | Request::Logout => None,
    }
}
