//! What the reply to a call makes of the line at work that made it.

ghost use Rattle.std.specs.Prelude.{◌≡◌, ◌-◌, ◌<◌, ◌≤◌, ℕ, false, [], Some, IfSome};
ghost use Rattle.mx_ptr.specs.Pointers.{pointer_word};
ghost use Rattle.mx_request.specs.declared.requests.Request.{Request as PlainRequest};
ghost use Rattle.mx_request.specs.declared.requests.Request.TheVariants.{Block, Link};
ghost use Rattle.mx_script.specs.declared.lines.Line.{Line as PlainLine};
ghost use Rattle.mx_script.specs.declared.lines.Line.TheVariants as lines;
ghost use Rattle.mx_state.specs.Told.{IsLinkedWithin};
ghost use Rattle.mx_state.specs.declared.journal.Entry.{Entry as PlainEntry};
ghost use Rattle.mx_transcript.specs.Courses.{Answer};
ghost use Rattle.mx_transcript.specs.Settings.{Setting, entry_at};
ghost use Rattle.mx_transcript.specs.declared.transcripts.Event2.TheVariants.{Entry as EntryOf};
ghost use Rattle.mx_upcall.specs.Soundness.{IsPackableControl};
ghost use Rattle.mx_line.specs.AtWork.{EndsByReply, left, IsGoodWork, IsTaken, IsUnlinked, StandsAt, begun, ended, filling_or};
ghost use Rattle.mx_line.specs.Fills.{first_fill};
ghost use Rattle.mx_line.specs.Operands.{IsMemoryLine, IsSayable};
ghost use Rattle.mx_line.specs.declared.at_work.LineAtWork.TheVariants.{At, Nowhere};
ghost use Rattle.mx_line.specs.declared.operands.Progress.TheVariants.{Before, Waiting, Walking};

use crate::at_work::{LineAtWork, ended};
use crate::fills::{Behind, Snap, first_fill};
use crate::operands::{Place, Progress};
use mx_ptr::Pointer;
use mx_request::{Reply, Request};
use mx_script::Line;
use mx_transcript::Result2;
use mx_upcall::Control;

/// A call was entered for a line that goes on from here.
#[inline(never)]
pub(crate) fn answered_at(
    progress: Progress,
    line: &Line,
    control: &Control,
    reply: &Reply,
) -> LineAtWork
    requires line { IsSayable line.now }
    requires packable { IsPackableControl control.now }
    requires linked { IsLinkedWithin reply.now }
    ensures taken { (setting : Setting) (number : ℕ) (entry : PlainEntry) → entry_at setting.journal number ≡ Some entry
        → entry.reply ≡ reply.now → IsTaken control.now line.now setting (EntryOf number) (At progress) result }
    ensures good { IsGoodWork control.now result }
{
    match progress {
        Progress::Before => asked(line, control, reply),
        Progress::AtLink(place) => linked(control, place, reply),
        Progress::Waiting => replied(control, &Request::Resume, reply),
        Progress::Walking(_) => LineAtWork::Nowhere,
        Progress::Filling(_) => LineAtWork::Nowhere,
    }
}

// A line that is a request called for it.
fn asked(line: &Line, control: &Control, reply: &Reply) -> LineAtWork
    requires line { IsSayable line.now }
    requires packable { IsPackableControl control.now }
    ensures stands { (request : PlainRequest) (entry : PlainEntry) → line.now ≡ lines.Ask request → entry.request ≡ request
        → entry.reply ≡ reply.now → StandsAt control.now line.now (Answer entry []) result }
    ensures good { IsGoodWork control.now result }
{
    match line {
        Line::Ask(shared) => replied(control, shared.request(), reply),
        Line::Set { .. }
        | Line::Epp { .. }
        | Line::Lda { .. }
        | Line::Sta { .. }
        | Line::Spri { .. }
        | Line::Fetch
        | Line::Call { .. }
        | Line::Return { .. } => LineAtWork::Nowhere,
    }
}

// The reply to a request that a line made, or to the `resume` after it.
fn replied(control: &Control, request: &Request, reply: &Reply) -> LineAtWork
    requires packable { IsPackableControl control.now }
    ensures stands { (own : PlainRequest) (entry : PlainEntry) → IsUnlinked request.now → (request.now ≡ Block → own ≡ Block)
        → entry.request ≡ request.now → entry.reply ≡ reply.now
        → StandsAt control.now (lines.Ask own) (Answer entry []) result }
    ensures good { IsGoodWork control.now result }
{
    match reply {
        Reply::Waiting => waits(request),
        Reply::Linked { linkage, .. } => fills(*linkage, Behind::Nowhere, LineAtWork::Nowhere),
        Reply::Segno(known) => { fills(known.linkage, Behind::Done, ended(Result2::Done, control)) }
        Reply::Refused(_)
        | Reply::Done
        | Reply::Status(_)
        | Reply::Names(_)
        | Reply::Sent
        | Reply::Message { .. }
        | Reply::Nobody => ended(Result2::of(reply), control),
    }
}

/// How a line that is a request, and has made no call yet, ends by this reply to it, where that is all: no write is due first, and
/// its process is not told to wait. None for every other line.
#[inline(always)]
pub(crate) fn request_end(line: &Line, control: &Control, reply: &Reply) -> Option<Result2>
    requires line { IsSayable line.now }
    requires packable { IsPackableControl control.now }
    ensures taken { IfSome result (λ ends. (setting : Setting) (number : ℕ) (entry : PlainEntry)
        → entry_at setting.journal number ≡ Some entry → entry.reply ≡ reply.now
        → IsTaken control.now line.now setting (EntryOf number) (At Before) (left control.now (Some ends))) }
    ensures good { IfSome result (λ ends. IsGoodWork control.now (left control.now (Some ends))) }
{
    match line {
        Line::Ask(_) => reply_end(control, reply),
        Line::Set { .. }
        | Line::Epp { .. }
        | Line::Lda { .. }
        | Line::Sta { .. }
        | Line::Spri { .. }
        | Line::Fetch
        | Line::Call { .. }
        | Line::Return { .. } => None,
    }
}

// How a line that is a request ends by this reply to it, where that is all.
#[inline(always)]
fn reply_end(control: &Control, reply: &Reply) -> Option<Result2>
    requires packable { IsPackableControl control.now }
    ensures ends { IfSome result (EndsByReply control.now reply.now) }
    ensures good { IfSome result (λ ends. IsGoodWork control.now (left control.now (Some ends))) }
{
    match reply {
        Reply::Refused(_) => Some(Result2::Refused),
        Reply::Segno(known) => match known.linkage {
            None => Some(Result2::Done),
            Some(_) => None,
        },
        Reply::Done
        | Reply::Status(_)
        | Reply::Names(_)
        | Reply::Sent
        | Reply::Message { .. }
        | Reply::Nobody => Some(Result2::Done),
        Reply::Linked { .. } | Reply::Waiting => None,
    }
}

// Only who blocks is told to wait.
fn waits(request: &Request) -> LineAtWork
    ensures yes { request.now ≡ Block → result ≡ At Waiting }
    ensures no { (request.now ≡ Block → ⊥) → result ≡ Nowhere }
{
    if matches!(request, Request::Block) {
        LineAtWork::At(Progress::Waiting)
    } else {
        LineAtWork::Nowhere
    }
}

// The reply to the call by which a line has a link snapped.
fn linked(control: &Control, place: Place, reply: &Reply) -> LineAtWork
    requires packable { IsPackableControl control.now }
    requires linked { IsLinkedWithin reply.now }
    ensures stands { (l : PlainLine) (entry : PlainEntry) → IsMemoryLine l → entry.ring ≡ place.ring
        → entry.request ≡ Link place.segno place.word → entry.reply ≡ reply.now
        → StandsAt control.now l (Answer entry []) result }
    ensures good { IsGoodWork control.now result }
{
    match reply {
        Reply::Linked {
            segno,
            word,
            linkage,
            ..
        } => {
            let snap = snap(place, *segno, *word);
            fills(*linkage, Behind::Pointer(snap), LineAtWork::Nowhere)
        }
        Reply::Segno(known) => fills(known.linkage, Behind::Nowhere, LineAtWork::Nowhere),
        Reply::Refused(_) => ended(Result2::Refused, control),
        Reply::Done
        | Reply::Status(_)
        | Reply::Names(_)
        | Reply::Sent
        | Reply::Message { .. }
        | Reply::Nobody
        | Reply::Waiting => LineAtWork::Nowhere,
    }
}

// The pointer that is to be stored in the word of a link that leads there.
fn snap(place: Place, segno: u16, word: u16) -> Snap
    requires segno { segno ≤ 4095 }
    requires word { word ≤ 16383 }
    ensures { result ≡ record {
      segno = place.segno;
      word = place.word;
      value = pointer_word (record { ring = place.ring; segno = segno; word = word; further = false });
    } }
{
    let target = Pointer {
        ring: place.ring,
        segno,
        word,
        further: false,
    };
    Snap {
        segno: place.segno,
        word: place.word,
        value: target.pack(),
    }
}

// The writes that a reply asks for come first.
fn fills(section: Option<u16>, behind: Behind, after: LineAtWork) -> LineAtWork
    ensures { result ≡ filling_or after (first_fill (begun section) behind) }
{
    match first_fill(begun(section), behind) {
        Some(fill) => LineAtWork::At(Progress::Filling(fill)),
        None => after,
    }
}

// A section of which no word was stored yet.
fn begun(section: Option<u16>) -> Option<(u16, u16)>
    ensures { result ≡ begun section }
{
    match section {
        Some(section) => Some((section, 1)),
        None => None,
    }
}
