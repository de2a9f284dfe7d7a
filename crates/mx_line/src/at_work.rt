//! The line at work: where a process stands within its line, and what an event that answers makes of it.

ghost use Rattle.std.specs.Prelude.{◌≡◌, ◌-◌, ◌<◌, ℕ, true, false, List, [], ◌∷◌, ◌++◌, Some, IfSome, IsFalse, IsSome, MatchOption};
ghost use Rattle.mx_core.specs.declared.elements.Element.{Element as PlainElement};
ghost use Rattle.mx_core.specs.declared.elements.Event.TheVariants.{Seen, Missing};
ghost use Rattle.mx_core.specs.declared.elements.Kind.TheVariants.{Ind};
ghost use Rattle.mx_core.specs.declared.elements.Outcome.TheVariants.{Read as WasRead, Written as WasWritten, Entered as HasEntered};
ghost use Rattle.mx_effring.specs.Walks.{wanted_at};
ghost use Rattle.mx_effring.specs.declared.walks.Want.TheVariants.{Word as WantsWord};
ghost use Rattle.mx_ptr.specs.Pointers.{PointerParts};
ghost use Rattle.mx_request.specs.declared.requests.Request.{Request as PlainRequest};
ghost use Rattle.mx_request.specs.declared.requests.Request.TheVariants.{Link};
ghost use Rattle.mx_script.specs.declared.lines.Line.{Line as PlainLine};
ghost use Rattle.mx_sdw.specs.Admissible.{IsAdmissible};
ghost use Rattle.mx_sdw.specs.Descriptors.{Descriptor};
ghost use Rattle.mx_state.specs.Told.{IsLinkedWithin};
ghost use Rattle.mx_state.specs.declared.journal.Entry.{Entry as PlainEntry};
ghost use Rattle.mx_transcript.specs.Asking.{next};
ghost use Rattle.mx_transcript.specs.Attempts.{wants};
ghost use Rattle.mx_transcript.specs.Courses.{Attempt, Course, Judged};
ghost use Rattle.mx_transcript.specs.Elements.{IsJudged};
ghost use Rattle.mx_transcript.specs.Lines.{IsEnd};
ghost use Rattle.mx_transcript.specs.Next.{Asks, Calls, Nowhere as AsksNothing, Reference};
ghost use Rattle.mx_transcript.specs.Settings.{Setting, entry_at};
ghost use Rattle.mx_transcript.specs.Targets.{after_target, at_target};
ghost use Rattle.mx_transcript.specs.declared.transcripts.Event2.TheVariants.{Core, Entry as EntryOf};
ghost use Rattle.mx_upcall.specs.Changes.{changed};
ghost use Rattle.mx_upcall.specs.Control.{Control as Parts};
ghost use Rattle.mx_upcall.specs.Soundness.{IsPackableControl};
ghost use Rattle.mx_line.specs.AtWork.{EndsAt, IsTakenTo, ending, left, left_in, HasSeen, IsCome, IsFree, IsGoodNext, IsGoodWork, IsKnown, IsMet, IsMover, IsNearer, IsOver, IsPlain, IsReader, IsSaid, IsStorable, IsTaken, IsWithin, IsWriter, OneCourseLaw, StandsAt, after_writing, beside, end_of, ended, meant, moved_on, moving, standing};
ghost use Rattle.mx_line.specs.Fills.{IsNoRequest, IsShort, after_fill, counted, steps_to_fill};
ghost use Rattle.mx_line.specs.Looks.{looks};
ghost use Rattle.mx_line.specs.Processes.{HasPlainMove};
ghost use Rattle.mx_line.specs.Operands.{HasComeTo, IsGoodProgress, IsGoodWalk, IsSayable, IsTarget};
ghost use Rattle.mx_line.specs.declared.at_work.LineAtWork.TheVariants.{At, Ended, Nowhere};
ghost use Rattle.mx_line.specs.declared.operands.Progress.TheVariants.{Before, Waiting, Walking};

use crate::asking::{Called, End, Next, begins, first_target, walk_of, wants};
use crate::fills::{Fill, Filled};
use crate::moves::{Going, going_at};
use crate::operands::{Onward, Place, Progress, feed};
use crate::replies::answered_at;
use mx_call::Regs;
use mx_effring::{Walk, Want};
use mx_ptr::Pointer;
use mx_request::Reply;
use mx_script::Line;
use mx_sdw::{Desc, Word};
use mx_transcript::{Element, Kind, Outcome, Result2};
use mx_upcall::{Change, Control};

/// Where a process stands within its line.
#[derive(Drop)]
pub enum LineAtWork {
    /// It goes on from here.
    At(Progress),
    /// It asks for its end.
    Ended(End),
    /// It has done what no line does, and asks for nothing.
    Nowhere,
}

impl LineAtWork {
    /// Where a line begins.
    pub fn begin() -> LineAtWork
        ensures stands { (g : Parts) (l : PlainLine) → StandsAt g l (Attempt []) result }
        ensures good { (g : Parts) → IsGoodWork g result }
    {
        LineAtWork::At(Progress::Before)
    }

    /// What the line asks for now.
    pub fn next(&self, line: &Line, control: &Control) -> Next
        requires line { IsSayable line.now }
        requires packable { IsPackableControl control.now }
        requires good { IsGoodWork control.now self.now }
        ensures is { (course : Course) → StandsAt control.now line.now course self.now
            → next control.now line.now course ≡ meant control.now line.now result }
        ensures storable { IsStorable result }
    {
        match self {
            LineAtWork::At(progress) => next_at(line, control, progress),
            LineAtWork::Ended(end) => Next::Ends(*end),
            LineAtWork::Nowhere => Next::Nowhere,
        }
    }

    /// The reference or the write for which the line asks was made, on this descriptor.
    #[inline(always)]
    pub fn seen(self, line: &Line, control: &Control, element: &Element, desc: &Desc) -> LineAtWork
        requires line { IsSayable line.now }
        requires packable { IsPackableControl control.now }
        requires good { IsGoodWork control.now self }
        requires desc { IsAdmissible desc.now }
        ensures taken { (setting : Setting) → setting.descriptor element.now ≡ desc.now
            → IsTaken control.now line.now setting (Core (Seen element.now)) self result }
        ensures good { IsGoodWork control.now result }
        ensures nearer { IsNearer self result }
        ensures known { IsMet control.now line.now self element.now desc.now → IsKnown result }
    {
        match self {
            LineAtWork::At(progress) => seen_at(progress, line, control, element, desc),
            LineAtWork::Ended(_) | LineAtWork::Nowhere => LineAtWork::Nowhere,
        }
    }

    /// The reference for which the line asks missed: it begins anew.
    pub fn missed(self) -> LineAtWork
        ensures taken { (g : Parts) (l : PlainLine) (setting : Setting) (segno by : ℕ)
            → IsTaken g l setting (Core (Missing segno by)) self result }
        ensures good { (g : Parts) → IsGoodWork g result }
    {
        LineAtWork::begin()
    }

    /// The call for which the line asks was entered, and has this reply.
    pub fn answered(self, line: &Line, control: &Control, reply: &Reply) -> LineAtWork
        requires line { IsSayable line.now }
        requires packable { IsPackableControl control.now }
        requires linked { IsLinkedWithin reply.now }
        ensures taken { (setting : Setting) (number : ℕ) (entry : PlainEntry) → entry_at setting.journal number ≡ Some entry
            → entry.reply ≡ reply.now → IsTaken control.now line.now setting (EntryOf number) self result }
        ensures good { IsGoodWork control.now result }
    {
        match self {
            LineAtWork::At(progress) => answered_at(progress, line, control, reply),
            LineAtWork::Ended(_) | LineAtWork::Nowhere => LineAtWork::Nowhere,
        }
    }

    /// The call for which a line asks found the journal full: the line ends so.
    pub fn full(control: &Control) -> End
        ensures end { (setting : Setting) (ring : ℕ) (request : PlainRequest) → setting.full ≡ true
            → IsEnd setting control.now (Calls ring request) result.ends (changed control.now result.after) }
        ensures good { IsPackableControl control.now → IsGoodWork control.now (Ended result) }
    {
        end(Result2::HistoryFull, control)
    }
}

/// An event that answers what a line asks for leaves exactly one course.
pub fn one_course_law()
    ensures { OneCourseLaw }
{}

/// What a line asks for that goes on from here.
#[inline(always)]
pub(crate) fn next_at(line: &Line, control: &Control, progress: &Progress) -> Next
    requires line { IsSayable line.now }
    requires packable { IsPackableControl control.now }
    requires good { IsGoodProgress control.now.registers progress.now }
    ensures is { (course : Course) → IsCome control.now line.now course progress.now
        → next control.now line.now course ≡ meant control.now line.now result }
    ensures storable { IsStorable result }
    ensures good { IsGoodNext control.now result }
    ensures plain { (course : Course) → IsCome control.now line.now course progress.now → IsNoRequest line.now
        → IsFree progress.now → IsPlain line.now result }
{
    match progress {
        Progress::Before => begins(line, control),
        Progress::Walking(walk) => wants(line, control, walk),
        Progress::AtLink(place) => Next::Calls {
            ring: place.ring,
            called: Called::Link {
                segno: place.segno,
                word: place.word,
            },
        },
        Progress::Waiting => Next::Calls {
            ring: control.registers.ring,
            called: Called::Resume,
        },
        Progress::Filling(fill) => Next::Fills(fill.asked()),
    }
}

// A reference or a write was made for a line that goes on from here.
fn seen_at(
    progress: Progress,
    line: &Line,
    control: &Control,
    element: &Element,
    desc: &Desc,
) -> LineAtWork
    requires line { IsSayable line.now }
    requires packable { IsPackableControl control.now }
    requires good { IsGoodProgress control.now.registers progress }
    requires desc { IsAdmissible desc.now }
    ensures taken { (setting : Setting) → setting.descriptor element.now ≡ desc.now
        → IsTaken control.now line.now setting (Core (Seen element.now)) (At progress) result }
    ensures good { IsGoodWork control.now result }
    ensures nearer { IsNearer (At progress) result }
    ensures known { IsMet control.now line.now (At progress) element.now desc.now → IsKnown result }
{
    match progress {
        Progress::Before => first_seen(line, control, element, desc),
        Progress::Walking(walk) => led_by(walk, line, control, element, desc),
        Progress::Filling(fill) => stored(&fill, control, element, desc),
        Progress::AtLink(_) => LineAtWork::Nowhere,
        Progress::Waiting => LineAtWork::Nowhere,
    }
}

// The first reference of a line was made.
#[inline(always)]
fn first_seen(line: &Line, control: &Control, element: &Element, desc: &Desc) -> LineAtWork
    requires line { IsSayable line.now }
    requires packable { IsPackableControl control.now }
    requires desc { IsAdmissible desc.now }
    ensures taken { (setting : Setting) → setting.descriptor element.now ≡ desc.now
        → IsTaken control.now line.now setting (Core (Seen element.now)) (At Before) result }
    ensures good { IsGoodWork control.now result }
    ensures nearer { IsNearer (At Before) result }
    ensures known { IsMet control.now line.now (At Before) element.now desc.now → IsKnown result }
{
    match first_target(line, &control.registers) {
        Some(target) => did(line, control, &target, element, desc),
        None => first_led(line, control, element, desc),
    }
}

// The reference was made for which a walk asks that begins now.
#[inline(never)]
fn first_led(line: &Line, control: &Control, element: &Element, desc: &Desc) -> LineAtWork
    requires line { IsSayable line.now }
    requires packable { IsPackableControl control.now }
    requires desc { IsAdmissible desc.now }
    ensures taken { (setting : Setting) → setting.descriptor element.now ≡ desc.now
        → IsTaken control.now line.now setting (Core (Seen element.now)) (At Before) result }
    ensures good { IsGoodWork control.now result }
    ensures nearer { IsNearer (At Before) result }
    ensures known { IsMet control.now line.now (At Before) element.now desc.now → IsKnown result }
{
    match walk_of(line, &control.registers) {
        Some(walk) => led_by(walk, line, control, element, desc),
        None => LineAtWork::Nowhere,
    }
}

// The reference for which a walk asks was made.
#[inline(never)]
fn led_by(walk: Walk, line: &Line, control: &Control, element: &Element, desc: &Desc) -> LineAtWork
    requires line { IsSayable line.now }
    requires packable { IsPackableControl control.now }
    requires good { IsGoodWalk control.now.registers walk }
    requires desc { IsAdmissible desc.now }
    ensures leads { (seen : List Judged) (asked : Reference) → HasComeTo control.now line.now seen walk
        → wants control.now line.now (wanted_at walk) ≡ Asks asked → IsJudged asked desc.now element.now
        → HasSeen control.now line.now (seen ++ beside element.now desc.now ∷ []) result }
    ensures good { IsGoodWork control.now result }
    ensures nearer { IsWithin (9 - walk.count) result }
    ensures known { (asked : Reference) → wants control.now line.now (wanted_at walk) ≡ Asks asked
        → IsJudged asked desc.now element.now → IsKnown result }
{
    match walk.want() {
        Want::Word { segno, word, ring } => {
            word_read(
                walk,
                Place { segno, word, ring },
                line,
                control,
                element,
                desc,
            )
        }
        Want::Done(target) => did(line, control, &target, element, desc),
    }
}

// The indirect word for which a walk asks was read.
fn word_read(
    walk: Walk,
    place: Place,
    line: &Line,
    control: &Control,
    element: &Element,
    desc: &Desc,
) -> LineAtWork
    requires line { IsSayable line.now }
    requires packable { IsPackableControl control.now }
    requires good { IsGoodWalk control.now.registers walk }
    requires wants { wanted_at walk ≡ WantsWord place.segno place.word place.ring }
    ensures leads { (seen : List Judged) → HasComeTo control.now line.now seen walk
        → HasSeen control.now line.now (seen ++ beside element.now desc.now ∷ []) result }
    ensures good { IsGoodWork control.now result }
    ensures nearer { IsWithin (9 - walk.count) result }
    ensures known { IsJudged (looks place) desc.now element.now → IsKnown result }
{
    match element.outcome {
        Outcome::Read { value, .. } => {
            standing(feed(line, control, walk, place, value, desc.brackets().r1()))
        }
        Outcome::Denied(denial) => ended(Result2::Denied(denial), control),
        Outcome::Written { .. } => LineAtWork::Nowhere,
        Outcome::Entered { .. } => LineAtWork::Nowhere,
    }
}

fn standing(onward: Onward) -> LineAtWork
    ensures is { result ≡ standing onward }
    ensures known { IsKnown result }
{
    match onward {
        Onward::More(progress) => LineAtWork::At(progress),
        Onward::End { ends, after } => LineAtWork::Ended(End {
            ends,
            after: Change::keeping(&after),
        }),
    }
}

// The line made its own reference, at its target.
fn did(
    line: &Line,
    control: &Control,
    target: &Pointer,
    element: &Element,
    desc: &Desc,
) -> LineAtWork
    requires packable { IsPackableControl control.now }
    requires target { IsTarget control.now.registers target.now }
    requires desc { IsAdmissible desc.now }
    ensures leads { (asked : Reference) → at_target control.now line.now target.now ≡ Asks asked → IsJudged asked desc.now element.now
        → IsSaid control.now (after_target control.now line.now target.now desc.now element.now.outcome) result }
    ensures good { IsGoodWork control.now result }
    ensures over { IsOver result }
    ensures known { (asked : Reference) → at_target control.now line.now target.now ≡ Asks asked
        → IsJudged asked desc.now element.now → IsKnown result }
{
    match element.outcome {
        Outcome::Denied(denial) => ended(Result2::Denied(denial), control),
        Outcome::Read { value, .. } => left(read(line, value), control),
        Outcome::Written { .. } => left(written(line), control),
        Outcome::Entered { .. } => entered(line, control, target, desc),
    }
}

/// How a line ends by its first reference, where that is to its target and does not move the process; none where it is to an
/// indirect word, and for a call or a return that was granted.
#[inline(always)]
pub(crate) fn first_end(line: &Line, control: &Control, element: &Element) -> Option<Result2>
    requires packable { IsPackableControl control.now }
    ensures taken { IfSome result (λ ends. IsTakenTo control.now line.now element.now (At Before) (left control.now (Some ends))) }
    ensures good { IfSome result (λ ends. IsGoodWork control.now (left control.now (Some ends))) }
{
    if is_word(element) {
        None
    } else {
        end_at(line, element)
    }
}

// Whether an element is an indirect word.
#[inline(always)]
fn is_word(element: &Element) -> bool
    ensures no { IsFalse result → element.now.kind ≡ Ind → ⊥ }
{
    match element.kind {
        Kind::Ind => true,
        Kind::Read | Kind::Write | Kind::Fetch | Kind::Call | Kind::Return => false,
    }
}

/// How a line ends by the reference for which its walk asks, where that neither is to an indirect word nor moves the process.
pub(crate) fn walked_end(
    line: &Line,
    control: &Control,
    walk: &Walk,
    element: &Element,
) -> Option<Result2>
    requires packable { IsPackableControl control.now }
    ensures taken { IfSome result (λ ends. IsTakenTo control.now line.now element.now (At (Walking walk.now)) (left control.now (Some ends))) }
    ensures good { IfSome result (λ ends. IsGoodWork control.now (left control.now (Some ends))) }
{
    match walk.want() {
        Want::Done(_) => end_at(line, element),
        Want::Word { .. } => None,
    }
}

// How a line ends by its reference at its target, where that does not move the process.
#[inline(always)]
fn end_at(line: &Line, element: &Element) -> Option<Result2>
    ensures { IfSome result (EndsAt line.now element.now.outcome) }
{
    match element.outcome {
        Outcome::Denied(denial) => Some(Result2::Denied(denial)),
        Outcome::Read { value, .. } => read(line, value),
        Outcome::Written { .. } => written(line),
        Outcome::Entered { .. } => None,
    }
}

// How a line ends that read this word at its target.
#[inline(always)]
fn read(line: &Line, value: Word) -> Option<Result2>
    ensures said { (g : Parts) (target : PointerParts) (d : Descriptor) (writer stamp : ℕ)
        → after_target g line.now target d (WasRead value writer stamp) ≡ ending g result }
    ensures known { IsReader line.now → IsSome result }
{
    match line {
        Line::Lda { .. } => Some(Result2::A(value)),
        Line::Fetch => Some(Result2::Done),
        Line::Ask(_)
        | Line::Set { .. }
        | Line::Epp { .. }
        | Line::Sta { .. }
        | Line::Spri { .. }
        | Line::Call { .. }
        | Line::Return { .. } => None,
    }
}

// How a line ends that stored its word at its target.
#[inline(always)]
fn written(line: &Line) -> Option<Result2>
    ensures said { (g : Parts) (target : PointerParts) (d : Descriptor) (value : ℕ)
        → after_target g line.now target d (WasWritten value) ≡ ending g result }
    ensures known { IsWriter line.now → IsSome result }
{
    match line {
        Line::Sta { .. } | Line::Spri { .. } => Some(Result2::Done),
        Line::Ask(_)
        | Line::Set { .. }
        | Line::Epp { .. }
        | Line::Lda { .. }
        | Line::Fetch
        | Line::Call { .. }
        | Line::Return { .. } => None,
    }
}

// A line ends so where it is said how, and else has done what no line does.
fn left(ends: Option<Result2>, control: &Control) -> LineAtWork
    ensures { result ≡ left control.now ends }
{
    match ends {
        Some(ends) => {
            let mut registers = control.registers;
            leave(&mut registers, &ends);
            LineAtWork::Ended(End {
                ends,
                after: Change::keeping(&registers),
            })
        }
        None => LineAtWork::Nowhere,
    }
}

/// What the end of a line that does not move the process leaves in the registers: the accumulator has the word that it
/// read.
#[inline(always)]
pub(crate) fn leave(registers: &mut Regs, ends: &Result2)
    ensures { registers.new ≡ left_in ends.now registers.old }
{
    match ends {
        Result2::A(value) => registers.a = *value,
        Result2::Done
        | Result2::Pr { .. }
        | Result2::Moved { .. }
        | Result2::Denied(_)
        | Result2::Refused
        | Result2::HistoryFull => {}
    }
}

// It was granted a call or a return.
fn entered(line: &Line, control: &Control, target: &Pointer, desc: &Desc) -> LineAtWork
    requires packable { IsPackableControl control.now }
    requires target { IsTarget control.now.registers target.now }
    requires desc { IsAdmissible desc.now }
    ensures said { (ring : ℕ) (asked : Reference) (e : PlainElement) → at_target control.now line.now target.now ≡ Asks asked
        → IsJudged asked desc.now e → e.outcome ≡ HasEntered ring
        → IsSaid control.now (after_target control.now line.now target.now desc.now (HasEntered ring)) result }
    ensures good { IsGoodWork control.now result }
    ensures over { IsOver result }
    ensures known { (ring : ℕ) (asked : Reference) (e : PlainElement) → at_target control.now line.now target.now ≡ Asks asked
        → IsJudged asked desc.now e → e.outcome ≡ HasEntered ring → IsMover line.now → IsKnown result }
{
    match move_at(line, control, target, desc) {
        Some(after) => moved(&after),
        None => LineAtWork::Nowhere,
    }
}

// What the call or return that it was granted makes of the registers and return gates; none for a line that is neither.
#[inline(always)]
fn move_at(line: &Line, control: &Control, target: &Pointer, desc: &Desc) -> Option<Change>
    requires packable { IsPackableControl control.now }
    requires target { IsTarget control.now.registers target.now }
    requires desc { IsAdmissible desc.now }
    ensures said { (ring : ℕ) (asked : Reference) (e : PlainElement) → at_target control.now line.now target.now ≡ Asks asked
        → IsJudged asked desc.now e → e.outcome ≡ HasEntered ring
        → MatchOption result (after_target control.now line.now target.now desc.now (HasEntered ring) ≡ AsksNothing)
        (λ after. after_target control.now line.now target.now desc.now (HasEntered ring) ≡ moving control.now after) }
    ensures good { IfSome result (λ after. IsGoodWork control.now (moved_on after)) }
    ensures some { (ring : ℕ) (asked : Reference) (e : PlainElement) → at_target control.now line.now target.now ≡ Asks asked
        → IsJudged asked desc.now e → e.outcome ≡ HasEntered ring → IsMover line.now → IsSome result }
{
    match line {
        Line::Call { .. } => match control.call(target, desc) {
            Ok(after) => Some(after),
            Err(_) => None,
        },
        Line::Return { .. } => match control.ret(target, desc) {
            Ok(after) => Some(after),
            Err(_) => None,
        },
        Line::Ask(_)
        | Line::Set { .. }
        | Line::Epp { .. }
        | Line::Lda { .. }
        | Line::Sta { .. }
        | Line::Spri { .. }
        | Line::Fetch => None,
    }
}

/// What a line goes on at that was granted its call or return, where its operand is not indirect; none for every other element.
#[inline(always)]
pub(crate) fn first_move(
    line: &Line,
    control: &Control,
    element: &Element,
    desc: &Desc,
) -> Option<Going>
    requires line { IsSayable line.now }
    requires packable { IsPackableControl control.now }
    requires desc { IsAdmissible desc.now }
    requires met { IsMet control.now line.now (At Before) element.now desc.now }
    ensures { IfSome result (HasPlainMove control.now line.now Before element.now desc.now) }
{
    match element.outcome {
        Outcome::Entered { .. } => match first_target(line, &control.registers) {
            Some(target) => going_at(line, &target),
            None => None,
        },
        Outcome::Read { .. } | Outcome::Written { .. } | Outcome::Denied(_) => None,
    }
}

// The process goes on so.
fn moved(after: &Change) -> LineAtWork
    ensures { result ≡ moved_on after.now }
{
    LineAtWork::Ended(End {
        ends: Result2::Moved {
            ring: after.registers.ring,
            procedure: after.registers.procedure,
        },
        after: *after,
    })
}

// A write that a reply asks for was made.
#[inline(never)]
fn stored(fill: &Fill, control: &Control, element: &Element, desc: &Desc) -> LineAtWork
    requires packable { IsPackableControl control.now }
    requires short { IsShort fill.now }
    requires desc { IsAdmissible desc.now }
    ensures made { (value : ℕ) → element.now.outcome ≡ WasWritten value
        → result ≡ after_writing control.now (after_fill (counted fill.now desc.now.bound)) }
    ensures good { IsGoodWork control.now result }
    ensures nearer { IsWithin (steps_to_fill fill.now) result }
{
    match element.outcome {
        Outcome::Written { .. } => match fill.made(desc.bound()) {
            Filled::More(next) => LineAtWork::At(Progress::Filling(next)),
            Filled::Anew => LineAtWork::At(Progress::Before),
            Filled::Done => ended(Result2::Done, control),
            Filled::Nowhere => LineAtWork::Nowhere,
        },
        Outcome::Read { .. } | Outcome::Entered { .. } | Outcome::Denied(_) => LineAtWork::Nowhere,
    }
}

/// The line is over by this end.
pub(crate) fn ended(ends: Result2, control: &Control) -> LineAtWork
    ensures { result ≡ ended ends control.now }
{
    LineAtWork::Ended(end(ends, control))
}

fn end(ends: Result2, control: &Control) -> End
    ensures { result ≡ end_of ends control.now }
{
    End {
        ends,
        after: Change::keeping(&control.registers),
    }
}
