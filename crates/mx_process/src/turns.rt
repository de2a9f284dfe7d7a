//! One turn of an attempt: what the line asks for next, and what comes of it.

ghost use Rattle.std.specs.Prelude.{◌≡◌, ◌≤◌, ◌<◌, ◌+◌, ◌++◌, ◌∷◌, ◌^◌, ℕ, [], IsTrue, None, Some};
ghost use Rattle.mx_core.specs.declared.elements.Event.TheVariants.{Seen};
ghost use Rattle.mx_core.specs.declared.elements.Outcome.TheVariants.{Read};
ghost use Rattle.mx_core.specs.declared.words.Stage.TheVariants.{Ready};
ghost use Rattle.mx_line.specs.AtWork.{IsMet, IsStorableBy};
ghost use Rattle.mx_line.specs.Operands.{IsGoodProgress, IsSayable, steps_in};
ghost use Rattle.mx_line.specs.declared.at_work.LineAtWork.TheVariants.{At};
ghost use Rattle.mx_process.specs.Plans.{number_in};
ghost use Rattle.mx_process.specs.Processes.{known_of};
ghost use Rattle.mx_process.specs.Turns.{HasEnd, HasTaken, HasTurned, IsAtLink, IsAttempting, IsLinkCall, IsReferring, IsUntold, inside};
ghost use Rattle.mx_process.specs.declared.turns.Turn.TheVariants.{More};
ghost use Rattle.mx_sdw.specs.Admissible.{IsAdmissible};
ghost use Rattle.mx_transcript.specs.declared.transcripts.Event2.TheVariants.{Core};
ghost use Rattle.mx_upcall.specs.Changes.{Fits};
ghost use Rattle.mx_upcall.specs.Soundness.{IsPackableControl};

use crate::looking::look;
use crate::misses::Miss;
use mx_cam::Cam;
use mx_desc::{Pass, Referred};
use mx_line::{Called, End, LineAtWork, Next, Place, Process as LineState, Progress, Reference};
use mx_office::Sitting;
use mx_rule::Board;
use mx_script::Line;
use mx_sdw::{Desc, Ring, Word};
use mx_state::Entry;
use mx_transcript::{Element, Event, Event2, Outcome};
use std::mem;

/// What a turn came to: the line goes on, or has ended, or its reference missed; or its link is to be snapped first.
pub(crate) enum Turn {
    More,
    Ended,
    Missing(Miss),
    AtLink(Place),
}

/// Turns of an attempt at a line that is no request: the indirect words are read through which its walk leads, or the reference
/// for which it asks is made, or it ends.
#[inline(always)]
pub(crate) fn make_turns<B: Sitting>(
    state: &mut LineState,
    pass: &mut Pass<Entry, B>,
    cam: &mut Cam,
    shared: &Board<Entry>,
    line: &Line,
) -> Turn
    requires fits { shared.now.table_id ≡ B.table }
    requires layout { shared.now.key.layout ≡ B.layout }
    requires same { cam.old ≡ pass.old.view.memory }
    requires ready { pass.old.view.stage ≡ Ready }
    requires spare { steps_in state.old.progress ≤ pass.old.spare }
    requires room { steps_in state.old.progress ≤ state.old.recording.spare }
    requires end { IsTrue state.old.recording.line_room }
    requires attempting { IsAttempting B.session B.setup state.old line.now (known_of pass.old) }
    ensures turned { HasTurned B.session B.setup line.now state.old result (inside state.new pass.new) }
    ensures same { cam.new ≡ pass.new.view.memory }
    ensures ready { pass.new.view.stage ≡ Ready }
    ensures spare { result ≡ More → steps_in state.new.progress ≤ pass.new.spare }
    ensures room { result ≡ More → steps_in state.new.progress ≤ state.new.recording.spare }
    ensures untold { IsUntold pass.old pass.new }
{
    match state.looks(line) {
        Some((walk, place)) => look(state, pass, cam, shared, line, walk, place),
        None => make_turn(state, pass, cam, shared, line),
    }
}

// One turn: the reference for which the line asks is made, or it ends.
#[inline(always)]
fn make_turn<B: Sitting>(
    state: &mut LineState,
    pass: &mut Pass<Entry, B>,
    cam: &mut Cam,
    shared: &Board<Entry>,
    line: &Line,
) -> Turn
    requires fits { shared.now.table_id ≡ B.table }
    requires layout { shared.now.key.layout ≡ B.layout }
    requires same { cam.old ≡ pass.old.view.memory }
    requires ready { pass.old.view.stage ≡ Ready }
    requires spare { 1 ≤ pass.old.spare }
    requires room { 1 ≤ state.old.recording.spare }
    requires end { IsTrue state.old.recording.line_room }
    requires attempting { IsAttempting B.session B.setup state.old line.now (known_of pass.old) }
    ensures turned { HasTurned B.session B.setup line.now state.old result (inside state.new pass.new) }
    ensures same { cam.new ≡ pass.new.view.memory }
    ensures ready { pass.new.view.stage ≡ Ready }
    ensures spare { pass.old.spare ≤ pass.new.spare + 1 }
    ensures room { state.old.recording.spare ≤ state.new.recording.spare + 1 }
    ensures untold { IsUntold pass.old pass.new }
{
    match state.refers(line) {
        Some(asked) => refer::<B, 0>(state, pass, cam, shared, line, &asked),
        None => turn_by(state, pass, cam, shared, line),
    }
}

// The same by all that the line may ask for.
#[inline(never)]
fn turn_by<B: Sitting>(
    state: &mut LineState,
    pass: &mut Pass<Entry, B>,
    cam: &mut Cam,
    shared: &Board<Entry>,
    line: &Line,
) -> Turn
    requires fits { shared.now.table_id ≡ B.table }
    requires layout { shared.now.key.layout ≡ B.layout }
    requires same { cam.old ≡ pass.old.view.memory }
    requires ready { pass.old.view.stage ≡ Ready }
    requires spare { 1 ≤ pass.old.spare }
    requires room { 1 ≤ state.old.recording.spare }
    requires end { IsTrue state.old.recording.line_room }
    requires attempting { IsAttempting B.session B.setup state.old line.now (known_of pass.old) }
    ensures turned { HasTurned B.session B.setup line.now state.old result (inside state.new pass.new) }
    ensures same { cam.new ≡ pass.new.view.memory }
    ensures ready { pass.new.view.stage ≡ Ready }
    ensures spare { pass.old.spare ≤ pass.new.spare + 1 }
    ensures room { state.old.recording.spare ≤ state.new.recording.spare + 1 }
    ensures untold { IsUntold pass.old pass.new }
{
    match state.asks(line) {
        Next::Asks(asked) => refer::<B, 1>(state, pass, cam, shared, line, &asked),
        Next::Calls { ring, called } => at_link(ring, called),
        Next::Ends(end) => {
            end_line(state, &end);
            Turn::Ended
        }
        Next::Fills(_) => unreachable!(),
        Next::Nowhere => unreachable!(),
    }
}

// The link that is to be snapped.
fn at_link(ring: Ring, called: Called) -> Turn
    requires { IsLinkCall called }
    ensures { IsAtLink ring called result }
{
    match called {
        Called::Link { segno, word } => Turn::AtLink(Place { segno, word, ring }),
        Called::Own => unreachable!(),
        Called::Resume => unreachable!(),
    }
}

// The reference for which the line asks is made. It is called from two places, each a function of its own (`PLACE`), so that the
// compiler takes it into both.
fn refer<B: Sitting, const PLACE: usize>(
    state: &mut LineState,
    pass: &mut Pass<Entry, B>,
    cam: &mut Cam,
    shared: &Board<Entry>,
    line: &Line,
    asked: &Reference,
) -> Turn
    requires fits { shared.now.table_id ≡ B.table }
    requires layout { shared.now.key.layout ≡ B.layout }
    requires same { cam.old ≡ pass.old.view.memory }
    requires ready { pass.old.view.stage ≡ Ready }
    requires spare { 1 ≤ pass.old.spare }
    requires room { 1 ≤ state.old.recording.spare }
    requires end { IsTrue state.old.recording.line_room }
    requires attempting { IsAttempting B.session B.setup state.old line.now (known_of pass.old) }
    requires asks { IsReferring state.old line.now asked.now }
    ensures turned { HasTurned B.session B.setup line.now state.old result (inside state.new pass.new) }
    ensures same { cam.new ≡ pass.new.view.memory }
    ensures ready { pass.new.view.stage ≡ Ready }
    ensures spare { pass.old.spare ≤ pass.new.spare + 1 }
    ensures room { state.old.recording.spare ≤ state.new.recording.spare + 1 }
    ensures untold { IsUntold pass.old pass.new }
{
    let value = value_of(asked.stores);
    match cam.refer(
        pass,
        shared,
        asked.segno,
        asked.op,
        asked.ring,
        asked.word,
        value,
    ) {
        Referred::Seen(element) => {
            let desc = pass.desc();
            words_are_short(&element);
            take(state, line, &element, &desc)
        }
        Referred::Missing { by } => Turn::Missing(Miss {
            segno: asked.segno,
            by,
        }),
    }
}

// What a write stores; a read stores nothing.
pub(crate) fn value_of(stores: Option<Word>) -> Word
    ensures { (value : ℕ) → stores ≡ Some value → result ≡ value }
{
    match stores {
        Some(value) => value,
        None => Word::zero(),
    }
}

// A word that was read has 36 bits.
pub(crate) fn words_are_short(element: &Element)
    ensures { (value writer stamp : ℕ) → element.now.outcome ≡ Read value writer stamp → value < 2 ^ 36 }
{
    match element.outcome {
        Outcome::Read { value, .. } => {
            let _value = value.value();
        }
        Outcome::Written { .. } | Outcome::Entered { .. } | Outcome::Denied(_) => {}
    }
}

// The reference for which the line asks was made, on this descriptor: the line goes on by it, or ends.
#[inline(always)]
fn take(state: &mut LineState, line: &Line, element: &Element, desc: &Desc) -> Turn
    requires room { 1 ≤ state.old.recording.spare }
    requires end { IsTrue state.old.recording.line_room }
    requires number { number_in state.old < 2 ^ 32 }
    requires line { IsSayable line.now }
    requires packable { IsPackableControl state.old.control }
    requires good { IsGoodProgress state.old.control.registers state.old.progress }
    requires desc { IsAdmissible desc.now }
    requires met { IsMet state.old.control line.now (At state.old.progress) element.now desc.now }
    ensures taken { HasTaken state.old line.now element.now desc.now state.new result }
    ensures room { state.old.recording.spare ≤ state.new.recording.spare + 1 }
{
    match state.plain_end(line, element) {
        Some(ends) => {
            state.end_plainly(Event2::Core(Event::Seen(*element)), ends);
            Turn::Ended
        }
        None => {
            // (copies, so that the compiler need not keep these in memory where the line ends)
            let (element, desc) = (*element, *desc);
            move_on(state, line, &element, &desc)
        }
    }
}

// The same for a reference by which the line does not end where the process stands: it is a call or return that was granted,
// or another.
#[inline(never)]
fn move_on(state: &mut LineState, line: &Line, element: &Element, desc: &Desc) -> Turn
    requires room { 1 ≤ state.old.recording.spare }
    requires end { IsTrue state.old.recording.line_room }
    requires number { number_in state.old < 2 ^ 32 }
    requires line { IsSayable line.now }
    requires packable { IsPackableControl state.old.control }
    requires good { IsGoodProgress state.old.control.registers state.old.progress }
    requires desc { IsAdmissible desc.now }
    requires met { IsMet state.old.control line.now (At state.old.progress) element.now desc.now }
    ensures taken { HasTaken state.old line.now element.now desc.now state.new result }
    ensures room { state.old.recording.spare ≤ state.new.recording.spare + 1 }
{
    match state.plain_move(line, element, desc) {
        Some(going) => {
            state.end_moved(Event2::Core(Event::Seen(*element)), &going, desc);
            Turn::Ended
        }
        None => take_by(state, line, element, desc),
    }
}

// The same by the line at work itself.
#[inline(never)]
pub(crate) fn take_by(state: &mut LineState, line: &Line, element: &Element, desc: &Desc) -> Turn
    requires room { 1 ≤ state.old.recording.spare }
    requires end { IsTrue state.old.recording.line_room }
    requires number { number_in state.old < 2 ^ 32 }
    requires line { IsSayable line.now }
    requires packable { IsPackableControl state.old.control }
    requires good { IsGoodProgress state.old.control.registers state.old.progress }
    requires desc { IsAdmissible desc.now }
    requires met { IsMet state.old.control line.now (At state.old.progress) element.now desc.now }
    ensures taken { HasTaken state.old line.now element.now desc.now state.new result }
    ensures room { state.old.recording.spare ≤ state.new.recording.spare + 1 }
{
    let event = Event2::Core(Event::Seen(*element));
    let progress = mem::replace(&mut state.progress, Progress::Before);
    let work = LineAtWork::At(progress).seen(line, &state.control, element, desc);
    state.recording.keep(event);
    match work {
        LineAtWork::At(progress) => {
            state.progress = progress;
            Turn::More
        }
        LineAtWork::Ended(end) => {
            end_line(state, &end);
            Turn::Ended
        }
        LineAtWork::Nowhere => unreachable!(),
    }
}

// The line at work ends.
#[inline(always)]
pub(crate) fn end_line(state: &mut LineState, end: &End)
    requires room { IsTrue state.old.recording.line_room }
    requires number { number_in state.old < 2 ^ 32 }
    requires fits { Fits state.old.control.gates end.now.after.gates }
    ensures ended { HasEnd state.old state.old.recording.events end.now state.new }
    ensures spare { state.new.recording.spare ≡ state.old.recording.spare }
{
    let number = state.first + state.recording.lines() as u32;
    state.recording.end_line(number, end.ends);
    state.control.change(&end.after);
    state.progress = Progress::Before;
}
