//! The writes in ring 0 that a reply asks for, one at a time: no memory, no lock, nobody is waited for.

ghost use Rattle.std.specs.Prelude.{◌≡◌, ◌≤◌, ◌<◌, ◌^◌, ℕ, IsTrue, None};
ghost use Rattle.mx_core.specs.declared.elements.Outcome.TheVariants.{Written};
ghost use Rattle.mx_core.specs.declared.words.Stage.TheVariants.{Outside, Ready};
ghost use Rattle.mx_line.specs.AtWork.{IsGoodWork, IsStorableBy, reference_in};
ghost use Rattle.mx_line.specs.Fills.{IsShort, write_of};
ghost use Rattle.mx_line.specs.Operands.{IsGoodProgress, IsSayable};
ghost use Rattle.mx_line.specs.declared.operands.Progress.TheVariants.{Filling};
ghost use Rattle.mx_sdw.specs.Admissible.{IsAdmissible};
ghost use Rattle.mx_transcript.specs.Elements.{IsJudged};
ghost use Rattle.mx_upcall.specs.Soundness.{IsPackableControl};
ghost use Rattle.mx_process.specs.Attempts.{HasMissed};
ghost use Rattle.mx_process.specs.Filling.{HasStored, HasWritten, HasWrote, IsDue, IsOnwardAt, IsSince, IsWriting, Leads};
ghost use Rattle.mx_process.specs.Plans.{number_in};
ghost use Rattle.mx_process.specs.Processes.{HasLine, HasRoom, IsAtLine, IsFitting, known_of};
ghost use Rattle.mx_process.specs.Turns.{IsUntold, inside};
ghost use Rattle.mx_process.specs.declared.filling.Wrote.TheVariants.{Done, Missing, More};

use crate::attempts::tell_and_heed;
use crate::misses::Miss;
use crate::naming::Attending;
use crate::processes::Process;
use crate::turns::{Turn, end_line, value_of, words_are_short};
use mx_audit::Auditor;
use mx_cam::Cam;
use mx_desc::{Pass, Referred};
use mx_line::{End, Fill, LineAtWork, Process as LineState, Progress, Reference};
use mx_office::Sitting;
use mx_rule::Board;
use mx_script::Line;
use mx_sdw::Desc;
use mx_state::Entry;
use mx_transcript::{Element, Event, Event2, Outcome, Result2};
use mx_upcall::{Change, Control};

/// What a write that a reply asks for came to.
#[derive(Clone, Copy, Debug, PartialEq, Eq)]
pub enum Wrote {
    /// It was made, and the line goes on: another such write is due, or the line begins anew.
    More,
    /// The line ended: all such writes were made, or this one was denied.
    Done,
    /// It missed: the word of this number is to be settled first. The write stays due.
    Missing { segno: u16, by: u32 },
}

impl<'a, B: Attending, A: Auditor> Process<'a, B, A> {
    /// Makes the write in ring 0 that is due, since the reply to the line's last call asks for it. It is judged as every
    /// reference is. Where it is denied the line ends with that denial; where the line ends denied the auditor is told, and
    /// where it answers so the last line of the script is next. A miss that is not yet settled is answered again. Conditions:
    /// a line is left, a write is due, and room was made for it. It takes no memory, and waits for nobody.
    pub fn fill_fast(&mut self, shared: &Board<Entry>) -> Wrote
        requires fits { shared.now.table_id ≡ B.table }
        requires layout { shared.now.key.layout ≡ B.layout }
        requires left { HasLine B.session self.old }
        requires due { IsDue self.old.state.progress }
        requires room { HasRoom self.old }
        ensures more { result ≡ More → HasWritten B.session self.old More self.new }
        ensures done { result ≡ Done → HasWritten B.session self.old Done self.new }
        ensures missing { (segno by : ℕ) → result ≡ Missing segno by → HasMissed segno by self.old self.new }
        ensures due { (segno by : ℕ) → result ≡ Missing segno by → self.new.state.progress ≡ self.old.state.progress }
    {
        let line = self.present();
        match self.missing {
            Some(miss) => Wrote::Missing {
                segno: miss.segno,
                by: miss.by,
            },
            None => self.write(shared, line),
        }
    }

    // The write, where no miss is to be settled.
    fn write(&mut self, shared: &Board<Entry>, line: &Line) -> Wrote
        requires fits { shared.now.table_id ≡ B.table }
        requires layout { shared.now.key.layout ≡ B.layout }
        requires at { (number : ℕ) × IsAtLine B.session self.old number line.now }
        requires due { IsDue self.old.state.progress }
        requires settled { self.old.missing ≡ None }
        requires room { HasRoom self.old }
        ensures more { result ≡ More → HasWritten B.session self.old More self.new }
        ensures done { result ≡ Done → HasWritten B.session self.old Done self.new }
        ensures missing { (segno by : ℕ) → result ≡ Missing segno by → HasMissed segno by self.old self.new }
        ensures due { (segno by : ℕ) → result ≡ Missing segno by → self.new.state.progress ≡ self.old.state.progress }
    {
        match write(&mut self.state, &mut self.pass, &mut self.cam, shared, line) {
            Turn::More => Wrote::More,
            Turn::Ended => {
                self.script = tell_and_heed(&mut self.auditor, &mut self.state, self.script);
                Wrote::Done
            }
            Turn::Missing(miss) => {
                self.missing = Some(miss);
                Wrote::Missing {
                    segno: miss.segno,
                    by: miss.by,
                }
            }
            Turn::AtLink(_) => unreachable!(),
        }
    }
}

/// One write, from outside to outside.
fn write<B: Sitting>(
    state: &mut LineState,
    pass: &mut Pass<Entry, B>,
    cam: &mut Cam,
    shared: &Board<Entry>,
    line: &Line,
) -> Turn
    requires fits { shared.now.table_id ≡ B.table }
    requires layout { shared.now.key.layout ≡ B.layout }
    requires same { cam.old ≡ pass.old.view.memory }
    requires outside { pass.old.view.stage ≡ Outside }
    requires spare { 10 ≤ pass.old.spare }
    requires room { 10 ≤ state.old.recording.spare }
    requires end { IsTrue state.old.recording.line_room }
    requires writing { IsWriting B.session B.setup state.old line.now (known_of pass.old) }
    ensures wrote { HasWrote B.session B.setup line.now state.old result (inside state.new pass.new) }
    ensures same { cam.new ≡ pass.new.view.memory }
    ensures outside { pass.new.view.stage ≡ Outside }
    ensures untold { IsUntold pass.old pass.new }
{
    cam.enter(pass, shared);
    let went = make_write(state, pass, cam, shared, line);
    pass.leave(shared);
    went
}

// The write that is due is made.
fn make_write<B: Sitting>(
    state: &mut LineState,
    pass: &mut Pass<Entry, B>,
    cam: &mut Cam,
    shared: &Board<Entry>,
    line: &Line,
) -> Turn
    requires fits { shared.now.table_id ≡ B.table }
    requires layout { shared.now.key.layout ≡ B.layout }
    requires same { cam.old ≡ pass.old.view.memory }
    requires ready { pass.old.view.stage ≡ Ready }
    requires spare { 1 ≤ pass.old.spare }
    requires room { 1 ≤ state.old.recording.spare }
    requires end { IsTrue state.old.recording.line_room }
    requires writing { IsWriting B.session B.setup state.old line.now (known_of pass.old) }
    ensures wrote { HasWrote B.session B.setup line.now state.old result (inside state.new pass.new) }
    ensures same { cam.new ≡ pass.new.view.memory }
    ensures ready { pass.new.view.stage ≡ Ready }
    ensures untold { IsUntold pass.old pass.new }
{
    let Progress::Filling(fill) = state.progress else {
        unreachable!()
    };
    let asked = fill.asked();
    store(state, pass, cam, shared, line, &fill, &asked)
}

// This write is made.
fn store<B: Sitting>(
    state: &mut LineState,
    pass: &mut Pass<Entry, B>,
    cam: &mut Cam,
    shared: &Board<Entry>,
    line: &Line,
    fill: &Fill,
    asked: &Reference,
) -> Turn
    requires fits { shared.now.table_id ≡ B.table }
    requires layout { shared.now.key.layout ≡ B.layout }
    requires same { cam.old ≡ pass.old.view.memory }
    requires ready { pass.old.view.stage ≡ Ready }
    requires spare { 1 ≤ pass.old.spare }
    requires room { 1 ≤ state.old.recording.spare }
    requires end { IsTrue state.old.recording.line_room }
    requires writing { IsWriting B.session B.setup state.old line.now (known_of pass.old) }
    requires due { state.old.progress ≡ Filling fill.now }
    requires asked { reference_in asked.now ≡ write_of fill.now }
    requires storable { IsStorableBy asked.now.op asked.now.stores }
    ensures wrote { HasWrote B.session B.setup line.now state.old result (inside state.new pass.new) }
    ensures same { cam.new ≡ pass.new.view.memory }
    ensures ready { pass.new.view.stage ≡ Ready }
    ensures untold { IsUntold pass.old pass.new }
{
    let value = value_of(asked.stores);
    match cam.refer(
        pass,
        shared,
        asked.segno,
        asked.op,
        asked.ring,
        asked.word,
        value,
    ) {
        Referred::Seen(element) => {
            let desc = pass.desc();
            words_are_short(&element);
            take_write(state, line, fill, &element, &desc)
        }
        Referred::Missing { by } => Turn::Missing(Miss {
            segno: asked.segno,
            by,
        }),
    }
}

// The write that was due was judged on this descriptor: the line goes on by it, or ends.
fn take_write(
    state: &mut LineState,
    line: &Line,
    fill: &Fill,
    element: &Element,
    desc: &Desc,
) -> Turn
    requires room { 1 ≤ state.old.recording.spare }
    requires end { IsTrue state.old.recording.line_room }
    requires number { number_in state.old < 2 ^ 32 }
    requires line { IsSayable line.now }
    requires packable { IsPackableControl state.old.control }
    requires good { IsGoodProgress state.old.control.registers state.old.progress }
    requires desc { IsAdmissible desc.now }
    requires due { state.old.progress ≡ Filling fill.now }
    requires fitting { IsFitting fill.now }
    requires since { IsSince state.old.control line.now fill.now }
    requires right { IsJudged (write_of fill.now) desc.now element.now }
    ensures stored { HasStored state.old line.now element.now desc.now state.new result }
    ensures good { IsGoodProgress state.new.control.registers state.new.progress }
    ensures packable { IsPackableControl state.new.control }
{
    let event = Event2::Core(Event::Seen(*element));
    let work = led_by(fill, line, &state.control, element, desc);
    state.recording.keep(event);
    match work {
        LineAtWork::At(progress) => {
            state.progress = progress;
            Turn::More
        }
        LineAtWork::Ended(end) => {
            end_line(state, &end);
            Turn::Ended
        }
        LineAtWork::Nowhere => unreachable!(),
    }
}

// Where a write leaves its line.
fn led_by(fill: &Fill, line: &Line, control: &Control, element: &Element, desc: &Desc) -> LineAtWork
    requires line { IsSayable line.now }
    requires packable { IsPackableControl control.now }
    requires short { IsShort fill.now }
    requires desc { IsAdmissible desc.now }
    requires fitting { IsFitting fill.now }
    requires since { IsSince control.now line.now fill.now }
    requires right { IsJudged (write_of fill.now) desc.now element.now }
    ensures leads { Leads control.now line.now fill.now element.now desc.now element.now.outcome result }
    ensures onward { IsOnwardAt result }
    ensures good { IsGoodWork control.now result }
{
    match element.outcome {
        Outcome::Denied(denial) => LineAtWork::Ended(End {
            ends: Result2::Denied(denial),
            after: Change::keeping(&control.registers),
        }),
        Outcome::Written { .. } => made(fill, line, control, element, desc),
        Outcome::Read { .. } => unreachable!(),
        Outcome::Entered { .. } => unreachable!(),
    }
}

// Where a write leaves its line that was made.
fn made(fill: &Fill, line: &Line, control: &Control, element: &Element, desc: &Desc) -> LineAtWork
    requires line { IsSayable line.now }
    requires packable { IsPackableControl control.now }
    requires short { IsShort fill.now }
    requires desc { IsAdmissible desc.now }
    requires fitting { IsFitting fill.now }
    requires since { IsSince control.now line.now fill.now }
    requires right { IsJudged (write_of fill.now) desc.now element.now }
    requires written { (value : ℕ) × (element.now.outcome ≡ Written value) }
    ensures leads { Leads control.now line.now fill.now element.now desc.now element.now.outcome result }
    ensures onward { IsOnwardAt result }
    ensures good { IsGoodWork control.now result }
{
    match fill {
        Fill::Words(words) => LineAtWork::At(Progress::Filling(Fill::Words(*words))).seen(
            line, control, element, desc,
        ),
        Fill::Pointer(_) => LineAtWork::At(Progress::Before),
    }
}
