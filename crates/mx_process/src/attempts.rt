//! An attempt at a line: no memory, no lock, nobody is waited for.

ghost use Rattle.std.specs.Prelude.{◌≡◌, ◌≤◌, ◌<◌, ◌+◌, ◌^◌, ◌↔◌, ℕ, IsFalse, IsTrue, None, Some, drop, length, slice_get};
ghost use Rattle.mx_audit.specs.Accounts.{Account};
ghost use Rattle.std.specs.Option.{option_map};
ghost use Rattle.mx_core.specs.declared.words.Stage.TheVariants.{Outside, Ready};
ghost use Rattle.mx_line.specs.AtWork.{IsFree};
ghost use Rattle.mx_line.specs.Fills.{IsNoRequest};
ghost use Rattle.mx_line.specs.Operands.{steps_in};
ghost use Rattle.mx_request.specs.declared.requests.Request.{Request};
ghost use Rattle.mx_script.specs.declared.lines.Line.TheVariants.{Ask};
ghost use Rattle.mx_transcript.specs.Denials.{last_denial};
ghost use Rattle.mx_process.specs.Attempts.{HasAttempted, HasDone, HasMissed, IsAtLinkIn, IsAtRequest};
ghost use Rattle.mx_process.specs.Heeding.{HasHeeded, HasTold, before_last, cut_by};
ghost use Rattle.mx_process.specs.Processes.{HasLine, HasRoom, IsAtLine, known_of};
ghost use Rattle.mx_process.specs.Turns.{IsAttempting, IsUntold, inside};
ghost use Rattle.mx_process.specs.declared.misses.Fast.TheVariants.{Done, Journal, Link, Missing};

use crate::misses::{Fast, Miss};
use crate::naming::Attending;
use crate::processes::Process;
use crate::turns::{Turn, make_turns};
use mx_audit::{Auditor, Verdict};
use mx_cam::Cam;
use mx_desc::Pass;
use mx_line::Process as LineState;
use mx_office::Sitting;
use mx_rule::Board;
use mx_script::Line;
use mx_sdw::Denial;
use mx_state::Entry;

/// The turns of an attempt.
pub(crate) fn turns<B: Sitting>(
    state: &mut LineState,
    pass: &mut Pass<Entry, B>,
    cam: &mut Cam,
    shared: &Board<Entry>,
    line: &Line,
) -> Fast
    requires fits { shared.now.table_id ≡ B.table }
    requires layout { shared.now.key.layout ≡ B.layout }
    requires same { cam.old ≡ pass.old.view.memory }
    requires ready { pass.old.view.stage ≡ Ready }
    requires spare { steps_in state.old.progress ≤ pass.old.spare }
    requires room { steps_in state.old.progress ≤ state.old.recording.spare }
    requires end { IsTrue state.old.recording.line_room }
    requires attempting { IsAttempting B.session B.setup state.old line.now (known_of pass.old) }
    ensures came { HasAttempted B.session B.setup line.now state.old result (inside state.new pass.new) }
    ensures same { cam.new ≡ pass.new.view.memory }
    ensures ready { pass.new.view.stage ≡ Ready }
    ensures untold { IsUntold pass.old pass.new }
{
    loop {
        match make_turns(state, pass, cam, shared, line) {
            Turn::More => {}
            Turn::Ended => return Fast::Done,
            Turn::Missing(miss) => {
                return Fast::Missing {
                    segno: miss.segno,
                    by: miss.by,
                };
            }
            Turn::AtLink(place) => {
                return Fast::Link {
                    segno: place.segno,
                    word: place.word,
                    ring: place.ring,
                };
            }
        }
    }
}

/// One attempt at a line that is no request, from outside to outside.
fn attempt<B: Sitting>(
    state: &mut LineState,
    pass: &mut Pass<Entry, B>,
    cam: &mut Cam,
    shared: &Board<Entry>,
    line: &Line,
) -> Fast
    requires fits { shared.now.table_id ≡ B.table }
    requires layout { shared.now.key.layout ≡ B.layout }
    requires same { cam.old ≡ pass.old.view.memory }
    requires outside { pass.old.view.stage ≡ Outside }
    requires spare { 10 ≤ pass.old.spare }
    requires room { 10 ≤ state.old.recording.spare }
    requires end { IsTrue state.old.recording.line_room }
    requires attempting { IsAttempting B.session B.setup state.old line.now (known_of pass.old) }
    ensures came { HasAttempted B.session B.setup line.now state.old result (inside state.new pass.new) }
    ensures same { cam.new ≡ pass.new.view.memory }
    ensures outside { pass.new.view.stage ≡ Outside }
    ensures untold { IsUntold pass.old pass.new }
{
    cam.enter(pass, shared);
    let came = turns(state, pass, cam, shared, line);
    pass.leave(shared);
    came
}

impl<'a, B: Attending, A: Auditor> Process<'a, B, A> {
    /// One attempt at the present line, with the registers of its start: its references are judged on what the process was
    /// told of, by its memory or the descriptor words. The line ends with it, and where it ends denied the auditor is told,
    /// and where the auditor answers so the last line of the script, the `logout`, is next; or a reference missed, or a link is
    /// to be snapped first; a request waits for the office. A miss that is not yet settled is answered again. Conditions: a
    /// line is left, no write that a reply asks for is due, and room was made for the attempt. It takes no memory, and waits
    /// for nobody.
    pub fn line_fast(&mut self, shared: &Board<Entry>) -> Fast
        requires fits { shared.now.table_id ≡ B.table }
        requires layout { shared.now.key.layout ≡ B.layout }
        requires left { HasLine B.session self.old }
        requires free { IsFree self.old.state.progress }
        requires room { HasRoom self.old }
        ensures journal { (result ≡ Journal) ↔ IsAtRequest B.session self.old }
        ensures still { result ≡ Journal → self.new ≡ self.old }
        ensures done { result ≡ Done → HasDone self.old self.new }
        ensures missing { (segno by : ℕ) → result ≡ Missing segno by → HasMissed segno by self.old self.new }
        ensures link { (segno word ring : ℕ) → result ≡ Link segno word ring
            → IsAtLinkIn B.session segno word ring self.old self.new }
    {
        let line = self.present();
        if is_request(line) {
            return Fast::Journal;
        }
        match self.missing {
            Some(miss) => Fast::Missing {
                segno: miss.segno,
                by: miss.by,
            },
            None => self.attempt(shared, line),
        }
    }

    // The attempt at a line that is no request, where no miss is to be settled.
    fn attempt(&mut self, shared: &Board<Entry>, line: &Line) -> Fast
        requires fits { shared.now.table_id ≡ B.table }
        requires layout { shared.now.key.layout ≡ B.layout }
        requires at { (number : ℕ) × IsAtLine B.session self.old number line.now }
        requires other { IsNoRequest line.now }
        requires free { IsFree self.old.state.progress }
        requires settled { self.old.missing ≡ None }
        requires room { HasRoom self.old }
        ensures never { result ≡ Journal → ⊥ }
        ensures done { result ≡ Done → HasDone self.old self.new }
        ensures missing { (segno by : ℕ) → result ≡ Missing segno by → HasMissed segno by self.old self.new }
        ensures link { (segno word ring : ℕ) → result ≡ Link segno word ring
            → IsAtLinkIn B.session segno word ring self.old self.new }
    {
        match attempt(&mut self.state, &mut self.pass, &mut self.cam, shared, line) {
            Fast::Done => {
                self.script = tell_and_heed(&mut self.auditor, &mut self.state, self.script);
                Fast::Done
            }
            Fast::Missing { segno, by } => {
                self.missing = Some(Miss { segno, by });
                Fast::Missing { segno, by }
            }
            Fast::Link { segno, word, ring } => Fast::Link { segno, word, ring },
            Fast::Journal => unreachable!(),
        }
    }

    // The present line.
    pub(crate) fn present(&self) -> &'a Line
        requires { HasLine B.session self.now }
        ensures { (number : ℕ) × IsAtLine B.session self.now number result.now }
    {
        let Some(line) = line_at(self.script, self.state.recording.lines()) else {
            unreachable!()
        };
        line
    }
}

// A line of a script, counted from 0.
pub(crate) fn line_at(script: &[Line], place: usize) -> Option<&Line>
    ensures { option_map (λ line. line.now) result ≡ slice_get script.now place }
{
    script.get(place)
}

/// The auditor, if there is one, is told of the denial of the line that ended last, if it was denied, and its verdict is heeded:
/// where the process is to log out, the last line of the script is next. Gives the lines among which the next one stands at the
/// place that counts the lines done. Condition: a line is left. Takes no memory.
pub(crate) fn tell_and_heed<'a, A: Auditor>(
    auditor: &mut Option<A>,
    state: &mut LineState,
    script: &'a [Line],
) -> &'a [Line]
    requires room { (account : Account) → option_map A.account auditor.old ≡ Some account → 1 ≤ account.room }
    requires left { length state.old.recording.steps < length script.now }
    requires numbers { state.old.first + length script.now < 2 ^ 32 }
    ensures { HasHeeded (last_denial state.old.recording.steps) (option_map A.account auditor.old) state.old script.now
        (option_map A.account auditor.new) state.new result.now }
{
    match tell(auditor, state.recording.last_denial()) {
        Verdict::GoOn => script,
        Verdict::Logout => cut(state, script),
    }
}

// The auditor, if there is one, is told of the denial of a line, if it was denied. Where nothing is told the process goes on.
fn tell<A: Auditor>(auditor: &mut Option<A>, told: Option<(u32, Denial)>) -> Verdict
    requires { (account : Account) → option_map A.account auditor.old ≡ Some account → 1 ≤ account.room }
    ensures { HasTold told (option_map A.account auditor.old) result (option_map A.account auditor.new) }
{
    match told {
        Some((line, denial)) => match auditor {
            Some(auditor) => auditor.denied(line, denial),
            None => Verdict::GoOn,
        },
        None => Verdict::GoOn,
    }
}

// All lines that are left before the last are left out.
fn cut<'a>(state: &mut LineState, script: &'a [Line]) -> &'a [Line]
    requires left { length state.old.recording.steps < length script.now }
    requires numbers { state.old.first + length script.now < 2 ^ 32 }
    ensures state { state.new ≡ cut_by (before_last state.old script.now) state.old }
    ensures script { result.now ≡ drop (before_last state.old script.now) script.now }
{
    let more = script.len() - 1 - state.recording.lines();
    state.first += more as u32;
    &script[more..]
}

// Whether a line is a request.
pub(crate) fn is_request(line: &Line) -> bool
    ensures yes { IsTrue result → (request : Request) × (line.now ≡ Ask request) }
    ensures no { IsFalse result → IsNoRequest line.now }
{
    match line {
        Line::Ask(_) => true,
        Line::Set { .. } => false,
        Line::Epp { .. } => false,
        Line::Lda { .. } => false,
        Line::Sta { .. } => false,
        Line::Spri { .. } => false,
        Line::Fetch => false,
        Line::Call { .. } => false,
        Line::Return { .. } => false,
    }
}
