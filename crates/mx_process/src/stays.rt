//! Several lines in one stay inside: the flag is raised once for all of them.

ghost use Rattle.std.specs.Prelude.{◌≡◌, ◌≤◌, ℕ, IfOk, IsTrue, None, OnErr, OnOk};
ghost use Rattle.mx_core.specs.declared.words.Stage.TheVariants.{Outside, Ready};
ghost use Rattle.mx_line.specs.declared.operands.Progress.TheVariants.{Before};
ghost use Rattle.mx_line.specs.Fills.{IsNoRequest};
ghost use Rattle.mx_process.specs.Lines.{IsAwake};
ghost use Rattle.mx_process.specs.Processes.{IsAtLine, IsStill};
ghost use Rattle.mx_process.specs.Stays.{HasDoneMore, HasDoneNext, HasHurried, HasStayed, IsUnaudited, gone_out, unaudited};
ghost use Rattle.mx_process.specs.Turns.{inside};

use crate::attempts::{is_request, line_at, tell_and_heed, turns};
use crate::misses::{Fast, Miss};
use crate::naming::Attending;
use crate::processes::{ATTEMPT, Process};
use mx_audit::Auditor;
use mx_cam::Cam;
use mx_desc::Pass;
use mx_line::{Process as LineState, Progress};
use mx_office::Sitting;
use mx_rule::Board;
use mx_script::Line;
use mx_state::Entry;
use std::alloc::AllocError;

/// How many lines a stay has at most: who waits for the process to leave waits no longer.
const LINES: u32 = 256;

/// What a stay came to.
pub(crate) enum Stayed {
    /// The line that is next, if one is left, is not for this stay: it has not begun, or stands at its link.
    Over,
    /// The line that ended last was denied.
    Denied,
    /// A reference missed.
    Missing(Miss),
}

impl<'a, B: Attending, A: Auditor> Process<'a, B, A> {
    /// Does lines in one stay inside, up to a request, a miss, a link that is to be snapped, or a denial, of which the
    /// auditor is told outside, and where it answers so the last line is next. A line that has begun is left to `leg`. It takes
    /// no lock and waits for nobody. Condition: the process does not wait. The only error is want of memory: the lines that
    /// ended before stay done.
    pub(crate) fn hurry(&mut self, shared: &Board<Entry>) -> Result<(), AllocError>
        requires fits { shared.now.table_id ≡ B.table }
        requires layout { shared.now.key.layout ≡ B.layout }
        requires awake { IsAwake self.old }
        ensures more { HasDoneMore self.old self.new }
        ensures awake { IsAwake self.new }
    {
        if is_fresh(&self.missing, &self.state.progress) {
            return self.stay(shared);
        }
        Ok(())
    }

    // The same where the next line has not begun.
    fn stay(&mut self, shared: &Board<Entry>) -> Result<(), AllocError>
        requires fits { shared.now.table_id ≡ B.table }
        requires layout { shared.now.key.layout ≡ B.layout }
        requires settled { self.old.missing ≡ None }
        requires before { self.old.state.progress ≡ Before }
        ensures more { HasDoneMore self.old self.new }
        ensures awake { IsAwake self.new }
    {
        match stay(
            &mut self.state,
            &mut self.pass,
            &mut self.cam,
            shared,
            self.script,
        )? {
            Stayed::Over => Ok(()),
            Stayed::Denied => {
                self.script = tell_and_heed(&mut self.auditor, &mut self.state, self.script);
                Ok(())
            }
            Stayed::Missing(miss) => {
                self.missing = Some(miss);
                Ok(())
            }
        }
    }
}

// Whether the next line has not begun, and no miss is to be settled.
#[inline(always)]
fn is_fresh(missing: &Option<Miss>, progress: &Progress) -> bool
    ensures settled { IsTrue result → missing.now ≡ None }
    ensures before { IsTrue result → progress.now ≡ Before }
{
    missing.is_none() && matches!(progress, Progress::Before)
}

// A stay, from outside to outside.
fn stay<B: Attending>(
    state: &mut LineState,
    pass: &mut Pass<Entry, B>,
    cam: &mut Cam,
    shared: &Board<Entry>,
    script: &[Line],
) -> Result<Stayed, AllocError>
    requires fits { shared.now.table_id ≡ B.table }
    requires layout { shared.now.key.layout ≡ B.layout }
    requires same { cam.old ≡ pass.old.view.memory }
    requires outside { pass.old.view.stage ≡ Outside }
    requires whole { IsUnaudited B.session B.setup B.accounts script.now None (inside state.old pass.old) }
    requires before { state.old.progress ≡ Before }
    ensures came { IfOk result (λ came. HasStayed B.session B.setup B.accounts script.now (inside state.old pass.old) came
        (inside state.new pass.new)) }
    ensures err { OnErr result (HasHurried B.session B.setup B.accounts script.now (inside state.old pass.old) None None
        (inside state.new pass.new)) }
    ensures same { cam.new ≡ pass.new.view.memory }
{
    cam.enter(pass, shared);
    let came = do_lines(state, pass, cam, shared, script);
    pass.leave(shared);
    came
}

// The lines of a stay.
fn do_lines<B: Attending>(
    state: &mut LineState,
    pass: &mut Pass<Entry, B>,
    cam: &mut Cam,
    shared: &Board<Entry>,
    script: &[Line],
) -> Result<Stayed, AllocError>
    requires fits { shared.now.table_id ≡ B.table }
    requires layout { shared.now.key.layout ≡ B.layout }
    requires same { cam.old ≡ pass.old.view.memory }
    requires ready { pass.old.view.stage ≡ Ready }
    requires whole { IsUnaudited B.session B.setup B.accounts script.now None (gone_out (inside state.old pass.old)) }
    requires before { state.old.progress ≡ Before }
    ensures came { IfOk result (λ came. HasStayed B.session B.setup B.accounts script.now
        (gone_out (inside state.old pass.old)) came (gone_out (inside state.new pass.new))) }
    ensures err { OnErr result (HasHurried B.session B.setup B.accounts script.now (gone_out (inside state.old pass.old)) None None
        (gone_out (inside state.new pass.new))) }
    ensures same { cam.new ≡ pass.new.view.memory }
    ensures ready { pass.new.view.stage ≡ Ready }
{
    for _ in 0..LINES {
        if let Some(came) = do_next(state, pass, cam, shared, script)? {
            return Ok(came);
        }
    }
    Ok(Stayed::Over)
}

// The next line, where it is for this stay; and what the stay came to, where it is over.
#[inline(always)]
fn do_next<B: Attending>(
    state: &mut LineState,
    pass: &mut Pass<Entry, B>,
    cam: &mut Cam,
    shared: &Board<Entry>,
    script: &[Line],
) -> Result<Option<Stayed>, AllocError>
    requires fits { shared.now.table_id ≡ B.table }
    requires layout { shared.now.key.layout ≡ B.layout }
    requires same { cam.old ≡ pass.old.view.memory }
    requires ready { pass.old.view.stage ≡ Ready }
    requires whole { IsUnaudited B.session B.setup B.accounts script.now None (gone_out (inside state.old pass.old)) }
    requires before { state.old.progress ≡ Before }
    ensures came { IfOk result (λ came. HasDoneNext B.session B.setup B.accounts script.now
        (gone_out (inside state.old pass.old)) came (gone_out (inside state.new pass.new))) }
    ensures err { OnErr result (HasHurried B.session B.setup B.accounts script.now (gone_out (inside state.old pass.old)) None None
        (gone_out (inside state.new pass.new))) }
    ensures same { cam.new ≡ pass.new.view.memory }
    ensures ready { pass.new.view.stage ≡ Ready }
{
    let Some(line) = line_at(script, state.recording.lines()) else {
        return Ok(Some(Stayed::Over));
    };
    if is_request(line) {
        return Ok(Some(Stayed::Over));
    }
    make_room(state, pass)?;
    Ok(do_line(state, pass, cam, shared, script, line))
}

// Room for one attempt at a line, and for the line's end.
#[inline(always)]
fn make_room<B: Sitting>(state: &mut LineState, pass: &mut Pass<Entry, B>) -> Result<(), AllocError>
    ensures trace { OnOk result (10 ≤ pass.new.spare) }
    ensures events { OnOk result (10 ≤ state.new.recording.spare) }
    ensures line { OnOk result (IsTrue state.new.recording.line_room) }
    ensures still { IsStill (unaudited None (gone_out (inside state.old pass.old))) (unaudited None (gone_out (inside state.new pass.new))) }
    ensures view { pass.new.view ≡ pass.old.view }
{
    pass.reserve(ATTEMPT as usize)?;
    state.recording.reserve_events(ATTEMPT)
}

// A line that is no request, for which there is room.
#[inline(always)]
fn do_line<B: Attending>(
    state: &mut LineState,
    pass: &mut Pass<Entry, B>,
    cam: &mut Cam,
    shared: &Board<Entry>,
    script: &[Line],
    line: &Line,
) -> Option<Stayed>
    requires fits { shared.now.table_id ≡ B.table }
    requires layout { shared.now.key.layout ≡ B.layout }
    requires same { cam.old ≡ pass.old.view.memory }
    requires ready { pass.old.view.stage ≡ Ready }
    requires spare { 10 ≤ pass.old.spare }
    requires room { 10 ≤ state.old.recording.spare }
    requires end { IsTrue state.old.recording.line_room }
    requires whole { IsUnaudited B.session B.setup B.accounts script.now None (gone_out (inside state.old pass.old)) }
    requires before { state.old.progress ≡ Before }
    requires other { IsNoRequest line.now }
    requires at { (number : ℕ) × IsAtLine B.session (unaudited None (gone_out (inside state.old pass.old))) number line.now }
    ensures came { HasDoneNext B.session B.setup B.accounts script.now (gone_out (inside state.old pass.old)) result
        (gone_out (inside state.new pass.new)) }
    ensures same { cam.new ≡ pass.new.view.memory }
    ensures ready { pass.new.view.stage ≡ Ready }
{
    match turns(state, pass, cam, shared, line) {
        Fast::Done => match state.recording.last_denial() {
            Some(_) => Some(Stayed::Denied),
            None => None,
        },
        Fast::Missing { segno, by } => Some(Stayed::Missing(Miss { segno, by })),
        Fast::Link { .. } => Some(Stayed::Over),
        Fast::Journal => unreachable!(),
    }
}
