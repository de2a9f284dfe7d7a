//! A process: its place in its script, what was recorded of its lines, and what it did at the shared words.

ghost use Rattle.std.specs.Prelude.{◌≡◌, ◌≤◌, ◌<◌, ◌-◌, ◌↔◌, [], None, Some, IfOk, OnOk, IsTrue, length, slice_get};
ghost use Rattle.std.specs.Option.{option_map};
ghost use Rattle.mx_core.specs.declared.words.Stage.TheVariants.{Outside};
ghost use Rattle.mx_closing.specs.Views.{view_in};
ghost use Rattle.mx_process.specs.Audited.{IsAudited};
ghost use Rattle.mx_process.specs.Lines.{IsAwake, IsOwn};
ghost use Rattle.mx_process.specs.Plans.{IsUncut, left_of, place_in};
ghost use Rattle.mx_process.specs.Processes.{HasLine, HasRoom, IsNew, IsNewPass, IsStill, script_of};
ghost use Rattle.mx_ties.specs.Working.{HasWorked};
ghost use Rattle.mx_transcript.specs.Recorded.{IsStill as IsUnchanged};
ghost use Rattle.mx_transcript.specs.Scripts.{lines_of};

use crate::misses::Miss;
use crate::naming::Attending;
use mx_audit::Auditor;
use mx_cam::Cam;
use mx_desc::Pass;
use mx_line::{Process as LineState, Progress};
use mx_request::most_gates;
use mx_script::{Line, Script, Session};
use mx_state::Entry;
use mx_transcript::{Recording, Transcript, first_line};
use mx_upcall::Control;
use std::alloc::{AllocError, Global};
use std::marker::Model;

/// How many events an attempt at a line has at most.
pub(crate) const ATTEMPT: u32 = 10;

/// A process of the run that `B` names, with its pass. Its auditor is told of each of its denials, and may log it out. Of its
/// script it has the lines but for as many at the beginning as were left out.
#[derive(Drop)]
pub struct Process<'a, B: Attending, A: Auditor> {
    pub(crate) script: &'a [Line],
    pub(crate) state: LineState,
    pub(crate) missing: Option<Miss>,
    pub(crate) pass: Pass<Entry, B>,
    pub(crate) cam: Cam,
    pub(crate) auditor: Option<A>,
}

impl<'a, B: Attending, A: Auditor> Model for Process<'a, B, A> {
    ghost use Rattle.std.specs.Option.{option_map};
    ghost use Rattle.mx_process.specs.Processes.{ProcessValue, IsProcess};

    ghost Value = { ProcessValue };

    ghost view = { λ a. record {
      state = a.state;
      missing = a.missing;
      pass = a.pass;
      account = option_map A.account a.auditor;
    } };

    ghost invariant = { λ a. IsProcess B.session B.setup B.accounts a.script.now a.cam (record {
      state = a.state;
      missing = a.missing;
      pass = a.pass;
      account = option_map A.account a.auditor;
    }) };
}

impl<'a, B: Attending, A: Auditor> Process<'a, B, A> {
    /// The process of a pass before its first line, without an auditor. Condition: the pass is that of a process of the
    /// session, and did nothing yet. From then on the pass keeps no trace: what the process does is recorded by its lines, for
    /// which no room is made yet.
    /// The only error is want of memory; then the pass is given up.
    pub fn new(
        alloc: Global,
        session: &'a Session,
        pass: Pass<Entry, B>,
    ) -> Result<Process<'a, B, A>, AllocError>
        requires session { session.now ≡ B.session }
        requires fresh { IsNewPass B.session pass }
        ensures { IfOk result (λ process. IsNew B.session pass process) }
    {
        let mut pass = pass;
        pass.forget_trace();
        let p = pass.process();
        let script = script_at(session.scripts().items(), usize::from(p) - 1);
        Ok(Process {
            script,
            state: LineState {
                first: first_line(session, p),
                control: Control::opening(most_gates(session.version())),
                recording: Recording::with_room(alloc, 0)?,
                progress: Progress::Before,
            },
            missing: None,
            pass,
            cam: Cam::new(),
            auditor: None,
        })
    }

    /// Gives the process its auditor. Conditions: it has none, no line of it has ended, the auditor is that of the process, and
    /// has room for a denial of each line of its script. Takes no memory.
    pub fn attend(&mut self, auditor: A)
        requires none { self.old.account ≡ None }
        requires begun { self.old.state.recording.steps ≡ [] }
        requires own { slice_get B.accounts (self.old.pass.view.process - 1) ≡ Some (A.account auditor) }
        requires room { length (script_of B.session self.old.pass.view.process) ≤ (A.account auditor).room }
        ensures { self.new ≡ record self.old { account = Some (A.account auditor) } }
    {
        self.auditor = Some(auditor);
    }

    /// Makes room for one attempt at a line, and for the line's end. Want of memory changes nothing but room. The pass, which
    /// keeps no trace, takes none.
    #[inline(always)]
    pub fn reserve(&mut self) -> Result<(), AllocError>
        ensures room { OnOk result (HasRoom self.new) }
        ensures still { IsStill self.old self.new }
    {
        self.pass.reserve(ATTEMPT as usize)?;
        self.state.recording.reserve_events(ATTEMPT)
    }

    /// Makes room for all lines of its script and for as many events, by the thread that calls it, so that nothing that is
    /// recorded is moved; and, as a guess, for an attempt's events at each line whose operand is indirect, but does without
    /// where there is none for these, since an attempt makes its own. Condition: it does not wait. Want of memory changes nothing
    /// but room.
    pub fn reserve_lines(&mut self) -> Result<(), AllocError>
        requires awake { IsAwake self.old }
        ensures awake { IsAwake self.new }
        ensures own { IsOwn self.old self.new }
    {
        let lines = self.script.len().saturating_add(ATTEMPT as usize);
        let attempts = guess_indirect(self.script).saturating_mul(ATTEMPT as usize);
        ask_for_room(&mut self.state.recording, lines.saturating_add(attempts));
        self.state.recording.reserve_lines(lines)
    }

    /// Whether a line is left.
    pub fn has_line(&self) -> bool
        ensures { IsTrue result ↔ HasLine B.session self.now }
    {
        self.state.recording.lines() < self.script.len()
    }

    /// What its type says of its auditor, if it has one: it was told of each denial of the process so far, beyond what it had
    /// been told before the run, and its last verdict was heeded. Where it has none no line was left out.
    pub fn tells_its_auditor(&self)
        ensures audited { IsAudited B.session self.now.pass.view.process
            (slice_get B.accounts (self.now.pass.view.process - 1)) self.now.state self.now.account }
        ensures alone { slice_get B.accounts (self.now.pass.view.process - 1) ≡ None
            → IsUncut B.session self.now.pass.view.process self.now.state }
        ensures within { place_in B.session self.now.pass.view.process self.now.state
            ≤ length (lines_of B.session self.now.pass.view.process) }
    {
        let _ = &self.auditor;
    }

    /// The transcript, the pass and the auditor, where all lines are done. Takes no memory.
    pub fn finish(self) -> (Transcript, Pass<Entry, B>, Option<A>)
        requires { left_of B.session self.pass.view.process self.state ≡ [] }
        ensures worked { HasWorked B.session B.setup result.1.view.process result.0 (view_in result.1) }
        ensures pass { result.1 ≡ self.entry.pass }
        ensures outside { result.1.view.stage ≡ Outside }
        ensures steps { result.0 ≡ self.entry.state.recording.steps }
        ensures auditor { option_map A.account result.2 ≡ self.entry.account }
    {
        let Process {
            state,
            pass,
            auditor,
            ..
        } = self;
        (state.finish(), pass, auditor)
    }
}

/// The script of a process, counted from 0.
fn script_at(scripts: &[Script], i: usize) -> &[Line]
    requires { i < length scripts.now }
    ensures { slice_get scripts.now i ≡ Some result.now }
{
    scripts[i].items()
}

/// Makes room for so many events where it can be had.
fn ask_for_room(recording: &mut Recording, events: usize)
    ensures { IsUnchanged recording.old recording.new }
{
    if let Ok(events) = u32::try_from(events) {
        let _none = recording.reserve_events(events);
    }
}

/// How many lines of a script have an indirect operand, where all are as one in 31 is.
fn guess_indirect(script: &[Line]) -> usize {
    let found = script
        .iter()
        .step_by(31)
        .filter(|line| is_indirect(line))
        .count();
    found.saturating_mul(31)
}

fn is_indirect(line: &Line) -> bool {
    match line {
        Line::Epp { operand, .. }
        | Line::Lda { operand }
        | Line::Sta { operand }
        | Line::Spri { operand, .. }
        | Line::Call { operand }
        | Line::Return { operand } => operand.indirect,
        Line::Ask(_) | Line::Set { .. } | Line::Fetch => false,
    }
}
