//! Sessions as far as their lines were read.

ghost use Rattle.std.specs.Prelude.{◌≡◌, ◌<◌, ◌-◌, ◌^◌, ℕ, Option, if◌then◌else◌, IfOk, Some, None};
ghost use Rattle.mx_script.specs.Drafts.{Headed, Empty, setup_step, script_step, reached, step, Follows, finished, IsCountable};
ghost use Rattle.mx_script.specs.declared.rows.Row.TheVariants.{Header as HeaderRow, History as HistoryRow, Line as LineRow, Process as ProcessRow, End as EndRow};

use crate::lines::{Line, Script};
use crate::outlines::{is_entrant, is_logout, may_prepare, may_stand};
use crate::reading::lines::read_row;
use crate::reading::parts::Parts;
use crate::reading::stages::{Reach, Stage};
use crate::rows::Row;
use crate::sessions::Session;
use mx_request::{Entrant, Requests};
use std::alloc::{AllocError, Global};
use std::marker::Model;
use std::mem::replace;

/// What the lines read so far say: up to the first process the version, the limit, if any, and the setup; then the processes
/// that have logged out, and the script so far of the one that has not.
#[derive(Drop)]
pub(crate) struct Draft {
    stage: Stage,
    version: u8,
    history: Option<u32>,
    setup: Requests,
    parts: Parts,
    script: Script,
}

impl Model for Draft {
    ghost use Rattle.mx_script.specs.Drafts.{Draft as DraftValue, draft_at};

    ghost Value = { DraftValue };

    ghost view = { λ a. draft_at a.stage a.version a.history a.setup a.parts a.script };
}

impl Draft {
    /// No line yet.
    pub(crate) fn new(alloc: Global) -> Draft
        ensures { result ≡ Empty }
    {
        Draft {
            stage: Stage::Empty,
            version: 1,
            history: None,
            setup: Requests::new(alloc),
            parts: Parts::new(alloc, 1, None, Requests::new(alloc)),
            script: Script::new(alloc),
        }
    }

    /// Goes on with one more line, `false` where the line cannot stand there. Then, and for want of memory, the draft is
    /// of no use any more.
    pub(crate) fn read(&mut self, alloc: Global, line: &[u8]) -> Result<bool, AllocError>
        ensures { IfOk result (λ goes. Follows self.old line.now (if goes then Some self.new else None)) }
    {
        match read_row(alloc, line)? {
            Some(row) => self.take(alloc, row),
            None => Ok(false),
        }
    }

    fn take(&mut self, alloc: Global, row: Row) -> Result<bool, AllocError>
        ensures { IfOk result (λ goes. (if goes then Some self.new else None) ≡ step self.old row) }
    {
        match row {
            Row::Header(version) => Ok(self.take_header(alloc, version)),
            Row::History(limit) => Ok(self.take_limit(limit)),
            Row::Line(line) => self.take_line(alloc, line),
            Row::Process(entrant) => Ok(self.take_process(alloc, entrant)),
            Row::End => Ok(self.take_end()),
        }
    }

    fn take_header(&mut self, alloc: Global, version: u8) -> bool
        ensures { (if result then Some self.new else None) ≡ step self.old (HeaderRow version) }
    {
        match self.stage {
            Stage::Empty => {
                self.stage = Stage::Headed;
                self.version = version;
                self.history = None;
                self.setup = Requests::new(alloc);
                true
            }
            Stage::Headed => false,
            Stage::Running(_) => false,
            Stage::LoggedOut => false,
            Stage::Ended => false,
        }
    }

    // The limit stands before the setup, once.
    fn take_limit(&mut self, limit: u32) -> bool
        ensures { (if result then Some self.new else None) ≡ step self.old (HistoryRow limit) }
    {
        match self.stage {
            Stage::Headed => {
                if self.history.is_none() && self.setup.items().is_empty() {
                    self.history = Some(limit);
                    true
                } else {
                    false
                }
            }
            Stage::Empty => false,
            Stage::Running(_) => false,
            Stage::LoggedOut => false,
            Stage::Ended => false,
        }
    }

    fn take_line(&mut self, alloc: Global, line: Line) -> Result<bool, AllocError>
        ensures { IfOk result (λ goes. (if goes then Some self.new else None) ≡ step self.old (LineRow line)) }
    {
        match &self.stage {
            Stage::Headed => add_request(self.version, &mut self.setup, line),
            Stage::Running(entrant) => {
                match add_line(alloc, &mut self.parts, entrant, &mut self.script, line)? {
                    Reach::Nowhere => Ok(false),
                    Reach::Within => Ok(true),
                    Reach::Logout => {
                        self.stage = Stage::LoggedOut;
                        Ok(true)
                    }
                }
            }
            Stage::Empty => Ok(false),
            Stage::LoggedOut => Ok(false),
            Stage::Ended => Ok(false),
        }
    }

    // One more process, up to the fifteenth, with a class only where the version has classes.
    fn take_process(&mut self, alloc: Global, entrant: Entrant) -> bool
        ensures { (if result then Some self.new else None) ≡ step self.old (ProcessRow entrant) }
    {
        match self.stage {
            Stage::Headed => {
                if is_entrant(self.version, &entrant) {
                    let setup = replace(&mut self.setup, Requests::new(alloc));
                    self.parts = Parts::new(alloc, self.version, self.history, setup);
                    self.script = Script::new(alloc);
                    self.stage = Stage::Running(entrant);
                    true
                } else {
                    false
                }
            }
            Stage::LoggedOut => {
                if self.parts.processes() < 15 && is_entrant(self.parts.version(), &entrant) {
                    self.script = Script::new(alloc);
                    self.stage = Stage::Running(entrant);
                    true
                } else {
                    false
                }
            }
            Stage::Empty => false,
            Stage::Running(_) => false,
            Stage::Ended => false,
        }
    }

    fn take_end(&mut self) -> bool
        ensures { (if result then Some self.new else None) ≡ step self.old EndRow }
    {
        match self.stage {
            Stage::LoggedOut => {
                self.stage = Stage::Ended;
                true
            }
            Stage::Empty => false,
            Stage::Headed => false,
            Stage::Running(_) => false,
            Stage::Ended => false,
        }
    }

    /// The session, `None` where the text has not ended or something follows.
    pub(crate) fn finish(self, rest: &[u8]) -> Option<Session>
        requires { IsCountable self }
        ensures { result ≡ finished self rest.now }
    {
        match self.stage {
            Stage::Ended => {
                if rest.is_empty() {
                    self.parts.into_session()
                } else {
                    None
                }
            }
            Stage::Empty | Stage::Headed | Stage::Running(_) | Stage::LoggedOut => None,
        }
    }
}

// A setup goes on with a path request of the version.
fn add_request(version: u8, setup: &mut Requests, line: Line) -> Result<bool, AllocError>
    ensures { (history : Option ℕ) → IfOk result (λ goes. (if goes then Some (Headed version history setup.new) else None) ≡ setup_step version history setup.old line) }
{
    match line {
        Line::Ask(request) => {
            if may_prepare(version, request.request()) {
                setup.push(request)?;
                Ok(true)
            } else {
                Ok(false)
            }
        }
        Line::Set { .. } => Ok(false),
        Line::Epp { .. } => Ok(false),
        Line::Lda { .. } => Ok(false),
        Line::Sta { .. } => Ok(false),
        Line::Spri { .. } => Ok(false),
        Line::Fetch => Ok(false),
        Line::Call { .. } => Ok(false),
        Line::Return { .. } => Ok(false),
    }
}

// A script goes on with a line of its own, up to its logout.
fn add_line(
    alloc: Global,
    parts: &mut Parts,
    entrant: &Entrant,
    script: &mut Script,
    line: Line,
) -> Result<Reach, AllocError>
    ensures { IfOk result (λ reach. reached reach parts.new entrant.now script.new ≡ script_step parts.old entrant.now script.old line) }
{
    if !may_stand(parts.version(), &line) {
        return Ok(Reach::Nowhere);
    }
    let last = is_logout(&line);
    script.push(line)?;
    if last {
        parts.add(*entrant, replace(script, Script::new(alloc)))?;
        Ok(Reach::Logout)
    } else {
        Ok(Reach::Within)
    }
}
