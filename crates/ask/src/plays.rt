//! A play: some processes before the plain supervisor, from their opening on.

ghost use Rattle.std.specs.Prelude.{◌≡◌, IfOk, IsNone};
ghost use Rattle.mx_request.specs.ReplyTexts.{reply_text};
ghost use Rattle.mx_state.specs.History.{MayAsk};

use itoa::Buffer;
use mx_core::Change;
use mx_request::{Entrant, Request, RequestClass};
use mx_sdw::{Aim, Desc, DescKind, Ring, write_octal};
use mx_state::{Applied, State};
use std::alloc::{AllocError, Global};
use std::marker::Model;

/// Processes before the plain supervisor, whose state is what a contract sees.
#[derive(Drop)]
pub struct Play {
    state: State,
    version: u8,
    processes: u8,
}

impl Model for Play {
    ghost use Rattle.std.specs.Prelude.{◌≡◌, length};
    ghost use Rattle.mx_state.specs.Plain.{Plain};

    ghost Value = { Plain };

    ghost view = { λ a. a.state };

    ghost invariant = { λ a. a.processes ≡ length a.state.processes };
}

/// The texts of an answer: the reply, and whose descriptors changed.
#[derive(Drop)]
pub struct Answer {
    pub reply: Vec<u8>,
    pub changed: Vec<u8>,
}

impl Play {
    /// A play of a version from its opening on, for 1 to 15 processes.
    pub fn open(
        alloc: Global,
        entrants: &[Entrant],
        version: u8,
    ) -> Result<Option<Play>, AllocError> {
        if entrants.is_empty() || entrants.len() > 15 {
            return Ok(None);
        }
        let state = State::new(alloc, entrants, version)?;
        Ok(Some(Play {
            state,
            version,
            processes: entrants.len() as u8,
        }))
    }

    /// What a process is answered in a ring to the request that a text spells; process 0 is the initializer, which asks
    /// on paths alone.
    pub fn ask(
        &mut self,
        alloc: Global,
        p: u8,
        ring: Ring,
        text: &[u8],
    ) -> Result<Answer, AllocError> {
        match Request::read(alloc, text)? {
            Some(request) => self.ask_request(alloc, p, ring, text, &request),
            None => Answer::unasked(alloc, "no request"),
        }
    }

    /// Whether a process would be told to go on, if it asked for a message; none where there is no such process.
    pub fn ready(&self, p: u8) -> Option<bool> {
        if p == 0 || p > self.processes {
            None
        } else {
            Some(self.state.ready(p))
        }
    }

    /// The descriptor that a process has of a segment number; none where there is no such process.
    pub fn descriptor(&self, p: u8, segno: u16) -> Option<Desc> {
        if p == 0 || p > self.processes {
            None
        } else {
            Some(self.state.descriptor(p, segno))
        }
    }

    // The same of a request that was read from its text.
    fn ask_request(
        &mut self,
        alloc: Global,
        p: u8,
        ring: Ring,
        text: &[u8],
        request: &Request,
    ) -> Result<Answer, AllocError> {
        if !is_written_again(alloc, request, text)? {
            return Answer::unasked(alloc, "written otherwise");
        }
        match self.reason(p, request) {
            Some(reason) => Answer::unasked(alloc, reason),
            None => self.answered(alloc, p, ring, request),
        }
    }

    // Why a process may not ask this.
    fn reason(&self, p: u8, request: &Request) -> Option<&'static str>
        ensures { IsNone result → MayAsk self.now p request.now }
    {
        if p > self.processes {
            Some("no such process")
        } else if request.since_version() > self.version {
            Some("of a later version")
        } else if p > 0 {
            None
        } else {
            match request.class() {
                RequestClass::OfPath => None,
                RequestClass::OfProcess => Some("for a process alone"),
                RequestClass::OfSupervisor => Some("for the supervisor alone"),
            }
        }
    }

    // What the plain supervisor answers.
    fn answered(
        &mut self,
        alloc: Global,
        p: u8,
        ring: Ring,
        request: &Request,
    ) -> Result<Answer, AllocError>
        requires { MayAsk self.old p request.now }
    {
        let applied = self.state.apply(alloc, p, ring, request)?;
        Answer::of(alloc, &applied)
    }
}

impl Answer {
    /// The answer to a question from without, which changes nothing.
    pub fn to_question(alloc: Global, text: &[u8]) -> Result<Answer, AllocError> {
        let reply = Vec::from_slice(alloc, text)?;
        let changed = changed_text(alloc, &[])?;
        Ok(Answer { reply, changed })
    }

    fn of(alloc: Global, applied: &Applied) -> Result<Answer, AllocError>
        ensures { IfOk result (λ answer. answer.reply.items ≡ reply_text applied.now.reply) }
    {
        let mut reply = Vec::new(alloc);
        applied.reply.append_to(&mut reply)?;
        let changed = changed_text(alloc, applied.changes.items())?;
        Ok(Answer { reply, changed })
    }

    // The supervisor wasn't asked.
    fn unasked(alloc: Global, reason: &str) -> Result<Answer, AllocError> {
        Answer::to_question(alloc, reason.as_bytes())
    }
}

// Whether the request is written as it was read.
fn is_written_again(alloc: Global, request: &Request, text: &[u8]) -> Result<bool, AllocError> {
    let mut line = Vec::new(alloc);
    request.append_to(&mut line)?;
    Ok(line.as_slice() == text)
}

// Whose descriptors changed: a process and a segment number each, in octal, or `none`.
fn changed_text(alloc: Global, changes: &[Change]) -> Result<Vec<u8>, AllocError> {
    let mut text = Vec::new(alloc);
    for change in changes {
        if !text.is_empty() {
            text.extend_from_slice(b" ")?;
        }
        push_change(&mut text, change)?;
    }
    if text.is_empty() {
        text.extend_from_slice(b"none")?;
    }
    Ok(text)
}

fn push_change(text: &mut Vec<u8>, change: &Change) -> Result<(), AllocError> {
    let mut buffer = Buffer::new();
    text.extend_from_slice(buffer.format(change.process).as_bytes())?;
    text.extend_from_slice(b"|")?;
    write_octal(text, u64::from(change.segno))
}

/// What is told of readiness.
pub fn readiness_text(ready: Option<bool>) -> &'static [u8] {
    match ready {
        Some(true) => b"yes",
        Some(false) => b"no",
        None => b"no such process",
    }
}

/// What is told of a descriptor: `unknown`, `gone`, or its modes, brackets, gates, page and words, and how the authorization
/// stands to the class where they are not equal.
pub fn descriptor_text(alloc: Global, desc: Option<Desc>) -> Result<Vec<u8>, AllocError> {
    match desc {
        Some(desc) => text_of(alloc, &desc),
        None => Vec::from_slice(alloc, b"no such process"),
    }
}

fn text_of(alloc: Global, desc: &Desc) -> Result<Vec<u8>, AllocError> {
    match desc.kind() {
        DescKind::Unknown => Vec::from_slice(alloc, b"unknown"),
        DescKind::Gone => Vec::from_slice(alloc, b"gone"),
        DescKind::Segment => segment_text(alloc, desc),
    }
}

fn segment_text(alloc: Global, desc: &Desc) -> Result<Vec<u8>, AllocError> {
    let brackets = desc.brackets();
    let mut text = Vec::new(alloc);
    text.extend_from_slice(flags_text(desc.r(), desc.e(), desc.w()))?;
    push_number(&mut text, b" ", u32::from(brackets.r1().number()))?;
    push_number(&mut text, b" ", u32::from(brackets.r2().number()))?;
    push_number(&mut text, b" ", u32::from(brackets.r3().number()))?;
    push_number(&mut text, b" gate ", u32::from(desc.gate()))?;
    push_number(&mut text, b" page ", u32::from(desc.page()))?;
    push_number(&mut text, b" words ", u32::from(desc.bound()))?;
    text.extend_from_slice(aim_text(desc.aim()))?;
    Ok(text)
}

fn flags_text(r: bool, e: bool, w: bool) -> &'static [u8] {
    match (r, e, w) {
        (false, false, false) => b"null",
        (true, false, false) => b"r",
        (false, true, false) => b"e",
        (false, false, true) => b"w",
        (true, true, false) => b"re",
        (true, false, true) => b"rw",
        (false, true, true) => b"ew",
        (true, true, true) => b"rew",
    }
}

fn aim_text(aim: Aim) -> &'static [u8] {
    match aim {
        Aim::Equal => b"",
        Aim::Dominates => b" dominates",
        Aim::Neither => b" neither",
    }
}

fn push_number(text: &mut Vec<u8>, before: &[u8], number: u32) -> Result<(), AllocError> {
    let mut buffer = Buffer::new();
    text.extend_from_slice(before)?;
    text.extend_from_slice(buffer.format(number).as_bytes())
}
