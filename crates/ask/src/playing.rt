//! A file of requests, played line by line.

ghost use Rattle.std.specs.Prelude.{◌<◌, length};

use crate::lines::{Asked, Line, read_line};
use crate::outcome::{Outcome, judge};
use crate::plays::{Answer, Play, descriptor_text, readiness_text};
use itoa::Buffer;
use mx_aim::Class;
use mx_name::{Principal, cut};
use mx_request::{Entrant, has_classes};
use std::alloc::{AllocError, Global};

/// What came of a file: a line for each that came otherwise than told and for each reply that is not told, and what came of each line.
#[derive(Drop)]
pub struct Account {
    pub report: Vec<u8>,
    pub outcomes: Vec<Outcome>,
}

// The version of the plays to come, the play of the moment, and the answer to its latest request.
#[derive(Drop)]
struct Stage {
    version: u8,
    play: Option<Play>,
    latest: Option<Answer>,
}

// What came of one line, with what is said of it.
#[derive(Drop)]
struct Step {
    outcome: Outcome,
    note: Option<Vec<u8>>,
}

/// Plays a file of this name and text.
pub fn play(alloc: Global, name: &str, text: &[u8]) -> Result<Account, AllocError> {
    let lines = text
        .split(|byte| *byte == b'\n')
        .collect::<Vec<&[u8]>>(alloc)?;
    let mut account = Account {
        report: Vec::new(alloc),
        outcomes: Vec::new(alloc),
    };
    play_lines(alloc, name, &lines, &mut account)?;
    Ok(account)
}

fn play_lines(
    alloc: Global,
    name: &str,
    lines: &[&[u8]],
    account: &mut Account,
) -> Result<(), AllocError> {
    let mut stage = Stage {
        version: 1,
        play: None,
        latest: None,
    };
    stage.play(alloc, name, lines, account)
}

// Whether the line at a place tells a reply.
fn tells_reply(lines: &[&[u8]], place: usize) -> bool {
    match lines.get(place) {
        Some(line) => line.starts_with(b"= "),
        None => false,
    }
}

impl Account {
    fn add(&mut self, name: &str, number: usize, step: &Step) -> Result<(), AllocError> {
        if let Some(note) = &step.note {
            push_note(&mut self.report, name, number, note)?;
        }
        self.outcomes.extend_from_slice(&[step.outcome])
    }
}

fn push_note(
    report: &mut Vec<u8>,
    name: &str,
    number: usize,
    note: &[u8],
) -> Result<(), AllocError> {
    let mut buffer = Buffer::new();
    report.extend_from_slice(name.as_bytes())?;
    report.extend_from_slice(b", line ")?;
    report.extend_from_slice(buffer.format(number).as_bytes())?;
    report.extend_from_slice(b": ")?;
    report.extend_from_slice(note)?;
    report.extend_from_slice(b"\n")
}

impl Stage {
    fn play(
        &mut self,
        alloc: Global,
        name: &str,
        lines: &[&[u8]],
        account: &mut Account,
    ) -> Result<(), AllocError> {
        for place in 0..lines.len() {
            self.play_line(alloc, name, lines, place, account)?;
        }
        Ok(())
    }

    fn play_line(
        &mut self,
        alloc: Global,
        name: &str,
        lines: &[&[u8]],
        place: usize,
        account: &mut Account,
    ) -> Result<(), AllocError>
        requires { place < length lines.now }
    {
        let is_told = tells_reply(lines, place + 1);
        let step = self.step(alloc, lines[place], is_told)?;
        account.add(name, place + 1, &step)
    }

    fn step(&mut self, alloc: Global, line: &[u8], is_told: bool) -> Result<Step, AllocError> {
        match read_line(line) {
            Line::Nothing => Ok(Step {
                outcome: Outcome::Untold,
                note: None,
            }),
            Line::Version(version) => {
                self.version = version;
                Ok(Step {
                    outcome: Outcome::Untold,
                    note: None,
                })
            }
            Line::Processes(principals) => self.open(alloc, principals),
            Line::Asked(asked) => self.ask(alloc, &asked, is_told),
            Line::Ready(p) => {
                let ready = self.play.as_ref().and_then(|play| play.ready(p));
                self.tell(alloc, readiness_text(ready), is_told)
            }
            Line::Descriptor(p, segno) => {
                let desc = self
                    .play
                    .as_ref()
                    .and_then(|play| play.descriptor(p, segno));
                let text = descriptor_text(alloc, desc)?;
                self.tell(alloc, &text, is_told)
            }
            Line::Told(told) => {
                let latest = self.latest.as_ref();
                compared(alloc, told, latest.map(|answer| answer.reply.as_slice()))
            }
            Line::Changed(told) => {
                let latest = self.latest.as_ref();
                compared(alloc, told, latest.map(|answer| answer.changed.as_slice()))
            }
            Line::Unknown => Step::wrong(alloc, b"no line of a play"),
        }
    }

    // A new play.
    fn open(&mut self, alloc: Global, principals: &[u8]) -> Result<Step, AllocError> {
        self.latest = None;
        self.play = opened(alloc, principals, self.version)?;
        if self.play.is_some() {
            Ok(Step {
                outcome: Outcome::Untold,
                note: None,
            })
        } else {
            Step::wrong(alloc, b"no principals of 1 to 15 processes")
        }
    }

    // The answer to a question from without. One that is not told is said.
    fn tell(&mut self, alloc: Global, text: &[u8], is_told: bool) -> Result<Step, AllocError> {
        let answer = Answer::to_question(alloc, text)?;
        let step = Step::of_request(alloc, &answer, is_told)?;
        self.latest = Some(answer);
        Ok(step)
    }

    // The next request. A reply that is not told is said.
    fn ask(&mut self, alloc: Global, asked: &Asked<'_>, is_told: bool) -> Result<Step, AllocError> {
        match &mut self.play {
            None => Step::wrong(alloc, b"no processes"),
            Some(play) => {
                let answer = play.ask(alloc, asked.process, asked.ring, asked.request)?;
                let step = Step::of_request(alloc, &answer, is_told)?;
                self.latest = Some(answer);
                Ok(step)
            }
        }
    }
}

impl Step {
    fn of_request(alloc: Global, answer: &Answer, is_told: bool) -> Result<Step, AllocError> {
        let note = if is_told {
            None
        } else {
            Some(Vec::from_slice(alloc, &answer.reply)?)
        };
        Ok(Step {
            outcome: Outcome::Untold,
            note,
        })
    }

    fn wrong(alloc: Global, why: &[u8]) -> Result<Step, AllocError> {
        Ok(Step {
            outcome: Outcome::Otherwise,
            note: Some(Vec::from_slice(alloc, why)?),
        })
    }
}

// What is told beside what came.
fn compared(alloc: Global, told: &[u8], came: Option<&[u8]>) -> Result<Step, AllocError> {
    let outcome = judge(told, came);
    let note = if outcome == Outcome::AsTold {
        None
    } else {
        Some(difference(alloc, told, came)?)
    };
    Ok(Step { outcome, note })
}

fn difference(alloc: Global, told: &[u8], came: Option<&[u8]>) -> Result<Vec<u8>, AllocError> {
    let mut note = Vec::new(alloc);
    note.extend_from_slice(b"told ")?;
    note.extend_from_slice(told)?;
    note.extend_from_slice(b", came ")?;
    note.extend_from_slice(came.unwrap_or(b"nothing"))?;
    Ok(note)
}

// A play of these processes, in this version.
fn opened(alloc: Global, principals: &[u8], version: u8) -> Result<Option<Play>, AllocError> {
    match read_entrants(alloc, principals, version)? {
        Some(entrants) => Play::open(alloc, &entrants, version),
        None => Ok(None),
    }
}

// The processes that a text names, one blank between each two.
fn read_entrants(
    alloc: Global,
    text: &[u8],
    version: u8,
) -> Result<Option<Vec<Entrant>>, AllocError> {
    let mut entrants = Vec::new(alloc);
    for part in text.split(|byte| *byte == b' ') {
        match read_entrant(part, version) {
            Some(entrant) => entrants.push(entrant)?,
            None => return Ok(None),
        }
    }
    Ok(Some(entrants))
}

// `PRINCIPAL`, or in a version with classes `PRINCIPAL=CLASS`.
fn read_entrant(text: &[u8], version: u8) -> Option<Entrant> {
    let (who, authorization) = match cut(b'=', text) {
        Some((who, class)) if has_classes(version) => (who, Class::read(class)?),
        _ => (text, Class::lowest()),
    };
    Some(Entrant {
        who: Principal::read(who).ok()?,
        authorization,
    })
}
