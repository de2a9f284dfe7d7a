//! The first bad line of a text, explained.

ghost use Rattle.std.specs.Prelude.{◌≡◌, ◌<◌, ◌++◌, ℕ, List, length, IfOk, OnOk};
ghost use Rattle.mx_script.specs.FirstBadLine.{IsFirstBad};
ghost use Rattle.mx_lint.specs.Diagnoses.{IsAbout, IsFinding};
ghost use Rattle.mx_lint.specs.Forms.{form_named};
ghost use Rattle.mx_name.specs.Cuts.{cut_at};
ghost use Rattle.mx_lint.specs.Lines.{behind_line, first_line, is_last, without_lines};
ghost use Rattle.mx_lint.specs.Pieces.{first_piece};
ghost use Rattle.mx_lint.specs.Places.{place_behind};
ghost use Rattle.mx_lint.specs.Versions.{version_said};

use crate::faults::{Fault, fault_of};
use crate::forms::Form;
use crate::places::Place;
use crate::texts::Shown;
use itoa::Buffer;
use mx_name::cut;
use mx_script::{Session, SessionError, read_session};
use std::alloc::{AllocError, Global};

/// The first bad line of a text that is no session: its number, counted from 1, its text without the newline, and what is
/// wrong with it. Where the text ends too early it is the empty line that should come next.
#[derive(Clone, Copy)]
pub struct Diagnosis<'a> {
    pub number: u32,
    pub text: &'a [u8],
    pub fault: Fault<'a>,
}

/// What is found in a text.
#[derive(Drop)]
pub enum Finding<'a> {
    /// It is the text of this session.
    Good(Session),
    /// It is the text of no session.
    Bad(Diagnosis<'a>),
}

/// The session that has this text, or the first bad line: the one that `read_session` names, explained. Takes time linear in the
/// text. The only error is want of memory.
pub fn lint(alloc: Global, bytes: &[u8]) -> Result<Finding<'_>, AllocError>
    requires { length bytes.now < 4294967295 }
    ensures { IfOk result (IsFinding bytes.now) }
{
    match read_session(alloc, bytes) {
        Ok(session) => Ok(Finding::Good(session)),
        Err(SessionError::Memory) => Err(AllocError),
        Err(SessionError::BadLine(number)) => diagnose(alloc, bytes, number),
    }
}

// The first bad line, which has this number, explained.
fn diagnose(alloc: Global, bytes: &[u8], number: u32) -> Result<Finding<'_>, AllocError>
    requires { IsFirstBad bytes.now number }
    ensures { IfOk result (IsFinding bytes.now) }
{
    let (place, rest) = approach(bytes, number.saturating_sub(1));
    let (text, ends) = first_line(rest);
    let fault = fault_of(alloc, version_of(bytes), place, text, ends)?;
    Ok(Finding::Bad(Diagnosis {
        number,
        text,
        fault,
    }))
}

// The place behind so many good lines, and what is left of the text there.
fn approach(bytes: &[u8], lines: u32) -> (Place, &[u8])
    ensures place { result.0 ≡ place_behind lines bytes.now }
    ensures rest { result.1.now ≡ without_lines lines bytes.now }
{
    let mut place = Place::Start;
    let mut rest = bytes;
    for _line in 0..lines {
        let (line, after) = split_line(rest);
        place = place.behind(form_of(line));
        rest = after;
    }
    (place, rest)
}

// The first line of a text, and what is behind its newline.
fn split_line(text: &[u8]) -> (&[u8], &[u8])
    ensures line { result.0.now ≡ first_line text.now }
    ensures rest { result.1.now ≡ behind_line (cut_at 10 text.now) }
{
    match cut(b'\n', text) {
        Some(parts) => parts,
        None => (text, &text[text.len()..]),
    }
}

// The version that the first line says; 1 where it says none.
fn version_of(bytes: &[u8]) -> u8
    ensures { result ≡ version_said bytes.now }
{
    let (line, _) = first_line(bytes);
    if line == b"multics 2".as_slice() {
        2
    } else if line == b"multics 3".as_slice() {
        3
    } else if line == b"multics 4".as_slice() {
        4
    } else {
        1
    }
}

// The kind of a line, by its first word.
fn form_of(line: &[u8]) -> Option<Form>
    ensures { result ≡ form_named (first_piece line.now) }
{
    match cut(b' ', line) {
        Some((word, _)) => Form::read(word),
        None => Form::read(line),
    }
}

// The first line of a text, and whether the text ends with it.
fn first_line(text: &[u8]) -> (&[u8], bool)
    ensures line { result.0.now ≡ first_line text.now }
    ensures ends { result.1 ≡ is_last text.now }
{
    match cut(b'\n', text) {
        Some((line, _)) => (line, false),
        None => (text, true),
    }
}

impl<'a> Diagnosis<'a> {
    /// The diagnosis in words: `line N:` and what is wrong, then the line as far as it is there, and a line of its kind.
    pub fn text(&self, alloc: Global) -> Result<Vec<u8>, AllocError>
        ensures { IfOk result (λ text. IsAbout text.items self.now.number) }
    {
        let mut text = Vec::from_slice(alloc, b"line ")?;
        let mut buffer = Buffer::new();
        text.extend_from_slice(buffer.format(self.number).as_bytes())?;
        let words = format!(in alloc; ": {}\n", self.fault)?;
        text.extend_from_slice(words.as_bytes())?;
        self.add_line(alloc, &mut text)?;
        Ok(text)
    }

    // The line itself, and a line of its kind.
    fn add_line(&self, alloc: Global, out: &mut Vec<u8>) -> Result<(), AllocError>
        ensures { OnOk result ((more : List ℕ) × (out.new.items ≡ out.old.items ++ more)) }
    {
        let line = match self.fault {
            Fault::TextEnds(_) => String::new(alloc),
            _ => format!(in alloc; "    {}\n", Shown(self.text))?,
        };
        out.extend_from_slice(line.as_bytes())?;
        let example = match self.fault.form() {
            Some(form) => format!(in alloc; "such a line: {}\n", form.example())?,
            None => String::new(alloc),
        };
        out.extend_from_slice(example.as_bytes())
    }
}
