//! What a line of the text is made of, added to bytes.

ghost use Rattle.std.specs.Prelude.{◌≡◌, ◌++◌, ◌+◌, ◌-◌, ◌<◌, suc, codes, OnOk};
ghost use Rattle.std.specs.Fmt.{decimal};
ghost use Rattle.mx_script.specs.declared.lines.Line.TheVariants.{Ask};
ghost use Rattle.mx_show.specs.Lines.{authorization_text, counts_text, heading_text, head_text, left_text, told_line};
ghost use Rattle.mx_show.specs.Printing.{IsToldBehind, IsLineBehind};

use crate::telling::Teller;
use itoa::Buffer;
use mx_aim::Class;
use mx_name::cut;
use mx_request::{Entrant, Request, SharedRequest};
use mx_script::Line;
use mx_sdw::{Word, write_octal};
use mx_transcript::{Event2, Result2};
use std::alloc::{AllocError, Global};

/// Adds how many processes and journal entries there are, and whose lines come first.
pub fn add_opening(out: &mut Vec<u8>, processes: usize, entries: usize) -> Result<(), AllocError>
    ensures { OnOk result (out.new.items ≡ out.old.items ++ counts_text processes entries) }
{
    add_labelled(out, b"processes: ", processes as u64)?;
    add_labelled(out, b"; journal entries: ", entries as u64)?;
    out.extend_from_slice(b"\n\nsetup: Initializer.SysDaemon.z in ring 0\n")
}

/// Adds whose lines come.
pub fn add_heading(out: &mut Vec<u8>, process: u8, entrant: &Entrant) -> Result<(), AllocError>
    ensures { OnOk result (out.new.items ≡ out.old.items ++ heading_text process entrant.now) }
{
    add_labelled(out, b"\nprocess ", u64::from(process))?;
    out.extend_from_slice(b": ")?;
    entrant.who.append_to(out)?;
    add_authorization(out, entrant.authorization)?;
    out.extend_from_slice(b", from ring 4\n")
}

// Adds the authorization of a process; nothing where it is the lowest.
fn add_authorization(out: &mut Vec<u8>, class: Class) -> Result<(), AllocError>
    ensures { OnOk result (out.new.items ≡ out.old.items ++ authorization_text class) }
{
    if class.equals(&Class::lowest()) {
        return Ok(());
    }
    out.extend_from_slice(b" of class ")?;
    write_octal(out, u64::from(class.level()))?;
    out.extend_from_slice(b":")?;
    write_octal(out, u64::from(class.categories()))
}

/// Adds a line of the setup, and what is told of it.
pub fn add_request_line(
    alloc: Global,
    out: &mut Vec<u8>,
    number: u32,
    request: &SharedRequest,
    teller: &mut Teller,
    events: &[Event2],
    ends: Result2,
) -> Result<(), AllocError>
    ensures { OnOk result (IsLineBehind number (Ask request.now) out.old.items out.new.items) }
{
    add_request_head(out, number, request.request())?;
    let mut told = String::new(alloc);
    teller.add_step(alloc, &mut told, None, events, ends)?;
    add_told(out, told.as_bytes())
}

/// Adds a line of a script, and what is told of it; of a logout also which segment numbers the process was given.
pub fn add_script_line(
    alloc: Global,
    out: &mut Vec<u8>,
    number: u32,
    line: &Line,
    teller: &mut Teller,
    events: &[Event2],
    ends: Result2,
) -> Result<(), AllocError>
    ensures { OnOk result (IsLineBehind number line.now out.old.items out.new.items) }
{
    add_line_head(out, number, line)?;
    let mut told = String::new(alloc);
    teller.add_step(alloc, &mut told, word_set(line), events, ends)?;
    if is_logout(line) {
        teller.add_numbers(&mut told)?;
    }
    add_told(out, told.as_bytes())
}

/// Adds which lines were left out, from this number up to that one, which is not among them; nothing where none were.
pub fn add_left_out(out: &mut Vec<u8>, from: u64, to: u64) -> Result<(), AllocError>
    ensures { OnOk result (out.new.items ≡ out.old.items ++ left_text from (to - from)) }
{
    match to.saturating_sub(from) {
        0 => Ok(()),
        1 => add_line_left_out(out, from),
        _ => add_lines_left_out(out, from, to - 1),
    }
}

fn add_line_left_out(out: &mut Vec<u8>, number: u64) -> Result<(), AllocError>
    ensures { OnOk result (out.new.items ≡ out.old.items ++ left_text number (suc 0)) }
{
    add_labelled(out, b"line ", number)?;
    out.extend_from_slice(b" is left out: the process is logged out\n")
}

fn add_lines_left_out(out: &mut Vec<u8>, first: u64, last: u64) -> Result<(), AllocError>
    requires { first < last }
    ensures { OnOk result (out.new.items ≡ out.old.items ++ left_text first (suc (last - first))) }
{
    add_labelled(out, b"lines ", first)?;
    add_labelled(out, b" to ", last)?;
    out.extend_from_slice(b" are left out: the process is logged out\n")
}

fn add_request_head(out: &mut Vec<u8>, number: u32, request: &Request) -> Result<(), AllocError>
    ensures { OnOk result (out.new.items ≡ out.old.items ++ head_text number (Ask request.now)) }
{
    add_labelled(out, b"line ", u64::from(number))?;
    out.extend_from_slice(b": ")?;
    request.append_to(out)?;
    out.extend_from_slice(b"\n")
}

fn add_line_head(out: &mut Vec<u8>, number: u32, line: &Line) -> Result<(), AllocError>
    ensures { OnOk result (out.new.items ≡ out.old.items ++ head_text number line.now) }
{
    add_labelled(out, b"line ", u64::from(number))?;
    out.extend_from_slice(b": ")?;
    line.append_to(out)?;
    out.extend_from_slice(b"\n")
}

/// The word of a line that sets A.
pub fn word_set(line: &Line) -> Option<Word> {
    match line {
        Line::Set { word } => Some(*word),
        _ => None,
    }
}

// Whether a line is the logout.
fn is_logout(line: &Line) -> bool {
    match line {
        Line::Ask(asked) => matches!(asked.request(), Request::Logout),
        _ => false,
    }
}

// Adds words, which end with a newline: each line behind four spaces.
fn add_told(out: &mut Vec<u8>, told: &[u8]) -> Result<(), AllocError>
    ensures { OnOk result (IsToldBehind out.old.items out.new.items) }
{
    let mut rest = told;
    while let Some((line, after)) = cut(b'\n', rest) {
        add_told_line(out, line)?;
        rest = after;
    }
    Ok(())
}

fn add_told_line(out: &mut Vec<u8>, line: &[u8]) -> Result<(), AllocError>
    ensures { OnOk result (out.new.items ≡ out.old.items ++ told_line line.now) }
{
    out.extend_from_slice(b"    ")?;
    out.extend_from_slice(line)?;
    out.extend_from_slice(b"\n")
}

// Adds a label and then the number.
fn add_labelled(out: &mut Vec<u8>, label: &[u8], n: u64) -> Result<(), AllocError>
    ensures { OnOk result (out.new.items ≡ out.old.items ++ (label.now ++ decimal n)) }
{
    let mut buffer = Buffer::new();
    out.extend_from_slice(label)?;
    out.extend_from_slice(buffer.format(n).as_bytes())
}
