//! The lines of the scripts, each with its process and its number.

ghost use Rattle.std.specs.Prelude.{◌≡◌, ◌≤◌, ◌<◌, ◌+◌, ◌^◌, ◌++◌, length, map, IfOk, OnOk};
ghost use Rattle.std.specs.List.{sum_by};
ghost use Rattle.std.specs.Option.{option_map};
ghost use Rattle.mx_outcomes.specs.Exploring.{plain};
ghost use Rattle.mx_outcomes.specs.OutcomesTexts.{numbered, numbered_scripts, script_lines, is_line, place_from};

use mx_script::{Line, Script, Session};
use mx_transcript::first_line;
use std::alloc::{AllocError, Global};

/// A line of a script, its process, and its number in the text of the session.
#[derive(Clone, Copy)]
pub(crate) struct ScriptLine<'a> {
    pub(crate) process: u8,
    pub(crate) number: u32,
    pub(crate) line: &'a Line,
}

/// All lines of the scripts, one process after another.
pub(crate) fn script_lines(
    alloc: Global,
    session: &Session,
) -> Result<Vec<ScriptLine<'_>>, AllocError>
    ensures { IfOk result (λ lines. map plain lines.items ≡ script_lines session.now) }
{
    let mut lines = Vec::new(alloc);
    let number = first_line(session, 1);
    add_scripts(&mut lines, 1, number, session.scripts().items())?;
    Ok(lines)
}

// Adds the lines of the scripts from this process on, whose first line has this number.
fn add_scripts<'a>(
    lines: &mut Vec<ScriptLine<'a>>,
    process: u8,
    number: u32,
    scripts: &'a [Script],
) -> Result<(), AllocError>
    requires few { process + length scripts.now ≤ 16 }
    requires fits { number + length scripts.now + sum_by length scripts.now < 2 ^ 32 }
    ensures { OnOk result (map plain lines.new.items ≡ map plain lines.old.items ++ numbered_scripts process number scripts.now) }
{
    match scripts {
        [] => Ok(()),
        [script, rest @ ..] => {
            let script = script.items();
            add_script(lines, process, number, script)?;
            add_scripts(lines, process + 1, number + script.len() as u32 + 1, rest)
        }
    }
}

// Adds the lines of a script.
fn add_script<'a>(
    lines: &mut Vec<ScriptLine<'a>>,
    process: u8,
    number: u32,
    script: &'a [Line],
) -> Result<(), AllocError>
    requires { number + length script.now < 2 ^ 32 }
    ensures { OnOk result (map plain lines.new.items ≡ map plain lines.old.items ++ numbered process number script.now) }
{
    for (place, line) in script.iter().enumerate() {
        lines.push(ScriptLine {
            process,
            number: number + place as u32,
            line,
        })?;
    }
    Ok(())
}

/// The first line of this process and number, and its place.
pub(crate) fn find_line<'a>(
    lines: &[ScriptLine<'a>],
    process: u8,
    number: u32,
) -> Option<(usize, ScriptLine<'a>)>
    ensures { option_map (λ found. (found.0, plain found.1)) result ≡ place_from process number 0 (map plain lines.now) }
{
    for (place, line) in lines.iter().enumerate() {
        if is_line(line, process, number) {
            return Some((place, *line));
        }
    }
    None
}

fn is_line(line: &ScriptLine<'_>, process: u8, number: u32) -> bool
    ensures { result ≡ is_line process number (plain line.now) }
{
    line.process == process && line.number == number
}
