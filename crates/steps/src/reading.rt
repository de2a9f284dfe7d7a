//! What the words of a line are read as.

use crate::lines::{Line, Question};
use crate::numbers::{address, byte, descriptor, number, ring, segno, short, value};
use mx_core::{Change, Changes, Run, Runs, Step, Steps};
use mx_list::Sequence;
use mx_sdw::{Op, Ring};
use std::alloc::{AllocError, Global};

/// What a line is read as, where it says something.
pub fn read_line(alloc: Global, text: &str) -> Result<Option<Line>, AllocError> {
    let words: Vec<&str> = text.split_whitespace().collect(alloc)?;
    match plain_line(&words) {
        Some(line) => Ok(Some(line)),
        None => steps_line(alloc, text),
    }
}

fn plain_line(words: &[&str]) -> Option<Line> {
    match table_line(words) {
        Some(line) => Some(line),
        None => Some(Line::Question(question(words)?)),
    }
}

fn steps_line(alloc: Global, text: &str) -> Result<Option<Line>, AllocError> {
    let mut steps = Sequence::new(alloc);
    if add_steps(alloc, text, &mut steps)? {
        Ok(Some(Line::Steps(steps)))
    } else {
        Ok(None)
    }
}

// Adds steps with `; ` between each two, where each says something.
fn add_steps(alloc: Global, text: &str, steps: &mut Steps) -> Result<bool, AllocError> {
    for part in text.split("; ") {
        match step(alloc, part)? {
            Some(step) => steps.push(step)?,
            None => return Ok(false),
        }
    }
    Ok(true)
}

fn step(alloc: Global, text: &str) -> Result<Option<Step>, AllocError> {
    if text.starts_with("append ") {
        return append(alloc, text);
    }
    let words: Vec<&str> = text.split_whitespace().collect(alloc)?;
    Ok(plain_step(&words))
}

// A line on the table with which a world opens.
fn table_line(words: &[&str]) -> Option<Line> {
    match words {
        ["world", processes, numbers, start] => world(processes, numbers, start),
        ["may_open", processes, start] => may_open(processes, start),
        ["knows", process, named, desc @ ..] => knows(process, named, desc),
        _ => None,
    }
}

fn world(processes: &str, numbers: &str, start: &str) -> Option<Line> {
    Some(Line::World {
        processes: byte(processes)?,
        numbers: short(numbers)?,
        start: number(start)?,
    })
}

fn may_open(processes: &str, start: &str) -> Option<Line> {
    Some(Line::MayOpen {
        processes: byte(processes)?,
        start: number(start)?,
    })
}

fn knows(process: &str, named: &str, desc: &[&str]) -> Option<Line> {
    Some(Line::Knows {
        process: byte(process)?,
        segno: segno(named)?,
        desc: descriptor(desc)?,
    })
}

fn question(words: &[&str]) -> Option<Question> {
    match words {
        ["length"] => Some(Question::Length),
        ["answered"] => Some(Question::Answered),
        [word, of] => question_of(word, of),
        [word, process, of] => question_in(word, byte(process)?, of),
        _ => None,
    }
}

fn question_of(word: &str, of: &str) -> Option<Question> {
    match word {
        "cell" => Some(Question::Cell(number(of)?)),
        "floor" => Some(Question::Floor(byte(of)?)),
        _ => None,
    }
}

fn question_in(word: &str, process: u8, of: &str) -> Option<Question> {
    match word {
        "word" => Some(Question::Word {
            process,
            segno: segno(of)?,
        }),
        "event" => Some(Question::Event {
            process,
            place: usize::from(short(of)?),
        }),
        _ => None,
    }
}

// A step that is no `append`.
fn plain_step(words: &[&str]) -> Option<Step> {
    match words {
        ["answer"] => Some(Step::Answer),
        ["split"] => Some(Step::Split),
        ["clear", cell] => Some(Step::Clear {
            cell: number(cell)?,
        }),
        [word, process] => step_by(word, byte(process)?),
        [word, process, of] => step_of(word, byte(process)?, of),
        [word, process, asked @ ..] => judging_step(word, byte(process)?, asked),
        _ => None,
    }
}

// `WORD PROCESS`.
fn step_by(word: &str, process: u8) -> Option<Step> {
    match word {
        "connect" => Some(Step::Connect { process }),
        "look" => Some(Step::Look { process }),
        "acknowledge" => Some(Step::Acknowledge { process }),
        "enter" => Some(Step::Enter { process }),
        "load_connect" => Some(Step::LoadConnect { process }),
        "load_cell" => Some(Step::LoadCell { process }),
        "leave" => Some(Step::Leave { process }),
        _ => None,
    }
}

// `WORD PROCESS NUMBER`, where the number is of a segment, a length, a note, or a word to store.
fn step_of(word: &str, process: u8, of: &str) -> Option<Step> {
    match word {
        "strike" => Some(Step::Strike {
            process,
            segno: segno(of)?,
        }),
        "settle" => Some(Step::Settle {
            process,
            segno: segno(of)?,
        }),
        "report" => Some(Step::Report {
            process,
            length: number(of)?,
        }),
        "store_cell" => Some(Step::StoreCell {
            process,
            value: value(of)?,
        }),
        "join" => Some(Step::Join {
            process,
            note: number(of)?,
        }),
        _ => None,
    }
}

fn judging_step(name: &str, process: u8, asked: &[&str]) -> Option<Step> {
    let (segno, op, ring, word) = reference(asked)?;
    match name {
        "load_desc" => Some(Step::LoadDesc {
            process,
            segno,
            op,
            ring,
            word,
        }),
        "recall" => Some(Step::Recall {
            process,
            segno,
            op,
            ring,
            word,
        }),
        _ => None,
    }
}

// `OP S|W ring R`, where a call also says `from R` and may say `same`: that the segment is the one that runs.
fn reference(words: &[&str]) -> Option<(u16, Op, Ring, u16)> {
    match words {
        [op, named, "ring", effective] => referred(plain_operation(op)?, named, effective),
        ["call", named, "ring", effective, "from", more @ ..] => {
            referred(calling(more)?, named, effective)
        }
        _ => None,
    }
}

fn referred(op: Op, named: &str, effective: &str) -> Option<(u16, Op, Ring, u16)> {
    let (segno, word) = address(named)?;
    Some((segno, op, ring(effective)?, word))
}

fn plain_operation(word: &str) -> Option<Op> {
    match word {
        "read" => Some(Op::Read),
        "indirect" => Some(Op::Indirect),
        "write" => Some(Op::Write),
        "fetch" => Some(Op::Fetch),
        "return" => Some(Op::Return),
        _ => None,
    }
}

fn calling(words: &[&str]) -> Option<Op> {
    match words {
        [current] => Some(Op::Call {
            current: ring(current)?,
            same: false,
            upward: false,
        }),
        [current, "same"] => Some(Op::Call {
            current: ring(current)?,
            same: true,
            upward: false,
        }),
        _ => None,
    }
}

// `append PROCESS{, change PROCESS S DESCRIPTOR}{, pages FIRST COUNT}`: an entry, with the pages that it gives out.
fn append(alloc: Global, text: &str) -> Result<Option<Step>, AllocError> {
    let (mut changes, mut given) = (Sequence::new(alloc), Sequence::new(alloc));
    match add_parts(alloc, text, &mut changes, &mut given)? {
        Some(process) => Ok(Some(Step::Append {
            process,
            changes,
            given,
        })),
        None => Ok(None),
    }
}

// Adds what the parts of an entry say, and answers whose it is, where each says something.
fn add_parts(
    alloc: Global,
    text: &str,
    changes: &mut Changes,
    given: &mut Runs,
) -> Result<Option<u8>, AllocError> {
    let mut process = None;
    for part in text.split(", ") {
        let words: Vec<&str> = part.split_whitespace().collect(alloc)?;
        if let Some(one) = appending(&words) {
            process = Some(one);
        } else if !add_part(&words, changes, given)? {
            return Ok(None);
        }
    }
    Ok(process)
}

fn appending(words: &[&str]) -> Option<u8> {
    match words {
        ["append", process] => byte(process),
        _ => None,
    }
}

// Adds what a part of an entry says, where it says something.
fn add_part(part: &[&str], changes: &mut Changes, given: &mut Runs) -> Result<bool, AllocError> {
    if let Some(change) = change(part) {
        changes.push(change)?;
        return Ok(true);
    }
    if let Some(run) = run(part) {
        given.push(run)?;
        return Ok(true);
    }
    Ok(false)
}

fn change(words: &[&str]) -> Option<Change> {
    match words {
        ["change", process, named, desc @ ..] => Some(Change {
            process: byte(process)?,
            segno: segno(named)?,
            desc: descriptor(desc)?,
        }),
        _ => None,
    }
}

fn run(words: &[&str]) -> Option<Run> {
    match words {
        ["pages", first, count] => Some(Run {
            page: short(first)?,
            pages: short(count)?,
        }),
        _ => None,
    }
}
