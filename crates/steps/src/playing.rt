//! The lines of a file, played over a world.

ghost use Rattle.std.specs.Prelude.{◌≡◌, ◌≤◌, ◌↔◌, IsTrue};
ghost use Rattle.mx_core.specs.Steps.{CanAll, after_all};
ghost use Rattle.mx_core.specs.World.{World as WorldValue};
ghost use Rattle.mx_core.specs.declared.steps.Cause.{Cause};
ghost use Rattle.mx_core.specs.declared.steps.StepError.TheVariants.{NotEnabled};
ghost use Rattle.mx_worlds.specs.Running.{StopsAt};
ghost use Rattle.mx_worlds.specs.Shows.{Shows};

use crate::came::Came;
use crate::lines::{Line, Question};
use crate::outcome::{Compared, Outcome, compare, outcome_of};
use crate::reading::read_line;
use mx_core::{DescriptorWord, StepError, Steps};
use mx_sdw::Desc;
use mx_worlds::{DescList, World};
use std::alloc::{AllocError, Global};
use std::fmt::Write;

/// What is played on: the table with which a world is to open, or a world.
enum Stage {
    /// There is neither.
    Nothing,
    /// A world is to open with this table, after so many entries.
    Table { table: DescList, start: u32 },
    /// A world is open.
    World(World),
}

impl Drop for Stage {
    fn drop(self) {
        match self {
            Stage::Nothing => {}
            Stage::Table {
                table: _table,
                start: _start,
            } => {}
            Stage::World(_world) => {}
        }
    }
}

impl Stage {
    // The table of a world that is to open, all of it unknown.
    fn set(
        &mut self,
        alloc: Global,
        processes: u8,
        numbers: u16,
        start: u32,
    ) -> Result<(), AllocError> {
        let table = DescList::new(alloc, processes, numbers)?;
        *self = Stage::Table { table, start };
        Ok(())
    }

    // Gives a number of the table a descriptor, where it has the number.
    fn know(&mut self, process: u8, segno: u16, desc: Desc) -> bool {
        match self {
            Stage::Table { table, .. } => put(table, process, segno, desc),
            Stage::Nothing | Stage::World(_) => false,
        }
    }

    // The world opens where it has not yet, if it may.
    fn open(&mut self, alloc: Global) -> Result<(), AllocError> {
        let opened = match self {
            Stage::Table { table, start } => opened(alloc, table, *start)?,
            Stage::Nothing | Stage::World(_) => return Ok(()),
        };
        *self = opened;
        Ok(())
    }

    fn run(&mut self, alloc: Global, steps: &Steps) -> Result<Turn, AllocError> {
        self.open(alloc)?;
        match self {
            Stage::World(world) => spell_made(alloc, world, steps),
            Stage::Nothing | Stage::Table { .. } => no_world(alloc),
        }
    }

    fn answer(&mut self, alloc: Global, question: Question) -> Result<Turn, AllocError> {
        self.open(alloc)?;
        match self {
            Stage::World(world) => spell_answer(alloc, world, question),
            Stage::Nothing | Stage::Table { .. } => no_world(alloc),
        }
    }

    // Plays one line, and adds what came of it, unless it says nothing.
    fn play_one(
        &mut self,
        alloc: Global,
        name: &str,
        number: usize,
        line: &str,
        report: &mut String,
        compared: &mut Vec<Compared>,
    ) -> Result<bool, AllocError> {
        if line.is_empty() || line.starts_with('#') {
            return Ok(true);
        }
        let (asked, told) = parts(line);
        match play_line(alloc, self, asked)? {
            Turn::Set => Ok(true),
            Turn::Came(came) => {
                let one = compare(told, &came);
                add_line(report, name, number, one, told, &came)?;
                compared.push(one)?;
                Ok(true)
            }
            Turn::NoLine => {
                writeln!(report, "{name}, line {number}: no line of steps")?;
                Ok(false)
            }
        }
    }

    fn may_open(&self, alloc: Global, processes: u8, start: u32) -> Result<Turn, AllocError> {
        match self {
            Stage::Table { table, .. } => {
                spell(alloc, &Came::Answer(table.may_open(processes, start)))
            }
            Stage::Nothing | Stage::World(_) => no_world(alloc),
        }
    }
}

fn put(table: &mut DescList, process: u8, segno: u16, desc: Desc) -> bool {
    if process == 0 || process > table.processes() || segno >= table.numbers() {
        return false;
    }
    table.put(process, segno, desc);
    true
}

// The world that opens with a table, if one may.
fn opened(alloc: Global, table: &DescList, start: u32) -> Result<Stage, AllocError> {
    let processes = table.processes();
    if table.may_open(processes, start) {
        Ok(Stage::World(World::new(alloc, processes, start, table)?))
    } else {
        Ok(Stage::Nothing)
    }
}

fn spell_made(alloc: Global, world: &mut World, steps: &Steps) -> Result<Turn, AllocError> {
    let came = made(world, steps);
    spell(alloc, &came)
}

fn spell_answer(alloc: Global, world: &World, question: Question) -> Result<Turn, AllocError> {
    let came = answer(world, question);
    spell(alloc, &came)
}

fn no_world(alloc: Global) -> Result<Turn, AllocError> {
    spell(alloc, &Came::NoWorld)
}

// Makes steps: they are done exactly where each is enabled, else the first that is not tells its cause.
fn made(world: &mut World, steps: &Steps) -> Came
    ensures done { (w : WorldValue) → Shows world.old w → result ≡ Came.Done
        → CanAll w steps.now × Shows world.new (after_all w steps.now) }
    ensures refused { (w : WorldValue) (cause : Cause) → Shows world.old w → result ≡ Came.Refused cause
        → StopsAt w steps.now (NotEnabled cause) world.new }
{
    match world.run(steps) {
        Ok(()) => Came::Done,
        Err(StepError::NotEnabled(cause)) => Came::Refused(cause),
        Err(StepError::Memory) => Came::Memory,
    }
}

fn answer(world: &World, question: Question) -> Came {
    match question {
        Question::Word { process, segno } if has_process(world, process) => {
            word(world.word(process, segno))
        }
        Question::Cell(cell) if cell < 65_536 => Came::Cell(world.cell(cell)),
        Question::Floor(process) if has_process(world, process) => Came::Number(world.floor(
            process,
        )),
        Question::Event { process, place } if has_process(world, process) => {
            match world.trace(process).get(place) {
                Some(event) => Came::Event(*event),
                None => Came::Nothing,
            }
        }
        Question::Length => Came::Number(world.length()),
        Question::Answered => Came::Number(world.answered()),
        _ => Came::Nothing,
    }
}

fn word(word: DescriptorWord) -> Came {
    match word {
        DescriptorWord::Valid { number, .. } => Came::Valid(number),
        DescriptorWord::Fault { number } => Came::Fault(number),
    }
}

fn has_process(world: &World, process: u8) -> bool
    ensures { IsTrue result ↔ ((1 ≤ process) × (process ≤ world.now.processes)) }
{
    process != 0 && process <= world.processes()
}

/// What a line comes to.
enum Turn {
    /// The table was changed.
    Set,
    /// This came of steps or of a question.
    Came(String),
    /// The line says nothing.
    NoLine,
}

// Plays one line.
fn play_line(alloc: Global, stage: &mut Stage, asked: &str) -> Result<Turn, AllocError> {
    match read_line(alloc, asked)? {
        Some(line) => play_read(alloc, stage, &line),
        None => Ok(Turn::NoLine),
    }
}

fn play_read(alloc: Global, stage: &mut Stage, line: &Line) -> Result<Turn, AllocError> {
    match line {
        Line::World {
            processes,
            numbers,
            start,
        } => {
            stage.set(alloc, *processes, *numbers, *start)?;
            Ok(Turn::Set)
        }
        Line::Knows {
            process,
            segno,
            desc,
        } => {
            if stage.know(*process, *segno, *desc) {
                Ok(Turn::Set)
            } else {
                Ok(Turn::NoLine)
            }
        }
        Line::MayOpen { processes, start } => stage.may_open(alloc, *processes, *start),
        Line::Steps(steps) => stage.run(alloc, steps),
        Line::Question(question) => stage.answer(alloc, *question),
    }
}

fn spell(alloc: Global, came: &Came) -> Result<Turn, AllocError> {
    Ok(Turn::Came(format!(in alloc; "{came}")?))
}

// What a line asks, and what is told of it behind ` = `.
fn parts(line: &str) -> (&str, Option<&str>) {
    match line.split_once(" = ") {
        Some((asked, told)) => (asked, Some(told)),
        None => (line, None),
    }
}

// A line of the report on a line that did not come as told, or beside which nothing is told.
fn add_line(
    report: &mut String,
    name: &str,
    number: usize,
    compared: Compared,
    told: Option<&str>,
    came: &str,
) -> Result<(), AllocError> {
    match (compared, told) {
        (Compared::AsTold, _) => Ok(()),
        (_, Some(told)) => writeln!(report, "{name}, line {number}: told {told}, came {came}"),
        (_, None) => writeln!(report, "{name}, line {number}: {came}"),
    }
}

// The last line of the report on a file.
fn add_counts(report: &mut String, name: &str, compared: &[Compared]) -> Result<(), AllocError> {
    let as_told = count(compared, Compared::AsTold);
    let differ = count(compared, Compared::Differs);
    if differ == 0 {
        writeln!(report, "{name}: {as_told} as told")
    } else {
        writeln!(report, "{name}: {as_told} as told, {differ} not")
    }
}

fn count(compared: &[Compared], one: Compared) -> usize {
    compared.iter().filter(|line| **line == one).count()
}

/// Plays a file, and tells what came of it: a line for each of its lines that did not come as told, or beside which nothing is
/// told, and at the end one that says how many came as told.
pub fn play(alloc: Global, name: &str, text: &str) -> Result<(String, Outcome), AllocError> {
    let mut report = String::new(alloc);
    let outcome = play_lines(alloc, name, text, &mut report)?;
    Ok((report, outcome))
}

fn play_lines(
    alloc: Global,
    name: &str,
    text: &str,
    report: &mut String,
) -> Result<Outcome, AllocError> {
    let (mut stage, mut compared) = (Stage::Nothing, Vec::new(alloc));
    let mut number = 0_usize;
    for line in text.lines() {
        number = number.saturating_add(1);
        if !stage.play_one(alloc, name, number, line, report, &mut compared)? {
            return Ok(Outcome::NotRead);
        }
    }
    add_counts(report, name, &compared)?;
    Ok(outcome_of(&compared))
}
