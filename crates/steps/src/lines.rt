//! The lines of a file of steps.

use mx_core::Steps;
use mx_sdw::Desc;

/// A line that says something: not empty, and no comment.
pub enum Line {
    /// `world PROCESSES NUMBERS LENGTH`: from here on another world, with a table of these many processes and numbers of each,
    /// all unknown, after so many entries. It opens at the first line that asks something of it.
    World {
        processes: u8,
        numbers: u16,
        start: u32,
    },
    /// `knows PROCESS S DESCRIPTOR`: what a number stands for when the world opens.
    Knows {
        process: u8,
        segno: u16,
        desc: Desc,
    },
    /// `may_open PROCESSES LENGTH`: whether a world may open so with the table.
    MayOpen {
        processes: u8,
        start: u32,
    },
    /// Steps, made as one list.
    Steps(Steps),
    /// A question to the world.
    Question(Question),
}

impl Drop for Line {
    fn drop(self) {
        match self {
            Line::World {
                processes: _processes,
                numbers: _numbers,
                start: _start,
            } => {}
            Line::Knows {
                process: _process,
                segno: _segno,
                desc: _desc,
            } => {}
            Line::MayOpen {
                processes: _processes,
                start: _start,
            } => {}
            Line::Steps(_steps) => {}
            Line::Question(_question) => {}
        }
    }
}

/// What a world is asked.
#[derive(Clone, Copy)]
pub enum Question {
    /// `word PROCESS S`: a descriptor word.
    Word { process: u8, segno: u16 },
    /// `cell N`: what a cell holds.
    Cell(u32),
    /// `floor PROCESS`: of how many entries a process was told.
    Floor(u8),
    /// `event PROCESS N`: an event of a process, from 0.
    Event { process: u8, place: usize },
    /// `length`: how many entries the journal has.
    Length,
    /// `answered`: how many of them are answered.
    Answered,
}
