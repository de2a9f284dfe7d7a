//! What a running world keeps of each process.

ghost use Rattle.std.specs.Prelude.{◌≡◌, vec_len};

use crate::associative::AssociativeMemory;
use crate::covering::covers;
use mx_core::{Asked, DescriptorWord, Kept, Stage, Triple};
use mx_sdw::Desc;
use std::alloc::Global;

/// What a process did, in order.
pub type Trace = Vec<Kept>;

/// One process, with its words, its trace, and its part of the table before and after the pending entry.
#[derive(Debug, Drop)]
pub struct Seat {
    pub(crate) floor: u32,
    pub(crate) stage: Stage,
    pub(crate) turn: u64,
    pub(crate) flag: u64,
    pub(crate) connect: u32,
    pub(crate) cleared: u32,
    pub(crate) look: u64,
    pub(crate) acknowledged: bool,
    pub(crate) basis: Option<Triple>,
    pub(crate) hold: Option<Asked>,
    pub(crate) memory: AssociativeMemory,
    pub(crate) words: Vec<DescriptorWord>,
    pub(crate) before: Vec<Desc>,
    pub(crate) present: Vec<Desc>,
    pub(crate) reported: u32,
    pub(crate) trace: Trace,
    pub(crate) numbers: u16,
    ghost words_of_each: { vec_len words ≡ numbers },
    ghost before_of_each: { vec_len before ≡ numbers },
    ghost present_of_each: { vec_len present ≡ numbers },
}

impl Seat {
    ghost use Rattle.std.specs.Prelude.{ℕ, ◌≢◌, ◌↔◌, ◌<◌, max, true, IsTrue, MatchBool, MatchOption};
    ghost use Rattle.mx_core.specs.Acknowledging.{HasLeft};
    ghost use Rattle.mx_core.specs.FirstFailing.{IsFirstNot};
    ghost use Rattle.mx_core.specs.Pages.{covers};
    ghost use Rattle.mx_worlds.specs.Seating.{AreAcknowledged, IsStruckIn, answered_columns};
    ghost use Rattle.mx_core.specs.Entering.{next_turn, entered, connect_loaded, left};
    ghost use Rattle.mx_core.specs.Notes.{told_by};
    ghost use Rattle.mx_core.specs.Put.{put};
    ghost use Rattle.mx_worlds.specs.Shows.{Columns, ShowsSeat};
    ghost use Rattle.mx_core.specs.declared.words.DescriptorWord.TheVariants.{Valid, Fault};
    ghost use Rattle.mx_core.specs.World.{Note};

    /// Raises the flag to the next turn.
    pub(crate) fn enter(&mut self)
        ensures { (n : ℕ) (c : Columns) → ShowsSeat n self.old c
            → ShowsSeat n self.new (record c { process = entered c.process (next_turn c.process.turn) }) }
    {
        let turn = if self.turn == u64::MAX {
            1
        } else {
            self.turn + 1
        };
        self.turn = turn;
        self.flag = turn;
        self.stage = Stage::Entering;
        self.basis = None;
        self.hold = None;
    }

    /// Lowers the flag.
    pub(crate) fn leave(&mut self)
        ensures { (n : ℕ) (c : Columns) → ShowsSeat n self.old c
            → ShowsSeat n self.new (record c { process = left c.process }) }
    {
        self.flag = 0;
        self.stage = Stage::Outside;
        self.basis = None;
        self.hold = None;
    }

    /// Takes the connect word as cleared, and empties the memory where they differ.
    pub(crate) fn load_connect(&mut self, alloc: Global)
        ensures { (n : ℕ) (c : Columns) → ShowsSeat n self.old c
            → ShowsSeat n self.new (record c { process = connect_loaded c.process }) }
    {
        if self.connect != self.cleared {
            self.memory = AssociativeMemory::new(alloc);
        }
        self.cleared = self.connect;
        self.stage = Stage::Ready;
    }

    /// Keeps the flag as it is seen.
    pub(crate) fn keep_look(&mut self)
        ensures { (n : ℕ) (c : Columns) → ShowsSeat n self.old c
            → ShowsSeat n self.new (record c { process = record c.process { look = c.process.flag } }) }
    {
        self.look = self.flag;
    }

    /// Whether the process is outside, or has left since the look.
    pub(crate) fn has_left(&self) -> bool
        ensures { (n : ℕ) (c : Columns) → ShowsSeat n self.now c → IsTrue result ↔ HasLeft c.process }
    {
        self.flag == 0 || (self.look != 0 && self.flag != self.look)
    }

    /// Notes that the process uses the old access no more.
    pub(crate) fn acknowledge(&mut self)
        ensures { (n : ℕ) (c : Columns) → ShowsSeat n self.old c
            → ShowsSeat n self.new (record c { process = record c.process { acknowledged = true } }) }
    {
        self.acknowledged = true;
    }

    /// Whether the pending entry gives the number another descriptor.
    pub(crate) fn is_changed(&self, segno: u16) -> bool
        requires { segno < self.now.numbers }
        ensures { (n : ℕ) (c : Columns) → ShowsSeat n self.now c
            → IsTrue result ↔ (c.present segno ≢ c.before segno) }
    {
        let number = usize::from(segno);
        !self.present[number].is_same(&self.before[number])
    }

    /// Puts a descriptor into the present table, if that has the number.
    pub(crate) fn put(&mut self, segno: u16, desc: &Desc)
        ensures { (n : ℕ) (c : Columns) → ShowsSeat n self.old c → segno < n
            → ShowsSeat n self.new (record c { present = put c.present segno desc.now }) }
    {
        let number = usize::from(segno);
        if number < self.present.len() {
            self.present[number] = *desc;
        }
    }

    /// Strikes the word of a number.
    pub(crate) fn strike(&mut self, segno: u16, count: u32)
        requires { segno < self.old.numbers }
        ensures { (n : ℕ) (c : Columns) → ShowsSeat n self.old c
            → ShowsSeat n self.new (record c { words = put c.words segno (Fault count) }) }
    {
        self.words[usize::from(segno)] = DescriptorWord::Fault { number: count };
    }

    /// The entry that struck the word of a number, if it is a fault.
    pub(crate) fn struck_by(&self, segno: u16) -> Option<u32>
        requires { segno < self.now.numbers }
        ensures { (n : ℕ) (c : Columns) → ShowsSeat n self.now c
            → MatchOption result ((by : ℕ) → c.words segno ≡ Fault by → ⊥) (λ by. c.words segno ≡ Fault by) }
    {
        match self.words[usize::from(segno)] {
            DescriptorWord::Fault { number } => Some(number),
            DescriptorWord::Valid { .. } => None,
        }
    }

    /// Gives the word of a number its present descriptor.
    pub(crate) fn settle(&mut self, segno: u16, by: u32)
        requires { segno < self.old.numbers }
        ensures { (n : ℕ) (c : Columns) → ShowsSeat n self.old c
            → ShowsSeat n self.new (record c { words = put c.words segno (Valid by (c.present segno)) }) }
    {
        let number = usize::from(segno);
        let desc = self.present[number];
        self.words[number] = DescriptorWord::Valid { number: by, desc };
    }

    /// Notes how long the trace is known to be, if that is longer than what was known.
    pub(crate) fn report(&mut self, length: u32)
        ensures { (n : ℕ) (c : Columns) → ShowsSeat n self.old c
            → ShowsSeat n self.new (record c { reported = max c.reported length }) }
    {
        self.reported = self.reported.max(length);
    }

    /// Raises the floor to that of a note, if that is higher.
    pub(crate) fn join(&mut self, floor: u32)
        ensures { (n : ℕ) (c : Columns) (note : Note) → ShowsSeat n self.old c → note.floor ≡ floor
            → ShowsSeat n self.new (record c { process = told_by c.process note }) }
    {
        self.floor = self.floor.max(floor);
    }

    /// Whether the word of a number is struck by this entry.
    pub(crate) fn is_struck(&self, segno: u16, count: u32) -> bool
        requires { segno < self.now.numbers }
        ensures { (n : ℕ) (c : Columns) → ShowsSeat n self.now c → IsTrue result ↔ (c.words segno ≡ Fault count) }
    {
        match self.words[usize::from(segno)] {
            DescriptorWord::Fault { number } => number == count,
            DescriptorWord::Valid { .. } => false,
        }
    }

    /// The first number that the pending entry gives another descriptor.
    pub(crate) fn first_change(&self) -> Option<u16>
        ensures { (n : ℕ) (c : Columns) → ShowsSeat n self.now c
            → MatchOption result ((j : ℕ) → j < n → c.present j ≡ c.before j)
            (λ i. (i < n) × (c.present i ≢ c.before i)) }
    {
        for segno in 0..self.numbers {
            if self.is_changed(segno) {
                return Some(segno);
            }
        }
        None
    }

    /// Whether a number is changed and its word not struck by this entry.
    fn is_unstruck(&self, segno: u16, count: u32) -> bool
        requires { segno < self.now.numbers }
        ensures { (n : ℕ) (c : Columns) → ShowsSeat n self.now c
            → MatchBool result (IsStruckIn c count segno → ⊥) (IsStruckIn c count segno) }
    {
        self.is_changed(segno) && !self.is_struck(segno, count)
    }

    /// The first changed number whose word is not struck by this entry.
    pub(crate) fn first_unstruck(&self, count: u32) -> Option<u16>
        ensures { (n : ℕ) (c : Columns) → ShowsSeat n self.now c
            → MatchOption result ((j : ℕ) → j < n → IsStruckIn c count j) (IsFirstNot (IsStruckIn c count)) }
    {
        for segno in 0..self.numbers {
            if self.is_unstruck(segno, count) {
                return Some(segno);
            }
        }
        None
    }

    /// Whether the process has a changed number and has not acknowledged.
    pub(crate) fn owes(&self) -> bool
        ensures { (n : ℕ) (c : Columns) → ShowsSeat n self.now c
            → MatchBool result (AreAcknowledged c n → ⊥) (AreAcknowledged c n) }
    {
        !self.acknowledged && self.first_change().is_some()
    }

    /// Tells the process, by its connect word, to empty its memory.
    pub(crate) fn connect(&mut self, count: u32)
        ensures { (n : ℕ) (c : Columns) → ShowsSeat n self.old c
            → ShowsSeat n self.new (record c { process = record c.process { connect = count; look = 0 } }) }
    {
        self.connect = count;
        self.look = 0;
    }

    /// Takes the present descriptors as answered, and forgets what was kept of the process meanwhile.
    pub(crate) fn answer(&mut self)
        ensures { (n : ℕ) (c : Columns) → ShowsSeat n self.old c
            → ShowsSeat n self.new (answered_columns c) }
    {
        self.before.copy_from_slice(&self.present);
        self.look = 0;
        self.acknowledged = false;
    }

    /// Whether a present descriptor covers a page.
    pub(crate) fn covers(&self, page: u32) -> bool
        ensures { (n : ℕ) (c : Columns) → ShowsSeat n self.now c
            → MatchBool result ((j : ℕ) × (j < n) × (covers (c.present j) page ≡ true))
            ((j : ℕ) → j < n → covers (c.present j) page ≡ true → ⊥) }
    {
        for desc in &self.present {
            if covers(desc, page) {
                return true;
            }
        }
        false
    }
}
