//! What each entry of a journal changes of the processes' accesses.

use indexmap::IndexMap;
use mx_judging::{Access, Replay};
use mx_request::Reply;
use mx_script::Session;
use mx_sdw::DescKind;
use mx_show::{Ledger, Renewal};
use mx_state::{Entry, Journal};
use std::alloc::{AllocError, Global};

/// The stacks of a process have the numbers below this one.
const STACKS: u16 = 8;

/// How many segment numbers a process has at most.
const NUMBERS: u16 = 256;

/// What an entry changed: what a process has under a segment number, before and after.
#[derive(Clone, Copy)]
pub(crate) struct Turn {
    pub(crate) process: u8,
    pub(crate) segno: u16,
    pub(crate) before: Option<Access>,
    pub(crate) after: Option<Access>,
}

/// The processes' accesses after so many entries of a journal.
#[derive(Drop)]
pub(crate) struct Course<'a> {
    journal: &'a [Entry],
    processes: u8,
    place: usize,
    replay: Replay<'a>,
    ledger: Ledger,
    held: IndexMap<(u8, u16), Access>,
    changed: usize,
}

impl<'a> Course<'a> {
    ghost use Rattle.mx_transcript.specs.Opened.{opening_of};
    ghost use Rattle.mx_state.specs.History.{IsRight};

    /// Before the first entry.
    pub(crate) fn new(
        alloc: Global,
        session: &'a Session,
        journal: &'a Journal,
    ) -> Result<Course<'a>, AllocError>
        requires { IsRight (opening_of session.now) journal.now }
    {
        let entrants = session.principals().items();
        Ok(Course {
            journal: journal.items(),
            processes: u8::try_from(entrants.len()).unwrap_or(u8::MAX),
            place: 0,
            replay: Replay::new(alloc, session, journal.items())?,
            ledger: Ledger::new(alloc, session)?,
            held: IndexMap::new(alloc),
            changed: 0,
        })
    }

    /// Adds what the processes have before the first entry: their stacks.
    pub(crate) fn add_first(&mut self, turns: &mut Vec<Turn>) -> Result<(), AllocError> {
        for process in 1..=self.processes {
            for segno in 0..STACKS {
                self.add_turn(turns, process, segno)?;
            }
        }
        Ok(())
    }

    /// The next entry.
    pub(crate) fn entry(&self) -> Option<&'a Entry> {
        self.journal.get(self.place)
    }

    /// One entry more: adds what it changes.
    pub(crate) fn step(
        &mut self,
        alloc: Global,
        entry: &Entry,
        turns: &mut Vec<Turn>,
    ) -> Result<(), AllocError> {
        let renewal = self.ledger.renewal(alloc, entry)?;
        self.replay.next(alloc)?;
        if !matches!(entry.reply, Reply::Refused(_)) {
            self.ledger.apply(alloc, self.journal, self.place, entry)?;
        }
        self.place = self.place.saturating_add(1);
        self.add_changed(alloc, turns)?;
        match renewal {
            Some(renewal) => self.add_renewed(turns, renewal),
            None => Ok(()),
        }
    }

    // Adds the numbers whose descriptors the entry changed.
    fn add_changed(&mut self, alloc: Global, turns: &mut Vec<Turn>) -> Result<(), AllocError> {
        let mut numbers = Vec::new(alloc);
        if let Some(news) = self.replay.changed().get(self.changed..) {
            for changed in news {
                numbers.push((changed.process, changed.segno))?;
            }
        }
        self.changed = self.changed.saturating_add(numbers.len());
        for (process, segno) in numbers {
            self.add_turn(turns, process, segno)?;
        }
        Ok(())
    }

    // Adds the numbers with another deciding entry or pathname than before.
    fn add_renewed(&mut self, turns: &mut Vec<Turn>, renewal: Renewal) -> Result<(), AllocError> {
        for process in 1..=self.processes {
            for segno in STACKS..NUMBERS {
                if self.ledger.is_renewed(process, segno, renewal)
                    && self.is_news(process, segno, renewal)
                {
                    self.add_turn(turns, process, segno)?;
                }
            }
        }
        Ok(())
    }

    // Whether a number that was changed so has something new to tell.
    fn is_news(&self, process: u8, segno: u16, renewal: Renewal) -> bool {
        match renewal {
            Renewal::Name(_) => true,
            Renewal::List(_) => {
                let before = self.held.get(&(process, segno)).and_then(|held| held.entry);
                before != self.access(process, segno).and_then(|access| access.entry)
            }
        }
    }

    // Adds a number, and keeps what it gives now.
    fn add_turn(
        &mut self,
        turns: &mut Vec<Turn>,
        process: u8,
        segno: u16,
    ) -> Result<(), AllocError> {
        let before = self.replace(process, segno)?;
        let after = self.access(process, segno);
        turns.extend_from_slice(&[Turn {
            process,
            segno,
            before,
            after,
        }])
    }

    // Keeps what a number gives now, in place of what it gave.
    fn replace(&mut self, process: u8, segno: u16) -> Result<Option<Access>, AllocError> {
        match self.access(process, segno) {
            Some(access) => Ok(self.held.insert((process, segno), access)?),
            None => Ok(self.held.swap_remove(&(process, segno))),
        }
    }

    // What a process has under a number now; none where the number stands for nothing.
    fn access(&self, process: u8, segno: u16) -> Option<Access> {
        if !self.replay.has_process(process) {
            return None;
        }
        let access = self.replay.access(process, segno);
        if access.desc.kind() == DescKind::Unknown {
            None
        } else {
            Some(access)
        }
    }

    /// Adds what a number stands for now.
    pub(crate) fn add_standing(
        &self,
        alloc: Global,
        out: &mut String,
        process: u8,
        segno: u16,
    ) -> Result<(), AllocError> {
        self.ledger.add_standing(alloc, out, process, segno)
    }
}
