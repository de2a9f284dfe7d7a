//! What each process did, moment by moment.

use mx_sdw::Word;

/// A store, as a read names it: whose it is, the point at which it was made, its cell, and the word.
#[derive(Clone, Copy, PartialEq, Eq, Hash)]
pub struct Store {
    pub process: u8,
    pub point: u32,
    pub cell: u32,
    pub value: u64,
}

impl Store {
    pub fn new(process: u8, point: u32, cell: u32, value: Word) -> Store {
        Store {
            process,
            point,
            cell,
            value: value.value(),
        }
    }
}

/// What a reference does with a cell.
#[derive(Clone, Copy)]
pub enum Deed {
    /// It reads what this store has left.
    Reads(Store),
    /// It is this store.
    Stores(Store),
}

/// What a line does at one place of the journal. `time` is 2n at entry n, and 2n + 1 behind it and before the next one; `first` is how
/// many events of the line came before, and `deeds` how many deeds of the process.
#[derive(Clone, Copy)]
pub struct Moment {
    pub line: u32,
    pub time: u64,
    pub first: usize,
    pub deeds: usize,
}

/// The moments of a process in order, and its deeds.
#[derive(Drop)]
pub struct Course {
    pub moments: Vec<Moment>,
    pub deeds: Vec<Deed>,
}

impl Course {
    /// The deeds of the moment at this place: those before the ones of the next moment.
    pub fn deeds_of(&self, place: usize) -> &[Deed] {
        let from = self.deeds_before(place);
        let to = self.deeds_before(place.saturating_add(1));
        match self.deeds.get(from..to) {
            Some(deeds) => deeds,
            None => &[],
        }
    }

    fn deeds_before(&self, place: usize) -> usize {
        match self.moments.get(place) {
            Some(moment) => moment.deeds,
            None => self.deeds.len(),
        }
    }

    /// At which event the line of the moment at this place goes on later; none where it ends with this moment.
    pub fn goes_on(&self, place: usize) -> Option<usize> {
        match self.moments.get(place.saturating_add(1)) {
            Some(moment) if moment.first > 0 => Some(moment.first),
            _ => None,
        }
    }
}
