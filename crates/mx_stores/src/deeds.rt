//! Deeds: what a process did that the read rule looks at.

ghost use Rattle.std.specs.Prelude.{◌≡◌, ◌<◌, MatchOption};
ghost use Rattle.mx_reads.specs.Deeds.{Enters, Loads, Misses, Refers, Stores};
ghost use Rattle.mx_stores.specs.Since.{entry_of, is_same};
ghost use Rattle.mx_stores.specs.Parts.{deed_of};
ghost use Rattle.mx_stores.specs.Reads.{read_of};
ghost use Rattle.mx_stores.specs.Sighted.{sighted_in};
ghost use Rattle.mx_stores.specs.Sights.{sighted_of};
ghost use Rattle.mx_reads.specs.Deeds.{CellUse as CellUseValue};
ghost use Rattle.mx_stores.specs.Tables.{IsNoStore, IsStoreHere, number_of};

use crate::stores::{Store, level_of, order_of};
use std::marker::Model;

/// A cell in one of its uses.
#[derive(Clone, Copy, Debug)]
pub struct CellUse {
    /// The cell.
    pub cell: u32,
    /// The entry that gave out its page last, 0 where none did.
    pub since: u32,
}

impl Model for CellUse {
    ghost use Rattle.mx_reads.specs.Deeds.{CellUse as CellUseValue};

    ghost Value = { CellUseValue };

    ghost view = { λ a. record { cell = a.cell; since = a.since } };

    ghost inverse = { λ a. record { cell = a.cell; since = a.since } };
}

impl CellUse {
    /// Whether it is this cell in this use.
    pub(crate) fn is(&self, other: &CellUse) -> bool
        ensures { result ≡ is_same self.now other.now }
    {
        self.cell == other.cell && self.since == other.since
    }

    /// The cell in the use of this number.
    pub(crate) fn of_number(number: u64) -> CellUse
        ensures number { number_of result ≡ number }
        ensures fits { result.since < 4294967296 }
    {
        CellUse {
            cell: (number / 4_294_967_296) as u32,
            since: (number % 4_294_967_296) as u32,
        }
    }

    /// Its number among all cells in all uses.
    pub(crate) fn number(&self) -> u64
        ensures number { result ≡ number_of self.now }
        ensures fits { self.now.since < 4294967296 }
    {
        u64::from(self.cell) * 4_294_967_296 + u64::from(self.since)
    }
}

/// A store that was sighted.
#[derive(Clone, Copy, Debug)]
pub(crate) struct Sighted {
    /// Whose it is.
    pub(crate) storer: usize,
    /// At which place of the storer's deeds.
    pub(crate) store: usize,
}

impl Model for Sighted {
    ghost use Rattle.mx_stores.specs.Sighted.{Sighted as SightedValue};

    ghost Value = { SightedValue };

    ghost view = { λ a. record { storer = a.storer; store = a.store } };

    ghost inverse = { λ a. record { storer = a.storer; store = a.store } };
}

/// A read of a process.
#[derive(Clone, Copy, Debug)]
pub struct Read {
    /// Whose it is.
    pub process: usize,
    /// At which place of the process's deeds.
    pub place: usize,
    /// The cell.
    pub cell: CellUse,
    /// The value that it gave.
    pub value: u64,
    /// Who stored that (0: nobody).
    pub writer: u8,
    /// That store's stamp.
    pub stamp: u32,
    /// The read's point.
    pub point: u32,
}

impl Model for Read {
    ghost use Rattle.mx_reads.specs.ReadRule.{Reading};

    ghost Value = { Reading };

    ghost view = { λ a. record { process = a.process; place = a.place; cell = a.cell; value = a.value; writer = a.writer; stamp = a.stamp; point = a.point } };

    ghost inverse = { λ a. record { process = a.process; place = a.place; cell = a.cell; value = a.value; writer = a.writer; stamp = a.stamp; point = a.point } };
}

/// A cell and the store that was sighted of it.
#[derive(Clone, Copy, Debug)]
pub(crate) struct Sight {
    pub(crate) cell: CellUse,
    pub(crate) sighted: Sighted,
}

/// What a process did.
#[derive(Clone, Copy, Debug)]
pub enum Form {
    /// It made an entry of the journal.
    Enters {
        number: u32,
    },
    /// It stored a value at a point.
    Stores {
        cell: CellUse,
        value: u64,
        point: u32,
    },
    /// It loaded a value with its writer (0: nobody) and that store's stamp, at a point.
    Loads {
        cell: CellUse,
        value: u64,
        writer: u8,
        stamp: u32,
        point: u32,
    },
    /// It made a reference that touched no word, at a point.
    Refers {
        point: u32,
    },
    /// It missed by an entry.
    Misses {
        segno: u16,
        by: u32,
    },
}

/// A deed of a process.
#[derive(Debug, Drop)]
pub struct Deed {
    form: Form,
}

impl Model for Deed {
    ghost use Rattle.mx_reads.specs.Deeds.{Deed as DeedValue};
    ghost use Rattle.mx_stores.specs.Parts.{deed_of};

    ghost Value = { DeedValue };

    ghost view = { λ a. deed_of a.form };
}

impl Deed {
    /// A deed of this form.
    pub fn new(form: Form) -> Deed
        ensures { result ≡ deed_of form }
    {
        Deed { form }
    }

    /// Its form.
    pub fn form(&self) -> &Form
        ensures { deed_of result.now ≡ self.now }
    {
        &self.form
    }

    /// The number of the entry, if it is one.
    pub fn entry(&self) -> Option<u32>
        ensures { result ≡ entry_of self.now }
    {
        match self.form {
            Form::Enters { number } => Some(number),
            Form::Stores { .. } | Form::Loads { .. } | Form::Refers { .. } | Form::Misses { .. } =>
                None,
        }
    }

    /// What it sights, as the deed of process `p` at the place `here`, where its read stands for the store at `chosen`.
    pub(crate) fn sight(&self, p: usize, here: usize, chosen: usize) -> Option<Sight>
        ensures { (cell : CellUseValue) → sighted_in cell p here chosen self.now ≡ sighted_of cell result }
    {
        match &self.form {
            Form::Stores { cell, .. } => Some(Sight {
                cell: *cell,
                sighted: Sighted {
                    storer: p,
                    store: here,
                },
            }),
            Form::Loads { cell, writer, .. } => if *writer == 0 {
                None
            } else {
                Some(Sight {
                    cell: *cell,
                    sighted: Sighted {
                        storer: usize::from(*writer),
                        store: chosen,
                    },
                })
            },
            Form::Enters { .. } | Form::Refers { .. } | Form::Misses { .. } => None,
        }
    }

    /// The store that it is, at the place `place`, if it is one. It is known from `since` on.
    pub(crate) fn store(&self, place: usize, since: Option<u32>) -> Option<Store>
        ensures { MatchOption result (IsNoStore self.now) (IsStoreHere self.now place since) }
    {
        match &self.form {
            Form::Stores { cell, value, point } => Some(Store {
                cell: *cell,
                place,
                value: *value,
                point: *point,
                since,
                order: order_of(cell, place),
                level: level_of(cell, *point),
            }),
            Form::Enters { .. } | Form::Loads { .. } | Form::Refers { .. } | Form::Misses { .. } =>
                None,
        }
    }

    /// The read that it is, as the deed of process `p` at the place `here`, if it is one.
    pub fn read(&self, p: usize, here: usize) -> Option<Read>
        ensures { result ≡ read_of p here self.now }
    {
        match &self.form {
            Form::Loads {
                cell,
                value,
                writer,
                stamp,
                point,
            } => Some(Read {
                process: p,
                place: here,
                cell: *cell,
                value: *value,
                writer: *writer,
                stamp: *stamp,
                point: *point,
            }),
            Form::Enters { .. } | Form::Stores { .. } | Form::Refers { .. } | Form::Misses { .. } =>
                None,
        }
    }
}
