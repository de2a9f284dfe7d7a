//! What some lines came to together in many runs.

ghost use Rattle.std.specs.Prelude.{◌≡◌, [], get_or, MatchOption, IfOk, OnOk};
ghost use Rattle.mx_outcomes.specs.Places.{IsNew, IsPlace};
ghost use Rattle.mx_outcomes.specs.Tallies.{again, counted, outcomes_at};

use mx_list::{Bytes, Sequence};
use std::alloc::{AllocError, Global};
use std::marker::Model;

/// Texts in order.
pub type Texts = Sequence<Bytes>;

/// The places of some lines among all.
pub type Places = Sequence<usize>;

/// What the lines came to, the order in which they did first, and how many runs gave it.
#[derive(Drop)]
pub struct Row {
    pub outcomes: Texts,
    pub first: Bytes,
    pub times: u32,
}

/// Of the lines at some places among all lines, what they came to together in the runs that were added, without repeats.
#[derive(Drop)]
pub struct Tally {
    places: Places,
    rows: Vec<Row>,
}

impl Model for Tally {
    ghost use Rattle.mx_outcomes.specs.Tallies.{Tallied, tallied};

    ghost Value = { Tallied };

    ghost view = { λ a. tallied a.places a.rows.items };
}

impl Tally {
    ghost use Rattle.mx_outcomes.specs.Tallies.{tallied, with_run};

    /// Of the lines at these places, before any run.
    pub fn new(alloc: Global, places: Places) -> Tally
        ensures { result ≡ tallied places [] }
    {
        Tally {
            places,
            rows: Vec::new(alloc),
        }
    }

    /// The different outcomes, in the order in which they came first.
    pub fn rows(&self) -> &[Row]
        ensures { result.now ≡ self.now.rows }
    {
        &self.rows
    }

    /// Adds a run: the order of its lines, and what each of them came to. The only error is want of memory, as where a number of 32
    /// bits does not count the runs of an outcome.
    pub fn add(&mut self, alloc: Global, order: &[u8], outcomes: &[Bytes]) -> Result<(), AllocError>
        ensures { OnOk result (self.new ≡ with_run (order.now, outcomes.now) self.old) }
    {
        let came = outcomes_at(alloc, self.places.items(), outcomes)?;
        count(alloc, &mut self.rows, order, came)
    }
}

// What the lines at these places came to.
fn outcomes_at(alloc: Global, places: &[usize], outcomes: &[Bytes]) -> Result<Texts, AllocError>
    ensures { IfOk result (λ texts. texts ≡ outcomes_at places.now outcomes.now) }
{
    let mut texts = Vec::new(alloc);
    for place in places {
        let text = outcome_at(alloc, outcomes, *place)?;
        texts.push(text)?;
    }
    Ok(Sequence::of(texts))
}

// What the line at this place came to; nothing where there is none.
fn outcome_at(alloc: Global, outcomes: &[Bytes], place: usize) -> Result<Bytes, AllocError>
    ensures { IfOk result (λ text. text ≡ get_or outcomes.now place []) }
{
    match outcomes.get(place) {
        Some(text) => copy(alloc, text.items()),
        None => Ok(Sequence::new(alloc)),
    }
}

fn copy(alloc: Global, bytes: &[u8]) -> Result<Bytes, AllocError>
    ensures { IfOk result (λ text. text ≡ bytes.now) }
{
    Ok(Sequence::of(Vec::from_slice(alloc, bytes)?))
}

// Counts a run in this order, in which the lines came to this.
fn count(
    alloc: Global,
    rows: &mut Vec<Row>,
    order: &[u8],
    outcomes: Texts,
) -> Result<(), AllocError>
    ensures { OnOk result (rows.new.items ≡ counted order.now outcomes rows.old.items) }
{
    match place_of(rows, &outcomes) {
        Some(place) => count_again(&mut rows[place]),
        None => {
            let first = copy(alloc, order)?;
            rows.push(Row {
                outcomes,
                first,
                times: 1,
            })?;
            Ok(())
        }
    }
}

// The first row of these outcomes.
fn place_of(rows: &[Row], outcomes: &Texts) -> Option<usize>
    ensures { MatchOption result (IsNew outcomes.now rows.now) (IsPlace outcomes.now rows.now) }
{
    for (place, row) in rows.iter().enumerate() {
        if row.outcomes == *outcomes {
            return Some(place);
        }
    }
    None
}

// A run more.
fn count_again(row: &mut Row) -> Result<(), AllocError>
    ensures { OnOk result (row.new ≡ again row.old) }
{
    match row.times.checked_add(1) {
        Some(times) => {
            row.times = times;
            Ok(())
        }
        None => Err(AllocError),
    }
}
