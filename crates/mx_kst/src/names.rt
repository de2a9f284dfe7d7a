//! Reference names, ring by ring.
ghost use Rattle.std.specs.Prelude.{◌≡◌, ◌<◌, List, ℕ, [], ◌∷◌, ◌++◌, length, map, true, None, IfOk, OnOk, OnErr};
ghost use Rattle.std.specs.List.{All, IsDistinct};
ghost use Rattle.std.specs.Map.{keys_of, lookup};
ghost use Rattle.std.specs.Option.{option_copied};
ghost use Rattle.mx_name.specs.Names.{same_name};
ghost use Rattle.mx_kst.specs.declared.lots.Lot.{Lot};
ghost use Rattle.mx_kst.specs.Lots.{lot_of, is_branch};
ghost use Rattle.mx_kst.specs.Names.{RingNames, no_names, names_in, named};
ghost use Rattle.mx_kst.specs.Stored.{standing, AreGiven, Holds, HoldAll};
ghost use Rattle.mx_kst.specs.Initiating.{with_name};

use crate::lots::{self, Lot};
use indexmap::IndexMap;
use mx_name::EntryName;
use mx_sdw::Ring;
use std::alloc::{AllocError, Global};
use std::marker::Model;

/// The least number of names of a ring at which those that stand no more are taken out.
const LEAST_MARK: usize = 64;

/// The names that are stored for a ring, each with the number that it got. One whose number's segment is gone stands no
/// more, and never again, as no number is given twice; it stays stored until it is added anew or the mark is reached.
#[derive(Debug, Drop)]
pub(crate) struct Names {
    numbers: IndexMap<EntryName, u16>,
    /// The number of names at which those that stand no more are taken out: twice as many as were left the last time, so
    /// that as many names are added between one time and the next.
    mark: usize,
}

impl Model for Names {
    ghost Value = { RingNames };

    ghost view = { λ a. a.numbers.entries };

    ghost invariant = { λ a. IsDistinct same_name (keys_of a.numbers.entries) };
}

impl Names {
    fn new(alloc: Global) -> Names
        ensures { result ≡ [] }
    {
        Names {
            numbers: IndexMap::new(alloc),
            mark: LEAST_MARK,
        }
    }

    /// The number that a name stands for.
    fn get(&self, lots: &[Lot], name: &EntryName) -> Option<u16>
        ensures { result ≡ lookup (same_name name.now) (standing lots.now self.now) }
    {
        let segno = self.numbers.get(name).copied()?;
        lots::is_branch(lots, segno).then_some(segno)
    }

    /// Adds a name that does not stand there. Want of memory leaves the names that stand.
    fn add(&mut self, lots: &[Lot], name: &EntryName, segno: u16) -> Result<(), AllocError>
        requires absent { lookup (same_name name.now) (standing lots.now self.old) ≡ None }
        requires given { AreGiven lots.now self.old }
        ensures ok { OnOk result ((more : List Lot) → is_branch (lot_of (lots.now ++ more) segno) ≡ true
            → Holds (lots.now ++ more) self.new (standing lots.now self.old ++ (name.now, segno) ∷ [])) }
        ensures err { OnErr result (Holds lots.now self.new (standing lots.now self.old)) }
    {
        self.make_way(lots, name);
        self.numbers.insert(*name, segno)?;
        Ok(())
    }

    /// Takes out a name that stands no more; at the mark all that stand no more.
    fn make_way(&mut self, lots: &[Lot], name: &EntryName)
        requires absent { lookup (same_name name.now) (standing lots.now self.old) ≡ None }
        requires given { AreGiven lots.now self.old }
        ensures holds { Holds lots.now self.new (standing lots.now self.old) }
        ensures absent { lookup (same_name name.now) self.new ≡ None }
    {
        if self.numbers.len() < self.mark {
            self.numbers.shift_remove(name);
        } else {
            self.clear(lots);
        }
    }

    /// Takes out the names that stand no more.
    fn clear(&mut self, lots: &[Lot])
        ensures { self.new ≡ standing lots.now self.old }
    {
        self.numbers.retain(
            |_name: &EntryName, number: &mut u16| -> bool
                ensures { (result ≡ is_branch (lot_of lots.entry.now number.old)) × (number.new ≡ number.old) }
            { lots::is_branch(lots, *number) },
        );
        self.mark = LEAST_MARK.max(2 * self.numbers.len());
    }
}

/// The rings of a process at first, each without names.
pub(crate) fn no_names(alloc: Global) -> Result<Vec<Names>, AllocError>
    ensures { IfOk result (λ names. names.items ≡ no_names) }
{
    let mut names = Vec::with_capacity(alloc, 8)?;
    for _ring in 0..8u8 {
        names.push(Names::new(alloc))?;
    }
    Ok(names)
}

/// The number that a name stands for in a ring.
pub(crate) fn named(names: &[Names], lots: &[Lot], ring: Ring, name: &EntryName) -> Option<u16>
    ensures { result ≡ named (map (standing lots.now) names.now) ring name.now }
{
    match names.get(usize::from(ring.number())) {
        Some(names) => names.get(lots, name),
        None => None,
    }
}

/// Adds a name for a number, if one is given and it does not stand in the ring yet; the number may be one that is given
/// next. Want of memory leaves the names that stand.
pub(crate) fn add_name(
    names: &mut [Names],
    lots: &[Lot],
    ring: Ring,
    name: Option<&EntryName>,
    segno: u16,
) -> Result<(), AllocError>
    requires ring { ring < length names.old }
    requires given { All (AreGiven lots.now) names.old }
    ensures ok { OnOk result ((more : List Lot) → is_branch (lot_of (lots.now ++ more) segno) ≡ true
        → HoldAll (lots.now ++ more) names.new (with_name (map (standing lots.now) names.old) ring (option_copied name.entry) segno)) }
    ensures err { OnErr result (HoldAll lots.now names.new (map (standing lots.now) names.old)) }
{
    let Some(name) = name else {
        return Ok(());
    };
    if named(names, lots, ring, name).is_some() {
        return Ok(());
    }
    names[usize::from(ring.number())].add(lots, name, segno)?;
    Ok(())
}
