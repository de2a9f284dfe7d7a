//! Why a read gives a word that it could not, and which words it could.

use mx_list::Sequence;
use mx_stores::{CellUse, Deed, Form, Read, first_breach};
use std::alloc::{AllocError, Global};

/// At most so many words are tried.
const MOST_TRIED: usize = 64;

/// A word that a read may give: with the process that stored it (0: nobody) and that store's stamp.
#[derive(Clone, Copy, Debug, PartialEq, Eq)]
pub(crate) struct Given {
    pub(crate) value: u64,
    pub(crate) writer: u8,
    pub(crate) stamp: u32,
}

/// What is wrong with a read. A place is that of a deed among all of its process.
#[derive(Clone, Copy, Debug)]
pub(crate) enum Wrong {
    /// It names nobody, and its word or its stamp is not 0.
    NotZero,
    /// It names nobody, and its process had stored there, or had read a stored word, by this deed.
    Sighted { place: usize },
    /// It names nobody, and this store was known.
    Known { storer: usize, place: usize },
    /// It names its own process, which had stored nothing there.
    NothingOwn,
    /// It names its own process, which stored another word last, by this deed.
    NotLast { place: usize },
    /// It names a process that stored no such word with this stamp there.
    NoStore,
    /// Its process had read a later store by this deed.
    Older { place: usize },
    /// The store was superseded.
    Superseded,
}

fn is_cell(cell: &CellUse, other: &CellUse) -> bool {
    cell.cell == other.cell && cell.since == other.since
}

// What a deed stored in a cell, if it did: the word, and its point.
fn stored_in(deed: &Deed, in_cell: &CellUse) -> Option<(u64, u32)> {
    match deed.form() {
        Form::Stores { cell, value, point } => if is_cell(cell, in_cell) {
            Some((*value, *point))
        } else {
            None
        },
        Form::Enters { .. } | Form::Loads { .. } | Form::Refers { .. } | Form::Misses { .. } =>
            None,
    }
}

// Whose store a deed read from a cell, if it did; 0 where it was nobody's.
fn read_in(deed: &Deed, in_cell: &CellUse) -> Option<u8> {
    match deed.form() {
        Form::Loads { cell, writer, .. } => if is_cell(cell, in_cell) {
            Some(*writer)
        } else {
            None
        },
        Form::Enters { .. } | Form::Stores { .. } | Form::Refers { .. } | Form::Misses { .. } =>
            None,
    }
}

fn part(parts: &[Sequence<Deed>], p: usize) -> &[Deed] {
    match parts.get(p) {
        None => &[],
        Some(part) => part.items(),
    }
}

// The place of the last store in the cell before the read, in its own process.
fn last_own(parts: &[Sequence<Deed>], read: &Read) -> Option<usize> {
    let mut last = None;
    for (place, deed) in part(parts, read.process).iter().enumerate() {
        if place < read.place && stored_in(deed, &read.cell).is_some() {
            last = Some(place);
        }
    }
    last
}

// The place of the last deed before the read by which its process sighted a store of this process in the cell; of any where
// it is 0.
fn last_sighting(parts: &[Sequence<Deed>], read: &Read, of: u8) -> Option<usize> {
    let mut last = None;
    for (place, deed) in part(parts, read.process).iter().enumerate() {
        let is_own = of == 0 && stored_in(deed, &read.cell).is_some();
        let is_read = match read_in(deed, &read.cell) {
            None => false,
            Some(writer) => writer != 0 && (of == 0 || writer == of),
        };
        if place < read.place && (is_own || is_read) {
            last = Some(place);
        }
    }
    last
}

// The first store in the cell after which its process made an entry up to the read's point: whose, and its place.
fn first_known(parts: &[Sequence<Deed>], read: &Read) -> Option<(usize, usize)> {
    for (storer, deeds) in parts.iter().enumerate() {
        if let Some(place) = known_in(deeds.items(), read) {
            return Some((storer, place));
        }
    }
    None
}

// The place of the first store of a process in the cell that is known at the read's point.
fn known_in(deeds: &[Deed], read: &Read) -> Option<usize> {
    let mut store = None;
    for (place, deed) in deeds.iter().enumerate() {
        if store.is_none() && stored_in(deed, &read.cell).is_some() {
            store = Some(place);
        }
        if let Some(number) = deed.entry() {
            if number <= read.point && store.is_some() {
                return store;
            }
        }
    }
    None
}

// Whether a process stored such a word with this stamp in the cell.
fn has_stored(deeds: &[Deed], read: &Read) -> bool {
    deeds.iter().any(|deed| stored_in(deed, &read.cell) == Some((read.value, read.stamp)))
}

/// What is wrong with a read that the rule does not allow.
pub(crate) fn wrong_read(
    alloc: Global,
    parts: &[Sequence<Deed>],
    read: &Read,
) -> Result<Wrong, AllocError> {
    let storer = usize::from(read.writer);
    if storer == 0 {
        return Ok(wrong_nobody(parts, read));
    }
    if storer == read.process {
        return Ok(wrong_own(parts, read));
    }
    if !has_stored(part(parts, storer), read) {
        return Ok(Wrong::NoStore);
    }
    let given = Given {
        value: read.value,
        writer: read.writer,
        stamp: read.stamp,
    };
    match last_sighting(parts, read, read.writer) {
        Some(place) if is_allowed(alloc, parts, read, &given, true)? => Ok(Wrong::Older { place }),
        _ => Ok(Wrong::Superseded),
    }
}

fn wrong_nobody(parts: &[Sequence<Deed>], read: &Read) -> Wrong {
    if read.value != 0 || read.stamp != 0 {
        return Wrong::NotZero;
    }
    if let Some(place) = last_sighting(parts, read, 0) {
        return Wrong::Sighted { place };
    }
    match first_known(parts, read) {
        Some((storer, place)) => Wrong::Known { storer, place },
        None => Wrong::Superseded,
    }
}

fn wrong_own(parts: &[Sequence<Deed>], read: &Read) -> Wrong {
    let Some(place) = last_own(parts, read) else {
        return Wrong::NothingOwn;
    };
    let is_last = match part(parts, read.process).get(place) {
        None => false,
        Some(deed) => stored_in(deed, &read.cell) == Some((read.value, read.stamp)),
    };
    if is_last {
        Wrong::Superseded
    } else {
        Wrong::NotLast { place }
    }
}

/// Which words a read could give: the first that the rule allows, were they read there, each once. At most 64 are tried, of
/// more stores in the cell the last.
pub(crate) fn allowed(
    alloc: Global,
    parts: &[Sequence<Deed>],
    read: &Read,
) -> Result<Vec<Given>, AllocError> {
    let tried = candidates(alloc, parts, read)?;
    let from = tried.len().saturating_sub(MOST_TRIED);
    let mut allowed: Vec<Given> = Vec::new(alloc);
    for given in tried.iter().skip(from) {
        if !allowed.contains(given) && is_allowed(alloc, parts, read, given, false)? {
            allowed.push(*given)?;
        }
    }
    Ok(allowed)
}

// Nobody's word, and each that was stored in the cell.
fn candidates(
    alloc: Global,
    parts: &[Sequence<Deed>],
    read: &Read,
) -> Result<Vec<Given>, AllocError> {
    let mut given = Vec::new(alloc);
    given.push(Given {
        value: 0,
        writer: 0,
        stamp: 0,
    })?;
    let mut writer = 0u8;
    for deeds in parts {
        add_stores(&mut given, deeds.items(), writer, read)?;
        writer = writer.saturating_add(1);
    }
    Ok(given)
}

// Adds what a process stored in the cell.
fn add_stores(
    given: &mut Vec<Given>,
    deeds: &[Deed],
    writer: u8,
    read: &Read,
) -> Result<(), AllocError> {
    for deed in deeds {
        if let Some((value, stamp)) = stored_in(deed, &read.cell) {
            given.push(Given {
                value,
                writer,
                stamp,
            })?;
        }
    }
    Ok(())
}

// Whether the rule allows that the read gives this; as if its process had read nothing there before, where it forgets.
fn is_allowed(
    alloc: Global,
    parts: &[Sequence<Deed>],
    read: &Read,
    given: &Given,
    forgets: bool,
) -> Result<bool, AllocError> {
    let changed = with_read(alloc, parts, read, given, forgets)?;
    match first_breach(alloc, &changed)? {
        None => Ok(true),
        Some(breach) => Ok(breach.process != read.process || breach.place != read.place),
    }
}

// The deeds of all processes, where the read gives this.
fn with_read(
    alloc: Global,
    parts: &[Sequence<Deed>],
    read: &Read,
    given: &Given,
    forgets: bool,
) -> Result<Vec<Sequence<Deed>>, AllocError> {
    let mut changed = Vec::new(alloc);
    for (p, deeds) in parts.iter().enumerate() {
        let own = if p == read.process { Some(given) } else { None };
        changed.push(part_with(alloc, deeds.items(), read, own, forgets)?)?;
    }
    Ok(changed)
}

// The deeds of a process, where the read gives this if it is its own.
fn part_with(
    alloc: Global,
    deeds: &[Deed],
    read: &Read,
    own: Option<&Given>,
    forgets: bool,
) -> Result<Sequence<Deed>, AllocError> {
    let mut changed = Sequence::new(alloc);
    for (place, deed) in deeds.iter().enumerate() {
        let form = match own {
            None => *deed.form(),
            Some(given) => form_with(deed, place, read, given, forgets),
        };
        changed.push(Deed::new(form))?;
    }
    Ok(changed)
}

fn form_with(deed: &Deed, place: usize, read: &Read, given: &Given, forgets: bool) -> Form {
    if place == read.place {
        Form::Loads {
            cell: read.cell,
            value: given.value,
            writer: given.writer,
            stamp: given.stamp,
            point: read.point,
        }
    } else if forgets && place < read.place && read_in(deed, &read.cell).is_some() {
        Form::Refers { point: read.point }
    } else {
        *deed.form()
    }
}
