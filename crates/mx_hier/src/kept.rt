//! The names in one directory, as they are kept once there was one.
ghost use Rattle.std.specs.Prelude.{◌≡◌, ◌==◌, ◌+◌, ◌<◌, ◌≤◌, ◌++◌, ℕ, List, [], ◌∷◌, None, IfOk, OnOk, OnErr, length};
ghost use Rattle.std.specs.Cmp.Lexicographic.{pointwise, slice_cmp};
ghost use Rattle.std.specs.List.{Contains, IsDistinct, insert, slice_index_or, sum_by};
ghost use Rattle.std.specs.List.Sorted.{IsSorted};
ghost use Rattle.std.specs.Ordering.{nat_cmp};
ghost use Rattle.std.specs.Vec.{vec_capacity};
ghost use Rattle.std.specs.Map.{keys_of, lookup, remove_entry};
ghost use Rattle.mx_hier.specs.List.{in_byte_order};
ghost use Rattle.mx_hier.specs.Listed.{renamed};

use crate::names::Names;
use indexmap::IndexMap;
use mx_name::{BorrowedName, EntryName};
use std::alloc::{AllocError, Global};
use std::marker::Model;

/// The names in one directory, each with the uid of its branch, in the order of their making; and once more, alone and
/// in byte order, for `list`.
#[derive(Drop)]
pub(crate) struct Kept {
    uids: IndexMap<EntryName, u32>,
    sorted: Vec<EntryName>,
    /// The names as `list` gave them last, until they change.
    listed: Option<Names>,
}

impl Model for Kept {
    ghost use Rattle.std.specs.Prelude.{List, ℕ};
    ghost use Rattle.mx_hier.specs.Listed.{AreInOrder};

    ghost Value = { List (List ℕ × ℕ) };

    ghost view = { λ a. a.uids.entries };

    ghost invariant = { λ a. AreInOrder a.uids.entries a.sorted.items a.listed };
}

impl Kept {
    /// No names. Takes no memory yet.
    pub(crate) fn new(alloc: Global) -> Kept
        ensures { result ≡ [] }
    {
        Kept {
            uids: IndexMap::new(alloc),
            sorted: Vec::new(alloc),
            listed: None,
        }
    }

    /// The uid of a name.
    pub(crate) fn uid(&self, name: &EntryName) -> Option<u32>
        ensures { result ≡ lookup (pointwise ◌==◌ name.now) self.now }
    {
        self.uids.get(name).copied()
    }

    /// The uid of a name in place.
    #[inline(always)]
    pub(crate) fn found(&self, name: &BorrowedName) -> Option<u32>
        ensures { result ≡ lookup (pointwise ◌==◌ name.now) self.now }
    {
        self.uids.get(name).copied()
    }

    /// How many names there are.
    pub(crate) fn count(&self) -> usize
        ensures { result ≡ length self.now }
    {
        self.uids.len()
    }

    /// The names, in byte order. They are written once, and given again, without taking memory, until they change.
    pub(crate) fn names(&mut self, alloc: Global) -> Result<Names, AllocError>
        ensures names { IfOk result (λ names. names ≡ in_byte_order (keys_of self.old)) }
        ensures same { self.new ≡ self.old }
    {
        if let Some(listed) = &self.listed {
            return listed.share();
        }
        let names = Names::of(alloc, &self.sorted)?;
        let listed = names.share()?;
        self.listed = Some(listed);
        Ok(names)
    }

    /// Adds a name that is not there, last.
    pub(crate) fn add(&mut self, name: EntryName, uid: u32) -> Result<(), AllocError>
        requires { lookup (pointwise ◌==◌ name) self.old ≡ None }
        ensures ok { OnOk result (self.new ≡ self.old ++ (name, uid) ∷ []) }
        ensures err { OnErr result (self.new ≡ self.old) }
    {
        self.sorted.reserve(1)?;
        self.uids.insert(name, uid)?;
        self.listed = None;
        place(&mut self.sorted, name);
        Ok(())
    }

    /// Removes a name, if it is there.
    pub(crate) fn remove(&mut self, name: &EntryName)
        ensures after { self.new ≡ remove_entry (pointwise ◌==◌ name.now) self.old }
        ensures unique { IsDistinct (pointwise ◌==◌) (keys_of self.old) }
    {
        // `len` is called for its clause that no name stands twice.
        let _count = self.uids.len();
        if self.uids.shift_remove(name).is_some() {
            self.listed = None;
            displace(&mut self.sorted, name);
        }
    }

    /// Gives the entry of a name another name that is not there; it keeps its place. Where memory is wanting, nothing
    /// changes.
    pub(crate) fn rename(&mut self, old: &EntryName, new: EntryName) -> Result<(), AllocError>
        requires { lookup (pointwise ◌==◌ new) self.old ≡ None }
        ensures ok { OnOk result (self.new ≡ renamed old.now new self.old) }
        ensures err { OnErr result (self.new ≡ self.old) }
        ensures unique { IsDistinct (pointwise ◌==◌) (keys_of self.old) }
    {
        // `len` is called for its clause that no name stands twice.
        let _count = self.uids.len();
        match self.uid(old) {
            Some(uid) => {
                self.uids.insert(new, uid)?;
                // The last entry takes the place of the one that is removed.
                self.uids.swap_remove(old);
                self.listed = None;
                displace(&mut self.sorted, old);
                place(&mut self.sorted, new);
                Ok(())
            }
            None => Ok(()),
        }
    }
}

/// Puts a name among names in byte order, in room that there is.
fn place(names: &mut Vec<EntryName>, name: EntryName)
    requires room { length names.old.items < vec_capacity names.old }
    requires sorted { IsSorted (slice_cmp nat_cmp) names.old.items }
    ensures sorted { IsSorted (slice_cmp nat_cmp) names.new.items }
    ensures all { (f : List ℕ → ℕ) → sum_by f names.new.items ≡ f name + sum_by f names.old.items }
{
    let at = place_of(names, &name);
    // There is room, so that this does not fail.
    let _room = names.insert(at, name);
}

/// Where a name belongs among names in byte order.
fn place_of(names: &[EntryName], name: &EntryName) -> usize
    requires { IsSorted (slice_cmp nat_cmp) names.now }
    ensures sorted { IsSorted (slice_cmp nat_cmp) (insert names.now result name.now) }
    ensures within { result ≤ length names.now }
{
    match names.binary_search(name) {
        Ok(at) => at,
        Err(at) => at,
    }
}

/// Takes a name out of names in byte order.
fn displace(names: &mut Vec<EntryName>, name: &EntryName)
    requires sorted { IsSorted (slice_cmp nat_cmp) names.old.items }
    requires there { Contains names.old.items name.now }
    ensures sorted { IsSorted (slice_cmp nat_cmp) names.new.items }
    ensures all { (f : List ℕ → ℕ) → sum_by f names.old.items ≡ f name.now + sum_by f names.new.items }
    ensures room { length names.new.items < vec_capacity names.new }
{
    let at = position_of(names, name);
    names.remove(at);
}

/// Where a name stands among names in byte order.
fn position_of(names: &[EntryName], name: &EntryName) -> usize
    requires sorted { IsSorted (slice_cmp nat_cmp) names.now }
    requires there { Contains names.now name.now }
    ensures within { result < length names.now }
    ensures name { slice_index_or names.now result name.now ≡ name.now }
{
    match names.binary_search(name) {
        Ok(at) => at,
        Err(at) => at,
    }
}
