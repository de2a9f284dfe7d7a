//! The names in one directory.
ghost use Rattle.std.specs.Prelude.{◌≡◌, ◌==◌, ◌++◌, [], ◌∷◌, None, IfOk, OnOk, OnErr, length};
ghost use Rattle.std.specs.Cmp.Lexicographic.{pointwise};
ghost use Rattle.std.specs.List.{IsDistinct};
ghost use Rattle.std.specs.Map.{keys_of, lookup, remove_entry};
ghost use Rattle.mx_hier.specs.List.{in_byte_order};
ghost use Rattle.mx_hier.specs.Listed.{renamed};

use crate::kept::Kept;
use crate::names::Names;
use mx_name::{BorrowedName, EntryName};
use std::alloc::{AllocError, Global};
use std::marker::Model;

/// The names in one directory, each with the uid of its branch, in the order of their making. They stand on the heap,
/// and only once there was one: most uids are of segments and links, which have none.
#[derive(Drop)]
pub(crate) struct Children {
    kept: Option<Box<Kept>>,
}

impl Model for Children {
    ghost use Rattle.std.specs.Prelude.{List, ℕ, []};
    ghost use Rattle.std.specs.Option.{option_map, unwrap_or};

    ghost Value = { List (List ℕ × ℕ) };

    ghost view = { λ a. unwrap_or (option_map (λ kept. kept.value) a.kept) [] };
}

impl Children {
    /// No names. Takes no memory yet.
    pub(crate) fn new() -> Children
        ensures { result ≡ [] }
    {
        Children { kept: None }
    }

    /// The uid of a name.
    pub(crate) fn uid(&self, name: &EntryName) -> Option<u32>
        ensures { result ≡ lookup (pointwise ◌==◌ name.now) self.now }
    {
        match &self.kept {
            Some(kept) => kept.uid(name),
            None => None,
        }
    }

    /// The uid of a name in place.
    #[inline(always)]
    pub(crate) fn found(&self, name: &BorrowedName) -> Option<u32>
        ensures { result ≡ lookup (pointwise ◌==◌ name.now) self.now }
    {
        match &self.kept {
            Some(kept) => kept.found(name),
            None => None,
        }
    }

    /// How many names there are.
    pub(crate) fn count(&self) -> usize
        ensures { result ≡ length self.now }
    {
        match &self.kept {
            Some(kept) => kept.count(),
            None => 0,
        }
    }

    /// The names, in byte order. They are written once, and given again, without taking memory, until they change.
    pub(crate) fn names(&mut self, alloc: Global) -> Result<Names, AllocError>
        ensures names { IfOk result (λ names. names ≡ in_byte_order (keys_of self.old)) }
        ensures same { self.new ≡ self.old }
    {
        match &mut self.kept {
            Some(kept) => kept.names(alloc),
            None => Names::of(alloc, &[]),
        }
    }

    /// Adds a name that is not there, last.
    pub(crate) fn add(&mut self, alloc: Global, name: EntryName, uid: u32) -> Result<(), AllocError>
        requires { lookup (pointwise ◌==◌ name) self.old ≡ None }
        ensures ok { OnOk result (self.new ≡ self.old ++ (name, uid) ∷ []) }
        ensures err { OnErr result (self.new ≡ self.old) }
    {
        match &mut self.kept {
            Some(kept) => kept.add(name, uid),
            None => {
                let mut kept = Kept::new(alloc);
                kept.add(name, uid)?;
                self.kept = Some(Box::new(alloc, kept)?);
                Ok(())
            }
        }
    }

    /// Removes a name, if it is there.
    #[tactic(auto, using(crate::proofs::KeyLaws::none_distinct))]
    pub(crate) fn remove(&mut self, name: &EntryName)
        ensures after { self.new ≡ remove_entry (pointwise ◌==◌ name.now) self.old }
        ensures unique { IsDistinct (pointwise ◌==◌) (keys_of self.old) }
    {
        let Some(kept) = &mut self.kept else {
            return;
        };
        kept.remove(name);
    }

    /// Gives the entry of a name another name that is not there; it keeps its place. Where memory is wanting, nothing
    /// changes.
    #[tactic(auto, using(crate::proofs::KeyLaws::none_distinct))]
    pub(crate) fn rename(&mut self, old: &EntryName, new: EntryName) -> Result<(), AllocError>
        requires { lookup (pointwise ◌==◌ new) self.old ≡ None }
        ensures ok { OnOk result (self.new ≡ renamed old.now new self.old) }
        ensures err { OnErr result (self.new ≡ self.old) }
        ensures unique { IsDistinct (pointwise ◌==◌) (keys_of self.old) }
    {
        let Some(kept) = &mut self.kept else {
            return Ok(());
        };
        kept.rename(old, new)
    }
}
