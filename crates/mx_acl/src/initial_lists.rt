//! Initial access lists.
ghost use Rattle.std.specs.Prelude.{◌≡◌, ◌↔◌, [], Some, None, true, IsOk, IsSome, IfOk, OnOk, OnErr, if◌then◌else◌};
ghost use Rattle.mx_acl.specs.Access.{same_id, entry_of, with_entry, without_entry};
ghost use Rattle.mx_acl.specs.InitialLists.{IsInitialAccess, initial_fault, acl_for};
ghost use Rattle.mx_acl.specs.Modes.{suits};
ghost use Rattle.mx_name.specs.Answers.{unless, Answers};
ghost use Rattle.mx_name.specs.Identifiers.{PlainAclId};

use crate::lists::{Acl, AclError, NoEntry};
use crate::modes::{AclKind, Modes};
use mx_name::AclId;
use std::alloc::{AllocError, Global};
use std::marker::Model;

/// The most entries of an initial access list: one less than of an access list, so that the maker's has room beside
/// them.
const MOST: usize = 63;

/// An initial access list: a set of at most 63 pairs of an identifier and modes, no identifier twice. A directory has
/// one for the segments and one for the directories that are made in it (this model's choice, where Multics had a pair
/// for each ring).
#[derive(Debug, Drop)]
pub struct InitialAcl {
    list: Acl,
}

impl Model for InitialAcl {
    ghost use Rattle.std.specs.Prelude.{◌≤◌, length};
    ghost use Rattle.mx_acl.specs.Access.{Access};
    ghost use Rattle.mx_acl.specs.InitialLists.{most_initial_entries};

    ghost Value = { Access };

    ghost view = { λ a. a.list };

    ghost invariant = { λ a. length a.list.entries ≤ most_initial_entries };
}

impl Clone for InitialAcl {
    ghost is_clone = { λ a b. b ≡ a };

    fn clone(&self) -> Result<InitialAcl, AllocError> {
        let list = self.list.copy()?;
        Ok(InitialAcl { list })
    }
}

impl InitialAcl {
    /// The empty list for what is made of a kind. Takes no memory yet.
    pub fn new(alloc: Global, kind: AclKind) -> InitialAcl
        ensures { result ≡ record { kind = kind; entries = [] } }
    {
        InitialAcl {
            list: Acl::new(alloc, kind),
        }
    }

    /// The kind of what gets the list.
    pub fn kind(&self) -> AclKind
        ensures value { result ≡ self.now.kind }
        ensures access { IsInitialAccess self.now.entries }
    {
        self.list.kind()
    }

    /// Another list with the same entries.
    pub fn copy(&self) -> Result<InitialAcl, AllocError>
        ensures { IfOk result (λ initial. initial ≡ self.now) }
    {
        self.clone()
    }

    /// Sets the modes of an identifier, as `Acl::set` does, but that 63 entries fill the list: `InvalidMode` first, then
    /// `Full` exactly where 63 entries stand and the identifier is not among them. Whatever is answered but `Ok`,
    /// nothing has changed.
    pub fn set(&mut self, id: AclId, modes: Modes) -> Result<(), AclError>
        ensures answer { Answers AclError.Memory (unless (initial_fault self.old id modes) tt) result }
        ensures ok { OnOk result (self.new ≡ with_entry self.old id modes) }
        ensures entries { OnOk result ((other : PlainAclId)
            → entry_of self.new other ≡ (if same_id other id then Some modes else entry_of self.old other)) }
        ensures err { OnErr result (self.new ≡ self.old) }
    {
        self.list.set_within(MOST, id, modes)
    }

    /// Removes the entry of an identifier. `NoEntry` exactly where the identifier is not among the entries, and then
    /// nothing changes. Takes no memory.
    pub fn remove(&mut self, id: &AclId) -> Result<(), NoEntry>
        ensures found { IsOk result ↔ IsSome (entry_of self.old id.now) }
        ensures ok { OnOk result (self.new ≡ without_entry self.old id.now) }
        ensures entries { OnOk result ((other : PlainAclId)
            → entry_of self.new other ≡ (if same_id other id.now then None else entry_of self.old other)) }
        ensures err { OnErr result (self.new ≡ self.old) }
    {
        self.list.remove(id)?;
        Ok(())
    }

    /// The access list of what is made: the entries of this list, and the maker's, in place of one with the same
    /// identifier. There is room for it. The modes have to suit the kind.
    pub fn acl_for(&self, maker: AclId, modes: Modes) -> Result<Acl, AllocError>
        requires { suits self.now.kind modes ≡ true }
        ensures { IfOk result (λ acl. acl ≡ acl_for self.now maker modes) }
    {
        let mut acl = self.list.copy()?;
        acl.put(maker, modes)?;
        Ok(acl)
    }
}
