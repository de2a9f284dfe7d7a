//! Access lists.
ghost use Rattle.std.specs.Prelude.{◌≡◌, ◌↔◌, ◌+◌, ◌≤◌, length, [], Some, None, true, false, not, IsOk, IsSome, IfSome, IfNone, IfOk, OnOk, OnErr, T, is_some, if◌then◌else◌};
ghost use Rattle.std.specs.FinMap.Entries.{put, find, where_key, is_sorted};
ghost use Rattle.std.specs.Ordering.{eq_by_cmp};
ghost use Rattle.std.specs.Option.{option_map};
ghost use Rattle.mx_acl.specs.Access.{deciding};
ghost use Rattle.mx_name.specs.Identifiers.{PlainAclId, id_matches, id_rank};
ghost use Rattle.mx_name.specs.IdentifierOrder.{id_cmp};

use crate::modes::{AclKind, Modes};
use indexmap::IndexMap;
use mx_name::{AclId, Principal};
use std::alloc::{AllocError, Global};
use std::marker::Model;
use thiserror::Error;

/// Why an entry is not set. The variants are tested in this order.
#[derive(Clone, Copy, Debug, PartialEq, Eq, Error)]
pub enum AclError {
    /// A letter is of the other kind of list, or m stands without s.
    #[error("invalid mode")]
    InvalidMode,
    /// The list has 64 entries, and the identifier is not among them.
    #[error("access list full")]
    Full,
    /// Out of memory; the entry may be set.
    #[error("out of memory")]
    Memory,
}

impl From<AllocError> for AclError {
    ghost use Rattle.mx_acl.specs.declared.lists.AclError.TheVariants.{Memory};

    ghost from_gives = { λ _ e. e ≡ Memory };

    fn from(_error: AllocError) -> AclError {
        AclError::Memory
    }
}

/// The most entries of an access list (this model's choice).
const MOST: usize = 64;

/// The identifier is not among the entries.
#[derive(Clone, Copy, Debug, PartialEq, Eq, Error)]
#[error("no such entry")]
pub struct NoEntry;

/// An access control list: a set of at most 64 pairs of an identifier and modes, no identifier twice. They are kept by
/// rank, equal ranks in byte order of their texts (this model's choice).
#[derive(Debug, Drop)]
pub struct Acl {
    kind: AclKind,
    entries: IndexMap<AclId, Modes>,
}

impl Model for Acl {
    ghost use Rattle.mx_acl.specs.Access.{Access, IsAccess};

    ghost Value = { Access };

    ghost view = { λ a. record { kind = a.kind; entries = a.entries.entries } };

    ghost invariant = { λ a. IsAccess a.entries.entries };
}

impl Clone for Acl {
    ghost is_clone = { λ a b. b ≡ a };

    fn clone(&self) -> Result<Acl, AllocError> {
        let entries = copy_entries(&self.entries)?;
        Ok(Acl {
            kind: self.kind,
            entries,
        })
    }
}

impl Acl {
    ghost use Rattle.mx_name.specs.Answers.{unless, Answers};
    ghost use Rattle.mx_acl.specs.Access.{IsAccess, same_id, entry_of, with_entry, without_entry, fault_within, set_fault, modes_for};
    ghost use Rattle.mx_acl.specs.Deciding.{IsMatch, IsDeciding};

    /// The empty list of a kind. Takes no memory yet.
    pub fn new(alloc: Global, kind: AclKind) -> Acl
        ensures { result ≡ record { kind = kind; entries = [] } }
    {
        Acl {
            kind,
            entries: IndexMap::new(alloc),
        }
    }

    /// The kind of the list.
    pub fn kind(&self) -> AclKind
        ensures value { result ≡ self.now.kind }
        ensures access { IsAccess self.now.entries }
    {
        self.kind
    }

    /// Another list with the same entries.
    pub fn copy(&self) -> Result<Acl, AllocError>
        ensures { IfOk result (λ acl. acl ≡ self.now) }
    {
        self.clone()
    }

    /// Sets the modes of an identifier, anew or in place of those that stand. `InvalidMode` exactly where a letter is
    /// of the other kind or m stands without s; then `Full` exactly where 64 entries stand and the identifier is not
    /// among them. A refusal comes as itself, never as `Memory`: it is found before any memory is taken. Whatever is
    /// answered but `Ok`, nothing has changed.
    pub fn set(&mut self, id: AclId, modes: Modes) -> Result<(), AclError>
        ensures answer { Answers AclError.Memory (unless (set_fault self.old id modes) tt) result }
        ensures ok { OnOk result (self.new ≡ with_entry self.old id modes) }
        ensures entries { OnOk result ((other : PlainAclId)
            → entry_of self.new other ≡ (if same_id other id then Some modes else entry_of self.old other)) }
        ensures err { OnErr result (self.new ≡ self.old) }
    {
        self.set_within(MOST, id, modes)
    }

    /// The same where so many entries fill the list.
    pub(crate) fn set_within(
        &mut self,
        limit: usize,
        id: AclId,
        modes: Modes,
    ) -> Result<(), AclError>
        requires { limit ≤ 64 }
        ensures answer { Answers AclError.Memory (unless (fault_within limit self.old id modes) tt) result }
        ensures ok { OnOk result (self.new ≡ with_entry self.old id modes) }
        ensures entries { OnOk result ((other : PlainAclId)
            → entry_of self.new other ≡ (if same_id other id then Some modes else entry_of self.old other)) }
        ensures err { OnErr result (self.new ≡ self.old) }
        ensures within { length self.old.entries ≤ limit → length self.new.entries ≤ limit }
    {
        if let Some(fault) = self.fault_within(limit, &id, modes) {
            return Err(fault);
        }
        put_entry(&mut self.entries, id, modes)?;
        Ok(())
    }

    /// Sets an entry where there is room for one more, whatever its modes.
    pub(crate) fn put(&mut self, id: AclId, modes: Modes) -> Result<(), AllocError>
        requires { length self.old.entries ≤ 63 }
        ensures { OnOk result (self.new ≡ with_entry self.old id modes) }
    {
        put_entry(&mut self.entries, id, modes)?;
        Ok(())
    }

    /// Removes the entry of an identifier. `NoEntry` exactly where the identifier is not among the entries, and then
    /// nothing changes. Takes no memory.
    pub fn remove(&mut self, id: &AclId) -> Result<(), NoEntry>
        ensures found { IsOk result ↔ IsSome (entry_of self.old id.now) }
        ensures ok { OnOk result (self.new ≡ without_entry self.old id.now) }
        ensures entries { OnOk result ((other : PlainAclId)
            → entry_of self.new other ≡ (if same_id other id.now then None else entry_of self.old other)) }
        ensures err { OnErr result (self.new ≡ self.old) }
    {
        if take_entry(&mut self.entries, id) {
            Ok(())
        } else {
            Err(NoEntry)
        }
    }

    /// The modes of a principal: those of the entry of least rank among those that match, null where none matches.
    /// Takes no memory.
    #[inline(always)]
    pub fn modes_of(&self, who: &Principal) -> Modes
        ensures value { result ≡ modes_for self.now who.now }
        ensures least { (id : PlainAclId) (modes : Modes) → IsDeciding self.now who.now id modes → result ≡ modes }
        ensures none { ((id : PlainAclId) (modes : Modes) → IsMatch self.now who.now id modes → ⊥)
            → result ≡ Modes.Null }
    {
        self.decided(who)
    }

    fn decided(&self, who: &Principal) -> Modes
        ensures value { result ≡ modes_for self.now who.now }
        ensures sorted { T (is_sorted id_cmp self.now.entries) }
    {
        match self.first(who) {
            Some((_, modes)) => modes,
            None => Modes::Null,
        }
    }

    /// The entry that decides for a principal, with its modes: the one of least rank among those that match. None where
    /// none matches. Takes no memory.
    pub fn deciding(&self, who: &Principal) -> Option<(&AclId, Modes)>
        ensures value { option_map (λ pair. (pair.0.now, pair.1)) result ≡ deciding who.now self.now.entries }
        ensures least { IfSome result (λ pair. IsDeciding self.now who.now pair.0.now pair.1) }
        ensures none { IfNone result ((id : PlainAclId) (modes : Modes) → IsMatch self.now who.now id modes → ⊥) }
    {
        self.first(who)
    }

    fn first(&self, who: &Principal) -> Option<(&AclId, Modes)>
        ensures value { option_map (λ pair. (pair.0.now, pair.1)) result ≡ deciding who.now self.now.entries }
        ensures sorted { T (is_sorted id_cmp self.now.entries) }
    {
        first_match(&self.entries, who)
    }

    fn fault_within(&self, limit: usize, id: &AclId, modes: Modes) -> Option<AclError>
        ensures { result ≡ fault_within limit self.now id.now modes }
    {
        if !modes.suits(self.kind) {
            return Some(AclError::InvalidMode);
        }
        if !has_entry(&self.entries, id) && self.entries.len() >= limit {
            return Some(AclError::Full);
        }
        None
    }
}

fn has_entry(entries: &IndexMap<AclId, Modes>, id: &AclId) -> bool
    ensures { result ≡ is_some (find id_cmp id.now entries.now.entries) }
{
    entries.contains_key(id)
}

fn put_entry(
    entries: &mut IndexMap<AclId, Modes>,
    id: AclId,
    modes: Modes,
) -> Result<(), AllocError>
    requires { T (is_sorted id_cmp entries.old.entries) }
    ensures ok { OnOk result (entries.new.entries ≡ put id_cmp id modes entries.old.entries) }
    ensures sorted { T (is_sorted id_cmp entries.new.entries) }
    ensures count { OnOk result (length entries.new.entries ≡ (if is_some (find id_cmp id entries.old.entries) then length entries.old.entries else length entries.old.entries + 1)) }
    ensures entries { OnOk result ((other : PlainAclId) → find id_cmp other entries.new.entries ≡ (if eq_by_cmp id_cmp other id then Some modes else find id_cmp other entries.old.entries)) }
    ensures err { OnErr result (entries.new.entries ≡ entries.old.entries) }
{
    entries.insert_sorted(id, modes)?;
    Ok(())
}

fn copy_entries(entries: &IndexMap<AclId, Modes>) -> Result<IndexMap<AclId, Modes>, AllocError>
    ensures { IfOk result (λ copy. copy.entries ≡ entries.now.entries) }
{
    entries.clone()
}

/// Takes the entry of an identifier out, and says whether there was one.
fn take_entry(entries: &mut IndexMap<AclId, Modes>, id: &AclId) -> bool
    requires { T (is_sorted id_cmp entries.old.entries) }
    ensures found { result ≡ is_some (find id_cmp id.now entries.old.entries) }
    ensures taken { entries.new.entries ≡ where_key id_cmp (λ other. not (eq_by_cmp id_cmp id.now other)) entries.old.entries }
    ensures sorted { T (is_sorted id_cmp entries.new.entries) }
    ensures entries { (other : PlainAclId) → find id_cmp other entries.new.entries ≡ (if eq_by_cmp id_cmp other id.now then None else find id_cmp other entries.old.entries) }
    ensures count { length entries.new.entries ≤ length entries.old.entries }
    ensures absent { result ≡ false → entries.new.entries ≡ entries.old.entries }
{
    entries.shift_remove(id).is_some()
}

/// The first entry that matches.
#[tactic(auto, using(crate::proofs::DecidingLaws::first_decides))]
fn first_match<'a>(
    entries: &'a IndexMap<AclId, Modes>,
    who: &Principal,
) -> Option<(&'a AclId, Modes)>
    requires { T (is_sorted id_cmp entries.now.entries) }
    ensures { option_map (λ pair. (pair.0.now, pair.1)) result ≡ deciding who.now entries.now.entries }
{
    for (id, modes) in entries {
        if id.matches(who) {
            return Some((id, *modes));
        }
    }
    None
}

/// Law: two entries that match one principal never have equal rank.
pub fn one_of_a_rank(a: &AclId, b: &AclId, who: &Principal)
    ensures { id_matches a.now who.now ≡ true → id_matches b.now who.now ≡ true
        → id_rank a.now ≡ id_rank b.now → a.now ≡ b.now }
{}
