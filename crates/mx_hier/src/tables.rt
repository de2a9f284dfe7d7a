//! The branches, found by uid and by name.
ghost use Rattle.std.specs.Prelude.{◌≡◌, ℕ, ◌==◌, ◌+◌, ◌<◌, ◌≤◌, [], ◌∷◌, ◌++◌, Some, None, IfOk, IfSome, OnOk, OnErr, length, map, nat_le, not, is_ok, slice_set, vec_len};
ghost use Rattle.std.specs.List.{IsDistinct};
ghost use Rattle.std.specs.Map.{keys_of, lookup, remove_entry};
ghost use Rattle.std.specs.Cmp.Lexicographic.{pointwise};
ghost use Rattle.std.specs.Option.{is_none, option_map, option_and_then, unwrap_or};
ghost use Rattle.std.specs.Vec.{vec_capacity};
ghost use Rattle.mx_acl.specs.Access.{entry_of, with_entry, without_entry, set_fault};
ghost use Rattle.mx_hier.specs.Callers.{on};
ghost use Rattle.mx_hier.specs.declared.branches.Branch.{Branch as BranchValue};
ghost use Rattle.mx_hier.specs.Branches.{branch_of, entries_of, uid_in};
ghost use Rattle.mx_hier.specs.Changing.{branch_with_acl, branch_with_segment, branch_with_directory};
ghost use Rattle.mx_hier.specs.Delete.{without};
ghost use Rattle.mx_hier.specs.InitialLists.{initial_changed};
ghost use Rattle.mx_hier.specs.SetBrackets.{bracketed};
ghost use Rattle.mx_hier.specs.SetClass.{classed};
ghost use Rattle.mx_hier.specs.SetDirectoryBrackets.{dir_bracketed};
ghost use Rattle.mx_hier.specs.List.{in_byte_order};
ghost use Rattle.mx_hier.specs.Listed.{listed_added, listed_changed, present, slot_of, changed_at, acl_of, directory_of, iacl_fault, iacl_lacks, AclAnswers, kept_for, with_name, renamed, AreKept};

use crate::branches::{Branch, Node};
use crate::children::Children;
use crate::names::Names;
use crate::slots::{
    branch_at, put_name, remove_acl_at, remove_iacl_at, set_acl_at, set_brackets_at, set_class_at,
    set_dir_brackets_at, set_iacl_at, take_branch,
};
use mx_acl::{AclError, AclKind, Modes, NoEntry};
use mx_aim::Class;
use mx_name::{AclId, BorrowedName, EntryName};
use mx_sdw::{Brackets, Ring};
use std::alloc::{AllocError, Global};
use std::marker::Model;

/// So many uids have room from the beginning, so that in most sessions nothing is moved. Of room that is not used the system gives
/// addresses alone.
const ROOM: usize = 16_384;

/// The branches of a hierarchy: the branch of uid u stands in slot u - 1, which stays empty once it is removed, and the
/// names in a directory stand in the place of its uid, those of the root first.
#[derive(Drop)]
pub(crate) struct Tables {
    slots: Vec<Option<Branch>>,
    names: Vec<Children>,
}

impl Model for Tables {
    ghost use Rattle.std.specs.Prelude.{◌+◌, length};
    ghost use Rattle.mx_hier.specs.Listed.{Listed, present, AreKept};

    ghost Value = { Listed };

    ghost view = { λ a. record { branches = present a.slots.items; next = 1 + length a.slots.items } };

    ghost invariant = { λ a. AreKept a.slots.items a.names.items };
}

impl Tables {
    /// No branches; the first uid is 1. Takes room for [`ROOM`] uids.
    pub(crate) fn new(alloc: Global) -> Result<Tables, AllocError>
        ensures { IfOk result (λ tables. tables ≡ record { branches = []; next = 1 }) }
    {
        let mut names = Vec::with_capacity(alloc, ROOM)?;
        names.push(Children::new())?;
        let slots = Vec::with_capacity(alloc, ROOM)?;
        Ok(Tables { slots, names })
    }

    /// Whether no uid is left: the next would be 4,294,967,295.
    pub(crate) fn is_used_up(&self) -> bool
        ensures { result ≡ nat_le 4294967295 self.now.next }
    {
        self.slots.len() >= 4_294_967_294
    }

    /// The uid that is given next.
    pub(crate) fn next(&self) -> u32
        requires { self.now.next ≤ 4294967295 }
        ensures { result ≡ self.now.next }
    {
        self.slots.len() as u32 + 1
    }

    /// The branch of a uid.
    pub(crate) fn get(&self, uid: u32) -> Option<&Branch>
        ensures value { option_map (λ branch. branch.now) result ≡ branch_of self.now.branches uid }
        ensures below { IfSome result
            (λ branch. (branch.now.uid ≡ uid) × (branch.now.parent < uid) × (uid < self.now.next)) }
    {
        branch_at(&self.slots, uid)
    }

    /// The uid of a name in a directory.
    pub(crate) fn uid_in(&self, dir: u32, name: &EntryName) -> Option<u32>
        ensures value { result ≡ uid_in self.now.branches dir name.now }
        ensures below { IfSome result (λ uid. (1 ≤ uid) × (uid < self.now.next)) }
    {
        uid_at(&self.names, dir, name)
    }

    /// The uid of a name in a directory, by the name in place.
    #[inline(always)]
    pub(crate) fn found_in(&self, dir: u32, name: &BorrowedName) -> Option<u32>
        ensures value { result ≡ uid_in self.now.branches dir name.now }
        ensures below { IfSome result (λ uid. (1 ≤ uid) × (uid < self.now.next)) }
    {
        found_at(&self.names, dir, name)
    }

    /// How many entries a directory has.
    pub(crate) fn count_in(&self, dir: u32) -> usize
        ensures { result ≡ length (entries_of self.now.branches dir) }
    {
        match names_at(&self.names, dir) {
            Some(names) => names.count(),
            None => 0,
        }
    }

    /// The names of a directory's entries, in byte order.
    pub(crate) fn names_in(&mut self, alloc: Global, dir: u32) -> Result<Names, AllocError>
        ensures names { IfOk result (λ names.
            names ≡ in_byte_order (map (λ branch. branch.name) (entries_of self.old.branches dir))) }
        ensures same { self.new ≡ self.old }
    {
        let names = listed_at(&mut self.names, alloc, dir)?;
        Ok(names)
    }

    /// Adds a branch with the next uid to a directory that has no entry of this name. Where memory is wanting, nothing
    /// changes.
    pub(crate) fn add(
        &mut self,
        alloc: Global,
        dir: u32,
        name: &EntryName,
        node: Node,
    ) -> Result<(), AllocError>
        requires free { uid_in self.old.branches dir name.now ≡ None }
        requires below { dir < self.old.next }
        requires left { self.old.next < 4294967295 }
        ensures ok { OnOk result (self.new ≡ listed_added self.old dir name.now node) }
        ensures err { OnErr result (self.new ≡ self.old) }
    {
        let branch = Branch {
            uid: self.slots.len() as u32 + 1,
            parent: dir,
            name: *name,
            node,
        };
        add_branch(alloc, &mut self.slots, &mut self.names, branch)?;
        Ok(())
    }

    /// Removes the branch of a uid, if there is one. Takes no memory.
    pub(crate) fn remove(&mut self, uid: u32)
        ensures { self.new ≡ record self.old { branches = without uid self.old.branches } }
    {
        remove_branch(&mut self.slots, &mut self.names, uid);
    }

    /// Sets the modes of an identifier in the access list of what stands at a uid, as `Acl::set` does; `Memory` may
    /// come in place of a refusal. Nothing changes on an error, nor where there is no access list.
    pub(crate) fn set_acl(&mut self, uid: u32, id: &AclId, modes: Modes) -> Result<(), AclError>
        ensures answer { AclAnswers
            (option_and_then (λ acl. set_fault acl id.now modes) (acl_of self.old.branches uid)) result }
        ensures ok { OnOk result
            (self.new ≡ listed_changed self.old uid (branch_with_acl (λ acl. with_entry acl id.now modes))) }
        ensures err { OnErr result (self.new ≡ self.old) }
    {
        set_acl_at(&mut self.slots, uid, id, modes)
    }

    /// Removes the entry of an identifier from the access list of what stands at a uid. `NoEntry` exactly where the
    /// list has none; nothing changes then, nor where there is no access list. Takes no memory.
    pub(crate) fn remove_acl(&mut self, uid: u32, id: &AclId) -> Result<(), NoEntry>
        ensures found { is_ok result ≡ not (on (λ acl. is_none (entry_of acl id.now)) (acl_of self.old.branches uid)) }
        ensures ok { OnOk result
            (self.new ≡ listed_changed self.old uid (branch_with_acl (λ acl. without_entry acl id.now))) }
        ensures err { OnErr result (self.new ≡ self.old) }
    {
        remove_acl_at(&mut self.slots, uid, id)
    }

    /// Sets the brackets of a segment; nothing changes where none stands at the uid.
    pub(crate) fn set_brackets(&mut self, uid: u32, brackets: Brackets)
        ensures { self.new ≡ listed_changed self.old uid (branch_with_segment (bracketed brackets)) }
    {
        set_brackets_at(&mut self.slots, uid, brackets);
    }

    /// Sets the class of a segment; nothing changes where none stands at the uid.
    pub(crate) fn set_class(&mut self, uid: u32, class: Class)
        ensures { self.new ≡ listed_changed self.old uid (branch_with_segment (classed class)) }
    {
        set_class_at(&mut self.slots, uid, class);
    }

    /// Sets the brackets of a directory; nothing changes where none stands at the uid.
    pub(crate) fn set_dir_brackets(&mut self, uid: u32, d1: Ring, d2: Ring)
        ensures { self.new ≡ listed_changed self.old uid (branch_with_directory (dir_bracketed d1 d2)) }
    {
        set_dir_brackets_at(&mut self.slots, uid, d1, d2);
    }

    /// Sets the modes of an identifier in the initial access list of the directory of a uid for what is made of a kind,
    /// as `InitialAcl::set` does. Nothing changes on an error, nor where no directory stands at the uid.
    pub(crate) fn set_iacl(
        &mut self,
        uid: u32,
        kind: AclKind,
        id: &AclId,
        modes: Modes,
    ) -> Result<(), AclError>
        ensures answer { AclAnswers (iacl_fault kind id.now modes (directory_of self.old.branches uid)) result }
        ensures ok { OnOk result (self.new ≡ listed_changed self.old uid
            (branch_with_directory (initial_changed kind (λ initial. with_entry initial id.now modes)))) }
        ensures err { OnErr result (self.new ≡ self.old) }
    {
        set_iacl_at(&mut self.slots, uid, kind, id, modes)
    }

    /// Removes the entry of an identifier from that list. `NoEntry` exactly where it has none; nothing changes then,
    /// nor where no directory stands at the uid. Takes no memory.
    pub(crate) fn remove_iacl(&mut self, uid: u32, kind: AclKind, id: &AclId) -> Result<(), NoEntry>
        ensures found { is_ok result ≡ not (iacl_lacks kind id.now (directory_of self.old.branches uid)) }
        ensures ok { OnOk result (self.new ≡ listed_changed self.old uid
            (branch_with_directory (initial_changed kind (λ initial. without_entry initial id.now)))) }
        ensures err { OnErr result (self.new ≡ self.old) }
    {
        remove_iacl_at(&mut self.slots, uid, kind, id)
    }

    /// Gives the branch of a uid another name, which no entry of its directory has; it keeps its place. Nothing
    /// changes where there is no branch, nor where memory is wanting.
    pub(crate) fn rename(&mut self, uid: u32, name: &EntryName) -> Result<(), AllocError>
        requires free { (branch : BranchValue)
            → branch_of self.old.branches uid ≡ Some branch → uid_in self.old.branches branch.parent name.now ≡ None }
        ensures ok { OnOk result (self.new
            ≡ listed_changed self.old uid (with_name name.now)) }
        ensures err { OnErr result (self.new ≡ self.old) }
    {
        rename_branch(&mut self.slots, &mut self.names, uid, name)
    }
}

fn names_at(names: &[Children], dir: u32) -> Option<&Children>
    ensures { kept_for names.now dir ≡ unwrap_or (option_map (λ kept. kept.now) result) [] }
{
    names.get(dir as usize)
}

fn uid_at(names: &[Children], dir: u32, name: &EntryName) -> Option<u32>
    ensures { result ≡ lookup (pointwise ◌==◌ name.now) (kept_for names.now dir) }
{
    match names_at(names, dir) {
        Some(kept) => kept.uid(name),
        None => None,
    }
}

#[inline(always)]
fn found_at(names: &[Children], dir: u32, name: &BorrowedName) -> Option<u32>
    ensures { result ≡ lookup (pointwise ◌==◌ name.now) (kept_for names.now dir) }
{
    match names_at(names, dir) {
        Some(kept) => kept.found(name),
        None => None,
    }
}

fn listed_at(names: &mut [Children], alloc: Global, dir: u32) -> Result<Names, AllocError>
    ensures names { IfOk result (λ listed. listed ≡ in_byte_order (keys_of (kept_for names.old dir))) }
    ensures same { names.new ≡ names.old }
{
    let at = dir as usize;
    if at < names.len() {
        let listed = names[at].names(alloc)?;
        Ok(listed)
    } else {
        Names::of(alloc, &[])
    }
}

fn add_branch(
    alloc: Global,
    slots: &mut Vec<Option<Branch>>,
    names: &mut Vec<Children>,
    branch: Branch,
) -> Result<(), AllocError>
    requires kept { AreKept slots.old.items names.old.items }
    requires own { branch.uid ≡ 1 + length slots.old.items }
    requires parent { branch.parent < 1 + length slots.old.items }
    requires free { uid_in (present slots.old.items) branch.parent branch.name ≡ None }
    ensures kept { AreKept slots.new.items names.new.items }
    ensures ok { OnOk result (slots.new.items ≡ slots.old.items ++ Some branch ∷ []) }
    ensures err { OnErr result (slots.new.items ≡ slots.old.items) }
{
    give_name(alloc, slots, names, &branch)?;
    slots.push_reserved(Some(branch));
    Ok(())
}

/// Makes room for a branch, and puts its name among those of its directory.
fn give_name(
    alloc: Global,
    slots: &mut Vec<Option<Branch>>,
    names: &mut Vec<Children>,
    branch: &Branch,
) -> Result<(), AllocError>
    requires kept { AreKept slots.old.items names.old.items }
    requires own { branch.now.uid ≡ 1 + length slots.old.items }
    requires parent { branch.now.parent < 1 + length slots.old.items }
    requires free { uid_in (present slots.old.items) branch.now.parent branch.now.name ≡ None }
    ensures same { slots.new.items ≡ slots.old.items }
    ensures room { OnOk result (vec_len slots.new < vec_capacity slots.new) }
    ensures ok { OnOk result (AreKept (slots.old.items ++ Some branch.now ∷ []) names.new.items) }
    ensures err { OnErr result (AreKept slots.new.items names.new.items) }
{
    widen(names, slots.len() + 2)?;
    slots.reserve(1)?;
    add_name(alloc, names, branch.parent, branch.name, branch.uid)?;
    Ok(())
}

/// Makes room for the names in one more directory.
fn widen(names: &mut Vec<Children>, count: usize) -> Result<(), AllocError>
    requires { count ≤ length names.old.items + 1 }
    ensures same { (dir : ℕ) → kept_for names.new.items dir ≡ kept_for names.old.items dir }
    ensures longer { length names.old.items ≤ length names.new.items }
    ensures ok { OnOk result (count ≤ length names.new.items) }
{
    if names.len() < count {
        names.push(Children::new())?;
    }
    Ok(())
}

fn add_name(
    alloc: Global,
    names: &mut Vec<Children>,
    dir: u32,
    name: EntryName,
    uid: u32,
) -> Result<(), AllocError>
    requires within { dir < length names.old.items }
    requires free { lookup (pointwise ◌==◌ name) (kept_for names.old.items dir) ≡ None }
    ensures ok { OnOk result (names.new.items
        ≡ slice_set names.old.items dir (kept_for names.old.items dir ++ (name, uid) ∷ [])) }
    ensures err { OnErr result (names.new.items ≡ names.old.items) }
{
    names[dir as usize].add(alloc, name, uid)?;
    Ok(())
}

fn remove_branch(slots: &mut Vec<Option<Branch>>, names: &mut Vec<Children>, uid: u32)
    requires { AreKept slots.old.items names.old.items }
    ensures kept { AreKept slots.new.items names.new.items }
    ensures len { length slots.new.items ≡ length slots.old.items }
    ensures branches { present slots.new.items ≡ without uid (present slots.old.items) }
{
    if let Some(branch) = take_branch(slots, uid) {
        remove_name(names, branch.parent, &branch.name);
    }
}

fn remove_name(names: &mut Vec<Children>, dir: u32, name: &EntryName)
    requires { dir < length names.old.items }
    ensures after { names.new.items
        ≡ slice_set names.old.items dir (remove_entry (pointwise ◌==◌ name.now) (kept_for names.old.items dir)) }
    ensures unique { IsDistinct (pointwise ◌==◌) (keys_of (kept_for names.old.items dir)) }
{
    names[dir as usize].remove(name);
}

fn rename_branch(
    slots: &mut Vec<Option<Branch>>,
    names: &mut Vec<Children>,
    uid: u32,
    name: &EntryName,
) -> Result<(), AllocError>
    requires kept { AreKept slots.old.items names.old.items }
    requires free { (branch : BranchValue)
        → slot_of slots.old.items uid ≡ Some branch → uid_in (present slots.old.items) branch.parent name.now ≡ None }
    ensures kept { AreKept slots.new.items names.new.items }
    ensures ok { OnOk result (slots.new.items ≡ changed_at slots.old.items uid (with_name name.now)) }
    ensures err { OnErr result (slots.new.items ≡ slots.old.items) }
{
    let Some(branch) = branch_at(slots, uid) else {
        return Ok(());
    };
    rename_in(names, branch.parent, &branch.name, name)?;
    put_name(slots, uid, *name);
    Ok(())
}

fn rename_in(
    names: &mut Vec<Children>,
    dir: u32,
    old: &EntryName,
    new: &EntryName,
) -> Result<(), AllocError>
    requires within { dir < length names.old.items }
    requires free { lookup (pointwise ◌==◌ new.now) (kept_for names.old.items dir) ≡ None }
    ensures ok { OnOk result (names.new.items
        ≡ slice_set names.old.items dir (renamed old.now new.now (kept_for names.old.items dir))) }
    ensures err { OnErr result (names.new.items ≡ names.old.items) }
    ensures unique { OnOk result (IsDistinct (pointwise ◌==◌) (keys_of (kept_for names.old.items dir))) }
{
    names[dir as usize].rename(old, *new)?;
    Ok(())
}
