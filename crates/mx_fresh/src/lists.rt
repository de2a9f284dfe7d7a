//! The branches in the order of their making, with the uid that is given next.

ghost use Rattle.std.specs.Prelude.{◌≡◌, ◌==◌, ◌<◌, [], vec_len, Some, not, is_ok, OnOk, OnErr, position, slice_get, slice_set};
ghost use Rattle.std.specs.Option.{is_none, option_and_then};
ghost use Rattle.mx_acl.specs.Access.{entry_of, with_entry, without_entry, set_fault};
ghost use Rattle.mx_hier.specs.Branches.{as_directory};
ghost use Rattle.mx_hier.specs.Callers.{on};
ghost use Rattle.mx_hier.specs.Changing.{acl_in, branch_with_acl, branch_with_segment, branch_with_directory};
ghost use Rattle.mx_hier.specs.Delete.{without};
ghost use Rattle.mx_hier.specs.InitialLists.{initial_changed};
ghost use Rattle.mx_hier.specs.Listed.{listed_added, listed_changed, acl_of, directory_of, iacl_fault, iacl_lacks, with_name, AclAnswers};
ghost use Rattle.mx_hier.specs.SetBrackets.{bracketed};
ghost use Rattle.mx_hier.specs.SetClass.{classed};
ghost use Rattle.mx_hier.specs.SetDirectoryBrackets.{dir_bracketed};
ghost use Rattle.mx_hier.specs.declared.branches.Branch.{Branch as BranchValue};
ghost use Rattle.mx_fresh.specs.Forms.{node_of};

use crate::branches::{Branch, Form};
use mx_acl::{AclError, AclKind, Modes, NoEntry};
use mx_aim::Class;
use mx_name::{AclId, EntryName};
use mx_sdw::{Brackets, Ring};
use std::alloc::{AllocError, Global};
use std::marker::Model;

/// The branches, and the next uid: uids count from 1, and none is given twice.
#[derive(Drop)]
pub(crate) struct BranchList {
    list: Vec<Branch>,
    next: u32,
}

impl Model for BranchList {
    ghost use Rattle.mx_hier.specs.Listed.{Listed};
    ghost use Rattle.mx_fresh.specs.Numbered.{AreNumbered};

    ghost Value = { Listed };

    ghost view = { λ a. record { branches = a.list.items; next = a.next } };

    ghost invariant = { λ a. AreNumbered 1 a.list.items a.next };
}

impl BranchList {
    /// No branches.
    pub(crate) fn new(alloc: Global) -> BranchList
        ensures { result ≡ record { branches = []; next = 1 } }
    {
        BranchList {
            list: Vec::new(alloc),
            next: 1,
        }
    }

    /// The branches.
    pub(crate) fn items(&self) -> &[Branch]
        ensures { result.now ≡ self.now.branches }
    {
        self.list.as_slice()
    }

    /// The uid that is given next.
    pub(crate) fn next(&self) -> u32
        ensures { result ≡ self.now.next }
    {
        self.next
    }

    /// Adds a branch. `AllocError` too where no uid is left.
    pub(crate) fn add(&mut self, dir: u32, name: EntryName, form: Form) -> Result<(), AllocError>
        ensures ok { OnOk result (self.new ≡ listed_added self.old dir name (node_of form)) }
        ensures err { OnErr result (self.new ≡ self.old) }
    {
        if self.next == u32::MAX {
            return Err(AllocError);
        }
        let branch = Branch {
            uid: self.next,
            parent: dir,
            name,
            form,
        };
        self.list.push(branch)?;
        self.next += 1;
        Ok(())
    }

    /// Removes the branch of a uid.
    pub(crate) fn remove(&mut self, uid: u32)
        ensures { self.new ≡ record self.old { branches = without uid self.old.branches } }
    {
        self.list.retain(
            |branch: &Branch| -> bool
                ensures { result ≡ not (branch.now.uid == uid) }
            { branch.uid != uid },
        );
    }

    /// Gives the branch of a uid another name.
    pub(crate) fn rename(&mut self, uid: u32, name: &EntryName)
        ensures { self.new ≡ listed_changed self.old uid (with_name name.now) }
    {
        if let Some(place) = place_of(self.list.as_slice(), uid) {
            put_name(&mut self.list, place, *name);
        }
    }

    /// Sets the brackets of the segment of a uid.
    pub(crate) fn set_brackets(&mut self, uid: u32, brackets: Brackets)
        ensures { self.new ≡ listed_changed self.old uid (branch_with_segment (bracketed brackets)) }
    {
        if let Some(place) = place_of(self.list.as_slice(), uid) {
            put_brackets(&mut self.list, place, brackets);
        }
    }

    /// Sets the class of the segment of a uid.
    pub(crate) fn set_class(&mut self, uid: u32, class: Class)
        ensures { self.new ≡ listed_changed self.old uid (branch_with_segment (classed class)) }
    {
        if let Some(place) = place_of(self.list.as_slice(), uid) {
            put_class(&mut self.list, place, class);
        }
    }

    /// Sets the brackets of the directory of a uid.
    pub(crate) fn set_dir_brackets(&mut self, uid: u32, d1: Ring, d2: Ring)
        ensures { self.new ≡ listed_changed self.old uid (branch_with_directory (dir_bracketed d1 d2)) }
    {
        if let Some(place) = place_of(self.list.as_slice(), uid) {
            put_dir_brackets(&mut self.list, place, d1, d2);
        }
    }

    /// Sets an entry of the access list of what stands at a uid; a link has none.
    pub(crate) fn set_acl(&mut self, uid: u32, id: &AclId, modes: Modes) -> Result<(), AclError>
        ensures answer { AclAnswers (option_and_then (λ acl. set_fault acl id.now modes) (acl_of self.old.branches uid)) result }
        ensures ok { OnOk result
            (self.new ≡ listed_changed self.old uid (branch_with_acl (λ acl. with_entry acl id.now modes))) }
        ensures err { OnErr result (self.new ≡ self.old) }
    {
        match place_of(self.list.as_slice(), uid) {
            Some(place) => put_acl_entry(&mut self.list, place, id, modes),
            None => Ok(()),
        }
    }

    /// Removes an entry of the access list of what stands at a uid. `NoEntry` where it has none, which changes nothing.
    pub(crate) fn remove_acl(&mut self, uid: u32, id: &AclId) -> Result<(), NoEntry>
        ensures found { is_ok result ≡ not (on (λ acl. is_none (entry_of acl id.now)) (acl_of self.old.branches uid)) }
        ensures ok { OnOk result
            (self.new ≡ listed_changed self.old uid (branch_with_acl (λ acl. without_entry acl id.now))) }
        ensures err { OnErr result (self.new ≡ self.old) }
    {
        match place_of(self.list.as_slice(), uid) {
            Some(place) => take_acl_entry(&mut self.list, place, id),
            None => Ok(()),
        }
    }

    /// Sets an entry of an initial access list of the directory of a uid.
    pub(crate) fn set_iacl(
        &mut self,
        uid: u32,
        kind: AclKind,
        id: &AclId,
        modes: Modes,
    ) -> Result<(), AclError>
        ensures answer { AclAnswers (iacl_fault kind id.now modes (directory_of self.old.branches uid)) result }
        ensures ok { OnOk result (self.new ≡ listed_changed self.old uid
            (branch_with_directory (initial_changed kind (λ initial. with_entry initial id.now modes)))) }
        ensures err { OnErr result (self.new ≡ self.old) }
    {
        match place_of(self.list.as_slice(), uid) {
            Some(place) => put_iacl_entry(&mut self.list, place, kind, id, modes),
            None => Ok(()),
        }
    }

    /// Removes an entry of an initial access list of the directory of a uid. `NoEntry` where it has none, which changes
    /// nothing.
    pub(crate) fn remove_iacl(&mut self, uid: u32, kind: AclKind, id: &AclId) -> Result<(), NoEntry>
        ensures found { is_ok result ≡ not (iacl_lacks kind id.now (directory_of self.old.branches uid)) }
        ensures ok { OnOk result (self.new ≡ listed_changed self.old uid
            (branch_with_directory (initial_changed kind (λ initial. without_entry initial id.now)))) }
        ensures err { OnErr result (self.new ≡ self.old) }
    {
        match place_of(self.list.as_slice(), uid) {
            Some(place) => take_iacl_entry(&mut self.list, place, kind, id),
            None => Ok(()),
        }
    }
}

/// The place of the branch of a uid.
fn place_of(branches: &[Branch], uid: u32) -> Option<usize>
    ensures { result ≡ position (λ branch. branch.uid == uid) branches.now }
{
    branches.iter().position(
        |branch: &Branch| -> bool
            ensures { result ≡ (branch.now.uid == uid) }
        { branch.uid == uid },
    )
}

fn put_name(branches: &mut Vec<Branch>, place: usize, name: EntryName)
    requires { place < vec_len branches.old }
    ensures { (branch : BranchValue) → slice_get branches.old.items place ≡ Some branch
        → branches.new.items ≡ slice_set branches.old.items place (with_name name branch) }
{
    branches[place].name = name;
}

fn put_brackets(branches: &mut Vec<Branch>, place: usize, brackets: Brackets)
    requires { place < vec_len branches.old }
    ensures { (branch : BranchValue) → slice_get branches.old.items place ≡ Some branch
        → branches.new.items ≡ slice_set branches.old.items place (branch_with_segment (bracketed brackets) branch) }
{
    branches[place].set_brackets(brackets);
}

fn put_class(branches: &mut Vec<Branch>, place: usize, class: Class)
    requires { place < vec_len branches.old }
    ensures { (branch : BranchValue) → slice_get branches.old.items place ≡ Some branch
        → branches.new.items ≡ slice_set branches.old.items place (branch_with_segment (classed class) branch) }
{
    branches[place].set_class(class);
}

fn put_dir_brackets(branches: &mut Vec<Branch>, place: usize, d1: Ring, d2: Ring)
    requires { place < vec_len branches.old }
    ensures { (branch : BranchValue) → slice_get branches.old.items place ≡ Some branch
        → branches.new.items ≡ slice_set branches.old.items place (branch_with_directory (dir_bracketed d1 d2) branch) }
{
    branches[place].set_dir_brackets(d1, d2);
}

fn put_acl_entry(
    branches: &mut Vec<Branch>,
    place: usize,
    id: &AclId,
    modes: Modes,
) -> Result<(), AclError>
    requires { place < vec_len branches.old }
    ensures answer { (branch : BranchValue) → slice_get branches.old.items place ≡ Some branch
        → AclAnswers (option_and_then (λ acl. set_fault acl id.now modes) (acl_in branch.node)) result }
    ensures ok { OnOk result ((branch : BranchValue) → slice_get branches.old.items place ≡ Some branch
        → branches.new.items
        ≡ slice_set branches.old.items place (branch_with_acl (λ acl. with_entry acl id.now modes) branch)) }
    ensures err { OnErr result (branches.new.items ≡ branches.old.items) }
{
    branches[place].set_acl(id, modes)?;
    Ok(())
}

fn take_acl_entry(branches: &mut Vec<Branch>, place: usize, id: &AclId) -> Result<(), NoEntry>
    requires { place < vec_len branches.old }
    ensures found { (branch : BranchValue) → slice_get branches.old.items place ≡ Some branch
        → is_ok result ≡ not (on (λ acl. is_none (entry_of acl id.now)) (acl_in branch.node)) }
    ensures ok { OnOk result ((branch : BranchValue) → slice_get branches.old.items place ≡ Some branch
        → branches.new.items
        ≡ slice_set branches.old.items place (branch_with_acl (λ acl. without_entry acl id.now) branch)) }
    ensures err { OnErr result (branches.new.items ≡ branches.old.items) }
{
    branches[place].remove_acl(id)?;
    Ok(())
}

fn put_iacl_entry(
    branches: &mut Vec<Branch>,
    place: usize,
    kind: AclKind,
    id: &AclId,
    modes: Modes,
) -> Result<(), AclError>
    requires { place < vec_len branches.old }
    ensures answer { (branch : BranchValue) → slice_get branches.old.items place ≡ Some branch
        → AclAnswers (iacl_fault kind id.now modes (as_directory branch.node)) result }
    ensures ok { OnOk result ((branch : BranchValue) → slice_get branches.old.items place ≡ Some branch
        → branches.new.items ≡ slice_set branches.old.items place
        (branch_with_directory (initial_changed kind (λ initial. with_entry initial id.now modes)) branch)) }
    ensures err { OnErr result (branches.new.items ≡ branches.old.items) }
{
    branches[place].set_iacl(kind, id, modes)?;
    Ok(())
}

fn take_iacl_entry(
    branches: &mut Vec<Branch>,
    place: usize,
    kind: AclKind,
    id: &AclId,
) -> Result<(), NoEntry>
    requires { place < vec_len branches.old }
    ensures found { (branch : BranchValue) → slice_get branches.old.items place ≡ Some branch
        → is_ok result ≡ not (iacl_lacks kind id.now (as_directory branch.node)) }
    ensures ok { OnOk result ((branch : BranchValue) → slice_get branches.old.items place ≡ Some branch
        → branches.new.items ≡ slice_set branches.old.items place
        (branch_with_directory (initial_changed kind (λ initial. without_entry initial id.now)) branch)) }
    ensures err { OnErr result (branches.new.items ≡ branches.old.items) }
{
    branches[place].remove_iacl(kind, id)?;
    Ok(())
}
