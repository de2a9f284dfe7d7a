//! Changing one entry: its brackets, its class and its access lists.

ghost use Rattle.std.specs.Prelude.{◌≡◌, not, true, is_ok, IfOk, OnOk, OnErr};
ghost use Rattle.std.specs.Option.{is_none, option_and_then};
ghost use Rattle.mx_acl.specs.Access.{entry_of, with_entry, without_entry, set_fault};
ghost use Rattle.mx_acl.specs.InitialLists.{initial_fault};
ghost use Rattle.mx_acl.specs.Modes.{suits};
ghost use Rattle.mx_hier.specs.Branches.{as_directory};
ghost use Rattle.mx_hier.specs.Callers.{on};
ghost use Rattle.mx_hier.specs.Changing.{acl_in, acl_changed, segment_changed, directory_changed, branch_with_acl, branch_with_segment, branch_with_directory};
ghost use Rattle.mx_hier.specs.InitialAccess.{initial_for};
ghost use Rattle.mx_hier.specs.InitialLists.{initial_changed};
ghost use Rattle.mx_hier.specs.Listed.{iacl_fault, iacl_lacks, AclAnswers};
ghost use Rattle.mx_hier.specs.Making.{first_acl};
ghost use Rattle.mx_hier.specs.SetBrackets.{bracketed};
ghost use Rattle.mx_hier.specs.SetClass.{classed};
ghost use Rattle.mx_hier.specs.SetDirectoryBrackets.{dir_bracketed};
ghost use Rattle.mx_hier.specs.Who.{subject};
ghost use Rattle.mx_fresh.specs.Forms.{node_of};

use crate::branches::{Branch, Directory, Form};
use mx_acl::{Acl, AclError, AclKind, InitialAcl, Modes, NoEntry};
use mx_aim::Class;
use mx_hier::Who;
use mx_name::AclId;
use mx_sdw::{Brackets, Ring};
use std::alloc::AllocError;

impl Branch {
    pub(crate) fn set_brackets(&mut self, brackets: Brackets)
        ensures { self.new ≡ branch_with_segment (bracketed brackets) self.old }
    {
        set_brackets(&mut self.form, brackets);
    }

    pub(crate) fn set_class(&mut self, class: Class)
        ensures { self.new ≡ branch_with_segment (classed class) self.old }
    {
        set_class(&mut self.form, class);
    }

    pub(crate) fn set_dir_brackets(&mut self, d1: Ring, d2: Ring)
        ensures { self.new ≡ branch_with_directory (dir_bracketed d1 d2) self.old }
    {
        set_dir_brackets(&mut self.form, d1, d2);
    }

    pub(crate) fn set_acl(&mut self, id: &AclId, modes: Modes) -> Result<(), AclError>
        ensures answer { AclAnswers (option_and_then (λ acl. set_fault acl id.now modes) (acl_in self.old.node)) result }
        ensures ok { OnOk result (self.new ≡ branch_with_acl (λ acl. with_entry acl id.now modes) self.old) }
        ensures err { OnErr result (self.new ≡ self.old) }
    {
        set_acl(&mut self.form, id, modes)?;
        Ok(())
    }

    pub(crate) fn remove_acl(&mut self, id: &AclId) -> Result<(), NoEntry>
        ensures found { is_ok result ≡ not (on (λ acl. is_none (entry_of acl id.now)) (acl_in self.old.node)) }
        ensures ok { OnOk result (self.new ≡ branch_with_acl (λ acl. without_entry acl id.now) self.old) }
        ensures err { OnErr result (self.new ≡ self.old) }
    {
        remove_acl(&mut self.form, id)?;
        Ok(())
    }

    pub(crate) fn set_iacl(
        &mut self,
        kind: AclKind,
        id: &AclId,
        modes: Modes,
    ) -> Result<(), AclError>
        ensures answer { AclAnswers (iacl_fault kind id.now modes (as_directory self.old.node)) result }
        ensures ok { OnOk result (self.new
            ≡ branch_with_directory (initial_changed kind (λ initial. with_entry initial id.now modes)) self.old) }
        ensures err { OnErr result (self.new ≡ self.old) }
    {
        set_iacl(&mut self.form, kind, id, modes)?;
        Ok(())
    }

    pub(crate) fn remove_iacl(&mut self, kind: AclKind, id: &AclId) -> Result<(), NoEntry>
        ensures found { is_ok result ≡ not (iacl_lacks kind id.now (as_directory self.old.node)) }
        ensures ok { OnOk result (self.new
            ≡ branch_with_directory (initial_changed kind (λ initial. without_entry initial id.now)) self.old) }
        ensures err { OnErr result (self.new ≡ self.old) }
    {
        remove_iacl(&mut self.form, kind, id)?;
        Ok(())
    }
}

impl Directory {
    /// Sets an entry of the initial access list for what is made of a kind.
    pub(crate) fn set_iacl(
        &mut self,
        kind: AclKind,
        id: &AclId,
        modes: Modes,
    ) -> Result<(), AclError>
        ensures answer { AclAnswers (initial_fault (initial_for kind self.old.initial) id.now modes) result }
        ensures ok { OnOk result (self.new ≡ initial_changed kind (λ initial. with_entry initial id.now modes) self.old) }
        ensures err { OnErr result (self.new ≡ self.old) }
    {
        match kind {
            AclKind::Segment => set_initial(&mut self.segments, id, modes)?,
            AclKind::Directory => set_initial(&mut self.directories, id, modes)?,
        }
        Ok(())
    }

    /// Removes an entry of it. `NoEntry` where it has none, which changes nothing.
    pub(crate) fn remove_iacl(&mut self, kind: AclKind, id: &AclId) -> Result<(), NoEntry>
        ensures found { is_ok result ≡ not (is_none (entry_of (initial_for kind self.old.initial) id.now)) }
        ensures ok { OnOk result (self.new ≡ initial_changed kind (λ initial. without_entry initial id.now) self.old) }
        ensures err { OnErr result (self.new ≡ self.old) }
    {
        match kind {
            AclKind::Segment => remove_initial(&mut self.segments, id)?,
            AclKind::Directory => remove_initial(&mut self.directories, id)?,
        }
        Ok(())
    }

    /// The access list of what a caller makes of a kind in the directory.
    pub(crate) fn first_acl(
        &self,
        kind: AclKind,
        who: &Who,
        modes: Modes,
    ) -> Result<Acl, AllocError>
        requires { suits kind modes ≡ true }
        ensures { IfOk result (λ acl. acl ≡ first_acl (initial_for kind self.now.initial) (subject who.now) modes) }
    {
        let maker = AclId::of_maker(who.principal);
        let acl = match kind {
            AclKind::Segment => self.segments.acl_for(maker, modes)?,
            AclKind::Directory => self.directories.acl_for(maker, modes)?,
        };
        Ok(acl)
    }
}

fn set_brackets(form: &mut Form, brackets: Brackets)
    ensures { node_of form.new ≡ segment_changed (bracketed brackets) (node_of form.old) }
{
    match form {
        Form::Segment(segment) => segment.brackets = brackets,
        Form::Directory(_) => {}
        Form::Link(_) => {}
    }
}

fn set_class(form: &mut Form, class: Class)
    ensures { node_of form.new ≡ segment_changed (classed class) (node_of form.old) }
{
    match form {
        Form::Segment(segment) => segment.class = class,
        Form::Directory(_) => {}
        Form::Link(_) => {}
    }
}

fn set_dir_brackets(form: &mut Form, d1: Ring, d2: Ring)
    ensures { node_of form.new ≡ directory_changed (dir_bracketed d1 d2) (node_of form.old) }
{
    match form {
        Form::Directory(directory) => {
            directory.d1 = d1;
            directory.d2 = d2;
        }
        Form::Segment(_) => {}
        Form::Link(_) => {}
    }
}

fn set_acl(form: &mut Form, id: &AclId, modes: Modes) -> Result<(), AclError>
    ensures answer { AclAnswers (option_and_then (λ acl. set_fault acl id.now modes) (acl_in (node_of form.old))) result }
    ensures ok { OnOk result (node_of form.new ≡ acl_changed (λ acl. with_entry acl id.now modes) (node_of form.old)) }
    ensures err { OnErr result (node_of form.new ≡ node_of form.old) }
{
    match form {
        Form::Directory(directory) => set_list(&mut directory.acl, id, modes)?,
        Form::Segment(segment) => set_list(&mut segment.acl, id, modes)?,
        Form::Link(_) => {}
    }
    Ok(())
}

fn remove_acl(form: &mut Form, id: &AclId) -> Result<(), NoEntry>
    ensures found { is_ok result ≡ not (on (λ acl. is_none (entry_of acl id.now)) (acl_in (node_of form.old))) }
    ensures ok { OnOk result (node_of form.new ≡ acl_changed (λ acl. without_entry acl id.now) (node_of form.old)) }
    ensures err { OnErr result (node_of form.new ≡ node_of form.old) }
{
    match form {
        Form::Directory(directory) => remove_from_list(&mut directory.acl, id)?,
        Form::Segment(segment) => remove_from_list(&mut segment.acl, id)?,
        Form::Link(_) => {}
    }
    Ok(())
}

fn set_iacl(form: &mut Form, kind: AclKind, id: &AclId, modes: Modes) -> Result<(), AclError>
    ensures answer { AclAnswers (iacl_fault kind id.now modes (as_directory (node_of form.old))) result }
    ensures ok { OnOk result (node_of form.new
        ≡ directory_changed (initial_changed kind (λ initial. with_entry initial id.now modes)) (node_of form.old)) }
    ensures err { OnErr result (node_of form.new ≡ node_of form.old) }
{
    match form {
        Form::Directory(directory) => directory.set_iacl(kind, id, modes)?,
        Form::Segment(_) => {}
        Form::Link(_) => {}
    }
    Ok(())
}

fn remove_iacl(form: &mut Form, kind: AclKind, id: &AclId) -> Result<(), NoEntry>
    ensures found { is_ok result ≡ not (iacl_lacks kind id.now (as_directory (node_of form.old))) }
    ensures ok { OnOk result (node_of form.new
        ≡ directory_changed (initial_changed kind (λ initial. without_entry initial id.now)) (node_of form.old)) }
    ensures err { OnErr result (node_of form.new ≡ node_of form.old) }
{
    match form {
        Form::Directory(directory) => directory.remove_iacl(kind, id)?,
        Form::Segment(_) => {}
        Form::Link(_) => {}
    }
    Ok(())
}

pub(crate) fn set_list(acl: &mut Acl, id: &AclId, modes: Modes) -> Result<(), AclError>
    ensures answer { AclAnswers (set_fault acl.old id.now modes) result }
    ensures ok { OnOk result (acl.new ≡ with_entry acl.old id.now modes) }
    ensures err { OnErr result (acl.new ≡ acl.old) }
{
    acl.set(*id, modes)?;
    Ok(())
}

pub(crate) fn remove_from_list(acl: &mut Acl, id: &AclId) -> Result<(), NoEntry>
    ensures found { is_ok result ≡ not (is_none (entry_of acl.old id.now)) }
    ensures ok { OnOk result (acl.new ≡ without_entry acl.old id.now) }
    ensures err { OnErr result (acl.new ≡ acl.old) }
{
    acl.remove(id)?;
    Ok(())
}

fn set_initial(list: &mut InitialAcl, id: &AclId, modes: Modes) -> Result<(), AclError>
    ensures answer { AclAnswers (initial_fault list.old id.now modes) result }
    ensures ok { OnOk result (list.new ≡ with_entry list.old id.now modes) }
    ensures err { OnErr result (list.new ≡ list.old) }
{
    list.set(*id, modes)?;
    Ok(())
}

fn remove_initial(list: &mut InitialAcl, id: &AclId) -> Result<(), NoEntry>
    ensures found { is_ok result ≡ not (is_none (entry_of list.old id.now)) }
    ensures ok { OnOk result (list.new ≡ without_entry list.old id.now) }
    ensures err { OnErr result (list.new ≡ list.old) }
{
    list.remove(id)?;
    Ok(())
}
