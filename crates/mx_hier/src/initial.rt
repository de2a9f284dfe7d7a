//! The initial access lists of a directory.

ghost use Rattle.std.specs.Prelude.{◌≡◌, not, true, is_ok, IfOk, OnOk, OnErr};
ghost use Rattle.std.specs.Option.{is_none};
ghost use Rattle.mx_acl.specs.Access.{entry_of, with_entry, without_entry};
ghost use Rattle.mx_acl.specs.InitialLists.{initial_fault, acl_for};
ghost use Rattle.mx_acl.specs.Modes.{suits};
ghost use Rattle.mx_hier.specs.InitialAccess.{no_initial, initial_for, with_initial_for};
ghost use Rattle.mx_hier.specs.Listed.{AclAnswers};

use mx_acl::{Acl, AclError, AclKind, InitialAcl, Modes, NoEntry};
use mx_name::AclId;
use std::alloc::{AllocError, Global};
use std::marker::Model;

/// The initial access lists of a directory: one for the segments that are made in it, and one for the directories. A
/// contract sees the two lists, each of its kind.
#[derive(Drop)]
pub struct InitialAcls {
    segments: InitialAcl,
    directories: InitialAcl,
}

impl Model for InitialAcls {
    ghost use Rattle.std.specs.Prelude.{◌≡◌};
    ghost use Rattle.mx_acl.specs.declared.modes.AclKind.TheVariants.{Segment, Directory};
    ghost use Rattle.mx_hier.specs.InitialAccess.{InitialAccess};

    ghost Value = { InitialAccess };

    ghost view = { λ a. record { segments = a.segments; directories = a.directories } };

    ghost invariant = { λ a. (a.segments.kind ≡ Segment) × (a.directories.kind ≡ Directory) };
}

impl InitialAcls {
    /// Both empty. Takes no memory yet.
    pub(crate) fn new(alloc: Global) -> InitialAcls
        ensures { result ≡ no_initial }
    {
        InitialAcls {
            segments: InitialAcl::new(alloc, AclKind::Segment),
            directories: InitialAcl::new(alloc, AclKind::Directory),
        }
    }

    /// Sets the modes of an identifier in the list for what is made of a kind, as `InitialAcl::set` does. Nothing
    /// changes on an error.
    pub(crate) fn set(&mut self, kind: AclKind, id: &AclId, modes: Modes) -> Result<(), AclError>
        ensures answer { AclAnswers (initial_fault (initial_for kind self.old) id.now modes) result }
        ensures ok { OnOk result
            (self.new ≡ with_initial_for kind (λ initial. with_entry initial id.now modes) self.old) }
        ensures err { OnErr result (self.new ≡ self.old) }
    {
        match kind {
            AclKind::Segment => set_list(&mut self.segments, id, modes)?,
            AclKind::Directory => set_list(&mut self.directories, id, modes)?,
        }
        Ok(())
    }

    /// Removes the entry of an identifier from the list for what is made of a kind. `NoEntry` exactly where it has
    /// none, and then nothing changes. Takes no memory.
    pub(crate) fn remove(&mut self, kind: AclKind, id: &AclId) -> Result<(), NoEntry>
        ensures found { is_ok result ≡ not (is_none (entry_of (initial_for kind self.old) id.now)) }
        ensures ok { OnOk result
            (self.new ≡ with_initial_for kind (λ initial. without_entry initial id.now) self.old) }
        ensures err { OnErr result (self.new ≡ self.old) }
    {
        match kind {
            AclKind::Segment => remove_from_list(&mut self.segments, id)?,
            AclKind::Directory => remove_from_list(&mut self.directories, id)?,
        }
        Ok(())
    }

    /// The access list of what is made of a kind, with its maker's entry.
    pub(crate) fn acl_for(
        &self,
        kind: AclKind,
        maker: AclId,
        modes: Modes,
    ) -> Result<Acl, AllocError>
        requires { suits kind modes ≡ true }
        ensures { IfOk result (λ acl. acl ≡ acl_for (initial_for kind self.now) maker modes) }
    {
        let acl = match kind {
            AclKind::Segment => self.segments.acl_for(maker, modes)?,
            AclKind::Directory => self.directories.acl_for(maker, modes)?,
        };
        Ok(acl)
    }
}

fn set_list(list: &mut InitialAcl, id: &AclId, modes: Modes) -> Result<(), AclError>
    ensures answer { AclAnswers (initial_fault list.old id.now modes) result }
    ensures ok { OnOk result (list.new ≡ with_entry list.old id.now modes) }
    ensures err { OnErr result (list.new ≡ list.old) }
{
    list.set(*id, modes)?;
    Ok(())
}

fn remove_from_list(list: &mut InitialAcl, id: &AclId) -> Result<(), NoEntry>
    ensures found { is_ok result ≡ not (is_none (entry_of list.old id.now)) }
    ensures ok { OnOk result (list.new ≡ without_entry list.old id.now) }
    ensures err { OnErr result (list.new ≡ list.old) }
{
    list.remove(id)?;
    Ok(())
}
