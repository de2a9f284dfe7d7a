//! Requests on the initial access lists of a directory. m is asked on the directory itself.

ghost use Rattle.std.specs.Prelude.{◌≡◌, not, is_ok, OnOk, OnErr};
ghost use Rattle.mx_acl.specs.Access.{with_entry, without_entry};
ghost use Rattle.mx_hier.specs.Branches.{directory_at};
ghost use Rattle.mx_hier.specs.InitialLists.{initial_refusals, with_initial, set_iacl_at, del_iacl_at};
ghost use Rattle.mx_hier.specs.Listed.{iacl_refusals, iacl_lacks, AclTells};
ghost use Rattle.mx_hier.specs.Rules.{first_of, Answers, TellsFirst};
ghost use Rattle.mx_hier.specs.Who.{subject};

use crate::access::{has_modify, say};
use crate::hierarchy::FreshHierarchy;
use mx_acl::{AclError, AclKind, Modes, NoEntry};
use mx_hier::{HierError, Refusal, Who};
use mx_name::AclId;

impl FreshHierarchy {
    /// Sets the modes of an identifier on the initial access list for what is made of a kind in a directory.
    pub fn set_iacl(
        &mut self,
        who: &Who,
        uid: u32,
        kind: AclKind,
        id: &AclId,
        modes: Modes,
    ) -> Result<(), HierError>
        ensures answer { Answers (set_iacl_at self.old (subject who.now) uid kind id.now modes)
            self.old result self.new }
        ensures told { TellsFirst (set_iacl_at self.old (subject who.now) uid kind id.now modes) result }
    {
        if let Some(why) = self.initial_refusal(who, uid) {
            return Err(HierError::Refused(why));
        }
        match self.put_iacl_entry(uid, kind, id, modes) {
            Ok(()) => Ok(()),
            Err(AclError::InvalidMode) => Err(HierError::Refused(Refusal::InvalidMode)),
            Err(AclError::Full) => Err(HierError::Refused(Refusal::AclFull)),
            Err(AclError::Memory) => Err(HierError::Memory),
        }
    }

    /// Removes the entry of an identifier from it. Takes no memory.
    pub fn del_iacl(
        &mut self,
        who: &Who,
        uid: u32,
        kind: AclKind,
        id: &AclId,
    ) -> Result<(), HierError>
        ensures answer { Answers (del_iacl_at self.old (subject who.now) uid kind id.now) self.old result self.new }
        ensures told { TellsFirst (del_iacl_at self.old (subject who.now) uid kind id.now) result }
    {
        if let Some(why) = self.initial_refusal(who, uid) {
            return Err(HierError::Refused(why));
        }
        match self.take_iacl_entry(uid, kind, id) {
            Ok(()) => Ok(()),
            Err(NoEntry) => Err(HierError::Refused(Refusal::NoAclEntry)),
        }
    }

    fn initial_refusal(&self, who: &Who, uid: u32) -> Option<Refusal>
        ensures { result ≡ first_of (initial_refusals self.now (subject who.now) uid) }
    {
        match self.directory_at(uid) {
            None => Some(say(who, Refusal::NotADir, self.holding(uid))),
            Some(directory) if has_modify(who, directory) => None,
            Some(_) => Some(say(who, Refusal::IncorrectAccess, self.holding(uid))),
        }
    }

    #[tactic(auto, using(mx_hier::proofs::ChangeLaws::iacl_told))]
    fn put_iacl_entry(
        &mut self,
        uid: u32,
        kind: AclKind,
        id: &AclId,
        modes: Modes,
    ) -> Result<(), AclError>
        ensures answer { AclTells (first_of (iacl_refusals kind id.now modes (directory_at self.old uid))) result }
        ensures ok { OnOk result
            (self.new ≡ with_initial self.old uid kind (λ initial. with_entry initial id.now modes)) }
        ensures err { OnErr result (self.new ≡ self.old) }
    {
        if uid == 0 {
            self.root.set_iacl(kind, id, modes)?;
        } else {
            self.branches.set_iacl(uid, kind, id, modes)?;
        }
        Ok(())
    }

    fn take_iacl_entry(&mut self, uid: u32, kind: AclKind, id: &AclId) -> Result<(), NoEntry>
        ensures found { is_ok result ≡ not (iacl_lacks kind id.now (directory_at self.old uid)) }
        ensures ok { OnOk result
            (self.new ≡ with_initial self.old uid kind (λ initial. without_entry initial id.now)) }
        ensures err { OnErr result (self.new ≡ self.old) }
    {
        if uid == 0 {
            self.root.remove_iacl(kind, id)?;
        } else {
            self.branches.remove_iacl(uid, kind, id)?;
        }
        Ok(())
    }
}
