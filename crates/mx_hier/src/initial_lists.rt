//! Changing the initial access lists of a directory, which is found first: `Hier::entry` gives its uid.
//!
//! The first refusals are `NotADir` where no directory stands at the uid, and `IncorrectAccess` without m on the
//! directory itself; both are said at its holder: a caller without s on that is told `NoInfo` instead. A refusal is
//! told whatever memory there is. An error leaves the hierarchy as it was.

ghost use Rattle.std.specs.Prelude.{◌≡◌, OnOk, OnErr, is_ok, not};
ghost use Rattle.mx_acl.specs.Access.{with_entry, without_entry};
ghost use Rattle.mx_hier.specs.Branches.{directory_at};
ghost use Rattle.mx_hier.specs.InitialLists.{initial_refusals, set_iacl_at, del_iacl_at, with_initial};
ghost use Rattle.mx_hier.specs.Listed.{iacl_refusals, iacl_lacks, AclTells};
ghost use Rattle.mx_hier.specs.Rules.{first_of, Answers, TellsFirst};
ghost use Rattle.mx_hier.specs.Who.{subject};

use crate::callers::Who;
use crate::hier::Hier;
use crate::refusals::{HierError, Refusal};
use mx_acl::{AclError, AclKind, Modes, NoEntry};
use mx_name::AclId;

impl Hier {
    /// Sets the modes of an identifier on the initial access list of a directory for what is made of a kind in it, anew
    /// or in place of those that stand. After the first refusals (above): `InvalidMode` where the modes are of the
    /// other kind or m stands without s, then `AclFull` where the identifier would be the 64th. For `set_iacl_seg` and
    /// `set_iacl_dir`.
    pub fn set_iacl(
        &mut self,
        who: &Who,
        uid: u32,
        kind: AclKind,
        id: &AclId,
        modes: Modes,
    ) -> Result<(), HierError>
        ensures answer { Answers (set_iacl_at self.old (subject who.now) uid kind id.now modes)
            self.old result self.new }
        ensures told { TellsFirst (set_iacl_at self.old (subject who.now) uid kind id.now modes) result }
    {
        if let Some(why) = self.initial_refusal(who, uid) {
            return Err(HierError::Refused(why));
        }
        match self.put_iacl_entry(uid, kind, id, modes) {
            Ok(()) => Ok(()),
            Err(AclError::InvalidMode) => Err(HierError::Refused(Refusal::InvalidMode)),
            Err(AclError::Full) => Err(HierError::Refused(Refusal::AclFull)),
            Err(AclError::Memory) => Err(HierError::Memory),
        }
    }

    /// Removes the entry of an identifier from the initial access list of a directory for what is made of a kind in
    /// it. After the first refusals (above): `NoAclEntry` where the list has none. Takes no memory. For `del_iacl_seg`
    /// and `del_iacl_dir`.
    pub fn del_iacl(
        &mut self,
        who: &Who,
        uid: u32,
        kind: AclKind,
        id: &AclId,
    ) -> Result<(), HierError>
        ensures answer { Answers (del_iacl_at self.old (subject who.now) uid kind id.now) self.old result self.new }
        ensures told { TellsFirst (del_iacl_at self.old (subject who.now) uid kind id.now) result }
    {
        if let Some(why) = self.initial_refusal(who, uid) {
            return Err(HierError::Refused(why));
        }
        match self.take_iacl_entry(uid, kind, id) {
            Ok(()) => Ok(()),
            Err(NoEntry) => Err(HierError::Refused(Refusal::NoAclEntry)),
        }
    }

    fn initial_refusal(&self, who: &Who, uid: u32) -> Option<Refusal>
        ensures { result ≡ first_of (initial_refusals self.now (subject who.now) uid) }
    {
        match self.directory_at(uid) {
            None => Some(who.told(Refusal::NotADir, self.holding(uid))),
            Some(directory) if who.has_modify(directory) => None,
            Some(_) => Some(who.told(Refusal::IncorrectAccess, self.holding(uid))),
        }
    }

    #[tactic(auto, using(crate::proofs::SoundLaws::sound_directory, crate::proofs::ChangeLaws::iacl_told))]
    fn put_iacl_entry(
        &mut self,
        uid: u32,
        kind: AclKind,
        id: &AclId,
        modes: Modes,
    ) -> Result<(), AclError>
        ensures answer { AclTells (first_of (iacl_refusals kind id.now modes (directory_at self.old uid))) result }
        ensures ok { OnOk result
            (self.new ≡ with_initial self.old uid kind (λ initial. with_entry initial id.now modes)) }
        ensures err { OnErr result (self.new ≡ self.old) }
    {
        if uid == 0 {
            self.root.initial.set(kind, id, modes)?;
        } else {
            self.tables.set_iacl(uid, kind, id, modes)?;
        }
        Ok(())
    }

    #[tactic(auto, using(crate::proofs::SoundLaws::sound_directory))]
    fn take_iacl_entry(&mut self, uid: u32, kind: AclKind, id: &AclId) -> Result<(), NoEntry>
        ensures found { is_ok result ≡ not (iacl_lacks kind id.now (directory_at self.old uid)) }
        ensures ok { OnOk result
            (self.new ≡ with_initial self.old uid kind (λ initial. without_entry initial id.now)) }
        ensures err { OnErr result (self.new ≡ self.old) }
    {
        if uid == 0 {
            self.root.initial.remove(kind, id)?;
        } else {
            self.tables.remove_iacl(uid, kind, id)?;
        }
        Ok(())
    }
}
