//! Changing an entry, which is found first: `Hier::entry` gives its uid.
//!
//! The first refusal of every change is `IncorrectAccess` without m on the directory that holds the entry, as the
//! root holds itself; it is said at that directory: a caller without s on it is told `NoInfo` instead. A refusal is
//! told whatever memory there is. An error leaves the hierarchy as it was.

ghost use Rattle.std.specs.Prelude.{◌≡◌, ◌==◌, ◌∷◌, [], Some, None, IfOk, IfSome, OnOk, OnErr, is_ok, not, is_none, is_some, false, nat_lt};
ghost use Rattle.std.specs.Option.{option_map};
ghost use Rattle.mx_acl.specs.Access.{with_entry, without_entry, entry_of};
ghost use Rattle.mx_hier.specs.Branches.{uid_in, segment_at, holder};
ghost use Rattle.mx_hier.specs.Callers.{on};
ghost use Rattle.mx_hier.specs.Changing.{changing_refusals, acl_at, with_acl, with_branch};
ghost use Rattle.mx_hier.specs.Delete.{delete_refusals, delete_at, deleted};
ghost use Rattle.mx_hier.specs.DeleteAclEntry.{del_acl_at};
ghost use Rattle.mx_hier.specs.Listed.{acl_refusals, AclTells};
ghost use Rattle.mx_hier.specs.Rename.{rename_refusals, rename_at};
ghost use Rattle.mx_hier.specs.Rules.{first_of, Answers, TellsFirst};
ghost use Rattle.mx_hier.specs.SetAcl.{set_acl_at};
ghost use Rattle.mx_hier.specs.SetBrackets.{set_brackets_refusals, set_brackets_at, with_brackets};
ghost use Rattle.mx_hier.specs.SetClass.{set_class_refusals, set_class_at, with_class};
ghost use Rattle.mx_hier.specs.SetDirectoryBrackets.{set_dir_brackets_refusals, set_dir_brackets_at, with_dir_brackets};
ghost use Rattle.mx_hier.specs.Who.{subject};
ghost use Rattle.mx_pages.specs.Runs.{IsPageRun, pages_for};

use crate::callers::Who;
use crate::hier::Hier;
use crate::making::settable;
use crate::refusals::{HierError, Refusal};
use mx_acl::{AclError, Modes, NoEntry};
use mx_aim::Class;
use mx_name::{AclId, EntryName};
use mx_pages::{PageRun, pages_for};
use mx_sdw::{Brackets, Ring};
use std::alloc::AllocError;

impl Hier {
    /// Sets the modes of an identifier on the access list of an entry, anew or in place of those that stand. After the
    /// refusal of every change (above): `InvalidMode` where the list is of the other kind or m stands without s, then
    /// `AclFull` where the identifier would be the 65th.
    pub fn set_acl(
        &mut self,
        who: &Who,
        uid: u32,
        id: &AclId,
        modes: Modes,
    ) -> Result<(), HierError>
        ensures answer { Answers (set_acl_at self.old (subject who.now) uid id.now modes) self.old result self.new }
        ensures told { TellsFirst (set_acl_at self.old (subject who.now) uid id.now modes) result }
    {
        if let Some(why) = self.changing_refusal(who, uid) {
            return Err(HierError::Refused(why));
        }
        match self.put_acl_entry(uid, id, modes) {
            Ok(()) => Ok(()),
            Err(AclError::InvalidMode) => Err(HierError::Refused(Refusal::InvalidMode)),
            Err(AclError::Full) => Err(HierError::Refused(Refusal::AclFull)),
            Err(AclError::Memory) => Err(HierError::Memory),
        }
    }

    /// Removes the entry of an identifier from the access list of an entry. After the refusal of every change (above):
    /// `NoAclEntry` where the list has none. Takes no memory.
    pub fn del_acl(&mut self, who: &Who, uid: u32, id: &AclId) -> Result<(), HierError>
        ensures answer { Answers (del_acl_at self.old (subject who.now) uid id.now) self.old result self.new }
        ensures told { TellsFirst (del_acl_at self.old (subject who.now) uid id.now) result }
    {
        if let Some(why) = self.changing_refusal(who, uid) {
            return Err(HierError::Refused(why));
        }
        match self.take_acl_entry(uid, id) {
            Ok(()) => Ok(()),
            Err(NoEntry) => Err(HierError::Refused(Refusal::NoAclEntry)),
        }
    }

    /// Sets the brackets of a segment. After the refusal of every change (above): `NotASeg` on a directory, then
    /// `BadBrackets` where they are not in order, or the new or the old first bracket is below the caller's ring.
    /// Takes no memory.
    pub fn set_brackets(
        &mut self,
        who: &Who,
        uid: u32,
        brackets: [Ring; 3],
    ) -> Result<(), HierError>
        ensures answer { Answers (set_brackets_at self.old (subject who.now) uid brackets) self.old result self.new }
        ensures told { TellsFirst (set_brackets_at self.old (subject who.now) uid brackets) result }
    {
        if let Some(why) = self.set_brackets_refusal(who, uid, &brackets) {
            return Err(HierError::Refused(why));
        }
        let Some(brackets) = settable(who.ring, &brackets) else {
            return Err(HierError::Refused(Refusal::BadBrackets));
        };
        self.put_brackets(uid, brackets);
        Ok(())
    }

    /// Sets the class of a segment. After the refusal of every change (above): `NotASeg` on a directory, then
    /// `BadClass` where the caller is in ring 2 or above and the class does not dominate the one that stands. Takes no
    /// memory.
    pub fn set_class(&mut self, who: &Who, uid: u32, class: Class) -> Result<(), HierError>
        ensures answer { Answers (set_class_at self.old (subject who.now) uid class) self.old result self.new }
        ensures told { TellsFirst (set_class_at self.old (subject who.now) uid class) result }
    {
        if let Some(why) = self.set_class_refusal(who, uid, class) {
            return Err(HierError::Refused(why));
        }
        self.put_class(uid, class);
        Ok(())
    }

    /// Sets the brackets of a directory. After the refusal of every change (above): `NotADir` on a segment, then
    /// `BadBrackets` where they are not in order, or the new or the old first bracket is below the caller's ring.
    /// Takes no memory.
    pub fn set_dir_brackets(
        &mut self,
        who: &Who,
        uid: u32,
        d1: Ring,
        d2: Ring,
    ) -> Result<(), HierError>
        ensures answer { Answers (set_dir_brackets_at self.old (subject who.now) uid d1 d2) self.old result self.new }
        ensures told { TellsFirst (set_dir_brackets_at self.old (subject who.now) uid d1 d2) result }
    {
        if let Some(why) = self.set_dir_brackets_refusal(who, uid, d1, d2) {
            return Err(HierError::Refused(why));
        }
        self.put_dir_brackets(uid, d1, d2);
        Ok(())
    }

    /// Gives an entry another name. After the refusal of every change (above): `IncorrectAccess` on the root, then
    /// `NameDup` where its directory has the name, as its own it has.
    pub fn rename(&mut self, who: &Who, uid: u32, name: &EntryName) -> Result<(), HierError>
        ensures answer { Answers (rename_at self.old (subject who.now) uid name.now) self.old result self.new }
        ensures told { TellsFirst (rename_at self.old (subject who.now) uid name.now) result }
    {
        if let Some(why) = self.rename_refusal(who, uid, name) {
            return Err(HierError::Refused(why));
        }
        self.put_name(uid, name)?;
        Ok(())
    }

    /// Deletes an entry. After the refusal of every change (above): `IncorrectAccess` on the root, then `DirNotEmpty`
    /// where it has entries. The pages of a segment become free. Takes no memory.
    pub fn delete(&mut self, who: &Who, uid: u32) -> Result<(), HierError>
        ensures answer { Answers (delete_at self.old (subject who.now) uid) self.old result self.new }
        ensures told { TellsFirst (delete_at self.old (subject who.now) uid) result }
    {
        if let Some(why) = self.delete_refusal(who, uid) {
            return Err(HierError::Refused(why));
        }
        self.remove(uid);
        Ok(())
    }

    #[inline(always)]
    fn changing_refusal(&self, who: &Who, uid: u32) -> Option<Refusal>
        ensures { result ≡ first_of (changing_refusals self.now (subject who.now) uid) }
    {
        let holder = self.holding(uid);
        match holder {
            Some(directory) if who.has_modify(directory) => None,
            Some(_) | None => Some(who.told(Refusal::IncorrectAccess, holder)),
        }
    }

    fn set_brackets_refusal(&self, who: &Who, uid: u32, rings: &[Ring; 3]) -> Option<Refusal>
        ensures { result ≡ first_of (set_brackets_refusals self.now (subject who.now) uid rings.now) }
    {
        if let Some(why) = self.changing_refusal(who, uid) {
            return Some(why);
        }
        let Some(segment) = self.segment_at(uid) else {
            return Some(Refusal::NotASeg);
        };
        if settable(who.ring, rings).is_none() || is_below(segment.brackets.r1(), who.ring) {
            return Some(Refusal::BadBrackets);
        }
        None
    }

    fn set_class_refusal(&self, who: &Who, uid: u32, class: Class) -> Option<Refusal>
        ensures { result ≡ first_of (set_class_refusals self.now (subject who.now) uid class) }
    {
        if let Some(why) = self.changing_refusal(who, uid) {
            return Some(why);
        }
        let Some(segment) = self.segment_at(uid) else {
            return Some(Refusal::NotASeg);
        };
        if who.ring.number() >= 2 && !class.dominates(&segment.class) {
            return Some(Refusal::BadClass);
        }
        None
    }

    fn set_dir_brackets_refusal(&self, who: &Who, uid: u32, d1: Ring, d2: Ring) -> Option<Refusal>
        ensures { result ≡ first_of (set_dir_brackets_refusals self.now (subject who.now) uid d1 d2) }
    {
        if let Some(why) = self.changing_refusal(who, uid) {
            return Some(why);
        }
        let Some(directory) = self.directory_at(uid) else {
            return Some(Refusal::NotADir);
        };
        if d2.number() < d1.number()
            || d1.number() < who.ring.number()
            || is_below(directory.d1, who.ring)
        {
            return Some(Refusal::BadBrackets);
        }
        None
    }

    fn rename_refusal(&self, who: &Who, uid: u32, name: &EntryName) -> Option<Refusal>
        ensures { result ≡ first_of (rename_refusals self.now (subject who.now) uid name.now) }
    {
        if let Some(why) = self.changing_refusal(who, uid) {
            return Some(why);
        }
        if uid == 0 {
            return Some(Refusal::IncorrectAccess);
        }
        match self.holder(uid) {
            Some(dir) if self.tables.uid_in(dir, name).is_some() => Some(Refusal::NameDup),
            Some(_) | None => None,
        }
    }

    fn delete_refusal(&self, who: &Who, uid: u32) -> Option<Refusal>
        ensures { result ≡ first_of (delete_refusals self.now (subject who.now) uid) }
    {
        if let Some(why) = self.changing_refusal(who, uid) {
            return Some(why);
        }
        if uid == 0 {
            return Some(Refusal::IncorrectAccess);
        }
        if self.tables.count_in(uid) > 0 {
            return Some(Refusal::DirNotEmpty);
        }
        None
    }

    #[tactic(auto, using(crate::proofs::SoundLaws::sound_acl, crate::proofs::ChangeLaws::acl_told))]
    fn put_acl_entry(&mut self, uid: u32, id: &AclId, modes: Modes) -> Result<(), AclError>
        ensures answer { AclTells (first_of (acl_refusals id.now modes (acl_at self.old uid))) result }
        ensures ok { OnOk result (self.new ≡ with_acl self.old uid (λ acl. with_entry acl id.now modes)) }
        ensures err { OnErr result (self.new ≡ self.old) }
    {
        if uid == 0 {
            self.root.acl.set(*id, modes)?;
        } else {
            self.tables.set_acl(uid, id, modes)?;
        }
        Ok(())
    }

    #[tactic(auto, using(crate::proofs::SoundLaws::sound_acl))]
    fn take_acl_entry(&mut self, uid: u32, id: &AclId) -> Result<(), NoEntry>
        ensures found { is_ok result ≡ not (on (λ acl. is_none (entry_of acl id.now)) (acl_at self.old uid)) }
        ensures ok { OnOk result (self.new ≡ with_acl self.old uid (λ acl. without_entry acl id.now)) }
        ensures err { OnErr result (self.new ≡ self.old) }
    {
        if uid == 0 {
            self.root.acl.remove(id)?;
        } else {
            self.tables.remove_acl(uid, id)?;
        }
        Ok(())
    }

    #[tactic(auto, using(crate::proofs::SoundLaws::sound_segment))]
    fn put_brackets(&mut self, uid: u32, brackets: Brackets)
        ensures { self.new ≡ with_brackets self.old uid brackets }
    {
        self.tables.set_brackets(uid, brackets);
    }

    #[tactic(auto, using(crate::proofs::SoundLaws::sound_segment))]
    fn put_class(&mut self, uid: u32, class: Class)
        ensures { self.new ≡ with_class self.old uid class }
    {
        self.tables.set_class(uid, class);
    }

    #[tactic(auto, using(crate::proofs::SoundLaws::sound_directory))]
    fn put_dir_brackets(&mut self, uid: u32, d1: Ring, d2: Ring)
        ensures { self.new ≡ with_dir_brackets self.old uid d1 d2 }
    {
        if uid == 0 {
            self.root.d1 = d1;
            self.root.d2 = d2;
        } else {
            self.tables.set_dir_brackets(uid, d1, d2);
        }
    }

    #[tactic(auto, using(crate::proofs::SoundLaws::sound_renamed))]
    fn put_name(&mut self, uid: u32, name: &EntryName) -> Result<(), AllocError>
        requires below { (uid == 0) ≡ false }
        requires free { on (λ dir. is_some (uid_in self.old.branches dir name.now)) (holder self.old uid) ≡ false }
        ensures ok { OnOk result (self.new ≡ with_branch self.old uid (λ branch. record branch { name = name.now })) }
        ensures err { OnErr result (self.new ≡ self.old) }
    {
        self.tables.rename(uid, name)?;
        Ok(())
    }

    fn remove(&mut self, uid: u32)
        ensures { self.new ≡ deleted self.old uid }
    {
        let run = self.run_at(uid);
        self.tables.remove(uid);
        if let Some(run) = run {
            self.pages.free(u32::from(run.first), u32::from(run.count));
        }
    }

    /// The pages of the segment of a uid.
    fn run_at(&self, uid: u32) -> Option<PageRun>
        ensures value { result ≡ option_map
            (λ segment. record { first = segment.page; count = pages_for segment.words }) (segment_at self.now uid) }
        ensures run { IfSome result IsPageRun }
    {
        let segment = self.segment_at(uid)?;
        Some(PageRun {
            first: segment.page,
            count: pages_for(u32::from(segment.words)) as u16,
        })
    }
}

/// Whether a bracket that stands is below a caller's ring, who may not set it then.
fn is_below(bracket: Ring, ring: Ring) -> bool
    ensures { result ≡ nat_lt bracket ring }
{
    bracket.number() < ring.number()
}
