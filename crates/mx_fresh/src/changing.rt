//! Requests that change an entry: `rename`, `delete`, `set_acl`, `del_acl`, `set_brackets`, `set_dir_brackets` and
//! `set_class`. Each is refused first without m on the directory that holds the entry. An error leaves the hierarchy as
//! it was.

ghost use Rattle.std.specs.Prelude.{◌≡◌, ◌==◌, ◌∷◌, [], false, IfOk, IfSome, OnOk, OnErr, is_ok, is_none, not, nat_lt};
ghost use Rattle.std.specs.Option.{option_map};
ghost use Rattle.mx_acl.specs.Access.{with_entry, without_entry, entry_of};
ghost use Rattle.mx_hier.specs.Branches.{segment_at};
ghost use Rattle.mx_hier.specs.Callers.{on};
ghost use Rattle.mx_hier.specs.Changing.{changing_refusals, acl_at, with_acl, with_branch};
ghost use Rattle.mx_hier.specs.Delete.{delete_refusals, delete_at, pages_left, without};
ghost use Rattle.mx_hier.specs.DeleteAclEntry.{del_acl_at, del_acl};
ghost use Rattle.mx_hier.specs.Listed.{acl_refusals, AclTells};
ghost use Rattle.mx_hier.specs.Rename.{rename_refusals, rename_at, rename};
ghost use Rattle.mx_hier.specs.Rules.{first_of, Answers, TellsFirst};
ghost use Rattle.mx_hier.specs.SetAcl.{set_acl_at, set_acl};
ghost use Rattle.mx_hier.specs.SetBrackets.{set_brackets_refusals, set_brackets_at, set_brackets, with_brackets};
ghost use Rattle.mx_hier.specs.SetClass.{set_class_refusals, set_class_at, set_class, with_class};
ghost use Rattle.mx_hier.specs.SetDirectoryBrackets.{set_dir_brackets_refusals, set_dir_brackets_at, set_dir_brackets, with_dir_brackets};
ghost use Rattle.mx_hier.specs.Walks.{resolved};
ghost use Rattle.mx_hier.specs.Who.{subject, caller};
ghost use Rattle.mx_pages.specs.Runs.{IsPageRun};
ghost use Rattle.mx_fresh.specs.Runs.{run_of};

use crate::access::{has_modify, say};
use crate::branches::Segment;
use crate::entries::{remove_from_list, set_list};
use crate::hierarchy::{FreshHierarchy, count_in, uid_in};
use crate::making::settable;
use crate::pages::{PageList, pages_for};
use mx_acl::{AclError, Modes, NoEntry};
use mx_aim::Class;
use mx_hier::{HierError, Refusal, Who};
use mx_name::{AclId, EntryName};
use mx_pages::PageRun;
use mx_sdw::{Brackets, Ring};
use std::alloc::{AllocError, Global};

impl FreshHierarchy {
    /// Sets the modes of an identifier on the access list of an entry.
    pub fn set_acl(
        &mut self,
        who: &Who,
        uid: u32,
        id: &AclId,
        modes: Modes,
    ) -> Result<(), HierError>
        ensures answer { Answers (set_acl_at self.old (subject who.now) uid id.now modes) self.old result self.new }
        ensures pages { self.new.pages ≡ self.old.pages }
        ensures told { TellsFirst (set_acl_at self.old (subject who.now) uid id.now modes) result }
    {
        if let Some(why) = self.changing_refusal(who, uid) {
            return Err(HierError::Refused(why));
        }
        match self.put_acl_entry(uid, id, modes) {
            Ok(()) => Ok(()),
            Err(AclError::InvalidMode) => Err(HierError::Refused(Refusal::InvalidMode)),
            Err(AclError::Full) => Err(HierError::Refused(Refusal::AclFull)),
            Err(AclError::Memory) => Err(HierError::Memory),
        }
    }

    /// Removes the entry of an identifier from the access list of an entry. Takes no memory.
    pub fn del_acl(&mut self, who: &Who, uid: u32, id: &AclId) -> Result<(), HierError>
        ensures answer { Answers (del_acl_at self.old (subject who.now) uid id.now) self.old result self.new }
        ensures pages { self.new.pages ≡ self.old.pages }
        ensures told { TellsFirst (del_acl_at self.old (subject who.now) uid id.now) result }
    {
        if let Some(why) = self.changing_refusal(who, uid) {
            return Err(HierError::Refused(why));
        }
        match self.take_acl_entry(uid, id) {
            Ok(()) => Ok(()),
            Err(NoEntry) => Err(HierError::Refused(Refusal::NoAclEntry)),
        }
    }

    /// Sets the brackets of a segment. Takes no memory.
    pub fn set_brackets(
        &mut self,
        who: &Who,
        uid: u32,
        brackets: [Ring; 3],
    ) -> Result<(), HierError>
        ensures answer { Answers (set_brackets_at self.old (subject who.now) uid brackets) self.old result self.new }
        ensures pages { self.new.pages ≡ self.old.pages }
        ensures told { TellsFirst (set_brackets_at self.old (subject who.now) uid brackets) result }
    {
        if let Some(why) = self.set_brackets_refusal(who, uid, &brackets) {
            return Err(HierError::Refused(why));
        }
        let Some(brackets) = settable(who.ring, &brackets) else {
            return Err(HierError::Refused(Refusal::BadBrackets));
        };
        self.put_brackets(uid, brackets);
        Ok(())
    }

    /// Sets the class of a segment. Takes no memory.
    pub fn set_class(&mut self, who: &Who, uid: u32, class: Class) -> Result<(), HierError>
        ensures answer { Answers (set_class_at self.old (subject who.now) uid class) self.old result self.new }
        ensures pages { self.new.pages ≡ self.old.pages }
        ensures told { TellsFirst (set_class_at self.old (subject who.now) uid class) result }
    {
        if let Some(why) = self.set_class_refusal(who, uid, class) {
            return Err(HierError::Refused(why));
        }
        self.put_class(uid, class);
        Ok(())
    }

    /// Sets the brackets of a directory. Takes no memory.
    pub fn set_dir_brackets(
        &mut self,
        who: &Who,
        uid: u32,
        d1: Ring,
        d2: Ring,
    ) -> Result<(), HierError>
        ensures answer { Answers (set_dir_brackets_at self.old (subject who.now) uid d1 d2) self.old result self.new }
        ensures told { TellsFirst (set_dir_brackets_at self.old (subject who.now) uid d1 d2) result }
    {
        if let Some(why) = self.set_dir_brackets_refusal(who, uid, d1, d2) {
            return Err(HierError::Refused(why));
        }
        self.put_dir_brackets(uid, d1, d2);
        Ok(())
    }

    /// Gives an entry another name. Takes no memory.
    pub fn rename(&mut self, who: &Who, uid: u32, name: &EntryName) -> Result<(), HierError>
        ensures answer { Answers (rename_at self.old (subject who.now) uid name.now) self.old result self.new }
        ensures told { TellsFirst (rename_at self.old (subject who.now) uid name.now) result }
    {
        if let Some(why) = self.rename_refusal(who, uid, name) {
            return Err(HierError::Refused(why));
        }
        self.put_name(uid, name);
        Ok(())
    }

    /// Deletes an entry: the pages of a segment become free, and its object map stays. Gives back the run of those pages.
    pub fn delete(
        &mut self,
        alloc: Global,
        who: &Who,
        uid: u32,
    ) -> Result<Option<PageRun>, HierError>
        ensures answer { Answers (delete_at self.old (subject who.now) uid) self.old result self.new }
        ensures run { IfOk result (λ run. run ≡ option_map run_of (segment_at self.old uid)) }
        ensures is_run { IfOk result (λ run. IfSome run IsPageRun) }
        ensures pages { IfOk result (λ run. self.new.pages ≡ pages_left self.old.pages (segment_at self.old uid)) }
        ensures told { TellsFirst (delete_at self.old (subject who.now) uid) result }
    {
        if let Some(why) = self.delete_refusal(who, uid) {
            return Err(HierError::Refused(why));
        }
        let run = self.run_at(uid);
        let pages = self.pages_left(alloc, uid)?;
        self.remove(uid, pages);
        Ok(run)
    }

    fn changing_refusal(&self, who: &Who, uid: u32) -> Option<Refusal>
        ensures { result ≡ first_of (changing_refusals self.now (subject who.now) uid) }
    {
        let holder = self.holding(uid);
        match holder {
            Some(directory) if has_modify(who, directory) => None,
            Some(_) | None => Some(say(who, Refusal::IncorrectAccess, holder)),
        }
    }

    fn set_brackets_refusal(&self, who: &Who, uid: u32, rings: &[Ring; 3]) -> Option<Refusal>
        ensures { result ≡ first_of (set_brackets_refusals self.now (subject who.now) uid rings.now) }
    {
        if let Some(why) = self.changing_refusal(who, uid) {
            return Some(why);
        }
        let Some(segment) = self.segment_at(uid) else {
            return Some(Refusal::NotASeg);
        };
        if settable(who.ring, rings).is_none() || is_below(segment.brackets.r1(), who.ring) {
            return Some(Refusal::BadBrackets);
        }
        None
    }

    fn set_class_refusal(&self, who: &Who, uid: u32, class: Class) -> Option<Refusal>
        ensures { result ≡ first_of (set_class_refusals self.now (subject who.now) uid class) }
    {
        if let Some(why) = self.changing_refusal(who, uid) {
            return Some(why);
        }
        let Some(segment) = self.segment_at(uid) else {
            return Some(Refusal::NotASeg);
        };
        if who.ring.number() >= 2 && !class.dominates(&segment.class) {
            return Some(Refusal::BadClass);
        }
        None
    }

    fn set_dir_brackets_refusal(&self, who: &Who, uid: u32, d1: Ring, d2: Ring) -> Option<Refusal>
        ensures { result ≡ first_of (set_dir_brackets_refusals self.now (subject who.now) uid d1 d2) }
    {
        if let Some(why) = self.changing_refusal(who, uid) {
            return Some(why);
        }
        let Some(directory) = self.directory_at(uid) else {
            return Some(Refusal::NotADir);
        };
        if d2.number() < d1.number()
            || d1.number() < who.ring.number()
            || is_below(directory.d1, who.ring)
        {
            return Some(Refusal::BadBrackets);
        }
        None
    }

    fn rename_refusal(&self, who: &Who, uid: u32, name: &EntryName) -> Option<Refusal>
        ensures { result ≡ first_of (rename_refusals self.now (subject who.now) uid name.now) }
    {
        if let Some(why) = self.changing_refusal(who, uid) {
            return Some(why);
        }
        if uid == 0 {
            return Some(Refusal::IncorrectAccess);
        }
        match self.holder(uid) {
            Some(dir) if uid_in(self.branches.items(), dir, name).is_some() => {
                Some(Refusal::NameDup)
            }
            Some(_) | None => None,
        }
    }

    fn delete_refusal(&self, who: &Who, uid: u32) -> Option<Refusal>
        ensures { result ≡ first_of (delete_refusals self.now (subject who.now) uid) }
    {
        if let Some(why) = self.changing_refusal(who, uid) {
            return Some(why);
        }
        if uid == 0 {
            return Some(Refusal::IncorrectAccess);
        }
        if count_in(self.branches.items(), uid) > 0 {
            return Some(Refusal::DirNotEmpty);
        }
        None
    }

    #[tactic(auto, using(mx_hier::proofs::ChangeLaws::acl_told))]
    fn put_acl_entry(&mut self, uid: u32, id: &AclId, modes: Modes) -> Result<(), AclError>
        ensures answer { AclTells (first_of (acl_refusals id.now modes (acl_at self.old uid))) result }
        ensures ok { OnOk result (self.new ≡ with_acl self.old uid (λ acl. with_entry acl id.now modes)) }
        ensures err { OnErr result (self.new ≡ self.old) }
        ensures pages { self.new.pages ≡ self.old.pages }
    {
        if uid == 0 {
            set_list(&mut self.root.acl, id, modes)?;
        } else {
            self.branches.set_acl(uid, id, modes)?;
        }
        Ok(())
    }

    fn take_acl_entry(&mut self, uid: u32, id: &AclId) -> Result<(), NoEntry>
        ensures found { is_ok result ≡ not (on (λ acl. is_none (entry_of acl id.now)) (acl_at self.old uid)) }
        ensures ok { OnOk result (self.new ≡ with_acl self.old uid (λ acl. without_entry acl id.now)) }
        ensures err { OnErr result (self.new ≡ self.old) }
        ensures pages { self.new.pages ≡ self.old.pages }
    {
        if uid == 0 {
            remove_from_list(&mut self.root.acl, id)?;
        } else {
            self.branches.remove_acl(uid, id)?;
        }
        Ok(())
    }

    fn put_brackets(&mut self, uid: u32, brackets: Brackets)
        ensures { self.new ≡ with_brackets self.old uid brackets }
    {
        self.branches.set_brackets(uid, brackets);
    }

    fn put_class(&mut self, uid: u32, class: Class)
        ensures { self.new ≡ with_class self.old uid class }
    {
        self.branches.set_class(uid, class);
    }

    fn put_dir_brackets(&mut self, uid: u32, d1: Ring, d2: Ring)
        ensures { self.new ≡ with_dir_brackets self.old uid d1 d2 }
    {
        if uid == 0 {
            self.root.d1 = d1;
            self.root.d2 = d2;
        } else {
            self.branches.set_dir_brackets(uid, d1, d2);
        }
    }

    fn put_name(&mut self, uid: u32, name: &EntryName)
        ensures { self.new ≡ with_branch self.old uid (λ branch. record branch { name = name.now }) }
    {
        self.branches.rename(uid, name);
    }

    /// The run of pages that the segment of a uid lies on.
    fn run_at(&self, uid: u32) -> Option<PageRun>
        ensures value { result ≡ option_map run_of (segment_at self.now uid) }
        ensures is_run { IfSome result IsPageRun }
    {
        let segment = self.segment_at(uid)?;
        Some(run_of(segment))
    }

    /// The pages once those of the segment of a uid are free.
    fn pages_left(&self, alloc: Global, uid: u32) -> Result<PageList, AllocError>
        ensures { IfOk result (λ pages. pages ≡ pages_left self.now.pages (segment_at self.now uid)) }
    {
        match self.segment_at(uid) {
            None => self.pages.copy(alloc),
            Some(segment) => {
                let pages = pages_for(u32::from(segment.words));
                self.pages.with_free(alloc, u32::from(segment.page), pages)
            }
        }
    }

    fn remove(&mut self, uid: u32, pages: PageList)
        ensures { self.new ≡ record self.old { branches = without uid self.old.branches; pages = pages } }
    {
        self.branches.remove(uid);
        self.pages = pages;
    }
}

/// The run of pages that a segment lies on.
fn run_of(segment: &Segment) -> PageRun
    ensures value { result ≡ run_of segment.now }
    ensures is_run { IsPageRun result }
{
    let pages = pages_for(u32::from(segment.words));
    PageRun {
        first: segment.page,
        count: pages as u16,
    }
}

/// Whether a bracket that stands is below a caller's ring, who may not set it then.
fn is_below(bracket: Ring, ring: Ring) -> bool
    ensures { result ≡ nat_lt bracket ring }
{
    bracket.number() < ring.number()
}
