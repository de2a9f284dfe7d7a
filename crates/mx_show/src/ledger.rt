//! What the entries of a journal leave: the hierarchy, and what each process has of its own.

use crate::tree::{Caller, Led, ROOT, Tree, resolved};
use indexmap::IndexMap;
use mx_aim::Class;
use mx_judging::{Use, closing};
use mx_kst::Known;
use mx_name::{EntryName, Path, Principal};
use mx_object::ObjectMap;
use mx_request::{Reply, Request, last_number};
use mx_script::Session;
use mx_search::{Rule, Rules};
use mx_state::Entry;
use std::alloc::{AllocError, Global};

/// How many segment numbers a process has at most.
const NUMBERS: usize = 256;

/// How many pages there are.
const PAGES: u32 = 1024;

/// The stacks of a process have the numbers below this one.
const STACKS: u16 = 8;

/// What a segment number stands for: nothing yet, this entry of the hierarchy, the linkage section of the segment of this
/// number, or nothing any more, since the entry of this number in the journal.
#[derive(Clone, Copy)]
pub(crate) enum Lot {
    Nothing,
    Segment(u32),
    SectionOf(u16),
    TakenAway(u32),
}

/// What a process has of its own. Of its search rules stands the place in the journal of the entry that set them; none where it
/// has those that it began with.
#[derive(Drop)]
pub(crate) struct Own {
    pub principal: Principal,
    pub authorization: Class,
    pub directory: Path,
    pub rules: Option<usize>,
    pub ended: Option<u32>,
    lots: Vec<Lot>,
    given: u16,
    names: IndexMap<(u8, EntryName), u16>,
}

impl Own {
    fn new(alloc: Global, principal: Principal, authorization: Class) -> Result<Own, AllocError> {
        let mut lots = Vec::with_capacity(alloc, NUMBERS)?;
        for _ in 0..NUMBERS {
            lots.push(Lot::Nothing)?;
        }
        Ok(Own {
            principal,
            authorization,
            directory: Path::root(alloc),
            rules: None,
            ended: None,
            lots,
            given: STACKS,
            names: IndexMap::new(alloc),
        })
    }

    /// What a number stands for; of a stack nothing.
    pub(crate) fn lot(&self, segno: u16) -> Lot {
        match self.lots.get(usize::from(segno)) {
            Some(lot) => *lot,
            None => Lot::Nothing,
        }
    }

    /// The entry of the hierarchy that a number stands for.
    pub(crate) fn known(&self, segno: u16) -> Option<u32> {
        match self.lot(segno) {
            Lot::Segment(at) => Some(at),
            Lot::Nothing | Lot::SectionOf(_) | Lot::TakenAway(_) => None,
        }
    }

    /// The number that a reference name stands for in a ring. One that was taken away is not given again.
    pub(crate) fn named(&self, ring: u8, name: &EntryName) -> Option<u16> {
        let segno = self.names.get(&(ring, *name)).copied()?;
        match self.lot(segno) {
            Lot::Segment(_) => Some(segno),
            Lot::Nothing | Lot::SectionOf(_) | Lot::TakenAway(_) => None,
        }
    }

    // The numbers that an entry of the hierarchy was given, and its linkage section.
    fn give(&mut self, known: &Known, at: u32) {
        if known.fresh {
            self.put(known.segno, Lot::Segment(at));
        }
        if let Some(section) = known.linkage {
            self.put(section, Lot::SectionOf(known.segno));
        }
    }

    fn put(&mut self, segno: u16, lot: Lot) {
        if let Some(place) = self.lots.get_mut(usize::from(segno)) {
            *place = lot;
        }
        self.given = self.given.max(segno.saturating_add(1));
    }

    // A reference name, where it stands for nothing in the ring.
    fn give_name(&mut self, ring: u8, name: &EntryName, segno: u16) -> Result<(), AllocError> {
        if self.named(ring, name).is_none() {
            self.names.insert((ring, *name), segno)?;
        }
        Ok(())
    }

    // What a request leaves that was done, by the entry at this place of the journal. Says whether a page is free then.
    fn apply(
        &mut self,
        alloc: Global,
        place: usize,
        request: &Request,
    ) -> Result<bool, AllocError> {
        let number = number_of(place);
        match request {
            Request::ChangeWdir { path } => {
                if let Ok(directory) = resolved(alloc, &self.directory, path)? {
                    self.directory = directory;
                }
            }
            Request::SetRules { .. } => self.rules = Some(place),
            Request::Terminate { segno } => return Ok(self.take(*segno, number)),
            Request::Logout => self.ended = Some(number),
            _ => {}
        }
        Ok(false)
    }

    // Takes a number away by this entry of the journal, and that of its linkage section. Says whether it had one.
    fn take(&mut self, segno: u16, number: u32) -> bool {
        let mut had = false;
        if let Some(lot) = self.lots.get_mut(usize::from(segno)) {
            *lot = Lot::TakenAway(number);
        }
        for lot in &mut self.lots {
            let is_its_section = match lot {
                Lot::SectionOf(of) => *of == segno,
                Lot::Nothing | Lot::Segment(_) | Lot::TakenAway(_) => false,
            };
            if is_its_section {
                *lot = Lot::TakenAway(number);
                had = true;
            }
        }
        had
    }
}

/// The hierarchy, the processes from the initializer on, and how many pages are left.
#[derive(Drop)]
pub struct Ledger {
    pub(crate) tree: Tree,
    pub(crate) owns: Vec<Own>,
    pub(crate) version: u8,
    pub(crate) pages: u32,
}

impl Ledger {
    /// What stands before the first entry.
    pub fn new(alloc: Global, session: &Session) -> Result<Ledger, AllocError> {
        let entrants = session.principals().items();
        let mut owns = Vec::new(alloc);
        if let Ok(initializer) = Principal::read(b"Initializer.SysDaemon.z") {
            let own = Own::new(alloc, initializer, Class::lowest())?;
            owns.push(own)?;
        }
        for entrant in entrants {
            let own = Own::new(alloc, entrant.who, entrant.authorization)?;
            owns.push(own)?;
        }
        let stacks = entrants.len().min(15) as u32 * u32::from(STACKS);
        let tree = Tree::new(alloc)?;
        Ok(Ledger {
            tree,
            owns,
            version: session.version(),
            pages: PAGES.saturating_sub(stacks),
        })
    }

    /// What the maker of an entry has of its own.
    pub(crate) fn own(&self, process: u8) -> Option<&Own> {
        self.owns.get(usize::from(process))
    }

    /// How many numbers are left to a process.
    pub(crate) fn numbers_left(&self, own: &Own) -> u16 {
        (last_number(self.version) + 1).saturating_sub(own.given)
    }

    /// Whether some access to a segment is left to a caller.
    pub(crate) fn is_open(&self, caller: &Caller, at: u32) -> bool {
        let Some(segment) = self.tree.segment(at) else {
            return false;
        };
        let modes = segment.acl.modes_of(caller.principal);
        let aim = caller.authorization.aim(&segment.class);
        let (ring, brackets) = (caller.ring, &segment.brackets);
        closing(modes, Use::R, aim, ring, brackets).is_none()
            || closing(modes, Use::E, aim, ring, brackets).is_none()
            || closing(modes, Use::W, aim, ring, brackets).is_none()
    }

    /// What the entry at this place of the journal leaves.
    pub fn apply(
        &mut self,
        alloc: Global,
        journal: &[Entry],
        place: usize,
        entry: &Entry,
    ) -> Result<(), AllocError> {
        match &entry.reply {
            Reply::Done => self.apply_done(alloc, place, entry),
            Reply::Segno(known) => self.apply_known(alloc, journal, entry, known),
            Reply::Linked {
                segno,
                fresh,
                linkage,
                ..
            } => {
                let known = Known {
                    segno: *segno,
                    fresh: *fresh,
                    linkage: *linkage,
                };
                self.apply_known(alloc, journal, entry, &known)
            }
            _ => Ok(()),
        }
    }

    fn apply_done(&mut self, alloc: Global, place: usize, entry: &Entry) -> Result<(), AllocError> {
        self.count_pages(alloc, entry)?;
        match entry.request() {
            Request::ChangeWdir { .. }
            | Request::SetRules { .. }
            | Request::Terminate { .. }
            | Request::Logout => {
                if let Some(own) = self.owns.get_mut(usize::from(entry.process)) {
                    if own.apply(alloc, place, entry.request())? {
                        self.pages = self.pages.saturating_add(1);
                    }
                }
                Ok(())
            }
            request => match self.owns.get(usize::from(entry.process)) {
                Some(own) => {
                    let caller = Caller {
                        principal: &own.principal,
                        authorization: own.authorization,
                        ring: entry.ring,
                        base: &own.directory,
                    };
                    self.tree.apply(alloc, &caller, place, request)
                }
                None => Ok(()),
            },
        }
    }

    // Takes the pages of a new segment, and gives those of a deleted one back.
    fn count_pages(&mut self, alloc: Global, entry: &Entry) -> Result<(), AllocError> {
        match entry.request() {
            Request::CreateSeg { words, .. } | Request::CreateObject { words, .. } => {
                self.pages = self.pages.saturating_sub(pages_for(*words));
            }
            Request::Delete { path } => {
                let Some(own) = self.own(entry.process) else {
                    return Ok(());
                };
                if let Some(Led::To(at)) = self.tree.led(alloc, &own.directory, path, false)? {
                    let pages = self.pages_of(at);
                    self.pages = self.pages.saturating_add(pages);
                }
            }
            _ => {}
        }
        Ok(())
    }

    // How many pages an entry has: a segment alone has some.
    fn pages_of(&self, at: u32) -> u32 {
        match self.tree.segment(at) {
            Some(segment) => pages_for(segment.words),
            None => 0,
        }
    }

    // A segment has become known, or has got a further name.
    fn apply_known(
        &mut self,
        alloc: Global,
        journal: &[Entry],
        entry: &Entry,
        known: &Known,
    ) -> Result<(), AllocError> {
        let found = self.found_for(alloc, journal, entry)?;
        if known.linkage.is_some() {
            self.pages = self.pages.saturating_sub(1);
        }
        let name = self.name_for(journal, entry);
        if let Some(own) = self.owns.get_mut(usize::from(entry.process)) {
            own.give(known, found.unwrap_or(u32::MAX));
            if let Some(name) = name {
                own.give_name(entry.ring.number(), &name, known.segno)?;
            }
        }
        Ok(())
    }

    // The reference name that a request gives.
    fn name_for(&self, journal: &[Entry], entry: &Entry) -> Option<EntryName> {
        match entry.request() {
            Request::Initiate { name, .. } => *name,
            Request::Link { segno, word } => {
                let own = self.own(entry.process)?;
                let (name, _) = self.link_at(journal, own, *segno, *word)?;
                Some(name)
            }
            _ => None,
        }
    }

    /// The entry of the hierarchy that a request makes known.
    pub(crate) fn found_for(
        &self,
        alloc: Global,
        journal: &[Entry],
        entry: &Entry,
    ) -> Result<Option<u32>, AllocError> {
        let Some(own) = self.own(entry.process) else {
            return Ok(None);
        };
        match entry.request() {
            Request::Initiate { path, .. } => {
                match self.tree.led(alloc, &own.directory, path, true)? {
                    Some(Led::To(at)) => Ok(Some(at)),
                    _ => Ok(None),
                }
            }
            Request::Link { segno, word } => {
                let Some((name, _)) = self.link_at(journal, own, *segno, *word) else {
                    return Ok(None);
                };
                let caller = Caller {
                    principal: &own.principal,
                    authorization: own.authorization,
                    ring: entry.ring,
                    base: &own.directory,
                };
                self.search(alloc, journal, own, &caller, *segno, &name)
            }
            _ => Ok(None),
        }
    }

    /// The names of a link of a linkage section: of its segment, and of a symbol in it.
    pub(crate) fn link_at(
        &self,
        journal: &[Entry],
        own: &Own,
        segno: u16,
        word: u16,
    ) -> Option<(EntryName, EntryName)> {
        let Lot::SectionOf(of) = own.lot(segno) else {
            return None;
        };
        let at = own.known(of)?;
        let (name, symbol) = self.map_of(journal, at)?.link(word)?;
        Some((*name, *symbol))
    }

    /// The map of an object segment, as the request has it that made it.
    pub(crate) fn map_of<'j>(&self, journal: &'j [Entry], at: u32) -> Option<&'j ObjectMap> {
        let made = self.tree.segment(at)?.made;
        match journal.get(made)?.request() {
            Request::CreateObject { map, .. } => Some(map.map()),
            _ => None,
        }
    }

    // What the search rules find under a name, for a link in this linkage section.
    fn search(
        &self,
        alloc: Global,
        journal: &[Entry],
        own: &Own,
        caller: &Caller,
        section: u16,
        name: &EntryName,
    ) -> Result<Option<u32>, AllocError> {
        let rules = rules_of(alloc, journal, own)?;
        for rule in rules.items() {
            let found = match rule {
                Rule::InitiatedSegments => self.standing(own, caller, name),
                Rule::ReferencingDir => match own.lot(section) {
                    Lot::SectionOf(of) => self.beside(alloc, own, caller, of, name)?,
                    Lot::Nothing | Lot::Segment(_) | Lot::TakenAway(_) => None,
                },
                Rule::WorkingDir => self.found_in(alloc, caller, caller.base.names(), name)?,
                Rule::Directory(path) => self.found_in(alloc, caller, path.names(), name)?,
            };
            if found.is_some() {
                return Ok(found);
            }
        }
        Ok(None)
    }

    // A segment that stands and has this reference name.
    fn standing(&self, own: &Own, caller: &Caller, name: &EntryName) -> Option<u32> {
        let segno = own.named(caller.ring.number(), name)?;
        let at = own.known(segno)?;
        if self.tree.stands(at) { Some(at) } else { None }
    }

    // One of this name in the directory that holds the object of a number.
    fn beside(
        &self,
        alloc: Global,
        own: &Own,
        caller: &Caller,
        object: u16,
        name: &EntryName,
    ) -> Result<Option<u32>, AllocError> {
        match own.known(object) {
            Some(at) if self.tree.stands(at) => {
                let led = self.tree.walk(alloc, self.tree.holder(at), &[*name], true)?;
                Ok(self.opened(caller, led))
            }
            Some(_) | None => Ok(None),
        }
    }

    // One of this name in the directory of a path.
    fn found_in(
        &self,
        alloc: Global,
        caller: &Caller,
        dir: &[EntryName],
        name: &EntryName,
    ) -> Result<Option<u32>, AllocError> {
        let mut path = dir.to_vec(alloc)?;
        path.extend_from_slice(&[*name])?;
        let led = self.tree.walk(alloc, ROOT, &path, true)?;
        Ok(self.opened(caller, led))
    }

    // A segment to which some access is left.
    fn opened(&self, caller: &Caller, led: Led) -> Option<u32> {
        match led {
            Led::To(at) if self.is_open(caller, at) => Some(at),
            _ => None,
        }
    }
}

/// The search rules of a process.
pub(crate) fn rules_of(alloc: Global, journal: &[Entry], own: &Own) -> Result<Rules, AllocError> {
    if let Some(place) = own.rules {
        if let Some(entry) = journal.get(place) {
            if let Request::SetRules { rules } = entry.request() {
                return rules.copy();
            }
        }
    }
    Rules::opening(alloc)
}

/// The number of the entry at a place of the journal.
pub(crate) fn number_of(place: usize) -> u32 {
    u32::try_from(place).unwrap_or(u32::MAX).saturating_add(1)
}

/// How many pages so many words take.
pub(crate) fn pages_for(words: u32) -> u32 {
    words.saturating_add(63) / 64
}
