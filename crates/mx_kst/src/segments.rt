//! The known segment table.
ghost use Rattle.std.specs.Prelude.{◌≡◌, ◌↔◌, ◌⊎◌, ◌+◌, ◌≤◌, ◌<◌, ◌==◌, ◌||◌, if◌then◌else◌, ℕ, true, List, length, Some, None, IfOk, OnOk, OnErr, IfSome};
ghost use Rattle.std.specs.Option.{option_copied};
ghost use Rattle.mx_name.specs.Answers.{Answers};
ghost use Rattle.mx_kst.specs.Lots.{numbers_left, lot_of, number_of, is_branch, is_section_of};
ghost use Rattle.mx_kst.specs.Names.{named};

use crate::lots::{self, Lot};
use crate::names::{self, Names};
use crate::numbers;
use crate::sections::Section;
use indexmap::IndexMap;
use mx_name::EntryName;
use mx_sdw::Ring;
use std::alloc::{AllocError, Global};
use std::marker::Model;
use thiserror::Error;

/// How a segment is known.
#[derive(Clone, Copy, Debug, PartialEq, Eq)]
pub struct Known {
    /// Its segment number.
    pub segno: u16,
    /// Whether it was not known before and got the number now.
    pub fresh: bool,
    /// The number of the linkage section that was made with it now.
    pub linkage: Option<u16>,
}

/// Why a segment is not initiated. The variants are tested in this order.
#[derive(Clone, Copy, Debug, PartialEq, Eq, Error)]
pub enum KstError {
    /// The reference name stands in this ring for another number.
    #[error("name duplication")]
    NameDup,
    /// The segment is not known, and too few numbers are left for it and its linkage section.
    #[error("known segment table full")]
    Full,
    /// Out of memory; the segment may be initiated.
    #[error("out of memory")]
    Memory,
}

impl From<AllocError> for KstError {
    ghost use Rattle.mx_kst.specs.declared.segments.KstError.TheVariants.{Memory};

    ghost from_gives = { λ _ e. e ≡ Memory };

    fn from(_error: AllocError) -> KstError {
        KstError::Memory
    }
}

/// The number is not that of a known segment.
#[derive(Clone, Copy, Debug, PartialEq, Eq, Error)]
#[error("unknown segment number")]
pub struct UnknownSegno;

/// The known segment table of a process. Numbers 0 to 7 are its stacks; segments and their linkage sections get the
/// numbers from 8 to the last in order, and no number is used again (linkage sections with numbers of their own are this
/// model's choice).
#[derive(Debug, Drop)]
pub struct Kst {
    /// The last number, at most 255.
    last: u16,
    /// By number, those given so far; with room for all.
    lots: Vec<Lot>,
    /// By ring; `terminate` leaves them, and a name stands while its number is that of a segment.
    names: Vec<Names>,
    /// By uid, those of the segments that are known; with room for all that are left.
    numbers: IndexMap<u32, u16>,
}

impl Model for Kst {
    ghost use Rattle.std.specs.Prelude.{◌==◌, ◌<◌, ◌≤◌, map};
    ghost use Rattle.std.specs.List.{All};
    ghost use Rattle.std.specs.Vec.{vec_capacity};
    ghost use Rattle.indexmap.specs.IndexMap.{get, spare};
    ghost use Rattle.mx_kst.specs.Index.{Indexes};
    ghost use Rattle.mx_kst.specs.Lots.{numbers_left};
    ghost use Rattle.mx_kst.specs.KnownSegments.{KnownSegments, IsSound};
    ghost use Rattle.mx_kst.specs.Stored.{standing, AreGiven};

    ghost Value = { KnownSegments };

    ghost view = { λ a. record { last = a.last; lots = a.lots.items; names = map (standing a.lots.items) a.names.items } };

    ghost invariant = { λ a. IsSound (record { last = a.last; lots = a.lots.items; names = map (standing a.lots.items) a.names.items })
        × All (AreGiven a.lots.items) a.names.items × (a.last < vec_capacity a.lots)
        × Indexes (get ◌==◌ a.numbers) a.lots.items × (numbers_left a.last a.lots.items ≤ spare a.numbers) };
}

impl Kst {
    ghost use Rattle.mx_kst.specs.KnownSegments.{at_first, IsSound};
    ghost use Rattle.mx_kst.specs.Initiating.{is_taken, is_full, refusal, known_as, initiate, outcome};
    ghost use Rattle.mx_kst.specs.Terminating.{terminate};

    /// The stacks, and no names. The last number is 127 or 255 (this model's limits). Takes the memory for all numbers
    /// here.
    pub fn new(alloc: Global, last: u16) -> Result<Kst, AllocError>
        requires { (last ≡ 127) ⊎ (last ≡ 255) }
        ensures { IfOk result (λ kst. kst ≡ at_first last) }
    {
        let lots = lots::first_lots(alloc, last)?;
        let names = names::no_names(alloc)?;
        let numbers = IndexMap::with_capacity(alloc, usize::from(last) + 1)?;
        Ok(Kst {
            last,
            lots,
            names,
            numbers,
        })
    }

    /// Why `initiate` would refuse a segment in a ring under a name, if one is given, and with a linkage section, if
    /// one is wanted: `NameDup` before `Full`, and never `Memory`. None exactly where it would not refuse. Takes no
    /// memory.
    pub fn refusal(
        &self,
        uid: u32,
        ring: Ring,
        name: Option<&EntryName>,
        wanted: bool,
    ) -> Option<KstError>
        ensures { result ≡ refusal self.now uid ring (option_copied name.entry) wanted }
    {
        if self.is_taken(uid, ring, name) {
            Some(KstError::NameDup)
        } else if self.is_full(uid, wanted) {
            Some(KstError::Full)
        } else {
            None
        }
    }

    /// Makes a segment known, and gives it a reference name in a ring where one is given. A segment that is known keeps
    /// its number and gets no linkage section; else it gets the next number, and the linkage section, where one is
    /// wanted, the number after that. `NameDup` exactly where the name stands in the ring for another number than the
    /// segment's; then `Full` exactly where the segment is not known and too few numbers are left up to the last. A
    /// refusal, and want of memory, change nothing.
    pub fn initiate(
        &mut self,
        uid: u32,
        ring: Ring,
        name: Option<&EntryName>,
        section: Option<Section>,
    ) -> Result<Known, KstError>
        ensures answer { Answers KstError.Memory (initiate self.old uid ring (option_copied name.entry) section)
            (outcome result self.new) }
        ensures err { OnErr result (self.new ≡ self.old) }
    {
        if let Some(refusal) = self.refusal(uid, ring, name, section.is_some()) {
            return Err(refusal);
        }
        let known = self.known_as(uid, &section);
        names::add_name(&mut self.names, &self.lots, ring, name, known.segno)?;
        lots::add_lots(&mut self.lots, &known, uid, section);
        numbers::add_number(&mut self.numbers, &known, uid);
        Ok(known)
    }

    /// Takes away a segment's number, its names in all rings and its linkage section. Refused exactly where the number
    /// is not that of a known segment, as stacks and linkage sections are not; then nothing changes. Takes no memory.
    pub fn terminate(&mut self, segno: u16) -> Result<(), UnknownSegno>
        ensures ok { OnOk result (terminate self.old segno ≡ Some self.new) }
        ensures refused { OnErr result (terminate self.old segno ≡ None) }
        ensures err { OnErr result (self.new ≡ self.old) }
    {
        let Lot::Branch { uid } = lots::lot_of(&self.lots, segno) else {
            return Err(UnknownSegno);
        };
        lots::free(&mut self.lots, segno);
        numbers::take_number(&mut self.numbers, uid);
        Ok(())
    }

    /// The number that a reference name stands for in a ring. Takes no memory.
    pub fn by_name(&self, ring: Ring, name: &EntryName) -> Option<u16>
        ensures value { result ≡ named self.now.names ring name.now }
        ensures known { IfSome result (λ segno. is_branch (lot_of self.now.lots segno) ≡ true) }
        ensures sound { IsSound self.now }
    {
        names::named(&self.names, &self.lots, ring, name)
    }

    /// The number of a segment, found by one look-up. Takes no memory.
    pub fn by_uid(&self, uid: u32) -> Option<u16>
        ensures value { result ≡ number_of self.now.lots uid }
        ensures only { (n : ℕ) → (result ≡ Some n) ↔ (lot_of self.now.lots n ≡ Lot.Branch uid) }
        ensures sound { IsSound self.now }
    {
        self.numbers.get(&uid).copied()
    }

    /// What a number stands for. Takes no memory.
    pub fn lot(&self, segno: u16) -> Lot
        ensures value { result ≡ lot_of self.now.lots segno }
        ensures sound { IsSound self.now }
    {
        lots::lot_of(&self.lots, segno)
    }

    /// The last number that may be given. Takes no memory.
    pub fn last(&self) -> u16
        ensures value { result ≡ self.now.last }
        ensures sound { IsSound self.now }
    {
        self.last
    }

    /// How many numbers have not been given yet. Takes no memory.
    pub fn left(&self) -> u16
        ensures value { result ≡ numbers_left self.now.last self.now.lots }
        ensures sound { IsSound self.now }
    {
        self.last + 1 - self.lots.len() as u16
    }

    fn is_taken(&self, uid: u32, ring: Ring, name: Option<&EntryName>) -> bool
        ensures { result ≡ is_taken self.now uid ring (option_copied name.entry) }
    {
        let Some(name) = name else {
            return false;
        };
        match (self.by_uid(uid), self.by_name(ring, name)) {
            (_, None) => false,
            (None, Some(_)) => true,
            (Some(own), Some(segno)) => segno != own,
        }
    }

    fn is_full(&self, uid: u32, wanted: bool) -> bool
        ensures { result ≡ is_full self.now uid wanted }
    {
        let needed = if wanted { 2 } else { 1 };
        self.by_uid(uid).is_none() && self.left() < needed
    }

    fn known_as(&self, uid: u32, section: &Option<Section>) -> Known
        ensures { result ≡ known_as self.now.lots uid section.now }
    {
        if let Some(segno) = self.by_uid(uid) {
            return Known {
                segno,
                fresh: false,
                linkage: None,
            };
        }
        let segno = self.lots.len() as u16;
        Known {
            segno,
            fresh: true,
            linkage: if section.is_some() {
                Some(segno + 1)
            } else {
                None
            },
        }
    }
}
