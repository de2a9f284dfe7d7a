//! Requests on what a process knows.

ghost use Rattle.std.specs.Prelude.{◌≡◌, ◌≤◌, ◌<◌, [], true, Some, None, Ok, if◌then◌else◌, length, slice_get, vec_len, IfOk, IfSome, OnErr};
ghost use Rattle.std.specs.Option.{option_copied, option_map};
ghost use Rattle.mx_kst.specs.Initiating.{initiate};
ghost use Rattle.mx_kst.specs.KnownSegments.{KnownSegments};
ghost use Rattle.mx_kst.specs.Lots.{lot_of, is_branch, is_section_of};
ghost use Rattle.mx_kst.specs.Sections.{IsWithinPage};
ghost use Rattle.mx_kst.specs.Terminating as kst;
ghost use Rattle.mx_request.specs.declared.requests.Request.TheVariants as ask;
ghost use Rattle.mx_state.specs.Askers.{asker};
ghost use Rattle.mx_state.specs.AtOnce.{no_link, pathless, unknown_number};
ghost use Rattle.mx_state.specs.Connecting.{connect, with_section_page};
ghost use Rattle.mx_state.specs.Known.{knowing, section_or_refusal, Connects};
ghost use Rattle.mx_state.specs.Knowing.{free_name};
ghost use Rattle.mx_state.specs.NextRun.{IsApart, one_page, section_run};
ghost use Rattle.mx_state.specs.Plain.{process_at};
ghost use Rattle.mx_state.specs.Requests.{plain};
ghost use Rattle.mx_state.specs.Sections.{page_of_lot, section_page, with_page_back};
ghost use Rattle.mx_state.specs.Serving.{Serves};
ghost use Rattle.mx_state.specs.Told.{IsLinkedWithin};
ghost use Rattle.mx_state.specs.declared.states.ProcessState.{ProcessState as ProcessValue};

use crate::applied::Applied;
use crate::callers::{own_caller, process_in};
use crate::linking::{link_at, place_of};
use crate::renewing::{held_two, renewed};
use crate::replies::refused;
use crate::states::{ProcessState, State};
use mx_core::Changes;
use mx_hier::{Hier, Refusal};
use mx_kst::{Known, Kst, KstError, Lot, Section};
use mx_name::{EntryName, Pathname};
use mx_pages::PageRun;
use mx_request::Reply;
use mx_sdw::Ring;
use std::alloc::{AllocError, Global};

/// How a segment is known now, the descriptors that this changed, and the run of pages that it gave out.
#[derive(Drop)]
pub struct Connection {
    pub known: Known,
    pub changes: Changes,
    pub given: Option<PageRun>,
}

impl State {
    /// Makes a segment known, with a reference name in the ring where one is given.
    pub(crate) fn initiate(
        &mut self,
        alloc: Global,
        p: u8,
        ring: Ring,
        path: &Pathname,
        name: Option<&EntryName>,
    ) -> Result<Applied, AllocError>
        requires some { 1 ≤ p }
        requires process { p ≤ length self.old.processes }
        ensures served { IfOk result
            (Serves self.old self.new (plain self.old p ring (ask.Initiate path.now (option_copied name.entry)))) }
        ensures told { OnErr result (pathless (asker self.old.processes p) ring path.now ≡ None) }
        ensures err { OnErr result (self.new ≡ self.old) }
    {
        let process = process_in(self.processes.as_slice(), usize::from(p) - 1);
        let who = own_caller(process, ring);
        let uid = match self.hier.segment(alloc, &who, path) {
            Ok(uid) => uid,
            Err(error) => return refused(alloc, error),
        };
        match self.connect(alloc, p, ring, name, uid)? {
            Ok(connection) => Ok(Applied {
                reply: Reply::Segno(connection.known),
                changes: connection.changes,
                given: connection.given,
                freed: None,
            }),
            Err(why) => Ok(Applied::unchanged(alloc, Reply::Refused(why))),
        }
    }

    /// Resolves a link: the segment to which it leads becomes known, under the link's name of it unless the ring has that
    /// name already.
    pub(crate) fn link(
        &mut self,
        alloc: Global,
        p: u8,
        ring: Ring,
        segno: u16,
        word: u16,
    ) -> Result<Applied, AllocError>
        requires some { 1 ≤ p }
        requires process { p ≤ length self.old.processes }
        ensures served { IfOk result (Serves self.old self.new (plain self.old p ring (ask.Link segno word))) }
        ensures linked { IfOk result (λ applied. IsLinkedWithin applied.reply) }
        ensures told { OnErr result (no_link self.old p segno word ≡ None) }
        ensures err { OnErr result (self.new ≡ self.old) }
    {
        let process = process_in(self.processes.as_slice(), usize::from(p) - 1);
        let Some(link) = link_at(&self.hier, &process.known, segno, word) else {
            return Ok(Applied::unchanged(alloc, Reply::Refused(Refusal::NotLinkage)));
        };
        let to = match place_of(alloc, &self.hier, process, ring, &link) {
            Ok(to) => to,
            Err(error) => return refused(alloc, error),
        };
        let name = free_name(&process.known, ring, link.segment);
        match self.connect(alloc, p, ring, name.as_ref(), to.uid)? {
            Ok(connection) => Ok(Applied {
                reply: Reply::Linked {
                    segno: connection.known.segno,
                    word: to.word,
                    fresh: connection.known.fresh,
                    linkage: connection.known.linkage,
                },
                changes: connection.changes,
                given: connection.given,
                freed: None,
            }),
            Err(why) => Ok(Applied::unchanged(alloc, Reply::Refused(why))),
        }
    }

    /// Makes a segment known to a process, with a reference name in the ring where one is given, or tells why not: one
    /// that is known keeps its number; another gets the next one, and its linkage section, where it has links, the one
    /// after that. The only descriptors that change are those of numbers that are given now. All memory is taken before
    /// anything changes.
    fn connect(
        &mut self,
        alloc: Global,
        p: u8,
        ring: Ring,
        name: Option<&EntryName>,
        uid: u32,
    ) -> Result<Result<Connection, Refusal>, AllocError>
        requires some { 1 ≤ p }
        requires process { p ≤ length self.old.processes }
        requires made { uid < self.old.hierarchy.next }
        ensures connected { IfOk result (λ given. (process : ProcessValue)
            → process_at self.old.processes p ≡ Some process → Connects self.old self.new p process
            (connect self.old.hierarchy process.known ring (option_copied name.entry) uid) given) }
        ensures number { IfOk result (λ given. IfOk given (λ connection. connection.known.segno ≤ 255)) }
        ensures err { OnErr result (self.new ≡ self.old) }
    {
        let i = usize::from(p) - 1;
        let process = process_in(self.processes.as_slice(), i);
        let section = match section(&self.hier, &process.known, uid, ring, name) {
            Ok(section) => section,
            Err(why) => return Ok(Err(why)),
        };
        let next = process.known.last() + 1 - process.known.left();
        let held = held_two(alloc, &self.hier, self.processes.as_slice(), p, next)?;
        let known = know(&mut self.processes, i, uid, ring, name, section)?;
        let given = give_page(&mut self.hier, &section);
        let changes = renewed(&self.hier, self.processes.as_slice(), held);
        Ok(Ok(Connection {
            known,
            changes,
            given,
        }))
    }

    /// Takes a segment's number and names away, and its linkage section, whose page is freed. The only descriptors that
    /// change are those of the two numbers, which are then unknown.
    pub(crate) fn terminate(
        &mut self,
        alloc: Global,
        p: u8,
        ring: Ring,
        segno: u16,
    ) -> Result<Applied, AllocError>
        requires some { 1 ≤ p }
        requires process { p ≤ length self.old.processes }
        ensures served { IfOk result (Serves self.old self.new (plain self.old p ring (ask.Terminate segno))) }
        ensures told { OnErr result (unknown_number self.old p segno ≡ None) }
        ensures err { OnErr result (self.new ≡ self.old) }
    {
        let i = usize::from(p) - 1;
        let process = process_in(self.processes.as_slice(), i);
        if !is_segment(process, segno) {
            return Ok(Applied::unchanged(alloc, Reply::Refused(Refusal::UnknownSegno)));
        }
        let held = held_two(alloc, &self.hier, self.processes.as_slice(), p, segno)?;
        let page = section_page(&process.known, segno);
        forget(&mut self.processes, i, segno);
        let freed = release_page(&mut self.hier, page);
        let changes = renewed(&self.hier, self.processes.as_slice(), held);
        Ok(Applied {
            reply: Reply::Done,
            changes,
            given: None,
            freed,
        })
    }
}

// The linkage section that is to be made of a segment, or why the segment cannot become known to a process.
fn section(
    hier: &Hier,
    known: &Kst,
    uid: u32,
    ring: Ring,
    name: Option<&EntryName>,
) -> Result<Option<Section>, Refusal>
    ensures value { result ≡ section_or_refusal hier.now known.now uid ring (option_copied name.entry) }
    ensures within { IfOk result (λ section. IfSome section (λ section. IsWithinPage section.page section.words)) }
{
    let words = hier.links(uid);
    match known.refusal(uid, ring, name, words > 0) {
        None => {}
        Some(KstError::NameDup) => return Err(Refusal::NameDup),
        Some(KstError::Full) => return Err(Refusal::KstFull),
        Some(KstError::Memory) => unreachable!(),
    }
    if words == 0 || known.by_uid(uid).is_some() {
        return Ok(None);
    }
    let Some(page) = hier.free_page() else {
        return Err(Refusal::NoPages);
    };
    match hier.linkage_brackets(uid) {
        Some(brackets) => Ok(Section::new(page, brackets, words)),
        None => Ok(None),
    }
}

// Makes a segment known to the process in a place, with this linkage section. What would be refused is not asked for.
fn know(
    processes: &mut Vec<ProcessState>,
    i: usize,
    uid: u32,
    ring: Ring,
    name: Option<&EntryName>,
    section: Option<Section>,
) -> Result<Known, AllocError>
    requires within { i < vec_len processes.old }
    ensures known { IfOk result (λ known. (process : ProcessValue) → slice_get processes.old.items i ≡ Some process
        → (after : KnownSegments)
        × (initiate process.known uid ring (option_copied name.entry) section
        ≡ Ok (record { known = known; after = after }))
        × (processes.new.items ≡ knowing processes.old.items i process after)) }
    ensures err { OnErr result (processes.new.items ≡ processes.old.items) }
    ensures count { vec_len processes.new ≡ vec_len processes.old }
{
    match processes[i].known.initiate(uid, ring, name, section) {
        Ok(known) => Ok(known),
        Err(_) => Err(AllocError),
    }
}

// Gives out the page of a linkage section, if there is one, and says which.
fn give_page(hier: &mut Hier, section: &Option<Section>) -> Option<PageRun>
    ensures run { result ≡ section_run hier.old section.now }
    ensures after { hier.new ≡ with_section_page hier.old section.now }
{
    if section.is_none() {
        return None;
    }
    let first = hier.take_page()?;
    Some(PageRun { first, count: 1 })
}

// The name of a segment that is found, unless the ring has it already.
fn free_name(known: &Kst, ring: Ring, name: EntryName) -> Option<EntryName>
    ensures { result ≡ free_name known.now ring name }
{
    match known.by_name(ring, &name) {
        Some(_) => None,
        None => Some(name),
    }
}

// Whether the number is that of a known segment.
fn is_segment(process: &ProcessState, segno: u16) -> bool
    ensures value { result ≡ is_branch (lot_of process.now.known.lots segno) }
    ensures within { result ≡ true → segno ≤ 255 }
{
    matches!(process.known.lot(segno), Lot::Branch { .. })
}

// The page of the linkage section that goes with a number: a section has the number after that of its segment.
fn section_page(known: &Kst, segno: u16) -> Option<u16>
    requires { segno ≤ 255 }
    ensures { result ≡ section_page known.now segno }
{
    let lot = known.lot(segno + 1);
    page_of_section(&lot, segno)
}

// The page of a lot, where that is the linkage section of a number.
fn page_of_section(lot: &Lot, segno: u16) -> Option<u16>
    ensures { result ≡ if is_section_of segno lot.now then page_of_lot lot.now else None }
{
    match lot {
        Lot::Linkage { of, page, .. } if *of == segno => Some(*page),
        _ => None,
    }
}

// Frees the page of a linkage section that was taken away, if there was one, and says which.
fn release_page(hier: &mut Hier, page: Option<u16>) -> Option<PageRun>
    requires { IfSome page (IsApart hier.old) }
    ensures run { result ≡ option_map one_page page }
    ensures after { hier.new ≡ with_page_back hier.old page }
{
    let page = page?;
    hier.release_page(page);
    Some(PageRun {
        first: page,
        count: 1,
    })
}

// Takes a known segment's number away from the process in a place.
fn forget(processes: &mut Vec<ProcessState>, i: usize, segno: u16)
    requires within { i < vec_len processes.old }
    requires known { IfSome (slice_get processes.old.items i)
        (λ process. is_branch (lot_of process.known.lots segno) ≡ true) }
    ensures forgotten { (process : ProcessValue) → slice_get processes.old.items i ≡ Some process
        → (known : KnownSegments) × (kst.terminate process.known segno ≡ Some known)
        × (processes.new.items ≡ knowing processes.old.items i process known) }
    ensures count { vec_len processes.new ≡ vec_len processes.old }
{
    processes[i].known.terminate(segno).unwrap();
}
