//! A segment becomes known to a process, or gets a further name: what `initiate` and `link` have in common.

ghost use Rattle.std.specs.Prelude.{◌≡◌, ◌≤◌, true, false, Some, None, IfOk, IfNone, IfSome, OnErr};
ghost use Rattle.std.specs.Option.{option_and_then, option_copied};
ghost use Rattle.mx_hier.specs.Linkage.{links_at, linkage_brackets, linkage_brackets_at, page_given};
ghost use Rattle.mx_hier.specs.Rules.{first_of};
ghost use Rattle.mx_kst.specs.Initiating.{is_full};
ghost use Rattle.mx_kst.specs.Sections.{IsWithinPage};
ghost use Rattle.mx_state.specs.Connecting.{connect_refusals, with_section_page, connect};
ghost use Rattle.mx_state.specs.NextRun.{IsNext, section_run};
ghost use Rattle.mx_state.specs.Sections.{has_links, needs_section, section_by, section_made, with_page_back};
ghost use Rattle.mx_fresh.specs.Connections.{connected_of};
ghost use Rattle.mx_fresh.specs.Runs.{page_freed};

use crate::hierarchy::FreshHierarchy;
use crate::known::{FreshKnown, Section};
use crate::pages::PageList;
use mx_hier::Refusal;
use mx_kst::Known;
use mx_name::EntryName;
use mx_pages::PageRun;
use mx_sdw::{Brackets, Ring};
use std::alloc::{AllocError, Global};

/// How a segment is known, what the process knows then, which pages are free then, and the run that was given out for its
/// linkage section, if it gets one.
#[derive(Drop)]
pub(crate) struct Connection {
    pub(crate) known: Known,
    pub(crate) after: FreshKnown,
    pub(crate) pages: PageList,
    pub(crate) given: Option<PageRun>,
}

impl FreshHierarchy {
    /// How many links the object of a uid has.
    fn links_at(&self, uid: u32) -> u16
        ensures value { result ≡ links_at self.now uid }
        ensures most { result ≤ 64 }
    {
        match self.object_at(uid) {
            Some(object) => object.links().len() as u16,
            None => 0,
        }
    }

    /// The brackets that a linkage section made of it now has: written where it is written, and read where it is read.
    fn linkage_brackets_at(&self, uid: u32) -> Option<Brackets>
        ensures { result ≡ linkage_brackets_at self.now uid }
    {
        let segment = self.segment_at(uid)?;
        linkage_brackets(&segment.brackets)
    }

    /// The page that is given out next.
    fn page_given(&self) -> Option<u16>
        ensures value { result ≡ page_given self.now }
        ensures last { IfSome result (λ page. page ≤ 1023) }
    {
        match self.pages.run_given(1) {
            Some(page) => Some(page as u16),
            None => None,
        }
    }

    /// The pages once the next was given out for a linkage section, if there is one.
    fn pages_with(&self, alloc: Global, section: Option<&Section>) -> Result<PageList, AllocError>
        ensures { IfOk result (λ pages. record self.now { pages = pages }
            ≡ with_section_page self.now (option_copied section.entry)) }
    {
        match section {
            None => self.pages.copy(alloc),
            Some(_) => match self.pages.run_given(1) {
                Some(first) => self.pages.without_run(alloc, first, 1),
                None => self.pages.copy(alloc),
            },
        }
    }

    /// The pages once that of a linkage section was given back, if there is one.
    pub(crate) fn pages_back(
        &self,
        alloc: Global,
        page: Option<u16>,
    ) -> Result<PageList, AllocError>
        ensures { IfOk result (λ pages. record self.now { pages = pages } ≡ with_page_back self.now page) }
    {
        match page {
            None => self.pages.copy(alloc),
            Some(page) => self.pages.with_free(alloc, u32::from(page), 1),
        }
    }

    /// The page of a linkage section, if there is one, as the run that becomes free with it.
    pub(crate) fn page_freed(&self, page: Option<u16>) -> Option<PageRun>
        ensures { result ≡ option_and_then (page_freed self.now.pages) page }
    {
        self.pages.page_freed(page?)
    }

    /// The page that is given out for a linkage section, if there is one, as a run.
    fn section_run(&self, section: Option<&Section>) -> Option<PageRun>
        ensures { result ≡ section_run self.now (option_copied section.entry) }
    {
        section?;
        let first = self.page_given()?;
        Some(PageRun { first, count: 1 })
    }
}

fn linkage_brackets(object: &Brackets) -> Option<Brackets>
    ensures { result ≡ Some (linkage_brackets object.now) }
{
    Brackets::new(object.r1(), object.r2(), object.r2())
}

/// Whether an object with links needs a linkage section, since the process does not know it already.
fn needs_section(hierarchy: &FreshHierarchy, known: &FreshKnown, uid: u32) -> bool
    ensures value { result ≡ needs_section hierarchy.now known.now uid }
    ensures some { result ≡ true → 1 ≤ links_at hierarchy.now uid }
{
    known.number_of(uid).is_none() && hierarchy.links_at(uid) > 0
}

/// The linkage section that is made with a segment, if one is.
fn section_made(hierarchy: &FreshHierarchy, known: &FreshKnown, uid: u32) -> Option<Section>
    ensures value { result ≡ section_made hierarchy.now known.now uid }
    ensures given { IfSome result (λ section. page_given hierarchy.now ≡ Some section.page) }
    ensures within { IfSome result (λ section. IsWithinPage section.page section.words) }
{
    if !needs_section(hierarchy, known, uid) {
        return None;
    }
    section_by(
        hierarchy.links_at(uid),
        hierarchy.linkage_brackets_at(uid),
        hierarchy.page_given(),
    )
}

fn section_by(links: u16, brackets: Option<Brackets>, page: Option<u16>) -> Option<Section>
    ensures value { result ≡ section_by links brackets page }
    ensures page { IfSome result (λ section. page ≡ Some section.page) }
    ensures words { IfSome result (λ section. section.words ≡ links) }
{
    Some(Section {
        page: page?,
        brackets: brackets?,
        words: links,
    })
}

/// Why a segment does not become known: its name is taken; there are no numbers for it; no page is left.
fn connect_refusal(
    hierarchy: &FreshHierarchy,
    known: &FreshKnown,
    uid: u32,
    ring: Ring,
    name: Option<&EntryName>,
) -> Option<Refusal>
    ensures value { result ≡ first_of (connect_refusals hierarchy.now known.now uid ring (option_copied name.entry)) }
    ensures room { IfNone result (is_full known.now uid (has_links hierarchy.now uid) ≡ false) }
{
    if known.is_taken(uid, ring, name) {
        return Some(Refusal::NameDup);
    }
    if known.is_full(uid, hierarchy.links_at(uid) > 0) {
        return Some(Refusal::KstFull);
    }
    if needs_section(hierarchy, known, uid) && hierarchy.page_given().is_none() {
        return Some(Refusal::NoPages);
    }
    None
}

/// How a segment becomes known to a process that knows this, or why not. Nothing changes yet.
#[tactic(auto, using(crate::proofs::RoomLaws::fits))]
pub(crate) fn connect(
    alloc: Global,
    hierarchy: &FreshHierarchy,
    known: &FreshKnown,
    ring: Ring,
    name: Option<&EntryName>,
    uid: u32,
) -> Result<Result<Connection, Refusal>, AllocError>
    ensures answer { IfOk result (λ given. connected_of hierarchy.now given
        ≡ connect hierarchy.now known.now ring (option_copied name.entry) uid) }
    ensures run { IfOk result (λ given. IfOk given (λ connection.
        IsNext hierarchy.now.pages connection.pages connection.given)) }
    ensures told { OnErr result
        (first_of (connect_refusals hierarchy.now known.now uid ring (option_copied name.entry)) ≡ None) }
{
    if let Some(why) = connect_refusal(hierarchy, known, uid, ring, name) {
        return Ok(Err(why));
    }
    let section = section_made(hierarchy, known, uid);
    let given = hierarchy.section_run(section.as_ref());
    let pages = hierarchy.pages_with(alloc, section.as_ref())?;
    let initiated = known.initiated(alloc, uid, ring, name, section.as_ref())?;
    Ok(Ok(Connection {
        known: initiated.known,
        after: initiated.after,
        pages,
        given,
    }))
}
