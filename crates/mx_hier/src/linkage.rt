//! What linkage sections take of the hierarchy: the links and brackets of their objects, and pages, which they give
//! back. Nothing here takes memory.

ghost use Rattle.std.specs.Prelude.{◌≡◌, ◌≤◌, ◌<◌, ℕ, Some, false, IfSome};
ghost use Rattle.mx_pages.specs.Runs.{page_count, is_free};
ghost use Rattle.mx_hier.specs.Branches.{segment_at};
ghost use Rattle.mx_hier.specs.declared.branches.Segment.{Segment as SegmentValue};
ghost use Rattle.mx_hier.specs.Linkage.{links_at, linkage_brackets, linkage_brackets_at, page_given, with_page_given, with_page_freed};
ghost use Rattle.mx_hier.specs.Sound.{HasPage};

use crate::hier::Hier;
use mx_sdw::Brackets;

impl Hier {
    /// How many links the object segment of a uid has, a deleted one too: none where it is no object, and at most 64.
    pub fn links(&self, uid: u32) -> u16
        ensures value { result ≡ links_at self.now uid }
        ensures most { result ≤ 64 }
    {
        match self.object_at(uid) {
            Some(object) => object.links().len() as u16,
            None => 0,
        }
    }

    /// The brackets of a linkage section that is made now of the object segment of a uid: written where the object is
    /// written, and read where it is read. None where there is no segment.
    pub fn linkage_brackets(&self, uid: u32) -> Option<Brackets>
        ensures { result ≡ linkage_brackets_at self.now uid }
    {
        let segment = self.segment_at(uid)?;
        linkage_brackets(&segment.brackets)
    }

    /// The page that `take_page` would give out, which is a page of no segment; none exactly where none is left.
    pub fn free_page(&self) -> Option<u16>
        ensures value { result ≡ page_given self.now }
        ensures last { IfSome result (λ page. page ≤ 1023) }
        ensures apart { IfSome result (λ page. (uid : ℕ) (segment : SegmentValue)
            → segment_at self.now uid ≡ Some segment → HasPage segment page → ⊥) }
    {
        let page = self.pages.next(1)?;
        Some(page as u16)
    }

    /// Gives out the lowest free page, and says which. Where none is free, nothing changes.
    pub fn take_page(&mut self) -> Option<u16>
        ensures page { result ≡ page_given self.old }
        ensures after { self.new ≡ with_page_given self.old }
    {
        match self.pages.allot(1) {
            Ok(page) => Some(page as u16),
            Err(_) => None,
        }
    }

    /// Frees a page that was given out, and is a page of no segment: that of a linkage section that goes.
    pub fn release_page(&mut self, page: u16)
        requires within { page < page_count }
        requires taken { is_free self.old.pages page ≡ false }
        requires apart { (uid : ℕ) (segment : SegmentValue)
            → segment_at self.old uid ≡ Some segment → HasPage segment page → ⊥ }
        ensures { self.new ≡ with_page_freed self.old page }
    {
        self.pages.free(u32::from(page), 1);
    }
}

/// The brackets of a linkage section of an object with these brackets.
fn linkage_brackets(object: &Brackets) -> Option<Brackets>
    ensures { result ≡ Some (linkage_brackets object.now) }
{
    Brackets::new(object.r1(), object.r2(), object.r2())
}
