//! Linkage sections to be made.
ghost use Rattle.std.specs.Prelude.{◌≡◌};
ghost use Rattle.mx_kst.specs.Sections.{IsWithinPage, section_of};

use crate::lots::Lot;
use mx_sdw::Brackets;
use std::marker::Model;

/// The most words of a linkage section: those of a page (this model's choice).
const MOST_WORDS: u16 = 64;

/// The last page (this model's choice).
const LAST_PAGE: u16 = 1_023;

/// A linkage section to be made: a page, brackets, and how many link words it has. It lies within its page.
#[derive(Clone, Copy, Debug, PartialEq, Eq)]
pub struct Section {
    page: u16,
    brackets: Brackets,
    words: u16,
}

impl Model for Section {
    ghost use Rattle.mx_kst.specs.Sections.{PlainSection, IsWithinPage};

    ghost Value = { PlainSection };

    ghost view = { λ a. record { page = a.page; brackets = a.brackets; words = a.words } };

    ghost inverse = { λ d. record { page = d.page; brackets = d.brackets; words = d.words } };

    ghost invariant = { λ a. IsWithinPage a.page a.words };
}

impl Section {
    /// The section of these parts; none exactly where it has no word or more than 64, or the page is above 1,023.
    pub fn new(page: u16, brackets: Brackets, words: u16) -> Option<Section>
        ensures { result ≡ section_of (record { page = page; brackets = brackets; words = words }) }
    {
        if 1 <= words && words <= MOST_WORDS && page <= LAST_PAGE {
            Some(Section {
                page,
                brackets,
                words,
            })
        } else {
            None
        }
    }

    /// What its number stands for, as the section of an object segment with this number.
    pub(crate) fn lot(&self, of: u16) -> Lot
        ensures lot { result ≡ Lot.Linkage of self.now.page self.now.brackets self.now.words }
        ensures within { IsWithinPage self.now.page self.now.words }
    {
        Lot::Linkage {
            of,
            page: self.page,
            brackets: self.brackets,
            words: self.words,
        }
    }
}
