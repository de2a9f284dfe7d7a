//! What a segment number stands for, and of which numbers an entry changes that.

use crate::ledger::{Ledger, Lot};
use crate::tree::{Led, ROOT};
use mx_judging::Part::{Octal, Text};
use mx_judging::{add_parts, add_printable};
use mx_name::Pathname;
use mx_request::{Reply, Request};
use mx_state::Entry;
use std::alloc::{AllocError, Global};

/// The stacks of a process have the numbers below this one.
const STACKS: u16 = 8;

/// No entry lies deeper below the root.
const DEEPEST: usize = 84;

/// What an entry of the journal changed beside the descriptors of segment numbers: the access list of this entry of the
/// hierarchy, or its name.
#[derive(Clone, Copy)]
pub enum Renewal {
    List(u32),
    Name(u32),
}

impl Ledger {
    /// What an entry changes that is about to be applied.
    pub fn renewal(&self, alloc: Global, entry: &Entry) -> Result<Option<Renewal>, AllocError> {
        if !matches!(entry.reply, Reply::Done) {
            return Ok(None);
        }
        match entry.request() {
            Request::SetAcl { path, .. } | Request::DelAcl { path, .. } => {
                let found = self.found(alloc, entry.process, path, true)?;
                Ok(found.map(Renewal::List))
            }
            Request::Rename { path, .. } => {
                let found = self.found(alloc, entry.process, path, false)?;
                Ok(found.map(Renewal::Name))
            }
            _ => Ok(None),
        }
    }

    // The entry of the hierarchy to which a pathname of a process leads.
    fn found(
        &self,
        alloc: Global,
        process: u8,
        path: &Pathname,
        follow: bool,
    ) -> Result<Option<u32>, AllocError> {
        let Some(own) = self.own(process) else {
            return Ok(None);
        };
        match self.tree.led(alloc, &own.directory, path, follow)? {
            Some(Led::To(at)) => Ok(Some(at)),
            _ => Ok(None),
        }
    }

    /// Whether a number of a process stands for what was changed, or has a pathname that was.
    pub fn is_renewed(&self, process: u8, segno: u16, renewal: Renewal) -> bool {
        let Some(own) = self.own(process) else {
            return false;
        };
        match (own.known(segno), renewal) {
            (Some(known), Renewal::List(at)) => known == at,
            (Some(known), Renewal::Name(at)) => self.lies_below(known, at),
            (None, _) => false,
        }
    }

    // Whether an entry of the hierarchy is this one, or lies below it.
    fn lies_below(&self, entry: u32, top: u32) -> bool {
        let mut at = entry;
        for _ in 0..DEEPEST {
            if at == top {
                return true;
            }
            if at == ROOT {
                return false;
            }
            at = self.tree.holder(at);
        }
        false
    }

    /// Adds what a number of a process stands for: a pathname, or which stack or linkage section it is; nothing where it stands
    /// for nothing.
    pub fn add_standing(
        &self,
        alloc: Global,
        out: &mut String,
        process: u8,
        segno: u16,
    ) -> Result<(), AllocError> {
        if segno < STACKS {
            return add_parts(out, &[Text("the stack of ring "), Octal(u64::from(segno))]);
        }
        let Some(own) = self.own(process) else {
            return Ok(());
        };
        match own.lot(segno) {
            Lot::Segment(at) => self.add_pathname(alloc, out, at),
            Lot::SectionOf(of) => add_parts(
                out,
                &[Text("the linkage section of "), Octal(u64::from(of))],
            ),
            Lot::Nothing | Lot::TakenAway(_) => Ok(()),
        }
    }

    fn add_pathname(&self, alloc: Global, out: &mut String, at: u32) -> Result<(), AllocError> {
        let mut path = Vec::new(alloc);
        self.tree.add_path(alloc, &mut path, at)?;
        add_printable(out, &path)
    }
}
