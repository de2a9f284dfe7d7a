//! Pathnames and names: which has no path, which is taken, and how many a directory has.

use super::{Told, add_whole_path, first_path};
use crate::tree::{Led, NoPath, resolved};
use mx_judging::Part::{Decimal, Octal, Text};
use mx_judging::{add_parts, add_printable, ring};
use mx_name::{EntryName, Pathname};
use mx_request::Request;
use std::alloc::{AllocError, Global};

impl<'t> Told<'t> {
    // Why a pathname has no path.
    pub(super) fn add_bad_path(
        &self,
        alloc: Global,
        out: &mut String,
        request: &Request,
    ) -> Result<(), AllocError> {
        let Some(path) = first_path(request) else {
            return Ok(());
        };
        match resolved(alloc, self.caller.base, path)? {
            Err(why) => self.add_no_path(alloc, out, "the path", path, why),
            Ok(_) => match request {
                Request::CreateLink { target, .. } => {
                    match resolved(alloc, self.caller.base, target)? {
                        Err(why) => self.add_no_path(alloc, out, "the target", target, why),
                        Ok(_) => Ok(()),
                    }
                }
                _ => Ok(()),
            },
        }
    }

    fn add_no_path(
        &self,
        alloc: Global,
        out: &mut String,
        which: &'static str,
        path: &Pathname,
        why: NoPath,
    ) -> Result<(), AllocError> {
        out.push_str(which)?;
        out.push_str(match why {
            NoPath::AboveRoot => " leads above the root",
            NoPath::TooLong => " is longer than 168 characters",
        })?;
        if !path.bytes().starts_with(b">") {
            out.push_str(", from ")?;
            add_whole_path(alloc, out, self.caller.base)?;
        }
        out.push_str("\n")
    }

    // What has the name already.
    pub(super) fn add_taken(
        &self,
        alloc: Global,
        out: &mut String,
        request: &Request,
    ) -> Result<(), AllocError> {
        match request {
            Request::Initiate {
                name: Some(name),
                ..
            } => self.add_named(alloc, out, name),
            Request::Rename { path, name } => {
                match self.ledger.tree.led(alloc, self.caller.base, path, false)? {
                    Some(Led::To(at)) => {
                        let dir = self.ledger.tree.holder(at);
                        if self.ledger.tree.entry(dir, name) == Some(at) {
                            Ok(())
                        } else {
                            self.add_standing(alloc, out, dir, name)
                        }
                    }
                    _ => Ok(()),
                }
            }
            _ => match making_place(alloc, self, request)? {
                Some((dir, name)) => self.add_standing(alloc, out, dir, &name),
                None => Ok(()),
            },
        }
    }

    // What stands under a name in a directory.
    fn add_standing(
        &self,
        alloc: Global,
        out: &mut String,
        dir: u32,
        name: &EntryName,
    ) -> Result<(), AllocError> {
        match self.ledger.tree.entry(dir, name) {
            Some(at) => {
                self.add_kind(alloc, out, at)?;
                out.push_str("\n")
            }
            None => Ok(()),
        }
    }

    // Which number has a reference name, and what the number stands for.
    fn add_named(
        &self,
        alloc: Global,
        out: &mut String,
        name: &EntryName,
    ) -> Result<(), AllocError> {
        let ring = self.caller.ring.number();
        let Some(segno) = self.own.named(ring, name) else {
            return Ok(());
        };
        add_printable(out, name.bytes())?;
        add_parts(out, &[Text(" stands for "), Octal(u64::from(segno))])?;
        if let Some(at) = self.own.known(segno) {
            out.push_str(", which is ")?;
            self.add_path(alloc, out, at)?;
        }
        out.push_str("\n")
    }

    // How many entries a directory has.
    pub(super) fn add_entries(
        &self,
        alloc: Global,
        out: &mut String,
        request: &Request,
    ) -> Result<(), AllocError> {
        let dir = match request {
            Request::Delete { .. } => self.changed_entry(alloc, request)?,
            _ => match making_place(alloc, self, request)? {
                Some((dir, _)) => Some(dir),
                None => None,
            },
        };
        let Some(dir) = dir else {
            return Ok(());
        };
        let count = self.ledger.tree.count(dir).min(256) as u32;
        out.push_str("entries of ")?;
        self.add_path(alloc, out, dir)?;
        add_parts(out, &[Text(": "), Decimal(count), Text("\n")])
    }
}

// Where a request makes an entry.
fn making_place(
    alloc: Global,
    told: &Told,
    request: &Request,
) -> Result<Option<(u32, EntryName)>, AllocError> {
    let path = match request {
        Request::CreateDir { path, .. }
        | Request::CreateSeg { path, .. }
        | Request::CreateObject { path, .. }
        | Request::CreateLink { path, .. } => path,
        _ => return Ok(None),
    };
    match told.ledger.tree.place(alloc, told.caller.base, path)? {
        Some((Led::To(dir), name)) => Ok(Some((dir, name))),
        _ => Ok(None),
    }
}
