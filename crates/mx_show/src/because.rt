//! What stands behind a refusal: at which directory it was said, who may do what there, and the numbers that were compared.

mod naming;
mod numbers;
mod values;
mod wanted;

use crate::ledger::{Ledger, Own};
use crate::tree::{Caller, Led, Thing};
use mx_aim::Class;
use mx_hier::Refusal;
use mx_judging::Part::{Decimal, Octal, Text};
use mx_judging::{add_parts, add_printable};
use mx_name::{Path, Pathname};
use mx_request::Request;
use mx_state::Entry;
use numbers::{add_ended, add_processes};
use std::alloc::{AllocError, Global};
use values::add_length;

/// Adds sentences, each on a line, that say why an entry was refused; nothing where it is not known.
pub(crate) fn add_because(
    alloc: Global,
    out: &mut String,
    journal: &[Entry],
    ledger: &Ledger,
    entry: &Entry,
    refusal: Refusal,
) -> Result<(), AllocError> {
    let Some(own) = ledger.own(entry.process) else {
        return Ok(());
    };
    let caller = Caller {
        principal: &own.principal,
        authorization: own.authorization,
        ring: entry.ring,
        base: &own.directory,
    };
    let told = Told {
        journal,
        ledger,
        own,
        caller,
    };
    match refusal {
        Refusal::NoEntry
        | Refusal::NoInfo
        | Refusal::NotADir
        | Refusal::LinkLoop
        | Refusal::IncorrectAccess
        | Refusal::NotASeg => told.add_stopped(alloc, out, entry.request(), refusal),
        Refusal::BadPath => told.add_bad_path(alloc, out, entry.request()),
        Refusal::NameDup => told.add_taken(alloc, out, entry.request()),
        Refusal::DirNotEmpty | Refusal::DirFull => told.add_entries(alloc, out, entry.request()),
        Refusal::BadLength => add_length(out, entry.request()),
        Refusal::BadBrackets => told.add_brackets(alloc, out, entry.request()),
        Refusal::InvalidMode => told.add_mode(alloc, out, entry.request()),
        Refusal::AclFull | Refusal::NoAclEntry => told.add_listed(alloc, out, entry.request()),
        Refusal::NoPages => told.add_pages(out, entry.request()),
        Refusal::KstFull => told.add_numbers(alloc, out, entry),
        Refusal::UnknownSegno | Refusal::NotLinkage => told.add_number(alloc, out, entry.request()),
        Refusal::SegmentNotFound | Refusal::NotObject | Refusal::NoDefinition => {
            told.add_link(alloc, out, entry, refusal)
        }
        Refusal::NoProcess => add_processes(out, ledger),
        Refusal::Ended => add_ended(out, ledger, entry.request()),
        Refusal::MailFull => Ok(()),
        Refusal::BadClass => told.add_class(alloc, out, entry.request()),
    }
}

// Who made the entry, and what stood before it.
#[derive(Clone, Copy)]
struct Told<'t> {
    journal: &'t [Entry],
    ledger: &'t Ledger,
    own: &'t Own,
    caller: Caller<'t>,
}

impl<'t> Told<'t> {
    fn add_path(&self, alloc: Global, out: &mut String, at: u32) -> Result<(), AllocError> {
        let mut bytes = Vec::new(alloc);
        self.ledger.tree.add_path(alloc, &mut bytes, at)?;
        add_printable(out, &bytes)
    }

    // What an entry is.
    fn add_kind(&self, alloc: Global, out: &mut String, at: u32) -> Result<(), AllocError> {
        self.add_path(alloc, out, at)?;
        let Some(branch) = self.ledger.tree.branch(at) else {
            return Ok(());
        };
        match &branch.thing {
            Thing::Directory(_) => out.push_str(" is a directory"),
            Thing::Segment(segment) => {
                let is_object = segment.is_object;
                out.push_str(if is_object {
                    " is an object segment"
                } else {
                    " is a segment"
                })
            }
            Thing::Link(target) => {
                out.push_str(" is a link to ")?;
                add_whole_path(alloc, out, target)
            }
        }
    }

    // What the entry is that a request of another kind of entry leads to.
    fn add_what_it_is(
        &self,
        alloc: Global,
        out: &mut String,
        request: &Request,
    ) -> Result<(), AllocError> {
        if let Some(at) = self.changed_entry(alloc, request)? {
            self.add_kind(alloc, out, at)?;
            out.push_str("\n")?;
        }
        Ok(())
    }

    // The entry that a request changes.
    fn changed_entry(&self, alloc: Global, request: &Request) -> Result<Option<u32>, AllocError> {
        let (path, follow) = match request {
            Request::Rename { path, .. } | Request::Delete { path } => (path, false),
            Request::SetAcl { path, .. }
            | Request::DelAcl { path, .. }
            | Request::SetIacl { path, .. }
            | Request::DelIacl { path, .. }
            | Request::SetBrackets { path, .. }
            | Request::SetDirBrackets { path, .. }
            | Request::SetClass { path, .. } => (path, true),
            _ => return Ok(None),
        };
        match self.ledger.tree.led(alloc, self.caller.base, path, follow)? {
            Some(Led::To(at)) => Ok(Some(at)),
            _ => Ok(None),
        }
    }
}

// The pathname of a request, the first of two.
fn first_path(request: &Request) -> Option<&Pathname> {
    match request {
        Request::CreateDir { path, .. }
        | Request::CreateSeg { path, .. }
        | Request::CreateObject { path, .. }
        | Request::CreateLink { path, .. }
        | Request::Rename { path, .. }
        | Request::Delete { path }
        | Request::SetAcl { path, .. }
        | Request::DelAcl { path, .. }
        | Request::SetIacl { path, .. }
        | Request::DelIacl { path, .. }
        | Request::SetBrackets { path, .. }
        | Request::SetDirBrackets { path, .. }
        | Request::SetClass { path, .. }
        | Request::Status { path }
        | Request::List { path }
        | Request::ChangeWdir { path }
        | Request::Initiate { path, .. } => Some(path),
        _ => None,
    }
}

fn add_classes(out: &mut String, before: &'static str, class: &Class) -> Result<(), AllocError> {
    add_parts(
        out,
        &[
            Text(before),
            Decimal(u32::from(class.level())),
            Text(":"),
            Octal(u64::from(class.categories())),
        ],
    )
}

fn add_whole_path(alloc: Global, out: &mut String, path: &Path) -> Result<(), AllocError> {
    let mut bytes = Vec::new(alloc);
    path.append_to(&mut bytes)?;
    add_printable(out, &bytes)
}
