//! The values of a request: brackets, modes, identifiers, lengths and classes.

use super::{Told, add_classes};
use crate::words::id_text;
use mx_acl::AclKind;
use mx_judging::Part::{Decimal, Octal, Text};
use mx_judging::{add_parts, add_printable};
use mx_name::AclId;
use mx_request::Request;
use mx_sdw::Ring;
use std::alloc::{AllocError, Global};

impl<'t> Told<'t> {
    // Which brackets are not in order, or below the ring.
    pub(super) fn add_brackets(
        &self,
        alloc: Global,
        out: &mut String,
        request: &Request,
    ) -> Result<(), AllocError> {
        let ring = self.caller.ring;
        match request {
            Request::CreateDir { d1, d2, .. } => {
                add_wrong(out, &directory_brackets(*d1, *d2), ring)?;
            }
            Request::CreateSeg { brackets, .. } | Request::CreateObject { brackets, .. } => {
                add_wrong(out, &segment_brackets(brackets), ring)?;
            }
            Request::SetDirBrackets { d1, d2, .. } => {
                if add_wrong(out, &directory_brackets(*d1, *d2), ring)? {
                    return Ok(());
                }
                if let Some(at) = self.changed_entry(alloc, request)? {
                    if let Some(directory) = self.ledger.tree.directory(at) {
                        self.add_old(alloc, out, at, " has D1 = ", directory.d1)?;
                    }
                }
            }
            Request::SetBrackets { brackets, .. } => {
                if add_wrong(out, &segment_brackets(brackets), ring)? {
                    return Ok(());
                }
                if let Some(at) = self.changed_entry(alloc, request)? {
                    if let Some(segment) = self.ledger.tree.segment(at) {
                        self.add_old(alloc, out, at, " has R1 = ", segment.brackets[0])?;
                    }
                }
            }
            _ => {}
        }
        Ok(())
    }

    // The first bracket that an entry has, which is below the ring.
    fn add_old(
        &self,
        alloc: Global,
        out: &mut String,
        at: u32,
        has: &'static str,
        bracket: Ring,
    ) -> Result<(), AllocError> {
        let (old, ring) = (
            Decimal(u32::from(bracket.number())),
            Decimal(u32::from(self.caller.ring.number())),
        );
        self.add_path(alloc, out, at)?;
        add_parts(
            out,
            &[Text(has), old, Text(", below ring "), ring, Text("\n")],
        )
    }

    // What is wrong with modes.
    pub(super) fn add_mode(
        &self,
        alloc: Global,
        out: &mut String,
        request: &Request,
    ) -> Result<(), AllocError> {
        let modes = match request {
            Request::SetAcl { modes, .. } | Request::SetIacl { modes, .. } => *modes,
            _ => return Ok(()),
        };
        add_parts(out, &[Text("modes: "), Text(modes.text()), Text("; ")])?;
        let is_other = match request {
            Request::SetIacl { kind, .. } => {
                let of_directories = *kind == AclKind::Directory;
                out.push_str(if of_directories {
                    "the list is that of new directories"
                } else {
                    "the list is that of new segments"
                })?;
                modes.r() || modes.e() || modes.w() || !of_directories
            }
            _ => match self.changed_entry(alloc, request)? {
                Some(at) => {
                    self.add_kind(alloc, out, at)?;
                    let of_directory = self.ledger.tree.directory(at).is_some();
                    modes.r() || modes.e() || modes.w() || !of_directory
                }
                None => true,
            },
        };
        if !is_other {
            out.push_str(", and m does not stand without s")?;
        }
        out.push_str("\n")
    }

    // Of which list and of which identifier it is.
    pub(super) fn add_listed(
        &self,
        alloc: Global,
        out: &mut String,
        request: &Request,
    ) -> Result<(), AllocError> {
        let Some(id) = listed_id(request) else {
            return Ok(());
        };
        let Some(at) = self.changed_entry(alloc, request)? else {
            return Ok(());
        };
        let id = id_text(alloc, id)?;
        self.add_path(alloc, out, at)?;
        add_parts(out, &[Text(" has no entry "), Text(&id)])?;
        out.push_str(initial_words(request))?;
        out.push_str("\n")
    }

    // Which class does not dominate which.
    pub(super) fn add_class(
        &self,
        alloc: Global,
        out: &mut String,
        request: &Request,
    ) -> Result<(), AllocError> {
        let Request::SetClass { class, .. } = request else {
            return Ok(());
        };
        let Some(at) = self.changed_entry(alloc, request)? else {
            return Ok(());
        };
        let Some(segment) = self.ledger.tree.segment(at) else {
            return Ok(());
        };
        self.add_path(alloc, out, at)?;
        add_classes(out, " has the class ", &segment.class)?;
        add_classes(out, ", which ", class)?;
        out.push_str(" does not dominate\n")
    }
}

// The brackets of a segment, and of a directory, by their names.
fn segment_brackets(brackets: &[Ring; 3]) -> [(&'static str, u8); 3] {
    [
        ("R1", brackets[0].number()),
        ("R2", brackets[1].number()),
        ("R3", brackets[2].number()),
    ]
}

fn directory_brackets(d1: Ring, d2: Ring) -> [(&'static str, u8); 2] {
    [("D1", d1.number()), ("D2", d2.number())]
}

// Adds which of these brackets is below the one before it, or else that the first is below the ring; says whether one is.
fn add_wrong(
    out: &mut String,
    brackets: &[(&'static str, u8)],
    ring: Ring,
) -> Result<bool, AllocError> {
    let mut before: Option<(&'static str, u8)> = None;
    for (name, bracket) in brackets {
        if let Some((other, least)) = before {
            if *bracket < least {
                let (bracket, least) = (Decimal(u32::from(*bracket)), Decimal(u32::from(least)));
                let (is, below) = (Text(" = "), Text(" is below "));
                add_parts(
                    out,
                    &[
                        Text(name),
                        is,
                        bracket,
                        below,
                        Text(other),
                        is,
                        least,
                        Text("\n"),
                    ],
                )?;
                return Ok(true);
            }
        }
        before = Some((*name, *bracket));
    }
    match brackets.first() {
        Some((name, bracket)) if *bracket < ring.number() => {
            let (bracket, ring) = (
                Decimal(u32::from(*bracket)),
                Decimal(u32::from(ring.number())),
            );
            let (is, below) = (Text(" = "), Text(" is below ring "));
            add_parts(out, &[Text(name), is, bracket, below, ring, Text("\n")])?;
            Ok(true)
        }
        _ => Ok(false),
    }
}

// What is wrong with a length.
pub(super) fn add_length(out: &mut String, request: &Request) -> Result<(), AllocError> {
    match request {
        Request::CreateSeg { words, .. } => add_words(out, *words),
        Request::CreateObject { words, map, .. } => {
            let map = map.map();
            if *words == 0 || *words > 1024 {
                return add_words(out, *words);
            }
            if u32::from(map.gate()) > *words {
                let (gates, words) = (Decimal(u32::from(map.gate())), Decimal(*words));
                return add_parts(
                    out,
                    &[Text("gates: "), gates, Text("; words: "), words, Text("\n")],
                );
            }
            for (symbol, word) in map.definitions() {
                if u32::from(*word) >= *words {
                    add_printable(out, symbol.bytes())?;
                    let (at, words) = (Octal(u64::from(*word)), Octal(u64::from(*words)));
                    let (is, of) = (Text(" is at word "), Text(", not below "));
                    return add_parts(out, &[is, at, of, words, Text(" (octal)\n")]);
                }
            }
            Ok(())
        }
        _ => Ok(()),
    }
}

fn add_words(out: &mut String, words: u32) -> Result<(), AllocError> {
    add_parts(out, &[Text("words: "), Decimal(words), Text("\n")])
}

// The identifier that a request sets or removes.
fn listed_id(request: &Request) -> Option<&AclId> {
    match request {
        Request::SetAcl { id, .. }
        | Request::DelAcl { id, .. }
        | Request::SetIacl { id, .. }
        | Request::DelIacl { id, .. } => Some(id),
        _ => None,
    }
}

// Of which initial access list it is.
fn initial_words(request: &Request) -> &'static str {
    match request {
        Request::SetIacl { kind, .. } | Request::DelIacl { kind, .. } => match kind {
            AclKind::Segment => " for new segments",
            AclKind::Directory => " for new directories",
        },
        _ => "",
    }
}
