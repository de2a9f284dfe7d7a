//! What stops a request by a pathname on its way: the first refusal that is said at a directory.

use crate::ledger::Ledger;
use crate::tree::{Caller, Led};
use mx_hier::Refusal;
use mx_judging::{Letter, lacking};
use mx_name::{EntryName, Pathname};
use mx_request::Request;
use std::alloc::{AllocError, Global};

/// What a refusal is about.
#[derive(Clone, Copy)]
pub(crate) enum About {
    /// This directory has no entry of this name.
    Absent(u32, EntryName),
    /// What this entry is.
    Is(u32),
    /// This is the eleventh link.
    Eleventh(u32),
    /// A letter on this directory.
    Letter(u32, Letter),
    /// Some letter on this directory.
    Any(u32),
    /// Some access to this segment.
    Open(u32),
}

/// A refusal, the number of the directory at which it is said, and what it is about.
#[derive(Clone, Copy)]
pub(crate) struct Stop {
    pub refusal: Refusal,
    pub said: u32,
    pub about: About,
}

/// What stops a request, where its pathname has a path; none where it goes through, as far as it is asked at directories.
pub(crate) fn find_stop(
    alloc: Global,
    ledger: &Ledger,
    caller: &Caller,
    request: &Request,
) -> Result<Option<Stop>, AllocError> {
    match request {
        Request::CreateDir { path, .. }
        | Request::CreateSeg { path, .. }
        | Request::CreateObject { path, .. }
        | Request::CreateLink { path, .. } => stop_making(alloc, ledger, caller, path),
        Request::Rename { path, .. } | Request::Delete { path } => {
            let led = ledger.tree.led(alloc, caller.base, path, false)?;
            Ok(stop_changing(ledger, caller, led))
        }
        Request::SetAcl { path, .. }
        | Request::DelAcl { path, .. }
        | Request::SetBrackets { path, .. }
        | Request::SetDirBrackets { path, .. }
        | Request::SetClass { path, .. } => {
            let led = ledger.tree.led(alloc, caller.base, path, true)?;
            Ok(stop_changing(ledger, caller, led))
        }
        Request::SetIacl { path, .. } | Request::DelIacl { path, .. } => {
            let led = ledger.tree.led(alloc, caller.base, path, true)?;
            Ok(stop_in(ledger, caller, led, Some(Letter::M)))
        }
        Request::List { path } => {
            let led = ledger.tree.led(alloc, caller.base, path, true)?;
            Ok(stop_in(ledger, caller, led, Some(Letter::S)))
        }
        Request::ChangeWdir { path } => {
            let led = ledger.tree.led(alloc, caller.base, path, true)?;
            Ok(stop_in(ledger, caller, led, None))
        }
        Request::Status { path } => {
            let led = ledger.tree.led(alloc, caller.base, path, false)?;
            Ok(stop_asking(ledger, led))
        }
        Request::Initiate { path, .. } => {
            let led = ledger.tree.led(alloc, caller.base, path, true)?;
            Ok(stop_initiating(ledger, caller, led))
        }
        _ => Ok(None),
    }
}

/// Whether a letter on a directory is left to a caller.
pub(crate) fn is_left(ledger: &Ledger, caller: &Caller, dir: u32, letter: Letter) -> bool {
    match ledger.tree.directory(dir) {
        Some(directory) => {
            let modes = directory.acl.modes_of(caller.principal);
            lacking(modes, letter, caller.ring, directory.d1, directory.d2).is_none()
        }
        None => false,
    }
}

// What stops a walk.
fn stop_walking(ledger: &Ledger, led: Led) -> Option<Stop> {
    match led {
        Led::To(_) => None,
        Led::NoEntry(dir, name) => Some(Stop {
            refusal: Refusal::NoEntry,
            said: dir,
            about: About::Absent(dir, name),
        }),
        Led::NotADir(at) => Some(no_directory(ledger, at)),
        Led::LinkLoop(link) => Some(Stop {
            refusal: Refusal::LinkLoop,
            said: ledger.tree.holder(link),
            about: About::Eleventh(link),
        }),
    }
}

fn no_directory(ledger: &Ledger, at: u32) -> Stop {
    Stop {
        refusal: Refusal::NotADir,
        said: ledger.tree.holder(at),
        about: About::Is(at),
    }
}

// What stops the making of an entry.
fn stop_making(
    alloc: Global,
    ledger: &Ledger,
    caller: &Caller,
    path: &Pathname,
) -> Result<Option<Stop>, AllocError> {
    let Some((led, _)) = ledger.tree.place(alloc, caller.base, path)? else {
        return Ok(None);
    };
    let Led::To(dir) = led else {
        return Ok(stop_walking(ledger, led));
    };
    if ledger.tree.directory(dir).is_none() {
        return Ok(Some(no_directory(ledger, dir)));
    }
    if is_left(ledger, caller, dir, Letter::A) {
        return Ok(None);
    }
    Ok(Some(Stop {
        refusal: Refusal::IncorrectAccess,
        said: dir,
        about: About::Letter(dir, Letter::A),
    }))
}

// What stops a change of an entry.
fn stop_changing(ledger: &Ledger, caller: &Caller, led: Option<Led>) -> Option<Stop> {
    let led = led?;
    let Led::To(at) = led else {
        return stop_walking(ledger, led);
    };
    let dir = ledger.tree.holder(at);
    if is_left(ledger, caller, dir, Letter::M) {
        return None;
    }
    Some(Stop {
        refusal: Refusal::IncorrectAccess,
        said: dir,
        about: About::Letter(dir, Letter::M),
    })
}

// What stops a request that wants a letter, or some letter, on the directory itself.
fn stop_in(
    ledger: &Ledger,
    caller: &Caller,
    led: Option<Led>,
    letter: Option<Letter>,
) -> Option<Stop> {
    let led = led?;
    let Led::To(dir) = led else {
        return stop_walking(ledger, led);
    };
    if ledger.tree.directory(dir).is_none() {
        return Some(no_directory(ledger, dir));
    }
    let (is_open, about) = match letter {
        Some(letter) => (
            is_left(ledger, caller, dir, letter),
            About::Letter(dir, letter),
        ),
        None => (is_any_left(ledger, caller, dir), About::Any(dir)),
    };
    if is_open {
        return None;
    }
    Some(Stop {
        refusal: Refusal::IncorrectAccess,
        said: ledger.tree.holder(dir),
        about,
    })
}

fn is_any_left(ledger: &Ledger, caller: &Caller, dir: u32) -> bool {
    is_left(ledger, caller, dir, Letter::S)
        || is_left(ledger, caller, dir, Letter::M)
        || is_left(ledger, caller, dir, Letter::A)
}

// What stops `status`: it is told nothing but that it may not ask.
fn stop_asking(ledger: &Ledger, led: Option<Led>) -> Option<Stop> {
    let led = led?;
    match led {
        Led::To(at) => Some(Stop {
            refusal: Refusal::NoInfo,
            said: ledger.tree.holder(at),
            about: About::Is(at),
        }),
        Led::NoEntry(_, _) | Led::NotADir(_) | Led::LinkLoop(_) => stop_walking(ledger, led),
    }
}

// What stops `initiate`.
fn stop_initiating(ledger: &Ledger, caller: &Caller, led: Option<Led>) -> Option<Stop> {
    let led = led?;
    let Led::To(at) = led else {
        return stop_walking(ledger, led);
    };
    if ledger.tree.segment(at).is_none() {
        return Some(Stop {
            refusal: Refusal::NotASeg,
            said: ledger.tree.holder(at),
            about: About::Is(at),
        });
    }
    if ledger.is_open(caller, at) {
        return None;
    }
    Some(Stop {
        refusal: Refusal::IncorrectAccess,
        said: ledger.tree.holder(at),
        about: About::Open(at),
    })
}
