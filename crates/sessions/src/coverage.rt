//! Which stored run shows each denial and each refusal first.

use crate::outcome::Outcome;
use mx_hier::Refusal;
use mx_sdw::Denial;
use session_files::read;
use std::alloc::{Alloc, AllocError, Global};
use std::io;
use std::rt::Files;

const DENIALS: [Denial; 18] = [
    Denial::UnknownSegment,
    Denial::NoSegment,
    Denial::OutOfBounds,
    Denial::NotReadable,
    Denial::ReadBracket,
    Denial::NotWritable,
    Denial::WriteBracket,
    Denial::NotExecutable,
    Denial::ExecuteBracket,
    Denial::CallBracket,
    Denial::UpwardCall,
    Denial::Gate,
    Denial::RaisedRing,
    Denial::BadReturn,
    Denial::NotPointer,
    Denial::IndirectLimit,
    Denial::AimRead,
    Denial::AimWrite,
];

const REFUSALS: [Refusal; 26] = [
    Refusal::BadPath,
    Refusal::NoEntry,
    Refusal::NoInfo,
    Refusal::NotADir,
    Refusal::LinkLoop,
    Refusal::IncorrectAccess,
    Refusal::NameDup,
    Refusal::NotASeg,
    Refusal::DirNotEmpty,
    Refusal::DirFull,
    Refusal::BadLength,
    Refusal::BadBrackets,
    Refusal::InvalidMode,
    Refusal::AclFull,
    Refusal::NoAclEntry,
    Refusal::NoPages,
    Refusal::KstFull,
    Refusal::UnknownSegno,
    Refusal::NotLinkage,
    Refusal::SegmentNotFound,
    Refusal::NotObject,
    Refusal::NoDefinition,
    Refusal::NoProcess,
    Refusal::MailFull,
    Refusal::Ended,
    Refusal::BadClass,
];

/// A stored run, or what all runs of a session share.
#[derive(Drop)]
struct Stored<'a> {
    name: &'a str,
    text: Vec<u8>,
}

/// Tells for each denial and each refusal which of these items is the first whose stored run has it, and adds as an outcome whether there
/// is one. Archives have no such run.
pub fn tell_coverage<R: Files + Alloc<A = Global>>(
    rt: &R,
    names: &[String],
    outcomes: &mut Vec<Outcome>,
) -> io::Result<String> {
    let runs = stored_runs(rt, names)?;
    Ok(told_of(rt.alloc(), &runs, outcomes)?)
}

// The runs that are stored of these items, in order.
fn stored_runs<'a, R: Files + Alloc<A = Global>>(
    rt: &R,
    names: &'a [String],
) -> io::Result<Vec<Stored<'a>>> {
    let mut runs = Vec::new(rt.alloc());
    for name in names {
        for kind in ["run", "shared"] {
            if let Some(text) = read(rt, name.as_str(), kind)? {
                let name = name.as_str();
                runs.push(Stored { name, text })?;
            }
        }
    }
    Ok(runs)
}

// What is told of all denials and refusals.
fn told_of(
    alloc: Global,
    runs: &[Stored],
    outcomes: &mut Vec<Outcome>,
) -> Result<String, AllocError> {
    let mut told = String::new(alloc);
    for denial in DENIALS {
        let ending = format!(in alloc; " denied {}", denial.text())?;
        tell(alloc, &mut told, runs, &ending, outcomes)?;
    }
    for refusal in REFUSALS {
        let ending = format!(in alloc; " refused {} {}", refusal.number(), refusal.text())?;
        tell(alloc, &mut told, runs, &ending, outcomes)?;
    }
    Ok(told)
}

// Tells which is the first run in which a line ends so.
fn tell(
    alloc: Global,
    told: &mut String,
    runs: &[Stored],
    ending: &str,
    outcomes: &mut Vec<Outcome>,
) -> Result<(), AllocError> {
    let (name, outcome) = match runs.iter().find(|run| has_line(&run.text, ending)) {
        Some(run) => (run.name, Outcome::AsStored),
        None => ("none", Outcome::NotFound),
    };
    outcomes.push(outcome)?;
    let line = format!(in alloc; "first with{ending}: {name}\n")?;
    told.push_str(&line)
}

// Whether a line of this text ends so.
fn has_line(text: &[u8], ending: &str) -> bool {
    text.split(|byte| *byte == b'\n')
        .any(|line| line.ends_with(ending.as_bytes()))
}
