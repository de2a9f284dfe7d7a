//! What a link of a process comes to, before anything changes.

ghost use Rattle.std.specs.Prelude.{◌≡◌, ℕ, Some, None, Err, IfOk, IsOk, IsSome, OnErr};
ghost use Rattle.mx_hier.specs.Rules.{first_of};
ghost use Rattle.mx_state.specs.Connecting.{connect_refusals};
ghost use Rattle.mx_state.specs.Knowing.{free_name, link, link_by, link_to, link_towards};
ghost use Rattle.mx_state.specs.Linking.{found_uid, link_at};
ghost use Rattle.mx_state.specs.NextRun.{IsNext};
ghost use Rattle.mx_state.specs.Plain.{Plain, answer};
ghost use Rattle.mx_state.specs.declared.linking.Link.{Link as LinkValue};
ghost use Rattle.mx_state.specs.declared.states.ProcessState.{ProcessState as ProcessValue};
ghost use Rattle.mx_fresh.specs.Outcomes.{leading_of};

use crate::connecting::{Connection, connect};
use crate::hierarchy::FreshHierarchy;
use crate::known::FreshKnown;
use crate::linking::{Link, found_uid, link_at, link_target};
use crate::processes::FreshProcess;
use mx_hier::Refusal;
use mx_link::{LinkError, Target};
use mx_name::EntryName;
use mx_request::Reply;
use mx_sdw::Ring;
use std::alloc::{AllocError, Global};

/// How the segment to which a link leads becomes known, and the word in it.
#[derive(Drop)]
pub(crate) struct Leading {
    pub(crate) connection: Connection,
    pub(crate) word: u16,
}

/// What the link of a word of a linkage section comes to, or what is replied.
pub(crate) fn resolved(
    alloc: Global,
    hierarchy: &FreshHierarchy,
    process: &FreshProcess,
    ring: Ring,
    segno: u16,
    word: u16,
) -> Result<Result<Leading, Reply>, AllocError>
    ensures answer { IfOk result (λ given. (s : Plain) (p : ℕ)
        → link (record s { hierarchy = hierarchy.now }) p ring process.now segno word
        ≡ leading_of (record s { hierarchy = hierarchy.now }) p process.now given) }
    ensures run { IfOk result (λ given. IfOk given (λ leading.
        IsNext hierarchy.now.pages leading.connection.pages leading.connection.given)) }
    ensures told { OnErr result (IsSome (link_at hierarchy.now process.now.known segno word)) }
{
    match link_at(hierarchy, &process.known, segno, word) {
        Some(link) => resolved_by(alloc, hierarchy, process, ring, &link),
        None => Ok(Err(Reply::Refused(Refusal::NotLinkage))),
    }
}

fn resolved_by(
    alloc: Global,
    hierarchy: &FreshHierarchy,
    process: &FreshProcess,
    ring: Ring,
    link: &Link,
) -> Result<Result<Leading, Reply>, AllocError>
    ensures answer { IfOk result (λ given. (s : Plain) (p : ℕ)
        → link_by (record s { hierarchy = hierarchy.now }) p ring process.now (Some link.now)
        ≡ leading_of (record s { hierarchy = hierarchy.now }) p process.now given) }
    ensures run { IfOk result (λ given. IfOk given (λ leading.
        IsNext hierarchy.now.pages leading.connection.pages leading.connection.given)) }
{
    let to = link_target(alloc, hierarchy, process, ring, link)?;
    resolved_towards(alloc, hierarchy, process, ring, link, to)
}

/// The same where it is known to which target the link leads, or why to none, which is then told whatever memory there is.
fn resolved_towards(
    alloc: Global,
    hierarchy: &FreshHierarchy,
    process: &FreshProcess,
    ring: Ring,
    link: &Link,
    to: Result<Target, LinkError>,
) -> Result<Result<Leading, Reply>, AllocError>
    ensures answer { IfOk result (λ given. (s : Plain) (p : ℕ)
        → link_towards (record s { hierarchy = hierarchy.now }) p ring process.now link.now to
        ≡ leading_of (record s { hierarchy = hierarchy.now }) p process.now given) }
    ensures run { IfOk result (λ given. IfOk given (λ leading.
        IsNext hierarchy.now.pages leading.connection.pages leading.connection.given)) }
    ensures told { OnErr result (IsOk to) }
{
    match to {
        Ok(to) => resolved_to(alloc, hierarchy, process, ring, link, &to),
        Err(error) => Ok(Err(nowhere(error))),
    }
}

/// The reply where a link leads nowhere. Want of memory is no answer of the plain supervisor: nothing is refused by it.
fn nowhere(error: LinkError) -> Reply
    ensures { (s : Plain) (p ring : ℕ) (process : ProcessValue) (link : LinkValue)
        → link_towards s p ring process link (Err error) ≡ answer result s }
{
    match error {
        LinkError::SegmentNotFound => Reply::Refused(Refusal::SegmentNotFound),
        LinkError::NotObject => Reply::Refused(Refusal::NotObject),
        LinkError::NoDefinition => Reply::Refused(Refusal::NoDefinition),
        LinkError::Memory => Reply::Done,
    }
}

fn resolved_to(
    alloc: Global,
    hierarchy: &FreshHierarchy,
    process: &FreshProcess,
    ring: Ring,
    link: &Link,
    to: &Target,
) -> Result<Result<Leading, Reply>, AllocError>
    ensures answer { IfOk result (λ given. (s : Plain) (p : ℕ)
        → link_to (record s { hierarchy = hierarchy.now }) p ring process.now link.now to.now.word
        (found_uid process.now.known to.now.found)
        ≡ leading_of (record s { hierarchy = hierarchy.now }) p process.now given) }
    ensures run { IfOk result (λ given. IfOk given (λ leading.
        IsNext hierarchy.now.pages leading.connection.pages leading.connection.given)) }
    ensures told { OnErr result ((uid : ℕ) → found_uid process.now.known to.now.found ≡ Some uid
        → first_of (connect_refusals hierarchy.now process.now.known uid ring
        (free_name process.now.known ring link.now.segment)) ≡ None) }
{
    let Some(uid) = found_uid(&process.known, &to.found) else {
        return Ok(Err(Reply::Done));
    };
    let name = free_name(&process.known, ring, link.segment);
    match connect(alloc, hierarchy, &process.known, ring, name.as_ref(), uid)? {
        Ok(connection) => Ok(Ok(Leading {
            connection,
            word: to.word,
        })),
        Err(why) => Ok(Err(Reply::Refused(why))),
    }
}

/// The name of a segment that is found, unless the ring has it already.
fn free_name(known: &FreshKnown, ring: Ring, name: EntryName) -> Option<EntryName>
    ensures { result ≡ free_name known.now ring name }
{
    match known.named(ring, &name) {
        Some(_) => None,
        None => Some(name),
    }
}
