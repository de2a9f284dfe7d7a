//! A call that the plain supervisor answers.

ghost use Rattle.std.specs.Prelude.{◌≡◌, All, IfOk, OnErr, length};
ghost use Rattle.mx_request.specs.Versions.{last_number};
ghost use Rattle.mx_state.specs.Changes.{AreChanges, IsBounded};
ghost use Rattle.mx_state.specs.Given.{AreFreed, AreGiven};
ghost use Rattle.mx_state.specs.History.{MayAsk};
ghost use Rattle.mx_state.specs.Plain.{answer};
ghost use Rattle.mx_state.specs.Requests.{plain};
ghost use Rattle.mx_state.specs.Told.{IsLinkedWithin};

use mx_request::SharedRequest;
use mx_sdw::Ring;
use mx_state::{Applied, Changes, Entry, PageRun, State};
use std::alloc::{AllocError, Global};

/// The entry of a request, and what came of it.
#[derive(Drop)]
pub(crate) struct Made {
    pub(crate) entry: Entry,
    /// Exactly the descriptors that it changed.
    pub(crate) changes: Changes,
    /// Exactly the pages that it gave out.
    pub(crate) given: Option<PageRun>,
    /// Exactly the pages that it freed.
    pub(crate) freed: Option<PageRun>,
}

/// The entry of the request that process `p` makes in a ring, as the plain supervisor answers it. Want of memory, the only
/// error, changes nothing.
#[inline(always)]
pub(crate) fn answered(
    alloc: Global,
    state: &mut State,
    p: u8,
    ring: Ring,
    request: &SharedRequest,
) -> Result<Made, AllocError>
    requires { MayAsk state.old p request.now }
    ensures entry { IfOk result (λ came. came.entry ≡ record { process = p; ring = ring; request = request.now; reply = came.entry.reply }) }
    ensures answer { IfOk result (λ came. plain state.old p ring request.now ≡ answer came.entry.reply state.new) }
    ensures linked { IfOk result (λ came. IsLinkedWithin came.entry.reply) }
    ensures changes { IfOk result (λ came. AreChanges state.old state.new came.changes) }
    ensures bounded { IfOk result (λ came. All (IsBounded (last_number state.old.version)) came.changes) }
    ensures given { IfOk result (λ came. AreGiven state.old state.new came.given) }
    ensures freed { IfOk result (λ came. AreFreed state.old state.new came.freed) }
    ensures processes { length state.new.processes ≡ length state.old.processes }
    ensures err { OnErr result (state.new ≡ state.old) }
{
    let shared = request.share()?;
    let applied = state.apply(alloc, p, ring, request.request())?;
    let Applied {
        reply,
        changes,
        given,
        freed,
    } = applied;
    let entry = Entry {
        process: p,
        ring,
        request: shared,
        reply,
    };
    Ok(Made {
        entry,
        changes,
        given,
        freed,
    })
}
