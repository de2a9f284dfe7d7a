//! The opening of a run: what lies behind the lock, and the passes of all processes.

ghost use Rattle.std.specs.Prelude.{◌≡◌, IfOk, length};
ghost use Rattle.mx_closing.specs.Closing.{AreOfAll};
ghost use Rattle.mx_closing.specs.Opening.{layout_of};
ghost use Rattle.mx_closing.specs.Preparing.{IsPrepared};
ghost use Rattle.mx_desc.specs.Openings.{AreFreshPasses};
ghost use Rattle.mx_office.specs.Ends.{HasOpened};
ghost use Rattle.mx_ties.specs.Ran.{IsSetUp};

use crate::locked::Locked;
use crate::naming::Sitting;
use mx_closing::Prepared;
use mx_desc::{Passes, seats};
use mx_rule::Words;
use mx_state::Entry;
use mx_transcript::Transcript;
use std::alloc::{AllocError, Global};
use std::sync::ledger::{Blank, Share};

/// A run that is open.
#[derive(Drop)]
pub struct Opening<'a, B: Sitting> {
    /// What lies behind the lock.
    pub locked: Locked<'a, B>,
    /// The shared words.
    pub words: Words<Entry>,
    /// The passes of all processes, from process 1 on.
    pub passes: Passes<Entry, B>,
    /// The rest of the ledger, which the end asks for: it has no part, and no entry is counted in it.
    pub share: Share<B>,
    /// The initializer's part of the run.
    pub part: Transcript,
}

/// Opens the run of a prepared session. Conditions: `B` names the session, the entries of its setup, and the shared words
/// and a blank ledger with a part for each process. Nothing was entered but the setup, and each pass is of a process that
/// is outside, did nothing yet and was told of the setup alone. The only error is want of memory.
pub fn open<'a, B: Sitting>(
    alloc: Global,
    prepared: Prepared<'a>,
    blank: Blank,
) -> Result<Opening<'a, B>, AllocError>
    requires prepared { IsPrepared B.session prepared }
    requires setup { prepared.supervisor.journal ≡ B.setup }
    requires start { B.start ≡ length B.setup }
    requires fits { prepared.words.shared.table_id ≡ B.table }
    requires layout { B.layout ≡ layout_of B.session }
    requires name { blank.name ≡ B.name }
    requires parts { blank.parts ≡ B.parts }
    requires each { B.parts ≡ B.layout.processes }
    ensures opened { IfOk result (λ made. HasOpened B.session B.setup made.locked) }
    ensures fits { IfOk result (λ made. made.words.shared.table_id ≡ B.table) }
    ensures slots { IfOk result (λ made. made.words.shared.table_id.slots ≡ 0) }
    ensures layout { IfOk result (λ made. made.words.shared.key.layout ≡ B.layout) }
    ensures passes { IfOk result (λ made. AreFreshPasses B.start 1 made.passes) }
    ensures all { IfOk result (λ made. AreOfAll (length B.session.principals) made.passes) }
    ensures parts { IfOk result (λ made. made.share.parts ≡ 0) }
    ensures amount { IfOk result (λ made. made.share.amount ≡ 0) }
    ensures part { IfOk result (λ made. IsSetUp B.session B.setup made.part) }
{
    let Prepared {
        supervisor,
        part,
        words,
        seat,
        base,
    } = prepared;
    // The supervisor is asked for what its type says of its state.
    let _length = supervisor.length();
    supervisor.free_pages_are_bare();
    let (book, mut whole) = blank.open::<B>();
    let share = whole.empty();
    let (chief, passes) = seats(alloc, &words.shared, seat, &base, whole)?;
    Ok(Opening {
        locked: Locked::new(alloc, supervisor, chief, book),
        words,
        passes,
        share,
        part,
    })
}
