//! Before a run: the setup is entered, and the shared words are opened.

ghost use Rattle.std.specs.Prelude.{◌≡◌, IfOk};
ghost use Rattle.mx_closing.specs.Preparing.{IsPrepared};

use crate::opening::opening_key;
use mx_core::Changes;
use mx_rule::{Key, SuperSeat, Words, open};
use mx_script::Session;
use mx_state::Entry;
use mx_sup::Supervisor;
use mx_transcript::Transcript;
use std::alloc::{AllocError, Global};

/// What a run of a session begins with.
pub struct Prepared<'a> {
    /// The supervisor, which has entered the setup.
    pub supervisor: Supervisor<'a>,
    /// The initializer's part of the run.
    pub part: Transcript,
    /// The shared words.
    pub words: Words<Entry>,
    /// The supervisor's seat there.
    pub seat: SuperSeat<Entry>,
    /// The descriptors with which the words opened, as changes of a table where all is unknown.
    pub base: Changes,
}

/// Enters the setup of a session, and opens the shared words after it. The only error is want of memory.
pub fn prepare<'a>(alloc: Global, session: &'a Session) -> Result<Prepared<'a>, AllocError>
    ensures { IfOk result (IsPrepared session.now) }
{
    let (supervisor, part) = Supervisor::new(alloc, session)?;
    let key = opening_key(alloc, session, &supervisor)?;
    let (words, seat) = open(alloc, &key)?;
    let Key {
        layout: _,
        start: _,
        base,
    } = key;
    Ok(Prepared {
        supervisor,
        part,
        words,
        seat,
        base,
    })
}
