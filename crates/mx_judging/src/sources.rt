//! Whose store a read word is.

ghost use Rattle.std.specs.Prelude.{◌≡◌};
ghost use Rattle.mx_judging.specs.Sources.{source};

use mx_transcript::Outcome;

/// A store: whose it is, and the point at which it was made.
#[derive(Clone, Copy)]
pub struct StoredBy {
    pub process: u8,
    pub point: u32,
}

/// The store that a reference has read, as the transcript names it; none where nobody had stored, and where nothing was read.
pub fn source_of(outcome: Outcome) -> Option<StoredBy>
    ensures { result ≡ source outcome }
{
    match outcome {
        Outcome::Read { writer: 0, .. } => None,
        Outcome::Read { writer, stamp, .. } => Some(StoredBy {
            process: writer,
            point: stamp,
        }),
        Outcome::Written { .. } | Outcome::Entered { .. } | Outcome::Denied(_) => None,
    }
}
