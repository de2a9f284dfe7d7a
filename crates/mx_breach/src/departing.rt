//! Where a line departs from the line rule.

ghost use Rattle.std.specs.Prelude.{◌≡◌, true};
ghost use Rattle.std.specs.List.{list_all};
ghost use Rattle.mx_access.specs.Answers.{IsAccess};
ghost use Rattle.mx_script.specs.SessionTexts.{fits, rows_of};
ghost use Rattle.mx_spelling.specs.Spelling.{fits_entry};

use crate::probes::row;
use mx_access::Access;
use mx_parts::{Departure, departure_at};
use mx_script::Session;
use mx_state::Journal;
use mx_transcript::Transcripts;
use std::alloc::{AllocError, Global};

/// Where the line at a place of process `p`'s part departs from the line rule, where those before it keep it; none past the last.
/// What is said of it is what the line asks for by the machine that holds printed lines against the rule.
pub(crate) fn departure_of(
    alloc: Global,
    session: &Session,
    journal: &Journal,
    transcripts: &Transcripts,
    access: &Access,
    p: usize,
    place: usize,
) -> Result<Option<Departure>, AllocError>
    requires session { list_all fits (rows_of session.now) ≡ true }
    requires journal { list_all fits_entry journal.now ≡ true }
    requires access { IsAccess session.now journal.now transcripts.now access.now }
{
    match transcripts.items().get(p) {
        None => Ok(None),
        Some(transcript) => departure_at(
            alloc,
            session,
            journal,
            p,
            transcript,
            row(&access.descriptors, p),
            place,
        ),
    }
}
