//! Places of bad lines, and the numbers of the lines at places.

ghost use Rattle.std.specs.Prelude.{◌≡◌, ◌+◌, ◌<◌, ◌≤◌, ◌^◌, length};
ghost use Rattle.mx_legal.specs.Breach.{number_at, parts_in};
ghost use Rattle.mx_stores.specs.Least.{least};
ghost use Rattle.mx_transcript.specs.Scripts.{lines_of};

use mx_script::Session;
use mx_transcript::{Transcripts, first_line};

/// The earlier of two places, of which either may be none.
pub(crate) fn earlier(one: Option<usize>, other: Option<usize>) -> Option<usize>
    ensures { result ≡ least one other }
{
    match (one, other) {
        (None, other) => other,
        (Some(one), None) => Some(one),
        (Some(one), Some(other)) => Some(one.min(other)),
    }
}

/// How many parts are looked at: those of the initializer and of each process of the session, and those of processes that the
/// session has not.
pub(crate) fn parts_in(session: &Session, transcripts: &Transcripts) -> usize
    ensures { result ≡ parts_in session.now transcripts.now }
{
    let processes = session.principals().items().len();
    let parts = transcripts.items().len();
    parts.max(1 + processes)
}

/// How many lines the session has for process `p`.
pub(crate) fn line_count(session: &Session, p: usize) -> usize
    ensures { result ≡ length (lines_of session.now p) }
{
    if p == 0 {
        return session.setup().items().len();
    }
    match session.scripts().items().get(p - 1) {
        None => 0,
        Some(script) => script.items().len(),
    }
}

/// The number of process `p`'s line at a place in the session text; past its last line that of the last one, and 0 where it has
/// none.
pub(crate) fn number_at(session: &Session, p: usize, place: usize) -> u32
    ensures { result ≡ number_at (lines_of session.now p) place }
{
    let _scripts = session.scripts();
    let lines = line_count(session, p);
    if lines == 0 {
        return 0;
    }
    first_line(session, p as u8) + place.min(lines - 1) as u32
}
