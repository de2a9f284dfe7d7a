//! The entries of a journal, judged one after another.

ghost use Rattle.std.specs.Prelude.{◌≡◌, ◌↔◌, ◌+◌, ◌<◌, ◌≤◌, true, false, Ok, IfOk, IsTrue, length};
ghost use Rattle.std.specs.List.{list_all};
ghost use Rattle.mx_legal.specs.Entries.{AreGoodTo, AreOfProcesses, AreOfProcessesTo, HasAnswered, HasText, IsFirstBad, IsFirstBadEntry, IsGoodEntry, IsInPlace, state_at};
ghost use Rattle.mx_request.specs.Classes.{class_of};
ghost use Rattle.mx_request.specs.ReplyTexts.{fits_reply};
ghost use Rattle.mx_request.specs.declared.classes.RequestClass.TheVariants.{OfPath};
ghost use Rattle.mx_script.specs.SessionTexts.{fits, rows_of};
ghost use Rattle.mx_spelling.specs.Spelling.{fits_entry};

use crate::sameness::is_same_reply;
use mx_fresh::PlainSupervisor;
use mx_request::RequestClass;
use mx_script::Session;
use mx_spelling::each_reply_is_spellable;
use mx_state::{Entry, Journal};
use std::alloc::{AllocError, Global};

/// The place, counted from 0, of the first bad entry of a journal; none where each is good. An entry is good where it is
/// within the session's limit, is the initializer's among the first, as many as the setup has within the limit, is in
/// ring 0 where it is the initializer's, and where its process may make it and has the plain supervisor's reply. One
/// pass of the supervisor. The session and the journal are such as texts can say.
///
/// # Errors
///
/// Want of memory.
pub fn first_bad_entry<S: PlainSupervisor>(
    alloc: Global,
    session: &Session,
    journal: &Journal,
) -> Result<Option<usize>, AllocError>
    requires session { list_all fits (rows_of session.now) ≡ true }
    requires journal { list_all fits_entry journal.now ≡ true }
    ensures first { IfOk result (IsFirstBadEntry session.now journal.now) }
    ensures makers { IfOk result (AreOfProcesses session.now journal.now) }
{
    let mut supervisor = S::opening(alloc, session.principals().items(), session.version())?;
    let entries = journal.items();
    for place in 0..entries.len() {
        if !is_good_at(alloc, &mut supervisor, session, entries, place)? {
            return Ok(Some(place));
        }
    }
    Ok(None)
}

/// Whether the entry at this place is good, where those before it are and the supervisor has answered them. Then it has
// answered this one too.
pub(crate) fn is_good_at<S: PlainSupervisor>(
    alloc: Global,
    supervisor: &mut S,
    session: &Session,
    entries: &[Entry],
    place: usize,
) -> Result<bool, AllocError>
    requires session { list_all fits (rows_of session.now) ≡ true }
    requires fit { list_all fits_entry entries.now ≡ true }
    requires place { place < length entries.now }
    requires processes { length (S.state supervisor.old).processes ≡ length session.now.principals }
    requires state { S.state supervisor.old ≡ state_at session.now entries.now place }
    requires before { AreGoodTo session.now entries.now place }
    ensures good { result ≡ Ok true → AreGoodTo session.now entries.now (place + 1) }
    ensures bad { result ≡ Ok false → IsFirstBad session.now entries.now place }
    ensures makers { result ≡ Ok true → AreOfProcessesTo session.now entries.now place → AreOfProcessesTo session.now entries.now (place + 1) }
    ensures state { result ≡ Ok true → S.state supervisor.new ≡ state_at session.now entries.now (place + 1) }
    ensures processes { length (S.state supervisor.new).processes ≡ length session.now.principals }
{
    each_reply_is_spellable();
    let _scripts = session.scripts();
    is_good_entry(alloc, supervisor, session, place, &entries[place])
}

// Whether an entry is good, where the supervisor has come to its place. Then it has answered the entry.
fn is_good_entry<S: PlainSupervisor>(
    alloc: Global,
    supervisor: &mut S,
    session: &Session,
    place: usize,
    entry: &Entry,
) -> Result<bool, AllocError>
    requires processes { length (S.state supervisor.old).processes ≡ length session.now.principals }
    requires fits { fits_reply entry.now.reply ≡ true }
    requires answer { HasText (S.state supervisor.old) entry.now }
    ensures good { IfOk result (λ good. IsTrue good ↔ IsGoodEntry session.now (S.state supervisor.old) place entry.now) }
    ensures answered { result ≡ Ok true → HasAnswered (S.state supervisor.old) entry.now (S.state supervisor.new) }
    ensures processes { length (S.state supervisor.new).processes ≡ length session.now.principals }
{
    if !is_in_place(session, place, entry) || !may_ask(session.principals().items().len(), entry) {
        return Ok(false);
    }
    let answered = supervisor.apply(alloc, entry.process, entry.ring, entry.request())?;
    is_same_reply(alloc, &answered.reply, &entry.reply)
}

// Whether an entry may stand at a place.
fn is_in_place(session: &Session, place: usize, entry: &Entry) -> bool
    ensures { IsTrue result ↔ IsInPlace session.now place entry.now }
{
    let is_initializers = entry.process == 0;
    place < session.limit() as usize
        && (is_initializers || session.setup().items().len() <= place)
        && (!is_initializers || entry.ring.number() == 0)
}

// Whether one of so many processes, or the initializer, may make the request of an entry.
fn may_ask(processes: usize, entry: &Entry) -> bool
    ensures { IsTrue result ↔ ((entry.now.process ≤ processes) × (entry.now.process ≡ 0 → class_of entry.now.request ≡ OfPath)) }
{
    let is_of_path = match entry.request().class() {
        RequestClass::OfPath => true,
        RequestClass::OfProcess | RequestClass::OfSupervisor => false,
    };
    usize::from(entry.process) <= processes && (entry.process != 0 || is_of_path)
}
