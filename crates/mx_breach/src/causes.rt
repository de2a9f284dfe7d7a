//! Which rule on the entries of a journal an entry fails.

ghost use Rattle.std.specs.Prelude.{◌≡◌, ◌↔◌, length, IsTrue};
ghost use Rattle.mx_breach.specs.Causes.{Fails};
ghost use Rattle.mx_legal.specs.Entries.{IsGoodEntry};
ghost use Rattle.mx_request.specs.Classes.{class_of};
ghost use Rattle.mx_request.specs.declared.classes.RequestClass.TheVariants.{OfPath};
ghost use Rattle.mx_state.specs.Plain.{Plain};

use mx_request::RequestClass;
use mx_script::Session;
use mx_state::Entry;

/// Which rule on the entries of a journal an entry fails.
#[derive(Clone, Copy, Debug, PartialEq, Eq)]
pub enum EntryCause {
    /// It is past the session's limit.
    PastLimit,
    /// Its process is none of the session's.
    NoProcess,
    /// It stands among the setup's entries, and is not the initializer's.
    InSetup,
    /// It is the initializer's, and was made in another ring than 0.
    OtherRing,
    /// It is the initializer's, and no request on a path.
    NoPath,
    /// It has another reply than the plain supervisor's.
    OtherReply,
}

/// The rule that a bad entry fails at its place, counted from 0: of those that it fails the first.
pub fn entry_cause(session: &Session, place: usize, entry: &Entry) -> EntryCause
    ensures { (state : Plain) → length state.processes ≡ length session.now.principals
        → (IsGoodEntry session.now state place entry.now → ⊥) → Fails session.now state place entry.now result }
{
    let processes = session.principals().items().len();
    let is_initializers = entry.process == 0;
    if place >= session.limit() as usize {
        EntryCause::PastLimit
    } else if usize::from(entry.process) > processes {
        EntryCause::NoProcess
    } else if !is_initializers && place < session.setup().items().len() {
        EntryCause::InSetup
    } else if is_initializers && entry.ring.number() != 0 {
        EntryCause::OtherRing
    } else if is_initializers && !is_of_path(entry) {
        EntryCause::NoPath
    } else {
        EntryCause::OtherReply
    }
}

/// Whether an entry is a request on a path.
pub fn is_of_path(entry: &Entry) -> bool
    ensures { IsTrue result ↔ (class_of entry.now.request ≡ OfPath) }
{
    match entry.request().class() {
        RequestClass::OfPath => true,
        RequestClass::OfProcess | RequestClass::OfSupervisor => false,
    }
}
