//! The plain supervisor at a place of a journal.

ghost use Rattle.std.specs.Prelude.{◌≡◌, ◌≤◌, true, IfOk, length};
ghost use Rattle.std.specs.List.{list_all};
ghost use Rattle.mx_legal.specs.Entries.{AreGoodTo, state_at};
ghost use Rattle.mx_script.specs.SessionTexts.{fits, rows_of};
ghost use Rattle.mx_spelling.specs.Spelling.{fits_entry};

use crate::entries::is_good_at;
use mx_fresh::PlainSupervisor;
use mx_script::Session;
use mx_state::Journal;
use std::alloc::{AllocError, Global};

/// The plain supervisor after so many entries of a journal, which are good. The session and the journal are such as texts
/// can say.
///
/// # Errors
///
/// Want of memory.
pub fn supervisor_at<S: PlainSupervisor>(
    alloc: Global,
    session: &Session,
    journal: &Journal,
    count: usize,
) -> Result<S, AllocError>
    requires session { list_all fits (rows_of session.now) ≡ true }
    requires journal { list_all fits_entry journal.now ≡ true }
    requires within { count ≤ length journal.now }
    requires good { AreGoodTo session.now journal.now count }
    ensures state { IfOk result (λ supervisor. S.state supervisor ≡ state_at session.now journal.now count) }
    ensures processes { IfOk result (λ supervisor. length (S.state supervisor).processes ≡ length session.now.principals) }
{
    let mut supervisor = S::opening(alloc, session.principals().items(), session.version())?;
    let entries = journal.items();
    for place in 0..count {
        if !is_good_at(alloc, &mut supervisor, session, entries, place)? {
            unreachable!()
        }
    }
    Ok(supervisor)
}
