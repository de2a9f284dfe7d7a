//! The setup: the initializer's requests, and its part of the run.

ghost use Rattle.std.specs.Prelude.{◌≡◌, ◌<◌, ◌+◌, ◌^◌, [], ◌∷◌, ◌++◌, IsTrue, IfOk, OnOk, slice_get, vec_capacity, vec_len};
ghost use Rattle.std.specs.Option.{option_map};
ghost use Rattle.mx_transcript.specs.Legal.{setup_entries};
ghost use Rattle.mx_transcript.specs.Opened.{opening_of};
ghost use Rattle.mx_script.specs.Sessions.{IsSession};
ghost use Rattle.mx_state.specs.History.{MayAsk};
ghost use Rattle.mx_sup.specs.Setups.{HasSetUp, IsEntered, setup_step, setup_part};

use crate::answering::answered;
use mx_request::SharedRequest;
use mx_script::{Line, Script, Session};
use mx_sdw::Ring;
use mx_state::{Entry, State};
use mx_transcript::{Event2, Recording, Result2, Transcript, first_line, setup_entries};
use std::alloc::{AllocError, Global};

/// Enters the setup's requests in order, as far as the limit allows: the journal after them, with room for about as many requests
/// as the processes make, so that it is seldom moved.
pub(crate) fn enter_setup(
    alloc: Global,
    session: &Session,
    state: &mut State,
) -> Result<Vec<Entry>, AllocError>
    requires session { IsSession session.now }
    requires opening { state.old ≡ opening_of session.now }
    ensures { IfOk result (λ journal. HasSetUp session.now (setup_entries session.now) state.new journal.items) }
{
    let requests = session.setup().items();
    let count = setup_entries(session) as usize;
    let room = count.saturating_add(guess_requests(session.scripts().items()));
    let mut journal = Vec::with_capacity(alloc, room)?;
    for i in 0..count {
        enter(alloc, &requests[i], state, &mut journal)?;
    }
    Ok(journal)
}

// How many requests the scripts have, and an eighth more, where all lines are as one in 31 is: no process runs while they are looked at.
// It is room alone: links that are snapped and waits make more entries, and a run that ends early makes fewer.
fn guess_requests(scripts: &[Script]) -> usize {
    let mut found = 0usize;
    for script in scripts {
        let seen = script.items().iter().step_by(31);
        found = found.saturating_add(seen.filter(|line| is_request(line)).count());
    }
    found.saturating_mul(35)
}

fn is_request(line: &Line) -> bool {
    matches!(line, Line::Ask(_))
}

// Enters one request of the initializer, for which there is room.
fn enter(
    alloc: Global,
    request: &SharedRequest,
    state: &mut State,
    journal: &mut Vec<Entry>,
) -> Result<(), AllocError>
    requires ask { MayAsk state.old 0 request.now }
    requires room { vec_len journal.old < vec_capacity journal.old }
    ensures entered { OnOk result (IsEntered request.now state.old journal.old.items state.new journal.new.items) }
    ensures capacity { vec_capacity journal.new ≡ vec_capacity journal.old }
{
    let ring = Ring::new(0).unwrap();
    let came = answered(alloc, state, 0, ring, request)?;
    journal.push_reserved(came.entry);
    Ok(())
}

/// The initializer's part of the run, where these are the setup's entries.
pub(crate) fn setup_part(
    alloc: Global,
    session: &Session,
    journal: &[Entry],
) -> Result<Transcript, AllocError>
    requires { IsSession session.now }
    ensures { IfOk result (λ part. part ≡ setup_part session.now journal.now) }
{
    let lines = session.setup().items().len();
    let first = first_line(session, 0);
    let mut part = Recording::with_room(alloc, lines)?;
    for i in 0..lines {
        part.reserve()?;
        end_line(&mut part, first, i as u32, entry_in(journal, i));
    }
    Ok(part.finish())
}

/// The entry at this place of a journal, counted from 0.
pub(crate) fn entry_in(journal: &[Entry], place: usize) -> Option<&Entry>
    ensures { option_map (λ entry. entry.now) result ≡ slice_get journal.now place }
{
    journal.get(place)
}

// The line at this place, counted from 0, of a setup whose first line has this number, with its entry; without one the
// journal was full.
fn end_line(part: &mut Recording, first: u32, place: u32, entry: Option<&Entry>)
    requires event { IsTrue part.old.event_room }
    requires line { IsTrue part.old.line_room }
    requires small { first + place + 1 < 2 ^ 32 }
    ensures steps { part.new.steps ≡ part.old.steps ++ setup_step first place part.old.events (option_map (λ e. e.now) entry.entry) ∷ [] }
    ensures events { part.new.events ≡ [] }
{
    match entry {
        Some(entry) => {
            part.push(Event2::Entry(place + 1));
            part.end_line(first + place, Result2::of(&entry.reply));
        }
        None => part.end_line(first + place, Result2::HistoryFull),
    }
}
