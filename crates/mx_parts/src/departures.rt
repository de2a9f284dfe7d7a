//! Where a printed line departs from the line rule, and what it asks for there.

ghost use Rattle.std.specs.Prelude.{◌≡◌, true};
ghost use Rattle.std.specs.List.{list_all};
ghost use Rattle.mx_line.specs.Operands.{IsSayable};
ghost use Rattle.mx_parts.specs.FirstBad.{AreBeside};
ghost use Rattle.mx_script.specs.SessionTexts.{fits, fits_line, rows_of};
ghost use Rattle.mx_script.specs.Sessions.{is_script_line};
ghost use Rattle.mx_spelling.specs.Spelling.{fits_entry};
ghost use Rattle.mx_transcript.specs.Access.{descriptor_of};
ghost use Rattle.mx_transcript.specs.Scripts.{lines_of, numbered};
ghost use Rattle.mx_transcript.specs.Transcripts.{events_of};
ghost use Rattle.mx_upcall.specs.Soundness.{IsPackableControl};

use crate::answers::answered;
use crate::ends::end_at;
use crate::lines::Printed;
use crate::nexts::{is_denied, place_for};
use crate::parts::{is_right_step, line_at, script_at};
use crate::scripts::{opening_control, setup_lines};
use crate::settings::Setting;
use mx_line::{End, LineAtWork, Next, Process, Progress, one_course_law};
use mx_script::{Line, Session};
use mx_sdw::Desc;
use mx_state::Journal;
use mx_transcript::{Recording, Transcript, first_line};
use std::alloc::{AllocError, Global};

/// Where a printed line departs from the line rule.
#[derive(Clone, Copy)]
pub enum Departure {
    /// The session has no further line: each was printed, or the part was cut and its last one was.
    NoLine,
    /// The session's next line has another number; nor is it the last line, behind one that was denied.
    Number { number: u64 },
    /// The event at this place of the line is no answer to what the line asks for there.
    Event { place: usize, asks: Next },
    /// Its events are right. This is the end that it has then, and what it asks for where it has none.
    End { end: Option<End>, asks: Next },
}

/// Where the printed line at a place of process `p`'s part departs from the line rule, where those before it keep it; none
/// past the last. What is said of it is what the line asks for by the machine that holds printed lines against the rule.
/// Conditions as for [`crate::first_bad_line`].
///
/// # Errors
///
/// Want of memory.
pub fn departure_at(
    alloc: Global,
    session: &Session,
    journal: &Journal,
    p: usize,
    transcript: &Transcript,
    descriptors: &[Desc],
    place: usize,
) -> Result<Option<Departure>, AllocError>
    requires session { list_all fits (rows_of session.now) ≡ true }
    requires journal { list_all fits_entry journal.now ≡ true }
    requires beside { AreBeside (descriptor_of session.now journal.now p) (events_of transcript.now) descriptors.now }
{
    let setting = Setting {
        session,
        journal,
        process: p,
    };
    let scripts = session.scripts().items();
    if p == 0 {
        let lines = setup_lines(alloc, session.setup().items())?;
        let first = first_line(session, 0);
        return depart_at(
            alloc,
            &setting,
            first,
            lines.items(),
            transcript,
            descriptors,
            place,
        );
    }
    match script_at(scripts, p - 1) {
        Some(script) => {
            let first = first_line(session, p as u8);
            depart_at(
                alloc,
                &setting,
                first,
                script.items(),
                transcript,
                descriptors,
                place,
            )
        }
        None => depart_at(alloc, &setting, 0, &[], transcript, descriptors, place),
    }
}

// The same, where these are the lines of the process, the first of them under this number.
fn depart_at(
    alloc: Global,
    setting: &Setting<'_>,
    first: u32,
    script: &[Line],
    transcript: &Transcript,
    descriptors: &[Desc],
    at: usize,
) -> Result<Option<Departure>, AllocError>
    requires lines { lines_of setting.now.session.now setting.now.process ≡ numbered first script.now }
    requires sayable { list_all (is_script_line setting.now.session.now.version) script.now ≡ true }
    requires fits { list_all fits_line script.now ≡ true }
    requires entries { list_all fits_entry setting.now.journal.now ≡ true }
    requires beside { AreBeside (descriptor_of setting.now.session.now setting.now.journal.now setting.now.process)
        (events_of transcript.now) descriptors.now }
{
    let mut process = Process {
        first,
        control: opening_control(setting.session, setting.process),
        recording: Recording::with_room(alloc, 0)?,
        progress: Progress::Before,
    };
    let mut left = descriptors;
    let mut place = 0;
    let mut ahead = 0;
    let mut denied = false;
    for (number, events, ends) in transcript.steps() {
        let (descriptors, others) = left.split_at(events.len());
        let printed = Printed {
            number,
            events,
            descriptors,
            ends,
        };
        let here = place_for(script, process.first, ahead, denied, number);
        if place == at {
            return departure_of(alloc, setting, &mut process, script, here, &printed);
        }
        if !is_right_step(alloc, setting, &mut process, script, here, &printed)? {
            return Ok(None);
        }
        left = others;
        place += 1;
        ahead = here + 1;
        denied = is_denied(&ends);
    }
    Ok(None)
}

// Where a printed line departs from the line at this place of a script.
fn departure_of(
    alloc: Global,
    setting: &Setting<'_>,
    process: &mut Process,
    script: &[Line],
    place: usize,
    printed: &Printed<'_>,
) -> Result<Option<Departure>, AllocError>
    requires sayable { list_all (is_script_line setting.now.session.now.version) script.now ≡ true }
    requires fits { list_all fits_line script.now ≡ true }
    requires entries { list_all fits_entry setting.now.journal.now ≡ true }
    requires packable { IsPackableControl process.old.control }
    requires beside { AreBeside (descriptor_of setting.now.session.now setting.now.journal.now setting.now.process)
        printed.now.events.now printed.now.descriptors.now }
{
    let Some(line) = line_at(script, place) else {
        return Ok(Some(Departure::NoLine));
    };
    let number = u64::from(process.first).saturating_add(place as u64);
    if u64::from(printed.number) != number {
        return Ok(Some(Departure::Number { number }));
    }
    Ok(Some(departure_within(alloc, setting, process, line, printed)?))
}

// Where a printed line departs from this one, which has its number.
fn departure_within(
    alloc: Global,
    setting: &Setting<'_>,
    process: &mut Process,
    line: &Line,
    printed: &Printed<'_>,
) -> Result<Departure, AllocError>
    requires line { IsSayable line.now }
    requires fits { fits_line line.now ≡ true }
    requires entries { list_all fits_entry setting.now.journal.now ≡ true }
    requires packable { IsPackableControl process.old.control }
    requires beside { AreBeside (descriptor_of setting.now.session.now setting.now.journal.now setting.now.process)
        printed.now.events.now printed.now.descriptors.now }
{
    one_course_law();
    let (events, descriptors) = (printed.events, printed.descriptors);
    let mut work = LineAtWork::begin();
    for place in 0..events.len() {
        let asks = work.next(line, &process.control);
        match answered(
            alloc,
            setting,
            line,
            &process.control,
            work,
            &events[place],
            &descriptors[place],
        ) {
            Ok(Some(after)) => work = after,
            Ok(None) => return Ok(Departure::Event { place, asks }),
            Err(error) => return Err(error),
        }
    }
    let asks = work.next(line, &process.control);
    let end = end_at(process, setting.is_full(), line, work);
    Ok(Departure::End { end, asks })
}
