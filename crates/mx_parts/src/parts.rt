//! The lines of a process's part, judged one after another.

ghost use Rattle.std.specs.Prelude.{◌≡◌, true, IfOk, slice_get};
ghost use Rattle.std.specs.List.{list_all};
ghost use Rattle.std.specs.Option.{option_map};
ghost use Rattle.mx_line.specs.Operands.{IsSayable};
ghost use Rattle.mx_parts.specs.Ends.{IsJudgedStep};
ghost use Rattle.mx_parts.specs.FirstBad.{AreBeside, IsFirstBadLine};
ghost use Rattle.mx_script.specs.SessionTexts.{fits, fits_line, rows_of};
ghost use Rattle.mx_script.specs.Sessions.{is_script_line};
ghost use Rattle.mx_spelling.specs.Spelling.{fits_entry};
ghost use Rattle.mx_transcript.specs.Access.{descriptor_of};
ghost use Rattle.mx_transcript.specs.Legal.{setting_of};
ghost use Rattle.mx_transcript.specs.Openings.{opening_control};
ghost use Rattle.mx_transcript.specs.Scripts.{lines_of, numbered};
ghost use Rattle.mx_transcript.specs.Transcripts.{events_of};
ghost use Rattle.mx_upcall.specs.Soundness.{IsPackableControl};

use crate::lines::{Printed, is_right_line};
use crate::nexts::{is_denied, place_for};
use crate::scripts::{opening_control, setup_lines};
use crate::settings::Setting;
use mx_line::{Process, Progress};
use mx_script::{Line, Script, Session};
use mx_sdw::Desc;
use mx_state::Journal;
use mx_transcript::{Recording, Transcript, first_line, one_outcome_law};
use std::alloc::{AllocError, Global};

/// The place, counted from 0, of the first printed line of process `p` that is not the session's line there, or departs from
/// the line rule; none where all that are printed are right. The session's line there is the next one, or, behind a line that
/// was denied, the last one, with which a part that is cut is over. The lines of process 0 are those of the setup.
/// `descriptors` has one descriptor for each event, and beside an element the one on which that was judged: the process's
/// access at the element's printed point. The session and the journal are such as texts can say. Time linear in the part and
/// in the lines of requests.
///
/// # Errors
///
/// Want of memory.
pub fn first_bad_line(
    alloc: Global,
    session: &Session,
    journal: &Journal,
    p: usize,
    transcript: &Transcript,
    descriptors: &[Desc],
) -> Result<Option<usize>, AllocError>
    requires session { list_all fits (rows_of session.now) ≡ true }
    requires journal { list_all fits_entry journal.now ≡ true }
    requires beside { AreBeside (descriptor_of session.now journal.now p) (events_of transcript.now) descriptors.now }
    ensures { IfOk result (IsFirstBadLine (setting_of session.now journal.now p) (opening_control session.now p)
        (lines_of session.now p) transcript.now) }
{
    let setting = Setting {
        session,
        journal,
        process: p,
    };
    let scripts = session.scripts().items();
    if p == 0 {
        let lines = setup_lines(alloc, session.setup().items())?;
        let first = first_line(session, 0);
        return first_bad(
            alloc,
            &setting,
            first,
            lines.items(),
            transcript,
            descriptors,
        );
    }
    match script_at(scripts, p - 1) {
        Some(script) => {
            let first = first_line(session, p as u8);
            first_bad(
                alloc,
                &setting,
                first,
                script.items(),
                transcript,
                descriptors,
            )
        }
        None => first_bad(alloc, &setting, 0, &[], transcript, descriptors),
    }
}

// The same, where these are the lines of the process, the first of them under this number.
#[tactic(auto, using(crate::proofs::PartLaws::begun))]
fn first_bad(
    alloc: Global,
    setting: &Setting<'_>,
    first: u32,
    script: &[Line],
    transcript: &Transcript,
    descriptors: &[Desc],
) -> Result<Option<usize>, AllocError>
    requires lines { lines_of setting.now.session.now setting.now.process ≡ numbered first script.now }
    requires sayable { list_all (is_script_line setting.now.session.now.version) script.now ≡ true }
    requires fits { list_all fits_line script.now ≡ true }
    requires entries { list_all fits_entry setting.now.journal.now ≡ true }
    requires beside { AreBeside (descriptor_of setting.now.session.now setting.now.journal.now setting.now.process)
        (events_of transcript.now) descriptors.now }
    ensures { IfOk result (IsFirstBadLine (setting_of setting.now.session.now setting.now.journal.now setting.now.process)
        (opening_control setting.now.session.now setting.now.process) (lines_of setting.now.session.now setting.now.process)
        transcript.now) }
{
    one_outcome_law();
    let mut process = Process {
        first,
        control: opening_control(setting.session, setting.process),
        recording: Recording::with_room(alloc, 0)?,
        progress: Progress::Before,
    };
    let mut left = descriptors;
    let mut place = 0;
    let mut ahead = 0;
    let mut denied = false;
    for (number, events, ends) in transcript.steps() {
        let (descriptors, others) = left.split_at(events.len());
        let printed = Printed {
            number,
            events,
            descriptors,
            ends,
        };
        let here = place_for(script, process.first, ahead, denied, number);
        if !is_right_step(alloc, setting, &mut process, script, here, &printed)? {
            return Ok(Some(place));
        }
        left = others;
        place += 1;
        ahead = here + 1;
        denied = is_denied(&ends);
    }
    Ok(None)
}

/// Whether a printed line is the line at this place of a script. The process has its registers and gates after it then.
pub(crate) fn is_right_step(
    alloc: Global,
    setting: &Setting<'_>,
    process: &mut Process,
    script: &[Line],
    place: usize,
    printed: &Printed<'_>,
) -> Result<bool, AllocError>
    requires sayable { list_all (is_script_line setting.now.session.now.version) script.now ≡ true }
    requires fits { list_all fits_line script.now ≡ true }
    requires entries { list_all fits_entry setting.now.journal.now ≡ true }
    requires packable { IsPackableControl process.old.control }
    requires beside { AreBeside (descriptor_of setting.now.session.now setting.now.journal.now setting.now.process)
        printed.now.events.now printed.now.descriptors.now }
    ensures judged { IfOk result (IsJudgedStep (setting_of setting.now.session.now setting.now.journal.now setting.now.process)
        process.old.control process.old.first script.now place (printed.now.number, printed.now.events.now, printed.now.ends)
        process.new.control) }
    ensures first { process.new.first ≡ process.old.first }
{
    let Some(line) = line_at(script, place) else {
        return Ok(false);
    };
    if u64::from(printed.number) != u64::from(process.first) + place as u64 {
        return Ok(false);
    }
    is_right_line(alloc, setting, process, line, printed)
}

/// A line of a script, counted from 0.
pub(crate) fn line_at(script: &[Line], place: usize) -> Option<&Line>
    ensures { option_map (λ line. line.now) result ≡ slice_get script.now place }
{
    script.get(place)
}

/// The script of a process, counted from 0.
pub(crate) fn script_at(scripts: &[Script], place: usize) -> Option<&Script>
    ensures { option_map (λ script. script.now) result ≡ slice_get scripts.now place }
{
    scripts.get(place)
}
