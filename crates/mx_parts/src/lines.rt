//! Whether a printed line is right.

ghost use Rattle.std.specs.Prelude.{◌≡◌, true, IfOk};
ghost use Rattle.std.specs.List.{list_all};
ghost use Rattle.mx_line.specs.Operands.{IsSayable};
ghost use Rattle.mx_parts.specs.Ends.{IsJudgedLine};
ghost use Rattle.mx_parts.specs.FirstBad.{AreBeside};
ghost use Rattle.mx_parts.specs.Rests.{HasCome};
ghost use Rattle.mx_script.specs.SessionTexts.{fits_line};
ghost use Rattle.mx_spelling.specs.Spelling.{fits_entry};
ghost use Rattle.mx_transcript.specs.Access.{descriptor_of};
ghost use Rattle.mx_transcript.specs.Legal.{setting_of};
ghost use Rattle.mx_upcall.specs.Soundness.{IsPackableControl};

use crate::answers::answered;
use crate::ends::is_ended;
use crate::settings::Setting;
use mx_line::{LineAtWork, Process, one_course_law};
use mx_script::Line;
use mx_sdw::Desc;
use mx_transcript::{Event2, Result2};
use mx_upcall::Control;
use std::alloc::{AllocError, Global};

/// A line as it is printed: its number in the session text, its events, each with the descriptor beside it, and its result.
#[derive(Clone, Copy)]
pub(crate) struct Printed<'a> {
    pub number: u32,
    pub events: &'a [Event2],
    pub descriptors: &'a [Desc],
    pub ends: Result2,
}

/// Whether a printed line is this line of the process, by its registers and gates. The process has those after it then. The
/// only error is want of memory.
pub(crate) fn is_right_line(
    alloc: Global,
    setting: &Setting<'_>,
    process: &mut Process,
    line: &Line,
    printed: &Printed<'_>,
) -> Result<bool, AllocError>
    requires line { IsSayable line.now }
    requires fits { fits_line line.now ≡ true }
    requires entries { list_all fits_entry setting.now.journal.now ≡ true }
    requires packable { IsPackableControl process.old.control }
    requires beside { AreBeside (descriptor_of setting.now.session.now setting.now.journal.now setting.now.process)
        printed.now.events.now printed.now.descriptors.now }
    ensures judged { IfOk result (IsJudgedLine (setting_of setting.now.session.now setting.now.journal.now setting.now.process)
        process.old.control line.now printed.now.events.now printed.now.ends process.new.control) }
    ensures first { process.new.first ≡ process.old.first }
{
    match come_by(
        alloc,
        setting,
        line,
        &process.control,
        printed.events,
        printed.descriptors,
    ) {
        Ok(Some(work)) => Ok(is_ended(process, setting.is_full(), line, work, &printed.ends)),
        Ok(None) => Ok(false),
        Err(error) => Err(error),
    }
}

// Where a line stands after these events; none where they are those of no line.
fn come_by(
    alloc: Global,
    setting: &Setting<'_>,
    line: &Line,
    control: &Control,
    events: &[Event2],
    descriptors: &[Desc],
) -> Result<Option<LineAtWork>, AllocError>
    requires line { IsSayable line.now }
    requires fits { fits_line line.now ≡ true }
    requires entries { list_all fits_entry setting.now.journal.now ≡ true }
    requires packable { IsPackableControl control.now }
    requires beside { AreBeside (descriptor_of setting.now.session.now setting.now.journal.now setting.now.process)
        events.now descriptors.now }
    ensures { IfOk result (HasCome (setting_of setting.now.session.now setting.now.journal.now setting.now.process)
        control.now line.now events.now) }
{
    one_course_law();
    let mut work = LineAtWork::begin();
    for place in 0..events.len() {
        match answered(
            alloc,
            setting,
            line,
            control,
            work,
            &events[place],
            &descriptors[place],
        )? {
            Some(after) => work = after,
            None => return Ok(None),
        }
    }
    Ok(Some(work))
}
