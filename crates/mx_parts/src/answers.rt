//! Whether an event answers what a line asks for, and where it leaves the line.

ghost use Rattle.std.specs.Prelude.{◌≡◌, ℕ, true, IfOk};
ghost use Rattle.std.specs.List.{list_all};
ghost use Rattle.mx_core.specs.declared.elements.Event.TheVariants.{Missing, Seen};
ghost use Rattle.mx_line.specs.AtWork.{IsGoodWork};
ghost use Rattle.mx_line.specs.Operands.{IsSayable};
ghost use Rattle.mx_parts.specs.Answers.{IsAnswered, IsBeside};
ghost use Rattle.mx_script.specs.SessionTexts.{fits_line};
ghost use Rattle.mx_sdw.specs.Admissible.{IsAdmissible};
ghost use Rattle.mx_spelling.specs.Spelling.{fits_entry};
ghost use Rattle.mx_transcript.specs.Access.{descriptor_of};
ghost use Rattle.mx_transcript.specs.Legal.{setting_of};
ghost use Rattle.mx_transcript.specs.Settings.{Setting as PlainSetting};
ghost use Rattle.mx_transcript.specs.declared.transcripts.Event2.TheVariants.{Core, Entry as EntryOf};
ghost use Rattle.mx_upcall.specs.Soundness.{IsPackableControl};

use crate::elements::{is_asked_element, is_reference};
use crate::requests::is_asked_call;
use crate::settings::Setting;
use mx_core::Event;
use mx_line::LineAtWork;
use mx_script::Line;
use mx_sdw::Desc;
use mx_transcript::{Element, Event2, entry_at};
use mx_upcall::Control;
use std::alloc::{AllocError, Global};

/// Where an event leaves a line that stands here; none where it does not answer what the line asks for. The only error is
/// want of memory.
pub(crate) fn answered(
    alloc: Global,
    setting: &Setting<'_>,
    line: &Line,
    control: &Control,
    work: LineAtWork,
    event: &Event2,
    desc: &Desc,
) -> Result<Option<LineAtWork>, AllocError>
    requires line { IsSayable line.now }
    requires fits { fits_line line.now ≡ true }
    requires entries { list_all fits_entry setting.now.journal.now ≡ true }
    requires packable { IsPackableControl control.now }
    requires good { IsGoodWork control.now work }
    requires desc { IsBeside (descriptor_of setting.now.session.now setting.now.journal.now setting.now.process) event.now desc.now }
    ensures { IfOk result (IsAnswered (setting_of setting.now.session.now setting.now.journal.now setting.now.process)
        control.now line.now event.now work) }
{
    match event {
        Event2::Core(event) => Ok(referred(setting, line, control, work, event, desc)),
        Event2::Entry(number) => entered(alloc, setting, line, control, work, *number),
    }
}

// What an event of the memory makes of a line.
fn referred(
    _setting: &Setting<'_>,
    line: &Line,
    control: &Control,
    work: LineAtWork,
    event: &Event,
    desc: &Desc,
) -> Option<LineAtWork>
    requires line { IsSayable line.now }
    requires packable { IsPackableControl control.now }
    requires good { IsGoodWork control.now work }
    requires desc { IsBeside (descriptor_of _setting.now.session.now _setting.now.journal.now _setting.now.process) (Core event.now) desc.now }
    ensures { IsAnswered (setting_of _setting.now.session.now _setting.now.journal.now _setting.now.process)
        control.now line.now (Core event.now) work result }
{
    match event {
        Event::Seen(element) => seen(line, control, work, element, desc),
        Event::Missing { .. } => missed(line, control, work),
    }
}

// An element answers where it is the reference, or the write, for which the line asks.
fn seen(
    line: &Line,
    control: &Control,
    work: LineAtWork,
    element: &Element,
    desc: &Desc,
) -> Option<LineAtWork>
    requires line { IsSayable line.now }
    requires packable { IsPackableControl control.now }
    requires good { IsGoodWork control.now work }
    requires desc { IsAdmissible desc.now }
    ensures { (setting : PlainSetting) → setting.descriptor element.now ≡ desc.now
        → IsAnswered setting control.now line.now (Core (Seen element.now)) work result }
{
    if is_asked_element(&work.next(line, control), element, desc) {
        Some(work.seen(line, control, element, desc))
    } else {
        None
    }
}

// A miss answers where the line asks for a reference.
fn missed(line: &Line, control: &Control, work: LineAtWork) -> Option<LineAtWork>
    requires line { IsSayable line.now }
    requires packable { IsPackableControl control.now }
    requires good { IsGoodWork control.now work }
    ensures { (setting : PlainSetting) (segno by : ℕ)
        → IsAnswered setting control.now line.now (Core (Missing segno by)) work result }
{
    if is_reference(&work.next(line, control)) {
        Some(work.missed())
    } else {
        None
    }
}

// The number of an entry answers where the entry is the call for which the line asks, and the process made it.
fn entered(
    alloc: Global,
    setting: &Setting<'_>,
    line: &Line,
    control: &Control,
    work: LineAtWork,
    number: u32,
) -> Result<Option<LineAtWork>, AllocError>
    requires line { IsSayable line.now }
    requires fits { fits_line line.now ≡ true }
    requires entries { list_all fits_entry setting.now.journal.now ≡ true }
    requires packable { IsPackableControl control.now }
    requires good { IsGoodWork control.now work }
    ensures { IfOk result (IsAnswered (setting_of setting.now.session.now setting.now.journal.now setting.now.process)
        control.now line.now (EntryOf number) work) }
{
    let Some(entry) = entry_at(setting.journal, number) else {
        return Ok(None);
    };
    if usize::from(entry.process) != setting.process {
        return Ok(None);
    }
    if is_asked_call(alloc, line, &work.next(line, control), entry)? {
        Ok(Some(work.answered(line, control, &entry.reply)))
    } else {
        Ok(None)
    }
}
