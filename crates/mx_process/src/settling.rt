//! A miss is settled, and its line begins anew.

ghost use Rattle.std.specs.Prelude.{◌≡◌, ◌≤◌, ◌∷◌, [], IsSome, OnErr, OnOk};
ghost use Rattle.mx_core.specs.declared.elements.Event.TheVariants.{Missing};
ghost use Rattle.mx_process.specs.Processes.{IsStill};
ghost use Rattle.mx_process.specs.Settling.{IsSettled, again};
ghost use Rattle.mx_process.specs.Turns.{HasEvent};
ghost use Rattle.mx_transcript.specs.declared.transcripts.Event2.TheVariants.{Core};

use crate::misses::Miss;
use crate::naming::Attending;
use crate::processes::Process;
use mx_audit::Auditor;
use mx_line::{Process as LineState, Progress};
use mx_office::Office;
use mx_transcript::{Event, Event2};
use std::alloc::AllocError;
use std::sync::Wait;

impl<'a, B: Attending, A: Auditor> Process<'a, B, A> {
    /// Settles the miss that is to be settled, in one hold of the lock, for which it waits: the process is told of all
    /// entries, the transcript has the miss, and the line begins anew, with the registers of its start; but
    /// a write that was due is due again. Condition: a miss is to be settled. Want of memory, and the end of the run, change nothing but room.
    pub fn settle<R: Wait>(&mut self, rt: &R, office: &Office<'_, B>) -> Result<(), AllocError>
        requires missing { IsSome self.old.missing }
        ensures settled { OnOk result (IsSettled self.old self.new) }
        ensures err { OnErr result (IsStill self.old self.new) }
    {
        self.reserve()?;
        let Some(miss) = self.missing else {
            unreachable!()
        };
        office.settle_for(rt, &mut self.pass, miss.segno)?;
        begin_anew(&mut self.state, &miss);
        self.missing = None;
        Ok(())
    }
}

// The line has missed this, and begins anew, or a write is due again.
fn begin_anew(state: &mut LineState, miss: &Miss)
    requires { 1 ≤ state.old.recording.spare }
    ensures { HasEvent state.old (Core (Missing miss.now.segno miss.now.by)) (again state.old.progress) state.new }
{
    state.recording.keep(Event2::Core(Event::Missing {
        segno: miss.segno,
        by: miss.by,
    }));
    stand_anew(&mut state.progress);
}

// Where a line stands after a miss.
fn stand_anew(progress: &mut Progress)
    ensures { progress.new ≡ again progress.old }
{
    match progress {
        Progress::Filling(_) => {}
        Progress::Before | Progress::Walking(_) | Progress::AtLink(_) | Progress::Waiting => {
            *progress = Progress::Before;
        }
    }
}
