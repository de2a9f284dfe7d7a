//! The indirect words of a walk, which a process reads one after another.

ghost use Rattle.std.specs.Prelude.{◌≡◌, ◌≤◌, IsTrue};
ghost use Rattle.mx_core.specs.declared.words.Stage.TheVariants.{Ready};
ghost use Rattle.mx_line.specs.Looking.{IsLooking};
ghost use Rattle.mx_line.specs.Operands.{steps_in};
ghost use Rattle.mx_line.specs.declared.operands.Progress.TheVariants.{Walking};
ghost use Rattle.mx_line.specs.declared.processes.Process.{Process as LineValue};
ghost use Rattle.mx_process.specs.Processes.{known_of};
ghost use Rattle.mx_process.specs.Turns.{GoesOn, HasTurned, IsAttempting, IsUntold, inside, walking};
ghost use Rattle.mx_process.specs.declared.turns.Turn.TheVariants.{More};

use crate::misses::Miss;
use crate::turns::{Turn, take_by, words_are_short};
use mx_cam::Cam;
use mx_desc::{Pass, Referred};
use mx_effring::Walk;
use mx_line::{Place, Process as LineState, Progress, look_at, read_on};
use mx_office::Sitting;
use mx_rule::Board;
use mx_script::Line;
use mx_sdw::{Op, Word};
use mx_state::Entry;
use mx_transcript::{Event, Event2};

/// The indirect word at this place is read, for which the line asks, and then those to which it leads, one after another, until
/// one leads to the target, or none leads on.
pub(crate) fn look<B: Sitting>(
    state: &mut LineState,
    pass: &mut Pass<Entry, B>,
    cam: &mut Cam,
    shared: &Board<Entry>,
    line: &Line,
    walk: Walk,
    place: Place,
) -> Turn
    requires fits { shared.now.table_id ≡ B.table }
    requires layout { shared.now.key.layout ≡ B.layout }
    requires same { cam.old ≡ pass.old.view.memory }
    requires ready { pass.old.view.stage ≡ Ready }
    requires spare { steps_in state.old.progress ≤ pass.old.spare }
    requires room { steps_in state.old.progress ≤ state.old.recording.spare }
    requires end { IsTrue state.old.recording.line_room }
    requires attempting { IsAttempting B.session B.setup state.old line.now (known_of pass.old) }
    requires looking { IsLooking state.old.control line.now state.old.progress walk place }
    ensures turned { HasTurned B.session B.setup line.now state.old result (inside state.new pass.new) }
    ensures same { cam.new ≡ pass.new.view.memory }
    ensures ready { pass.new.view.stage ≡ Ready }
    ensures spare { result ≡ More → steps_in state.new.progress ≤ pass.new.spare }
    ensures room { result ≡ More → steps_in state.new.progress ≤ state.new.recording.spare }
    ensures untold { IsUntold pass.old pass.new }
{
    let mut at = walk;
    match cam.refer(
        pass,
        shared,
        place.segno,
        Op::Indirect,
        place.ring,
        place.word,
        Word::zero(),
    ) {
        Referred::Seen(element) => {
            let desc = pass.desc();
            words_are_short(&element);
            if read_on(line, &state.control, &mut at, &element, &desc) {
                state.recording.keep(Event2::Core(Event::Seen(element)));
                look_on(state, pass, cam, shared, line, at)
            } else {
                let copy = element;
                let on = pass.desc();
                take_by(state, line, &copy, &on)
            }
        }
        Referred::Missing { by } => Turn::Missing(Miss {
            segno: place.segno,
            by,
        }),
    }
}

// The same of a walk that has come so far: where it stands is kept once it does not go on here.
fn look_on<B: Sitting>(
    state: &mut LineState,
    pass: &mut Pass<Entry, B>,
    cam: &mut Cam,
    shared: &Board<Entry>,
    line: &Line,
    walk: Walk,
) -> Turn
    requires fits { shared.now.table_id ≡ B.table }
    requires layout { shared.now.key.layout ≡ B.layout }
    requires same { cam.old ≡ pass.old.view.memory }
    requires ready { pass.old.view.stage ≡ Ready }
    requires spare { steps_in (Walking walk) ≤ pass.old.spare }
    requires room { steps_in (Walking walk) ≤ state.old.recording.spare }
    requires end { IsTrue state.old.recording.line_room }
    requires attempting { IsAttempting B.session B.setup (walking state.old walk) line.now (known_of pass.old) }
    ensures turned { (old : LineValue) → GoesOn B.session B.setup line.now old (inside (walking state.old walk) pass.old)
        → HasTurned B.session B.setup line.now old result (inside state.new pass.new) }
    ensures same { cam.new ≡ pass.new.view.memory }
    ensures ready { pass.new.view.stage ≡ Ready }
    ensures spare { result ≡ More → steps_in state.new.progress ≤ pass.new.spare }
    ensures room { result ≡ More → steps_in state.new.progress ≤ state.new.recording.spare }
    ensures untold { IsUntold pass.old pass.new }
{
    let mut at = walk;
    loop {
        match look_at(line, &state.control, &at) {
            Some(place) => match cam.refer(
                pass,
                shared,
                place.segno,
                Op::Indirect,
                place.ring,
                place.word,
                Word::zero(),
            ) {
                Referred::Seen(element) => {
                    let desc = pass.desc();
                    words_are_short(&element);
                    if read_on(line, &state.control, &mut at, &element, &desc) {
                        state.recording.keep(Event2::Core(Event::Seen(element)));
                    } else {
                        state.progress = Progress::Walking(at);
                        let copy = element;
                        let on = pass.desc();
                        return take_by(state, line, &copy, &on);
                    }
                }
                Referred::Missing { by } => {
                    state.progress = Progress::Walking(at);
                    return Turn::Missing(Miss {
                        segno: place.segno,
                        by,
                    });
                }
            },
            None => {
                state.progress = Progress::Walking(at);
                return Turn::More;
            }
        }
    }
}
