//! A process judges through its cam on what it remembers while the word is struck, misses once it has left, and is
//! denied once the word settled and the process was told.

ghost use Rattle.std.specs.Prelude.{◌≡◌, ◌≢◌, ◌≤◌, ◌<◌, [], ◌∷◌};
ghost use Rattle.mx_core.specs.declared.words.Stage.TheVariants.{Outside};
ghost use Rattle.mx_desc.specs.Openings.{IsOpening};
ghost use Rattle.mx_desc.specs.Slots.{IsPair};
ghost use Rattle.mx_rule.specs.Openings.{ArePlaced};
ghost use Rattle.mx_rule.specs.Seats.{super_of};
ghost use Rattle.mx_rule.specs.Shown.{office_of};
ghost use Rattle.mx_sdw.specs.Admissible.{IsAdmissible};
ghost use Rattle.rule_tests.specs.Changing.{HasPair, IsAtRest, present};

use super::passing::{came, leave, opened_passes, take_last};
use super::referring::Seen;
use super::supervising::{answer, append, note, settle, strike, tell};
use super::{data, one, opened, ring, word};
use mx_cam::Cam;
use mx_core::{Changes, Outcome, Runs};
use mx_desc::{Naming, Pass, Super, seats};
use mx_rule::{Board, SuperSeat, Words, open};
use mx_sdw::{Denial, Desc, Op, Ring, Word};
use std::alloc::{AllocError, Global};
use std::marker::Brand;
use std::sync::Wait;
use std::sync::ledger::Blank;
use std::test::Fail;

// What came of a write through the cam while the word was struck, of a read after the entry was answered, and of a write
// after the process was told.
fn remembered<R: Wait, B: Naming>(
    rt: &R,
    shared: &Board<u32>,
    chief: &mut Super<u32, B>,
    pass: &mut Pass<u32, B>,
    cam: &mut Cam,
    changes: &Changes,
    none: &Runs,
    desc: &Desc,
    ring: Ring,
    value: Word,
) -> (Seen, Seen, Seen)
    requires place { shared.now.table_id ≡ B.table }
    requires layout { shared.now.key.layout ≡ B.layout }
    requires same { cam.old ≡ pass.old.view.memory }
    requires outside { pass.old.view.stage ≡ Outside }
    requires spare { 4 ≤ pass.old.spare }
    requires known { IsPair B.layout 2 8 }
    requires rest { IsAtRest (office_of chief.old) }
    requires pair { HasPair (office_of chief.old) 2 8 }
    requires room { (office_of chief.old).length < 262143 }
    requires one { changes.now ≡ (record { process = 2; segno = 8; desc = desc.now }) ∷ [] }
    requires none { none.now ≡ [] }
    requires admissible { IsAdmissible desc.now }
    requires other { present (office_of chief.old) 2 8 ≢ desc.now }
{
    cam.enter(pass, shared);
    cam.refer(pass, shared, 8, Op::Read, ring, 0, value);
    append(shared, chief, changes, none, 2, 8, desc);
    strike(shared, chief, 2, 8);
    let recalled = cam.refer(pass, shared, 8, Op::Write, ring, 0, value);
    leave(pass, shared);
    tell(rt, shared, chief, 2, 8);
    answer(shared, chief, 2, 8);
    cam.enter(pass, shared);
    let missed = cam.refer(pass, shared, 8, Op::Read, ring, 0, value);
    leave(pass, shared);
    settle(shared, chief, 2, 8);
    note(shared, chief, pass);
    cam.enter(pass, shared);
    let after = cam.refer(pass, shared, 8, Op::Write, ring, 0, value);
    leave(pass, shared);
    (came(&recalled), came(&missed), came(&after))
}

// In a run that `B` names. `None` where there is no process.
fn run<R: Wait, B: Naming>(
    rt: &R,
    alloc: Global,
    shared: &Board<u32>,
    chief: SuperSeat<u32>,
    base: &Changes,
    blank: Blank,
    changes: &Changes,
    none: &Runs,
    desc: &Desc,
    ring: Ring,
    value: Word,
) -> Result<Option<(Seen, Seen, Seen)>, AllocError>
    requires name { blank.name ≡ B.name }
    requires parts { blank.parts ≡ B.parts }
    requires all { blank.parts ≡ B.layout.processes }
    requires place { shared.now.table_id ≡ B.table }
    requires layout { shared.now.key.layout ≡ B.layout }
    requires here { chief.seat.table_id ≡ B.table }
    requires laid { chief.layout ≡ B.layout }
    requires opening { IsOpening B.start (super_of chief.seat.me.0) }
    requires base { base.now ≡ (super_of chief.seat.me.0).base }
    requires placed { ArePlaced B.layout base.now }
    requires known { IsPair B.layout 2 8 }
    requires rest { IsAtRest (office_of (super_of chief.seat.me.0)) }
    requires pair { HasPair (office_of (super_of chief.seat.me.0)) 2 8 }
    requires room { (super_of chief.seat.me.0).length < 262143 }
    requires one { changes.now ≡ (record { process = 2; segno = 8; desc = desc.now }) ∷ [] }
    requires none { none.now ≡ [] }
    requires admissible { IsAdmissible desc.now }
    requires other { present (office_of (super_of chief.seat.me.0)) 2 8 ≢ desc.now }
{
    let (_book, share) = blank.open::<B>();
    let (mut chief, passes) = seats(alloc, shared, chief, base, share)?;
    let mut passes = opened_passes(passes);
    let Some(mut pass) = take_last(&mut passes) else {
        return Ok(None);
    };
    pass.reserve(4)?;
    let mut cam = Cam::new();
    let told = remembered(
        rt, shared, &mut chief, &mut pass, &mut cam, changes, none, desc, ring, value,
    );
    Ok(Some(told))
}

#[test]
fn a_struck_word_is_recalled_through_a_cam(rt: HostRuntime) -> Result<(), Fail> {
    let (four, value) = (ring()?, word(7)?);
    let (own, taken, common) = (data(true, 20)?, data(false, 20)?, data(true, 21)?);
    let changes = one(rt.alloc(), 2, 8, taken)?;
    let none = Runs::new(rt.alloc());
    let key = opened(rt.alloc(), own, common)?;
    let (words, chief): (Words<u32>, SuperSeat<u32>) = open(rt.alloc(), &key)?;
    let told = run::<HostRuntime, Brand>(
        &rt,
        rt.alloc(),
        &words.shared,
        chief,
        &key.base,
        Blank::new(2),
        &changes,
        &none,
        &taken,
        four,
        value,
    )?;
    let stored = Seen::At(3, Outcome::Written { value });
    let denied = Seen::At(4, Outcome::Denied(Denial::NotWritable));
    assert_eq!(rt; told, Some((stored, Seen::Missed(4), denied)));
    Ok(())
}
