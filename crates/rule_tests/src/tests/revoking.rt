//! The same revocation by the calls of passes and of the supervisor: what each process keeps of what it did, and of how
//! many entries it was told.

ghost use Rattle.std.specs.Prelude.{◌≡◌, ◌≢◌, ◌≤◌, ◌<◌, true, [], ◌∷◌};
ghost use Rattle.mx_core.specs.declared.words.Stage.TheVariants.{Outside};
ghost use Rattle.mx_desc.specs.Openings.{IsOpening};
ghost use Rattle.mx_desc.specs.Slots.{IsPair};
ghost use Rattle.mx_rule.specs.Openings.{ArePlaced};
ghost use Rattle.mx_rule.specs.Seats.{super_of};
ghost use Rattle.mx_rule.specs.Shown.{office_of};
ghost use Rattle.mx_sdw.specs.Admissible.{IsAdmissible};
ghost use Rattle.rule_tests.specs.Changing.{HasPair, IsAtRest, IsUnsettled, present};

use super::passing::{opened_passes, take_last, visit};
use super::supervising::{answer, append, settle, strike, tell};
use super::{data, one, opened, reference, ring, word};
use mx_core::{Changes, Element, Kept, Kind, Outcome, Runs};
use mx_desc::{Naming, Pass, Super, seats};
use mx_rule::{Board, SuperSeat, Words, open};
use mx_sdw::{Denial, Desc, Op, Ring, Word};
use std::alloc::{AllocError, Global};
use std::marker::Brand;
use std::sync::Wait;
use std::sync::ledger::Blank;
use std::test::Fail;

// What one process did, and of how many entries it was told.
#[derive(Debug, PartialEq, Drop)]
struct Did {
    trace: Vec<Kept>,
    floor: u32,
}

fn kept_by<B: Naming>(alloc: Global, pass: &Pass<u32, B>) -> Result<Did, AllocError>
    requires { pass.now.keeps ≡ true }
{
    Ok(Did {
        trace: pass.trace().to_vec(alloc)?,
        floor: pass.floor(),
    })
}

// A process is told of what is answered while the word is still a fault.
fn note<B: Naming>(shared: &Board<u32>, chief: &mut Super<u32, B>, pass: &mut Pass<u32, B>)
    requires place { shared.now.table_id ≡ B.table }
    requires layout { shared.now.key.layout ≡ B.layout }
    requires unsettled { IsUnsettled (office_of chief.old) 2 8 }
    ensures unsettled { IsUnsettled (office_of chief.new) 2 8 }
    ensures stage { pass.new.view.stage ≡ pass.old.view.stage }
    ensures spare { pass.new.spare ≡ pass.old.spare }
    ensures keeps { pass.new.keeps ≡ pass.old.keeps }
{
    let note = chief.split(shared);
    pass.join(shared, note);
}

// Process 1 is told of the entry and stores a value, by which process 2 is told when it reads it.
fn revoke<R: Wait, B: Naming>(
    rt: &R,
    shared: &Board<u32>,
    chief: &mut Super<u32, B>,
    first: &mut Pass<u32, B>,
    second: &mut Pass<u32, B>,
    changes: &Changes,
    none: &Runs,
    desc: &Desc,
    ring: Ring,
    value: Word,
)
    requires place { shared.now.table_id ≡ B.table }
    requires layout { shared.now.key.layout ≡ B.layout }
    requires first { first.old.view.stage ≡ Outside }
    requires first_spare { 1 ≤ first.old.spare }
    requires second { second.old.view.stage ≡ Outside }
    requires second_spare { 3 ≤ second.old.spare }
    requires known { IsPair B.layout 2 8 }
    requires rest { IsAtRest (office_of chief.old) }
    requires pair { HasPair (office_of chief.old) 2 8 }
    requires room { (office_of chief.old).length < 262143 }
    requires one { changes.now ≡ (record { process = 2; segno = 8; desc = desc.now }) ∷ [] }
    requires none { none.now ≡ [] }
    requires admissible { IsAdmissible desc.now }
    requires other { present (office_of chief.old) 2 8 ≢ desc.now }
    ensures first { first.new.keeps ≡ first.old.keeps }
    ensures second { second.new.keeps ≡ second.old.keeps }
{
    append(shared, chief, changes, none, 2, 8, desc);
    strike(shared, chief, 2, 8);
    tell(rt, shared, chief, 2, 8);
    answer(shared, chief, 2, 8);
    note(shared, chief, first);
    visit(first, shared, reference(9, Op::Write, ring, value));
    visit(second, shared, reference(9, Op::Read, ring, value));
    visit(second, shared, reference(8, Op::Write, ring, value));
    settle(shared, chief, 2, 8);
    visit(second, shared, reference(8, Op::Write, ring, value));
}

// In a run that `B` names. `None` where there are no two processes.
fn run<R: Wait, B: Naming>(
    rt: &R,
    alloc: Global,
    shared: &Board<u32>,
    chief: SuperSeat<u32>,
    base: &Changes,
    blank: Blank,
    changes: &Changes,
    none: &Runs,
    desc: &Desc,
    ring: Ring,
    value: Word,
) -> Result<Option<(Did, Did)>, AllocError>
    requires name { blank.name ≡ B.name }
    requires parts { blank.parts ≡ B.parts }
    requires all { blank.parts ≡ B.layout.processes }
    requires place { shared.now.table_id ≡ B.table }
    requires layout { shared.now.key.layout ≡ B.layout }
    requires here { chief.seat.table_id ≡ B.table }
    requires laid { chief.layout ≡ B.layout }
    requires opening { IsOpening B.start (super_of chief.seat.me.0) }
    requires base { base.now ≡ (super_of chief.seat.me.0).base }
    requires placed { ArePlaced B.layout base.now }
    requires known { IsPair B.layout 2 8 }
    requires rest { IsAtRest (office_of (super_of chief.seat.me.0)) }
    requires pair { HasPair (office_of (super_of chief.seat.me.0)) 2 8 }
    requires room { (super_of chief.seat.me.0).length < 262143 }
    requires one { changes.now ≡ (record { process = 2; segno = 8; desc = desc.now }) ∷ [] }
    requires none { none.now ≡ [] }
    requires admissible { IsAdmissible desc.now }
    requires other { present (office_of (super_of chief.seat.me.0)) 2 8 ≢ desc.now }
{
    let (_book, share) = blank.open::<B>();
    let (mut chief, passes) = seats(alloc, shared, chief, base, share)?;
    let mut passes = opened_passes(passes);
    let Some(mut second) = take_last(&mut passes) else {
        return Ok(None);
    };
    let Some(mut first) = take_last(&mut passes) else {
        return Ok(None);
    };
    first.reserve(1)?;
    second.reserve(3)?;
    revoke(
        rt,
        shared,
        &mut chief,
        &mut first,
        &mut second,
        changes,
        none,
        desc,
        ring,
        value,
    );
    Ok(Some((kept_by(alloc, &first)?, kept_by(alloc, &second)?)))
}

// An element that was judged on a descriptor.
fn judged(
    op: Op,
    kind: Kind,
    segno: u16,
    ring: Ring,
    point: u32,
    outcome: Outcome,
    desc: Desc,
) -> Kept {
    Kept::Judged {
        element: Element {
            kind,
            segno,
            word: 0,
            ring,
            point,
            outcome,
        },
        op,
        desc,
    }
}

#[test]
fn a_revocation_is_kept_in_both_traces(rt: HostRuntime) -> Result<(), Fail> {
    let (four, value) = (ring()?, word(1)?);
    let (own, taken, common) = (data(true, 20)?, data(false, 20)?, data(true, 21)?);
    let changes = one(rt.alloc(), 2, 8, taken)?;
    let none = Runs::new(rt.alloc());
    let key = opened(rt.alloc(), own, common)?;
    let (words, chief): (Words<u32>, SuperSeat<u32>) = open(rt.alloc(), &key)?;
    let told = run::<HostRuntime, Brand>(
        &rt,
        rt.alloc(),
        &words.shared,
        chief,
        &key.base,
        Blank::new(2),
        &changes,
        &none,
        &taken,
        four,
        value,
    )?;
    let stored = judged(
        Op::Write,
        Kind::Write,
        9,
        four,
        4,
        Outcome::Written { value },
        common,
    );
    let held = Outcome::Read {
        value,
        writer: 1,
        stamp: 4,
    };
    let read = judged(Op::Read, Kind::Read, 9, four, 3, held, common);
    let missed = Kept::Missed { segno: 8, by: 4 };
    let refused = Outcome::Denied(Denial::NotWritable);
    let denied = judged(Op::Write, Kind::Write, 8, four, 4, refused, taken);
    let first = Did {
        trace: vec![in rt.alloc(); stored]?,
        floor: 4,
    };
    let second = Did {
        trace: vec![in rt.alloc(); read, missed, denied]?,
        floor: 4,
    };
    assert_eq!(rt; told, Some((first, second)));
    Ok(())
}
