//! A change of one pair by the calls of the supervisor, a step at a time.

ghost use Rattle.std.specs.Prelude.{◌≡◌, ◌≢◌, ◌<◌, [], ◌∷◌};
ghost use Rattle.mx_core.specs.Put.{put};
ghost use Rattle.mx_desc.specs.Slots.{IsPair};
ghost use Rattle.mx_rule.specs.Shown.{office_of};
ghost use Rattle.mx_sdw.specs.Admissible.{IsAdmissible};
ghost use Rattle.rule_tests.specs.Changing.{HasLeft, HasPair, IsAtRest, IsChanging, IsConnected, IsStruck, IsUnsettled, present};

use mx_core::{Changes, Runs};
use mx_desc::{Naming, Pass, Super};
use mx_rule::Board;
use mx_sdw::Desc;
use std::sync::Wait;

// An entry of process 1 that gives one pair another descriptor.
pub(super) fn append<B: Naming>(
    shared: &Board<u32>,
    chief: &mut Super<u32, B>,
    changes: &Changes,
    none: &Runs,
    process: u8,
    segno: u16,
    desc: &Desc,
)
    requires place { shared.now.table_id ≡ B.table }
    requires layout { shared.now.key.layout ≡ B.layout }
    requires rest { IsAtRest (office_of chief.old) }
    requires pair { HasPair (office_of chief.old) process segno }
    requires room { (office_of chief.old).length < 262143 }
    requires one { changes.now ≡ (record { process = process; segno = segno; desc = desc.now }) ∷ [] }
    requires none { none.now ≡ [] }
    requires admissible { IsAdmissible desc.now }
    requires other { present (office_of chief.old) process segno ≢ desc.now }
    ensures changing { IsChanging (office_of chief.new) process segno }
    ensures present { present (office_of chief.new) ≡ put (present (office_of chief.old)) process
        (put (present (office_of chief.old) process) segno desc.now) }
{
    chief.append(shared, 1, changes, none, &0);
}

pub(super) fn strike<B: Naming>(
    shared: &Board<u32>,
    chief: &mut Super<u32, B>,
    process: u8,
    segno: u16,
)
    requires place { shared.now.table_id ≡ B.table }
    requires layout { shared.now.key.layout ≡ B.layout }
    requires changing { IsChanging (office_of chief.old) process segno }
    ensures struck { IsStruck (office_of chief.new) process segno }
    ensures present { present (office_of chief.new) ≡ present (office_of chief.old) }
{
    chief.strike(shared, process, segno);
}

// The process is told, and found to have left.
pub(super) fn tell<R: Wait, B: Naming>(
    rt: &R,
    shared: &Board<u32>,
    chief: &mut Super<u32, B>,
    process: u8,
    segno: u16,
)
    requires place { shared.now.table_id ≡ B.table }
    requires layout { shared.now.key.layout ≡ B.layout }
    requires struck { IsStruck (office_of chief.old) process segno }
    ensures left { HasLeft (office_of chief.new) process segno }
    ensures present { present (office_of chief.new) ≡ present (office_of chief.old) }
{
    connect(shared, chief, process, segno);
    wait(rt, shared, chief, process, segno);
}

fn connect<B: Naming>(shared: &Board<u32>, chief: &mut Super<u32, B>, process: u8, segno: u16)
    requires place { shared.now.table_id ≡ B.table }
    requires layout { shared.now.key.layout ≡ B.layout }
    requires struck { IsStruck (office_of chief.old) process segno }
    ensures connected { IsConnected (office_of chief.new) process segno }
    ensures present { present (office_of chief.new) ≡ present (office_of chief.old) }
{
    chief.connect(shared, process);
}

fn wait<R: Wait, B: Naming>(
    rt: &R,
    shared: &Board<u32>,
    chief: &mut Super<u32, B>,
    process: u8,
    segno: u16,
)
    requires place { shared.now.table_id ≡ B.table }
    requires layout { shared.now.key.layout ≡ B.layout }
    requires connected { IsConnected (office_of chief.old) process segno }
    ensures left { HasLeft (office_of chief.new) process segno }
    ensures present { present (office_of chief.new) ≡ present (office_of chief.old) }
{
    chief.acknowledge(rt, shared, process);
}

pub(super) fn answer<B: Naming>(
    shared: &Board<u32>,
    chief: &mut Super<u32, B>,
    process: u8,
    segno: u16,
)
    requires place { shared.now.table_id ≡ B.table }
    requires layout { shared.now.key.layout ≡ B.layout }
    requires left { HasLeft (office_of chief.old) process segno }
    ensures unsettled { IsUnsettled (office_of chief.new) process segno }
    ensures present { present (office_of chief.new) ≡ present (office_of chief.old) }
{
    chief.answer(shared);
}

pub(super) fn settle<B: Naming>(
    shared: &Board<u32>,
    chief: &mut Super<u32, B>,
    process: u8,
    segno: u16,
)
    requires place { shared.now.table_id ≡ B.table }
    requires layout { shared.now.key.layout ≡ B.layout }
    requires pair { IsPair B.layout process segno }
    requires unsettled { IsUnsettled (office_of chief.old) process segno }
    ensures rest { IsAtRest (office_of chief.new) }
    ensures present { present (office_of chief.new) ≡ present (office_of chief.old) }
{
    chief.settle(shared, process, segno);
}

// A process is told of what is answered and settled.
pub(super) fn note<B: Naming>(
    shared: &Board<u32>,
    chief: &mut Super<u32, B>,
    pass: &mut Pass<u32, B>,
)
    requires place { shared.now.table_id ≡ B.table }
    requires layout { shared.now.key.layout ≡ B.layout }
    requires rest { IsAtRest (office_of chief.old) }
    ensures rest { IsAtRest (office_of chief.new) }
    ensures present { present (office_of chief.new) ≡ present (office_of chief.old) }
    ensures stage { pass.new.view.stage ≡ pass.old.view.stage }
    ensures memory { pass.new.view.memory ≡ pass.old.view.memory }
    ensures spare { pass.new.spare ≡ pass.old.spare }
{
    let note = chief.split(shared);
    pass.join(shared, note);
}
