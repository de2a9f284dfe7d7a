//! The references of one process, and how many of them are granted.

ghost use Rattle.std.specs.Prelude.{◌≡◌, ◌≤◌, IfOk, MatchOption, []};
ghost use Rattle.mx_core.specs.declared.words.Stage.TheVariants.{Outside, Ready};
ghost use Rattle.mx_desc.specs.Openings.{AreFreshPasses, IsOpening};
ghost use Rattle.mx_rule.specs.Openings.{ArePlaced};
ghost use Rattle.mx_rule.specs.Seats.{super_of};

use crate::asking::Asked;
use mx_cam::Cam;
use mx_core::{Changes, Outcome};
use mx_desc::{Naming, Pass, Passes, Referred, seats};
use mx_rule::{Board, SuperSeat};
use mx_sdw::{Op, Ring, Word};
use std::alloc::{AllocError, Global};
use std::sync::ledger::Blank;

/// What is asked of word 0 of the segment.
#[derive(Clone, Copy, Debug)]
struct Reference {
    op: Op,
    ring: Ring,
    value: Word,
}

/// Whether a reference was granted.
fn is_granted(referred: &Referred) -> bool {
    match referred {
        Referred::Seen(element) => !matches!(element.outcome, Outcome::Denied(_)),
        Referred::Missing { .. } => false,
    }
}

/// So many references through the associative memory: how many were granted.
fn through_cam<B: Naming>(
    shared: &Board<u32>,
    cam: &mut Cam,
    pass: &mut Pass<u32, B>,
    asked: &Reference,
    count: u32,
) -> u32
    requires place { shared.now.table_id ≡ B.table }
    requires layout { shared.now.key.layout ≡ B.layout }
    requires same { cam.old ≡ pass.old.view.memory }
    requires ready { pass.old.view.stage ≡ Ready }
    requires spare { count ≤ pass.old.spare }
    ensures { result ≤ count }
{
    let mut granted = 0;
    for made in 0..count {
        let referred = cam.refer(pass, shared, 8, asked.op, asked.ring, 0, asked.value);
        if is_granted(&referred) {
            granted += 1;
        }
    }
    granted
}

/// So many references by the descriptor word: how many were granted.
fn by_word<B: Naming>(
    shared: &Board<u32>,
    pass: &mut Pass<u32, B>,
    asked: &Reference,
    count: u32,
) -> u32
    requires place { shared.now.table_id ≡ B.table }
    requires layout { shared.now.key.layout ≡ B.layout }
    requires ready { pass.old.view.stage ≡ Ready }
    requires spare { count ≤ pass.old.spare }
    ensures { result ≤ count }
{
    let mut granted = 0;
    for made in 0..count {
        let referred = pass.refer(shared, 8, asked.op, asked.ring, 0, asked.value);
        if is_granted(&referred) {
            granted += 1;
        }
    }
    granted
}

/// The pass of the last process.
fn last<B: Naming>(passes: Passes<u32, B>) -> Option<Pass<u32, B>>
    requires { AreFreshPasses B.start 1 passes }
    ensures { MatchOption result (Unit {0}) (λ pass. (pass.view.stage ≡ Outside) × (pass.view.memory ≡ [])) }
{
    let mut passes = passes.into_items();
    passes.pop()
}

/// The last process of the run that `B` names goes in and refers: how many of its references were granted.
pub fn run<B: Naming>(
    alloc: Global,
    shared: &Board<u32>,
    chief: SuperSeat<u32>,
    base: &Changes,
    blank: Blank,
    ring: Ring,
    asked: &Asked,
) -> Result<u32, AllocError>
    requires name { blank.name ≡ B.name }
    requires parts { blank.parts ≡ B.parts }
    requires all { blank.parts ≡ B.layout.processes }
    requires place { shared.now.table_id ≡ B.table }
    requires layout { shared.now.key.layout ≡ B.layout }
    requires here { chief.seat.table_id ≡ B.table }
    requires laid { chief.layout ≡ B.layout }
    requires opening { IsOpening B.start (super_of chief.seat.me.0) }
    requires base { base.now ≡ (super_of chief.seat.me.0).base }
    requires placed { ArePlaced B.layout base.now }
    ensures { IfOk result (λ granted. granted ≤ asked.now.count) }
{
    let (_book, share) = blank.open::<B>();
    let (_chief, passes) = seats(alloc, shared, chief, base, share)?;
    let Some(mut pass) = last(passes) else {
        return Ok(0);
    };
    pass.reserve(asked.count as usize)?;
    let mut cam = Cam::new();
    cam.enter(&mut pass, shared);
    let reference = Reference {
        op: if asked.writes { Op::Write } else { Op::Read },
        ring,
        value: Word::zero(),
    };
    Ok(if asked.through_cam {
        through_cam(shared, &mut cam, &mut pass, &reference, asked.count)
    } else {
        by_word(shared, &mut pass, &reference, asked.count)
    })
}
