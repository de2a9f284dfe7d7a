//! Descriptors of segments, stacks and linkage sections.

ghost use Rattle.std.specs.Prelude.{◌≡◌, ◌≤◌, ◌<◌, true, false, length};
ghost use Rattle.mx_kst.specs.Sections.{IsWithinPage};
ghost use Rattle.mx_sdw.specs.Admissible.{IsAdmissible};
ghost use Rattle.mx_sdw.specs.Descriptors.{segment_desc};
ghost use Rattle.std.specs.Option.{option_map};
ghost use Rattle.mx_state.specs.DecidingEntry.{entry_in};
ghost use Rattle.mx_state.specs.Table.{stack_desc, descriptor_in};

use crate::callers::process_at;
use crate::states::ProcessState;
use mx_acl::Modes;
use mx_hier::Hier;
use mx_kst::Lot;
use mx_name::AclId;
use mx_sdw::{Brackets, Desc, Ring};

/// The descriptor that process `p` has of a segment number.
pub(crate) fn descriptor(hier: &Hier, processes: &[ProcessState], p: u8, segno: u16) -> Desc
    requires { length processes.now ≤ 15 }
    ensures value { result ≡ descriptor_in hier.now processes.now p segno }
    ensures admissible { IsAdmissible result }
{
    let Some(process) = process_at(processes, p) else {
        return Desc::unknown();
    };
    if segno > process.known.last() {
        return Desc::unknown();
    }
    match process.known.lot(segno) {
        Lot::Free => Desc::unknown(),
        Lot::Stack(ring) => stack_desc(p, ring),
        Lot::Branch { uid } => hier.desc_of(uid, &process.principal, process.authorization),
        Lot::Linkage {
            of: _,
            page,
            brackets,
            words,
        } => linkage_desc(page, brackets, words),
    }
}

/// The entry of an access list that decides the modes of what a number stands for in process `p`.
pub(crate) fn entry_behind<'a>(
    hier: &'a Hier,
    processes: &[ProcessState],
    p: u8,
    segno: u16,
) -> Option<(&'a AclId, Modes)>
    ensures { option_map (λ pair. (pair.0.now, pair.1)) result ≡ entry_in hier.now processes.now p segno }
{
    let process = process_at(processes, p)?;
    if segno > process.known.last() {
        return None;
    }
    match process.known.lot(segno) {
        Lot::Branch { uid } => hier.deciding_entry(uid, &process.principal),
        Lot::Free => None,
        Lot::Stack(_) => None,
        Lot::Linkage {
            of: _,
            page: _,
            brackets: _,
            words: _,
        } => None,
    }
}

/// The descriptor of the stack of a ring of process `p`: one page for each ring of each process, from page 0 on.
fn stack_desc(p: u8, ring: Ring) -> Desc
    requires first { 1 ≤ p }
    requires last { p ≤ 15 }
    ensures value { result ≡ stack_desc p ring }
    ensures admissible { IsAdmissible result }
{
    let Some(brackets) = Brackets::new(ring, ring, ring) else {
        unreachable!()
    };
    let page = 8 * u16::from(p - 1) + u16::from(ring.number());
    Desc::segment(brackets, true, false, true, 0, page, 64)
}

/// The descriptor of a linkage section.
#[tactic(auto, using(crate::proofs::SectionLaws::section_admissible))]
fn linkage_desc(page: u16, brackets: Brackets, words: u16) -> Desc
    requires { IsWithinPage page words }
    ensures value { result ≡ segment_desc brackets true false true 0 page words }
    ensures admissible { IsAdmissible result }
{
    // These are called for their clauses: the brackets are in order, and the last is at most 7.
    let (_order, _last) = (brackets.r2(), brackets.r3().number());
    Desc::segment(brackets, true, false, true, 0, page, words)
}
