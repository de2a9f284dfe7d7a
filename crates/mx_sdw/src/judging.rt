//! The judging rule.

ghost use Rattle.std.specs.Prelude.{◌≡◌, true};
ghost use Rattle.mx_sdw.specs.Judging.{judgement, ring_after};
ghost use Rattle.mx_sdw.specs.Operations.{transfers};

use crate::denials::Denial;
use crate::descriptors::{Aim, Cell, Desc, DescKind};
use crate::operations::Op;
use crate::rings::Ring;

/// Judges an operation on a word of a segment at a ring: the effective ring, or for a fetch the current one. Grants it
/// with the cell of the word, or answers the first denial whose condition holds.
///
/// The brackets and gates are Schroeder and Saltzer's, the rule of classes that of the Multics Administrators' Manual.
/// This model's own choices are the order of the denials, that a call within the running segment needs no gate word, and
/// that only a call from below the first bracket raises the current ring, where such calls are on.
#[tactic(auto, unfolding(crate::specs::Judging::judgement))]
#[inline(always)]
pub fn judge(desc: &Desc, op: Op, ring: Ring, word: u32) -> Result<Cell, Denial>
    ensures { result ≡ judgement desc.now op ring word }
{
    match desc.kind() {
        DescKind::Unknown => return Err(Denial::UnknownSegment),
        DescKind::Gone => return Err(Denial::NoSegment),
        DescKind::Segment => {},
    }
    if word >= u32::from(desc.bound()) {
        return Err(Denial::OutOfBounds);
    }
    match (op, desc.aim()) {
        (Op::Write, Aim::Dominates | Aim::Neither) => return Err(Denial::AimWrite),
        (_, Aim::Neither) => return Err(Denial::AimRead),
        _ => {},
    }
    let ring = ring.number();
    let brackets = desc.brackets();
    let (r1, r2, r3) = (
        brackets.r1().number(),
        brackets.r2().number(),
        brackets.r3().number(),
    );
    let executes = r1 <= ring && ring <= r2;
    match op {
        Op::Read | Op::Indirect => {
            if !desc.r() {
                return Err(Denial::NotReadable);
            }
            if ring > r2 {
                return Err(Denial::ReadBracket);
            }
        },
        Op::Write => {
            if !desc.w() {
                return Err(Denial::NotWritable);
            }
            if ring > r1 {
                return Err(Denial::WriteBracket);
            }
        },
        Op::Fetch => {
            if !desc.e() {
                return Err(Denial::NotExecutable);
            }
            if !executes {
                return Err(Denial::ExecuteBracket);
            }
        },
        Op::Call {
            current,
            same,
            upward,
        } => {
            if !desc.e() {
                return Err(Denial::NotExecutable);
            }
            if ring > r3 {
                return Err(Denial::CallBracket);
            }
            let below = ring < r1;
            if below && !upward {
                return Err(Denial::UpwardCall);
            }
            if word >= u32::from(desc.gate()) && (below || ring > r2 || !same) {
                return Err(Denial::Gate);
            }
            if !below && ring.min(r2) > current.number() {
                return Err(Denial::RaisedRing);
            }
        },
        Op::Return => {
            if !desc.e() {
                return Err(Denial::NotExecutable);
            }
            if !executes {
                return Err(Denial::BadReturn);
            }
        },
    }
    Ok(Cell(64 * u32::from(desc.page()) + word))
}

/// The ring in which a granted call or return goes on: the effective ring, or for a call from above the second bracket
/// that bracket, and for one from below the first bracket that one (Schroeder and Saltzer).
pub fn new_ring(desc: &Desc, op: Op, ring: Ring) -> Ring
    requires { transfers op ≡ true }
    ensures { result ≡ ring_after desc.now op ring }
{
    let (r1, r2) = (desc.brackets().r1(), desc.brackets().r2());
    match op {
        Op::Call { .. } if ring.number() < r1.number() => r1,
        Op::Call { .. } if ring.number() > r2.number() => r2,
        _ => ring,
    }
}
