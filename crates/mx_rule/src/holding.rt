//! What a reference comes to before its cell step.

ghost use Rattle.std.specs.Prelude.{◌≡◌, Ok, Err, MatchBool};
ghost use Rattle.mx_core.specs.declared.words.DescriptorWord.TheVariants.{Valid};
ghost use Rattle.mx_rule.specs.Codes.{IsCodable, word_by};
ghost use Rattle.mx_rule.specs.Holding.{cell_on, waiting_cell};
ghost use Rattle.mx_sdw.specs.Admissible.{IsAdmissible};
ghost use Rattle.mx_sdw.specs.Judging.{judgement};
ghost use Rattle.mx_sdw.specs.Operations.{transfers};
ghost use Rattle.mx_sdw.specs.declared.denials.Denial.{Denial};
ghost use Rattle.mx_sdw.specs.declared.descriptors.Cell.{Cell as CellValue};

use mx_core::Asked;
use mx_sdw::{Desc, DescView, Op, judge};

/// Whether what is asked is granted.
#[inline(always)]
fn is_granted(desc: &Desc, asked: &Asked) -> bool
    ensures { MatchBool result ((cell : CellValue) × (judgement desc.now asked.now.op asked.now.ring asked.now.word
        ≡ Ok cell))
        ((denial : Denial) × (judgement desc.now asked.now.op asked.now.ring asked.now.word ≡ Err denial)) }
{
    match judge(desc, asked.op, asked.ring, u32::from(asked.word)) {
        Ok(_) => true,
        Err(_) => false,
    }
}

/// Whether it is a call or a return.
#[inline(always)]
fn transfers(asked: &Asked) -> bool
    ensures { result ≡ transfers asked.now.op }
{
    match asked.op {
        Op::Call { .. } | Op::Return => true,
        Op::Read | Op::Indirect | Op::Write | Op::Fetch => false,
    }
}

#[inline(always)]
fn word_in(asked: &Asked) -> u16
    ensures { result ≡ asked.now.word }
{
    asked.word
}

/// The cell of what is asked, where that is granted and waits for its cell step.
#[inline(always)]
pub(crate) fn held_cell(desc: &Desc, asked: &Asked) -> Option<u16>
    requires { IsAdmissible desc.now }
    ensures { result ≡ waiting_cell desc.now asked.now }
{
    if !is_granted(desc, asked) {
        return None;
    }
    if transfers(asked) {
        return None;
    }
    let cell = 64 * u32::from(desc.page()) + u32::from(word_in(asked));
    Some(cell as u16)
}

/// The same on a descriptor that stands since an entry, for a process that was told of so many.
#[inline(always)]
fn standing_cell(number: u32, desc: &Desc, floor: u32, asked: &Asked) -> Option<u16>
    requires { IsAdmissible desc.now }
    ensures { result ≡ cell_on (Valid number desc.now) floor asked.now }
{
    if number > floor {
        return None;
    }
    held_cell(desc, asked)
}

/// The same on what a descriptor word says.
#[inline(always)]
pub(crate) fn found_cell(view: &DescView, floor: u32, asked: &Asked) -> Option<u16>
    requires { IsCodable (word_by view.now) }
    ensures { result ≡ cell_on (word_by view.now) floor asked.now }
{
    match view {
        DescView::Fault(_) => None,
        DescView::Set(number, desc) => standing_cell(*number, desc, floor, asked),
        DescView::Unknown(number) => standing_cell(*number, &Desc::unknown(), floor, asked),
        DescView::Gone(number) => standing_cell(*number, &Desc::gone(), floor, asked),
    }
}
