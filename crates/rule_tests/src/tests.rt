//! What the rows share: tables of two processes after three entries, a supervisor that changes one pair, and processes
//! that refer.

ghost use Rattle.std.specs.Prelude.{◌≡◌, ◌≤◌, [], ◌∷◌, IfOk};
ghost use Rattle.mx_rule.specs.Openings.{MayOpen};
ghost use Rattle.mx_rule.specs.Shown.{base_of};
ghost use Rattle.mx_sdw.specs.Admissible.{IsAdmissible};

mod cams;
mod greatest;
mod passing;
mod referring;
mod revoking;
mod supervising;

use mx_core::{Change, Changes};
use mx_list::Sequence;
use mx_rule::{Key, Layout};
use mx_sdw::{Brackets, Desc, Op, Ring, Word};
use referring::Reference;
use std::alloc::{AllocError, Global};
use std::test::Fail;

fn ring() -> Result<Ring, Fail> {
    Ok(Ring::new(4).ok_or("a ring")?)
}

fn word(value: u64) -> Result<Word, Fail> {
    Ok(Word::new(value).ok_or("a word")?)
}

// Brackets 4, 4, 4, readable, and writable or not, with 64 words from a page on.
fn data(writable: bool, page: u16) -> Result<Desc, Fail>
    requires { page ≤ 1000 }
    ensures admissible { IfOk result (λ desc. IsAdmissible desc) }
    ensures writable { IfOk result (λ desc. desc.w ≡ writable) }
{
    let four = Ring::new(4).ok_or("a ring")?;
    let brackets = Brackets::new(four, four, four).ok_or("brackets")?;
    Ok(Desc::segment(brackets, true, false, writable, 0, page, 64))
}

// The changes of an entry that gives one pair another descriptor.
fn one(alloc: Global, process: u8, segno: u16, desc: Desc) -> Result<Changes, AllocError>
    ensures { IfOk result (λ list. list ≡ (record { process = process; segno = segno; desc = desc }) ∷ []) }
{
    let mut list = Sequence::new(alloc);
    list.push(Change {
        process,
        segno,
        desc,
    })?;
    Ok(list)
}

// Two processes after three entries: process 2 knows a segment as number 8, both know another as number 9.
fn opened(alloc: Global, own: Desc, common: Desc) -> Result<Key, AllocError>
    requires own { IsAdmissible own }
    requires common { IsAdmissible common }
    ensures may { IfOk result (λ key. MayOpen key.layout key.start key.base) }
    ensures processes { IfOk result (λ key. key.layout.processes ≡ 2) }
    ensures numbers { IfOk result (λ key. key.layout.numbers ≡ 128) }
    ensures start { IfOk result (λ key. key.start ≡ 3) }
    ensures own { IfOk result (λ key. base_of key.base 2 8 ≡ own) }
{
    let mut base = one(alloc, 2, 8, own)?;
    base.push(Change {
        process: 1,
        segno: 9,
        desc: common,
    })?;
    base.push(Change {
        process: 2,
        segno: 9,
        desc: common,
    })?;
    let layout = Layout {
        processes: 2,
        numbers: 128,
    };
    Ok(Key {
        layout,
        start: 3,
        base,
    })
}

fn reference(segno: u16, op: Op, ring: Ring, value: Word) -> Reference
    ensures { result.segno ≡ segno }
{
    Reference {
        segno,
        op,
        ring,
        word: 0,
        value,
    }
}
