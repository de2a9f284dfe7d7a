//! The script of a process of the drill.

ghost use Rattle.std.specs.Prelude.{◌≡◌, ◌+◌, ◌++◌, ◌≤◌, ◌<◌, IfOk, OnOk};
ghost use Rattle.mx_drill.specs.Drills.{word_of_round, value_of_round, loaded_segment, other_process, modes_of_round};
ghost use Rattle.mx_drill.specs.Drills.{address, round, initiation, drill_script};
ghost use Rattle.mx_drill.specs.Drills.{segment_path, driller_id};
ghost use Rattle.mx_request.specs.declared.requests.Request.TheVariants.{SetAcl};

use crate::names::{driller_id, segment_path};
use mx_acl::Modes;
use mx_request::{Request, SharedRequest};
use mx_script::{Base, Line, Operand, Script};
use mx_sdw::Word;
use std::alloc::{AllocError, Global};

/// The words of each segment, and so the first word that it has not.
const WORDS: u16 = 64;

/// The script of process p in the drill of a number.
pub(crate) fn script(alloc: Global, number: u32, p: u8) -> Result<Script, AllocError>
    requires known { number ≤ 999999 }
    requires least { 1 ≤ p }
    requires most { p ≤ 4 }
    ensures { IfOk result (λ script. script ≡ drill_script number p) }
{
    let mut script = Script::new(alloc);
    for s in 1..5 {
        script.push(initiation(alloc, s)?)?;
    }
    for i in 0..256 {
        add_round(alloc, &mut script, number, p, i)?;
    }
    script.push(asked(alloc, Request::Logout)?)?;
    Ok(script)
}

fn asked(alloc: Global, request: Request) -> Result<Line, AllocError>
    ensures { IfOk result (λ line. line ≡ Line.Ask request) }
{
    let shared = SharedRequest::new(alloc, request)?;
    Ok(Line::Ask(shared))
}

fn initiation(alloc: Global, s: u8) -> Result<Line, AllocError>
    requires least { 1 ≤ s }
    requires most { s ≤ 4 }
    ensures { IfOk result (λ line. line ≡ initiation s) }
{
    let path = segment_path(alloc, s)?;
    asked(alloc, Request::Initiate { path, name: None })
}

// What round i does.
fn add_round(
    alloc: Global,
    script: &mut Script,
    number: u32,
    p: u8,
    i: u32,
) -> Result<(), AllocError>
    requires known { number ≤ 999999 }
    requires least { 1 ≤ p }
    requires most { p ≤ 4 }
    requires round { i < 256 }
    ensures { OnOk result (script.new ≡ script.old ++ round number p i) }
{
    match i % 4 {
        0 => {
            script.push(Line::Set {
                word: value(number, p, i),
            })?;
            script.push(Line::Sta {
                operand: address(own_segment(p), word(number, p, i)),
            })
        }
        1 => script.push(Line::Lda {
            operand: address(loaded_segment(number, i), word(number, p, i)),
        }),
        2 => script.push(asked(alloc, access_change(alloc, p, i)?)?),
        _ => script.push(Line::Sta {
            operand: address(own_segment(p), WORDS),
        }),
    }
}

fn address(segno: u16, word: u16) -> Operand
    ensures { result ≡ address segno word }
{
    Operand {
        base: Base::Segment(segno),
        word,
        indirect: false,
    }
}

// The number under which each process knows the segment of process p.
fn own_segment(p: u8) -> u16
    ensures { result ≡ 7 + p }
{
    7 + u16::from(p)
}

fn loaded_segment(number: u32, i: u32) -> u16
    requires known { number ≤ 999999 }
    requires round { i < 256 }
    ensures { result ≡ loaded_segment number i }
{
    8 + ((number + i) % 4) as u16
}

fn word(number: u32, p: u8, i: u32) -> u16
    requires known { number ≤ 999999 }
    requires round { i < 256 }
    ensures { result ≡ word_of_round number p i }
{
    ((number + 7 * i + u32::from(p)) % 64) as u16
}

fn value(number: u32, p: u8, i: u32) -> Word
    requires known { number ≤ 999999 }
    requires round { i < 256 }
    ensures { result ≡ value_of_round number p i }
{
    let value = 1000 * u32::from(p) + i + number;
    let Some(word) = Word::new(u64::from(value)) else {
        unreachable!()
    };
    word
}

// Process p takes another's right to write its segment away, or gives it back.
fn access_change(alloc: Global, p: u8, i: u32) -> Result<Request, AllocError>
    requires least { 1 ≤ p }
    requires most { p ≤ 4 }
    requires round { i < 256 }
    ensures { IfOk result (λ request. request ≡ SetAcl (segment_path p) (driller_id (other_process p i)) (modes_of_round i)) }
{
    let path = segment_path(alloc, p)?;
    let id = driller_id(other_process(p, i));
    let modes = modes(i);
    Ok(Request::SetAcl { path, id, modes })
}

fn other_process(p: u8, i: u32) -> u8
    requires { i < 256 }
    ensures value { result ≡ other_process p i }
    ensures most { result ≤ 4 }
{
    1 + ((u32::from(p) + i / 4 % 3) % 4) as u8
}

fn modes(i: u32) -> Modes
    ensures { result ≡ modes_of_round i }
{
    if i / 4 % 2 == 0 { Modes::R } else { Modes::Rw }
}
