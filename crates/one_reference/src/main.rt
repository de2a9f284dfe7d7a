//! The program: one process refers to one word of a segment, as often as the command line says, so that what a reference costs
//! can be counted. `one_reference WAY KIND COUNT`: the way is `cam`, through the associative memory, or `word`, by the
//! descriptor word each time; the kind is `read` or `write`. It prints how many references were granted. Status 0 means that
//! all were, 1 that not all were, 2 that the command line says something else.
//!
//! What is proved is that each reference is made where it may be made, and that no more are granted than were made. It stands
//! on `mx_cam` and `mx_desc`, whose contracts say what a reference is.
#![tactic(auto)]

ghost use Rattle.std.specs.Prelude.{◌≤◌, IfOk};

mod asking;
mod opening;
mod referring;

use asking::{Asked, asked_of};
use mx_rule::{SuperSeat, Words, open};
use mx_sdw::Ring;
use opening::opened;
use referring::run;
use std::alloc::{AllocError, Global};
use std::marker::Brand;
use std::process::ExitCode;
use std::sync::ledger::Blank;
use std::{env, io};

/// The status where the command line says something else.
const BAD_WORDS: u8 = 2;

fn main(rt: HostRuntime) -> io::Result<ExitCode> {
    let words = env::args(&rt)?.skip(1).collect::<Vec<String>>(rt.alloc())?;
    let Some(asked) = asked_of(&words) else {
        eprintln!(rt; "one_reference cam|word read|write COUNT: so many references to one word")?;
        return Ok(ExitCode::from(BAD_WORDS));
    };
    let granted = granted(rt.alloc(), &asked)?;
    println!(rt; "{granted} of {} granted", asked.count)?;
    Ok(ExitCode::from(u8::from(granted != asked.count)))
}

// Makes the references: how many were granted.
fn granted(alloc: Global, asked: &Asked) -> Result<u32, AllocError>
    ensures { IfOk result (λ granted. granted ≤ asked.now.count) }
{
    let ring = Ring::new(4).unwrap();
    let key = opened(alloc, ring)?;
    let (words, chief): (Words<u32>, SuperSeat<u32>) = open(alloc, &key)?;
    run::<Brand>(
        alloc,
        &words.shared,
        chief,
        &key.base,
        Blank::new(2),
        ring,
        asked,
    )
}
