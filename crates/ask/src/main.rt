//! The program: it plays files of requests over the plain supervisor. Each word of its command line names a file, in which
//! `version V` tells of which version plays are, `processes PRINCIPAL[=CLASS] ..` begins a play, `PROCESS RING REQUEST` has a
//! process ask, `= REPLY` tells the reply, and
//! `changed P|SEGNO ..` whose descriptors change. A reply that is not told is printed, and so is each that came otherwise than
//! told; a line for each file counts. Status 0 means that all came as told, 1 that something did not, 2 that no file was named
//! or one is not there. What decides the status is proved. Stands on the plain supervisor and the spellings of requests.
#![tactic(auto)]

mod lines;
mod outcome;
mod playing;
mod plays;

use outcome::{Outcome, status_of};
use playing::{Account, play};
use std::alloc::{Alloc, Global};
use std::io::Write;
use std::process::ExitCode;
use std::rt::Files;
use std::{env, fs, io};

/// The status where no file is named, or one is not there.
const BAD_WORDS: u8 = 2;

fn main(rt: HostRuntime) -> io::Result<ExitCode> {
    let mut names = env::args(&rt)?.skip(1).peekable();
    if names.peek().is_none() {
        eprintln!(rt; "ask FILE ..: plays files of requests over the plain supervisor")?;
        return Ok(ExitCode::from(BAD_WORDS));
    }
    let mut outcomes = Vec::new(rt.alloc());
    for name in names {
        match outcomes_of(&rt, &name)? {
            Some(own) => outcomes.extend_from_slice(&own)?,
            None => return Ok(ExitCode::from(BAD_WORDS)),
        }
    }
    Ok(ExitCode::from(status_of(&outcomes)))
}

// Plays the file of this name, and says what came of it.
fn outcomes_of<R: Files + Print + Eprint + Alloc<A = Global>>(
    rt: &R,
    name: &str,
) -> io::Result<Option<Vec<Outcome>>> {
    let Some(text) = read(rt, name)? else {
        eprintln!(rt; "{name}: not found")?;
        return Ok(None);
    };
    let account = play(rt.alloc(), name, &text)?;
    print(rt, name, &account)?;
    Ok(Some(account.outcomes))
}

fn print<R: Print>(rt: &R, name: &str, account: &Account) -> io::Result<()> {
    io::writer(rt).write_all(&account.report)?;
    let as_told = count(&account.outcomes, Outcome::AsTold);
    let otherwise = count(&account.outcomes, Outcome::Otherwise);
    println!(rt; "{name}: {as_told} as told, {otherwise} otherwise")
}

// The bytes of a file, or none where there is no such file.
fn read<R: Files + Alloc<A = Global>>(rt: &R, name: &str) -> io::Result<Option<Vec<u8>>> {
    match fs::read(rt, name) {
        Ok(bytes) => Ok(Some(bytes)),
        Err(error) if error.kind() == io::ErrorKind::NotFound => Ok(None),
        Err(error) => Err(error),
    }
}

fn count(outcomes: &[Outcome], one: Outcome) -> usize {
    outcomes.iter().filter(|outcome| **outcome == one).count()
}
