//! The program: it plays worked steps of the core machine over a running world, and compares what comes of each with what is
//! told beside it. Each word of its command line names a file `NAME.steps` of the folder that it is started in. A line for each
//! file says how many lines came as told, after one for each that did not, and for each beside which nothing is told. Status 0
//! means that all came as told, 1 that one did not, 2 that no file was named, or that one was not read to its end.
//!
//! What is proved is how the status follows from the comparisons, and that each step is asked of `mx_worlds`, whose contracts
//! tie it to the definitions of `mx_core`.
#![tactic(auto)]

mod came;
mod lines;
mod numbers;
mod outcome;
mod playing;
mod reading;

use outcome::{Outcome, status_of};
use playing::play;
use std::alloc::Global;
use std::process::ExitCode;
use std::rt::Files;
use std::{env, fs, io};

/// The status where no file is named.
const BAD_WORDS: u8 = 2;

fn main(rt: HostRuntime) -> io::Result<ExitCode> {
    let names = env::args(&rt)?.skip(1).collect::<Vec<String>>(rt.alloc())?;
    if names.is_empty() {
        eprintln!(rt;
            "steps NAME ..: plays each NAME.steps of this folder, and compares what comes with what is told"
        )?;
        return Ok(ExitCode::from(BAD_WORDS));
    }
    Ok(ExitCode::from(play_files(&rt, &names)?))
}

// Plays each of some files, and answers the status.
fn play_files<R: Files + Print + Alloc<A = Global>>(rt: &R, names: &[String]) -> io::Result<u8> {
    let mut outcomes = Vec::new(rt.alloc());
    for name in names {
        outcomes.push(play_file(rt, name)?)?;
    }
    Ok(status_of(&outcomes))
}

fn play_file<R: Files + Print + Alloc<A = Global>>(rt: &R, name: &str) -> io::Result<Outcome> {
    match read(rt, name)? {
        Some(text) => {
            let (report, outcome) = play(rt.alloc(), name, &text)?;
            print!(rt; "{report}")?;
            Ok(outcome)
        }
        None => {
            println!(rt; "{name}: not found")?;
            Ok(Outcome::NotRead)
        }
    }
}

// The text of the file `NAME.steps` of the folder that the program is started in, or none where there is no such file.
fn read<R: Files + Alloc<A = Global>>(rt: &R, name: &str) -> io::Result<Option<String>> {
    let path = format!(in rt.alloc(); "{name}.steps")?;
    match fs::read_to_string(rt, path) {
        Ok(text) => Ok(Some(text)),
        Err(error) if error.kind() == io::ErrorKind::NotFound => Ok(None),
        Err(error) => Err(error),
    }
}
