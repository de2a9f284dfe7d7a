//! The program: it runs a session whose process 1 has a guard, as an example of how a program uses the top call `multics` as a library
//! with an auditor of its own. `monitor PATIENCE < SESSION` prints the run text, and then what the guard was told and what it
//! answered; PATIENCE says how often the process may be denied before it is logged out at the next denial. The status is that of
//! the top call, or 2 where the command line says something else.
//!
//! That the guard is told of just its process's denials, and that the process runs no further line but its `logout` where the guard
//! answers so, are clauses of the top call. How patient a guard is no clause says: it is the guard's own affair.
#![tactic(auto)]

mod guards;

use guards::{Guard, ROOM, alone};
use mx_audit::{Auditor, Verdict};
use mx_io::{Sink, Source, StdSink, StdSource};
use mx_run::{NoGate, multics};
use mx_sdw::Denial;
use std::alloc::Global;
use std::process::ExitCode;
use std::sync::Wait;
use std::thread::Threads;
use std::{env, io};

const BAD_WORDS: u8 = 2;

fn main(rt: HostRuntime) -> io::Result<ExitCode> {
    let words = env::args(&rt)?.skip(1).collect::<Vec<String>>(rt.alloc())?;
    let Some(patience) = patience_of(&words) else {
        eprintln!(rt; "monitor PATIENCE < SESSION: runs a session whose process 1 has a guard")?;
        return Ok(ExitCode::from(BAD_WORDS));
    };
    let mut source = StdSource::new(rt.stdin());
    let mut sink = StdSink::new(rt.stdout());
    let status = run_guarded(&rt, rt.alloc(), patience, &mut source, &mut sink)?;
    Ok(ExitCode::from(status))
}

// Runs the session, whose process 1 has a guard of this patience: the status of the top call.
fn run_guarded<R: Threads + Wait + Sync + Print, S: Source, K: Sink>(
    rt: &R,
    alloc: Global,
    patience: u32,
    source: &mut S,
    sink: &mut K,
) -> io::Result<u8> {
    let guard = Box::new(alloc, Guard::new(alloc, ROOM, patience)?)?;
    let mut auditors = alone(alloc, guard)?;
    let words = vec![in alloc; String::from_str(alloc, "run")?]?;
    let status = multics(rt, alloc, &words, source, sink, &NoGate, &mut auditors);
    tell(rt, &auditors)?;
    Ok(status)
}

// The only word, as a number.
fn patience_of(words: &[String]) -> Option<u32> {
    match words {
        [word] => word.as_str().parse().ok(),
        _ => None,
    }
}

// What the guard was told, and what it answered.
fn tell<R: Print>(rt: &R, auditors: &[Box<dyn Auditor + Send>]) -> io::Result<()> {
    for guard in auditors {
        for i in 0..guard.count() {
            tell_one(rt, guard.told(i))?;
        }
    }
    Ok(())
}

fn tell_one<R: Print>(rt: &R, told: Option<(u32, Denial, Verdict)>) -> io::Result<()> {
    let Some((line, denial, verdict)) = told else {
        return Ok(());
    };
    let name = denial.text();
    let answer = match verdict {
        Verdict::GoOn => "go on",
        Verdict::Logout => "log out",
    };
    println!(rt; "guard of process 1: line {line} denied {name}: {answer}")
}
