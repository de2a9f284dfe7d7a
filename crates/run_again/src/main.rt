//! The program: it reads a session and runs it as often as the command line says, and prints nothing of the runs but how many there were
//! and how many entries the last one has, and with `times`, before that, the microseconds that each run took, a line each: what a run itself takes, without
//! reading, printing, and giving its memory back. `run_again COUNT [times] < SESSION`. Status 0 means that all were run, 1 that memory, the input or
//! the clock failed, 2 that the command line says something else, 5 that the text is no session.
//!
//! Each run is a legal run by the clauses of `mx_proc::run`, on which it stands.
#![tactic(auto)]

use mx_io::{StdSource, read_all};
use mx_proc::{NoGate, run};
use mx_script::read_session;
use std::process::ExitCode;
use std::time::Instant;
use std::{env, io};

/// The greatest size of a session text, in bytes.
const MOST_BYTES: usize = 4_194_304;

const FAILED: u8 = 1;

const BAD_WORDS: u8 = 2;

const NO_SESSION: u8 = 5;

fn main(rt: HostRuntime) -> io::Result<ExitCode> {
    let words = env::args(&rt)?.skip(1).collect::<Vec<String>>(rt.alloc())?;
    let Some(order) = order_of(&words) else {
        eprintln!(rt; "run_again COUNT [times] < SESSION: runs a session so many times")?;
        return Ok(ExitCode::from(BAD_WORDS));
    };
    let mut source = StdSource::new(rt.stdin());
    let Ok(text) = read_all(rt.alloc(), &mut source, MOST_BYTES) else {
        return Ok(ExitCode::from(FAILED));
    };
    let Ok(session) = read_session(rt.alloc(), &text) else {
        return Ok(ExitCode::from(NO_SESSION));
    };
    let mut entries = 0;
    for _ in 0..order.count {
        let begun = Instant::now(&rt)?;
        let (journal, _transcripts) = run(
            &rt,
            rt.alloc(),
            &session,
            &NoGate,
            &mut Vec::new(rt.alloc()),
        )?;
        let took = begun.elapsed(&rt)?;
        if order.timed {
            println!(rt; "{}", took.as_micros())?;
        }
        entries = journal.items().len();
    }
    println!(rt; "{} runs, {entries} entries in the last", order.count)?;
    Ok(ExitCode::from(0))
}

/// What the command line orders.
#[derive(Clone, Copy)]
struct Order {
    /// How many runs.
    count: u32,
    /// Whether the time of each is printed.
    timed: bool,
}

// A number, alone or before the word `times`.
fn order_of(words: &[String]) -> Option<Order> {
    let (count, timed) = match words {
        [count] => (count, false),
        [count, word] if word.as_str() == "times" => (count, true),
        _ => return None,
    };
    let count = count.as_str().parse().ok()?;
    Some(Order { count, timed })
}
