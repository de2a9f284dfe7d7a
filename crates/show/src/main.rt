//! The program: it makes the real ends, the standard input and output, and hands them to the top call with the words of its
//! command line. The status of the process is the top call's, or that of no memory for the words.
#![tactic(auto)]

use mx_explain::{OUT_OF_MEMORY, show};
use mx_io::{StdSink, StdSource};
use std::alloc::AllocError;
use std::process::ExitCode;
use std::{env, io};

fn main(rt: HostRuntime) -> ExitCode {
    match words(&rt) {
        Ok(words) => {
            let mut source = StdSource::new(rt.stdin());
            let mut sink = StdSink::new(rt.stdout());
            ExitCode::from(show(&rt, rt.alloc(), &words, &mut source, &mut sink))
        }
        Err(AllocError) => ExitCode::from(OUT_OF_MEMORY),
    }
}

// The words after the program's name; none where an argument is no text, so that they are not accepted.
fn words(rt: &HostRuntime) -> Result<Vec<String>, AllocError> {
    let mut words = Vec::new(rt.alloc());
    match env::args(rt) {
        Ok(arguments) => {
            for word in arguments.skip(1) {
                words.push(word)?;
            }
        }
        Err(error) if error.kind() == io::ErrorKind::OutOfMemory => return Err(AllocError),
        Err(_) => {}
    }
    Ok(words)
}
