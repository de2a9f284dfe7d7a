//! The program: it runs stored sessions and drills, and compares what they print with what is stored. Each word of its command
//! line names an item of the folder that it is started in: `NAME.rows`, an archive, or else `NAME.session` or `NAME.drill`; what
//! lies beside says what is compared. A line for each item says what came of it; for an archive also one for each row that was not
//! as stored. A stored run is also judged by `check`. Then the journals of the stored runs are played before both plain supervisors, and a line for each item with such a run
//! says what came of it; and of each denial and each refusal a line says which item is the first whose stored run has it. Behind the word `store` it writes the lines and the picture of each session anew instead. Status 0 means that all
//! were as stored, 1 that something was not, 2 that nothing was named.
#![tactic(auto)]

mod comparison;
mod coverage;
mod findings;
mod items;
mod judging;
mod outcome;
mod outlines;
mod repeats;
mod replays;
mod rows;
mod showing;

use coverage::tell_coverage;
use items::{compare, replay, store};
use outcome::status_of;
use std::process::ExitCode;
use std::{env, io};

/// The status where nothing is named.
const BAD_WORDS: u8 = 2;

fn main(rt: HostRuntime) -> io::Result<ExitCode> {
    let mut names = env::args(&rt)?.skip(1).peekable();
    let stores = match names.peek() {
        Some(word) => word.as_str() == "store",
        None => {
            eprintln!(rt;
                "sessions [store] NAME ..: compares what NAME.session prints with what is stored beside it, or stores its lines and picture"
            )?;
            return Ok(ExitCode::from(BAD_WORDS));
        }
    };
    let mut outcomes = Vec::new(rt.alloc());
    let names = names
        .skip(if stores { 1 } else { 0 })
        .collect::<Vec<String>>(rt.alloc())?;
    for name in &names {
        let told = if stores {
            store(&rt, name, &mut outcomes)?
        } else {
            compare(&rt, name, &mut outcomes)?
        };
        print!(rt; "{told}")?;
    }
    if !stores {
        for name in &names {
            let told = replay(&rt, name, &mut outcomes)?;
            print!(rt; "{told}")?;
        }
        let told = tell_coverage(&rt, &names, &mut outcomes)?;
        print!(rt; "{told}")?;
    }
    Ok(ExitCode::from(status_of(&outcomes)))
}
