//! The drill of number 7, on one thread: the journal of its run is played before both programs.

use both_supervisors::{Came, play};
use mx_drill::{session_of, session_text};
use session_files::run_in_order;
use std::test::Fail;

/// The most bytes of the run that are kept.
const ROOM: usize = 1_048_576;

#[test]
fn the_drill_of_seven(rt: HostRuntime) -> Result<(), Fail> {
    let alloc = rt.alloc();
    let session = session_of(alloc, 7)?;
    let text = session_text(alloc, &session)?;
    let Some(ran) = run_in_order(&rt, alloc, text.items(), b"", ROOM)? else {
        return Err(Fail::new("not run"));
    };
    let entrants = session.principals().items();
    let came = play(alloc, session.version(), entrants, &ran)?;
    assert_eq!(rt; came, Came::AsTold);
    Ok(())
}
