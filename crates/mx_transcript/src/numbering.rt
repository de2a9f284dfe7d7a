//! Which lines of the session text are whose, and how many calls the setup enters.

ghost use Rattle.std.specs.Prelude.{◌≡◌, ◌+◌, ◌<◌, ◌≤◌, ◌^◌, length};
ghost use Rattle.std.specs.List.{sum_by};
ghost use Rattle.mx_transcript.specs.Legal.{setup_entries};
ghost use Rattle.mx_transcript.specs.Scripts.{first_line, lines_before};
ghost use Rattle.mx_script.specs.Sessions.{history_lines};

use mx_script::{Script, Session};

/// How many entries of the journal are the setup's: one for each of its lines, up to the journal's limit.
pub fn setup_entries(session: &Session) -> u32
    ensures { result ≡ setup_entries session.now }
{
    let lines = session.setup().items().len();
    let limit = session.limit();
    if lines < limit as usize {
        lines as u32
    } else {
        limit
    }
}

/// The number of the first line of process `p` in the session text, counted from 1. The lines of process 0 are the
/// setup's.
pub fn first_line(session: &Session, p: u8) -> u32
    ensures { result ≡ first_line session.now p }
{
    let scripts = session.scripts().items();
    let limit = history_lines(session.history());
    if p == 0 {
        2 + limit
    } else {
        3 + limit + session.setup().items().len() as u32 + lines_before(scripts, p - 1)
    }
}

// The lines that set the journal's limit.
fn history_lines(history: Option<u32>) -> u32
    ensures value { result ≡ history_lines history }
    ensures most { result ≤ 1 }
{
    match history {
        None => 0,
        Some(_) => 1,
    }
}

// The lines of this many scripts, each with its `process` line.
fn lines_before(scripts: &[Script], p: u8) -> u32
    requires { length scripts.now + sum_by length scripts.now < 2 ^ 32 }
    ensures value { result ≡ lines_before scripts.now p }
    ensures within { result ≤ length scripts.now + sum_by length scripts.now }
{
    if p == 0 {
        return 0;
    }
    match scripts {
        [] => 0,
        [first, rest @ ..] => 1 + first.items().len() as u32 + lines_before(rest, p - 1),
    }
}
