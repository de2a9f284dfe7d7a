//! The top call over ends in memory.

ghost use Rattle.std.specs.Prelude.{map};
ghost use Rattle.mx_audit.specs.Accounts.{HaveRoom};

use mx_audit::Auditor;
use mx_io::{MemorySink, MemorySource};
use mx_run::{Gate, NoGate, multics};
use std::alloc::{AllocError, Global};
use std::sync::Wait;
use std::thread::Threads;

/// Which calls of the ends fail, and how many bytes the sink has room for.
#[derive(Clone, Copy)]
pub(super) struct Ends<'a> {
    pub(super) source_fails: &'a [u32],
    pub(super) sink_fails: &'a [u32],
    pub(super) room: usize,
}

/// No call fails, and there is room for the longest run of these tests.
pub(super) const GOOD: Ends<'static> = Ends {
    source_fails: &[],
    sink_fails: &[],
    room: 4096,
};

/// The status of the top call with these words over a source of this text, and what the sink holds then.
pub(super) fn call<R: Threads + Wait + Sync>(
    rt: &R,
    alloc: Global,
    words: &[&str],
    text: &[u8],
    ends: Ends<'_>,
) -> Result<(u8, Vec<u8>), AllocError> {
    call_with(rt, alloc, words, text, ends, &NoGate, &mut Vec::new(alloc))
}

/// The same with this gate and these auditors. The source gives 7 bytes at a call, and the sink takes 3.
pub(super) fn call_with<R: Threads + Wait + Sync, G: Gate>(
    rt: &R,
    alloc: Global,
    words: &[&str],
    text: &[u8],
    ends: Ends<'_>,
    gate: &G,
    auditors: &mut Vec<Box<dyn Auditor + Send>>,
) -> Result<(u8, Vec<u8>), AllocError>
    requires { HaveRoom 700000 (map account auditors.old.items) }
{
    let words = own(alloc, words)?;
    let source_fails = Vec::from_slice(alloc, ends.source_fails)?;
    let mut source = MemorySource::new(Vec::from_slice(alloc, text)?, source_fails, 7);
    let sink_fails = Vec::from_slice(alloc, ends.sink_fails)?;
    let made = MemorySink::new(alloc, ends.room, sink_fails, 3);
    let mut sink = made.map_err(|_| AllocError)?;
    let status = multics(rt, alloc, &words, &mut source, &mut sink, gate, auditors);
    Ok((status, Vec::from_slice(alloc, sink.bytes())?))
}

// These words, as the program has them.
fn own(alloc: Global, words: &[&str]) -> Result<Vec<String>, AllocError> {
    let mut own = Vec::new(alloc);
    for word in words {
        add(alloc, &mut own, word)?;
    }
    Ok(own)
}

fn add(alloc: Global, words: &mut Vec<String>, word: &str) -> Result<(), AllocError> {
    words.push(String::from_str(alloc, word)?)?;
    Ok(())
}

/// Whether a text has a line.
pub(super) fn has_line(text: &[u8], line: &[u8]) -> bool {
    text.split(|byte| *byte == b'\n').any(|own| own == line)
}
