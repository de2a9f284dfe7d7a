//! What is shown of a session.

use mx_explain::show;
use mx_io::{MemorySink, MemorySource};
use std::alloc::{AllocError, Global};
use std::str;
use std::sync::Wait;
use std::thread::Threads;

/// The most bytes that are kept.
const ROOM: usize = 2_097_152;

/// How many bytes are moved at a time.
const PIECE: usize = 4096;

/// What the program `show` writes on this word and those of an order, which is empty where none is chosen, where the source holds
/// this text.
pub fn shown<R: Threads + Wait + Sync>(
    rt: &R,
    alloc: Global,
    word: &str,
    order: &[u8],
    session: &[u8],
) -> Result<MemorySink, AllocError> {
    let words = words_of(alloc, word, order)?;
    let text = Vec::from_slice(alloc, session)?;
    let mut source = MemorySource::new(text, Vec::new(alloc), PIECE);
    let made = MemorySink::new(alloc, ROOM, Vec::new(alloc), PIECE);
    let mut sink = made.map_err(|_| AllocError)?;
    let _status = show(rt, alloc, &words, &mut source, &mut sink);
    Ok(sink)
}

// A word, and those of an order, by spaces and newlines. One that is no text stands as an empty word, which `show` refuses.
fn words_of(alloc: Global, word: &str, order: &[u8]) -> Result<Vec<String>, AllocError> {
    let mut words = Vec::new(alloc);
    words.push(String::from_str(alloc, word)?)?;
    let order = order.split(|byte| *byte == b' ' || *byte == b'\n');
    for number in order.filter(|number| !number.is_empty()) {
        let number = str::from_utf8(number).unwrap_or("");
        words.push(String::from_str(alloc, number)?)?;
    }
    Ok(words)
}
