//! What is the same in all runs of a session: the setup's part, and the numbers of each process's lines, in order.

use std::alloc::{AllocError, Global};

/// Whether two run texts have the same outline.
pub fn share_outline(alloc: Global, text: &[u8], other: &[u8]) -> Result<bool, AllocError> {
    let one = outline(alloc, text)?;
    let another = outline(alloc, other)?;
    Ok(one.as_slice() == another.as_slice())
}

// The outline of a run text: the lines of the setup's part whole, and of the other parts which process it is of and the
// numbers of its lines.
fn outline(alloc: Global, text: &[u8]) -> Result<Vec<u8>, AllocError> {
    let mut kept = Vec::new(alloc);
    let mut is_setup = false;
    for line in text.split(|byte| *byte == b'\n') {
        if line.starts_with(b"process ") {
            is_setup = line == b"process 0".as_slice();
            add(&mut kept, line)?;
        } else if is_setup {
            add(&mut kept, line)?;
        } else if line.starts_with(b"line ") {
            add(&mut kept, second_word(line))?;
        }
    }
    Ok(kept)
}

// A line and its end.
fn add(kept: &mut Vec<u8>, line: &[u8]) -> Result<(), AllocError> {
    kept.extend_from_slice(line)?;
    kept.push(b'\n')?;
    Ok(())
}

// The second word of a line, or the line where it has one word alone.
fn second_word(line: &[u8]) -> &[u8] {
    line.split(|byte| *byte == b' ').nth(1).unwrap_or(line)
}
