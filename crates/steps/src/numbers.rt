//! The numbers, rings and words of a line: numbers of segments and of words and the words are octal, all others decimal.

use mx_sdw::{Brackets, Desc, Ring, Word, read_octal_number};

/// The number of a segment, of at most four octal digits.
pub fn segno(text: &str) -> Option<u16> {
    Some(read_octal_number(text.as_bytes(), 4)? as u16)
}

/// `S|W`: a word of a segment.
pub fn address(text: &str) -> Option<(u16, u16)> {
    let (number, word) = text.split_once('|')?;
    let word = read_octal_number(word.as_bytes(), 5)? as u16;
    Some((segno(number)?, word))
}

/// A word, of at most twelve octal digits.
pub fn value(text: &str) -> Option<Word> {
    Word::new(read_octal_number(text.as_bytes(), 12)?)
}

/// A ring, 0 to 7.
pub fn ring(text: &str) -> Option<Ring> {
    Ring::new(byte(text)?)
}

/// The number of a process, or another number below 256.
pub fn byte(text: &str) -> Option<u8> {
    text.parse::<u8>().ok()
}

/// The number of a page, or another number below 65,536.
pub fn short(text: &str) -> Option<u16> {
    text.parse::<u16>().ok()
}

/// The number of an entry or of a cell.
pub fn number(text: &str) -> Option<u32> {
    text.parse::<u32>().ok()
}

/// `unknown`, `gone`, or `MODES R1 R2 R3 gate GATE page PAGE words BOUND`.
pub fn descriptor(words: &[&str]) -> Option<Desc> {
    match words {
        ["unknown"] => Some(Desc::unknown()),
        ["gone"] => Some(Desc::gone()),
        [modes, r1, r2, r3, placed @ ..] => segment(modes, brackets(r1, r2, r3)?, placed),
        _ => None,
    }
}

fn brackets(r1: &str, r2: &str, r3: &str) -> Option<Brackets> {
    Brackets::new(ring(r1)?, ring(r2)?, ring(r3)?)
}

fn segment(modes: &str, brackets: Brackets, placed: &[&str]) -> Option<Desc> {
    let (r, e, w) = flags(modes)?;
    match placed {
        ["gate", gate, "page", page, "words", bound] => Some(Desc::segment(
            brackets,
            r,
            e,
            w,
            short(gate)?,
            short(page)?,
            short(bound)?,
        )),
        _ => None,
    }
}

// `null`, or letters of `rew` in this order.
fn flags(text: &str) -> Option<(bool, bool, bool)> {
    match text {
        "null" => Some((false, false, false)),
        "r" => Some((true, false, false)),
        "e" => Some((false, true, false)),
        "w" => Some((false, false, true)),
        "re" => Some((true, true, false)),
        "rw" => Some((true, false, true)),
        "ew" => Some((false, true, true)),
        "rew" => Some((true, true, true)),
        _ => None,
    }
}
