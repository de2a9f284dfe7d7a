//! The fields of a line.

ghost use Rattle.std.specs.Prelude.{◌≡◌, ◌==◌, ◌∷◌, [], ℕ, IfOk};
ghost use Rattle.std.specs.Cmp.Lexicographic.{pointwise};
ghost use Rattle.std.specs.List.{find, slice_split};
ghost use Rattle.std.specs.Option.{option_map};
ghost use Rattle.mx_hier.specs.Refusals.{refusal_text};
ghost use Rattle.mx_name.specs.Names.{name_of};
ghost use Rattle.mx_name.specs.Pathnames.{is_absolute};
ghost use Rattle.mx_reader.specs.Fields.{address_at, all_names, amount_at, amount_then, brackets_then, denial_at, entry_number_at, fresh_at, known_at, labelled_then, map_then, modes_at, names_at, path_at, process_at, refusal_at, ring_number_at};
ghost use Rattle.mx_request.specs.Reading.{ring_at};
ghost use Rattle.mx_script.specs.Fields.{word_at};
ghost use Rattle.mx_sdw.specs.Denials.{denial_text};
ghost use Rattle.mx_sdw.specs.Octal.{octal_number};

use crate::cutting::after;
use crate::numbers;
use mx_acl::Modes;
use mx_aim::Class;
use mx_hier::{Names, Refusal};
use mx_name::{EntryName, NameError, Path, PathError, Pathname, cut};
use mx_request::{read_decimal, read_word_number};
use mx_sdw::{Brackets, Denial, Ring, Word, read_octal_number};
use std::alloc::{AllocError, Global};

/// How many there are: a decimal number up to 65535.
pub(crate) fn read_amount(text: &[u8]) -> Option<u16>
    ensures { result ≡ amount_at text.now }
{
    let n = read_decimal(text, 5)?;
    if n <= 65_535 { Some(n as u16) } else { None }
}

/// The number of a process, 0 to 15.
pub(crate) fn read_process(text: &[u8]) -> Option<u8>
    ensures { result ≡ process_at text.now }
{
    let p = read_decimal(text, 2)?;
    if p <= 15 { Some(p as u8) } else { None }
}

/// A segment number, up to octal 7777.
pub(crate) fn read_segno(text: &[u8]) -> Option<u16>
    ensures { result ≡ octal_number 4 text.now }
{
    let segno = read_octal_number(text, 4)?;
    Some(segno as u16)
}

/// A word of the machine, in octal.
pub(crate) fn read_word(text: &[u8]) -> Option<Word>
    ensures { result ≡ word_at text.now }
{
    Word::new(numbers::read_octal(12, text)?)
}

/// How many there are, and what stands behind the blank.
pub(crate) fn cut_amount(text: &[u8]) -> Option<(u16, &[u8])>
    ensures { option_map (λ p. (p.0, p.1.now)) result ≡ amount_then text.now }
{
    let (n, rest) = cut(b' ', text)?;
    let n = read_amount(n)?;
    Some((n, rest))
}

/// The same behind a label.
pub(crate) fn cut_labelled<'a>(label: &[u8], text: &'a [u8]) -> Option<(u16, &'a [u8])>
    ensures { option_map (λ p. (p.0, p.1.now)) result ≡ labelled_then label.now text.now }
{
    cut_amount(after(label, text)?)
}

/// `gate G definitions D links L ..`: how many of each, and what stands behind the blank.
pub(crate) fn cut_map(text: &[u8]) -> Option<((u16, u16, u16), &[u8])>
    ensures { option_map (λ p. (p.0, p.1.now)) result ≡ map_then text.now }
{
    let (gate, rest) = cut_labelled(b"gate ", text)?;
    let (definitions, rest) = cut_labelled(b"definitions ", rest)?;
    let (links, rest) = cut_labelled(b"links ", rest)?;
    Some(((gate, definitions, links), rest))
}

/// Three rings in order, and what stands behind the blank.
pub(crate) fn cut_brackets(text: &[u8]) -> Option<(Brackets, &[u8])>
    ensures { option_map (λ p. (p.0, p.1.now)) result ≡ brackets_then text.now }
{
    let (r1, rest) = cut(b' ', text)?;
    let (r2, rest) = cut(b' ', rest)?;
    let (r3, rest) = cut(b' ', rest)?;
    let brackets = Brackets::new(read_ring(r1)?, read_ring(r2)?, read_ring(r3)?)?;
    Some((brackets, rest))
}

/// A ring, one digit.
pub(crate) fn read_ring(text: &[u8]) -> Option<Ring>
    ensures { result ≡ ring_at text.now }
{
    match text {
        [digit] => ring_of(*digit),
        _ => None,
    }
}

fn ring_of(digit: u8) -> Option<Ring>
    ensures { result ≡ ring_at (digit ∷ []) }
{
    match digit {
        b'0'..=b'7' => Ring::new(digit - b'0'),
        _ => None,
    }
}

/// Modes, alone or with a class.
pub(crate) fn read_modes(text: &[u8]) -> Option<(Modes, Option<Class>)>
    ensures { result ≡ modes_at text.now }
{
    match cut(b' ', text) {
        Some((modes, rest)) => {
            let modes = Modes::read(modes)?;
            let class = Class::read(after(b"class ", rest)?)?;
            Some((modes, Some(class)))
        }
        None => {
            let modes = Modes::read(text)?;
            Some((modes, None))
        }
    }
}

fn read_fresh(text: &[u8]) -> Option<bool>
    ensures { result ≡ fresh_at text.now }
{
    if text == b"new".as_slice() {
        Some(true)
    } else if text == b"old".as_slice() {
        Some(false)
    } else {
        None
    }
}

/// Whether a segment has become known now, alone or with the linkage section that was made with it.
pub(crate) fn read_known(text: &[u8]) -> Option<(bool, Option<u16>)>
    ensures { result ≡ known_at text.now }
{
    match cut(b' ', text) {
        Some((fresh, rest)) => {
            let fresh = read_fresh(fresh)?;
            let segno = read_segno(after(b"linkage ", rest)?)?;
            Some((fresh, Some(segno)))
        }
        None => {
            let fresh = read_fresh(text)?;
            Some((fresh, None))
        }
    }
}

const REFUSALS: [Refusal; 26] = [
    Refusal::BadPath,
    Refusal::NoEntry,
    Refusal::NoInfo,
    Refusal::NotADir,
    Refusal::LinkLoop,
    Refusal::IncorrectAccess,
    Refusal::NameDup,
    Refusal::NotASeg,
    Refusal::DirNotEmpty,
    Refusal::DirFull,
    Refusal::BadLength,
    Refusal::BadBrackets,
    Refusal::InvalidMode,
    Refusal::AclFull,
    Refusal::NoAclEntry,
    Refusal::NoPages,
    Refusal::KstFull,
    Refusal::UnknownSegno,
    Refusal::NotLinkage,
    Refusal::SegmentNotFound,
    Refusal::NotObject,
    Refusal::NoDefinition,
    Refusal::NoProcess,
    Refusal::MailFull,
    Refusal::Ended,
    Refusal::BadClass,
];

/// The refusal of a name.
pub(crate) fn read_refusal(text: &[u8]) -> Option<Refusal>
    ensures { result ≡ refusal_at text.now }
{
    refusal_with(&REFUSALS, text)
}

// The first of these refusals that has the name.
fn refusal_with(all: &[Refusal], text: &[u8]) -> Option<Refusal>
    ensures { result ≡ find (λ why. pointwise ◌==◌ text.now (refusal_text why)) all.now }
{
    for why in all {
        if text == why.text().as_bytes() {
            return Some(*why);
        }
    }
    None
}

/// An absolute pathname, as its path.
pub(crate) fn read_path(alloc: Global, text: &[u8]) -> Result<Option<Path>, AllocError>
    ensures { IfOk result (λ path. path ≡ path_at text.now) }
{
    if !is_absolute(text) {
        return Ok(None);
    }
    let pathname = match Pathname::read(alloc, text) {
        Ok(pathname) => pathname,
        Err(NameError::Memory) => return Err(AllocError),
        Err(_) => return Ok(None),
    };
    match Path::resolve(alloc, &Path::root(alloc), &pathname) {
        Ok(path) => Ok(Some(path)),
        Err(PathError::Memory) => Err(AllocError),
        Err(_) => Ok(None),
    }
}

fn is_absolute(text: &[u8]) -> bool
    ensures { result ≡ is_absolute text.now }
{
    match text {
        [first, ..] => *first == b'>',
        [] => false,
    }
}

/// Names, each behind a blank.
pub(crate) fn read_names(alloc: Global, text: &[u8]) -> Result<Option<Names>, AllocError>
    ensures { IfOk result (λ names. names ≡ names_at text.now) }
{
    match text {
        [] => Ok(Some(Names::of(alloc, &[])?)),
        [b' ', rest @ ..] => {
            let Some(names) = all_names(alloc, rest)? else {
                return Ok(None);
            };
            Ok(Some(Names::of(alloc, names.as_slice())?))
        }
        _ => Ok(None),
    }
}

// Names with a blank between each two.
#[tactic(auto, using(crate::proofs::NameLaws::no_last))]
fn all_names(alloc: Global, text: &[u8]) -> Result<Option<Vec<EntryName>>, AllocError>
    ensures { IfOk result (λ names. option_map (λ names. names.items) names ≡ all_names (slice_split (λ c. c == 32) text.now)) }
{
    let mut names = Vec::new(alloc);
    let mut left = text;
    while let Some((field, rest)) = cut(b' ', left) {
        let Some(name) = read_name(field) else {
            return Ok(None);
        };
        names.push(name)?;
        left = rest;
    }
    let Some(last) = read_name(left) else {
        return Ok(None);
    };
    names.push(last)?;
    Ok(Some(names))
}

fn read_name(text: &[u8]) -> Option<EntryName>
    ensures { result ≡ name_of text.now }
{
    EntryName::read(text).ok()
}

/// A ring, or the number of a pointer register, in decimal.
pub(crate) fn read_ring_number(text: &[u8]) -> Option<Ring>
    ensures { result ≡ ring_number_at text.now }
{
    let n = read_decimal(text, 1)?;
    if n <= 7 { Ring::new(n as u8) } else { None }
}

/// The number of an entry, or a point: a decimal number up to 262143.
pub(crate) fn read_entry_number(text: &[u8]) -> Option<u32>
    ensures { result ≡ entry_number_at text.now }
{
    let n = numbers::read_decimal(6, text)?;
    if n <= 262_143 { Some(n as u32) } else { None }
}

/// `S|W`
pub(crate) fn read_address(text: &[u8]) -> Option<(u16, u16)>
    ensures { result ≡ address_at text.now }
{
    let (segno, word) = cut(b'|', text)?;
    let segno = read_segno(segno)?;
    let word = read_word_number(word)?;
    Some((segno, word))
}

const DENIALS: [Denial; 18] = [
    Denial::UnknownSegment,
    Denial::NoSegment,
    Denial::OutOfBounds,
    Denial::NotReadable,
    Denial::ReadBracket,
    Denial::NotWritable,
    Denial::WriteBracket,
    Denial::NotExecutable,
    Denial::ExecuteBracket,
    Denial::CallBracket,
    Denial::UpwardCall,
    Denial::Gate,
    Denial::RaisedRing,
    Denial::BadReturn,
    Denial::NotPointer,
    Denial::IndirectLimit,
    Denial::AimRead,
    Denial::AimWrite,
];

/// The denial of a name.
pub(crate) fn read_denial(text: &[u8]) -> Option<Denial>
    ensures { result ≡ denial_at text.now }
{
    denial_with(&DENIALS, text)
}

// The first of these denials that has the name.
fn denial_with(all: &[Denial], text: &[u8]) -> Option<Denial>
    ensures { result ≡ find (λ denial. pointwise ◌==◌ text.now (denial_text denial)) all.now }
{
    for denial in all {
        if text == denial.text().as_bytes() {
            return Some(*denial);
        }
    }
    None
}
