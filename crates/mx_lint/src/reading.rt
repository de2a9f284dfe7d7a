//! Readers of single fields.

ghost use Rattle.std.specs.Prelude.{◌≡◌, IfOk, MatchOption, None, Some, is_some};
ghost use Rattle.mx_name.specs.Names.{name_of};
ghost use Rattle.mx_name.specs.Pathnames.{is_absolute, pathname_of};
ghost use Rattle.mx_request.specs.Reading.{directory_at, ring_at, rule_at};
ghost use Rattle.mx_request.specs.ReadingObjects.{definition_at, object_link_at};
ghost use Rattle.mx_request.specs.WordNumbers.{word_number_of};
ghost use Rattle.mx_script.specs.Fronts.{after};
ghost use Rattle.mx_script.specs.Fields.{base_at, indirect_at, offset_at, operand_at};
ghost use Rattle.mx_lint.specs.Fields.{is_limit_text, is_receiver_text, is_definition_text, is_object_link_text, is_version_text};

use mx_name::{EntryName, NameError, Path, PathError, Pathname, cut};
use mx_request::{read_decimal, read_word_number};
use mx_sdw::read_octal_number;
use std::alloc::{AllocError, Global};

pub(crate) fn is_pathname(alloc: Global, text: &[u8]) -> Result<bool, AllocError>
    ensures { IfOk result (λ reads. reads ≡ is_some (pathname_of text.now)) }
{
    match Pathname::read(alloc, text) {
        Ok(_) => Ok(true),
        Err(NameError::Memory) => Err(AllocError),
        Err(_) => Ok(false),
    }
}

/// A rule of `set_rules`.
pub(crate) fn is_rule(alloc: Global, text: &[u8]) -> Result<bool, AllocError>
    ensures { IfOk result (λ reads. reads ≡ is_some (rule_at text.now)) }
{
    if text == b"initiated_segments".as_slice()
        || text == b"referencing_dir".as_slice()
        || text == b"working_dir".as_slice()
    {
        Ok(true)
    } else {
        is_directory(alloc, text)
    }
}

// A pathname from the root.
fn is_directory(alloc: Global, text: &[u8]) -> Result<bool, AllocError>
    ensures { IfOk result (λ reads. reads ≡ is_some (directory_at text.now)) }
{
    if !text.starts_with(b">") {
        return Ok(false);
    }
    let pathname = match Pathname::read(alloc, text) {
        Ok(pathname) => pathname,
        Err(NameError::Memory) => return Err(AllocError),
        Err(_) => return Ok(false),
    };
    match Path::resolve(alloc, &Path::root(alloc), &pathname) {
        Ok(_) => Ok(true),
        Err(PathError::Memory) => Err(AllocError),
        Err(_) => Ok(false),
    }
}

/// One digit from 0 to 7.
pub(crate) fn is_ring(text: &[u8]) -> bool
    ensures { result ≡ is_some (ring_at text.now) }
{
    match text {
        [digit] => b'0' <= *digit && *digit <= b'7',
        _ => false,
    }
}

/// A version.
pub(crate) fn is_version(text: &[u8]) -> bool
    ensures { result ≡ is_version_text text.now }
{
    text == b"1".as_slice()
        || text == b"2".as_slice()
        || text == b"3".as_slice()
        || text == b"4".as_slice()
}

/// A limit of the journal.
pub(crate) fn is_limit(text: &[u8]) -> bool
    ensures { result ≡ is_limit_text text.now }
{
    match read_decimal(text, 6) {
        Some(limit) => 1 <= limit && limit <= 262_143,
        None => false,
    }
}

/// A process that may be woken up.
pub(crate) fn is_receiver(text: &[u8]) -> bool
    ensures { result ≡ is_receiver_text text.now }
{
    match read_decimal(text, 2) {
        Some(p) => 1 <= p && p <= 99,
        None => false,
    }
}

/// `d:SYMBOL:W`.
pub(crate) fn is_definition(text: &[u8]) -> bool
    ensures { result ≡ is_definition_text text.now }
{
    match after(b"d:", text) {
        Some(said) => defines(said),
        None => false,
    }
}

// `SYMBOL:W`
fn defines(text: &[u8]) -> bool
    ensures { result ≡ is_some (definition_at text.now) }
{
    match cut(b':', text) {
        Some((symbol, word)) => is_name(symbol) && is_word_number(word),
        None => false,
    }
}

/// `l:NAME$SYMBOL`.
pub(crate) fn is_object_link(text: &[u8]) -> bool
    ensures { result ≡ is_object_link_text text.now }
{
    match after(b"l:", text) {
        Some(said) => links(said),
        None => false,
    }
}

// `NAME$SYMBOL`
fn links(text: &[u8]) -> bool
    ensures { result ≡ is_some (object_link_at text.now) }
{
    match cut(b'$', text) {
        Some((name, symbol)) => is_name(name) && is_name(symbol),
        None => false,
    }
}

fn is_name(text: &[u8]) -> bool
    ensures { result ≡ is_some (name_of text.now) }
{
    EntryName::read(text).is_ok()
}

/// `S|W` or `prN|W`, each with `,*` or without.
pub(crate) fn is_operand(text: &[u8]) -> bool
    ensures { result ≡ is_some (operand_at text.now) }
{
    match cut(b'|', text) {
        Some((base, offset)) => is_base(base) && is_offset(offset),
        None => false,
    }
}

#[tactic(auto, unfolding(mx_script::specs::Fields::base_at))]
fn is_base(text: &[u8]) -> bool
    ensures { result ≡ is_some (base_at text.now) }
{
    if let Some(register) = after(b"pr", text) {
        read_octal_number(register, 1).is_some()
    } else {
        read_octal_number(text, 4).is_some()
    }
}

/// What follows `front` in a text that begins with it.
pub(crate) fn after<'a>(front: &[u8], text: &'a [u8]) -> Option<&'a [u8]>
    ensures { MatchOption result (after front.now text.now ≡ None) (λ rest. after front.now text.now ≡ Some rest.now) }
{
    text.strip_prefix(front)
}

fn is_offset(text: &[u8]) -> bool
    ensures { result ≡ is_some (offset_at text.now) }
{
    match read_word_number(text) {
        Some(_) => true,
        None => is_indirect(text),
    }
}

fn is_indirect(text: &[u8]) -> bool
    ensures { result ≡ is_some (indirect_at text.now) }
{
    match cut(b',', text) {
        Some((word, star)) => is_word_number(word) && star == b"*".as_slice(),
        None => false,
    }
}

fn is_word_number(text: &[u8]) -> bool
    ensures { result ≡ is_some (word_number_of text.now) }
{
    read_word_number(text).is_some()
}
