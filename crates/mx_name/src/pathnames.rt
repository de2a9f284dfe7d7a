//! Pathnames as written.
ghost use Rattle.std.specs.Prelude.{◌≡◌, ◌==◌, ◌≤◌, ◌++◌, ℕ, Some, None, IfOk, IfSome, OnErr, OnOk, length};
ghost use Rattle.std.specs.List.{slice_split};
ghost use Rattle.std.specs.Option.{is_none, option_map};
ghost use Rattle.mx_name.specs.Pathnames.{is_absolute, climbs, after_marks, names_of, first_fault, pathname_fault, pathname_reading};
ghost use Rattle.mx_name.specs.Parts.{names_in};
ghost use Rattle.mx_name.specs.Answers.{Answers};

use crate::cutting::first_part;
use crate::held::HeldText;
use crate::names::{NameError, is_name_byte, name_fault};
use std::alloc::{AllocError, Global};
use std::marker::Model;

/// A pathname as written: at most 168 bytes; names with `>` between them, behind one `>` (from the root), any number of
/// `<` (each goes up one directory), or nothing. It is seen as its text, which is held in the value where it has at most 30
/// bytes.
#[derive(Debug, Drop, PartialEq, Eq)]
pub struct Pathname {
    text: HeldText,
}

impl Model for Pathname {
    ghost use Rattle.std.specs.Prelude.{◌≡◌, List, ℕ, None};
    ghost use Rattle.mx_name.specs.Pathnames.{pathname_fault};

    ghost Value = { List ℕ };

    ghost view = { λ a. a.text };

    ghost inverse = { λ d. record { text = d } };

    ghost invariant = { λ a. pathname_fault a.text ≡ None };
}

impl Clone for Pathname {
    ghost is_clone = { λ a b. b ≡ a };

    fn clone(&self) -> Result<Pathname, AllocError> {
        let text = self.text.clone()?;
        Ok(Pathname { text })
    }
}

impl Pathname {
    /// The pathname that a text is. `TooLong` where the text exceeds 168 bytes; then the first bad name from the left
    /// answers, with the faults of an entry name. An empty text has one empty name.
    #[inline(always)]
    pub fn read(alloc: Global, text: &[u8]) -> Result<Pathname, NameError>
        ensures { Answers NameError.Memory (pathname_reading text.now) result }
    {
        if let Some(fault) = pathname_fault(text) {
            return Err(fault);
        }
        let text = HeldText::of_slice(alloc, text)?;
        Ok(Pathname { text })
    }

    /// The text as written.
    #[inline(always)]
    pub fn bytes(&self) -> &[u8]
        ensures value { result.now ≡ self.now }
        ensures pathname { pathname_fault self.now ≡ None }
    {
        self.text.bytes()
    }

    /// Appends the text; want of memory leaves the output as it was.
    #[inline(always)]
    pub fn append_to(&self, out: &mut Vec<u8>) -> Result<(), AllocError>
        ensures ok { OnOk result (out.new.items ≡ out.old.items ++ self.now) }
        ensures err { OnErr result (out.new.items ≡ out.old.items) }
    {
        self.text.append_to(out)
    }

    /// Another such pathname.
    pub fn copy(&self) -> Result<Pathname, AllocError>
        ensures { IfOk result (λ pathname. pathname ≡ self.now) }
    {
        self.clone()
    }
}

/// Whether a pathname starts at the root.
pub(crate) fn is_absolute(text: &[u8]) -> bool
    ensures { result ≡ is_absolute text.now }
{
    match text {
        [first, ..] => *first == b'>',
        [] => false,
    }
}

/// How many `<` a pathname begins with.
pub(crate) fn climbs(text: &[u8]) -> usize
    ensures count { result ≡ climbs text.now }
    ensures within { result ≤ length text.now }
{
    for (i, byte) in text.iter().enumerate() {
        if *byte != b'<' {
            return i;
        }
    }
    text.len()
}

/// What follows the marks at the front.
fn after_marks(text: &[u8]) -> &[u8]
    ensures value { result.now ≡ after_marks text.now }
    ensures within { length result.now ≤ length text.now }
{
    if is_absolute(text) {
        &text[1..]
    } else {
        let count = climbs(text);
        &text[count..]
    }
}

/// What stands for the names, from the first to the last; nothing where there are marks alone.
pub(crate) fn named(text: &[u8]) -> Option<&[u8]>
    ensures value { names_of text.now ≡ names_in (option_map (λ names. names.now) result) }
    ensures within { IfSome result (λ names. length names.now ≤ length text.now) }
{
    let names = after_marks(text);
    if !text.is_empty() && names.is_empty() {
        None
    } else {
        Some(names)
    }
}

fn pathname_fault(text: &[u8]) -> Option<NameError>
    ensures { result ≡ pathname_fault text.now }
{
    if text.len() > 168 {
        return Some(NameError::TooLong);
    }
    match named(text) {
        Some(names) => names_fault(names),
        None => None,
    }
}

/// The fault of the first bad name between separators.
fn names_fault(names: &[u8]) -> Option<NameError>
    ensures { result ≡ first_fault (slice_split (λ c. c == 62) names.now) }
{
    if are_names(names) {
        None
    } else {
        first_bad(names)
    }
}

/// Whether each part between separators is a name. Each byte is read once.
#[tactic(auto, using(crate::proofs::Passing::passes_all))]
fn are_names(names: &[u8]) -> bool
    ensures { result ≡ is_none (first_fault (slice_split (λ c. c == 62) names.now)) }
{
    // how many bytes of the name at work were read
    let mut size: usize = 0;
    for byte in names {
        if is_name_byte(*byte) {
            size += 1;
        } else if *byte == b'>' && 0 < size && size <= 32 {
            size = 0;
        } else {
            return false;
        }
    }
    0 < size && size <= 32
}

/// The fault of the first bad name, found name by name.
fn first_bad(names: &[u8]) -> Option<NameError>
    ensures { result ≡ first_fault (slice_split (λ c. c == 62) names.now) }
{
    let mut left = names;
    while let Some((name, rest)) = first_part(b'>', left) {
        if let Some(fault) = name_fault(name) {
            return Some(fault);
        }
        left = rest;
    }
    name_fault(left)
}
