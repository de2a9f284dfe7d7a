//! Routes: paths in place, which take no memory.
ghost use Rattle.std.specs.Prelude.{◌≡◌, ◌==◌, ◌^◌, ◌≤◌, ◌∷◌, ◌++◌, [], None, IfOk, OnOk, MatchOption};
ghost use Rattle.std.specs.List.{slice_split};
ghost use Rattle.std.specs.Option.{option_map};
ghost use Rattle.mx_name.specs.Pathnames.{first_fault};
ghost use Rattle.mx_name.specs.Paths.{IsPath, resolution};
ghost use Rattle.mx_name.specs.Parts.{names_in};

use crate::borrowed::BorrowedName;
use crate::cutting::{first_part, last_part};
use crate::names::EntryName;
use crate::pathnames::{Pathname, named};
use crate::paths::{Path, PathError, kept, resolve_fault};
use std::alloc::{AllocError, Global};
use std::marker::Model;

/// The path that a pathname stands for, from a base, in place: the names of the base that are kept, and then those of
/// the pathname's text. It is seen as the list of its names, and takes no memory.
#[derive(Drop)]
pub struct Route<'a> {
    base: &'a [EntryName],
    text: Option<&'a [u8]>,
}

impl<'a> Model for Route<'a> {
    ghost use Rattle.std.specs.Prelude.{◌≡◌, ◌++◌, List, ℕ, None};
    ghost use Rattle.std.specs.Option.{option_map};
    ghost use Rattle.mx_name.specs.Pathnames.{first_fault};
    ghost use Rattle.mx_name.specs.Parts.{names_in};

    ghost Value = { List (List ℕ) };

    ghost view = { λ a. a.base.now ++ names_in (option_map (λ text. text.now) a.text) };

    ghost invariant = { λ a. first_fault (names_in (option_map (λ text. text.now) a.text)) ≡ None };
}

impl<'a> Route<'a> {
    /// The path that a pathname stands for, from a base, with the faults of `Path::resolve`; memory is never wanting.
    #[inline(always)]
    pub fn resolve(base: &'a Path, name: &'a Pathname) -> Result<Route<'a>, PathError>
        ensures value { result ≡ resolution base.now name.now }
        ensures path { IfOk result (λ route. IsPath route) }
    {
        let (base, text) = (base.names(), name.bytes());
        match resolve_fault(base, text) {
            Some(fault) => Err(fault),
            None => Ok(Route {
                base: kept(base, text),
                text: named(text),
            }),
        }
    }

    /// The path of these names.
    pub fn of(names: &'a [EntryName]) -> Route<'a>
        ensures { result ≡ names.now }
    {
        Route {
            base: names,
            text: None,
        }
    }

    /// The path of the entry that has a name in the directory of a path.
    #[tactic(auto, using(crate::proofs::TextLaws::name_alone))]
    pub fn of_entry(dir: &'a Path, name: &'a EntryName) -> Route<'a>
        ensures { result ≡ dir.now ++ name.now ∷ [] }
    {
        Route {
            base: dir.names(),
            text: Some(name.bytes()),
        }
    }

    /// The first name, and the route of the others; none where there are no names.
    #[inline(always)]
    pub fn first(&self) -> Option<(BorrowedName<'a>, Route<'a>)>
        ensures { MatchOption result (self.now ≡ []) (λ first. self.now ≡ first.0 ∷ first.1) }
    {
        if let [name, base @ ..] = self.base {
            let text = self.text;
            return Some((name.borrowed(), Route { base, text }));
        }
        let (name, text) = first_name(self.text?);
        Some((name, Route { base: &[], text }))
    }

    /// The route of all names but the last, and the last; none where there are no names.
    #[tactic(auto, using(crate::proofs::PathLaws::fit_front))]
    pub fn split_last(&self) -> Option<(Route<'a>, EntryName)>
        ensures { MatchOption result (self.now ≡ []) (λ last. self.now ≡ last.0 ++ last.1 ∷ []) }
    {
        match self.text {
            Some(text) => {
                let (text, name) = last_name(text);
                let base = self.base;
                Some((Route { base, text }, name))
            }
            None => match self.base {
                [base @ .., name] => Some((Route { base, text: None }, *name)),
                [] => None,
            },
        }
    }

    /// Appends the names.
    pub fn append_to(&self, path: &mut Vec<EntryName>) -> Result<(), AllocError>
        ensures { OnOk result (path.new.items ≡ path.old.items ++ self.now) }
    {
        path.extend_from_slice(self.base)?;
        if let Some(text) = self.text {
            add_names(path, text)?;
        }
        Ok(())
    }

    /// The names, in one piece of memory: there is room for names of three bytes, and more names than that make it
    /// grow.
    pub(crate) fn to_vec(&self, alloc: Global) -> Result<Vec<EntryName>, AllocError>
        ensures { IfOk result (λ names. names.items ≡ self.now) }
    {
        let base = self.base;
        let mut names = Vec::with_capacity(alloc, base.len() + room(self.text))?;
        self.append_to(&mut names)?;
        Ok(names)
    }
}

/// How many names of three bytes a text has room for.
fn room(text: Option<&[u8]>) -> usize
    ensures { result ≤ 2 ^ 62 }
{
    match text {
        Some(text) => text.len() / 4 + 1,
        None => 0,
    }
}

/// The first name of a text that has no bad name, and the text of the others.
#[inline(always)]
fn first_name(text: &[u8]) -> (BorrowedName<'_>, Option<&[u8]>)
    requires { first_fault (slice_split (λ c. c == 62) text.now) ≡ None }
    ensures { slice_split (λ c. c == 62) text.now
        ≡ result.0 ∷ names_in (option_map (λ rest. rest.now) result.1) }
{
    match first_part(b'>', text) {
        Some((name, rest)) => (BorrowedName::of(name), Some(rest)),
        None => (BorrowedName::of(text), None),
    }
}

/// The text of all names but the last, of a text that has no bad name, and the last.
#[tactic(auto, using(crate::proofs::PathLaws::fit_last))]
fn last_name(text: &[u8]) -> (Option<&[u8]>, EntryName)
    requires { first_fault (slice_split (λ c. c == 62) text.now) ≡ None }
    ensures { slice_split (λ c. c == 62) text.now
        ≡ names_in (option_map (λ front. front.now) result.0) ++ result.1 ∷ [] }
{
    match last_part(b'>', text) {
        Some((front, name)) => (Some(front), EntryName::of(name)),
        None => (None, EntryName::of(text)),
    }
}

/// Appends the names of a text that has no bad name.
fn add_names(names: &mut Vec<EntryName>, text: &[u8]) -> Result<(), AllocError>
    requires { first_fault (slice_split (λ c. c == 62) text.now) ≡ None }
    ensures { OnOk result (names.new.items ≡ names.old.items ++ slice_split (λ c. c == 62) text.now) }
{
    let mut left = text;
    while let Some((name, rest)) = first_part(b'>', left) {
        names.push(EntryName::of(name))?;
        left = rest;
    }
    names.push(EntryName::of(left))?;
    Ok(())
}
