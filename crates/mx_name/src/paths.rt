//! Paths, and resolving pathnames.
ghost use Rattle.std.specs.Prelude.{◌≡◌, ◌==◌, ◌+◌, ◌^◌, ◌≤◌, ◌++◌, ℕ, List, [], ◌∷◌, None, IfOk, OnOk, OnErr, length, nat_lt};
ghost use Rattle.mx_name.specs.Pathnames.{climbs, names_of, pathname_fault};
ghost use Rattle.mx_name.specs.Paths.{IsPath, path_text, names_text, kept, resolved, resolve_fault, resolution};
ghost use Rattle.mx_name.specs.Answers.{Answers};
ghost use Rattle.mx_name.specs.declared.paths.PathError.TheVariants.{Memory};

use crate::names::EntryName;
use crate::pathnames::{Pathname, climbs, is_absolute, named};
use crate::routes::Route;
use mx_list::Sequence;
use std::alloc::{AllocError, Global};
use std::marker::Model;
use thiserror::Error;

/// Why a pathname has no path from its base. The variants are tested in this order.
#[derive(Clone, Copy, Debug, PartialEq, Eq, Error)]
pub enum PathError {
    /// It has more `<` than the base has names.
    #[error("above the root")]
    AboveRoot,
    /// The path, written with `>` before each name, exceeds 168 bytes.
    #[error("path too long")]
    TooLong,
    /// Memory was wanting; there is such a path.
    #[error("out of memory")]
    Memory,
}

impl From<AllocError> for PathError {
    ghost from_gives = { λ _ e. e ≡ Memory };

    fn from(_error: AllocError) -> PathError {
        PathError::Memory
    }
}

/// The names from the root down to an entry; none for the root itself. Written with `>` before each name it has at most
/// 168 bytes.
#[derive(Debug, Drop, PartialEq, Eq)]
pub struct Path {
    names: Sequence<EntryName>,
}

impl Model for Path {
    ghost use Rattle.std.specs.Prelude.{List, ℕ};
    ghost use Rattle.mx_name.specs.Paths.{IsPath};

    ghost Value = { List (List ℕ) };

    ghost view = { λ a. a.names };

    ghost inverse = { λ d. record { names = d } };

    ghost invariant = { λ a. IsPath a.names };
}

impl Clone for Path {
    ghost is_clone = { λ a b. b ≡ a };

    fn clone(&self) -> Result<Path, AllocError> {
        let names = self.names.clone()?;
        Ok(Path { names })
    }
}

impl Path {
    /// The path of the root. Takes no memory yet.
    pub fn root(alloc: Global) -> Path
        ensures { result ≡ [] }
    {
        Path {
            names: Sequence::new(alloc),
        }
    }

    /// The path that a pathname stands for, from a base: an absolute pathname's names; for a relative one as many last
    /// names as it has `<` are taken off the base, and its own are appended. `AboveRoot` exactly where there are more
    /// `<` than names in the base, then `TooLong` exactly where the path's text exceeds 168 bytes.
    pub fn resolve(alloc: Global, base: &Path, name: &Pathname) -> Result<Path, PathError>
        ensures { Answers PathError.Memory (resolution base.now name.now) result }
    {
        let route = Route::resolve(base, name)?;
        let names = Sequence::of(route.to_vec(alloc)?);
        Ok(Path { names })
    }

    /// The names, from the root down.
    pub fn names(&self) -> &[EntryName]
        ensures value { result.now ≡ self.now }
        ensures path { IsPath self.now }
    {
        self.names.items()
    }

    /// Appends the path's text: `>` before each name, and `>` alone for the root; want of memory leaves the output as
    /// it was. The text is a pathname that stands for this path, from any base.
    pub fn append_to(&self, out: &mut Vec<u8>) -> Result<(), AllocError>
        ensures ok { OnOk result (out.new.items ≡ out.old.items ++ path_text self.now) }
        ensures err { OnErr result (out.new.items ≡ out.old.items) }
        ensures pathname { pathname_fault (path_text self.now) ≡ None }
        ensures again { (base : List (List ℕ)) → resolved base (path_text self.now) ≡ self.now }
    {
        append_path(out, self.names.items())
    }

    /// Another such path.
    pub fn copy(&self) -> Result<Path, AllocError>
        ensures { IfOk result (λ path. path ≡ self.now) }
    {
        self.clone()
    }
}

/// The first fault of a pathname from a base, if it has one.
pub(crate) fn resolve_fault(base: &[EntryName], text: &[u8]) -> Option<PathError>
    requires { IsPath base.now }
    ensures { result ≡ resolve_fault base.now text.now }
{
    if climbs(text) > base.len() {
        Some(PathError::AboveRoot)
    } else if is_too_long(base, text) {
        Some(PathError::TooLong)
    } else {
        None
    }
}

/// Whether the resolved path's text exceeds 168 bytes.
fn is_too_long(base: &[EntryName], text: &[u8]) -> bool
    requires base { IsPath base.now }
    requires below { climbs text.now ≤ length base.now }
    ensures { result ≡ nat_lt 168 (length (path_text (resolved base.now text.now))) }
{
    let length = names_length(kept(base, text)) + added_length(text);
    length > 168
}

/// What is left of the base.
pub(crate) fn kept<'a>(base: &'a [EntryName], text: &[u8]) -> &'a [EntryName]
    requires { climbs text.now ≤ length base.now }
    ensures { result.now ≡ kept base.now text.now }
{
    if is_absolute(text) {
        &base[..0]
    } else {
        &base[..base.len() - climbs(text)]
    }
}

/// How many bytes the names take with `>` before each.
fn names_length(names: &[EntryName]) -> usize
    requires { length (names_text names.now) ≤ 168 }
    ensures value { result ≡ length (names_text names.now) }
    ensures bound { result ≤ 168 }
{
    let mut length = 0;
    for name in names {
        length += 1 + name.bytes().len();
    }
    length
}

/// The same of the names of a pathname.
#[tactic(auto, using(crate::proofs::PathLaws::split_length))]
fn added_length(text: &[u8]) -> usize
    ensures value { result ≡ length (names_text (names_of text.now)) }
    ensures bound { result ≤ 2 ^ 63 }
{
    match named(text) {
        Some(names) => 1 + names.len(),
        None => 0,
    }
}

fn append_path(out: &mut Vec<u8>, names: &[EntryName]) -> Result<(), AllocError>
    ensures ok { OnOk result (out.new.items ≡ out.old.items ++ path_text names.now) }
    ensures err { OnErr result (out.new.items ≡ out.old.items) }
{
    let length = out.len();
    match push_path(out, names) {
        Ok(()) => Ok(()),
        Err(error) => {
            out.truncate(length);
            Err(error)
        }
    }
}

fn push_path(out: &mut Vec<u8>, names: &[EntryName]) -> Result<(), AllocError>
    ensures ok { OnOk result (out.new.items ≡ out.old.items ++ path_text names.now) }
    ensures err { OnErr result ((more : List ℕ) × (out.new.items ≡ out.old.items ++ more)) }
{
    match names {
        [] => out.push(b'>')?,
        [_, ..] => push_names(out, names)?,
    }
    Ok(())
}

fn push_names(out: &mut Vec<u8>, names: &[EntryName]) -> Result<(), AllocError>
    ensures ok { OnOk result (out.new.items ≡ out.old.items ++ names_text names.now) }
    ensures err { OnErr result ((more : List ℕ) × (out.new.items ≡ out.old.items ++ more)) }
{
    for name in names {
        out.push(b'>')?;
        out.extend_from_slice(name.bytes())?;
    }
    Ok(())
}
