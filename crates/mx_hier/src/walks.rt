//! The walk of a path.

ghost use Rattle.std.specs.Prelude.{◌≡◌, ◌++◌, [], IfOk};
ghost use Rattle.mx_hier.specs.Rules.{Tells, TellsFirst};
ghost use Rattle.mx_hier.specs.Stops.{stop};
ghost use Rattle.mx_hier.specs.Walks.{Reached, along, ended, walk, told, reached, resolved, entry};
ghost use Rattle.mx_hier.specs.Who.{subject, caller};

use crate::branches::Directory;
use crate::callers::Who;
use crate::hier::Hier;
use crate::refusals::{HierError, Refusal};
use mx_name::{EntryName, Path, PathError, Pathname, Route};
use std::alloc::{AllocError, Global};

/// Where names have led: to an entry's uid; to a link, met in a directory, with the names after it; or to a refusal
/// that is to be said at a directory.
#[derive(Drop)]
pub(crate) enum Along<'a> {
    Reached(u32),
    Linked {
        dir: Option<&'a Directory>,
        target: &'a [EntryName],
        rest: Route<'a>,
    },
    Refused(Refusal, Option<&'a Directory>),
}

impl Hier {
    /// The uid of what a pathname leads to. `follow` is whether a link at the last name is followed. `BadPath` where
    /// the pathname has no path; what the walk says (`NoEntry`, `NotADir`, `LinkLoop`) is said at a directory: a
    /// caller without s on it is told `NoInfo` instead.
    pub fn entry(
        &self,
        alloc: Global,
        who: &Who,
        pathname: &Pathname,
        follow: bool,
    ) -> Result<u32, HierError>
        ensures answer { Tells (entry self.now (caller who.now) pathname.now follow) result }
        ensures told { TellsFirst (resolved (caller who.now) pathname.now) result }
    {
        let route = route(who, pathname)?;
        self.reached(alloc, who, follow, route)
    }

    /// What a path from the root leads to: ten links may be followed.
    pub(crate) fn reached(
        &self,
        alloc: Global,
        who: &Who,
        follow: bool,
        path: Route,
    ) -> Result<u32, HierError>
        ensures { Tells (reached self.now (subject who.now) follow path.entry) result }
    {
        let uid = self.walk(alloc, 10, who, follow, 0, path)??;
        Ok(uid)
    }

    /// The walk of names from a directory, where so many links may be followed.
    #[tactic(auto, using(crate::proofs::WalkLaws::walk_refused))]
    pub(crate) fn walk(
        &self,
        alloc: Global,
        left: u32,
        who: &Who,
        follow: bool,
        from: u32,
        names: Route,
    ) -> Result<Result<u32, Refusal>, AllocError>
        ensures { IfOk result (λ uid. uid ≡ told (subject who.now) (walk left self.now follow from names.entry)) }
    {
        match self.along(follow, from, names) {
            Along::Reached(uid) => Ok(Ok(uid)),
            Along::Refused(why, dir) => Ok(Err(who.told(why, dir))),
            Along::Linked { dir, target, rest } => {
                if left == 0 {
                    return Ok(Err(who.told(Refusal::LinkLoop, dir)));
                }
                let path = joined(alloc, target, rest)?;
                self.walk(alloc, left - 1, who, follow, 0, Route::of(path.as_slice()))
            }
        }
    }

    /// The names one after the other, from a directory to the first link that is to be followed.
    fn along<'a>(&'a self, follow: bool, from: u32, names: Route<'a>) -> Along<'a>
        ensures { stop result ≡ along self.now follow from names.entry }
    {
        let mut at = from;
        let mut rest = names;
        while let Some((name, after)) = rest.first() {
            if let Some(target) = self.target_at(at) {
                return Along::Linked {
                    dir: self.holding(at),
                    target: target.names(),
                    rest,
                };
            }
            let Some(directory) = self.directory_at(at) else {
                return Along::Refused(Refusal::NotADir, self.holding(at));
            };
            let Some(uid) = self.tables.found_in(at, &name) else {
                return Along::Refused(Refusal::NoEntry, Some(directory));
            };
            at = uid;
            rest = after;
        }
        self.ended(follow, at, rest)
    }

    /// What is reached after the last name: a link there is followed only if it is asked for.
    fn ended<'a>(&'a self, follow: bool, at: u32, rest: Route<'a>) -> Along<'a>
        requires { rest ≡ [] }
        ensures { stop result ≡ ended self.now follow (Reached at) }
    {
        match self.target_at(at) {
            Some(target) if follow => Along::Linked {
                dir: self.holding(at),
                target: target.names(),
                rest,
            },
            Some(_) | None => Along::Reached(at),
        }
    }
}

/// The path of a pathname in place, from the caller's working directory. `BadPath` where it has none.
pub(crate) fn route<'a>(who: &Who<'a>, pathname: &'a Pathname) -> Result<Route<'a>, Refusal>
    ensures { result ≡ resolved (caller who.now) pathname.now }
{
    match Route::resolve(who.base, pathname) {
        Ok(route) => Ok(route),
        Err(_) => Err(Refusal::BadPath),
    }
}

/// The same path, where it is kept.
pub(crate) fn resolved(alloc: Global, who: &Who, pathname: &Pathname) -> Result<Path, HierError>
    ensures answer { Tells (resolved (caller who.now) pathname.now) result }
    ensures told { TellsFirst (resolved (caller who.now) pathname.now) result }
{
    match Path::resolve(alloc, who.base, pathname) {
        Ok(path) => Ok(path),
        Err(PathError::AboveRoot) => Err(HierError::Refused(Refusal::BadPath)),
        Err(PathError::TooLong) => Err(HierError::Refused(Refusal::BadPath)),
        Err(PathError::Memory) => Err(HierError::Memory),
    }
}

/// The names of a link's target, and then those that are left.
fn joined(alloc: Global, target: &[EntryName], rest: Route) -> Result<Vec<EntryName>, AllocError>
    ensures { IfOk result (λ path. path.items ≡ target.now ++ rest.entry) }
{
    let mut path = target.to_vec(alloc)?;
    rest.append_to(&mut path)?;
    Ok(path)
}
