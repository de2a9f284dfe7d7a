//! The walk of a path, name by name, as the definition has it.

ghost use Rattle.std.specs.Prelude.{◌≡◌, ◌++◌, ◌∷◌, [], IfOk};
ghost use Rattle.mx_hier.specs.Rules.{Tells, TellsFirst};
ghost use Rattle.mx_hier.specs.Walks.{Reached, step, ended, along, walk, told, reached, resolved, entry};
ghost use Rattle.mx_hier.specs.Who.{subject, caller};
ghost use Rattle.mx_fresh.specs.Stops.{stop_of};

use crate::access::say;
use crate::branches::Directory;
use crate::hierarchy::{FreshHierarchy, uid_in};
use mx_hier::{HierError, Refusal, Who};
use mx_name::{EntryName, Path, PathError, Pathname};
use std::alloc::{AllocError, Global};

/// Where names have led: to an entry's uid; to a link that is followed, met in a directory, with the path that takes its
/// place; or to a refusal that is to be said at a directory.
#[derive(Drop)]
pub(crate) enum Stop<'a> {
    Reached(u32),
    Linked(Option<&'a Directory>, Vec<EntryName>),
    Refused(Refusal, Option<&'a Directory>),
}

impl FreshHierarchy {
    /// The uid of what a pathname leads to; a link at the last name is followed where `follow` says so.
    pub(crate) fn entry(
        &self,
        alloc: Global,
        who: &Who,
        pathname: &Pathname,
        follow: bool,
    ) -> Result<u32, HierError>
        ensures answer { Tells (entry self.now (caller who.now) pathname.now follow) result }
        ensures told { TellsFirst (resolved (caller who.now) pathname.now) result }
    {
        let path = resolved(alloc, who, pathname)?;
        self.reached(alloc, who, follow, path.names())
    }

    /// What a path from the root leads to: ten links may be followed.
    pub(crate) fn reached(
        &self,
        alloc: Global,
        who: &Who,
        follow: bool,
        path: &[EntryName],
    ) -> Result<u32, HierError>
        ensures { Tells (reached self.now (subject who.now) follow path.now) result }
    {
        let uid = self.walk(alloc, 10, who, follow, 0, path)??;
        Ok(uid)
    }

    /// The walk of names from a directory, where so many links may be followed. With each it begins at the root again.
    #[tactic(auto, using(mx_hier::proofs::WalkLaws::walk_refused))]
    pub(crate) fn walk(
        &self,
        alloc: Global,
        left: u32,
        who: &Who,
        follow: bool,
        from: u32,
        names: &[EntryName],
    ) -> Result<Result<u32, Refusal>, AllocError>
        ensures { IfOk result (λ uid. uid ≡ told (subject who.now) (walk left self.now follow from names.now)) }
    {
        match self.along(alloc, follow, from, names)? {
            Stop::Reached(uid) => Ok(Ok(uid)),
            Stop::Refused(why, dir) => Ok(Err(say(who, why, dir))),
            Stop::Linked(dir, path) => {
                if left == 0 {
                    return Ok(Err(say(who, Refusal::LinkLoop, dir)));
                }
                self.walk(alloc, left - 1, who, follow, 0, path.as_slice())
            }
        }
    }

    /// The names one after the other, from a directory.
    fn along(
        &self,
        alloc: Global,
        follow: bool,
        from: u32,
        names: &[EntryName],
    ) -> Result<Stop<'_>, AllocError>
        ensures { IfOk result (λ stop. stop_of stop ≡ along self.now follow from names.now) }
    {
        let mut stop = Stop::Reached(from);
        for name in names {
            stop = self.step(alloc, stop, name)?;
        }
        self.ended(alloc, follow, stop)
    }

    /// One name more.
    fn step<'a>(
        &'a self,
        alloc: Global,
        stop: Stop<'a>,
        name: &EntryName,
    ) -> Result<Stop<'a>, AllocError>
        ensures { IfOk result (λ next. stop_of next ≡ step self.now (stop_of stop.entry) name.now) }
    {
        match stop {
            Stop::Reached(uid) => self.enter(alloc, uid, name),
            Stop::Linked(dir, path) => {
                let path = with_name(path, name)?;
                Ok(Stop::Linked(dir, path))
            }
            Stop::Refused(why, dir) => Ok(Stop::Refused(why, dir)),
        }
    }

    /// One name more from an entry.
    fn enter(&self, alloc: Global, uid: u32, name: &EntryName) -> Result<Stop<'_>, AllocError>
        ensures { IfOk result (λ next. stop_of next ≡ step self.now (Reached uid) name.now) }
    {
        if let Some(target) = self.target_at(uid) {
            let path = joined(alloc, target.names(), name)?;
            return Ok(Stop::Linked(self.holding(uid), path));
        }
        let Some(directory) = self.directory_at(uid) else {
            return Ok(Stop::Refused(Refusal::NotADir, self.holding(uid)));
        };
        match uid_in(self.branches.items(), uid, name) {
            Some(found) => Ok(Stop::Reached(found)),
            None => Ok(Stop::Refused(Refusal::NoEntry, Some(directory))),
        }
    }

    /// After the last name: a link there is followed only if it is asked for.
    fn ended<'a>(
        &'a self,
        alloc: Global,
        follow: bool,
        stop: Stop<'a>,
    ) -> Result<Stop<'a>, AllocError>
        ensures { IfOk result (λ end. stop_of end ≡ ended self.now follow (stop_of stop.entry)) }
    {
        match stop {
            Stop::Reached(uid) => self.end(alloc, follow, uid),
            Stop::Linked(dir, path) => Ok(Stop::Linked(dir, path)),
            Stop::Refused(why, dir) => Ok(Stop::Refused(why, dir)),
        }
    }

    /// After the last name, at an entry.
    fn end(&self, alloc: Global, follow: bool, uid: u32) -> Result<Stop<'_>, AllocError>
        ensures { IfOk result (λ end. stop_of end ≡ ended self.now follow (Reached uid)) }
    {
        match self.target_at(uid) {
            Some(target) if follow => {
                let path = copied(alloc, target.names())?;
                Ok(Stop::Linked(self.holding(uid), path))
            }
            Some(_) | None => Ok(Stop::Reached(uid)),
        }
    }
}

/// The path of a pathname, from the caller's working directory. `BadPath` where it has none.
pub(crate) fn resolved(alloc: Global, who: &Who, pathname: &Pathname) -> Result<Path, HierError>
    ensures answer { Tells (resolved (caller who.now) pathname.now) result }
    ensures told { TellsFirst (resolved (caller who.now) pathname.now) result }
{
    match Path::resolve(alloc, who.base, pathname) {
        Ok(path) => Ok(path),
        Err(PathError::AboveRoot) => Err(HierError::Refused(Refusal::BadPath)),
        Err(PathError::TooLong) => Err(HierError::Refused(Refusal::BadPath)),
        Err(PathError::Memory) => Err(HierError::Memory),
    }
}

fn with_name(mut path: Vec<EntryName>, name: &EntryName) -> Result<Vec<EntryName>, AllocError>
    ensures { IfOk result (λ longer. longer.items ≡ path.items ++ name.now ∷ []) }
{
    path.push(*name)?;
    Ok(path)
}

pub(crate) fn joined(
    alloc: Global,
    target: &[EntryName],
    name: &EntryName,
) -> Result<Vec<EntryName>, AllocError>
    ensures { IfOk result (λ path. path.items ≡ target.now ++ name.now ∷ []) }
{
    let mut path = target.to_vec(alloc)?;
    path.push(*name)?;
    Ok(path)
}

fn copied(alloc: Global, target: &[EntryName]) -> Result<Vec<EntryName>, AllocError>
    ensures { IfOk result (λ path. path.items ≡ target.now ++ []) }
{
    let path = target.to_vec(alloc)?;
    Ok(path)
}
