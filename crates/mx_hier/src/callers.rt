//! Who asks, and what access is left to him.

ghost use Rattle.std.specs.Prelude.{◌≡◌, not};
ghost use Rattle.std.specs.Option.{option_map};
ghost use Rattle.mx_sdw.specs.Descriptors.{is_equal, is_neither};
ghost use Rattle.mx_hier.specs.Callers.{has_status, has_modify, has_append, has_any, has_access, keeps_any};
ghost use Rattle.mx_hier.specs.Rules.{say};
ghost use Rattle.mx_hier.specs.Who.{subject};

use crate::branches::{Directory, Segment};
use crate::refusals::Refusal;
use mx_acl::Modes;
use mx_aim::Class;
use mx_name::{Path, Principal};
use mx_sdw::{Aim, Ring};

/// Who makes a request: a principal with an authorization, in a ring, with the working directory from which its
/// pathnames are resolved.
#[derive(Drop)]
pub struct Who<'a> {
    pub principal: &'a Principal,
    pub authorization: Class,
    pub ring: Ring,
    pub base: &'a Path,
}

impl Who<'_> {
    /// Whether s on a directory is left to him.
    pub(crate) fn has_status(&self, directory: &Directory) -> bool
        ensures { result ≡ has_status (subject self.now) directory.now }
    {
        directory.acl.modes_of(self.principal).s() && self.ring.number() <= directory.d2.number()
    }

    /// Whether m on a directory is left to him.
    pub(crate) fn has_modify(&self, directory: &Directory) -> bool
        ensures { result ≡ has_modify (subject self.now) directory.now }
    {
        directory.acl.modes_of(self.principal).m() && self.ring.number() <= directory.d1.number()
    }

    /// Whether a on a directory is left to him.
    pub(crate) fn has_append(&self, directory: &Directory) -> bool
        ensures { result ≡ has_append (subject self.now) directory.now }
    {
        directory.acl.modes_of(self.principal).a() && self.ring.number() <= directory.d1.number()
    }

    /// Whether any mode on a directory is left to him.
    pub(crate) fn has_any(&self, directory: &Directory) -> bool
        ensures { result ≡ has_any (subject self.now) directory.now }
    {
        self.has_status(directory) || self.has_modify(directory) || self.has_append(directory)
    }

    /// Whether any access to a segment is left to him.
    pub(crate) fn has_access(&self, segment: &Segment) -> bool
        ensures { result ≡ has_access (subject self.now) segment.now }
    {
        let aim = self.authorization.aim(&segment.class);
        keeps_any(
            segment.acl.modes_of(self.principal),
            aim,
            segment,
            self.ring,
        )
    }

    /// A refusal as he is told it of a directory: `NoInfo` in its place where no s on the directory is left to him.
    pub(crate) fn told(&self, why: Refusal, dir: Option<&Directory>) -> Refusal
        ensures { result ≡ say (subject self.now) why (option_map (λ directory. directory.now) dir.entry) }
    {
        match dir {
            Some(directory) if self.has_status(directory) => why,
            Some(_) | None => Refusal::NoInfo,
        }
    }
}

fn keeps_any(modes: Modes, aim: Aim, segment: &Segment, ring: Ring) -> bool
    ensures { result ≡ keeps_any modes aim segment.now ring }
{
    let ring = ring.number();
    let [r1, r2, r3] = [
        segment.brackets.r1().number(),
        segment.brackets.r2().number(),
        segment.brackets.r3().number(),
    ];
    opens(aim) && modes.r() && ring <= r2
        || opens_all(aim) && modes.w() && ring <= r1
        || opens(aim) && modes.e() && r1 <= ring && ring <= r3
}

/// Whether an aim lets reading and executing stand.
fn opens(aim: Aim) -> bool
    ensures { result ≡ not (is_neither aim) }
{
    match aim {
        Aim::Equal | Aim::Dominates => true,
        Aim::Neither => false,
    }
}

/// Whether it lets writing stand too.
fn opens_all(aim: Aim) -> bool
    ensures { result ≡ is_equal aim }
{
    match aim {
        Aim::Equal => true,
        Aim::Dominates | Aim::Neither => false,
    }
}
