//! What access is left to who asks, and what he is told.

ghost use Rattle.std.specs.Prelude.{◌≡◌, not};
ghost use Rattle.std.specs.Option.{option_map};
ghost use Rattle.mx_sdw.specs.Descriptors.{is_equal, is_neither};
ghost use Rattle.mx_hier.specs.Callers.{has_status, has_modify, has_append, has_any, has_access, keeps_any};
ghost use Rattle.mx_hier.specs.Rules.{say};
ghost use Rattle.mx_hier.specs.Who.{subject};

use crate::branches::{Directory, Segment};
use mx_acl::Modes;
use mx_hier::{Refusal, Who};
use mx_sdw::{Aim, Ring};

/// s on a directory: its modes have it, and the ring is at most `d2`.
pub(crate) fn has_status(who: &Who, directory: &Directory) -> bool
    ensures { result ≡ has_status (subject who.now) directory.now }
{
    directory.acl.modes_of(who.principal).s() && who.ring.number() <= directory.d2.number()
}

/// m on a directory: its modes have it, and the ring is at most `d1`.
pub(crate) fn has_modify(who: &Who, directory: &Directory) -> bool
    ensures { result ≡ has_modify (subject who.now) directory.now }
{
    directory.acl.modes_of(who.principal).m() && who.ring.number() <= directory.d1.number()
}

/// a on a directory, likewise.
pub(crate) fn has_append(who: &Who, directory: &Directory) -> bool
    ensures { result ≡ has_append (subject who.now) directory.now }
{
    directory.acl.modes_of(who.principal).a() && who.ring.number() <= directory.d1.number()
}

/// Any of the three.
pub(crate) fn has_any(who: &Who, directory: &Directory) -> bool
    ensures { result ≡ has_any (subject who.now) directory.now }
{
    has_status(who, directory) || has_modify(who, directory) || has_append(who, directory)
}

/// Any access to a segment.
pub(crate) fn has_access(who: &Who, segment: &Segment) -> bool
    ensures { result ≡ has_access (subject who.now) segment.now }
{
    let aim = who.authorization.aim(&segment.class);
    let modes = segment.acl.modes_of(who.principal);
    keeps_any(modes, aim, segment, who.ring)
}

/// r is left up to R2, w up to R1, and e from R1 to R3; r and e where the aim is not neither, and w where it is equal.
fn keeps_any(modes: Modes, aim: Aim, segment: &Segment, ring: Ring) -> bool
    ensures { result ≡ keeps_any modes aim segment.now ring }
{
    let ring = ring.number();
    let [r1, r2, r3] = [
        segment.brackets.r1().number(),
        segment.brackets.r2().number(),
        segment.brackets.r3().number(),
    ];
    opens(aim) && modes.r() && ring <= r2
        || is_equal(aim) && modes.w() && ring <= r1
        || opens(aim) && modes.e() && r1 <= ring && ring <= r3
}

/// Whether an aim is not neither.
fn opens(aim: Aim) -> bool
    ensures { result ≡ not (is_neither aim) }
{
    match aim {
        Aim::Equal | Aim::Dominates => true,
        Aim::Neither => false,
    }
}

/// Whether it is equal.
fn is_equal(aim: Aim) -> bool
    ensures { result ≡ is_equal aim }
{
    match aim {
        Aim::Equal => true,
        Aim::Dominates | Aim::Neither => false,
    }
}

/// A refusal, said at a directory: who has no s on it is told `NoInfo`.
pub(crate) fn say(who: &Who, why: Refusal, at: Option<&Directory>) -> Refusal
    ensures { result ≡ say (subject who.now) why (option_map (λ directory. directory.now) at.entry) }
{
    match at {
        Some(directory) if has_status(who, directory) => why,
        Some(_) | None => Refusal::NoInfo,
    }
}
