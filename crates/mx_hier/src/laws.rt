//! What follows from the definitions of the requests, said in other words.

ghost use Rattle.std.specs.Prelude.{◌≡◌, ℕ, Ok, None, is_ok, IsSorted, IsPermutation, true};
ghost use Rattle.std.specs.Cmp.Lexicographic.{slice_cmp};
ghost use Rattle.std.specs.Ordering.{nat_cmp};
ghost use Rattle.mx_hier.specs.Branches.{target_at};
ghost use Rattle.mx_hier.specs.ChangeWorkingDirectory.{directory};
ghost use Rattle.mx_hier.specs.Initiate.{segment};
ghost use Rattle.mx_hier.specs.List.{names_in, in_byte_order, list};
ghost use Rattle.mx_hier.specs.Sound.{IsSound};
ghost use Rattle.mx_hier.specs.Status.{status};
ghost use Rattle.mx_hier.specs.Strangers.{IsStranger, IsReticent};
ghost use Rattle.mx_hier.specs.Walks.{entry};
ghost use Rattle.mx_hier.specs.Who.{subject, caller};

use crate::callers::Who;
use crate::hier::Hier;
use mx_name::Pathname;

/// A caller without s on any directory is refused by no walk and by no request that only asks, but that his pathname
/// is bad or that he gets no information.
pub fn a_stranger_learns_nothing(hier: &Hier, who: &Who, path: &Pathname, follow: bool)
    requires { IsStranger hier.now (subject who.now) }
    ensures entry { IsReticent (entry hier.now (caller who.now) path.now follow) }
    ensures status { IsReticent (status hier.now (caller who.now) path.now) }
    ensures list { IsReticent (list hier.now (caller who.now) path.now) }
    ensures directory { IsReticent (directory hier.now (caller who.now) path.now) }
    ensures segment { IsReticent (segment hier.now (caller who.now) path.now) }
{}

/// Whether a walk ends well does not depend on who walks, but on the working directory.
pub fn a_walk_ends_alike_for_all(hier: &Hier, who: &Who, other: &Who, path: &Pathname, follow: bool)
    requires { (caller who.now).base ≡ (caller other.now).base }
    ensures { is_ok (entry hier.now (caller who.now) path.now follow)
        ≡ is_ok (entry hier.now (caller other.now) path.now follow) }
{}

/// A walk that follows a link at the last name ends at no link.
pub fn a_followed_walk_ends_at_no_link(hier: &Hier, who: &Who, path: &Pathname)
    ensures { (uid : ℕ) → entry hier.now (caller who.now) path.now true ≡ Ok uid → target_at hier.now uid ≡ None }
{}

/// The names that `list` gives ascend, and are those of the entries.
#[tactic(auto, using(crate::proofs::SortLaws::ascending, crate::proofs::SortLaws::reordered))]
pub fn listed_names_ascend(hier: &Hier, dir: u32)
    ensures ascend { IsSorted (slice_cmp nat_cmp) (in_byte_order (names_in hier.now dir)) }
    ensures entries { IsPermutation (names_in hier.now dir) (in_byte_order (names_in hier.now dir)) }
{}

/// Every segment has pages of its own, none of which is free; no uid after the last is given, and none that is yet to
/// be given has an object map; no map has a gate or a definition beyond the longest segment.
pub fn segments_have_pages_of_their_own(hier: &Hier)
    ensures { IsSound hier.now.branches hier.now.next hier.now.pages hier.now.objects }
{
    let _ = &hier.root;
}
