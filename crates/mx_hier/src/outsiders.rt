//! What a caller without any access to any directory comes to.

ghost use Rattle.std.specs.Prelude.{◌≢◌, ℕ, List, [], Ok};
ghost use Rattle.mx_name.specs.Identifiers.{PlainAclId};
ghost use Rattle.mx_acl.specs.declared.modes.AclKind.{AclKind};
ghost use Rattle.mx_acl.specs.declared.modes.Modes.{Modes};
ghost use Rattle.mx_aim.specs.Classes.{PlainClass};
ghost use Rattle.mx_object.specs.Objects.{PlainObjectMap};
ghost use Rattle.mx_hier.specs.CreateDirectory.{create_dir};
ghost use Rattle.mx_hier.specs.CreateLink.{create_link};
ghost use Rattle.mx_hier.specs.CreateObject.{create_object};
ghost use Rattle.mx_hier.specs.CreateSegment.{create_seg};
ghost use Rattle.mx_hier.specs.Delete.{delete};
ghost use Rattle.mx_hier.specs.DeleteAclEntry.{del_acl};
ghost use Rattle.mx_hier.specs.InitialLists.{set_iacl, del_iacl};
ghost use Rattle.mx_hier.specs.Rename.{rename};
ghost use Rattle.mx_hier.specs.SetAcl.{set_acl};
ghost use Rattle.mx_hier.specs.SetBrackets.{set_brackets};
ghost use Rattle.mx_hier.specs.SetClass.{set_class};
ghost use Rattle.mx_hier.specs.SetDirectoryBrackets.{set_dir_brackets};
ghost use Rattle.mx_hier.specs.Strangers.{IsOutsider, IsTurnedAway};
ghost use Rattle.mx_hier.specs.Walks.{resolved};
ghost use Rattle.mx_hier.specs.Who.{subject, caller};

use crate::callers::Who;
use crate::hier::Hier;
use mx_name::Pathname;

/// A caller to whom no access to any directory is left changes nothing: each request that would is refused, and he is
/// told no more than that a pathname is bad or that he gets no information. The root, which everybody knows, is there
/// already: who would make it is told `NameDup`.
pub fn an_outsider_is_turned_away(hier: &Hier, who: &Who, path: &Pathname)
    requires { IsOutsider hier.now (subject who.now) }
    ensures set_acl { (id : PlainAclId) (modes : Modes)
        → IsTurnedAway (set_acl hier.now (caller who.now) path.now id modes) }
    ensures del_acl { (id : PlainAclId) → IsTurnedAway (del_acl hier.now (caller who.now) path.now id) }
    ensures set_brackets { (rings : List ℕ) → IsTurnedAway (set_brackets hier.now (caller who.now) path.now rings) }
    ensures set_dir_brackets { (d1 d2 : ℕ)
        → IsTurnedAway (set_dir_brackets hier.now (caller who.now) path.now d1 d2) }
    ensures set_class { (class : PlainClass) → IsTurnedAway (set_class hier.now (caller who.now) path.now class) }
    ensures set_iacl { (kind : AclKind) (id : PlainAclId) (modes : Modes)
        → IsTurnedAway (set_iacl hier.now (caller who.now) path.now kind id modes) }
    ensures del_iacl { (kind : AclKind) (id : PlainAclId)
        → IsTurnedAway (del_iacl hier.now (caller who.now) path.now kind id) }
    ensures rename { (name : List ℕ) → IsTurnedAway (rename hier.now (caller who.now) path.now name) }
    ensures delete { IsTurnedAway (delete hier.now (caller who.now) path.now) }
    ensures create_dir { (d1 d2 : ℕ) → resolved (caller who.now) path.now ≢ Ok []
        → IsTurnedAway (create_dir hier.now (caller who.now) path.now d1 d2) }
    ensures create_seg { (words : ℕ) (rings : List ℕ) → resolved (caller who.now) path.now ≢ Ok []
        → IsTurnedAway (create_seg hier.now (caller who.now) path.now words rings) }
    ensures create_object { (words : ℕ) (rings : List ℕ) (object : PlainObjectMap)
        → resolved (caller who.now) path.now ≢ Ok []
        → IsTurnedAway (create_object hier.now (caller who.now) path.now words rings object) }
    ensures create_link { (target : List ℕ) → resolved (caller who.now) path.now ≢ Ok []
        → IsTurnedAway (create_link hier.now (caller who.now) path.now target) }
{}
