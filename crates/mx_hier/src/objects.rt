//! The maps of object segments, by the uids of their segments. A map stays when its segment is deleted.

ghost use Rattle.std.specs.Prelude.{◌≡◌, ◌<◌, None, IfOk, OnOk};
ghost use Rattle.std.specs.Option.{option_map, option_copied};
ghost use Rattle.indexmap.specs.IndexMap.{spare};
ghost use Rattle.mx_hier.specs.Objects.{object_of, with_object};

use indexmap::IndexMap;
use mx_object::ObjectMap;
use std::alloc::AllocError;

/// The map of a uid.
pub(crate) fn object_in(objects: &IndexMap<u32, ObjectMap>, uid: u32) -> Option<&ObjectMap>
    ensures { option_map (λ object. object.now) result ≡ object_of objects.now.entries uid }
{
    objects.get(&uid)
}

/// A copy of a map, if there is one, and room for it. Takes no memory where there is none.
pub(crate) fn copy_with_room(
    objects: &mut IndexMap<u32, ObjectMap>,
    object: Option<&ObjectMap>,
) -> Result<Option<ObjectMap>, AllocError>
    ensures same { objects.new.entries ≡ objects.old.entries }
    ensures room { OnOk result (0 < spare objects.new) }
    ensures copy { IfOk result (λ copy. copy ≡ option_copied object.entry) }
{
    objects.reserve(1)?;
    match object {
        Some(object) => {
            let copy = object.copy()?;
            Ok(Some(copy))
        }
        None => Ok(None),
    }
}

/// Adds the map of a uid that has none, if there is one. Takes no memory.
#[tactic(auto, using(crate::proofs::ObjectLaws::pushed))]
pub(crate) fn add_object(
    objects: &mut IndexMap<u32, ObjectMap>,
    uid: u32,
    object: Option<ObjectMap>,
)
    requires room { 0 < spare objects.old }
    requires free { object_of objects.old.entries uid ≡ None }
    ensures { objects.new.entries ≡ with_object objects.old.entries uid object }
{
    if let Some(object) = object {
        objects.insert(uid, object).unwrap();
    }
}
