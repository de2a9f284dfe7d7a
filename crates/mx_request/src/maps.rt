//! The maps of object segments that requests make.

ghost use Rattle.std.specs.Prelude.{◌≡◌, IfOk};

use mx_object::ObjectMap;
use std::alloc::{AllocError, Global};
use std::marker::Model;

/// The map of an object segment on the heap, so that a request takes no more room than one with a name or an identifier.
#[derive(Drop)]
pub struct BoxedMap {
    map: Box<ObjectMap>,
}

impl Model for BoxedMap {
    ghost use Rattle.mx_object.specs.Objects.{PlainObjectMap};

    ghost Value = { PlainObjectMap };

    ghost view = { λ a. a.map.value };
}

impl BoxedMap {
    /// This map. The only error is want of memory.
    pub fn new(alloc: Global, map: ObjectMap) -> Result<BoxedMap, AllocError>
        ensures { IfOk result (λ boxed. boxed ≡ map) }
    {
        let map = Box::new(alloc, map)?;
        Ok(BoxedMap { map })
    }

    /// The map, to read.
    pub fn map(&self) -> &ObjectMap
        ensures { result.now ≡ self.now }
    {
        &self.map
    }
}
