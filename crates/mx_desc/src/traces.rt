//! The trace that a pass keeps of what its process did, where it keeps one.

ghost use Rattle.std.specs.Prelude.{◌≡◌, ◌≤◌, ◌<◌, ◌+◌, ◌-◌, ◌^◌, ◌∷◌, ◌++◌, [], IsSome, None, OnErr, OnOk, Some, option_map, vec_capacity, vec_len};

use mx_core::Kept;
use std::alloc::{AllocError, Global};
use std::marker::Model;

/// A trace that is kept, or none.
#[derive(Drop)]
pub(crate) struct Trace {
    kept: Option<Vec<Kept>>,
}

impl Model for Trace {
    ghost use Rattle.mx_desc.specs.Traces.{TraceValue, trace_by};

    ghost Value = { TraceValue };

    ghost view = { λ a. trace_by a.kept };
}

impl Trace {
    /// A trace that is kept, of a process that did nothing.
    pub(crate) fn new(alloc: Global) -> Trace
        ensures { result.kept ≡ Some [] }
    {
        Trace {
            kept: Some(Vec::new(alloc)),
        }
    }

    /// What is kept. Condition: it is kept.
    pub(crate) fn events(&self) -> &[Kept]
        requires { IsSome self.now.kept }
        ensures { self.now.kept ≡ Some result.now }
    {
        let Some(kept) = &self.kept else {
            unreachable!()
        };
        kept.as_slice()
    }

    /// Makes room for so many more events. Where none is kept there always is.
    pub(crate) fn reserve(&mut self, events: usize) -> Result<(), AllocError>
        ensures room { OnOk result (events ≤ self.new.spare) }
        ensures kept { self.new.kept ≡ self.old.kept }
        ensures err { OnErr result (self.new ≡ self.old) }
        ensures wanted { OnErr result (IsSome self.old.kept) }
    {
        match &mut self.kept {
            Some(kept) => kept.reserve(events),
            None => Ok(()),
        }
    }

    /// Keeps an event, for which there is room, where events are kept.
    #[inline(always)]
    pub(crate) fn push(&mut self, event: Kept)
        requires { 1 ≤ self.old.spare }
        ensures kept { self.new.kept ≡ option_map (λ before. before ++ event ∷ []) self.old.kept }
        ensures spare { self.old.spare ≤ self.new.spare + 1 }
    {
        if let Some(kept) = &mut self.kept {
            push(kept, event);
        }
    }

    /// Gives the memory back, and keeps nothing from then on.
    pub(crate) fn forget(&mut self)
        ensures { self.new ≡ record { kept = None; spare = 2 ^ 64 - 1 } }
    {
        self.kept = None;
    }
}

/// Keeps an event, for which there is room.
#[inline(always)]
fn push(trace: &mut Vec<Kept>, event: Kept)
    requires { vec_len trace.old < vec_capacity trace.old }
    ensures items { trace.new.items ≡ trace.old.items ++ event ∷ [] }
    ensures len { vec_len trace.new ≡ vec_len trace.old + 1 }
    ensures room { vec_capacity trace.old ≤ vec_capacity trace.new }
{
    let Ok(()) = trace.extend_from_slice(&[event]) else {
        unreachable!()
    };
}
