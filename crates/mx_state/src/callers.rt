//! Whose call it is.

ghost use Rattle.std.specs.Prelude.{◌≡◌, ◌≤◌, ◌<◌, [], length, slice_get, Some};
ghost use Rattle.std.specs.Option.{option_map};
ghost use Rattle.mx_hier.specs.Who.{caller as caller_of};
ghost use Rattle.mx_state.specs.Askers.{initializer as the_initializer, asker, caller};
ghost use Rattle.mx_state.specs.Calling.{IsCallerOf};
ghost use Rattle.mx_state.specs.Plain.{process_at};

use crate::states::ProcessState;
use mx_aim::Class;
use mx_hier::Who;
use mx_name::{Path, Principal};
use mx_sdw::Ring;

/// The state of process `p`; process 0 is none.
pub(crate) fn process_at(processes: &[ProcessState], p: u8) -> Option<&ProcessState>
    ensures { option_map (λ process. process.now) result ≡ process_at processes.now p }
{
    if p == 0 {
        None
    } else {
        processes.get(usize::from(p) - 1)
    }
}

/// Who asks: the initializer in the root as process 0, or process `p` in its working directory.
pub(crate) fn caller<'a>(
    initializer: &'a Principal,
    root: &'a Path,
    processes: &'a [ProcessState],
    p: u8,
    ring: Ring,
) -> Who<'a>
    requires initializer { initializer.now ≡ the_initializer }
    requires root { root.now ≡ [] }
    requires asker { p ≤ length processes.now }
    ensures { IsCallerOf (asker processes.now p) ring (caller_of result) }
{
    if p == 0 {
        Who {
            principal: initializer,
            authorization: Class::lowest(),
            ring,
            base: root,
        }
    } else {
        own_caller(process_in(processes, usize::from(p) - 1), ring)
    }
}

/// A process as the one who asks.
pub(crate) fn own_caller(process: &ProcessState, ring: Ring) -> Who<'_>
    ensures { caller_of result ≡ caller process.now ring }
{
    Who {
        principal: &process.principal,
        authorization: process.authorization,
        ring,
        base: &process.working_directory,
    }
}

/// The state of the process in this place.
pub(crate) fn process_in(processes: &[ProcessState], i: usize) -> &ProcessState
    requires { i < length processes.now }
    ensures { slice_get processes.now i ≡ Some result.now }
{
    &processes[i]
}
