//! The processes: what each has of its own, and who asks.

ghost use Rattle.std.specs.Prelude.{◌≡◌, ◌≤◌, ◌<◌, ◌-◌, [], Some, length, slice_get, map, IfOk};
ghost use Rattle.std.specs.Option.{option_map};
ghost use Rattle.mx_hier.specs.Who.{caller as caller_of};
ghost use Rattle.mx_state.specs.Askers.{initializer, initializer as the_initializer, asker, caller};
ghost use Rattle.mx_state.specs.Calling.{IsCallerOf};
ghost use Rattle.mx_state.specs.History.{fresh};
ghost use Rattle.mx_state.specs.Plain.{process_at};

use crate::known::FreshKnown;
use mx_aim::Class;
use mx_hier::Who;
use mx_name::{Path, Principal};
use mx_request::{Entrant, last_number};
use mx_sdw::Ring;
use mx_search::Rules;
use std::alloc::{AllocError, Global};
use std::marker::Model;

/// What a process has of its own.
#[derive(Drop)]
pub struct FreshProcess {
    pub(crate) principal: Principal,
    pub(crate) authorization: Class,
    pub(crate) working_directory: Path,
    pub(crate) rules: Rules,
    pub(crate) known: FreshKnown,
}

impl Model for FreshProcess {
    ghost use Rattle.mx_state.specs.declared.states.ProcessState.{ProcessState};

    ghost Value = { ProcessState };

    ghost view = { λ a. record {
      principal = a.principal;
      authorization = a.authorization;
      working_directory = a.working_directory;
      rules = a.rules;
      known = a.known;
    } };
}

/// The principal of the initializer.
pub(crate) fn make_initializer() -> Principal
    ensures { result ≡ initializer }
{
    let Ok(who) = Principal::read(b"Initializer.SysDaemon.z") else {
        unreachable!()
    };
    who
}

/// The processes of these entrants, as they are at the start.
pub(crate) fn fresh_processes(
    alloc: Global,
    entrants: &[Entrant],
    version: u8,
) -> Result<Vec<FreshProcess>, AllocError>
    ensures { IfOk result (λ processes. processes.items ≡ map (fresh version) entrants.now) }
{
    let mut processes = Vec::new(alloc);
    for entrant in entrants {
        processes.push(fresh_process(alloc, entrant, version)?)?;
    }
    Ok(processes)
}

fn fresh_process(alloc: Global, entrant: &Entrant, version: u8) -> Result<FreshProcess, AllocError>
    ensures { IfOk result (λ process. process ≡ fresh version entrant.now) }
{
    let rules = Rules::opening(alloc)?;
    let known = FreshKnown::new(alloc, last_number(version))?;
    Ok(FreshProcess {
        principal: entrant.who,
        authorization: entrant.authorization,
        working_directory: Path::root(alloc),
        rules,
        known,
    })
}

/// Process `p`; there is no process 0.
pub(crate) fn process_at(processes: &[FreshProcess], p: u8) -> Option<&FreshProcess>
    ensures { option_map (λ process. process.now) result ≡ process_at processes.now p }
{
    if p == 0 {
        None
    } else {
        processes.get(usize::from(p) - 1)
    }
}

/// A process as the one who asks.
pub(crate) fn own_caller(process: &FreshProcess, ring: Ring) -> Who<'_>
    ensures { caller_of result ≡ caller process.now ring }
{
    Who {
        principal: &process.principal,
        authorization: process.authorization,
        ring,
        base: &process.working_directory,
    }
}

/// Who asks: the initializer in the root as process 0, or process `p` in its working directory.
pub(crate) fn caller<'a>(
    initializer: &'a Principal,
    root: &'a Path,
    processes: &'a [FreshProcess],
    p: u8,
    ring: Ring,
) -> Who<'a>
    requires initializer { initializer.now ≡ the_initializer }
    requires root { root.now ≡ [] }
    requires asker { p ≤ length processes.now }
    ensures { IsCallerOf (asker processes.now p) ring (caller_of result) }
{
    if p == 0 {
        Who {
            principal: initializer,
            authorization: Class::lowest(),
            ring,
            base: root,
        }
    } else {
        own_caller(process_in(processes, usize::from(p) - 1), ring)
    }
}

/// The process in this place.
pub(crate) fn process_in(processes: &[FreshProcess], place: usize) -> &FreshProcess
    requires { place < length processes.now }
    ensures { slice_get processes.now place ≡ Some result.now }
{
    &processes[place]
}

/// Process `p`, which is there.
pub(crate) fn own_process(processes: &[FreshProcess], p: u8) -> &FreshProcess
    requires some { 1 ≤ p }
    requires process { p ≤ length processes.now }
    ensures { slice_get processes.now (p - 1) ≡ Some result.now }
{
    process_in(processes, usize::from(p) - 1)
}
