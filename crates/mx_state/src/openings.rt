//! What the state before any entry is made of.

ghost use Rattle.std.specs.Prelude.{◌≡◌, map, IfOk};
ghost use Rattle.mx_state.specs.Askers.{initializer};
ghost use Rattle.mx_state.specs.History.{fresh};

use crate::states::ProcessState;
use mx_kst::Kst;
use mx_name::{Path, Principal};
use mx_request::{Entrant, last_number};
use mx_search::Rules;
use std::alloc::{AllocError, Global};

/// The principal of the initializer.
pub(crate) fn make_initializer() -> Principal
    ensures { result ≡ initializer }
{
    let Ok(who) = Principal::read(b"Initializer.SysDaemon.z") else {
        unreachable!()
    };
    who
}

/// The processes of these entrants, which work in the root, with the rules of every process, and know their stacks alone.
pub(crate) fn fresh_processes(
    alloc: Global,
    entrants: &[Entrant],
    version: u8,
) -> Result<Vec<ProcessState>, AllocError>
    ensures { IfOk result (λ processes. processes.items ≡ map (fresh version) entrants.now) }
{
    let mut processes = Vec::new(alloc);
    for entrant in entrants {
        processes.push(fresh_process(alloc, entrant, version)?)?;
    }
    Ok(processes)
}

fn fresh_process(alloc: Global, entrant: &Entrant, version: u8) -> Result<ProcessState, AllocError>
    ensures { IfOk result (λ process. process ≡ fresh version entrant.now) }
{
    let rules = Rules::opening(alloc)?;
    let known = Kst::new(alloc, last_number(version))?;
    Ok(ProcessState {
        principal: entrant.who,
        authorization: entrant.authorization,
        working_directory: Path::root(alloc),
        rules,
        known,
    })
}
