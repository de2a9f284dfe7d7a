//! The drill session of a number.

ghost use Rattle.std.specs.Prelude.{◌≡◌, ◌++◌, ◌≤◌, map, IfOk, OnOk};
ghost use Rattle.mx_drill.specs.Drills.{drill_process, one_to_four, segment_setup, drill_setup, drill_script, drill_session};

use crate::names::{driller, drillers_id, everyone_id, root, segment_path};
use crate::rounds::script;
use mx_acl::Modes;
use mx_request::{Request, Requests, SharedRequest};
use mx_script::{Principals, Scripts, Session};
use mx_sdw::Ring;
use std::alloc::{AllocError, Global};

/// The words of each segment.
const WORDS: u32 = 64;

/// The session of a number: see the definition `Drills`. The only error is want of memory.
pub fn session_of(alloc: Global, number: u32) -> Result<Session, AllocError>
    requires { number ≤ 999999 }
    ensures { IfOk result (λ session. session ≡ drill_session number) }
{
    let setup = setup(alloc)?;
    let principals = principals(alloc)?;
    let scripts = scripts(alloc, number)?;
    let Some(session) = Session::new(1, None, setup, principals, scripts) else {
        unreachable!()
    };
    Ok(session)
}

fn setup(alloc: Global) -> Result<Requests, AllocError>
    ensures { IfOk result (λ setup. setup ≡ drill_setup) }
{
    let mut setup = Requests::new(alloc);
    let access = Request::SetAcl {
        path: root(alloc)?,
        id: drillers_id(),
        modes: Modes::Sma,
    };
    setup.push(SharedRequest::new(alloc, access)?)?;
    for s in 1..5 {
        add_segment(alloc, &mut setup, s)?;
    }
    Ok(setup)
}

// Makes segment s, and lets everyone read and write it.
fn add_segment(alloc: Global, setup: &mut Requests, s: u8) -> Result<(), AllocError>
    requires least { 1 ≤ s }
    requires most { s ≤ 4 }
    ensures { OnOk result (setup.new ≡ setup.old ++ segment_setup s) }
{
    let Some(ring) = Ring::new(4) else {
        unreachable!()
    };
    let segment = Request::CreateSeg {
        path: segment_path(alloc, s)?,
        words: WORDS,
        brackets: [ring, ring, ring],
    };
    let access = Request::SetAcl {
        path: segment_path(alloc, s)?,
        id: everyone_id(),
        modes: Modes::Rw,
    };
    setup.push(SharedRequest::new(alloc, segment)?)?;
    setup.push(SharedRequest::new(alloc, access)?)
}

fn principals(alloc: Global) -> Result<Principals, AllocError>
    ensures { IfOk result (λ principals. principals ≡ map drill_process one_to_four) }
{
    let mut principals = Principals::new(alloc);
    for p in 1..5 {
        principals.push(driller(p))?;
    }
    Ok(principals)
}

fn scripts(alloc: Global, number: u32) -> Result<Scripts, AllocError>
    requires { number ≤ 999999 }
    ensures { IfOk result (λ scripts. scripts ≡ map (drill_script number) one_to_four) }
{
    let mut scripts = Scripts::new(alloc);
    for p in 1..5 {
        scripts.push(script(alloc, number, p)?)?;
    }
    Ok(scripts)
}
