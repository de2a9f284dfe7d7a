//! The names of a drill: of its segments and of its processes.

ghost use Rattle.std.specs.Prelude.{◌≡◌, ◌≤◌, codes, IfOk};
ghost use Rattle.mx_drill.specs.Drills.{segment_path, driller, driller_id, drillers_id, everyone_id};

use mx_name::{AclId, NameError, Pathname, Principal};
use std::alloc::{AllocError, Global};

/// The root.
pub(crate) fn root(alloc: Global) -> Result<Pathname, AllocError>
    ensures { IfOk result (λ path. path ≡ codes ">") }
{
    path(alloc, b">")
}

/// The path of segment s.
pub(crate) fn segment_path(alloc: Global, s: u8) -> Result<Pathname, AllocError>
    requires least { 1 ≤ s }
    requires most { s ≤ 4 }
    ensures { IfOk result (λ path. path ≡ segment_path s) }
{
    let mut text = *b">s0";
    text[2] += s;
    path(alloc, &text)
}

// The pathname that a text is; a text that is none counts as want of memory, which no caller meets.
fn path(alloc: Global, text: &[u8]) -> Result<Pathname, AllocError>
    ensures { IfOk result (λ path. path ≡ text.now) }
{
    match Pathname::read(alloc, text) {
        Ok(path) => Ok(path),
        Err(NameError::Memory | NameError::Empty | NameError::TooLong | NameError::BadChar) => Err(
            AllocError,
        ),
    }
}

/// The principal of process p.
pub(crate) fn driller(p: u8) -> Principal
    requires least { 1 ≤ p }
    requires most { p ≤ 4 }
    ensures { result ≡ driller p }
{
    let mut text = *b"U0.Drill.a";
    text[1] += p;
    let Ok(principal) = Principal::read(&text) else {
        unreachable!()
    };
    principal
}

/// The principal of process p as an identifier.
pub(crate) fn driller_id(p: u8) -> AclId
    requires least { 1 ≤ p }
    requires most { p ≤ 4 }
    ensures { result ≡ driller_id p }
{
    let mut text = *b"U0.Drill.a";
    text[1] += p;
    let Ok(id) = AclId::read(&text) else {
        unreachable!()
    };
    id
}

/// All processes of the drill.
pub(crate) fn drillers_id() -> AclId
    ensures { result ≡ drillers_id }
{
    let Ok(id) = AclId::read(b"*.Drill.*") else {
        unreachable!()
    };
    id
}

/// Everyone.
pub(crate) fn everyone_id() -> AclId
    ensures { result ≡ everyone_id }
{
    let Ok(id) = AclId::read(b"*.*.*") else {
        unreachable!()
    };
    id
}
