//! What a session of each version has besides those before it.

ghost use Rattle.std.specs.Prelude.{◌≡◌, ◌≤◌};
ghost use Rattle.mx_request.specs.Versions.{has_classes, last_number, most_gates, since_version};

use crate::requests::Request;

/// Whether processes and segments have classes of access isolation: from version 2 on.
pub fn has_classes(version: u8) -> bool
    ensures { result ≡ has_classes version }
{
    version >= 2
}

/// The last segment number that a process can be given: 127 in versions 1 and 2, 255 from version 3 on.
pub fn last_number(version: u8) -> u16
    ensures { result ≡ last_number version }
{
    if version >= 3 { 255 } else { 127 }
}

/// How many return gates a process may have, each of an upward call: 16 from version 4 on, and none before, where upward
/// calls are denied.
pub fn most_gates(version: u8) -> usize
    ensures value { result ≡ most_gates version }
    ensures limit { result ≤ 16 }
{
    if version >= 4 { 16 } else { 0 }
}

impl Request {
    /// The version from which on a session may ask the request: 2 for a class, 3 for an initial access list, and 1 for
    /// each other.
    pub fn since_version(&self) -> u8
        ensures { result ≡ since_version self.now }
    {
        match self {
            Request::SetClass { .. } => 2,
            Request::SetIacl { .. } | Request::DelIacl { .. } => 3,
            _ => 1,
        }
    }
}
