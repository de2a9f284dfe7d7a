//! Processes as a session brings them in.

use mx_aim::Class;
use mx_name::Principal;

/// A process as a session brings it in: whose it is, and its authorization.
#[derive(Clone, Copy)]
pub struct Entrant {
    /// The principal whose process it is.
    pub who: Principal,
    /// Its authorization (Multics Administrators' Manual), the lowest class in a session without classes.
    pub authorization: Class,
}
