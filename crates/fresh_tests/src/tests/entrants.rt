//! Who takes part.

use mx_aim::Class;
use mx_name::Principal;
use mx_request::Entrant;
use std::test::Fail;

/// A process of this principal, with this authorization.
pub fn entrant(principal: &[u8], class: &[u8]) -> Result<Entrant, Fail> {
    let Ok(who) = Principal::read(principal) else {
        return Err(Fail::new("no principal"));
    };
    let Some(authorization) = Class::read(class) else {
        return Err(Fail::new("no class"));
    };
    Ok(Entrant { who, authorization })
}
