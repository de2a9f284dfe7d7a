//! Replies to requests on the hierarchy.

ghost use Rattle.std.specs.Prelude.{◌≡◌, Ok, IsErr};
ghost use Rattle.mx_hier.specs.declared.refusals.HierError.TheVariants as given;
ghost use Rattle.mx_state.specs.Replies.{Says, IsRefused};

use crate::applied::Applied;
use mx_hier::HierError;
use mx_request::Reply;
use std::alloc::{AllocError, Global};

/// The reply where nothing is given back but that it is done, or why it is refused.
pub(crate) fn done(given: Result<(), HierError>) -> Result<Reply, AllocError>
    ensures { Says given result }
{
    match given {
        Ok(()) => Ok(Reply::Done),
        Err(HierError::Refused(why)) => Ok(Reply::Refused(why)),
        Err(HierError::Memory) => Err(AllocError),
    }
}

/// What a refused request comes to.
pub(crate) fn refused(alloc: Global, error: HierError) -> Result<Applied, AllocError>
    ensures { IsRefused error result }
{
    match error {
        HierError::Refused(why) => Ok(Applied::unchanged(alloc, Reply::Refused(why))),
        HierError::Memory => Err(AllocError),
    }
}
