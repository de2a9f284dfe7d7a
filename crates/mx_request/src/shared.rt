//! Requests that a script and the journal hold together.

ghost use Rattle.std.specs.Prelude.{◌≡◌, IfOk};

use crate::requests::Request;
use mx_list::Sequence;
use std::alloc::{AllocError, Global};
use std::marker::Model;
use std::sync::Arc;

/// A request on the heap that several hold together, as the line of a script and the entries of the journal that it made: it
/// stays until the last of them lets go of it. So a request is kept once: a line and an entry have a pointer to it.
#[derive(Drop)]
pub struct SharedRequest {
    request: Arc<Request>,
}

impl Model for SharedRequest {
    ghost use Rattle.mx_request.specs.declared.requests.Request.{Request};

    ghost Value = { Request };

    ghost view = { λ a. a.request.value };
}

impl SharedRequest {
    /// This request, which nobody else holds yet. The only error is want of memory.
    pub fn new(alloc: Global, request: Request) -> Result<SharedRequest, AllocError>
        ensures { IfOk result (λ shared. shared ≡ request) }
    {
        let request = Arc::new(alloc, request)?;
        Ok(SharedRequest { request })
    }

    /// The same request, for another to hold. It takes no memory; the only error is that 2 to the 63rd hold it.
    pub fn share(&self) -> Result<SharedRequest, AllocError>
        ensures { IfOk result (λ shared. shared ≡ self.now) }
    {
        let request = Arc::try_clone(&self.request)?;
        Ok(SharedRequest { request })
    }

    /// The request, to read.
    pub fn request(&self) -> &Request
        ensures { result.now ≡ self.now }
    {
        &self.request
    }
}

/// Requests in order, as of a session's setup.
pub type Requests = Sequence<SharedRequest>;
