//! The body of a request, read, and the individual requests of a request.
ghost use Rattle.std.specs.Prelude.{◌≡◌, IfOk};
ghost use Rattle.xa_profile.specs.Individuals.{individuals};
ghost use Rattle.xa_profile.specs.Request.{request_of};

use std::alloc::{AllocError, Global};
use std::marker::Model;
use xa_profile::{Individual, Request, RequestError, TooMany};
use xa_value::{Items, memory_apart};

/// The body of a request, with what was read of it, so that it is read once whatever is asked of
/// it. Contracts see its bytes.
#[derive(Debug, Drop)]
pub struct RequestBody<'a> {
    /// The body.
    bytes: &'a [u8],
    /// What was read of it.
    request: Result<Request, RequestError>,
}

impl<'a> Model for RequestBody<'a> {
    ghost use Rattle.std.specs.Prelude.{◌≡◌, ℕ, List};
    ghost use Rattle.xa_profile.specs.Request.{request_of};

    ghost Value = { List ℕ };

    ghost view = { λ b. b.bytes.now };

    ghost invariant = { λ b. b.request ≡ request_of b.bytes.now };
}

impl<'a> RequestBody<'a> {
    /// Reads the body. Want of memory is the only error: what is no request is kept as such. What
    /// reading costs grows with the body.
    pub fn read(alloc: Global, bytes: &'a [u8]) -> Result<RequestBody<'a>, AllocError>
        ensures { IfOk result (λ body. body ≡ bytes.now) }
    {
        let request = memory_apart(Request::read(alloc, bytes))?;
        Ok(RequestBody { bytes, request })
    }

    /// The request that it is, or why it is none.
    pub(crate) fn request(&self) -> &Result<Request, RequestError>
        ensures { result.now ≡ request_of self.now }
    {
        &self.request
    }
}

/// The individual requests of a request, or that there are too many of them. Want of memory is the only
/// error.
pub(crate) fn individuals_of(
    alloc: Global,
    request: &Request,
) -> Result<Result<Items<Individual>, TooMany>, AllocError>
    ensures { IfOk result (λ them. them ≡ individuals request.now) }
{
    memory_apart(request.individuals(alloc))
}
