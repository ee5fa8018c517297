//! Whether a body asks the policies.
ghost use Rattle.std.specs.Prelude.{◌≡◌, IfOk};
ghost use Rattle.xa_decide.specs.Asked.{OthersAreAnsweredAlike, asks_policies, request_asks};

use crate::request_body::{RequestBody, individuals_of};
use std::alloc::{AllocError, Global};
use xa_profile::Request;

/// Whether a request asks the policies: not if one decision for all individual requests is wanted, nor if
/// there are more than 64 of them.
fn request_asks(alloc: Global, request: &Request) -> Result<bool, AllocError>
    ensures { IfOk result (λ asks. asks ≡ request_asks request.now) }
{
    if request.combined_decision {
        return Ok(false);
    }
    Ok(individuals_of(alloc, request)?.is_ok())
}

/// Whether the body of a request asks the policies. One that is no JSON or no request doesn't, nor does
/// one for all of whose individual requests one result stands. What it is answered is the same whatever
/// decides (`others_are_answered_alike`), so that nothing of a domain need be read for it.
#[tactic(auto, unfolding(crate::specs::Asked::asks_policies))]
pub fn asks_policies(alloc: Global, body: &RequestBody<'_>) -> Result<bool, AllocError>
    ensures { IfOk result (λ asks. asks ≡ asks_policies body.now) }
{
    match body.request() {
        Ok(request) => request_asks(alloc, request),
        Err(_) => Ok(false),
    }
}

/// Law: a body that doesn't ask the policies is answered alike whatever decides, and at every moment.
pub fn others_are_answered_alike()
    ensures { OthersAreAnsweredAlike }
{}
