//! The decision on a request. `respond` is for a server, which keeps a body that is the same at every
//! moment; `answer` for a program that needs the body alone, and `decide` for one that has its request as a
//! value and takes the response as one.
ghost use Rattle.std.specs.Prelude.{◌≡◌, true, [], ◌∷◌, option_map, IfOk, IfSome, Some};
ghost use Rattle.xa_expr.specs.declared.fault.Fault.TheVariants.{SyntaxError};
ghost use Rattle.xa_profile.specs.Response.{response_body};
ghost use Rattle.xa_decide.specs.Decision.{answer, body_of, decided, result_without_objects};
ghost use Rattle.xa_decide.specs.Limits.{IfOver, IsWithin, MayRefuse};
ghost use Rattle.xa_decide.specs.Timeless.{is_timeless_answer, is_timeless_request};

use crate::deciding::{Outcome, one_result, outcome_of_request};
use crate::limits::{Limits, OverLimit};
use crate::request_body::RequestBody;
use crate::view::View;
use crate::work::Work;
use std::alloc::{AllocError, Global};
use xa_expr::Fault;
use xa_profile::{Request, RequestError, Response};
use xa_value::{Items, Moment, OrMemory};

/// The response to a request, and whether it is the same at every moment.
#[derive(Debug, Drop)]
pub struct Decided<'a> {
    /// The response.
    pub response: Response<'a>,
    /// Whether no attribute of the clock is asked for, so that the response is the same at every moment.
    pub timeless: bool,
}

/// The body of a response, and whether it is the same at every moment.
#[derive(Debug, Drop)]
pub struct Responded {
    /// The body, in JSON.
    pub body: Items<u8>,
    /// Whether no attribute of the clock is asked for, so that the body is the same at every moment.
    pub timeless: bool,
}

/// What comes of the request, with this work. Which limit it has reached is told here, so that no limit is
/// taken for want of memory.
fn outcome_within(
    alloc: Global,
    view: &View,
    request: &Request,
    moment: Moment,
    work: &Work,
) -> Result<Outcome, OrMemory<OverLimit>>
    ensures results { IfOk result (λ outcome. outcome.results ≡ decided view.now request.now moment) }
    ensures timeless { IfOk result (λ outcome. outcome.timeless ≡ is_timeless_request view.now request.now) }
    ensures over { IfOver result (MayRefuse work.now.limits
        (Some (response_body request.now.objects (decided view.now request.now moment)))) }
{
    work.told(outcome_of_request(alloc, view, request, moment, work))
}

/// `decide` under limits. If the request's large bags are searched so often that it takes no longer to put
/// their values in order, that is done, and the request is decided again from the start, with what is left of
/// the work.
fn decide_within<'a>(
    alloc: Global,
    view: &View,
    request: &'a Request,
    moment: Moment,
    limits: Limits,
) -> Result<Decided<'a>, OrMemory<OverLimit>>
    ensures objects { IfOk result (λ d. d.response.objects.now ≡ request.now.objects) }
    ensures results { IfOk result (λ d. d.response.results ≡ decided view.now request.now moment) }
    ensures timeless { IfOk result (λ d. d.timeless ≡ is_timeless_request view.now request.now) }
    ensures over { IfOver result (MayRefuse limits
        (Some (response_body request.now.objects (decided view.now request.now moment)))) }
{
    let mut work = Work::new(limits, request.objects.as_slice());
    let outcome = match outcome_within(alloc, view, request, moment, &work) {
        Err(OrMemory::Memory) if work.wants_order() => {
            work.begin_ordered();
            outcome_within(alloc, view, request, moment, &work)?
        }
        outcome => outcome?,
    };
    Ok(Decided {
        response: Response {
            objects: request.objects.as_slice(),
            results: outcome.results,
        },
        timeless: outcome.timeless,
    })
}

/// The response to the request at the moment (XACML 3.0, core, sections 7.17 and 7.19; Multiple Decision
/// Profile): a result for each of its individual requests, by the tree that the view's root stands for,
/// or one result if these aren't decided. It may take any work. Want of memory is the only error.
pub fn decide<'a>(
    alloc: Global,
    view: &View,
    request: &'a Request,
    moment: Moment,
) -> Result<Decided<'a>, AllocError>
    ensures objects { IfOk result (λ d. d.response.objects.now ≡ request.now.objects) }
    ensures results { IfOk result (λ d. d.response.results ≡ decided view.now request.now moment) }
    ensures timeless { IfOk result (λ d. d.timeless ≡ is_timeless_request view.now request.now) }
{
    // Under no limits it fails for want of memory alone.
    decide_within(alloc, view, request, moment, Limits::none()).map_err(|_| AllocError)
}

/// The response to a body that is no request.
fn response_to_no_request(alloc: Global) -> Result<Response<'static>, AllocError>
    ensures objects { IfOk result (λ response. response.objects.now ≡ []) }
    ensures results { IfOk result (λ response.
        response.results ≡ result_without_objects SyntaxError ∷ []) }
{
    Ok(Response {
        objects: &[],
        results: one_result(alloc, Fault::SyntaxError)?,
    })
}

/// The body of a response, if it may have so many bytes, and whether it is the same at every moment.
fn respond_with(
    alloc: Global,
    limits: Limits,
    response: &Response<'_>,
    timeless: bool,
) -> Result<Responded, OrMemory<OverLimit>>
    ensures body { IfOk result (λ sent.
        sent.body ≡ response_body response.now.objects.now response.now.results) }
    ensures timeless { IfOk result (λ sent. sent.timeless ≡ timeless) }
    ensures within { IfOk result (λ sent. IsWithin limits.reply sent.body) }
    ensures over { IfOver result (MayRefuse limits
        (Some (response_body response.now.objects.now response.now.results))) }
{
    let body = response.to_body(alloc)?;
    limits.check_reply(body.as_slice())?;
    Ok(Responded {
        body: Items::from_vec(body),
        timeless,
    })
}

/// The body of the response to the body of a request, at the moment, and whether it is the same at every
/// moment; none, if the body of the request is no JSON. JSON that is no request of the JSON Profile
/// has a response, of the status syntax-error. Fails with `OverLimit::Work`, if it asks for more work than
/// the limits allow, and with `OverLimit::Reply`, if the body of the response has more bytes; with
/// `OverLimit::Results`, if that was found of its first results. Without a limit it fails with none of these.
#[tactic(auto, unfolding(crate::specs::Decision::answer, crate::specs::Timeless::is_timeless_answer))]
pub fn respond(
    alloc: Global,
    view: &View,
    body: &RequestBody<'_>,
    moment: Moment,
    limits: Limits,
) -> Result<Option<Responded>, OrMemory<OverLimit>>
    ensures body { IfOk result (λ sent.
        option_map (λ r. r.body) sent ≡ option_map body_of (answer view.now body.now moment)) }
    ensures timeless { IfOk result (λ sent.
        IfSome sent (λ r. r.timeless ≡ is_timeless_answer view.now body.now)) }
    ensures within { IfOk result (λ sent. IfSome sent (λ r. IsWithin limits.reply r.body)) }
    ensures over { IfOver result (MayRefuse limits (option_map body_of (answer view.now body.now moment))) }
{
    match body.request() {
        Ok(request) => {
            let decided = decide_within(alloc, view, request, moment, limits)?;
            let responded = respond_with(alloc, limits, &decided.response, decided.timeless)?;
            Ok(Some(responded))
        }
        Err(RequestError::NotJson) => Ok(None),
        Err(RequestError::NotProfile) => {
            let response = response_to_no_request(alloc)?;
            Ok(Some(respond_with(alloc, limits, &response, true)?))
        }
    }
}

/// The body of the response to the body of a request, at the moment; none, if the latter is no JSON. It may
/// take any work and be of any length.
#[tactic(auto, unfolding(crate::specs::Decision::answer))]
pub fn answer(
    alloc: Global,
    view: &View,
    body: &[u8],
    moment: Moment,
) -> Result<Option<Vec<u8>>, AllocError>
    ensures { IfOk result (λ sent.
        option_map (λ b. b.items) sent ≡ option_map body_of (answer view.now body.now moment)) }
{
    let body = RequestBody::read(alloc, body)?;
    match body.request() {
        Ok(request) => {
            let decided = decide(alloc, view, request, moment)?;
            Ok(Some(decided.response.to_body(alloc)?))
        }
        Err(RequestError::NotJson) => Ok(None),
        Err(RequestError::NotProfile) => {
            Ok(Some(response_to_no_request(alloc)?.to_body(alloc)?))
        }
    }
}
