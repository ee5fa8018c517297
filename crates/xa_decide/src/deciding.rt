//! How the individual requests of a request are decided, one after another, and how that is paid for.
ghost use Rattle.std.specs.Prelude.{◌≡◌, ◌≤◌, true, [], ◌∷◌, map, IfOk, Some};
ghost use Rattle.xa_expr.specs.declared.fault.Fault.TheVariants.{SyntaxError};
ghost use Rattle.xa_policy.specs.Evaluation.{as_asked};
ghost use Rattle.xa_profile.specs.Response.{response_body};
ghost use Rattle.xa_decide.specs.Decision.{decided, evaluated_by_tree, objects_at};
ghost use Rattle.xa_decide.specs.Decision.{result_of, result_without_objects};
ghost use Rattle.xa_decide.specs.Limits.{IfOver, MayRefuse};
ghost use Rattle.xa_decide.specs.Timeless.{is_timeless_request};
ghost use Rattle.xa_profile.specs.writing.Lengths.{bytes_of_result};

use crate::context::IndividualContext;
use crate::indexed_object::IndexedObject;
use crate::limits::OverLimit;
use crate::order::units_of_order;
use crate::request_body::individuals_of;
use crate::response_work::cost_of_result;
use crate::view::View;
use crate::work::Work;
use std::alloc::{AllocError, Global};
use xa_expr::{Context, Fault, STEP};
use xa_link::LinkError;
use xa_policy::{Evaluated, Linked, evaluate};
use xa_profile::{CategoryObject, Individual, Request, ResultObject};
use xa_value::{Items, Moment, OrMemory};

/// The results of a request, and whether they are the same at every moment.
#[derive(Drop)]
pub(crate) struct Outcome {
    /// A result for each individual request, or one if these aren't decided.
    pub(crate) results: Items<ResultObject>,
    /// Whether no attribute of the clock is asked for.
    pub(crate) timeless: bool,
}

/// A result, and how many bytes of the body are counted for it.
#[derive(Drop)]
struct Counted {
    /// The result.
    result_object: ResultObject,
    /// The bytes, or some fewer.
    bytes: u64,
}

/// What decides the individual requests of a request.
#[derive(Drop)]
struct Deciding<'a> {
    /// The tree, and the source of attributes.
    view: &'a View,
    /// Whether policies and policy sets are to be named.
    names_policies: bool,
    /// The Category objects of the request.
    objects: &'a [IndexedObject<'a>],
    /// What the clock shows.
    moment: Moment,
    /// What all individual requests together may ask for.
    work: &'a Work,
}

impl<'a> Deciding<'a> {
    /// The context of the individual request that has the objects at these places.
    fn context_at(
        &self,
        alloc: Global,
        places: &[usize],
    ) -> Result<IndividualContext<'a>, AllocError>
        ensures { IfOk result (λ context. context ≡ record {
          objects = objects_at self.now.objects.now places.now;
          source = self.now.view.now.source;
          moment = self.now.moment;
        }) }
    {
        let count = places.len();
        self.work.spend(
            STEP.saturating_mul(count as u64)
                .saturating_add(units_of_order(count)),
        )?;
        let source = self.view.source();
        IndividualContext::new(alloc, self.objects, places, source, self.moment, self.work)
    }

    /// The result of an individual request, which is paid for before it is written.
    #[tactic(auto, unfolding(crate::specs::Decision::decision))]
    fn result_of(&self, alloc: Global, individual: Individual) -> Result<Counted, AllocError>
        ensures value { IfOk result (λ counted. counted.result_object ≡ result_of self.now.view.now
            self.now.names_policies self.now.objects.now self.now.moment individual) }
        ensures bytes { IfOk result (λ counted.
            counted.bytes ≤ bytes_of_result self.now.objects.now counted.result_object) }
    {
        self.work.spend(STEP)?;
        let places = match individual {
            Individual::Places(places) => places,
            Individual::BadReference => {
                return Ok(bad_reference(alloc));
            }
        };
        let context = self.context_at(alloc, places.as_slice())?;
        let evaluated = evaluated_by_tree(alloc, self.view.tree(), &context, self.names_policies)?;
        let result_object = ResultObject { evaluated, places };
        let cost = cost_of_result(self.objects, &result_object);
        self.work.spend(cost.units)?;
        Ok(Counted {
            result_object,
            bytes: cost.bytes,
        })
    }

    /// The results of individual requests. Fails with `OverLimit::Results` once the bytes that are counted
    /// for those so far are more than the response may have.
    fn results_of(
        &self,
        alloc: Global,
        individuals: Items<Individual>,
    ) -> Result<Items<ResultObject>, OrMemory<OverLimit>>
        ensures results { IfOk result (λ results. results ≡ map (result_of self.now.view.now
            self.now.names_policies self.now.objects.now self.now.moment) individuals) }
        ensures over { IfOver result (MayRefuse self.now.work.now.limits (Some (response_body
            self.now.objects.now (map (result_of self.now.view.now self.now.names_policies
            self.now.objects.now self.now.moment) individuals)))) }
    {
        let limits = self.work.limits();
        let mut results = Items::new(alloc);
        let mut bytes = 0u64;
        for individual in individuals.into_vec() {
            let counted = self.result_of(alloc, individual)?;
            bytes = bytes.saturating_add(counted.bytes);
            limits.check_results(bytes)?;
            results.push(counted.result_object)?;
        }
        Ok(results)
    }
}

/// What is decided by the tree: NotApplicable without one, and Indeterminate if it is too large. Policies
/// and policy sets are named if they are asked for.
#[tactic(auto, using(crate::proofs::NamedLemmas::nothing_asked))]
fn evaluated_by_tree<C: Context>(
    alloc: Global,
    tree: &Option<Result<Linked, LinkError>>,
    context: &C,
    names_policies: bool,
) -> Result<Evaluated, AllocError>
    ensures { IfOk result (λ e.
        e ≡ as_asked names_policies (evaluated_by_tree (C.values_of context.now) tree.now)) }
{
    match tree {
        Some(Ok(linked)) => evaluate(alloc, linked, context, names_policies),
        Some(Err(_)) => Ok(Evaluated::undecided(alloc, Fault::ProcessingError)),
        None => Ok(Evaluated::not_applicable(alloc)),
    }
}

/// The one result of a request whose individual requests aren't decided, and that of a bad reference.
fn result_without_objects(alloc: Global, fault: Fault) -> ResultObject
    ensures { result ≡ result_without_objects fault }
{
    ResultObject {
        evaluated: Evaluated::undecided(alloc, fault),
        places: Items::new(alloc),
    }
}

/// The result of a bad reference, of which no bytes are counted.
fn bad_reference(alloc: Global) -> Counted
    ensures value { result.result_object ≡ result_without_objects SyntaxError }
    ensures bytes { result.bytes ≡ 0 }
{
    Counted {
        result_object: result_without_objects(alloc, Fault::SyntaxError),
        bytes: 0,
    }
}

/// The results of a request whose individual requests aren't decided.
pub(crate) fn one_result(alloc: Global, fault: Fault) -> Result<Items<ResultObject>, AllocError>
    ensures { IfOk result (λ results. results ≡ result_without_objects fault ∷ []) }
{
    let mut results = Items::new(alloc);
    results.push(result_without_objects(alloc, fault))?;
    Ok(results)
}

/// What comes of a request whose individual requests aren't decided.
fn one_outcome(alloc: Global, fault: Fault) -> Result<Outcome, AllocError>
    ensures results { IfOk result (λ outcome. outcome.results ≡ result_without_objects fault ∷ []) }
    ensures timeless { IfOk result (λ outcome. outcome.timeless ≡ true) }
{
    Ok(Outcome {
        results: one_result(alloc, fault)?,
        timeless: true,
    })
}

/// The objects, each with its attributes put in order.
fn indexed_objects<'a>(
    alloc: Global,
    work: &Work,
    objects: &'a [CategoryObject],
) -> Result<Vec<IndexedObject<'a>>, AllocError>
    ensures { IfOk result (λ indexed. indexed.items ≡ objects.now) }
{
    let mut indexed = Vec::new(alloc);
    for object in objects {
        indexed.push(IndexedObject::new(alloc, work, object)?)?;
    }
    Ok(indexed)
}

/// What comes of the request, with this work. Each of its objects is put in order once for all individual
/// requests.
#[tactic(auto, unfolding(crate::specs::Decision::decided, crate::specs::Timeless::is_timeless_request))]
pub(crate) fn outcome_of_request(
    alloc: Global,
    view: &View,
    request: &Request,
    moment: Moment,
    work: &Work,
) -> Result<Outcome, OrMemory<OverLimit>>
    ensures results { IfOk result (λ outcome. outcome.results ≡ decided view.now request.now moment) }
    ensures timeless { IfOk result (λ outcome. outcome.timeless ≡ is_timeless_request view.now request.now) }
    ensures over { IfOver result (MayRefuse work.now.limits
        (Some (response_body request.now.objects (decided view.now request.now moment)))) }
{
    if request.combined_decision {
        return Ok(one_outcome(alloc, Fault::ProcessingError)?);
    }
    let Ok(individuals) = individuals_of(alloc, request)? else {
        return Ok(one_outcome(alloc, Fault::ProcessingError)?);
    };
    let indexed = indexed_objects(alloc, work, request.objects.as_slice())?;
    let deciding = Deciding {
        view,
        names_policies: request.return_policy_id_list,
        objects: indexed.as_slice(),
        moment,
        work,
    };
    let results = deciding.results_of(alloc, individuals)?;
    Ok(Outcome {
        results,
        timeless: view.is_timeless(),
    })
}
