//! Responses, written as JSON.
ghost use Rattle.std.specs.Prelude.{◌≡◌, IfOk, map};
ghost use Rattle.xa_profile.specs.Response.{assignment_data, category_data, duty_data};
ghost use Rattle.xa_profile.specs.Response.{decision_text, status_data, included_objects};
ghost use Rattle.xa_profile.specs.Response.{result_data, response_data, listing, response_body};
ghost use Rattle.xa_profile.specs.writing.Tokens.{Appends, tokens, items_if_any_tokens};

use crate::category_object::CategoryObject;
use crate::identifiers::write_identifiers_if_any;
use crate::included::included_objects;
use crate::member::Member;
use crate::writing::{ToJson, write_data_type, write_items_if_any, write_text, write_text_if_any};
use json::Writer;
use std::alloc::{AllocError, Global};
use xa_func::Status;
use xa_policy::{AttributeAssignment, Decision, Duty, Evaluated};
use xa_value::Items;

/// An ordinary response, of one result without obligations, fits into this many bytes.
const BODY_ROOM: usize = 256;

/// One of the results of a response (JSON Profile, section 5.2).
#[derive(Debug, Drop)]
pub struct ResultObject {
    /// The decision, its status, obligations and advice, and the policies and policy sets that are named.
    pub evaluated: Evaluated,
    /// The places of its Category objects among those of the request; none if it stands for a request
    /// whose individual requests aren't decided, or for a bad reference.
    pub places: Items<usize>,
}

/// The response to a request (JSON Profile, section 5): a result for each individual request, in order.
#[derive(Debug, Drop)]
pub struct Response<'a> {
    /// The Category objects of the request.
    pub objects: &'a [CategoryObject],
    /// The results, in order: one for each individual request, or one alone if these aren't decided.
    pub results: Items<ResultObject>,
}

impl<'a> Response<'a> {
    /// Writes the response.
    #[tactic(auto, unfolding(crate::specs::Response::response_data))]
    fn write(&self, alloc: Global, out: &mut Writer) -> Result<(), AllocError>
        ensures { Appends result out.old out.new
            (tokens (response_data self.now.objects.now self.now.results)) }
    {
        out.begin_object()?;
        out.key(Member::Response.name())?;
        write_results(alloc, out, self.objects, self.results.as_slice())?;
        out.end_object()
    }

    /// The body that the response is sent as: its JSON, with no space. Each text is written where it is
    /// to stand, with no tree of JSON before.
    #[tactic(auto, unfolding(crate::specs::Response::response_body), using(crate::proofs::TokenLemmas::text_of_tokens))]
    pub fn to_body(&self, alloc: Global) -> Result<Vec<u8>, AllocError>
        ensures { IfOk result (λ body. body.items ≡ response_body self.now.objects.now self.now.results) }
    {
        let mut out = Writer::new(Vec::with_capacity(alloc, BODY_ROOM)?);
        self.write(alloc, &mut out)?;
        Ok(out.into_inner())
    }
}

impl ToJson for AttributeAssignment {
    ghost written = { λ a. assignment_data a };

    #[tactic(auto, unfolding(crate::specs::Response::assignment_data), using(crate::proofs::TokenLemmas::text_if_any_first))]
    fn write(&self, alloc: Global, out: &mut Writer) -> Result<(), AllocError> {
        out.begin_object()?;
        write_text(out, Member::AttributeId, self.attribute_id.as_str())?;
        write_text_if_any(out, Member::Category, &self.category)?;
        write_data_type(out, self.value.data_type())?;
        write_text_if_any(out, Member::Issuer, &self.issuer)?;
        out.key(Member::Value.name())?;
        self.value.write(alloc, out)?;
        out.end_object()
    }
}

impl ToJson for Duty {
    ghost written = { λ d. duty_data d };

    #[tactic(auto, unfolding(crate::specs::Response::duty_data), using(crate::proofs::TokenLemmas::items_if_any_first))]
    fn write(&self, alloc: Global, out: &mut Writer) -> Result<(), AllocError> {
        let assignments = self.assignments.as_slice();
        out.begin_object()?;
        write_items_if_any(alloc, out, Member::AttributeAssignment, assignments)?;
        write_text(out, Member::Id, self.id.as_str())?;
        out.end_object()
    }
}

/// The decision as it is shown (core, section 5.53): the three kinds of Indeterminate are one.
#[tactic(auto, unfolding(crate::specs::Response::decision_text))]
fn decision_text(decision: Decision) -> &'static str
    ensures { result.now ≡ decision_text decision }
{
    match decision {
        Decision::Permit => "Permit",
        Decision::Deny => "Deny",
        Decision::NotApplicable => "NotApplicable",
        Decision::IndeterminatePermit
        | Decision::IndeterminateDeny
        | Decision::IndeterminateDenyPermit => "Indeterminate",
    }
}

/// Writes a status, which is its code.
#[tactic(auto, unfolding(crate::specs::Response::status_data))]
fn write_status(out: &mut Writer, status: Status) -> Result<(), AllocError>
    ensures { Appends result out.old out.new (tokens (status_data status)) }
{
    out.begin_object()?;
    out.key(Member::StatusCode.name())?;
    out.begin_object()?;
    write_text(out, Member::Value, status.uri())?;
    out.end_object()?;
    out.end_object()
}

/// Writes the member Category of a result: the objects at the places that have an attribute that is to
/// stand there.
fn write_included_objects(
    alloc: Global,
    out: &mut Writer,
    objects: &[CategoryObject],
    places: &[usize],
) -> Result<(), AllocError>
    ensures { Appends result out.old out.new
        (items_if_any_tokens Member.Category (map category_data (included_objects objects.now places.now))) }
{
    let included = included_objects(alloc, objects, places)?;
    write_items_if_any(alloc, out, Member::Category, included.as_slice())
}

/// Writes a result, whose places are among these objects.
#[tactic(auto, using(crate::proofs::TokenLemmas::tokens_of_result))]
fn write_result(
    alloc: Global,
    out: &mut Writer,
    objects: &[CategoryObject],
    result_object: &ResultObject,
) -> Result<(), AllocError>
    ensures { Appends result out.old out.new (tokens (result_data objects.now result_object.now)) }
{
    let evaluated = &result_object.evaluated;
    let duties = &evaluated.duties;
    let places = result_object.places.as_slice();
    let ids = evaluated.ids.as_slice();
    out.begin_object()?;
    write_items_if_any(alloc, out, Member::AssociatedAdvice, duties.advice())?;
    write_included_objects(alloc, out, objects, places)?;
    write_text(out, Member::Decision, decision_text(evaluated.decision))?;
    write_items_if_any(alloc, out, Member::Obligations, duties.obligations())?;
    write_identifiers_if_any(alloc, out, ids)?;
    out.key(Member::Status.name())?;
    write_status(out, evaluated.status)?;
    out.end_object()
}

/// Writes an array of results.
fn write_results(
    alloc: Global,
    out: &mut Writer,
    objects: &[CategoryObject],
    results: &[ResultObject],
) -> Result<(), AllocError>
    ensures { Appends result out.old out.new (tokens (listing (map (result_data objects.now) results.now))) }
{
    out.begin_array()?;
    for result_object in results {
        write_result(alloc, out, objects, result_object)?;
    }
    out.end_array()
}
