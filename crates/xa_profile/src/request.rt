//! Requests.
ghost use Rattle.std.specs.Prelude.{◌≡◌, map, option_map, IfOk};
ghost use Rattle.xa_value.specs.Gives.{Gives};
ghost use Rattle.xa_profile.specs.Json.{text};
ghost use Rattle.xa_profile.specs.Request.{has_twice, ids_of, reference, references_in};
ghost use Rattle.xa_profile.specs.Request.{all_references, request, request_of};
ghost use Rattle.xa_profile.specs.parsing.Tree.{view};

use crate::category_object::{CategoryObject, all_objects};
use crate::member::Member;
use crate::reading::{Reader, check, check_object, each, flag, items_or_itself, member_at, text};
use crate::repetition::has_twice;
use crate::request_error::RequestError;
use crate::tree::json;
use json::{Scratch, Value as Json};
use std::alloc::{AllocError, Global};
use xa_value::{Items, OrMemory, Text};

/// A request (JSON Profile, section 4).
#[derive(Debug, Drop)]
pub struct Request {
    /// Whether the policies and policy sets that applied are to be named (ReturnPolicyIdList).
    pub return_policy_id_list: bool,
    /// Whether one decision is asked for that stands for all individual ones (CombinedDecision).
    pub combined_decision: bool,
    /// The Category objects: those of the member Category, and then those under shorthands, in the order
    /// of these.
    pub objects: Items<CategoryObject>,
    /// The requests of MultiRequests, each by the ids of its objects; none if there is no such member,
    /// or no item in it.
    pub references: Items<Items<Text>>,
}

impl Request {
    /// The request that a body is (JSON Profile, section 4): NotJson of what is no JSON in UTF-8, and
    /// NotProfile of JSON that is no object with a member Request, or whose Request is none of the
    /// Profile: it has another shape, or two objects of one Id.
    #[tactic(auto, unfolding(crate::specs::Request::request_of))]
    pub fn read(alloc: Global, body: &[u8]) -> Result<Request, OrMemory<RequestError>>
        ensures { Gives result (request_of body.now) }
    {
        let mut scratch = Scratch::new(alloc);
        let value = json(alloc, body, &mut scratch)?;
        let member = member_at(&value, Member::Request).ok_or(RequestError::NotProfile)?;
        request_from(alloc, member)
    }
}

/// Reads an id.
#[derive(Drop)]
struct IdReader;

impl Reader for IdReader {
    type Output = Text;

    ghost reads = { λ _ d. text d };

    fn read(&self, alloc: Global, value: &Json<'_>) -> Result<Text, OrMemory<RequestError>> {
        text(alloc, value)
    }
}

/// Reads one of the requests of MultiRequests: the ids of its objects.
#[derive(Drop)]
struct ReferenceReader;

impl Reader for ReferenceReader {
    type Output = Items<Text>;

    ghost reads = { λ _ d. reference d };

    #[tactic(auto, unfolding(crate::specs::Request::reference))]
    fn read(&self, alloc: Global, value: &Json<'_>) -> Result<Items<Text>, OrMemory<RequestError>> {
        let ids = member_at(value, Member::ReferenceId).ok_or(RequestError::NotProfile)?;
        each(alloc, &IdReader, items_or_itself(ids))
    }
}

/// The requests of MultiRequests.
#[tactic(auto, unfolding(crate::specs::Request::references_in))]
fn references_in(
    alloc: Global,
    value: &Json<'_>,
) -> Result<Items<Items<Text>>, OrMemory<RequestError>>
    ensures { Gives result (references_in (view value.now)) }
{
    let references = member_at(value, Member::RequestReference).ok_or(RequestError::NotProfile)?;
    each(alloc, &ReferenceReader, items_or_itself(references))
}

/// The requests of MultiRequests; none if it is left out.
fn all_references(
    alloc: Global,
    value: Option<&Json<'_>>,
) -> Result<Items<Items<Text>>, OrMemory<RequestError>>
    ensures { Gives result (all_references (option_map (λ v. view v.now) value.entry)) }
{
    match value {
        Some(value) => references_in(alloc, value),
        None => Ok(Items::new(alloc)),
    }
}

/// The ids of those objects that have one.
fn ids_of(alloc: Global, objects: &[CategoryObject]) -> Result<Vec<&str>, AllocError>
    ensures { IfOk result (λ ids. map (λ id. id.now) ids.items ≡ ids_of objects.now) }
{
    let mut ids = Vec::new(alloc);
    for object in objects {
        if let Some(id) = &object.id {
            ids.push(id.as_str())?;
        }
    }
    Ok(ids)
}

/// Whether two objects have the same id.
fn has_id_twice(alloc: Global, objects: &[CategoryObject]) -> Result<bool, AllocError>
    ensures { IfOk result (λ twice. twice ≡ has_twice (ids_of objects.now)) }
{
    let ids = ids_of(alloc, objects)?;
    has_twice(alloc, ids.as_slice())
}

/// The request that the JSON is.
#[tactic(auto, unfolding(crate::specs::Request::request))]
fn request_from(alloc: Global, value: &Json<'_>) -> Result<Request, OrMemory<RequestError>>
    ensures { Gives result (request (view value.now)) }
{
    check_object(value)?;
    let return_policy_id_list = flag(member_at(value, Member::ReturnPolicyIdList))?;
    let combined_decision = flag(member_at(value, Member::CombinedDecision))?;
    let objects = all_objects(alloc, value)?;
    check(!has_id_twice(alloc, objects.as_slice())?)?;
    let references = all_references(alloc, member_at(value, Member::MultiRequests))?;
    Ok(Request {
        return_policy_id_list,
        combined_decision,
        objects,
        references,
    })
}
