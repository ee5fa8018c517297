//! What it costs to write a result. It is asked before anything is written, so that a small request for a
//! large response is refused early. Clauses say that the bytes that are counted are written.
ghost use Rattle.std.specs.Prelude.{◌≤◌, ◌+◌, map, slice_get};
ghost use Rattle.xa_profile.specs.writing.Lengths.{bytes_of_all, bytes_of_assignment, bytes_of_attribute};
ghost use Rattle.xa_profile.specs.writing.Lengths.{bytes_of_duty, bytes_of_key, bytes_of_object};
ghost use Rattle.xa_profile.specs.writing.Lengths.{bytes_of_object_if_any, bytes_of_result};

use crate::indexed_object::IndexedObject;
use crate::writing_cost::WritingCost;
use xa_policy::{AttributeAssignment, DocumentKey, Duty};
use xa_profile::{Attribute, CategoryObject, ResultObject};
use xa_value::Shared;

/// An attribute beside its texts and values: names of members, marks and the URI of a data type, which
/// are at most so many bytes, and at least half as many.
const ATTRIBUTE: WritingCost = WritingCost {
    units: 128,
    bytes: 64,
};

/// A Category object beside its category and attributes.
const OBJECT: WritingCost = WritingCost {
    units: 128,
    bytes: 32,
};

/// An obligation or a piece of advice beside its id and attributes.
const DUTY: WritingCost = WritingCost {
    units: 128,
    bytes: 8,
};

/// A result beside its objects, obligations and advice.
const RESULT: WritingCost = WritingCost {
    units: 128,
    bytes: 64,
};

/// A policy or a policy set that is named, beside its id and its version.
const IDENTIFIER: WritingCost = WritingCost {
    units: 32,
    bytes: 16,
};

/// The units of a number of a version, with a dot.
const NUMBER: u64 = 10;

/// What it costs to write an attribute of the request: nothing, if it isn't to stand in a result.
#[tactic(auto, using(xa_profile::proofs::LengthLemmas::attribute_takes))]
fn cost_of_attribute(attribute: &Attribute) -> WritingCost
    ensures { result.bytes ≤ bytes_of_attribute attribute.now }
{
    if !attribute.include_in_result {
        return WritingCost::NOTHING;
    }
    ATTRIBUTE
        .and(WritingCost::of_text(&attribute.id))
        .and(WritingCost::of_text_if_any(&attribute.issuer))
        .and(WritingCost::of_bag(&attribute.values))
}

/// What it costs to write those of the attributes that are to stand in a result.
fn cost_of_attributes(attributes: &[Attribute]) -> WritingCost
    ensures { result.bytes ≤ bytes_of_all bytes_of_attribute attributes.now }
{
    let mut cost = WritingCost::NOTHING;
    for attribute in attributes {
        cost = cost.and(cost_of_attribute(attribute));
    }
    cost
}

/// What it costs to write what stands of the object in each result that has it: nothing, if none of its
/// attributes is to stand there.
#[tactic(auto, using(xa_profile::proofs::LengthLemmas::object_takes))]
pub(crate) fn cost_of_object(object: &CategoryObject) -> WritingCost
    ensures { result.bytes ≤ bytes_of_object object.now }
{
    let attributes = cost_of_attributes(object.attributes.as_slice());
    if attributes.bytes == 0 {
        return WritingCost::NOTHING;
    }
    OBJECT
        .and(attributes)
        .and(WritingCost::of_text(&object.category))
}

/// What it costs to write what stands of the object at the place in a result; nothing, if there is none.
fn cost_at(objects: &[IndexedObject<'_>], place: usize) -> WritingCost
    ensures { result.bytes ≤ bytes_of_object_if_any (slice_get objects.now place) }
{
    match objects.get(place) {
        Some(object) => object.writing_cost(),
        None => WritingCost::NOTHING,
    }
}

/// What it costs to write what stands of the objects at the places in a result.
fn cost_of_places(objects: &[IndexedObject<'_>], places: &[usize]) -> WritingCost
    ensures { result.bytes ≤ bytes_of_all bytes_of_object_if_any (map (slice_get objects.now) places.now) }
{
    let mut cost = WritingCost::NOTHING;
    for place in places {
        cost = cost.and(cost_at(objects, *place));
    }
    cost
}

/// What it costs to write an attribute that an obligation or a piece of advice carries.
#[tactic(auto, using(xa_profile::proofs::LengthLemmas::assignment_takes))]
fn cost_of_assignment(assignment: &AttributeAssignment) -> WritingCost
    ensures { result.bytes ≤ bytes_of_assignment assignment.now }
{
    ATTRIBUTE
        .and(WritingCost::of_text(&assignment.attribute_id))
        .and(WritingCost::of_text_if_any(&assignment.category))
        .and(WritingCost::of_text_if_any(&assignment.issuer))
        .and(WritingCost::of_value(&assignment.value))
}

/// What it costs to write what an obligation or a piece of advice carries.
fn cost_of_assignments(assignments: &[AttributeAssignment]) -> WritingCost
    ensures { result.bytes ≤ bytes_of_all bytes_of_assignment assignments.now }
{
    let mut cost = WritingCost::NOTHING;
    for assignment in assignments {
        cost = cost.and(cost_of_assignment(assignment));
    }
    cost
}

/// What it costs to write an obligation or a piece of advice.
#[tactic(auto, using(xa_profile::proofs::LengthLemmas::duty_takes))]
fn cost_of_duty(duty: &Duty) -> WritingCost
    ensures { result.bytes ≤ bytes_of_duty duty.now }
{
    DUTY.and(WritingCost::of_text(&duty.id))
        .and(cost_of_assignments(duty.assignments.as_slice()))
}

/// What it costs to write obligations, or advice.
fn cost_of_duties(duties: &[Duty]) -> WritingCost
    ensures { result.bytes ≤ bytes_of_all bytes_of_duty duties.now }
{
    let mut cost = WritingCost::NOTHING;
    for duty in duties {
        cost = cost.and(cost_of_duty(duty));
    }
    cost
}

/// What it costs to name a policy or a policy set.
#[tactic(auto, using(xa_profile::proofs::LengthLemmas::key_takes))]
fn cost_of_key(key: &DocumentKey) -> WritingCost
    ensures { result.bytes ≤ bytes_of_key key.now }
{
    let count = key.version.numbers().len() as u64;
    let version = WritingCost {
        units: NUMBER.saturating_mul(count),
        bytes: 0,
    };
    IDENTIFIER.and(WritingCost::of_text(&key.id)).and(version)
}

/// What it costs to name the policies and policy sets.
fn cost_of_keys(keys: &[Shared<DocumentKey>]) -> WritingCost
    ensures { result.bytes ≤ bytes_of_all bytes_of_key keys.now }
{
    let mut cost = WritingCost::NOTHING;
    for key in keys {
        cost = cost.and(cost_of_key(key.get()));
    }
    cost
}

/// What it costs to write the result.
#[tactic(auto, using(xa_profile::proofs::LengthLemmas::result_takes))]
pub(crate) fn cost_of_result(
    objects: &[IndexedObject<'_>],
    result_object: &ResultObject,
) -> WritingCost
    ensures { result.bytes ≤ bytes_of_result objects.now result_object.now }
{
    let evaluated = &result_object.evaluated;
    RESULT
        .and(cost_of_places(objects, result_object.places.as_slice()))
        .and(cost_of_duties(evaluated.duties.obligations()))
        .and(cost_of_duties(evaluated.duties.advice()))
        .and(cost_of_keys(evaluated.ids.as_slice()))
}
