//! Rows of requests: what a body is read as, and the individual requests that it makes.
use crate::answer::Answer;
use crate::field::only_bytes;
use crate::no_answer::NoAnswer;
use xa_profile::{Attribute, CategoryObject, Individual, Request};

/// Adds the attribute: its id, its issuer if it has one, whether it is included in the result, and its
/// type and values.
fn push_attribute(answer: &mut Answer, attribute: &Attribute) {
    answer.push_field("attribute:", attribute.id.as_bytes());
    if let Some(issuer) = &attribute.issuer {
        answer.push_field("issuer:", issuer.as_bytes());
    }
    if attribute.include_in_result {
        answer.push_word("included");
    }
    answer.push_field("of:", attribute.values.data_type().name().as_bytes());
    for value in attribute.values.values() {
        answer.push_value(value);
    }
}

/// Adds the object: its category, its id if it has one, and its attributes.
fn push_object(answer: &mut Answer, object: &CategoryObject) {
    answer.push_field("object:", object.category.as_bytes());
    if let Some(id) = &object.id {
        answer.push_field("id:", id.as_bytes());
    }
    for attribute in object.attributes.as_slice() {
        push_attribute(answer, attribute);
    }
}

/// Adds the request: its flags, its objects, and its end.
fn push_request(answer: &mut Answer, request: &Request) {
    if request.combined_decision {
        answer.push_word("combined");
    }
    if request.return_policy_id_list {
        answer.push_word("identified");
    }
    for object in request.objects.as_slice() {
        push_object(answer, object);
    }
    answer.push_word(".");
}

/// The request that the body is read as.
pub fn request(answer: &mut Answer, fields: &[&str]) -> Result<(), NoAnswer> {
    let body = only_bytes(answer.alloc(), fields)?;
    let read = Request::read(answer.alloc(), &body);
    if let Some(request) = answer.success(read) {
        push_request(answer, &request);
    }
    Ok(())
}

/// Adds the places of the individual request, with a comma before each.
fn push_individual(answer: &mut Answer, individual: &Individual) {
    match individual {
        Individual::BadReference => answer.push_shown("!", individual),
        Individual::Places(places) => {
            answer.push_word("at");
            for place in places.as_slice() {
                answer.append_shown(",", place);
            }
        }
    }
}

/// The individual requests that the body makes: of each the places of its objects.
pub fn individuals(answer: &mut Answer, fields: &[&str]) -> Result<(), NoAnswer> {
    let body = only_bytes(answer.alloc(), fields)?;
    let request = Request::read(answer.alloc(), &body)
        .ok()
        .ok_or(NoAnswer::Malformed)?;
    let individuals = request.individuals(answer.alloc());
    if let Some(individuals) = answer.success(individuals) {
        for individual in individuals.as_slice() {
            push_individual(answer, individual);
        }
    }
    Ok(())
}
