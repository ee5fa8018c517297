//! Rows of functions: what a name names, and what a function gives for its arguments.
use crate::answer::Answer;
use crate::arguments::{arguments, values};
use crate::field::{first_field_and_rest, only_text};
use crate::no_answer::NoAnswer;
use std::fmt::Debug;
use xa_bag::{BagFault, ValueOrBag, apply_bag_function, apply_higher_order};
use xa_func::{BagFunction, FuncFault, FuncId, HigherOrder, Status};
use xa_value::{DataType, OrMemory, Value};

/// The function that the name names, and its signature.
pub fn function(answer: &mut Answer, fields: &[&str]) -> Result<(), NoAnswer> {
    let name = only_text(answer.alloc(), fields)?;
    match FuncId::from_uri(name.as_str()) {
        Some(function) => {
            answer.push_shown("", &function);
            answer.push_shown("", &function.signature());
        }
        None => answer.push_word("!None"),
    }
    Ok(())
}

/// Adds a fault, with its status.
fn push_fault(answer: &mut Answer, fault: &impl Debug, status: Status) {
    answer.push_shown("!", fault);
    answer.push_word(status.uri());
}

/// Adds the value or the bag.
fn push_value_or_bag(answer: &mut Answer, given: &ValueOrBag) {
    match given {
        ValueOrBag::Value(value) => answer.push_value(value),
        ValueOrBag::Bag(bag) => {
            answer.push_field("bag:", bag.data_type().name().as_bytes());
            for value in bag.values() {
                answer.push_text("+", value);
            }
        }
    }
}

/// Adds what a function of values gave.
fn push_outcome(answer: &mut Answer, outcome: Result<Value, OrMemory<FuncFault>>) {
    match outcome {
        Ok(value) => answer.push_value(&value),
        Err(OrMemory::Error(found)) => push_fault(answer, &found, found.status()),
        Err(OrMemory::Memory) => answer.cut(),
    }
}

/// Adds what a function of bags, or a higher-order function, gave.
fn push_bag_outcome(
    answer: &mut Answer,
    outcome: Result<ValueOrBag, OrMemory<BagFault<FuncFault>>>,
) {
    match outcome {
        Ok(found) => push_value_or_bag(answer, &found),
        Err(OrMemory::Error(BagFault::Inner(found))) => push_fault(answer, &found, found.status()),
        Err(OrMemory::Error(found)) => push_fault(answer, &found, found.status()),
        Err(OrMemory::Memory) => answer.cut(),
    }
}

/// Adds what the function of values gives.
fn apply_to_values(
    answer: &mut Answer,
    function: FuncId,
    arguments: Vec<ValueOrBag>,
) -> Result<(), NoAnswer> {
    match values(answer.alloc(), arguments)? {
        Some(values) if function.takes(values.as_slice()) => {
            push_outcome(answer, function.apply(answer.alloc(), values.as_slice()));
        }
        _ => answer.push_word("!NotTaken"),
    }
    Ok(())
}

/// Adds what the function of bags of the type gives.
fn apply_to_bags(
    answer: &mut Answer,
    function: BagFunction,
    data_type: DataType,
    arguments: &[ValueOrBag],
) {
    let alloc = answer.alloc();
    let signature = FuncId::Bag(function, data_type).signature();
    if signature.accepts(arguments) {
        push_bag_outcome(
            answer,
            apply_bag_function(alloc, function, data_type, arguments),
        );
    } else {
        answer.push_word("!NotTaken");
    }
}

/// What the function that the first field names gives for the arguments.
pub fn apply(answer: &mut Answer, fields: &[&str]) -> Result<(), NoAnswer> {
    let (name, fields) = first_field_and_rest(fields)?;
    let arguments = arguments(answer.alloc(), fields)?;
    match FuncId::from_uri(name) {
        Some(FuncId::Bag(function, data_type)) => {
            apply_to_bags(answer, function, data_type, arguments.as_slice());
        }
        Some(function) => apply_to_values(answer, function, arguments)?,
        None => answer.push_word("!NotTaken"),
    }
    Ok(())
}

/// Adds what the higher-order function gives for the inner function and the arguments.
fn apply_each(answer: &mut Answer, function: HigherOrder, inner: FuncId, arguments: &[ValueOrBag]) {
    let alloc = answer.alloc();
    if inner.takes_each(arguments) {
        push_bag_outcome(
            answer,
            apply_higher_order(alloc, function, &inner, arguments),
        );
    } else {
        answer.push_word("!NotTaken");
    }
}

/// What the higher-order function of that name gives for the inner function that the next field names, and
/// the arguments.
pub fn higher(answer: &mut Answer, fields: &[&str]) -> Result<(), NoAnswer> {
    let [name, inner, fields @ ..] = fields else {
        return Err(NoAnswer::FieldCount);
    };
    let arguments = arguments(answer.alloc(), fields)?;
    match (FuncId::from_uri(name), FuncId::from_uri(inner)) {
        (Some(FuncId::HigherOrder(function)), Some(inner)) => {
            apply_each(answer, function, inner, arguments.as_slice());
        }
        _ => answer.push_word("!NotTaken"),
    }
    Ok(())
}
