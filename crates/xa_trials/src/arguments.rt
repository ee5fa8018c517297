//! Arguments as fields: a value is a field `TYPE:TEXT`, and a bag a field `bag:TYPE` with a field
//! `+TEXT` for each of its values.
use crate::field::text_of;
use crate::no_answer::NoAnswer;
use std::alloc::Global;
use xa_bag::{Bag, ValueOrBag};
use xa_value::{DataType, Value};

/// The type of that name.
pub fn type_named(name: &str) -> Result<DataType, NoAnswer> {
    DataType::from_uri(name).ok_or(NoAnswer::Malformed)
}

/// The value that the field's text stands for.
pub fn value_of(alloc: Global, data_type: DataType, field: &str) -> Result<Value, NoAnswer> {
    let text = text_of(alloc, field)?;
    Value::read(alloc, data_type, text.as_str())
        .ok()
        .ok_or(NoAnswer::Malformed)
}

/// The value of a field.
pub fn value(alloc: Global, field: &str) -> Result<Value, NoAnswer> {
    let (name, text) = field.split_once(':').ok_or(NoAnswer::Malformed)?;
    value_of(alloc, type_named(name)?, text)
}

/// Puts a value into the bag that the last argument is.
fn push_member(alloc: Global, last: Option<&mut ValueOrBag>, text: &str) -> Result<(), NoAnswer> {
    let Some(ValueOrBag::Bag(bag)) = last else {
        return Err(NoAnswer::Malformed);
    };
    let value = value_of(alloc, bag.data_type(), text)?;
    bag.push(value)?;
    Ok(())
}

/// The argument of a field that isn't a member of a bag.
fn argument(alloc: Global, field: &str) -> Result<ValueOrBag, NoAnswer> {
    match field.strip_prefix("bag:") {
        Some(name) => Ok(ValueOrBag::Bag(Bag::new(alloc, type_named(name)?))),
        None => Ok(ValueOrBag::Value(value(alloc, field)?)),
    }
}

/// The arguments of the fields.
pub fn arguments(alloc: Global, fields: &[&str]) -> Result<Vec<ValueOrBag>, NoAnswer> {
    let mut arguments = Vec::new(alloc);
    for field in fields {
        match field.strip_prefix("+") {
            Some(text) => push_member(alloc, arguments.last_mut(), text)?,
            None => arguments.push(argument(alloc, field)?)?,
        }
    }
    Ok(arguments)
}

/// The values that the arguments are; None if one is a bag.
pub fn values(alloc: Global, arguments: Vec<ValueOrBag>) -> Result<Option<Vec<Value>>, NoAnswer> {
    let mut values = Vec::new(alloc);
    for argument in arguments {
        match argument {
            ValueOrBag::Value(value) => values.push(value)?,
            ValueOrBag::Bag(_) => return Ok(None),
        }
    }
    Ok(Some(values))
}
