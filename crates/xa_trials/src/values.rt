//! Rows of values: the types, what a text is read as, whether values are the same, and their order.
use crate::answer::Answer;
use crate::arguments::{type_named, value};
use crate::field::{bytes_of, number_of, only_field, only_number, only_text, text_of, two_fields};
use crate::no_answer::NoAnswer;
use std::alloc::Global;
use xa_value::{
    Category, DataType, DayTimeDuration, Value, YearMonthDuration, category_uri, number_up_to,
};

/// The type that the name names: its name, its URI and its number.
pub fn data_type(answer: &mut Answer, fields: &[&str]) -> Result<(), NoAnswer> {
    let name = only_text(answer.alloc(), fields)?;
    match DataType::from_uri(name.as_str()) {
        Some(data_type) => {
            answer.push_word(data_type.name());
            answer.push_word(data_type.uri());
            answer.push_shown("", &data_type.number());
        }
        None => answer.push_word("!None"),
    }
    Ok(())
}

/// The type of that number.
pub fn data_type_of_number(answer: &mut Answer, fields: &[&str]) -> Result<(), NoAnswer> {
    match DataType::from_number(only_number(fields)?) {
        Some(data_type) => answer.push_word(data_type.name()),
        None => answer.push_word("!None"),
    }
    Ok(())
}

/// The URI for which the name of a category stands, and whether its shorthand is a subject category's.
pub fn category(answer: &mut Answer, fields: &[&str]) -> Result<(), NoAnswer> {
    let name = only_field(fields)?;
    answer.push_word(category_uri(name));
    if let Some(category) = Category::from_shorthand(name) {
        answer.push_shown("", &category.is_subject());
    }
    Ok(())
}

/// What the text is read as under the type.
pub fn read(answer: &mut Answer, fields: &[&str]) -> Result<(), NoAnswer> {
    let (name, field) = two_fields(fields)?;
    let data_type = type_named(name)?;
    let text = text_of(answer.alloc(), field)?;
    let read = Value::read(answer.alloc(), data_type, text.as_str());
    if let Some(value) = answer.success(read) {
        answer.push_value(&value);
    }
    Ok(())
}

/// The values of the two fields.
fn two_values(alloc: Global, fields: &[&str]) -> Result<(Value, Value), NoAnswer> {
    let (left, right) = two_fields(fields)?;
    Ok((value(alloc, left)?, value(alloc, right)?))
}

/// Whether two values are the same.
pub fn same(answer: &mut Answer, fields: &[&str]) -> Result<(), NoAnswer> {
    let (left, right) = two_values(answer.alloc(), fields)?;
    answer.push_shown("", &left.same(&right));
    Ok(())
}

/// The order of two values.
pub fn order(answer: &mut Answer, fields: &[&str]) -> Result<(), NoAnswer> {
    let (left, right) = two_values(answer.alloc(), fields)?;
    answer.push_shown_or_none(left.order(&right));
    Ok(())
}

/// Adds a field of the duration; `!None` if there is none.
fn push_duration(answer: &mut Answer, duration: Option<Value>) {
    match duration {
        Some(duration) => answer.push_value(&duration),
        None => answer.push_word("!None"),
    }
}

/// The duration of this many months.
pub fn months(answer: &mut Answer, fields: &[&str]) -> Result<(), NoAnswer> {
    let duration = YearMonthDuration::new(only_number(fields)?).map(Value::YearMonthDuration);
    push_duration(answer, duration);
    Ok(())
}

/// The duration of this many nanoseconds.
pub fn nanoseconds(answer: &mut Answer, fields: &[&str]) -> Result<(), NoAnswer> {
    let duration = DayTimeDuration::new(only_number(fields)?).map(Value::DayTimeDuration);
    push_duration(answer, duration);
    Ok(())
}

/// The number that the digits write, if it is at most `most`.
pub fn number(answer: &mut Answer, fields: &[&str]) -> Result<(), NoAnswer> {
    let (most, field) = two_fields(fields)?;
    let digits = bytes_of(answer.alloc(), field)?;
    answer.push_shown_or_none(number_up_to(number_of(most)?, &digits));
    Ok(())
}
