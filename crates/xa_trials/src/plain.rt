//! Rows of plain members: the value of a member under a type, and as which member it is written.
use crate::answer::Answer;
use crate::arguments::type_named;
use crate::field::{number_of, text_of, two_fields};
use crate::no_answer::NoAnswer;
use xa_value::{DataType, Plain, Text, TextRef, Value};

/// Adds a field of the member's kind and its value.
fn push_member(answer: &mut Answer, member: &Plain<Text>) {
    match member {
        Plain::Text(text) => answer.push_field("plain:text:", text.as_bytes()),
        Plain::Boolean(value) => answer.push_shown("plain:boolean:", value),
        Plain::Integer(value) => answer.push_shown("plain:integer:", value),
    }
}

/// Adds the value, and the member as which it is written.
fn push_both(
    answer: &mut Answer,
    data_type: DataType,
    plain: &Plain<TextRef<'_>>,
) -> Result<(), NoAnswer> {
    let read = Value::from_plain(answer.alloc(), data_type, plain);
    if let Some(value) = answer.success(read) {
        answer.push_value(&value);
        push_member(answer, &value.to_plain(answer.alloc())?);
    }
    Ok(())
}

/// The value of the member under the type, and the member as which it is written. The member is a
/// field `text:TEXT`, `boolean:true`, `boolean:false` or `integer:DIGITS`.
pub fn plain_member(answer: &mut Answer, fields: &[&str]) -> Result<(), NoAnswer> {
    let (name, member) = two_fields(fields)?;
    let data_type = type_named(name)?;
    let (kind, field) = member.split_once(':').ok_or(NoAnswer::Malformed)?;
    match kind {
        "text" => {
            let text = text_of(answer.alloc(), field)?;
            push_both(answer, data_type, &Plain::Text(TextRef::new(text.as_str())))
        }
        "boolean" => push_both(answer, data_type, &Plain::Boolean(number_of(field)?)),
        "integer" => push_both(answer, data_type, &Plain::Integer(number_of(field)?)),
        _ => Err(NoAnswer::Malformed),
    }
}
