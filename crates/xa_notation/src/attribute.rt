//! Literals and attribute designators.
ghost use Rattle.std.specs.Prelude.{◌≡◌, option_and_then};
ghost use Rattle.serde_json.specs.Find.{as_integer, as_number};
ghost use Rattle.serde_json.specs.View.{view};
ghost use Rattle.xa_value.specs.Gives.{Gives};
ghost use Rattle.xa_value.specs.Plain.{from_plain};
ghost use Rattle.xa_notation.specs.Values.{attribute_value, designator, literal, or_bad, plain_value};

use crate::json::{check_members, flag, member_at, needed_member, optional_text, text_copy};
use crate::member::Member;
use crate::notation_error::NotationError;
use crate::plain_members::{category, data_type};
use crate::tables::Object;
use serde_json::Value as Json;
use std::alloc::Global;
use xa_expr::Designator;
use xa_value::{DataType, OrMemory, Plain, TextRef, Value, map_error};

/// The whole number, if the value is one.
fn whole_number(value: &Json) -> Option<i128>
    ensures { result ≡ option_and_then as_integer (as_number (view value.now)) }
{
    value.as_number()?.as_i128()
}

/// A text, a boolean or a whole number.
fn plain_value(value: &Json) -> Option<Plain<TextRef<'_>>>
    ensures { result ≡ plain_value (view value.now) }
{
    if let Some(text) = value.as_str() {
        return Some(Plain::Text(TextRef::new(text)));
    }
    if let Some(value) = value.as_bool() {
        return Some(Plain::Boolean(value));
    }
    Some(Plain::Integer(whole_number(value)?))
}

/// The value of the plain member.
fn typed_value(
    alloc: Global,
    data_type: DataType,
    plain: &Plain<TextRef<'_>>,
) -> Result<Value, OrMemory<NotationError>>
    ensures { Gives result (or_bad (from_plain data_type plain.now)) }
{
    let value = Value::from_plain(alloc, data_type, plain);
    map_error(value, |_| NotationError::BadValue)
}

/// The value of the type that a text, a boolean or a whole number stands for; the fault is BadValue.
pub fn literal(
    alloc: Global,
    data_type: DataType,
    value: &Json,
) -> Result<Value, OrMemory<NotationError>>
    ensures { Gives result (literal data_type (view value.now)) }
{
    let plain = plain_value(value).ok_or(NotationError::BadValue)?;
    typed_value(alloc, data_type, &plain)
}

/// A literal (XACML 3.0, core, section 5.31).
#[tactic(auto, unfolding(crate::specs::Values::attribute_value))]
pub(crate) fn attribute_value(alloc: Global, value: &Json) -> Result<Value, OrMemory<NotationError>>
    ensures { Gives result (attribute_value (view value.now)) }
{
    check_members(value, Object::AttributeValue)?;
    let data_type = data_type(needed_member(value, Member::DataType)?)?;
    literal(alloc, data_type, needed_member(value, Member::Value)?)
}

/// An attribute designator (core, section 5.29).
#[tactic(auto, unfolding(crate::specs::Values::designator))]
pub(crate) fn designator(alloc: Global, value: &Json) -> Result<Designator, OrMemory<NotationError>>
    ensures { Gives result (designator (view value.now)) }
{
    check_members(value, Object::AttributeDesignator)?;
    let category = category(alloc, needed_member(value, Member::Category)?)?;
    let attribute_id = text_copy(alloc, needed_member(value, Member::AttributeId)?)?;
    let data_type = data_type(needed_member(value, Member::DataType)?)?;
    let must_be_present = flag(needed_member(value, Member::MustBePresent)?)?;
    let issuer = optional_text(alloc, member_at(value, Member::Issuer))?;
    Ok(Designator {
        category,
        attribute_id,
        data_type,
        must_be_present,
        issuer,
    })
}
