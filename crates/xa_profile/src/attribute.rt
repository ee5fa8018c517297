//! Attributes of a request.
ghost use Rattle.std.specs.Prelude.{◌≡◌, option_map, option_and_then, IfOk};
ghost use Rattle.std.specs.List.{list_all};
ghost use Rattle.std.specs.Option.{ok_or};
ghost use Rattle.serde_json.specs.Find.{as_str};
ghost use Rattle.xa_value.specs.Gives.{Gives};
ghost use Rattle.xa_value.specs.Order.{type_of};
ghost use Rattle.xa_value.specs.Types.{type_named, same_type};
ghost use Rattle.xa_profile.specs.Attribute.{plain_of, kind, is_one_kind, type_of_values};
ghost use Rattle.xa_profile.specs.Attribute.{named_type, bag, value, values, attribute};
ghost use Rattle.xa_profile.specs.Json.{items_if_any, each};
ghost use Rattle.xa_profile.specs.parsing.Tree.{view, items_view};

use crate::member::Member;
use crate::number::number;
use crate::reading::{
    Reader, check, each, flag, items_if_any, member_at, needed_text, optional_text,
};
use crate::request_error::RequestError;
use json::Value as Json;
use std::alloc::Global;
use xa_bag::Bag;
use xa_value::{DataType, Items, OrMemory, Plain, Text, TextRef, Value, map_error};

/// An attribute of a request (JSON Profile, section 4.2).
#[derive(Debug, Drop)]
pub struct Attribute {
    /// Its id.
    pub id: Text,
    /// Its issuer, if it has one.
    pub issuer: Option<Text>,
    /// Whether it is to stand in the result (IncludeInResult).
    pub include_in_result: bool,
    /// Its values and their type, which is string if none is named and there is no value.
    pub values: Bag,
}

/// Reads the kind of a value: the data type that its JSON type stands for.
#[derive(Drop)]
struct KindReader;

impl Reader for KindReader {
    type Output = DataType;

    ghost reads = { λ _ d. kind d };

    #[tactic(auto, unfolding(crate::specs::Attribute::kind))]
    fn read(&self, _alloc: Global, value: &Json<'_>) -> Result<DataType, OrMemory<RequestError>> {
        let plain = plain_of(value).ok_or(RequestError::NotProfile)?;
        Ok(plain.data_type())
    }
}

/// Reads an attribute.
#[derive(Drop)]
struct AttributeReader;

impl Reader for AttributeReader {
    type Output = Attribute;

    ghost reads = { λ _ d. attribute d };

    #[tactic(auto, unfolding(crate::specs::Attribute::attribute))]
    fn read(&self, alloc: Global, value: &Json<'_>) -> Result<Attribute, OrMemory<RequestError>> {
        let id = needed_text(alloc, member_at(value, Member::AttributeId))?;
        let issuer = optional_text(alloc, member_at(value, Member::Issuer))?;
        let include_in_result = flag(member_at(value, Member::IncludeInResult))?;
        let named = named_type(member_at(value, Member::DataType))?;
        let items = items_if_any(member_at(value, Member::Value));
        let values = values_of(alloc, named, items)?;
        Ok(Attribute {
            id,
            issuer,
            include_in_result,
            values,
        })
    }
}

/// A text, a boolean or a whole number.
fn plain_of<'a>(value: &Json<'a>) -> Option<Plain<TextRef<'a>>>
    ensures { result ≡ plain_of (view value.now) }
{
    match value {
        Json::String(text) => Some(Plain::Text(TextRef::new(*text))),
        Json::Bool(value) => Some(Plain::Boolean(*value)),
        Json::Number(text) => Some(Plain::Integer(number(text)?.as_i128()?)),
        _ => None,
    }
}

/// Whether the others are of the type.
fn are_all(data_type: DataType, others: &[DataType]) -> bool
    ensures { result ≡ list_all (λ other. same_type other data_type) others.now }
{
    others.iter().all(|other| other.is_same(data_type))
}

/// Whether the kinds are all the same.
fn is_one_kind(kinds: &[DataType]) -> bool
    ensures { result ≡ is_one_kind kinds.now }
{
    match kinds {
        [first, others @ ..] => are_all(*first, others),
        [] => true,
    }
}

/// The type of an attribute's values: the one that is named, else that of their kind, and string if there
/// is no value either.
fn type_of_values(named: Option<DataType>, kinds: &[DataType]) -> DataType
    ensures { result ≡ type_of_values named kinds.now }
{
    match (named, kinds) {
        (Some(named), _) => named,
        (None, [first, ..]) => *first,
        (None, []) => DataType::String,
    }
}

/// The type that a text names; the fault is NotProfile.
fn data_type(value: &Json<'_>) -> Result<DataType, RequestError>
    ensures { result ≡ ok_or (option_and_then type_named (as_str (view value.now))) RequestError.NotProfile }
{
    value
        .as_str()
        .and_then(DataType::from_uri)
        .ok_or(RequestError::NotProfile)
}

/// The type that is named, if one is; the fault is NotProfile.
fn named_type(value: Option<&Json<'_>>) -> Result<Option<DataType>, RequestError>
    ensures { result ≡ named_type (option_map (λ v. view v.now) value.entry) }
{
    match value {
        Some(value) => Ok(Some(data_type(value)?)),
        None => Ok(None),
    }
}

/// A value of the type; the fault is NotProfile.
#[tactic(auto, unfolding(crate::specs::Attribute::value))]
fn value_of(
    alloc: Global,
    data_type: DataType,
    json: &Json<'_>,
) -> Result<Value, OrMemory<RequestError>>
    ensures value { Gives result (value data_type (view json.now)) }
    ensures of_type { IfOk result (λ v. type_of v ≡ data_type) }
{
    let plain = plain_of(json).ok_or(RequestError::NotProfile)?;
    let value = Value::from_plain(alloc, data_type, &plain);
    map_error(value, |_| RequestError::NotProfile)
}

/// The bag of the values. From eight on they are shared with copies.
fn bag_of(
    alloc: Global,
    data_type: DataType,
    values: &[Json<'_>],
) -> Result<Bag, OrMemory<RequestError>>
    ensures { Gives result (bag data_type (items_view values.now)) }
{
    let mut bag = Bag::new(alloc, data_type);
    for value in values {
        bag.push(value_of(alloc, data_type, value)?)?;
    }
    Ok(bag.lent()?)
}

/// The values of an attribute, under the type that it names or by their kind.
#[tactic(auto, unfolding(crate::specs::Attribute::values))]
fn values_of(
    alloc: Global,
    named: Option<DataType>,
    items: &[Json<'_>],
) -> Result<Bag, OrMemory<RequestError>>
    ensures { Gives result (values named (items_view items.now)) }
{
    let kinds = each(alloc, &KindReader, items)?;
    check(is_one_kind(kinds.as_slice()))?;
    bag_of(alloc, type_of_values(named, kinds.as_slice()), items)
}

/// The attributes of a member; none if it is left out.
pub(crate) fn attributes_of(
    alloc: Global,
    member: Option<&Json<'_>>,
) -> Result<Items<Attribute>, OrMemory<RequestError>>
    ensures { Gives result (each attribute (items_if_any (option_map (λ v. view v.now) member.entry))) }
{
    each(alloc, &AttributeReader, items_if_any(member))
}
