//! How members are read from the JSON of a request, which borrows its texts from the body. Some of this is
//! what xa_notation has for documents, whose JSON owns its texts and is of another type.
ghost use Rattle.std.specs.Prelude.{◌≡◌, Result, option_map};
ghost use Rattle.serde_json.specs.Data.{Data};
ghost use Rattle.serde_json.specs.Find.{get};
ghost use Rattle.xa_value.specs.Category.{shorthand_of};
ghost use Rattle.xa_value.specs.Gives.{Gives};
ghost use Rattle.xa_profile.specs.declared.request_error.RequestError.{RequestError as ReadFault};
ghost use Rattle.xa_profile.specs.Json.{at, text, check_object, holds_or_not_profile, needed_text};
ghost use Rattle.xa_profile.specs.Json.{optional_text, flag, items_or_itself, items_if_any, each};
ghost use Rattle.xa_profile.specs.parsing.Json.{behind};
ghost use Rattle.xa_profile.specs.parsing.Tree.{view, items_view};

use crate::member::Member;
use crate::request_error::RequestError;
use json::Value as Json;
use std::alloc::Global;
use std::slice;
use xa_value::{Category, Items, OrMemory, Text};

/// A reader of one value.
pub(crate) trait Reader {
    /// What a value is read as.
    type Output;

    /// What a value stands for, or its first fault.
    ghost reads: { Self → Data → Result Self.Output ReadFault };

    /// What the value stands for, or its first fault.
    fn read(&self, alloc: Global, value: &Json<'_>) -> Result<Self::Output, OrMemory<RequestError>>
        ensures { Gives result (reads self.now (view value.now)) };
}

/// The member of that name.
pub(crate) fn member_at<'v, 'a>(value: &'v Json<'a>, name: Member) -> Option<&'v Json<'a>>
    ensures { option_map (λ v. view v.now) result ≡ at name (view value.now) }
{
    value.get(name.name())
}

/// The member of the name that is the category's shorthand.
pub(crate) fn shorthand_at<'v, 'a>(value: &'v Json<'a>, category: Category) -> Option<&'v Json<'a>>
    ensures { option_map (λ v. view v.now) result ≡ get (shorthand_of category) (view value.now) }
{
    value.get(category.shorthand())
}

/// Nothing, if the condition holds; else the fault NotProfile.
pub(crate) fn check(holds: bool) -> Result<(), RequestError>
    ensures { result ≡ holds_or_not_profile holds }
{
    if holds {
        Ok(())
    } else {
        Err(RequestError::NotProfile)
    }
}

/// Checks that the value is an object; the fault is NotProfile.
pub(crate) fn check_object(value: &Json<'_>) -> Result<(), RequestError>
    ensures { result ≡ check_object (view value.now) }
{
    check(matches!(value, Json::Object(_)))
}

/// A copy of a text; the fault is NotProfile.
pub(crate) fn text(alloc: Global, value: &Json<'_>) -> Result<Text, OrMemory<RequestError>>
    ensures { Gives result (text (view value.now)) }
{
    let text = value.as_str().ok_or(RequestError::NotProfile)?;
    Ok(Text::new(alloc, text)?)
}

/// A copy of a text that has to be there; the fault is NotProfile.
pub(crate) fn needed_text(
    alloc: Global,
    value: Option<&Json<'_>>,
) -> Result<Text, OrMemory<RequestError>>
    ensures { Gives result (needed_text (option_map (λ v. view v.now) value.entry)) }
{
    let value = value.ok_or(RequestError::NotProfile)?;
    text(alloc, value)
}

/// A copy of a text that may be left out; the fault is NotProfile.
pub(crate) fn optional_text(
    alloc: Global,
    value: Option<&Json<'_>>,
) -> Result<Option<Text>, OrMemory<RequestError>>
    ensures { Gives result (optional_text (option_map (λ v. view v.now) value.entry)) }
{
    match value {
        Some(value) => Ok(Some(text(alloc, value)?)),
        None => Ok(None),
    }
}

/// True or false, and false if it is left out; the fault is NotProfile.
pub(crate) fn flag(value: Option<&Json<'_>>) -> Result<bool, RequestError>
    ensures { result ≡ flag (option_map (λ v. view v.now) value.entry) }
{
    match value {
        Some(value) => value.as_bool().ok_or(RequestError::NotProfile),
        None => Ok(false),
    }
}

/// An array's items; anything else stands for an array of itself.
pub(crate) fn items_or_itself<'v, 'a>(value: &'v Json<'a>) -> &'v [Json<'a>]
    ensures { items_view result.now ≡ items_or_itself (view value.now) }
{
    match value {
        Json::Array(items) => items.as_slice(),
        _ => slice::from_ref(value),
    }
}

/// The items of a member; none if it is left out.
pub(crate) fn items_if_any<'v, 'a>(value: Option<&'v Json<'a>>) -> &'v [Json<'a>]
    ensures { items_view result.now ≡ items_if_any (option_map (λ v. view v.now) value.entry) }
{
    match value {
        Some(value) => items_or_itself(value),
        None => Default::default(),
    }
}

/// Each of the values, read in order, after the items.
pub(crate) fn each_behind<R: Reader>(
    alloc: Global,
    mut items: Items<R::Output>,
    reader: &R,
    values: &[Json<'_>],
) -> Result<Items<R::Output>, OrMemory<RequestError>>
where
    R::Output: Drop,
    ensures { Gives result (behind items (each (R.reads reader.now) (items_view values.now))) }
{
    for value in values {
        items.push(reader.read(alloc, value)?)?;
    }
    Ok(items)
}

/// Each of the values, read in order.
#[tactic(auto, using(crate::proofs::JsonLemmas::behind_none))]
pub(crate) fn each<R: Reader>(
    alloc: Global,
    reader: &R,
    values: &[Json<'_>],
) -> Result<Items<R::Output>, OrMemory<RequestError>>
where
    R::Output: Drop,
    ensures { Gives result (each (R.reads reader.now) (items_view values.now)) }
{
    each_behind(alloc, Items::new(alloc), reader, values)
}
