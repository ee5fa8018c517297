//! Category objects of a request.
ghost use Rattle.std.specs.Prelude.{◌≡◌, option_map};
ghost use Rattle.xa_value.specs.Gives.{Gives};
ghost use Rattle.xa_profile.specs.Json.{each, items_if_any};
ghost use Rattle.xa_profile.specs.parsing.Json.{behind};
ghost use Rattle.xa_profile.specs.parsing.Tree.{view};
ghost use Rattle.xa_profile.specs.Request.{named_category, category_of, category_object};
ghost use Rattle.xa_profile.specs.Request.{under_shorthands, all_objects};

use crate::attribute::{Attribute, attributes_of};
use crate::member::Member;
use crate::reading::{
    Reader, check_object, each_behind, items_if_any, member_at, optional_text, shorthand_at,
};
use crate::request_error::RequestError;
use json::Value as Json;
use std::alloc::Global;
use xa_value::{Category, Items, OrMemory, Text, category_uri};

/// A Category object of a request (JSON Profile, section 4.2): attributes of one category.
#[derive(Debug, Drop)]
pub struct CategoryObject {
    /// The category's URI.
    pub category: Text,
    /// The id by which a reference names the object.
    pub id: Option<Text>,
    /// The attributes.
    pub attributes: Items<Attribute>,
}

/// Reads a Category object.
#[derive(Drop)]
struct ObjectReader {
    /// The category under whose shorthand the object stands, if it does.
    shorthand: Option<Category>,
}

impl Reader for ObjectReader {
    type Output = CategoryObject;

    ghost reads = { λ reader d. category_object reader.shorthand d };

    #[tactic(auto, unfolding(crate::specs::Request::category_object))]
    fn read(
        &self,
        alloc: Global,
        value: &Json<'_>,
    ) -> Result<CategoryObject, OrMemory<RequestError>> {
        check_object(value)?;
        let category = category_of(alloc, self.shorthand, value)?;
        let id = optional_text(alloc, member_at(value, Member::Id))?;
        let attributes = attributes_of(alloc, member_at(value, Member::Attribute))?;
        Ok(CategoryObject {
            category,
            id,
            attributes,
        })
    }
}

/// The category that an object names; the fault is NotProfile.
fn named_category(alloc: Global, value: Option<&Json<'_>>) -> Result<Text, OrMemory<RequestError>>
    ensures { Gives result (named_category (option_map (λ v. view v.now) value.entry)) }
{
    let name = value
        .and_then(Json::as_str)
        .ok_or(RequestError::NotProfile)?;
    Ok(Text::new(alloc, category_uri(name))?)
}

/// The category of an object, under a shorthand or not.
fn category_of(
    alloc: Global,
    shorthand: Option<Category>,
    value: &Json<'_>,
) -> Result<Text, OrMemory<RequestError>>
    ensures { Gives result (category_of shorthand (view value.now)) }
{
    match shorthand {
        Some(category) => Ok(Text::new(alloc, category.uri())?),
        None => named_category(alloc, member_at(value, Member::CategoryId)),
    }
}

/// The objects of the member, under a shorthand or not, after those that are there.
fn with_objects(
    alloc: Global,
    objects: Items<CategoryObject>,
    shorthand: Option<Category>,
    value: Option<&Json<'_>>,
) -> Result<Items<CategoryObject>, OrMemory<RequestError>>
    ensures { Gives result (behind objects
        (each (category_object shorthand) (items_if_any (option_map (λ v. view v.now) value.entry)))) }
{
    let reader = ObjectReader { shorthand };
    each_behind(alloc, objects, &reader, items_if_any(value))
}

/// The objects under shorthands, after those that are there.
fn with_shorthands(
    alloc: Global,
    mut objects: Items<CategoryObject>,
    shorthands: &[Category],
    value: &Json<'_>,
) -> Result<Items<CategoryObject>, OrMemory<RequestError>>
    ensures { Gives result (behind objects (under_shorthands shorthands.now (view value.now))) }
{
    for category in shorthands {
        let member = shorthand_at(value, *category);
        objects = with_objects(alloc, objects, Some(*category), member)?;
    }
    Ok(objects)
}

/// All objects of a request: those of the member Category, and then those under shorthands.
#[tactic(auto, unfolding(crate::specs::Request::all_objects))]
pub(crate) fn all_objects(
    alloc: Global,
    value: &Json<'_>,
) -> Result<Items<CategoryObject>, OrMemory<RequestError>>
    ensures { Gives result (all_objects (view value.now)) }
{
    let member = member_at(value, Member::Category);
    let objects = with_objects(alloc, Items::new(alloc), None, member)?;
    with_shorthands(alloc, objects, &Category::ALL, value)
}
