//! The attributes of a request that stand in a result.
ghost use Rattle.std.specs.Prelude.{◌≡◌, map, option_map, IfOk};
ghost use Rattle.std.specs.List.{slice_get};
ghost use Rattle.xa_profile.specs.Response.{attribute_data, category_data, included_attributes};
ghost use Rattle.xa_profile.specs.Response.{has_included, if_included, included_objects};

use crate::attribute::Attribute;
use crate::category_object::CategoryObject;
use crate::member::Member;
use crate::writing::{
    ToJson, write_data_type, write_items, write_text, write_text_if_any, write_values,
};
use json::Writer;
use std::alloc::{AllocError, Global};

impl ToJson for &Attribute {
    ghost written = { λ a. attribute_data a.now };

    #[tactic(auto, unfolding(crate::specs::Response::attribute_data), using(crate::proofs::TokenLemmas::text_if_any_first))]
    fn write(&self, alloc: Global, out: &mut Writer) -> Result<(), AllocError> {
        out.begin_object()?;
        write_text(out, Member::AttributeId, self.id.as_str())?;
        write_data_type(out, self.values.data_type())?;
        write_text_if_any(out, Member::Issuer, &self.issuer)?;
        out.key(Member::Value.name())?;
        write_values(alloc, out, self.values.values())?;
        out.end_object()
    }
}

impl ToJson for &CategoryObject {
    ghost written = { λ o. category_data o.now };

    #[tactic(auto, unfolding(crate::specs::Response::category_data))]
    fn write(&self, alloc: Global, out: &mut Writer) -> Result<(), AllocError> {
        let attributes = included_attributes(alloc, self.attributes.as_slice())?;
        out.begin_object()?;
        out.key(Member::Attribute.name())?;
        write_items(alloc, out, attributes.as_slice())?;
        write_text(out, Member::CategoryId, self.category.as_str())?;
        out.end_object()
    }
}

/// Whether one of the attributes is to stand in the result.
fn has_included(object: &CategoryObject) -> bool
    ensures { result ≡ has_included object.now }
{
    object
        .attributes
        .as_slice()
        .iter()
        .any(|attribute| attribute.include_in_result)
}

/// The object at the place, if one of its attributes is to stand in the result.
fn included_at(objects: &[CategoryObject], place: usize) -> Option<&CategoryObject>
    ensures { option_map (λ o. o.now) result ≡ if_included (slice_get objects.now place) }
{
    let object = objects.get(place)?;
    if has_included(object) {
        Some(object)
    } else {
        None
    }
}

/// The objects at the places that have an attribute that is to stand in the result.
pub(crate) fn included_objects<'a>(
    alloc: Global,
    objects: &'a [CategoryObject],
    places: &[usize],
) -> Result<Vec<&'a CategoryObject>, AllocError>
    ensures { IfOk result (λ found. map (λ o. category_data o.now) found.items
        ≡ map category_data (included_objects objects.now places.now)) }
{
    let mut found = Vec::new(alloc);
    for place in places {
        if let Some(object) = included_at(objects, *place) {
            found.push(object)?;
        }
    }
    Ok(found)
}

/// The attributes that are to stand in the result.
fn included_attributes(
    alloc: Global,
    attributes: &[Attribute],
) -> Result<Vec<&Attribute>, AllocError>
    ensures { IfOk result (λ found. map (λ a. attribute_data a.now) found.items
        ≡ map attribute_data (included_attributes attributes.now)) }
{
    let mut found = Vec::new(alloc);
    for attribute in attributes {
        if attribute.include_in_result {
            found.push(attribute)?;
        }
    }
    Ok(found)
}
