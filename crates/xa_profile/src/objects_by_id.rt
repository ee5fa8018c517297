//! The objects that ids name.
ghost use Rattle.std.specs.Prelude.{◌≡◌, ℕ, List, Some, None, bytes_eq, if◌then◌else◌, IfOk, OnOk};
ghost use Rattle.std.specs.BTreeMap.{get_by};
ghost use Rattle.std.specs.Cmp.Lexicographic.{slice_cmp};
ghost use Rattle.std.specs.Option.{option_or};
ghost use Rattle.std.specs.Ordering.{nat_cmp};
ghost use Rattle.xa_profile.specs.Individuals.{has_id, place_named};

use crate::category_object::CategoryObject;
use std::alloc::{AllocError, Global};
use std::collections::BTreeMap;
use std::marker::Model;

/// The objects of a request, to be found by their ids.
#[derive(Drop)]
pub(crate) struct ObjectsById<'a> {
    objects: &'a [CategoryObject],
    /// The first place of each id.
    places: BTreeMap<&'a str, usize>,
}

impl<'a> Model for ObjectsById<'a> {
    ghost use Rattle.std.specs.Prelude.{◌≡◌, ℕ, List};
    ghost use Rattle.std.specs.BTreeMap.{get_by};
    ghost use Rattle.std.specs.Cmp.Lexicographic.{slice_cmp};
    ghost use Rattle.std.specs.Coded.{codes};
    ghost use Rattle.std.specs.Ordering.{nat_cmp};
    ghost use Rattle.xa_profile.specs.declared.category_object.CategoryObject.{CategoryObject as Object};
    ghost use Rattle.xa_profile.specs.contracts.category_object.CategoryObject as object;
    ghost use Rattle.xa_profile.specs.Individuals.{place_named};

    ghost Value = { List Object };

    ghost coded = { Prim.hlevel (codes, object.the_row.coded) };

    ghost view = { λ by_id. by_id.objects.now };

    ghost invariant = { λ by_id. (id : List ℕ)
        → get_by (λ k. slice_cmp nat_cmp id k.now) by_id.places ≡ place_named by_id.objects.now id };
}

impl<'a> ObjectsById<'a> {
    /// The objects. If two have the same id, the first is found.
    pub(crate) fn new(
        alloc: Global,
        objects: &'a [CategoryObject],
    ) -> Result<ObjectsById<'a>, AllocError>
        ensures { IfOk result (λ by_id. by_id ≡ objects.now) }
    {
        let places = first_places(alloc, objects)?;
        Ok(ObjectsById { objects, places })
    }

    /// The objects.
    pub(crate) fn objects(&self) -> &'a [CategoryObject]
        ensures { result.now ≡ self.now }
    {
        self.objects
    }

    /// The place of the object of that id.
    pub(crate) fn place(&self, id: &str) -> Option<usize>
        ensures { result ≡ place_named self.now id.now }
    {
        self.places.get(id).copied()
    }
}

/// Puts the place under the text, unless a place stands there already.
fn put_first<'a>(
    places: &mut BTreeMap<&'a str, usize>,
    text: &'a str,
    place: usize,
) -> Result<(), AllocError>
    ensures { OnOk result ((q : List ℕ) → get_by (λ k. slice_cmp nat_cmp q k.now) places.new
        ≡ option_or (get_by (λ k. slice_cmp nat_cmp q k.now) places.old)
        (if bytes_eq text.now q then Some place else None)) }
{
    if !places.contains_key(text) {
        places.insert(text, place)?;
    }
    Ok(())
}

/// Puts the place of the object under its id, if it has one, unless a place stands there already.
fn put_object<'a>(
    places: &mut BTreeMap<&'a str, usize>,
    object: &'a CategoryObject,
    place: usize,
) -> Result<(), AllocError>
    ensures { OnOk result ((q : List ℕ) → get_by (λ k. slice_cmp nat_cmp q k.now) places.new
        ≡ option_or (get_by (λ k. slice_cmp nat_cmp q k.now) places.old)
        (if has_id q object.now.id then Some place else None)) }
{
    match &object.id {
        Some(id) => put_first(places, id.as_str(), place),
        None => Ok(()),
    }
}

/// The place of the first object of each id.
fn first_places<'a>(
    alloc: Global,
    objects: &'a [CategoryObject],
) -> Result<BTreeMap<&'a str, usize>, AllocError>
    ensures { IfOk result (λ places.
        (id : List ℕ) → get_by (λ k. slice_cmp nat_cmp id k.now) places ≡ place_named objects.now id) }
{
    let mut places = BTreeMap::new(alloc);
    for (place, object) in objects.iter().enumerate() {
        put_object(&mut places, object, place)?;
    }
    Ok(places)
}
