//! Category objects, with their attributes to be found.
ghost use Rattle.std.specs.Prelude.{◌≡◌, ◌≤◌, [], ◌++◌, bytes_eq, filter, option_map, slice_get};
ghost use Rattle.std.specs.Prelude.{IfOk, IfSome, if◌then◌else◌};
ghost use Rattle.std.specs.List.{All, filter_map, flat_map};
ghost use Rattle.xa_bag.specs.Bag.{bag_of};
ghost use Rattle.xa_decide.specs.Context.{is_named_by, object_values};
ghost use Rattle.xa_decide.specs.indexing.Naming.{naming_values, said, said_by};
ghost use Rattle.xa_decide.specs.indexing.Types.{IsOfType, IsOfTypes};
ghost use Rattle.xa_profile.specs.writing.Lengths.{bytes_of_object};

use crate::attribute::push_attribute;
use crate::budget::Budget;
use crate::keys::{ByIssuer, ByName, issuer_key};
use crate::naming::{Naming, naming_of};
use crate::order::{are_few, item_at, order_of, places_among, units_of_search};
use crate::response_work::cost_of_object;
use crate::work::Work;
use crate::writing_cost::WritingCost;
use std::alloc::{AllocError, Global};
use std::marker::Model;
use xa_bag::{Bag, Members};
use xa_expr::Designator;
use xa_profile::{Attribute, CategoryObject};

/// A Category object, with its attributes to be found, what names its entity, and what it costs to write. It
/// is made once for an object, however many individual requests have it.
#[derive(Drop)]
pub(crate) struct IndexedObject<'a> {
    /// The object.
    object: &'a CategoryObject,
    /// The places of its attributes by their ids and types.
    by_name: Vec<usize>,
    /// Their places by their ids, types and issuers.
    by_issuer: Vec<usize>,
    /// Their values, to be searched if that is asked for often.
    members: Option<Vec<Members<'a>>>,
    /// What names its entity.
    naming: Naming<'a>,
    /// What it costs to write what stands of it in a result.
    writing_cost: WritingCost,
}

impl<'a> Model for IndexedObject<'a> {
    ghost use Rattle.std.specs.Prelude.{◌≡◌, ◌≤◌, map, IfSome};
    ghost use Rattle.xa_profile.specs.declared.category_object.CategoryObject.{CategoryObject as Object};
    ghost use Rattle.xa_decide.specs.indexing.Index.{IsOrder};
    ghost use Rattle.xa_decide.specs.indexing.Keys.{name_key_of, issuer_key_of};
    ghost use Rattle.xa_decide.specs.indexing.Naming.{naming_values, said, said_by};
    ghost use Rattle.xa_decide.specs.indexing.Types.{IsOfTypes};
    ghost use Rattle.xa_profile.specs.writing.Lengths.{bytes_of_object};

    ghost Value = { Object };

    ghost view = { λ o. o.object.now };

    ghost invariant = { λ o. IsOrder name_key_of o.object.now.attributes o.by_name.items
        × IsOrder issuer_key_of o.object.now.attributes o.by_issuer.items
        × IfSome o.members (λ members. members.items ≡ map (λ a. a.values) o.object.now.attributes)
        × (said_by o.naming ≡ said (naming_values o.object.now)) × IsOfTypes o.object.now
        × (o.writing_cost.bytes ≤ bytes_of_object o.object.now) };
}

impl<'a> IndexedObject<'a> {
    /// The object, with its attributes put in order.
    pub(crate) fn new(
        alloc: Global,
        work: &Work,
        object: &'a CategoryObject,
    ) -> Result<IndexedObject<'a>, AllocError>
        ensures { IfOk result (λ indexed. indexed ≡ object.now) }
    {
        let attributes = object.attributes.as_slice();
        keep_types(attributes);
        let by_name = order_of::<ByName>(alloc, attributes)?;
        let by_issuer = order_of::<ByIssuer>(alloc, attributes)?;
        Ok(IndexedObject {
            object,
            by_name,
            by_issuer,
            members: work.members(alloc, attributes)?,
            naming: naming_of(object),
            writing_cost: cost_of_object(object),
        })
    }

    /// What it costs to write what stands of the object in a result.
    pub(crate) fn writing_cost(&self) -> WritingCost
        ensures { result.bytes ≤ bytes_of_object self.now }
    {
        self.writing_cost
    }

    /// The units of a search among the object's attributes.
    pub(crate) fn units_of_search(&self) -> u64 {
        units_of_search(self.object.attributes.len())
    }

    /// The object's category.
    pub(crate) fn category(&self) -> &'a str
        ensures { result.now ≡ self.now.category }
    {
        self.object.category.as_str()
    }

    /// The object's attributes.
    pub(crate) fn attributes(&self) -> &'a [Attribute]
        ensures { result.now ≡ self.now.attributes }
    {
        self.object.attributes.as_slice()
    }

    /// The object's attributes, to be gone through one after another, if they are few and their values are
    /// looked at one by one.
    pub(crate) fn few(&self) -> Option<&'a [Attribute]>
        ensures { IfSome result (λ few. few.now ≡ self.now.attributes) }
    {
        match &self.members {
            None if are_few(self.object.attributes.len()) => Some(self.attributes()),
            _ => None,
        }
    }

    /// The attribute that has the place, and its values, to be searched; none of these, if they are looked
    /// at one by one.
    pub(crate) fn attribute_at(&self, place: usize) -> Option<(&'a Attribute, Option<&Members<'a>>)>
        ensures found { option_map (λ found. found.0.now) result ≡ slice_get self.now.attributes place }
        ensures values { IfSome result (λ found.
            IfSome found.1 (λ members. members.now ≡ found.0.now.values)) }
    {
        let attribute = item_at(self.attributes(), place)?;
        match &self.members {
            Some(members) => Some((attribute, item_at(members.as_slice(), place))),
            None => Some((attribute, None)),
        }
    }

    /// What names the object's entity, if the object is of the category.
    pub(crate) fn naming_in(&self, category: &str) -> Naming<'a>
        ensures { said_by result
            ≡ said (if bytes_eq self.now.category category.now then naming_values self.now else []) }
    {
        if self.category() == category {
            self.naming
        } else {
            Naming::Nobody
        }
    }

    /// Places among which are those of all attributes that the designator names and that have values.
    #[tactic(auto, using(crate::proofs::KeyLemmas::named_found, crate::proofs::KeyLemmas::issued_found))]
    pub(crate) fn places(&self, designator: &Designator) -> &[usize]
        ensures { flat_map (λ a. a.values.values)
            (filter (is_named_by designator.now) (filter_map (slice_get self.now.attributes) result.now))
            ≡ object_values designator.now self.now }
    {
        let attributes = self.object.attributes.as_slice();
        let id = designator.attribute_id.as_str();
        let key = issuer_key(id, designator.data_type, &designator.issuer);
        match &designator.issuer {
            None => places_among::<ByName>(attributes, self.by_name.as_slice(), &key),
            Some(_) => places_among::<ByIssuer>(attributes, self.by_issuer.as_slice(), &key),
        }
    }

    /// The values of each of the object's attributes are of its type: a law.
    pub(crate) fn keeps_types(&self)
        ensures { IsOfTypes self.now }
    {
        // For the proof: the clause, a part of the type's invariant.
        let _ = &self.object;
    }
}

/// Puts the values of the object's attributes that the designator names at the end of the bag.
pub(crate) fn push_object(
    budget: &Budget,
    bag: &mut Bag,
    designator: &Designator,
    object: &IndexedObject<'_>,
) -> Result<(), AllocError>
    requires { bag.old.data_type ≡ designator.now.data_type }
    ensures { IfOk result (λ _. bag.new
        ≡ bag_of designator.now.data_type (bag.old.values ++ object_values designator.now object.now)) }
{
    let places = object.places(designator);
    let attributes = object.attributes();
    for place in places {
        if let Some(attribute) = item_at(attributes, *place) {
            push_attribute(budget, bag, designator, attribute)?;
        }
    }
    Ok(())
}

/// The values of the attribute are of its type: a law.
fn keeps_type(attribute: &Attribute)
    ensures { IsOfType attribute.now }
{
    attribute.values.values();
}

/// The values of each attribute are of its type: a law, whose loop does nothing.
fn keep_types(attributes: &[Attribute])
    ensures { All IsOfType attributes.now }
{
    for attribute in attributes {
        keeps_type(attribute);
    }
}
