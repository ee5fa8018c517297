//! The Category objects of an individual request.
ghost use Rattle.std.specs.Prelude.{◌≡◌, [], ◌++◌, map, filter, bytes_eq};
ghost use Rattle.std.specs.Prelude.{option_map, slice_get, IfOk, if◌then◌else◌};
ghost use Rattle.std.specs.List.{All, filter_map, flat_map};
ghost use Rattle.xa_bag.specs.Bag.{bag_of};
ghost use Rattle.xa_decide.specs.Context.{entity, object_values, request_values};
ghost use Rattle.xa_decide.specs.Decision.{objects_at};
ghost use Rattle.xa_decide.specs.indexing.Naming.{naming_values, said, said_by};
ghost use Rattle.xa_decide.specs.indexing.Types.{IsOfTypes};

use crate::budget::Budget;
use crate::indexed_object::{IndexedObject, push_object};
use crate::key::Key;
use crate::keys::category_key;
use crate::naming::Naming;
use crate::order::{Keying, item_at, order_of, places_among, units_of_search};
use std::alloc::{AllocError, Global};
use std::marker::{Model, PhantomData};
use xa_bag::Bag;
use xa_expr::Designator;

/// Category objects by their categories.
struct ByCategory<'a> {
    /// There is no value of the type: this gives it the lifetime of its items, which are references.
    _of: PhantomData<&'a IndexedObject<'a>>,
}

impl<'a> Keying for ByCategory<'a> {
    ghost use Rattle.xa_decide.specs.indexing.Keys.{object_key_of};

    type Item = &'a IndexedObject<'a>;

    ghost key_of = { object_key_of };

    fn key<'i>(object: &'i &'a IndexedObject<'a>) -> Key<'i> {
        category_key(object.category())
    }
}

/// The Category objects of an individual request, to be found by their categories.
#[derive(Drop)]
pub(crate) struct IndividualObjects<'a> {
    /// The objects, in request order.
    objects: Vec<&'a IndexedObject<'a>>,
    /// Their places by their categories.
    order: Vec<usize>,
    /// The units of finding an attribute of one of them.
    search: u64,
}

impl<'a> Model for IndividualObjects<'a> {
    ghost use Rattle.std.specs.Prelude.{List, map};
    ghost use Rattle.std.specs.List.{All};
    ghost use Rattle.xa_profile.specs.declared.category_object.CategoryObject.{CategoryObject as Object};
    ghost use Rattle.xa_decide.specs.indexing.Index.{IsOrder};
    ghost use Rattle.xa_decide.specs.indexing.Keys.{object_key_of};
    ghost use Rattle.xa_decide.specs.indexing.Types.{IsOfTypes};

    ghost Value = { List Object };

    ghost view = { λ o. map (λ x. x.now) o.objects.items };

    ghost invariant = { λ o.
        IsOrder object_key_of o.objects.items o.order.items × All (λ x. IsOfTypes x.now) o.objects.items };
}

impl<'a> IndividualObjects<'a> {
    /// The objects that have these places, put in order.
    pub(crate) fn new(
        alloc: Global,
        objects: &'a [IndexedObject<'a>],
        places: &[usize],
    ) -> Result<IndividualObjects<'a>, AllocError>
        ensures { IfOk result (λ chosen. chosen ≡ objects_at objects.now places.now) }
    {
        let objects = objects_at(alloc, objects, places)?;
        keep_types(objects.as_slice());
        let order = order_of::<ByCategory<'a>>(alloc, objects.as_slice())?;
        let search = units_of_longest_search(objects.as_slice());
        Ok(IndividualObjects {
            objects,
            order,
            search,
        })
    }

    /// The units of finding an attribute: of the longest search that there may be.
    pub(crate) fn units_of_search(&self) -> u64 {
        self.search
    }

    /// All objects, in request order.
    pub(crate) fn all(&self) -> &[&'a IndexedObject<'a>]
        ensures { map (λ o. o.now) result.now ≡ self.now }
    {
        self.objects.as_slice()
    }

    /// Places among which are those of all objects of that category.
    pub(crate) fn places(&self, category: &str) -> &[usize]
        ensures { filter (λ o. bytes_eq o.category category.now) (filter_map (slice_get self.now) result.now)
            ≡ filter (λ o. bytes_eq o.category category.now) self.now }
    {
        let key = category_key(category);
        places_among::<ByCategory<'a>>(self.objects.as_slice(), self.order.as_slice(), &key)
    }

    /// The object that has the place.
    #[tactic(auto, using(crate::proofs::KeyLemmas::object_got))]
    pub(crate) fn object(&self, place: usize) -> Option<&'a IndexedObject<'a>>
        ensures { option_map (λ o. o.now) result ≡ slice_get self.now place }
    {
        self.objects.get(place).copied()
    }

    /// The bag of the values that the request has of the designator.
    #[tactic(auto, unfolding(crate::specs::Context::request_values))]
    pub(crate) fn bag(
        &self,
        alloc: Global,
        budget: &Budget,
        designator: &Designator,
    ) -> Result<Bag, AllocError>
        ensures { IfOk result (λ bag.
            bag ≡ bag_of designator.now.data_type (request_values self.now designator.now)) }
    {
        let mut bag = Bag::new(alloc, designator.data_type);
        let places = self.places(designator.category.as_str());
        for place in places {
            if let Some(object) = self.object(*place) {
                push_of_category(budget, &mut bag, designator, object)?;
            }
        }
        Ok(bag)
    }

    /// What names the entity of the category.
    #[tactic(auto, using(crate::proofs::NamingLemmas::both_behind, crate::proofs::NamingLemmas::both_none))]
    fn naming(&self, category: &str) -> Naming<'a>
        ensures { said_by result
            ≡ said (flat_map naming_values (filter (λ o. bytes_eq o.category category.now) self.now)) }
    {
        let mut naming = Naming::Nobody;
        let places = self.places(category);
        for place in places {
            if let Some(object) = self.object(*place) {
                naming = naming.and(object.naming_in(category));
            }
        }
        naming
    }

    /// The entity of the category.
    pub(crate) fn entity(&self, category: &str) -> &'a str
        ensures { result.now ≡ entity self.now category.now }
    {
        self.naming(category).text()
    }

    /// The values of each attribute of the objects are of its type: a law.
    pub(crate) fn keeps_types(&self)
        ensures { All IsOfTypes self.now }
    {
        // For the proof: the clause, a part of the type's invariant.
        let _ = &self.order;
    }
}

/// The objects that have these places.
fn objects_at<'a>(
    alloc: Global,
    objects: &'a [IndexedObject<'a>],
    places: &[usize],
) -> Result<Vec<&'a IndexedObject<'a>>, AllocError>
    ensures { IfOk result (λ chosen. map (λ o. o.now) chosen.items ≡ objects_at objects.now places.now) }
{
    let mut chosen = Vec::new(alloc);
    for place in places {
        if let Some(object) = item_at(objects, *place) {
            chosen.push(object)?;
        }
    }
    Ok(chosen)
}

/// The units of a search among the objects, and then among the attributes of the one that has most.
fn units_of_longest_search(objects: &[&IndexedObject<'_>]) -> u64 {
    let longest = objects.iter().fold(
        0u64,
        |longest, object| longest.max(object.units_of_search()),
    );
    units_of_search(objects.len()).saturating_add(longest)
}

/// Puts the values of the object's attributes that the designator names at the end of the bag, if it is
/// of the designator's category.
fn push_of_category(
    budget: &Budget,
    bag: &mut Bag,
    designator: &Designator,
    object: &IndexedObject<'_>,
) -> Result<(), AllocError>
    requires { bag.old.data_type ≡ designator.now.data_type }
    ensures { IfOk result (λ _. bag.new ≡ bag_of designator.now.data_type
        (bag.old.values ++ (if bytes_eq object.now.category designator.now.category
        then object_values designator.now object.now else []))) }
{
    if object.category() == designator.category.as_str() {
        push_object(budget, bag, designator, object)?;
    }
    Ok(())
}

/// The values of each attribute of the objects are of its type: a law, whose loop does nothing.
fn keep_types(objects: &[&IndexedObject<'_>])
    ensures { All (λ o. IsOfTypes o.now) objects.now }
{
    for object in objects {
        object.keeps_types();
    }
}
