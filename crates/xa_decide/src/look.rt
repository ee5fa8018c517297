//! Looks for a value among those of a designator, where they are: no value is copied.
//!
//! A look goes from the objects of an individual request to one of them, to its attributes, to one of these
//! and to its values, each by a method of its own; at each step few are gone through one after another, and
//! many are found by their places. A bag of the same values is put together step by step as well: by
//! `IndividualObjects::bag`, `push_of_category`, `push_object` and `push_attribute`, and of the source by
//! `Source::bag`.
ghost use Rattle.std.specs.Prelude.{◌≡◌, [], ◌∷◌, bytes_eq, filter, map, IfOk, IfSome, if◌then◌else◌};
ghost use Rattle.std.specs.List.{flat_map};
ghost use Rattle.xa_expr.specs.Looked.{looked};
ghost use Rattle.xa_decide.specs.Context.{is_named_by, is_row, object_values, request_values, source_values};

use crate::attribute::is_named_by;
use crate::indexed_object::IndexedObject;
use crate::individual_objects::IndividualObjects;
use crate::order::{are_few, item_at};
use crate::source::{Source, is_row};
use crate::source_row::SourceRow;
use crate::work::{Work, is_large};
use std::alloc::AllocError;
use xa_bag::{Bag, Members};
use xa_expr::{Designator, LOOK, Looked, units_of, units_of_bag};
use xa_profile::Attribute;
use xa_value::Value;

/// A look for a value among those of a designator. It takes the units of the values that it comes to
/// twice, as the designator's bag does, once when it is made and once when it is given, and those of a
/// look at each. If the values are in order, it takes those of a search.
#[derive(Drop)]
pub(crate) struct Look<'a> {
    /// What it is paid from.
    pub(crate) work: &'a Work,
    /// The designator.
    pub(crate) designator: &'a Designator,
    /// The value that is looked for.
    pub(crate) sought: &'a Value,
}

impl<'a> Look<'a> {
    /// A look at the values of a bag.
    fn at_bag(&self, bag: &Bag) -> Result<Looked, AllocError>
        ensures { IfOk result (λ found. found ≡ looked self.now.sought.now bag.now.values) }
    {
        self.work.scan(bag)?;
        self.work
            .spend(units_of_looks(units_of_bag(bag), bag.len()))?;
        Ok(Looked::in_bag(self.sought, bag))
    }

    /// A search of the values by their order.
    fn among(&self, members: &Members<'_>) -> Result<Looked, AllocError>
        ensures { IfOk result (λ found. found ≡ looked self.now.sought.now members.now.values) }
    {
        self.work.spend_on_search(self.sought)?;
        Ok(Looked::among(self.sought, members))
    }

    /// A look at the values of the attribute: by their order, if they are many and are put in order, and
    /// else at one after another.
    fn at_values(
        &self,
        attribute: &Attribute,
        members: Option<&Members<'_>>,
    ) -> Result<Looked, AllocError>
        requires { IfSome members (λ members. members.now ≡ attribute.now.values) }
        ensures { IfOk result (λ found. found ≡ looked self.now.sought.now attribute.now.values.values) }
    {
        match members {
            Some(members) if is_large(&attribute.values) => self.among(members),
            _ => self.at_bag(&attribute.values),
        }
    }

    /// A look at the value that the clock gives, of which no copy would be made.
    pub(crate) fn at_clock(&self, value: &Value) -> Result<Looked, AllocError>
        ensures { IfOk result (λ found. found ≡ looked self.now.sought.now (value.now ∷ [])) }
    {
        self.work.spend(units_of(value).saturating_add(LOOK))?;
        Ok(Looked::at_value(self.sought, value))
    }

    /// A look at the values of the attribute, if it is one that the designator names.
    fn at_attribute(
        &self,
        attribute: &Attribute,
        members: Option<&Members<'_>>,
    ) -> Result<Looked, AllocError>
        requires { IfSome members (λ members. members.now ≡ attribute.now.values) }
        ensures { IfOk result (λ found. found ≡ looked self.now.sought.now
            (if is_named_by self.now.designator.now attribute.now then attribute.now.values.values else [])) }
    {
        if is_named_by(self.designator, attribute) {
            self.at_values(attribute, members)
        } else {
            Ok(Looked::Nothing)
        }
    }

    /// A look at the values of the attributes, which are gone through one after another.
    #[tactic(auto, using(xa_expr::proofs::LookedLemmas::joined_nothing))]
    fn at_each_attribute(&self, attributes: &[Attribute]) -> Result<Looked, AllocError>
        ensures { IfOk result (λ found. found ≡ looked self.now.sought.now
            (flat_map (λ a. a.values.values) (filter (is_named_by self.now.designator.now) attributes.now))) }
    {
        let mut so_far = Looked::Nothing;
        for attribute in attributes {
            let found = self.at_attribute(attribute, None)?;
            so_far = so_far.and(found);
        }
        Ok(so_far)
    }

    /// A look at the values of the object's attributes, which are found by their places.
    #[tactic(auto, using(xa_expr::proofs::LookedLemmas::joined_nothing))]
    fn at_attributes_by_place(&self, object: &IndexedObject<'_>) -> Result<Looked, AllocError>
        ensures { IfOk result (λ found.
            found ≡ looked self.now.sought.now (object_values self.now.designator.now object.now)) }
    {
        let places = object.places(self.designator);
        let mut so_far = Looked::Nothing;
        for place in places {
            if let Some((attribute, members)) = object.attribute_at(*place) {
                so_far = so_far.and(self.at_attribute(attribute, members)?);
            }
        }
        Ok(so_far)
    }

    /// A look at the values of the object's attributes.
    fn at_object(&self, object: &IndexedObject<'_>) -> Result<Looked, AllocError>
        ensures { IfOk result (λ found.
            found ≡ looked self.now.sought.now (object_values self.now.designator.now object.now)) }
    {
        match object.few() {
            Some(attributes) => self.at_each_attribute(attributes),
            None => self.at_attributes_by_place(object),
        }
    }

    /// A look at the values of the object's attributes, if it is of the designator's category.
    fn at_object_of_category(&self, object: &IndexedObject<'_>) -> Result<Looked, AllocError>
        ensures { IfOk result (λ found. found ≡ looked self.now.sought.now
            (if bytes_eq object.now.category self.now.designator.now.category
            then object_values self.now.designator.now object.now else [])) }
    {
        if object.category() == self.designator.category.as_str() {
            self.at_object(object)
        } else {
            Ok(Looked::Nothing)
        }
    }

    /// A look at the values of the objects, which are gone through one after another.
    #[tactic(auto, unfolding(crate::specs::Context::request_values), using(xa_expr::proofs::LookedLemmas::joined_nothing))]
    fn at_each_object(&self, objects: &[&IndexedObject<'_>]) -> Result<Looked, AllocError>
        ensures { IfOk result (λ found. found ≡ looked self.now.sought.now
            (request_values (map (λ o. o.now) objects.now) self.now.designator.now)) }
    {
        let mut so_far = Looked::Nothing;
        for object in objects {
            let found = self.at_object_of_category(object)?;
            so_far = so_far.and(found);
        }
        Ok(so_far)
    }

    /// A look at the values of the objects, which are found by their places.
    #[tactic(auto, unfolding(crate::specs::Context::request_values), using(xa_expr::proofs::LookedLemmas::joined_nothing))]
    fn at_objects_by_place(&self, objects: &IndividualObjects<'_>) -> Result<Looked, AllocError>
        ensures { IfOk result (λ found.
            found ≡ looked self.now.sought.now (request_values objects.now self.now.designator.now)) }
    {
        let places = objects.places(self.designator.category.as_str());
        let mut so_far = Looked::Nothing;
        for place in places {
            if let Some(object) = objects.object(*place) {
                so_far = so_far.and(self.at_object_of_category(object)?);
            }
        }
        Ok(so_far)
    }

    /// A look at the values that the request has.
    pub(crate) fn at_objects(&self, objects: &IndividualObjects<'_>) -> Result<Looked, AllocError>
        ensures { IfOk result (λ found.
            found ≡ looked self.now.sought.now (request_values objects.now self.now.designator.now)) }
    {
        let all = objects.all();
        if are_few(all.len()) {
            self.at_each_object(all)
        } else {
            self.at_objects_by_place(objects)
        }
    }

    /// A look at the row's value, if it is a row of the entity's attribute that the designator names.
    fn at_row(&self, entity: &str, row: &SourceRow) -> Result<Looked, AllocError>
        ensures { IfOk result (λ found. found ≡ looked self.now.sought.now
            (if is_row entity.now self.now.designator.now row.now then row.now.value ∷ [] else [])) }
    {
        if is_row(entity, self.designator, row) {
            self.work.spend(units_of_looks(units_of(&row.value), 1))?;
            Ok(Looked::at_value(self.sought, &row.value))
        } else {
            Ok(Looked::Nothing)
        }
    }

    /// A look at the values that the source has of the entity's attribute.
    #[tactic(auto, unfolding(crate::specs::Context::source_values), using(xa_expr::proofs::LookedLemmas::joined_nothing))]
    pub(crate) fn at_source(&self, source: &Source, entity: &str) -> Result<Looked, AllocError>
        ensures { IfOk result (λ found. found
            ≡ looked self.now.sought.now (source_values source.now entity.now self.now.designator.now)) }
    {
        let places = source.places(entity, self.designator);
        let rows = source.rows();
        let mut so_far = Looked::Nothing;
        for place in places {
            if let Some(row) = item_at(rows, *place) {
                so_far = so_far.and(self.at_row(entity, row)?);
            }
        }
        Ok(so_far)
    }
}

/// The units of so many values that have these units together.
fn units_of_looks(units: u64, count: usize) -> u64 {
    units
        .saturating_mul(2)
        .saturating_add(LOOK.saturating_mul(count as u64))
}
