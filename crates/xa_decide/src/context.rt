//! The values of attributes in the context of a decision.
ghost use Rattle.std.specs.Prelude.{◌≡◌, IfOk};
ghost use Rattle.xa_bag.specs.Bag.{bag_of};
ghost use Rattle.xa_expr.specs.Looked.{looked};
ghost use Rattle.xa_decide.specs.Context.{entity, source_values, outside_values, values_of};
ghost use Rattle.xa_decide.specs.Decision.{objects_at};

use crate::bag::bag_of_one;
use crate::clock::clock_value_in;
use crate::indexed_object::IndexedObject;
use crate::individual_objects::IndividualObjects;
use crate::look::Look;
use crate::source::Source;
use crate::work::Work;
use std::alloc::{AllocError, Global};
use std::marker::Model;
use xa_bag::Bag;
use xa_expr::{Context, Designator, Looked, STEP};
use xa_value::{Moment, Text, Value};

/// The context of the decision on an individual request.
#[derive(Drop)]
pub(crate) struct IndividualContext<'a> {
    /// Its Category objects, which are asked first.
    objects: IndividualObjects<'a>,
    /// The source of attributes, which is asked last.
    source: &'a Source,
    /// What the clock shows.
    moment: Moment,
    /// What the message may still ask for.
    work: &'a Work,
}

impl<'a> Model for IndividualContext<'a> {
    ghost use Rattle.xa_decide.specs.Context.{AskContext};

    ghost Value = { AskContext };

    ghost view = { λ c. record { objects = c.objects; source = c.source.now; moment = c.moment } };
}

impl<'a> IndividualContext<'a> {
    /// The context of the individual request that has the objects at these places.
    pub(crate) fn new(
        alloc: Global,
        objects: &'a [IndexedObject<'a>],
        places: &[usize],
        source: &'a Source,
        moment: Moment,
        work: &'a Work,
    ) -> Result<IndividualContext<'a>, AllocError>
        ensures { IfOk result (λ context. context
            ≡ record { objects = objects_at objects.now places.now; source = source.now; moment = moment }) }
    {
        let objects = IndividualObjects::new(alloc, objects, places)?;
        Ok(IndividualContext {
            objects,
            source,
            moment,
            work,
        })
    }

    /// The units of asking the request for an attribute.
    fn units_of_asking(&self, designator: &Designator) -> u64 {
        let category = designator.category.as_str();
        units_of_look_up(category, designator).saturating_add(self.objects.units_of_search())
    }

    /// The units of asking the source for an attribute of the entity. Before that the entity is looked for
    /// among the objects.
    fn units_of_asking_source(&self, entity: &str, designator: &Designator) -> u64 {
        units_of_look_up(entity, designator)
            .saturating_add(self.objects.units_of_search())
            .saturating_add(self.source.units_of_search())
    }

    /// The bag of the values that the source has.
    #[tactic(auto, unfolding(crate::specs::Context::source_values))]
    fn source_bag(&self, alloc: Global, designator: &Designator) -> Result<Bag, AllocError>
        ensures { IfOk result (λ bag. bag ≡ bag_of designator.now.data_type
            (source_values self.now.source
            (entity self.now.objects designator.now.category) designator.now)) }
    {
        if self.source.is_empty() {
            return Ok(Bag::new(alloc, designator.data_type));
        }
        let entity = self.objects.entity(designator.category.as_str());
        self.work
            .spend(self.units_of_asking_source(entity, designator))?;
        self.source
            .bag(alloc, self.work.budget(), entity, designator)
    }

    /// The bag of the values that are not in the request.
    #[tactic(auto, unfolding(crate::specs::Context::outside_values))]
    fn outside_bag(&self, alloc: Global, designator: &Designator) -> Result<Bag, AllocError>
        ensures { IfOk result (λ bag.
            bag ≡ bag_of designator.now.data_type (outside_values self.now designator.now)) }
    {
        match clock_value_in(self.moment, designator) {
            Some(value) => bag_of_one(alloc, designator.data_type, value),
            None => self.source_bag(alloc, designator),
        }
    }

    /// A look at the values that the source has.
    #[tactic(auto, unfolding(crate::specs::Context::source_values))]
    fn look_in_source(&self, look: &Look<'_>) -> Result<Looked, AllocError>
        ensures { IfOk result (λ found. found ≡ looked look.now.sought.now
            (source_values self.now.source
            (entity self.now.objects look.now.designator.now.category) look.now.designator.now)) }
    {
        if self.source.is_empty() {
            return Ok(Looked::Nothing);
        }
        let entity = self.objects.entity(look.designator.category.as_str());
        self.work
            .spend(self.units_of_asking_source(entity, look.designator))?;
        look.at_source(self.source, entity)
    }

    /// A look at the values that are not in the request.
    #[tactic(auto, unfolding(crate::specs::Context::outside_values))]
    fn look_outside(&self, look: &Look<'_>) -> Result<Looked, AllocError>
        ensures { IfOk result (λ found.
            found ≡ looked look.now.sought.now (outside_values self.now look.now.designator.now)) }
    {
        match clock_value_in(self.moment, look.designator) {
            Some(value) => look.at_clock(&value),
            None => self.look_in_source(look),
        }
    }
}

impl<'a> Context for IndividualContext<'a> {
    ghost values_of = { values_of };

    #[tactic(auto, unfolding(crate::specs::Context::values_of))]
    fn bag(&self, alloc: Global, designator: &Designator) -> Result<Bag, AllocError> {
        self.work.spend(self.units_of_asking(designator))?;
        let own = self.objects.bag(alloc, self.work.budget(), designator)?;
        if own.is_empty() {
            self.outside_bag(alloc, designator)
        } else {
            Ok(own)
        }
    }

    #[tactic(auto, using(crate::proofs::TypeLemmas::keeps_types))]
    fn keeps_types(&self) {
        self.objects.keeps_types();
    }

    #[tactic(auto, unfolding(crate::specs::Context::values_of), using(crate::proofs::LookLemmas::looked_or_outside))]
    fn look_for(
        &self,
        alloc: Global,
        designator: &Designator,
        sought: &Value,
    ) -> Result<Looked, AllocError> {
        self.work.spend(self.units_of_asking(designator))?;
        let look = Look {
            work: self.work,
            designator,
            sought,
        };
        let found = look.at_objects(&self.objects)?;
        if found == Looked::Nothing {
            self.look_outside(&look)
        } else {
            Ok(found)
        }
    }

    fn spend(&self, units: u64) -> Result<(), AllocError> {
        self.work.spend(units)
    }
}

/// The bytes of a text that may be left out.
fn bytes_if_any(text: &Option<Text>) -> u64 {
    match text {
        Some(text) => text.as_str().len() as u64,
        None => 0,
    }
}

/// The units of looking up an attribute by its category or its entity, by its id, and by its issuer if
/// one is named: a step, and the bytes of these.
fn units_of_look_up(owner: &str, designator: &Designator) -> u64 {
    STEP.saturating_add(owner.len() as u64)
        .saturating_add(designator.attribute_id.as_str().len() as u64)
        .saturating_add(bytes_if_any(&designator.issuer))
}
