//! The individual requests that a request stands for.
ghost use Rattle.std.specs.Prelude.{◌≡◌, [], ◌∷◌, true, Some, None, map, length};
ghost use Rattle.std.specs.Prelude.{nat_lt, option_map, if◌then◌else◌, IfOk, IsTrue};
ghost use Rattle.std.specs.List.{range_with_len, slice_set};
ghost use Rattle.xa_value.specs.Gives.{Gives, answered};
ghost use Rattle.xa_value.specs.declared.or_memory.OrMemory.TheVariants.{Error as AnError};
ghost use Rattle.xa_profile.specs.declared.individuals.Individual.TheVariants.{Places};
ghost use Rattle.xa_profile.specs.Individuals.{has_unknown, places_named, is_chosen, in_request_order};
ghost use Rattle.xa_profile.specs.Individuals.{category_at, categories_at, of_places, individual_named};
ghost use Rattle.xa_profile.specs.Individuals.{all_combinations, at_most_64, individuals};

use crate::category_object::CategoryObject;
use crate::combinations::combinations;
use crate::distinct::are_few_and_distinct;
use crate::grouping::places_by_category;
use crate::objects_by_id::ObjectsById;
use crate::repetition::has_twice;
use crate::request::Request;
use std::alloc::{AllocError, Global};
use thiserror::Error;
use xa_value::{Items, OrMemory, Text};

/// How many individual requests a request may have. Each of them is decided for itself.
pub(crate) const MAX_INDIVIDUALS: usize = 64;

/// A request stands for more individual requests (Multiple Decision Profile, section 2) than it may: 64.
#[derive(Clone, Copy, Debug, PartialEq, Eq, Error)]
#[error("more than 64 individual requests")]
pub struct TooMany;

impl From<TooMany> for OrMemory<TooMany> {
    ghost from_gives = { λ error e. e ≡ AnError error };

    fn from(error: TooMany) -> OrMemory<TooMany> {
        OrMemory::Error(error)
    }
}

/// One of the individual requests of a request (Multiple Decision Profile, section 2).
#[derive(Debug, Drop, PartialEq, Eq)]
pub enum Individual {
    /// The places of its objects among those of the request, from the least.
    Places(Items<usize>),
    /// A reference one of whose ids names no object, or that names two objects of one category.
    BadReference,
}

impl Request {
    /// The individual requests that the request stands for (Multiple Decision Profile, section 2): those
    /// that references name, or without any one for each combination of one object a category; or
    /// TooMany, of more than 64. They hold the places of their objects, and copy none.
    #[tactic(auto, unfolding(crate::specs::Individuals::individuals))]
    pub fn individuals(&self, alloc: Global) -> Result<Items<Individual>, OrMemory<TooMany>>
        ensures value { Gives result (individuals self.now) }
        ensures exact { IsTrue (nat_lt 64 (length self.now.references))
            → result ≡ answered (individuals self.now) }
    {
        let objects = self.objects.as_slice();
        if self.references.is_empty() {
            individuals_combined(alloc, objects)
        } else {
            individuals_named(alloc, objects, self.references.as_slice())
        }
    }
}

/// Makes the choice of that place true, if there is one.
fn choose(choices: &mut Vec<bool>, place: usize)
    ensures { choices.new.items ≡ slice_set choices.old.items place true }
{
    if place < choices.len() {
        choices[place] = true;
    }
}

/// Which of that many places are among the chosen ones.
#[tactic(auto, using(crate::proofs::PlaceLemmas::all_chosen))]
fn choices(alloc: Global, count: usize, chosen: &[usize]) -> Result<Vec<bool>, AllocError>
    ensures { IfOk result (λ choices. choices.items ≡ map (is_chosen chosen.now) (range_with_len 0 count)) }
{
    let mut choices = vec![in alloc; false; count]?;
    for place in chosen {
        choose(&mut choices, *place);
    }
    Ok(choices)
}

/// The chosen places in the request's order, each once.
#[tactic(auto, using(crate::proofs::PlaceLemmas::chosen_by_test))]
fn in_request_order(
    alloc: Global,
    objects: &[CategoryObject],
    chosen: &[usize],
) -> Result<Items<usize>, AllocError>
    ensures { IfOk result (λ places. places ≡ in_request_order objects.now chosen.now) }
{
    let choices = choices(alloc, objects.len(), chosen)?;
    let mut places = Items::new(alloc);
    for (place, is_chosen) in choices.iter().enumerate() {
        if *is_chosen {
            places.push(place)?;
        }
    }
    Ok(places)
}

/// The places that ids name; none, if one of them names no object.
fn places_named(
    alloc: Global,
    by_id: &ObjectsById<'_>,
    ids: &[Text],
) -> Result<Option<Vec<usize>>, AllocError>
    ensures { IfOk result (λ places. option_map (λ p. p.items) places
        ≡ (if has_unknown by_id.now ids.now then None else Some (places_named by_id.now ids.now))) }
{
    let mut places = Vec::new(alloc);
    for id in ids {
        let Some(place) = by_id.place(id.as_str()) else {
            return Ok(None);
        };
        places.push(place)?;
    }
    Ok(Some(places))
}

/// The category of the object at the place.
fn category_at(objects: &[CategoryObject], place: usize) -> Option<&str>
    ensures { option_map (λ c. c.now) result ≡ category_at objects.now place }
{
    let object = objects.get(place)?;
    Some(object.category.as_str())
}

/// The categories of the objects at the places.
fn categories_at<'a>(
    alloc: Global,
    objects: &'a [CategoryObject],
    places: &[usize],
) -> Result<Vec<&'a str>, AllocError>
    ensures { IfOk result (λ categories.
        map (λ c. c.now) categories.items ≡ categories_at objects.now places.now) }
{
    let mut categories = Vec::new(alloc);
    for place in places {
        if let Some(category) = category_at(objects, *place) {
            categories.push(category)?;
        }
    }
    Ok(categories)
}

/// The individual of these places, if no two of its objects have the same category.
fn of_places(
    alloc: Global,
    objects: &[CategoryObject],
    places: Items<usize>,
) -> Result<Individual, AllocError>
    ensures { IfOk result (λ individual. individual ≡ of_places objects.now places) }
{
    let categories = categories_at(alloc, objects, places.as_slice())?;
    if has_twice(alloc, categories.as_slice())? {
        Ok(Individual::BadReference)
    } else {
        Ok(Individual::Places(places))
    }
}

/// The individual that a reference names by the ids of its objects.
#[tactic(auto, unfolding(crate::specs::Individuals::individual_named))]
fn individual_named(
    alloc: Global,
    by_id: &ObjectsById<'_>,
    ids: &[Text],
) -> Result<Individual, AllocError>
    ensures { IfOk result (λ individual. individual ≡ individual_named by_id.now ids.now) }
{
    let Some(chosen) = places_named(alloc, by_id, ids)? else {
        return Ok(Individual::BadReference);
    };
    let places = in_request_order(alloc, by_id.objects(), chosen.as_slice())?;
    of_places(alloc, by_id.objects(), places)
}

/// The individuals that references name.
#[tactic(auto, using(crate::proofs::CombinationLemmas::few_of_few, crate::proofs::CombinationLemmas::many_of_many))]
fn individuals_named(
    alloc: Global,
    objects: &[CategoryObject],
    references: &[Items<Text>],
) -> Result<Items<Individual>, OrMemory<TooMany>>
    ensures value { Gives result (at_most_64 (map (individual_named objects.now) references.now)) }
    ensures exact { IsTrue (nat_lt 64 (length references.now))
        → result ≡ answered (at_most_64 (map (individual_named objects.now) references.now)) }
{
    if references.len() > MAX_INDIVIDUALS {
        return Err(TooMany.into());
    }
    let by_id = ObjectsById::new(alloc, objects)?;
    let mut individuals = Items::new(alloc);
    for reference in references {
        individuals.push(individual_named(alloc, &by_id, reference.as_slice())?)?;
    }
    Ok(individuals)
}

/// The places of that many objects, in order.
fn all_places(alloc: Global, count: usize) -> Result<Items<usize>, AllocError>
    ensures { IfOk result (λ places. places ≡ range_with_len 0 count) }
{
    let places: Vec<usize> = (0..count).collect(alloc)?;
    Ok(Items::from_vec(places))
}

/// The one individual of that many objects.
fn individual_of_all(alloc: Global, count: usize) -> Result<Items<Individual>, AllocError>
    ensures { IfOk result (λ individuals. individuals ≡ Places (range_with_len 0 count) ∷ []) }
{
    let mut individuals = Vec::with_capacity(alloc, 1)?;
    individuals.push(Individual::Places(all_places(alloc, count)?))?;
    Ok(Items::from_vec(individuals))
}

/// The individuals of all combinations of one object a category. Few objects of different categories are
/// the only combination.
#[tactic(auto, unfolding(crate::specs::Individuals::all_combinations), using(crate::proofs::CombinationLemmas::combined_few, crate::proofs::CombinationLemmas::combined_many))]
fn individuals_combined(
    alloc: Global,
    objects: &[CategoryObject],
) -> Result<Items<Individual>, OrMemory<TooMany>>
    ensures { Gives result
        (at_most_64 (map (λ combination. Places (in_request_order objects.now combination))
        (all_combinations objects.now))) }
{
    if are_few_and_distinct(objects) {
        return Ok(individual_of_all(alloc, objects.len())?);
    }
    let groups = places_by_category(alloc, objects)?;
    let combinations = combinations(alloc, groups.as_slice())?;
    let mut individuals = Items::new(alloc);
    for combination in combinations.as_slice() {
        let places = in_request_order(alloc, objects, combination.as_slice())?;
        individuals.push(Individual::Places(places))?;
    }
    Ok(individuals)
}
