//! All combinations of one object a category.
ghost use Rattle.std.specs.Prelude.{◌≡◌, ◌*◌, nat_lt, true, ◌++◌, ◌∷◌, [], map, length, IfOk, OnOk};
ghost use Rattle.std.specs.List.{list_all};
ghost use Rattle.xa_value.specs.Gives.{Gives};
ghost use Rattle.xa_profile.specs.Individuals.{with_each, combinations, at_most_64};

use crate::individuals::{MAX_INDIVIDUALS, TooMany};
use std::alloc::{AllocError, Global};
use xa_value::{Items, OrMemory};

/// Whether that many combinations with each of that many places are more than a request may have.
fn are_too_many(combinations: usize, places: usize) -> bool
    ensures { result ≡ nat_lt 64 (combinations * places) }
{
    match combinations.checked_mul(places) {
        Some(count) => count > MAX_INDIVIDUALS,
        None => true,
    }
}

/// A copy of the combination with the place after it.
fn copy_with(alloc: Global, combination: &[usize], place: usize) -> Result<Items<usize>, AllocError>
    ensures { IfOk result (λ copy. copy ≡ combination.now ++ place ∷ []) }
{
    let mut copy = Vec::from_slice(alloc, combination)?;
    copy.push(place)?;
    Ok(Items::from_vec(copy))
}

/// Puts a copy of the combination with each of the places after it at the end.
fn push_copies(
    alloc: Global,
    all: &mut Vec<Items<usize>>,
    combination: &[usize],
    places: &[usize],
) -> Result<(), AllocError>
    ensures { OnOk result
        (all.new.items ≡ all.old.items ++ map (λ place. combination.now ++ place ∷ []) places.now) }
{
    for place in places {
        all.push(copy_with(alloc, combination, *place)?)?;
    }
    Ok(())
}

/// Puts the combination with each of the places after it at the end. It is copied for all places but the
/// last.
fn push_with_each(
    alloc: Global,
    all: &mut Vec<Items<usize>>,
    mut combination: Items<usize>,
    places: &[usize],
) -> Result<(), AllocError>
    ensures { OnOk result
        (all.new.items ≡ all.old.items ++ map (λ place. combination ++ place ∷ []) places.now) }
{
    let Some((last, others)) = places.split_last() else {
        return Ok(());
    };
    push_copies(alloc, all, combination.as_slice(), others)?;
    combination.push(*last)?;
    all.push(combination)?;
    Ok(())
}

/// Each combination with each of the places after it.
fn with_each(
    alloc: Global,
    combinations: Vec<Items<usize>>,
    places: &[usize],
) -> Result<Vec<Items<usize>>, AllocError>
    ensures { IfOk result (λ all. all.items ≡ with_each combinations.items places.now) }
{
    let mut all = Vec::new(alloc);
    for combination in combinations {
        push_with_each(alloc, &mut all, combination, places)?;
    }
    Ok(all)
}

/// All combinations of one place of each list, if they are no more than a request may have.
pub(crate) fn combinations(
    alloc: Global,
    lists: &[Items<usize>],
) -> Result<Items<Items<usize>>, OrMemory<TooMany>>
    requires { list_all (λ places. nat_lt 0 (length places)) lists.now ≡ true }
    ensures { Gives result (at_most_64 (combinations lists.now)) }
{
    let mut all = Vec::new(alloc);
    all.push(Items::new(alloc))?;
    for places in lists {
        if are_too_many(all.len(), places.len()) {
            return Err(OrMemory::Error(TooMany));
        }
        all = with_each(alloc, all, places.as_slice())?;
    }
    Ok(Items::from_vec(all))
}
