//! The objects of each category.
ghost use Rattle.std.specs.Prelude.{◌≡◌, ◌<◌, ℕ, List, nat_lt, true, [], ◌∷◌, ◌++◌, Some, bytes_eq};
ghost use Rattle.std.specs.Prelude.{if◌then◌else◌, map, length, IfOk, OnOk, IfSome, IfNone};
ghost use Rattle.std.specs.BTreeMap.{get_by};
ghost use Rattle.std.specs.Cmp.Lexicographic.{slice_cmp};
ghost use Rattle.std.specs.List.{list_all, slice_index_or, slice_set};
ghost use Rattle.std.specs.Ordering.{nat_cmp};
ghost use Rattle.xa_profile.specs.Individuals.{places_of, categories};

use crate::category_object::CategoryObject;
use std::alloc::{AllocError, Global};
use std::collections::BTreeMap;
use xa_value::Items;

/// Puts a group of one place at the end, and its number under its category.
fn put_new<'a>(
    alloc: Global,
    numbers: &mut BTreeMap<&'a str, usize>,
    groups: &mut Vec<Items<usize>>,
    category: &'a str,
    place: usize,
) -> Result<(), AllocError>
    ensures numbers { OnOk result
        ((q : List ℕ) → get_by (λ k. slice_cmp nat_cmp q k.now) numbers.new ≡ (if bytes_eq category.now q
        then Some (length groups.old.items) else get_by (λ k. slice_cmp nat_cmp q k.now) numbers.old)) }
    ensures groups { OnOk result (groups.new.items ≡ groups.old.items ++ (place ∷ []) ∷ []) }
{
    numbers.insert(category, groups.len())?;
    let mut group = Items::new(alloc);
    group.push(place)?;
    groups.push(group)?;
    Ok(())
}

/// Puts a place into the group of its category, whose number is looked up.
fn put<'a>(
    alloc: Global,
    numbers: &mut BTreeMap<&'a str, usize>,
    groups: &mut Vec<Items<usize>>,
    category: &'a str,
    place: usize,
) -> Result<(), AllocError>
    requires { IfSome (get_by (λ k. slice_cmp nat_cmp category.now k.now) numbers.old)
        (λ n. n < length groups.old.items) }
    ensures found { OnOk result
        (IfSome (get_by (λ k. slice_cmp nat_cmp category.now k.now) numbers.old)
        (λ n. ((q : List ℕ) → get_by (λ k. slice_cmp nat_cmp q k.now) numbers.new
        ≡ get_by (λ k. slice_cmp nat_cmp q k.now) numbers.old)
        × (groups.new.items
        ≡ slice_set groups.old.items n (slice_index_or groups.old.items n [] ++ place ∷ [])))) }
    ensures new { OnOk result
        (IfNone (get_by (λ k. slice_cmp nat_cmp category.now k.now) numbers.old)
        ((groups.new.items ≡ groups.old.items ++ (place ∷ []) ∷ [])
        × ((q : List ℕ) → get_by (λ k. slice_cmp nat_cmp q k.now) numbers.new ≡ (if bytes_eq category.now q
        then Some (length groups.old.items) else get_by (λ k. slice_cmp nat_cmp q k.now) numbers.old)))) }
{
    match numbers.get(category).copied() {
        Some(number) => groups[number].push(place),
        None => put_new(alloc, numbers, groups, category, place),
    }
}

/// The places of each category's objects, the categories in order of first appearance.
pub(crate) fn places_by_category(
    alloc: Global,
    objects: &[CategoryObject],
) -> Result<Items<Items<usize>>, AllocError>
    ensures value { IfOk result (λ groups. groups ≡ map (places_of objects.now) (categories objects.now)) }
    ensures some { IfOk result (λ groups. list_all (λ places. nat_lt 0 (length places)) groups ≡ true) }
{
    let mut numbers: BTreeMap<&str, usize> = BTreeMap::new(alloc);
    let mut groups: Vec<Items<usize>> = Vec::new(alloc);
    for (place, object) in objects.iter().enumerate() {
        put(
            alloc,
            &mut numbers,
            &mut groups,
            object.category.as_str(),
            place,
        )?;
    }
    Ok(Items::from_vec(groups))
}
