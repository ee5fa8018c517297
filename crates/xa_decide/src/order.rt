//! The places of items in the order of their keys.
ghost use Rattle.std.specs.Prelude.{◌≡◌, true, nat_le, option_map, slice_get, IfOk};
ghost use Rattle.std.specs.List.{filter_map, range_with_len};
ghost use Rattle.xa_decide.specs.indexing.Index.{Sought, IsInOrder, IsOrder, order_at, with_key, key_at};

use crate::key::Key;
use std::alloc::{AllocError, Global};
use std::cmp::Ordering;
use xa_expr::STEP;

/// How many items are looked at one after another, since a search among so few would take longer.
const FEW: usize = 8;

/// The places of a few items: as many as `FEW`.
const PLACES: &[usize] = &[0, 1, 2, 3, 4, 5, 6, 7];

/// The units of each halving of items in order: its bounds are looked for from both ends, by keys of
/// several texts.
const HALVING: u64 = STEP + STEP / 2;

/// How items are found: by their keys.
pub(crate) trait Keying {
    /// What is found.
    type Item;

    /// An item's key.
    ghost key_of: { Self.Item → Sought };

    /// An item's key.
    fn key(item: &Self::Item) -> Key<'_>
        ensures { result ≡ key_of item.now };
}

/// Whether so many items are looked at one after another.
pub(crate) fn are_few(count: usize) -> bool
    ensures { result ≡ nat_le count 8 }
{
    count <= FEW
}

/// How often a number of items is halved until there is none.
fn halvings(count: usize) -> u64 {
    u64::from(usize::BITS - count.leading_zeros())
}

/// The units of a search among so many items in order: the same each time that they are halved. A look at
/// a few is a part of the look-up.
pub(crate) fn units_of_search(count: usize) -> u64 {
    if are_few(count) {
        return 0;
    }
    HALVING.saturating_mul(halvings(count))
}

/// The units of putting so many items in order: for each as much as half a search.
pub(crate) fn units_of_order(count: usize) -> u64 {
    (count as u64).saturating_mul(units_of_search(count) / 2)
}

/// The item that has the place: `get`, with a clause in the words of what an order finds.
pub(crate) fn item_at<T>(items: &[T], place: usize) -> Option<&T>
    ensures { option_map (λ item. item.now) result ≡ slice_get items.now place }
{
    items.get(place)
}

/// The key of the item at the place.
fn key_at<'a, K: Keying>(items: &'a [K::Item], place: usize) -> Option<Key<'a>>
    ensures { result ≡ key_at K.key_of items.now place }
{
    items.get(place).map(|item| K::key(item))
}

/// How the key of the item at the place compares with that key. An order has no place without an item.
fn order_at<K: Keying>(items: &[K::Item], place: usize, key: &Key<'_>) -> Ordering
    ensures { result ≡ order_at K.key_of items.now key.now place }
{
    match items.get(place) {
        Some(item) => K::key(item).cmp(key),
        None => Ordering::Less,
    }
}

/// The places of the items, in the order of their keys; of items of one key, in their own.
fn places_in_order<K: Keying>(alloc: Global, items: &[K::Item]) -> Result<Vec<usize>, AllocError>
    ensures { IfOk result (λ order. IsInOrder K.key_of items.now order.items) }
{
    let mut order: Vec<usize> = (0..items.len()).collect(alloc)?;
    order.sort_by_key(|place| key_at::<K>(items, *place))?;
    Ok(order)
}

/// The places of the items, in the order of their keys; none, if there are few items.
pub(crate) fn order_of<K: Keying>(
    alloc: Global,
    items: &[K::Item],
) -> Result<Vec<usize>, AllocError>
    ensures { IfOk result (λ order. IsOrder K.key_of items.now order.items) }
{
    if are_few(items.len()) {
        Ok(Vec::new(alloc))
    } else {
        places_in_order::<K>(alloc, items)
    }
}

/// The places of the items of that key.
fn places_with<'o, K: Keying>(items: &[K::Item], order: &'o [usize], key: &Key<'_>) -> &'o [usize]
    requires { IsInOrder K.key_of items.now order.now }
    ensures { filter_map (slice_get items.now) result.now ≡ with_key K.key_of key.now items.now }
{
    let start = order.partition_point(|place| order_at::<K>(items, *place, key).is_lt());
    let rest = order.split_at(start).1;
    let count = rest.partition_point(|place| order_at::<K>(items, *place, key).is_le());
    rest.split_at(count).0
}

/// The places of a few items.
fn few_places(count: usize) -> &'static [usize]
    requires { nat_le count 8 ≡ true }
    ensures { result.now ≡ range_with_len 0 count }
{
    PLACES.split_at(count).0
}

/// Places among which are those of all items of that key, in their own order: all places if there are
/// few, and else those of the key.
#[tactic(auto, using(crate::proofs::IndexLemmas::found_twice))]
pub(crate) fn places_among<'o, K: Keying>(
    items: &[K::Item],
    order: &'o [usize],
    key: &Key<'_>,
) -> &'o [usize]
    requires { IsOrder K.key_of items.now order.now }
    ensures { with_key K.key_of key.now (filter_map (slice_get items.now) result.now)
        ≡ with_key K.key_of key.now items.now }
{
    if are_few(items.len()) {
        few_places(items.len())
    } else {
        places_with::<K>(items, order, key)
    }
}
