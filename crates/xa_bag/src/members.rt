//! The values of a bag, to be searched many times.
ghost use Rattle.std.specs.Prelude.{◌≡◌, ◌↔◌, [], map, IsTrue, IfOk};
ghost use Rattle.std.specs.List.Sorted.{IsPermutation, IsSorted};
ghost use Rattle.xa_value.specs.Order.{type_of, key_of, compare_keys};
ghost use Rattle.xa_bag.specs.Sets.{is_among};

use crate::bag::Bag;
use std::alloc::{AllocError, Global};
use std::marker::Model;
use xa_value::{DataType, SortKey, Value};

/// From this many values and this many searches on, the values are ordered by their keys; fewer are
/// faster one after another. `MOST_COMPARISONS` of `xa_expr` charges a search by it.
pub(crate) const ORDERED_FROM: usize = 32;

/// The values of a bag, to be searched. Many values that are searched often are ordered once, and then
/// a search takes the logarithm of their number. If there is no memory for that, they are searched one
/// after another.
#[derive(Drop)]
pub struct Members<'a> {
    /// The type of the values.
    data_type: DataType,
    /// The values, as the bag has them.
    values: &'a [Value],
    /// Their keys, in order; none if the values are searched one after another.
    keys: Option<Vec<SortKey<'a>>>,
}

impl<'a> Model for Members<'a> {
    ghost use Rattle.std.specs.Prelude.{IfSome, map};
    ghost use Rattle.std.specs.List.Sorted.{IsPermutation, IsSorted};
    ghost use Rattle.xa_value.specs.Order.{key_of, compare_keys};
    ghost use Rattle.xa_bag.specs.Bag.{Contents, OfType, bag_of};

    ghost Value = { Contents };

    ghost view = { λ m. bag_of m.data_type m.values.now };

    ghost invariant = { λ m. OfType m.data_type m.values.now × IfSome m.keys (λ keys.
        IsPermutation (map key_of m.values.now) keys.items × IsSorted compare_keys keys.items) };
}

impl<'a> Members<'a> {
    /// The values of the bag, for this many searches.
    pub fn new(bag: &'a Bag, searches: usize) -> Members<'a>
        ensures { result ≡ bag.now }
    {
        let values = bag.values();
        let keys = if values.len().min(searches) < ORDERED_FROM {
            None
        } else {
            ordered_keys_of(bag.allocator(), values).ok()
        };
        Members {
            data_type: bag.data_type(),
            values,
            keys,
        }
    }

    /// Whether there are no values.
    pub fn is_empty(&self) -> bool
        ensures { IsTrue result ↔ (self.now.values ≡ []) }
    {
        self.values.is_empty()
    }

    /// Whether the value is of the type of the values.
    fn takes(&self, value: &Value) -> bool
        ensures { IsTrue result ↔ (type_of value.now ≡ self.now.data_type) }
    {
        value.data_type() == self.data_type
    }

    /// Whether one of the values is the value.
    pub fn contains(&self, value: &Value) -> bool
        ensures { result ≡ is_among self.now.values value.now }
    {
        match &self.keys {
            Some(keys) => {
                let keys = keys.as_slice();
                self.takes(value) && keys.binary_search(&value.sort_key()).is_ok()
            }
            None => is_among(self.values, value),
        }
    }
}

/// Whether one of the values is the value.
pub(crate) fn is_among(values: &[Value], value: &Value) -> bool
    ensures { result ≡ is_among values.now value.now }
{
    values.iter().any(|other| value.same(other))
}

/// The keys of the values.
fn keys_of<'a>(alloc: Global, values: &'a [Value]) -> Result<Vec<SortKey<'a>>, AllocError>
    ensures { IfOk result (λ keys. keys.items ≡ map key_of values.now) }
{
    values.iter().map(|value| value.sort_key()).collect(alloc)
}

/// The keys of the values, in order.
fn ordered_keys_of<'a>(alloc: Global, values: &'a [Value]) -> Result<Vec<SortKey<'a>>, AllocError>
    ensures { IfOk result (λ keys.
        IsPermutation (map key_of values.now) keys.items × IsSorted compare_keys keys.items) }
{
    let mut keys = keys_of(alloc, values)?;
    keys.sort_unstable();
    Ok(keys)
}
