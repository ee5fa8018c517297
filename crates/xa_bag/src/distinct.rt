//! A bag without doubles, as intersection and union make it, value by value.
ghost use Rattle.std.specs.Prelude.{◌≡◌, not, [], ◌∷◌, ◌++◌, filter, if◌then◌else◌, IfOk};
ghost use Rattle.xa_value.specs.Order.{type_of};
ghost use Rattle.xa_bag.specs.Bag.{OfType, bag_of};
ghost use Rattle.xa_bag.specs.Sets.{is_among, distinct};

use crate::bag::Bag;
use crate::members::{Members, ORDERED_FROM, is_among};
use std::alloc::{AllocError, Global};
use std::collections::BTreeSet;
use std::marker::Model;
use xa_value::{DataType, SortKey, Value};

/// A bag without doubles in the making, with the keys of its values if there may be many.
#[derive(Drop)]
pub(crate) struct Distinct<'a> {
    /// The values so far.
    bag: Bag,
    /// Their keys; none if there will be few values: these are searched one after another.
    keys: Option<BTreeSet<SortKey<'a>>>,
}

impl<'a> Model for Distinct<'a> {
    ghost use Rattle.std.specs.Prelude.{IfSome, map};
    ghost use Rattle.std.specs.BTreeSet.{IsFromIterResult};
    ghost use Rattle.xa_value.specs.Order.{key_of, compare_keys};
    ghost use Rattle.xa_bag.specs.Bag.{Contents, OfType};

    ghost Value = { Contents };

    ghost view = { λ d. d.bag };

    ghost invariant = { λ d. OfType d.bag.data_type d.bag.values
        × IfSome d.keys (λ keys. IsFromIterResult compare_keys (map key_of d.bag.values) keys) };
}

impl<'a> Distinct<'a> {
    /// An empty bag of the type. At most `most` values will be put; more only take longer.
    pub(crate) fn new(alloc: Global, data_type: DataType, most: usize) -> Distinct<'a>
        ensures { result ≡ bag_of data_type [] }
    {
        let bag = Bag::new(alloc, data_type);
        let keys = if most < ORDERED_FROM {
            None
        } else {
            Some(BTreeSet::new(alloc))
        };
        Distinct { bag, keys }
    }

    /// The bag, with the value at the end unless it is in the bag already.
    fn with(self, value: &'a Value) -> Result<Distinct<'a>, AllocError>
        requires { type_of value.now ≡ self.data_type }
        ensures { IfOk result (λ d. d ≡ bag_of self.entry.data_type
            (if is_among self.entry.values value.now then self.entry.values
            else self.entry.values ++ value.now ∷ [])) }
    {
        let Distinct { mut bag, keys } = self;
        let Some(mut keys) = keys else {
            push_new(&mut bag, value)?;
            return Ok(Distinct { bag, keys: None });
        };
        if !keys.insert(value.sort_key())? {
            return Ok(Distinct {
                bag,
                keys: Some(keys),
            });
        }
        bag.put(value.clone()?)?;
        Ok(Distinct {
            bag,
            keys: Some(keys),
        })
    }

    /// The bag, with the value at the end if it is among the members and not yet there.
    pub(crate) fn with_shared(
        self,
        members: &Members<'a>,
        value: &'a Value,
    ) -> Result<Distinct<'a>, AllocError>
        requires { type_of value.now ≡ self.data_type }
        ensures { IfOk result (λ d. d ≡ bag_of self.entry.data_type
            (if is_among members.now.values value.now then (if is_among self.entry.values value.now
            then self.entry.values else self.entry.values ++ value.now ∷ [])
            else self.entry.values)) }
    {
        if !members.contains(value) {
            return Ok(self);
        }
        self.with(value)
    }

    /// The bag, with those of the values at the end that are not yet there, each once, at its first
    /// appearance.
    #[tactic(auto, using(crate::proofs::SetLemmas::joined_more, crate::proofs::SetLemmas::joined_none))]
    pub(crate) fn with_all(self, values: &'a [Value]) -> Result<Distinct<'a>, AllocError>
        requires { OfType self.data_type values.now }
        ensures { IfOk result (λ d. d ≡ bag_of self.entry.data_type
            (self.entry.values ++ filter (λ v. not (is_among self.entry.values v)) (distinct values.now))) }
    {
        let mut all = self;
        for value in values {
            all = all.with(value)?;
        }
        Ok(all)
    }

    /// The bag of the values.
    pub(crate) fn into_bag(self) -> Bag
        ensures { result ≡ self.entry }
    {
        self.bag
    }
}

/// Puts the value at the end of the bag, unless it is in the bag already.
fn push_new(bag: &mut Bag, value: &Value) -> Result<(), AllocError>
    requires { type_of value.now ≡ bag.old.data_type }
    ensures { IfOk result (λ _. bag.new ≡ bag_of bag.old.data_type
        (if is_among bag.old.values value.now then bag.old.values else bag.old.values ++ value.now ∷ [])) }
{
    if !is_among(bag.values(), value) {
        bag.put(value.clone()?)?;
    }
    Ok(())
}
