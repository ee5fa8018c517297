//! A bag: values of one data type, in order.
ghost use Rattle.std.specs.Prelude.{◌≡◌, ◌↔◌, [], ◌∷◌, ◌++◌, ◌<◌, ◌^◌, length};
ghost use Rattle.std.specs.Prelude.{if◌then◌else◌, IsTrue, IfOk, OnOk, OnErr};
ghost use Rattle.xa_value.specs.Order.{type_of};

use std::alloc::{AllocError, Global};
use std::marker::Model;
use xa_value::{DataType, Shared, Value};

/// From this many values on copies share them; fewer don't repay the allocation.
const SHARED_FROM: usize = 8;

/// A bag: any number of values of one data type, in order (XACML 3.0, core, section 7.3.2). They
/// are its own, or its copies share them.
#[derive(Debug, Drop)]
pub struct Bag {
    /// The type of the values.
    data_type: DataType,
    /// Its own values, of which there are none if they are shared. The list is there in either case,
    /// since it knows the allocator that the bag was made with.
    own: Vec<Value>,
    /// The values that its copies share.
    shared: Option<Shared<Vec<Value>>>,
}

impl Model for Bag {
    ghost use Rattle.std.specs.Option.{option_map_or};
    ghost use Rattle.xa_bag.specs.Bag.{Contents, OfType};

    ghost Value = { Contents };

    ghost view = { λ b. record {
      data_type = b.data_type;
      values = option_map_or (λ values. values.items) b.shared b.own.items;
    } };

    ghost invariant = { λ b.
        OfType b.data_type (option_map_or (λ values. values.items) b.shared b.own.items) };
}

impl Bag {
    ghost use Rattle.xa_bag.specs.Bag.{OfType, bag_of};

    /// The empty bag of the type. Nothing is allocated.
    pub fn new(alloc: Global, data_type: DataType) -> Bag
        ensures { result ≡ bag_of data_type [] }
    {
        Bag {
            data_type,
            own: Vec::new(alloc),
            shared: None,
        }
    }

    /// The bag, whose copies from now on share its values, if there are eight or more: a copy takes no
    /// time, however many there are.
    pub fn lent(self) -> Result<Bag, AllocError>
        ensures { IfOk result (λ bag. bag ≡ self) }
    {
        if self.len() < SHARED_FROM || self.shared.is_some() {
            return Ok(self);
        }
        let alloc = self.allocator();
        Ok(Bag {
            data_type: self.data_type,
            own: Vec::new(alloc),
            shared: Some(Shared::new(alloc, self.own)?),
        })
    }

    /// The type of the values.
    pub fn data_type(&self) -> DataType
        ensures { result ≡ self.now.data_type }
    {
        self.data_type
    }

    /// The values, in order.
    pub fn values(&self) -> &[Value]
        ensures values { result.now ≡ self.now.values }
        ensures of_type { OfType self.now.data_type result.now }
    {
        match &self.shared {
            Some(values) => values.get().as_slice(),
            None => self.own.as_slice(),
        }
    }

    /// The allocator that the bag was made with.
    pub(crate) fn allocator(&self) -> Global {
        *self.own.allocator()
    }

    /// How many values there are.
    pub fn len(&self) -> usize
        ensures value { result ≡ length self.now.values }
        ensures bound { result < 2 ^ 63 }
    {
        self.values().len()
    }

    /// Whether there are none.
    pub fn is_empty(&self) -> bool
        ensures { IsTrue result ↔ (self.now.values ≡ []) }
    {
        self.values().is_empty()
    }

    /// Whether the value is of the bag's type.
    pub fn takes(&self, value: &Value) -> bool
        ensures { IsTrue result ↔ (type_of value.now ≡ self.now.data_type) }
    {
        value.data_type() == self.data_type
    }

    /// Puts a value of the bag's type at the end. Without memory nothing is changed.
    pub(crate) fn put(&mut self, value: Value) -> Result<(), AllocError>
        requires { type_of value ≡ self.old.data_type }
        ensures ok { OnOk result (self.new ≡ bag_of self.old.data_type (self.old.values ++ value ∷ [])) }
        ensures err { OnErr result (self.new ≡ self.old) }
    {
        match &self.shared {
            Some(values) => {
                self.own = with_value(values.get(), value)?;
                self.shared = None;
                Ok(())
            }
            None => {
                self.own.push(value)?;
                Ok(())
            }
        }
    }

    /// Puts the value at the end and answers true, if it is of the bag's type; else answers false,
    /// and nothing is changed. Without memory nothing is changed either.
    pub fn push(&mut self, value: Value) -> Result<bool, AllocError>
        ensures taken { IfOk result (λ taken. IsTrue taken ↔ (type_of value ≡ self.old.data_type)) }
        ensures ok { IfOk result (λ taken. self.new
            ≡ (if taken then bag_of self.old.data_type (self.old.values ++ value ∷ []) else self.old)) }
        ensures err { OnErr result (self.new ≡ self.old) }
    {
        if !self.takes(&value) {
            return Ok(false);
        }
        self.put(value)?;
        Ok(true)
    }
}

impl Clone for Bag {
    ghost is_clone = { λ bag copy. copy ≡ bag };

    fn clone(&self) -> Result<Bag, AllocError> {
        match &self.shared {
            Some(values) => Ok(Bag {
                data_type: self.data_type,
                own: Vec::new(self.allocator()),
                shared: Some(values.clone()?),
            }),
            None => Ok(Bag {
                data_type: self.data_type,
                own: self.own.clone()?,
                shared: None,
            }),
        }
    }
}

/// A copy of the values, with one more at the end.
fn with_value(values: &Vec<Value>, value: Value) -> Result<Vec<Value>, AllocError>
    ensures { IfOk result (λ all. all.items ≡ values.now.items ++ value ∷ []) }
{
    let mut all = values.clone()?;
    all.push(value)?;
    Ok(all)
}
