//! A share of a value that contracts see as the value.
ghost use Rattle.std.specs.Prelude.{◌≡◌, IfOk};

use std::alloc::{AllocError, Global};
use std::marker::Model;
use std::rc::Rc;

/// An `Rc` that contracts see as its value: a share equals what it shares.
#[derive(Debug, Drop)]
pub struct Shared<T> {
    rc: Rc<T>,
}

impl<T> Model for Shared<T> {
    ghost Value = { T };

    ghost coded = { T.code };

    ghost view = { λ s. s.rc.value };
}

impl<T> Shared<T> {
    /// The shared value.
    pub fn get(&self) -> &T
        ensures { result.now ≡ self.now }
    {
        &self.rc
    }
}

impl<T: Drop> Shared<T> {
    /// Puts the value where several can share it.
    pub fn new(alloc: Global, value: T) -> Result<Shared<T>, AllocError>
        ensures { IfOk result (λ s. s ≡ value) }
    {
        Ok(Shared {
            rc: Rc::new(alloc, value)?,
        })
    }
}

impl<T: Drop> Clone for Shared<T> {
    ghost is_clone = { λ share copy. copy ≡ share };

    fn clone(&self) -> Result<Shared<T>, AllocError> {
        Ok(Shared {
            rc: self.rc.clone()?,
        })
    }
}
