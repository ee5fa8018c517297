//! The key of a cached body.
ghost use Rattle.std.specs.Prelude.{◌≡◌, IfOk};
ghost use Rattle.std.specs.Cmp.Rules.{hashing};
ghost use Rattle.std.proofs.Common.{rules};
ghost use Rattle.xa_cache.specs.Bodies.{key_of};
ghost use Rattle.xa_cache.specs.Hashing.{hashed_of};

use std::alloc::{AllocError, Global};
use std::hash::{Hash, Hasher};
use xa_value::Items;

/// A domain's number and epoch, and the bytes of a request's body. Two keys are equal if all three are.
#[derive(Debug, Drop, PartialEq, Eq)]
pub struct Key {
    number: u64,
    epoch: u64,
    body: Items<u8>,
}

impl Key {
    /// The key of the domain with that number, at that epoch, and of that body. The body is copied.
    pub fn new(alloc: Global, number: u64, epoch: u64, body: &[u8]) -> Result<Key, AllocError>
        ensures { IfOk result (λ key. key ≡ key_of number epoch body.now) }
    {
        Ok(Key {
            number,
            epoch,
            body: Items::from_vec(Vec::from_slice(alloc, body)?),
        })
    }

    /// Law: what is hashed of a key is its number, its epoch and its whole body. It does nothing when it
    /// runs.
    pub fn is_hashed_whole(&self)
        ensures { ⟦<Key as Hash>⟧.hash_input self.now ≡ hashed_of self.now }
    {}

    /// The bytes of the request's body.
    pub(crate) fn body(&self) -> &[u8]
        ensures { result.now ≡ self.now.body }
    {
        self.body.as_slice()
    }
}

impl Hash for Key {
    ghost use Rattle.xa_cache.specs.Hashing.{hashed_of};

    ghost hash_input = { hashed_of };

    ghost respects_eq = { Prim.search (hashing, rules) };

    // The body is written in one call, so that the hasher takes seven bytes at a time.
    fn hash<H: Hasher>(&self, state: &mut H) {
        state.write_u64(self.number);
        state.write_u64(self.epoch);
        state.write(self.body.as_slice());
    }
}
