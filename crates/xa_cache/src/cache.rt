//! The cache: at most 512 bodies; the least recently used goes.
ghost use Rattle.std.specs.Prelude.{◌≡◌, [], true, false, option_map, IsSome, IsTrue, IfOk};
ghost use Rattle.std.specs.Borrow.{sem};
ghost use Rattle.xa_cache.specs.Bodies.{fits, found, kept, looked};

use crate::key::Key;
use crate::seeded::Seeded;
use lru::LruCache;
use std::alloc::{AllocError, Global};
use std::marker::Model;
use std::num::NonZeroUsize;
use xa_value::Items;

/// The most bodies that are cached. With the bodies of their requests they have 16 MiB at most.
const MAX_BODIES: usize = 512;

/// The most bytes that the body of a cached decision has, and the body of its request. Two bodies of
/// that length are compared in about a microsecond.
const MAX_KEPT_BYTES: usize = 16_384;

/// Bodies of decisions, each under its key. Contracts see the keys and bodies, the most recently used
/// first.
#[derive(Drop)]
pub struct Cache {
    /// The bodies, the most recently used first.
    bodies: LruCache<Key, Items<u8>, Seeded>,
}

impl Model for Cache {
    ghost use Rattle.std.specs.Prelude.{◌≡◌, List, ℕ};
    ghost use Rattle.std.specs.Coded.{codes};
    ghost use Rattle.xa_cache.specs.contracts.key.Key.{the_row as key_row};
    ghost use Rattle.xa_cache.specs.declared.key.Key as key;

    ghost Value = { List (key.Key × List ℕ) };

    ghost coded = { Prim.hlevel (codes, key_row.coded) };

    ghost view = { λ c. c.bodies.entries };

    ghost invariant = { λ c. c.bodies.cap ≡ 512 };
}

impl Cache {
    ghost use Rattle.xa_cache.specs.Ends.{ends_as};

    /// An empty cache. Keys are hashed with the secret: who doesn't know it can't choose requests whose
    /// hashes collide.
    pub fn new(alloc: Global, secret: &[u8]) -> Result<Cache, AllocError>
        ensures { IfOk result (λ cache. cache ≡ []) }
    {
        let size = NonZeroUsize::new(MAX_BODIES).unwrap();
        Ok(Cache {
            bodies: LruCache::with_hasher(alloc, size, Seeded::new(secret))?,
        })
    }

    /// The body under an equal key, which is now the most recently used.
    pub fn look(&mut self, key: &Key) -> Option<&[u8]>
        ensures* moves { sem 𝓛 (ends_as self.entry (looked key.now self.old)) }
        ensures value { option_map (λ body. body.now) result ≡ found key.now self.old }
    {
        match self.bodies.get(key) {
            Some(body) => Some(body.as_slice()),
            None => None,
        }
    }

    /// Caches the body under the key, as the most recently used, and returns whether it did. A body under
    /// an equal key is replaced; of 513 bodies the least recently used goes. A body that doesn't fit isn't
    /// cached, nor one for which there is no memory.
    pub fn keep(&mut self, key: Key, body: Items<u8>) -> bool
        ensures kept { result ≡ true → self.new ≡ kept key body self.old }
        ensures left { result ≡ false → self.new ≡ self.old }
        ensures too_large { fits key body ≡ false → result ≡ false }
        ensures again { fits key body ≡ true → IsSome (found key self.old) → result ≡ true }
    {
        if !fits(&key, &body) {
            return false;
        }
        put(&mut self.bodies, key, body)
    }
}

/// Whether the request's body and the decision's are short enough to be kept.
pub fn fits(key: &Key, body: &Items<u8>) -> bool
    ensures { result ≡ fits key.now body.now }
{
    key.body().len() <= MAX_KEPT_BYTES && body.len() <= MAX_KEPT_BYTES
}

/// Puts the body first if there is memory, and returns whether there was.
fn put(bodies: &mut LruCache<Key, Items<u8>, Seeded>, key: Key, body: Items<u8>) -> bool
    requires { bodies.old.cap ≡ 512 }
    ensures cap { bodies.new.cap ≡ 512 }
    ensures kept { result ≡ true → bodies.new.entries ≡ kept key body bodies.old.entries }
    ensures left { result ≡ false → bodies.new ≡ bodies.old }
    ensures again { IsSome (found key bodies.old.entries) → result ≡ true }
{
    // Nothing is done with the length. By the clause `valid` of this call the prover knows that the map
    // has no more bodies than its capacity.
    let _length = bodies.len();
    bodies.put(key, body).is_ok()
}
