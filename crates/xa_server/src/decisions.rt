//! The cached decisions, with their counts.
ghost use Rattle.std.specs.Prelude.{◌≡◌, option_map, IfOk};
ghost use Rattle.xa_cache.specs.Bodies.{found};
ghost use Rattle.xa_decide.specs.declared.limits.OverLimit.TheVariants.{Reply};
ghost use Rattle.xa_decide.specs.Limits.{IfOver, IsLonger};
ghost use Rattle.xa_server.specs.handling.Asking.{IsLookedUp, IsNoted, key_within};
ghost use Rattle.xa_server.specs.Decisions.{nothing_cached};
ghost use Rattle.xa_server.specs.Work.{IsKept, key_of_revision};
ghost use Rattle.xa_server.specs.Replies.{decision_reply};

use crate::replies::decision_reply;
use crate::revision::Revision;
use std::alloc::{AllocError, Global};
use std::marker::Model;
use xa_cache::{Cache, Key, fits};
use xa_decide::{Limits, OverLimit, Responded};
use xa_records::Digest;
use xa_value::{Items, OrMemory};

/// The most bytes of a request whose decision is looked up and cached: of a longer one none is cached, so no
/// key is made for it. The cache has this limit, too (`xa_cache::fits`), and `cached_body` in `specs/Work`.
const MAX_REQUEST_BYTES: usize = 16_384;

/// The cache of decisions, and what was counted of them.
#[derive(Drop)]
pub(crate) struct Decisions {
    /// The decisions, under their keys.
    cache: Cache,
    /// How many were evaluated.
    evaluations: u64,
    /// How many were to be cached, and weren't for want of memory.
    unkept: u64,
}

impl Model for Decisions {
    ghost use Rattle.std.specs.Coded.{codes};
    ghost use Rattle.xa_cache.specs.contracts.cache.Cache as bodies;
    ghost use Rattle.xa_server.specs.Decisions.{DecisionsModel};

    ghost Value = { DecisionsModel };

    ghost coded = { Prim.hlevel (codes, bodies.the_row.coded) };

    ghost view = { λ d. record { cached = d.cache; evaluations = d.evaluations; unkept = d.unkept } };
}

impl Decisions {
    /// Nothing is cached yet. The operator's token, of which tenants know nothing, makes the places in the
    /// cache unknown to them.
    pub(crate) fn new(alloc: Global, operator: Digest) -> Result<Decisions, AllocError>
        ensures { IfOk result (λ d. d ≡ nothing_cached) }
    {
        Ok(Decisions {
            cache: Cache::new(alloc, operator.as_bytes())?,
            evaluations: 0,
            unkept: 0,
        })
    }

    /// How many decisions were evaluated.
    pub(crate) fn evaluations(&self) -> u64
        ensures { result ≡ self.now.evaluations }
    {
        self.evaluations
    }

    /// How many decisions were to be cached, and weren't for want of memory.
    pub(crate) fn unkept(&self) -> u64
        ensures { result ≡ self.now.unkept }
    {
        self.unkept
    }

    /// The reply by the decision that is cached under the key, which is now the most recently used. A body
    /// that is over the limit is refused, as when it is evaluated.
    pub(crate) fn cached_reply(
        &mut self,
        alloc: Global,
        key: &Key,
        limits: Limits,
    ) -> Result<Option<Items<u8>>, OrMemory<OverLimit>>
        ensures found { IfOk result (λ reply.
            reply ≡ option_map decision_reply (found key.now self.old.cached)) }
        ensures moves { IsLookedUp (found key.now self.old.cached) key.now self.old self.new }
        ensures over { IfOver result (λ over.
            (over ≡ Reply) × IsLonger limits.reply (found key.now self.old.cached)) }
    {
        match self.cache.look(key) {
            Some(body) => {
                limits.check_reply(body)?;
                Ok(Some(decision_reply(alloc, body)?))
            }
            None => Ok(None),
        }
    }

    /// Caches a decision, or counts that it couldn't.
    fn keep(&mut self, key: Key, body: Items<u8>)
        ensures cached { IsKept key body self.old self.new }
        ensures evaluations { self.new.evaluations ≡ self.old.evaluations }
    {
        if !self.cache.keep(key, body) {
            self.unkept = self.unkept.saturating_add(1);
        }
    }

    /// Counts a decision that was evaluated, and caches it if there is a key for it, it is the same at
    /// every moment and neither body is too large.
    pub(crate) fn note(&mut self, key: Option<Key>, responded: Responded)
        ensures { IsNoted key responded self.old self.new }
    {
        self.evaluations = self.evaluations.saturating_add(1);
        let Some(key) = key else {
            return;
        };
        if responded.timeless && fits(&key, &responded.body) {
            self.keep(key, responded.body);
        }
    }
}

/// The key under which a decision on that body is looked up and cached, by the revision of the domain that
/// lets the message in. A body that is too large for that has none, and isn't copied.
pub(crate) fn key_within(
    alloc: Global,
    revision: Revision,
    body: &[u8],
) -> Result<Option<Key>, AllocError>
    ensures { IfOk result (λ key. key ≡ key_within (key_of_revision revision body.now)) }
{
    if body.len() > MAX_REQUEST_BYTES {
        return Ok(None);
    }
    Ok(Some(Key::new(alloc, revision.number, revision.epoch, body)?))
}
