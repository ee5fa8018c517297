//! Domains whose policies take more to read than a message may have read.
use crate::revision::Revision;
use lru::LruCache;
use std::alloc::{AllocError, Global};
use std::num::NonZeroUsize;

/// The most domains that are remembered, as many as gates are. One that was forgotten is read once more, as
/// far as a message may read, and is remembered again.
const MAX_DOMAINS: usize = 512;

/// Domains whose root leads to more text than a message may have read, each by its number, with the epoch
/// at which that was found. A message that asks such policies is refused at once, and they aren't read
/// for it again. No clause speaks of these domains, since such a message is refused, as any may be.
#[derive(Drop)]
pub(crate) struct Oversized {
    /// The epochs, each under its domain's number.
    epochs: LruCache<u64, u64>,
}

impl Oversized {
    /// No domains, and room for 512.
    pub(crate) fn new(alloc: Global) -> Result<Oversized, AllocError> {
        let size = NonZeroUsize::new(MAX_DOMAINS).unwrap();
        Ok(Oversized {
            epochs: LruCache::new(alloc, size)?,
        })
    }

    /// None is remembered any longer.
    pub(crate) fn clear(&mut self) {
        self.epochs.clear();
    }

    /// Whether the domain of that revision is one of them, at its epoch: one look-up.
    pub(crate) fn has(&self, revision: Revision) -> bool {
        matches!(self.epochs.peek(&revision.number), Some(epoch) if *epoch == revision.epoch)
    }

    /// Remembers the domain of that revision, at its epoch, if there is memory.
    pub(crate) fn remember(&mut self, revision: Revision) {
        let _put = self.epochs.put(revision.number, revision.epoch);
    }
}
