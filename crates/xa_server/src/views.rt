//! The cached views: of each domain at most one, under its number.
ghost use Rattle.std.specs.Prelude.{◌≡◌, ◌≤◌, ◌-◌, ◌^◌, true, false, [], take};
ghost use Rattle.std.specs.Prelude.{min, nat_eq, nat_le, option_map, IfOk};
ghost use Rattle.std.specs.Map.{remove_entry};
ghost use Rattle.xa_server.specs.handling.Views.{fitting_count, in_front, promoted, shortened};
ghost use Rattle.xa_server.specs.handling.Views.{view_ready, with_view, without};

use crate::cached_view::CachedView;
use crate::revision::Revision;
use lru::LruCache;
use std::alloc::{AllocError, Global};
use std::cmp;
use std::marker::Model;
use xa_decide::View;

/// The most cached views. It bounds what caching one costs, since each is looked at.
const MAX_VIEWS: usize = 128;

/// The most bytes that they take together, by their estimates, unless another limit is set: 256 MiB.
const DEFAULT_TOTAL_BYTES: usize = 268_435_456;

/// Cached views, each under its domain's number. The map would hold any number of them: how many stay is
/// said here.
#[derive(Drop)]
pub(crate) struct Views {
    /// The views, the most recently used first.
    views: LruCache<u64, CachedView>,
    /// How many of them there may be.
    max_count: usize,
    /// How many bytes they may take together, by their estimates.
    max_bytes: usize,
}

impl Model for Views {
    ghost use Rattle.std.specs.Prelude.{◌≡◌, ◌-◌, ◌^◌};
    ghost use Rattle.std.specs.Coded.{codes};
    ghost use Rattle.xa_server.specs.contracts.cached_view.CachedView as entry;
    ghost use Rattle.xa_server.specs.Resources.{ViewsModel};

    ghost Value = { ViewsModel };

    ghost coded = { Prim.hlevel (codes, entry.the_row.coded) };

    ghost view = { λ v.
        record { views = v.views.entries; max_count = v.max_count; max_bytes = v.max_bytes } };

    ghost invariant = { λ v. v.views.cap ≡ 2 ^ 64 - 1 };
}

impl Views {
    /// No views, and room for 128, of 256 MiB together.
    pub(crate) fn new(alloc: Global) -> Result<Views, AllocError>
        ensures { IfOk result (λ views.
            views ≡ record { views = []; max_count = 128; max_bytes = 268_435_456 }) }
    {
        Ok(Views {
            views: LruCache::unbounded(alloc)?,
            max_count: MAX_VIEWS,
            max_bytes: DEFAULT_TOTAL_BYTES,
        })
    }

    /// None is cached any longer.
    pub(crate) fn clear(&mut self)
        ensures { self.new
            ≡ record { views = []; max_count = self.old.max_count; max_bytes = self.old.max_bytes } }
    {
        self.views.clear();
    }

    /// None is cached any longer, and there is room for `most`, or for 128, whichever is less.
    pub(crate) fn limit_count(&mut self, most: usize)
        ensures { self.new ≡ record { views = []; max_count = min most 128; max_bytes = self.old.max_bytes } }
    {
        self.max_count = cmp::min(most, MAX_VIEWS);
        self.clear();
    }

    /// None is cached any longer, and there is room for so many bytes.
    pub(crate) fn limit_bytes(&mut self, bytes: usize)
        ensures { self.new ≡ record { views = []; max_count = self.old.max_count; max_bytes = bytes } }
    {
        self.max_bytes = bytes;
        self.clear();
    }

    /// The view of that revision: the one under its number, if it is of its epoch. One look-up.
    pub(crate) fn find(&self, revision: Revision) -> Option<&View>
        ensures { option_map (λ view. view.now) result
            ≡ view_ready revision.number revision.epoch self.now.views }
    {
        match self.views.peek(&revision.number) {
            Some(ready) if ready.revision.epoch == revision.epoch => Some(&ready.view),
            _ => None,
        }
    }

    /// Makes the view under that number the most recently used: one look-up.
    pub(crate) fn touch(&mut self, number: u64)
        ensures { self.new ≡ promoted number self.old }
    {
        self.views.promote(&number);
    }

    /// Caches the view under its domain's number, in the place of any that was there, as the most recently
    /// used; not if it is too large, nor if there is no memory for it. The least recently used is evicted,
    /// until there is room for all. What this costs grows with the cached views, each of which is looked at
    /// once, and with those that are evicted. For the proof: whether it was cached is returned.
    pub(crate) fn keep(&mut self, ready: CachedView) -> bool
        ensures kept { result ≡ true → self.new ≡ with_view ready.revision.number ready self.old }
        ensures left { result ≡ false → self.new ≡ without ready.revision.number self.old }
        ensures too_large { nat_le ready.bytes self.old.max_bytes ≡ false → result ≡ false }
    {
        let number = ready.revision.number;
        if self.max_count == 0 || ready.bytes > self.max_bytes {
            self.views.pop(&number);
            return false;
        }
        if !put(&mut self.views, number, ready) {
            self.views.pop(&number);
            return false;
        }
        shorten(&mut self.views, self.max_count, self.max_bytes);
        true
    }
}

/// Puts the view first, if there is memory.
fn put(views: &mut LruCache<u64, CachedView>, number: u64, ready: CachedView) -> bool
    requires { views.old.cap ≡ 2 ^ 64 - 1 }
    ensures cap { views.new.cap ≡ 2 ^ 64 - 1 }
    ensures put { result ≡ true → views.new.entries ≡ in_front number ready views.old.entries }
    ensures left { result ≡ false → views.new ≡ views.old }
{
    // For the proof: fewer views stand in the map than it has places (the clauses `len` and `fits`).
    let _length = views.len();
    match views.put(number, ready) {
        Ok(_) => true,
        Err(_) => false,
    }
}

/// How many of the most recently used views find room.
fn fitting_count(views: &LruCache<u64, CachedView>, most: usize, bytes: usize) -> usize
    ensures { result ≡ fitting_count most bytes views.now.entries }
{
    let mut count = 0usize;
    let mut left = bytes;
    for (_, ready) in views.iter() {
        if count >= most || ready.bytes > left {
            return count;
        }
        left -= ready.bytes;
        count += 1;
    }
    count
}

/// Evicts the least recently used views, which find no room.
fn shorten(views: &mut LruCache<u64, CachedView>, most: usize, bytes: usize)
    ensures cap { views.new.cap ≡ views.old.cap }
    ensures entries { views.new.entries ≡ shortened most bytes views.old.entries }
{
    let count = fitting_count(views, most, bytes);
    while views.len() > count {
        views.pop_lru();
    }
}
