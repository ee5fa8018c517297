//! Which places may be taken: one is kept for a connection that comes at the address for changes.
ghost use Rattle.std.specs.Prelude.{◌≡◌, ◌<◌, ◌≤◌, ℕ, true, false, None, length};
ghost use Rattle.xa_reactor.specs.declared.access.Access.TheVariants as variant;
ghost use Rattle.xa_reactor.specs.Turn.{HasChanges, IsForChanges, IsFullFor, MayCome, free_at, free_in};
ghost use Rattle.xa_reactor.specs.Turn.{lane_at};

use crate::access::Access;
use crate::lane::Lane;
use crate::lanes::Lanes;

/// Whether a connection is at a place that came at the address for changes.
fn is_for_changes(lane: &Option<Lane>) -> bool
    ensures there { result ≡ true → IsForChanges lane.now }
    ensures other { result ≡ false → IsForChanges lane.now → ⊥ }
{
    match lane {
        Some(lane) => lane.access == Access::Changes,
        None => false,
    }
}

/// How many places are free, of one.
fn free_at(lane: &Option<Lane>) -> usize
    ensures { result ≡ free_at lane.now }
{
    match lane {
        Some(_) => 0,
        None => 1,
    }
}

impl Lanes {
    /// Whether a connection is open that came at the address for changes.
    pub(crate) fn has_changes(&self) -> bool
        ensures there { result ≡ true → HasChanges self.now }
        ensures none { result ≡ false → HasChanges self.now → ⊥ }
    {
        for lane in self.lanes.iter() {
            if is_for_changes(lane) {
                return true;
            }
        }
        false
    }

    /// Whether more places are free than so many.
    fn has_more_free(&self, kept: usize) -> bool
        ensures more { result ≡ true → kept < free_in self.now }
        ensures few { result ≡ false → free_in self.now ≤ kept }
    {
        let mut left = kept;
        for lane in self.lanes.iter() {
            let Some(rest) = left.checked_sub(free_at(lane)) else {
                return true;
            };
            left = rest;
        }
        false
    }

    /// Whether there is a place for another connection that comes at the first of two addresses: one is kept,
    /// unless one is open that came at the other.
    fn has_place_beside(&self) -> bool
        ensures { result ≡ true → (place : ℕ) × (place < length self.now) × (lane_at place self.now ≡ None)
            × MayCome variant.Asks self.now }
    {
        if self.has_changes() {
            return self.has_more_free(0);
        }
        self.has_more_free(1)
    }

    /// Whether there is a place for another connection, by the address at which it comes.
    pub(crate) fn has_place(&self, access: Access) -> bool
        ensures { result ≡ true → (place : ℕ) × (place < length self.now) × (lane_at place self.now ≡ None)
            × MayCome access self.now }
    {
        match access {
            Access::All => self.has_more_free(0),
            Access::Asks => self.has_place_beside(),
            Access::Changes => {
                if self.has_changes() {
                    return false;
                }
                self.has_more_free(0)
            }
        }
    }

    /// Whether no place is free for another connection that comes at the first of two addresses but the one
    /// that is kept, or none at all.
    #[tactic(auto, using(crate::proofs::KeepingLemmas::all_open, crate::proofs::KeepingLemmas::one_free))]
    fn is_full_beside(&self) -> bool
        ensures { result ≡ true → IsFullFor variant.Asks self.now }
    {
        if self.has_changes() {
            return !self.has_more_free(0);
        }
        self.has_more_free(0) && !self.has_more_free(1)
    }

    /// Whether so few places are free that one may be driven out for another connection, by the address at
    /// which that comes.
    #[tactic(auto, using(crate::proofs::KeepingLemmas::all_open))]
    pub(crate) fn is_full_for(&self, access: Access) -> bool
        ensures { result ≡ true → IsFullFor access self.now }
    {
        match access {
            Access::All => !self.has_more_free(0),
            Access::Asks => self.is_full_beside(),
            Access::Changes => false,
        }
    }
}
