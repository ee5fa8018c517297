//! The connections that are open, by their places.
ghost use Rattle.std.specs.Prelude.{◌≡◌, ◌⊎◌, ◌<◌, ◌≤◌, ℕ, None, IfNone, IfOk, IfSome, length, option_map};
ghost use Rattle.std.specs.Prelude.{true, false, slice_set};
ghost use Rattle.std.specs.Duration.{as_nanos};
ghost use Rattle.xa_reactor.specs.Timing.{left_of};
ghost use Rattle.xa_reactor.specs.handling.Taking.{IsBefore, IsFoundOr};
ghost use Rattle.xa_reactor.specs.Turn.{AreFree, AreOpen, IsIdleSince, IsIdlest, bytes_of, lane_at, no_lanes};
ghost use Rattle.xa_reactor.specs.Turn.{under_way};

mod keeping;

use crate::access::Access;
use crate::board::{Board, Ready};
use crate::lane::Lane;
use crate::limits::{Limits, Stage, least, left};
use std::alloc::{AllocError, Global};
use std::marker::Model;
use std::mem;
use std::time::Duration;

/// How many connections may be open at once: as many as a front has.
pub const PLACES: usize = 64;

/// How many bytes of replies may be held before another message is answered: 32 MiB. So there are never more
/// than those and one reply, however little of them is left to be sent.
const MOST_UNDER_WAY: usize = 33_554_432;

/// For how many milliseconds a connection owes nothing before it may be driven out: its peer may just be
/// writing.
const GRACE_MILLISECONDS: u64 = 100;

/// The connections that are open.
#[derive(Drop)]
pub struct Lanes {
    /// By place, each that is open.
    lanes: Vec<Option<Lane>>,
}

impl Model for Lanes {
    ghost use Rattle.std.specs.Prelude.{◌≡◌, length, List, Option};
    ghost use Rattle.xa_reactor.specs.declared.lane.Lane.{Lane};

    ghost Value = { List (Option Lane) };

    ghost view = { λ l. l.lanes.items };

    ghost invariant = { λ l. length l.lanes.items ≡ 64 };
}

/// How many bytes are held for the reply to the connection at a place, if one is open there.
fn bytes_of(lane: &Option<Lane>) -> usize
    ensures { result ≡ bytes_of lane.now }
{
    match lane {
        Some(lane) => lane.outgoing.held(),
        None => 0,
    }
}

/// Since when a connection is idle, if one is there that may be driven out, and nothing is known to have come
/// on it.
fn idle_since(lane: &Option<Lane>, ready: Ready) -> Option<Duration>
    ensures idle { IfSome result (λ since. IsIdleSince lane.now (as_nanos since) × (ready.readable ≡ false)) }
    ensures other { IfNone result ((since : ℕ) → IsIdleSince lane.now since → ready.readable ≡ true) }
{
    let Some(lane) = lane else {
        return None;
    };
    if lane.stage != Stage::Quiet {
        return None;
    }
    if lane.access == Access::Changes {
        return None;
    }
    if !lane.outgoing.is_empty() {
        return None;
    }
    if ready.readable {
        return None;
    }
    Some(lane.since)
}

/// Of the connection at a place and the one that was found before it, if one was, that which has been idle
/// for longer, if nothing is known to have come on it.
fn idler(
    found: Option<(usize, Duration)>,
    place: usize,
    lane: &Option<Lane>,
    ready: Ready,
) -> Option<(usize, Duration)>
    ensures whose { IsFoundOr found place lane.now ready result }
    ensures before { (since : ℕ) → IsBefore found since → IsBefore result since }
    ensures own { (since : ℕ) → IsIdleSince lane.now since → IsBefore result since ⊎ (ready.readable ≡ true) }
{
    let Some(since) = idle_since(lane, ready) else {
        return found;
    };
    let Some((_, before)) = found else {
        return Some((place, since));
    };
    if before <= since {
        return found;
    }
    Some((place, since))
}

impl Lanes {
    /// None is open.
    pub(crate) fn new(alloc: Global) -> Result<Lanes, AllocError>
        ensures { IfOk result (λ lanes. lanes ≡ no_lanes) }
    {
        let mut lanes = Vec::with_capacity(alloc, PLACES)?;
        for _ in 0..PLACES {
            lanes.push(None)?;
        }
        Ok(Lanes { lanes })
    }

    /// The connection at a place, if one is open there.
    pub(crate) fn at(&self, place: usize) -> Option<&Lane>
        ensures { option_map (λ lane. lane.now) result ≡ lane_at place self.now }
    {
        self.lanes.get(place)?.as_ref()
    }

    /// Puts a connection there, or none, and gives what was there before.
    pub(crate) fn put(&mut self, place: usize, lane: Option<Lane>) -> Option<Lane>
        ensures before { result ≡ lane_at place self.old }
        ensures after { self.new ≡ slice_set self.old place lane }
    {
        match self.lanes.get_mut(place) {
            Some(kept) => mem::replace(kept, lane),
            None => None,
        }
    }

    /// Whether no place is taken.
    pub(crate) fn is_empty(&self) -> bool
        ensures free { result ≡ true → AreFree self.now }
        ensures places { length self.now ≡ 64 }
    {
        for lane in self.lanes.iter() {
            if lane.is_some() {
                return false;
            }
        }
        true
    }

    /// Whether another reply may be under way beside those that are.
    pub(crate) fn has_room(&self) -> bool
        ensures { result ≡ true → under_way self.now ≤ 33_554_432 }
    {
        let mut room = MOST_UNDER_WAY;
        for lane in self.lanes.iter() {
            let Some(left) = room.checked_sub(bytes_of(lane)) else {
                return false;
            };
            room = left;
        }
        true
    }

    /// The place of the connection that has owed nothing for the longest time, if nothing is known to have
    /// come on it; and since when.
    pub(crate) fn idlest(&self, board: &Board) -> Option<(usize, Duration)>
        ensures { IfSome result (λ found. IsIdlest board.now self.now found.0 (as_nanos found.1)) }
    {
        let mut found = None;
        for (place, lane) in self.lanes.iter().enumerate() {
            found = idler(found, place, lane, board.at(place));
        }
        found
    }

    /// Whether one waits until fewer bytes of replies are under way.
    fn one_wants_room(&self) -> bool {
        for lane in self.lanes.iter().flatten() {
            if lane.wants_room() {
                return true;
            }
        }
        false
    }

    /// For how long nothing is to be done if nothing comes; none for ever.
    pub(crate) fn rest(&self, limits: &Limits, now: Duration) -> Option<Duration> {
        if self.one_wants_room() && self.has_room() {
            return Some(Duration::ZERO);
        }
        let mut rest = None;
        for lane in self.lanes.iter().flatten() {
            if !lane.wants_room() {
                rest = least(rest, lane.time_left(limits, now));
            }
        }
        rest
    }
}

/// For how long a connection that owes nothing since then can't be driven out.
pub(crate) fn grace_left(since: Duration, now: Duration) -> Duration
    ensures { as_nanos result ≡ left_of 100_000_000 (as_nanos since) (as_nanos now) }
{
    left(Duration::from_millis(GRACE_MILLISECONDS), since, now)
}
