//! The share of a place: a step of its connection, behind which that may be closed.
ghost use Rattle.std.specs.Prelude.{◌≡◌, ◌≤◌, true, false, List, MatchOption, None, ℕ};
ghost use Rattle.xa_reactor.specs.Step.{DropsAs, EndsAs, Step};
ghost use Rattle.xa_reactor.specs.Timing.{IsLate, IsParted};
ghost use Rattle.xa_reactor.specs.Turn.{AreAlike, lane_at, under_way};
ghost use Rattle.xa_reactor.specs.handling.Turning.{EndsIf, IsShareAt, Shares, StepsAt};

use crate::halt::Halt;
use crate::lane::{Lane, PIECE_BYTES, Share};
use crate::limits::{Stage, Terms};
use crate::network::Network;
use crate::progress::Progress;
use crate::reactor::Reactor;
use crate::timer::Timer;
use xa_records::Records;
use xa_server::{Clock, Conn, Front};

/// Whether a connection that waits, or goes on, was waited for as long as its stage may last. One that holds
/// a whole message waits for others, not for its peer; and one that goes on isn't waited for, unless what
/// comes is dropped.
fn is_late(lane: &Lane, waits: bool, terms: &Terms) -> bool
    ensures late { result ≡ true → IsLate terms.now lane.now }
    ensures parted { result ≡ false → IsParted terms.now lane.now }
{
    (waits && !lane.wants_room() || lane.stage == Stage::Parting) && lane.is_late(terms)
}

/// How far a connection is behind its step: it ends, if it is late.
fn unless_late(went: Result<Progress, Halt>, lane: &Lane, terms: &Terms) -> Result<Progress, Halt>
    ensures ends { (step : Step) → EndsAs step.conn.number step.traffic lane.now went
        → EndsIf terms.now step lane.now result }
    ensures drops { (dropped : List ℕ) → DropsAs dropped lane.now.stage went
        → DropsAs dropped lane.now.stage result }
{
    let waits = match went {
        Ok(Progress::Waits) => true,
        Ok(Progress::Goes) => false,
        Ok(Progress::Ends(_)) | Err(_) => return went,
    };
    if is_late(lane, waits, terms) {
        return Ok(Progress::Ends(lane.reason_if_late()));
    }
    went
}

impl Reactor {
    /// Whether another answer may come at a place: one may be asked for, and its reply may be under way.
    fn has_room(&self, lane: &Lane, place: usize) -> bool
        ensures { result ≡ true → under_way self.now.lanes ≤ 33_554_432 }
    {
        lane.may_ask(self.board.at(place)) && self.lanes.has_room()
    }

    /// What is known of the share of a place, if a connection is open there.
    fn share_of(&self, place: usize, terms: &Terms) -> Option<Share>
        ensures { MatchOption result (lane_at place self.now.lanes ≡ None)
            (λ share. IsShareAt share terms.now place self.now.lanes) }
    {
        let lane = self.lanes.at(place)?;
        Some(Share {
            conn: Conn { number: place },
            now: terms.began,
            has_room: self.has_room(lane, place),
            parts: terms.parts,
            access: lane.access,
        })
    }

    /// Gives a connection its step. It ends, if it is late then.
    fn step<R: Records, N: Network, C: Clock, T: Timer>(
        &mut self,
        front: &mut Front<R>,
        network: &mut N,
        clock: &mut C,
        timer: &mut T,
        room: &mut [u8; PIECE_BYTES],
        terms: &Terms,
        share: Share,
    ) -> Result<Progress, Halt>
        requires alike { AreAlike self.old.lanes front.old.lines }
        requires share { IsShareAt share terms.now share.conn.number self.old.lanes }
        ensures steps { StepsAt R.custody N.done result terms.now share.conn.number self.old.lanes
            self.new.lanes front.old front.new network.old network.new }
        ensures alike { AreAlike self.new.lanes front.new.lines }
        ensures same { self.new ≡ record self.old { lanes = self.new.lanes; board = self.new.board } }
    {
        let place = share.conn.number;
        let Some(mut lane) = self.lanes.put(place, None) else {
            unreachable!()
        };
        let mut ready = self.board.at(place);
        let went = lane.go(front, network, clock, timer, &mut ready, room, share);
        self.board.put(place, ready);
        let progress = unless_late(went, &lane, terms);
        // It is what it was; no clause of `go` says so.
        lane.access = share.access;
        self.lanes.put(place, Some(lane));
        progress
    }

    /// Gives the connection at a place its share, and closes it if it has ended by it or is late. Whether
    /// it can go on at once.
    pub(super) fn share<R: Records, N: Network, C: Clock, T: Timer>(
        &mut self,
        front: &mut Front<R>,
        network: &mut N,
        clock: &mut C,
        timer: &mut T,
        room: &mut [u8; PIECE_BYTES],
        terms: &Terms,
        place: usize,
    ) -> Result<bool, Halt>
        requires { AreAlike self.old.lanes front.old.lines }
        ensures shared { Shares R.custody N.done result terms.now place self.old.lanes self.new.lanes
            front.old front.new network.old network.new }
        ensures alike { AreAlike self.new.lanes front.new.lines }
        ensures same { self.new ≡ record self.old { lanes = self.new.lanes; board = self.new.board } }
    {
        let Some(share) = self.share_of(place, terms) else {
            return Ok(false);
        };
        match self.step(front, network, clock, timer, room, terms, share) {
            Ok(Progress::Goes) => Ok(true),
            Ok(Progress::Waits) => Ok(false),
            Ok(Progress::Ends(reason)) => {
                self.close(front, network, place, reason);
                Ok(false)
            }
            Err(halt) => Err(halt),
        }
    }
}
