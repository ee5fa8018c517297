//! Who is taken, and who has to go for it.
ghost use Rattle.std.specs.Prelude.{◌≡◌, ◌≢◌, None, IfSome, Some};
ghost use Rattle.std.specs.Duration.{as_nanos};
ghost use Rattle.xa_server.specs.Connection.{empty_stream};
ghost use Rattle.xa_server.specs.Lines.{first_free, line_at, with_line};
ghost use Rattle.xa_reactor.specs.declared.access.Access.{Access};
ghost use Rattle.xa_reactor.specs.declared.board.Board.{Board};
ghost use Rattle.xa_reactor.specs.handling.Going.{Makes};
ghost use Rattle.xa_reactor.specs.handling.Taking.{Follows, IsRoom, Opens, TakesOn};
ghost use Rattle.xa_reactor.specs.handling.Turning.{Closes, TakesSome};
ghost use Rattle.xa_reactor.specs.Turn.{AreAlike, Fits, IsFullFor, MayCome, MayGo, calls_in, closes, lane_at};
ghost use Rattle.xa_reactor.specs.Turn.{opens};

use crate::access::Access;
use crate::board::Ready;
use crate::halt::Halt;
use crate::lane::Lane;
use crate::lanes::{PLACES, grace_left};
use crate::network::{Arrival, Network};
use crate::progress::Reason;
use crate::reactor::Reactor;
use std::time::Duration;
use xa_records::Records;
use xa_server::{Conn, Front};

/// Opens a connection of the front, the least that is free.
#[tactic(auto, using(crate::proofs::TakingLemmas::full_if_refused))]
fn begin<R: Records>(front: &mut Front<R>) -> Conn
    requires { first_free front.old.lines ≢ None }
    ensures first { first_free front.old.lines ≡ Some result.number }
    ensures lines { front.new.lines ≡ with_line result (Some empty_stream) front.old.lines }
    ensures makes { (access : Access) → Makes R.custody (calls_in (opens result access)) front.old front.new }
{
    let Ok(conn) = front.open() else {
        unreachable!()
    };
    conn
}

/// Closes a connection of the front.
#[tactic(auto, using(crate::proofs::TakingLemmas::finished_lines))]
fn finish<R: Records>(front: &mut Front<R>, conn: Conn)
    requires { line_at conn front.old.lines ≢ None }
    ensures lines { front.new.lines ≡ with_line conn None front.old.lines }
    ensures makes { (reason : Reason) → Makes R.custody (calls_in (closes conn reason)) front.old front.new }
{
    let _closed = front.close(conn);
}

/// Takes a connection that waits at a door.
fn accept_at<N: Network>(network: &mut N, access: Access) -> Arrival
    ensures { N.done network.new ≡ N.done network.old }
{
    match access {
        Access::All | Access::Asks => network.accept(),
        Access::Changes => network.accept_change(),
    }
}

impl Reactor {
    /// The connection that may be driven out for another, if there is one.
    #[tactic(auto, using(crate::proofs::TakingLemmas::may_go))]
    fn to_drive_out(&self, access: Access, now: Duration) -> Option<usize>
        requires { IsFullFor access self.now.lanes }
        ensures { IfSome result (λ place. MayGo self.now.board (as_nanos now) place access self.now.lanes) }
    {
        match self.lanes.idlest(&self.board) {
            Some((place, since)) if grace_left(since, now).is_zero() => Some(place),
            _ => None,
        }
    }

    /// Whether a connection may be taken: one may wait at its door, no pause is left there, and there is a
    /// place for it: a free one, or that of the one that is driven out for it.
    fn room_for_one(&self, access: Access, now: Duration) -> Option<Option<usize>>
        ensures { IfSome result
            (λ driven_out. IsRoom self.now.board (as_nanos now) driven_out access self.now.lanes) }
    {
        if !self.board.waits(access) || !self.doors.at(access).pause_left(now).is_zero() {
            return None;
        }
        if self.lanes.has_place(access) {
            return Some(None);
        }
        if !self.lanes.is_full_for(access) {
            return None;
        }
        match self.to_drive_out(access, now) {
            Some(place) => Some(Some(place)),
            None => None,
        }
    }

    /// Closes the connection at a place.
    pub(super) fn close<R: Records, N: Network>(
        &mut self,
        front: &mut Front<R>,
        network: &mut N,
        place: usize,
        reason: Reason,
    )
        requires alike { AreAlike self.old.lanes front.old.lines }
        requires there { lane_at place self.old.lanes ≢ None }
        ensures closes { Closes R.custody N.done place reason self.old.lanes self.new.lanes
            front.old front.new network.old network.new }
        ensures alike { AreAlike self.new.lanes front.new.lines }
        ensures same { self.new ≡ record self.old { lanes = self.new.lanes } }
    {
        self.lanes.put(place, None);
        network.leave(place, reason);
        finish(front, Conn { number: place });
    }

    /// Opens the connection that has come at that address, at the least place that is free.
    fn open<R: Records, N: Network>(
        &mut self,
        front: &mut Front<R>,
        network: &mut N,
        access: Access,
        now: Duration,
    )
        requires alike { AreAlike self.old.lanes front.old.lines }
        requires free { first_free front.old.lines ≢ None }
        requires may { MayCome access self.old.lanes }
        ensures opens { Opens R.custody N.done access (as_nanos now) self.old.lanes self.new.lanes
            front.old front.new network.old network.new }
        ensures alike { AreAlike self.new.lanes front.new.lines }
        ensures follows { (first : Board) → Follows first self.old.board (as_nanos now) self.old.lanes
            → Follows first self.new.board (as_nanos now) self.new.lanes }
        ensures same { self.new ≡ record self.old { lanes = self.new.lanes; board = self.new.board } }
    {
        let conn = begin(front);
        network.seat(conn.number);
        self.board.put(conn.number, Ready::new());
        self.lanes.put(conn.number, Some(Lane::new(now, access)));
    }

    /// Drives one out, and opens the connection that has come, at its place if no other is free.
    fn replace<R: Records, N: Network>(
        &mut self,
        front: &mut Front<R>,
        network: &mut N,
        place: usize,
        access: Access,
        now: Duration,
    )
        requires alike { AreAlike self.old.lanes front.old.lines }
        requires fits { Fits self.old.is_split access }
        requires goes { MayGo self.old.board (as_nanos now) place access self.old.lanes }
        ensures taken { TakesOn R.custody N.done self.old.is_split (as_nanos now) self.old.board
            self.new.board self.old.lanes self.new.lanes front.old front.new network.old network.new }
        ensures alike { AreAlike self.new.lanes front.new.lines }
        ensures same { self.new ≡ record self.old { lanes = self.new.lanes; board = self.new.board } }
    {
        self.close(front, network, place, Reason::DrivenOut);
        self.open(front, network, access, now);
    }

    /// Seats the connection that has come, at a free place or at that of one that is driven out for it.
    fn welcome<R: Records, N: Network>(
        &mut self,
        front: &mut Front<R>,
        network: &mut N,
        driven_out: Option<usize>,
        access: Access,
        now: Duration,
    )
        requires alike { AreAlike self.old.lanes front.old.lines }
        requires fits { Fits self.old.is_split access }
        requires room { IsRoom self.old.board (as_nanos now) driven_out access self.old.lanes }
        ensures taken { TakesOn R.custody N.done self.old.is_split (as_nanos now) self.old.board
            self.new.board self.old.lanes self.new.lanes front.old front.new network.old network.new }
        ensures alike { AreAlike self.new.lanes front.new.lines }
        ensures same { self.new ≡ record self.old { lanes = self.new.lanes; board = self.new.board } }
    {
        match driven_out {
            Some(place) => self.replace(front, network, place, access, now),
            None => self.open(front, network, access, now),
        }
    }

    /// Takes one connection at a door, if one waits there and there is a place for it. Whether another may be
    /// tried.
    fn take_one<R: Records, N: Network>(
        &mut self,
        front: &mut Front<R>,
        network: &mut N,
        access: Access,
        now: Duration,
    ) -> Result<bool, Halt>
        requires alike { AreAlike self.old.lanes front.old.lines }
        requires fits { Fits self.old.is_split access }
        ensures taken { TakesOn R.custody N.done self.old.is_split (as_nanos now) self.old.board
            self.new.board self.old.lanes self.new.lanes front.old front.new network.old network.new }
        ensures alike { AreAlike self.new.lanes front.new.lines }
        ensures same { self.new
            ≡ record self.old { lanes = self.new.lanes; board = self.new.board; doors = self.new.doors } }
    {
        let Some(driven_out) = self.room_for_one(access, now) else {
            return Ok(false);
        };
        match accept_at(network, access) {
            Arrival::Came => {
                self.doors.at_mut(access).succeed();
                self.welcome(front, network, driven_out, access, now);
                Ok(true)
            }
            Arrival::Nobody => {
                self.board.note_nobody(access);
                Ok(false)
            }
            Arrival::Passed => {
                self.doors.at_mut(access).pass_over()?;
                Ok(true)
            }
            Arrival::NoRoom => {
                let is_alone = self.lanes.is_empty();
                self.doors.at_mut(access).wait(is_alone, now)?;
                Ok(false)
            }
            Arrival::Failed => Err(Halt::Door),
        }
    }

    /// Takes connections at a door, at most so many, as far as some wait there and there are places for them.
    fn take_at<R: Records, N: Network>(
        &mut self,
        front: &mut Front<R>,
        network: &mut N,
        access: Access,
        most: usize,
        now: Duration,
    ) -> Result<(), Halt>
        requires alike { AreAlike self.old.lanes front.old.lines }
        requires fits { Fits self.old.is_split access }
        ensures taken { TakesOn R.custody N.done self.old.is_split (as_nanos now) self.old.board
            self.new.board self.old.lanes self.new.lanes front.old front.new network.old network.new }
        ensures alike { AreAlike self.new.lanes front.new.lines }
        ensures same { self.new
            ≡ record self.old { lanes = self.new.lanes; board = self.new.board; doors = self.new.doors } }
    {
        for _ in 0..most {
            if !self.take_one(front, network, access, now)? {
                return Ok(());
            }
        }
        Ok(())
    }

    /// Takes connections. Where changes have an address of their own, one is taken there in a turn: there one
    /// is served at a time.
    #[tactic(auto, using(crate::proofs::KeepingLemmas::fits_all, crate::proofs::KeepingLemmas::fits_asks, crate::proofs::KeepingLemmas::fits_changes))]
    pub(super) fn take_some<R: Records, N: Network>(
        &mut self,
        front: &mut Front<R>,
        network: &mut N,
        now: Duration,
    ) -> Result<(), Halt>
        requires { AreAlike self.old.lanes front.old.lines }
        ensures taken { TakesSome R.custody N.done self.old.is_split self.old.board (as_nanos now)
            self.old.lanes self.new.lanes front.old front.new network.old network.new }
        ensures alike { AreAlike self.new.lanes front.new.lines }
        ensures same { self.new
            ≡ record self.old { lanes = self.new.lanes; board = self.new.board; doors = self.new.doors } }
    {
        if self.doors.are_shut {
            return Ok(());
        }
        if !self.is_split {
            return self.take_at(front, network, Access::All, PLACES, now);
        }
        self.take_at(front, network, Access::Changes, 1, now)?;
        self.take_at(front, network, Access::Asks, PLACES, now)
    }
}
