//! Turns: in each every connection has its share.
ghost use Rattle.std.specs.Prelude.{◌≡◌, ◌≢◌, ◌⊎◌, ◌<◌, ◌+◌, ◌%◌, false, true, IfOk, MatchResult, None, OnOk};
ghost use Rattle.std.specs.Prelude.{length};
ghost use Rattle.xa_server.specs.Front.{front_is_clean, front_is_open, front_is_sound};
ghost use Rattle.xa_server.specs.Lines.{none_open};
ghost use Rattle.xa_reactor.specs.Run.{IsServedAtOnce, IsServedWhole, StreamsOfSittings, TurnsGoOn};
ghost use Rattle.xa_reactor.specs.Turn.{AreAlike, AreFree, AreTerms, BreaksOff, TakesTurn, no_lanes, rotated};
ghost use Rattle.xa_reactor.specs.handling.Turning.{Deals, ShareEach};

mod resting;
mod sharing;
mod taking;

use crate::board::Board;
use crate::door::Doors;
use crate::halt::Halt;
use crate::lane::PIECE_BYTES;
use crate::lanes::{Lanes, PLACES};
use crate::limits::{Limits, Terms, leaving_left};
use crate::network::Network;
use crate::timer::{Timer, time_by};
use std::alloc::{AllocError, Global};
use std::time::Duration;
use xa_records::Records;
use xa_server::{Clock, Front};

/// Connections that are served at once.
#[derive(Drop)]
pub struct Reactor {
    /// Those that are open.
    lanes: Lanes,
    /// What is known to be ready.
    board: Board,
    /// How taking connections goes at each address.
    doors: Doors,
    /// Whether changes have an address of their own.
    is_split: bool,
    /// The place that comes first in the next turn, or this and a multiple of 64.
    first: u8,
    /// For how long a connection is waited for.
    limits: Limits,
    /// Since when it is known that the program was told to end.
    leaving: Option<Duration>,
}

impl Reactor {
    /// Nobody is there yet.
    pub fn new(alloc: Global, limits: Limits) -> Result<Reactor, AllocError>
        ensures nobody { IfOk result (λ reactor. reactor.lanes ≡ no_lanes) }
        ensures stays { IfOk result (λ reactor. reactor.leaving ≡ None) }
        ensures one { IfOk result (λ reactor. reactor.is_split ≡ false) }
    {
        Ok(Reactor {
            lanes: Lanes::new(alloc)?,
            board: Board::new(),
            doors: Doors::new(),
            is_split: false,
            first: 0,
            limits,
            leaving: None,
        })
    }

    /// The same, and changes have an address of their own. There one connection is served at a time, in the
    /// order in which they come; a place is kept for it, and it is never driven out. At the other address a
    /// message is turned away exactly if it asks for a change.
    pub fn with_changes(mut self) -> Reactor
        ensures { result ≡ record self { is_split = true; board = result.board } }
    {
        self.is_split = true;
        self.board.changes = true;
        self
    }

    /// What holds for the shares of a turn that began then.
    fn terms(&self, now: Duration) -> Terms
        ensures { AreTerms result now self.now.limits self.now.leaving }
    {
        match self.leaving {
            Some(since) => Terms {
                began: now,
                limits: self.limits.leaving(),
                parts: leaving_left(since, now).is_zero(),
            },
            None => Terms {
                began: now,
                limits: self.limits,
                parts: false,
            },
        }
    }

    /// Whether the program was told to end, no connection is taken any more, and all have ended.
    fn is_over(&self) -> bool
        ensures free { result ≡ true → AreFree self.now.lanes × (length self.now.lanes ≡ 64) }
        ensures told { result ≡ true → self.now.leaving ≢ None }
    {
        self.leaving.is_some() && self.doors.are_shut && self.lanes.is_empty()
    }

    /// Notes that the program was told to end, if it was.
    fn look_at_end(&mut self, now: Duration)
        ensures same { self.new ≡ record self.old { leaving = self.new.leaving } }
        ensures told { self.new.leaving ≢ None
            → (self.old.leaving ≢ None) ⊎ (self.old.board.end ≡ true) }
    {
        if self.board.end && self.leaving.is_none() {
            self.leaving = Some(now);
        }
    }

    /// Takes no more connections, if the program was told to end: once nobody waits at the door, or a second
    /// later.
    fn look_at_door<N: Network>(&mut self, network: &mut N, now: Duration)
        ensures same { self.new ≡ record self.old { doors = self.new.doors } }
        ensures done { N.done network.new ≡ N.done network.old }
    {
        let Some(since) = self.leaving else {
            return;
        };
        if !self.doors.are_shut && (!self.one_waits() || leaving_left(since, now).is_zero()) {
            network.shut_door();
            self.doors.are_shut = true;
        }
    }

    /// Gives each place its share, from one on and round. Whether one of them can go on at once.
    fn share_all<R: Records, N: Network, C: Clock, T: Timer>(
        &mut self,
        front: &mut Front<R>,
        network: &mut N,
        clock: &mut C,
        timer: &mut T,
        room: &mut [u8; PIECE_BYTES],
        terms: &Terms,
        first: u8,
    ) -> Result<bool, Halt>
        requires { AreAlike self.old.lanes front.old.lines }
        ensures shared { ShareEach R.custody N.done result terms.now (rotated first 64) self.old.lanes
            self.new.lanes front.old front.new network.old network.new }
        ensures alike { AreAlike self.new.lanes front.new.lines }
        ensures same { self.new ≡ record self.old { lanes = self.new.lanes; board = self.new.board } }
    {
        let mut goes = false;
        for offset in 0..PLACES {
            let place = place_behind(first, offset);
            goes |= self.share(front, network, clock, timer, room, terms, place)?;
        }
        Ok(goes)
    }

    /// Takes connections, and gives each that is open its share. Whether one of them can go on at once.
    fn deal<R: Records, N: Network, C: Clock, T: Timer>(
        &mut self,
        front: &mut Front<R>,
        network: &mut N,
        clock: &mut C,
        timer: &mut T,
        room: &mut [u8; PIECE_BYTES],
        terms: &Terms,
    ) -> Result<bool, Halt>
        requires { AreAlike self.old.lanes front.old.lines }
        ensures alike { AreAlike self.new.lanes front.new.lines }
        ensures dealt { MatchResult result
            (λ _. Deals R.custody N.done self.old.is_split terms.now self.old.board self.old.lanes
            self.new.lanes front.old front.new network.old network.new)
            (λ _. BreaksOff R.custody N.done self.old.is_split self.old.lanes self.new.lanes
            front.old front.new network.old network.new) }
        ensures limits { self.new.limits ≡ self.old.limits }
        ensures leaving { self.new.leaving ≡ self.old.leaving }
        ensures split { self.new.is_split ≡ self.old.is_split }
    {
        self.take_some(front, network, terms.began)?;
        let first = self.first;
        self.first = first.wrapping_add(1);
        self.share_all(front, network, clock, timer, room, terms, first)
    }

    /// Waits until something is ready, at most for that time, and notes it.
    pub fn wait<N: Network>(
        &mut self,
        network: &mut N,
        timeout: Option<Duration>,
    ) -> Result<(), Halt>
        ensures same { self.new ≡ record self.old { board = self.new.board } }
        ensures done { N.done network.new ≡ N.done network.old }
    {
        network
            .wait(&mut self.board, timeout)
            .map_err(|_| Halt::Network)
    }

    /// One turn, which began at that time: connections are taken; each that is open has its share; and some
    /// are closed. A share may take long, so the timer tells when its own time is counted from. Gives for how
    /// long nothing is to be done then if nothing comes; none for ever.
    pub fn turn<R: Records, N: Network, C: Clock, T: Timer>(
        &mut self,
        front: &mut Front<R>,
        network: &mut N,
        clock: &mut C,
        timer: &mut T,
        room: &mut [u8; PIECE_BYTES],
        now: Duration,
    ) -> Result<Option<Duration>, Halt>
        requires { AreAlike self.old.lanes front.old.lines }
        ensures alike { OnOk result (AreAlike self.new.lanes front.new.lines) }
        ensures turned { MatchResult result
            (λ _. TakesTurn R.custody N.done self.old.is_split self.old.board now self.old.limits
            self.new.leaving self.old.lanes self.new.lanes front.old front.new network.old network.new)
            (λ _. BreaksOff R.custody N.done self.old.is_split self.old.lanes self.new.lanes
            front.old front.new network.old network.new) }
        ensures limits { self.new.limits ≡ self.old.limits }
        ensures split { self.new.is_split ≡ self.old.is_split }
        ensures told { self.new.leaving ≢ None
            → (self.old.leaving ≢ None) ⊎ (self.old.board.end ≡ true) }
    {
        self.look_at_end(now);
        self.look_at_door(network, now);
        let terms = self.terms(now);
        if self.deal(front, network, clock, timer, room, &terms)? {
            return Ok(Some(Duration::ZERO));
        }
        Ok(self.rest(&terms, time_by(timer, now)))
    }

    /// Turn after turn, until the program was told to end and all connections have ended; but no turn more
    /// over a keeper that can't go on.
    fn take_turns<R: Records, N: Network, C: Clock, T: Timer>(
        &mut self,
        front: &mut Front<R>,
        network: &mut N,
        clock: &mut C,
        timer: &mut T,
        room: &mut [u8; PIECE_BYTES],
    ) -> Result<(), Halt>
        requires nobody { self.old.lanes ≡ no_lanes }
        requires closed { front.old.lines ≡ none_open }
        ensures served { IsServedAtOnce R.custody N.done self.old.is_split front.old front.new
            network.old network.new }
        ensures whole { OnOk result (IsServedWhole R.custody N.done self.old.is_split self.old.leaving
            front.old front.new network.old network.new) }
        ensures closed { OnOk result (front.new.lines ≡ none_open) }
        ensures goes_on { OnOk result
            (front_is_open R.custody front.old → front_is_open R.custody front.new) }
    {
        let mut timeout = Some(Duration::ZERO);
        // Bounded, so that it ends whatever comes.
        for _ in 0..u64::MAX {
            if self.is_over() {
                return Ok(());
            }
            self.wait(network, timeout)?;
            let Some(now) = timer.elapsed() else {
                return Err(Halt::NoTimer);
            };
            timeout = self.turn(front, network, clock, timer, room, now)?;
            tell_of_refused(front, network);
            if !can_go_on(front) {
                return Err(Halt::Shut);
            }
        }
        Err(Halt::TooManyTurns)
    }

    /// Serves connections at once, until the program was told to end and all of them have ended.
    pub fn run<R: Records, N: Network, C: Clock, T: Timer>(
        &mut self,
        front: &mut Front<R>,
        network: &mut N,
        clock: &mut C,
        timer: &mut T,
    ) -> Result<(), Halt>
        requires nobody { self.old.lanes ≡ no_lanes }
        requires closed { front.old.lines ≡ none_open }
        ensures served { IsServedAtOnce R.custody N.done self.old.is_split front.old front.new
            network.old network.new }
        ensures whole { OnOk result (IsServedWhole R.custody N.done self.old.is_split self.old.leaving
            front.old front.new network.old network.new) }
        ensures closed { OnOk result (front.new.lines ≡ none_open) }
        ensures goes_on { OnOk result
            (front_is_open R.custody front.old → front_is_open R.custody front.new) }
        ensures sound { front_is_sound R.custody front.new → front_is_sound R.custody front.old }
        ensures clean { front_is_clean R.custody front.new → front_is_clean R.custody front.old }
        ensures stays { front_is_clean R.custody front.new → front_is_sound R.custody front.old
            → front_is_open R.custody front.new → front_is_sound R.custody front.new }
    {
        let mut room = [0; PIECE_BYTES];
        self.take_turns(front, network, clock, timer, &mut room)
    }
}

/// Tells of the last message that was refused, if one was since this was done.
fn tell_of_refused<R: Records, N: Network>(front: &mut Front<R>, network: &mut N)
    ensures same { front.new ≡ front.old }
    ensures done { N.done network.new ≡ N.done network.old }
{
    if let Some(refused) = front.server.take_refused() {
        network.tell_of_refused(&refused);
    }
}

/// Whether the keeper can go on.
fn can_go_on<R: Records>(front: &Front<R>) -> bool
    ensures { result ≡ true → front_is_open R.custody front.now }
{
    front.server.is_open()
}

/// The place that many behind another, round.
fn place_behind(first: u8, count: usize) -> usize
    requires { count < 64 }
    ensures { result ≡ (first + count) % 64 }
{
    (usize::from(first) + count) % PLACES
}

/// Law: while a connection is open, what is answered on it are the first messages of the bytes that were
/// read at its place, its k-th reply is that to the k-th of them, and what was sent there is the front of
/// those replies, whole, once and in order, whatever is done for others in between.
pub fn streams_of_sittings()
    ensures { StreamsOfSittings }
{}

/// Law: turns that are taken one after another are what is done at once; so what is said of a run holds
/// between any two turns. What is done can be parted anywhere, as where a connection is opened or closed.
pub fn turns_go_on<R: Records, N: Network>(_front: &Front<R>, _network: &N)
    ensures { TurnsGoOn R.custody N.done }
{}
