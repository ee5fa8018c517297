//! A network in memory, whose peers do what a row says, and of whose calls every so many fail.
use crate::peer::Peer;
use std::alloc::{AllocError, Global};
use std::fmt::Write;
use std::io::{self, ErrorKind};
use std::time::Duration;
use xa_reactor::{Arrival, Board, Network, PLACES, Ready, Reason};

/// Calls of one kind.
#[derive(Clone, Copy)]
pub struct Calls {
    /// Every so many of them fail; 0 if none does.
    pub every: usize,
    /// How many there were.
    count: usize,
}

impl Calls {
    /// None has been made, and none fails.
    fn new() -> Calls {
        Calls { every: 0, count: 0 }
    }

    /// Whether the next fails.
    fn next_fails(&mut self) -> bool {
        self.count = self.count.wrapping_add(1);
        self.every != 0 && self.count % self.every == 0
    }
}

/// A network in memory.
#[derive(Drop)]
pub struct Memory {
    /// The peers, in the order in which they come.
    pub peers: Vec<Peer>,
    /// The one that was taken last, unless it is seated.
    guest: Option<usize>,
    /// Which of them sits at each place.
    seats: [Option<usize>; PLACES],
    /// Reads.
    pub reads: Calls,
    /// Writes.
    pub writes: Calls,
    /// Attempts to take a connection that waits.
    pub accepts: Calls,
    /// Whether no connection is taken any more.
    is_shut: bool,
    /// What is told at the next wait; what is so, if it is none.
    pub told: Option<[Ready; PLACES]>,
    /// Whether the end is told then.
    pub end: bool,
    /// What was done since it was asked last.
    pub done: String,
}

/// Nothing is ready.
pub const NOT_READY: Ready = Ready {
    readable: false,
    writable: false,
    ends: false,
};

/// A failure.
fn broken() -> io::Error {
    io::Error::from(ErrorKind::ConnectionReset)
}

impl Memory {
    /// Nobody is there.
    pub fn new(alloc: Global) -> Memory {
        Memory {
            peers: Vec::new(alloc),
            guest: None,
            seats: [None; PLACES],
            reads: Calls::new(),
            writes: Calls::new(),
            accepts: Calls::new(),
            is_shut: false,
            told: None,
            end: false,
            done: String::new(alloc),
        }
    }

    /// One more peer comes to a door.
    pub fn arrive(&mut self, alloc: Global, at_changes: bool) -> Result<(), AllocError> {
        match self.peers.push(Peer::new(alloc, at_changes)) {
            Ok(()) => Ok(()),
            Err(_) => Err(AllocError),
        }
    }

    /// The peer at a place.
    fn at(&mut self, place: usize) -> Option<&mut Peer> {
        match self.seats.get(place) {
            Some(Some(number)) => self.peers.get_mut(*number),
            _ => None,
        }
    }

    /// For what a place is ready.
    fn ready_at(&mut self, place: usize) -> Ready {
        match self.at(place) {
            Some(peer) => Ready {
                readable: peer.is_readable(),
                writable: peer.takes > 0,
                ends: peer.has_ended,
            },
            None => NOT_READY,
        }
    }

    /// The first peer that waits at a door, if one does.
    fn first_at(&self, at_changes: bool) -> Option<usize> {
        self.peers
            .iter()
            .position(|peer| !peer.is_taken && peer.is_at_changes == at_changes)
    }

    /// Takes the first that waits at a door.
    fn take_at(&mut self, at_changes: bool) -> Arrival {
        let Some(number) = self.first_at(at_changes) else {
            return Arrival::Nobody;
        };
        if self.is_shut {
            return Arrival::Nobody;
        }
        if self.accepts.next_fails() {
            return Arrival::Passed;
        }
        if let Some(peer) = self.peers.get_mut(number) {
            peer.is_taken = true;
        }
        self.guest = Some(number);
        Arrival::Came
    }

    /// Notes that something was done.
    fn note(&mut self, place: usize, what: &str, count: usize) {
        let _ = write!(self.done, " {place}{what}{count}");
    }
}

impl Network for Memory {
    fn wait(&mut self, board: &mut Board, _timeout: Option<Duration>) -> io::Result<()> {
        for place in 0..PLACES {
            let ready = match self.told {
                Some(told) => told[place],
                None => self.ready_at(place),
            };
            board.note(place, ready);
        }
        board.door |= self.first_at(false).is_some();
        board.changes |= self.first_at(true).is_some();
        board.end |= self.end;
        self.told = None;
        Ok(())
    }

    fn accept(&mut self) -> Arrival {
        self.take_at(false)
    }

    fn accept_change(&mut self) -> Arrival {
        self.take_at(true)
    }

    fn seat(&mut self, place: usize) {
        if let Some(seat) = self.seats.get_mut(place) {
            *seat = self.guest.take();
        }
        let _ = write!(self.done, " {place}+");
    }

    fn receive(&mut self, place: usize, room: &mut [u8]) -> io::Result<usize> {
        if self.reads.next_fails() {
            return Err(broken());
        }
        let Some(peer) = self.at(place) else {
            return Err(broken());
        };
        let received = peer.receive(room);
        if let Ok(count) = received {
            self.note(place, "<", count);
        }
        received
    }

    fn send(&mut self, place: usize, bytes: &[u8]) -> io::Result<usize> {
        if self.writes.next_fails() {
            return Err(broken());
        }
        let Some(peer) = self.at(place) else {
            return Err(broken());
        };
        let sent = peer.take(bytes);
        if let Ok(count) = sent {
            self.note(place, ">", count);
        }
        sent
    }

    fn part(&mut self, place: usize) {
        let _ = write!(self.done, " {place}|");
    }

    fn leave(&mut self, place: usize, reason: Reason) {
        if let Some(seat) = self.seats.get_mut(place) {
            *seat = None;
        }
        let _ = write!(self.done, " {place}!{reason:?}");
    }

    fn shut_door(&mut self) {
        self.is_shut = true;
    }
}
