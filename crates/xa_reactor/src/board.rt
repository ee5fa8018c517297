//! What a network has told of sockets, and hasn't been used up yet.
ghost use Rattle.std.specs.Prelude.{◌≡◌, slice_set};
ghost use Rattle.xa_reactor.specs.Turn.{ready_at};

use crate::access::Access;
use crate::lanes::PLACES;

/// For what a socket was found ready. It may be spurious.
#[derive(Clone, Copy)]
pub struct Ready {
    /// A read may give something, or tell of the end.
    pub readable: bool,
    /// A write may take something.
    pub writable: bool,
    /// The peer sends no more: the end comes behind what may still be read.
    pub ends: bool,
}

impl Ready {
    /// What is supposed of a connection that has just come: a read and a write tell soon if it isn't so.
    pub fn new() -> Ready {
        Ready {
            readable: true,
            writable: true,
            ends: false,
        }
    }

    /// Notes that a read gave `count` bytes for which there was room for `room`. One that doesn't fill the
    /// room has taken all that there was (epoll(7)), and an event tells of more; but for the end of the
    /// stream, of which one may have told already.
    pub(crate) fn note_read(&mut self, count: usize, room: usize) {
        self.readable = self.ends || count == room;
    }
}

/// What a network has told.
#[derive(Clone, Copy)]
pub struct Board {
    /// Of the connection at each place.
    pub ready: [Ready; PLACES],
    /// A connection may wait to be taken.
    pub door: bool,
    /// One may wait at the address for changes.
    pub changes: bool,
    /// The program was told to end.
    pub end: bool,
}

impl Board {
    /// Nothing is known to be ready but the door.
    pub(crate) fn new() -> Board {
        Board {
            ready: [Ready::new(); PLACES],
            door: true,
            changes: false,
            end: false,
        }
    }

    /// Notes that the socket at that place is ready for more.
    pub fn note(&mut self, place: usize, more: Ready) {
        if let Some(ready) = self.ready.get_mut(place) {
            ready.readable |= more.readable;
            ready.writable |= more.writable;
            ready.ends |= more.ends;
        }
    }

    /// Whether a connection of that access may wait to be taken.
    pub(crate) fn waits(&self, access: Access) -> bool {
        match access {
            Access::All | Access::Asks => self.door,
            Access::Changes => self.changes,
        }
    }

    /// Notes that none waits.
    pub(crate) fn note_nobody(&mut self, access: Access)
        ensures { self.new ≡ record self.old { door = self.new.door; changes = self.new.changes } }
    {
        match access {
            Access::All | Access::Asks => self.door = false,
            Access::Changes => self.changes = false,
        }
    }

    /// For what the socket at a place was found ready; for nothing, if there is no such place.
    pub(crate) fn at(&self, place: usize) -> Ready
        ensures { result ≡ ready_at self.now place }
    {
        match self.ready.get(place) {
            Some(ready) => *ready,
            None => Ready {
                readable: false,
                writable: false,
                ends: false,
            },
        }
    }

    /// Notes that for a place, in place of what was noted.
    #[tactic(auto, using(std::proofs::lemmas::List::set_past))]
    pub(crate) fn put(&mut self, place: usize, ready: Ready)
        ensures { self.new ≡ record self.old { ready = slice_set self.old.ready place ready } }
    {
        if place < PLACES {
            self.ready[place] = ready;
        }
    }
}
