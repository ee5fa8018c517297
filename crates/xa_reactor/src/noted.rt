//! A network that notes what goes over it, for clauses alone.
ghost use Rattle.std.specs.Prelude.{◌≡◌, ◌∷◌, [], Some};
ghost use Rattle.xa_reactor.specs.Traffic.{finished, received_by, seated, sent_by, vacated};

use crate::board::Board;
use crate::network::{Arrival, Network};
use crate::progress::Reason;
use std::io;
use std::marker::Model;
use std::time::Duration;
use xa_server::{Noted, Notes, RefusedMessage};

/// What has gone over a network once. No code makes one: clauses name its type.
#[derive(Drop)]
pub struct TrafficCall {
    /// Nothing.
    seal: (),
}

impl Model for TrafficCall {
    ghost use Rattle.xa_reactor.specs.Codes.{traffic_coded};
    ghost use Rattle.xa_reactor.specs.Traffic.{Traffic, seated};

    ghost Value = { Traffic };

    ghost coded = { traffic_coded };

    ghost view = { λ _. seated 0 };
}

/// A read at a place, by its result and its room.
struct Receiving;

impl Notes<usize, io::Result<usize>, TrafficCall> for Receiving {
    ghost calls = { λ place result room. received_by place result room };
}

/// A write at a place, by its result and its bytes.
struct Sending;

impl Notes<usize, io::Result<usize>, TrafficCall> for Sending {
    ghost calls = { λ place result bytes. sent_by place result bytes };
}

/// A connection that was seated at a place.
struct Seating;

impl Notes<usize, (), TrafficCall> for Seating {
    ghost calls = { λ place _ _. seated place ∷ [] };
}

/// A peer at a place that was told that no more is sent.
struct Finishing;

impl Notes<usize, (), TrafficCall> for Finishing {
    ghost calls = { λ place _ _. finished place ∷ [] };
}

/// A connection that was closed at a place.
struct Vacating;

impl Notes<usize, Reason, TrafficCall> for Vacating {
    ghost calls = { λ place reason _. vacated place reason ∷ [] };
}

/// A network that notes what goes over it. That takes no bytes, and no time.
#[derive(Drop)]
pub struct NotedNetwork<N: Network + Drop> {
    /// The network.
    pub network: N,
    /// What has gone over it, which only clauses read.
    done: Noted<TrafficCall>,
}

impl<N: Network + Drop> NotedNetwork<N> {
    /// The network, over which nothing has gone yet.
    pub fn new(network: N) -> NotedNetwork<N>
        ensures { (result.network ≡ network) × (result.done.calls ≡ []) }
    {
        NotedNetwork {
            network,
            done: Noted::new(),
        }
    }
}

impl<N: Network + Drop> Network for NotedNetwork<N> {
    ghost done = { λ noted. Some noted.done.calls };

    fn wait(&mut self, board: &mut Board, timeout: Option<Duration>) -> io::Result<()> {
        self.network.wait(board, timeout)
    }

    fn accept(&mut self) -> Arrival {
        self.network.accept()
    }

    fn accept_change(&mut self) -> Arrival {
        self.network.accept_change()
    }

    fn seat(&mut self, place: usize) {
        self.network.seat(place);
        self.done.note_by::<usize, (), Seating>(&place, &(), &[]);
    }

    fn receive(&mut self, place: usize, room: &mut [u8]) -> io::Result<usize> {
        let result = self.network.receive(place, room);
        self.done
            .note_by::<usize, io::Result<usize>, Receiving>(&place, &result, room);
        result
    }

    fn send(&mut self, place: usize, bytes: &[u8]) -> io::Result<usize> {
        let result = self.network.send(place, bytes);
        self.done
            .note_by::<usize, io::Result<usize>, Sending>(&place, &result, bytes);
        result
    }

    fn part(&mut self, place: usize) {
        self.network.part(place);
        self.done.note_by::<usize, (), Finishing>(&place, &(), &[]);
    }

    fn leave(&mut self, place: usize, reason: Reason) {
        self.network.leave(place, reason);
        self.done
            .note_by::<usize, Reason, Vacating>(&place, &reason, &[]);
    }

    fn shut_door(&mut self) {
        self.network.shut_door();
    }

    fn tell_of_refused(&mut self, refused: &RefusedMessage) {
        self.network.tell_of_refused(refused);
    }
}
