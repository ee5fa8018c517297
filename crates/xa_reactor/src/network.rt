//! Where connections come from, and what is read from them and written to them.
ghost use Rattle.std.specs.Prelude.{◌≡◌, ◌<◌, ◌∷◌, [], List, Option, None, length};
ghost use Rattle.std.specs.Io.{ReadsAtMost, WritesAtMost};
ghost use Rattle.xa_server.specs.Transfers.{Grows};
ghost use Rattle.xa_reactor.specs.Traffic.{Traffic, finished, received_by, seated, sent_by};
ghost use Rattle.xa_reactor.specs.Traffic.{vacated};

use crate::board::Board;
use crate::progress::Reason;
use std::io;
use std::time::Duration;
use xa_server::RefusedMessage;

/// How an attempt to take a connection ended.
#[derive(Clone, Copy, Debug, PartialEq, Eq)]
pub enum Arrival {
    /// One has come. It is to be seated.
    Came,
    /// None waits.
    Nobody,
    /// One couldn't be taken, by its peer's or the network's fault. The next may be.
    Passed,
    /// There is no room for one at the moment.
    NoRoom,
    /// No connection can be taken any more.
    Failed,
}

/// A network: connections come to its door, each is seated at a place, and read from and written to there.
/// Its calls don't wait, but for `wait`. A read or write at a place at which nobody sits fails.
pub trait Network {
    /// What has gone over it so far, if that is known: who was seated, what was given and taken, who left.
    ghost done: { Self → Option (List Traffic) } = { λ _. None };

    /// Waits until something is ready, at most for that time, and notes it on the board. It may be
    /// anything.
    fn wait(&mut self, board: &mut Board, timeout: Option<Duration>) -> io::Result<()>
        ensures { done self.new ≡ done self.old };

    /// Takes a connection that waits at the door.
    fn accept(&mut self) -> Arrival
        ensures { done self.new ≡ done self.old };

    /// Takes a connection that waits at the address for changes. By default there is none.
    fn accept_change(&mut self) -> Arrival
        ensures { done self.new ≡ done self.old }
    {
        Arrival::Nobody
    }

    /// Seats the connection that was taken last. What is ready for it is noted at that place from now on.
    fn seat(&mut self, place: usize)
        ensures { Grows (done self.old) (done self.new) (seated place ∷ []) };

    /// Reads what has come at a place.
    fn receive(&mut self, place: usize, room: &mut [u8]) -> io::Result<usize>
        requires { 0 < length room.old }
        ensures bound { ReadsAtMost result room.new }
        ensures done { Grows (done self.old) (done self.new) (received_by place result room.new) };

    /// Writes to a place what is taken there from the front of these bytes.
    fn send(&mut self, place: usize, bytes: &[u8]) -> io::Result<usize>
        requires { 0 < length bytes.now }
        ensures bound { WritesAtMost result bytes.now }
        ensures done { Grows (done self.old) (done self.new) (sent_by place result bytes.now) };

    /// Tells the peer at a place that no more is sent to it.
    fn part(&mut self, place: usize)
        ensures { Grows (done self.old) (done self.new) (finished place ∷ []) };

    /// Closes the connection at a place.
    fn leave(&mut self, place: usize, reason: Reason)
        ensures { Grows (done self.old) (done self.new) (vacated place reason ∷ []) };

    /// Takes no connection any more, at any address: who comes later is refused at once.
    fn shut_door(&mut self)
        ensures { done self.new ≡ done self.old };

    /// Tells of a message that was refused. By default nobody is told.
    fn tell_of_refused(&mut self, refused: &RefusedMessage)
        ensures { done self.new ≡ done self.old }
    {}
}
