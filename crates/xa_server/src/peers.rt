//! What gives connections, one after another, and how the next of them is driven.
ghost use Rattle.std.specs.Prelude.{◌≡◌, ◌∷◌, [], List, MatchResult, Option, None};
ghost use Rattle.xa_server.specs.Peers.{DrivesNext, Peer};
ghost use Rattle.xa_server.specs.Transfers.{Grows};

use crate::accept_error::AcceptError;
use crate::clock::Clock;
use crate::connection::Connection;
use crate::drive_end::DriveEnd;
use crate::driving::drive_open;
use crate::reader::Reader;
use crate::server::Server;
use crate::writer::Writer;
use xa_records::Records;

/// What gives connections, one after another. It may say what is known of each. If it gives only so many,
/// none is taken any more after the last: who comes later is refused at once.
pub trait Peers {
    /// What the bytes of a connection are read from.
    type Input: Reader + Drop;

    /// What the bytes of a connection are written to.
    type Output: Writer + Drop;

    /// The connections that were given, each as it was given, if that is known.
    ghost came: { Self → Option (List Peer) } = { λ _. None };

    /// Those that were taken back, each as it was taken back, if that is known.
    ghost parted: { Self → Option (List Peer) } = { λ _. None };

    /// Gives the next connection.
    fn next(&mut self) -> Result<(Self::Input, Self::Output), AcceptError>
        ensures came { MatchResult result
            (λ ends. Grows (came self.old) (came self.new)
            (record {
              left = Self.Input.remaining ends.0;
              reads = Self.Input.reads ends.0;
              contents = Self.Output.contents ends.1;
              writes = Self.Output.writes ends.1;
            } ∷ []))
            (λ _. came self.new ≡ came self.old) }
        ensures parted { parted self.new ≡ parted self.old };

    /// Takes a connection back that has ended. Whether it did by a fault, to which the reply was sent: then
    /// its peer may still send, and lose that reply by a reset (RFC 9112, section 9.6).
    fn part(&mut self, input: Self::Input, output: Self::Output, by_fault: bool)
        ensures came { came self.new ≡ came self.old }
        ensures parted { Grows (parted self.old) (parted self.new)
            (record {
              left = Self.Input.remaining input;
              reads = Self.Input.reads input;
              contents = Self.Output.contents output;
              writes = Self.Output.writes output;
            } ∷ []) };
}

/// Whether a connection has ended so by a fault, to which the reply was sent.
fn ends_by_fault(end: DriveEnd, connection: &Connection) -> bool {
    end == DriveEnd::Ended && connection.has_ended_by_fault()
}

/// Takes the next connection, drives it from its first byte to its end, as `drive` does, and hands it back.
/// What is read from it is its own, and it gets its own replies and nothing else. How it has ended; or why
/// there was none, and then nothing was done.
pub fn drive_next<R: Records, P: Peers, C: Clock>(
    server: &mut Server<R>,
    peers: &mut P,
    clock: &mut C,
) -> Result<DriveEnd, AcceptError>
    ensures { DrivesNext R.custody P.came P.parted result server.old server.new
        (C.told clock.old) (C.told clock.new) peers.old peers.new }
{
    let (mut input, mut output) = peers.next()?;
    let mut connection = Connection::new(server.alloc);
    let end = drive_open(server, &mut connection, &mut input, &mut output, clock);
    peers.part(input, output, ends_by_fault(end, &connection));
    Ok(end)
}
