//! What the bytes of a connection are read from.
ghost use Rattle.std.specs.Prelude.{ℕ, List, [], ◌∷◌, Option, None};
ghost use Rattle.std.specs.Io.{ReadsAtMost};
ghost use Rattle.std.specs.Io.KnownBytes.{ReadConsumes};
ghost use Rattle.xa_server.specs.Transfers.{Grows, ReadEnd, read_end};

use std::io::{self, Read};

/// What the bytes of a connection are read from: every `Read`. Beside what that says of its bytes, it
/// may say how each of its reads has ended, and why one failed.
pub trait Reader {
    /// The bytes that reads will give from here on, if they are known.
    ghost remaining: { Self → Option (List ℕ) } = { λ _. None };

    /// How its reads have ended, one after another, if that is known.
    ghost reads: { Self → Option (List ReadEnd) } = { λ _. None };

    /// Reads some bytes into the room, and says how many; none if the stream has ended.
    fn receive(&mut self, room: &mut [u8]) -> io::Result<usize>
        ensures bound { ReadsAtMost result room.new }
        ensures bytes { ReadConsumes (remaining self.old) (remaining self.new) result room.new }
        ensures read { Grows (reads self.old) (reads self.new) (read_end result room.new ∷ []) };
}

impl<I: Read> Reader for I {
    ghost remaining = { I.remaining };

    fn receive(&mut self, room: &mut [u8]) -> io::Result<usize> {
        self.read(room)
    }
}
