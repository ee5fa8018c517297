//! What the bytes of a connection are written to.
ghost use Rattle.std.specs.Prelude.{ℕ, List, [], ◌∷◌, Option, None};
ghost use Rattle.std.specs.Io.{WritesAtMost};
ghost use Rattle.std.specs.Io.KnownBytes.{Keeps, WriteAppends};
ghost use Rattle.xa_server.specs.Transfers.{Grows, WriteEnd, flush_end, write_end};

use std::io::{self, Write};

/// What the bytes of a connection are written to: every `Write`. Beside what that says of its bytes, it
/// may say how each of its writes and flushes has ended, and why one failed.
pub trait Writer {
    /// The bytes that it holds, if they are known.
    ghost contents: { Self → Option (List ℕ) } = { λ _. None };

    /// How its writes and flushes have ended, one after another, if that is known.
    ghost writes: { Self → Option (List WriteEnd) } = { λ _. None };

    /// Takes some bytes from the front of these, and says how many.
    fn send(&mut self, bytes: &[u8]) -> io::Result<usize>
        ensures bound { WritesAtMost result bytes.now }
        ensures bytes { WriteAppends (contents self.old) (contents self.new) result bytes.now }
        ensures written { Grows (writes self.old) (writes self.new) (write_end result bytes.now ∷ []) };

    /// Holds none of the bytes back any more.
    fn deliver(&mut self) -> io::Result<()>
        ensures bytes { Keeps (contents self.old) (contents self.new) }
        ensures flushed { Grows (writes self.old) (writes self.new) (flush_end result ∷ []) };
}

impl<W: Write> Writer for W {
    ghost contents = { W.contents };

    fn send(&mut self, bytes: &[u8]) -> io::Result<usize> {
        self.write(bytes)
    }

    fn deliver(&mut self) -> io::Result<()> {
        self.flush()
    }
}
