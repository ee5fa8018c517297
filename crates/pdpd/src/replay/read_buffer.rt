//! The bytes of a transcript that are read, and not yet taken.
ghost use Rattle.std.specs.Prelude.{◌≡◌, ◌++◌, ◌∷◌, [], ◌==◌, IfOk, OnErr};
ghost use Rattle.std.specs.Prelude.{OnOk, MatchOption, drop, length, take};
ghost use Rattle.std.specs.Io.KnownBytes.{Consumes, IsAtEnd, Keeps};

use std::alloc::{AllocError, Global};
use std::io::{self, Read};
use std::marker::Model;

/// How many bytes are read at once: so many that the system's calls cost little beside them.
const BUFFER_BYTES: usize = 65_536;

/// A read buffer: what it holds is taken from its front.
#[derive(Drop)]
pub struct ReadBuffer {
    /// Where bytes are read to.
    bytes: Vec<u8>,
    /// Where among them those begin that are not yet taken.
    start: usize,
    /// Where these end.
    end: usize,
}

impl Model for ReadBuffer {
    ghost use Rattle.std.specs.Prelude.{◌<◌, ◌≤◌, List, ℕ, slice_range, vec_len};

    ghost Value = { List ℕ };

    ghost view = { λ b. slice_range b.bytes.items b.start b.end };

    ghost invariant = { λ b. (b.start ≤ b.end) × (b.end ≤ vec_len b.bytes) × (0 < vec_len b.bytes) };
}

impl ReadBuffer {
    /// A buffer that holds no bytes.
    pub fn new(alloc: Global) -> Result<ReadBuffer, AllocError>
        ensures { IfOk result (λ buffer. buffer ≡ []) }
    {
        Ok(ReadBuffer {
            bytes: vec![in alloc; 0; BUFFER_BYTES]?,
            start: 0,
            end: 0,
        })
    }

    /// Whether all that it held is taken.
    pub fn is_empty(&self) -> bool
        ensures { result ≡ (length self.now == 0) }
    {
        self.start == self.end
    }

    /// Reads once, in place of what it held.
    pub fn fill<R: Read>(&mut self, reader: &mut R) -> io::Result<()>
        ensures read { OnOk result (Consumes (R.remaining reader.old) (R.remaining reader.new) self.new) }
        ensures end { OnOk result (self.new ≡ [] → IsAtEnd (R.remaining reader.new)) }
        ensures failed { OnErr result (Keeps (R.remaining reader.old) (R.remaining reader.new)) }
        ensures emptied { OnErr result (self.new ≡ []) }
    {
        self.start = 0;
        self.end = 0;
        self.end = reader.read(&mut self.bytes)?;
        Ok(())
    }

    /// Takes the first byte, if there is one.
    pub fn take_first(&mut self) -> Option<u8>
        ensures { MatchOption result ((self.old ≡ []) × (self.new ≡ []))
            (λ byte. self.old ≡ byte ∷ self.new) }
    {
        if self.start == self.end {
            return None;
        }
        let byte = self.bytes[self.start];
        self.start += 1;
        Some(byte)
    }

    /// Moves at most `most` of its bytes to the end of `bytes`.
    pub fn move_to(&mut self, bytes: &mut Vec<u8>, most: usize) -> Result<(), AllocError>
        ensures moved { OnOk result (bytes.new.items ≡ bytes.old.items ++ take most self.old) }
        ensures rest { OnOk result (self.new ≡ drop most self.old) }
    {
        let taken = most.min(self.end - self.start);
        bytes.extend_from_slice(&self.bytes[self.start..self.start + taken])?;
        self.start += taken;
        Ok(())
    }
}
