//! The other end of a connection, in memory.
ghost use Rattle.std.specs.Io.{ReadsAtMost, WritesAtMost};

use std::alloc::{AllocError, Global};
use std::io::{self, ErrorKind};

/// The other end of a connection.
#[derive(Drop)]
pub struct Peer {
    /// What it sends.
    sends: Vec<u8>,
    /// How many bytes of that were read.
    read: usize,
    /// Whether that is all that it sends.
    pub has_ended: bool,
    /// How many bytes it takes at a write at most.
    pub takes: usize,
    /// What it has got.
    pub got: Vec<u8>,
    /// Whether it came to the door for changes.
    pub is_at_changes: bool,
    /// Whether it was taken.
    pub is_taken: bool,
}

impl Peer {
    /// A peer at one of the doors that sends nothing yet, and takes everything.
    pub fn new(alloc: Global, is_at_changes: bool) -> Peer {
        Peer {
            sends: Vec::new(alloc),
            read: 0,
            has_ended: false,
            takes: usize::MAX,
            got: Vec::new(alloc),
            is_at_changes,
            is_taken: false,
        }
    }

    /// It sends these bytes, too.
    pub fn send(&mut self, bytes: &[u8]) -> Result<(), AllocError> {
        self.sends.extend_from_slice(bytes)
    }

    /// Whether a read would give something, or tell of the end.
    pub fn is_readable(&self) -> bool {
        self.read < self.sends.len() || self.has_ended
    }

    /// Reads what has come.
    pub fn receive(&mut self, room: &mut [u8]) -> io::Result<usize>
        ensures { ReadsAtMost result room.new }
    {
        if !self.is_readable() {
            return Err(io::Error::from(ErrorKind::WouldBlock));
        }
        let rest = self.sends.get(self.read..).unwrap_or(&[]);
        let count = rest.len().min(room.len());
        room[..count].copy_from_slice(&rest[..count]);
        self.read = self.read.saturating_add(count);
        Ok(count)
    }

    /// Takes some of the bytes.
    pub fn take(&mut self, bytes: &[u8]) -> io::Result<usize>
        ensures { WritesAtMost result bytes.now }
    {
        let count = bytes.len().min(self.takes);
        if count == 0 {
            return Err(io::Error::from(ErrorKind::WouldBlock));
        }
        match self.got.extend_from_slice(&bytes[..count]) {
            Ok(()) => Ok(count),
            Err(_) => Err(io::Error::from(ErrorKind::OutOfMemory)),
        }
    }
}
