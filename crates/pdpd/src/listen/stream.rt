//! A connection's socket.
ghost use Rattle.std.specs.Io.{ReadsAtMost, WritesAtMost};

use mio::net::{TcpStream, UnixStream};
use mio::{Interest, Registry, Token};
use std::io::{self, Read, Write};
use std::net::{Shutdown, SocketAddr};

/// A connection's socket.
#[derive(Drop)]
pub enum Stream {
    /// Over TCP, and who is at its other end.
    Tcp(TcpStream, SocketAddr),
    /// Over a Unix socket.
    Unix(UnixStream),
}

impl Stream {
    /// Has its readiness told by that token.
    pub fn register(&mut self, registry: &Registry, token: Token) -> io::Result<()> {
        let both = Interest::READABLE | Interest::WRITABLE;
        match self {
            Stream::Tcp(stream, _) => registry.register(stream, token, both),
            Stream::Unix(stream) => registry.register(stream, token, both),
        }
    }

    /// Reads what has come.
    pub fn receive(&mut self, room: &mut [u8]) -> io::Result<usize>
        ensures { ReadsAtMost result room.new }
    {
        match self {
            Stream::Tcp(stream, _) => stream.read(room),
            Stream::Unix(stream) => stream.read(room),
        }
    }

    /// Writes what is taken.
    pub fn send(&mut self, bytes: &[u8]) -> io::Result<usize>
        ensures { WritesAtMost result bytes.now }
    {
        match self {
            Stream::Tcp(stream, _) => stream.write(bytes),
            Stream::Unix(stream) => stream.write(bytes),
        }
    }

    /// Tells the peer that no more is sent.
    pub fn part(&self) {
        // If this fails the stream is gone: then the next read fails.
        let _ = match self {
            Stream::Tcp(stream, _) => stream.shutdown(Shutdown::Write),
            Stream::Unix(stream) => stream.shutdown(Shutdown::Write),
        };
    }

    /// Who is at its other end, if that has an address.
    pub fn peer(&self) -> Option<SocketAddr> {
        match self {
            Stream::Tcp(_, peer) => Some(*peer),
            Stream::Unix(_) => None,
        }
    }
}
