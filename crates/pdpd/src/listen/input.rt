//! Standard input, whose end may end the program.
use mio::event::Event;
use mio::unix::SourceFd;
use mio::{Interest, Registry, Token};
use std::io::{self, ErrorKind, IsTerminal, Read};
use std::os::fd::RawFd;
use std::rt::HostRuntime;

/// The descriptor of standard input.
const DESCRIPTOR: RawFd = 0;

/// How many bytes are read at once.
const PIECE_BYTES: usize = 4_096;

/// Standard input.
#[derive(Drop)]
pub struct Input {
    /// The runtime, which has it.
    rt: HostRuntime,
}

impl Input {
    /// The standard input of the program.
    pub fn new(rt: &HostRuntime) -> Input {
        Input { rt: *rt }
    }

    /// Has told by that token what comes on it.
    pub fn watch(&self, registry: &Registry, token: Token) -> io::Result<()> {
        registry.register(&mut SourceFd(&DESCRIPTOR), token, Interest::READABLE)
    }

    /// Whether it has ended, by an event about it. Of a pipe or a socket the event itself tells that. A
    /// terminal has ended if a read gives nothing; what it gives else is dropped.
    pub fn has_ended(&self, registry: &Registry, event: &Event) -> bool {
        event.is_read_closed()
            || self.rt.stdin().is_terminal() && self.is_at_end(registry, event.token())
    }

    /// Whether a read, which doesn't wait behind an event, gives nothing. If it gives something, more may be
    /// there: then another event tells of it.
    fn is_at_end(&self, registry: &Registry, token: Token) -> bool {
        let mut room = [0; PIECE_BYTES];
        match self.rt.stdin().read(&mut room) {
            Ok(0) => true,
            Ok(_) => self.watch_on(registry, token).is_err(),
            Err(error) if error.kind() == ErrorKind::WouldBlock => false,
            Err(error) if error.kind() == ErrorKind::Interrupted => {
                self.watch_on(registry, token).is_err()
            }
            Err(_) => true,
        }
    }

    /// Has told anew what is there.
    fn watch_on(&self, registry: &Registry, token: Token) -> io::Result<()> {
        registry.reregister(&mut SourceFd(&DESCRIPTOR), token, Interest::READABLE)
    }
}
