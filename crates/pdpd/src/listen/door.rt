//! The socket at which connections are taken.
use crate::fault::Fault;
use crate::listen::place::Place;
use crate::listen::stream::Stream;
use mio::net::{TcpListener, UnixListener, UnixStream};
use mio::{Interest, Registry, Token};
use std::fs;
use std::io::{self, ErrorKind};
use std::net::SocketAddr;
use std::os::unix::fs::{FileTypeExt, PermissionsExt};
use std::rt::HostRuntime;

/// The mode of a Unix socket: its owner and group alone can use it.
const MODE: u32 = 0o660;

/// The socket at which connections are taken.
#[derive(Drop)]
pub enum Door {
    /// At an IP address.
    Tcp(TcpListener),
    /// At a path.
    Unix(UnixListener),
}

/// Fails if somebody takes connections at a Unix socket that stands there.
fn find_nobody(rt: &HostRuntime, path: &str) -> Result<(), Fault> {
    match UnixStream::connect(rt, path) {
        Ok(_) => Err(Fault::Taken),
        Err(error) => match error.kind() {
            ErrorKind::ConnectionRefused => Ok(()),
            // Others wait there already.
            ErrorKind::WouldBlock => Err(Fault::Taken),
            _ => Err(Fault::Unmade),
        },
    }
}

/// Makes room for a Unix socket: removes one at which nobody listens. Fails if somebody does, or if
/// something else stands there.
fn make_room(rt: &HostRuntime, path: &str) -> Result<(), Fault> {
    match fs::symlink_metadata(rt, path) {
        Ok(found) if found.file_type().is_socket() => {}
        Ok(_) => return Err(Fault::Occupied),
        Err(error) if error.kind() == ErrorKind::NotFound => return Ok(()),
        Err(_) => return Err(Fault::Unmade),
    }
    find_nobody(rt, path)?;
    fs::remove_file(rt, path).map_err(|_| Fault::Unmade)
}

/// Takes connections at a path. Until the mode is set nobody can use the socket who isn't let to by the
/// mask of modes with which the program runs.
fn listen_at_path(rt: &HostRuntime, path: &str) -> io::Result<UnixListener> {
    let listener = UnixListener::bind(rt, path)?;
    fs::set_permissions(rt, path, fs::Permissions::from_mode(MODE))?;
    Ok(listener)
}

impl Door {
    /// Takes connections there.
    pub fn open(rt: &HostRuntime, place: Place<'_>) -> Result<Door, Fault> {
        match place {
            Place::Ip(address) => ip_door(rt, address).map_err(|_| Fault::Socket),
            Place::Unix(path) => {
                make_room(rt, path)?;
                unix_door(rt, path).map_err(|_| Fault::Unmade)
            }
        }
    }

    /// Has its readiness told by that token.
    pub fn register(&mut self, registry: &Registry, token: Token) -> io::Result<()> {
        match self {
            Door::Tcp(listener) => registry.register(listener, token, Interest::READABLE),
            Door::Unix(listener) => registry.register(listener, token, Interest::READABLE),
        }
    }

    /// Takes a connection that waits.
    pub fn accept(&self) -> io::Result<Stream> {
        match self {
            Door::Tcp(listener) => {
                let (stream, peer) = listener.accept()?;
                // Replies go out at once, without Nagle's algorithm (RFC 9293, section 3.7.4). If this
                // fails, they may wait for the peer's acknowledgements.
                let _ = stream.set_nodelay(true);
                Ok(Stream::Tcp(stream, peer))
            }
            Door::Unix(listener) => {
                let (stream, _unnamed) = listener.accept()?;
                Ok(Stream::Unix(stream))
            }
        }
    }
}

/// The door at an IP address.
fn ip_door(rt: &HostRuntime, address: SocketAddr) -> io::Result<Door> {
    Ok(Door::Tcp(TcpListener::bind(rt, address)?))
}

/// The door at a path.
fn unix_door(rt: &HostRuntime, path: &str) -> io::Result<Door> {
    Ok(Door::Unix(listen_at_path(rt, path)?))
}
