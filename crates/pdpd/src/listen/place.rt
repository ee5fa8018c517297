//! Where connections are taken.
ghost use Rattle.std.specs.Prelude.{◌≡◌, ◌↔◌, IfErr, IsTrue, MatchOption, MatchResult};
ghost use Rattle.pdpd.specs.declared.fault.Fault.TheVariants as fault;
ghost use Rattle.pdpd.specs.Listening.{IsNoPlace, IsSocketPath, NamesNoSocket, NamesPlace, NamesSocket};

use crate::fault::Fault;
use crate::serve::address_of;
use std::net::SocketAddr;

/// How many bytes the path of a Unix socket may have (unix(7)).
const MAX_PATH_BYTES: usize = 107;

/// Where connections are taken.
#[derive(Clone, Copy)]
pub enum Place<'a> {
    /// At an IP address and its port.
    Ip(SocketAddr),
    /// At a Unix socket of that path.
    Unix(&'a str),
}

/// Whether a Unix socket can have that path.
fn is_socket_path(path: &str) -> bool
    ensures { IsTrue result ↔ IsSocketPath path.now }
{
    !path.is_empty()
        && path.len() <= MAX_PATH_BYTES
        && path.as_bytes().iter().all(|byte| *byte != 0)
}

/// The path of a Unix socket that a word of the command line names, if it names one.
fn path_of(word: &str) -> Option<&str>
    ensures { MatchOption result (NamesNoSocket word.now) (λ path. NamesSocket word.now path.now) }
{
    let path = word.strip_prefix("unix:")?;
    is_socket_path(path).then_some(path)
}

/// Where a word of the command line says that connections are taken.
pub fn place_of(word: &str) -> Result<Place<'_>, Fault>
    ensures place { MatchResult result (NamesPlace word.now) (λ _. IsNoPlace word.now) }
    ensures err { IfErr result (λ e. e ≡ fault.Place) }
{
    if let Some(path) = path_of(word) {
        return Ok(Place::Unix(path));
    }
    match address_of(word) {
        Ok(address) => Ok(Place::Ip(address)),
        Err(_) => Err(Fault::Place),
    }
}
