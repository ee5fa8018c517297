//! The connections of a front, by their numbers.
ghost use Rattle.std.specs.Prelude.{◌≡◌, ◌<◌, length, option_map, IfOk, IfSome};
ghost use Rattle.std.specs.Borrow.{sem};
ghost use Rattle.xa_server.specs.Lines.{IsClosed, IsOpened, all_open, first_free, line_at, none_open};
ghost use Rattle.xa_server.specs.Lines.{with_line};

use crate::connection::Connection;
use crate::front_error::FrontError;
use std::alloc::{AllocError, Global};
use std::marker::Model;
use std::mem;

/// How many connections there are. If each holds the most, they hold 64 MiB together.
const CONNECTIONS: usize = 64;

/// A connection of a front, by its number. Once it is closed, no call takes it, until its number is
/// opened again; then it is that new connection.
#[derive(Clone, Copy, Debug, PartialEq, Eq)]
pub struct Conn {
    /// The number. Those of a front have 0 to 63, and one of another number is never open.
    pub number: usize,
}

/// The connections of a front: those that are open. One that isn't has no buffer.
#[derive(Drop)]
pub struct Lines {
    /// By number, each connection that is open.
    connections: Vec<Option<Connection>>,
}

impl Model for Lines {
    ghost use Rattle.std.specs.Prelude.{◌≡◌, length, List, Option};
    ghost use Rattle.xa_http.specs.Stream.{Stream};

    ghost Value = { List (Option Stream) };

    ghost view = { λ l. l.connections.items };

    ghost invariant = { λ l. length l.connections.items ≡ 64 };
}

impl Lines {
    ghost use Rattle.xa_server.specs.handling.Lending.{LendsLine};

    /// No connection is open.
    pub(crate) fn new(alloc: Global) -> Result<Lines, AllocError>
        ensures { IfOk result (λ lines. lines ≡ none_open) }
    {
        let mut connections = Vec::with_capacity(alloc, CONNECTIONS)?;
        for _ in 0..CONNECTIONS {
            connections.push(None)?;
        }
        Ok(Lines { connections })
    }

    /// Each connection is open, and nothing has come on it.
    pub(crate) fn all_open(alloc: Global) -> Result<Lines, AllocError>
        ensures { IfOk result (λ lines. lines ≡ all_open) }
    {
        let mut connections = Vec::with_capacity(alloc, CONNECTIONS)?;
        for _ in 0..CONNECTIONS {
            connections.push(Some(Connection::new(alloc)))?;
        }
        Ok(Lines { connections })
    }

    /// The connection, if it is open. Whoever has it has no other.
    pub fn get_mut(&mut self, conn: Conn) -> Option<&mut Connection>
        ensures* writes_back { sem 𝓛 (LendsLine self.entry conn result) }
        ensures value { option_map (λ connection. connection.now) result ≡ line_at conn self.old }
    {
        self.connections.get_mut(conn.number)?.as_mut()
    }

    /// Opens the connection of the least number that is free. It holds nothing, and no memory is taken
    /// for it. Fails with `TooManyConnections`, if none is free.
    pub(crate) fn open(&mut self, alloc: Global) -> Result<Conn, FrontError>
        ensures { IsOpened self.old result self.new }
    {
        let number = first_free(&self.connections).ok_or(FrontError::TooManyConnections)?;
        let conn = Conn { number };
        self.put(conn, Some(Connection::new(alloc)));
        Ok(conn)
    }

    /// Closes the connection, and lets its bytes go. Fails with `NoSuchConnection`, if it isn't open.
    pub(crate) fn close(&mut self, conn: Conn) -> Result<(), FrontError>
        ensures { IsClosed conn self.old result self.new }
    {
        match self.put(conn, None) {
            Some(_) => Ok(()),
            None => Err(FrontError::NoSuchConnection),
        }
    }

    /// Puts the connection there, and gives what was there before.
    fn put(&mut self, conn: Conn, connection: Option<Connection>) -> Option<Connection>
        ensures before { result ≡ line_at conn self.old }
        ensures after { self.new ≡ with_line conn connection self.old }
    {
        match self.connections.get_mut(conn.number) {
            Some(line) => mem::replace(line, connection),
            None => None,
        }
    }
}

/// The least place at which no connection is.
fn first_free(connections: &[Option<Connection>]) -> Option<usize>
    ensures free { result ≡ first_free connections.now }
    ensures within { IfSome result (λ number. number < length connections.now) }
{
    let [first, rest @ ..] = connections else {
        return None;
    };
    if first.is_none() {
        return Some(0);
    }
    Some(first_free(rest)? + 1)
}
