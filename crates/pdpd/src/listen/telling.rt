//! Lines on standard error about connections.
ghost use Rattle.std.specs.Prelude.{◌≡◌, ◌≤◌, true};

use crate::fault::Named;
use std::fmt;
use std::net::SocketAddr;
use std::rt::HostRuntime;
use std::time::Clock;

/// How many lines are written in a second at most.
const MOST_LINES: u32 = 10;

/// A line about a connection that was dropped.
#[derive(Drop)]
struct DropLine<'a> {
    /// Where it was taken.
    named: Named<'a>,
    /// Who was at its other end, if that has an address.
    peer: Option<SocketAddr>,
    /// How many others were dropped of which nothing was told.
    left_out: u64,
}

impl fmt::Display for DropLine<'_> {
    fn fmt<W: fmt::Write>(&self, f: &mut fmt::Formatter<W>) -> fmt::Result {
        write!(f, "{}: dropped ", self.named)?;
        match self.peer {
            Some(peer) => write!(f, "{peer}")?,
            None => f.write_str("a connection")?,
        }
        f.write_str(": it was waited for too long")?;
        match self.left_out {
            0 => Ok(()),
            others => write!(f, "; and {others} others before"),
        }
    }
}

/// Writes lines on standard error, not too many.
#[derive(Drop)]
pub struct Telling<'a> {
    /// The runtime, which has the stream and the clock.
    rt: HostRuntime,
    /// Where connections are taken.
    address: &'a str,
    /// The second of the last line.
    second: u64,
    /// How many lines were written in it.
    lines: u32,
    /// How many weren't, since one was.
    left_out: u64,
}

impl<'a> Telling<'a> {
    /// Nothing was told.
    pub fn new(rt: &HostRuntime, address: &'a str) -> Telling<'a> {
        Telling {
            rt: *rt,
            address,
            second: 0,
            lines: 0,
            left_out: 0,
        }
    }

    /// The address, at the beginning of a line.
    fn named(&self) -> Named<'_> {
        Named {
            command: "listen",
            path: self.address,
        }
    }

    /// Tells that of the program.
    pub fn tell(&self, what: &str) {
        let named = self.named();
        let _ = eprintln!(self.rt; "{named}: {what}");
    }

    /// Whether another line may be written now.
    fn may_tell(&mut self) -> bool
        ensures { result ≡ true → self.new.lines ≤ 10 }
    {
        let second = match self.rt.monotonic() {
            Ok(time) => time.as_secs(),
            Err(_) => return false,
        };
        if second != self.second {
            self.second = second;
            self.lines = 0;
        }
        if self.lines >= MOST_LINES {
            self.left_out = self.left_out.saturating_add(1);
            return false;
        }
        self.lines = self.lines.saturating_add(1);
        true
    }

    /// Tells that a connection was dropped, and how many others were of which nothing was told.
    pub fn tell_of_drop(&mut self, peer: Option<SocketAddr>) {
        if !self.may_tell() {
            return;
        }
        let line = DropLine {
            named: self.named(),
            peer,
            left_out: self.left_out,
        };
        let _ = self.rt.eprintln(line);
        self.left_out = 0;
    }
}
