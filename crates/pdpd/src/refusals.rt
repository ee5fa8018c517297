//! Lines on standard error about messages that were refused, which get the same 503 for whatever reason.
ghost use Rattle.std.specs.Prelude.{◌≡◌};

use std::fmt;
use std::rt::HostRuntime;
use std::time::Clock;
use xa_records::Records;
use xa_server::{Front, RefusedMessage};

/// How many lines are written in a second at most.
const MOST_LINES: u32 = 10;

/// A line about a message that was refused.
#[derive(Drop)]
struct RefusedLine<'a> {
    /// The message.
    refused: &'a RefusedMessage,
    /// How many others were refused before it of which nothing was told.
    others: u64,
}

impl fmt::Display for RefusedLine<'_> {
    fn fmt<W: fmt::Write>(&self, f: &mut fmt::Formatter<W>) -> fmt::Result {
        f.write_str("pdpd: refused a message of ")?;
        match &self.refused.domain {
            Some(domain) => f.write_str(domain.as_str())?,
            None => f.write_str("no domain")?,
        }
        write!(f, ": {}", self.refused.cause)?;
        match self.others {
            0 => Ok(()),
            others => write!(f, "; and {others} others before"),
        }
    }
}

/// Writes lines about messages that were refused, not too many.
#[derive(Drop)]
pub struct Refusals {
    /// The runtime, which has the stream and the clock.
    rt: HostRuntime,
    /// The second of the last line.
    second: u64,
    /// How many lines were written in it.
    lines: u32,
    /// How many messages were refused of which nothing was told.
    left_out: u64,
}

impl Refusals {
    /// Nothing was told.
    pub fn new(rt: &HostRuntime) -> Refusals {
        Refusals {
            rt: *rt,
            second: 0,
            lines: 0,
            left_out: 0,
        }
    }

    /// Whether another line may be written now.
    fn may_tell(&mut self) -> bool {
        let Ok(now) = self.rt.monotonic() else {
            return false;
        };
        if now.as_secs() != self.second {
            self.second = now.as_secs();
            self.lines = 0;
        }
        self.lines = self.lines.saturating_add(1);
        self.lines <= MOST_LINES
    }

    /// Tells of a message that was refused, and how many others were before it of which nothing was told.
    pub fn tell(&mut self, refused: &RefusedMessage) {
        let others = self.left_out.saturating_add(refused.others);
        if !self.may_tell() {
            self.left_out = others.saturating_add(1);
            return;
        }
        let _ = self.rt.eprintln(RefusedLine { refused, others });
        self.left_out = 0;
    }

    /// Tells of the last message that the front's server refused, if one was since this was done.
    pub fn tell_of_last<R: Records>(&mut self, front: &mut Front<R>)
        ensures { front.new ≡ front.old }
    {
        if let Some(refused) = front.server.take_refused() {
            self.tell(&refused);
        }
    }
}
