//! What is around a reactor: its peers, its clock and the time.
ghost use Rattle.std.specs.Prelude.{Some};

use crate::bytes::{bytes_of, number_of};
use crate::network::{Memory, NOT_READY};
use crate::no_answer::NoAnswer;
use std::alloc::Global;
use std::time::Duration;
use xa_reactor::{Limits, NotedNetwork, PLACES, Ready, Timer};
use xa_server::{Clock, Noted};
use xa_value::Moment;

/// A clock that tells what a row says.
#[derive(Drop)]
pub struct RowClock {
    /// What it tells.
    moment: Option<Moment>,
    /// What it has told.
    told: Noted<Option<Moment>>,
}

impl Clock for RowClock {
    ghost told = { λ clock. Some clock.told.calls };

    fn now(&mut self) -> Option<Moment> {
        self.told.note(&self.moment);
        self.moment
    }
}

/// A timer that tells what a row says, and each time so much more.
#[derive(Clone, Copy)]
pub struct RowTimer {
    /// What it tells next.
    now: Duration,
    /// How much passes behind that.
    step: Duration,
}

impl Timer for RowTimer {
    fn elapsed(&mut self) -> Option<Duration> {
        let told = self.now;
        self.now = told.saturating_add(self.step);
        Some(told)
    }
}

/// What is around a reactor.
#[derive(Drop)]
pub struct World {
    /// The peers.
    pub network: NotedNetwork<Memory>,
    /// What the clock tells.
    pub clock: RowClock,
    /// What the timer tells.
    pub timer: RowTimer,
}

/// A time in milliseconds.
fn milliseconds_of(text: &str) -> Result<Duration, NoAnswer> {
    Ok(Duration::from_millis(number_of(text)? as u64))
}

/// A limit in milliseconds; 0 is none.
fn limit_of(text: &str) -> Result<Option<Duration>, NoAnswer> {
    let limit = milliseconds_of(text)?;
    Ok((!limit.is_zero()).then_some(limit))
}

/// A field's two parts.
fn two(text: &str) -> Result<(&str, &str), NoAnswer> {
    text.split_once(':').ok_or(NoAnswer::Malformed)
}

/// The limits that a field says.
pub fn limits_of(text: &str) -> Result<Limits, NoAnswer> {
    let (idle, message) = two(text)?;
    Ok(Limits {
        idle: limit_of(idle)?,
        message: limit_of(message)?,
    })
}

/// What a clock tells that many seconds after the first moment of all.
fn moment_of(text: &str) -> Result<Option<Moment>, NoAnswer> {
    match i64::try_from(number_of(text)?) {
        Ok(seconds) => Ok(Moment::new(seconds)),
        Err(_) => Err(NoAnswer::Malformed),
    }
}

impl World {
    /// Nobody is there.
    pub fn new(alloc: Global) -> World {
        World {
            network: NotedNetwork::new(Memory::new(alloc)),
            clock: RowClock {
                moment: Moment::new(0),
                told: Noted::new(),
            },
            timer: RowTimer {
                now: Duration::ZERO,
                step: Duration::ZERO,
            },
        }
    }

    /// Does what a field says.
    pub fn happens(&mut self, alloc: Global, word: &str, text: &str) -> Result<(), NoAnswer> {
        match word {
            "time" => self.timer.now = milliseconds_of(text)?,
            "passes" => self.timer.step = milliseconds_of(text)?,
            "clock" => self.clock.moment = moment_of(text)?,
            "no-clock" => self.clock.moment = None,
            "end" => self.network.network.end = true,
            "ready" => self.ready(text)?,
            "fails" => self.fails(text)?,
            "arrive" => self.arrive(alloc, text, false)?,
            "arrive-changes" => self.arrive(alloc, text, true)?,
            _ => self.peer(alloc, word, text)?,
        }
        Ok(())
    }

    /// So many peers come to a door.
    fn arrive(&mut self, alloc: Global, text: &str, at_changes: bool) -> Result<(), NoAnswer> {
        for _ in 0..number_of(text)? {
            self.network.network.arrive(alloc, at_changes)?;
        }
        Ok(())
    }

    /// What a peer does.
    fn peer(&mut self, alloc: Global, word: &str, text: &str) -> Result<(), NoAnswer> {
        let (number, what) = two(text)?;
        let Some(peer) = self.network.network.peers.get_mut(number_of(number)?) else {
            return Err(NoAnswer::Malformed);
        };
        match word {
            "comes" => peer.send(&bytes_of(alloc, what)?)?,
            "ends" => peer.has_ended = true,
            "takes" => peer.takes = number_of(what)?,
            _ => return Err(NoAnswer::Malformed),
        }
        Ok(())
    }

    /// What is told at the next wait of a place: some of the letters `r`, `w` and `e`.
    fn ready(&mut self, text: &str) -> Result<(), NoAnswer> {
        let (place, letters) = two(text)?;
        let mut told = self.network.network.told.unwrap_or([NOT_READY; PLACES]);
        if let Some(ready) = told.get_mut(number_of(place)?) {
            *ready = Ready {
                readable: letters.contains('r'),
                writable: letters.contains('w'),
                ends: letters.contains('e'),
            };
        }
        self.network.network.told = Some(told);
        Ok(())
    }

    /// Every so many calls of a kind fail.
    fn fails(&mut self, text: &str) -> Result<(), NoAnswer> {
        let (kind, every) = two(text)?;
        let every = number_of(every)?;
        match kind {
            "read" => self.network.network.reads.every = every,
            "write" => self.network.network.writes.every = every,
            "accept" => self.network.network.accepts.every = every,
            _ => return Err(NoAnswer::Malformed),
        }
        Ok(())
    }

    /// Writes what was done at the network since it was told last.
    pub fn tell_deeds(&mut self, answer: &mut String) -> Result<(), NoAnswer> {
        answer.push_str("turn")?;
        answer.push_str(self.network.network.done.as_str())?;
        self.network.network.done.clear();
        Ok(())
    }

    /// What a peer has got.
    pub fn got(&self, text: &str) -> Result<&[u8], NoAnswer> {
        match self.network.network.peers.get(number_of(text)?) {
            Some(peer) => Ok(peer.got.as_slice()),
            None => Err(NoAnswer::Malformed),
        }
    }
}
