//! Rows of connections that are driven. Events are those of rows of connections, and these. `comes:BYTES` is
//! what the peer sends next. `reads:`, `writes:` and `flushes:` say how these calls go. `clock:N` lets the
//! clock tell only so many moments. `drive:N` drives a connection with all that; then another peer begins.
//! `queues:` has the peer wait at the door, and another begins; `serve:N` takes so many of those that wait,
//! one after another, and drives each.
use crate::answer::Answer;
use crate::clock::StandingClock;
use crate::connections::FrontTrial;
use crate::door::{Door, Ends};
use crate::field::{bytes_of, number_of, word_and_text};
use crate::front_calls::FrontCalls;
use crate::no_answer::NoAnswer;
use std::alloc::Global;
use std::mem;
use xa_value::Moment;

/// The peer of the connection that is driven next, those that wait, and how many moments the clock tells.
#[derive(Drop)]
struct Driving {
    /// Where memory comes from.
    alloc: Global,
    /// The peer.
    peer: Ends,
    /// The peers that wait.
    door: Door,
    /// How many moments the clock tells.
    moments: u64,
}

impl Driving {
    /// A peer that sends nothing, and nobody waits.
    fn new(alloc: Global) -> Driving {
        Driving {
            alloc,
            peer: Ends::new(alloc),
            door: Door::new(alloc),
            moments: u64::MAX,
        }
    }

    /// A clock that stands at the moment.
    fn clock(&mut self, moment: Moment) -> StandingClock {
        let left = mem::replace(&mut self.moments, u64::MAX);
        StandingClock::new(moment, left)
    }

    /// Takes in what the peer sends next.
    fn come(&mut self, text: &str) -> Result<(), NoAnswer> {
        let bytes = bytes_of(self.alloc, text)?;
        self.peer.sender.bytes.extend_from_slice(&bytes)?;
        Ok(())
    }

    /// Has the peer wait, and begins another.
    fn wait(&mut self) -> Result<(), NoAnswer> {
        let peer = mem::replace(&mut self.peer, Ends::new(self.alloc));
        self.door.waiting.push_back(peer)?;
        Ok(())
    }

    /// Drives a connection. Adds how that has ended, what the peer has got, and how much of what it sent
    /// is left.
    fn drive<F: FrontCalls + Drop>(
        &mut self,
        answer: &mut Answer,
        trial: &mut FrontTrial<F>,
        text: &str,
    ) -> Result<(), NoAnswer> {
        let mut clock = self.clock(trial.moment);
        let conn = trial.conn(text)?;
        let peer = &mut self.peer;
        let end = trial
            .front
            .drive(conn, &mut peer.sender, &mut peer.receiver, &mut clock);
        answer.push_shown("", &end);
        self.peer.push(answer)?;
        self.peer = Ends::new(self.alloc);
        Ok(())
    }

    /// Takes so many peers, one after another, and drives each. Adds for each what `drive` adds.
    fn serve<F: FrontCalls + Drop>(
        &mut self,
        answer: &mut Answer,
        trial: &mut FrontTrial<F>,
        text: &str,
    ) -> Result<(), NoAnswer> {
        let mut clock = self.clock(trial.moment);
        let count: usize = number_of(text)?;
        self.door.left = count;
        for _ in 0..count {
            match trial.front.drive_next(&mut self.door, &mut clock) {
                Ok(end) => answer.push_shown("", &end),
                Err(error) => answer.push_shown("!", &error),
            }
            if let Some(peer) = self.door.parted.pop_front() {
                peer.push(answer)?;
            }
        }
        Ok(())
    }

    /// Runs the event of the word and the text after it.
    fn run_event<F: FrontCalls + Drop>(
        &mut self,
        answer: &mut Answer,
        trial: &mut FrontTrial<F>,
        word: &str,
        text: &str,
    ) -> Result<(), NoAnswer> {
        match word {
            "comes" => self.come(text),
            "reads" => self.peer.sender.reads.set(text),
            "writes" => self.peer.receiver.writes.set(text),
            "flushes" => self.peer.receiver.flushes.set(text),
            "clock" => {
                self.moments = number_of(text)?;
                Ok(())
            }
            "drive" => self.drive(answer, trial, text),
            "queues" => self.wait(),
            "serve" => self.serve(answer, trial, text),
            _ => trial.run_event(answer, word, text),
        }
    }
}

/// Runs the events, one after another.
pub fn run_driven_events<F: FrontCalls + Drop>(
    answer: &mut Answer,
    trial: &mut FrontTrial<F>,
    events: &[&str],
) -> Result<(), NoAnswer> {
    let mut driving = Driving::new(answer.alloc());
    for event in events {
        let (word, text) = word_and_text(event);
        driving.run_event(answer, trial, word, text)?;
    }
    Ok(())
}
