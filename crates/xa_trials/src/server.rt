//! Rows of messages: what a server answers to a stream, on a connection of a front. These are the events.
//! `moment:SECONDS` dates what follows, and `piece:BYTES` is the next piece of the stream. After `close:` the
//! stream is another. After `restart:` the server is another, too, over the keeper that the one before gave
//! back. `readings:`, `evaluations:` and `unkept:` ask what the server has counted; after them the stream is
//! another.
use crate::answer::Answer;
use crate::clock::moment_of;
use crate::connections::lines::push_all;
use crate::field::{bytes_of, word_and_text};
use crate::front_calls::{Count, FrontCalls, Renew};
use crate::no_answer::NoAnswer;
use crate::runs::Runs;
use std::alloc::Global;
use xa_server::Conn;
use xa_value::Moment;

/// How many bytes are handed over at once: as many as a server reads at once (`xa_server`, `driving.rt`).
const PIECE_BYTES: usize = 65_536;

/// A server at a moment, with the connection whose messages it answers.
#[derive(Drop)]
struct ServerTrial<F: FrontCalls + Drop> {
    /// The front, over the server.
    front: F,
    /// The connection.
    conn: Conn,
    /// Whether the connection has ended.
    has_ended: bool,
    /// The moment of what follows.
    moment: Moment,
}

impl<F: FrontCalls + Drop> ServerTrial<F> {
    /// The front's server at that moment, with one connection.
    fn new(mut front: F, moment: Moment) -> Result<ServerTrial<F>, NoAnswer> {
        let conn = front.begin()?;
        Ok(ServerTrial {
            front,
            conn,
            has_ended: false,
            moment,
        })
    }

    /// Hands over bytes, unless the connection has ended. Adds the replies to all messages that are whole
    /// then, and to a fault. Whether there were some.
    fn push_answers(
        &mut self,
        answer: &mut Answer,
        runs: &mut Runs,
        bytes: &[u8],
    ) -> Result<bool, NoAnswer> {
        if self.has_ended {
            return Ok(false);
        }
        self.front.feed(self.conn, bytes)?;
        match push_all(&mut self.front, self.conn, self.moment, answer, runs)? {
            Some(is_last) => {
                self.has_ended = is_last;
                Ok(true)
            }
            None => Ok(false),
        }
    }

    /// Hands over the bytes, so many at once, and adds the replies. Whether there were some.
    fn push_all_answers(&mut self, answer: &mut Answer, bytes: &[u8]) -> Result<bool, NoAnswer> {
        let mut runs = Runs::new(answer.alloc());
        let mut is_answered = false;
        for part in bytes.chunks(PIECE_BYTES) {
            if self.push_answers(answer, &mut runs, part)? {
                is_answered = true;
            }
        }
        runs.end(answer);
        Ok(is_answered)
    }

    /// Answers the messages that are whole after the piece.
    fn piece(&mut self, answer: &mut Answer, field: &str) -> Result<(), NoAnswer> {
        let bytes = bytes_of(answer.alloc(), field)?;
        let is_answered = self.push_all_answers(answer, &bytes)?;
        if self.has_ended {
            answer.push_word("!Ended");
        } else if !is_answered {
            answer.push_word("More");
        }
        Ok(())
    }

    /// Goes on with another stream.
    fn close(&mut self) -> Result<(), NoAnswer> {
        self.front.finish(self.conn)?;
        self.conn = self.front.begin()?;
        self.has_ended = false;
        Ok(())
    }

    /// Runs the event of the word and the text after it.
    fn step(&mut self, answer: &mut Answer, word: &str, text: &str) -> Result<(), NoAnswer> {
        match word {
            "piece" => self.piece(answer, text),
            "moment" => {
                self.moment = moment_of(text)?;
                Ok(())
            }
            "close" => self.close(),
            _ => Err(NoAnswer::Malformed),
        }
    }

    /// The front, and its moment. The connection is gone.
    fn into_front(self) -> (F, Moment) {
        let ServerTrial {
            front,
            conn: _,
            has_ended: _,
            moment,
        } = self;
        (front, moment)
    }

    /// The trial after the event of the word and the text after it, on the same front.
    fn trial_after_step(
        mut self,
        answer: &mut Answer,
        word: &str,
        text: &str,
    ) -> Result<ServerTrial<F>, NoAnswer> {
        self.step(answer, word, text)?;
        Ok(self)
    }
}

impl<F: Renew + Drop> ServerTrial<F> {
    /// Another server over the same keeper, and another stream.
    fn trial_after_restart(self, alloc: Global) -> Result<ServerTrial<F>, NoAnswer> {
        let (front, moment) = self.into_front();
        ServerTrial::new(front.front_after_restart(alloc)?, moment)
    }

    /// Adds what the server has counted, after the word that asks for it, and goes on with another stream.
    fn trial_after_count(
        self,
        answer: &mut Answer,
        word: &str,
        count: Count,
    ) -> Result<ServerTrial<F>, NoAnswer> {
        let (front, moment) = self.into_front();
        let (number, front) = front.count_and_front(answer.alloc(), count)?;
        answer.push_word(word);
        answer.append_shown(" ", &number);
        ServerTrial::new(front, moment)
    }

    /// Runs the event of the field, and gives the trial that goes on after it.
    fn trial_after(self, answer: &mut Answer, field: &str) -> Result<ServerTrial<F>, NoAnswer> {
        let (word, text) = word_and_text(field);
        match word {
            "restart" => self.trial_after_restart(answer.alloc()),
            "readings" => self.trial_after_count(answer, word, Count::Readings),
            "evaluations" => self.trial_after_count(answer, word, Count::Evaluations),
            "unkept" => self.trial_after_count(answer, word, Count::Unkept),
            _ => self.trial_after_step(answer, word, text),
        }
    }
}

/// Runs the events on the front's server, from that moment on.
pub fn run_server_events<F: Renew + Drop>(
    answer: &mut Answer,
    front: F,
    moment: Moment,
    events: &[&str],
) -> Result<(), NoAnswer> {
    let mut trial = ServerTrial::new(front, moment)?;
    for event in events {
        trial = trial.trial_after(answer, event)?;
    }
    Ok(())
}
