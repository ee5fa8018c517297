//! Rows of connections: what a front with all its connections answers to events. `begin:`, `piece:N:BYTES`,
//! `answer:N` and `finish:N` are the calls of a front. `answers:N` asks for all answers that there are, and
//! `moment:SECONDS` dates those that follow. `waits:N-M:BYTES` has bytes wait for some connections.
//! `turns:SIZE` hands over what waits, so many bytes of each connection in turn. `cuts:BYTES` hands over
//! bytes in two pieces, cut after each byte in turn.
pub(crate) mod lines;

use crate::answer::Answer;
use crate::clock::moment_of;
use crate::connections::lines::{Line, Output, add_lines, feed_and_answer, push_all, take_turn};
use crate::field::{bytes_of, first_and_last, number_of, word_and_text};
use crate::front_calls::FrontCalls;
use crate::no_answer::NoAnswer;
use crate::runs::{Runs, push_answer, push_last};
use std::alloc::Global;
use xa_server::Conn;
use xa_value::Moment;

/// A front at a moment, with all its connections.
#[derive(Drop)]
pub struct FrontTrial<F: FrontCalls + Drop> {
    /// Where memory comes from.
    pub alloc: Global,
    /// The front.
    pub front: F,
    /// Its connections, by their numbers.
    pub lines: Vec<Line>,
    /// The moment.
    pub moment: Moment,
}

impl<F: FrontCalls + Drop> FrontTrial<F> {
    /// The front at that moment. None of its connections is open.
    pub fn new(alloc: Global, front: F, moment: Moment) -> Result<FrontTrial<F>, NoAnswer> {
        let mut trial = FrontTrial {
            alloc,
            front,
            lines: Vec::new(alloc),
            moment,
        };
        add_lines(alloc, &mut trial.front, &mut trial.lines)?;
        Ok(trial)
    }

    /// The connection of that number.
    pub fn conn(&self, text: &str) -> Result<Conn, NoAnswer> {
        let number: usize = number_of(text)?;
        let line = self.lines.get(number).ok_or(NoAnswer::Malformed)?;
        Ok(line.conn)
    }

    /// The connection of the number before the first colon, and the bytes of the field after it.
    pub fn conn_and_bytes(&self, text: &str) -> Result<(Conn, Vec<u8>), NoAnswer> {
        let (number, field) = text.split_once(':').ok_or(NoAnswer::Malformed)?;
        Ok((self.conn(number)?, bytes_of(self.alloc, field)?))
    }

    /// Adds the number of the connection, which was opened.
    pub fn push_begun(&self, answer: &mut Answer, conn: Conn) {
        for (number, line) in self.lines.iter().enumerate() {
            if line.conn == conn {
                answer.push_shown("begun ", &number);
                return;
            }
        }
    }

    /// Opens a connection.
    fn begin(&mut self, answer: &mut Answer) -> Result<(), NoAnswer> {
        let conn = self.front.begin()?;
        self.push_begun(answer, conn);
        Ok(())
    }

    /// Hands over bytes.
    fn piece(&mut self, answer: &mut Answer, text: &str) -> Result<(), NoAnswer> {
        let (conn, bytes) = self.conn_and_bytes(text)?;
        self.front.feed(conn, &bytes)?;
        answer.push_word("held");
        Ok(())
    }

    /// Asks for the next answer.
    fn answer(&mut self, answer: &mut Answer, text: &str) -> Result<(), NoAnswer> {
        let conn = self.conn(text)?;
        let given = self.front.next_answer(conn, self.moment)?;
        push_answer(answer, given.as_ref());
        Ok(())
    }

    /// Asks for all answers that there are.
    fn answers(&mut self, answer: &mut Answer, text: &str) -> Result<(), NoAnswer> {
        let conn = self.conn(text)?;
        let mut runs = Runs::new(self.alloc);
        let given = push_all(&mut self.front, conn, self.moment, answer, &mut runs)?;
        runs.end(answer);
        match given {
            Some(is_last) => push_last(answer, is_last),
            None => answer.push_word("!None"),
        }
        Ok(())
    }

    /// Closes a connection.
    fn finish(&mut self, answer: &mut Answer, text: &str) -> Result<(), NoAnswer> {
        let conn = self.conn(text)?;
        self.front.finish(conn)?;
        answer.push_word("finished");
        Ok(())
    }

    /// Has the bytes wait for the connections from the first number to the last.
    fn wait_each(&mut self, first: usize, last: usize, bytes: &[u8]) -> Result<(), NoAnswer> {
        for (number, line) in self.lines.iter_mut().enumerate() {
            if first <= number && number <= last {
                line.waiting.extend_from_slice(bytes)?;
            }
        }
        Ok(())
    }

    /// Has bytes wait for some connections.
    fn wait(&mut self, text: &str) -> Result<(), NoAnswer> {
        let (numbers, field) = text.split_once(':').ok_or(NoAnswer::Malformed)?;
        let (first, last) = first_and_last(numbers)?;
        let bytes = bytes_of(self.alloc, field)?;
        self.wait_each(first, last, &bytes)
    }

    /// Hands over, for each connection in turn, so many of the bytes that wait for it, and asks for all
    /// answers. Whether something waited.
    fn turn_each(&mut self, size: usize) -> Result<bool, NoAnswer> {
        let mut has_more = false;
        for line in self.lines.iter_mut() {
            if take_turn(&mut self.front, line, self.moment, size)? {
                has_more = true;
            }
        }
        Ok(has_more)
    }

    /// Adds what each connection was answered to what waited, and forgets both.
    fn push_outputs(&mut self, answer: &mut Answer) -> Result<(), NoAnswer> {
        let mut runs = Runs::new(self.alloc);
        for line in self.lines.iter_mut() {
            if line.at > 0 {
                runs.push(answer, &line.output.bytes, line.output.is_last)?;
            }
            line.clear(self.alloc);
        }
        runs.end(answer);
        Ok(())
    }

    /// Hands over all that waits, and adds what each connection was answered.
    fn turns(&mut self, answer: &mut Answer, text: &str) -> Result<(), NoAnswer> {
        let size = number_of(text)?;
        for _ in 0..u64::MAX {
            if !self.turn_each(size)? {
                break;
            }
        }
        self.push_outputs(answer)
    }

    /// Hands over the bytes in two pieces, on a connection of their own. How many replies came to the
    /// first piece.
    fn cut(&mut self, bytes: &[u8], place: usize, output: &mut Output) -> Result<usize, NoAnswer> {
        let conn = self.front.begin()?;
        let first = bytes.get(..place).unwrap_or(&[]);
        feed_and_answer(&mut self.front, conn, first, self.moment, output)?;
        let before = output.count;
        let rest = bytes.get(place..).unwrap_or(&[]);
        feed_and_answer(&mut self.front, conn, rest, self.moment, output)?;
        self.front.finish(conn)?;
        Ok(before)
    }

    /// Hands over the bytes cut at the place, and adds what was answered. Notes how many replies came
    /// before the second piece.
    fn push_cut(
        &mut self,
        answer: &mut Answer,
        outputs: &mut Runs,
        counts: &mut Vec<usize>,
        bytes: &[u8],
        place: usize,
    ) -> Result<(), NoAnswer> {
        let mut output = Output::new(self.alloc);
        let before = self.cut(bytes, place, &mut output)?;
        counts.push(before)?;
        outputs.push(answer, &output.bytes, output.is_last)
    }

    /// Hands over the bytes cut after each of them, and adds what was answered. Then adds how many
    /// replies came before each second piece.
    fn cuts(&mut self, answer: &mut Answer, text: &str) -> Result<(), NoAnswer> {
        let bytes = bytes_of(self.alloc, text)?;
        let mut outputs = Runs::new(self.alloc);
        let mut counts = Vec::new(self.alloc);
        for place in 0..=bytes.len() {
            self.push_cut(answer, &mut outputs, &mut counts, &bytes, place)?;
        }
        outputs.end(answer);
        push_counts(answer, &counts)
    }

    /// Runs the event of the word and the text after it. A refusal is given back.
    fn call(&mut self, answer: &mut Answer, word: &str, text: &str) -> Result<(), NoAnswer> {
        match word {
            "begin" => self.begin(answer),
            "piece" => self.piece(answer, text),
            "answer" => self.answer(answer, text),
            "answers" => self.answers(answer, text),
            "finish" => self.finish(answer, text),
            "moment" => {
                self.moment = moment_of(text)?;
                Ok(())
            }
            "waits" => self.wait(text),
            "turns" => self.turns(answer, text),
            "cuts" => self.cuts(answer, text),
            _ => Err(NoAnswer::Malformed),
        }
    }

    /// Runs the event of the word and the text after it. A failed call is answered by the name of its error.
    pub fn run_event(
        &mut self,
        answer: &mut Answer,
        word: &str,
        text: &str,
    ) -> Result<(), NoAnswer> {
        match self.call(answer, word, text) {
            Err(NoAnswer::Front(error)) => {
                answer.push_shown("!", &error);
                Ok(())
            }
            done => done,
        }
    }

    /// Runs the events, one after another.
    pub fn run_events(&mut self, answer: &mut Answer, events: &[&str]) -> Result<(), NoAnswer> {
        for event in events {
            let (word, text) = word_and_text(event);
            self.run_event(answer, word, text)?;
        }
        Ok(())
    }
}

/// Adds the counts, equal ones in a row once.
fn push_counts(answer: &mut Answer, counts: &[usize]) -> Result<(), NoAnswer> {
    let alloc = answer.alloc();
    let mut runs = Runs::new(alloc);
    for count in counts {
        let shown = format!(in alloc; "{count}")?;
        runs.push(answer, shown.as_bytes(), false)?;
    }
    runs.end(answer);
    Ok(())
}
