//! The connections of a front: what waits for each, and what it was answered.
use crate::answer::Answer;
use crate::front_calls::FrontCalls;
use crate::no_answer::NoAnswer;
use crate::runs::Runs;
use std::alloc::Global;
use xa_server::Conn;
use xa_value::Moment;

/// How many connections there are: all those of a front, the 64 of `xa_server` (`lines.rt`).
const CONNECTIONS: usize = 64;

/// A connection, what waits for it, how many of these bytes are handed over, and what was answered to them.
#[derive(Drop)]
pub struct Line {
    /// The connection.
    pub conn: Conn,
    /// What waits for it.
    pub waiting: Vec<u8>,
    /// How many of these bytes are handed over.
    pub at: usize,
    /// What was answered to them.
    pub output: Output,
}

/// What a connection was answered: the bytes of how many replies, and whether it has ended with them.
#[derive(Drop)]
pub struct Output {
    /// The bytes of the replies.
    pub bytes: Vec<u8>,
    /// How many replies there were.
    pub count: usize,
    /// Whether the connection has ended with them.
    pub is_last: bool,
}

impl Line {
    /// A connection to which nothing is handed over, and for which nothing waits.
    fn new(alloc: Global, conn: Conn) -> Line {
        Line {
            conn,
            waiting: Vec::new(alloc),
            at: 0,
            output: Output::new(alloc),
        }
    }

    /// Forgets what waited, and what was answered to it.
    pub fn clear(&mut self, alloc: Global) {
        self.waiting.clear();
        self.at = 0;
        self.output = Output::new(alloc);
    }
}

impl Output {
    /// No reply as yet.
    pub fn new(alloc: Global) -> Output {
        Output {
            bytes: Vec::new(alloc),
            count: 0,
            is_last: false,
        }
    }
}

/// Adds all connections of the front, by their numbers. None is open afterwards.
pub fn add_lines<F: FrontCalls>(
    alloc: Global,
    front: &mut F,
    lines: &mut Vec<Line>,
) -> Result<(), NoAnswer> {
    for _ in 0..CONNECTIONS {
        lines.push(Line::new(alloc, front.begin()?))?;
    }
    for line in lines.iter() {
        front.finish(line.conn)?;
    }
    Ok(())
}

/// Asks for all answers that there are, and adds them. If there were some, whether the connection has ended
/// with the last.
pub fn push_all<F: FrontCalls>(
    front: &mut F,
    conn: Conn,
    moment: Moment,
    answer: &mut Answer,
    runs: &mut Runs,
) -> Result<Option<bool>, NoAnswer> {
    let mut is_last = None;
    for _ in 0..u64::MAX {
        let Some(given) = front.next_answer(conn, moment)? else {
            return Ok(is_last);
        };
        runs.push(answer, given.reply.bytes(), false)?;
        is_last = Some(given.last);
    }
    Ok(is_last)
}

/// Asks for all answers that there are.
fn answer_all<F: FrontCalls>(
    front: &mut F,
    conn: Conn,
    moment: Moment,
    output: &mut Output,
) -> Result<(), NoAnswer> {
    for _ in 0..u64::MAX {
        let Some(given) = front.next_answer(conn, moment)? else {
            return Ok(());
        };
        output.bytes.extend_from_slice(given.reply.bytes())?;
        output.count = output.count.saturating_add(1);
        output.is_last = given.last;
    }
    Ok(())
}

/// Hands over bytes of a connection, and asks for all answers that there are then.
pub fn feed_and_answer<F: FrontCalls>(
    front: &mut F,
    conn: Conn,
    bytes: &[u8],
    moment: Moment,
    output: &mut Output,
) -> Result<(), NoAnswer> {
    front.feed(conn, bytes)?;
    answer_all(front, conn, moment, output)
}

/// Hands over the next of the bytes that wait for a connection, so many at most, and asks for all answers.
/// Whether there were such bytes.
pub fn take_turn<F: FrontCalls>(
    front: &mut F,
    line: &mut Line,
    moment: Moment,
    size: usize,
) -> Result<bool, NoAnswer> {
    let rest = line.waiting.get(line.at..).unwrap_or(&[]);
    let piece = rest.get(..size).unwrap_or(rest);
    let count = piece.len();
    if count == 0 {
        return Ok(false);
    }
    feed_and_answer(front, line.conn, piece, moment, &mut line.output)?;
    line.at = line.at.saturating_add(count);
    Ok(true)
}
