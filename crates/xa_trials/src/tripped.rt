//! Rows of a keeper that fails: a script of messages over keepers, each of which fails at another call.
use crate::answer::Answer;
use crate::calls::{CALLS, Call};
use crate::front_calls::ServerCalls;
use crate::keepers::tables;
use crate::no_answer::NoAnswer;
use crate::scripts::{messages_of, server_over};
use crate::tripping::Tripping;
use sqlite::MemStore;
use std::alloc::Global;
use xa_http::Message;
use xa_records::{PlainRecords, Records};
use xa_server::Server;
use xa_store::SqlRecords;
use xa_value::Moment;

/// The reply to a message that is refused: 503 (RFC 9110, section 15.6.4). It is written out here, so that
/// the bytes are checked, and not the name that the server gives to its reply.
const UNAVAILABLE: &str =
    "HTTP/1.1 503 Service Unavailable\r\nContent-Type: application/json\r\nContent-Length: 23\r\n\r\n{\"Error\":\"Unavailable\"}";

/// A keeper that is made anew for each run of a script.
trait Begin: Records {
    /// A keeper without domains.
    fn begin(alloc: Global) -> Result<Self, NoAnswer>;
}

impl Begin for PlainRecords {
    fn begin(alloc: Global) -> Result<PlainRecords, NoAnswer> {
        Ok(PlainRecords::new(alloc))
    }
}

impl Begin for SqlRecords<MemStore> {
    fn begin(alloc: Global) -> Result<SqlRecords<MemStore>, NoAnswer> {
        tables(alloc)
    }
}

/// What a run of the script has shown.
enum Verdict {
    /// This call failed.
    Failed(Call),
    /// No call failed.
    AllMade,
    /// A reply is wrong, or the failures aren't counted.
    Differs,
}

/// How many of the messages the server refuses; none if another reply isn't that of a server to which
/// the refused messages never came.
fn refusals<V: ServerCalls, W: ServerCalls>(
    server: &mut V,
    spared: &mut W,
    messages: &[(Moment, Message)],
) -> Option<u64> {
    let mut count = 0u64;
    for (moment, message) in messages {
        let reply = server.reply_to(*moment, message);
        if reply.bytes() == UNAVAILABLE.as_bytes() {
            count = count.saturating_add(1);
        } else if spared.reply_to(*moment, message).bytes() != reply.bytes() {
            return None;
        }
    }
    Some(count)
}

/// What the messages show of a server over a keeper of which a call fails, beside one that is spared. As
/// many messages have to be refused as calls have failed.
fn verdict_of<R: Records + Drop, W: ServerCalls>(
    mut server: Server<Tripping<R>>,
    spared: &mut W,
    messages: &[(Moment, Message)],
) -> Verdict {
    let count = refusals(&mut server, spared, messages);
    let records = server.into_records();
    if count != Some(records.faults()) {
        return Verdict::Differs;
    }
    match records.failed_call() {
        Some(call) => Verdict::Failed(call),
        None => Verdict::AllMade,
    }
}

/// Runs the script over the keeper, whose call after so many others fails, beside a server that is spared.
fn run_beside<R: Records + Drop, W: ServerCalls + Drop>(
    alloc: Global,
    records: R,
    mut spared: W,
    messages: &[(Moment, Message)],
    left: u64,
) -> Result<Verdict, NoAnswer> {
    let server = server_over(alloc, Tripping::new(records, left))?;
    Ok(verdict_of(server, &mut spared, messages))
}

/// Runs the script over a keeper whose call after so many others fails.
fn run_once<R: Begin + Drop>(
    alloc: Global,
    messages: &[(Moment, Message)],
    left: u64,
) -> Result<Verdict, NoAnswer> {
    let records = R::begin(alloc)?;
    let spared = server_over(alloc, R::begin(alloc)?)?;
    run_beside(alloc, records, spared, messages, left)
}

/// Adds how many calls failed in turn, and how many of each kind.
fn push_calls(answer: &mut Answer, failed: &[Call]) {
    answer.push_shown("calls ", &failed.len());
    for call in &CALLS {
        let count = failed.iter().filter(|other| **other == *call).count();
        answer.push_shown("", call);
        answer.append_shown(" ", &count);
    }
}

/// Runs the script again and again. Each time the next call fails, until none does.
fn fail_each_in_turn<R: Begin + Drop>(
    answer: &mut Answer,
    messages: &[(Moment, Message)],
) -> Result<(), NoAnswer> {
    let alloc = answer.alloc();
    let mut failed = Vec::new(alloc);
    for left in 0..u64::MAX {
        match run_once::<R>(alloc, messages, left)? {
            Verdict::Failed(call) => failed.push(call)?,
            Verdict::AllMade => {
                push_calls(answer, &failed);
                return Ok(());
            }
            Verdict::Differs => {
                answer.push_shown("!Differs ", &left);
                return Ok(());
            }
        }
    }
    Ok(())
}

/// Adds how many calls of the keeper the script makes, each of which failed in turn: over a keeper in
/// memory, and over tables, which have to come to the same.
fn fail_each_over_both(
    answer: &mut Answer,
    messages: &[(Moment, Message)],
) -> Result<(), NoAnswer> {
    fail_each_in_turn::<PlainRecords>(answer, messages)?;
    let mut other = Answer::new(answer.alloc());
    fail_each_in_turn::<SqlRecords<MemStore>>(&mut other, messages)?;
    answer.compare(&other);
    Ok(())
}

/// Adds how many calls the script of these events makes over a keeper, each of which failed in turn.
pub fn run_tripped_row(answer: &mut Answer, events: &[&str]) -> Result<(), NoAnswer> {
    let messages = messages_of(answer.alloc(), events)?;
    fail_each_over_both(answer, &messages)
}
