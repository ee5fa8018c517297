//! Rows that are answered over a keeper: over one in memory and over one of tables, which have to come to
//! the same.
use crate::answer::Answer;
use crate::connections::FrontTrial;
use crate::driven::run_driven_events;
use crate::field::{first_field_and_rest, number_of};
use crate::front_calls::{FrontCalls, Renew, ServerCalls};
use crate::keeper::make_all;
use crate::keepers::{Reopen, tables};
use crate::no_answer::{NoAnswer, unless_answered};
use crate::played::play_events;
use crate::scripts::messages_of;
use crate::server::run_server_events;
use crate::setup::{Setup, front_made, server_made, setup_and_events};
use crate::tripping::Tripping;
use xa_http::Message;
use xa_records::{PlainRecords, Records};
use xa_value::Moment;

/// How the events of a row come to a server.
#[derive(Clone, Copy)]
pub enum Manner {
    /// As the messages of a stream.
    Messages,
    /// As the calls of a front.
    FrontCalls,
    /// As the calls of a front, which are played.
    Played,
    /// As connections that are driven.
    Driven,
}

/// A row that is answered over any keeper.
#[derive(Clone, Copy)]
pub enum KeeperRow<'a> {
    /// The calls of the keeper itself.
    Calls(&'a [&'a str]),
    /// A server over the keeper: what stands before its first event, and the events.
    Server(Manner, &'a Setup, &'a [&'a str]),
    /// The same by messages, over a keeper around it whose call after so many others fails.
    FailingServer(u64, &'a Setup, &'a [&'a str]),
    /// A server over the keeper: what stands before, and the messages, which it answers in one run.
    Run(&'a Setup, &'a [(Moment, Message)]),
}

impl KeeperRow<'_> {
    /// Adds what is answered over the keeper.
    pub fn run<R: Reopen + Drop>(self, answer: &mut Answer, records: R) -> Result<(), NoAnswer> {
        unless_answered(match self {
            KeeperRow::Calls(calls) => make_all(answer, records, calls),
            KeeperRow::Server(manner, setup, events) => {
                run_over(answer, records, manner, setup, events)
            }
            KeeperRow::FailingServer(left, setup, events) => {
                let failing = Tripping::new(records, left);
                run_over(answer, failing, Manner::Messages, setup, events)
            }
            KeeperRow::Run(setup, messages) => {
                let server = server_made(answer, records, setup)?;
                push_replies(answer, server, messages)
            }
        })
    }
}

/// Adds the server's replies to the messages, which it answers in one run.
pub fn push_replies<V: ServerCalls + Drop>(
    answer: &mut Answer,
    mut server: V,
    messages: &[(Moment, Message)],
) -> Result<(), NoAnswer> {
    let replies = server.replies_to(messages)?;
    for reply in &replies {
        answer.push_field("", reply.bytes());
    }
    Ok(())
}

/// Runs the events on all connections of the front, from that moment on.
fn run_front_events<F: FrontCalls + Drop>(
    answer: &mut Answer,
    front: F,
    manner: Manner,
    moment: Moment,
    events: &[&str],
) -> Result<(), NoAnswer> {
    let mut trial = FrontTrial::new(answer.alloc(), front, moment)?;
    match manner {
        Manner::Played => play_events(answer, &mut trial, events),
        Manner::Driven => run_driven_events(answer, &mut trial, events),
        _ => trial.run_events(answer, events),
    }
}

/// Runs the events on the front, from that moment on.
fn run_events<F: Renew + Drop>(
    answer: &mut Answer,
    front: F,
    manner: Manner,
    moment: Moment,
    events: &[&str],
) -> Result<(), NoAnswer> {
    match manner {
        Manner::Messages => run_server_events(answer, front, moment, events),
        _ => run_front_events(answer, front, manner, moment, events),
    }
}

/// Runs the events on a front of a server over the keeper.
fn run_over<R: Reopen + Drop>(
    answer: &mut Answer,
    records: R,
    manner: Manner,
    setup: &Setup,
    events: &[&str],
) -> Result<(), NoAnswer> {
    let front = front_made(answer, records, setup)?;
    run_events(answer, front, manner, setup.moment, events)
}

/// Drives connections of a front of a server over the keeper, as the events say.
pub fn run_driven_over<R: Records + Drop>(
    answer: &mut Answer,
    records: R,
    setup: &Setup,
    events: &[&str],
) -> Result<(), NoAnswer> {
    let front = front_made(answer, records, setup)?;
    run_front_events(answer, front, Manner::Driven, setup.moment, events)
}

/// Answers the row over the keeper in memory.
pub fn run_in_memory(answer: &mut Answer, row: KeeperRow<'_>) -> Result<(), NoAnswer> {
    let alloc = answer.alloc();
    row.run(answer, PlainRecords::new(alloc))
}

/// Answers the row over a further keeper, which has to come to the same.
pub fn compare_over<R: Reopen + Drop>(
    answer: &mut Answer,
    row: KeeperRow<'_>,
    records: R,
) -> Result<(), NoAnswer> {
    let mut other = Answer::new(answer.alloc());
    row.run(&mut other, records)?;
    answer.compare(&other);
    Ok(())
}

/// Answers the row over a keeper in memory and over tables, which have to come to the same.
pub fn run_over_both(answer: &mut Answer, row: KeeperRow<'_>) -> Result<(), NoAnswer> {
    run_in_memory(answer, row)?;
    let records = tables(answer.alloc())?;
    compare_over(answer, row, records)
}

/// Answers a row of a server over both.
pub fn run_server_row(
    answer: &mut Answer,
    manner: Manner,
    fields: &[&str],
) -> Result<(), NoAnswer> {
    let (setup, events) = setup_and_events(answer.alloc(), fields)?;
    run_over_both(answer, KeeperRow::Server(manner, &setup, events))
}

/// Answers a row of messages that a server answers in one run, over both.
pub fn run_whole_row(answer: &mut Answer, fields: &[&str]) -> Result<(), NoAnswer> {
    let alloc = answer.alloc();
    let (setup, events) = setup_and_events(alloc, fields)?;
    let messages = messages_of(alloc, events)?;
    run_over_both(answer, KeeperRow::Run(&setup, messages.as_slice()))
}

/// Answers a row of messages to a server over both, of each of which a call fails. The first field says
/// after how many others.
pub fn run_failing_row(answer: &mut Answer, fields: &[&str]) -> Result<(), NoAnswer> {
    let (calls, fields) = first_field_and_rest(fields)?;
    let left = number_of(calls)?;
    let (setup, events) = setup_and_events(answer.alloc(), fields)?;
    run_over_both(answer, KeeperRow::FailingServer(left, &setup, events))
}

/// Answers a row of messages to a server over the keeper in memory alone.
pub fn run_messages_in_memory(answer: &mut Answer, fields: &[&str]) -> Result<(), NoAnswer> {
    let (setup, events) = setup_and_events(answer.alloc(), fields)?;
    run_in_memory(answer, KeeperRow::Server(Manner::Messages, &setup, events))
}

/// Answers a row of messages to a server over tables alone.
pub fn run_messages_in_tables(answer: &mut Answer, fields: &[&str]) -> Result<(), NoAnswer> {
    let alloc = answer.alloc();
    let (setup, events) = setup_and_events(alloc, fields)?;
    KeeperRow::Server(Manner::Messages, &setup, events).run(answer, tables(alloc)?)
}
