//! The kinds of rows. Each has one arm, which is found by the kind's name alone. What the arm calls says how
//! many fields there are. The arms stand in families, a function each, which leaves other kinds to the next.
use crate::answer::Answer;
use crate::files::{File, StoreOfFiles};
use crate::keeper_rows::{
    KeeperRow, Manner, run_failing_row, run_in_memory, run_messages_in_memory,
    run_messages_in_tables, run_over_both, run_server_row, run_whole_row,
};
use crate::no_answer::NoAnswer;
use crate::{
    bodies, combining, decisions, documents, frozen, functions, keeper, linking, loopback,
    messages, plain, references, reopened, requests, stops, stored, stores, tripped, values,
    versions,
};
use sqlite::FileStore;

/// Answers a row of a store in files. There are no kinds beside these.
fn answer_files<S: StoreOfFiles>(
    answer: &mut Answer,
    kind: &str,
    fields: &[&str],
) -> Result<(), NoAnswer> {
    match kind {
        "opened" => stores::opening::<S>(answer, fields),
        "stops" => stops::stops::<S>(answer, fields),
        "frozen" => frozen::run_frozen_row::<S>(answer, fields),
        _ => Err(NoAnswer::Malformed),
    }
}

/// Answers a row of a store in files, as SQLite keeps them.
fn answer_file_store(answer: &mut Answer, kind: &str, fields: &[&str]) -> Result<(), NoAnswer> {
    answer_files::<FileStore<File>>(answer, kind, fields)
}

/// Answers a row of a keeper, or of a store under one.
fn answer_keeper(answer: &mut Answer, kind: &str, fields: &[&str]) -> Result<(), NoAnswer> {
    match kind {
        "keeper" => run_over_both(answer, KeeperRow::Calls(fields)),
        "keeper_in_memory" => run_in_memory(answer, KeeperRow::Calls(fields)),
        "keeper_with" => keeper::keeper_with(answer, fields),
        "stored" => stored::run_stored_row(answer, fields),
        _ => answer_file_store(answer, kind, fields),
    }
}

/// Answers a row of a server.
fn answer_server(answer: &mut Answer, kind: &str, fields: &[&str]) -> Result<(), NoAnswer> {
    match kind {
        "server" => run_server_row(answer, Manner::Messages, fields),
        "server_in_memory" => run_messages_in_memory(answer, fields),
        "server_in_tables" => run_messages_in_tables(answer, fields),
        "run" => run_whole_row(answer, fields),
        "front" => run_server_row(answer, Manner::FrontCalls, fields),
        "played" => run_server_row(answer, Manner::Played, fields),
        "driven" => run_server_row(answer, Manner::Driven, fields),
        "tripped" => tripped::run_tripped_row(answer, fields),
        "tripped_after" => run_failing_row(answer, fields),
        _ => answer_keeper(answer, kind, fields),
    }
}

/// Answers a row of messages, of their parts, or of a decision.
fn answer_message(answer: &mut Answer, kind: &str, fields: &[&str]) -> Result<(), NoAnswer> {
    match kind {
        "token" => messages::token(answer, fields),
        "domain" => messages::domain(answer, fields),
        "digest" => messages::digest(answer, fields),
        "route" => messages::route(answer, fields),
        "stream" => messages::stream(answer, fields),
        "decide" => decisions::decision(answer, fields),
        _ => answer_server(answer, kind, fields),
    }
}

/// Answers a row of a text that is read: a name, a version, a document or a body.
fn answer_text(answer: &mut Answer, kind: &str, fields: &[&str]) -> Result<(), NoAnswer> {
    match kind {
        "type" => values::data_type(answer, fields),
        "numbered" => values::data_type_of_number(answer, fields),
        "category" => values::category(answer, fields),
        "version" => versions::version(answer, fields),
        "pattern" => versions::pattern(answer, fields),
        "document" => documents::document(answer, fields),
        "request" => requests::request(answer, fields),
        "individuals" => requests::individuals(answer, fields),
        "new_token" => bodies::new_token(answer, fields),
        "old_token" => bodies::old_token(answer, fields),
        "root" => bodies::root(answer, fields),
        "rows" => bodies::rows(answer, fields),
        _ => answer_message(answer, kind, fields),
    }
}

/// Answers a row of functions, of combining, or of what a reference stands for.
fn answer_function(answer: &mut Answer, kind: &str, fields: &[&str]) -> Result<(), NoAnswer> {
    match kind {
        "function" => functions::function(answer, fields),
        "apply" => functions::apply(answer, fields),
        "higher" => functions::higher(answer, fields),
        "combine" => combining::combination(answer, fields),
        "resolve" => references::resolution(answer, fields),
        "link" => linking::tree(answer, fields),
        _ => answer_text(answer, kind, fields),
    }
}

/// Answers a row of values.
fn answer_value(answer: &mut Answer, kind: &str, fields: &[&str]) -> Result<(), NoAnswer> {
    match kind {
        "months" => values::months(answer, fields),
        "nanoseconds" => values::nanoseconds(answer, fields),
        "read" => values::read(answer, fields),
        "same" => values::same(answer, fields),
        "order" => values::order(answer, fields),
        "number" => values::number(answer, fields),
        "plain" => plain::plain_member(answer, fields),
        _ => answer_function(answer, kind, fields),
    }
}

/// Answers a row, whose first field is its kind. Two are of no family: they alone need the runtime.
pub fn answer_row(rt: &HostRuntime, answer: &mut Answer, fields: &[&str]) -> Result<(), NoAnswer> {
    let [kind, fields @ ..] = fields else {
        return Err(NoAnswer::Malformed);
    };
    match *kind {
        "loopback" => loopback::loopback(answer, rt, fields),
        "reopened" => reopened::reopened(answer, rt, fields),
        kind => answer_value(answer, kind, fields),
    }
}
