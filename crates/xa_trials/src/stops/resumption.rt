//! Whether a server over what a stop has left answers the rest of a script rightly.
use crate::files::{File, StoreOfFiles, keeper_of};
use crate::front_calls::ServerCalls;
use crate::no_answer::NoAnswer;
use crate::scripts::server_over;
use crate::stops::script::Script;
use sqlite::Files;
use std::alloc::Global;
use xa_http::Message;
use xa_records::{PlainRecords, Records};
use xa_server::Reply;
use xa_value::Moment;

/// The server, after the first of the messages, so many at most.
fn server_after<V: ServerCalls>(mut server: V, messages: &[(Moment, Message)], count: usize) -> V {
    for (moment, message) in messages.iter().take(count) {
        server.reply_to(*moment, message);
    }
    server
}

/// The server's replies to the messages.
fn replies_of<V: ServerCalls + Drop>(
    mut server: V,
    messages: &[(Moment, Message)],
) -> Result<Vec<Reply>, NoAnswer> {
    server.replies_to(messages)
}

/// The messages after that one.
fn messages_behind(script: &Script, struck: usize) -> &[(Moment, Message)] {
    script.messages.get(struck..).unwrap_or(&[])
}

/// The replies to the messages after that one, of a server over a keeper in memory. It has answered the
/// messages that made the store, and so many of the script's.
fn replies_behind(
    alloc: Global,
    script: &Script,
    struck: usize,
    count: usize,
) -> Result<Vec<Reply>, NoAnswer> {
    let server = server_over(alloc, PlainRecords::new(alloc))?;
    let server = server_after(server, &script.made, usize::MAX);
    let server = server_after(server, &script.messages, count);
    replies_of(server, messages_behind(script, struck))
}

/// Whether the replies are of the same bytes, one by one.
fn are_alike(left: &[Reply], right: &[Reply]) -> bool {
    left.len() == right.len()
        && left
            .iter()
            .zip(right)
            .all(|(left, right)| left.bytes() == right.bytes())
}

/// Whether the messages after that one were answered as if it had never come, or as if it had been answered.
fn are_right(
    alloc: Global,
    script: &Script,
    struck: usize,
    replies: &[Reply],
) -> Result<bool, NoAnswer> {
    for count in [struck.saturating_sub(1), struck] {
        let others = replies_behind(alloc, script, struck, count)?;
        if are_alike(replies, &others) {
            return Ok(true);
        }
    }
    Ok(false)
}

/// Whether a server over the keeper goes on after that message.
fn keeper_goes_on<R: Records + Drop>(
    alloc: Global,
    records: R,
    script: &Script,
    struck: usize,
) -> Result<bool, NoAnswer> {
    let server = server_over(alloc, records)?;
    let replies = replies_of(server, messages_behind(script, struck))?;
    are_right(alloc, script, struck, &replies)
}

/// Whether the store in the files is opened, and a server over it goes on after that message.
pub fn is_resumed<S: StoreOfFiles>(
    alloc: Global,
    files: Files<File>,
    script: &Script,
    struck: usize,
) -> Result<bool, NoAnswer> {
    match keeper_of::<S>(alloc, files) {
        Ok(records) => keeper_goes_on(alloc, records, script, struck),
        Err(_) => Ok(false),
    }
}
