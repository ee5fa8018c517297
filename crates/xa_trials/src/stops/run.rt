//! A run of a script over files, one of which may be frozen. It ends with the first message that is
//! refused, the one that the stop has struck.
use crate::files::{File, StoreOfFiles, files_under, keeper_of};
use crate::front_calls::ServerCalls;
use crate::no_answer::NoAnswer;
use crate::scripts::server_over;
use sqlite::Files;
use sqlite_disk::Disk;
use std::alloc::Global;
use xa_http::Message;
use xa_records::Records;
use xa_server::Reply;
use xa_value::Moment;

/// What has become of a run of the script.
#[derive(Drop)]
pub enum Run {
    /// A stop has struck the message of this number, counted from 1; 0 if the store wasn't even opened.
    /// These are the files.
    Stopped(usize, Files<File>),
    /// All messages were answered.
    Ended,
}

/// The number of the first message that is refused, from 1; 0 if none is.
fn first_refused<V: ServerCalls>(server: &mut V, messages: &[(Moment, Message)]) -> usize {
    let mut number = 0usize;
    for (moment, message) in messages {
        number = number.saturating_add(1);
        if let Reply::Refused(_) = server.reply_to(*moment, message) {
            return number;
        }
    }
    0
}

/// The number of the first message that a server over the keeper refuses, from 1, or 0 if none is; and the
/// keeper, which is given back.
fn first_refused_over<R: Records + Drop>(
    alloc: Global,
    records: R,
    messages: &[(Moment, Message)],
) -> Result<(usize, R), NoAnswer> {
    let mut server = server_over(alloc, records)?;
    let refused = first_refused(&mut server, messages);
    Ok((refused, server.into_records()))
}

/// Whether a file is frozen, as far as its next call tells.
fn is_frozen(files: &mut Files<File>) -> bool {
    !files.may_be_used() || files.log.len().is_err() || files.db.len().is_err()
}

/// Runs the script over the files, up to the stop. A stop that no message has shown has struck the last.
pub fn run_of<S: StoreOfFiles>(
    alloc: Global,
    files: Files<File>,
    messages: &[(Moment, Message)],
) -> Result<Run, NoAnswer> {
    let records = match keeper_of::<S>(alloc, files) {
        Ok(records) => records,
        Err(files) => return Ok(Run::Stopped(0, files)),
    };
    let (refused, records) = first_refused_over(alloc, records, messages)?;
    let mut files = files_under(records.into_connection());
    if refused > 0 {
        return Ok(Run::Stopped(refused, files));
    }
    if is_frozen(&mut files) {
        return Ok(Run::Stopped(messages.len(), files));
    }
    Ok(Run::Ended)
}
