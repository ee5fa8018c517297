//! Rows of a store in a file of this machine, which is opened again. First the messages of the domains are
//! answered over it, and its files are closed. Then it is opened by the call by which `pdpd` opens its own,
//! but under a `Start` of this program's, and a server over what is found answers the events in one run. What
//! a `Start` says that the files held is ghost, so no answer may depend on it.
ghost use Rattle.std.specs.Prelude.{[], ◌∷◌, false};

use crate::answer::Answer;
use crate::keeper_rows::push_replies;
use crate::keepers::keeper_over;
use crate::no_answer::{NoAnswer, unless_answered};
use crate::scripts::{messages_of, server_over};
use crate::setup::{Setup, server_made, setup_and_events};
use sqlite::{Alter, Connection, FileFrom, FileStore, Start, Unknown};
use std::fs::{self, File};
use std::rt::HostRuntime;
use xa_http::Message;
use xa_value::Moment;

/// How many rows may have a file at once.
const MAX_FILES: usize = 1_000;

/// Files that were closed: the database's isn't empty, and a crash may leave any bytes of a torn write. No
/// clause rests on that.
#[derive(Drop)]
struct Closed;

impl Start for Closed {
    ghost log = { [] };

    ghost db = { 83 ∷ [] };

    ghost is_mixing = { false };

    fn mixes() -> bool {
        false
    }
}

/// A file that nobody else has, and where its log comes to lie.
#[derive(Drop)]
struct RowFile {
    /// The path of the file.
    path: String,
    /// The path of the log.
    log: String,
}

impl RowFile {
    /// An empty file.
    fn new(rt: &HostRuntime) -> Result<RowFile, NoAnswer> {
        let alloc = rt.alloc();
        for number in 0..MAX_FILES {
            let path = format!(in alloc; "/tmp/xa_trials-{number}")?;
            let log = format!(in alloc; "/tmp/xa_trials-{number}-wal")?;
            if File::create_new(rt, path.as_str()).is_ok() {
                return Ok(RowFile { path, log });
            }
        }
        Err(NoAnswer::NotOpened)
    }

    /// Removes both, the log first: so long as the file is there, no other row takes its name.
    fn remove(&self, rt: &HostRuntime) {
        let _ = fs::remove_file(rt, self.log.as_str());
        let _ = fs::remove_file(rt, self.path.as_str());
    }

    /// A connection to the store in the file.
    fn connection<S: Start>(
        &self,
        rt: &HostRuntime,
        start: S,
    ) -> Result<Connection<FileStore<FileFrom<S>>>, NoAnswer> {
        match Connection::open_from(rt, self.path.as_str(), true, start) {
            Ok(conn) => Ok(conn),
            Err(_) => Err(NoAnswer::NotOpened),
        }
    }
}

/// The connection, once a server over its store has answered the messages that stand before the events.
fn connection_made<S: Alter + Drop>(
    answer: &mut Answer,
    conn: Connection<S>,
    setup: &Setup,
) -> Result<Connection<S>, NoAnswer> {
    let records = keeper_over(answer.alloc(), conn)?;
    let server = server_made(answer, records, setup)?;
    Ok(server.into_records().into_connection())
}

/// Adds the replies to the messages of a server over the store, which answers them in one run.
fn push_replies_over<S: Alter + Drop>(
    answer: &mut Answer,
    conn: Connection<S>,
    messages: &[(Moment, Message)],
) -> Result<(), NoAnswer> {
    let records = keeper_over(answer.alloc(), conn)?;
    let server = server_over(answer.alloc(), records)?;
    push_replies(answer, server, messages)
}

/// Has the messages that stand before the events answered over the store in the file, and closes it.
fn make(
    answer: &mut Answer,
    rt: &HostRuntime,
    file: &RowFile,
    setup: &Setup,
) -> Result<(), NoAnswer> {
    let conn = connection_made(answer, file.connection(rt, Unknown)?, setup)?;
    conn.close().ok().ok_or(NoAnswer::NotOpened)
}

/// Makes the store in the file, opens it again, and adds the replies to the messages.
fn reopen(
    answer: &mut Answer,
    rt: &HostRuntime,
    file: &RowFile,
    setup: &Setup,
    messages: &[(Moment, Message)],
) -> Result<(), NoAnswer> {
    make(answer, rt, file, setup)?;
    push_replies_over(answer, file.connection(rt, Closed)?, messages)
}

/// What a server answers over a store that was closed and is opened again.
pub fn reopened(answer: &mut Answer, rt: &HostRuntime, fields: &[&str]) -> Result<(), NoAnswer> {
    let (setup, events) = setup_and_events(rt.alloc(), fields)?;
    let messages = messages_of(rt.alloc(), events)?;
    let file = RowFile::new(rt)?;
    let done = reopen(answer, rt, &file, &setup, messages.as_slice());
    file.remove(rt);
    unless_answered(done)
}
