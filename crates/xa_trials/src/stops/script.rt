//! Scripts of stops: what the store holds before the first message, and the messages. First come fields
//! `sql:SQL`, statements that are run in an empty store before a keeper is opened over it. Then come fields
//! `made:BYTES`, messages by which a keeper comes to hold the same.
use crate::field::leading_and_rest;
use crate::files::{File, StoreOfFiles, files_under, new_files};
use crate::keepers::run_all;
use crate::no_answer::NoAnswer;
use crate::scripts::messages_of;
use crate::stores::empty_store;
use sqlite::Files;
use std::alloc::Global;
use xa_http::Message;
use xa_value::Moment;

/// A script.
#[derive(Drop)]
pub struct Script {
    /// The files of the store before.
    pub files: Files<File>,
    /// The messages by which a keeper comes to hold what is in them.
    pub made: Vec<(Moment, Message)>,
    /// The messages of the script itself.
    pub messages: Vec<(Moment, Message)>,
}

/// The files of a store in which the statements were run; empty ones, if there are none.
fn files_after<S: StoreOfFiles>(
    alloc: Global,
    statements: &[&str],
) -> Result<Files<File>, NoAnswer> {
    if statements.is_empty() {
        return Ok(new_files(alloc));
    }
    let mut conn = empty_store::<S>(alloc)?;
    run_all(alloc, &mut conn, statements)?;
    Ok(files_under(conn))
}

/// The script of these fields.
pub fn script_of<S: StoreOfFiles>(alloc: Global, fields: &[&str]) -> Result<Script, NoAnswer> {
    let (statements, rest) = leading_and_rest(fields, "sql");
    let (made, events) = leading_and_rest(rest, "made");
    Ok(Script {
        files: files_after::<S>(alloc, statements)?,
        made: messages_of(alloc, made)?,
        messages: messages_of(alloc, events)?,
    })
}
