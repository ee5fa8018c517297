//! Rows of servers over a store that was there. First come fields `sql:SQL`, statements that are run in an
//! empty store. Then the keeper is opened over it, and the other fields are a row of a server.
use crate::answer::Answer;
use crate::field::leading_and_rest;
use crate::keeper_rows::{KeeperRow, Manner};
use crate::keepers::{connection_after, open_keeper};
use crate::no_answer::NoAnswer;
use crate::setup::setup_and_events;

/// What the server answers to the events; or why the keeper isn't opened.
pub fn run_stored_row(answer: &mut Answer, fields: &[&str]) -> Result<(), NoAnswer> {
    let alloc = answer.alloc();
    let (statements, fields) = leading_and_rest(fields, "sql");
    let (setup, events) = setup_and_events(alloc, fields)?;
    let conn = connection_after(alloc, statements)?;
    match open_keeper(alloc, conn) {
        Ok(records) => KeeperRow::Server(Manner::Messages, &setup, events).run(answer, records),
        Err((error, _)) => {
            answer.push_shown("!", &error);
            Ok(())
        }
    }
}
