//! The keepers over which rows are answered, and the stores under them.
use crate::field::text_of;
use crate::no_answer::NoAnswer;
use sqlite::{Alter, Connection, MemStore};
use std::alloc::Global;
use xa_records::{PlainRecords, Records};
use xa_store::{OpenError, SqlRecords};

/// A keeper that can be stopped, and taken up again.
pub trait Reopen: Records {
    /// The keeper of what this one kept, taken up again.
    fn keeper_after_stop(self, alloc: Global) -> Result<Self, NoAnswer>;
}

impl Reopen for PlainRecords {
    fn keeper_after_stop(self, _: Global) -> Result<PlainRecords, NoAnswer> {
        Ok(self)
    }
}

impl Reopen for SqlRecords<MemStore> {
    fn keeper_after_stop(self, alloc: Global) -> Result<SqlRecords<MemStore>, NoAnswer> {
        keeper_over(alloc, self.into_connection())
    }
}

/// The keeper of the store; or why it isn't opened, and the connection. `SqlRecords::open` has long clauses,
/// on which no row rests: it is called here alone, and its callers are proved without them.
pub fn open_keeper<S: Alter>(
    alloc: Global,
    conn: Connection<S>,
) -> Result<SqlRecords<S>, (OpenError, Connection<S>)> {
    SqlRecords::open(alloc, conn)
}

/// Runs the statements of each field in the store: `sql:SQL`, or the statements alone.
pub fn run_all<S: Alter>(
    alloc: Global,
    conn: &mut Connection<S>,
    fields: &[&str],
) -> Result<(), NoAnswer> {
    for field in fields {
        let sql = text_of(alloc, field.strip_prefix("sql:").unwrap_or(*field))?;
        conn.execute_batch(sql.as_str())
            .ok()
            .ok_or(NoAnswer::Malformed)?;
    }
    Ok(())
}

/// A connection to a store in memory in which the statements of the fields were run.
pub fn connection_after(alloc: Global, fields: &[&str]) -> Result<Connection<MemStore>, NoAnswer> {
    let mut conn = Connection::open_in_memory(alloc)?;
    run_all(alloc, &mut conn, fields)?;
    Ok(conn)
}

/// The keeper over the store.
pub fn keeper_over<S: Alter + Drop>(
    alloc: Global,
    conn: Connection<S>,
) -> Result<SqlRecords<S>, NoAnswer> {
    match open_keeper(alloc, conn) {
        Ok(records) => Ok(records),
        Err((OpenError::Memory, _)) => Err(NoAnswer::Memory),
        Err(_) => Err(NoAnswer::NotOpened),
    }
}

/// A keeper over tables in memory, without domains.
pub fn tables(alloc: Global) -> Result<SqlRecords<MemStore>, NoAnswer> {
    keeper_over(alloc, connection_after(alloc, &[])?)
}

/// A keeper over tables in memory with one domain of that name, number and epoch, in which nothing has
/// been put yet. The next domain gets the number after it.
pub fn tables_with(
    alloc: Global,
    name: &str,
    number: u64,
    epoch: u64,
) -> Result<SqlRecords<MemStore>, NoAnswer> {
    let next = number.saturating_add(1);
    let sql = format!(in alloc;
        "UPDATE meta SET next_number = {next}; INSERT INTO domains VALUES ({number}, '{name}', {epoch})"
    )?;
    let mut conn = tables(alloc)?.into_connection();
    run_all(alloc, &mut conn, &[sql.as_str()])?;
    keeper_over(alloc, conn)
}
