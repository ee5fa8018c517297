//! The steps of a change, executed one after another in its transaction.
ghost use Rattle.std.specs.Prelude.{◌≡◌, Err, IsErrOf, IsTrue, OnOk};
ghost use Rattle.sqlite.specs.Held.{state};
ghost use Rattle.sqlite.specs.State.{ExecutesInside, HasCleanDisk};
ghost use Rattle.sqlite.specs.Values.{bound};
ghost use Rattle.sqlite.specs.declared.error.Error.TheVariants.{SqliteFailure};
ghost use Rattle.sqlite.specs.declared.error.ErrorCode.TheVariants.{OutOfMemory};
ghost use Rattle.xa_records.specs.declared.refusal.Failure.TheVariants.{Memory};
ghost use Rattle.xa_store.specs.Meaning.{rows_of};
ghost use Rattle.xa_store.specs.keeping.Steps.{AllowsAll};
ghost use Rattle.xa_store.specs.keeping.Execution.{IsInside, Ran, StaysInsideOver, Takes, Took};

use crate::failure::failure_of;
use crate::step::Step;
use crate::step::document::{add_document, drop_document, set_active};
use crate::step::domain::{add_domain, drop_domain, set_epoch, set_next};
use crate::step::root::{add_root, drop_root};
use crate::step::source::{add_source_row, drop_source};
use crate::step::token::{add_token, drop_token, set_role};
use sqlite::types::ValueRef;
use sqlite::{Alter, Transaction};
use std::alloc::Global;
use xa_records::Failure;

/// Runs one statement. `Memory` only if the database told want of memory.
pub(crate) fn execute_in<S: Alter>(
    tx: &mut Transaction<'_, S>,
    sql: &str,
    given: &[ValueRef<'_>],
) -> Result<(), Failure>
    ensures same_reference { tx.new.conn.ghost_name ≡ tx.old.conn.ghost_name }
    ensures stays { StaysInsideOver S.Store tx.old.conn.now tx.new.conn.now result }
    ensures wants { HasCleanDisk (state S.Store tx.new.conn.now)
        → IsTrue (state S.Store tx.old.conn.now).in_transaction → IsErrOf result Memory
        → ExecutesInside 0 sql.now (bound given.now)
        (state S.Store tx.old.conn.now) (state S.Store tx.new.conn.now) (Err (SqliteFailure OutOfMemory)) }
    ensures runs { HasCleanDisk (state S.Store tx.new.conn.now)
        → IsTrue (state S.Store tx.old.conn.now).in_transaction
        → OnOk result (Ran S.Store sql.now (bound given.now) tx.old.conn.now tx.new.conn.now) }
{
    match tx.execute(sql, given) {
        Ok(_) => Ok(()),
        Err(error) => Err(failure_of(error)),
    }
}

/// Takes the step.
fn take<S: Alter>(alloc: Global, tx: &mut Transaction<'_, S>, step: &Step) -> Result<(), Failure>
    ensures same_reference { tx.new.conn.ghost_name ≡ tx.old.conn.ghost_name }
    ensures stays { StaysInsideOver S.Store tx.old.conn.now tx.new.conn.now result }
    ensures takes { Takes step.now (state S.Store tx.old.conn.now) (state S.Store tx.new.conn.now) result }
{
    match step {
        Step::AddDomain { number, name } => add_domain(tx, *number, name),
        Step::SetNext(next) => set_next(tx, *next),
        Step::SetEpoch(raised) => set_epoch(tx, *raised),
        Step::DropDomain(number) => drop_domain(tx, *number),
        Step::AddToken {
            number,
            digest,
            role,
        } => add_token(tx, *number, digest, *role),
        Step::SetRole {
            number,
            digest,
            role,
        } => set_role(tx, *number, digest, *role),
        Step::DropToken { number, digest } => drop_token(tx, *number, digest),
        Step::AddDocument { number, key, text } => {
            add_document(alloc, tx, *number, key, text.as_slice())
        }
        Step::SetActive {
            number,
            key,
            active,
        } => set_active(alloc, tx, *number, key, *active),
        Step::DropDocument { number, key } => drop_document(alloc, tx, *number, key),
        Step::AddRoot { number, root } => add_root(alloc, tx, *number, root),
        Step::DropRoot(number) => drop_root(tx, *number),
        Step::AddSourceRow { number, place, row } => add_source_row(
            alloc, tx, *number, *place, row,
        ),
        Step::DropSource(number) => drop_source(tx, *number),
    }
}

/// Takes the steps, one after another.
pub(crate) fn take_all<S: Alter>(
    alloc: Global,
    tx: &mut Transaction<'_, S>,
    steps: &[Step],
) -> Result<(), Failure>
    ensures same_reference { tx.new.conn.ghost_name ≡ tx.old.conn.ghost_name }
    ensures stays { StaysInsideOver S.Store tx.old.conn.now tx.new.conn.now result }
    ensures takes { HasCleanDisk (state S.Store tx.new.conn.now) → IsInside (state S.Store tx.old.conn.now)
        → AllowsAll steps.now (rows_of (state S.Store tx.old.conn.now).now.trees)
        → OnOk result (Took steps.now (state S.Store tx.old.conn.now) (state S.Store tx.new.conn.now)) }
{
    for step in steps {
        take(alloc, tx, step)?;
    }
    Ok(())
}
