//! The transaction of a change: all of its steps are taken or none, also over a crash.
ghost use Rattle.std.specs.Prelude.{◌≡◌, false, IsErrOf, OnErr, OnOk};
ghost use Rattle.sqlite.specs.Held.{state};
ghost use Rattle.sqlite.specs.State.{HasCleanDisk, Survives};
ghost use Rattle.sqlite.specs.declared.error.Error.{Error as SqliteError};
ghost use Rattle.sqlite.specs.declared.error.Error.TheVariants.{SqliteFailure};
ghost use Rattle.sqlite.specs.declared.error.ErrorCode.TheVariants.{OutOfMemory};
ghost use Rattle.xa_records.specs.declared.refusal.Failure.TheVariants.{Memory};
ghost use Rattle.xa_store.specs.keeping.Execution.{CommittedOver, FailsToCommitOver, Runs};

use crate::failure::failure_of;
use crate::step::Step;
use crate::step::execution::take_all;
use sqlite::{Alter, Connection, Transaction};
use std::alloc::Global;
use xa_records::Failure;

/// Commits the transaction. `Memory` only if the database told want of memory.
fn commit<S: Alter>(tx: Transaction<'_, S>) -> Result<(), Failure>
    ensures ended { tx.exit.0.now.in_transaction ≡ false }
    ensures commits { HasCleanDisk (state S.Store tx.exit.0.now)
        → OnOk result (CommittedOver S.Store tx.entry.conn.now tx.exit.0.now) }
    ensures fails { HasCleanDisk (state S.Store tx.exit.0.now)
        → OnErr result ((e : SqliteError) × FailsToCommitOver S.Store tx.entry.conn.now tx.exit.0.now e) }
    ensures wants { HasCleanDisk (state S.Store tx.exit.0.now) → IsErrOf result Memory
        → FailsToCommitOver S.Store tx.entry.conn.now tx.exit.0.now (SqliteFailure OutOfMemory) }
    ensures survives { Survives (state S.Store tx.entry.conn.now) (state S.Store tx.exit.0.now)
        (λ db. db ≡ (state S.Store tx.entry.conn.now).now.trees) }
{
    tx.commit().map_err(failure_of)
}

/// Takes all the steps, or none of them, also over a crash.
pub(crate) fn run<S: Alter>(
    alloc: Global,
    conn: &mut Connection<S>,
    steps: &[Step],
) -> Result<(), Failure>
    ensures { Runs steps.now (state S.Store conn.old) (state S.Store conn.new) result }
{
    if steps.is_empty() {
        return Ok(());
    }
    // For the proof: `transaction` requires that none is under way, which no clause tells here.
    if !conn.is_autocommit() {
        return Err(Failure::Store);
    }
    let mut tx = conn.transaction();
    take_all(alloc, &mut tx, steps)?;
    commit(tx)
}
