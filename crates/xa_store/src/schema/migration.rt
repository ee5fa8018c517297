//! The migration of tables of schema 1 to schema 2, in one transaction.
ghost use Rattle.std.specs.Prelude.{◌≡◌, IsTrue, OnOk};
ghost use Rattle.sqlite.specs.Held.{state};
ghost use Rattle.sqlite.specs.State.{HasCleanDisk};
ghost use Rattle.sqlite.specs.Tree.{Trees};
ghost use Rattle.xa_store.specs.keeping.Check.{MigratesTables};
ghost use Rattle.xa_store.specs.keeping.Migration.{migration_statement, IsAfter, IsBefore};
ghost use Rattle.xa_store.specs.keeping.Migration.{IsDone, IsSoundSchema1};
ghost use Rattle.xa_store.specs.keeping.Execution.{StaysInside};
ghost use Rattle.xa_store.specs.declared.schema.migration.MigrationStep.TheVariants as steps;

use crate::error::OpenError;
use crate::failure::error_of_statement;
use crate::schema::creation::CreationStep;
use crate::sql;
use crate::step::execution::execute_in;
use sqlite::{Alter, Connection, Transaction};
use xa_records::Failure;

/// A step of the migration: one statement.
#[derive(Clone, Copy, Debug)]
enum MigrationStep {
    /// The table of the rows of sources, with their issuers.
    Sources,
    /// All rows of sources in it, in the order in which they stood, without issuers.
    Rows,
    /// The table in which they stood, without rows.
    Attributes,
    /// The schema's number.
    Number,
}

impl MigrationStep {
    /// Its SQL. The database takes time and memory in proportion to all source rows; none passes through
    /// this program.
    fn statement(self) -> &'static str
        ensures { result.now ≡ migration_statement self }
    {
        match self {
            MigrationStep::Sources => CreationStep::Sources.statement(),
            MigrationStep::Rows => sql::COPY_ATTRIBUTES,
            MigrationStep::Attributes => sql::EMPTY_ATTRIBUTES,
            MigrationStep::Number => sql::SET_SCHEMA,
        }
    }
}

/// Takes the step.
fn take_migration_step<S: Alter>(
    tx: &mut Transaction<'_, S>,
    step: MigrationStep,
) -> Result<(), Failure>
    ensures same_reference { tx.new.conn.ghost_name ≡ tx.old.conn.ghost_name }
    ensures stays { StaysInside (state S.Store tx.old.conn.now) (state S.Store tx.new.conn.now) result }
    ensures moves { HasCleanDisk (state S.Store tx.new.conn.now)
        → IsTrue (state S.Store tx.old.conn.now).in_transaction → (first : Trees) → IsSoundSchema1 first
        → IsBefore step first (state S.Store tx.old.conn.now).now
        → OnOk result (IsAfter step first (state S.Store tx.new.conn.now).now) }
{
    execute_in(tx, step.statement(), &[])
}

/// Takes all steps, one after another.
fn take_migration_steps<S: Alter>(tx: &mut Transaction<'_, S>) -> Result<(), Failure>
    ensures same_reference { tx.new.conn.ghost_name ≡ tx.old.conn.ghost_name }
    ensures stays { StaysInside (state S.Store tx.old.conn.now) (state S.Store tx.new.conn.now) result }
    ensures moves { HasCleanDisk (state S.Store tx.new.conn.now)
        → IsTrue (state S.Store tx.old.conn.now).in_transaction → (first : Trees) → IsSoundSchema1 first
        → IsBefore steps.Sources first (state S.Store tx.old.conn.now).now
        → OnOk result (IsDone first (state S.Store tx.new.conn.now).now) }
{
    take_migration_step(tx, MigrationStep::Sources)?;
    take_migration_step(tx, MigrationStep::Rows)?;
    take_migration_step(tx, MigrationStep::Attributes)?;
    take_migration_step(tx, MigrationStep::Number)
}

/// Brings the tables into schema 2, all of them or none.
pub(crate) fn migrate<S: Alter>(conn: &mut Connection<S>) -> Result<(), OpenError>
    ensures { MigratesTables (state S.Store conn.old) (state S.Store conn.new) result }
{
    // For the proof: `transaction` requires that none is under way, which `Tested` doesn't tell.
    if !conn.is_autocommit() {
        return Err(OpenError::Store);
    }
    let mut tx = conn.transaction();
    take_migration_steps(&mut tx)?;
    tx.commit().map_err(error_of_statement)
}
